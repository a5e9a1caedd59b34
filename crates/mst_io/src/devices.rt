ghost use Rattle.std.specs.Prelude.{◌≡◌, ℕ, false, List, length, Option, None, ⊤};
ghost use Rattle.std.specs.Borrow.{GName};
ghost use Rattle.std.specs.Io.{ReadsAtMost, WritesAtMost};
ghost use Rattle.std.specs.Io.KnownBytes.{Keeps, ReadConsumes, WriteAppends};
ghost use Rattle.mst_io.specs.Devices.{Seen, Told, called, flushed, given, seen_by};

/// The device has failed. It isn't called again.
#[derive(Clone, Copy, Debug, PartialEq, Eq)]
pub struct Failed;

/// What an input is read from, a call at a time, until it fails. [`FromRead`](crate::FromRead) makes one of a reader.
pub trait Source {
    /// The bytes that calls will give from here on, where they are known.
    ghost remaining: { Self → Option (List ℕ) } = { λ _. None };

    /// Whether it has failed, and what it counts of its calls. One that gave no byte, though there was room, found the
    /// end.
    ghost told: { Self → Told };

    /// The reference that it reads through, where it was lent one: a call keeps it, so that who lent it knows what was
    /// done with it.
    ghost lent: { Self → Option GName } = { λ _. None };

    /// What else a call does, which gives these bytes and is shown this sink: a source may listen to what goes through it, and note
    /// what had gone out by then.
    ghost hears: { Self → Self → List ℕ → Seen → Type 0 } = { λ _ _ _ _. ⊤ };

    /// Whether it has failed.
    fn failed(&self) -> bool
        ensures { result ≡ (told self.now).failed };

    /// Gives bytes, at the front of the buffer. None, where there is room, are the end. It is shown the sink that what is told of the
    /// bytes goes to, and is called only where that holds nothing back: who waits for what was told before it gives more has got it.
    fn fill<K: Sink>(&mut self, buffer: &mut [u8], sink: &K) -> Result<usize, Failed>
        requires working { (told self.old).failed ≡ false }
        requires sent { (K.told sink.now).unsent ≡ false }
        ensures bound { ReadsAtMost result buffer.new }
        ensures bytes { ReadConsumes (remaining self.old) (remaining self.new) result buffer.new }
        ensures told { told self.new ≡ called (told self.old) result (length buffer.old) }
        ensures lent { lent self.new ≡ lent self.old }
        ensures heard { hears self.old self.new (given result buffer.new) (seen_by K.told K.contents K.lent sink.now) };
}

/// What a text is written to, a call at a time, until it fails. [`ToWrite`](crate::ToWrite) makes one of a writer.
pub trait Sink {
    /// The bytes that it holds, where they are known.
    ghost contents: { Self → Option (List ℕ) } = { λ _. None };

    /// Whether it has failed, and what it counts of its calls.
    ghost told: { Self → Told };

    /// The reference that it writes through, where it was lent one: a call keeps it, so that who lent it knows what was
    /// done with it.
    ghost lent: { Self → Option GName } = { λ _. None };

    /// Whether it has failed.
    fn failed(&self) -> bool
        ensures { result ≡ (told self.now).failed };

    /// Takes bytes, from the front of the part.
    fn put(&mut self, part: &[u8]) -> Result<usize, Failed>
        requires working { (told self.old).failed ≡ false }
        ensures bound { WritesAtMost result part.now }
        ensures bytes { WriteAppends (contents self.old) (contents self.new) result part.now }
        ensures told { told self.new ≡ called (told self.old) result (length part.now) }
        ensures lent { lent self.new ≡ lent self.old };

    /// Sends on what it has taken and still holds back, if it does that: all that was put has gone out then. It isn't
    /// counted among the calls.
    fn flush(&mut self) -> Result<(), Failed>
        requires working { (told self.old).failed ≡ false }
        ensures bytes { Keeps (contents self.old) (contents self.new) }
        ensures told { told self.new ≡ flushed (told self.old) result }
        ensures lent { lent self.new ≡ lent self.old };
}
