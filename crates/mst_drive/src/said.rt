ghost use Rattle.std.specs.Prelude.{◌≡◌, ℕ, List, false, OnOk, OnErr};
ghost use Rattle.std.specs.Io.KnownBytes.{Appends};
ghost use Rattle.mst_io.specs.Devices.{Works, IsStopped};
ghost use Rattle.mst_io.specs.Written.{AppendsFront};

use mst_io::{Sink, WriteFailed, put};

/// What a job says of a line, or of the end of its input.
pub trait Says {
    /// What is printed of it.
    ghost text: { Self → List ℕ };

    /// Writes it. After a failure a front of it went out, and the sink wasn't called again.
    fn put<K: Sink>(&self, sink: &mut K) -> Result<(), WriteFailed>
        requires working { (K.told sink.old).failed ≡ false }
        ensures ok { OnOk result (Appends (K.contents sink.old) (K.contents sink.new) (text self.now)) }
        ensures err { OnErr result (AppendsFront (K.contents sink.old) (K.contents sink.new) (text self.now)) }
        ensures works { OnOk result (Works (K.told sink.old) (K.told sink.new)) }
        ensures broken { OnErr result (IsStopped (K.told sink.old) (K.told sink.new)) }
        ensures lent { K.lent sink.new ≡ K.lent sink.old };
}

/// Nothing, or a text that is whole before its first byte is written.
#[derive(Drop)]
pub enum Said {
    Nothing,
    Text(Vec<u8>),
}

impl Says for Said {
    ghost use Rattle.mst_drive.specs.Said.{said_text};

    ghost text = { said_text };

    fn put<K: Sink>(&self, sink: &mut K) -> Result<(), WriteFailed> {
        match self {
            Said::Nothing => Ok(()),
            Said::Text(text) => put(sink, text.as_slice()),
        }
    }
}
