ghost use Rattle.std.specs.Prelude.{◌≡◌, ◌≤◌, ◌^◌, ◌<◌, ◌∷◌, [], false, length, MatchOption, IfOk, IfSome, OnErr};
ghost use Rattle.mst_drive.specs.Words.{HasTold, Unwritten};
ghost use Rattle.mst_io.specs.Devices.{HearsWhere, IsCalled, seen_by};
ghost use Rattle.mst_ask.specs.Answering.{IsLeft, IsScript};
ghost use Rattle.mst_ask.specs.Lines.{lines_in};

use mst_io::{Sink, Source, without_cr};
use std::alloc::{AllocError, Global};

/// What was read of a script.
#[derive(Drop)]
pub(crate) struct Script {
    pub bytes: Vec<u8>,
    /// It was read to its end: the source neither failed, nor were all turns used before.
    pub is_whole: bool,
}

/// Reads a script in so many turns. A turn is one call of the source, the one that finds the end included. Nothing is written to the
/// sink, which holds nothing back. `AllocError`: memory was wanted and refused, before all turns were used.
pub(crate) fn read_script<S: Source, K: Sink>(
    alloc: Global,
    source: &mut S,
    sink: &K,
    turns: u64,
) -> Result<Script, AllocError>
    requires working { (S.told source.old).failed ≡ false }
    requires sink { (K.told sink.now).failed ≡ false }
    requires sent { (K.told sink.now).unsent ≡ false }
    requires turns { turns ≤ 2 ^ 32 }
    ensures ok { IfOk result (IsScript turns (S.remaining source.old) (S.remaining source.new) (S.told source.old) (S.told source.new)) }
    ensures err { OnErr result (IsLeft turns (S.told source.old) (S.told source.new)) }
    ensures calls { IsCalled turns (S.told source.old) (S.told source.new) }
    ensures lent { S.lent source.new ≡ S.lent source.old }
    ensures heard { HearsWhere S.hears (HasTold Unwritten S.remaining (seen_by K.told K.contents K.lent sink.now)) source.old source.new }
{
    let mut bytes = Vec::new(alloc);
    let mut chunk = [0; 4096];
    'turns: for turn in 0..turns {
        bytes.reserve(4096)?;
        match source.fill(&mut chunk, sink) {
            Err(_) => {
                return Ok(Script {
                    bytes,
                    is_whole: false,
                });
            }
            Ok(count) => {
                if count == 0 {
                    return Ok(Script {
                        bytes,
                        is_whole: true,
                    });
                }
                if bytes.extend_from_slice(&chunk[..count]).is_err() {
                    unreachable!();
                }
            }
        }
    }
    Ok(Script {
        bytes,
        is_whole: false,
    })
}

/// The next line of a text, without its end, and what follows it. Behind the last LF there is a line more where the text is whole
/// and has a byte there.
pub(crate) fn next_line(text: &[u8], is_whole: bool) -> Option<(&[u8], &[u8])>
    ensures next { MatchOption result (lines_in is_whole text.now ≡ []) (λ p. lines_in is_whole text.now ≡ p.0.now ∷ lines_in is_whole p.1.now) }
    ensures shorter { IfSome result (λ p. length p.1.now < length text.now) }
{
    for (end, byte) in text.iter().enumerate() {
        if *byte == b'\n' {
            return Some((without_cr(&text[..end]), &text[end + 1..]));
        }
    }
    if is_whole && !text.is_empty() {
        Some((without_cr(text), &[]))
    } else {
        None
    }
}
