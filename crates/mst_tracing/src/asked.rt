ghost use Rattle.std.specs.Prelude.{◌≡◌};
ghost use Rattle.std.specs.Option.{option_map};
ghost use Rattle.mst_lang.specs.Arguments as arguments;
ghost use Rattle.mst_tracing.specs.Asked.{path_question, question_of, scope_of, trace_of};

use mst_ids::Vid;
use mst_lang::{Fault, name, parse_number};
use mst_path::Trace;

/// Which path is asked for.
#[derive(Clone, Copy)]
pub struct Asked {
    pub trace: Trace,
    /// Whether it is asked for after each single failure, too.
    pub is_always: bool,
}

/// What is asked of the network that a script leaves.
#[derive(Clone, Copy)]
pub enum PathQuestion {
    /// The path of a VLAN's frames.
    Path(Asked),
    /// Words were to ask for a path and don't: this fault is told.
    Unread(Fault),
}

impl PathQuestion {
    /// What the words VID, A and B ask: the path of this VLAN from the bridge A to the bridge B, and with the word `always` behind them what
    /// becomes of it after each single failure, too. They have the forms that a script's have, and a fault of them is a script's:
    /// [`Fault::E02`] where A or B isn't in its form, and else [`Fault::E03`] where VID isn't. Nothing for another word behind them.
    pub fn read(vid: &[u8], from: &[u8], to: &[u8], behind: Option<&[u8]>) -> Option<PathQuestion>
        ensures { result ≡ path_question vid.now from.now to.now (option_map (λ word. word.now) behind.entry) }
    {
        let is_always = is_always(behind)?;
        Some(asking(read_trace(vid, from, to), is_always))
    }
}

/// Whether `always` stands behind the other words: nothing where another word does.
fn is_always(behind: Option<&[u8]>) -> Option<bool>
    ensures { result ≡ scope_of (option_map (λ word. word.now) behind.entry) }
{
    match behind {
        None => Some(false),
        Some(word) => {
            if word == b"always".as_slice() {
                Some(true)
            } else {
                None
            }
        }
    }
}

/// What asks for a path, by what the words name.
fn asking(trace: Result<Trace, Fault>, is_always: bool) -> PathQuestion
    ensures { result ≡ question_of trace is_always }
{
    match trace {
        Ok(trace) => PathQuestion::Path(Asked { trace, is_always }),
        Err(fault) => PathQuestion::Unread(fault),
    }
}

/// The VLAN and the bridges that the words VID, A and B name, or their first fault.
fn read_trace(vid: &[u8], from: &[u8], to: &[u8]) -> Result<Trace, Fault>
    ensures { result ≡ trace_of vid.now from.now to.now }
{
    let from = name(from)?;
    let to = name(to)?;
    let vid = read_vid(vid)?;
    Ok(Trace { vid, from, to })
}

/// A VLAN's identifier, 1 to 4094. [`Fault::E03`] where the word is none.
fn read_vid(word: &[u8]) -> Result<Vid, Fault>
    ensures { result ≡ arguments.vid word.now }
{
    let number = parse_number(word).ok_or(Fault::E03)?;
    Vid::new(number).ok_or(Fault::E03)
}
