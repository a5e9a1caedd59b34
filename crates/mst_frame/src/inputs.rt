ghost use Rattle.std.specs.Prelude.{◌≡◌, true, false, [], Some, IfOk, IfErr};
ghost use Rattle.mst_frame.specs.Inputs.{bytes_of};
ghost use Rattle.mst_frame.specs.Named.{IsInput, IsInputIf, IsWhyNot, IsWhyNotIf, is_standard as names_standard, is_standard_if as may_name_standard, word_of};

use crate::sources::{Sources, Unopened};
use std::io::{Read, Result as IoResult};

/// What an input is read from.
#[derive(Drop)]
pub enum Input<G: Drop, F: Drop> {
    /// Standard input.
    Given(G),
    /// A file.
    Opened(F),
    /// Nothing: it isn't named, or standard input was taken before.
    Nothing,
}

impl<G: Read + Drop, F: Read + Drop> Read for Input<G, F> {
    ghost use Rattle.mst_frame.specs.Inputs.{bytes_of as bytes_in};

    ghost remaining = { bytes_in G.remaining F.remaining };

    fn read(&mut self, buf: &mut [u8]) -> IoResult<usize> {
        match self {
            Input::Given(reader) => reader.read(buf),
            Input::Opened(file) => file.read(buf),
            Input::Nothing => Ok(0),
        }
    }
}

/// Why a word wasn't served.
#[derive(Clone, Copy)]
pub enum Unserved<'a> {
    /// The file of this name can't be opened, for this reason.
    Unopened(&'a str, Unopened),
    /// There was no memory for the buffer of its output.
    Starved,
}

/// Whether a name is that of standard input.
pub(crate) fn is_standard(name: &str) -> bool
    ensures { result ≡ names_standard name.now }
{
    name == "-"
}

/// Whether there is a name, and it is that.
pub(crate) fn is_standard_if(name: Option<&str>) -> bool
    ensures { result ≡ may_name_standard (word_of name.entry) }
{
    match name {
        Some(name) => is_standard(name),
        None => false,
    }
}

/// Opens the input of a name: standard input, where that is its name and isn't taken yet, or else its file.
pub fn open_input<'a, S: Sources>(
    sources: &S,
    is_taken: bool,
    name: &'a str,
) -> Result<Input<S::Given, S::Opened>, Unserved<'a>>
    ensures opened { IfOk result (λ input. IsInput (S.is_given sources.now) (S.is_file sources.now) is_taken name.entry.now (bytes_of S.Given.remaining S.Opened.remaining input)) }
    ensures stopped { IfErr result (IsWhyNot (S.is_unopened sources.now) name.entry) }
{
    if is_standard(name) {
        return Ok(standard_input(sources, is_taken));
    }
    match sources.open(name) {
        Ok(file) => Ok(Input::Opened(file)),
        Err(why) => Err(Unserved::Unopened(name, why)),
    }
}

/// Standard input, where it isn't taken yet.
fn standard_input<S: Sources>(sources: &S, is_taken: bool) -> Input<S::Given, S::Opened>
    ensures given { is_taken ≡ false → S.is_given sources.now (bytes_of S.Given.remaining S.Opened.remaining result) }
    ensures nothing { is_taken ≡ true → bytes_of S.Given.remaining S.Opened.remaining result ≡ Some [] }
{
    if is_taken {
        Input::Nothing
    } else {
        Input::Given(sources.given())
    }
}

/// The same of an input that may have no name. One that has none gives nothing.
pub fn open_named<'a, S: Sources>(
    sources: &S,
    is_taken: bool,
    name: Option<&'a str>,
) -> Result<Input<S::Given, S::Opened>, Unserved<'a>>
    ensures opened { IfOk result (λ input. IsInputIf (S.is_given sources.now) (S.is_file sources.now) is_taken (word_of name.entry) (bytes_of S.Given.remaining S.Opened.remaining input)) }
    ensures stopped { IfErr result (IsWhyNotIf (S.is_unopened sources.now) name.entry) }
{
    match name {
        Some(name) => open_input(sources, is_taken, name),
        None => Ok(Input::Nothing),
    }
}
