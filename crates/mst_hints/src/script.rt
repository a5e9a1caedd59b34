ghost use Rattle.std.specs.Prelude.{◌≡◌, ◌≢◌, ◌+◌, ◌++◌, ◌<◌, ◌^◌, [], Some, Ok, Err, is_ok, IfOk, OnOk, IfErr, OnErr};
ghost use Rattle.std.specs.Option.{option_map_or};
ghost use Rattle.mst_hints.specs.Kept.{IsKept};
ghost use Rattle.mst_hints.specs.Hints.{hint_line};
ghost use Rattle.mst_hints.specs.Scripts.{Past, nothing, past_after, hint_after, version_with, reading_with, saying_with, after_line, net_after, net_with, is_made, is_mark as marks, making_of as making_of_line, put_of as put_of_line, read_hint, refused_hint, refused_text, absent_text, since_text};

use crate::added::added_of;
use crate::adds::Adds;
use crate::hint::{push_hint, push_start};
use crate::puts::{Holder, Puts, put_by};
use crate::record::{Record, made_by, missing_of};
use crate::standing::push_record;
use crate::whose::Script;
use mst_ids::{push_bytes, push_decimal, push_end};
use mst_lang::{Edit, Fault, Line, Query, Version, is_version_2, parse_line_as};
use mst_net::{Contents, Network, Refusal};
use std::alloc::{AllocError, Global};

/// Tells what would be right in the lines of a script, one after another.
#[derive(Drop)]
pub struct ScriptHints {
    /// The version of the script, once its first line has come.
    pub(crate) version: Option<Version>,
    /// What stands before each hint.
    pub(crate) of: &'static [u8],
    /// Whether its queries are asked, and its marks made.
    pub(crate) asks: bool,
    /// The number of the next line, from 1.
    pub(crate) number: u64,
    /// The network that the edits made.
    pub(crate) network: Network,
    /// Whether a line has marked it.
    pub(crate) marked: bool,
    pub(crate) adds: Adds,
    pub(crate) puts: Puts,
}

impl ScriptHints {
    /// The empty network, before the first line of this script. It takes no memory. A hint of one of two scripts says whose it is,
    /// as in `old line 3 ..`.
    pub fn new(alloc: Global, script: Script) -> ScriptHints
        ensures { IsKept (nothing script) result }
    {
        ScriptHints {
            version: None,
            of: script.text_before(),
            asks: script.is_run(),
            number: 1,
            network: Network::new(alloc),
            marked: false,
            adds: Adds::new(alloc),
            puts: Puts::new(alloc),
        }
    }

    /// Takes the next line of the script, without its end, and appends the hint of it, if it has one.
    ///
    /// A line that isn't read has the hint that [`push_hint`] appends. One that is read and refused has a hint of what is in its
    /// way: the bridge, the port or the LAN that isn't there, with the last line before that was to add it, if that was
    /// refused or not read; or what is there, with the line that made it so; or the limit. A line that is made has none.
    ///
    /// `AllocError`: memory was wanted and refused, for the hint or for what is kept of the line. Part of the hint may have
    /// been appended, and what is appended of later lines is not told.
    pub fn push_hint(&mut self, line: &[u8], out: &mut Vec<u8>) -> Result<(), AllocError>
        requires few { self.old.number < 2 ^ 60 }
        ensures kept { OnOk result ((past : Past) → IsKept past self.old → IsKept (past_after past line.now) self.new) }
        ensures number { OnOk result (self.new.number ≡ self.old.number + 1) }
        ensures text { OnOk result ((past : Past) → IsKept past self.old → out.new.items ≡ out.old.items ++ hint_after past line.now) }
    {
        let version = version_at(self.version, line);
        let reading = say_line(self.asks, self.version, line);
        let made = self.push_read(version, line, &reading, out)?;
        self.adds.note(self.number, added_of(line), made)?;
        self.adds.note_made(self.number, making_of(made, &reading))?;
        self.puts.note(put_of(made, &reading))?;
        self.marked = self.marked || is_mark(&reading);
        self.version = Some(version);
        self.number += 1;
        Ok(())
    }

    /// Makes a line's edit, appends the hint of the line, if it has one, and says whether the line was made.
    fn push_read(
        &mut self,
        version: Version,
        line: &[u8],
        reading: &Result<Line, Fault>,
        out: &mut Vec<u8>,
    ) -> Result<bool, AllocError>
        requires { version ≡ version_with self.old.version line.now }
        ensures made { IfOk result (λ made. made ≡ is_made self.old.marked self.old.network.net reading.now) }
        ensures net { OnOk result (self.new.network.net ≡ net_with self.old.network.net reading.now) }
        ensures text { OnOk result ((past : Past) → IsKept past self.old → out.new.items ≡ out.old.items ++ hint_line past.of past.number (read_hint past line.now reading.now)) }
        ensures adds { self.new.adds ≡ self.old.adds }
        ensures puts { self.new.puts ≡ self.old.puts }
        ensures marked { self.new.marked ≡ self.old.marked }
        ensures number { self.new.number ≡ self.old.number }
        ensures version { self.new.version ≡ self.old.version }
        ensures of { self.new.of ≡ self.old.of }
        ensures asks { self.new.asks ≡ self.old.asks }
    {
        match reading {
            Err(_) => {
                push_hint(version, self.of, self.number, line, out)?;
                Ok(false)
            }
            Ok(read) => self.push_made(read, out),
        }
    }

    /// Makes the edit of a line that is read, appends the hint of the line, if it has one, and says whether the line was made.
    fn push_made(&mut self, line: &Line, out: &mut Vec<u8>) -> Result<bool, AllocError>
        ensures made { IfOk result (λ made. made ≡ is_ok (after_line self.old.marked line.now self.old.network.net)) }
        ensures net { OnOk result (self.new.network.net ≡ net_after line.now self.old.network.net) }
        ensures text { OnOk result ((past : Past) → IsKept past self.old → out.new.items ≡ out.old.items ++ hint_line past.of past.number (refused_hint past.adds past.makings past.puts past.net line.now (after_line past.marked line.now past.net))) }
        ensures adds { self.new.adds ≡ self.old.adds }
        ensures puts { self.new.puts ≡ self.old.puts }
        ensures marked { self.new.marked ≡ self.old.marked }
        ensures number { self.new.number ≡ self.old.number }
        ensures version { self.new.version ≡ self.old.version }
        ensures of { self.new.of ≡ self.old.of }
        ensures asks { self.new.asks ≡ self.old.asks }
    {
        match serve(&mut self.network, self.marked, line) {
            Ok(()) => Ok(true),
            Err(Refusal::E99) => Err(AllocError),
            Err(refusal) => {
                self.push_refused(line, refusal, out)?;
                Ok(false)
            }
        }
    }

    /// Appends the hint of a line that is refused, if it has one.
    fn push_refused(
        &self,
        line: &Line,
        refusal: Refusal,
        out: &mut Vec<u8>,
    ) -> Result<(), AllocError>
        ensures { OnOk result ((past : Past) → IsKept past self.now → out.new.items ≡ out.old.items ++ hint_line past.of past.number (refused_text past.adds past.makings past.puts past.net line.now refusal)) }
    {
        match missing_of(line, refusal) {
            Some(wanted) => push_absent(
                self.of,
                self.number,
                &wanted,
                self.adds.last_refused(&wanted),
                out,
            ),
            None => self.push_standing(line, refusal, out),
        }
    }
}

/// The version of a script at its next line: it is known already, or this line, the first one, says it.
fn version_at(known: Option<Version>, line: &[u8]) -> Version
    ensures { result ≡ version_with known line.now }
{
    match known {
        Some(version) => version,
        None => {
            if is_version_2(line) {
                Version::V2
            } else {
                Version::V1
            }
        }
    }
}

/// What the next line says, by whether the script is run.
fn say_line(asks: bool, known: Option<Version>, line: &[u8]) -> Result<Line, Fault>
    ensures { result ≡ saying_with asks known line.now }
{
    match read_line(known, line) {
        Ok(Line::Query(_) | Line::Mark) if !asks => Ok(Line::Blank),
        reading => reading,
    }
}

/// What the next line says, in a run. The first one of a script of version 2 says so, and nothing else.
fn read_line(known: Option<Version>, line: &[u8]) -> Result<Line, Fault>
    ensures { result ≡ reading_with known line.now }
{
    match known {
        Some(version) => parse_line_as(version, line),
        None => {
            if is_version_2(line) {
                Ok(Line::Blank)
            } else {
                parse_line_as(Version::V1, line)
            }
        }
    }
}

/// The record that a line made, if it was made and did.
fn making_of(made: bool, reading: &Result<Line, Fault>) -> Option<Record>
    ensures { result ≡ making_of_line made reading.now }
{
    match reading {
        Ok(Line::Edit(edit)) if made => made_by(edit),
        _ => None,
    }
}

/// What a line put into what, if it was made and did.
fn put_of(made: bool, reading: &Result<Line, Fault>) -> Option<(Holder, Record)>
    ensures { result ≡ put_of_line made reading.now }
{
    match reading {
        Ok(Line::Edit(edit)) if made => put_by(edit),
        _ => None,
    }
}

/// Whether a line marks.
fn is_mark(reading: &Result<Line, Fault>) -> bool
    ensures { result ≡ marks reading.now }
{
    matches!(reading, Ok(Line::Mark))
}

/// Makes the edit of a line, or tells why it, or a query, is refused: by E99 where memory was wanted for the edit and
/// refused. The network is as it was after a refusal.
fn serve(network: &mut Network, marked: bool, line: &Line) -> Result<(), Refusal>
    ensures ok { OnOk result (after_line marked line.now network.old.net ≡ Ok network.new.net) }
    ensures same { OnErr result (network.new.net ≡ network.old.net) }
    ensures refused { IfErr result (λ refusal. refusal ≢ Refusal.E99 → after_line marked line.now network.old.net ≡ Err refusal) }
{
    match line {
        Line::Edit(edit) => {
            let ready = network.prepare(edit)?;
            network.commit(ready);
            Ok(())
        }
        Line::Query(Query::ShowConfiguration { bridge }) => match network.bridge(bridge) {
            Some(_) => Ok(()),
            None => Err(Refusal::E04),
        },
        Line::Query(Query::Changes) => { if marked { Ok(()) } else { Err(Refusal::E16) } }
        _ => Ok(()),
    }
}

/// Appends the line that tells that the record isn't there, and which line was to add it, if one was.
fn push_absent(
    of: &[u8],
    number: u64,
    wanted: &Record,
    since: Option<u64>,
    out: &mut Vec<u8>,
) -> Result<(), AllocError>
    ensures { OnOk result (out.new.items ≡ out.old.items ++ hint_line of.now number (Some (absent_text since wanted.now))) }
{
    push_start(of, number, out)?;
    push_bytes(b"no ", out)?;
    push_record(wanted, out)?;
    push_since(since, out)?;
    push_end(out)
}

fn push_since(since: Option<u64>, out: &mut Vec<u8>) -> Result<(), AllocError>
    ensures { OnOk result (out.new.items ≡ out.old.items ++ option_map_or since_text since []) }
{
    match since {
        None => Ok(()),
        Some(number) => {
            push_bytes(b": line ", out)?;
            push_decimal(number, out)?;
            push_bytes(b" was to add it", out)
        }
    }
}
