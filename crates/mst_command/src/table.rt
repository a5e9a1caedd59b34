//! The table of the program's words: a row of each, by which words are read, help is told and flags are taken.

ghost use Rattle.std.specs.Prelude.{◌≡◌, map};
ghost use Rattle.mst_command.specs.Table.{place_of, row_of, verb_named};

use crate::rows;

/// A word of the program: what is to be done.
#[derive(Clone, Copy)]
pub enum Verb {
    /// Runs a script.
    Run,
    /// Compares captures with the plan of a script.
    Check,
    /// Tells why a port has its role in the network that a script leaves.
    Explain,
    /// Tells what becomes of the network of a script with that of another in its place.
    Diff,
    /// Tells what each single failure does to the network of a script, or each pair, or each of a part of them.
    Sweep,
    /// Summarizes the network of a script.
    Summary,
    /// Draws the network of a script with one of its trees, or with a VLAN.
    Dot,
    /// Answers the questions of the network of a script that come by standard input, with a policy, where one is named.
    Ask,
    /// Tells whether the network of a script does what a policy promises.
    Verify,
    /// Tells which edits make the network of a script that of another.
    Edits,
    /// Tells what each step of a change does to the network of a script, and whether it does what a policy promises afterwards, where one is named.
    Steps,
    /// Tells which settings bring about what is wanted of the network of a script.
    Advise,
    /// Tells the path of a VLAN between two bridges of the network of a script, and what becomes of it after each single failure.
    Path,
}

/// A place behind a word of the program, in which another stands.
#[derive(Clone, Copy)]
pub struct Place<'a> {
    /// What help calls it.
    pub name: &'a str,
    /// What help says of it.
    pub help: &'a str,
    /// Whether a word has to be there.
    pub(crate) is_wanted: bool,
}

/// What is known of a word of the program.
#[derive(Clone, Copy)]
pub struct Row<'a> {
    pub name: &'a str,
    /// What it does.
    pub(crate) about: &'a str,
    /// The places behind it, of which there are five at most.
    pub(crate) places: &'a [Place<'a>],
    /// Whether it can tell in JSON.
    pub is_json: bool,
    /// What stands at the end of its help.
    pub(crate) forms: &'a str,
}

/// What clap calls the words in these places. Help calls them as the row does.
pub(crate) const FIRST: &str = "1";

pub(crate) const SECOND: &str = "2";

pub(crate) const THIRD: &str = "3";

pub(crate) const FOURTH: &str = "4";

pub(crate) const FIFTH: &str = "5";

/// All words of the program, as help tells of them.
pub const VERBS: [Verb; 13] = [
    Verb::Run,
    Verb::Check,
    Verb::Explain,
    Verb::Diff,
    Verb::Sweep,
    Verb::Summary,
    Verb::Dot,
    Verb::Ask,
    Verb::Verify,
    Verb::Edits,
    Verb::Steps,
    Verb::Advise,
    Verb::Path,
];

impl Verb {
    /// Its row.
    pub fn row<'a>(self) -> Row<'a>
        ensures name { result.name.now ≡ (row_of self).name }
        ensures places { map place_of result.places.now ≡ (row_of self).places }
        ensures json { result.is_json ≡ (row_of self).is_json }
    {
        match self {
            Verb::Run => rows::RUN,
            Verb::Check => rows::CHECK,
            Verb::Explain => rows::EXPLAIN,
            Verb::Diff => rows::DIFF,
            Verb::Sweep => rows::SWEEP,
            Verb::Summary => rows::SUMMARY,
            Verb::Dot => rows::DOT,
            Verb::Ask => rows::ASK,
            Verb::Verify => rows::VERIFY,
            Verb::Edits => rows::EDITS,
            Verb::Steps => rows::STEPS,
            Verb::Advise => rows::ADVISE,
            Verb::Path => rows::PATH,
        }
    }

    /// The word of this name.
    pub(crate) fn named(name: &str) -> Option<Verb>
        ensures { result ≡ verb_named name.now }
    {
        VERBS.iter().copied().find(|verb| verb.row().name == name)
    }
}
