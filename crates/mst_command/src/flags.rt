ghost use Rattle.std.specs.Prelude.{◌≡◌, map, string_bytes};
ghost use Rattle.mst_command.specs.Flags.{flags_in, form_of, has_flag as stands_among, is_flag as flag_word, no_flags, takes as takes_flags, without_flags_behind};
ghost use Rattle.mst_command.specs.Words.{behind_name, is_dashes as dashes};

use crate::table::Verb;
use mst_print::Form;

/// What asks for JSON.
const JSON: &str = "--json";

/// What asks for hints.
const HINTS: &str = "--hints";

/// The word behind which no word is a flag, and none is read as an option.
pub(crate) const DASHES: &str = "--";

/// The flags among the program's words.
#[derive(Clone, Copy)]
pub struct Flags {
    /// What is printed is JSON, a line for each answer.
    pub json: bool,
    /// Standard error has what would be right in each line of the script that is refused.
    pub hints: bool,
}

/// The program's words, its name first, and the flags that stood among them.
#[derive(Drop)]
pub struct Parted {
    pub flags: Flags,
    pub words: Vec<String>,
}

/// Whether no word behind this one is a flag.
pub(crate) fn is_dashes(word: &String) -> bool
    ensures { result ≡ dashes (string_bytes word.now) }
{
    word.as_str() == DASHES
}

/// Whether a word is a flag, where it stands before the first `--`.
fn is_flag(word: &String) -> bool
    ensures { result ≡ flag_word (string_bytes word.now) }
{
    word.as_str() == JSON || word.as_str() == HINTS
}

/// Whether a flag stands among these words, before the first `--`.
fn has_flag(words: &[String], flag: &str) -> bool
    ensures { result ≡ stands_among flag.now (map string_bytes words.now) }
{
    for word in words {
        if is_dashes(word) {
            return false;
        }
        if word.as_str() == flag {
            return true;
        }
    }
    false
}

/// Takes the flags out of the words behind the first, which is the program's name.
fn take_flags(words: &mut Vec<String>)
    ensures { map string_bytes words.new.items ≡ without_flags_behind (map string_bytes words.old.items) }
{
    let mut place = 1;
    while place < words.len() {
        let word = &words[place];
        if is_dashes(word) {
            return;
        }
        if is_flag(word) {
            let _ = words.remove(place);
        } else {
            place += 1;
        }
    }
}

impl Flags {
    /// No flag.
    pub fn none() -> Flags
        ensures { result ≡ no_flags }
    {
        Flags {
            json: false,
            hints: false,
        }
    }

    /// The flags among these words.
    fn among(words: &[String]) -> Flags
        ensures { result ≡ flags_in (map string_bytes words.now) }
    {
        Flags {
            json: has_flag(words, JSON),
            hints: has_flag(words, HINTS),
        }
    }

    /// The flags among the words behind the first, which is the program's name.
    fn behind(words: &[String]) -> Flags
        ensures { result ≡ flags_in (behind_name words.now) }
    {
        match words {
            [] => Flags::none(),
            [_, behind @ ..] => Flags::among(behind),
        }
    }

    /// What is printed by them.
    pub fn form(self) -> Form
        ensures { result ≡ form_of self }
    {
        if self.json { Form::Json } else { Form::Text }
    }

    /// Whether what is to be done takes these flags.
    pub fn are_of(self, verb: Verb) -> bool
        ensures { result ≡ takes_flags self verb }
    {
        !self.json || verb.row().is_json
    }
}

impl Parted {
    /// Takes the flags out of the words behind the program's name.
    pub fn of(mut words: Vec<String>) -> Parted
        ensures flags { result.flags ≡ flags_in (behind_name words.items) }
        ensures words { map string_bytes result.words.items ≡ without_flags_behind (map string_bytes words.items) }
    {
        let flags = Flags::behind(words.as_slice());
        take_flags(&mut words);
        Parted { flags, words }
    }
}
