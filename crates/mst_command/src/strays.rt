ghost use Rattle.std.specs.Prelude.{◌≡◌, ◌&&◌, true, map, option_map, string_bytes, Some, IfSome};
ghost use Rattle.std.specs.List.{Contains};
ghost use Rattle.mst_command.specs.Strays.{IsStray, bare as without_hyphens, behind_hyphen as after_hyphen, first_unknown as first_of_unknown, has_hyphen as begins_with_hyphen, is_nearly as nearly, is_unknown as unknown, meant_by as meant_for, meant_by_unknown as meant_for_unknown, option_like as like_option};
ghost use Rattle.mst_command.specs.Words.{behind_name};

use crate::flags::{DASHES, is_dashes};
use mst_frame::{is_in_case, is_within_one};

/// What a word was meant for that stands where the program has no such word.
#[derive(Clone, Copy)]
pub enum Meant {
    /// The file of a script, without a command.
    File,
    /// The flag that asks for JSON.
    Json,
    /// The flag that asks for hints.
    Hints,
    /// The program's help.
    Help,
    /// The program's version.
    Version,
    /// A flag that there isn't.
    Flag,
}

/// A word that stands where the program has no such word, and what it was meant for.
#[derive(Clone, Copy)]
pub(crate) struct Stray<'a> {
    pub word: &'a str,
    pub meant: Meant,
}

/// Whether a word begins with a hyphen.
fn has_hyphen(word: &[u8]) -> bool
    ensures { result ≡ begins_with_hyphen word.now }
{
    match word {
        [] => false,
        [byte, ..] => *byte == b'-',
    }
}

/// The word behind a hyphen, if it begins with one.
fn behind_hyphen(word: &[u8]) -> &[u8]
    ensures { result.now ≡ after_hyphen word.now }
{
    match word {
        [byte, behind @ ..] if *byte == b'-' => behind,
        _ => word,
    }
}

/// The word behind the hyphens before it.
fn bare(word: &[u8]) -> &[u8]
    ensures { result.now ≡ without_hyphens word.now }
{
    behind_hyphen(behind_hyphen(word))
}

/// Whether a word is nearly another.
fn is_nearly(other: &str, word: &[u8]) -> bool
    ensures { result ≡ nearly other.now word.now }
{
    is_in_case(other.as_bytes(), word) || is_within_one(other.as_bytes(), word)
}

/// What of the program's words with hyphens a word without them nearly is.
fn option_like(word: &[u8]) -> Option<Meant>
    ensures { result ≡ like_option word.now }
{
    if is_nearly("json", word) {
        Some(Meant::Json)
    } else if is_nearly("hints", word) {
        Some(Meant::Hints)
    } else if is_nearly("help", word) {
        Some(Meant::Help)
    } else if is_nearly("version", word) {
        Some(Meant::Version)
    } else {
        None
    }
}

/// Whether a word begins with two hyphens.
fn has_two_hyphens(word: &[u8]) -> bool
    ensures { result ≡ (begins_with_hyphen word.now && begins_with_hyphen (after_hyphen word.now)) }
{
    has_hyphen(word) && has_hyphen(behind_hyphen(word))
}

/// What a word was meant for, if that is known.
fn meant_by(word: &[u8]) -> Option<Meant>
    ensures { result ≡ meant_for word.now }
{
    match option_like(bare(word)) {
        Some(meant) => Some(meant),
        None if has_two_hyphens(word) => Some(Meant::Flag),
        None => None,
    }
}

/// A word, if it is known what it was meant for.
fn stray_of(word: &str) -> Option<Stray<'_>>
    ensures word { IfSome result (λ stray. stray.word ≡ word.entry) }
    ensures meant { IfSome result (λ stray. meant_for word.now ≡ Some stray.meant) }
{
    match meant_by(word.as_bytes()) {
        Some(meant) => Some(Stray { word, meant }),
        None => None,
    }
}

/// Whether a word begins with one hyphen and is none of those that the program knows.
fn is_unknown(word: &str) -> bool
    ensures { result ≡ unknown word.now }
{
    let bytes = word.as_bytes();
    has_hyphen(bytes) && !has_hyphen(behind_hyphen(bytes)) && !matches!(word, "-" | "-h" | "-V")
}

/// What such a word was meant for.
fn meant_by_unknown(word: &[u8]) -> Meant
    ensures { result ≡ meant_for_unknown word.now }
{
    match option_like(bare(word)) {
        Some(meant) => meant,
        None => Meant::Flag,
    }
}

/// The first of these words before `--` that begins with one hyphen and is none that the program knows.
fn first_unknown(words: &[String]) -> Option<&str>
    ensures { option_map (λ word. word.now) result ≡ first_of_unknown (map string_bytes words.now) }
{
    for word in words {
        if is_dashes(word) {
            return None;
        }
        let text = word.as_str();
        if is_unknown(text) {
            return Some(text);
        }
    }
    None
}

/// The first such word behind the program's name, and what it was meant for. To the parser each letter of it would be a word of its own,
/// so that `-hints` asks for help.
pub(crate) fn unknown_stray(words: &[String]) -> Option<Stray<'_>>
    ensures word { option_map (λ stray. stray.word.now) result ≡ first_of_unknown (behind_name words.now) }
    ensures meant { IfSome result (λ stray. stray.meant ≡ meant_for_unknown stray.word.now) }
{
    match words {
        [] => None,
        [_, behind @ ..] => match first_unknown(behind) {
            Some(word) => Some(Stray {
                word,
                meant: meant_by_unknown(word.as_bytes()),
            }),
            None => None,
        },
    }
}

/// The first of the words behind the program's name, or the first with a hyphen before `--`, if it is known what it was meant for.
pub(crate) fn stray_among(words: &[String]) -> Option<Stray<'_>>
    ensures { IfSome result (λ stray. IsStray (behind_name words.now) stray.word.now stray.meant) }
{
    match words {
        [] => None,
        [_, behind @ ..] => match first_stray(behind) {
            Some(stray) => Some(stray),
            None => hyphened_stray(behind),
        },
    }
}

/// The first word, if it has no hyphen and it is known what it was meant for.
fn first_stray(words: &[String]) -> Option<Stray<'_>>
    ensures { IfSome result (λ stray. IsStray (map string_bytes words.now) stray.word.now stray.meant) }
{
    match words {
        [word, ..] if !has_hyphen(word.as_bytes()) => stray_of(word.as_str()),
        _ => None,
    }
}

/// The first word with a hyphen before `--`, if it is known what it was meant for.
fn hyphened_stray(words: &[String]) -> Option<Stray<'_>>
    ensures { IfSome result (λ stray. IsStray (map string_bytes words.now) stray.word.now stray.meant) }
{
    match hyphened_word(words) {
        Some(word) => stray_of(word),
        None => None,
    }
}

/// The first word before `--` that begins with a hyphen, isn't one alone, and doesn't ask for help.
fn hyphened_word(words: &[String]) -> Option<&str>
    ensures among { IfSome result (λ word. Contains (map string_bytes words.now) word.now) }
    ensures hyphened { IfSome result (λ word. begins_with_hyphen word.now ≡ true) }
{
    for word in words {
        let word = word.as_str();
        if word == DASHES {
            return None;
        }
        if word != "-" && word != "--help" && has_hyphen(word.as_bytes()) {
            return Some(word);
        }
    }
    None
}
