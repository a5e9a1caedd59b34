ghost use Rattle.std.specs.Prelude.{◌≡◌, true, Some, codes, option_map, IfOk, IfErr, IfSome, IsErrAnd};
ghost use Rattle.mstplan.specs.Flags.{asked_with};
ghost use Rattle.mst_command.specs.Strays.{first_unknown};
ghost use Rattle.mst_command.specs.Words.{words_of, texts_of, wanted, are_plain, behind_name, without_dashes, is_help, is_version, IsAnswer, IsNoWord, IsRefusal};
ghost use Rattle.mst_ask.specs.questions.Asked.{names_policy as names_policy_in};
ghost use Rattle.mstplan.specs.Words.{path_by, question_by, are_worded as words_asking};

use mst_ask::{PathQuestion, Question, names_policy};
use mst_command::{Asked, Flags, Sources, Stop, VERBS, Verb, asked_by_words};

/// What the network of a script is asked, where what is to be done asks it something: nothing, where the words are none that do.
pub(crate) fn question_of(asked: Asked<'_>) -> Option<Question>
    ensures { result ≡ question_by asked.entry.verb (texts_of asked.entry.behind) }
{
    let behind = asked.behind;
    match asked.verb {
        Verb::Explain => Some(Question::explain(
            wanted_bytes(behind.second),
            wanted_bytes(behind.third),
            bytes_of(behind.fourth),
        )),
        Verb::Sweep => Question::sweep(bytes_of(behind.second), bytes_of(behind.third)),
        Verb::Summary => Some(Question::Summary),
        Verb::Dot => Question::dot(wanted_bytes(behind.second), bytes_of(behind.third)),
        Verb::Advise => Question::advice(
            wanted_bytes(behind.second),
            wanted_bytes(behind.third),
            wanted_bytes(behind.fourth),
            bytes_of(behind.fifth),
        ),
        _ => None,
    }
}

/// Which path of the network of a script is asked for: nothing, where the words are none that ask for one.
pub(crate) fn path_of(asked: Asked<'_>) -> Option<PathQuestion>
    ensures { result ≡ path_by (texts_of asked.entry.behind) }
{
    let behind = asked.behind;
    PathQuestion::read(
        wanted_bytes(behind.second),
        wanted_bytes(behind.third),
        wanted_bytes(behind.fourth),
        bytes_of(behind.fifth),
    )
}

/// Whether the words of a sweep name a policy.
pub(crate) fn is_of_policy(asked: Asked<'_>) -> bool
    ensures { result ≡ names_policy_in (texts_of asked.entry.behind).second (texts_of asked.entry.behind).third }
{
    let behind = asked.behind;
    names_policy(bytes_of(behind.second), bytes_of(behind.third))
}

/// Whether the words for a part of a sweep, a picture, advice or a path, if there are some, are some that ask.
fn are_worded(asked: Asked<'_>) -> bool
    ensures { result ≡ words_asking (words_of asked.entry) }
{
    match asked.verb {
        Verb::Sweep => is_of_policy(asked) || question_of(asked).is_some(),
        Verb::Dot | Verb::Advise => question_of(asked).is_some(),
        Verb::Path => path_of(asked).is_some(),
        _ => true,
    }
}

/// What is told of such words that are none.
fn wrong_words(verb: Verb) -> &'static str {
    match verb {
        Verb::Dot => "error: VID stands behind the word vlan alone",
        Verb::Advise => "error: GOAL is root, behind which no P stands, or forward, with P",
        Verb::Path => "error: behind B stands the word always, or nothing",
        _ => {
            "error: PART is K/N, two numbers in decimal with 1 <= K <= N <= 65536, and pairs or nothing stands before it"
        }
    }
}

/// What the words ask for with these flags, of which the first is the program's name. Where none of the others is an option,
/// an `Err` comes just where they ask for nothing that takes these flags, or for want of memory.
/// The program's help and its version are told on standard output, and come as an `Err` too. So does a word of one hyphen that the
/// program doesn't know, whatever else the words ask for.
pub(crate) fn asked_for<'a, R: Print + Eprint + AllocGlobal, S: Sources>(
    rt: &R,
    sources: &S,
    flags: Flags,
    words: &'a [String],
) -> Result<Asked<'a>, Stop<'a>>
    ensures asked { are_plain (behind_name words.now) ≡ true → IfOk result (λ asked. asked_with flags (without_dashes (behind_name words.now)) ≡ Some (words_of asked)) }
    ensures refused { are_plain (behind_name words.now) ≡ true → IfErr result (IsRefusal (S.is_there sources.now) (behind_name words.now) (asked_with flags (without_dashes (behind_name words.now)))) }
    ensures help { is_help (behind_name words.now) ≡ true → IsErrAnd result IsAnswer }
    ensures version { is_version (behind_name words.now) ≡ true → IsErrAnd result IsAnswer }
    ensures unknown { IfSome (first_unknown (behind_name words.now)) (λ word. IsErrAnd result (IsNoWord word)) }
{
    match asked_by_words(rt, sources, flags.json, words) {
        Err(stop) => Err(stop),
        Ok(asked) if !are_worded(asked) => {
            let _ = eprintln!(rt; "{}", wrong_words(asked.verb));
            Err(Stop::Told(2))
        }
        Ok(asked) if flags.are_of(asked.verb) => Ok(asked),
        Ok(_) => {
            tell_json_words(rt);
            Err(Stop::Told(2))
        }
    }
}

/// Tells which words of the program take the flag that asks for JSON.
fn tell_json_words<R: Eprint>(rt: &R) {
    let mut is_first = true;
    let mut last = None;
    for verb in &VERBS {
        if verb.row().is_json {
            if let Some(word) = last {
                tell_json_word(rt, is_first, word);
                is_first = false;
            }
            last = Some(*verb);
        }
    }
    if let Some(word) = last {
        let _ = eprintln!(rt; " and {}", word.row().name);
    }
}

/// Tells one of them, of which others come behind it.
fn tell_json_word<R: Eprint>(rt: &R, is_first: bool, verb: Verb) {
    let before = if is_first {
        "error: --json is a flag of "
    } else {
        ", "
    };
    let _ = eprint!(rt; "{}{}", before, verb.row().name);
}

/// The bytes of a word, if there is one.
fn bytes_of<'a>(word: Option<&'a str>) -> Option<&'a [u8]>
    ensures { option_map (λ bytes. bytes.now) result ≡ option_map (λ word. word.now) word.entry }
{
    match word {
        Some(word) => Some(word.as_bytes()),
        None => None,
    }
}

/// The bytes of a word that has to be there, and `-` where it isn't.
fn wanted_bytes<'a>(word: Option<&'a str>) -> &'a [u8]
    ensures { result.now ≡ wanted (option_map (λ word. word.now) word.entry) }
{
    match word {
        Some(word) => word.as_bytes(),
        None => b"-",
    }
}
