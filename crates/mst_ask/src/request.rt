ghost use Rattle.std.specs.Prelude.{◌≡◌, IfOk};
ghost use Rattle.mst_lang.specs.Words.{words};
ghost use Rattle.mst_ask.specs.Requests.{Stays, asked_as, asked_in, count_of, dot_of, dot_words, explain_words, path_of, path_words, request_of, summary_words, sweep_of, sweep_words, undo_words, verify_words};

use mst_lang::{Fault, LONGEST, Line, Version, are_plain, next_word, parse_line_as, parse_number};
use mst_questions::Question;
use mst_tracing::PathQuestion;
use mst_verifying::PolicyQuestion;

/// What a line asks of a standing planner.
pub enum Request {
    /// What a line of a script says: an edit that is to be made, a mark, a query, or nothing.
    Script(Line),
    /// A word of the program with what stands behind it: the network is asked this.
    Word(Question),
    /// So many of the last edits are to be taken back, from 1.
    Undo(u64),
    /// The network is asked this by the policy.
    Policy(PolicyQuestion),
    /// A path of the network is asked for.
    Path(PathQuestion),
}

/// What a line asks, where scripts' lines are of this version, or the least fault of it. No word of the program that a line may have
/// makes another network of the planner's: advice isn't among them.
pub(crate) fn read_request(version: Version, line: &[u8]) -> Result<Request, Fault>
    ensures request { result ≡ request_of version line.now }
    ensures stays { IfOk result Stays }
{
    match asked(line) {
        Some(request) => request,
        None => match parse_line_as(version, line) {
            Ok(line) => Ok(Request::Script(line)),
            Err(fault) => Err(fault),
        },
    }
}

/// What a line asks that begins with a word of the program, or with `undo`.
fn asked(line: &[u8]) -> Option<Result<Request, Fault>>
    ensures { result ≡ asked_in line.now }
{
    if line.len() > LONGEST || !are_plain(line) {
        return None;
    }
    let (word, behind) = next_word(line)?;
    asked_by_word(word, behind)
}

/// What such a word asks with those behind it.
fn asked_by_word(word: &[u8], behind: &[u8]) -> Option<Result<Request, Fault>>
    ensures { result ≡ asked_as word.now (words behind.now) }
{
    if word == b"explain".as_slice() {
        Some(explain(behind))
    } else if word == b"summary".as_slice() {
        Some(summary(behind))
    } else if word == b"sweep".as_slice() {
        Some(sweep(behind))
    } else if word == b"dot".as_slice() {
        Some(dot(behind))
    } else if word == b"undo".as_slice() {
        Some(undo(behind))
    } else if word == b"verify".as_slice() {
        Some(verify(behind))
    } else if word == b"path".as_slice() {
        Some(path(behind))
    } else {
        None
    }
}

/// What `explain` asks with the words behind it.
fn explain(behind: &[u8]) -> Result<Request, Fault>
    ensures { result ≡ explain_words (words behind.now) }
{
    let (bridge, rest) = next_word(behind).ok_or(Fault::E01)?;
    let (port, rest) = next_word(rest).ok_or(Fault::E01)?;
    match next_word(rest) {
        None => Ok(Request::Word(Question::explain(bridge, port, None))),
        Some((tree, more)) => match next_word(more) {
            None => Ok(Request::Word(Question::explain(bridge, port, Some(tree)))),
            Some(_) => Err(Fault::E01),
        },
    }
}

/// What `summary` asks, behind which no word stands.
fn summary(behind: &[u8]) -> Result<Request, Fault>
    ensures { result ≡ summary_words (words behind.now) }
{
    match next_word(behind) {
        None => Ok(Request::Word(Question::Summary)),
        Some(_) => Err(Fault::E01),
    }
}

/// What `sweep` asks with the words behind it.
fn sweep(behind: &[u8]) -> Result<Request, Fault>
    ensures { result ≡ sweep_words (words behind.now) }
{
    match next_word(behind) {
        None => swept(Question::sweep(None, None)),
        Some((word, rest)) => match next_word(rest) {
            None if word == b"risks".as_slice() => Ok(Request::Policy(PolicyQuestion::Risks)),
            None => swept(Question::sweep(Some(word), None)),
            Some((part, more)) => match next_word(more) {
                None => swept(Question::sweep(Some(word), Some(part))),
                Some(_) => Err(Fault::E01),
            },
        },
    }
}

/// What such words ask, if they ask something.
fn swept(question: Option<Question>) -> Result<Request, Fault>
    ensures { result ≡ sweep_of question }
{
    match question {
        Some(question) => Ok(Request::Word(question)),
        None => Err(Fault::E02),
    }
}

/// What `dot` asks with the words behind it.
fn dot(behind: &[u8]) -> Result<Request, Fault>
    ensures { result ≡ dot_words (words behind.now) }
{
    let (word, rest) = next_word(behind).ok_or(Fault::E01)?;
    match next_word(rest) {
        None => drawn(Question::dot(word, None)),
        Some((vid, more)) => match next_word(more) {
            None => drawn(Question::dot(word, Some(vid))),
            Some(_) => Err(Fault::E01),
        },
    }
}

/// What such words ask, if they ask something.
fn drawn(question: Option<Question>) -> Result<Request, Fault>
    ensures { result ≡ dot_of question }
{
    match question {
        Some(question) => Ok(Request::Word(question)),
        None => Err(Fault::E01),
    }
}

/// What `undo` asks with the word behind it, if there is one.
fn undo(behind: &[u8]) -> Result<Request, Fault>
    ensures { result ≡ undo_words (words behind.now) }
{
    match next_word(behind) {
        None => Ok(Request::Undo(1)),
        Some((word, rest)) => match next_word(rest) {
            None => count(word),
            Some(_) => Err(Fault::E01),
        },
    }
}

/// How many edits are to be taken back, by this word.
fn count(word: &[u8]) -> Result<Request, Fault>
    ensures { result ≡ count_of word.now }
{
    match parse_number(word) {
        None | Some(0) => Err(Fault::E02),
        Some(count) => Ok(Request::Undo(count)),
    }
}

/// What `verify` asks, behind which no word stands.
fn verify(behind: &[u8]) -> Result<Request, Fault>
    ensures { result ≡ verify_words (words behind.now) }
{
    match next_word(behind) {
        None => Ok(Request::Policy(PolicyQuestion::Promises)),
        Some(_) => Err(Fault::E01),
    }
}

/// What `path` asks with the words behind it.
fn path(behind: &[u8]) -> Result<Request, Fault>
    ensures { result ≡ path_words (words behind.now) }
{
    let (vid, rest) = next_word(behind).ok_or(Fault::E01)?;
    let (from, rest) = next_word(rest).ok_or(Fault::E01)?;
    let (to, rest) = next_word(rest).ok_or(Fault::E01)?;
    match next_word(rest) {
        None => traced(PathQuestion::read(vid, from, to, None)),
        Some((always, more)) => match next_word(more) {
            None => traced(PathQuestion::read(vid, from, to, Some(always))),
            Some(_) => Err(Fault::E01),
        },
    }
}

/// What such words ask, if they ask something.
fn traced(question: Option<PathQuestion>) -> Result<Request, Fault>
    ensures { result ≡ path_of question }
{
    match question {
        Some(question) => Ok(Request::Path(question)),
        None => Err(Fault::E01),
    }
}
