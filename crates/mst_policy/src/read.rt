#![tactic(auto, using(crate::proofs::FaultLemmas::faults))]

ghost use Rattle.std.specs.Prelude.{◌≡◌, ◌∷◌, IfOk};
ghost use Rattle.mst_lang.specs.Arguments as scripts;
ghost use Rattle.mst_lang.specs.Words.{words};
ghost use Rattle.mst_policy.specs.Arguments.{with};
ghost use Rattle.mst_policy.specs.Reading.{reading, promised, after as after_words, behind_scope as expected_behind, finally as finally_words, in_scope as promised_in, in_the_end, is_leaving as are_leaving, of_the_end as end_words, risk_of as risk_words, said as said_by, scoped as scoped_words};

use crate::arguments::names;
use crate::expectation::{Expectation, Promise, Scope};
use crate::expected::{expectation, is_word};
use crate::risk::{RiskItems, RiskLine, Said};
use mst_lang::{Fault, LONGEST, are_plain, name, next_word, three_words};
use std::alloc::{AllocError, Global};

/// What a line of a policy says, nothing where it is blank or a comment, or the least fault of it. The line comes without
/// its end. `AllocError`: memory was wanted for a list and refused.
pub fn parse_policy_line(
    alloc: Global,
    line: &[u8],
) -> Result<Result<Option<Said>, Fault>, AllocError>
    ensures { IfOk result (λ read. read ≡ reading line.now) }
{
    if line.len() > LONGEST {
        return Ok(Err(Fault::E01));
    }
    let plain = are_plain(line);
    match next_word(line) {
        None => {
            if plain {
                Ok(Ok(None))
            } else {
                Ok(Err(Fault::E01))
            }
        }
        Some(([b'#', ..], _)) => Ok(Ok(None)),
        Some((word, others)) => {
            if plain {
                match said(alloc, line, word, others)? {
                    Ok(said) => Ok(Ok(Some(said))),
                    Err(fault) => Ok(Err(fault)),
                }
            } else {
                Ok(Err(Fault::E01))
            }
        }
    }
}

/// What the words of a line say: `risk` is the first of them, with nothing in front, or they promise.
fn said(
    alloc: Global,
    line: &[u8],
    word: &[u8],
    others: &[u8],
) -> Result<Result<Said, Fault>, AllocError>
    requires { words line.now ≡ word.now ∷ words others.now }
    ensures { IfOk result (λ read. read ≡ said_by word.now (words others.now)) }
{
    if is_word(word, b"risk") {
        return match risk(alloc, others)? {
            Ok(line) => Ok(Ok(Said::Risk(line))),
            Err(fault) => Ok(Err(fault)),
        };
    }
    match promise(alloc, line, word, others)? {
        Ok(promise) => Ok(Ok(Said::Promise(promise))),
        Err(fault) => Ok(Err(fault)),
    }
}

/// What the words behind `risk` say: its name, of what it is, and which of these fail.
fn risk(alloc: Global, arguments: &[u8]) -> Result<Result<RiskLine, Fault>, AllocError>
    ensures { IfOk result (λ read. read ≡ risk_words (words arguments.now)) }
{
    let Some((word, kind, list)) = three_words(arguments) else {
        return Ok(Err(Fault::E01));
    };
    if is_word(kind, b"lan") {
        match names(alloc, list)? {
            Some(names) => Ok(risk_line(word, RiskItems::Lans(names))),
            None => Ok(Err(Fault::E02)),
        }
    } else if is_word(kind, b"bridge") {
        match names(alloc, list)? {
            Some(names) => Ok(risk_line(word, RiskItems::Bridges(names))),
            None => Ok(Err(Fault::E02)),
        }
    } else {
        Ok(Err(Fault::E01))
    }
}

/// A line of the risk that a word names: E02 where the word is no name.
fn risk_line(word: &[u8], items: RiskItems) -> Result<RiskLine, Fault>
    ensures { result ≡ with (Ok (λ name. record { name = name; items = items })) (scripts.name word.now) }
{
    let name = name(word)?;
    Ok(RiskLine { name, items })
}

/// What the words of a line promise: `finally` is the first of them, or none.
fn promise(
    alloc: Global,
    line: &[u8],
    word: &[u8],
    others: &[u8],
) -> Result<Result<Promise, Fault>, AllocError>
    requires { words line.now ≡ word.now ∷ words others.now }
    ensures { IfOk result (λ read. read ≡ promised word.now (words others.now)) }
{
    if is_word(word, b"finally") {
        finally(alloc, others)
    } else if is_word(word, b"leaves") {
        at_the_end(alloc, line, word, others)
    } else {
        scoped(alloc, line, word, others)
    }
}

/// Whether words are of what is meant to be cut, which neither a scope nor `finally` may stand in front of.
fn is_leaving(text: &[u8]) -> bool
    ensures { result ≡ are_leaving (words text.now) }
{
    match next_word(text) {
        Some((word, _)) => is_word(word, b"leaves"),
        None => false,
    }
}

/// What words promise of the end alone.
fn at_the_end(
    alloc: Global,
    line: &[u8],
    word: &[u8],
    others: &[u8],
) -> Result<Result<Promise, Fault>, AllocError>
    requires { words line.now ≡ word.now ∷ words others.now }
    ensures { IfOk result (λ read. read ≡ end_words word.now (words others.now)) }
{
    match scoped(alloc, line, word, others)? {
        Ok(promise) => Ok(Ok(of_the_end(promise))),
        Err(fault) => Ok(Err(fault)),
    }
}

/// What the words behind `finally` promise, of the end alone.
fn finally(alloc: Global, text: &[u8]) -> Result<Result<Promise, Fault>, AllocError>
    ensures { IfOk result (λ read. read ≡ finally_words (words text.now)) }
{
    let Some((word, others)) = next_word(text) else {
        return Ok(Err(Fault::E01));
    };
    if is_leaving(text) {
        return Ok(Err(Fault::E01));
    }
    at_the_end(alloc, text, word, others)
}

fn of_the_end(promise: Promise) -> Promise
    ensures { result ≡ in_the_end promise }
{
    Promise {
        is_final: true,
        scope: promise.scope,
        expectation: promise.expectation,
    }
}

/// What words promise: an expectation, in the scope that the first of them says, if it says one.
fn scoped(
    alloc: Global,
    line: &[u8],
    word: &[u8],
    others: &[u8],
) -> Result<Result<Promise, Fault>, AllocError>
    requires { words line.now ≡ word.now ∷ words others.now }
    ensures { IfOk result (λ read. read ≡ scoped_words word.now (words others.now)) }
{
    if is_word(word, b"after") {
        after(alloc, others)
    } else if is_word(word, b"always") {
        let expectation = behind_scope(alloc, others)?;
        Ok(in_scope(Some(Scope::Always), expectation))
    } else {
        let expectation = expectation(alloc, line)?;
        Ok(in_scope(Some(Scope::Now), expectation))
    }
}

/// What words expect that stand behind a scope.
fn behind_scope(alloc: Global, text: &[u8]) -> Result<Result<Expectation, Fault>, AllocError>
    ensures { IfOk result (λ read. read ≡ expected_behind (words text.now)) }
{
    if is_leaving(text) {
        return Ok(Err(Fault::E01));
    }
    expectation(alloc, text)
}

/// What the words behind `after` promise.
fn after(alloc: Global, arguments: &[u8]) -> Result<Result<Promise, Fault>, AllocError>
    ensures { IfOk result (λ read. read ≡ after_words (words arguments.now)) }
{
    let Some((kind, others)) = next_word(arguments) else {
        return Ok(Err(Fault::E01));
    };
    let Some((list, others)) = next_word(others) else {
        return Ok(Err(Fault::E01));
    };
    if is_word(kind, b"lan") {
        let names = names(alloc, list)?;
        let expectation = behind_scope(alloc, others)?;
        Ok(in_scope(names.map(Scope::AfterLan), expectation))
    } else if is_word(kind, b"bridge") {
        let names = names(alloc, list)?;
        let expectation = behind_scope(alloc, others)?;
        Ok(in_scope(names.map(Scope::AfterBridge), expectation))
    } else if is_word(kind, b"risk") {
        let names = names(alloc, list)?;
        let expectation = behind_scope(alloc, others)?;
        Ok(in_scope(names.map(Scope::AfterRisk), expectation))
    } else {
        Ok(Err(Fault::E01))
    }
}

/// What is expected in a scope, if the scope's list is one: the fault of a list goes behind E01 alone.
fn in_scope(scope: Option<Scope>, expectation: Result<Expectation, Fault>) -> Result<Promise, Fault>
    ensures { result ≡ promised_in scope expectation }
{
    let Some(scope) = scope else {
        return match expectation {
            Err(Fault::E01) => Err(Fault::E01),
            _ => Err(Fault::E02),
        };
    };
    match expectation {
        Ok(expectation) => Ok(Promise {
            is_final: false,
            scope,
            expectation,
        }),
        Err(fault) => Err(fault),
    }
}
