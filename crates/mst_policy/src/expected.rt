#![tactic(auto, using(crate::proofs::FaultLemmas::faults))]

ghost use Rattle.std.specs.Prelude.{◌≡◌, [], ◌∷◌, IfOk};
ghost use Rattle.mst_lang.specs.Words.{words};
ghost use Rattle.mst_lang.specs.Arguments as scripts;
ghost use Rattle.mst_policy.specs.Arguments as values;
ghost use Rattle.mst_policy.specs.Arguments.{none_of, one, two, three, four};
ghost use Rattle.mst_policy.specs.Forms.{expected, rule_of, root as root_words, root_alone as alone, root_next as and_next};
ghost use Rattle.mst_policy.specs.declared.expectation.Expectation.TheVariants as expectations;

use crate::arguments::{names, ports, roles, steps};
use crate::expectation::Expectation;
use crate::form::{Kind, kind_of};
use mst_lang::{Fault, four_words, name, next_word, one_word, three_words, tree, two_words, vids};
use std::alloc::{AllocError, Global};

/// What words expect: the first of them is the word of an expectation, and those behind it are of its form.
pub(crate) fn expectation(
    alloc: Global,
    line: &[u8],
) -> Result<Result<Expectation, Fault>, AllocError>
    ensures { IfOk result (λ read. read ≡ expected (words line.now)) }
{
    let Some((word, arguments)) = next_word(line) else {
        return Ok(Err(Fault::E01));
    };
    match kind_of(word, arguments) {
        Some(kind) => of_kind(alloc, kind, arguments),
        None => Ok(Err(Fault::E01)),
    }
}

/// What words of a form expect, which stand behind its word.
fn of_kind(
    alloc: Global,
    kind: Kind,
    arguments: &[u8],
) -> Result<Result<Expectation, Fault>, AllocError>
    ensures { IfOk result (λ read. read ≡ (rule_of kind).says (words arguments.now)) }
{
    match kind {
        Kind::Root => Ok(root_alone(arguments)),
        Kind::RootNext => Ok(root(arguments)),
        Kind::Region => region(alloc, arguments),
        Kind::Role => role(alloc, arguments),
        Kind::Reach => reach(alloc, arguments),
        Kind::Apart => apart(alloc, arguments),
        Kind::Leaves => leaves(alloc, arguments),
        Kind::Together => together(alloc, arguments),
        Kind::Leaf => leaf(alloc, arguments),
        Kind::Depth => Ok(depth(arguments)),
        Kind::Hops => hops(alloc, arguments),
        Kind::Via => Ok(via(arguments)),
        Kind::Carries => Ok(carries(arguments)),
        Kind::Avoids => Ok(avoids(arguments)),
        Kind::Fits => Ok(fits(arguments)),
    }
}

/// Whether a word is this one.
pub(crate) fn is_word(word: &[u8], text: &[u8]) -> bool
    ensures { result ≡ scripts.is_text word.now text.now }
{
    word == text
}

/// A root, with another bridge next.
fn root(arguments: &[u8]) -> Result<Expectation, Fault>
    ensures { result ≡ root_words (words arguments.now) }
{
    match four_words(arguments) {
        Some((tree, bridge, _, next)) => root_next(tree, bridge, next),
        None => Err(Fault::E01),
    }
}

fn root_alone(arguments: &[u8]) -> Result<Expectation, Fault>
    ensures { result ≡ two scripts.tree scripts.name alone (words arguments.now) }
{
    let (tree_word, bridge) = two_words(arguments).ok_or(Fault::E01)?;
    let bridge = name(bridge)?;
    let tree = tree(tree_word)?;
    Ok(Expectation::Root {
        tree,
        bridge,
        next: None,
    })
}

fn root_next(tree_word: &[u8], bridge: &[u8], next: &[u8]) -> Result<Expectation, Fault>
    ensures { result ≡ three scripts.tree scripts.name scripts.name and_next (tree_word.now ∷ bridge.now ∷ next.now ∷ []) }
{
    let bridge = name(bridge)?;
    let next = name(next)?;
    let tree = tree(tree_word)?;
    Ok(Expectation::Root {
        tree,
        bridge,
        next: Some(next),
    })
}

fn region(alloc: Global, arguments: &[u8]) -> Result<Result<Expectation, Fault>, AllocError>
    ensures { IfOk result (λ read. read ≡ one values.names expectations.Region (words arguments.now)) }
{
    let Some(list) = one_word(arguments) else {
        return Ok(Err(Fault::E01));
    };
    let Some(names) = names(alloc, list)? else {
        return Ok(Err(Fault::E02));
    };
    Ok(Ok(Expectation::Region { names }))
}

fn role(alloc: Global, arguments: &[u8]) -> Result<Result<Expectation, Fault>, AllocError>
    ensures { IfOk result (λ read. read ≡ three scripts.tree values.ports values.roles expectations.Role (words arguments.now)) }
{
    let Some((tree_word, list, roles_word)) = three_words(arguments) else {
        return Ok(Err(Fault::E01));
    };
    let Some(ports) = ports(alloc, list)? else {
        return Ok(Err(Fault::E02));
    };
    let Some(roles) = roles(roles_word) else {
        return Ok(Err(Fault::E02));
    };
    match tree(tree_word) {
        Ok(tree) => Ok(Ok(Expectation::Role { tree, ports, roles })),
        Err(fault) => Ok(Err(fault)),
    }
}

fn reach(alloc: Global, arguments: &[u8]) -> Result<Result<Expectation, Fault>, AllocError>
    ensures { IfOk result (λ read. read ≡ two scripts.vids values.names expectations.Reach (words arguments.now)) }
{
    let Some((vids_word, list)) = two_words(arguments) else {
        return Ok(Err(Fault::E01));
    };
    let Some(names) = names(alloc, list)? else {
        return Ok(Err(Fault::E02));
    };
    match vids(vids_word) {
        Ok(vids) => Ok(Ok(Expectation::Reach { vids, names })),
        Err(fault) => Ok(Err(fault)),
    }
}

fn apart(alloc: Global, arguments: &[u8]) -> Result<Result<Expectation, Fault>, AllocError>
    ensures { IfOk result (λ read. read ≡ three scripts.vids values.names values.names expectations.Apart (words arguments.now)) }
{
    let Some((vids_word, list, others_list)) = three_words(arguments) else {
        return Ok(Err(Fault::E01));
    };
    let Some(own) = names(alloc, list)? else {
        return Ok(Err(Fault::E02));
    };
    let Some(others) = names(alloc, others_list)? else {
        return Ok(Err(Fault::E02));
    };
    match vids(vids_word) {
        Ok(vids) => Ok(Ok(Expectation::Apart {
            vids,
            names: own,
            others,
        })),
        Err(fault) => Ok(Err(fault)),
    }
}

fn leaves(alloc: Global, arguments: &[u8]) -> Result<Result<Expectation, Fault>, AllocError>
    ensures { IfOk result (λ read. read ≡ two scripts.vids values.names expectations.Leaves (words arguments.now)) }
{
    let Some((vids_word, list)) = two_words(arguments) else {
        return Ok(Err(Fault::E01));
    };
    let Some(names) = names(alloc, list)? else {
        return Ok(Err(Fault::E02));
    };
    match vids(vids_word) {
        Ok(vids) => Ok(Ok(Expectation::Leaves { vids, names })),
        Err(fault) => Ok(Err(fault)),
    }
}

fn together(alloc: Global, arguments: &[u8]) -> Result<Result<Expectation, Fault>, AllocError>
    ensures { IfOk result (λ read. read ≡ two scripts.vids values.names expectations.Together (words arguments.now)) }
{
    let Some((vids_word, list)) = two_words(arguments) else {
        return Ok(Err(Fault::E01));
    };
    let Some(names) = names(alloc, list)? else {
        return Ok(Err(Fault::E02));
    };
    match vids(vids_word) {
        Ok(vids) => Ok(Ok(Expectation::Together { vids, names })),
        Err(fault) => Ok(Err(fault)),
    }
}

fn leaf(alloc: Global, arguments: &[u8]) -> Result<Result<Expectation, Fault>, AllocError>
    ensures { IfOk result (λ read. read ≡ two scripts.tree values.names expectations.Leaf (words arguments.now)) }
{
    let Some((tree_word, list)) = two_words(arguments) else {
        return Ok(Err(Fault::E01));
    };
    let Some(names) = names(alloc, list)? else {
        return Ok(Err(Fault::E02));
    };
    match tree(tree_word) {
        Ok(tree) => Ok(Ok(Expectation::Leaf { tree, names })),
        Err(fault) => Ok(Err(fault)),
    }
}

fn depth(arguments: &[u8]) -> Result<Expectation, Fault>
    ensures { result ≡ two scripts.tree values.steps expectations.Depth (words arguments.now) }
{
    let (tree_word, steps_word) = two_words(arguments).ok_or(Fault::E01)?;
    let steps = steps(steps_word)?;
    let tree = tree(tree_word)?;
    Ok(Expectation::Depth { tree, steps })
}

fn hops(alloc: Global, arguments: &[u8]) -> Result<Result<Expectation, Fault>, AllocError>
    ensures { IfOk result (λ read. read ≡ three scripts.vids values.steps values.names expectations.Hops (words arguments.now)) }
{
    let Some((vids_word, steps_word, list)) = three_words(arguments) else {
        return Ok(Err(Fault::E01));
    };
    let Some(names) = names(alloc, list)? else {
        return Ok(Err(Fault::E02));
    };
    let Ok(most) = steps(steps_word) else {
        return Ok(Err(Fault::E02));
    };
    match vids(vids_word) {
        Ok(vids) => Ok(Ok(Expectation::Hops { vids, most, names })),
        Err(fault) => Ok(Err(fault)),
    }
}

fn via(arguments: &[u8]) -> Result<Expectation, Fault>
    ensures { result ≡ four scripts.vids scripts.name scripts.name scripts.name expectations.Via (words arguments.now) }
{
    let (vids_word, from, to, by) = four_words(arguments).ok_or(Fault::E01)?;
    let from = name(from)?;
    let to = name(to)?;
    let by = name(by)?;
    let vids = vids(vids_word)?;
    Ok(Expectation::Via { vids, from, to, by })
}

fn carries(arguments: &[u8]) -> Result<Expectation, Fault>
    ensures { result ≡ two scripts.name scripts.vids expectations.Carries (words arguments.now) }
{
    let (lan, vids_word) = two_words(arguments).ok_or(Fault::E01)?;
    let lan = name(lan)?;
    let vids = vids(vids_word)?;
    Ok(Expectation::Carries { lan, vids })
}

fn avoids(arguments: &[u8]) -> Result<Expectation, Fault>
    ensures { result ≡ two scripts.name scripts.vids expectations.Avoids (words arguments.now) }
{
    let (lan, vids_word) = two_words(arguments).ok_or(Fault::E01)?;
    let lan = name(lan)?;
    let vids = vids(vids_word)?;
    Ok(Expectation::Avoids { lan, vids })
}

fn fits(arguments: &[u8]) -> Result<Expectation, Fault>
    ensures { result ≡ none_of expectations.Fits (words arguments.now) }
{
    match next_word(arguments) {
        Some(_) => Err(Fault::E01),
        None => Ok(Expectation::Fits),
    }
}
