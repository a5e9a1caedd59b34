ghost use Rattle.std.specs.Prelude.{◌≡◌, ◌<◌, ◌==◌, is_some, is_ok, length, position, IfOk, IfSome};
ghost use Rattle.std.specs.Option.{option_map};
ghost use Rattle.std.specs.List.{list_all};
ghost use Rattle.mst_policy.specs.Arguments as values;

use crate::expectation::Roles;
use crate::item::{NameItem, NameList, PortItem, PortList, PortsOf};
use mst_ids::Name;
use mst_lang::{Fault, parse_number, port_number};
use std::alloc::{AllocError, Global};

/// A list of names with commas between, each a name, a name's beginning with `*` behind it, or `*`; nothing where the word
/// is none. `AllocError`: memory was wanted and refused.
pub(crate) fn names(alloc: Global, word: &[u8]) -> Result<Option<NameList>, AllocError>
    ensures { IfOk result (λ list. list ≡ values.names_value word.now) }
{
    let mut items = NameList::new(alloc);
    for part in word.split(|byte| *byte == b',') {
        let Some(item) = name_item(part) else {
            return Ok(None);
        };
        items.push(item)?;
    }
    Ok(Some(items))
}

/// Whether a word is a list of names.
pub(crate) fn are_names(word: &[u8]) -> bool
    ensures { result ≡ is_ok (values.names word.now) }
{
    are_name_items(word)
}

fn are_name_items(word: &[u8]) -> bool
    ensures { result ≡ list_all (λ item. is_some (values.name_item item)) (values.items_of word.now) }
{
    word.split(|byte| *byte == b',')
        .all(|item| name_item(item).is_some())
}

/// An item of a list of names.
fn name_item(item: &[u8]) -> Option<NameItem>
    ensures { result ≡ values.name_item item.now }
{
    match before_star(item) {
        Some(front) => beginning(front),
        None => Some(NameItem::Is(Name::parse(item).ok()?)),
    }
}

/// What stands before a `*` at the end, if one is there.
fn before_star(item: &[u8]) -> Option<&[u8]>
    ensures { option_map (λ front. front.now) result ≡ values.before_star item.now }
{
    if item.ends_with(b"*") {
        Some(&item[..item.len() - 1])
    } else {
        None
    }
}

/// The names that begin so.
fn beginning(front: &[u8]) -> Option<NameItem>
    ensures { result ≡ values.beginning front.now }
{
    if front.is_empty() {
        return Some(NameItem::Any);
    }
    Some(NameItem::Begins(Name::parse(front).ok()?))
}

/// A list of ports with commas between, each an item of a list of names, `:`, and the number of a port or `*`; nothing where
/// the word is none. `AllocError`: memory was wanted and refused.
pub(crate) fn ports(alloc: Global, word: &[u8]) -> Result<Option<PortList>, AllocError>
    ensures { IfOk result (λ list. list ≡ values.ports_value word.now) }
{
    let mut items = PortList::new(alloc);
    for part in word.split(|byte| *byte == b',') {
        let Some(item) = port_item(part) else {
            return Ok(None);
        };
        items.push(item.bridge, item.ports)?;
    }
    Ok(Some(items))
}

/// Whether a word is a list of ports.
pub(crate) fn are_ports(word: &[u8]) -> bool
    ensures { result ≡ is_ok (values.ports word.now) }
{
    are_port_items(word)
}

fn are_port_items(word: &[u8]) -> bool
    ensures { result ≡ list_all (λ item. is_some (values.port_item_value item)) (values.items_of word.now) }
{
    word.split(|byte| *byte == b',')
        .all(|item| port_item(item).is_some())
}

/// An item of a list of ports.
fn port_item(item: &[u8]) -> Option<PortItem>
    ensures { result ≡ values.port_item_value item.now }
{
    let (names, numbers) = halves(item)?;
    let bridge = name_item(names)?;
    let ports = ports_of(numbers)?;
    Some(PortItem { bridge, ports })
}

/// What stands before the first colon of an item and what stands after it, if it has one.
fn halves(item: &[u8]) -> Option<(&[u8], &[u8])>
    ensures { option_map (λ halves. (halves.0.now, halves.1.now)) result ≡ values.halves_of item.now }
{
    let colon = first_colon(item)?;
    Some((&item[..colon], &item[colon + 1..]))
}

fn first_colon(item: &[u8]) -> Option<usize>
    ensures value { result ≡ position (λ b. b == 58) item.now }
    ensures within { IfSome result (λ colon. colon < length item.now) }
{
    item.iter().position(|byte| *byte == b':')
}

/// Which ports of a bridge are meant.
fn ports_of(word: &[u8]) -> Option<PortsOf>
    ensures { result ≡ values.ports_of word.now }
{
    match word {
        b"*" => Some(PortsOf::All),
        _ => Some(PortsOf::One(port_number(word).ok()?)),
    }
}

/// Some roles, with commas between; nothing where the word is none.
pub(crate) fn roles(word: &[u8]) -> Option<Roles>
    ensures { result ≡ values.roles_value word.now }
{
    if !are_role_names(word) {
        return None;
    }
    Some(Roles {
        root: has_item(word, b"Root"),
        designated: has_item(word, b"Designated"),
        alternate: has_item(word, b"Alternate"),
        backup: has_item(word, b"Backup"),
        master: has_item(word, b"Master"),
        disabled: has_item(word, b"Disabled"),
    })
}

/// Whether a word is a list of roles.
pub(crate) fn are_roles(word: &[u8]) -> bool
    ensures { result ≡ is_ok (values.roles word.now) }
{
    are_role_names(word)
}

fn are_role_names(word: &[u8]) -> bool
    ensures { result ≡ list_all (values.is_among values.role_names) (values.items_of word.now) }
{
    word.split(|byte| *byte == b',').all(|item| is_role(item))
}

fn is_role(item: &[u8]) -> bool
    ensures { result ≡ values.is_among values.role_names item.now }
{
    matches!(
        item,
        b"Root" | b"Designated" | b"Alternate" | b"Backup" | b"Master" | b"Disabled"
    )
}

/// Whether a list with commas between has an item.
fn has_item(word: &[u8], item: &[u8]) -> bool
    ensures { result ≡ values.is_among (values.items_of word.now) item.now }
{
    word.split(|byte| *byte == b',').any(|other| other == item)
}

/// A number of steps, 0 to 1024. [`Fault::E02`] where the word is none.
pub(crate) fn steps(word: &[u8]) -> Result<u64, Fault>
    ensures { result ≡ values.steps word.now }
{
    let number = parse_number(word).ok_or(Fault::E02)?;
    if number > 1024 {
        return Err(Fault::E02);
    }
    Ok(number)
}
