//! The settings that ports have in one tree alone, as a tree holds them: shared with the tree before, where they are the same.
ghost use Rattle.std.specs.Prelude.{◌≡◌, [], IfOk, IsTrue};
ghost use Rattle.std.specs.Option.{option_map};
ghost use Rattle.mst_topology.specs.Places.{in_map};
ghost use Rattle.mst_outcome.specs.Shared.{own_of};

use crate::comparing::TellsApart;
use mst_topology::ByNumber;
use std::alloc::{AllocError, Global};
use std::collections::BTreeMap;
use std::marker::Model;
use std::rc::Rc;

/// The settings that ports have in one tree alone, twice: in the order of the ports' numbers, in which they are compared
/// with those after an edit, and in a flat table, in which they are looked up.
#[derive(Drop)]
pub struct Own<P> {
    settings: Vec<(usize, P)>,
    flat: ByNumber<P>,
}

impl<P> Model for Own<P> {
    ghost use Rattle.std.specs.Prelude.{◌≡◌, ℕ, List};

    ghost Value = { List (ℕ × P) };

    ghost view = { λ o. o.flat };

    ghost invariant = { λ o. o.flat ≡ o.settings.items };
}

impl<P: Copy> Own<P> {
    /// These settings. `AllocError`: memory was wanted and refused.
    pub fn new(alloc: Global, own: &BTreeMap<usize, P>) -> Result<Self, AllocError>
        ensures { IfOk result (λ held. held ≡ own.now.entries) }
    {
        let mut settings = Vec::new(alloc);
        let mut flat = ByNumber::new(alloc);
        for (number, port) in own.iter() {
            settings.push((*number, *port))?;
            flat.insert(*number, *port)?;
        }
        flat.known();
        Ok(Own { settings, flat })
    }

    /// They in order.
    pub fn settings(&self) -> &[(usize, P)]
        ensures { result.now ≡ self.now }
    {
        self.settings.as_slice()
    }

    /// They in a flat table.
    pub fn flat(&self) -> &ByNumber<P>
        ensures { result.now ≡ self.now }
    {
        &self.flat
    }
}

/// The settings that a tree holds in a flat table, or this table of none.
pub fn table<'a, P: Copy>(own: &'a Option<Rc<Own<P>>>, none: &'a ByNumber<P>) -> &'a ByNumber<P>
    requires { none.now ≡ [] }
    ensures { result.now ≡ own_of (option_map (λ r. r.value) own.now) }
{
    match own {
        None => none,
        Some(own) => own.flat(),
    }
}

/// Whether a port has the same settings of its own in two tables, or none in either.
pub fn same_own<M: TellsApart>(
    own_from: &ByNumber<M::Port>,
    own_to: &ByNumber<M::Port>,
    number: usize,
) -> bool
    ensures { IsTrue result → in_map own_from.now number ≡ in_map own_to.now number }
{
    match (own_from.get(number), own_to.get(number)) {
        (None, None) => true,
        (Some(a), Some(b)) => M::same_port(&a, &b),
        _ => false,
    }
}

/// Whether these are the settings in a map, in order.
fn same_settings<M: TellsApart>(here: &[(usize, M::Port)], there: &BTreeMap<usize, M::Port>) -> bool
    ensures { IsTrue result → here.now ≡ there.now.entries }
{
    if here.len() != there.len() {
        return false;
    }
    let mut rest = there.iter();
    for place in 0..here.len() {
        let own = &here[place];
        match rest.next() {
            None => return false,
            Some((number, port)) => {
                if own.0 != *number || !M::same_port(&own.1, port) {
                    return false;
                }
            }
        }
    }
    rest.next().is_none()
}

/// Whether a tree holds these settings.
pub fn holds<M: TellsApart>(held: &Option<Rc<Own<M::Port>>>, own: &BTreeMap<usize, M::Port>) -> bool
    ensures { IsTrue result → own_of (option_map (λ r. r.value) held.now) ≡ own.now.entries }
{
    match held {
        None => own.is_empty(),
        Some(held) => same_settings::<M>(held.settings(), own),
    }
}

/// What a tree after an edit holds of the settings that ports have in it alone: what the tree before holds, where that
/// is the same, and else a copy. `AllocError`: memory was wanted and refused.
pub fn shared<P: Copy>(
    alloc: Global,
    before: &Option<Rc<Own<P>>>,
    own: &BTreeMap<usize, P>,
    same: bool,
) -> Result<Option<Rc<Own<P>>>, AllocError>
    requires { IsTrue same → own_of (option_map (λ r. r.value) before.now) ≡ own.now.entries }
    ensures { IfOk result (λ held. own_of (option_map (λ r. r.value) held) ≡ own.now.entries) }
{
    if !same {
        let copy = Rc::new(alloc, Own::new(alloc, own)?)?;
        return Ok(Some(copy));
    }
    match before {
        None => Ok(None),
        Some(before) => Ok(Some(before.clone()?)),
    }
}
