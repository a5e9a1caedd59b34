ghost use Rattle.std.specs.Prelude.{◌≡◌};
ghost use Rattle.mst_changes.specs.Subjects.{subject_of, item_cmp, subject_cmp};

use crate::value::VectorOrRole;
use mst_ids::{Name, PortName, Tree};
use std::cmp::Ordering;

/// A bridge or a logical port, by name.
#[derive(Clone, Copy)]
pub(crate) enum Item {
    Bridge(Name),
    Port(PortName),
}

/// A bridge or a logical port in a tree.
#[derive(Clone, Copy)]
pub(crate) struct Subject {
    pub(crate) tree: Tree,
    pub(crate) item: Item,
}

/// What an outcome has of a subject. A mark is told of, in contracts, as the list of its entries.
#[derive(Clone, Copy)]
pub struct Entry {
    pub(crate) tree: Tree,
    pub(crate) item: Item,
    pub(crate) value: VectorOrRole,
}

impl Entry {
    /// The subject that the entry is of.
    pub(crate) fn subject(&self) -> Subject
        ensures { result ≡ subject_of self.now }
    {
        Subject {
            tree: self.tree,
            item: self.item,
        }
    }
}

/// The order of bridges and ports: bridges before ports, by names.
fn item_order(a: &Item, b: &Item) -> Ordering
    ensures { result ≡ item_cmp a.now b.now }
{
    match (a, b) {
        (Item::Bridge(x), Item::Bridge(y)) => x.cmp(y),
        (Item::Bridge(_), Item::Port(_)) => Ordering::Less,
        (Item::Port(_), Item::Bridge(_)) => Ordering::Greater,
        (Item::Port(x), Item::Port(y)) => x.cmp(y),
    }
}

/// The order of subjects: by trees, and in a tree bridges before ports, by names.
pub(crate) fn subject_order(a: &Subject, b: &Subject) -> Ordering
    ensures { result ≡ subject_cmp a.now b.now }
{
    match a.tree.value().cmp(&b.tree.value()) {
        Ordering::Equal => item_order(&a.item, &b.item),
        other => other,
    }
}
