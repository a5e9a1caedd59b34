ghost use Rattle.std.specs.Prelude.{◌≡◌, List, [], ◌∷◌, ◌++◌, OnOk};
ghost use Rattle.mst_hints.specs.Kept.{AreFirst, ArePut};
ghost use Rattle.mst_hints.specs.Puts.{Put, first_put, put_by as put_by_edit, same_holder, with_put};
ghost use Rattle.mst_hints.specs.declared.puts.Holder.{Holder as Declared};

use crate::record::Record;
use indexmap::IndexMap;
use mst_ids::{Mac, Name};
use mst_lang::Edit;
use std::alloc::{AllocError, Global};

/// What a line puts something into: a bridge at a MAC address, a port onto a bridge, or a port into a LAN.
#[derive(Clone, Copy, PartialEq, Eq, Hash)]
pub(crate) enum Holder {
    AtMac(Mac),
    OnBridge(Name),
    InLan(Name),
}

/// Two of them are equal where they are of one kind, and have one address or name.
fn same_holders()
    ensures { (a b : Declared) → ⟦<Holder as PartialEq>⟧.eq a b ≡ same_holder a b }
{}

/// Whether they are the same.
pub(crate) fn is_same(one: &Holder, other: &Holder) -> bool
    ensures { result ≡ same_holder one.now other.now }
{
    same_holders();
    one == other
}

/// What an edit puts, and into what.
pub(crate) fn put_by(edit: &Edit) -> Option<(Holder, Record)>
    ensures { result ≡ put_by_edit edit.now }
{
    match *edit {
        Edit::AddBridge { bridge, mac } => Some((Holder::AtMac(mac), Record::Bridge(bridge))),
        Edit::AddPort { port } => Some((Holder::OnBridge(port.bridge), Record::Port(port))),
        Edit::Plug { port, lan } => Some((Holder::InLan(lan), Record::Port(port))),
        _ => None,
    }
}

/// What the lines that were made put into what.
pub(crate) struct Puts {
    /// By the holder what a line put there first.
    pub(crate) first: IndexMap<Holder, Record>,
    /// All of it, in the order of the lines.
    pub(crate) all: Vec<(Holder, Record)>,
}

// By hand, so that the check of a drop of what holds it takes this one as one call.
impl Drop for Puts {
    fn drop(self) {
        let Puts { first: _, all: _ } = self;
    }
}

impl Puts {
    /// Nothing.
    pub(crate) fn new(alloc: Global) -> Puts
        ensures { ArePut [] result }
    {
        Puts {
            first: IndexMap::new(alloc),
            all: Vec::new(alloc),
        }
    }

    /// What a line put there first.
    pub(crate) fn first(&self, holder: &Holder) -> Option<Record>
        ensures { (puts : List Put) → ArePut puts self.now → result ≡ first_put holder.now puts }
    {
        same_holders();
        self.first.get(holder).copied()
    }

    /// Notes what a line put, if it did. `AllocError`: memory was wanted and refused, and what is told from then on isn't known.
    pub(crate) fn note(&mut self, put: Option<(Holder, Record)>) -> Result<(), AllocError>
        ensures { OnOk result ((puts : List Put) → ArePut puts self.old → ArePut (with_put puts put) self.new) }
    {
        match put {
            None => Ok(()),
            Some((holder, held)) => {
                self.note_first(&holder, &held)?;
                self.all.push((holder, held))?;
                Ok(())
            }
        }
    }

    /// Notes what a line put there, if no line did before.
    fn note_first(&mut self, holder: &Holder, held: &Record) -> Result<(), AllocError>
        ensures first { OnOk result ((puts : List Put) → AreFirst puts self.old → AreFirst (puts ++ (holder.now, held.now) ∷ []) self.new) }
        ensures all { OnOk result (self.new.all.items ≡ self.old.all.items) }
    {
        same_holders();
        if self.first.contains_key(holder) {
            return Ok(());
        }
        match self.first.insert(*holder, *held) {
            Ok(_) => Ok(()),
            Err(_) => Err(AllocError),
        }
    }
}
