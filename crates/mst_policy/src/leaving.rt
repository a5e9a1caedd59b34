ghost use Rattle.std.specs.Prelude.{◌≡◌, ◌++◌, ◌&&◌, [], IfOk, OnOk};
ghost use Rattle.mst_ids.specs.Vids.{has as has_vid};
ghost use Rattle.mst_policy.specs.Items.{has as has_name};
ghost use Rattle.mst_policy.specs.Leaving.{are_left, leaves, leaving_of, leaving_read, sets_of};

use crate::expectation::Expectation;
use crate::item::NameList;
use crate::policy::PolicyLine;
use crate::risk::Said;
use mst_ids::{Name, Vid, VidSet};
use std::alloc::{AllocError, Global};
use std::marker::Model;

/// Which bridges one line means to leave which VIDs.
#[derive(Drop)]
struct LeavingLine<'a> {
    vids: &'a VidSet,
    names: &'a NameList,
}

impl<'a> Model for LeavingLine<'a> {
    ghost use Rattle.std.specs.Prelude.{Bool, List};
    ghost use Rattle.mst_policy.specs.declared.item.NameItem.{NameItem as NameItemOf};

    ghost Value = { List Bool × List NameItemOf };

    ghost view = { λ l. (l.vids.now, l.names.now) };
}

impl<'a> LeavingLine<'a> {
    /// Whether the line has a VID.
    fn is_of(&self, vid: Vid) -> bool
        ensures { result ≡ has_vid self.now.0 vid }
    {
        self.vids.contains(vid.value())
    }

    /// Whether a bridge is to leave a VID by the line.
    fn has(&self, vid: Vid, bridge: &Name) -> bool
        ensures { result ≡ (has_vid self.now.0 vid && has_name self.now.1 bridge.now) }
    {
        self.is_of(vid) && self.names.has(bridge)
    }

    /// The VIDs of the line.
    fn vids(&self) -> VidSet
        ensures { result ≡ self.now.0 }
    {
        *self.vids
    }
}

/// Which bridges are meant to leave which VIDs.
#[derive(Drop)]
pub struct Leaving<'a> {
    lines: Vec<LeavingLine<'a>>,
}

impl<'a> Model for Leaving<'a> {
    ghost use Rattle.mst_policy.specs.Leaving.{Leaving as LeavingOf};

    ghost Value = { LeavingOf };

    ghost view = { λ l. l.lines.items };
}

/// Adds what a line of a policy says, if it is read, promises and says something of it.
fn add_line<'a>(line: &'a PolicyLine, lines: &mut Vec<LeavingLine<'a>>) -> Result<(), AllocError>
    ensures { OnOk result (lines.new.items ≡ lines.old.items ++ leaving_read line.now.read) }
{
    match &line.read {
        Ok(Said::Promise(promise)) => match &promise.expectation {
            Expectation::Leaves { vids, names } => {
                lines.push(LeavingLine { vids, names })?;
                Ok(())
            }
            _ => Ok(()),
        },
        _ => Ok(()),
    }
}

impl<'a> Leaving<'a> {
    /// No bridge is.
    pub fn none(alloc: Global) -> Leaving<'a>
        ensures { result ≡ [] }
    {
        Leaving {
            lines: Vec::new(alloc),
        }
    }

    /// What the lines of a policy say. `AllocError`: memory was wanted and refused.
    pub fn of(alloc: Global, policy: &'a [PolicyLine]) -> Result<Leaving<'a>, AllocError>
        ensures { IfOk result (λ leaving. leaving ≡ leaving_of policy.now) }
    {
        let mut lines = Vec::new(alloc);
        for line in policy {
            add_line(line, &mut lines)?;
        }
        Ok(Leaving { lines })
    }

    /// Whether a bridge is to leave a VID. It takes no memory.
    pub fn has(&self, vid: Vid, bridge: &Name) -> bool
        ensures { result ≡ leaves self.now vid bridge.now }
    {
        self.lines.iter().any(|line| line.has(vid, bridge))
    }

    /// Whether bridges are to leave a VID, be they in the network or not. It takes no memory.
    pub fn is_of(&self, vid: Vid) -> bool
        ensures { result ≡ are_left self.now vid }
    {
        self.lines.iter().any(|line| line.is_of(vid))
    }

    /// The sets of VIDs of the lines. `AllocError`: memory was wanted and refused.
    pub fn sets(&self, alloc: Global) -> Result<Vec<VidSet>, AllocError>
        ensures { IfOk result (λ sets. sets.items ≡ sets_of self.now) }
    {
        self.lines.iter().map(|line| line.vids()).collect(alloc)
    }
}
