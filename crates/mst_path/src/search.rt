ghost use Rattle.std.specs.Prelude.{◌≡◌, ◌<◌, ◌≤◌, ◌+◌, ℕ, IfOk, OnOk, length, slice_index};
ghost use Rattle.std.specs.List.{Contains};
ghost use Rattle.mst_path.specs.Places.{AreNodes, Joins, Touches, IsSearched, IsGrown, Reaches, IsTree};

use crate::places::touching;
use std::alloc::{AllocError, Global};

/// The other node of a port.
fn other_end(bridges: &[usize], lans: &[usize], place: usize, at: usize) -> usize
    requires as_long { length lans.now ≡ length bridges.now }
    requires touches { Touches bridges.now lans.now at place }
    ensures { Joins bridges.now lans.now place at result }
{
    if bridges[place] == at {
        lans[place]
    } else {
        bridges[place]
    }
}

/// How deep the nodes lie that are reached so far, and these in the order in which they were.
#[derive(Drop)]
struct Search {
    depths: Vec<usize>,
    queue: Vec<usize>,
}

impl Search {
    /// Reaches what the ports at these places of a node lead to. None that was reached lies more than one deeper than that node.
    fn visit(
        &mut self,
        bridges: &[usize],
        lans: &[usize],
        places: &[usize],
        at: usize,
    ) -> Result<(), AllocError>
        requires nodes { AreNodes bridges.now lans.now (length self.old.depths.items) }
        requires places { (place : ℕ) → Contains places.now place → Touches bridges.now lans.now at place }
        requires at { 0 < slice_index self.old.depths.items at }
        requires near { (x : ℕ) → slice_index self.old.depths.items x ≤ slice_index self.old.depths.items at + 1 }
        requires searched { IsSearched bridges.now lans.now self.old.depths.items self.old.queue.items }
        ensures searched { OnOk result (IsSearched bridges.now lans.now self.new.depths.items self.new.queue.items) }
        ensures grown { OnOk result (IsGrown self.old.depths.items self.old.queue.items self.new.depths.items self.new.queue.items) }
        ensures near { OnOk result ((x : ℕ) → slice_index self.new.depths.items x ≤ slice_index self.new.depths.items at + 1) }
        ensures reaches { OnOk result ((place : ℕ) → Contains places.now place → Reaches bridges.now lans.now self.new.depths.items at place) }
    {
        let deeper = self.depths[at] + 1;
        for place in places {
            let other = other_end(bridges, lans, *place, at);
            if self.depths[other] == 0 {
                self.queue.push(other)?;
                self.depths[other] = deeper;
            }
        }
        Ok(())
    }
}

/// How deep each node lies below a root, which lies at 1, by the ports that join them: 0 for a node that none leads to. It takes
/// about a step for each port. `AllocError`: memory was wanted and refused.
pub(crate) fn depths_from(
    alloc: Global,
    bridges: &[usize],
    lans: &[usize],
    count: usize,
    root: usize,
) -> Result<Vec<usize>, AllocError>
    requires nodes { AreNodes bridges.now lans.now count }
    requires root { root < count }
    ensures count { IfOk result (λ depths. length depths.items ≡ count) }
    ensures low { IfOk result (λ depths. (x : ℕ) → slice_index depths.items x ≤ count) }
    ensures tree { IfOk result (λ depths. IsTree bridges.now lans.now root depths.items) }
{
    let lists = touching(alloc, bridges, lans, count)?;
    let mut search = Search {
        depths: vec![in alloc; 0; count]?,
        queue: Vec::new(alloc),
    };
    search.queue.push(root)?;
    search.depths[root] = 1;
    let mut next = 0;
    while next < search.queue.len() {
        let at = search.queue[next];
        search.visit(bridges, lans, lists[at].as_slice(), at)?;
        next += 1;
    }
    let Search { depths, queue: _ } = search;
    Ok(depths)
}
