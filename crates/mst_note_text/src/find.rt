ghost use Rattle.std.specs.Prelude.{◌≡◌, ℕ, ◌+◌, ◌<◌, ◌^◌, [], length, IfOk, OnOk};
ghost use Rattle.mst_note_text.specs.Places.{IsForest, HasDepths, deeper_of, depths_at};
ghost use Rattle.mst_note_text.specs.Walk.{IsWalk, IsSeen};

use crate::parent::{Depths, Parent};
use std::alloc::{AllocError, Global};

/// The depths of a bridge whose parent has these.
fn deeper(depths: Depths, is_between: bool) -> Depths
    requires internal { depths.internal + 1 < 2 ^ 64 }
    requires external { depths.external + 1 < 2 ^ 64 }
    ensures { result ≡ deeper_of is_between depths }
{
    if is_between {
        Depths {
            internal: 0,
            external: depths.external + 1,
        }
    } else {
        Depths {
            internal: depths.internal + 1,
            external: depths.external,
        }
    }
}

/// The bridges that were come to, and the depths found so far.
#[derive(Drop)]
struct Walk {
    /// Whether a bridge was come to.
    seen: Vec<bool>,
    /// Those whose depths aren't found yet: each one's parent comes next.
    path: Vec<usize>,
    /// The depths of the others.
    found: Vec<Depths>,
}

impl Walk {
    /// Goes up from a bridge to the first that was come to before, or that has no parent.
    fn climb(&mut self, parents: &[Option<Parent>], start: usize) -> Result<(), AllocError>
        requires forest { IsForest parents.now }
        requires start { start < length parents.now }
        requires walk { IsWalk parents.now self.old.seen.items self.old.path.items self.old.found.items }
        requires done { self.old.path.items ≡ [] }
        ensures walk { OnOk result (IsWalk parents.now self.new.seen.items self.new.path.items self.new.found.items) }
        ensures start { OnOk result (IsSeen self.new.seen.items start) }
        ensures keeps { OnOk result ((k : ℕ) → IsSeen self.old.seen.items k → IsSeen self.new.seen.items k) }
    {
        let mut at = start;
        while !self.seen[at] {
            self.path.push(at)?;
            self.seen[at] = true;
            match parents[at] {
                None => return Ok(()),
                Some(parent) => at = parent.place,
            }
        }
        Ok(())
    }

    /// Goes down again, and finds the depths on the way.
    fn descend(&mut self, parents: &[Option<Parent>])
        requires forest { IsForest parents.now }
        requires walk { IsWalk parents.now self.old.seen.items self.old.path.items self.old.found.items }
        ensures walk { IsWalk parents.now self.new.seen.items self.new.path.items self.new.found.items }
        ensures seen { self.new.seen.items ≡ self.old.seen.items }
        ensures done { self.new.path.items ≡ [] }
    {
        while let Some(at) = self.path.pop() {
            self.found[at] = match parents[at] {
                None => Depths {
                    internal: 0,
                    external: 0,
                },
                Some(parent) => deeper(self.found[parent.place], parent.is_between),
            };
        }
    }
}

/// The depths of each bridge, from its parent's place in the list and whether that is of another region. Each
/// bridge is come to once on the way up and once on the way down, so n bridges take n steps each way. `AllocError`:
/// memory was wanted and refused.
pub(crate) fn depths_of(
    alloc: Global,
    parents: &[Option<Parent>],
) -> Result<Vec<Depths>, AllocError>
    requires { IsForest parents.now }
    ensures each { IfOk result (λ v. length v.items ≡ length parents.now) }
    ensures depths { IfOk result (λ v. (n : ℕ) → n < length parents.now → HasDepths parents.now n (depths_at v.items n)) }
{
    let none = Depths {
        internal: 0,
        external: 0,
    };
    let mut walk = Walk {
        seen: vec![in alloc; false; parents.len()]?,
        path: Vec::new(alloc),
        found: vec![in alloc; none; parents.len()]?,
    };
    for start in 0..parents.len() {
        walk.climb(parents, start)?;
        walk.descend(parents);
    }
    let Walk {
        seen: _,
        path: _,
        found,
    } = walk;
    Ok(found)
}
