ghost use Rattle.std.specs.Prelude.{◌≡◌, ◌==◌, ◌∷◌, [], nat_lt, max, IfOk, fold, map, filter, if◌then◌else◌};
ghost use Rattle.mst_roles.specs.forest.Settled.{outcome_of};
ghost use Rattle.mst_judged.specs.reasons.Reasons.{AreDepthReasons};

use mst_ids::{Name, Tree};
use mst_judged::{BridgeNames, Child, Judged, Reason, children_of};
use mst_roles::forest_laws::nested;
use std::alloc::{AllocError, Global};

/// The most steps of any of these bridges, and 0 where there is none.
fn greatest(children: &[Child]) -> usize
    ensures { result ≡ fold (λ most c. max most c.steps) 0 children.now }
{
    let mut most = 0;
    for child in children {
        most = most.max(child.steps);
    }
    most
}

/// The names of those of these bridges that have so many steps.
fn with_steps(alloc: Global, children: &[Child], steps: usize) -> Result<Vec<Name>, AllocError>
    ensures { IfOk result (λ names. names.items ≡ map (λ c. c.name) (filter (λ c. c.steps == steps) children.now)) }
{
    children
        .iter()
        .filter(|child| child.steps == steps)
        .map(|child| child.name)
        .collect(alloc)
}

/// Which bridges of a tree have the most steps to parents, where these are more than so many. `AllocError`: memory was wanted and refused.
pub fn depth_reasons(
    alloc: Global,
    judged: &Judged,
    tree: Tree,
    most: u64,
) -> Result<Vec<Reason>, AllocError>
    ensures { IfOk result (λ reasons. AreDepthReasons judged.now.plan.now.net (outcome_of judged.now.plan.now) tree most reasons.items) }
{
    judged.plan.known();
    nested();
    let children = children_of(alloc, judged.plan, tree)?;
    let steps = greatest(children.as_slice());
    let names = with_steps(alloc, children.as_slice(), steps)?;
    told(alloc, tree, most, steps as u64, names)
}

/// The reason of these bridges that have so many steps, where these are too many.
fn told(
    alloc: Global,
    tree: Tree,
    most: u64,
    steps: u64,
    names: Vec<Name>,
) -> Result<Vec<Reason>, AllocError>
    ensures { IfOk result (λ reasons. reasons.items ≡ (if nat_lt most steps then Reason.Depth tree steps names.items ∷ [] else [])) }
{
    let mut reasons = Vec::new(alloc);
    if most < steps {
        reasons.push(Reason::Depth {
            tree,
            steps,
            bridges: BridgeNames::of(names),
        })?;
    }
    Ok(reasons)
}
