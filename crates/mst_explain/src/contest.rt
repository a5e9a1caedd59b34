ghost use Rattle.std.specs.Prelude.{◌++◌, List, Some, OnOk};
ghost use Rattle.std.specs.Option.{option_copied};
ghost use Rattle.mst_rows.specs.Rows.{Row};
ghost use Rattle.mst_explain.specs.Claims.{rows_of_first, told_rows};
ghost use Rattle.mst_explain.specs.Seen.{root_rows, second_rows, contest_rows};

use crate::claims::{Among, Claim, first_among, rivals_of};
use crate::collected::{bridge_claims, lan_claims};
use crate::in_tree::InTree;
use crate::lines::{
    Contest, designated_contest, put_alone, put_over, put_restricted, root_contest,
};
use mst_ids::Tree;
use mst_roles::Settled;
use mst_rows::Rows;
use mst_view::PortInView;
use std::alloc::{AllocError, Global};

/// Puts the row of the first of some claims, against its rival, if there is one.
fn put_first<M: InTree, R: Rows>(
    contest: &Contest,
    first: &Claim<M::Vector>,
    rival: &Option<Claim<M::Vector>>,
    out: &mut R,
) -> Result<(), AllocError>
    ensures { (begun : R) (rows : List Row) → R.grew begun out.old rows → OnOk result (R.grew begun out.new (rows ++ rows_of_first M.fields contest.now first.now rival.now)) }
{
    match rival {
        None => put_alone(contest, &first.port, out),
        Some(other) => {
            let decided = M::difference(&first.vector, &other.vector);
            put_over(contest, &first.port, &other.port, &decided, out)
        }
    }
}

/// Puts the row of the first of the claims, against its rival for the port.
fn put_told<M: InTree, R: Rows>(
    contest: &Contest,
    claims: &[Claim<M::Vector>],
    out: &mut R,
) -> Result<(), AllocError>
    ensures { (first : R) (rows : List Row) → R.grew first out.old rows → OnOk result (R.grew first out.new (rows ++ told_rows M.rules.order M.fields contest.now (Some contest.now.port) claims.now)) }
{
    match first_among::<M>(claims, &Among::All) {
        None => Ok(()),
        Some(first) => {
            let among = rivals_of(first.port, Some(contest.port));
            let rival = first_among::<M>(claims, &among);
            put_first::<M, R>(contest, &first, &rival, out)
        }
    }
}

/// Puts whose vector is the bridge's, or that the port's role is restricted.
fn put_root<M: InTree, R: Rows>(
    alloc: Global,
    plan: &Settled,
    tree: Tree,
    port: &PortInView,
    out: &mut R,
) -> Result<(), AllocError>
    ensures { (first : R) (rows : List Row) → R.grew first out.old rows → OnOk result (R.grew first out.new (rows ++ root_rows M.rules plan.now.view (M.seen plan.now tree) M.fields tree port.now)) }
{
    if port.settings.is_restricted {
        return put_restricted(tree, &port.name, out);
    }
    let claims = bridge_claims::<M>(alloc, plan, tree, port.bridge)?;
    put_told::<M, R>(&root_contest(tree, &port.name), claims.as_slice(), out)
}

/// Puts the second row, by the LAN's designated port.
fn put_second<M: InTree, R: Rows>(
    alloc: Global,
    plan: &Settled,
    tree: Tree,
    port: &PortInView,
    designated: Option<&PortInView>,
    out: &mut R,
) -> Result<(), AllocError>
    ensures { (first : R) (rows : List Row) → R.grew first out.old rows → OnOk result (R.grew first out.new (rows ++ second_rows M.rules plan.now.view (M.seen plan.now tree) M.fields tree port.now (option_copied designated.entry))) }
{
    match designated {
        None => Ok(()),
        Some(designated) => {
            if designated.bridge == port.bridge {
                Ok(())
            } else {
                put_root::<M, R>(alloc, plan, tree, port, out)
            }
        }
    }
}

/// Puts the reason of an enabled port of the tree. It goes twice over the ports of the view.
pub(crate) fn put_contest<M: InTree, R: Rows>(
    alloc: Global,
    plan: &Settled,
    tree: Tree,
    port: &PortInView,
    out: &mut R,
) -> Result<(), AllocError>
    ensures { (first : R) (rows : List Row) → R.grew first out.old rows → OnOk result (R.grew first out.new (rows ++ contest_rows M.rules plan.now.view (M.seen plan.now tree) M.fields tree port.now)) }
{
    let claims = lan_claims::<M>(alloc, plan, tree, port.lan_number)?;
    put_told::<M, R>(
        &designated_contest(tree, &port.name),
        claims.as_slice(),
        out,
    )?;
    let designated = M::designated_on(plan, tree, port.lan_number);
    put_second::<M, R>(alloc, plan, tree, port, designated, out)
}
