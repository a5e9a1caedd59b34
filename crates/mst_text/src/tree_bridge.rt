ghost use Rattle.std.specs.Prelude.{◌≡◌, ◌++◌, ◌∷◌, [], List, OnOk};
ghost use Rattle.std.specs.List.{Contains};
ghost use Rattle.mst_view.specs.Viewed.{named_bridge};
ghost use Rattle.mst_tables.specs.Tables.{Net};
ghost use Rattle.mst_rows.specs.Rows.{Row};
ghost use Rattle.mst_vlan.specs.forest.Settled.{outcome_of};
ghost use Rattle.mst_text.specs.Held.{AreHolders};
ghost use Rattle.mst_text.specs.TreeRows.{off_row, cist_row, msti_row, vector_rows};
ghost use Rattle.mst_text.specs.TreeText.{own_rows};

use crate::holders::Holders;
use mst_ids::{BridgeId, Name, Tree};
use mst_kinds::{Kind, TreeLine};
use mst_lang::Power;
use mst_rows::{Rows, Value, put};
use mst_vector::{CistVector, MstiVector};
use mst_view::BridgeInView;
use mst_vlan::{Settled, bridge_id};
use std::alloc::AllocError;

/// Puts the row of a bridge: that it is off, or its root priority vector in the tree.
pub(crate) fn put_own_row<R: Rows>(
    plan: &Settled,
    holders: &Holders,
    tree: Tree,
    bridge: &BridgeInView,
    out: &mut R,
) -> Result<(), AllocError>
    requires holders { AreHolders plan.now.net holders.now }
    requires bridge { Contains plan.now.view.bridges bridge.now }
    ensures { (first : R) (rows : List Row) → R.grew first out.old rows → OnOk result (R.grew first out.new (rows ++ own_rows plan.now.net (outcome_of plan.now) tree (named_bridge bridge.now))) }
{
    match bridge.bridge.power {
        Power::Off => put_off(tree, &bridge.name, out),
        Power::On => {
            let id = bridge_id(plan.settings(), tree, bridge);
            put_vector(plan, holders, tree, bridge, id, out)
        }
    }
}

/// Puts the row of a bridge that is off.
fn put_off<R: Rows>(tree: Tree, bridge: &Name, out: &mut R) -> Result<(), AllocError>
    ensures { (first : R) (rows : List Row) → R.grew first out.old rows → OnOk result (R.grew first out.new (rows ++ off_row tree bridge.now ∷ [])) }
{
    let values = [Value::Number(u64::from(tree.value())), Value::Name(bridge)];
    put::<R>(Kind::Tree(TreeLine::BridgeOff), &values, out)
}

/// Puts the row of a bridge of this identifier with its root priority vector.
fn put_vector<R: Rows>(
    plan: &Settled,
    holders: &Holders,
    tree: Tree,
    bridge: &BridgeInView,
    id: BridgeId,
    out: &mut R,
) -> Result<(), AllocError>
    requires holders { AreHolders plan.now.net holders.now }
    requires bridge { Contains plan.now.view.bridges bridge.now }
    ensures { (first : R) (rows : List Row) → R.grew first out.old rows
        → OnOk result (R.grew first out.new (rows ++ vector_rows plan.now.net tree bridge.now.name id ((outcome_of plan.now).cist.vector bridge.now.name) (((outcome_of plan.now).msti tree).vector bridge.now.name))) }
{
    if tree.value() == 0 {
        match plan.cist(bridge) {
            None => Ok(()),
            Some(vector) => put_in_cist(holders, &bridge.name, id, &vector, out),
        }
    } else {
        match plan.msti(tree, bridge) {
            None => Ok(()),
            Some(vector) => put_in_msti(holders, tree, &bridge.name, id, &vector, out),
        }
    }
}

/// Puts the row of a bridge with its root priority vector in the CIST.
fn put_in_cist<'a, R: Rows>(
    holders: &'a Holders,
    bridge: &'a Name,
    id: BridgeId,
    vector: &CistVector,
    out: &mut R,
) -> Result<(), AllocError>
    ensures { (net : Net) → AreHolders net holders.now
        → (first : R) (rows : List Row) → R.grew first out.old rows → OnOk result (R.grew first out.new (rows ++ cist_row net bridge.now id vector.now ∷ [])) }
{
    let values = [
        Value::Number(0),
        Value::Name(bridge),
        Value::BridgeId(id),
        Value::BridgeId(vector.root),
        holders.value(vector.root),
        Value::Number(vector.external),
        Value::BridgeId(vector.regional),
        holders.value(vector.regional),
        Value::Number(vector.internal),
        Value::BridgeId(vector.designated),
        holders.value(vector.designated),
        Value::PortId(vector.port),
        Value::PortId(vector.receiver),
    ];
    put::<R>(Kind::Tree(TreeLine::BridgeInCist), &values, out)
}

/// Puts the row of a bridge with its root priority vector in an MSTI.
fn put_in_msti<'a, R: Rows>(
    holders: &'a Holders,
    tree: Tree,
    bridge: &'a Name,
    id: BridgeId,
    vector: &MstiVector,
    out: &mut R,
) -> Result<(), AllocError>
    ensures { (net : Net) → AreHolders net holders.now
        → (first : R) (rows : List Row) → R.grew first out.old rows → OnOk result (R.grew first out.new (rows ++ msti_row net tree bridge.now id vector.now ∷ [])) }
{
    let values = [
        Value::Number(u64::from(tree.value())),
        Value::Name(bridge),
        Value::BridgeId(id),
        Value::BridgeId(vector.regional),
        holders.value(vector.regional),
        Value::Number(vector.internal),
        Value::BridgeId(vector.designated),
        holders.value(vector.designated),
        Value::PortId(vector.port),
        Value::PortId(vector.receiver),
    ];
    put::<R>(Kind::Tree(TreeLine::BridgeInMsti), &values, out)
}
