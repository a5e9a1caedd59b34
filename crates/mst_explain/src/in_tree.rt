ghost use Rattle.std.specs.Prelude.{◌≡◌, ℕ, List};
ghost use Rattle.std.specs.Option.{option_and_then, option_copied};
ghost use Rattle.mst_roles.specs.forest.Forest.{designated_in};
ghost use Rattle.mst_roles.specs.forest.Settled.{SettledNet};
ghost use Rattle.mst_explain.specs.Fields.{Field, cist_fields, msti_fields, decided};
ghost use Rattle.mst_explain.specs.Seen.{CanStep, TreeSeen, designated_on as seen_designated};
ghost use Rattle.mst_explain.specs.SeenText.{port_found};
ghost use Rattle.mst_explain.specs.Told.{fields_of};
ghost use Rattle.mst_explain.specs.TreesSeen.{cist_seen, msti_seen};

use crate::field::{Difference, cist_difference, msti_difference};
use crate::settings::{cist_bridge, cist_port, msti_bridge, msti_port};
use mst_ids::{BridgeNo, LanNo, Name, PortName, Tree};
use mst_roles::Settled;
use mst_roles::outcome_laws::costs_bounded;
use mst_vector::{CistMetric, Metric, MstiMetric};
use mst_view::PortInView;

/// The designated port of a LAN in a tree.
pub(crate) fn designated_port<'a>(
    plan: &'a Settled,
    tree: Tree,
    lan: LanNo,
) -> Option<&'a PortInView>
    ensures { option_copied result ≡ option_and_then (port_found plan.now.view) (designated_in plan.now.forest tree lan) }
{
    plan.view().port(plan.forest().designated(tree, lan)?)
}

/// What one kind of tree has of a settled network.
pub(crate) trait InTree: Metric {
    /// The components of a vector.
    ghost fields: { Self.Vector → List Field };

    /// What is seen of a tree.
    ghost seen: { SettledNet → ℕ → TreeSeen Self.Bridge Self.Port Self.Vector };

    /// Does nothing: its clause says that costs are in range.
    fn costs_known(plan: &Settled, tree: Tree)
        ensures { CanStep Self.rules plan.now.view (seen plan.now tree) };

    /// The bridge of this number, where it is in the tree.
    fn bridge(plan: &Settled, tree: Tree, number: BridgeNo) -> Option<Self::Bridge>
        ensures { result ≡ (seen plan.now tree).bridge number };

    /// The root priority vector of the bridge of this number.
    fn vector(plan: &Settled, tree: Tree, number: BridgeNo) -> Option<Self::Vector>
        ensures { result ≡ (seen plan.now tree).vector number };

    /// What the tree has to know of a logical port, where it is in the tree.
    fn port(plan: &Settled, tree: Tree, port: &PortInView) -> Option<Self::Port>
        ensures { result ≡ (seen plan.now tree).port port.now };

    /// The designated port of a LAN.
    fn designated_on<'a>(plan: &'a Settled, tree: Tree, lan: LanNo) -> Option<&'a PortInView>
        ensures { option_copied result ≡ seen_designated Self.rules plan.now.view (seen plan.now tree) lan };

    /// The first component at which two vectors differ.
    fn difference(x: &Self::Vector, y: &Self::Vector) -> Option<Difference>
        ensures { fields_of result ≡ decided (fields x.now) (fields y.now) };
}

impl InTree for CistMetric {
    ghost fields = { cist_fields };

    ghost seen = { cist_seen };

    fn costs_known(plan: &Settled, _tree: Tree) {
        plan.known();
        costs_bounded::<CistMetric, Name, Name, PortName>();
    }

    fn bridge(plan: &Settled, _tree: Tree, number: BridgeNo) -> Option<Self::Bridge> {
        cist_bridge(plan, plan.view().bridge(number)?)
    }

    fn vector(plan: &Settled, _tree: Tree, number: BridgeNo) -> Option<Self::Vector> {
        plan.forest().cist(number)
    }

    fn port(plan: &Settled, _tree: Tree, port: &PortInView) -> Option<Self::Port> {
        cist_port(plan, port)
    }

    fn designated_on<'a>(plan: &'a Settled, tree: Tree, lan: LanNo) -> Option<&'a PortInView> {
        designated_port(plan, tree, lan)
    }

    fn difference(x: &Self::Vector, y: &Self::Vector) -> Option<Difference> {
        cist_difference(x, y)
    }
}

impl InTree for MstiMetric {
    ghost fields = { msti_fields };

    ghost seen = { msti_seen };

    fn costs_known(plan: &Settled, _tree: Tree) {
        plan.known();
        costs_bounded::<MstiMetric, Name, Name, PortName>();
    }

    fn bridge(plan: &Settled, tree: Tree, number: BridgeNo) -> Option<Self::Bridge> {
        msti_bridge(plan, tree, plan.view().bridge(number)?)
    }

    fn vector(plan: &Settled, tree: Tree, number: BridgeNo) -> Option<Self::Vector> {
        plan.forest().msti(tree, number)
    }

    fn port(plan: &Settled, tree: Tree, port: &PortInView) -> Option<Self::Port> {
        msti_port(plan, tree, port)
    }

    fn designated_on<'a>(plan: &'a Settled, tree: Tree, lan: LanNo) -> Option<&'a PortInView> {
        designated_port(plan, tree, lan)
    }

    fn difference(x: &Self::Vector, y: &Self::Vector) -> Option<Difference> {
        msti_difference(x, y)
    }
}
