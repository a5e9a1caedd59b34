ghost use Rattle.std.specs.Prelude.{◌≡◌};
ghost use Rattle.std.specs.List.{Contains};
ghost use Rattle.mst_vlan.specs.roles.Roles.{role_of};
ghost use Rattle.mst_vlan.specs.forest.Settled.{outcome_of};

use mst_ids::Tree;
use mst_view::PortInView;
use mst_vlan::{Role, Settled, port_role};

/// The role of a logical port of the view in a tree, or nothing where its bridge hasn't that tree.
pub fn role(plan: &Settled, tree: Tree, port: &PortInView) -> Option<Role>
    requires { Contains plan.now.view.ports port.now }
    ensures { result ≡ role_of plan.now.net (outcome_of plan.now) tree port.now.name }
{
    plan.known();
    port_role(plan.view(), plan.forest(), port, tree)
}
