ghost use Rattle.std.specs.Prelude.{◌≡◌};
ghost use Rattle.std.specs.List.{Contains};
ghost use Rattle.mst_view.specs.Viewed.{named_port};
ghost use Rattle.mst_forest.specs.Settled.{outcome_of};
ghost use Rattle.mst_roles.specs.Roles.{role_in};

use crate::kind::Role;
use crate::roles::port_role;
use mst_forest::Settled;
use mst_ids::Tree;
use mst_view::PortInView;

/// The role of a logical port of a settled network's view in a tree, or nothing where its bridge hasn't that tree. It
/// takes no memory.
pub fn role_of(plan: &Settled, port: &PortInView, tree: Tree) -> Option<Role>
    requires { Contains plan.now.view.ports port.now }
    ensures { result ≡ role_in plan.now.net (outcome_of plan.now) tree (named_port port.now) }
{
    plan.known();
    port_role(plan.view(), plan.forest(), port, tree)
}
