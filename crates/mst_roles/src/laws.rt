//! Laws of the roles of ports. Their functions do nothing: a caller has their clauses.
ghost use Rattle.std.specs.Prelude.{◌≡◌, ◌≢◌, ◌↔◌, ℕ, true, Some, List};
ghost use Rattle.mst_tables.specs.Tables.{Net, IsNetwork};
ghost use Rattle.mst_view.specs.View.{LogicalPort, view_ports, IsUnrestricted};
ghost use Rattle.mst_forest.specs.Outcome.{Outcome, IsOutcome, trees_of};
ghost use Rattle.std.specs.List.{Contains};
ghost use Rattle.mst_tables.specs.ByTree.{by_tree};
ghost use Rattle.mst_forest.specs.nested.Roles.{Forwards};
ghost use Rattle.mst_forest.specs.Sight.{tree_port};
ghost use Rattle.mst_forest.specs.Cist.{cist_port};
ghost use Rattle.mst_roles.specs.Roles.{role_in, forwards};
ghost use Rattle.mst_roles.specs.declared.kind.Role.{Role as RoleOf};
ghost use Rattle.mst_roles.specs.declared.kind.Role.TheVariants.{Root, Master};
ghost use Rattle.mst_graph.specs.Walks.{Node, Walk};
ghost use Rattle.mst_roles.specs.Active.{active_ports, port_ends, IsEnabled, JoinWithoutLoop};

use mst_forest::laws::nested;
use mst_forest::nested_laws::{active, designated_by_key, restricted as none_restricted};
use mst_forest::outcome_laws as laws;
use mst_ids::{Name, PortName};
use mst_vector::{CistMetric, MstiMetric};

/// The enabled ports whose roles are Root, Designated or Master are those that forward in the nested trees of the
/// outcome. So what is proved of these there holds of roles.
pub fn forwarding()
    ensures { (net : Net) (o : Outcome) → IsNetwork net → IsOutcome net o → (p : LogicalPort) → Contains (view_ports net) p → p.is_enabled ≡ true
        → (tree : ℕ) (role : RoleOf) → role_in net o tree p ≡ Some role → forwards role ≡ true ↔ Forwards (trees_of net o) tree (tree_port p (cist_port (by_tree net) p)) }
{
    laws::one_outcome::<CistMetric, Name, Name, PortName>();
    designated_by_key::<CistMetric, Name, Name, PortName>();
    designated_by_key::<MstiMetric, Name, Name, PortName>();
}

/// A logical port whose role is restricted is never Root or Master, in whatever tree.
pub fn restricted()
    ensures { (net : Net) (o : Outcome) → IsNetwork net → IsOutcome net o → (p : LogicalPort) → Contains (view_ports net) p → p.settings.is_restricted ≡ true
        → (tree : ℕ) (role : RoleOf) → role_in net o tree p ≡ Some role → (role ≢ Root) × (role ≢ Master) }
{
    nested();
    none_restricted::<Name, Name, PortName>();
}

/// Where no logical port's role is restricted, the active ports of a VID join what is enabled and make no loop, whatever
/// trees the regions map the VID to: a
/// walk of active ports links the two ends of every enabled port, and so whatever enabled ports link, and no walk of
/// the other active ports links the two ends of an active one.
pub fn joined_without_loop()
    ensures active { (net : Net) (o : Outcome) (vid : ℕ) → IsNetwork net → IsOutcome net o → IsUnrestricted net → JoinWithoutLoop net (active_ports net o vid) }
    ensures sets { (net : Net) (o : Outcome) (vid : ℕ) → IsNetwork net → IsOutcome net o → IsUnrestricted net → (x y : Node (List ℕ) (List ℕ)) → Walk port_ends (IsEnabled net) x y → Walk port_ends (Contains (active_ports net o vid)) x y }
{
    nested();
    forwarding();
    active::<Name, Name, PortName>();
}
