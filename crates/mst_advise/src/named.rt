ghost use Rattle.std.specs.Prelude.{◌≡◌};
ghost use Rattle.std.specs.List.{find};
ghost use Rattle.std.specs.Option.{option_copied};
ghost use Rattle.mst_net.specs.tables.Tables.{port_eq};

use mst_ids::PortName;
use mst_roles::Settled;
use mst_view::PortInView;

/// The logical port of a name.
pub fn port_named<'a>(plan: &'a Settled, name: &PortName) -> Option<&'a PortInView>
    ensures { option_copied result ≡ find (λ p. port_eq p.name name.now) plan.now.view.ports }
{
    plan.view().ports().iter().find(|port| port.name == *name)
}
