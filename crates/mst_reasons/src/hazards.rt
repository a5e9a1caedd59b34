ghost use Rattle.std.specs.Prelude.{◌≡◌, IfOk};
ghost use Rattle.mst_reasons.specs.Risks.{all_events, hazards_in};
ghost use Rattle.mst_tables.specs.Tables.{Net, Numbers};
ghost use Rattle.mst_view.specs.Viewed.{IsView};

use crate::risks::{Risk, risks};
use mst_policy::PolicyLine;
use mst_sweep::{Event, Failure, events_of, failures};
use mst_view::View;
use std::alloc::{AllocError, Global};
use std::marker::Model;

/// After what promises of a policy can be judged in a network: its failures, each alone, and the risks of the policy.
#[derive(Drop)]
pub struct Hazards {
    failures: Vec<Failure>,
    risks: Vec<Risk>,
}

impl Model for Hazards {
    ghost use Rattle.std.specs.Prelude.{map};
    ghost use Rattle.mst_reasons.specs.Risks.{Hazards as HazardsOf};
    ghost use Rattle.mst_sweep.specs.Failures.{alone};

    ghost Value = { HazardsOf };

    ghost view = { λ h. record { single = map alone h.failures.items; risks = h.risks.items } };
}

impl Hazards {
    /// Those of a network and of a policy with these lines, by the network's view. `AllocError`: memory was wanted and refused.
    pub fn new(alloc: Global, view: &View, lines: &[PolicyLine]) -> Result<Hazards, AllocError>
        ensures { IfOk result (λ hazards. (net : Net) (numbers : Numbers) → IsView net numbers view.now → hazards ≡ hazards_in net lines.now) }
    {
        let failures = failures(alloc, view)?;
        let risks = risks(alloc, view, failures.as_slice(), lines)?;
        Ok(Hazards { failures, risks })
    }

    /// Each as an event. `AllocError`: memory was wanted and refused.
    pub fn events(&self, alloc: Global) -> Result<Vec<Event<'_>>, AllocError>
        ensures { IfOk result (λ events. events.items ≡ all_events self.now) }
    {
        let mut events = events_of(alloc, self.failures.as_slice())?;
        for risk in self.risks.as_slice() {
            events.push(risk.event())?;
        }
        Ok(events)
    }

    /// The risks alone, each as an event. `AllocError`: memory was wanted and refused.
    pub fn risks(&self, alloc: Global) -> Result<Vec<Event<'_>>, AllocError>
        ensures { IfOk result (λ risks. risks.items ≡ self.now.risks) }
    {
        let mut events = Vec::new(alloc);
        for risk in self.risks.as_slice() {
            events.push(risk.event())?;
        }
        Ok(events)
    }
}
