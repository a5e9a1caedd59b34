ghost use Rattle.std.specs.Prelude.{◌≡◌};
ghost use Rattle.mst_kinds.specs.Kinds.{first_of, parts_of};

use crate::advise_line::AdviseLine;
use crate::ask_line::AskLine;
use crate::bridge_command::BridgeCommand;
use crate::capture_line::CaptureLine;
use crate::change_line::ChangeLine;
use crate::contest_line::ContestLine;
use crate::explain_line::ExplainLine;
use crate::mark::Mark;
use crate::note_line::NoteLine;
use crate::part::Part;
use crate::path_line::PathLine;
use crate::port_command::PortCommand;
use crate::query::Query;
use crate::refusal_line::RefusalLine;
use crate::region_line::RegionLine;
use crate::step_line::StepLine;
use crate::summary_line::SummaryLine;
use crate::sweep_line::SweepLine;
use crate::tree_line::TreeLine;
use crate::verify_line::VerifyLine;
use crate::vlan_line::VlanLine;

/// A kind of rows, by the text that it stands in.
#[derive(Clone, Copy)]
pub enum Kind {
    /// A query, with its words.
    Query(Query),
    /// A line of the text of a tree.
    Tree(TreeLine),
    /// A line of what VLANs reach.
    Vlan(VlanLine),
    /// A line of regions, of an MST configuration or of a class of links.
    Region(RegionLine),
    /// A note.
    Note(NoteLine),
    /// A line of how two networks differ.
    Change(ChangeLine),
    /// A line of a saved network that is of a bridge, and its first line.
    OfBridge(BridgeCommand),
    /// A line of a saved network that is of a port or of a LAN.
    OfPort(PortCommand),
    /// A line of why a port has its role.
    Explain(ExplainLine),
    /// A line of what won over what, for the role of a port.
    Contest(ContestLine),
    /// A line of what failures do.
    Sweep(SweepLine),
    /// A line of a summary.
    Summary(SummaryLine),
    /// A line of what a capture has.
    Capture(CaptureLine),
    /// A line that says what is refused.
    Refusal(RefusalLine),
    /// A line of a standing planner, beside those of its answers.
    Ask(AskLine),
    /// A line of whether a network does what a policy promises.
    Verify(VerifyLine),
    /// The same of the network behind a step of a change.
    StepVerify(VerifyLine),
    /// A line of what the steps of a change do.
    Step(StepLine),
    /// A line of which settings bring about what is wanted.
    Advise(AdviseLine),
    /// A line of the path between two bridges.
    Path(PathLine),
}

impl Kind {
    /// The first word of its lines, which is the kind of its records.
    pub fn first(self) -> Mark
        ensures { result ≡ first_of self }
    {
        match self {
            Kind::Query(line) => line.first(),
            Kind::Tree(line) => line.first(),
            Kind::Vlan(line) => line.first(),
            Kind::Region(line) => line.first(),
            Kind::Note(line) => line.first(),
            Kind::Change(line) => line.first(),
            Kind::OfBridge(line) => line.first(),
            Kind::OfPort(line) => line.first(),
            Kind::Explain(line) => line.first(),
            Kind::Contest(line) => line.first(),
            Kind::Sweep(line) => line.first(),
            Kind::Summary(line) => line.first(),
            Kind::Capture(line) => line.first(),
            Kind::Refusal(line) => line.first(),
            Kind::Ask(line) => line.first(),
            Kind::Verify(line) => line.first(),
            Kind::StepVerify(line) => line.first(),
            Kind::Step(line) => line.first(),
            Kind::Advise(line) => line.first(),
            Kind::Path(line) => line.first(),
        }
    }

    /// What stands behind it.
    pub fn parts(self) -> &'static [Part]
        ensures { result.now ≡ parts_of self }
    {
        match self {
            Kind::Query(line) => line.parts(),
            Kind::Tree(line) => line.parts(),
            Kind::Vlan(line) => line.parts(),
            Kind::Region(line) => line.parts(),
            Kind::Note(line) => line.parts(),
            Kind::Change(line) => line.parts(),
            Kind::OfBridge(line) => line.parts(),
            Kind::OfPort(line) => line.parts(),
            Kind::Explain(line) => line.parts(),
            Kind::Contest(line) => line.parts(),
            Kind::Sweep(line) => line.parts(),
            Kind::Summary(line) => line.parts(),
            Kind::Capture(line) => line.parts(),
            Kind::Refusal(line) => line.parts(),
            Kind::Ask(line) => line.parts(),
            Kind::Verify(line) => line.parts(),
            Kind::StepVerify(line) => line.parts_behind_step(),
            Kind::Step(line) => line.parts(),
            Kind::Advise(line) => line.parts(),
            Kind::Path(line) => line.parts(),
        }
    }
}
