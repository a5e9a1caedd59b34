//! Laws of what failures do. Their functions do nothing: a caller has their clauses.
ghost use Rattle.std.specs.Prelude.{◌≡◌, ◌↔◌, ◌≤◌, ◌∷◌, ℕ, List, [], Bool, true, false};
ghost use Rattle.std.specs.List.{flat_map, sum_by, Contains};
ghost use Rattle.mst_net.specs.tables.Tables.{Net, IsNetwork};
ghost use Rattle.mst_rows.specs.Rows.{Row};
ghost use Rattle.mst_view.specs.View.{bridge_names};
ghost use Rattle.mst_graph.specs.Lists.{has_any};
ghost use Rattle.mst_policy.specs.Leaving.{are_left, Leaving as LeavingOf};
ghost use Rattle.mst_sweeping.specs.Pairing.{SweepsPairs, SweepPairsParts};
ghost use Rattle.mst_sweeping.specs.Sweeping.{Sweeps, SweepsPart, SweepParts, SweepsRisks};
ghost use Rattle.mst_sweep.specs.SweepParts.{PartOf, ToldOfPart, whole_part, but_last_row};
ghost use Rattle.mst_plan.specs.forest.Outcome.{Outcome, IsOutcome};
ghost use Rattle.mst_sweep.specs.Failures.{Event as EventOf, failed};
ghost use Rattle.mst_sweep.specs.declared.event.Cause.TheVariants.{One};
ghost use Rattle.mst_sweep.specs.declared.failure.Failure.{Failure as FailureOf};
ghost use Rattle.mst_sweep.specs.Parts.{AreParts};
ghost use Rattle.mst_sweep.specs.SweepText.{AreEventRows};
ghost use Rattle.mst_sweeping.specs.MovedVids.{ArePartsBut};
ghost use Rattle.mst_ids.specs.declared.name.PortName.{PortName as PortNameOf};
ghost use Rattle.mst_sweeping.specs.Restarts.{IsLeftAlone, IsPluggedOver, restarting};
ghost use Rattle.mst_sweeping.specs.StepText.{AreStepRows, IsAsInSweep};
ghost use Rattle.mst_sweeping.specs.Turns.{lists_of, trees_with, turned, turning, ways_out, KeepsWays, TakesOtherWay, TurnIn};
ghost use Rattle.mst_sweeping.specs.declared.step.Deed.{Deed as DeedOf};
ghost use Rattle.mst_sweeping.specs.declared.step.Stepped.{Stepped as SteppedOf};

use mst_graph::laws::group_lists;
use mst_ids::Vid;
use mst_plan::forest_laws::{has_outcome, one_outcome};
use mst_sweep::laws::one_event;
use mst_sweep::vlan_laws::islands_of_vid;

/// Each network has rows of what each single failure does, and one list of them and one number of those that cut some VID.
pub fn one_sweep()
    ensures some { (net : Net) → IsNetwork net → (cuts : ℕ) × (rows : List Row) × Sweeps net cuts rows }
    ensures one { (net : Net) (rows other : List Row) (c d : ℕ) → IsNetwork net → Sweeps net c rows → Sweeps net d other → (rows ≡ other) × (c ≡ d) }
{
    has_outcome();
    one_event();
    mst_sweep::laws::one_sweep();
}

/// A sweep in parts: each part has rows and a number of failures that cut some VID, and one of each. So many parts, each
/// without its last row, are one after another the sweep's rows without the last, and their numbers have the sweep's as
/// their sum. The only part of one is the sweep.
pub fn sweep_parts()
    ensures some { (net : Net) (part : PartOf) → IsNetwork net → (cuts : ℕ) × (rows : List Row) × SweepsPart part net cuts rows }
    ensures one { (net : Net) (part : PartOf) (rows other : List Row) (c d : ℕ) → IsNetwork net → SweepsPart part net c rows → SweepsPart part net d other → (rows ≡ other) × (c ≡ d) }
    ensures joined { (net : Net) (count : ℕ) (parts : List ToldOfPart) (rows : List Row) (cuts : ℕ) → IsNetwork net → 1 ≤ count → SweepParts net count parts → Sweeps net cuts rows
        → (flat_map (λ part. but_last_row part.rows) parts ≡ but_last_row rows) × (sum_by (λ part. part.cuts) parts ≡ cuts) }
    ensures whole { (net : Net) (rows : List Row) (cuts : ℕ) → SweepsPart whole_part net cuts rows ↔ Sweeps net cuts rows }
{
    has_outcome();
    one_outcome();
    one_event();
    mst_sweep::laws::sweep_parts();
}

/// Pairs of failures in parts: each part has rows and a number of pairs that cut some VID together, and one of each. So many parts, each without its last row, are one after another the whole's rows without the last, and their
/// numbers have the whole's as their sum: that is the only part of one.
pub fn pair_parts()
    ensures some { (net : Net) (part : PartOf) → IsNetwork net → (cuts : ℕ) × (rows : List Row) × SweepsPairs part net cuts rows }
    ensures one { (net : Net) (part : PartOf) (rows other : List Row) (c d : ℕ) → IsNetwork net → SweepsPairs part net c rows → SweepsPairs part net d other → (rows ≡ other) × (c ≡ d) }
    ensures joined { (net : Net) (count : ℕ) (parts : List ToldOfPart) (rows : List Row) (cuts : ℕ) → IsNetwork net → 1 ≤ count → SweepPairsParts net count parts → SweepsPairs whole_part net cuts rows
        → (flat_map (λ part. but_last_row part.rows) parts ≡ but_last_row rows) × (sum_by (λ part. part.cuts) parts ≡ cuts) }
{
    one_outcome();
    mst_sweep::laws::pairs();
}

/// A sweep through risks has rows and a number of those that cut some VID, and one of each, whatever the risks are called.
pub fn one_risk_sweep()
    ensures some { (net : Net) (risks : List EventOf) → IsNetwork net → (cuts : ℕ) × (rows : List Row) × SweepsRisks net risks cuts rows }
    ensures one { (net : Net) (risks : List EventOf) (rows other : List Row) (c d : ℕ) → IsNetwork net → SweepsRisks net risks c rows → SweepsRisks net risks d other → (rows ≡ other) × (c ≡ d) }
{
    has_outcome();
    one_event();
}

/// A step has one list of rows, whichever settled outcomes it is made by, and moves some VID by each or by none, and cuts some by each or by
/// none.
pub fn one_step()
    ensures { (a b : Net) (o p q r : Outcome) → IsNetwork a → IsNetwork b → IsOutcome a o → IsOutcome b p → IsOutcome a q → IsOutcome b r
        → (leaving : LeavingOf) (step : DeedOf) (rows other : List Row) (told said : SteppedOf) → AreStepRows leaving a o b p step rows told → AreStepRows leaving a q b r step other said → (rows ≡ other) × (told ≡ said) }
{
    one_outcome();
    islands_of_vid();
    group_lists::<Vid>();
}

/// The VIDs that a step cuts, and those that it joins, are among those that move. So a step that cuts some moves some.
pub fn cut_moves()
    ensures cut { (leaving : LeavingOf) (a b : Net) (o p : Outcome) (step : DeedOf) (rows : List Row) (told : SteppedOf) → (x : AreStepRows leaving a o b p step rows told) → (vid : ℕ) → Contains x.cut vid → Contains x.moved vid }
    ensures joined { (leaving : LeavingOf) (a b : Net) (o p : Outcome) (step : DeedOf) (rows : List Row) (told : SteppedOf) → (x : AreStepRows leaving a o b p step rows told) → (vid : ℕ) → Contains x.joined vid → Contains x.moved vid }
    ensures told { (leaving : LeavingOf) (a b : Net) (o p : Outcome) (step : DeedOf) (rows : List Row) (told : SteppedOf) → AreStepRows leaving a o b p step rows told → told.cuts ≡ true → told.moves ≡ true }
{
    islands_of_vid();
}

/// A VID that no bridge is meant to leave has the parts that it has by all bridges. One that is cut without those that are meant to leave it is cut
/// with them.
pub fn parts_without_leaving()
    ensures same { (leaving : LeavingOf) (a b : Net) (o p : Outcome) (vid : ℕ) (parts : List (List (List ℕ))) → are_left leaving vid ≡ false → ArePartsBut leaving a o b p vid parts ↔ AreParts a o b p vid parts }
    ensures fewer { (leaving : LeavingOf) (a b : Net) (o p : Outcome) (vid : ℕ) (rest parts : List (List (List ℕ))) → ArePartsBut leaving a o b p vid rest → AreParts a o b p vid parts → has_any rest ≡ true → has_any parts ≡ true }
{
    islands_of_vid();
}

/// Where a failure makes the one network of the other and nothing is meant to leave, a step that does the same tells the same roots, number of ports and VIDs that are cut
/// as the failure in a sweep does, and these VIDs have the same parts; behind these it tells the bridges that turn, and nothing else.
pub fn as_in_sweep()
    ensures { (a b : Net) (o p q r : Outcome) (failure : FailureOf) → IsNetwork a → IsNetwork b → IsOutcome a o → IsOutcome b p → IsOutcome a q → IsOutcome b r → failed (failure ∷ []) a ≡ b
        → (step : DeedOf) (rows swept : List Row) (told : SteppedOf) (cuts : Bool) → AreStepRows [] a o b p step rows told → AreEventRows a q b r (One failure) swept cuts → IsAsInSweep step failure rows told swept cuts }
{
    one_outcome();
    islands_of_vid();
    group_lists::<Vid>();
}

/// No port starts anew between a network and itself. One that is enabled in two networks does where its own plug is in LANs of different names,
/// whatever class these are of. One whose row is the same doesn't where its bridge's kind, MAC address and configuration are.
pub fn restarts_by_own_plug()
    ensures none { (net : Net) → restarting net net ≡ [] }
    ensures over { (a b : Net) (port : PortNameOf) → IsPluggedOver a b port → Contains (restarting a b) port }
    ensures alone { (a b : Net) (port : PortNameOf) → IsLeftAlone a b port → Contains (restarting a b) port → ⊥ }
{}

/// No bridge turns between a network and itself. A bridge turns in a tree exactly when it takes part in it in both networks and doesn't
/// keep its ways out there. The trees of a list of bridges are those in which these turn and no other, and a list is told exactly when it has a
/// tree. So no list has a bridge that keeps its ways out in all trees.
pub fn turns_by_way_out()
    ensures none { (net : Net) (o : Outcome) → turning net o net o ≡ [] }
    ensures exactly { (a b : Net) (o p : Outcome) (tree : ℕ) (bridge : List ℕ)
        → Contains (turned a o b p tree) bridge ↔ TakesOtherWay a o b p tree bridge }
    ensures trees { (a b : Net) (o p : Outcome) (bridges : List (List ℕ)) (tree : ℕ)
        → Contains (trees_with (turning a o b p) bridges) tree ↔ TurnIn a o b p bridges tree }
    ensures lists { (a b : Net) (o p : Outcome) (bridges : List (List ℕ))
        → Contains (lists_of (turning a o b p)) bridges ↔ (tree : ℕ) × TurnIn a o b p bridges tree }
    ensures kept { (a b : Net) (o p : Outcome) (bridge : List ℕ)
        → ((tree : ℕ) → KeepsWays (ways_out a o tree) (ways_out b p tree) bridge)
        → (told : List (List ℕ)) → Contains (lists_of (turning a o b p)) told → Contains told bridge → ⊥ }
{}
