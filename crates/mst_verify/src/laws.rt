//! Laws of what a policy promises. Their functions do nothing: a caller has their clauses.
ghost use Rattle.std.specs.Prelude.{◌≡◌, ◌≢◌, ◌↔◌, ◌∷◌, ℕ, Bool, true, false, [], List, None};
ghost use Rattle.std.specs.List.{AllByRecursion, Contains, flat_map};
ghost use Rattle.mst_policy.specs.declared.expectation.Expectation.{Expectation as ExpectationOf};
ghost use Rattle.mst_policy.specs.declared.expectation.Promise.{Promise as PromiseOf};
ghost use Rattle.mst_policy.specs.declared.item.NameItem.{NameItem as ItemOf};
ghost use Rattle.mst_rows.specs.Rows.{Row};
ghost use Rattle.mst_net.specs.tables.Tables.{Net, IsNetwork};
ghost use Rattle.mst_roles.specs.forest.Outcome.{Outcome, IsOutcome};
ghost use Rattle.mst_island_judges.specs.judged.reasons.sweep.Cuts.{AreCuts};
ghost use Rattle.mst_island_judges.specs.judged.reasons.sweep.Failures.{Event as EventOf, failed, failures, single_events};
ghost use Rattle.mst_island_judges.specs.judged.reasons.sweep.SweepText.{Told, IsTold};
ghost use Rattle.mst_island_judges.specs.judged.reasons.sweep.declared.failure.Failure.{Failure as FailureOf};
ghost use Rattle.mst_island_judges.specs.judged.reasons.Named.{OfNetwork, Prior, nothing_before, with_before};
ghost use Rattle.mst_island_judges.specs.judged.reasons.Holds.{AllReach, AreNear, Holds};
ghost use Rattle.mst_island_judges.specs.judged.reasons.Judged.{HoldsAfter, IsJudgedSomewhere, IsKept, looks_back};
ghost use Rattle.mst_verify.specs.Joined.{AllHavePath, NoTwoTogether};
ghost use Rattle.mst_verify.specs.Linked.{AllPass, AllAreLinked, StayLinked, always_reach};
ghost use Rattle.mst_island_judges.specs.judged.reasons.Missing.{missing};
ghost use Rattle.mst_island_judges.specs.judged.reasons.Reasons.{AreReasons, HasOneList};
ghost use Rattle.mst_verify.specs.Whole.{AreAllVids, Fails, IsWhole, NoneIsCut, all_together, as_cut, reach_all};
ghost use Rattle.mst_island_judges.specs.judged.reasons.declared.reason.Reason.{Reason as ReasonOf};

use mst_island_judges::note_text_laws::notes;
use mst_island_judges::vlan_laws::islands_of_vid;
use mst_net::laws::networks;
use mst_roles::forest_laws::{has_outcome, nested, one_outcome};
use mst_roles::laws::joined_without_loop;

/// A reason is told exactly where an expectation doesn't hold.
pub fn told_where_broken()
    ensures { (net : Net) (o : Outcome) (before : Net) (lost : List FailureOf) (prior : Prior) (expectation : ExpectationOf) (reasons : List ReasonOf) → IsNetwork net → IsOutcome net o
        → AreReasons net o before lost prior expectation reasons → (reasons ≡ []) ↔ Holds net o before lost prior expectation }
{
    nested();
    notes();
}

/// There is one list of reasons why an expectation doesn't hold in a network.
pub fn reason_lists()
    ensures one { (net : Net) (o : Outcome) (before : Net) (lost : List FailureOf) (prior : Prior) (expectation : ExpectationOf) → IsNetwork net → IsOutcome net o → HasOneList net o before lost prior expectation }
    ensures some { (net : Net) (o : Outcome) (before : Net) (lost : List FailureOf) (prior : Prior) (expectation : ExpectationOf) → IsNetwork net → IsOutcome net o → OfNetwork prior → (reasons : List ReasonOf) × AreReasons net o before lost prior expectation reasons }
{
    nested();
    notes();
    islands_of_vid();
}

/// A promise of which the network lacks nothing is judged in some network: in the network itself, or in that of some event. But what looks back
/// may need that a network is before it.
pub fn judged_somewhere()
    ensures beside { (net : Net) (events : List EventOf) (promise : PromiseOf) → missing net events promise ≡ None → IsJudgedSomewhere events true promise }
    ensures alone { (net : Net) (events : List EventOf) (promise : PromiseOf) → missing net events promise ≡ None → looks_back promise.expectation ≡ false → IsJudgedSomewhere events false promise }
{}

/// Where no logical port's role is restricted and each is a member of the VLANs of the VIDs, of which there is one, bridges reach each other in
/// these exactly where any two of them are on, and enabled ports link them. And so it is always promised exactly of bridges that are linked
/// so, and stay it after each failure.
pub fn reach_where_linked()
    ensures now { (net : Net) (o : Outcome) (vids : List Bool) (bridges : List (List ℕ)) → IsNetwork net → IsOutcome net o → AllPass net vids → AllReach net o vids bridges ↔ AllAreLinked net bridges }
    ensures always { (net : Net) (o : Outcome) (prior : Prior) (vids : List Bool) (names : List ItemOf) → IsNetwork net → IsOutcome net o → AllPass net vids → IsKept net o prior (single_events net) (always_reach vids names) ↔ StayLinked net names }
{
    joined_without_loop();
    has_outcome();
    networks();
}

/// `hops VIDS 0 NAMES` holds exactly where no two of the bridges are in one island of one of the VIDs. And `reach VIDS A,B` holds exactly where
/// there is a path from A to B in each of the VIDs.
pub fn paths_as_islands()
    ensures apart { (net : Net) (o : Outcome) (vids : List Bool) (bridges : List (List ℕ)) → AreNear net o vids 0 bridges ↔ NoTwoTogether net o vids bridges }
    ensures reach { (net : Net) (o : Outcome) (vids : List Bool) (a b : List ℕ) → (a ≢ b) → AllReach net o vids (a ∷ b ∷ []) ↔ AllHavePath net o vids a b }
{}

/// Where all bridges of a network reach each other in some VIDs, those that an event leaves do afterwards exactly where it cuts none of these. And of
/// all VIDs, where a sweep doesn't count it among those that cut some.
pub fn cuts_are_failures()
    ensures vids { (net : Net) (o p : Outcome) (event : EventOf) (vids : List Bool) (cut : List ℕ) (rows : List Row)
        → Fails net o event.failures p → IsWhole net o vids → AreCuts net o (failed event.failures net) p event.cause cut rows → HoldsAfter net o nothing_before event.failures (reach_all vids) ↔ NoneIsCut vids cut }
    ensures counted { (net : Net) (o : Outcome) (event : EventOf) (vids : List Bool) (told : Told)
        → IsNetwork net → IsOutcome net o → AllByRecursion (Contains (failures net)) event.failures → AreAllVids vids → IsWhole net o vids → IsTold net o event told → HoldsAfter net o nothing_before event.failures (reach_all vids) ↔ (told.cuts ≡ false) }
{
    one_outcome();
    networks();
}

/// The reasons why all bridges don't stay together in all VIDs after an event are the rows of a sweep of what it cuts. So they stay together exactly
/// where a sweep doesn't count it among those that cut some VID.
pub fn together_as_in_sweep()
    ensures rows { (net : Net) (o p : Outcome) (event : EventOf) (vids : List Bool) (reasons : List ReasonOf) (cut : List ℕ) (rows : List Row)
        → Fails net o event.failures p → AreAllVids vids → AreReasons (failed event.failures net) p net event.failures (with_before net o nothing_before) (all_together vids) reasons
        → AreCuts net o (failed event.failures net) p event.cause cut rows → flat_map (as_cut event.cause) reasons ≡ rows }
    ensures counted { (net : Net) (o : Outcome) (event : EventOf) (vids : List Bool) (told : Told)
        → IsNetwork net → IsOutcome net o → AllByRecursion (Contains (failures net)) event.failures → AreAllVids vids → IsTold net o event told → HoldsAfter net o nothing_before event.failures (all_together vids) ↔ (told.cuts ≡ false) }
{
    one_outcome();
    networks();
    islands_of_vid();
}
