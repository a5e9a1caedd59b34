//! Laws of the rows of what each single failure does. Their functions do nothing: a caller has their clauses.
ghost use Rattle.std.specs.Prelude.{◌≡◌, ◌↔◌, ◌+◌, ◌-◌, ◌*◌, ◌/◌, ◌≤◌, ◌∷◌, ℕ, Bool, true, List, [], length, Ok};
ghost use Rattle.std.specs.List.{AllByRecursion, Contains, flat_map, sum_by};
ghost use Rattle.mst_net.specs.tables.After.{after};
ghost use Rattle.mst_net.specs.tables.Tables.{Net, IsNetwork};
ghost use Rattle.mst_view.specs.View.{IsUnrestricted};
ghost use Rattle.mst_vlan.specs.forest.Outcome.{Outcome, IsOutcome};
ghost use Rattle.mst_graph.specs.Lists.{has_any};
ghost use Rattle.mst_sweep.specs.Apart.{AllAreMembers, ComeApart};
ghost use Rattle.mst_sweep.specs.Failures.{AreMade, Event as EventOf, edit_of, failed, failures};
ghost use Rattle.mst_sweep.specs.Pairs.{pairs_of, IsPairs, IsPairsPart, ArePairsParts};
ghost use Rattle.mst_sweep.specs.Parts.{AreParts};
ghost use Rattle.mst_sweep.specs.declared.event.Cause.{Cause as CauseOf};
ghost use Rattle.mst_sweep.specs.declared.failure.Failure.{Failure as FailureOf};
ghost use Rattle.mst_rows.specs.Rows.{Row};
ghost use Rattle.mst_sweep.specs.SweepText.{AreEventRows, IsSweep, IsTold, IsToldAs, Told as ToldOf};
ghost use Rattle.mst_sweep.specs.SweepParts.{PartOf, IsPart, ToldOfPart, whole_part, part_of, IsSweepPart, AreSweepParts, but_last_row};

use mst_graph::laws::group_lists;
use mst_ids::Vid;
use mst_net::laws::networks;
use mst_vlan::forest_laws::{has_outcome, one_outcome};
use mst_vlan::laws::islands_of_vid;
use mst_vlan::roles_laws::joined_without_loop;

/// An event has one list of rows, whichever settled outcomes it is made by, and cuts some VID by each or by none; and there is one.
pub fn one_event()
    ensures one { (a b : Net) (o p q r : Outcome) → IsNetwork a → IsNetwork b → IsOutcome a o → IsOutcome b p → IsOutcome a q → IsOutcome b r
        → (cause : CauseOf) (rows other : List Row) (c d : Bool) → AreEventRows a o b p cause rows c → AreEventRows a q b r cause other d → (rows ≡ other) × (c ≡ d) }
    ensures some { (a b : Net) (o p : Outcome) → IsNetwork a → IsNetwork b → (cause : CauseOf) → (c : Bool) × (rows : List Row) × AreEventRows a o b p cause rows c }
{
    one_outcome();
    islands_of_vid();
    group_lists::<Vid>();
}

/// A network has one list of rows of all its failures, and one number of those that cut some VID, whichever settled outcome it is
/// made by.
pub fn one_sweep()
    ensures { (net : Net) (o p : Outcome) (rows other : List Row) (c d : ℕ) → IsNetwork net → IsOutcome net o → IsOutcome net p → IsSweep net o rows c → IsSweep net p other d → (rows ≡ other) × (c ≡ d) }
{
    one_outcome();
    islands_of_vid();
    group_lists::<Vid>();
    networks();
}

/// A part of a sweep has one list of rows and one number of failures that cut some VID, too. And the parts are the sweep: so many of
/// them, each without its last row, are one after another its rows without the last, and their numbers of failures that cut some VID
/// have its number as their sum. The only part of one is the sweep itself. A part has as many failures as all over the number of
/// parts, rounded down, or one more.
pub fn sweep_parts()
    ensures one { (net : Net) (o p : Outcome) (part : PartOf) (rows other : List Row) (c d : ℕ) → IsNetwork net → IsOutcome net o → IsOutcome net p → IsSweepPart part net o rows c → IsSweepPart part net p other d → (rows ≡ other) × (c ≡ d) }
    ensures joined { (net : Net) (o : Outcome) (count : ℕ) (parts : List ToldOfPart) (rows : List Row) (cuts : ℕ) → IsNetwork net → IsOutcome net o → 1 ≤ count → AreSweepParts net o count parts → IsSweep net o rows cuts
        → (flat_map (λ part. but_last_row part.rows) parts ≡ but_last_row rows) × (sum_by (λ part. part.cuts) parts ≡ cuts) }
    ensures lengths { (net : Net) (part : PartOf) → IsPart part → (length (failures net) / part.count ≤ length (part_of part (failures net))) × (length (part_of part (failures net)) ≤ length (failures net) / part.count + 1) }
    ensures whole { (net : Net) (o : Outcome) (rows : List Row) (cuts : ℕ) → IsSweepPart whole_part net o rows cuts ↔ IsSweep net o rows cuts }
{
    one_outcome();
    islands_of_vid();
    group_lists::<Vid>();
    networks();
}

/// What pairs of failures do is one list of rows and one number of pairs that cut some VID together, too, of each part of the pairs,
/// and there is one. The parts are the whole: so many of them, each without its last row, are one after another its rows without the
/// last, and their numbers have its number as their sum. A part has as many pairs as all over the number of parts, rounded down, or one
/// more; and twice as many as there are in all are each failure with each other.
pub fn pairs()
    ensures one { (net : Net) (o p : Outcome) (part : PartOf) (rows other : List Row) (c d : ℕ) → IsNetwork net → IsOutcome net o → IsOutcome net p → IsPairsPart part net o rows c → IsPairsPart part net p other d → (rows ≡ other) × (c ≡ d) }
    ensures some { (net : Net) (part : PartOf) → IsNetwork net → (o : Outcome) × (rows : List Row) × (cuts : ℕ) × IsOutcome net o × IsPairsPart part net o rows cuts }
    ensures joined { (net : Net) (o : Outcome) (count : ℕ) (parts : List ToldOfPart) (rows : List Row) (cuts : ℕ) → IsNetwork net → 1 ≤ count → ArePairsParts net o count parts → IsPairs net o rows cuts
        → (flat_map (λ part. but_last_row part.rows) parts ≡ but_last_row rows) × (sum_by (λ part. part.cuts) parts ≡ cuts) }
    ensures lengths { (net : Net) (part : PartOf) → IsPart part → (length (pairs_of (failures net)) / part.count ≤ length (part_of part (pairs_of (failures net)))) × (length (part_of part (pairs_of (failures net))) ≤ length (pairs_of (failures net)) / part.count + 1) }
    ensures many { (net : Net) → 2 * length (pairs_of (failures net)) ≡ length (failures net) * (length (failures net) - 1) }
    ensures whole { (net : Net) (o : Outcome) (rows : List Row) (cuts : ℕ) → IsPairsPart whole_part net o rows cuts ↔ IsPairs net o rows cuts }
{
    has_outcome();
    one_outcome();
    islands_of_vid();
    group_lists::<Vid>();
}

/// The edits of failures of a network, one after another, make the network with all of them, and none is refused. So one of them alone makes that
/// with it, and leaves a network.
pub fn made()
    ensures all { (net : Net) (those : List FailureOf) → AllByRecursion (Contains (failures net)) those → AreMade net those }
    ensures one { (net : Net) (failure : FailureOf) → Contains (failures net) failure → after (edit_of failure) net ≡ Ok (failed (failure ∷ []) net) }
    ensures network { (net : Net) (those : List FailureOf) → IsNetwork net → IsNetwork (failed those net) }
{
    networks();
}

/// What an event of a network does is told but for its name by its failures alone: a risk of one failure has the row of that failure with the risk's
/// name in its place, and cuts the same VIDs into the same parts.
pub fn told_by_failures()
    ensures { (net : Net) (o : Outcome) (event : EventOf) (other : CauseOf) (told : ToldOf) → IsTold net o event told
        → (also : ToldOf) × IsTold net o (record { cause = other; failures = event.failures }) also × IsToldAs event.cause other told also }
{}

/// Where no logical port's role is restricted, a VID of which every logical port is a member is cut by failures exactly
/// where these take apart two bridges that stay on: enabled ports linked them before, and don't afterwards.
pub fn cut_where_apart()
    ensures { (a : Net) (o p : Outcome) (those : List FailureOf) (vid : ℕ) (parts : List (List (List ℕ))) → IsNetwork a → IsOutcome a o → IsOutcome (failed those a) p
        → IsUnrestricted a → AllAreMembers a vid → AreParts a o (failed those a) p vid parts → (has_any parts ≡ true) ↔ ComeApart a (failed those a) }
{
    joined_without_loop();
}
