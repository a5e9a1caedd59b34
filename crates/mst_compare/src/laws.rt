//! Laws of comparisons. Their functions do nothing: a caller has their clauses.
ghost use Rattle.std.specs.Prelude.{◌≡◌, ℕ, List, Some};
ghost use Rattle.mst_ids.specs.declared.name.PortName.{PortName as PortOf};
ghost use Rattle.mst_tables.specs.Tables.{Net, BridgeRow, IsNetwork};
ghost use Rattle.mst_roles.specs.forest.config.Digest.{identifier};
ghost use Rattle.mst_bpdu.specs.declared.bpdu.Bpdu.{Bpdu};
ghost use Rattle.mst_bpdu.specs.declared.difference.Difference.{Difference};
ghost use Rattle.mst_compare.specs.Plan.{configuration_of, octets_of};
ghost use Rattle.mst_compare.specs.Sender.{sender_of};
ghost use Rattle.mst_compare.specs.Comparison.{AreDifferences};

use mst_roles::forest_laws::{has_outcome, one_outcome};

/// A BPDU that has a sender has a list of differences from the plan of a network: the network has an outcome, and each
/// bridge that is on has a root priority vector in its CIST.
pub fn has_list()
    ensures { (net : Net) (bpdu : Bpdu) (port : PortOf) → IsNetwork net → sender_of net bpdu ≡ Some port → (found : List Difference) × AreDifferences net bpdu found }
{
    has_outcome();
}

/// A BPDU has one list of differences from the plan of a network, since a network has one outcome.
pub fn one_list()
    ensures { (net : Net) (bpdu : Bpdu) (found others : List Difference) → IsNetwork net → AreDifferences net bpdu found → AreDifferences net bpdu others → found ≡ others }
{
    one_outcome();
}

/// The MST Configuration Identifier that a plan has of a bridge has just the octets of `mst_roles::mcid`, of its name, its
/// revision and its table (802.1Q-2022, 13.8).
pub fn configuration()
    ensures { (row : BridgeRow) (table : List ℕ) → octets_of (configuration_of row table) ≡ identifier row.conf_name row.revision table }
{}
