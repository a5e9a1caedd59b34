ghost use Rattle.std.specs.Prelude.{◌≡◌, ◌++◌, ◌∷◌, [], List, OnOk};
ghost use Rattle.std.specs.List.{count_by};
ghost use Rattle.mst_rows.specs.Rows.{Row};
ghost use Rattle.mst_tables.specs.Seen.{bridge_row};
ghost use Rattle.mst_slips.specs.Seen.{seen_first};
ghost use Rattle.mst_summary.specs.Counts.{counts_row};
ghost use Rattle.mst_summary.specs.Seen.{seen_counts};

use mst_ids::Tree;
use mst_kinds::{Kind, SummaryLine};
use mst_rows::{Rows, Value, put};
use mst_slips::is_first;
use mst_view::{BridgeInView, PortInView, View};
use mst_vlan::Regions;
use std::alloc::AllocError;

/// How much there is of a network: bridges, those that are on, logical ports, those that are enabled, regions and trees.
#[derive(Clone, Copy)]
pub(crate) struct Counts {
    pub(crate) bridges: u64,
    pub(crate) on: u64,
    pub(crate) ports: u64,
    pub(crate) enabled: u64,
    pub(crate) regions: u64,
    pub(crate) trees: u64,
}

/// How many of these bridges are on.
fn count_on(bridges: &[BridgeInView]) -> u64
    ensures { result ≡ count_by (λ b. (bridge_row b.bridge).is_on) bridges.now }
{
    bridges
        .iter()
        .filter(|bridge| bridge.bridge.is_on())
        .count() as u64
}

/// How many of these ports are enabled.
fn count_enabled(ports: &[PortInView]) -> u64
    ensures { result ≡ count_by (λ p. p.is_enabled) ports.now }
{
    ports.iter().filter(|port| port.is_enabled).count() as u64
}

/// How many of these bridges are the first of their regions.
fn count_firsts(regions: &Regions, bridges: &[BridgeInView]) -> u64
    ensures { result ≡ count_by (seen_first regions.now) bridges.now }
{
    bridges
        .iter()
        .filter(|bridge| is_first(regions, bridge))
        .count() as u64
}

/// How much there is, with these trees.
pub(crate) fn count(view: &View, regions: &Regions, trees: &[Tree]) -> Counts
    ensures { result ≡ seen_counts view.now regions.now trees.now }
{
    Counts {
        bridges: view.bridges().len() as u64,
        on: count_on(view.bridges()),
        ports: view.ports().len() as u64,
        enabled: count_enabled(view.ports()),
        regions: count_firsts(regions, view.bridges()),
        trees: trees.len() as u64,
    }
}

/// Puts the row of how much there is.
pub(crate) fn put_counts<R: Rows>(counts: &Counts, out: &mut R) -> Result<(), AllocError>
    ensures { (first : R) (rows : List Row) → R.grew first out.old rows → OnOk result (R.grew first out.new (rows ++ counts_row counts.now ∷ [])) }
{
    let values = [
        Value::Number(counts.bridges),
        Value::Number(counts.on),
        Value::Number(counts.ports),
        Value::Number(counts.enabled),
        Value::Number(counts.regions),
        Value::Number(counts.trees),
    ];
    put::<R>(Kind::Summary(SummaryLine::Counts), &values, out)
}
