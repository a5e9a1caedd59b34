ghost use Rattle.std.specs.Prelude.{◌≡◌, map};
ghost use Rattle.std.specs.List.{list_all, list_any};
ghost use Rattle.mst_policy.specs.Items.{item_has};
ghost use Rattle.mst_reasons.specs.Risks.{has_one as has_one_of};

use mst_policy::NameItem;
use mst_view::{BridgeInView, MemberLan};

/// Whether an item has the name of one of these bridges.
fn any_bridge(bridges: &[BridgeInView], item: &NameItem) -> bool
    ensures { result ≡ list_any (λ b. item_has item.now b.name) bridges.now }
{
    bridges.iter().any(|bridge| item.has(&bridge.name))
}

/// Whether an item is for one of these bridges.
pub fn has_bridge(bridges: &[BridgeInView], item: &NameItem) -> bool
    ensures { result ≡ has_one_of (map (λ b. b.name) bridges.now) item.now }
{
    any_bridge(bridges, item)
}

/// Whether each of these items is.
pub fn have_bridges(bridges: &[BridgeInView], items: &[NameItem]) -> bool
    ensures { result ≡ list_all (has_one_of (map (λ b. b.name) bridges.now)) items.now }
{
    items.iter().all(|item| has_bridge(bridges, item))
}

/// Whether an item has the name of one of these LANs.
fn any_lan(lans: &[MemberLan], item: &NameItem) -> bool
    ensures { result ≡ list_any (λ l. item_has item.now l.name) lans.now }
{
    lans.iter().any(|lan| item.has(&lan.name))
}

/// Whether an item is for one of these LANs.
pub fn has_lan(lans: &[MemberLan], item: &NameItem) -> bool
    ensures { result ≡ has_one_of (map (λ l. l.name) lans.now) item.now }
{
    any_lan(lans, item)
}

/// Whether each of these items is.
pub fn have_lans(lans: &[MemberLan], items: &[NameItem]) -> bool
    ensures { result ≡ list_all (has_one_of (map (λ l. l.name) lans.now)) items.now }
{
    items.iter().all(|item| has_lan(lans, item))
}
