ghost use Rattle.std.specs.Prelude.{◌≡◌, ◌↔◌, ◌⊎◌, ◌≤◌, ◌<◌, ◌^◌, ℕ, true, IfOk, length, slice_index};
ghost use Rattle.mst_path.specs.Places.{AreNodes, AreApart, AreFirstOff, AreFirstOn, AreWaysOn, StaysBeside};

use std::alloc::{AllocError, Global};

/// How frames go on to a root: how deep each node lies below it, which lies at 1, and the place of the port by which they go on from there.
#[derive(Drop)]
pub(crate) struct Ways {
    pub(crate) depths: Vec<usize>,
    pub(crate) ups: Vec<usize>,
}

/// Finds for each logical LAN that is reached the first of its ports by which frames go on to a bridge that lies one less deep.
fn find_ways_off(bridges: &[usize], lans: &[usize], depths: &[usize], ups: &mut [usize])
    requires nodes { AreNodes bridges.now lans.now (length depths.now) }
    requires apart { AreApart bridges.now lans.now }
    requires low { (x : ℕ) → slice_index depths.now x < 2 ^ 63 }
    requires as_long { length ups.old ≡ length depths.now }
    requires none { (x : ℕ) → x < length ups.old → slice_index ups.old x ≡ length bridges.now }
    ensures as_long { length ups.new ≡ length ups.old }
    ensures first { AreFirstOff bridges.now lans.now depths.now ups.new }
    ensures others { StaysBeside lans.now ups.old ups.new }
{
    for place in 0..bridges.len() {
        let lan = lans[place];
        let leads_on = depths[bridges[place]] + 1 == depths[lan];
        if leads_on && place < ups[lan] {
            ups[lan] = place;
        }
    }
}

/// Finds for each bridge that is reached, and isn't the root, the port by which frames go on: of those on a logical LAN that lies one
/// less deep the one whose hop arrives at the first port, and of these the first.
fn find_ways_on(bridges: &[usize], lans: &[usize], depths: &[usize], ups: &mut [usize])
    requires nodes { AreNodes bridges.now lans.now (length depths.now) }
    requires apart { AreApart bridges.now lans.now }
    requires low { (x : ℕ) → slice_index depths.now x < 2 ^ 63 }
    requires as_long { length ups.old ≡ length depths.now }
    requires none { (place : ℕ) → place < length bridges.now → slice_index ups.old (slice_index bridges.now place) ≡ length bridges.now }
    ensures as_long { length ups.new ≡ length ups.old }
    ensures first { AreFirstOn bridges.now lans.now depths.now ups.new }
    ensures others { StaysBeside bridges.now ups.old ups.new }
{
    for place in 0..bridges.len() {
        let bridge = bridges[place];
        let leads_on = depths[lans[place]] + 1 == depths[bridge];
        if leads_on && arrives_before(lans, ups, place, ups[bridge]) {
            ups[bridge] = place;
        }
    }
}

/// Whether the hop by a port arrives before that by another one, if there is that.
fn arrives_before(lans: &[usize], ups: &[usize], place: usize, other: usize) -> bool
    requires place { place < length lans.now }
    requires lans { (place : ℕ) → place < length lans.now → slice_index lans.now place < length ups.now }
    ensures { result ≡ true ↔ (length lans.now ≤ other) ⊎ (slice_index ups.now (slice_index lans.now place) < slice_index ups.now (slice_index lans.now other)) }
{
    other >= lans.len() || ups[lans[place]] < ups[lans[other]]
}

/// By which port frames go on from each node that lies below the root: from a bridge on to a logical LAN, from that off to a bridge. Of all
/// ways with the fewest hops it is the first one's, by where each hop arrives and then by where it leaves. `AllocError`: memory was wanted and
/// refused.
pub(crate) fn ways_on(
    alloc: Global,
    bridges: &[usize],
    lans: &[usize],
    depths: Vec<usize>,
) -> Result<Ways, AllocError>
    requires nodes { AreNodes bridges.now lans.now (length depths.items) }
    requires apart { AreApart bridges.now lans.now }
    requires low { (x : ℕ) → slice_index depths.items x ≤ length depths.items }
    ensures depths { IfOk result (λ ways. ways.depths.items ≡ depths.items) }
    ensures ways { IfOk result (λ ways. AreWaysOn bridges.now lans.now depths.items ways.ups.items) }
{
    let none = bridges.len();
    let mut ups = vec![in alloc; none; depths.len()]?;
    find_ways_off(bridges, lans, depths.as_slice(), ups.as_mut_slice());
    find_ways_on(bridges, lans, depths.as_slice(), ups.as_mut_slice());
    Ok(Ways { depths, ups })
}
