ghost use Rattle.std.specs.Prelude.{◌≡◌, ◌==◌, not, true, false, [], IfOk, nat_eq};
ghost use Rattle.std.specs.Option.{option_map_or};
ghost use Rattle.indexmap.specs.IndexMap.{get};
ghost use Rattle.mst_sweep.specs.Parts.{all_parts};

use crate::parts::Stays;
use indexmap::IndexMap;
use std::alloc::{AllocError, Global};

/// Whether a bridge is in another island afterwards than another one of its island.
fn is_moved(places: &IndexMap<usize, usize>, bridge: &Stays) -> bool
    ensures { result ≡ option_map_or (λ after. not (after == bridge.now.after)) (get nat_eq places.now bridge.now.before) false }
{
    match places.get(&bridge.before) {
        Some(after) => *after != bridge.after,
        None => false,
    }
}

/// Whether no island came apart, found in one pass: then there are no parts.
pub(crate) fn is_whole(alloc: Global, all: &[Stays]) -> Result<bool, AllocError>
    ensures { IfOk result (λ whole. whole ≡ true → all_parts all.now ≡ []) }
{
    let mut places = IndexMap::new(alloc);
    for bridge in all {
        if is_moved(&places, bridge) {
            return Ok(false);
        }
        if !places.contains_key(&bridge.before) {
            places.insert(bridge.before, bridge.after)?;
        }
    }
    Ok(true)
}
