ghost use Rattle.std.specs.Prelude.{◌≡◌, ℕ, IfOk, nat_eq};
ghost use Rattle.indexmap.specs.IndexMap.{get};
ghost use Rattle.mst_tables.specs.Tables.{Net};
ghost use Rattle.mst_rows.specs.Rows.{cell};
ghost use Rattle.mst_text.specs.Held.{AreHolders, name_with};
ghost use Rattle.mst_text.specs.Holders.{holder_cell};

use indexmap::IndexMap;
use mst_ids::{BridgeId, Mac, Name};
use mst_rows::Value;
use mst_view::BridgeInView;
use mst_vlan::Settled;
use std::alloc::{AllocError, Global};

/// The names of the bridges of a network by their MAC addresses: which bridge an identifier is of.
pub struct Holders {
    names: IndexMap<Mac, Name>,
}

// By hand, so that the checks of the functions that hold one stay short.
impl Drop for Holders {
    fn drop(self) {
        let Holders { names: _ } = self;
    }
}

impl Holders {
    /// Those of a settled network. It goes over the bridges once. `AllocError`: memory was wanted and refused.
    pub fn of(alloc: Global, plan: &Settled) -> Result<Holders, AllocError>
        ensures { IfOk result (AreHolders plan.now.net) }
    {
        plan.known();
        let names = names_by_mac(alloc, plan.view().bridges())?;
        Ok(Holders { names })
    }

    /// The name of the bridge that an identifier is of, as the value of a row.
    pub(crate) fn value(&self, id: BridgeId) -> Value<'_>
        ensures { (net : Net) → AreHolders net self.now → cell result ≡ holder_cell net id }
    {
        match self.names.get(&id.mac()) {
            None => Value::Absent,
            Some(name) => Value::Name(name),
        }
    }
}

/// The names of these bridges by their MAC addresses, the first name where two have one.
fn names_by_mac(alloc: Global, bridges: &[BridgeInView]) -> Result<IndexMap<Mac, Name>, AllocError>
    ensures { IfOk result (λ names. (mac : ℕ) → get nat_eq names mac ≡ name_with bridges.now mac) }
{
    let mut names = IndexMap::new(alloc);
    for bridge in bridges {
        if !names.contains_key(&bridge.bridge.mac) {
            names.insert(bridge.bridge.mac, bridge.name)?;
        }
    }
    Ok(names)
}
