use crate::island::Island;
use crate::reaching::{bridges_on, islands_of, lans_up};
use crate::rows::{Rows, is_link, vlan_sets};
use mst_graph::Link;
use mst_ids::{BridgeNo, LanNo, Name, PortName, Vid, VidSet};
use mst_roles::Forest;
use mst_view::View;
use std::alloc::{AllocError, Global};
use std::marker::Model;

/// A view of a network with its trees, and for each VID which logical ports carry it: those that forward for it and are
/// members of its VLAN. That is worked out once, by VIDs that have one tree in each bridge's table.
#[derive(Drop)]
pub struct Carriage<'a> {
    view: &'a View,
    forest: &'a Forest,
    // The set of VLANs of each port, in the order of the view.
    vlans: Vec<VidSet>,
    rows: Rows,
    // The bridges that are on and the logical LANs that are up.
    bridges: Vec<BridgeNo>,
    lans: Vec<LanNo>,
}

impl<'a> Model for Carriage<'a> {
    ghost use Rattle.std.specs.Prelude.{map};
    ghost use Rattle.std.specs.Coded.{codes};
    ghost use Rattle.mst_tables.specs.ByTree.{by_tree_code};
    ghost use Rattle.mst_vlan.specs.Carried.{ViewWithTrees};
    ghost use Rattle.mst_vlan.specs.Kept.{IsKept};

    ghost Value = { ViewWithTrees };

    ghost coded = { Prim.hlevel (codes, by_tree_code) };

    ghost view = { λ c. record { view = c.view.now; forest = c.forest.now } };

    ghost invariant = { λ c. IsKept c.view.now c.forest.now c.vlans.items c.rows.numbers.items (map (λ row. row.items) c.rows.rows.items) c.bridges.items c.lans.items };
}

impl<'a> Carriage<'a> {
    ghost use Rattle.std.specs.Prelude.{◌≡◌, ◌<◌, IfOk, false, length, map, slice_index_or};
    ghost use Rattle.mst_tables.specs.Tables.{Net, Numbers};
    ghost use Rattle.mst_roles.specs.forest.Agrees.{AreOf, Known};
    ghost use Rattle.mst_roles.specs.forest.Forest.{IsForest};
    ghost use Rattle.mst_vlan.specs.Reach.{AreReached};
    ghost use Rattle.mst_vlan.specs.Seen.{seen_links};
    ghost use Rattle.mst_vlan.specs.Carried.{seen_is_link, seen_carried};
    ghost use Rattle.mst_vlan.specs.Kept.{seen_row, seen_vlans};

    /// Works out which ports carry each VID. For n ports it takes n steps for each group of VIDs that have one tree in
    /// each bridge's table. `AllocError`: memory was wanted and refused.
    pub fn new(
        alloc: Global,
        view: &'a View,
        forest: &'a Forest,
    ) -> Result<Carriage<'a>, AllocError>
        requires { Known view.now forest.now.regions }
        ensures { IfOk result (λ c. c ≡ record { view = view.now; forest = forest.now }) }
    {
        let vlans = vlan_sets(alloc, view)?;
        let rows = Rows::new(alloc, view, forest)?;
        let bridges = bridges_on(alloc, view)?;
        let lans = lans_up(alloc, view)?;
        Ok(Carriage {
            view,
            forest,
            vlans,
            rows,
            bridges,
            lans,
        })
    }

    /// The view.
    pub fn view(&self) -> &View
        ensures { result.now ≡ self.now.view }
    {
        self.view
    }

    /// The trees.
    pub fn forest(&self) -> &Forest
        ensures { result.now ≡ self.now.forest }
    {
        self.forest
    }

    /// The set of VLANs of each logical port.
    pub(crate) fn vlans(&self) -> &[VidSet]
        ensures { result.now ≡ seen_vlans self.now.view }
    {
        self.vlans.as_slice()
    }

    /// A flag for each logical port: it forwards for the VID.
    pub(crate) fn row(&self, vid: Vid) -> &[bool]
        ensures { result.now ≡ seen_row self.now.view self.now.forest vid }
    {
        self.rows.rows[self.rows.numbers[usize::from(vid.value()) - 1]].as_slice()
    }

    /// Whether the logical port at this place of the view carries the VID. It takes constant time and no memory.
    pub fn carries(&self, place: usize, vid: Vid) -> bool
        requires { place < length self.now.view.ports }
        ensures { result ≡ slice_index_or (map (seen_is_link self.now.view self.now.forest vid) self.now.view.ports) place false }
    {
        is_link(self.row(vid), self.vlans(), place, vid)
    }

    /// The links of the ports that carry a VID, in the order of the view. `AllocError`: memory was wanted and refused.
    pub fn links(&self, alloc: Global, vid: Vid) -> Result<Vec<Link>, AllocError>
        ensures { IfOk result (λ links. links.items ≡ seen_links self.now.view self.now.forest vid) }
    {
        let row = self.row(vid);
        let vlans = self.vlans();
        let ports = self.view().ports();
        let mut links = Vec::new(alloc);
        for place in 0..ports.len() {
            let port = &ports[place];
            if is_link(row, vlans, place, vid) {
                links.push(Link {
                    bridge: port.bridge,
                    lan: port.lan_number,
                })?;
            }
        }
        Ok(links)
    }

    /// The ports that carry a VID, each with its logical LAN, in the order of the view. `AllocError`: memory was wanted
    /// and refused.
    pub fn carried(&self, alloc: Global, vid: Vid) -> Result<Vec<(PortName, Name)>, AllocError>
        ensures { IfOk result (λ carried. carried.items ≡ seen_carried self.now.view self.now.forest vid) }
    {
        let row = self.row(vid);
        let vlans = self.vlans();
        let ports = self.view().ports();
        let mut carried = Vec::new(alloc);
        for place in 0..ports.len() {
            let port = &ports[place];
            if is_link(row, vlans, place, vid) {
                carried.push((port.name, port.lan))?;
            }
        }
        Ok(carried)
    }

    /// The islands of a VID: two of the bridges that are on and the logical LANs that are up are in one just where
    /// ports that carry the VID link them. They come as those of `mst_vlan::reach`. For n ports it takes about n log n
    /// steps. `AllocError`: memory was wanted and refused.
    pub fn islands(&self, alloc: Global, vid: Vid) -> Result<Vec<Island>, AllocError>
        ensures { IfOk result (λ islands. (net : Net) (numbers : Numbers) (is : IsForest net numbers self.now.forest) → AreOf net numbers self.now.view self.now.forest.regions → AreReached net numbers is.outcome vid islands.items) }
    {
        let links = self.links(alloc, vid)?;
        islands_of(
            alloc,
            self.bridges.as_slice(),
            self.lans.as_slice(),
            links.as_slice(),
        )
    }
}
