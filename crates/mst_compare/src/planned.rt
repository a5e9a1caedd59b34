//! What the plan has for the BPDUs of a port.
ghost use Rattle.std.specs.Prelude.{◌≡◌, ◌++◌, [], filter_map, IfOk, OnOk, IsSome, Some};
ghost use Rattle.std.specs.List.{cons_option};
ghost use Rattle.mst_tables.specs.ByTree.{table_in};
ghost use Rattle.mst_tables.specs.Seen.{bridge_row};
ghost use Rattle.mst_roles.specs.forest.Seen.{trees_at};
ghost use Rattle.mst_compare.specs.Plan.{code_of, configuration_of, planned_cist, planned_msti};
ghost use Rattle.mst_compare.specs.Seen.{seen_cist, seen_msti, seen_planned};

use crate::digests::Digests;
use crate::senders::Origin;
use mst_bpdu::{ConfigurationId, Planned, PlannedCist, PlannedMsti, PlannedMstis, RoleCode};
use mst_ids::{BridgeId, PortId, PortName, Tree, padded};
use mst_roles::{Forest, Role, port_role};
use mst_tables::{Bridge, TreeSettings};
use mst_vector::{CistVector, MstiVector};
use mst_view::{PortInView, View};
use std::alloc::{AllocError, Global};

/// What the plan has for the BPDUs of a sender whose bridge has a root priority vector in the CIST. `AllocError`:
/// memory was wanted and refused.
pub(crate) fn planned(
    alloc: Global,
    view: &View,
    forest: &Forest,
    digests: &mut Digests,
    sender: &Origin,
) -> Result<Planned, AllocError>
    requires { IsSome (seen_cist view.now forest.now (bridge_row sender.now.bridge.bridge) sender.now.port) }
    ensures { IfOk result (λ plan. seen_planned view.now forest.now sender.now ≡ Some plan) }
{
    let cist = in_cist(view, forest, &sender.bridge.bridge, &sender.port).unwrap();
    let mstis = in_mstis(alloc, view, forest, &sender.port)?;
    Ok(Planned {
        cist,
        configuration: configuration(view.settings(), digests, sender),
        mstis,
    })
}

/// What the plan has for a port in the CIST, by the settings of its bridge: nothing where the bridge has no root
/// priority vector there.
fn in_cist(view: &View, forest: &Forest, bridge: &Bridge, port: &PortInView) -> Option<PlannedCist>
    ensures { result ≡ seen_cist view.now forest.now (bridge_row bridge.now) port.now }
{
    let vector = forest.cist(port.bridge)?;
    let role = port_role(view, forest, port, Tree::cist())?;
    Some(cist_with(view.settings(), bridge, &port.name, &vector, role))
}

/// What the plan has for a port of this role in the CIST, where its bridge has this root priority vector.
fn cist_with(
    settings: &TreeSettings,
    bridge: &Bridge,
    port: &PortName,
    vector: &CistVector,
    role: Role,
) -> PlannedCist
    ensures { result ≡ planned_cist settings.now.set port.now (bridge_row bridge.now) vector.now role }
{
    let cist = Tree::cist();
    let bridge_priority = settings.tree_priority(&port.bridge, cist);
    let port_priority = settings.port_priority(port, cist);
    PlannedCist {
        role: role_code(role),
        forwards: role.forwards(),
        root: vector.root,
        external_cost: vector.external,
        regional_root: vector.regional,
        internal_cost: vector.internal,
        bridge: BridgeId::new(bridge_priority, cist, bridge.mac),
        port: PortId::new(port_priority, port.number),
    }
}

/// The two bits of a role.
fn role_code(role: Role) -> RoleCode
    ensures { result ≡ code_of role }
{
    match role {
        Role::Root => RoleCode::Root,
        Role::Designated => RoleCode::Designated,
        Role::Alternate | Role::Backup => RoleCode::AlternateOrBackup,
        Role::Master | Role::Disabled => RoleCode::Master,
    }
}

/// What the plan has for a port in each MSTI of its bridge, rising.
fn in_mstis(
    alloc: Global,
    view: &View,
    forest: &Forest,
    port: &PortInView,
) -> Result<PlannedMstis, AllocError>
    ensures { IfOk result (λ mstis. mstis ≡ filter_map (seen_msti view.now forest.now port.now) (trees_at view.now port.now.bridge)) }
{
    let mut mstis = PlannedMstis::new(alloc);
    for tree in view.trees(port.bridge) {
        push_msti(view, forest, port, *tree, &mut mstis)?;
    }
    Ok(mstis)
}

/// Adds what the plan has for a port in an MSTI.
fn push_msti(
    view: &View,
    forest: &Forest,
    port: &PortInView,
    tree: Tree,
    mstis: &mut PlannedMstis,
) -> Result<(), AllocError>
    ensures { OnOk result (mstis.new ≡ mstis.old ++ cons_option (seen_msti view.now forest.now port.now tree) []) }
{
    match in_msti(view, forest, port, tree) {
        None => Ok(()),
        Some(msti) => mstis.push(msti),
    }
}

/// What the plan has for a port in an MSTI: nothing where its bridge has no root priority vector there.
fn in_msti(view: &View, forest: &Forest, port: &PortInView, tree: Tree) -> Option<PlannedMsti>
    ensures { result ≡ seen_msti view.now forest.now port.now tree }
{
    let vector = forest.msti(tree, port.bridge)?;
    let role = port_role(view, forest, port, tree)?;
    Some(msti_with(view.settings(), &port.name, tree, &vector, role))
}

/// What the plan has for a port of this role in an MSTI, where its bridge has this root priority vector.
fn msti_with(
    settings: &TreeSettings,
    port: &PortName,
    tree: Tree,
    vector: &MstiVector,
    role: Role,
) -> PlannedMsti
    ensures { result ≡ planned_msti settings.now.set port.now tree vector.now role }
{
    PlannedMsti {
        tree,
        role: role_code(role),
        forwards: role.forwards(),
        regional_root: vector.regional,
        internal_cost: vector.internal,
        bridge_priority: settings.tree_priority(&port.bridge, tree),
        port_priority: settings.port_priority(port, tree),
    }
}

/// The MST Configuration Identifier of a sender's bridge (802.1Q-2022, 13.8).
fn configuration(settings: &TreeSettings, digests: &mut Digests, sender: &Origin) -> ConfigurationId
    ensures { result ≡ configuration_of (bridge_row sender.now.bridge.bridge) (table_in settings.now.set.tables sender.now.port.name.bridge) }
{
    let bridge = &sender.bridge.bridge;
    let table = settings.table(&sender.port.name.bridge);
    ConfigurationId {
        selector: 0,
        name: padded::<32>(bridge.conf_name.as_bytes()),
        revision: bridge.revision,
        digest: digests.of(&table),
    }
}
