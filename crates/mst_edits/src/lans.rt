ghost use Rattle.std.specs.Prelude.{◌≡◌, ◌++◌, ◌==◌, not, OnOk, false};
ghost use Rattle.std.specs.FinMap as fin;
ghost use Rattle.std.specs.List.{flat_map};
ghost use Rattle.mst_lang.specs.declared.line.Edit.TheVariants.{SetLan};
ghost use Rattle.mst_lang.specs.declared.line.LanChange.TheVariants.{Speed as SpeedOf};
ghost use Rattle.mst_net.specs.tables.Seen.{lan_row};
ghost use Rattle.mst_edits.specs.Edits.{joined, lan_edits, lan_set, lan_settings, state_edits, state_here, state_settings, when};

use crate::list::push_when;
use crate::staying::{has_lan, lan_before};
use mst_ids::Name;
use mst_lang::{Edit, LanChange, LanState};
use mst_net::{Lan, Saved};
use std::alloc::{AllocError, Global};

/// Adds the edits of each LAN of the new network, by name: whether it is up among them, or not.
pub(crate) fn add_lans<C: Saved, D: Saved>(
    alloc: Global,
    in_place: bool,
    old: &C,
    new: &D,
    edits: &mut Vec<Edit>,
) -> Result<(), AllocError>
    ensures { OnOk result (edits.new.items ≡ edits.old.items ++ flat_map (lan_edits in_place (C.tables old.now).net (D.tables new.now).net) (fin.keys (D.tables new.now).net.lans)) }
{
    let names = new.lan_names(alloc)?;
    for name in names.as_slice() {
        add_lan(in_place, old, new, name, edits)?;
    }
    Ok(())
}

/// Adds the edits of a LAN, if it is there.
fn add_lan<C: Saved, D: Saved>(
    in_place: bool,
    old: &C,
    new: &D,
    name: &Name,
    edits: &mut Vec<Edit>,
) -> Result<(), AllocError>
    ensures { OnOk result (edits.new.items ≡ edits.old.items ++ lan_edits in_place (C.tables old.now).net (D.tables new.now).net name.now) }
{
    match new.lan(name) {
        Some(lan) => add_settings(in_place, old, name, &lan, edits),
        None => Ok(()),
    }
}

fn add_settings<C: Saved>(
    in_place: bool,
    old: &C,
    name: &Name,
    lan: &Lan,
    edits: &mut Vec<Edit>,
) -> Result<(), AllocError>
    ensures { OnOk result (edits.new.items ≡ edits.old.items ++ lan_settings in_place (C.tables old.now).net name.now (lan_row lan.now)) }
{
    let stays = has_lan(old, name);
    let before = lan_before(old, name, lan);
    add_changes(in_place, stays, name, &before, lan, edits)
}

fn add_changes(
    in_place: bool,
    stays: bool,
    name: &Name,
    before: &Lan,
    lan: &Lan,
    edits: &mut Vec<Edit>,
) -> Result<(), AllocError>
    ensures { OnOk result (edits.new.items ≡ edits.old.items ++ joined (lan_set in_place stays name.now (lan_row before.now) (lan_row lan.now))) }
{
    push_when(!stays, &Edit::AddLan { lan: *name }, edits)?;
    add_state_here(in_place, name, before, lan, edits)?;
    add_speed(name, before, lan, edits)
}

fn add_speed(name: &Name, before: &Lan, lan: &Lan, edits: &mut Vec<Edit>) -> Result<(), AllocError>
    ensures { OnOk result (edits.new.items ≡ edits.old.items ++ when (not (lan.now.speed == before.now.speed)) (SetLan name.now (SpeedOf lan.now.speed))) }
{
    let edit = Edit::SetLan {
        lan: *name,
        change: LanChange::Speed(lan.speed),
    };
    let is_other = lan.speed.value() != before.speed.value();
    push_when(is_other, &edit, edits)
}

/// Adds the edits of which LANs are up, by name.
pub(crate) fn add_states<C: Saved, D: Saved>(
    alloc: Global,
    old: &C,
    new: &D,
    edits: &mut Vec<Edit>,
) -> Result<(), AllocError>
    ensures { OnOk result (edits.new.items ≡ edits.old.items ++ flat_map (state_edits false (C.tables old.now).net (D.tables new.now).net) (fin.keys (D.tables new.now).net.lans)) }
{
    let names = new.lan_names(alloc)?;
    for name in names.as_slice() {
        add_state(old, new, name, edits)?;
    }
    Ok(())
}

fn add_state<C: Saved, D: Saved>(
    old: &C,
    new: &D,
    name: &Name,
    edits: &mut Vec<Edit>,
) -> Result<(), AllocError>
    ensures { OnOk result (edits.new.items ≡ edits.old.items ++ state_edits false (C.tables old.now).net (D.tables new.now).net name.now) }
{
    match new.lan(name) {
        Some(lan) => add_own_state(old, name, &lan, edits),
        None => Ok(()),
    }
}

fn add_own_state<C: Saved>(
    old: &C,
    name: &Name,
    lan: &Lan,
    edits: &mut Vec<Edit>,
) -> Result<(), AllocError>
    ensures { OnOk result (edits.new.items ≡ edits.old.items ++ state_settings false (C.tables old.now).net name.now (lan_row lan.now)) }
{
    let before = lan_before(old, name, lan);
    add_state_here(true, name, &before, lan, edits)
}

/// Adds whether a LAN is up, where that is to be set here.
fn add_state_here(
    here: bool,
    name: &Name,
    before: &Lan,
    lan: &Lan,
    edits: &mut Vec<Edit>,
) -> Result<(), AllocError>
    ensures { OnOk result (edits.new.items ≡ edits.old.items ++ state_here here name.now (lan_row before.now) (lan_row lan.now)) }
{
    let edit = Edit::SetLan {
        lan: *name,
        change: LanChange::State(lan.state),
    };
    let is_other = here && is_up(lan) != is_up(before);
    push_when(is_other, &edit, edits)
}

/// Whether a LAN is up.
fn is_up(lan: &Lan) -> bool
    ensures { result ≡ (lan_row lan.now).is_up }
{
    match lan.state {
        LanState::Up => true,
        LanState::Down => false,
    }
}
