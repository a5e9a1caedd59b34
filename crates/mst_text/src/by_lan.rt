ghost use Rattle.std.specs.Prelude.{◌≡◌, ◌++◌, ◌∷◌, [], List, ℕ, map, IfOk, OnOk, None, cond};
ghost use Rattle.indexmap.specs.IndexMap.{get};
ghost use Rattle.mst_view.specs.Aggregation.{same_name};
ghost use Rattle.mst_text.specs.KeptByLan.{kept_at};
ghost use Rattle.mst_text.specs.LagView.{lans_in, up_of as up_members, ports_in, lan_of, port_of};
ghost use Rattle.mst_text.specs.MembersByLan.{AreLanMembers};

use indexmap::IndexMap;
use mst_ids::{Name, PortName};
use mst_view::{MemberLan, MemberPort, View};
use std::alloc::{AllocError, Global};

/// By the names of logical LANs the names of the members that are up, of all members and of their ports.
pub(crate) struct LanMembers {
    pub(crate) up: IndexMap<Name, Vec<Name>>,
    pub(crate) lans: IndexMap<Name, Vec<Name>>,
    pub(crate) ports: IndexMap<Name, Vec<PortName>>,
}

// By hand, so that the checks of the functions that hold one stay short.
impl Drop for LanMembers {
    fn drop(self) {
        let LanMembers {
            up: _,
            lans: _,
            ports: _,
        } = self;
    }
}

/// The members of each logical LAN of a view. It goes over the members once for each of the three lists.
pub(crate) fn members_by_lan(alloc: Global, view: &View) -> Result<LanMembers, AllocError>
    ensures { IfOk result (AreLanMembers view.now) }
{
    let members = view.member_lans();
    let up = up_of(alloc, members)?;
    Ok(LanMembers {
        up: lans_of(alloc, up.as_slice())?,
        lans: lans_of(alloc, members)?,
        ports: ports_of(alloc, view.member_ports())?,
    })
}

/// What is kept for the logical LAN of this name.
pub(crate) fn kept_for<'a, T>(kept: &'a IndexMap<Name, Vec<T>>, lan: &Name) -> &'a [T]
    ensures { result.now ≡ kept_at kept.now lan.now }
{
    match kept.get(lan) {
        Some(own) => own.as_slice(),
        None => &[],
    }
}

/// The members that are up.
fn up_of(alloc: Global, members: &[MemberLan]) -> Result<Vec<MemberLan>, AllocError>
    ensures { IfOk result (λ v. v.items ≡ up_members members.now) }
{
    members
        .iter()
        .filter(|member| member.is_up)
        .copied()
        .collect(alloc)
}

/// The names of the LANs of each logical LAN.
fn lans_of(alloc: Global, members: &[MemberLan]) -> Result<IndexMap<Name, Vec<Name>>, AllocError>
    ensures { IfOk result (λ kept. (lan : List ℕ) → kept_at kept lan ≡ map lan_of (lans_in lan members.now)) }
{
    let mut kept = IndexMap::new(alloc);
    for member in members {
        add(alloc, member.lan, member.name, &mut kept)?;
    }
    Ok(kept)
}

/// The names of the ports of each logical LAN.
fn ports_of(
    alloc: Global,
    ports: &[MemberPort],
) -> Result<IndexMap<Name, Vec<PortName>>, AllocError>
    ensures { IfOk result (λ kept. (lan : List ℕ) → kept_at kept lan ≡ map port_of (ports_in lan ports.now)) }
{
    let mut kept = IndexMap::new(alloc);
    for port in ports {
        add(alloc, port.lan, port.name, &mut kept)?;
    }
    Ok(kept)
}

/// Adds one to what is kept for a logical LAN.
fn add<T: Copy>(
    alloc: Global,
    lan: Name,
    one: T,
    kept: &mut IndexMap<Name, Vec<T>>,
) -> Result<(), AllocError>
    ensures { OnOk result ((q : List ℕ) → kept_at kept.new q ≡ kept_at kept.old q ++ cond (same_name lan q) (one ∷ []) []) }
{
    let mut own = taken(alloc, &lan, kept);
    own.push(one)?;
    kept.insert(lan, own)?;
    Ok(())
}

/// What is kept for a logical LAN, which is taken away.
fn taken<T: Copy>(alloc: Global, lan: &Name, kept: &mut IndexMap<Name, Vec<T>>) -> Vec<T>
    ensures kept { result.items ≡ kept_at kept.old lan.now }
    ensures gone { (q : List ℕ) → get same_name kept.new q ≡ cond (same_name lan.now q) None (get same_name kept.old q) }
{
    match kept.swap_remove(lan) {
        Some(own) => own,
        None => Vec::new(alloc),
    }
}
