ghost use Rattle.std.specs.Prelude.{◌≡◌, ◌++◌, ◌∷◌, [], List, OnOk};
ghost use Rattle.mst_tables.specs.Tables.{Net, Numbers};
ghost use Rattle.mst_view.specs.Viewed.{IsView};
ghost use Rattle.mst_rows.specs.Rows.{Row};
ghost use Rattle.mst_text.specs.LagText.{lag_row, lags_rows};
ghost use Rattle.mst_text.specs.LagView.{class_row, class_rows, classes_rows};
ghost use Rattle.mst_text.specs.MembersByLan.{AreLanMembers};

use crate::by_lan::{LanMembers, kept_for, members_by_lan};
use mst_ids::{Name, PortName};
use mst_kinds::{Kind, RegionLine};
use mst_rows::{Rows, Value, put};
use mst_view::{LagId, LanInView, View, lag_text};
use std::alloc::{AllocError, Global};

/// Puts the rows of the classes of links, by the view of a network: for each class its identifier, its speed, its
/// members that are up, all its members and their ports, in byte order of names and by port number. The network alone
/// settles them.
///
/// It goes over the logical LANs once, and over their members once for each of the three lists. `AllocError`: memory
/// was wanted and refused; some of the rows may have been put.
pub fn put_lags<R: Rows>(alloc: Global, view: &View, out: &mut R) -> Result<(), AllocError>
    ensures { (net : Net) (numbers : Numbers) → IsView net numbers view.now
        → (first : R) (rows : List Row) → R.grew first out.old rows → OnOk result (R.grew first out.new (rows ++ lags_rows net)) }
{
    let members = members_by_lan(alloc, view)?;
    put_classes(alloc, view, &members, out)
}

/// Puts the rows of all classes of links.
fn put_classes<R: Rows>(
    alloc: Global,
    view: &View,
    members: &LanMembers,
    out: &mut R,
) -> Result<(), AllocError>
    requires { AreLanMembers view.now members.now }
    ensures { (first : R) (rows : List Row) → R.grew first out.old rows → OnOk result (R.grew first out.new (rows ++ classes_rows view.now)) }
{
    for lan in view.lans() {
        put_class(alloc, view, members, lan, out)?;
    }
    Ok(())
}

/// Puts the row of a logical LAN, where its members are aggregatable.
fn put_class<R: Rows>(
    alloc: Global,
    view: &View,
    members: &LanMembers,
    lan: &LanInView,
    out: &mut R,
) -> Result<(), AllocError>
    requires { AreLanMembers view.now members.now }
    ensures { (first : R) (rows : List Row) → R.grew first out.old rows → OnOk result (R.grew first out.new (rows ++ class_rows view.now lan.now)) }
{
    match lan.lag {
        None => Ok(()),
        Some(id) => put_class_row(alloc, view, members, lan, &id, out),
    }
}

/// Puts the row of a class of links: its identifier, its speed, its members and their ports.
fn put_class_row<R: Rows>(
    alloc: Global,
    view: &View,
    members: &LanMembers,
    lan: &LanInView,
    id: &LagId,
    out: &mut R,
) -> Result<(), AllocError>
    requires { AreLanMembers view.now members.now }
    ensures { (first : R) (rows : List Row) → R.grew first out.old rows → OnOk result (R.grew first out.new (rows ++ class_row view.now lan.now id.now ∷ [])) }
{
    let id = lag_text(alloc, id)?;
    let up = kept_for(&members.up, &lan.name);
    let lans = kept_for(&members.lans, &lan.name);
    let ports = kept_for(&members.ports, &lan.name);
    put_members(lan, id.as_slice(), up, lans, ports, out)
}

/// Puts the row of a class of links by the text of its identifier and these members.
fn put_members<'a, R: Rows>(
    lan: &'a LanInView,
    id: &'a [u8],
    up: &'a [Name],
    lans: &'a [Name],
    ports: &'a [PortName],
    out: &mut R,
) -> Result<(), AllocError>
    ensures { (first : R) (rows : List Row) → R.grew first out.old rows → OnOk result (R.grew first out.new (rows ++ lag_row lan.now.name id.now lan.now.speed up.now lans.now ports.now ∷ [])) }
{
    let values = [
        Value::Name(&lan.name),
        Value::Word(id),
        Value::Number(lan.speed),
        Value::Names(up),
        Value::Names(lans),
        Value::Ports(ports),
    ];
    put::<R>(Kind::Region(RegionLine::Lag), &values, out)
}
