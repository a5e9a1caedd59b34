ghost use Rattle.std.specs.Prelude.{◌≡◌, ◌++◌, ◌∷◌, [], ◌||◌, ℕ, List, OnOk, IfOk, not, map, find, fold};
ghost use Rattle.std.specs.List.{flat_map, list_all};
ghost use Rattle.mst_rows.specs.Rows.{Row};
ghost use Rattle.mst_tables.specs.Tables.{Net, Numbers};
ghost use Rattle.mst_view.specs.Aggregation.{same_name};
ghost use Rattle.mst_view.specs.Viewed.{IsView, named_port};
ghost use Rattle.mst_slips.specs.Kept.{AreKept, kept_speeds, kept_between, kept_rows};
ghost use Rattle.mst_slips.specs.Lans.{just_two as the_two, is_beside as is_beside_of, two_alone as alone, with_lesser, is_far_slower as are_far_apart, lan_row, rows_where_slower, lan_rows};

use crate::kept::{Kept, kept_for};
use mst_ids::Name;
use mst_kinds::{Kind, SummaryLine};
use mst_rows::{Rows, Value, put};
use mst_view::{LanInView, PortInView, View};
use std::alloc::{AllocError, Global};

/// The bridges of these ports, one for each.
fn bridges_of(alloc: Global, ports: &[PortInView]) -> Result<Vec<Name>, AllocError>
    ensures { IfOk result (λ bridges. bridges.items ≡ map (λ p. p.name.bridge) ports.now) }
{
    ports.iter().map(|port| port.name.bridge).collect(alloc)
}

/// The first of these that isn't this one.
fn other(first: &Name, others: &[Name]) -> Option<Name>
    ensures { result ≡ find (λ b. not (same_name b first.now)) others.now }
{
    others.iter().copied().find(|other| *other != *first)
}

/// Whether each of these is one of two.
fn are_alone(a: &Name, b: &Name, others: &[Name]) -> bool
    ensures { result ≡ list_all (λ c. same_name c a.now || same_name c b.now) others.now }
{
    others.iter().all(|other| *other == *a || *other == *b)
}

/// This bridge and one other, where the others are no more than these two.
fn two_alone(first: &Name, others: &[Name]) -> Option<(Name, Name)>
    ensures { result ≡ alone first.now others.now (find (λ b. not (same_name b first.now)) others.now) }
{
    match other(first, others) {
        None => None,
        Some(second) => {
            if are_alone(first, &second, others) {
                Some((*first, second))
            } else {
                None
            }
        }
    }
}

/// The two bridges that these are, if they are just two.
fn just_two(bridges: &[Name]) -> Option<(Name, Name)>
    ensures { result ≡ the_two bridges.now }
{
    match bridges {
        [] => None,
        [first, others @ ..] => two_alone(first, others),
    }
}

/// The lesser of a speed and what was the least before it.
fn lesser(least: Option<u64>, speed: u64) -> Option<u64>
    ensures { result ≡ with_lesser least speed }
{
    match least {
        None => Some(speed),
        Some(least) => Some(least.min(speed)),
    }
}

/// Whether a port is on another logical LAN, which is up.
fn is_beside(lan: &Name, port: &PortInView) -> bool
    ensures { result ≡ is_beside_of lan.now (named_port port.now) }
{
    port.lan != *lan && port.speed > 0
}

/// The least speed of what was the least and of the other logical LANs that are up, of these ports.
fn least_beside(least: Option<u64>, lan: &Name, ports: &[PortInView]) -> Option<u64>
    ensures { result ≡ fold with_lesser least (kept_speeds lan.now ports.now) }
{
    ports
        .iter()
        .filter(|port| is_beside(lan, port))
        .map(|port| port.speed)
        .fold(least, lesser)
}

/// Whether one speed is at least 100 times another.
fn is_far_slower(speed: u64, next: u64) -> bool
    ensures { result ≡ are_far_apart speed next }
{
    speed <= next / 100
}

/// Puts the row of a logical LAN, with the least speed beside it.
fn put_row<R: Rows>(lan: &LanInView, next: u64, out: &mut R) -> Result<(), AllocError>
    ensures { (first : R) (rows : List Row) → R.grew first out.old rows → OnOk result (R.grew first out.new (rows ++ lan_row lan.now.name lan.now.speed next ∷ [])) }
{
    let values = [
        Value::Name(&lan.name),
        Value::Number(lan.speed),
        Value::Number(next),
    ];
    put::<R>(Kind::Summary(SummaryLine::LookLan), &values, out)
}

/// Puts the row of a logical LAN, if it is far slower than the least speed beside it.
fn put_where_slower<R: Rows>(
    lan: &LanInView,
    next: Option<u64>,
    out: &mut R,
) -> Result<(), AllocError>
    ensures { (first : R) (rows : List Row) → R.grew first out.old rows → OnOk result (R.grew first out.new (rows ++ rows_where_slower lan.now.name lan.now.speed next)) }
{
    match next {
        None => Ok(()),
        Some(next) => {
            if is_far_slower(lan.speed, next) {
                put_row(lan, next, out)
            } else {
                Ok(())
            }
        }
    }
}

/// Puts the row of a logical LAN that has ports of these two bridges alone, if it is far slower than the others of both.
fn put_between<R: Rows>(
    kept: &Kept,
    lan: &LanInView,
    two: Option<(Name, Name)>,
    out: &mut R,
) -> Result<(), AllocError>
    ensures { (first : R) (rows : List Row) → R.grew first out.old rows → OnOk result (R.grew first out.new (rows ++ kept_between kept.now lan.now two)) }
{
    match two {
        None => Ok(()),
        Some((a, b)) => {
            let least = least_beside(None, &lan.name, kept_for(&kept.by_bridge, &a));
            let least = least_beside(least, &lan.name, kept_for(&kept.by_bridge, &b));
            put_where_slower(lan, least, out)
        }
    }
}

/// Puts the row of a logical LAN, if it is up, between two bridges, and far slower than their others.
fn put_lan<R: Rows>(
    alloc: Global,
    kept: &Kept,
    lan: &LanInView,
    out: &mut R,
) -> Result<(), AllocError>
    ensures { (first : R) (rows : List Row) → R.grew first out.old rows → OnOk result (R.grew first out.new (rows ++ kept_rows kept.now lan.now)) }
{
    if !lan.is_up {
        return Ok(());
    }
    let bridges = bridges_of(alloc, kept_for(&kept.by_lan, &lan.name))?;
    put_between(kept, lan, just_two(bridges.as_slice()), out)
}

/// Puts the rows of those of these logical LANs.
fn put_lans<R: Rows>(
    alloc: Global,
    kept: &Kept,
    lans: &[LanInView],
    out: &mut R,
) -> Result<(), AllocError>
    ensures { (first : R) (rows : List Row) → R.grew first out.old rows → OnOk result (R.grew first out.new (rows ++ flat_map (kept_rows kept.now) lans.now)) }
{
    for lan in lans {
        put_lan(alloc, kept, lan, out)?;
    }
    Ok(())
}

/// Puts the rows of the logical LANs that are up, between two bridges, and far slower than the others of both, by name.
///
/// It goes for each logical LAN over the ports of its bridges.
pub(crate) fn put_slow_lans<R: Rows>(
    alloc: Global,
    view: &View,
    kept: &Kept,
    out: &mut R,
) -> Result<(), AllocError>
    requires { AreKept view.now.ports kept.now }
    ensures { (net : Net) (numbers : Numbers) → IsView net numbers view.now
        → (first : R) (rows : List Row) → R.grew first out.old rows → OnOk result (R.grew first out.new (rows ++ lan_rows net)) }
{
    put_lans(alloc, kept, view.lans(), out)
}
