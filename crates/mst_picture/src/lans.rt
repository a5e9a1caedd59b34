ghost use Rattle.std.specs.Prelude.{◌≡◌, ◌++◌, ℕ, List, map, IfOk, OnOk};
ghost use Rattle.std.specs.List.{flat_map};
ghost use Rattle.mst_roles.specs.forest.Settled.{outcome_of};
ghost use Rattle.mst_summary.specs.slips.Kept.{kept_at};
ghost use Rattle.mst_summary.specs.Seen.{seen_on};
ghost use Rattle.mst_picture.specs.Lans.{link_line, link_text, box_line, down_line, up_line, end_line, box_text, ends_on, lan_text};
ghost use Rattle.mst_picture.specs.InView.{AreAmong, end_at, lan_of};

use crate::ends::{Drawn, End, are_open, designates, end_of, line_end, push_label};
use crate::pieces::push_pieces;
use indexmap::IndexMap;
use mst_ids::{Name, push_bytes};
use mst_roles::Settled;
use mst_summary::{kept_for, ports_by_lan};
use mst_view::{LanInView, PortInView};
use std::alloc::{AllocError, Global};

/// Appends the line from one end of a LAN to the other.
fn push_line(lan: &Name, tail: &End, head: &End, out: &mut Vec<u8>) -> Result<(), AllocError>
    ensures { OnOk result (out.new.items ≡ out.old.items ++ link_line lan.now tail.now head.now) }
{
    let pieces: [&[u8]; 7] = [
        b"  \"",
        tail.port.bridge.as_bytes(),
        b"\" -- \"",
        head.port.bridge.as_bytes(),
        b"\" [label=\"",
        lan.as_bytes(),
        b"\", taillabel=\"",
    ];
    push_pieces(&pieces, out)?;
    push_label(tail, out)?;
    push_bytes(b"\", headlabel=\"", out)?;
    push_label(head, out)?;
    push_bytes(line_end(are_open(tail, head)).as_bytes(), out)
}

/// Appends the line of a LAN of these two ends, from the designated one.
fn push_link(lan: &Name, one: &End, other: &End, out: &mut Vec<u8>) -> Result<(), AllocError>
    ensures { OnOk result (out.new.items ≡ out.old.items ++ link_text lan.now one.now other.now) }
{
    if designates(other.role) {
        push_line(lan, other, one, out)
    } else {
        push_line(lan, one, other, out)
    }
}

/// Appends the node of a LAN that is a box.
fn push_node(lan: &Name, out: &mut Vec<u8>) -> Result<(), AllocError>
    ensures { OnOk result (out.new.items ≡ out.old.items ++ box_line lan.now) }
{
    let pieces: [&[u8]; 5] = [
        b"  \"lan ",
        lan.as_bytes(),
        b"\" [shape=box, fontsize=10, height=0.3, label=\"",
        lan.as_bytes(),
        b"\"];\n",
    ];
    push_pieces(&pieces, out)
}

/// Appends the line from an end down to the box of its LAN.
fn push_down(lan: &Name, end: &End, out: &mut Vec<u8>) -> Result<(), AllocError>
    ensures { OnOk result (out.new.items ≡ out.old.items ++ down_line lan.now end.now) }
{
    let pieces: [&[u8]; 5] = [
        b"  \"",
        end.port.bridge.as_bytes(),
        b"\" -- \"lan ",
        lan.as_bytes(),
        b"\" [taillabel=\"",
    ];
    push_pieces(&pieces, out)?;
    push_label(end, out)?;
    push_bytes(line_end(end.is_open).as_bytes(), out)
}

/// Appends the line from an end up to the box of its LAN.
fn push_up(lan: &Name, end: &End, out: &mut Vec<u8>) -> Result<(), AllocError>
    ensures { OnOk result (out.new.items ≡ out.old.items ++ up_line lan.now end.now) }
{
    let pieces: [&[u8]; 5] = [
        b"  \"lan ",
        lan.as_bytes(),
        b"\" -- \"",
        end.port.bridge.as_bytes(),
        b"\" [headlabel=\"",
    ];
    push_pieces(&pieces, out)?;
    push_label(end, out)?;
    push_bytes(line_end(end.is_open).as_bytes(), out)
}

/// Appends the line between an end and the box of its LAN.
fn push_end_line(lan: &Name, end: &End, out: &mut Vec<u8>) -> Result<(), AllocError>
    ensures { OnOk result (out.new.items ≡ out.old.items ++ end_line lan.now end.now) }
{
    if designates(end.role) {
        push_down(lan, end, out)
    } else {
        push_up(lan, end, out)
    }
}

/// Appends the lines between these ends and the box of their LAN.
fn push_end_lines(lan: &Name, ends: &[End], out: &mut Vec<u8>) -> Result<(), AllocError>
    ensures { OnOk result (out.new.items ≡ out.old.items ++ flat_map (end_line lan.now) ends.now) }
{
    for end in ends {
        push_end_line(lan, end, out)?;
    }
    Ok(())
}

/// Appends the box of a LAN with a line for each of its ends.
fn push_box(lan: &Name, ends: &[End], out: &mut Vec<u8>) -> Result<(), AllocError>
    ensures { OnOk result (out.new.items ≡ out.old.items ++ box_text lan.now ends.now) }
{
    push_node(lan, out)?;
    push_end_lines(lan, ends, out)
}

/// Appends a LAN of these ends.
fn push_by_ends(lan: &Name, ends: &[End], out: &mut Vec<u8>) -> Result<(), AllocError>
    ensures { OnOk result (out.new.items ≡ out.old.items ++ lan_text lan.now ends.now) }
{
    match ends {
        [one, other] => push_link(lan, one, other, out),
        ends => push_box(lan, ends, out),
    }
}

/// The ends that these ports of the view are.
fn ends_of(
    alloc: Global,
    plan: &Settled,
    drawn: Drawn,
    ports: &[PortInView],
) -> Result<Vec<End>, AllocError>
    requires { AreAmong plan.now.view.ports ports.now }
    ensures { IfOk result (λ ends. ends.items ≡ map (end_at plan.now drawn) ports.now) }
{
    ports
        .iter()
        .map(|port| end_of(plan, drawn, port))
        .collect(alloc)
}

/// Appends a LAN of these ports.
fn push_by_ports(
    alloc: Global,
    plan: &Settled,
    drawn: Drawn,
    lan: &Name,
    ports: &[PortInView],
    out: &mut Vec<u8>,
) -> Result<(), AllocError>
    requires { ports.now ≡ seen_on plan.now.view lan.now }
    ensures { OnOk result (out.new.items ≡ out.old.items ++ lan_text lan.now (ends_on plan.now.net (outcome_of plan.now) drawn lan.now)) }
{
    plan.known();
    let ends = ends_of(alloc, plan, drawn, ports)?;
    push_by_ends(lan, ends.as_slice(), out)
}

/// Appends a LAN, by the ports that are kept for each.
fn push_lan(
    alloc: Global,
    plan: &Settled,
    drawn: &Drawn,
    kept: &IndexMap<Name, Vec<PortInView>>,
    lan: &LanInView,
    out: &mut Vec<u8>,
) -> Result<(), AllocError>
    requires { (name : List ℕ) → kept_at kept.now name ≡ seen_on plan.now.view name }
    ensures { OnOk result (out.new.items ≡ out.old.items ++ lan_of plan.now drawn.now lan.now) }
{
    push_by_ports(
        alloc,
        plan,
        *drawn,
        &lan.name,
        kept_for(kept, &lan.name),
        out,
    )
}

/// Appends these LANs, by the ports that are kept for each.
fn push_each(
    alloc: Global,
    plan: &Settled,
    drawn: &Drawn,
    kept: &IndexMap<Name, Vec<PortInView>>,
    out: &mut Vec<u8>,
) -> Result<(), AllocError>
    requires { (name : List ℕ) → kept_at kept.now name ≡ seen_on plan.now.view name }
    ensures { OnOk result (out.new.items ≡ out.old.items ++ flat_map (lan_of plan.now drawn.now) plan.now.view.lans) }
{
    for lan in plan.view().lans() {
        push_lan(alloc, plan, drawn, kept, lan, out)?;
    }
    Ok(())
}

/// Appends the logical LANs, by their names. It goes over the ports once, and once over those of each LAN.
pub(crate) fn push_lans(
    alloc: Global,
    plan: &Settled,
    drawn: Drawn,
    out: &mut Vec<u8>,
) -> Result<(), AllocError>
    ensures { OnOk result (out.new.items ≡ out.old.items ++ flat_map (lan_of plan.now drawn) plan.now.view.lans) }
{
    let kept = ports_by_lan(alloc, plan.view())?;
    push_each(alloc, plan, &drawn, &kept, out)
}
