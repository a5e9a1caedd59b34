ghost use Rattle.std.specs.Prelude.{◌≡◌, ◌&&◌, ◌++◌, false, OnOk};
ghost use Rattle.std.specs.List.{Contains};
ghost use Rattle.std.specs.Option.{option_map_or};
ghost use Rattle.mst_roles.specs.Roles.{forwards as forwards_by};
ghost use Rattle.mst_summary.specs.vlan.Seen.{seen_member};
ghost use Rattle.mst_picture.specs.Lans.{letter as letter_of, role_letter as role_letter_of, label, designates as designates_of, line_end as line_end_by};
ghost use Rattle.mst_picture.specs.InView.{end_at, tree_end_at, vlan_end_at};

use mst_ids::{PortName, Tree, Vid, push_bytes};
use mst_roles::{Role, Settled, role_of, vid_tree};
use mst_summary::{is_member, role};
use mst_view::PortInView;
use std::alloc::AllocError;

/// What a picture shows of a network: one of its trees, or a VLAN.
#[derive(Clone, Copy)]
pub(crate) enum Drawn {
    Tree(Tree),
    Vlan(Vid),
}

/// An end at a logical LAN: a logical port, its role, if its bridge has the tree, and whether it is open. With a tree it is
/// where it forwards, and with a VLAN where it is active for the VID and a member.
#[derive(Clone, Copy)]
pub(crate) struct End {
    pub(crate) port: PortName,
    pub(crate) role: Option<Role>,
    pub(crate) is_open: bool,
}

/// Whether a port of this role, if it has one, forwards.
fn forwards(role: Option<Role>) -> bool
    ensures { result ≡ option_map_or forwards_by role false }
{
    match role {
        None => false,
        Some(role) => role.forwards(),
    }
}

/// The end that a port of the view is with a tree.
fn end_in_tree(plan: &Settled, tree: Tree, port: &PortInView) -> End
    requires { Contains plan.now.view.ports port.now }
    ensures { result ≡ tree_end_at plan.now tree port.now }
{
    let role = role(plan, tree, port);
    End {
        port: port.name,
        role,
        is_open: forwards(role),
    }
}

/// Whether a port that has this role in its bridge's tree of a VID is active for the VID and a member of the VLAN.
fn carries(plan: &Settled, vid: Vid, role: Option<Role>, port: &PortInView) -> bool
    ensures { result ≡ (option_map_or forwards_by role false && seen_member plan.now.view vid port.now) }
{
    forwards(role) && is_member(plan.view(), port, vid)
}

/// The end that a port of the view is with a VLAN: its role is that in its own bridge's tree of the VID.
fn end_in_vlan(plan: &Settled, vid: Vid, port: &PortInView) -> End
    requires { Contains plan.now.view.ports port.now }
    ensures { result ≡ vlan_end_at plan.now vid port.now }
{
    plan.known();
    let role = role_of(plan, port, vid_tree(plan.view(), port.bridge, vid));
    End {
        port: port.name,
        role,
        is_open: carries(plan, vid, role, port),
    }
}

/// The end that a port of the view is.
pub(crate) fn end_of(plan: &Settled, drawn: Drawn, port: &PortInView) -> End
    requires { Contains plan.now.view.ports port.now }
    ensures { result ≡ end_at plan.now drawn port.now }
{
    match drawn {
        Drawn::Tree(tree) => end_in_tree(plan, tree, port),
        Drawn::Vlan(vid) => end_in_vlan(plan, vid, port),
    }
}

/// The letter of a role, behind a space.
fn letter(role: Role) -> &'static str
    ensures { result.now ≡ letter_of role }
{
    match role {
        Role::Root => " R",
        Role::Designated => " D",
        Role::Alternate => " A",
        Role::Backup => " B",
        Role::Master => " M",
        Role::Disabled => " X",
    }
}

/// The letter of an end's role, or nothing where it has none.
fn role_letter(end: &End) -> &'static str
    ensures { result.now ≡ role_letter_of end.now }
{
    match end.role {
        None => "",
        Some(role) => letter(role),
    }
}

/// Appends the label of an end: the number of its port, and the letter of its role, if it has one.
pub(crate) fn push_label(end: &End, out: &mut Vec<u8>) -> Result<(), AllocError>
    ensures { OnOk result (out.new.items ≡ out.old.items ++ label end.now) }
{
    end.port.number.push_text(out)?;
    push_bytes(role_letter(end).as_bytes(), out)
}

/// Whether both ends are open.
pub(crate) fn are_open(one: &End, other: &End) -> bool
    ensures { result ≡ (one.now.is_open && other.now.is_open) }
{
    one.is_open && other.is_open
}

/// Whether an end of this role is the designated one.
pub(crate) fn designates(role: Option<Role>) -> bool
    ensures { result ≡ designates_of role }
{
    matches!(role, Some(Role::Designated))
}

/// The end of a line's text, which is dashed unless its ends are open.
pub(crate) fn line_end(is_open: bool) -> &'static str
    ensures { result.now ≡ line_end_by is_open }
{
    if is_open {
        "\"];\n"
    } else {
        "\", style=dashed];\n"
    }
}
