ghost use Rattle.std.specs.Prelude.{◌≡◌, ◌≤◌, ◌<◌, ◌∷◌, length, slice_index_or};
ghost use Rattle.std.specs.List.{Contains, count_by};
ghost use Rattle.mst_ids.specs.declared.name.PortName.{PortName};
ghost use Rattle.mst_vlan.specs.forest.Agrees.{Known};
ghost use Rattle.mst_vlan.specs.forest.InUse.{AreInUse, seen_mstis};
ghost use Rattle.mst_view.specs.View.{port_names};
ghost use Rattle.mst_vlan.specs.roles.RoleNumbers.{role_number};
ghost use Rattle.mst_sweep.specs.Between.{OfNetworks};
ghost use Rattle.mst_sweep.specs.Left.{AreLeft};
ghost use Rattle.mst_sweep.specs.Moved.{takes_part as takes, is_other_role, port_moved as port_moved_in, moved_ports as all_moved_ports};
ghost use Rattle.mst_sweep.specs.Seen.{seen_port_moved};
ghost use Rattle.mst_sweep.specs.Touched.{AreTouched};

use mst_facts::Planned;
use mst_ids::Tree;
use mst_view::PortInView;
use mst_vlan::{Role, is_had, port_role, trees_in_use};

/// Whether a role is other than Disabled.
fn takes_part(role: Role) -> bool
    ensures { result ≡ takes role }
{
    !matches!(role, Role::Disabled)
}

/// Whether there are two roles other than Disabled that aren't the same.
pub fn changes_role(old: Option<Role>, new: Option<Role>) -> bool
    ensures { result ≡ is_other_role old new }
{
    match (old, new) {
        (Some(old), Some(new)) => takes_part(old) && takes_part(new) && old != new,
        _ => false,
    }
}

/// Whether a port has another role in a tree afterwards, and neither is Disabled.
fn port_moved(
    old: &Planned,
    new: &Planned,
    tree: Tree,
    before: &PortInView,
    afterwards: &PortInView,
) -> bool
    ensures { result ≡ seen_port_moved old.now.view.now old.now.forest.now new.now.view.now new.now.forest.now tree before.now afterwards.now }
{
    let old_role = port_role(old.view, old.forest, before, tree);
    let new_role = port_role(new.view, new.forest, afterwards, tree);
    changes_role(old_role, new_role)
}

/// Whether the port at a place has another role in a tree afterwards. Failures leave all ports in their places.
fn role_moved_at(old: &Planned, new: &Planned, tree: Tree, place: usize) -> bool
    requires { place < length old.now.view.now.ports }
    ensures { OfNetworks old.now new.now (λ a before b afterwards.
        AreLeft a b → (name : PortName) → slice_index_or (port_names a) place name ≡ name → result ≡ port_moved_in a before b afterwards tree name) }
{
    let Some(afterwards) = new.view.ports().get(place) else {
        return false;
    };
    let before = &old.view.ports()[place];
    port_moved(old, new, tree, before, afterwards)
}

/// Whether the port at a place has. One that wasn't touched doesn't.
fn moved_at(old: &Planned, new: &Planned, tree: Tree, touched: &[bool], place: usize) -> bool
    requires place { place < length old.now.view.now.ports }
    requires tree { Contains (0 ∷ seen_mstis old.now.view.now) tree }
    requires as_long { length touched.now ≡ length old.now.view.now.ports }
    requires touched { AreTouched old.now.view.now old.now.forest.now new.now.view.now new.now.forest.now touched.now }
    ensures { OfNetworks old.now new.now (λ a before b afterwards.
        AreLeft a b → (name : PortName) → slice_index_or (port_names a) place name ≡ name → result ≡ port_moved_in a before b afterwards tree name) }
{
    if touched[place] {
        role_moved_at(old, new, tree, place)
    } else {
        false
    }
}

/// How many logical ports have another role in a tree afterwards.
fn moved_in(old: &Planned, new: &Planned, tree: Tree, touched: &[bool]) -> u64
    requires tree { Contains (0 ∷ seen_mstis old.now.view.now) tree }
    requires as_long { length touched.now ≡ length old.now.view.now.ports }
    requires touched { AreTouched old.now.view.now old.now.forest.now new.now.view.now new.now.forest.now touched.now }
    ensures few { result ≤ length old.now.view.now.ports }
    ensures moved { OfNetworks old.now new.now (λ a before b afterwards.
        AreLeft a b → result ≡ count_by (port_moved_in a before b afterwards tree) (port_names a)) }
{
    let mut count = 0;
    for place in 0..old.view.ports().len() {
        if moved_at(old, new, tree, touched, place) {
            count += 1;
        }
    }
    count
}

/// How many logical ports have another role in a tree afterwards: none where no bridge of the old network has it.
fn moved_in_tree(
    old: &Planned,
    new: &Planned,
    used: &[bool; 4095],
    tree: Tree,
    touched: &[bool],
) -> u64
    requires known { Known old.now.view.now old.now.forest.now.regions }
    requires used { AreInUse old.now.view.now used.now }
    requires as_long { length touched.now ≡ length old.now.view.now.ports }
    requires touched { AreTouched old.now.view.now old.now.forest.now new.now.view.now new.now.forest.now touched.now }
    ensures few { result ≤ 16384 }
    ensures moved { OfNetworks old.now new.now (λ a before b afterwards.
        AreLeft a b → result ≡ count_by (port_moved_in a before b afterwards tree) (port_names a)) }
{
    if !is_had(used, tree) {
        return 0;
    }
    // (its range is in the contract)
    let _number = tree.value();
    moved_in(old, new, tree, touched)
}

/// How many pairs of a tree and a logical port have another role after failures, neither being Disabled.
///
/// For each tree that the old network has it goes over the flags of the ports that are touched, and takes no memory.
pub(crate) fn moved_ports(old: &Planned, new: &Planned, touched: &[bool]) -> u64
    requires known { Known old.now.view.now old.now.forest.now.regions }
    requires as_long { length touched.now ≡ length old.now.view.now.ports }
    requires touched { AreTouched old.now.view.now old.now.forest.now new.now.view.now new.now.forest.now touched.now }
    ensures { OfNetworks old.now new.now (λ a before b afterwards. AreLeft a b → result ≡ all_moved_ports a before b afterwards) }
{
    let used = trees_in_use(old.view);
    let mut count = 0;
    for number in 0..4095 {
        if let Some(tree) = Tree::new(number) {
            count += moved_in_tree(old, new, &used, tree, touched);
        }
    }
    count
}
