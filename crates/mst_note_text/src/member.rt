ghost use Rattle.std.specs.Prelude.{◌≡◌, IfOk};
ghost use Rattle.mst_note_text.specs.SeenTree.{cist_member as cist_member_of, msti_member as msti_member_of, seen_member, members_in};

use mst_ids::{BridgeId, BridgeNo, Name, Tree};
use mst_roles::Forest;
use mst_vector::{CistVector, MstiVector};
use mst_view::{BridgeInView, View};
use std::alloc::{AllocError, Global};

/// A bridge that is in a tree, with what is noted of its root priority vector there.
#[derive(Clone, Copy)]
pub(crate) struct Member {
    pub(crate) name: Name,
    pub(crate) number: BridgeNo,
    /// The regional root.
    pub(crate) regional: BridgeId,
    /// The internal root path cost.
    pub(crate) internal: u64,
    /// In the CIST the path to the root.
    pub(crate) root_path: Option<RootPath>,
}

/// The path between regions to the root of the CIST.
#[derive(Clone, Copy)]
pub(crate) struct RootPath {
    pub(crate) root: BridgeId,
    /// The external root path cost.
    pub(crate) external: u64,
}

/// The bridges that are in a tree, in byte order of names.
pub(crate) fn members_of(
    alloc: Global,
    view: &View,
    forest: &Forest,
    tree: Tree,
) -> Result<Vec<Member>, AllocError>
    ensures { IfOk result (λ members. members.items ≡ members_in view.now forest.now tree) }
{
    view.bridges()
        .iter()
        .filter_map(|bridge| member_of(forest, tree, bridge))
        .collect(alloc)
}

/// A bridge, where it is in a tree.
fn member_of(forest: &Forest, tree: Tree, bridge: &BridgeInView) -> Option<Member>
    ensures { result ≡ seen_member forest.now tree bridge.now }
{
    let number = bridge.bridge.number;
    if tree.value() == 0 {
        Some(cist_member(bridge, &forest.cist(number)?))
    } else {
        Some(msti_member(bridge, &forest.msti(tree, number)?))
    }
}

/// A bridge that has this vector in the CIST.
fn cist_member(bridge: &BridgeInView, vector: &CistVector) -> Member
    ensures { result ≡ cist_member_of bridge.now vector.now }
{
    Member {
        name: bridge.name,
        number: bridge.bridge.number,
        regional: vector.regional,
        internal: vector.internal,
        root_path: Some(RootPath {
            root: vector.root,
            external: vector.external,
        }),
    }
}

/// A bridge that has this vector in an MSTI.
fn msti_member(bridge: &BridgeInView, vector: &MstiVector) -> Member
    ensures { result ≡ msti_member_of bridge.now vector.now }
{
    Member {
        name: bridge.name,
        number: bridge.bridge.number,
        regional: vector.regional,
        internal: vector.internal,
        root_path: None,
    }
}
