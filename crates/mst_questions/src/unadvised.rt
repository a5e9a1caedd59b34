ghost use Rattle.std.specs.Prelude.{◌≡◌, true};
ghost use Rattle.mst_questions.specs.Unadvised.{unadvised_of, unrooted_of};

use crate::explaining::{Unexplained, unexplained_in};
use mst_advise::Goal;
use mst_ids::{Name, Tree};
use mst_net::Contents;
use mst_tool::Planner;

/// Why there is no advice, if there is none: for a port as where it is [explained](unexplained_in), for a root that there is no
/// bridge of that name, or that it doesn't have the tree. It takes no memory.
pub fn unadvised_in(planner: &Planner, goal: &Goal) -> Option<Unexplained>
    requires { planner.now.is_settled ≡ true }
    ensures { result ≡ unadvised_of planner.now.contents.net goal.now }
{
    match goal {
        Goal::Root { tree, bridge } => unrooted(planner, *tree, bridge),
        Goal::Forward { tree, port } => unexplained_in(planner, port, Some(*tree)),
    }
}

/// Why a bridge can't be the root of a tree: there is none of that name, or it doesn't have the tree.
fn unrooted(planner: &Planner, tree: Tree, name: &Name) -> Option<Unexplained>
    requires { planner.now.is_settled ≡ true }
    ensures { result ≡ unrooted_of planner.now.contents.net tree name.now }
{
    let view = &planner.plan().view;
    match planner.network().bridge(name) {
        None => Some(Unexplained::NoBridge),
        Some(bridge) if !mst_roles::has_tree(view, bridge.number, tree) => {
            Some(Unexplained::NoTree)
        }
        Some(_) => None,
    }
}
