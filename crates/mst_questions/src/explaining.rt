ghost use Rattle.std.specs.Prelude.{◌≡◌, ◌++◌, true, not, if◌then◌else◌, List, None, Some, OnOk};
ghost use Rattle.std.specs.List.{Contains};
ghost use Rattle.mst_net.specs.tables.After.{has_bridge};
ghost use Rattle.mst_rows.specs.Rows.{Row};
ghost use Rattle.mst_questions.specs.Explaining.{Explains, has_tree as has_tree_in, has_asked, unexplained_of, code_of, text_of};

use mst_advise::explain_laws::some_explained;
use mst_advise::{port_named, put_explanation, put_explanations};
use mst_ids::{PortName, Tree};
use mst_net::Contents;
use mst_roles::Settled;
use mst_rows::Rows;
use mst_tool::Planner;
use mst_view::PortInView;
use std::alloc::{AllocError, Global};
use thiserror::Error;

/// Why a port isn't explained: the first of these that applies. It is displayed as its [`text`](Unexplained::text).
#[derive(Clone, Copy, Debug, Error, PartialEq, Eq)]
#[error("{}", self.text())]
pub enum Unexplained {
    /// There is no bridge of that name.
    NoBridge,
    /// The bridge has no logical port of that number: no port, one that is in no LAN, or one that counts as one with a
    /// lower port, which stands for both.
    NoPort,
    /// The bridge doesn't have the tree that is asked.
    NoTree,
}

impl Unexplained {
    /// Its number, as it is printed: those of refusals (E04, E05) and of the fault of a tree (E03).
    pub fn code(self) -> &'static str
        ensures { result.now ≡ code_of self }
    {
        match self {
            Unexplained::NoBridge => "E04",
            Unexplained::NoPort => "E05",
            Unexplained::NoTree => "E03",
        }
    }

    /// What is printed after the number.
    pub fn text(self) -> &'static str
        ensures { result.now ≡ text_of self }
    {
        match self {
            Unexplained::NoBridge => "no such bridge",
            Unexplained::NoPort => "no such port",
            Unexplained::NoTree => "bad VID or tree",
        }
    }
}

/// Puts why a logical port has its role, which nothing leaves [unexplained](unexplained_in): the rows for the tree
/// that is asked, or where none is for each that its bridge has, rising (802.1Q-2022, 13.9 to 13.12). The network alone
/// settles it. `AllocError`: memory was wanted and refused; some of the rows may have been put.
pub fn put_explanation_of<R: Rows>(
    planner: &Planner,
    port: &PortName,
    tree: Option<Tree>,
    out: &mut R,
) -> Result<(), AllocError>
    requires settled { planner.now.is_settled ≡ true }
    requires explained { unexplained_of planner.now.contents.net port.now tree ≡ None }
    ensures { (first : R) (before : List Row) → R.grew first out.old before
        → OnOk result ((rows : List Row) × Explains planner.now.contents.net port.now tree rows × R.grew first out.new (before ++ rows)) }
{
    let plan = planner.settled();
    put_explained(planner.alloc(), &plan, port, &tree, out)
}

/// Why a port isn't explained, if it isn't: there is no bridge of that name, no logical port of that name, or the bridge
/// doesn't have the tree, by the first of these that applies. It takes no memory.
pub fn unexplained_in(planner: &Planner, port: &PortName, tree: Option<Tree>) -> Option<Unexplained>
    requires { planner.now.is_settled ≡ true }
    ensures { result ≡ unexplained_of planner.now.contents.net port.now tree }
{
    let plan = planner.settled();
    match planner.network().bridge(&port.bridge) {
        None => Some(Unexplained::NoBridge),
        Some(_) => no_port(&plan, port, &tree),
    }
}

/// Why a port isn't explained, if it isn't, where its bridge is there.
fn no_port(plan: &Settled, name: &PortName, tree: &Option<Tree>) -> Option<Unexplained>
    requires { has_bridge name.now.bridge plan.now.net ≡ true }
    ensures { result ≡ unexplained_of plan.now.net name.now tree.now }
{
    plan.known();
    match port_named(plan, name) {
        None => Some(Unexplained::NoPort),
        Some(port) => no_tree(plan, port, tree),
    }
}

/// That the bridge of a logical port doesn't have the tree that is asked, if it doesn't.
fn no_tree(plan: &Settled, port: &PortInView, tree: &Option<Tree>) -> Option<Unexplained>
    requires { Contains plan.now.view.ports port.now }
    ensures { result ≡ if not (has_asked plan.now.net port.now.name.bridge tree.now) then Some Unexplained.NoTree else None }
{
    match tree {
        Some(tree) if !has_tree(plan, port, *tree) => Some(Unexplained::NoTree),
        _ => None,
    }
}

/// Whether the bridge of a logical port has a tree.
fn has_tree(plan: &Settled, port: &PortInView, tree: Tree) -> bool
    requires { Contains plan.now.view.ports port.now }
    ensures { result ≡ has_tree_in plan.now.net port.now.name.bridge tree }
{
    plan.known();
    mst_roles::has_tree(plan.view(), port.bridge, tree)
}

/// Puts the rows of a port that is explained.
fn put_explained<R: Rows>(
    alloc: Global,
    plan: &Settled,
    name: &PortName,
    tree: &Option<Tree>,
    out: &mut R,
) -> Result<(), AllocError>
    requires { unexplained_of plan.now.net name.now tree.now ≡ None }
    ensures { (first : R) (before : List Row) → R.grew first out.old before
        → OnOk result ((rows : List Row) × Explains plan.now.net name.now tree.now rows × R.grew first out.new (before ++ rows)) }
{
    plan.known();
    match port_named(plan, name) {
        None => Ok(()),
        Some(port) => put_in_trees(alloc, plan, port, tree, out),
    }
}

/// Puts the rows of a logical port, in the tree that is asked or in each of its bridge.
fn put_in_trees<R: Rows>(
    alloc: Global,
    plan: &Settled,
    port: &PortInView,
    tree: &Option<Tree>,
    out: &mut R,
) -> Result<(), AllocError>
    requires there { Contains plan.now.view.ports port.now }
    requires tree { has_asked plan.now.net port.now.name.bridge tree.now ≡ true }
    ensures { (first : R) (before : List Row) → R.grew first out.old before
        → OnOk result ((rows : List Row) × Explains plan.now.net port.now.name tree.now rows × R.grew first out.new (before ++ rows)) }
{
    match tree {
        None => put_in_each_tree(alloc, plan, port, out),
        Some(tree) => put_in_tree(alloc, plan, port, *tree, out),
    }
}

/// Puts the rows of a logical port in each tree that its bridge has.
fn put_in_each_tree<R: Rows>(
    alloc: Global,
    plan: &Settled,
    port: &PortInView,
    out: &mut R,
) -> Result<(), AllocError>
    requires { Contains plan.now.view.ports port.now }
    ensures { (first : R) (before : List Row) → R.grew first out.old before
        → OnOk result ((rows : List Row) × Explains plan.now.net port.now.name None rows × R.grew first out.new (before ++ rows)) }
{
    some_explained();
    plan.known();
    put_explanations(alloc, plan, port, out)
}

/// Puts the rows of a logical port in a tree that its bridge has.
fn put_in_tree<R: Rows>(
    alloc: Global,
    plan: &Settled,
    port: &PortInView,
    tree: Tree,
    out: &mut R,
) -> Result<(), AllocError>
    requires there { Contains plan.now.view.ports port.now }
    requires tree { has_tree_in plan.now.net port.now.name.bridge tree ≡ true }
    ensures { (first : R) (before : List Row) → R.grew first out.old before
        → OnOk result ((rows : List Row) × Explains plan.now.net port.now.name (Some tree) rows × R.grew first out.new (before ++ rows)) }
{
    some_explained();
    plan.known();
    put_explanation(alloc, plan, tree, port, out)
}
