use crate::forest::Forest;
use mst_lang::Edit;
use mst_net::Network;
use mst_view::View;
use std::marker::Model;

/// A network, or one as it would be with edits more, with its view and its trees, of which it is known that they
/// belong together. What is told of a network takes this one value, and its clauses speak of the network's tables and
/// of its settled outcome, both by name.
#[derive(Drop)]
pub struct Settled<'a> {
    network: &'a Network,
    // The edits, if it is of the network ahead of some. Only clauses go by them and by the network.
    ahead: &'a [Edit],
    view: &'a View,
    forest: &'a Forest,
}

impl<'a> Model for Settled<'a> {
    ghost use Rattle.std.specs.Coded.{codes};
    ghost use Rattle.mst_net.specs.tables.ByTree.{by_tree_code};
    ghost use Rattle.mst_net.specs.tables.Contents.{net_code, numbers_code};
    ghost use Rattle.mst_forest.specs.Settled.{SettledNet, settled_net, tables_with, IsSettledNet};

    ghost Value = { SettledNet };

    ghost coded = { Prim.hlevel (codes, by_tree_code, net_code, numbers_code) };

    ghost view = { λ s. settled_net (tables_with s.network.now s.ahead.now) s.view.now s.forest.now };

    ghost invariant = { λ s. IsSettledNet (settled_net (tables_with s.network.now s.ahead.now) s.view.now s.forest.now) };
}

impl<'a> Settled<'a> {
    ghost use Rattle.std.specs.Prelude.{◌≡◌};
    ghost use Rattle.mst_net.specs.tables.Contents.{tables_of};
    ghost use Rattle.mst_forest.specs.Agrees.{AreOf};
    ghost use Rattle.mst_forest.specs.Forest.{IsForest};
    ghost use Rattle.mst_forest.specs.Settled.{settled_net, tables_with, IsSettledNet};

    /// A network as it is, with its view and its trees.
    pub fn new(network: &'a Network, view: &'a View, forest: &'a Forest) -> Settled<'a>
        requires of { AreOf network.now.net network.now.numbers view.now forest.now.regions }
        requires forest { IsForest network.now.net network.now.numbers forest.now }
        ensures { result ≡ settled_net (tables_of network.now) view.now forest.now }
    {
        Settled {
            network,
            ahead: &[],
            view,
            forest,
        }
    }

    /// A network as it would be with edits made one after another, those of failures say, with its view and its trees then. Nothing is made or
    /// prepared for it.
    pub fn ahead(
        network: &'a Network,
        edits: &'a [Edit],
        view: &'a View,
        forest: &'a Forest,
    ) -> Settled<'a>
        requires of { AreOf (tables_with network.now edits.now).net (tables_with network.now edits.now).numbers view.now forest.now.regions }
        requires forest { IsForest (tables_with network.now edits.now).net (tables_with network.now edits.now).numbers forest.now }
        ensures { result ≡ settled_net (tables_with network.now edits.now) view.now forest.now }
    {
        Settled {
            network,
            ahead: edits,
            view,
            forest,
        }
    }

    /// Does nothing: its clause says that what it holds belongs together.
    pub fn known(&self)
        ensures { IsSettledNet self.now }
    {
        let _view = self.view;
    }

    /// The view.
    pub fn view(&self) -> &View
        ensures { result.now ≡ self.now.view }
    {
        self.view
    }

    /// The trees.
    pub fn forest(&self) -> &Forest
        ensures { result.now ≡ self.now.forest }
    {
        self.forest
    }
}
