//! Laws of networks. Their functions do nothing: a caller has their clauses.
ghost use Rattle.std.specs.Prelude.{◌≡◌, Ok};
ghost use Rattle.mst_lang.specs.declared.line.Edit.{Edit};
ghost use Rattle.mst_lang.specs.Ranges.{InRange};
ghost use Rattle.mst_tables.specs.Tables.{Net, IsNetwork, empty_net};
ghost use Rattle.mst_tables.specs.After.{after, effect};
ghost use Rattle.mst_net.specs.Standing.{Stands};

/// The empty tables are a network, and an edit whose values are in their ranges makes a network of a
/// network.
pub fn networks()
    ensures empty { IsNetwork empty_net }
    ensures after { (edit : Edit) (net new : Net) → InRange edit → IsNetwork net → after edit net ≡ Ok new → IsNetwork new }
{}

/// An edit that sets what stands already, be it set or the default, leaves the network equal.
pub fn same_setting()
    ensures { (edit : Edit) (net : Net) → IsNetwork net → Stands edit net → effect edit net ≡ net }
{}
