use mst_ids::Name;

/// What is told of the paths of a VID: a number of hops, and bridges.
#[derive(PartialEq, Eq, Hash, Drop)]
pub(crate) struct Stretch {
    pub(crate) hops: usize,
    pub(crate) bridges: Vec<Name>,
}
