/// The step from a bridge to its parent in a tree: the designated bridge of the LAN of its root port.
#[derive(Clone, Copy)]
pub struct Parent {
    /// The parent's place in the list of bridges, counted from 0.
    pub place: usize,
    /// Whether the parent is of another region.
    pub is_between: bool,
}

/// How deep a bridge lies in a tree.
#[derive(Clone, Copy)]
pub struct Depths {
    /// The steps within the region to the regional root.
    pub internal: usize,
    /// The steps between regions to the root.
    pub external: usize,
}
