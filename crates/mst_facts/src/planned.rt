use mst_forest::Forest;
use mst_view::View;

/// A network's view and its settled trees.
#[derive(Clone, Copy)]
pub struct Planned<'a> {
    pub view: &'a View,
    pub forest: &'a Forest,
}
