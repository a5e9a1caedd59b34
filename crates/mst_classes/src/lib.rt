//! Classes of VIDs that nothing in a network tells apart: no table of a bridge, and no set of VLANs of a port. And all VIDs, in a list or a set.
#![tactic(auto)]

mod alike;
mod all;
mod by_table;
mod classes;
mod distinct;
mod flagged_vids;
mod splitting;

pub use all::{set_of, vids};
pub use classes::{
    classes_by_tables, classes_of_both, classes_of_both_in, classes_of_vids, classes_of_vids_in,
};
pub use flagged_vids::flagged;
