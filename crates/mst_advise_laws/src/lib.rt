//! Laws of advice: that what is told of a root's priority is the greatest that suffices, that none of the edits can be left out, and that the line of
//! each is read as it.
#![tactic(auto)]

pub mod laws;
