//! Laws of the edits between networks: none of them is refused, they make one network of the other, and the lines of
//! their rows, read again as a script, are these edits.
#![tactic(auto)]

pub mod laws;
