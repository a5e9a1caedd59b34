//! The trees of a network, nested: the CIST, and in each region its MSTIs. Here are the laws of their settled
//! outcome: what the parts of regions have in common, least walks, each port's role, and that the active ports
//! of a VID join what is enabled without a loop. It has no other code.
#![tactic(auto)]

pub mod laws;
