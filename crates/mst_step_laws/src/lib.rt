//! Laws of the steps of a change: that there is one list of what they do, which networks stand between them, that a diff tells each VID that
//! they cut or join, and that what is told of a policy behind them says which of its lines are kept.
#![tactic(auto)]

pub mod laws;
