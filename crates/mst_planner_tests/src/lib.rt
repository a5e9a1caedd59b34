//! Tests of planners and of what stands below them, of what no clause says and no line of the program: that calls which tools alone
//! make find memory, and find it again where it was refused once; and digests of others.
#![tactic(auto)]

#[cfg(test)]
mod tests;
