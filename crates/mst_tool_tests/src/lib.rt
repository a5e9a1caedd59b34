//! Tests of the calls that read scripts, of what no clause says and no line of the program: that those which tools alone make find
//! memory, when devices are called, and how errors are displayed. What is printed, and what devices that fail and damaged texts do, is
//! shown by the built program.
#![tactic(auto)]

#[cfg(test)]
mod tests;
