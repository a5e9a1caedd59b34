//! Whether the network of a script does what a policy promises. [`verify`] reads the script and the policy and tells each promise that isn't
//! kept, [`answered`] judges a network that stands, or tells what risks do to it, and [`VerifyWord`] is the word of the program.
#![tactic(auto)]

pub mod laws;
mod question;
mod verifies;
mod verifying;

pub use mst_inputs::read_policy;
pub use mst_verdict::laws as verdict_laws;
pub use question::PolicyQuestion;
pub use verifies::{Verification, VerifyWord, answered, verify, verify_within};
pub use verifying::{put_risks, put_verification};
