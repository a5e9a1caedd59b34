/// What is asked of a network by a policy.
#[derive(Clone, Copy, PartialEq, Eq)]
pub enum PolicyQuestion {
    /// Whether it does what the policy promises.
    Promises,
    /// What each risk of the policy does to it.
    Risks,
}
