/// What is printed: texts, or their lines as JSON.
#[derive(Clone, Copy, Debug, PartialEq, Eq)]
pub enum Form {
    /// Texts, as they answer.
    Text,
    /// JSON Lines: one line for each answer, for each refusal, and for each record of captures.
    Json,
}

/// Which script is meant, as what is printed tells.
#[derive(Clone, Copy)]
pub enum Side {
    /// The only one.
    Only,
    /// Of two, the old one.
    Old,
    /// Of two, the new one.
    New,
}

/// What refusals and answers of a script are printed as.
#[derive(Clone, Copy)]
pub struct Shape {
    /// As texts or as JSON.
    pub form: Form,
    /// Of which script they are.
    pub side: Side,
}
