//! What is printed of rows: their lines, or JSON.
//!
//! A [`Printer`] takes the rows of an answer, and gives its lines or its object of JSON. [`put_coded`] and [`put_refusal`] write that
//! a line of a script is refused, [`put_fault`] that a captured message isn't compared, and [`put_unanswered`] that a question has no
//! answer: these want no memory.
#![tactic(auto)]

mod form;
mod printer;
mod refused;
mod unanswered;

pub use form::{Form, Shape, Side};
pub use printer::Printer;
pub use refused::{put_coded, put_fault, put_refusal};
pub use unanswered::put_unanswered;
