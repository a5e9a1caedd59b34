use crate::asking::ask_within;
use mst_drive::Word;
use mst_io::{Outcome, RunFault, Sink, Source};
use mst_questions::Form;
use std::alloc::Global;

/// A standing planner that prints in this form: its inputs are a script, the questions, and the policy, in this order.
#[derive(Clone, Copy)]
pub struct AskWord {
    pub alloc: Global,
    pub form: Form,
}

impl Word for AskWord {
    ghost use Rattle.mst_ask.specs.Asking.{standing};

    ghost count = { λ _. 3 };

    ghost telling = { λ word. standing word.form };

    fn serve<F: Source, S: Source, T: Source, K: Sink>(
        &self,
        first: &mut F,
        second: &mut S,
        third: &mut T,
        sink: &mut K,
        turns: u64,
    ) -> Result<Outcome, RunFault> {
        ask_within(self.alloc, self.form, first, third, second, sink, turns)
    }
}
