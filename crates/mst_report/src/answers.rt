ghost use Rattle.std.specs.Prelude.{◌≡◌, ◌≢◌, false, true, Err, IfOk, IfErr};
ghost use Rattle.mst_lang.specs.declared.line.Query.TheVariants.{ShowConfiguration, Changes};
ghost use Rattle.mst_report.specs.Answers.{Answers, AnswersInLines, asks_plan as is_of_plan};
ghost use Rattle.mst_report.specs.Planned.{planned_state};
ghost use Rattle.mst_report.specs.Refusing.{HasRows, IsRefusal};

use crate::laws::has_answer;
use crate::planner::Planner;
use mst_ids::Name;
use mst_lang::Query;
use mst_net::{Contents, Refusal};

/// Whether a query is asked of a settled plan: all are but `save` and `digest`, whose rows go by the records of the network.
pub fn asks_plan(query: &Query) -> bool
    ensures { result ≡ is_of_plan query.now }
{
    !matches!(query, Query::Save | Query::Digest)
}

impl Planner {
    /// What refuses a query, be the plan settled or not: E04 where it is about a bridge that isn't there, E16 where it
    /// is about changes from a mark that isn't there. It takes no memory.
    pub fn refusal(&self, query: &Query) -> Option<Refusal>
        ensures { IsRefusal query.now (planned_state self.now) result }
    {
        self.known();
        has_answer();
        match query {
            Query::ShowConfiguration { bridge } => self.no_bridge(bridge),
            Query::Changes => self.no_mark(),
            _ => None,
        }
    }

    /// The text that answers a query, be the plan settled or not: the lines of its rows. Where the query is asked of a settled plan, it is
    /// settled first. E04 and E16 come just where [`refusal`](Planner::refusal) gives them, without memory; E99 only where none does and
    /// memory was wanted and refused. The network and the mark are as they were in any case, and so is all of the planner where the plan
    /// stands or the query isn't asked of it.
    pub fn answer(&mut self, query: &Query) -> Result<Vec<u8>, Refusal>
        ensures text { IfOk result (λ text. AnswersInLines query.now (planned_state self.old) text.items) }
        ensures refused { IfErr result (λ refusal. refusal ≢ Refusal.E99 → Answers query.now (planned_state self.old) (Err refusal)) }
        ensures memory { result ≡ Err Refusal.E99 → HasRows query.now (planned_state self.old) }
        ensures same { self.new.contents ≡ self.old.contents }
        ensures mark { self.new.mark ≡ self.old.mark }
        ensures idle { self.old.is_settled ≡ true → self.new ≡ self.old }
        ensures unasked { is_of_plan query.now ≡ false → self.new ≡ self.old }
    {
        if let Some(refusal) = self.refusal(query) {
            return Err(refusal);
        }
        if asks_plan(query) && self.settle().is_err() {
            return Err(Refusal::E99);
        }
        let mut text = Vec::new(self.alloc());
        match self.put::<Vec<u8>>(query, &mut text) {
            Ok(()) => Ok(text),
            Err(_) => Err(Refusal::E99),
        }
    }

    /// That there is no bridge of this name, if there is none.
    fn no_bridge(&self, bridge: &Name) -> Option<Refusal>
        ensures { IsRefusal (ShowConfiguration bridge.now) (planned_state self.now) result }
    {
        match self.network().bridge(bridge) {
            Some(_) => None,
            None => Some(Refusal::E04),
        }
    }

    /// That nothing is marked, if nothing is.
    fn no_mark(&self) -> Option<Refusal>
        ensures { IsRefusal Changes (planned_state self.now) result }
    {
        self.known();
        has_answer();
        match self.marked() {
            Some(_) => None,
            None => Some(Refusal::E16),
        }
    }
}
