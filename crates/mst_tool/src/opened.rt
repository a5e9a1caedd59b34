ghost use Rattle.std.specs.Prelude.{[], None, IfOk};
ghost use Rattle.mst_engine.specs.print.Shape.{IsOpen};
ghost use Rattle.mst_tool.specs.Shown.{question_row};

use mst_engine::{Form, Printer};
use mst_kinds::{Kind, Query};
use std::alloc::{AllocError, Global};

/// A printer of what answers a question without words.
pub fn open_question(alloc: Global, form: Form, question: Query) -> Result<Printer, AllocError>
    ensures { IfOk result (IsOpen form None (question_row question [])) }
{
    Printer::open(alloc, form, None, Kind::Query(question), &[])
}
