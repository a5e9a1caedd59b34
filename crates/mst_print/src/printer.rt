ghost use Rattle.std.specs.Prelude.{◌≡◌, ℕ, Option, Some, List, IfOk};
ghost use Rattle.mst_rows.specs.Cells.{Cell};
ghost use Rattle.mst_rows.specs.Rows.{AreCells, Row, row_of};
ghost use Rattle.mst_print.specs.declared.form.Form.{Form};
ghost use Rattle.mst_print.specs.declared.printer.Printer.{Printer};
ghost use Rattle.mst_print.specs.Shape.{Grew, IsOpen, query_row, shown};

use crate::form::Form;
use mst_kinds::{Kind, Query as Asked};
use mst_lang::Query;
use mst_rows::{Json, Rows, Value};
use std::alloc::{AllocError, Global};

/// What prints an answer, row by row: its lines, or an object of JSON.
#[derive(Drop)]
pub enum Printer {
    /// The lines so far.
    Lines(Vec<u8>),
    /// The object so far.
    Records(Json),
}

impl Rows for Printer {
    ghost grew = { Grew };

    fn row(&mut self, kind: Kind, values: &[Value<'_>]) -> Result<(), AllocError> {
        match self {
            Printer::Lines(out) => out.row(kind, values),
            Printer::Records(json) => json.row(kind, values),
        }
    }
}

impl Printer {
    /// Begins an answer: `line` is the number of the line that asks, where one does, and the query stands with its words. In a text none
    /// of them is printed. `AllocError`: memory was wanted and refused.
    pub fn open(
        alloc: Global,
        form: Form,
        line: Option<u64>,
        query: Kind,
        words: &[Value<'_>],
    ) -> Result<Printer, AllocError>
        ensures { (cells : List Cell) → AreCells words.now cells → IfOk result (IsOpen form line (row_of query cells)) }
    {
        let out = Vec::new(alloc);
        match form {
            Form::Text => Ok(Printer::Lines(out)),
            Form::Json => {
                let json = Json::open(line, query, words, out)?;
                Ok(Printer::Records(json))
            }
        }
    }

    /// Begins the answer to a query of a script, which the line of this number asks. `AllocError`: memory was wanted and refused.
    pub fn open_query(
        alloc: Global,
        form: Form,
        number: u64,
        query: &Query,
    ) -> Result<Printer, AllocError>
        ensures { IfOk result (IsOpen form (Some number) (query_row query.now)) }
    {
        let line = Some(number);
        match query {
            Query::ShowPlan => Printer::open(alloc, form, line, Kind::Query(Asked::ShowPlan), &[]),
            Query::ShowLag => Printer::open(alloc, form, line, Kind::Query(Asked::ShowLag), &[]),
            Query::ShowRegions => {
                Printer::open(alloc, form, line, Kind::Query(Asked::ShowRegions), &[])
            }
            Query::ShowNotes => {
                Printer::open(alloc, form, line, Kind::Query(Asked::ShowNotes), &[])
            }
            Query::ShowTree { tree } => {
                let words = [Value::Number(u64::from(tree.value()))];
                Printer::open(alloc, form, line, Kind::Query(Asked::ShowTree), &words)
            }
            Query::ShowVlan { vid } => {
                let words = [Value::Number(u64::from(vid.value()))];
                Printer::open(alloc, form, line, Kind::Query(Asked::ShowVlan), &words)
            }
            Query::ShowConfiguration { bridge } => {
                let words = [Value::Name(bridge)];
                Printer::open(alloc, form, line, Kind::Query(Asked::ShowMstconfid), &words)
            }
            Query::Changes => Printer::open(alloc, form, line, Kind::Query(Asked::Changes), &[]),
            Query::Save => Printer::open(alloc, form, line, Kind::Query(Asked::Save), &[]),
            Query::Digest => Printer::open(alloc, form, line, Kind::Query(Asked::Digest), &[]),
        }
    }

    /// Ends the answer: what is printed of it. `AllocError`: memory was wanted and refused.
    pub fn close(self) -> Result<Vec<u8>, AllocError>
        ensures { (form : Form) (line : Option ℕ) (query : Row) (first : Printer) (rows : List Row) → IsOpen form line query first → Grew first self rows
            → IfOk result (λ out. out.items ≡ shown form line query rows) }
    {
        match self {
            Printer::Lines(out) => Ok(out),
            Printer::Records(json) => {
                let out = json.close()?;
                Ok(out)
            }
        }
    }
}
