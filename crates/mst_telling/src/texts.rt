ghost use Rattle.std.specs.Prelude.{◌≡◌, ◌++◌, ◌∷◌, [], List, OnOk};
ghost use Rattle.std.specs.List.{list_any};
ghost use Rattle.mst_rows.specs.Lines.{row_line};
ghost use Rattle.mst_rows.specs.Rows.{Row};
ghost use Rattle.mst_telling.specs.Judged.{AreTexts};
ghost use Rattle.mst_telling.specs.Texts.{is_told, same_line};

use indexmap::IndexSet;
use mst_kinds::Kind;
use mst_rows::{Rows, Value};
use std::alloc::{AllocError, Global};

/// Lines of text, to be found by hash: of the rows that are put into it.
#[derive(Drop)]
pub struct Texts {
    alloc: Global,
    lines: IndexSet<Vec<u8>>,
}

impl Rows for Texts {
    ghost use Rattle.std.specs.Prelude.{◌++◌, List};
    ghost use Rattle.mst_rows.specs.Rows.{Row};
    ghost use Rattle.mst_telling.specs.Judged.{AreTexts};

    ghost grew = { λ first now rows. (before : List Row) → AreTexts before first → AreTexts (before ++ rows) now };

    fn row(&mut self, kind: Kind, values: &[Value<'_>]) -> Result<(), AllocError> {
        let mut text = Vec::new(self.alloc);
        text.row(kind, values)?;
        self.add(text)
    }
}

impl Texts {
    /// No lines.
    pub fn new(alloc: Global) -> Texts
        ensures { AreTexts [] result }
    {
        Texts {
            alloc,
            lines: IndexSet::new(alloc),
        }
    }

    /// Adds the line of a row.
    pub(crate) fn add(&mut self, text: Vec<u8>) -> Result<(), AllocError>
        ensures { (rows : List Row) (row : Row) → AreTexts rows self.old → text.items ≡ row_line row → OnOk result (AreTexts (rows ++ row ∷ []) self.new) }
    {
        self.lines.insert(text)?;
        Ok(())
    }

    /// Whether it is one of them.
    pub(crate) fn has(&self, text: &[u8]) -> bool
        ensures { (rows : List Row) (row : Row) → AreTexts rows self.now → text.now ≡ row_line row → result ≡ is_told rows row }
    {
        self.lines.contains(text)
    }
}
