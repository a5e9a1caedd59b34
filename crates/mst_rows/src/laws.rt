//! Laws of rows. Their functions do nothing: a caller has their clauses.
ghost use Rattle.std.specs.Prelude.{◌≡◌, ◌<◌, ◌^◌, ℕ, ◌∷◌, [], ◌++◌, List, Option, Some, map};
ghost use Rattle.std.specs.List.{AllByRecursion};
ghost use Rattle.std.specs.Option.{ForSome};
ghost use Rattle.json.specs.Json.{document};
ghost use Rattle.mst_kinds.specs.declared.kind.Kind.TheVariants.{Refusal as OfRefusal};
ghost use Rattle.mst_kinds.specs.declared.refusal_line.RefusalLine.{RefusalLine};
ghost use Rattle.mst_rows.specs.Printed.{json_text};
ghost use Rattle.mst_rows.specs.Answers.{answer_text, record_line, refusal_line, unanswered_line};
ghost use Rattle.mst_rows.specs.Fits.{Fits, IsField};
ghost use Rattle.mst_rows.specs.Records.{answer_value, list_value, record_value, refusal_value, unanswered_value};
ghost use Rattle.mst_rows.specs.Cells.{Cell};
ghost use Rattle.mst_rows.specs.Rows.{Row, region, row_of, vector};
ghost use Rattle.mst_rows.specs.declared.value.Vector.{Vector};
ghost use Rattle.mst_rows.specs.Small.{RowIsSmall};

/// What is printed of an answer is a value's text and LF, and the text reads back as that value, where its numbers have 64 bits.
pub fn answer_reads_back()
    ensures line { (line : Option ℕ) (query : Row) (rows : List Row) → json_text (answer_value line query rows) ++ 10 ∷ [] ≡ answer_text line query rows }
    ensures value { (line : Option ℕ) (query : Row) (rows : List Row) → ForSome line (λ number. number < 2 ^ 64) → RowIsSmall query → AllByRecursion RowIsSmall rows
        → document (json_text (answer_value line query rows)) ≡ Some (answer_value line query rows) }
{}

/// The same of a record alone, of a refusal and of a question that isn't answered, each on a line of its own.
pub fn line_reads_back()
    ensures record { (row : Row) → json_text (record_value row) ++ 10 ∷ [] ≡ record_line row }
    ensures record_again { (row : Row) → RowIsSmall row → document (json_text (record_value row)) ≡ Some (record_value row) }
    ensures refusal { (line : RefusalLine) (cells : List Cell) → json_text (refusal_value (row_of (OfRefusal line) cells)) ++ 10 ∷ [] ≡ refusal_line (row_of (OfRefusal line) cells) }
    ensures refusal_again { (row : Row) → RowIsSmall row → document (json_text (refusal_value row)) ≡ Some (refusal_value row) }
    ensures unanswered { (row : Row) → json_text (unanswered_value row) ++ 10 ∷ [] ≡ unanswered_line row }
    ensures unanswered_again { (row : Row) → RowIsSmall row → document (json_text (unanswered_value row)) ≡ Some (unanswered_value row) }
{}

/// No two rows have one record, where each has the values that its kind takes: so the records of an answer tell its rows, and the lines
/// of its text, too.
pub fn records_differ()
    ensures row { (row other : Row) → Fits row → Fits other → record_value row ≡ record_value other → row ≡ other }
    ensures rows { (rows others : List Row) → AllByRecursion Fits rows → AllByRecursion Fits others
        → list_value (map record_value rows) ≡ list_value (map record_value others) → rows ≡ others }
{}

/// The fields of a vector, and those of what tells a region, have the types of their keys.
pub fn objects_fit()
    ensures vector { (root : Option (ℕ × ℕ)) (v : Vector) → AllByRecursion IsField (vector root v) }
    ensures region { (configuration : Option (List ℕ × ℕ)) (first : List ℕ) → AllByRecursion IsField (region configuration first) }
{}
