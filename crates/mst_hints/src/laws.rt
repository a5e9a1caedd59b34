//! Laws of hints. Their functions do nothing: a caller has their clauses.
ghost use Rattle.std.specs.Prelude.{◌≡◌, ℕ, Bool, List, true, Err, is_some};
ghost use Rattle.std.specs.Result.{is_err};
ghost use Rattle.mst_lang.specs.declared.line.Version.{Version};
ghost use Rattle.mst_lang.specs.Reading.{reading_as};
ghost use Rattle.mst_lang.specs.declared.line.Line.{Line};
ghost use Rattle.mst_net.specs.tables.Tables.{Net};
ghost use Rattle.mst_net.specs.tables.declared.refusal.Refusal.{Refusal};
ghost use Rattle.mst_hints.specs.Hints.{hint_of};
ghost use Rattle.mst_hints.specs.Puts.{Put};
ghost use Rattle.mst_hints.specs.Scripts.{Adding, after_line, refused_text};
ghost use Rattle.mst_hints.specs.Standing.{Making};

/// There is a hint exactly where the line isn't read.
pub fn hinted()
    ensures { (version : Version) (line : List ℕ) → is_some (hint_of version line) ≡ is_err (reading_as version line) }
{}

/// There is a hint of each line that is read and refused (E04 to E16), whatever network it is and whatever came before.
pub fn refused()
    ensures { (adds : List Adding) (makings : List Making) (puts : List Put) (net : Net) (line : Line) (marked : Bool) (refusal : Refusal) → after_line marked line net ≡ Err refusal → is_some (refused_text adds makings puts net line refusal) ≡ true }
{}
