//! Laws of the edits between networks, and of saved networks. Their functions do nothing: a caller has their clauses.
ghost use Rattle.std.specs.Prelude.{◌≡◌, ◌≤◌, Ok, Bool, length};
ghost use Rattle.std.specs.List.{AllByRecursion};
ghost use Rattle.mst_lang.specs.Lines.{lines_of};
ghost use Rattle.mst_lang.specs.Ranges.{InRange};
ghost use Rattle.mst_lang.specs.Reading.{reading_as};
ghost use Rattle.mst_lang.specs.declared.line.Edit.{Edit};
ghost use Rattle.mst_lang.specs.declared.line.Line.TheVariants.{Edit as edit};
ghost use Rattle.mst_lang.specs.declared.line.Version.TheVariants.{V2};
ghost use Rattle.mst_net.specs.tables.Tables.{Net, IsNetwork, empty_net};
ghost use Rattle.mst_edits.specs.EditLine.{line_of, IsSayable};
ghost use Rattle.mst_edits.specs.Edits.{edits, edits_with, saved_edits};
ghost use Rattle.mst_edits.specs.Making.{made, Accepted};
ghost use Rattle.mst_edits.specs.SaveText.{save_text, Restores, IsShort};
ghost use Rattle.mst_edit_laws.specs.EditText.{edits_text, ReadAs, ChangesInto};

use mst_edits::laws::table_made;

/// The line of an edit is read as that edit in version 2, where it has at most 4,096 bytes. No line maps no VID.
pub fn written()
    ensures { (e : Edit) → InRange e → IsSayable e → length (line_of e) ≤ 4096 → reading_as V2 (line_of e) ≡ Ok (edit e) }
{}

/// None of the edits from one network to another is refused, and they make that one of it, be each state in its place or
/// states last.
fn changed_with()
    ensures accepted { (in_place : Bool) (a b : Net) → IsNetwork a → IsNetwork b → Accepted (edits_with in_place a b) a }
    ensures made { (in_place : Bool) (a b : Net) → IsNetwork a → IsNetwork b → made (edits_with in_place a b) a ≡ b }
{
    table_made();
}

/// None of the edits from one network to another is refused, and they make that one of it.
pub fn changed()
    ensures accepted { (a b : Net) → IsNetwork a → IsNetwork b → Accepted (edits a b) a }
    ensures made { (a b : Net) → IsNetwork a → IsNetwork b → made (edits a b) a ≡ b }
{
    changed_with();
}

/// The lines of the rows of the edits from one network to another, read again as a script, are of version 2: behind
/// the first, which says so, each is read as its edit, in their order, and from the one network on none of them is
/// refused, and they leave the other. So it is where each line of a port's VLANs has at most 4,096 bytes.
pub fn read_again()
    ensures read { (a b : Net) → IsNetwork a → IsNetwork b → AllByRecursion IsShort (edits a b) → ReadAs (lines_of (edits_text a b)) (edits a b) }
    ensures changed { (a b : Net) → IsNetwork a → IsNetwork b → AllByRecursion IsShort (edits a b) → ChangesInto (lines_of (edits_text a b)) a b }
{
    changed();
}

/// None of the edits that are saved of a network is refused, and from the empty network they make it.
pub fn made_again()
    ensures accepted { (net : Net) → IsNetwork net → Accepted (saved_edits net) empty_net }
    ensures made { (net : Net) → IsNetwork net → made (saved_edits net) empty_net ≡ net }
{
    changed_with();
}

/// The text of a saved network is a script of version 2, of whose lines none is refused, and which leaves the
/// network: of each network whose lines of ports' VLANs have at most 4,096 bytes.
pub fn restored()
    ensures { (net : Net) → IsNetwork net → AllByRecursion IsShort (saved_edits net) → Restores (lines_of (save_text net)) net }
{
    made_again();
}
