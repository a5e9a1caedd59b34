//! Laws of scripts and of captures. Their functions do nothing: a caller has their clauses.
ghost use Rattle.std.specs.Prelude.{◌≡◌, ℕ, List, [], Option, Result, Ok, false};
ghost use Rattle.std.specs.List.{AllByRecursion};
ghost use Rattle.mst_lang.specs.declared.line.Line.TheVariants.{Query as query};
ghost use Rattle.mst_lang.specs.declared.line.Query.{Query};
ghost use Rattle.mst_lang.specs.declared.line.Version.{Version};
ghost use Rattle.mst_net.specs.tables.Tables.{Net, IsNetwork};
ghost use Rattle.mst_net.specs.tables.declared.refusal.Refusal.{Refusal};
ghost use Rattle.mst_report.specs.State.{State, IsState, empty_state};
ghost use Rattle.mst_lang.specs.Lines.{lines_of};
ghost use Rattle.mst_edits.specs.Edits.{saved_edits};
ghost use Rattle.mst_edits.specs.SaveText.{save_text, IsShort};
ghost use Rattle.mst_engine.specs.Captures.{Compares};
ghost use Rattle.mst_rows.specs.Rows.{Row};
ghost use Rattle.mst_engine.specs.Script.{answered, Serves, ServesRead, Runs, Loads, LoadsAll, unmarked};
ghost use Rattle.mst_print.specs.Shape.{of_script};
ghost use Rattle.mst_engine.specs.Steps.{Step, RunsBy, left_by, texts_of, refusals_of, lacks_of, lacking_of};
ghost use Rattle.mst_engine.specs.Engine.{RunsOn};
ghost use Rattle.mst_engine.specs.declared.engine.Input.{Input};
ghost use Rattle.mst_print.specs.declared.form.Form.{Form};
ghost use Rattle.mst_print.specs.declared.form.Shape.{Shape};

use mst_compare::laws::{has_list, one_list};
use mst_edit_laws::laws::restored;
use mst_lang::laws::edits_in_range;
use mst_net::laws::networks;
use mst_report::laws::{entries_of_network, has_answer, one_answer};

/// Every script has a run in which no line meets want of memory, in each form, and so have any lines of each version, the
/// first of any number, from any network on.
pub fn has_run()
    ensures script { (form : Form) (script : List ℕ) → (steps : List Step) × Runs form (lines_of script) steps × (lacks_of steps ≡ 0) }
    ensures lines { (form : Form) (version : Version) (number : ℕ) (now : State) (lines : List (List ℕ)) → IsState now → (steps : List Step) × RunsBy (Serves form version) number now lines steps × (lacks_of steps ≡ 0) }
{
    networks();
    edits_in_range();
    has_answer();
    entries_of_network();
}

/// A script has one run in each form for each set of lines that met want of memory: what it prints, the lines with E99
/// among it, is a function of the script and of that set, and where none met it of the script alone.
pub fn one_run()
    ensures same { (form : Form) (lines : List (List ℕ)) (a b : List Step) → Runs form lines a → Runs form lines b → lacking_of a ≡ lacking_of b → a ≡ b }
    ensures full { (form : Form) (script : List ℕ) (a b : List Step) → Runs form (lines_of script) a → Runs form (lines_of script) b → lacks_of a ≡ 0 → lacks_of b ≡ 0 → a ≡ b }
{
    networks();
    edits_in_range();
    one_answer();
    entries_of_network();
}

/// The network of every script can be loaded without want of memory, and so can be the lines of any script of each
/// version, the first of any number, from any network on. Refusals may have any shape.
pub fn has_load()
    ensures script { (shape : Shape) (script : List ℕ) → (steps : List Step) × LoadsAll shape (lines_of script) steps × (lacks_of steps ≡ 0) }
    ensures lines { (shape : Shape) (version : Version) (number : ℕ) (now : State) (lines : List (List ℕ)) → IsState now → (steps : List Step) × RunsBy (Loads shape version) number now lines steps × (lacks_of steps ≡ 0) }
{
    networks();
    edits_in_range();
    has_answer();
    entries_of_network();
}

/// A script loads in one way for each set of lines that met want of memory: what it prints then, and the network that it
/// leaves, are functions of the script and of that set, and where none met it of the script alone.
pub fn one_load()
    ensures same { (shape : Shape) (lines : List (List ℕ)) (a b : List Step) → LoadsAll shape lines a → LoadsAll shape lines b → lacking_of a ≡ lacking_of b → a ≡ b }
    ensures full { (shape : Shape) (script : List ℕ) (a b : List Step) → LoadsAll shape (lines_of script) a → LoadsAll shape (lines_of script) b → lacks_of a ≡ 0 → lacks_of b ≡ 0 → a ≡ b }
{
    networks();
    edits_in_range();
    one_answer();
    entries_of_network();
}

/// Where no line meets want of memory, a script loads the very network that it runs to, and no mark: its queries and
/// marks change no network.
pub fn loads_network()
    ensures { (form : Form) (shape : Shape) (lines : List (List ℕ)) (a b : List Step) → Runs form lines a → LoadsAll shape lines b → lacks_of a ≡ 0 → lacks_of b ≡ 0 → left_by empty_state b ≡ unmarked (left_by empty_state a) }
{}

/// The state alone settles an answer: after any two scripts that leave equal networks, and equal entries of a mark, a
/// query that meets no want of memory has one answer, the same rows or the same refusal, whatever edits made the
/// networks, and of whatever versions the scripts are.
pub fn network_alone()
    ensures { (form : Form) (x y : List (List ℕ)) (a b : List Step) → Runs form x a → Runs form y b → left_by empty_state a ≡ left_by empty_state b
        → (q : Query) (m n : ℕ) (s t : Step) → ServesRead (of_script form) m (left_by empty_state a) (Ok (query q)) s → ServesRead (of_script form) n (left_by empty_state b) (Ok (query q)) t
        → s.lacking ≡ false → t.lacking ≡ false
        → (answer : Result (List Row) Refusal) × (s ≡ answered (of_script form) false m (left_by empty_state a) q answer) × (t ≡ answered (of_script form) false n (left_by empty_state b) q answer) }
{
    networks();
    edits_in_range();
    one_answer();
    entries_of_network();
}

/// What `save` prints of a network is a script that prints nothing, has no line that is refused, and leaves that very
/// network, and no mark: of each network whose lines of ports' VLANs have at most 4,096 bytes.
pub fn saved_again()
    ensures { (form : Form) (net : Net) → IsNetwork net → AllByRecursion IsShort (saved_edits net)
        → (steps : List Step) × Runs form (lines_of (save_text net)) steps × (texts_of steps ≡ []) × (refusals_of steps ≡ 0) × (lacks_of steps ≡ 0) × (left_by empty_state steps ≡ record empty_state { net = net }) }
{
    restored();
}

/// Any captured messages, the first of any number, can be compared with the plan of any network without want of memory, in each form.
pub fn has_comparison()
    ensures { (form : Form) (number : ℕ) (now : State) (lines : List (List ℕ)) → IsState now → (steps : List Step) × Compares form number now lines steps × (lacks_of steps ≡ 0) }
{
    has_list();
}

/// Captured messages have one comparison with the plan of a network, in each form, for each set of those that met want of memory: what is
/// printed is a function of them, of the network and of that set, and where none met it of the first two.
pub fn one_comparison()
    ensures same { (form : Form) (number : ℕ) (now : State) (lines : List (List ℕ)) (a b : List Step) → IsState now → Compares form number now lines a → Compares form number now lines b → lacking_of a ≡ lacking_of b → a ≡ b }
    ensures full { (form : Form) (number : ℕ) (now : State) (lines : List (List ℕ)) (a b : List Step) → IsState now → Compares form number now lines a → Compares form number now lines b → lacks_of a ≡ 0 → lacks_of b ≡ 0 → a ≡ b }
{
    one_list();
}

/// The lines of each input have steps that meet no want of memory.
pub fn has_steps()
    ensures { (input : Input) (known : Option Version) (number : ℕ) (now : State) (lines : List (List ℕ)) → IsState now → (steps : List Step) × RunsOn input known number now lines steps × (lacks_of steps ≡ 0) }
{
    has_run();
    has_load();
    has_comparison();
}

/// A script leaves a network and, if there is a mark, one of a network, be it run or loaded.
pub fn states()
    ensures script { (form : Form) (lines : List (List ℕ)) (steps : List Step) → Runs form lines steps → IsState (left_by empty_state steps) }
    ensures network { (shape : Shape) (lines : List (List ℕ)) (steps : List Step) → LoadsAll shape lines steps → IsState (left_by empty_state steps) }
{
    networks();
    edits_in_range();
    entries_of_network();
}
