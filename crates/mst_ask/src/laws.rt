//! Laws of standing planners. Their functions do nothing: a caller has their clauses.
ghost use Rattle.std.specs.Prelude.{◌≡◌, ◌++◌, ℕ, List};
ghost use Rattle.mst_lang.specs.Lines.{lines_of};
ghost use Rattle.mst_lang.specs.declared.line.Version.{Version};
ghost use Rattle.mst_questions.specs.tool.engine.Script.{LoadsAll, version_of};
ghost use Rattle.mst_questions.specs.tool.engine.Steps.{Step, left_by};
ghost use Rattle.mst_questions.specs.tool.engine.Steps as steps;
ghost use Rattle.mst_questions.specs.tool.engine.report.State.{empty_state};
ghost use Rattle.mst_policy.specs.declared.policy.PolicyLine.{PolicyLine as LineOf};
ghost use Rattle.mst_questions.specs.tool.engine.print.Shape.{of_script};
ghost use Rattle.mst_questions.specs.tool.engine.print.declared.form.Form.{Form};
ghost use Rattle.mst_ask.specs.Asking.{loaded_by};
ghost use Rattle.mst_ask.specs.Standing.{AsksBy, IsStanding, Standing, Turn, edits_of, lacking_of, left_after};

use mst_lang::laws::edits_in_range;
use mst_net::laws::networks;
use mst_questions::advise_laws::one_advice;
use mst_questions::engine_laws::states;
use mst_questions::laws::{one_explanation, one_picture, one_summary, one_vlan_picture};
use mst_questions::report_laws::{entries_of_network, has_answer, one_answer};
use mst_questions::sweeping_laws::{pair_parts, sweep_parts};
use mst_tracing::laws::one_trace;
use mst_verifying::verdict_laws::{one_of_risks, one_verification};

/// Any lines can be asked, the first of any number, whatever network stands.
pub fn has_turns()
    ensures { (form : Form) (version : Version) (number : ℕ) (now : Standing) (lines : List (List ℕ)) → IsStanding now → (turns : List Turn) × AsksBy form version number now lines turns }
{
    networks();
    edits_in_range();
    has_answer();
    entries_of_network();
}

/// Lines are answered in one way for each set of those that met want of memory: what is printed, and what stands then, are functions
/// of them, of what stood and of that set.
pub fn one_asking()
    ensures { (form : Form) (version : Version) (number : ℕ) (now : Standing) (lines : List (List ℕ)) (a b : List Turn) → IsStanding now → AsksBy form version number now lines a → AsksBy form version number now lines b → lacking_of a ≡ lacking_of b → a ≡ b }
{
    networks();
    edits_in_range();
    one_answer();
    entries_of_network();
    one_explanation();
    sweep_parts();
    pair_parts();
    one_summary();
    one_picture();
    one_vlan_picture();
    one_advice();
    one_verification();
    one_of_risks();
    one_trace();
}

/// What stands after a script was loaded, and after questions.
pub fn standings()
    ensures loaded { (form : Form) (lines : List (List ℕ)) (loads : List Step) (policy : List LineOf) → LoadsAll (of_script form) lines loads → IsStanding (loaded_by loads policy) }
    ensures asked { (form : Form) (version : Version) (number : ℕ) (now : Standing) (lines : List (List ℕ)) (turns : List Turn) → IsStanding now → AsksBy form version number now lines turns → IsStanding (left_after now turns) }
{
    states();
    networks();
    edits_in_range();
    entries_of_network();
}

/// The network that stands is that of a script alone: of the lines of the one that was loaded, and behind them those of the edits that
/// stand. So each word of the program is answered as it is of that script, where nothing meets want of memory.
pub fn as_script()
    ensures { (form : Form) (script : List ℕ) (loads : List Step) (policy : List LineOf) (asked : List (List ℕ)) (turns : List Turn) (whole : List Step) → LoadsAll (of_script form) (lines_of script) loads → steps.lacks_of loads ≡ 0 → AsksBy form (version_of (lines_of script)) 1 (loaded_by loads policy) asked turns
        → LoadsAll (of_script form) (lines_of script ++ edits_of (left_after (loaded_by loads policy) turns)) whole → steps.lacks_of whole ≡ 0 → (left_by empty_state whole).net ≡ (left_after (loaded_by loads policy) turns).state.net }
{}
