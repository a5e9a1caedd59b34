ghost use Rattle.std.specs.Prelude.{◌≡◌, None, Some, codes, is_some, IfErr, IfOk, OnErr};
ghost use Rattle.mst_io.specs.Devices.{seen_by};
ghost use Rattle.mst_command.specs.frame.Hinted.{Fit};
ghost use Rattle.mst_command.specs.frame.Named.{word_of};
ghost use Rattle.mst_command.specs.frame.Served.{outputs};
ghost use Rattle.mst_altering.specs.Alter.{altering};
ghost use Rattle.mst_ask.specs.questions.Ask.{asking};
ghost use Rattle.mst_ask.specs.questions.tool.Check.{checking};
ghost use Rattle.mst_between.specs.Diff.{differing};
ghost use Rattle.mst_ask.specs.questions.tool.Run.{running};
ghost use Rattle.mst_ask.specs.tracing.Trace.{tracing};
ghost use Rattle.mst_ask.specs.verifying.Verify.{verifying};
ghost use Rattle.mst_ask.specs.Asking.{standing};
ghost use Rattle.mst_command.specs.Flags.{form_of};
ghost use Rattle.mstplan.specs.Serving.{IsWhyUnread, ServesWord, policy_if, scripts};

use crate::endings::stop_unserved;
use mst_altering::StepsWord;
use mst_ask::{
    AskWord, CheckWord, PathQuestion, PathWord, PolicyQuestion, Question, QuestionWord, RunWord,
    VerifyWord,
};
use mst_between::{Between, DiffWord};
use mst_command::{Flags, Names, Ran, Script, Scripts, Sources, Stop, serve_named};
use mst_drive::Word;
use mst_io::Sink;
use std::alloc::Global;
use std::io::Write;

/// Serves a word on the inputs of these names, with the hints of their lines, where the flags ask for them.
fn serve_word<'a, S: Sources, V: Word, W: Write + Drop, K: Sink>(
    alloc: Global,
    sources: &S,
    flags: Flags,
    word: &V,
    scripts: Scripts,
    names: Names<'a>,
    output: W,
    errors: &mut K,
) -> Result<Ran<W>, Stop<'a>>
    requires fit { Fit (V.count word.now) scripts }
    ensures ran { IfOk result (λ ran. ServesWord (S.is_given sources.now) (S.is_file sources.now) flags (V.telling word.now) (V.count word.now) scripts names.entry.first.now (word_of names.entry.second) (word_of names.entry.third) (outputs W.contents (seen_by K.told K.contents K.lent) output errors.old) (outputs W.contents (seen_by K.told K.contents K.lent) ran.writer errors.new) ran.ended ran.hints) }
    ensures stopped { IfErr result (IsWhyUnread (S.is_unopened sources.now) names.entry.first names.entry.second names.entry.third) }
    ensures untold { OnErr result (errors.new ≡ errors.old) }
{
    match serve_named(
        alloc,
        sources,
        word,
        scripts,
        flags.hints,
        names,
        output,
        errors,
    ) {
        Ok(ran) => Ok(ran),
        Err(why) => Err(stop_unserved(why)),
    }
}

/// Runs a script.
pub(crate) fn run_script<'a, S: Sources, W: Write + Drop, K: Sink>(
    alloc: Global,
    sources: &S,
    flags: Flags,
    script: &'a str,
    output: W,
    errors: &mut K,
) -> Result<Ran<W>, Stop<'a>>
    ensures ran { IfOk result (λ ran. ServesWord (S.is_given sources.now) (S.is_file sources.now) flags (running (form_of flags)) 1 (scripts Script.Run None None) script.entry.now None None (outputs W.contents (seen_by K.told K.contents K.lent) output errors.old) (outputs W.contents (seen_by K.told K.contents K.lent) ran.writer errors.new) ran.ended ran.hints) }
    ensures stopped { IfErr result (IsWhyUnread (S.is_unopened sources.now) script.entry None None) }
    ensures untold { OnErr result (errors.new ≡ errors.old) }
{
    let word = RunWord {
        alloc,
        form: flags.form(),
    };
    let scripts = Scripts {
        first: Script::Run,
        second: None,
        third: None,
    };
    let names = Names {
        first: script,
        second: None,
        third: None,
    };
    serve_word(alloc, sources, flags, &word, scripts, names, output, errors)
}

/// Compares captures with the plan of a script.
pub(crate) fn check_captures<'a, S: Sources, W: Write + Drop, K: Sink>(
    alloc: Global,
    sources: &S,
    flags: Flags,
    script: &'a str,
    captures: Option<&'a str>,
    output: W,
    errors: &mut K,
) -> Result<Ran<W>, Stop<'a>>
    ensures ran { IfOk result (λ ran. ServesWord (S.is_given sources.now) (S.is_file sources.now) flags (checking (form_of flags)) 2 (scripts Script.Run None None) script.entry.now (word_of captures.entry) None (outputs W.contents (seen_by K.told K.contents K.lent) output errors.old) (outputs W.contents (seen_by K.told K.contents K.lent) ran.writer errors.new) ran.ended ran.hints) }
    ensures stopped { IfErr result (IsWhyUnread (S.is_unopened sources.now) script.entry captures.entry None) }
    ensures untold { OnErr result (errors.new ≡ errors.old) }
{
    let word = CheckWord {
        alloc,
        form: flags.form(),
    };
    let scripts = Scripts {
        first: Script::Run,
        second: None,
        third: None,
    };
    let names = Names {
        first: script,
        second: captures,
        third: None,
    };
    serve_word(alloc, sources, flags, &word, scripts, names, output, errors)
}

/// Tells by this how the network of a script differs from that of another.
pub(crate) fn diff_scripts<'a, S: Sources, W: Write + Drop, K: Sink>(
    alloc: Global,
    sources: &S,
    flags: Flags,
    between: Between,
    old: &'a str,
    new: Option<&'a str>,
    output: W,
    errors: &mut K,
) -> Result<Ran<W>, Stop<'a>>
    ensures ran { IfOk result (λ ran. ServesWord (S.is_given sources.now) (S.is_file sources.now) flags (differing between (form_of flags)) 2 (scripts Script.Old (Some Script.New) None) old.entry.now (word_of new.entry) None (outputs W.contents (seen_by K.told K.contents K.lent) output errors.old) (outputs W.contents (seen_by K.told K.contents K.lent) ran.writer errors.new) ran.ended ran.hints) }
    ensures stopped { IfErr result (IsWhyUnread (S.is_unopened sources.now) old.entry new.entry None) }
    ensures untold { OnErr result (errors.new ≡ errors.old) }
{
    let word = DiffWord {
        alloc,
        form: flags.form(),
        between,
    };
    let scripts = Scripts {
        first: Script::Old,
        second: Some(Script::New),
        third: None,
    };
    let names = Names {
        first: old,
        second: new,
        third: None,
    };
    serve_word(alloc, sources, flags, &word, scripts, names, output, errors)
}

/// Tells whether the network of a script does what a policy promises, or what the risks of the policy do to it.
pub(crate) fn verify_script<'a, S: Sources, W: Write + Drop, K: Sink>(
    alloc: Global,
    sources: &S,
    flags: Flags,
    question: PolicyQuestion,
    script: &'a str,
    policy: Option<&'a str>,
    output: W,
    errors: &mut K,
) -> Result<Ran<W>, Stop<'a>>
    ensures ran { IfOk result (λ ran. ServesWord (S.is_given sources.now) (S.is_file sources.now) flags (verifying (form_of flags) question) 2 (scripts Script.Loaded (Some Script.Policy) None) script.entry.now (word_of policy.entry) None (outputs W.contents (seen_by K.told K.contents K.lent) output errors.old) (outputs W.contents (seen_by K.told K.contents K.lent) ran.writer errors.new) ran.ended ran.hints) }
    ensures stopped { IfErr result (IsWhyUnread (S.is_unopened sources.now) script.entry policy.entry None) }
    ensures untold { OnErr result (errors.new ≡ errors.old) }
{
    let word = VerifyWord {
        alloc,
        form: flags.form(),
        question,
    };
    let scripts = Scripts {
        first: Script::Loaded,
        second: Some(Script::Policy),
        third: None,
    };
    let names = Names {
        first: script,
        second: policy,
        third: None,
    };
    serve_word(alloc, sources, flags, &word, scripts, names, output, errors)
}

/// Tells what the steps of a change do to the network of a script, and whether it does what a policy promises then, where one is named.
pub(crate) fn tell_steps<'a, S: Sources, W: Write + Drop, K: Sink>(
    alloc: Global,
    sources: &S,
    flags: Flags,
    script: &'a str,
    change: Option<&'a str>,
    policy: Option<&'a str>,
    output: W,
    errors: &mut K,
) -> Result<Ran<W>, Stop<'a>>
    ensures ran { IfOk result (λ ran. ServesWord (S.is_given sources.now) (S.is_file sources.now) flags (altering (form_of flags) (is_some policy.entry)) 3 (scripts Script.Loaded (Some Script.Change) (policy_if policy.entry)) script.entry.now (word_of change.entry) (word_of policy.entry) (outputs W.contents (seen_by K.told K.contents K.lent) output errors.old) (outputs W.contents (seen_by K.told K.contents K.lent) ran.writer errors.new) ran.ended ran.hints) }
    ensures stopped { IfErr result (IsWhyUnread (S.is_unopened sources.now) script.entry change.entry policy.entry) }
    ensures untold { OnErr result (errors.new ≡ errors.old) }
{
    let word = StepsWord {
        alloc,
        form: flags.form(),
        is_judged: policy.is_some(),
    };
    let scripts = Scripts {
        first: Script::Loaded,
        second: Some(Script::Change),
        third: hints_of(policy),
    };
    let names = Names {
        first: script,
        second: change,
        third: policy,
    };
    serve_word(alloc, sources, flags, &word, scripts, names, output, errors)
}

/// Answers the questions of the network of a script that come by standard input, with a policy, where one is named.
pub(crate) fn answer_questions<'a, S: Sources, W: Write + Drop, K: Sink>(
    alloc: Global,
    sources: &S,
    flags: Flags,
    script: &'a str,
    policy: Option<&'a str>,
    output: W,
    errors: &mut K,
) -> Result<Ran<W>, Stop<'a>>
    ensures ran { IfOk result (λ ran. ServesWord (S.is_given sources.now) (S.is_file sources.now) flags (standing (form_of flags)) 3 (scripts Script.Loaded None (policy_if policy.entry)) script.entry.now (Some (codes "-")) (word_of policy.entry) (outputs W.contents (seen_by K.told K.contents K.lent) output errors.old) (outputs W.contents (seen_by K.told K.contents K.lent) ran.writer errors.new) ran.ended ran.hints) }
    ensures stopped { IfErr result (IsWhyUnread (S.is_unopened sources.now) script.entry None policy.entry) }
    ensures untold { OnErr result (errors.new ≡ errors.old) }
{
    let word = AskWord {
        alloc,
        form: flags.form(),
    };
    let scripts = Scripts {
        first: Script::Loaded,
        second: None,
        third: hints_of(policy),
    };
    let names = Names {
        first: script,
        second: Some("-"),
        third: policy,
    };
    serve_word(alloc, sources, flags, &word, scripts, names, output, errors)
}

/// Asks the network of a script this.
pub(crate) fn ask_script<'a, S: Sources, W: Write + Drop, K: Sink>(
    alloc: Global,
    sources: &S,
    flags: Flags,
    question: Question,
    script: &'a str,
    output: W,
    errors: &mut K,
) -> Result<Ran<W>, Stop<'a>>
    ensures ran { IfOk result (λ ran. ServesWord (S.is_given sources.now) (S.is_file sources.now) flags (asking (form_of flags) question) 1 (scripts Script.Loaded None None) script.entry.now None None (outputs W.contents (seen_by K.told K.contents K.lent) output errors.old) (outputs W.contents (seen_by K.told K.contents K.lent) ran.writer errors.new) ran.ended ran.hints) }
    ensures stopped { IfErr result (IsWhyUnread (S.is_unopened sources.now) script.entry None None) }
    ensures untold { OnErr result (errors.new ≡ errors.old) }
{
    let word = QuestionWord {
        alloc,
        form: flags.form(),
        question,
    };
    let scripts = Scripts {
        first: Script::Loaded,
        second: None,
        third: None,
    };
    let names = Names {
        first: script,
        second: None,
        third: None,
    };
    serve_word(alloc, sources, flags, &word, scripts, names, output, errors)
}

/// Asks the network of a script for this path.
pub(crate) fn trace_script<'a, S: Sources, W: Write + Drop, K: Sink>(
    alloc: Global,
    sources: &S,
    flags: Flags,
    question: PathQuestion,
    script: &'a str,
    output: W,
    errors: &mut K,
) -> Result<Ran<W>, Stop<'a>>
    ensures ran { IfOk result (λ ran. ServesWord (S.is_given sources.now) (S.is_file sources.now) flags (tracing (form_of flags) question) 1 (scripts Script.Loaded None None) script.entry.now None None (outputs W.contents (seen_by K.told K.contents K.lent) output errors.old) (outputs W.contents (seen_by K.told K.contents K.lent) ran.writer errors.new) ran.ended ran.hints) }
    ensures stopped { IfErr result (IsWhyUnread (S.is_unopened sources.now) script.entry None None) }
    ensures untold { OnErr result (errors.new ≡ errors.old) }
{
    let word = PathWord {
        alloc,
        form: flags.form(),
        question,
    };
    let scripts = Scripts {
        first: Script::Loaded,
        second: None,
        third: None,
    };
    let names = Names {
        first: script,
        second: None,
        third: None,
    };
    serve_word(alloc, sources, flags, &word, scripts, names, output, errors)
}

/// What the lines of a policy have hints of, if one is named.
fn hints_of(policy: Option<&str>) -> Option<Script>
    ensures { result ≡ policy_if policy.entry }
{
    match policy {
        Some(_) => Some(Script::Policy),
        None => None,
    }
}
