ghost use Rattle.std.specs.Prelude.{◌≡◌, map, Err, IfOk, IfErr, OnErr, option_map, string_bytes};
ghost use Rattle.mst_io.specs.Devices.{seen_by};
ghost use Rattle.mst_command.specs.frame.Served.{outputs};
ghost use Rattle.mst_command.specs.Flags.{flags_in, form_of, no_flags, without_flags_behind};
ghost use Rattle.mstplan.specs.Program.{Serves, IsWhyUnserved, IsCarriedOut, IsProgram, asking_of, output_of, tracing_of};
ghost use Rattle.mstplan.specs.Serving.{IsWhyUndone, ServesTask};
ghost use Rattle.mst_command.specs.Words.{behind_name};

use crate::endings::{after_run, status_of_stop, tell, tell_stop};
use crate::invites::invite;
use crate::piped::Piped;
use crate::serving::{
    answer_questions, ask_script, check_captures, diff_scripts, run_script, tell_steps,
    trace_script, verify_script,
};
use crate::words::{asked_for, is_of_policy, path_of, question_of};
use mst_ask::{PathQuestion, PolicyQuestion, Question};
use mst_between::Between;
use mst_command::{Asked, Flags, Parted, Ran, Sources, Stop, Verb};
use mst_io::Sink;
use std::alloc::Global;
use std::io::Write;

/// How the program has ended.
#[derive(Drop)]
pub(crate) struct Ended<W: Drop> {
    /// The exit status.
    pub(crate) status: u8,
    /// Standard output. `None`: nothing was run, and it wasn't called.
    pub(crate) output: Option<Piped<W>>,
}

/// Does what the words ask for.
fn serve<'a, S: Sources, W: Write + Drop, K: Sink>(
    alloc: Global,
    sources: &S,
    flags: Flags,
    asked: Asked<'a>,
    output: W,
    errors: &mut K,
) -> Result<Ran<W>, Stop<'a>>
    ensures ran { IfOk result (λ ran. Serves (S.is_given sources.now) (S.is_file sources.now) flags asked.entry (outputs W.contents (seen_by K.told K.contents K.lent) output errors.old) (outputs W.contents (seen_by K.told K.contents K.lent) ran.writer errors.new) ran.ended ran.hints) }
    ensures stopped { IfErr result (IsWhyUnserved (S.is_unopened sources.now) flags asked.entry) }
    ensures untold { OnErr result (errors.new ≡ errors.old) }
{
    let first = asked.behind.first;
    let second = asked.behind.second;
    let third = asked.behind.third;
    match asked.verb {
        Verb::Run => run_script(alloc, sources, flags, first, output, errors),
        Verb::Check => check_captures(alloc, sources, flags, first, second, output, errors),
        Verb::Diff => {
            let plans = Between::Plans;
            diff_scripts(alloc, sources, flags, plans, first, second, output, errors)
        }
        Verb::Ask => answer_questions(alloc, sources, flags, first, second, output, errors),
        Verb::Verify => {
            let question = PolicyQuestion::Promises;
            verify_script(
                alloc, sources, flags, question, first, second, output, errors,
            )
        }
        Verb::Sweep if is_of_policy(asked) => {
            let question = PolicyQuestion::Risks;
            verify_script(
                alloc, sources, flags, question, first, second, output, errors,
            )
        }
        Verb::Edits => {
            let settings = Between::Settings;
            diff_scripts(
                alloc, sources, flags, settings, first, second, output, errors,
            )
        }
        Verb::Steps => tell_steps(alloc, sources, flags, first, second, third, output, errors),
        Verb::Explain | Verb::Sweep | Verb::Summary | Verb::Dot | Verb::Advise => {
            let question = question_of(asked);
            ask_by_words(alloc, sources, flags, question, first, output, errors)
        }
        Verb::Path => {
            let question = path_of(asked);
            trace_by_words(alloc, sources, flags, question, first, output, errors)
        }
    }
}

/// Asks the network of a script what words ask. Words that ask nothing are told with status 2.
fn ask_by_words<'a, S: Sources, W: Write + Drop, K: Sink>(
    alloc: Global,
    sources: &S,
    flags: Flags,
    asked: Option<Question>,
    script: &'a str,
    output: W,
    errors: &mut K,
) -> Result<Ran<W>, Stop<'a>>
    ensures ran { IfOk result (λ ran. ServesTask (S.is_given sources.now) (S.is_file sources.now) flags (asking_of (form_of flags) asked script.entry) (outputs W.contents (seen_by K.told K.contents K.lent) output errors.old) (outputs W.contents (seen_by K.told K.contents K.lent) ran.writer errors.new) ran.ended ran.hints) }
    ensures stopped { IfErr result (IsWhyUndone (S.is_unopened sources.now) (asking_of (form_of flags) asked script.entry)) }
    ensures untold { OnErr result (errors.new ≡ errors.old) }
{
    match asked {
        Some(question) => ask_script(alloc, sources, flags, question, script, output, errors),
        None => Err(Stop::Told(2)),
    }
}

/// Asks the network of a script for a path, which words ask for. Words that ask nothing are told with status 2.
fn trace_by_words<'a, S: Sources, W: Write + Drop, K: Sink>(
    alloc: Global,
    sources: &S,
    flags: Flags,
    asked: Option<PathQuestion>,
    script: &'a str,
    output: W,
    errors: &mut K,
) -> Result<Ran<W>, Stop<'a>>
    ensures ran { IfOk result (λ ran. ServesTask (S.is_given sources.now) (S.is_file sources.now) flags (tracing_of (form_of flags) asked script.entry) (outputs W.contents (seen_by K.told K.contents K.lent) output errors.old) (outputs W.contents (seen_by K.told K.contents K.lent) ran.writer errors.new) ran.ended ran.hints) }
    ensures stopped { IfErr result (IsWhyUndone (S.is_unopened sources.now) (tracing_of (form_of flags) asked script.entry)) }
    ensures untold { OnErr result (errors.new ≡ errors.old) }
{
    match asked {
        Some(question) => trace_script(alloc, sources, flags, question, script, output, errors),
        None => Err(Stop::Told(2)),
    }
}

/// Does what the words ask for, with the hints of its scripts, and tells in a line on standard error what stopped it, and in another
/// what stopped the hints. `Err`: the words ask for nothing that is run, and this is why.
pub(crate) fn carry_out<'a, S: Sources, W: Write + Drop, K: Sink>(
    alloc: Global,
    sources: &S,
    flags: Flags,
    asked: Result<Asked<'a>, Stop<'a>>,
    output: Piped<W>,
    errors: &mut K,
) -> Ended<W>
    ensures { IsCarriedOut (S.is_given sources.now) (S.is_file sources.now) (S.is_unopened sources.now) flags asked.entry (W.contents output.writer) (option_map (output_of W.contents) result.output) (seen_by K.told K.contents K.lent errors.old) (seen_by K.told K.contents K.lent errors.new) result.status }
{
    let served = match asked {
        Ok(asked) => serve(alloc, sources, flags, asked, output, errors),
        Err(stop) => Err(stop),
    };
    match served {
        Ok(ran) => {
            let ending = after_run(&ran);
            tell(errors, ending.told);
            tell(errors, ending.of_hints);
            Ended {
                status: ending.status,
                output: Some(ran.writer),
            }
        }
        Err(stop) => {
            tell_stop(errors, stop);
            Ended {
                status: status_of_stop(stop),
                output: None,
            }
        }
    }
}

/// All that the program does with the words that it was called with, its name first, or where it couldn't have them: it tells
/// who waits at a terminal so, and does what they ask for. What it has to tell besides goes to standard error, until that fails.
pub(crate) fn run_program<R: Print + Eprint + AllocGlobal, S: Sources, W: Write + Drop, K: Sink>(
    rt: &R,
    sources: &S,
    given: Result<Vec<String>, Stop<'static>>,
    is_terminal: bool,
    output: W,
    errors: &mut K,
) -> Ended<W>
    ensures words { IfOk given.entry (λ words. IsProgram (S.is_given sources.now) (S.is_file sources.now) (S.is_unopened sources.now) (S.is_there sources.now) (flags_in (behind_name words.items)) (without_flags_behind (map string_bytes words.items)) is_terminal
        (W.contents output) (option_map (output_of W.contents) result.output) (seen_by K.told K.contents K.lent errors.old) (seen_by K.told K.contents K.lent errors.new) result.status) }
    ensures wordless { IfErr given.entry (λ stop. IsCarriedOut (S.is_given sources.now) (S.is_file sources.now) (S.is_unopened sources.now) no_flags (Err stop)
        (W.contents output) (option_map (output_of W.contents) result.output) (seen_by K.told K.contents K.lent errors.old) (seen_by K.told K.contents K.lent errors.new) result.status) }
{
    let output = Piped::new(output);
    match given {
        Err(stop) => carry_out(
            rt.alloc(),
            sources,
            Flags::none(),
            Err(stop),
            output,
            errors,
        ),
        Ok(words) => {
            let parted = Parted::of(words);
            run_words(rt, sources, &parted, is_terminal, output, errors)
        }
    }
}

/// The same with words whose flags were taken out.
fn run_words<R: Print + Eprint + AllocGlobal, S: Sources, W: Write + Drop, K: Sink>(
    rt: &R,
    sources: &S,
    parted: &Parted,
    is_terminal: bool,
    output: Piped<W>,
    errors: &mut K,
) -> Ended<W>
    ensures { IsProgram (S.is_given sources.now) (S.is_file sources.now) (S.is_unopened sources.now) (S.is_there sources.now) parted.now.flags (map string_bytes parted.now.words.items) is_terminal
        (W.contents output.writer) (option_map (output_of W.contents) result.output) (seen_by K.told K.contents K.lent errors.old) (seen_by K.told K.contents K.lent errors.new) result.status }
{
    let flags = parted.flags;
    let words = parted.words.as_slice();
    let asked = asked_for(rt, sources, flags, words);
    invite(errors, words, &asked, is_terminal);
    carry_out(rt.alloc(), sources, flags, asked, output, errors)
}
