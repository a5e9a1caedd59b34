ghost use Rattle.std.specs.Prelude.{◌≡◌, ◌≤◌, ◌<◌, ◌^◌, ◌∷◌, [], false, length, Err, IfOk, IfErr, OnErr};
ghost use Rattle.mst_drive.specs.Turned.{Turned, turning};
ghost use Rattle.mst_drive.specs.Words.{Ended, HasTold, Unwritten, Wrote, WroteFront, inputs};
ghost use Rattle.mst_io.specs.Devices.{HearsWhere, seen_by, stopped_by};
ghost use Rattle.mst_questions.specs.tool.engine.print.Shape.{of_script};
ghost use Rattle.mst_questions.specs.tool.Load.{LoadsEnded};
ghost use Rattle.mst_ask.specs.Asking.{AnswersEnded, Begins, LoadsFront, standing};
ghost use Rattle.mst_ask.specs.Opening.{Leaves, MayOpen, Opens, OpensNot, OpensWhole};

use crate::laws::{has_turns, one_asking, standings};
use crate::questions::{Asking, serve_questions};
use crate::reply::{Verdict, put_done};
use crate::script::{Script, read_script};
use crate::standing::{Standing, load};
use mst_io::{Outcome, RunFault, Sink, Source};
use mst_questions::Form;
use mst_questions::engine_laws::{has_load, one_load, states};
use mst_verifying::read_policy;
use std::alloc::Global;

/// Loads the network of a script, and then answers the questions that the third source gives, each of which is a line, some of them by
/// the policy that the second one gives. Where nothing meets want of memory, what is written is a function of the three.
///
/// The script is read to its end first, and its network loaded as [`mst_questions::ask_within`] does: its queries and its marks do nothing,
/// and each line that is refused says so. Then comes `done STATUS`: 1 where a line was refused, and else 0. Then the policy is read to
/// its end, of which nothing is told yet. Then each line of the third source is a question, and is answered before more is read:
///
/// * A line of a script, of the version of the first one: an edit stays, a query is answered, a mark is made. Where it is refused,
///   `line N CODE TEXT` says so, by its number among the questions.
/// * `explain B P`, `explain B P TREE`, `summary`, `sweep`, `sweep K/N`, `sweep pairs`, `sweep pairs K/N`, `dot TREE`: what
///   [`mst_questions::Question`] asks, of the network as it stands.
/// * `verify`: what [`mst_verifying::verify`] tells, of the network as it stands by the policy; `sweep risks`: what each risk of the policy does to it.
/// * `path VID A B`, `path VID A B always`: what [`mst_tracing::PathQuestion`] asks, of the network as it stands.
/// * `undo`, `undo N`: the last edit that was made since the script was loaded is taken back, or the last N are, the newest first, with
///   a line `undone LINE` for each. The mark stays. Where there are fewer, it is refused as a bad argument.
///
/// Behind each answer stands `done STATUS`: 0, or 1 where it was refused or tells of something that differs, or 3 for want of memory:
/// it is refused then, and nothing changes. What refuses a question comes first: an edit and `undo` meet want of memory only where they
/// would be made, and a word of the program only where the tables of the network don't tell what is in its way; `verify` meets it
/// whatever the policy's lines are. A blank line and a comment have no answer. In [`Form::Json`] each `done` and each `undone` is a
/// record on a line of its own.
///
/// The sink holds nothing back as it begins: it was flushed since it was last called, or wasn't called yet. The sources are called up to
/// so many times each, as turns are given, and only where it holds nothing back: while the script is
/// read nothing was written, while the policy is what the script's lines print and the end of that, and behind it the answers too of all
/// questions that were complete.
///
/// [`RunFault::Read`] is answered just where the sink works and a source has failed, or all turns of it were used and none found the
/// end; [`RunFault::Write`] just where the sink has failed, or took nothing of a part that had a byte; [`RunFault::Memory`] where there
/// was none to keep the script or the policy, or where one of the script's lines was refused for want of it. Each source is called only
/// where the one before it was read to its end, and the third one not where [`RunFault::Memory`] is answered.
pub fn ask_within<S: Source, P: Source, Q: Source, K: Sink>(
    alloc: Global,
    form: Form,
    script: &mut S,
    policy: &mut P,
    questions: &mut Q,
    sink: &mut K,
    turns: u64,
) -> Result<Outcome, RunFault>
    requires script { (S.told script.old).failed ≡ false }
    requires policy { (P.told policy.old).failed ≡ false }
    requires questions { (Q.told questions.old).failed ≡ false }
    requires sink { (K.told sink.old).failed ≡ false }
    requires sent { (K.told sink.old).unsent ≡ false }
    requires turns { turns ≤ 2 ^ 32 }
    ensures ended { Ended (standing form) (inputs (S.remaining script.old) (Q.remaining questions.old) (P.remaining policy.old)) (inputs (S.remaining script.new) (Q.remaining questions.new) (P.remaining policy.new)) (K.contents sink.old) (K.contents sink.new) result }
    ensures unread { result ≡ Err RunFault.Memory → (Q.told questions.new ≡ Q.told questions.old) × (Q.remaining questions.new ≡ Q.remaining questions.old) }
    ensures turned { Turned turns (turning (seen_by S.told S.remaining S.lent) script.old script.new ∷ turning (seen_by P.told P.remaining P.lent) policy.old policy.new ∷ turning (seen_by Q.told Q.remaining Q.lent) questions.old questions.new ∷ [])
        (seen_by K.told K.contents K.lent sink.old) (seen_by K.told K.contents K.lent sink.new) (stopped_by result) }
    ensures heard_script { HearsWhere S.hears (HasTold Unwritten S.remaining (seen_by K.told K.contents K.lent sink.old)) script.old script.new }
    ensures heard_policy { HearsWhere P.hears (HasTold (λ left. Begins form (S.remaining script.old)) P.remaining (seen_by K.told K.contents K.lent sink.old)) policy.old policy.new }
    ensures heard_questions { HearsWhere Q.hears (HasTold (AnswersEnded form (S.remaining script.old) (P.remaining policy.old) (Q.remaining questions.old)) Q.remaining (seen_by K.told K.contents K.lent sink.old)) questions.old questions.new }
{
    has_turns();
    one_asking();
    standings();
    let opened = match open(alloc, form, script, sink, turns) {
        Err(fault) => return Err(fault),
        Ok(opened) => opened,
    };
    match read_policy(alloc, policy, sink, turns) {
        Err(fault) => Err(fault),
        Ok(lines) => {
            let mut asking = opened.with_policy(lines);
            match serve_questions(&mut asking, questions, sink, turns) {
                Err(fault) => Err(fault),
                Ok(()) => Ok(asking.counted()),
            }
        }
    }
}

/// Reads a script and loads it, and writes what its lines print, and the end of that.
fn open<S: Source, K: Sink>(
    alloc: Global,
    form: Form,
    source: &mut S,
    sink: &mut K,
    turns: u64,
) -> Result<Asking, RunFault>
    requires source { (S.told source.old).failed ≡ false }
    requires sink { (K.told sink.old).failed ≡ false }
    requires sent { (K.told sink.old).unsent ≡ false }
    requires turns { turns ≤ 2 ^ 32 }
    ensures ok { IfOk result (λ asking. Wrote (K.contents sink.old) (K.contents sink.new) (Opens form (S.remaining source.old) asking)) }
    ensures fault { OnErr result (WroteFront (K.contents sink.old) (K.contents sink.new) (MayOpen form (S.remaining source.old))) }
    ensures read { result ≡ Err RunFault.Read → Wrote (K.contents sink.old) (K.contents sink.new) (LoadsEnded (of_script form) (S.remaining source.old) (S.remaining source.new)) }
    ensures memory { result ≡ Err RunFault.Memory → Wrote (K.contents sink.old) (K.contents sink.new) (LoadsFront form (S.remaining source.old)) }
    ensures turned { Turned turns (turning (seen_by S.told S.remaining S.lent) source.old source.new ∷ []) (seen_by K.told K.contents K.lent sink.old) (seen_by K.told K.contents K.lent sink.new) (stopped_by result) }
    ensures heard { HearsWhere S.hears (HasTold Unwritten S.remaining (seen_by K.told K.contents K.lent sink.old)) source.old source.new }
{
    has_load();
    one_load();
    states();
    match read_script(alloc, source, sink, turns) {
        Err(_) => Err(RunFault::Memory),
        Ok(script) => match open_read(alloc, form, script, sink) {
            Err(fault) => Err(fault),
            Ok(asking) => Ok(asking),
        },
    }
}

/// Loads what was read of a script, and writes what its lines print, and the end of that. [`RunFault::Read`] where it was cut, and
/// [`RunFault::Memory`] where a line was refused for want of memory, once what the lines print has gone out.
fn open_read<K: Sink>(
    alloc: Global,
    form: Form,
    script: Script,
    sink: &mut K,
) -> Result<Asking, RunFault>
    requires working { (K.told sink.old).failed ≡ false }
    requires few { length script.bytes.items < 2 ^ 59 }
    ensures ok { IfOk result (OpensWhole form script (K.contents sink.old) (K.contents sink.new)) }
    ensures fault { IfErr result (OpensNot form script (K.contents sink.old) (K.contents sink.new)) }
    ensures leaves { Leaves (K.told sink.old) (K.told sink.new) (stopped_by result) }
    ensures lent { K.lent sink.new ≡ K.lent sink.old }
{
    match load(alloc, form, &script, sink) {
        Err(_) => Err(RunFault::Write),
        Ok(engine) => {
            if !script.is_whole {
                return Err(RunFault::Read);
            }
            if engine.memory != 0 {
                return Err(RunFault::Memory);
            }
            let refused = engine.refused;
            let verdict = Verdict {
                refused: refused != 0,
                lacking: false,
                differs: false,
            };
            match put_done(sink, form, &verdict) {
                Err(_) => Err(RunFault::Write),
                Ok(()) => {
                    let standing = Standing::new(alloc, form, script.bytes, engine);
                    Ok(Asking::new(standing, refused))
                }
            }
        }
    }
}
