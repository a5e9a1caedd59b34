ghost use Rattle.std.specs.Prelude.{◌≡◌, ◌≢◌, ◌≤◌, ◌∷◌, [], ◌^◌, false, Err, IfOk, OnErr};
ghost use Rattle.mst_drive.specs.Turned.{Turned, turning};
ghost use Rattle.mst_drive.specs.Words.{HasTold, Wrote, WroteFront};
ghost use Rattle.mst_engine.specs.Engine.{outcome_of, tally_of};
ghost use Rattle.mst_engine.specs.Served.{IsFew, Served, ServedEnded, Serves};
ghost use Rattle.mst_engine.specs.declared.engine.Input.TheVariants.{Captures};
ghost use Rattle.mst_engine.specs.report.State.{empty_state};
ghost use Rattle.mst_io.specs.Devices.{HearsWhere, seen_by, stopped_by};
ghost use Rattle.mst_engine.specs.print.declared.form.Form.{Form};
ghost use Rattle.mst_tool.specs.Load.{ScriptEnded};

use mst_engine::laws::{one_load, one_run};
use mst_engine::{Engine, Input, Serving, serve_input};
use mst_io::{RunFault, Sink, Source};
use std::alloc::Global;

/// Serves all lines of a script, from the empty network on, and answers with the engine that has. Whenever it asks for more bytes, what
/// the lines before print has gone out. [`RunFault::Memory`] is never answered: a line that wants memory is refused.
pub fn serve_first<S: Source, K: Sink>(
    alloc: Global,
    input: Input,
    source: &mut S,
    sink: &mut K,
    turns: u64,
) -> Result<Serving, RunFault>
    requires script { (form : Form) → input ≡ Captures form → ⊥ }
    requires source { (S.told source.old).failed ≡ false }
    requires sink { (K.told sink.old).failed ≡ false }
    requires turns { turns ≤ 2 ^ 32 }
    ensures ok { IfOk result (λ serving. Wrote (K.contents sink.old) (K.contents sink.new) (λ text. Served input empty_state (S.remaining source.old) text (tally_of serving.engine))) }
    ensures few { IfOk result (λ serving. IsFew (outcome_of (tally_of serving.engine))) }
    ensures fault { OnErr result (WroteFront (K.contents sink.old) (K.contents sink.new) (Serves input empty_state (S.remaining source.old))) }
    ensures read { result ≡ Err RunFault.Read → Wrote (K.contents sink.old) (K.contents sink.new) (ServedEnded input empty_state (S.remaining source.old) (S.remaining source.new)) }
    ensures memory { result ≢ Err RunFault.Memory }
    ensures turned { Turned turns (turning (seen_by S.told S.remaining S.lent) source.old source.new ∷ []) (seen_by K.told K.contents K.lent sink.old) (seen_by K.told K.contents K.lent sink.new) (stopped_by result) }
    ensures heard { HearsWhere S.hears (HasTold (ScriptEnded input (S.remaining source.old)) S.remaining (seen_by K.told K.contents K.lent sink.old)) source.old source.new }
{
    one_run();
    one_load();
    let mut serving = Serving {
        input,
        engine: Engine::new(alloc),
    };
    match serve_input(&mut serving, source, sink, turns) {
        Err(fault) => Err(fault),
        Ok(()) => Ok(serving),
    }
}
