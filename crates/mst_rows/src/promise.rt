ghost use Rattle.std.specs.Prelude.{◌≡◌, ◌++◌, OnOk};
ghost use Rattle.mst_kinds.specs.Words.{key_text};
ghost use Rattle.mst_kinds.specs.declared.key.Key.TheVariants as key;
ghost use Rattle.mst_rows.specs.Rows.{said};
ghost use Rattle.mst_rows.specs.Answers.{holds_json, named, promise_json, promise_told_json, promise_words_json, scope_json};

use crate::answer::{push_flag, push_null, push_number, push_string};
use crate::value::{PromiseScope, PromiseTold};
use mst_ids::push_bytes;
use mst_kinds::Key;
use std::alloc::AllocError;

/// Appends the object of a promise.
pub(crate) fn push_promise(promise: &PromiseTold<'_>, out: &mut Vec<u8>) -> Result<(), AllocError>
    ensures { OnOk result (out.new.items ≡ out.old.items ++ promise_json (said promise.now)) }
{
    push_bytes(b"{", out)?;
    push_words(promise, out)?;
    push_bytes(b",", out)?;
    push_told(promise, out)?;
    push_bytes(b"}", out)
}

fn push_words(promise: &PromiseTold<'_>, out: &mut Vec<u8>) -> Result<(), AllocError>
    ensures { OnOk result (out.new.items ≡ out.old.items ++ promise_words_json (said promise.now)) }
{
    push_number(Key::Line.text(), promise.line, out)?;
    push_bytes(b",", out)?;
    push_string(Key::Promise.text(), promise.promise, out)?;
    push_bytes(b",", out)?;
    push_scope(promise.scope, out)?;
    push_bytes(b",", out)?;
    push_flag(Key::Finally.text(), promise.is_final, out)
}

fn push_told(promise: &PromiseTold<'_>, out: &mut Vec<u8>) -> Result<(), AllocError>
    ensures { OnOk result (out.new.items ≡ out.old.items ++ promise_told_json (said promise.now)) }
{
    push_number(Key::NetworkCount.text(), promise.networks, out)?;
    push_bytes(b",", out)?;
    push_holds(promise.holds, out)
}

fn push_scope(scope: PromiseScope, out: &mut Vec<u8>) -> Result<(), AllocError>
    ensures { OnOk result (out.new.items ≡ out.old.items ++ named (key_text key.Scope) (scope_json scope)) }
{
    match scope {
        PromiseScope::Now => push_null(Key::Scope.text(), out),
        PromiseScope::Always => push_string(Key::Scope.text(), b"always", out),
        PromiseScope::AfterLan => push_string(Key::Scope.text(), b"after lan", out),
        PromiseScope::AfterBridge => push_string(Key::Scope.text(), b"after bridge", out),
        PromiseScope::AfterRisk => push_string(Key::Scope.text(), b"after risk", out),
    }
}

fn push_holds(holds: Option<bool>, out: &mut Vec<u8>) -> Result<(), AllocError>
    ensures { OnOk result (out.new.items ≡ out.old.items ++ named (key_text key.Holds) (holds_json holds)) }
{
    match holds {
        None => push_null(Key::Holds.text(), out),
        Some(flag) => push_flag(Key::Holds.text(), flag, out),
    }
}
