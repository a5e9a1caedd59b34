ghost use Rattle.std.specs.Prelude.{◌≡◌, ◌++◌, OnOk, map, false};
ghost use Rattle.json.specs.Print.{quoted};
ghost use Rattle.mst_rows.specs.Printed.{comma};
ghost use Rattle.mst_rows.specs.Answers.{active_json, array_text, joined, names_json, port_json, promise_json};
ghost use Rattle.mst_rows.specs.Rows.{said};

use crate::answer::{push_active, push_comma, push_port};
use crate::escape::push_quoted;
use crate::promise::push_promise;
use crate::value::{ActivePort, PromiseTold};
use mst_ids::{Name, PortName, Tree, push_bytes, push_decimal};
use std::alloc::AllocError;

/// What is an item of an array.
pub(crate) trait Item {
    ghost use Rattle.std.specs.Prelude.{List, ℕ};

    /// What is written of it.
    ghost json: { Self → List ℕ };

    fn push(&self, out: &mut Vec<u8>) -> Result<(), AllocError>
        ensures { OnOk result (out.new.items ≡ out.old.items ++ json self.now) };
}

impl Item for Name {
    ghost json = { quoted };

    fn push(&self, out: &mut Vec<u8>) -> Result<(), AllocError> {
        push_quoted(self.as_bytes(), out)
    }
}

impl Item for PortName {
    ghost json = { port_json };

    fn push(&self, out: &mut Vec<u8>) -> Result<(), AllocError> {
        push_port(self, out)
    }
}

impl Item for Tree {
    ghost use Rattle.std.specs.Prelude.{decimal};

    ghost json = { decimal };

    fn push(&self, out: &mut Vec<u8>) -> Result<(), AllocError> {
        push_decimal(u64::from(self.value()), out)
    }
}

impl Item for ActivePort {
    ghost json = { active_json };

    fn push(&self, out: &mut Vec<u8>) -> Result<(), AllocError> {
        push_active(self, out)
    }
}

impl Item for Vec<Name> {
    ghost json = { λ names. names_json names.items };

    fn push(&self, out: &mut Vec<u8>) -> Result<(), AllocError> {
        push_array::<Name>(self.as_slice(), out)
    }
}

impl Item for PromiseTold<'_> {
    ghost json = { λ p. promise_json (said p) };

    fn push(&self, out: &mut Vec<u8>) -> Result<(), AllocError> {
        push_promise(self, out)
    }
}

/// Appends an array of these items.
pub(crate) fn push_array<I: Item>(items: &[I], out: &mut Vec<u8>) -> Result<(), AllocError>
    ensures { OnOk result (out.new.items ≡ out.old.items ++ array_text (map I.json items.now)) }
{
    push_bytes(b"[", out)?;
    push_items::<I>(items, out)?;
    push_bytes(b"]", out)
}

fn push_items<I: Item>(items: &[I], out: &mut Vec<u8>) -> Result<(), AllocError>
    ensures { OnOk result (out.new.items ≡ out.old.items ++ joined false (map I.json items.now)) }
{
    let mut follows = false;
    for item in items {
        push_comma(follows, out)?;
        item.push(out)?;
        follows = true;
    }
    Ok(())
}

/// Appends an array of arrays of names.
pub(crate) fn push_groups(groups: &[Vec<Name>], out: &mut Vec<u8>) -> Result<(), AllocError>
    ensures { OnOk result (out.new.items ≡ out.old.items ++ array_text (map names_json (map (λ g. g.items) groups.now))) }
{
    push_array::<Vec<Name>>(groups, out)
}

/// Appends an array of the objects of promises.
pub(crate) fn push_promises(
    promises: &[PromiseTold<'_>],
    out: &mut Vec<u8>,
) -> Result<(), AllocError>
    ensures { OnOk result (out.new.items ≡ out.old.items ++ array_text (map promise_json (map said promises.now))) }
{
    push_array::<PromiseTold<'_>>(promises, out)
}
