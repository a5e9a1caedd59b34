ghost use Rattle.std.specs.Prelude.{◌≡◌, ◌++◌, ◌∷◌, [], List, OnOk, IfOk, map, false, codes, decimal};
ghost use Rattle.json.specs.Print.{quoted};
ghost use Rattle.mst_kinds.specs.Words.{key_text};
ghost use Rattle.mst_rows.specs.Printed.{comma};
ghost use Rattle.mst_rows.specs.Cells.{Cell};
ghost use Rattle.mst_rows.specs.Rows.{AreCells, cell, first_cell, giver, row_of};
ghost use Rattle.mst_rows.specs.Answers.{active_json, bridge_text, first_json, flag_text, follow, head_text, line_text, named, number_text, part_json, parts_json, place_text, port_json, record_text, records_text, row_json, value_text};

use crate::array::{push_array, push_groups, push_promises};
use crate::escape::push_quoted;
use crate::field::{push_region, push_vector};
use crate::rows::Rows;
use crate::runs::{push_run, push_runs};
use crate::text::left;
use crate::value::{ActivePort, Value};
use mst_ids::{ConfName, Name, PortName, Tree, push_bytes, push_decimal};
use mst_kinds::{Key, Kind, Part};
use std::alloc::AllocError;

/// The records of an answer, one object of JSON on one line.
#[derive(Drop)]
pub struct Json {
    /// What is written yet.
    pub out: Vec<u8>,
    /// Whether a record is.
    pub follows: bool,
}

impl Rows for Json {
    ghost grew = { λ first now rows. (now.out.items ≡ first.out.items ++ records_text first.follows rows) × (now.follows ≡ follow first.follows rows) };

    fn row(&mut self, kind: Kind, values: &[Value<'_>]) -> Result<(), AllocError> {
        push_comma(self.follows, &mut self.out)?;
        push_record(kind, values, &mut self.out)?;
        self.follows = true;
        Ok(())
    }
}

impl Json {
    /// Begins an answer behind what `out` has: the number of the line that asks, where one does, and the query with its words.
    pub fn open(
        line: Option<u64>,
        query: Kind,
        words: &[Value<'_>],
        out: Vec<u8>,
    ) -> Result<Json, AllocError>
        ensures { (cells : List Cell) → AreCells words.now cells → IfOk result (λ j. (j.out.items ≡ out.items ++ head_text line (row_of query cells)) × (j.follows ≡ false)) }
    {
        Json::begun(line, query, words, out)
    }

    fn begun(
        line: Option<u64>,
        query: Kind,
        words: &[Value<'_>],
        out: Vec<u8>,
    ) -> Result<Json, AllocError>
        ensures { IfOk result (λ j. (j.out.items ≡ out.items ++ head_text line (row_of query (map cell words.now))) × (j.follows ≡ false)) }
    {
        let mut out = out;
        push_bytes(b"{", &mut out)?;
        push_line(line, &mut out)?;
        push_row(b"query", query, words, &mut out)?;
        push_bytes(b",", &mut out)?;
        push_quoted(b"records", &mut out)?;
        push_bytes(b":[", &mut out)?;
        Ok(Json {
            out,
            follows: false,
        })
    }

    /// Ends it.
    pub fn close(self) -> Result<Vec<u8>, AllocError>
        ensures { IfOk result (λ out. out.items ≡ self.out.items ++ codes "]}\n") }
    {
        let mut out = self.out;
        push_bytes(b"]}\n", &mut out)?;
        Ok(out)
    }
}

fn push_line(line: Option<u64>, out: &mut Vec<u8>) -> Result<(), AllocError>
    ensures { OnOk result (out.new.items ≡ out.old.items ++ line_text line) }
{
    match line {
        None => Ok(()),
        Some(number) => {
            push_number(b"line", number, out)?;
            push_bytes(b",", out)
        }
    }
}

pub(crate) fn push_comma(follows: bool, out: &mut Vec<u8>) -> Result<(), AllocError>
    ensures { OnOk result (out.new.items ≡ out.old.items ++ comma follows) }
{
    if follows {
        push_bytes(b",", out)
    } else {
        Ok(())
    }
}

/// Appends the record of a row.
pub(crate) fn push_record(
    kind: Kind,
    values: &[Value<'_>],
    out: &mut Vec<u8>,
) -> Result<(), AllocError>
    ensures { OnOk result (out.new.items ≡ out.old.items ++ record_text (row_of kind (map cell values.now))) }
{
    push_bytes(b"{", out)?;
    push_row(b"kind", kind, values, out)?;
    push_bytes(b"}", out)
}

/// Appends a member of this key that says the first word, and those of the parts.
fn push_row(
    key: &[u8],
    kind: Kind,
    values: &[Value<'_>],
    out: &mut Vec<u8>,
) -> Result<(), AllocError>
    ensures { OnOk result (out.new.items ≡ out.old.items ++ row_json key.now (row_of kind (map cell values.now))) }
{
    push_string(key, kind.first().text(), out)?;
    push_parts(kind.parts(), values, out)
}

fn push_parts<'a, 'b>(
    parts: &[Part],
    values: &'a [Value<'b>],
    out: &mut Vec<u8>,
) -> Result<(), AllocError>
    ensures { OnOk result (out.new.items ≡ out.old.items ++ parts_json parts.now (map cell values.now)) }
{
    let mut rest = values;
    for part in parts {
        push_part(*part, rest, out)?;
        rest = left(*part, rest);
    }
    Ok(())
}

/// Appends the members of a part, each behind others.
fn push_part(part: Part, values: &[Value<'_>], out: &mut Vec<u8>) -> Result<(), AllocError>
    ensures { OnOk result (out.new.items ≡ out.old.items ++ part_json part (map cell values.now)) }
{
    match part {
        Part::Mark(_) => Ok(()),
        _ => {
            push_bytes(b",", out)?;
            push_first(part, values, out)
        }
    }
}

/// Appends the members of a part at the front.
fn push_first(part: Part, values: &[Value<'_>], out: &mut Vec<u8>) -> Result<(), AllocError>
    ensures { OnOk result (out.new.items ≡ out.old.items ++ first_json part (map cell values.now)) }
{
    match part {
        Part::Mark(_) => Ok(()),
        Part::Key(key) => push_member(key, values, out),
        Part::Commas(key) => push_member(key, values, out),
        Part::Above(key) => push_member(key, values, out),
        Part::Said(key, mark) => push_string(key.text(), mark.text(), out),
        Part::Told(key, mark) => push_string(key.text(), mark.text(), out),
        Part::Port => push_first_place(values, out),
        Part::AbovePort => push_first_place(values, out),
    }
}

/// Appends a member: a key and the first of these values.
#[tactic(auto, unfolding(crate::specs::Answers::named))]
fn push_member(key: Key, values: &[Value<'_>], out: &mut Vec<u8>) -> Result<(), AllocError>
    ensures { OnOk result (out.new.items ≡ out.old.items ++ named (key_text key) (value_text (first_cell (map cell values.now)))) }
{
    push_key(key.text(), out)?;
    match values {
        [value, ..] => push_value(value, out),
        [] => push_bytes(b"null", out),
    }
}

/// Appends a key, and its colon.
pub(crate) fn push_key(key: &[u8], out: &mut Vec<u8>) -> Result<(), AllocError>
    ensures { OnOk result (out.new.items ≡ out.old.items ++ (quoted key.now ++ 58 ∷ [])) }
{
    push_quoted(key, out)?;
    push_bytes(b":", out)
}

/// Appends a member: a key and a string.
#[tactic(auto, unfolding(crate::specs::Answers::named))]
pub(crate) fn push_string(key: &[u8], text: &[u8], out: &mut Vec<u8>) -> Result<(), AllocError>
    ensures { OnOk result (out.new.items ≡ out.old.items ++ named key.now (quoted text.now)) }
{
    push_key(key, out)?;
    push_quoted(text, out)
}

/// Appends a member: a key and a number.
#[tactic(auto, unfolding(crate::specs::Answers::named))]
pub(crate) fn push_number(key: &[u8], number: u64, out: &mut Vec<u8>) -> Result<(), AllocError>
    ensures { OnOk result (out.new.items ≡ out.old.items ++ named key.now (decimal number)) }
{
    push_key(key, out)?;
    push_decimal(number, out)
}

/// Appends a member: a key and null.
#[tactic(auto, unfolding(crate::specs::Answers::named))]
pub(crate) fn push_null(key: &[u8], out: &mut Vec<u8>) -> Result<(), AllocError>
    ensures { OnOk result (out.new.items ≡ out.old.items ++ named key.now (codes "null")) }
{
    push_key(key, out)?;
    push_bytes(b"null", out)
}

fn push_value(value: &Value<'_>, out: &mut Vec<u8>) -> Result<(), AllocError>
    ensures { OnOk result (out.new.items ≡ out.old.items ++ value_text (cell value.now)) }
{
    match *value {
        Value::Absent => push_bytes(b"null", out),
        Value::Word(word) => push_quoted(word, out),
        Value::Name(name) => push_quoted(name.as_bytes(), out),
        Value::Number(number) => push_decimal(number, out),
        Value::BridgeId(id) => push_quoted(&id.text(), out),
        Value::PortId(id) => push_quoted(&id.text(), out),
        Value::Mac(mac) => push_quoted(ConfName::of_mac(mac).as_bytes(), out),
        Value::Port(port) => push_port(port, out),
        Value::Vids(vids) => push_runs(vids, out),
        Value::Names(names) => push_array::<Name>(names, out),
        Value::Ports(ports) => push_array::<PortName>(ports, out),
        Value::Trees(trees) => push_array::<Tree>(trees, out),
        Value::Groups(groups) => push_groups(groups, out),
        Value::Active(ports) => push_array::<ActivePort>(ports, out),
        Value::Giver(port) => push_giver(port, out),
        Value::Vector(vector) => push_vector(vector, out),
        Value::Region(region) => push_region(region, out),
        Value::FailedLan(lan) => push_failed(b"lan", lan, out),
        Value::FailedBridge(bridge) => push_failed(b"bridge", bridge, out),
        Value::FailedRisk(name) => push_failed(b"risk", name, out),
        Value::NoFailure => push_bytes(b"null", out),
        Value::Lines(first, last) => push_run(first, last, out),
        Value::Promises(promises) => push_promises(promises, out),
    }
}

/// Appends the object of a port, or null for a bridge's own vector.
fn push_giver(port: &Option<PortName>, out: &mut Vec<u8>) -> Result<(), AllocError>
    ensures { OnOk result (out.new.items ≡ out.old.items ++ value_text (giver port.now)) }
{
    match port {
        None => push_bytes(b"null", out),
        Some(port) => push_port(port, out),
    }
}

/// Appends the object of what fails.
fn push_failed(key: &[u8], name: &Name, out: &mut Vec<u8>) -> Result<(), AllocError>
    ensures { OnOk result (out.new.items ≡ out.old.items ++ 123 ∷ (named key.now (quoted name.now) ++ 125 ∷ [])) }
{
    push_bytes(b"{", out)?;
    push_string(key, name.as_bytes(), out)?;
    push_bytes(b"}", out)
}

/// Appends the object of a port.
pub(crate) fn push_port(port: &PortName, out: &mut Vec<u8>) -> Result<(), AllocError>
    ensures { OnOk result (out.new.items ≡ out.old.items ++ port_json port.now) }
{
    push_bytes(b"{", out)?;
    push_place(port, out)?;
    push_bytes(b"}", out)
}

/// Appends the object of an active port.
pub(crate) fn push_active(port: &ActivePort, out: &mut Vec<u8>) -> Result<(), AllocError>
    ensures { OnOk result (out.new.items ≡ out.old.items ++ active_json port.now) }
{
    push_bytes(b"{", out)?;
    push_place(&port.port, out)?;
    push_bytes(b",", out)?;
    push_flag(b"member", port.is_member, out)?;
    push_bytes(b"}", out)
}

/// Appends a member: a key and whether something is so.
#[tactic(auto, unfolding(crate::specs::Answers::named))]
pub(crate) fn push_flag(key: &[u8], flag: bool, out: &mut Vec<u8>) -> Result<(), AllocError>
    ensures { OnOk result (out.new.items ≡ out.old.items ++ named key.now (flag_text flag)) }
{
    push_key(key, out)?;
    if flag {
        push_bytes(b"true", out)
    } else {
        push_bytes(b"false", out)
    }
}

/// Appends the members of a port.
fn push_place(port: &PortName, out: &mut Vec<u8>) -> Result<(), AllocError>
    ensures { OnOk result (out.new.items ≡ out.old.items ++ place_text (quoted port.now.bridge) (decimal port.now.number)) }
{
    push_string(b"bridge", port.bridge.as_bytes(), out)?;
    push_bytes(b",", out)?;
    push_number(b"port", u64::from(port.number.value()), out)
}

/// Appends the members of no port.
fn push_no_place(out: &mut Vec<u8>) -> Result<(), AllocError>
    ensures { OnOk result (out.new.items ≡ out.old.items ++ place_text (codes "null") (codes "null")) }
{
    push_null(b"bridge", out)?;
    push_bytes(b",", out)?;
    push_null(b"port", out)
}

/// Appends the members of the first of these values, which is a port.
fn push_first_place(values: &[Value<'_>], out: &mut Vec<u8>) -> Result<(), AllocError>
    ensures { OnOk result (out.new.items ≡ out.old.items ++ place_text (bridge_text (first_cell (map cell values.now))) (number_text (first_cell (map cell values.now)))) }
{
    match values {
        [value, ..] => push_place_of(value, out),
        [] => push_no_place(out),
    }
}

/// Appends the members of a value that is a port.
fn push_place_of(value: &Value<'_>, out: &mut Vec<u8>) -> Result<(), AllocError>
    ensures { OnOk result (out.new.items ≡ out.old.items ++ place_text (bridge_text (cell value.now)) (number_text (cell value.now))) }
{
    match *value {
        Value::Port(port) => push_place(port, out),
        Value::Giver(port) => push_place_if(port, out),
        _ => push_no_place(out),
    }
}

fn push_place_if(port: &Option<PortName>, out: &mut Vec<u8>) -> Result<(), AllocError>
    ensures { OnOk result (out.new.items ≡ out.old.items ++ place_text (bridge_text (giver port.now)) (number_text (giver port.now))) }
{
    match port {
        None => push_no_place(out),
        Some(port) => push_place(port, out),
    }
}
