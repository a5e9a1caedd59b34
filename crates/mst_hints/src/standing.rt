ghost use Rattle.std.specs.Prelude.{◌≡◌, ◌&&◌, ◌++◌, [], Some, OnOk, find};
ghost use Rattle.std.specs.Option.{option_map, option_map_or};
ghost use Rattle.mst_hints.specs.Kept.{IsKept};
ghost use Rattle.mst_hints.specs.Hints.{hint_line};
ghost use Rattle.mst_hints.specs.Scripts.{Past};
ghost use Rattle.mst_hints.specs.Standing.{standing_of, standing_for, there_text, mac_hint, plugged_text, unplugged_text, bridge_has_text, lan_has_text, has_port_text, held_text, holder_text, limit_text, since_held, trees_text, mark_text, record_text, lan_text, made_text};
ghost use Rattle.mst_hints.specs.Puts.{held_by, is_held, same_holder};
ghost use Rattle.mst_hints.specs.Puts as puts;

use crate::hint::{push_start, push_text};
use crate::puts::{Holder, is_same};
use crate::record::{Record, bridge_for, lan_for, made_by, port_for};
use crate::script::ScriptHints;
use mst_ids::{Mac, Name, PortName, push_bytes, push_decimal, push_end};
use mst_lang::{Edit, Line, Query};
use mst_net::{Contents, Refusal};
use std::alloc::AllocError;

impl ScriptHints {
    /// Appends the hint of what stands in the way of a line that is refused so, if something does.
    pub(crate) fn push_standing(
        &self,
        line: &Line,
        refusal: Refusal,
        out: &mut Vec<u8>,
    ) -> Result<(), AllocError>
        ensures { OnOk result ((past : Past) → IsKept past self.now → out.new.items ≡ out.old.items ++ hint_line past.of past.number (standing_of past.makings past.puts past.net line.now refusal)) }
    {
        match line {
            Line::Edit(edit) => self.push_standing_for(edit, refusal, out),
            Line::Query(Query::Changes) => match refusal {
                Refusal::E16 => push_mark(self.of, self.number, out),
                _ => Ok(()),
            },
            _ => Ok(()),
        }
    }

    /// The same of an edit.
    fn push_standing_for(
        &self,
        edit: &Edit,
        refusal: Refusal,
        out: &mut Vec<u8>,
    ) -> Result<(), AllocError>
        ensures { OnOk result ((past : Past) → IsKept past self.now → out.new.items ≡ out.old.items ++ hint_line past.of past.number (standing_for past.makings past.puts past.net edit.now refusal)) }
    {
        match refusal {
            Refusal::E07 | Refusal::E09 => match made_by(edit) {
                Some(made) => self.push_there(&made, out),
                None => Ok(()),
            },
            Refusal::E08 => self.push_holder(edit, out),
            Refusal::E10 => match port_for(edit) {
                Some(port) => self.push_plugged(&port, out),
                None => Ok(()),
            },
            Refusal::E11 => match port_for(edit) {
                Some(port) => push_unplugged(self.of, self.number, &port, out),
                None => Ok(()),
            },
            Refusal::E12 => match bridge_for(edit) {
                Some(bridge) => self.push_bridge_has(&bridge, out),
                None => Ok(()),
            },
            Refusal::E13 => match lan_for(edit) {
                Some(lan) => self.push_lan_has(&lan, out),
                None => Ok(()),
            },
            Refusal::E14 => match made_by(edit) {
                Some(made) => push_limit(self.of, self.number, &made, out),
                None => Ok(()),
            },
            Refusal::E15 => match bridge_for(edit) {
                Some(bridge) => push_trees(self.of, self.number, &bridge, out),
                None => Ok(()),
            },
            _ => Ok(()),
        }
    }

    /// That the record is there.
    fn push_there(&self, made: &Record, out: &mut Vec<u8>) -> Result<(), AllocError>
        ensures { OnOk result ((past : Past) → IsKept past self.now → out.new.items ≡ out.old.items ++ hint_line past.of past.number (Some (there_text past.makings made.now))) }
    {
        push_start(self.of, self.number, out)?;
        push_record(made, out)?;
        push_bytes(b" is there", out)?;
        push_since_made(self.adds.last_made(made), out)?;
        push_end(out)
    }

    /// Which bridge has the MAC address.
    fn push_holder(&self, edit: &Edit, out: &mut Vec<u8>) -> Result<(), AllocError>
        ensures { OnOk result ((past : Past) → IsKept past self.now → out.new.items ≡ out.old.items ++ hint_line past.of past.number (mac_hint past.makings past.puts past.net edit.now)) }
    {
        match edit {
            Edit::AddBridge { mac, .. } => {
                self.push_has_mac(&self.held_by(&Holder::AtMac(*mac)), out)
            }
            _ => Ok(()),
        }
    }

    /// That this bridge has it.
    fn push_has_mac(&self, held: &Option<Record>, out: &mut Vec<u8>) -> Result<(), AllocError>
        ensures { OnOk result ((past : Past) → IsKept past self.now → out.new.items ≡ out.old.items ++ hint_line past.of past.number (Some (holder_text past.makings held.now))) }
    {
        push_start(self.of, self.number, out)?;
        push_held(held, b"a bridge", out)?;
        push_bytes(b" has this MAC address", out)?;
        self.push_since_held(held, out)?;
        push_end(out)
    }

    fn push_since_held(&self, held: &Option<Record>, out: &mut Vec<u8>) -> Result<(), AllocError>
        ensures { OnOk result ((past : Past) → IsKept past self.now → out.new.items ≡ out.old.items ++ since_held past.makings held.now) }
    {
        match held {
            Some(record) => push_since_made(self.adds.last_made(record), out),
            None => Ok(()),
        }
    }

    /// That the port is in a LAN.
    fn push_plugged(&self, port: &PortName, out: &mut Vec<u8>) -> Result<(), AllocError>
        ensures { OnOk result ((past : Past) → IsKept past self.now → out.new.items ≡ out.old.items ++ hint_line past.of past.number (Some (plugged_text past.makings past.net port.now))) }
    {
        push_start(self.of, self.number, out)?;
        push_record(&Record::Port(*port), out)?;
        push_bytes(b" is in ", out)?;
        push_lan(self.lan_of(port), out)?;
        push_since_made(self.adds.last_made(&Record::Plug(*port)), out)?;
        push_end(out)
    }

    /// That the bridge has a port.
    fn push_bridge_has(&self, bridge: &Name, out: &mut Vec<u8>) -> Result<(), AllocError>
        ensures { OnOk result ((past : Past) → IsKept past self.now → out.new.items ≡ out.old.items ++ hint_line past.of past.number (Some (bridge_has_text past.puts past.net bridge.now))) }
    {
        push_start(self.of, self.number, out)?;
        push_has_port(
            &Record::Bridge(*bridge),
            &self.held_by(&Holder::OnBridge(*bridge)),
            b"; delport comes first",
            out,
        )?;
        push_end(out)
    }

    /// That a port is in the LAN.
    fn push_lan_has(&self, lan: &Name, out: &mut Vec<u8>) -> Result<(), AllocError>
        ensures { OnOk result ((past : Past) → IsKept past self.now → out.new.items ≡ out.old.items ++ hint_line past.of past.number (Some (lan_has_text past.puts past.net lan.now))) }
    {
        push_start(self.of, self.number, out)?;
        push_has_port(
            &Record::Lan(*lan),
            &self.held_by(&Holder::InLan(*lan)),
            b"; unplug comes first",
            out,
        )?;
        push_end(out)
    }

    // ---- what is in the network

    /// Of what lines put there the first that is there still. It takes no memory. Where what a line put there first is there still,
    /// it looks up nothing else.
    fn held_by(&self, holder: &Holder) -> Option<Record>
        ensures { (past : Past) → IsKept past self.now → result ≡ held_by past.puts past.net holder.now }
    {
        let first = self.puts.first(holder)?;
        if self.is_held(holder, &first) {
            Some(first)
        } else {
            self.first_held(self.puts.all.as_slice(), holder)
        }
    }

    fn first_held(&self, puts: &[(Holder, Record)], holder: &Holder) -> Option<Record>
        ensures { result ≡ option_map (λ put. put.1) (find (λ put. same_holder put.0 holder.now && is_held self.now.network.net holder.now put.1) puts.now) }
    {
        let (_, held) = puts.iter().find(|(place, held)| is_same(place, holder)
            && self.is_held(holder, held))?;
        Some(*held)
    }

    /// Whether what was put there is there still.
    fn is_held(&self, holder: &Holder, held: &Record) -> bool
        ensures { result ≡ is_held self.now.network.net holder.now held.now }
    {
        match (holder, held) {
            (Holder::AtMac(mac), Record::Bridge(bridge)) => self.has_mac(bridge, *mac),
            (Holder::OnBridge(_), Record::Port(port)) => self.network.port(port).is_some(),
            (Holder::InLan(lan), Record::Port(port)) => self.is_in(port, lan),
            _ => false,
        }
    }

    fn has_mac(&self, bridge: &Name, mac: Mac) -> bool
        ensures { result ≡ puts.has_mac mac self.now.network.net bridge.now }
    {
        match self.network.bridge(bridge) {
            Some(seen) => seen.mac == mac,
            None => false,
        }
    }

    /// The LAN that a port is in.
    fn lan_of(&self, port: &PortName) -> Option<Name>
        ensures { result ≡ puts.lan_of self.now.network.net port.now }
    {
        match self.network.port(port) {
            Some(seen) => seen.lan,
            None => None,
        }
    }

    fn is_in(&self, port: &PortName, lan: &Name) -> bool
        ensures { result ≡ puts.is_in_lan self.now.network.net lan.now port.now }
    {
        match self.lan_of(port) {
            Some(own) => own == *lan,
            None => false,
        }
    }
}

/// What marks are for.
#[tactic(auto, unfolding(crate::specs::Standing::mark_text))]
fn push_mark(of: &[u8], number: u64, out: &mut Vec<u8>) -> Result<(), AllocError>
    ensures { OnOk result (out.new.items ≡ out.old.items ++ hint_line of.now number (Some mark_text)) }
{
    push_text(
        of,
        number,
        "a line with mark comes first; changes tells what differs from the network as it was there",
        out,
    )?;
    Ok(())
}

/// That the port is in no LAN.
fn push_unplugged(
    of: &[u8],
    number: u64,
    port: &PortName,
    out: &mut Vec<u8>,
) -> Result<(), AllocError>
    ensures { OnOk result (out.new.items ≡ out.old.items ++ hint_line of.now number (Some (unplugged_text port.now))) }
{
    push_start(of, number, out)?;
    push_record(&Record::Port(*port), out)?;
    push_bytes(b" is in no LAN", out)?;
    push_end(out)
}

/// How many of them there may be.
fn push_limit(of: &[u8], number: u64, made: &Record, out: &mut Vec<u8>) -> Result<(), AllocError>
    ensures { OnOk result (out.new.items ≡ out.old.items ++ hint_line of.now number (Some (limit_text made.now))) }
{
    push_start(of, number, out)?;
    push_bytes(limit(made), out)?;
    push_end(out)
}

fn limit(made: &Record) -> &'static [u8]
    ensures { result.now ≡ limit_text made.now }
{
    match made {
        Record::Bridge(_) => b"a network has at most 1024 bridges",
        Record::Port(_) => b"a network has at most 16384 ports",
        Record::Lan(_) => b"a network has at most 8192 LANs",
        Record::Plug(_) => b"",
    }
}

/// That the bridge has as many trees as one may have.
fn push_trees(of: &[u8], number: u64, bridge: &Name, out: &mut Vec<u8>) -> Result<(), AllocError>
    ensures { OnOk result (out.new.items ≡ out.old.items ++ hint_line of.now number (Some (trees_text bridge.now))) }
{
    push_start(of, number, out)?;
    push_record(&Record::Bridge(*bridge), out)?;
    push_bytes(b" has 64 trees besides tree 0", out)?;
    push_end(out)
}

// ---- words

/// A record in words.
pub(crate) fn push_record(named: &Record, out: &mut Vec<u8>) -> Result<(), AllocError>
    ensures { OnOk result (out.new.items ≡ out.old.items ++ record_text named.now) }
{
    match named {
        Record::Bridge(bridge) => {
            push_bytes(b"bridge ", out)?;
            bridge.push_text(out)
        }
        Record::Port(port) | Record::Plug(port) => {
            push_bytes(b"port ", out)?;
            port.push_text(out)
        }
        Record::Lan(lan) => {
            push_bytes(b"LAN ", out)?;
            lan.push_text(out)
        }
    }
}

fn push_lan(lan: Option<Name>, out: &mut Vec<u8>) -> Result<(), AllocError>
    ensures { OnOk result (out.new.items ≡ out.old.items ++ lan_text lan) }
{
    match lan {
        Some(name) => {
            push_bytes(b"LAN ", out)?;
            name.push_text(out)
        }
        None => push_bytes(b"a LAN", out),
    }
}

/// That the record has this port, and what comes first.
fn push_has_port(
    named: &Record,
    port: &Option<Record>,
    first: &[u8],
    out: &mut Vec<u8>,
) -> Result<(), AllocError>
    ensures { OnOk result (out.new.items ≡ out.old.items ++ has_port_text named.now port.now first.now) }
{
    push_record(named, out)?;
    push_bytes(b" has ", out)?;
    push_held(port, b"a port", out)?;
    push_bytes(first, out)
}

/// A record in words, or these words.
fn push_held(held: &Option<Record>, words: &[u8], out: &mut Vec<u8>) -> Result<(), AllocError>
    ensures { OnOk result (out.new.items ≡ out.old.items ++ held_text held.now words.now) }
{
    match held {
        Some(record) => push_record(record, out),
        None => push_bytes(words, out),
    }
}

fn push_since_made(since: Option<u64>, out: &mut Vec<u8>) -> Result<(), AllocError>
    ensures { OnOk result (out.new.items ≡ out.old.items ++ option_map_or made_text since []) }
{
    match since {
        None => Ok(()),
        Some(number) => {
            push_bytes(b" since line ", out)?;
            push_decimal(number, out)
        }
    }
}
