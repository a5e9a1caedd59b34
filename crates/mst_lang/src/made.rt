//! What commands make of the values of their arguments, by how many these are: a line, or E01 where a command takes
//! another number of them, or others.
ghost use Rattle.std.specs.Prelude.{◌≡◌, ◌∷◌, []};
ghost use Rattle.std.specs.Option.{ok_or};
ghost use Rattle.mst_lang.specs.Values.{made};
ghost use Rattle.mst_lang.specs.declared.line.Fault.TheVariants.{E01};
ghost use Rattle.mst_lang.specs.declared.value.Value.TheVariants as marks;

use crate::line::{
    BridgeChange, Command, Edit, Fault, LanChange, Line, PortChange, Query, TreeChange,
};
use crate::value::Value;
use mst_ids::{Name, PortName, Tree};

/// The edit that a command makes of its last value, a line for each command.
macro_rules! edits {
    ($command:ident $value:ident { $($name:ident $kind:ident($last:ident) => $edit:expr;)* }) => {
        match ($command, $value) {
            $((Command::$name, Value::$kind($last)) => Ok(Line::Edit($edit)),)*
            _ => Err(Fault::E01),
        }
    };
}

pub(crate) fn made_of_none(command: Command) -> Result<Line, Fault>
    ensures { result ≡ ok_or (made command []) E01 }
{
    match command {
        Command::ShowPlan => Ok(Line::Query(Query::ShowPlan)),
        Command::ShowLag => Ok(Line::Query(Query::ShowLag)),
        Command::ShowRegions => Ok(Line::Query(Query::ShowRegions)),
        Command::ShowNotes => Ok(Line::Query(Query::ShowNotes)),
        Command::Mark => Ok(Line::Mark),
        Command::Changes => Ok(Line::Query(Query::Changes)),
        Command::Save => Ok(Line::Query(Query::Save)),
        Command::Digest => Ok(Line::Query(Query::Digest)),
        _ => Err(Fault::E01),
    }
}

pub(crate) fn made_of_one(command: Command, value: Value) -> Result<Line, Fault>
    ensures { result ≡ ok_or (made command (value ∷ [])) E01 }
{
    match (command, value) {
        (Command::DelBridge, Value::Name(bridge)) => Ok(Line::Edit(Edit::DelBridge { bridge })),
        (Command::AddLan, Value::Name(lan)) => Ok(Line::Edit(Edit::AddLan { lan })),
        (Command::DelLan, Value::Name(lan)) => Ok(Line::Edit(Edit::DelLan { lan })),
        (Command::ShowTree, Value::Tree(tree)) => Ok(Line::Query(Query::ShowTree { tree })),
        (Command::ShowVlan, Value::Vid(vid)) => Ok(Line::Query(Query::ShowVlan { vid })),
        (Command::ShowMstConfId, Value::Name(bridge)) => {
            Ok(Line::Query(Query::ShowConfiguration { bridge }))
        }
        _ => Err(Fault::E01),
    }
}

pub(crate) fn made_of_two(command: Command, first: Value, value: Value) -> Result<Line, Fault>
    ensures { result ≡ ok_or (made command (first ∷ value ∷ [])) E01 }
{
    let Value::Name(name) = first else {
        return Err(Fault::E01);
    };
    edits!(command value {
        AddBridge Mac(mac) => Edit::AddBridge { bridge: name, mac };
        AddPort Number(number) => Edit::AddPort { port: PortName { bridge: name, number } };
        DelPort Number(number) => Edit::DelPort { port: PortName { bridge: name, number } };
        Unplug Number(number) => Edit::Unplug { port: PortName { bridge: name, number } };
        Bridge Power(power) => Edit::SetBridge { bridge: name, change: BridgeChange::Power(power) };
        Kind Kind(kind) => Edit::SetBridge { bridge: name, change: BridgeChange::Kind(kind) };
        SetSysPri SixteenBits(priority) => Edit::SetBridge { bridge: name, change: BridgeChange::SystemPriority(priority) };
        SetMaxHops MaxHops(limit) => Edit::SetBridge { bridge: name, change: BridgeChange::MaxHops(limit) };
        SetMaxAge MaxAge(limit) => Edit::SetBridge { bridge: name, change: BridgeChange::MaxAge(limit) };
        Lan LanState(state) => Edit::SetLan { lan: name, change: LanChange::State(state) };
        Speed Speed(speed) => Edit::SetLan { lan: name, change: LanChange::Speed(speed) };
    })
}

pub(crate) fn made_of_three(
    command: Command,
    first: Value,
    second: Value,
    value: Value,
) -> Result<Line, Fault>
    ensures { result ≡ ok_or (made command (first ∷ second ∷ value ∷ [])) E01 }
{
    let Value::Name(bridge) = first else {
        return Err(Fault::E01);
    };
    match second {
        Value::Number(number) => set_of_port(command, PortName { bridge, number }, value),
        Value::Tree(tree) => set_of_tree(command, bridge, tree, value),
        Value::SixteenBits(revision) => set_configuration(command, bridge, revision, value),
        _ => Err(Fault::E01),
    }
}

fn set_of_port(command: Command, port: PortName, value: Value) -> Result<Line, Fault>
    ensures { result ≡ ok_or (made command (marks.Name port.bridge ∷ marks.Number port.number ∷ value ∷ [])) E01 }
{
    edits!(command value {
        Plug Name(lan) => Edit::Plug { port, lan };
        SetKey SixteenBits(key) => Edit::SetPort { port, change: PortChange::Key(key) };
        SetPortPathCost Cost(cost) => Edit::SetPort { port, change: PortChange::PathCost(cost) };
        SetPortRestrRole Yes(holds) => Edit::SetPort { port, change: PortChange::RestrictedRole(holds) };
        SetPortVlans Vids(vids) => Edit::SetByTree(TreeChange::Vlans { port, vids });
    })
}

fn set_of_tree(command: Command, bridge: Name, tree: Tree, value: Value) -> Result<Line, Fault>
    ensures { result ≡ ok_or (made command (marks.Name bridge ∷ marks.Tree tree ∷ value ∷ [])) E01 }
{
    edits!(command value {
        SetTreePrio Priority(priority) => Edit::SetByTree(TreeChange::Priority { bridge, tree, priority });
        SetVidToMstId Vids(vids) => Edit::SetByTree(TreeChange::Table { bridge, tree, vids });
    })
}

fn set_configuration(
    command: Command,
    bridge: Name,
    revision: u16,
    value: Value,
) -> Result<Line, Fault>
    ensures { result ≡ ok_or (made command (marks.Name bridge ∷ marks.SixteenBits revision ∷ value ∷ [])) E01 }
{
    edits!(command value {
        SetMstConfId ConfName(name) => Edit::SetBridge { bridge, change: BridgeChange::Configuration { revision, name } };
    })
}

pub(crate) fn made_of_four(
    command: Command,
    first: Value,
    second: Value,
    third: Value,
    value: Value,
) -> Result<Line, Fault>
    ensures { result ≡ ok_or (made command (first ∷ second ∷ third ∷ value ∷ [])) E01 }
{
    let Value::Name(bridge) = first else {
        return Err(Fault::E01);
    };
    let Value::Number(number) = second else {
        return Err(Fault::E01);
    };
    let Value::Tree(tree) = third else {
        return Err(Fault::E01);
    };
    let port = PortName { bridge, number };
    edits!(command value {
        SetTreePortPrio Priority(priority) => Edit::SetByTree(TreeChange::PortPriority { port, tree, priority });
        SetTreePortCost Cost(cost) => Edit::SetByTree(TreeChange::PortCost { port, tree, cost });
    })
}
