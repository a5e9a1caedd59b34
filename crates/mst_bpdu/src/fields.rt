//! The fields that are compared, in their order.
ghost use Rattle.std.specs.Prelude.{◌≡◌, ◌∷◌, [], if◌then◌else◌};
ghost use Rattle.mst_bpdu.specs.Flags.{code_of_role};
ghost use Rattle.mst_bpdu.specs.Differences.{numbers, flags, bridges, ports, rst_fields as rst_fields_of, mst_fields as mst_fields_of, configuration_fields as configuration_fields_of, msti_fields as msti_fields_of};
ghost use Rattle.mst_bpdu.specs.declared.difference.Field.TheVariants.{Role as role_field, Port as port_field};

use crate::bpdu::{ConfigurationId, MstBpdu, MstiMessage, RstBpdu};
use crate::difference::{Field, Value};
use crate::flags::RoleCode;
use crate::planned::{Planned, PlannedCist, PlannedMsti};
use mst_ids::{BridgeId, PortId, Priority};

/// A field with its value by the plan and its value in the capture.
#[derive(Clone, Copy)]
pub(crate) struct Compared {
    pub(crate) field: Field,
    pub(crate) plan: Value,
    pub(crate) capture: Value,
}

/// The fields of an RST BPDU.
#[tactic(auto, unfolding(crate::specs::Differences::rst_fields))]
pub(crate) fn rst_fields(plan: &PlannedCist, bpdu: &RstBpdu) -> [Compared; 7]
    ensures { result ≡ rst_fields_of plan.now bpdu.now }
{
    [
        role(plan.role, bpdu.flags.role),
        flag(Field::Learning, plan.forwards, bpdu.flags.learning),
        flag(Field::Forwarding, plan.forwards, bpdu.flags.forwarding),
        bridge(Field::Root, plan.root, bpdu.root),
        cost(Field::ExternalCost, plan.external_cost, bpdu.root_path_cost),
        bridge(Field::Bridge, plan.bridge, bpdu.bridge),
        port(plan.port, bpdu.port),
    ]
}

/// The fields of an MST BPDU before its messages.
#[tactic(auto, unfolding(crate::specs::Differences::mst_fields, crate::specs::Differences::configuration_fields))]
pub(crate) fn mst_fields(plan: &Planned, bpdu: &MstBpdu) -> [Compared; 13]
    ensures { result ≡ mst_fields_of plan.now bpdu.now }
{
    let cist = &plan.cist;
    let [selector, name, revision, digest] = configuration_fields(
        &plan.configuration,
        &bpdu.configuration,
    );
    [
        role(cist.role, bpdu.flags.role),
        flag(Field::Learning, cist.forwards, bpdu.flags.learning),
        flag(Field::Forwarding, cist.forwards, bpdu.flags.forwarding),
        bridge(Field::Root, cist.root, bpdu.root),
        cost(Field::ExternalCost, cist.external_cost, bpdu.external_cost),
        bridge(Field::RegionalRoot, cist.regional_root, bpdu.regional_root),
        port(cist.port, bpdu.port),
        selector,
        name,
        revision,
        digest,
        cost(Field::InternalCost, cist.internal_cost, bpdu.internal_cost),
        bridge(Field::Bridge, cist.bridge, bpdu.bridge),
    ]
}

/// The fields of an MST Configuration Identifier.
#[tactic(auto, unfolding(crate::specs::Differences::configuration_fields))]
fn configuration_fields(plan: &ConfigurationId, capture: &ConfigurationId) -> [Compared; 4]
    ensures { result ≡ configuration_fields_of plan.now capture.now }
{
    [
        number(
            Field::Selector,
            plan.selector.into(),
            capture.selector.into(),
        ),
        Compared {
            field: Field::Name,
            plan: Value::Name(plan.name),
            capture: Value::Name(capture.name),
        },
        number(
            Field::Revision,
            plan.revision.into(),
            capture.revision.into(),
        ),
        Compared {
            field: Field::Digest,
            plan: Value::Digest(plan.digest),
            capture: Value::Digest(capture.digest),
        },
    ]
}

/// The fields of an MSTI message.
#[tactic(auto, unfolding(crate::specs::Differences::msti_fields))]
pub(crate) fn msti_fields(plan: &PlannedMsti, message: &MstiMessage) -> [Compared; 7]
    ensures { result ≡ msti_fields_of plan.now message.now }
{
    [
        role(plan.role, message.flags.role),
        flag(Field::Learning, plan.forwards, message.flags.learning),
        flag(Field::Forwarding, plan.forwards, message.flags.forwarding),
        bridge(
            Field::RegionalRoot,
            plan.regional_root,
            message.regional_root,
        ),
        cost(
            Field::InternalCost,
            plan.internal_cost,
            message.internal_cost,
        ),
        priority(
            Field::BridgePriority,
            plan.bridge_priority,
            message.bridge_priority,
        ),
        priority(
            Field::PortPriority,
            plan.port_priority,
            message.port_priority,
        ),
    ]
}

/// A field that is a number.
fn number(field: Field, plan: u64, capture: u64) -> Compared
    ensures { result ≡ numbers field plan capture }
{
    Compared {
        field,
        plan: Value::Number(plan),
        capture: Value::Number(capture),
    }
}

/// The role.
fn role(plan: RoleCode, capture: RoleCode) -> Compared
    ensures { result ≡ numbers role_field (code_of_role plan) (code_of_role capture) }
{
    number(Field::Role, plan.code().into(), capture.code().into())
}

/// A field that is a flag.
fn flag(field: Field, plan: bool, capture: bool) -> Compared
    ensures { result ≡ flags field plan capture }
{
    number(field, u64::from(plan), u64::from(capture))
}

/// A field that is a path cost. A plan's may have more than 32 bits.
fn cost(field: Field, plan: u64, capture: u32) -> Compared
    ensures { result ≡ numbers field plan capture }
{
    number(field, plan, capture.into())
}

/// A field that is a priority.
fn priority(field: Field, plan: Priority, capture: Priority) -> Compared
    ensures { result ≡ numbers field plan capture }
{
    number(field, plan.step().into(), capture.step().into())
}

/// A field that is a Bridge Identifier.
fn bridge(field: Field, plan: BridgeId, capture: BridgeId) -> Compared
    ensures { result ≡ bridges field plan capture }
{
    Compared {
        field,
        plan: Value::Bridge(plan),
        capture: Value::Bridge(capture),
    }
}

/// The Port Identifier.
fn port(plan: PortId, capture: PortId) -> Compared
    ensures { result ≡ ports port_field plan capture }
{
    Compared {
        field: Field::Port,
        plan: Value::Port(plan),
        capture: Value::Port(capture),
    }
}
