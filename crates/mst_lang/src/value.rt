ghost use Rattle.std.specs.Prelude.{◌≡◌};
ghost use Rattle.mst_lang.specs.Forms.{is_right};
ghost use Rattle.mst_lang.specs.Values.{value_of};

use crate::arguments;
use crate::form::Argument;
use crate::line::{Fault, Kind, LanState, Power, Version};
use mst_ids::{
    ConfName, Cost, Mac, MaxAge, MaxHops, Name, PortNumber, Priority, Speed, Tree, Vid, VidSet,
};

/// What a word stands for in the place of an argument.
#[derive(Clone, Copy)]
pub(crate) enum Value {
    Name(Name),
    Mac(Mac),
    Number(PortNumber),
    Tree(Tree),
    Priority(Priority),
    Cost(Option<Cost>),
    SixteenBits(u16),
    MaxHops(MaxHops),
    MaxAge(MaxAge),
    Speed(Speed),
    ConfName(ConfName),
    Power(Power),
    Kind(Kind),
    LanState(LanState),
    Yes(bool),
    Vid(Vid),
    Vids(VidSet),
}

/// The value of a word that is an argument of this kind, or its fault.
pub(crate) fn read_value(version: Version, argument: Argument, word: &[u8]) -> Result<Value, Fault>
    ensures { result ≡ value_of version argument word.now }
{
    match argument {
        Argument::BridgeName | Argument::LanName => Ok(Value::Name(arguments::name(word)?)),
        Argument::MacAddress => Ok(Value::Mac(arguments::mac(word)?)),
        Argument::PortNumber => Ok(Value::Number(arguments::port_number(word)?)),
        Argument::TreeNumber => Ok(Value::Tree(arguments::tree(word)?)),
        Argument::BridgePriority => Ok(Value::Priority(arguments::bridge_priority(version, word)?)),
        Argument::PortPriority => Ok(Value::Priority(arguments::port_priority(version, word)?)),
        Argument::PathCost => Ok(Value::Cost(arguments::cost(word)?)),
        Argument::PortKey | Argument::SystemPriority | Argument::Revision => {
            Ok(Value::SixteenBits(arguments::sixteen_bits(word)?))
        }
        Argument::HopLimit => Ok(Value::MaxHops(arguments::max_hops(word)?)),
        Argument::AgeLimit => Ok(Value::MaxAge(arguments::max_age(word)?)),
        Argument::SpeedNumber => Ok(Value::Speed(arguments::speed(word)?)),
        Argument::ConfigurationName => Ok(Value::ConfName(arguments::conf_name(word)?)),
        Argument::OnOrOff => Ok(Value::Power(arguments::power(word)?)),
        Argument::BridgeKind => Ok(Value::Kind(arguments::kind(word)?)),
        Argument::UpOrDown => Ok(Value::LanState(arguments::lan_state(word)?)),
        Argument::YesOrNo => Ok(Value::Yes(arguments::yes_or_no(word)?)),
        Argument::OneVid => Ok(Value::Vid(arguments::vid(word)?)),
        Argument::VidList => Ok(Value::Vids(arguments::vids(word)?)),
        Argument::MemberList => Ok(Value::Vids(arguments::members(word)?)),
    }
}

/// Whether a word is in the form of an argument of this kind, in a script of this version.
pub fn is_argument(version: Version, argument: Argument, word: &[u8]) -> bool
    ensures { result ≡ is_right version argument word.now }
{
    match read_value(version, argument, word) {
        Ok(_) => true,
        Err(_) => false,
    }
}
