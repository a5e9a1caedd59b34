ghost use Rattle.std.specs.Prelude.{◌≡◌, ◌<◌, ◌≤◌, length, true};
ghost use Rattle.std.specs.List.{list_all};
ghost use Rattle.std.specs.Char.{is_ascii_digit as digit};
ghost use Rattle.mst_ids.specs.Vids.{decimal_value};
ghost use Rattle.mst_lang.specs.Arguments.{number_value};
ghost use Rattle.mst_lang.specs.Arguments as forms;

use crate::line::{Fault, Kind, LanState, Power, Version};
use mst_ids::{
    ConfName, Cost, Mac, MaxAge, MaxHops, Name, PortNumber, Priority, Speed, Tree, Vid, VidSet,
    parse_mac, parse_vids,
};

/// A name of a bridge or a LAN: 1 to 16 letters, digits, `_`, `-` and `.`, the first a letter or a digit. [`Fault::E02`]
/// where the word is none. No memory is taken.
pub fn name(word: &[u8]) -> Result<Name, Fault>
    ensures { result ≡ forms.name word.now }
{
    match Name::parse(word) {
        Ok(name) => Ok(name),
        Err(_) => Err(Fault::E02),
    }
}

/// A MAC address.
pub(crate) fn mac(word: &[u8]) -> Result<Mac, Fault>
    ensures { result ≡ forms.mac word.now }
{
    match parse_mac(word) {
        Ok(mac) => Ok(mac),
        Err(_) => Err(Fault::E02),
    }
}

/// A kind of bridge.
pub(crate) fn kind(word: &[u8]) -> Result<Kind, Fault>
    ensures { result ≡ forms.kind word.now }
{
    match word {
        b"mstp" => Ok(Kind::Mstp),
        b"rstp" => Ok(Kind::Rstp),
        _ => Err(Fault::E02),
    }
}

/// Whether a bridge is on or off.
pub(crate) fn power(word: &[u8]) -> Result<Power, Fault>
    ensures { result ≡ forms.power word.now }
{
    match word {
        b"on" => Ok(Power::On),
        b"off" => Ok(Power::Off),
        _ => Err(Fault::E02),
    }
}

/// Whether a LAN is up or down.
pub(crate) fn lan_state(word: &[u8]) -> Result<LanState, Fault>
    ensures { result ≡ forms.lan_state word.now }
{
    match word {
        b"up" => Ok(LanState::Up),
        b"down" => Ok(LanState::Down),
        _ => Err(Fault::E02),
    }
}

/// `yes` or `no`.
pub(crate) fn yes_or_no(word: &[u8]) -> Result<bool, Fault>
    ensures { result ≡ forms.yes_or_no word.now }
{
    match word {
        b"yes" => Ok(true),
        b"no" => Ok(false),
        _ => Err(Fault::E02),
    }
}

/// The number of a port, 1 to 4095. [`Fault::E02`] where the word is none.
pub fn port_number(word: &[u8]) -> Result<PortNumber, Fault>
    ensures { result ≡ forms.port_number word.now }
{
    let number = parse_number(word).ok_or(Fault::E02)?;
    PortNumber::new(number).ok_or(Fault::E02)
}

/// The priority of a bridge, in steps of the version.
pub(crate) fn bridge_priority(version: Version, word: &[u8]) -> Result<Priority, Fault>
    ensures { result ≡ forms.bridge_priority version word.now }
{
    match version {
        Version::V1 => priority(1, word),
        Version::V2 => priority(4096, word),
    }
}

/// The priority of a port, in steps of the version.
pub(crate) fn port_priority(version: Version, word: &[u8]) -> Result<Priority, Fault>
    ensures { result ≡ forms.port_priority version word.now }
{
    match version {
        Version::V1 => priority(1, word),
        Version::V2 => priority(16, word),
    }
}

/// A priority that is written as a multiple of a step.
fn priority(step: u64, word: &[u8]) -> Result<Priority, Fault>
    requires { 0 < step }
    ensures { result ≡ forms.priority step word.now }
{
    let number = parse_number(word).ok_or(Fault::E02)?;
    if number % step != 0 {
        return Err(Fault::E02);
    }
    Priority::new(number / step).ok_or(Fault::E02)
}

/// A path cost, or none for the automatic one, which is written 0.
pub(crate) fn cost(word: &[u8]) -> Result<Option<Cost>, Fault>
    ensures { result ≡ forms.cost word.now }
{
    let number = parse_number(word).ok_or(Fault::E02)?;
    if number == 0 {
        return Ok(None);
    }
    match Cost::new(number) {
        Some(cost) => Ok(Some(cost)),
        None => Err(Fault::E02),
    }
}

/// A speed in kb/s.
pub(crate) fn speed(word: &[u8]) -> Result<Speed, Fault>
    ensures { result ≡ forms.speed word.now }
{
    let number = parse_number(word).ok_or(Fault::E02)?;
    Speed::new(number).ok_or(Fault::E02)
}

/// Max Hops.
pub(crate) fn max_hops(word: &[u8]) -> Result<MaxHops, Fault>
    ensures { result ≡ forms.limit word.now }
{
    let number = parse_number(word).ok_or(Fault::E02)?;
    MaxHops::new(number).ok_or(Fault::E02)
}

/// Max Age.
pub(crate) fn max_age(word: &[u8]) -> Result<MaxAge, Fault>
    ensures { result ≡ forms.limit word.now }
{
    let number = parse_number(word).ok_or(Fault::E02)?;
    MaxAge::new(number).ok_or(Fault::E02)
}

/// An aggregation key, a system priority or a revision.
pub(crate) fn sixteen_bits(word: &[u8]) -> Result<u16, Fault>
    ensures { result ≡ forms.sixteen_bits word.now }
{
    let number = parse_number(word).ok_or(Fault::E02)?;
    if number > 65535 {
        return Err(Fault::E02);
    }
    Ok(number as u16)
}

/// The name of a configuration.
pub(crate) fn conf_name(word: &[u8]) -> Result<ConfName, Fault>
    ensures { result ≡ forms.conf_name word.now }
{
    match ConfName::parse(word) {
        Ok(name) => Ok(name),
        Err(_) => Err(Fault::E02),
    }
}

/// A tree by its number, 0 to 4094; 0 is the CIST. [`Fault::E03`] where the word is none.
pub fn tree(word: &[u8]) -> Result<Tree, Fault>
    ensures { result ≡ forms.tree word.now }
{
    let number = parse_number(word).ok_or(Fault::E03)?;
    Tree::new(number).ok_or(Fault::E03)
}

/// A VLAN's identifier.
pub(crate) fn vid(word: &[u8]) -> Result<Vid, Fault>
    ensures { result ≡ forms.vid word.now }
{
    let number = parse_number(word).ok_or(Fault::E03)?;
    Vid::new(number).ok_or(Fault::E03)
}

/// A list of VIDs of 1 to 4094 and of runs of them, with commas between. [`Fault::E03`] where the word is none. No
/// memory is taken.
pub fn vids(word: &[u8]) -> Result<VidSet, Fault>
    ensures { result ≡ forms.vids word.now }
{
    match parse_vids(word) {
        Ok(vids) => Ok(vids),
        Err(_) => Err(Fault::E03),
    }
}

/// A list of VIDs, or `all` or `none` in its place.
pub(crate) fn members(word: &[u8]) -> Result<VidSet, Fault>
    ensures { result ≡ forms.members word.now }
{
    match word {
        b"all" => Ok(VidSet::all()),
        b"none" => Ok(VidSet::none()),
        _ => vids(word),
    }
}

/// A number of 1 to 10 decimal digits, or nothing where the word is none.
pub fn parse_number(word: &[u8]) -> Option<u64>
    ensures { result ≡ number_value word.now }
{
    if word.is_empty() || word.len() > 10 || !are_digits(word) {
        return None;
    }
    Some(digits(word))
}

fn are_digits(word: &[u8]) -> bool
    ensures { result ≡ list_all digit word.now }
{
    word.iter().all(|byte| byte.is_ascii_digit())
}

/// The value of decimal digits.
fn digits(word: &[u8]) -> u64
    requires few { length word.now ≤ 10 }
    requires digits { list_all digit word.now ≡ true }
    ensures { result ≡ decimal_value word.now }
{
    let mut value = 0;
    for byte in word {
        value = value * 10 + u64::from(byte - b'0');
    }
    value
}
