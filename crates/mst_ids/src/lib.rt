//! Identifiers, numbers and names of a bridged network, each of fixed size, and their texts.
#![tactic(auto)]

mod conf_name;
mod cost;
mod identifier;
mod line;
mod listed;
mod mac;
mod name;
mod number;
mod record;
mod text;
mod vid_list;
mod vid_set;

pub use conf_name::ConfName;
pub use cost::{Cost, auto_cost};
pub use identifier::{BridgeId, PortId};
pub use line::{push_end, push_line, push_word, push_words};
pub use listed::{Word, push_comma_list, push_listed};
pub use mac::{Mac, parse_mac};
pub use name::{Name, PortName};
pub use number::{MaxAge, MaxHops, PortNumber, Priority, Speed, Tree, Vid};
pub use record::{BridgeNo, LanNo, PortNo};
pub use text::{BadText, padded, push_bytes, push_decimal, push_hex_four};
pub use vid_list::parse_vids;
pub use vid_set::VidSet;
