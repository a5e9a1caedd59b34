//! Priority vectors of the CIST and of MSTIs (802.1Q-2022, 13.9 to 13.13): how they compare, the bridge
//! priority vector, the designated priority vector of a port, and the root path priority vector that a
//! bridge makes of one that it hears.
#![tactic(auto)]

mod cist;
mod metric;
mod msti;

pub use cist::{CistBridge, CistMetric, CistPort, CistVector};
pub use metric::Metric;
pub use msti::{MstiBridge, MstiMetric, MstiPort, MstiVector};
