//! A station, one event at a time.
#![tactic(auto)]

mod attempt;
mod group_data;
mod handing;
mod laws;
mod managed;
mod memories;
mod moving;
mod peers;
mod refusing;
mod renewing;
mod responses;
mod roaming;
mod session;
mod station;

pub use laws::{stands_as_other_keys_change, stands_as_the_network_grows};
pub use station::StationNode;
