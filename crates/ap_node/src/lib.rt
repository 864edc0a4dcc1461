//! An access point, one event at a time.
#![tactic(auto)]

mod access_point;
mod association;
mod boxed;
mod counting;
mod drawing;
mod expiring;
mod giving;
mod laws;
mod newest;
mod places;
mod protected;
mod putting;
mod ready;
mod renewal;
mod retrying;
mod revoking;
mod sending;
mod station;
mod stations;
mod transitions;

pub use access_point::ApNode;
pub use laws::{stands_as_keys_change, stands_as_the_network_grows};
