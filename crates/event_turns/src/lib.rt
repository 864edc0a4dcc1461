//! At which nodes the events of a round are, in order.
#![tactic(auto)]

mod laws;
mod turns;

pub use laws::turns_are_places;
pub use turns::{Turn, turns_in};
