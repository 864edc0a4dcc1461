//! Runs the script of one end of a link between two processes.
#![tactic(auto)]

mod found;
mod reading;
mod rooms;
mod state;
mod steps;
mod turning;

pub use found::{Breach, LinkFound};
pub use reading::link;
