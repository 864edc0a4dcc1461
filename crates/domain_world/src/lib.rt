//! A domain of access points and stations, journaled: one event at a time, or a round of events at
//! access points side by side.
#![tactic(auto)]

mod by_ap;
mod caching;
mod changing;
mod gate;
mod handing;
mod held;
mod journaling;
mod nodes;
mod ordering;
mod part;
mod shared;
mod working;
mod world;

pub use gate::{Gate, Unbarred};
pub use world::World;
