//! Uses of the crates below, as a caller writes them. Each is a short function whose contract says
//! what the caller gets.
#![tactic(auto)]

mod access_point;
#[cfg(test)]
mod handshake;
mod management;
mod payload;
mod replay;
mod station;
#[cfg(test)]
mod tests;
mod two_threads;

pub use access_point::{Client, Served, serve};
pub use management::open_management;
pub use payload::carry;
pub use replay::{Replayed, run_script};
pub use station::{Joined, Station, join};
pub use two_threads::{Looks, side_by_side};
