//! An access point's part of the four-way handshake and of the group key handshake with one
//! station. It takes no memory.
#![tactic(auto)]

mod agreement;
mod attempt;
mod authenticator;
mod base;
mod counters;
mod m2;
mod session;

pub use authenticator::{Again, ApStart, Authenticator, Retried};
