//! A station's part of the four-way handshake and of the group key handshake with one access point
//! (IEEE Std 802.11-2020, 12.7.6 and 12.7.7).
#![tactic(auto)]

mod answers;
mod attempt;
mod base;
mod g1;
mod key_data;
mod m3;
mod session;
mod supplicant;

pub use supplicant::{StaStart, Supplicant};
