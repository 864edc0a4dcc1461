//! Packet numbers under a temporal key (IEEE Std 802.11-2020, 12.5.3): a sender uses each number
//! once, upward, and a receiver takes only numbers above the one that it keeps.
#![tactic(auto)]

mod receiving;
mod sending;

pub use receiving::{RecvCounters, Replayed};
pub use sending::{LAST_NUMBER, SendCounter, Spent};
