//! Group keys: those of an access point, and those that a station keeps.
#![tactic(auto)]

mod keys;
mod laws;
mod memory;
mod news;

pub use keys::{GroupKey, GroupKeys, RekeyPending};
pub use laws::{all_keys_stand, keys_stand, memory_stands};
pub use memory::{Given, GroupMemory};
pub use news::{IgtkNews, News};
