//! The key holders of a mobility domain: what they keep, what any of them owe, the plain ones, and a
//! cache of the keys that they derive.
#![tactic(auto)]

mod holder_rows;
mod holders;
mod list_holders;
mod r1_cache;
mod rows;

pub use holders::Holders;
pub use list_holders::ListHolders;
pub use r1_cache::{CacheAnswer, R1Cache, R1Pair};
pub use rows::{HeldRow, HolderRow, ROWS};
