//! Key holders that the workers of all access points share. No call waits for another.
#![tactic(auto)]

mod bound;
mod cached_bound;
mod history;
mod holders;
mod row_table;
mod view;
mod words;

pub use bound::Bound;
pub use cached_bound::CachedBound;
pub use history::HolderEvent;
pub use holders::{HolderPass, SharedHolders};
pub use view::{Load, View};
