//! Acts of nodes and entries compared.
#![tactic(auto)]

mod acts;
mod entries;
mod fields;
mod keys;

pub use acts::is_act;
pub use entries::{Stamp, is_entry};
