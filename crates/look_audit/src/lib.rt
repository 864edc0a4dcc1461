//! Whether key holders answered rightly, by the entries of access points.
#![tactic(auto)]

mod keys;
mod laws;
mod looks;
mod rows;

pub use laws::holders_alone_tell;
pub use looks::{Look, holder_of, is_held_right};
