//! What an access point has of fast transitions with a station (IEEE Std 802.11-2020, 13.7.1 and
//! 13.8).
#![tactic(auto)]

mod moves;
mod requests;
mod taken;

pub use moves::Moves;
pub use requests::{take_auth, take_reassoc};
pub use taken::Taken;
