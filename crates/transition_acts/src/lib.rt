//! The acts of the frames of a fast transition, and the memory for them, taken before anything is
//! done.
#![tactic(auto)]

mod covering;
mod looking;
mod room;
mod sending;
mod sides;
mod taken;
mod turning;

pub use room::TransitionRoom;
pub use sending::TransitionSend;
