//! The acts of an event that wait to be journaled, and the memory for them, taken before anything
//! is done.
#![tactic(auto)]

mod covered;
mod idling;
mod outbox;
mod room;
mod send_room;
mod taking;

pub use covered::append;
pub use idling::{idle, stay_idle};
pub use outbox::Outbox;
pub use room::{
    Between, Room, add_derived, add_finished, add_group_key, add_installed, add_replaced, template,
};
pub use send_room::{Buffer, SendRoom};
pub use taking::{settle, took};
