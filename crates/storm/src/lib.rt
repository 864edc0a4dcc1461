//! Random domains and events: a storm is made from one number, and each of its events from the
//! numbers drawn next and from the frames that were sent so far.
#![tactic(auto)]

mod events;
mod generator;
mod header;
mod seen;
mod state;

pub use state::{EVENTS, Storm};
