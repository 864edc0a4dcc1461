//! What the network tells of an entry beside its line: laws of lines and runs.
#![tactic(auto)]

mod laws;

pub use laws::{entries_are_completed, entries_have_lines};
