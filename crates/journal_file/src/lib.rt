//! The file of a journal: the lines of a script, and of the entries of its run.
//!
//! The file holds keys: those that nodes derived, drew, installed and used stand in its lines, and
//! the script's own. A report (`journal_report`) holds none.
#![tactic(auto)]

mod counting;
mod entries;
mod file;
mod head;

pub use file::{FileFault, write_file};
