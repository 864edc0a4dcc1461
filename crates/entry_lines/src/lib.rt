//! The lines of entries in the file of a journal: written, and read back.
//!
//! The file holds keys: those that nodes derived, drew, installed and used stand in its lines. A
//! report (`journal_report`) holds none.
#![tactic(auto)]

mod acts;
mod fields;
mod fitting;
mod laws;
mod names;
mod outcomes;
mod reading;
mod room;
mod splitting;
mod values;
mod words;
mod writing;

pub use fitting::fits;
pub use laws::written_lines_read_back;
pub use reading::read_entry;
pub use room::{ENTRY_ROOM, entry_room};
pub use writing::write_entry;
