//! The report of a run: the lines of its journal, and their summary.
//!
//! A report has a line for each printed act, in the order of the journal, and three lines of
//! summary behind them. Each line is of words with a space between them, and ends with a line feed.
//! Nothing of it takes memory, but for the buffer of a [`ReportWriter`], which is made once.
#![tactic(auto)]

mod layout;
mod line;
mod link_line;
mod outcome;
mod pieces;
mod report;
mod summary;
mod words;
mod writer;

pub use layout::put_words;
pub use line::{LINE_ROOM, line_fits, line_of};
pub use outcome::{OUTCOME_ROOM, put_outcome};
pub use pieces::{NUMBER_ROOM, put_decimal, put_hex, put_payload};
pub use report::write_lines;
pub use summary::{SUMMARY_ROOM, summary_of};
pub use words::{
    Word, group_word, kind_word, message_word, part_word, pull_word, put_word, revoke_word,
    start_word, why_word,
};
pub use writer::ReportWriter;
