//! The lines of a script, each by itself: what one of the header says, one that lists a node, or
//! one that asks for an event, and why it is refused.
#![tactic(auto)]

mod events;
mod header;
mod listed;
mod nodes;
mod refusal;
mod secrets;
mod step;

pub use events::{Asked, event_line, part_line, size_of};
pub use header::{Due, Header, HeaderLine, Taken, blank, take_header};
pub use nodes::{
    ap_line, is_of_network, is_second, is_used, protection_line, renewal_line, sta_line,
};
pub use refusal::{LineFault, Refusal, Untaken};
pub use step::Step;
