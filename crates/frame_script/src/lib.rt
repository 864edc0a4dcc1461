//! The lines of a script, read one by one.
//!
//! A script has a header, the nodes and the events of a run, a line for each; `ScriptReader` says
//! of each line what it means after the lines before it, or why it is refused. A script is one of a
//! replay, in which frames that were sent come by its lines, or of a live run, in which nodes take
//! the frames of their links.
#![tactic(auto)]

mod body;
mod forms;
mod heads;
mod lines;
mod live;
mod mistakes;
mod reader;
mod seen;
mod stages;

pub use mistakes::Mistake;
pub use reader::{Mode, ScriptReader};
pub use script_lines::{Header, HeaderLine, LineFault, Refusal, Step, Untaken};
pub use script_words::{Cause, Form, Kind};
