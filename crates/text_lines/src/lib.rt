//! Texts by lines: octets cut at line feeds within limits, as they come, and a source read line by
//! line, whatever the lines tell.
#![tactic(auto)]

mod cutter;
mod limits;
mod reader;

pub use cutter::{LineCutter, line_end, without_return};
pub use limits::{Limits, TooLong};
pub use reader::{LineReader, Next};
