//! How a run of one end ended, and why one of its lines was not done.

use domain_base::LinkError;
use link_lines::{LinkRefusal, Slip};

/// Why a step was not done, or its datagram not sent.
#[derive(Clone, Copy)]
pub enum Halt {
    /// Memory ran out before anything was done.
    NoMemory,
    /// It was done, but its line could not be written. Its datagram was not sent.
    Unwritten,
    /// It was done, and its line was written, but its datagram could not be sent.
    Unsent(LinkError),
}

/// Why a line was not done wholly.
#[derive(Clone, Copy)]
pub enum Breach {
    /// A call of the air or of the link failed, or memory ran out there.
    ByLink(LinkError),
    /// The line of a step could not be written.
    ByWrite,
}

/// Why a line was not done, or not wholly.
#[derive(Clone, Copy)]
pub enum Undone {
    /// It is refused, for this cause.
    Refused(LinkRefusal),
    /// Memory ran out before anything was done.
    NoMemory,
    /// The seed could not be drawn that it asks for.
    DrawFault,
    /// What it asks for was done, of a turn a part; then that failed.
    Broken(Breach),
}

/// How a run of one end ended.
#[derive(Clone, Copy)]
pub enum LinkFound {
    /// The source was read to its end, and every line was done.
    Whole,
    /// The line of this number, from 1, is the first that is refused, for this reason, and that is
    /// what is wrong in it.
    Refused(u64, LinkRefusal, Slip),
    /// Memory ran out.
    NoMemory,
    /// The seed could not be drawn.
    DrawFault,
    /// A line was not done wholly.
    Broken(Breach),
    /// The source failed.
    ReadFault,
}
