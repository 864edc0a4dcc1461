//! Why a script is read no further.

use domain_base::LinkError;
use frame_script::{Mistake, Refusal};

/// Why a line was not done, or not wholly.
#[derive(Clone, Copy)]
pub enum Undone {
    /// It is not taken, for this cause.
    Refused(Refusal),
    /// Memory ran out before anything was done.
    NoMemory,
    /// The seed could not be drawn that it asks for.
    DrawFault,
    /// What it asks for was done, of a turn a part; then the air or a link failed, or memory ran
    /// out for a frame to be sent or taken.
    Broken(LinkError),
    /// What it asks for was run, of a turn a part, but the lines of the last round could not be
    /// written, and none of its frames was sent.
    Unwritten,
}

/// Why a script is read no further.
#[derive(Clone, Copy)]
pub enum Stop {
    /// The line of this number, from 1, is the first that is not taken, for this reason, and that is
    /// what is wrong in it.
    Refused(u64, Refusal, Mistake),
    /// Memory ran out.
    NoMemory,
    /// The seed could not be drawn.
    DrawFault,
    /// The air or a link failed, or memory ran out there, behind what the last line asked for, of a
    /// turn behind a part.
    Broken(LinkError),
    /// The lines of the round that was run last could not be written, which the last line asked for,
    /// or a turn. None of its frames was sent.
    Unwritten,
}

/// How the reading of a script ended.
#[derive(Clone, Copy)]
pub enum Found {
    /// The source was read to its end, and every line was taken.
    Whole,
    /// It was read no further.
    Stopped(Stop),
    /// The source was read to its end, and every line was taken, but the script may not end there,
    /// for this cause, which stands at the line of this number, from 1, behind the last one.
    Unended(u64, Refusal),
    /// The source failed.
    ReadFault,
}
