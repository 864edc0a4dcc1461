//! How a run ends, by how its script was read.

ghost use Rattle.std.specs.Prelude.{◌≡◌};
ghost use Rattle.script_lines.specs.Refusals.{answer_of, fault_of};
ghost use Rattle.domain_cli.specs.Story.{status_by, status_of, unended};

use crate::status::Status;
use domain_base::LinkError;
use frame_script::{Cause, Form, LineFault, Mistake, Refusal};
use script_runs::{Found, Stop};

// How a run ends at the line of that number, which is refused, and that is wrong in it.
fn refused(number: u64, refusal: Refusal, mistake: Mistake) -> Status
    ensures { result ≡ status_by number mistake (answer_of (fault_of refusal)) }
{
    match LineFault::from(refusal) {
        LineFault::Script(reason) => Status::Script(number, reason, mistake),
        LineFault::Limit(limit) => Status::Limit(limit),
        LineFault::NoMemory => Status::NoMemory,
    }
}

// What is wrong in the line behind the last one of a script that may not end there.
fn unended() -> Mistake
    ensures { result ≡ unended }
{
    Mistake {
        form: Form::End,
        word: 1,
        cause: Cause::Plain,
    }
}

/// How a run ends whose text was all written.
pub fn status(found: Found) -> Status
    ensures { result ≡ status_of found }
{
    match found {
        Found::Whole => Status::Done,
        Found::Stopped(Stop::Refused(number, refusal, mistake)) => {
            refused(number, refusal, mistake)
        }
        Found::Stopped(Stop::NoMemory) => Status::NoMemory,
        Found::Stopped(Stop::DrawFault) => Status::DrawFault,
        Found::Stopped(Stop::Broken(LinkError::Failed)) => Status::LinkFault,
        Found::Stopped(Stop::Broken(LinkError::NoMemory)) => Status::NoMemory,
        Found::Stopped(Stop::Unwritten) => Status::WriteFault,
        Found::Unended(number, refusal) => refused(number, refusal, unended()),
        Found::ReadFault => Status::ReadFault,
    }
}
