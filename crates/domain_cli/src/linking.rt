//! A run of one end of a link between two processes.

ghost use Rattle.std.specs.Prelude.{◌≡◌, [], ℕ};
ghost use Rattle.domain_cli.specs.Links.{link_status, mistake_of, status_by};
ghost use Rattle.domain_cli.specs.Promises.{Keeps, outside};

use crate::status::Status;
use command_words::Command;
use domain_base::{Air, Draws, LinkError, Sink, Source};
use frame_script::Mistake;
use link_lines::{LinkRefusal, Slip};
use link_runs::{Breach, LinkFound, link};
use link_steps::LinkEnd;
use run_journal::Journal;
use std::alloc::Global;

// What is wrong in a line, as it is told.
fn mistake_of(slip: Slip) -> Mistake
    ensures { result ≡ mistake_of slip }
{
    Mistake {
        form: slip.form,
        word: slip.word,
        cause: slip.cause,
    }
}

// How a run ends at the line of that number, which is refused, and that is wrong in it.
fn refused(number: u64, refusal: LinkRefusal, mistake: Mistake) -> Status
    ensures { result ≡ status_by number refusal mistake }
{
    match refusal {
        LinkRefusal::Version => Status::Script(number, 1, mistake),
        LinkRefusal::Word => Status::Script(number, 2, mistake),
        LinkRefusal::Arguments => Status::Script(number, 3, mistake),
        LinkRefusal::Question => Status::Script(number, 5, mistake),
        LinkRefusal::ManyRows => Status::Limit(9),
        LinkRefusal::ManyLines => Status::Limit(1),
        LinkRefusal::LongLine => Status::Limit(2),
    }
}

// How a run ends, by how its script was read.
fn link_status(found: LinkFound) -> Status
    ensures { result ≡ link_status found }
{
    match found {
        LinkFound::Whole => Status::Done,
        LinkFound::Refused(number, refusal, slip) => refused(number, refusal, mistake_of(slip)),
        LinkFound::NoMemory => Status::NoMemory,
        LinkFound::DrawFault => Status::DrawFault,
        LinkFound::Broken(Breach::ByLink(LinkError::Failed)) => Status::LinkFault,
        LinkFound::Broken(Breach::ByLink(LinkError::NoMemory)) => Status::NoMemory,
        LinkFound::Broken(Breach::ByWrite) => Status::WriteFault,
        LinkFound::ReadFault => Status::ReadFault,
    }
}

/// Runs the script of that end on the source, with datagrams by its link of that air.
pub fn linked<S: Source, K: Sink, A: Air, D: Draws>(
    alloc: Global,
    end: LinkEnd,
    source: &mut S,
    sink: &mut K,
    air: &mut A,
    draws: &mut D,
    journal: &mut Journal,
) -> Status
    requires { journal.old.entries ≡ [] }
    ensures { (port : ℕ) → Keeps (Command.Link port end)
        (outside (S.left source.old) (S.faults source.old) (K.out sink.old) (K.faults sink.old)
        (A.told air.old) (A.faults air.old) (D.last draws.old) (D.faults draws.old))
        (outside (S.left source.new) (S.faults source.new) (K.out sink.new) (K.faults sink.new)
        (A.told air.new) (A.faults air.new) (D.last draws.new) (D.faults draws.new))
        result journal.new.entries }
{
    let found = link(alloc, end, source, sink, air, draws, journal);
    link_status(found)
}
