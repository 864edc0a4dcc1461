//! A turn: each node takes what its link has for it, and answers.

ghost use Rattle.std.specs.Prelude.{◌≡◌, ◌≤◌, ◌<◌, ◌+◌, ◌*◌, ◌^◌, ℕ, List, [], Ok, IfOk, false};
ghost use Rattle.std.specs.Prelude.{length};
ghost use Rattle.run_journal.specs.Limits.{most_octets, most_polls};
ghost use Rattle.domain_links.specs.NodeOrder.{count, node_at};
ghost use Rattle.domain_links.specs.Telling.{Tell};
ghost use Rattle.domain_world.specs.Owning.{Owns};
ghost use Rattle.script_runs.specs.Outer.{sends_for};
ghost use Rattle.script_runs.specs.Sessions.{output};
ghost use Rattle.script_runs.specs.Turning.{DeliversIn, DidTurn, IsFurther, IsLaid, TakesIn, stage};
ghost use Rattle.script_runs.specs.Written.{GoesOn, break_short};

use crate::linking::news;
use crate::session::{Session, SessionFault};
use domain_base::{Link, LinkError, NoMemory, Octets, Sink};
use domain_links::{Break, node_at, poll, send_entries};
use run_journal::{Event, Journal, MOST_OCTETS, MOST_POLLS};
use std::alloc::Global;

// Octets, once more.
fn copied(alloc: Global, octets: &[u8]) -> Result<Octets, NoMemory>
    ensures { IfOk result (λ copy. copy ≡ octets.now) }
{
    Ok(Octets(Vec::from_slice(alloc, octets)?))
}

// Lets the node at a place take octets, which is a round, writes its lines, and then sends what the
// node answers.
fn deliver<L: Link + Drop, K: Sink>(
    session: &mut Session,
    alloc: Global,
    place: usize,
    octets: &[u8],
    links: &mut Vec<L>,
    sink: &mut K,
    journal: &mut Journal,
) -> Result<(), Break>
    requires own { Owns session.old.world journal.old.entries }
    requires within { place < count session.old.world.domain }
    requires few { session.old.world.rounds + 1 < 2 ^ 64 }
    requires written { session.old.writer ≤ length journal.old.entries }
    ensures further { IsFurther 1 (stage session.old.world journal.old.entries)
        (stage session.new.world journal.new.entries) }
    ensures laid { IsLaid L.faults links.old.items links.new.items result }
    ensures delivers { DeliversIn L.told session.old.world.domain place octets.now links.old.items
        links.new.items (stage session.old.world journal.old.entries)
        (stage session.new.world journal.new.entries) result }
    ensures wrote { GoesOn (break_short result) (output (K.out sink.old) (K.faults sink.old))
        (output (K.out sink.new) (K.faults sink.new)) session.old.writer session.new.writer
        journal.old.entries journal.new.entries }
{
    let Ok(octets) = copied(alloc, octets) else {
        return Err(Break::ByLink(LinkError::NoMemory));
    };
    let to = node_at(session.world.domain(), place);
    let event = Event::Inject { to, octets };
    let from = journal.len();
    match session.event(&event, journal, sink) {
        Ok(()) => {}
        Err(SessionFault::NoMemory) => return Err(Break::ByLink(LinkError::NoMemory)),
        Err(SessionFault::WriteFault) => return Err(Break::ByWrite),
    }
    match send_entries(links, session.world.domain(), news(journal, from)) {
        Ok(()) => Ok(()),
        Err(error) => Err(Break::ByLink(error)),
    }
}

// Lets the node at a place take the next frame of its link. Answers whether there was one.
fn take_next<L: Link + Drop, K: Sink>(
    session: &mut Session,
    alloc: Global,
    place: usize,
    buf: &mut [u8],
    links: &mut Vec<L>,
    sink: &mut K,
    journal: &mut Journal,
) -> Result<bool, Break>
    requires own { Owns session.old.world journal.old.entries }
    requires within { place < count session.old.world.domain }
    requires links { length links.old.items ≡ count session.old.world.domain }
    requires few { session.old.world.rounds + 1 < 2 ^ 64 }
    requires room { length buf.old ≡ most_octets }
    requires written { session.old.writer ≤ length journal.old.entries }
    ensures further { IsFurther 1 (stage session.old.world journal.old.entries)
        (stage session.new.world journal.new.entries) }
    ensures laid { IsLaid L.faults links.old.items links.new.items result }
    ensures takes { TakesIn L.told session.old.world.domain place 1 links.old.items links.new.items
        (stage session.old.world journal.old.entries)
        (stage session.new.world journal.new.entries) result }
    ensures empty { result ≡ Ok false → (left : ℕ → List (List ℕ))
        → Tell L.told (node_at session.old.world.domain) links.old.items left
        (sends_for session.old.world.domain journal.old.entries) → left place ≡ [] }
    ensures wrote { GoesOn (break_short result) (output (K.out sink.old) (K.faults sink.old))
        (output (K.out sink.new) (K.faults sink.new)) session.old.writer session.new.writer
        journal.old.entries journal.new.entries }
{
    match poll(links, place, buf) {
        Ok(Some(size)) => {
            match deliver(session, alloc, place, &buf[..size], links, sink, journal) {
                Ok(()) => Ok(true),
                Err(error) => Err(error),
            }
        }
        Ok(None) => Ok(false),
        Err(_) => Err(Break::ByLink(LinkError::Failed)),
    }
}

// Lets the node at a place take up to `MOST_POLLS` frames of its link, until there is none.
fn take_all<L: Link + Drop, K: Sink>(
    session: &mut Session,
    alloc: Global,
    place: usize,
    links: &mut Vec<L>,
    sink: &mut K,
    journal: &mut Journal,
) -> Result<(), Break>
    requires own { Owns session.old.world journal.old.entries }
    requires within { place < count session.old.world.domain }
    requires links { length links.old.items ≡ count session.old.world.domain }
    requires few { session.old.world.rounds + most_polls < 2 ^ 64 }
    requires written { session.old.writer ≤ length journal.old.entries }
    ensures further { IsFurther most_polls (stage session.old.world journal.old.entries)
        (stage session.new.world journal.new.entries) }
    ensures laid { IsLaid L.faults links.old.items links.new.items result }
    ensures takes { TakesIn L.told session.old.world.domain place most_polls links.old.items
        links.new.items (stage session.old.world journal.old.entries)
        (stage session.new.world journal.new.entries) result }
    ensures wrote { GoesOn (break_short result) (output (K.out sink.old) (K.faults sink.old))
        (output (K.out sink.new) (K.faults sink.new)) session.old.writer session.new.writer
        journal.old.entries journal.new.entries }
{
    let mut buf = [0; MOST_OCTETS];
    for _ in 0..MOST_POLLS {
        match take_next(session, alloc, place, &mut buf, links, sink, journal) {
            Ok(true) => {}
            Ok(false) => return Ok(()),
            Err(error) => return Err(error),
        }
    }
    Ok(())
}

/// Lets each node take what its link has for it, in order, up to `MOST_POLLS` frames each.
pub(crate) fn turn<L: Link + Drop, K: Sink>(
    session: &mut Session,
    alloc: Global,
    links: &mut Vec<L>,
    sink: &mut K,
    journal: &mut Journal,
) -> Result<(), Break>
    requires own { Owns session.old.world journal.old.entries }
    requires links { length links.old.items ≡ count session.old.world.domain }
    requires few { session.old.world.rounds + most_polls * count session.old.world.domain < 2 ^ 64 }
    requires written { session.old.writer ≤ length journal.old.entries }
    ensures did { DidTurn L.told L.faults links.old.items links.new.items
        (stage session.old.world journal.old.entries)
        (stage session.new.world journal.new.entries) result }
    ensures wrote { GoesOn (break_short result) (output (K.out sink.old) (K.faults sink.old))
        (output (K.out sink.new) (K.faults sink.new)) session.old.writer session.new.writer
        journal.old.entries journal.new.entries }
{
    for place in 0..links.len() {
        match take_all(session, alloc, place, links, sink, journal) {
            Ok(()) => {}
            Err(error) => return Err(error),
        }
    }
    Ok(())
}
