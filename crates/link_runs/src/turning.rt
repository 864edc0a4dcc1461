//! A turn: the end takes what its link has for it, and answers.

ghost use Rattle.std.specs.Prelude.{◌≡◌, ℕ, List, [], Ok, IfOk, None, Some, false, length};
ghost use Rattle.run_journal.specs.Limits.{most_octets, most_polls};
ghost use Rattle.link_lines.specs.declared.draft.LinkHeader.{LinkHeader as AnyHeader};
ghost use Rattle.link_runs.specs.Outer.{tale};
ghost use Rattle.link_runs.specs.Stepping.{GoesOut, IsAfter, IsHurt, Steps, Takes, asked_in};
ghost use Rattle.link_runs.specs.Stepping.{breach_hurt, breach_of, breach_short, halt_hurt};
ghost use Rattle.link_runs.specs.Stepping.{halt_short};
ghost use Rattle.link_runs.specs.Told.{Note, comes_to};

use crate::found::{Breach, Halt};
use crate::steps::{Running, step};
use domain_base::{Link, LinkError, NoMemory, Octets, Sink};
use link_steps::{LinkEnd, LinkEvent};
use run_journal::{Journal, MOST_OCTETS, MOST_POLLS};
use std::alloc::Global;

// That octets come to that end.
fn coming(end: LinkEnd, alloc: Global, octets: &[u8]) -> Result<LinkEvent, NoMemory>
    ensures { IfOk result (λ e. e ≡ comes_to end octets.now) }
{
    let octets = Octets(Vec::from_slice(alloc, octets)?);
    match end {
        LinkEnd::Holder => Ok(LinkEvent::ToHolder(octets)),
        LinkEnd::Asker => Ok(LinkEvent::ToAsker(octets)),
    }
}

// Lets octets that were polled come to the end.
fn deliver<L: Link + Drop, K: Sink>(
    running: &mut Running<L>,
    end: LinkEnd,
    alloc: Global,
    octets: &[u8],
    sink: &mut K,
    journal: &mut Journal,
) -> Result<(), Halt>
    requires one { length running.old.ends.holders.ids ≡ 1 }
    ensures one { length running.new.ends.holders.ids ≡ 1 }
    ensures steps { Steps L.told end None (comes_to end octets.now) running.old running.new
        journal.old.entries journal.new.entries result }
    ensures wrote { GoesOut (halt_short result) (K.out sink.old) (K.out sink.new)
        (K.faults sink.old) (K.faults sink.new) journal.old.entries journal.new.entries }
    ensures hurt { IsHurt (halt_hurt result) (L.faults running.old.link)
        (L.faults running.new.link) }
{
    let Ok(event) = coming(end, alloc, octets) else {
        return Err(Halt::NoMemory);
    };
    step(running, end, alloc, event, None, sink, journal)
}

// Lets the end take the next datagram of its link. Answers whether there was one.
fn take_next<L: Link + Drop, K: Sink>(
    running: &mut Running<L>,
    end: LinkEnd,
    alloc: Global,
    buf: &mut [u8],
    sink: &mut K,
    journal: &mut Journal,
) -> Result<bool, Breach>
    requires one { length running.old.ends.holders.ids ≡ 1 }
    requires room { length buf.old ≡ most_octets }
    ensures one { length running.new.ends.holders.ids ≡ 1 }
    ensures room { length buf.new ≡ most_octets }
    ensures takes { (h : AnyHeader) (notes : List Note)
        → IsAfter h running.old notes journal.old.entries
        → Takes L.told end h 1 running.old running.new notes journal.new.entries result }
    ensures empty { result ≡ Ok false → (notes : List Note) (left : List (List ℕ))
        → L.told running.old.link ≡ Some (tale end notes left) → left ≡ [] }
    ensures asked { asked_in running.new ≡ asked_in running.old }
    ensures wrote { GoesOut (breach_short result) (K.out sink.old) (K.out sink.new)
        (K.faults sink.old) (K.faults sink.new) journal.old.entries journal.new.entries }
    ensures hurt { IsHurt (breach_hurt result) (L.faults running.old.link)
        (L.faults running.new.link) }
{
    match running.link.poll(buf) {
        Ok(Some(size)) => match deliver(running, end, alloc, &buf[..size], sink, journal) {
            Ok(()) => Ok(true),
            Err(halt) => Err(breach_of(halt)),
        },
        Ok(None) => Ok(false),
        Err(_) => Err(Breach::ByLink(LinkError::Failed)),
    }
}

// Why a datagram was not taken, or not answered.
fn breach_of(halt: Halt) -> Breach
    ensures { result ≡ breach_of halt }
{
    match halt {
        Halt::NoMemory => Breach::ByLink(LinkError::NoMemory),
        Halt::Unwritten => Breach::ByWrite,
        Halt::Unsent(error) => Breach::ByLink(error),
    }
}

/// Lets the end take up to `MOST_POLLS` datagrams of its link, until there is none.
pub(crate) fn turn<L: Link + Drop, K: Sink>(
    running: &mut Running<L>,
    end: LinkEnd,
    alloc: Global,
    sink: &mut K,
    journal: &mut Journal,
) -> Result<(), Breach>
    requires one { length running.old.ends.holders.ids ≡ 1 }
    ensures one { length running.new.ends.holders.ids ≡ 1 }
    ensures takes { (h : AnyHeader) (notes : List Note)
        → IsAfter h running.old notes journal.old.entries
        → Takes L.told end h most_polls running.old running.new notes journal.new.entries result }
    ensures asked { asked_in running.new ≡ asked_in running.old }
    ensures wrote { GoesOut (breach_short result) (K.out sink.old) (K.out sink.new)
        (K.faults sink.old) (K.faults sink.new) journal.old.entries journal.new.entries }
    ensures hurt { IsHurt (breach_hurt result) (L.faults running.old.link)
        (L.faults running.new.link) }
{
    let mut buf = [0; MOST_OCTETS];
    for _ in 0..MOST_POLLS {
        match take_next(running, end, alloc, &mut buf, sink, journal) {
            Ok(true) => {}
            Ok(false) => return Ok(()),
            Err(breach) => return Err(breach),
        }
    }
    Ok(())
}
