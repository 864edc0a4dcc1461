//! A step of an end that has begun.

ghost use Rattle.std.specs.Prelude.{◌≡◌, ◌≢◌, ◌≤◌, ◌<◌, ◌+◌, ◌^◌, ◌∷◌, ◌++◌, [], length, take, IfOk, OnOk, OnErr, Some};
ghost use Rattle.std.specs.Io.KnownBytes.{Appends};
ghost use Rattle.domain_base.specs.Causes.{AppendsPart, HasCause, HasLinkCause};
ghost use Rattle.domain_base.specs.Told.{LinkStory};
ghost use Rattle.run_journal.specs.Report.{answer_line};
ghost use Rattle.link_steps.specs.Ends.{node_of};
ghost use Rattle.holder_link.specs.Acts.{IsFormed};
ghost use Rattle.holder_link.specs.Between.{state_of_ends};
ghost use Rattle.link_runs.specs.Outer.{sent_to};
ghost use Rattle.link_runs.specs.Stepping.{GoesOut, Happens, IsHurt, StaysTold, Steps, entry_at};
ghost use Rattle.link_runs.specs.Stepping.{halt_hurt, halt_short};

use crate::found::Halt;
use crate::rooms::StepRoom;
use domain_base::{Failed, Link, LinkError, Mac, NoMemory, Node, Sink, write_all};
use holder_link::{Ends, LONGEST};
use journal_report::{LINE_ROOM, line_of};
use link_steps::{BoxedStep, LinkEnd, LinkEvent};
use run_journal::{Act, Entry, Journal};
use std::alloc::Global;

/// An end that has begun: both ends as it knows them, and its link.
#[derive(Drop)]
pub struct Running<L: Drop> {
    /// What it has: the end that asks, or the one that has a key holder. The other one stays as it
    /// was at first.
    pub ends: Ends,
    /// Its link.
    pub link: L,
}

// What happened, and how many octets are sent.
#[derive(Drop)]
struct Happened {
    step: BoxedStep,
    size: usize,
}

// Lets an event happen, in memory that is taken before. What is sent stands at the front of `out`.
fn happen(
    ends: &mut Ends,
    alloc: Global,
    event: LinkEvent,
    out: &mut [u8; 110],
) -> Result<Happened, NoMemory>
    requires one { length ends.old.holders.ids ≡ 1 }
    requires formed { IsFormed event ends.old.asker }
    ensures did { IfOk result (λ h. Happens (state_of_ends ends.old) event h.step
        (state_of_ends ends.new)) }
    ensures one { length ends.new.holders.ids ≡ 1 }
    ensures sent { IfOk result (λ h. h.step.sent ≡ take h.size out.new) }
    ensures within { IfOk result (λ h. h.size ≤ 110) }
    ensures err { OnErr result (state_of_ends ends.new ≡ state_of_ends ends.old) }
{
    let room = StepRoom::of(alloc)?;
    let acted = ends.act(&event, out)?;
    let step = room.fill(event, &out[..acted.end], acted.answer);
    Ok(Happened {
        step,
        size: acted.end,
    })
}

// The round of the next step: each is a round by itself. Makes room for its entry.
fn next_round(journal: &mut Journal) -> Result<u64, NoMemory>
    ensures entries { journal.new.entries ≡ journal.old.entries }
    ensures room { OnOk result (0 < journal.new.spare) }
    ensures round { IfOk result (λ round. round ≡ length journal.old.entries + 1) }
{
    journal.reserve(1)?;
    match journal.len() as u64 {
        u64::MAX => Err(NoMemory),
        before => Ok(before + 1),
    }
}

// Writes the line of a step at that end, and journals it, whether or not it could be written.
fn note<K: Sink>(
    round: u64,
    end: LinkEnd,
    sta: Option<Mac>,
    step: BoxedStep,
    sink: &mut K,
    journal: &mut Journal,
) -> Result<(), Failed>
    requires room { 0 < journal.old.spare }
    requires round { round ≡ length journal.old.entries + 1 }
    ensures journal { journal.new.entries
        ≡ entry_at (length journal.old.entries) end sta step ∷ journal.old.entries }
    ensures ok { OnOk result (Appends (K.out sink.old) (K.out sink.new)
        (answer_line (node_of end) sta (length step.sent) step.answer)) }
    ensures err { OnErr result (AppendsPart (K.out sink.old) (K.out sink.new)
        (answer_line (node_of end) sta (length step.sent) step.answer)) }
    ensures cause { HasCause (K.faults sink.old) (K.faults sink.new) result }
    ensures unfailed { OnOk result (K.faults sink.new ≡ K.faults sink.old) }
{
    let entry = Entry {
        round,
        node: end.node(),
        number: 0,
        act: Act::Link { sta, step },
    };
    let mut text = [0; LINE_ROOM];
    let count = line_of(&entry, &mut text);
    let written = write_all(sink, &text[..count]);
    journal.add(entry);
    written
}

// Sends octets to a node, where there are any.
fn send<L: Link>(link: &mut L, to: Node, octets: &[u8]) -> Result<(), LinkError>
    ensures sent { OnOk result ((story : LinkStory) → L.told link.old ≡ Some story
        → L.told link.new ≡ Some (record story { sent = story.sent ++ sent_to to octets.now })) }
    ensures unsent { OnErr result (StaysTold (L.told link.old) (L.told link.new)) }
    ensures some { OnErr result (octets.now ≢ []) }
    ensures cause { HasLinkCause (L.faults link.old) (L.faults link.new) result }
    ensures unfailed { OnOk result (L.faults link.new ≡ L.faults link.old) }
{
    if octets.is_empty() {
        return Ok(());
    }
    link.send(to, octets)
}

/// One step of an end: an event happens there, its entry is journaled, its line is written, and its
/// datagram is sent, where it has one. Where memory runs out nothing happens.
pub(crate) fn step<L: Link + Drop, K: Sink>(
    running: &mut Running<L>,
    end: LinkEnd,
    alloc: Global,
    event: LinkEvent,
    sta: Option<Mac>,
    sink: &mut K,
    journal: &mut Journal,
) -> Result<(), Halt>
    requires one { length running.old.ends.holders.ids ≡ 1 }
    requires formed { IsFormed event running.old.ends.asker }
    ensures one { length running.new.ends.holders.ids ≡ 1 }
    ensures steps { Steps L.told end sta event running.old running.new journal.old.entries
        journal.new.entries result }
    ensures wrote { GoesOut (halt_short result) (K.out sink.old) (K.out sink.new)
        (K.faults sink.old) (K.faults sink.new) journal.old.entries journal.new.entries }
    ensures hurt { IsHurt (halt_hurt result) (L.faults running.old.link)
        (L.faults running.new.link) }
{
    let Ok(round) = next_round(journal) else {
        return Err(Halt::NoMemory);
    };
    let mut out = [0; LONGEST];
    let Ok(happened) = happen(&mut running.ends, alloc, event, &mut out) else {
        return Err(Halt::NoMemory);
    };
    let Happened { step, size } = happened;
    let Ok(()) = note(round, end, sta, step, sink, journal) else {
        return Err(Halt::Unwritten);
    };
    match send(&mut running.link, end.other().node(), &out[..size]) {
        Ok(()) => Ok(()),
        Err(error) => Err(Halt::Unsent(error)),
    }
}
