//! What a line does.

ghost use Rattle.std.specs.Prelude.{◌≡◌, ◌≤◌, ◌<◌, ◌+◌, ◌^◌, [], OnOk, OnErr, IfOk, IfErr, Err};
ghost use Rattle.std.specs.Prelude.{Some, None, false, length, true};
ghost use Rattle.domain_base.specs.Causes.{Rose};
ghost use Rattle.holder_link.specs.Between.{state_of_ends};
ghost use Rattle.link_lines.specs.Drafts.{is_whole};
ghost use Rattle.link_lines.specs.declared.draft.LinkDue.TheVariants as due;
ghost use Rattle.link_runs.specs.Standing.{AreHurt, Begins, IsBegun, IsDrained, IsEvent};
ghost use Rattle.link_runs.specs.Standing.{IsSeeded, IsUnbegun, LeavesLine, Outer, Stands};
ghost use Rattle.link_runs.specs.Standing.{StepsFor, TurnsFor, asked_of, begun_faults, faults_of};
ghost use Rattle.link_runs.specs.Standing.{outer, undone_by, undone_hurt, undone_short};
ghost use Rattle.link_runs.specs.Standing.{undone_undrawn};
ghost use Rattle.link_runs.specs.Stepping.{GoesOut, IsHurt};
ghost use Rattle.link_runs.specs.Told.{Told, both_of, nothing_told};

use crate::found::{Breach, Halt, Undone};
use crate::steps::{Running, step};
use crate::turning::turn;
use domain_base::{Air, Draws, Link, LinkError, NoMemory, Octets, Sink};
use holder_link::{Asker, Ends, Server};
use key_holders::ListHolders;
use link_lines::{LinkHeader, LinkReader, LinkSaid, event_of, revoked_of};
use link_steps::LinkEnd;
use run_journal::Journal;
use std::alloc::Global;

/// Where in the script of an end the reading is: what its lines have said, and from the end of the
/// header on the end itself.
#[derive(Drop)]
pub struct LinkState<L: Drop> {
    /// What the lines so far have said.
    pub reader: LinkReader,
    /// The end. None before the header is whole.
    pub running: Option<Running<L>>,
}

// Both ends as they begin: no question was asked, and the R0 key holder has no row.
fn begun(alloc: Global, header: &LinkHeader) -> Result<Ends, NoMemory>
    ensures ends { IfOk result (λ e. state_of_ends e ≡ both_of header.now []) }
    ensures one { IfOk result (λ e. length e.holders.ids ≡ 1) }
    ensures none { IfOk result (λ e. e.asker.asked ≡ 0) }
{
    let id = Octets(Vec::from_slice(alloc, header.r0kh_id.as_slice())?);
    let mut ids = Vec::new(alloc);
    ids.push(id)?;
    Ok(Ends {
        asker: Asker::new(&header.kck, &header.kek),
        server: Server::new(&header.kck, &header.kek),
        holders: ListHolders::new(alloc, ids)?,
    })
}

// Draws the seed that a line asks for.
fn draw<D: Draws>(reader: &mut LinkReader, draws: &mut D) -> Result<(), Undone>
    requires due { reader.old.due ≡ due.Seed }
    ensures end { reader.new.end ≡ reader.old.end }
    ensures drawn { OnOk result (IsSeeded reader.old reader.new (D.last draws.new)) }
    ensures same { OnErr result (reader.new ≡ reader.old) }
    ensures kept { OnErr result (D.last draws.new ≡ D.last draws.old) }
    ensures fault { OnErr result (result ≡ Err Undone.DrawFault) }
    ensures cause { OnErr result (Rose (D.faults draws.old) (D.faults draws.new)) }
    ensures unfailed { OnOk result (D.faults draws.new ≡ D.faults draws.old) }
{
    match draws.seed() {
        Ok(seed) => {
            reader.drawn(seed);
            Ok(())
        }
        Err(_) => Err(Undone::DrawFault),
    }
}

// Begins the end with that header, and attaches its link.
fn begin<A: Air>(
    alloc: Global,
    end: LinkEnd,
    header: &LinkHeader,
    air: &mut A,
) -> Result<Running<A::L>, Undone>
    ensures began { IfOk result (λ r. Begins A.L.told end header.now r (A.told air.old)
        (A.told air.new)) }
    ensures same { OnErr result (A.told air.new ≡ A.told air.old) }
    ensures error { IfErr result IsUnbegun }
    ensures hurt { AreHurt (undone_hurt result) (A.faults air.old) (A.faults air.new) 0
        (begun_faults A.L.faults result) }
{
    let Ok(ends) = begun(alloc, header) else {
        return Err(Undone::NoMemory);
    };
    match air.attach(end.node()) {
        Ok(link) => Ok(Running { ends, link }),
        Err(_) => Err(Undone::Broken(Breach::ByLink(LinkError::Failed))),
    }
}

// Why a line that asks for an event was not done wholly.
fn undone_by(halt: Halt) -> Undone
    ensures { result ≡ undone_by halt }
{
    match halt {
        Halt::NoMemory => Undone::NoMemory,
        Halt::Unwritten => Undone::Broken(Breach::ByWrite),
        Halt::Unsent(error) => Undone::Broken(Breach::ByLink(error)),
    }
}

impl<L: Link + Drop> LinkState<L> {
    /// Before the first line.
    pub fn start(end: LinkEnd) -> Self
        ensures begun { IsBegun result.reader.due result.running }
        ensures none { asked_of result.running ≡ 0 }
        ensures stands { (o : Outer) → Stands L.told o o result [] (nothing_told end) }
        ensures unhurt { faults_of L.faults result.running ≡ 0 }
    {
        LinkState {
            reader: LinkReader::start(end),
            running: None,
        }
    }

    /// How many questions were asked.
    pub fn asked(&self) -> u64
        ensures { result ≡ asked_of self.now.running }
    {
        match &self.running {
            Some(running) => running.ends.asker.asked(),
            None => 0,
        }
    }
}

// Begins the end, with the last line of its header.
fn start_end<A: Air>(state: &mut LinkState<A::L>, alloc: Global, air: &mut A) -> Result<(), Undone>
    ensures reader { state.new.reader ≡ state.old.reader }
    ensures began { OnOk result ((r : Running A.L) × (state.new.running ≡ Some r)
        × Begins A.L.told state.old.reader.end state.old.reader.header r (A.told air.old)
        (A.told air.new)) }
    ensures same { OnErr result (A.told air.new ≡ A.told air.old) }
    ensures running { OnErr result (state.new.running ≡ state.old.running) }
    ensures error { IfErr result IsUnbegun }
    ensures hurt { state.old.running ≡ None → AreHurt (undone_hurt result) (A.faults air.old)
        (A.faults air.new) 0 (faults_of A.L.faults state.new.running) }
{
    match begin(alloc, state.reader.end(), state.reader.header(), air) {
        Ok(running) => {
            state.running = Some(running);
            Ok(())
        }
        Err(undone) => Err(undone),
    }
}

// Lets the event happen that a line asks for.
fn run_event<L: Link + Drop, K: Sink>(
    state: &mut LinkState<L>,
    alloc: Global,
    asked: u64,
    said: LinkSaid,
    sink: &mut K,
    journal: &mut Journal,
) -> Result<(), Undone>
    requires begun { IsBegun state.old.reader.due state.old.running }
    requires whole { is_whole state.old.reader.due ≡ true }
    requires asks { IsEvent said }
    requires few { asked_of state.old.running + 1 < 2 ^ 64 }
    ensures reader { state.new.reader ≡ state.old.reader }
    ensures begun { IsBegun state.new.reader.due state.new.running }
    ensures few { asked_of state.new.running ≤ asked_of state.old.running + 1 }
    ensures steps { StepsFor L.told state.old state.new asked said journal.old.entries
        journal.new.entries result }
    ensures wrote { GoesOut (undone_short result) (K.out sink.old) (K.out sink.new)
        (K.faults sink.old) (K.faults sink.new) journal.old.entries journal.new.entries }
    ensures hurt { IsHurt (undone_hurt result) (faults_of L.faults state.old.running)
        (faults_of L.faults state.new.running) }
    ensures drawn { undone_undrawn result ≡ false }
{
    let end = state.reader.end();
    let event = match event_of(alloc, state.reader.header(), asked, said) {
        Ok(Some(event)) => event,
        Ok(None) => unreachable!(),
        Err(_) => return Err(Undone::NoMemory),
    };
    match &mut state.running {
        Some(running) => {
            match step(running, end, alloc, event, revoked_of(said), sink, journal) {
                Ok(()) => Ok(()),
                Err(halt) => Err(undone_by(halt)),
            }
        }
        None => unreachable!(),
    }
}

// Lets the end take what its link has for it.
fn run_turn<L: Link + Drop, K: Sink>(
    state: &mut LinkState<L>,
    alloc: Global,
    sink: &mut K,
    journal: &mut Journal,
) -> Result<(), Undone>
    requires begun { IsBegun state.old.reader.due state.old.running }
    requires whole { is_whole state.old.reader.due ≡ true }
    ensures reader { state.new.reader ≡ state.old.reader }
    ensures begun { IsBegun state.new.reader.due state.new.running }
    ensures few { asked_of state.new.running ≡ asked_of state.old.running }
    ensures takes { TurnsFor L.told state.old state.new journal.old.entries journal.new.entries
        result }
    ensures wrote { GoesOut (undone_short result) (K.out sink.old) (K.out sink.new)
        (K.faults sink.old) (K.faults sink.new) journal.old.entries journal.new.entries }
    ensures hurt { IsHurt (undone_hurt result) (faults_of L.faults state.old.running)
        (faults_of L.faults state.new.running) }
    ensures drawn { undone_undrawn result ≡ false }
{
    let end = state.reader.end();
    match &mut state.running {
        Some(running) => match turn(running, end, alloc, sink, journal) {
            Ok(()) => Ok(()),
            Err(breach) => Err(Undone::Broken(breach)),
        },
        None => unreachable!(),
    }
}

/// Takes a line, without its end, and does what it asks for: a step is journaled, its line is
/// written, and then its datagram is sent.
pub(crate) fn take<K: Sink, A: Air, D: Draws>(
    state: &mut LinkState<A::L>,
    alloc: Global,
    line: &[u8],
    sink: &mut K,
    air: &mut A,
    draws: &mut D,
    journal: &mut Journal,
) -> Result<(), Undone>
    requires begun { IsBegun state.old.reader.due state.old.running }
    requires few { asked_of state.old.running + 1 < 2 ^ 64 }
    ensures end { state.new.reader.end ≡ state.old.reader.end }
    ensures begun { OnOk result (IsBegun state.new.reader.due state.new.running) }
    ensures few { asked_of state.new.running ≤ asked_of state.old.running + 1 }
    ensures leaves { (first : Outer) (t : Told)
        → Stands A.L.told first (outer (A.told air.old) (D.last draws.old)) state.old
        journal.old.entries t
        → LeavesLine A.L.told first (outer (A.told air.new) (D.last draws.new)) state.new line.now
        journal.new.entries t result }
    ensures wrote { GoesOut (undone_short result) (K.out sink.old) (K.out sink.new)
        (K.faults sink.old) (K.faults sink.new) journal.old.entries journal.new.entries }
    ensures hurt { AreHurt (undone_hurt result) (A.faults air.old) (A.faults air.new)
        (faults_of A.L.faults state.old.running) (faults_of A.L.faults state.new.running) }
    ensures drained { IsDrained (undone_undrawn result) (D.faults draws.old) (D.faults draws.new) }
{
    let asked = state.asked();
    let said = match state.reader.line(asked, line) {
        Ok(said) => said,
        Err(refusal) => return Err(Undone::Refused(refusal)),
    };
    match said {
        LinkSaid::Nothing => Ok(()),
        LinkSaid::Draw => draw(&mut state.reader, draws),
        LinkSaid::Begin => start_end(state, alloc, air),
        LinkSaid::Turn => run_turn(state, alloc, sink, journal),
        LinkSaid::Row(_) | LinkSaid::Revoke(_) | LinkSaid::Ask(..) | LinkSaid::Forget(_) => {
            run_event(state, alloc, asked, said, sink, journal)
        }
    }
}
