//! What a line does: to the header, or to the domain behind it.

ghost use Rattle.std.specs.Prelude.{◌≡◌, ◌≤◌, [], suc, length, ℕ, MatchResult, Err, None, Some};
ghost use Rattle.std.specs.Prelude.{IfOk, OnOk, OnErr, false};
ghost use Rattle.domain_base.specs.Causes.{Rose};
ghost use Rattle.domain_world.specs.Owning.{Owns};
ghost use Rattle.script_lines.specs.Script.{Draft, AtVersion, IsSeedDue};
ghost use Rattle.script_runs.specs.Outer.{Outer, IsBlamed, IsMet, IsTold, Nobody, links_due, outer};
ghost use Rattle.script_runs.specs.Script.{Rounds, no_rounds};
ghost use Rattle.script_runs.specs.States.{CanAsk, CanBegin, CanDo, CanEnd, CanList, CanRun, Did};
ghost use Rattle.script_runs.specs.States.{DidAsk, DidEnd, DidRun, IsBegun, IsReady, LeavesLine};
ghost use Rattle.script_runs.specs.States.{Stands, TellsLine, world_of};
ghost use Rattle.script_runs.specs.Ran.{IsRound, RanLine, ran_blame};
ghost use Rattle.script_runs.specs.Sessions.{OnRun, OnUnrun, Output, output};
ghost use Rattle.script_runs.specs.Stops.{undone_blame};
ghost use Rattle.script_runs.specs.Turning.{CanTurn, DidTurnBy};
ghost use Rattle.script_runs.specs.Written.{GoesOn, HasWritten, WroteBy, break_short};
ghost use Rattle.script_runs.specs.Written.{found_short, session_short, undone_short, written_of};

use crate::host::Host;
use crate::linking::follow;
use crate::session::{Session, SessionFault};
use crate::stops::{Found, Stop, Undone};
use crate::turning::turn;
use domain_base::{Air, Draws, Failed, Link, NoMemory, Sink};
use domain_links::Break;
use domain_rules::looks_are_right;
use domain_world::{Gate, World};
use frame_script::{Mode, ScriptReader, Step, Untaken};
use journal_report::write_lines;
use run_journal::{Event, Journal};
use std::alloc::Global;
use std::thread::Threads;

/// Where in a script the reading is: what its lines have said, and from the end of the header on
/// the world, with what is written of its journal.
#[derive(Drop)]
pub struct ScriptState {
    /// What the lines so far have said.
    pub reader: ScriptReader,
    /// The world of the network that they told. None before the header is whole.
    pub session: Option<Session>,
    /// The events of the round that is open, as their lines stand. None outside rounds.
    pub waiting: Option<Vec<Event>>,
}

// Before the header is whole: the world comes with its last line.
fn begin(alloc: Global, reader: &ScriptReader, step: Step) -> Result<Option<World>, NoMemory>
    requires { CanBegin reader.now.draft step }
    ensures { IfOk result (IsBegun reader.now.draft step) }
{
    match step {
        Step::Nothing => Ok(None),
        Step::Network => match reader.domain() {
            Some(domain) => Ok(Some(World::start(alloc, domain)?)),
            None => unreachable!(),
        },
        Step::Draw
        | Step::Ap { .. }
        | Step::Sta { .. }
        | Step::Extra(_)
        | Step::Event(_)
        | Step::Round
        | Step::End
        | Step::Turn => { unreachable!() }
    }
}

// The session of that world, where the header is whole.
fn begin_session(
    alloc: Global,
    reader: &ScriptReader,
    step: Step,
) -> Result<Option<Session>, NoMemory>
    requires { CanBegin reader.now.draft step }
    ensures begun { IfOk result (λ s. IsBegun reader.now.draft step (world_of s)) }
    ensures none { IfOk result (λ s. written_of s ≡ 0) }
{
    match begin(alloc, reader, step) {
        Ok(Some(world)) => match Session::start(alloc, world) {
            Ok(session) => Ok(Some(session)),
            Err(_) => Err(NoMemory),
        },
        Ok(None) => Ok(None),
        Err(_) => Err(NoMemory),
    }
}

// An event: it is a round by itself, but where a round is open it waits for the end of it.
fn ask<K: Sink>(
    session: &mut Session,
    waiting: &mut Option<Vec<Event>>,
    event: Event,
    sink: &mut K,
    journal: &mut Journal,
) -> Result<(), SessionFault>
    requires own { Owns session.old.world journal.old.entries }
    requires can { CanAsk session.old.world waiting.old journal.old.entries event }
    requires written { session.old.writer ≤ length journal.old.entries }
    ensures own { OnRun result (Owns session.new.world journal.new.entries) }
    ensures did { OnRun result (DidAsk session.old.world session.new.world waiting.old waiting.new
        event journal.old.entries journal.new.entries) }
    ensures kept { OnUnrun result (journal.new.entries ≡ journal.old.entries) }
    ensures round { result ≡ Err SessionFault.WriteFault → waiting.old ≡ None }
    ensures wrote { GoesOn (session_short result) (output (K.out sink.old) (K.faults sink.old))
        (output (K.out sink.new) (K.faults sink.new)) session.old.writer session.new.writer
        journal.old.entries journal.new.entries }
{
    match waiting {
        Some(events) => match events.push(event) {
            Ok(()) => Ok(()),
            Err(_) => Err(SessionFault::NoMemory),
        },
        None => session.event(&event, journal, sink),
    }
}

// The end of a round: its events are run.
fn end_round<R: Threads + Sync, K: Sink, G: Gate + Sync>(
    session: &mut Session,
    waiting: &mut Option<Vec<Event>>,
    host: &Host<'_, R, G>,
    sink: &mut K,
    journal: &mut Journal,
) -> Result<(), SessionFault>
    requires own { Owns session.old.world journal.old.entries }
    requires can { CanEnd session.old.world waiting.old journal.old.entries }
    requires written { session.old.writer ≤ length journal.old.entries }
    ensures own { OnRun result (Owns session.new.world journal.new.entries) }
    ensures did { OnRun result (DidEnd session.old.world session.new.world waiting.old waiting.new
        journal.old.entries journal.new.entries) }
    ensures kept { OnUnrun result (journal.new.entries ≡ journal.old.entries) }
    ensures wrote { GoesOn (session_short result) (output (K.out sink.old) (K.faults sink.old))
        (output (K.out sink.new) (K.faults sink.new)) session.old.writer session.new.writer
        journal.old.entries journal.new.entries }
{
    match waiting.take() {
        Some(events) => session.round(host.rt, &events, journal, sink, host.gate),
        None => unreachable!(),
    }
}

// Behind the header. Where nothing was run the journal is as before, but for nodes.
fn act<R: Threads + Sync, K: Sink, G: Gate + Sync>(
    session: &mut Session,
    waiting: &mut Option<Vec<Event>>,
    host: &Host<'_, R, G>,
    step: Step,
    sink: &mut K,
    journal: &mut Journal,
) -> Result<(), SessionFault>
    requires own { Owns session.old.world journal.old.entries }
    requires can { CanDo session.old.world waiting.old journal.old.entries step }
    requires first { CanList (Some session.old.world) journal.old.entries step }
    requires written { session.old.writer ≤ length journal.old.entries }
    ensures own { OnRun result (Owns session.new.world journal.new.entries) }
    ensures did { OnRun result (Did session.old.world session.new.world waiting.old waiting.new
        journal.old.entries journal.new.entries step) }
    ensures kept { OnUnrun result (journal.new.entries ≡ journal.old.entries) }
    ensures round { result ≡ Err SessionFault.WriteFault → IsRound step waiting.old }
    ensures wrote { GoesOn (session_short result) (output (K.out sink.old) (K.faults sink.old))
        (output (K.out sink.new) (K.faults sink.new)) session.old.writer session.new.writer
        journal.old.entries journal.new.entries }
{
    match step {
        Step::Nothing => Ok(()),
        Step::Ap { address, r0kh_id } => match session.world.add_ap(address, r0kh_id, journal) {
            Ok(()) => Ok(()),
            Err(_) => Err(SessionFault::NoMemory),
        },
        Step::Sta { address, psk } => match session.world.add_station(address, psk) {
            Ok(()) => Ok(()),
            Err(_) => Err(SessionFault::NoMemory),
        },
        Step::Extra(extra) => {
            session.world.add_extra(extra);
            Ok(())
        }
        Step::Event(event) => ask(session, waiting, event, sink, journal),
        Step::Round => {
            *waiting = Some(Vec::new(host.alloc));
            Ok(())
        }
        Step::End => end_round(session, waiting, host, sink, journal),
        Step::Network | Step::Draw | Step::Turn => unreachable!(),
    }
}

// What a line asks for. Where nothing was done the journal is as before.
fn run_step<R: Threads + Sync, K: Sink, G: Gate + Sync>(
    session: &mut Option<Session>,
    waiting: &mut Option<Vec<Event>>,
    reader: &ScriptReader,
    host: &Host<'_, R, G>,
    step: Step,
    sink: &mut K,
    journal: &mut Journal,
) -> Result<(), SessionFault>
    requires can { CanRun (world_of session.old) waiting.old reader.now.draft
        journal.old.entries step }
    requires first { CanList (world_of session.old) journal.old.entries step }
    requires written { written_of session.old ≤ length journal.old.entries }
    ensures did { OnRun result (DidRun (world_of session.old) (world_of session.new) waiting.old
        waiting.new reader.now.draft journal.old.entries journal.new.entries step) }
    ensures kept { OnUnrun result (journal.new.entries ≡ journal.old.entries) }
    ensures round { result ≡ Err SessionFault.WriteFault → IsRound step waiting.old }
    ensures wrote { GoesOn (session_short result) (output (K.out sink.old) (K.faults sink.old))
        (output (K.out sink.new) (K.faults sink.new)) (written_of session.old)
        (written_of session.new) journal.old.entries journal.new.entries }
{
    match session {
        Some(session) => act(session, waiting, host, step, sink, journal),
        None => match begin_session(host.alloc, reader, step) {
            Ok(begun) => {
                *session = begun;
                Ok(())
            }
            Err(_) => Err(SessionFault::NoMemory),
        },
    }
}

// Draws the seed that a line asks for.
fn draw<D: Draws>(reader: &mut ScriptReader, draws: &mut D) -> Result<(), Undone>
    requires live { reader.old.mode ≡ Mode.Live }
    requires due { IsSeedDue reader.old.draft }
    ensures drawn { OnOk result (IsTold reader.old reader.new (D.last draws.new)) }
    ensures same { OnErr result (reader.new ≡ reader.old) }
    ensures kept { OnErr result (D.last draws.new ≡ D.last draws.old) }
    ensures fault { OnErr result (result ≡ Err Undone.DrawFault) }
    ensures cause { OnErr result (Rose (D.faults draws.old) (D.faults draws.new)) }
    ensures unfailed { OnOk result (D.faults draws.new ≡ D.faults draws.old) }
{
    match draws.seed() {
        Ok(seed) => {
            reader.drawn(seed);
            Ok(())
        }
        Err(_) => Err(Undone::DrawFault),
    }
}

// Whether a reading ended as the lines of a round could not be written.
fn is_unwritten(found: Found) -> bool
    ensures { result ≡ found_short found }
{
    match found {
        Found::Stopped(Stop::Unwritten) => true,
        Found::Whole => false,
        Found::Stopped(Stop::Refused(..)) => false,
        Found::Stopped(Stop::NoMemory) => false,
        Found::Stopped(Stop::DrawFault) => false,
        Found::Stopped(Stop::Broken(_)) => false,
        Found::Unended(..) => false,
        Found::ReadFault => false,
    }
}

impl ScriptState {
    /// Before the first line of a run of that kind.
    pub fn start(alloc: Global, mode: Mode) -> Self
        ensures ready { IsReady result 0 0 [] }
        ensures mode { result.reader.mode ≡ mode }
        ensures written { written_of result.session ≡ 0 }
        ensures stands { Stands result AtVersion no_rounds [] }
    {
        ScriptState {
            reader: ScriptReader::start(alloc, mode),
            session: None,
            waiting: None,
        }
    }

    // Does what a line asks for that has its meaning in both kinds of run, writes the lines of its
    // round, and sends what goes out for it. Where nothing was done, the journal, the links and the
    // air are as before.
    fn run_line<R: Threads + Sync, K: Sink, A: Air, G: Gate + Sync>(
        &mut self,
        host: &Host<'_, R, G>,
        step: Step,
        sink: &mut K,
        air: &mut A,
        links: &mut Vec<A::L>,
        journal: &mut Journal,
    ) -> Result<(), Undone>
        requires can { CanRun (world_of self.old.session) self.old.waiting self.old.reader.draft
            journal.old.entries step }
        requires first { CanList (world_of self.old.session) journal.old.entries step }
        requires links { length links.old.items
            ≡ links_due self.old.reader.mode (world_of self.old.session) }
        requires written { written_of self.old.session ≤ length journal.old.entries }
        ensures reader { self.new.reader ≡ self.old.reader }
        ensures did { RanLine A.L.told self.old self.new
            (outer links.old.items (A.told air.old) None)
            (outer links.new.items (A.told air.new) None)
            journal.old.entries journal.new.entries step result }
        ensures blamed { IsBlamed A.L.faults (ran_blame result) links.old.items links.new.items
            (A.faults air.old) (A.faults air.new) 0 0 }
        ensures wrote { GoesOn (undone_short result) (output (K.out sink.old) (K.faults sink.old))
            (output (K.out sink.new) (K.faults sink.new)) (written_of self.old.session)
            (written_of self.new.session) journal.old.entries journal.new.entries }
    {
        let from = journal.len();
        match run_step(
            &mut self.session,
            &mut self.waiting,
            &self.reader,
            host,
            step,
            sink,
            journal,
        ) {
            Ok(()) => {}
            Err(SessionFault::NoMemory) => return Err(Undone::NoMemory),
            Err(SessionFault::WriteFault) => return Err(Undone::Unwritten),
        }
        let kind = self.reader.mode();
        match follow(kind, &self.session, from, air, links, journal) {
            Ok(()) => Ok(()),
            Err(error) => Err(Undone::Broken(error)),
        }
    }

    // A turn: nodes take the frames of their links.
    fn run_turn<L: Link + Drop, K: Sink>(
        &mut self,
        alloc: Global,
        links: &mut Vec<L>,
        sink: &mut K,
        journal: &mut Journal,
    ) -> Result<(), Break>
        requires can { CanTurn (world_of self.old.session) (length links.old.items)
            journal.old.entries }
        requires written { written_of self.old.session ≤ length journal.old.entries }
        ensures reader { self.new.reader ≡ self.old.reader }
        ensures waiting { self.new.waiting ≡ self.old.waiting }
        ensures did { DidTurnBy L.told L.faults links.old.items links.new.items
            (world_of self.old.session) (world_of self.new.session) journal.old.entries
            journal.new.entries result }
        ensures wrote { GoesOn (break_short result) (output (K.out sink.old) (K.faults sink.old))
            (output (K.out sink.new) (K.faults sink.new)) (written_of self.old.session)
            (written_of self.new.session) journal.old.entries journal.new.entries }
    {
        match &mut self.session {
            Some(session) => turn(session, alloc, links, sink, journal),
            None => unreachable!(),
        }
    }

    /// Takes one more line, without its end, and does what it asks for. The lines of each round are
    /// written after it, and before its frames are sent. Where nothing was done, the journal, the
    /// links and the air are as before.
    pub fn take<R: Threads + Sync, K: Sink, A: Air, D: Draws, G: Gate + Sync>(
        &mut self,
        host: &Host<'_, R, G>,
        line: &[u8],
        sink: &mut K,
        air: &mut A,
        draws: &mut D,
        links: &mut Vec<A::L>,
        journal: &mut Journal,
    ) -> Result<(), Undone>
        requires ready { IsReady self.old (length links.old.items) 65536 journal.old.entries }
        requires written { written_of self.old.session ≤ length journal.old.entries }
        ensures ready { (lines : ℕ)
            → IsReady self.old (length links.old.items) lines journal.old.entries
            → OnOk result (IsReady self.new (length links.new.items) (suc lines)
            journal.new.entries) }
        ensures mode { self.new.reader.mode ≡ self.old.reader.mode }
        ensures told { (draft : Draft) (rounds : Rounds) (first : Outer A.L)
            → Stands self.old draft rounds journal.old.entries
            → IsMet A.L.told first (outer links.old.items (A.told air.old) (D.last draws.old))
            self.old.reader.mode draft rounds journal.old.entries
            → MatchResult result
            (λ _. TellsLine A.L.told first
            (outer links.new.items (A.told air.new) (D.last draws.new))
            line.now draft rounds self.new journal.old.entries journal.new.entries)
            (λ undone. LeavesLine undone A.L.told first
            (outer links.old.items (A.told air.old) (D.last draws.old))
            (outer links.new.items (A.told air.new) (D.last draws.new))
            self.new line.now draft rounds journal.old.entries journal.new.entries) }
        ensures blamed { MatchResult result
            (λ _. IsBlamed A.L.faults Nobody links.old.items links.new.items
            (A.faults air.old) (A.faults air.new) (D.faults draws.old) (D.faults draws.new))
            (λ undone. IsBlamed A.L.faults (undone_blame undone) links.old.items links.new.items
            (A.faults air.old) (A.faults air.new) (D.faults draws.old) (D.faults draws.new)) }
        ensures wrote { GoesOn (undone_short result) (output (K.out sink.old) (K.faults sink.old))
            (output (K.out sink.new) (K.faults sink.new)) (written_of self.old.session)
            (written_of self.new.session) journal.old.entries journal.new.entries }
    {
        looks_are_right();
        let step = match self.reader.take(host.alloc, line, journal) {
            Ok(step) => step,
            Err(Untaken::Refused(refusal)) => return Err(Undone::Refused(refusal)),
            Err(Untaken::NoMemory) => return Err(Undone::NoMemory),
        };
        match step {
            Step::Draw => draw(&mut self.reader, draws),
            Step::Turn => match self.run_turn(host.alloc, links, sink, journal) {
                Ok(()) => Ok(()),
                Err(Break::ByLink(error)) => Err(Undone::Broken(error)),
                Err(Break::ByWrite) => Err(Undone::Unwritten),
            },
            step => self.run_line(host, step, sink, air, links, journal),
        }
    }

    /// Writes the lines that are left at the end of a reading that ended so: those of nodes, where
    /// no event and no round was run. Takes no memory.
    pub fn finish<K: Sink>(
        &mut self,
        found: Found,
        sink: &mut K,
        journal: &Journal,
    ) -> Result<(), Failed>
        requires { found_short found ≡ false
            → written_of self.old.session ≤ length journal.now.entries }
        ensures { (first : Output) → WroteBy (found_short found) first
            (output (K.out sink.old) (K.faults sink.old)) (written_of self.old.session)
            journal.now.entries → HasWritten found result first
            (output (K.out sink.new) (K.faults sink.new)) journal.now.entries }
    {
        if is_unwritten(found) {
            return Err(Failed);
        }
        match &mut self.session {
            Some(session) => session.lines(journal, sink),
            None => write_lines(journal.entries(), sink),
        }
    }
}
