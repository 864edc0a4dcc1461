//! A script, octet by octet.

ghost use Rattle.std.specs.Prelude.{◌≡◌, ◌≢◌, ◌≤◌, ◌<◌, ◌++◌, ◌∷◌, [], suc, ℕ, List, MatchResult};
ghost use Rattle.std.specs.Prelude.{OnOk, length, IfOk, true};
ghost use Rattle.run_journal.specs.declared.acts.Entry.{Entry as AnyEntry};
ghost use Rattle.frame_script.specs.Mistakes.{mistake_in};
ghost use Rattle.script_lines.specs.Refusals.{fault_of};
ghost use Rattle.script_lines.specs.Script.{Draft, AtVersion};
ghost use Rattle.script_runs.specs.Outer.{Outer, IsBlamed, IsMet, Nobody, outer};
ghost use Rattle.script_runs.specs.Script.{Rounds, no_rounds, point_of, script_limits};
ghost use Rattle.text_lines.specs.Texts.{NoFeed};
ghost use Rattle.script_runs.specs.States.{Stands, IsReady, TellsLine};
ghost use Rattle.script_runs.specs.Stops.{Closes, EndsAt, Halts, IsRefusal, Stopped, StopsLine};
ghost use Rattle.script_runs.specs.Sessions.{output};
ghost use Rattle.script_runs.specs.Stops.{found_blame, stop_blame};
ghost use Rattle.script_runs.specs.Story.{most_read};
ghost use Rattle.script_runs.specs.Written.{GoesOn, found_short, stop_short, written_of};

use crate::host::Host;
use crate::state::ScriptState;
use crate::stops::{Found, Stop, Undone};
use domain_base::{Air, Draws, NoMemory, Sink};
use domain_world::Gate;
use frame_script::{Mode, Refusal, ScriptReader};
use run_journal::Journal;
use std::alloc::Global;
use std::thread::Threads;
use text_lines::{Limits, LineCutter, line_end, without_return};

// A script has at most so many lines.
const MOST_LINES: u64 = 65_536;

// A line has at most so many octets, without its line feed.
const MOST_IN_LINE: usize = 8_192;

/// A script so far: its octets, cut into lines, and what the whole lines told.
#[derive(Drop)]
pub struct LineFeeder {
    /// The front of the open line, and how many whole lines came.
    pub cutter: LineCutter,
    /// What the whole lines told.
    pub state: ScriptState,
    ghost limited: { cutter.limits ≡ script_limits },
}

// The limits of a script.
fn script_limits() -> Limits
    ensures { result ≡ script_limits }
{
    Limits {
        lines: MOST_LINES,
        octets: MOST_IN_LINE,
    }
}

// That the line behind so many others is refused so.
fn refused(state: &ScriptState, lines: u64, line: &[u8], refusal: Refusal) -> Stop
    requires { lines ≤ 65536 }
    ensures { result ≡ Stop.Refused (suc lines) refusal
        (mistake_in state.now.reader.mode state.now.reader.draft state.now.reader.rounds
        state.now.reader.sizes (fault_of refusal) line.now) }
{
    let mistake = state.reader.mistake(refusal, line);
    Stop::Refused(lines + 1, refusal, mistake)
}

// Takes a line, without its end, behind so many others, and does what it asks for.
#[tactic(auto, using(crate::proofs::Lines::stopping))]
fn take_line<R: Threads + Sync, K: Sink, A: Air, D: Draws, G: Gate + Sync>(
    state: &mut ScriptState,
    host: &Host<'_, R, G>,
    lines: u64,
    line: &[u8],
    sink: &mut K,
    air: &mut A,
    draws: &mut D,
    links: &mut Vec<A::L>,
    journal: &mut Journal,
) -> Result<(), Stop>
    requires ready { IsReady state.old (length links.old.items) lines journal.old.entries }
    requires count { lines ≤ 65536 }
    requires written { written_of state.old.session ≤ length journal.old.entries }
    ensures ready { OnOk result (IsReady state.new (length links.new.items) (suc lines)
        journal.new.entries) }
    ensures few { OnOk result (lines < 65536) }
    ensures mode { state.new.reader.mode ≡ state.old.reader.mode }
    ensures told { (draft : Draft) (rounds : Rounds) (first : Outer A.L)
        → Stands state.old draft rounds journal.old.entries
        → IsMet A.L.told first (outer links.old.items (A.told air.old) (D.last draws.old))
        state.old.reader.mode draft rounds journal.old.entries
        → MatchResult result
        (λ _. TellsLine A.L.told first
        (outer links.new.items (A.told air.new) (D.last draws.new))
        line.now draft rounds state.new journal.old.entries journal.new.entries)
        (λ stop. StopsLine stop A.L.told first
        (outer links.old.items (A.told air.old) (D.last draws.old))
        (outer links.new.items (A.told air.new) (D.last draws.new))
        state.old.reader.mode lines line.now draft rounds
        journal.old.entries journal.new.entries) }
    ensures blamed { MatchResult result
        (λ _. IsBlamed A.L.faults Nobody links.old.items links.new.items
        (A.faults air.old) (A.faults air.new) (D.faults draws.old) (D.faults draws.new))
        (λ stop. IsBlamed A.L.faults (stop_blame stop) links.old.items links.new.items
        (A.faults air.old) (A.faults air.new) (D.faults draws.old) (D.faults draws.new)) }
    ensures wrote { GoesOn (stop_short result) (output (K.out sink.old) (K.faults sink.old))
        (output (K.out sink.new) (K.faults sink.new)) (written_of state.old.session)
        (written_of state.new.session) journal.old.entries journal.new.entries }
{
    if lines >= MOST_LINES {
        return Err(refused(state, lines, line, Refusal::ManyLines));
    }
    match state.take(host, line, sink, air, draws, links, journal) {
        Ok(()) => Ok(()),
        Err(Undone::Refused(refusal)) => Err(refused(state, lines, line, refusal)),
        Err(Undone::NoMemory) => Err(Stop::NoMemory),
        Err(Undone::DrawFault) => Err(Stop::DrawFault),
        Err(Undone::Broken(error)) => Err(Stop::Broken(error)),
        Err(Undone::Unwritten) => Err(Stop::Unwritten),
    }
}

// How the reading ends at the end of the source, behind so many lines: a round that is open there
// lacks its end.
fn ended(reader: &ScriptReader, lines: u64) -> Found
    requires { lines ≤ 65536 }
    ensures { EndsAt result lines reader.now.draft }
{
    match reader.close() {
        Ok(()) => Found::Whole,
        Err(refusal) => Found::Unended(lines + 1, refusal),
    }
}

impl LineFeeder {
    ghost use Rattle.script_runs.specs.Feeders.{HasCome, Reached};

    /// Before the first octet of a script of a run of that kind.
    pub fn new(alloc: Global, mode: Mode) -> Result<Self, NoMemory>
        ensures ready { IfOk result (λ s. IsReady s.state 0 s.cutter.lines []) }
        ensures mode { IfOk result (λ s. s.state.reader.mode ≡ mode) }
        ensures written { IfOk result (λ s. written_of s.state.session ≡ 0) }
        ensures come { IfOk result (λ s. HasCome s [] AtVersion no_rounds []) }
    {
        let limits = script_limits();
        let cutter = LineCutter::new(alloc, limits)?;
        Ok(LineFeeder {
            cutter,
            state: ScriptState::start(alloc, mode),
        })
    }

    // Takes octets of the open line, of which none is a line feed.
    fn add(&mut self, octets: &[u8]) -> Result<(), Stop>
        requires { NoFeed octets.now }
        ensures same { (self.new.cutter.lines ≡ self.old.cutter.lines)
            × (self.new.state ≡ self.old.state) }
        ensures come { (before : List ℕ) (draft : Draft) (rounds : Rounds) (j : List AnyEntry)
            → HasCome self.old before draft rounds j → MatchResult result
            (λ _. HasCome self.new (before ++ octets.now) draft rounds j)
            (λ stop. Stopped 1 stop (before ++ octets.now)
            (point_of self.old.state.reader.mode j draft rounds)) }
        ensures refused { MatchResult result (λ _. Unit {0}) (λ stop. IsRefusal stop) }
    {
        match self.cutter.add(octets) {
            Ok(()) => Ok(()),
            Err(_) => {
                let cutter = &self.cutter;
                Err(refused(&self.state, cutter.lines, &cutter.line, Refusal::LongLine))
            }
        }
    }

    // Ends the open line, and does what it asks for.
    fn end_line<R: Threads + Sync, K: Sink, A: Air, D: Draws, G: Gate + Sync>(
        &mut self,
        host: &Host<'_, R, G>,
        sink: &mut K,
        air: &mut A,
        draws: &mut D,
        links: &mut Vec<A::L>,
        journal: &mut Journal,
    ) -> Result<(), Stop>
        requires ready { IsReady self.old.state (length links.old.items) self.old.cutter.lines
            journal.old.entries }
        requires written { written_of self.old.state.session ≤ length journal.old.entries }
        ensures ready { OnOk result (IsReady self.new.state (length links.new.items)
            self.new.cutter.lines journal.new.entries) }
        ensures mode { self.new.state.reader.mode ≡ self.old.state.reader.mode }
        ensures reached { (first : Outer A.L) (before : List ℕ)
            → Reached A.L.told first (outer links.old.items (A.told air.old) (D.last draws.old))
            self.old before journal.old.entries → MatchResult result
            (λ _. Reached A.L.told first
            (outer links.new.items (A.told air.new) (D.last draws.new))
            self.new (before ++ 10 ∷ []) journal.new.entries)
            (λ stop. Halts A.L.told first
            (outer links.new.items (A.told air.new) (D.last draws.new))
            self.old.state.reader.mode 1 stop (before ++ 10 ∷ []) journal.new.entries) }
        ensures blamed { MatchResult result
            (λ _. IsBlamed A.L.faults Nobody links.old.items links.new.items
            (A.faults air.old) (A.faults air.new) (D.faults draws.old) (D.faults draws.new))
            (λ stop. IsBlamed A.L.faults (stop_blame stop) links.old.items links.new.items
            (A.faults air.old) (A.faults air.new) (D.faults draws.old) (D.faults draws.new)) }
        ensures wrote { GoesOn (stop_short result) (output (K.out sink.old) (K.faults sink.old))
            (output (K.out sink.new) (K.faults sink.new)) (written_of self.old.state.session)
            (written_of self.new.state.session) journal.old.entries journal.new.entries }
    {
        let cutter = &self.cutter;
        let text = without_return(&cutter.line);
        let taken = take_line(
            &mut self.state,
            host,
            cutter.lines,
            text,
            sink,
            air,
            draws,
            links,
            journal,
        );
        match taken {
            Ok(()) => {
                self.cutter.end();
                Ok(())
            }
            Err(stop) => Err(stop),
        }
    }

    /// Takes the octets of one read. A line is run as soon as its end was read, and the lines of
    /// its round are written then.
    pub fn feed<R: Threads + Sync, K: Sink, A: Air, D: Draws, G: Gate + Sync>(
        &mut self,
        host: &Host<'_, R, G>,
        octets: &[u8],
        sink: &mut K,
        air: &mut A,
        draws: &mut D,
        links: &mut Vec<A::L>,
        journal: &mut Journal,
    ) -> Result<(), Stop>
        requires ready { IsReady self.old.state (length links.old.items) self.old.cutter.lines
            journal.old.entries }
        requires few { length octets.now ≤ most_read }
        requires written { written_of self.old.state.session ≤ length journal.old.entries }
        ensures ready { OnOk result (IsReady self.new.state (length links.new.items)
            self.new.cutter.lines journal.new.entries) }
        ensures mode { self.new.state.reader.mode ≡ self.old.state.reader.mode }
        ensures reached { (first : Outer A.L) (before : List ℕ)
            → Reached A.L.told first (outer links.old.items (A.told air.old) (D.last draws.old))
            self.old before journal.old.entries → MatchResult result
            (λ _. Reached A.L.told first
            (outer links.new.items (A.told air.new) (D.last draws.new))
            self.new (before ++ octets.now) journal.new.entries)
            (λ stop. Halts A.L.told first
            (outer links.new.items (A.told air.new) (D.last draws.new))
            self.old.state.reader.mode most_read stop (before ++ octets.now) journal.new.entries) }
        ensures blamed { MatchResult result
            (λ _. IsBlamed A.L.faults Nobody links.old.items links.new.items
            (A.faults air.old) (A.faults air.new) (D.faults draws.old) (D.faults draws.new))
            (λ stop. IsBlamed A.L.faults (stop_blame stop) links.old.items links.new.items
            (A.faults air.old) (A.faults air.new) (D.faults draws.old) (D.faults draws.new)) }
        ensures wrote { GoesOn (stop_short result) (output (K.out sink.old) (K.faults sink.old))
            (output (K.out sink.new) (K.faults sink.new)) (written_of self.old.state.session)
            (written_of self.new.state.session) journal.old.entries journal.new.entries }
    {
        let mut at = 0;
        while at < octets.len() {
            if octets[at] == b'\n' {
                match self.end_line(host, sink, air, draws, links, journal) {
                    Ok(()) => at += 1,
                    Err(stop) => return Err(stop),
                }
            } else {
                let end = line_end(octets, at);
                match self.add(&octets[at..end]) {
                    Ok(()) => at = end,
                    Err(stop) => return Err(stop),
                }
            }
        }
        Ok(())
    }

    /// Ends the script. An open line counts as a line, and so does an empty source. The events of a
    /// round that is open are not run.
    pub fn finish<R: Threads + Sync, K: Sink, A: Air, D: Draws, G: Gate + Sync>(
        &mut self,
        host: &Host<'_, R, G>,
        sink: &mut K,
        air: &mut A,
        draws: &mut D,
        links: &mut Vec<A::L>,
        journal: &mut Journal,
    ) -> Found
        requires ready { IsReady self.old.state (length links.old.items) self.old.cutter.lines
            journal.old.entries }
        requires written { written_of self.old.state.session ≤ length journal.old.entries }
        ensures told { (first : Outer A.L) (octets : List ℕ)
            → Reached A.L.told first (outer links.old.items (A.told air.old) (D.last draws.old))
            self.old octets journal.old.entries
            → Closes A.L.told first (outer links.new.items (A.told air.new) (D.last draws.new))
            self.old.state.reader.mode result octets true journal.new.entries }
        ensures not_read { result ≢ Found.ReadFault }
        ensures blamed { IsBlamed A.L.faults (found_blame result) links.old.items links.new.items
            (A.faults air.old) (A.faults air.new) (D.faults draws.old) (D.faults draws.new) }
        ensures wrote { GoesOn (found_short result) (output (K.out sink.old) (K.faults sink.old))
            (output (K.out sink.new) (K.faults sink.new)) (written_of self.old.state.session)
            (written_of self.new.state.session) journal.old.entries journal.new.entries }
    {
        if self.cutter.line.is_empty() && self.cutter.lines > 0 {
            return ended(&self.state.reader, self.cutter.lines);
        }
        let taken = take_line(
            &mut self.state,
            host,
            self.cutter.lines,
            &self.cutter.line,
            sink,
            air,
            draws,
            links,
            journal,
        );
        match taken {
            Ok(()) => ended(&self.state.reader, self.cutter.lines + 1),
            Err(stop) => Found::Stopped(stop),
        }
    }
}
