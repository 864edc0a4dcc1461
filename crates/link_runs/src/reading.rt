//! The script of an end read from a source to its end.

ghost use Rattle.std.specs.Prelude.{◌≡◌, ◌≢◌, ◌≤◌, ◌<◌, ◌+◌, [], IfErr, OnOk, None, Some};
ghost use Rattle.domain_base.specs.Causes.{HandsOn};
ghost use Rattle.domain_base.specs.Told.{TakesBack};
ghost use Rattle.link_lines.specs.Slips.{slip_in};
ghost use Rattle.link_runs.specs.Linked.{IsLaid, IsLinked, OnDraws, OnLink, OnSink, OnSource};
ghost use Rattle.link_runs.specs.Linked.{blame_of};
ghost use Rattle.link_runs.specs.Reading.{Ends, LineEnds, Reached, found_hurt, found_short};
ghost use Rattle.link_runs.specs.Reading.{found_undrawn, line_hurt, line_short, line_undrawn};
ghost use Rattle.link_runs.specs.Standing.{AreHurt, IsBegun, IsDrained, Outer, Stands, asked_of};
ghost use Rattle.link_runs.specs.Standing.{faults_of, outer};
ghost use Rattle.link_runs.specs.Stepping.{GoesOut};
ghost use Rattle.link_runs.specs.Told.{Told, script_limits};

use crate::found::{LinkFound, Undone};
use crate::state::{LinkState, take};
use crate::steps::Running;
use domain_base::{Air, Draws, Link, Sink, Source};
use link_lines::LinkRefusal;
use link_steps::LinkEnd;
use run_journal::Journal;
use std::alloc::Global;
use text_lines::{Limits, LineReader, Next};

// A script has at most so many lines.
const MOST_LINES: u64 = 65_536;

// A line has at most so many octets, without its line feed.
const MOST_IN_LINE: usize = 8_192;

// The limits of a script.
fn script_limits() -> Limits
    ensures { result ≡ script_limits }
{
    Limits {
        lines: MOST_LINES,
        octets: MOST_IN_LINE,
    }
}

// That the line after so many others is refused so.
fn refused<L: Link + Drop>(
    state: &LinkState<L>,
    lines: u64,
    refusal: LinkRefusal,
    line: &[u8],
) -> LinkFound
    requires { lines ≤ 65536 }
    ensures { result ≡ LinkFound.Refused (lines + 1) refusal
        (slip_in state.now.reader (asked_of state.now.running) refusal line.now) }
{
    let slip = state.reader.slip(state.asked(), refusal, line);
    LinkFound::Refused(lines + 1, refusal, slip)
}

// Takes a line, without its end, after so many others, and does what it asks for.
fn take_line<K: Sink, A: Air, D: Draws>(
    state: &mut LinkState<A::L>,
    alloc: Global,
    lines: u64,
    line: &[u8],
    sink: &mut K,
    air: &mut A,
    draws: &mut D,
    journal: &mut Journal,
) -> Result<(), LinkFound>
    requires begun { IsBegun state.old.reader.due state.old.running }
    requires few { asked_of state.old.running ≤ lines }
    requires count { lines ≤ 65536 }
    ensures end { state.new.reader.end ≡ state.old.reader.end }
    ensures begun { OnOk result (IsBegun state.new.reader.due state.new.running) }
    ensures few { OnOk result (asked_of state.new.running ≤ lines + 1) }
    ensures room { OnOk result (lines < 65536) }
    ensures told { (first : Outer) (t : Told)
        → Stands A.L.told first (outer (A.told air.old) (D.last draws.old)) state.old
        journal.old.entries t
        → LineEnds A.L.told first (outer (A.told air.new) (D.last draws.new)) state.new lines
        line.now journal.new.entries t result }
    ensures wrote { GoesOut (line_short result) (K.out sink.old) (K.out sink.new)
        (K.faults sink.old) (K.faults sink.new) journal.old.entries journal.new.entries }
    ensures hurt { AreHurt (line_hurt result) (A.faults air.old) (A.faults air.new)
        (faults_of A.L.faults state.old.running) (faults_of A.L.faults state.new.running) }
    ensures drained { IsDrained (line_undrawn result) (D.faults draws.old) (D.faults draws.new) }
    ensures unread { IfErr result (λ found. blame_of found ≢ OnSource) }
{
    if lines >= MOST_LINES {
        return Err(refused(state, lines, LinkRefusal::ManyLines, line));
    }
    match take(state, alloc, line, sink, air, draws, journal) {
        Ok(()) => Ok(()),
        Err(Undone::Refused(refusal)) => Err(refused(state, lines, refusal, line)),
        Err(Undone::NoMemory) => Err(LinkFound::NoMemory),
        Err(Undone::DrawFault) => Err(LinkFound::DrawFault),
        Err(Undone::Broken(why)) => Err(LinkFound::Broken(why)),
    }
}

// Reads the lines of a script to its end, and does what they ask for.
fn read_lines<S: Source, K: Sink, A: Air, D: Draws>(
    lines: &mut LineReader,
    state: &mut LinkState<A::L>,
    alloc: Global,
    source: &mut S,
    sink: &mut K,
    air: &mut A,
    draws: &mut D,
    journal: &mut Journal,
) -> LinkFound
    requires begun { IsBegun state.old.reader.due state.old.running }
    requires none { asked_of state.old.running ≡ 0 }
    requires empty { lines.old.cutter.lines ≡ 0 }
    requires limits { lines.old.cutter.limits ≡ script_limits }
    ensures ends { (end : LinkEnd) → Reached A.L.told end
        (outer (A.told air.old) (D.last draws.old)) (outer (A.told air.old) (D.last draws.old))
        lines.old state.old [] journal.old.entries
        → Ends A.L.told end (outer (A.told air.old) (D.last draws.old))
        (outer (A.told air.new) (D.last draws.new)) state.new (S.left source.old)
        (S.left source.new) journal.new.entries result }
    ensures wrote { GoesOut (found_short result) (K.out sink.old) (K.out sink.new)
        (K.faults sink.old) (K.faults sink.new) journal.old.entries journal.new.entries }
    ensures hurt { AreHurt (found_hurt result) (A.faults air.old) (A.faults air.new)
        (faults_of A.L.faults state.old.running) (faults_of A.L.faults state.new.running) }
    ensures drained { IsDrained (found_undrawn result) (D.faults draws.old) (D.faults draws.new) }
    ensures laid { IsLaid OnSource (blame_of result) (S.faults source.old) (S.faults source.new) }
{
    'lines: loop {
        match lines.next(source) {
            Next::Line => {
                let count = lines.cutter.lines;
                let text = lines.text();
                match take_line(state, alloc, count, text, sink, air, draws, journal) {
                    Ok(()) => lines.end_line(),
                    Err(found) => return found,
                }
            }
            Next::Last => {
                let count = lines.cutter.lines;
                let text = &lines.cutter.line;
                return match take_line(state, alloc, count, text, sink, air, draws, journal) {
                    Ok(()) => LinkFound::Whole,
                    Err(found) => found,
                };
            }
            Next::End => return LinkFound::Whole,
            Next::Long => {
                let cutter = &lines.cutter;
                return refused(state, cutter.lines, LinkRefusal::LongLine, &cutter.line);
            }
            Next::Failed => return LinkFound::ReadFault,
        }
    }
}

// Gives the link of the end back, where it has one.
fn give_back<A: Air>(air: &mut A, running: Option<Running<A::L>>)
    ensures none { running ≡ None → air.new ≡ air.old }
    ensures some { (r : Running A.L) → running ≡ Some r
        → TakesBack (A.told air.old) (A.told air.new) (A.L.told r.link)
        × HandsOn (A.L.faults r.link) (A.faults air.old) (A.faults air.new) }
{
    match running {
        Some(running) => {
            let Running { link, .. } = running;
            air.take_back(link);
        }
        None => {}
    }
}

/// Reads the script of an end from a source to its end, and runs it: each line as soon as it was
/// read. A step is journaled, then its line is written, and then its datagram is sent to the other
/// end, by the link of the air that is attached after the header. In a turn the end takes up to
/// `MOST_POLLS` datagrams of its link, each of which is a step. However it ends, the link is given
/// back, where it was attached.
pub fn link<S: Source, K: Sink, A: Air, D: Draws>(
    alloc: Global,
    end: LinkEnd,
    source: &mut S,
    sink: &mut K,
    air: &mut A,
    draws: &mut D,
    journal: &mut Journal,
) -> LinkFound
    requires { journal.old.entries ≡ [] }
    ensures linked { IsLinked end result (S.left source.old) (S.left source.new)
        (K.out sink.old) (K.out sink.new) (A.told air.old) (A.told air.new)
        (D.last draws.old) (D.last draws.new) journal.new.entries }
    ensures source_laid { IsLaid OnSource (blame_of result) (S.faults source.old)
        (S.faults source.new) }
    ensures sink_laid { IsLaid OnSink (blame_of result) (K.faults sink.old) (K.faults sink.new) }
    ensures link_laid { IsLaid OnLink (blame_of result) (A.faults air.old) (A.faults air.new) }
    ensures draws_laid { IsLaid OnDraws (blame_of result) (D.faults draws.old)
        (D.faults draws.new) }
{
    let Ok(mut lines) = LineReader::new(alloc, script_limits()) else {
        return LinkFound::NoMemory;
    };
    let mut state = LinkState::start(end);
    let found = read_lines(
        &mut lines, &mut state, alloc, source, sink, air, draws, journal,
    );
    let LinkState { running, .. } = state;
    give_back(air, running);
    found
}
