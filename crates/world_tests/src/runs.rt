//! Runs between streams, draws and links in memory, the gate of a round, and how the ends of a run are
//! told that no script comes to. Whole scripts with their reports are among the examples and in
//! `tools/ends`.

mod cases;
mod failing;
mod full;
mod journals;
mod links;
mod meeting;
mod rounds;
mod stalling;
mod texts;

use crate::world::octets;
use cases::{ALL, CASES, Calls, Case, NONE, Script};
use domain_base::{LinkPlan, MemAir, MemDraws, MemSink, MemSource, Node, SteadyLink};
use domain_cli::{Status, run_with};
use failing::{FAILING, Failing, Object};
use full::FULL;
use journal_report::{line_fits, line_of};
use journals::{JOURNALS, ROAM, ROAM_LINES};
use links::{ASK, DRAWN, DRAWN_ASK, ELSEWHERE, FOUND, HELD, LINKS, NO_HOLDER, QUESTION};
use meeting::Meeting;
use rounds::ROUNDS;
use run_journal::Journal;
use stalling::StallingSink;
use std::alloc::Global;
use std::process::Abort;
use std::thread::Threads;
use texts::TEXTS;

// The number of a call that is to fail, alone.
fn numbers(rt: &impl Abort, alloc: Global, number: u64) -> Vec<u64> {
    Vec::from_slice(alloc, &[number]).expect(rt, "memory")
}

// The source of a script.
fn source_of(rt: &impl Abort, alloc: Global, script: &Script, reads: u64) -> MemSource {
    let mut octets = Vec::from_slice(alloc, script.front.as_bytes()).expect(rt, "memory");
    octets
        .extend_from_slice(script.lines.as_bytes())
        .expect(rt, "memory");
    MemSource::new(octets, numbers(rt, alloc, reads))
}

// What is handed in for the link of a node, to which these frames come.
fn plan(rt: &impl Abort, alloc: Global, node: Node, coming: &[&[u8]], fails: u64) -> LinkPlan {
    let mut frames = Vec::new(alloc);
    for frame in coming {
        frames.push(octets(rt, alloc, *frame)).expect(rt, "memory");
    }
    LinkPlan::new(node, frames, numbers(rt, alloc, fails))
}

// The second node of a run: a station, or the end of a link that asks.
fn second(script: &Script) -> Node {
    match script.words.first() {
        Some(word) if *word == "link" => Node::Ap(1),
        _ => Node::Sta(0),
    }
}

// The air of a run.
fn air_of(rt: &impl Abort, alloc: Global, script: &Script, calls: &Calls) -> MemAir {
    let mut plans = Vec::new(alloc);
    let ap = plan(rt, alloc, Node::Ap(0), script.frames[0], calls.links[0]);
    plans.push(ap).expect(rt, "memory");
    let second = plan(rt, alloc, second(script), script.frames[1], calls.links[1]);
    plans.push(second).expect(rt, "memory");
    MemAir::new(alloc, plans, numbers(rt, alloc, calls.attach)).expect(rt, "memory")
}

// Where a run writes, its air, and its gate.
#[derive(Drop)]
struct Outside {
    sink: StallingSink,
    air: MemAir,
    gate: Meeting,
}

fn outside_of(
    rt: &impl Abort,
    alloc: Global,
    script: &Script,
    calls: &Calls,
    turns: u64,
) -> Outside {
    let writes = numbers(rt, alloc, calls.writes);
    let sink = MemSink::with_room(alloc, calls.room, writes).expect(rt, "memory");
    Outside {
        sink: StallingSink::new(sink, calls.stalls),
        air: air_of(rt, alloc, script, calls),
        gate: Meeting::new(turns),
    }
}

// Runs the script, and tells how it ended.
fn ended<R: Threads + Sync + Abort>(
    rt: &R,
    alloc: Global,
    script: &Script,
    calls: &Calls,
    outside: &mut Outside,
) -> (Status, Journal) {
    let mut source = source_of(rt, alloc, script, calls.reads);
    let mut draws = MemDraws::new([7; 32], numbers(rt, alloc, calls.draws));
    let mut journal = Journal::new(alloc);
    let status = run_with(
        rt,
        alloc,
        script.words,
        &mut source,
        &mut outside.sink,
        &mut outside.air,
        &mut draws,
        &mut journal,
        &outside.gate,
    );
    (status, journal)
}

// Frames of so many octets went by the link to these nodes, in order.
fn has_sent(link: &SteadyLink, sent: &[(Node, usize)]) -> bool {
    if link.sent().len() != sent.len() {
        return false;
    }
    for (frame, (to, size)) in link.sent().iter().zip(sent) {
        if frame.to != *to || frame.octets.as_slice().len() != *size {
            return false;
        }
    }
    true
}

// The links were taken back, and frames of so many octets went by them to these nodes, in order.
fn have_sent(air: &MemAir, sent: &[&[(Node, usize)]]) -> bool {
    if air.returned().len() != sent.len() {
        return false;
    }
    for (link, frames) in air.returned().iter().zip(sent) {
        if !has_sent(link, *frames) {
            return false;
        }
    }
    true
}

// The first octets of a text, that many at most.
fn first(text: &str, most: usize) -> &[u8] {
    let octets = text.as_bytes();
    &octets[..octets.len().min(most)]
}

// The run of the case ends so, and writes and sends this; and access points passed the gate so often.
fn is_as_told<R: Threads + Sync + Abort>(rt: &R, alloc: Global, case: &Case) -> bool {
    let mut outside = outside_of(rt, alloc, &case.script, &case.calls, case.turns);
    let (status, _journal) = ended(rt, alloc, &case.script, &case.calls, &mut outside);
    let (text, most) = case.report;
    status == case.status
        && outside.sink.written() == first(text, most)
        && have_sent(&outside.air, case.sent)
        && outside.gate.passes() == case.passes
}

// The journal of the case ends after so many lines of its report.
fn journal_ends<R: Threads + Sync + Abort>(
    rt: &R,
    alloc: Global,
    case: &Case,
    lines: usize,
) -> bool {
    let mut outside = outside_of(rt, alloc, &case.script, &case.calls, case.turns);
    let (_status, journal) = ended(rt, alloc, &case.script, &case.calls, &mut outside);
    ends_with(first_lines(case.report.0, lines), &journal)
}

#[test]
fn runs_in_memory(rt: HostRuntime) {
    for case in &CASES {
        assert!(rt; is_as_told(&rt, rt.alloc(), case), "{}", case.shows);
    }
    // Where the sink has room for 100 octets the journal ends with the round whose lines go past it.
    assert!(rt;
        journal_ends(&rt, rt.alloc(), &CASES[2], 7),
        "{}",
        CASES[2].shows
    );
}

#[test]
fn files_of_journals(rt: HostRuntime) {
    for case in &JOURNALS {
        assert!(rt; is_as_told(&rt, rt.alloc(), case), "{}", case.shows);
    }
}

// The first frame sent by the one link of that run is this.
fn sends_first<R: Threads + Sync + Abort>(
    rt: &R,
    alloc: Global,
    case: &Case,
    octets: &[u8],
) -> bool {
    let mut outside = outside_of(rt, alloc, &case.script, &case.calls, case.turns);
    let (_status, _journal) = ended(rt, alloc, &case.script, &case.calls, &mut outside);
    for link in outside.air.returned() {
        for frame in link.sent() {
            return frame.octets.as_slice() == octets;
        }
    }
    false
}

#[test]
fn links_of_two_processes(rt: HostRuntime) {
    for case in &LINKS {
        assert!(rt; is_as_told(&rt, rt.alloc(), case), "{}", case.shows);
    }
    for case in &FULL {
        assert!(rt; is_as_told(&rt, rt.alloc(), case), "{}", case.shows);
    }
    assert!(rt; sends_first(&rt, rt.alloc(), &LINKS[QUESTION], ASK));
    assert!(rt; sends_first(&rt, rt.alloc(), &LINKS[HELD], FOUND));
    assert!(rt; sends_first(&rt, rt.alloc(), &LINKS[ELSEWHERE], NO_HOLDER));
    assert!(rt; sends_first(&rt, rt.alloc(), &LINKS[DRAWN], DRAWN_ASK));
}

// The text has these lines, in their order, among others.
fn has_lines(text: &[u8], lines: &[&str]) -> bool {
    let mut due = lines.iter();
    let mut next = due.next();
    for line in text.split(|octet| *octet == b'\n') {
        if let Some(wanted) = next {
            if line == wanted.as_bytes() {
                next = due.next();
            }
        }
    }
    next.is_none()
}

fn roams<R: Threads + Sync + Abort>(rt: &R, alloc: Global) -> bool {
    let mut outside = outside_of(rt, alloc, &ROAM, &NONE, 0);
    let (status, _journal) = ended(rt, alloc, &ROAM, &NONE, &mut outside);
    status == Status::Done && has_lines(outside.sink.written(), &ROAM_LINES)
}

#[test]
fn file_of_a_roam(rt: HostRuntime) {
    assert!(rt; roams(&rt, rt.alloc()));
}

// How often is tested alone, and not that an access point passes before its first event.
#[test]
fn round_gate(rt: HostRuntime) {
    for case in &ROUNDS {
        assert!(rt; is_as_told(&rt, rt.alloc(), case), "{}", case.shows);
    }
}

// The first lines of a text, that many at most.
fn first_lines(text: &str, lines: usize) -> &[u8] {
    let octets = text.as_bytes();
    let mut left = lines;
    for place in 0..octets.len() {
        if left == 0 {
            return &octets[..place];
        }
        if octets[place] == b'\n' {
            left -= 1;
        }
    }
    octets
}

// The line of the last entry stands last in the text; an empty journal has none.
fn ends_with(text: &[u8], journal: &Journal) -> bool {
    let Some(entry) = journal.entries().last() else {
        return text.is_empty();
    };
    if !line_fits(entry, 128) {
        return false;
    }
    let mut line = [0; 128];
    let count = line_of(entry, &mut line);
    count > 0 && count <= text.len() && &text[text.len() - count..] == &line[..count]
}

// How a run ends: how many lines of its report stand, after how many the journal ends, and how many
// links are taken back.
#[derive(Clone, Copy)]
struct End {
    status: Status,
    stand: usize,
    lines: usize,
    links: usize,
}

fn ends_so<R: Threads + Sync + Abort>(
    rt: &R,
    alloc: Global,
    run: &Failing,
    calls: &Calls,
    end: &End,
) -> bool {
    let mut outside = outside_of(rt, alloc, &run.script, calls, 0);
    let (status, journal) = ended(rt, alloc, &run.script, calls, &mut outside);
    status == end.status
        && outside.sink.written() == first_lines(run.report, end.stand)
        && ends_with(first_lines(run.report, end.lines), &journal)
        && outside.air.returned().len() == end.links
}

// As `ends_so`, with the journal and the links of a run in which nothing fails.
fn ends_whole<R: Threads + Sync + Abort>(
    rt: &R,
    alloc: Global,
    run: &Failing,
    calls: &Calls,
    status: Status,
    stand: usize,
) -> bool {
    let end = End {
        status,
        stand,
        lines: run.lines,
        links: run.links,
    };
    ends_so(rt, alloc, run, calls, &end)
}

// Each call of that object fails in turn, and then one that is not made.
fn each_call_fails<R: Threads + Sync + Abort>(
    rt: &R,
    alloc: Global,
    run: &Failing,
    object: Object,
    ends: &[(usize, usize)],
) -> bool {
    for place in 0..ends.len() {
        let (lines, links) = ends[place];
        let (calls, status) = object.failing(place as u64);
        let end = End {
            status,
            stand: lines,
            lines,
            links,
        };
        if !ends_so(rt, alloc, run, &calls, &end) {
            return false;
        }
    }
    let (calls, _) = object.failing(ends.len() as u64);
    ends_whole(rt, alloc, run, &calls, Status::Done, ALL)
}

// The call of the sink of that number fails, or takes nothing, and the run ends so; or it fails
// where the last call of the source does, too, and then the run ends with that status.
fn write_fails<R: Threads + Sync + Abort>(
    rt: &R,
    alloc: Global,
    run: &Failing,
    number: u64,
    end: &End,
    after_read: Status,
) -> bool {
    let write = Calls {
        writes: number,
        ..NONE
    };
    let stall = Calls {
        stalls: number,
        ..NONE
    };
    let both = Calls {
        reads: run.last_read,
        writes: number,
        ..NONE
    };
    let read = End {
        status: after_read,
        ..*end
    };
    ends_so(rt, alloc, run, &write, end)
        && ends_so(rt, alloc, run, &stall, end)
        && ends_so(rt, alloc, run, &both, &read)
}

// Each call of the sink fails in turn: the lines of each round are one, and those that sum up are
// one. Then one fails that is not made.
fn each_write_fails<R: Threads + Sync + Abort>(rt: &R, alloc: Global, run: &Failing) -> bool {
    for place in 0..run.writes.len() {
        let (stand, lines) = run.writes[place];
        let end = End {
            status: Status::WriteFault,
            stand,
            lines,
            links: run.links,
        };
        if !write_fails(rt, alloc, run, place as u64, &end, Status::WriteFault) {
            return false;
        }
    }
    let rounds = run.writes.len() as u64;
    let end = End {
        status: Status::WriteFault,
        stand: run.lines,
        lines: run.lines,
        links: run.links,
    };
    let number = rounds.saturating_add(1);
    let calls = Calls {
        writes: number,
        stalls: number,
        ..NONE
    };
    write_fails(rt, alloc, run, rounds, &end, Status::ReadFault)
        && ends_whole(rt, alloc, run, &calls, Status::Done, ALL)
}

#[test]
fn one_failing_call(rt: HostRuntime) {
    for run in &FAILING {
        for (object, ends) in run.ends {
            assert!(rt;
                each_call_fails(&rt, rt.alloc(), run, *object, *ends),
                "{}",
                run.shows
            );
        }
        assert!(rt; each_write_fails(&rt, rt.alloc(), run), "{}", run.shows);
    }
}

fn has_text(rt: &impl Abort, alloc: Global, status: Status, text: &str) -> bool {
    let said = format!(in alloc; "{status}").expect(rt, "memory");
    said.as_str() == text
}

#[test]
fn texts_of_statuses(rt: HostRuntime) {
    for (status, text) in TEXTS {
        assert!(rt; has_text(&rt, rt.alloc(), *status, text), "{text}");
    }
}
