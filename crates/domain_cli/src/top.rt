//! The top call.

ghost use Rattle.std.specs.Prelude.{◌≡◌, ◌≢◌, [], ℕ, List, map, reverse, MatchResult, OnOk};
ghost use Rattle.std.specs.Prelude.{OnErr};
ghost use Rattle.std.specs.Io.KnownBytes.{Appends};
ghost use Rattle.domain_base.specs.Causes.{HasCause, AppendsPart};
ghost use Rattle.run_journal.specs.Report.{summary};
ghost use Rattle.command_words.specs.Words.{command_of};
ghost use Rattle.domain_cli.specs.Reporting.{IsReported, rest_of};
ghost use Rattle.domain_cli.specs.Storms.{IsSummary};
ghost use Rattle.domain_cli.specs.Promises.{Keeps, Outside, Promises, outside, over, over_sink};
ghost use Rattle.script_runs.specs.Outer.{OnDraws, OnLinks};
ghost use Rattle.script_runs.specs.Sessions.{Output, output};
ghost use Rattle.script_runs.specs.Stops.{found_blame};
ghost use Rattle.script_runs.specs.Written.{HasWritten};

use crate::ending::status;
use crate::filing::journaled;
use crate::laws::runs_are_safe;
use crate::linking::linked;
use crate::status::Status;
use command_words::{Command, read_words};
use domain_base::{Air, Draws, Failed, Sink, Source, write_all};
use domain_rules::looks_are_right;
use domain_world::{Gate, Unbarred};
use journal_report::{SUMMARY_ROOM, summary_of};
use run_journal::{Entry, Journal, Premises};
use script_runs::{Ending, Found, Host, Transcript, live, replay, run_storm};
use std::alloc::Global;
use std::thread::Threads;

// Writes the summary of a journal. Takes no memory.
fn write_summary<K: Sink>(sink: &mut K, entries: &[Entry], premises: Premises) -> Result<(), Failed>
    ensures ok { OnOk result (Appends (K.out sink.old) (K.out sink.new)
        (summary (reverse entries.now) premises)) }
    ensures err { OnErr result (AppendsPart (K.out sink.old) (K.out sink.new)
        (summary (reverse entries.now) premises)) }
    ensures cause { HasCause (K.faults sink.old) (K.faults sink.new) result }
    ensures unfailed { OnOk result (K.faults sink.new ≡ K.faults sink.old) }
{
    let mut text = [0; SUMMARY_ROOM];
    let count = summary_of(entries, premises, &mut text);
    write_all(sink, &text[..count])
}

// Writes what follows the lines of a journal: with the whole script the summary. Takes no memory.
fn write_rest<K: Sink>(
    sink: &mut K,
    entries: &[Entry],
    premises: Premises,
    found: Found,
) -> Result<(), Failed>
    ensures ok { OnOk result (Appends (K.out sink.old) (K.out sink.new)
        (rest_of found (reverse entries.now) premises)) }
    ensures err { OnErr result (AppendsPart (K.out sink.old) (K.out sink.new)
        (rest_of found (reverse entries.now) premises)) }
    ensures whole { OnErr result (found ≡ Found.Whole) }
    ensures cause { HasCause (K.faults sink.old) (K.faults sink.new) result }
    ensures unfailed { OnOk result (K.faults sink.new ≡ K.faults sink.old) }
{
    match found {
        Found::Whole => write_summary(sink, entries, premises),
        Found::Stopped(_) => Ok(()),
        Found::Unended(..) => Ok(()),
        Found::ReadFault => Ok(()),
    }
}

// Writes what follows the lines, where all of them were written, and tells how the run ended.
fn report<K: Sink>(sink: &mut K, journal: &Journal, ending: Ending) -> Status
    ensures reports { (first : Output) → HasWritten ending.found ending.written first
        (output (K.out sink.old) (K.faults sink.old)) journal.now.entries
        → IsReported ending.found result first (output (K.out sink.new) (K.faults sink.new))
        journal.now.entries }
    ensures read_fault { result ≡ Status.ReadFault → ending.found ≡ Found.ReadFault }
    ensures asked { result ≢ Status.Usage }
    ensures link_fault { result ≡ Status.LinkFault → found_blame ending.found ≡ OnLinks }
    ensures draw_fault { result ≡ Status.DrawFault → found_blame ending.found ≡ OnDraws }
{
    let entries = journal.entries();
    let premises = journal.premises();
    match ending.written {
        Ok(()) => {}
        Err(_) => return Status::WriteFault,
    }
    match write_rest(sink, entries, premises, ending.found) {
        Ok(()) => status(ending.found),
        Err(_) => Status::WriteFault,
    }
}

// Writes the summary of a storm. Takes no memory.
fn write_storm<K: Sink>(sink: &mut K, journal: &Journal) -> Result<(), Failed>
    ensures written { (text : List ℕ) × IsSummary journal.now.entries text × MatchResult result
        (λ _. Appends (K.out sink.old) (K.out sink.new) text)
        (λ _. AppendsPart (K.out sink.old) (K.out sink.new) text) }
    ensures cause { HasCause (K.faults sink.old) (K.faults sink.new) result }
    ensures unfailed { OnOk result (K.faults sink.new ≡ K.faults sink.old) }
{
    let entries = journal.entries();
    write_summary(sink, entries, journal.premises())
}

// Runs the storm of that number, and writes its summary.
fn stormed<K: Sink>(alloc: Global, number: u32, sink: &mut K, journal: &mut Journal) -> Status
    requires { journal.old.entries ≡ [] }
    ensures { (rest : Outside) → Keeps (Command.Storm number)
        (over_sink rest (K.out sink.old) (K.faults sink.old))
        (over_sink rest (K.out sink.new) (K.faults sink.new)) result journal.new.entries }
{
    runs_are_safe();
    let Ok(()) = run_storm(alloc, number, journal) else {
        return Status::NoMemory;
    };
    let Ok(()) = write_storm(sink, journal) else {
        return Status::WriteFault;
    };
    Status::Done
}

// Runs the script on the source, and reports what happened.
fn replayed<R: Threads + Sync, S: Source, K: Sink, G: Gate + Sync>(
    host: &Host<'_, R, G>,
    source: &mut S,
    sink: &mut K,
    journal: &mut Journal,
) -> Status
    requires { journal.old.entries ≡ [] }
    ensures { (rest : Outside) → Keeps Command.Replay
        (over rest (S.left source.old) (S.faults source.old) (K.out sink.old) (K.faults sink.old))
        (over rest (S.left source.new) (S.faults source.new) (K.out sink.new) (K.faults sink.new))
        result journal.new.entries }
{
    runs_are_safe();
    let mut copy = Transcript::Unkept;
    let ending = replay(host, source, sink, &mut copy, journal);
    report(sink, journal, ending)
}

// Runs the script on the source with frames by the links of that air, and reports what happened.
fn lived<R: Threads + Sync, S: Source, K: Sink, A: Air, D: Draws, G: Gate + Sync>(
    host: &Host<'_, R, G>,
    source: &mut S,
    sink: &mut K,
    air: &mut A,
    draws: &mut D,
    journal: &mut Journal,
) -> Status
    requires { journal.old.entries ≡ [] }
    ensures { (port : ℕ) → Keeps (Command.Live port)
        (outside (S.left source.old) (S.faults source.old) (K.out sink.old) (K.faults sink.old)
        (A.told air.old) (A.faults air.old) (D.last draws.old) (D.faults draws.old))
        (outside (S.left source.new) (S.faults source.new) (K.out sink.new) (K.faults sink.new)
        (A.told air.new) (A.faults air.new) (D.last draws.new) (D.faults draws.new))
        result journal.new.entries }
{
    runs_are_safe();
    let ending = live(host, source, sink, air, draws, journal);
    report(sink, journal, ending)
}

/// Runs the command of the words, and reports what happened.
///
/// `replay` runs the script on the source. `live` with a port from 1024 to 64000, in one to ten
/// decimal digits, runs it with frames by the links of the air, to which each node is attached
/// after its line; a line is run as soon as it was read, and however the run ends all links that
/// were attached are taken back, in the order of their nodes. `storm` with a number below 2^32,
/// in one to ten decimal digits, runs the storm of that number, and writes its summary alone.
/// `journal` runs the script on the source as `replay` does, and writes in place of the report the
/// file of its journal, once the whole script was run, and else nothing: this file holds keys.
/// `link` with such a port and an end, `holder` or `asker`, runs the script of that end of a link
/// between two processes, with datagrams by one link of the air. Reading the words may run out of
/// memory, and then nothing is run.
///
/// The access points of a round take their events side by side, each on a thread of its own where
/// one can be started.
///
/// The report of a script is written as its rounds end: the lines of an event or a round go out
/// after it, and before more of the source is read. In a live run they go out before the frames of
/// that round are sent, and in a turn each frame that a node takes is a round. The lines of nodes
/// go out with those of the first round, or at the end. Where the sink fails over the lines of a
/// round, no more is read, run or sent, and the run ends with `WriteFault`. The summary goes out
/// after the whole script.
///
/// What it promises is one record, `Promises`. Words that ask for no command are refused, and
/// nothing is read, written, run or called (`Refuses`). Else, by the command (`Keeps`): what it did
/// (`did`), that it left alone what it does not ask (`unasked`), that a fault is told exactly where
/// it happened (`caused`, `told`), that there is no other answer (`complete`), and that the run was
/// safe where what is drawn is fresh, derived keys do not collide and every MIC that verified was
/// made by a holder of its key (`safe`): that goes for the order of the group keys that stations
/// take, too, for pairwise keys that are renewed, and for announcements, of which each that is handed
/// up was sent by its access point under that number, and is handed up once. Of an end of a link,
/// `safe` says nothing. What a command did is
///
/// - of a replay (`Runs`): its journal is that of the rounds that the octets read spell, of which
///   each has its end, and key holders answered rightly in it; the octets written are its report;
/// - of a live run (`Lives`): the same with the seed that was drawn and what nodes took of their
///   links in each turn, up to 16 frames each in their order; each event and each frame taken is a
///   round by itself. Where the air tells, each turn took what the links had in front, but for the
///   last one where a call failed, or memory ran out, in it, which took a front of that; and the
///   links taken back, which are those of all nodes in their order, but for a node whose link could
///   not be attached, whose line is the last, were sent what their nodes sent, in order, each frame
///   to whom its address 1 names; where a link failed or memory ran out over a frame, all of the
///   rounds before the last one, and one common front of what that one sent: not the whole where
///   the last line is an event or the end of a round, and the whole where it is a turn that took
///   nothing. They have left what no turn took, but for one frame at most that was polled for a
///   round for which there was no memory. What the air has for nodes that have no link stays;
/// - of a run whose journal goes into a file (`Journals`): the same as of a replay, but for what is
///   written: the file (`IsFile`) after the whole script, or a part of it where the sink failed, and
///   in all other cases nothing. The file is the lines of the script, which are the octets read, and
///   a line for each entry, which tells that entry as a line does; completed by the network of the
///   script as it is in the round of the entry, which the lines tell, each is the entry that the
///   journal has. Memory may run out over the copy of the script, and over the file before its first
///   octet;
/// - of an end of a link (`Links`): its journal is the steps that the octets read tell, and nothing
///   else, each that of the one `Asker`, or of the one `Server` over its key holder, after those
///   before it; the octets written are their lines, or a front of them where one could not be
///   written. Where the air tells, the link taken back was sent the datagrams of these steps, in
///   order, each to the other end, and in each turn the end took what the link had in front, up to
///   16 datagrams, but for the last one where a call failed, or memory ran out, in it, which took a
///   front of that; where a step's line could not be written, or its datagram not be sent, all but
///   that one was sent;
/// - of a storm (`StormReports`): its journal is that of its events, each a round by itself, in its
///   network, or of a front of them where memory ran out, and key holders answered rightly in it;
///   the octets written are its summary.
pub fn run<R: Threads + Sync, S: Source, K: Sink, A: Air, D: Draws>(
    rt: &R,
    alloc: Global,
    words: &[&str],
    source: &mut S,
    sink: &mut K,
    air: &mut A,
    draws: &mut D,
    journal: &mut Journal,
) -> Status
    requires { journal.old.entries ≡ [] }
    ensures { Promises (command_of (map (λ w. w.now) words.now))
        (outside (S.left source.old) (S.faults source.old) (K.out sink.old) (K.faults sink.old)
        (A.told air.old) (A.faults air.old) (D.last draws.old) (D.faults draws.old))
        (outside (S.left source.new) (S.faults source.new) (K.out sink.new) (K.faults sink.new)
        (A.told air.new) (A.faults air.new) (D.last draws.new) (D.faults draws.new))
        result journal.new.entries }
{
    run_with(
        rt, alloc, words, source, sink, air, draws, journal, &Unbarred,
    )
}

/// Runs the command of the words as `run` does. In each round that a script ends, every access
/// point that has events in it passes the gate once, before the first of them. An event outside a
/// round passes none, and neither does one of a storm, or a frame that a node takes of its link.
/// What `run` promises holds for every gate.
pub fn run_with<R: Threads + Sync, S: Source, K: Sink, A: Air, D: Draws, G: Gate + Sync>(
    rt: &R,
    alloc: Global,
    words: &[&str],
    source: &mut S,
    sink: &mut K,
    air: &mut A,
    draws: &mut D,
    journal: &mut Journal,
    gate: &G,
) -> Status
    requires { journal.old.entries ≡ [] }
    ensures { Promises (command_of (map (λ w. w.now) words.now))
        (outside (S.left source.old) (S.faults source.old) (K.out sink.old) (K.faults sink.old)
        (A.told air.old) (A.faults air.old) (D.last draws.old) (D.faults draws.old))
        (outside (S.left source.new) (S.faults source.new) (K.out sink.new) (K.faults sink.new)
        (A.told air.new) (A.faults air.new) (D.last draws.new) (D.faults draws.new))
        result journal.new.entries }
{
    looks_are_right();
    let Ok(command) = read_words(alloc, words) else {
        return Status::NoMemory;
    };
    match command {
        Some(Command::Replay) => {
            let host = Host { rt, alloc, gate };
            replayed(&host, source, sink, journal)
        }
        Some(Command::Journal) => {
            let host = Host { rt, alloc, gate };
            journaled(&host, source, sink, journal)
        }
        Some(Command::Storm { number }) => stormed(alloc, number, sink, journal),
        Some(Command::Live { .. }) => {
            let host = Host { rt, alloc, gate };
            lived(&host, source, sink, air, draws, journal)
        }
        Some(Command::Link { port: _, end }) => {
            linked(alloc, end, source, sink, air, draws, journal)
        }
        None => Status::Usage,
    }
}
