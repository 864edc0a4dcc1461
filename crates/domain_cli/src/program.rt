//! What the program does between its streams.

ghost use Rattle.std.specs.Prelude.{◌≡◌, ◌≢◌, ◌⊎◌, ℕ, List, Some, IfOk, map, string_bytes};
ghost use Rattle.run_journal.specs.declared.acts.Entry.{Entry as AnyEntry};
ghost use Rattle.command_words.specs.Words.{command_of};
ghost use Rattle.link_steps.specs.declared.ends.LinkEnd.{LinkEnd};
ghost use Rattle.domain_cli.specs.Ends.{exit_number};
ghost use Rattle.domain_cli.specs.Promises.{Promises, outside};
ghost use Rattle.domain_cli.specs.Machine.{HasRun, OnMachine, streams};

use crate::status::{Known, Status};
use crate::top::run;
use command_words::{Command, read_words, wrong_word};
use domain_base::{Air, Draws, NoMemory, Sink, Source};
use loopback::{MachineRandom, OsDraws, SocketFault, UdpAir};
use run_journal::Journal;
use std::alloc::{AllocGlobal, Global};
use std::cell::Cell;
use std::env::{self, Env};
use std::io::{self, ErrorKind};
use std::net::Net;
use std::random::RandomSource;
use std::thread::Threads;

/// The number that the program exits with.
pub fn exit_number(status: Status) -> u8
    ensures { result ≡ exit_number status }
{
    match status {
        Status::Done => 0,
        Status::Usage => 1,
        Status::Script(..) => 2,
        Status::ReadFault => 3,
        Status::WriteFault => 4,
        Status::NoMemory => 5,
        Status::LinkFault => 6,
        Status::DrawFault => 7,
        Status::Limit(_) => 8,
    }
}

// How the program ends where its words could not be read, by the kind of the error: a word that is
// not UTF-8 is none of a command, and else memory ran out.
fn unread(kind: ErrorKind) -> Status
    ensures usage { kind ≡ ErrorKind.InvalidData → result ≡ Status.Usage }
    ensures memory { kind ≢ ErrorKind.InvalidData → result ≡ Status.NoMemory }
    ensures answer { (result ≡ Status.Usage) ⊎ (result ≡ Status.NoMemory) }
{
    match kind {
        ErrorKind::InvalidData => Status::Usage,
        _ => Status::NoMemory,
    }
}

// The words behind the program's name.
fn words_of<R: Env + AllocGlobal>(rt: &R) -> io::Result<Vec<String>> {
    let args = env::args(rt)?;
    let words = args.skip(1).collect::<Vec<String>>(rt.alloc())?;
    Ok(words)
}

// The first port of a live run, or of a link. No other run opens one.
fn first_port(asked: Option<Command>) -> u16
    ensures live { (port : ℕ) → asked ≡ Some (Command.Live port) → result ≡ port }
    ensures link { (port : ℕ) (end : LinkEnd) → asked ≡ Some (Command.Link port end)
        → result ≡ port }
{
    match asked {
        Some(Command::Live { port }) => port,
        Some(Command::Link { port, .. }) => port,
        Some(Command::Replay) | Some(Command::Storm { .. }) | Some(Command::Journal) | None => 0,
    }
}

// The words, as texts: all of them, in order.
fn texts(alloc: Global, owned: &[String]) -> Result<Vec<&str>, NoMemory>
    ensures { IfOk result (λ words. map (λ w. w.now) words.items ≡ map string_bytes owned.now) }
{
    let mut words = Vec::new(alloc);
    for word in owned {
        match words.push(word.as_str()) {
            Ok(()) => {}
            Err(_) => return Err(NoMemory),
        }
    }
    Ok(words)
}

// Runs the command of the words between a source and a sink, over sockets of this machine and with
// seeds from its random source.
fn run_over<'a, R: Threads + Sync + Net + RandomSource + AllocGlobal, S: Source, K: Sink>(
    rt: &'a R,
    words: &[&str],
    source: &mut S,
    sink: &mut K,
    air: &mut UdpAir<'a, &'a R>,
    draws: &mut OsDraws<MachineRandom<&'a R>>,
) -> Status
    ensures { (entries : List AnyEntry) × Promises (command_of (map (λ w. w.now) words.now))
        (outside (S.left source.old) (S.faults source.old) (K.out sink.old) (K.faults sink.old)
        (⟦<UdpAir<'a, &'a R> as Air>⟧.told air.old) (⟦<UdpAir<'a, &'a R> as Air>⟧.faults air.old)
        (⟦<OsDraws<MachineRandom<&'a R>> as Draws>⟧.last draws.old)
        (⟦<OsDraws<MachineRandom<&'a R>> as Draws>⟧.faults draws.old))
        (outside (S.left source.new) (S.faults source.new) (K.out sink.new) (K.faults sink.new)
        (⟦<UdpAir<'a, &'a R> as Air>⟧.told air.new) (⟦<UdpAir<'a, &'a R> as Air>⟧.faults air.new)
        (⟦<OsDraws<MachineRandom<&'a R>> as Draws>⟧.last draws.new)
        (⟦<OsDraws<MachineRandom<&'a R>> as Draws>⟧.faults draws.new))
        result entries }
{
    let alloc = rt.alloc();
    let mut journal = Journal::new(alloc);
    run(rt, alloc, words, source, sink, air, draws, &mut journal)
}

// Runs the command of the words between a source and a sink, where memory does not run out before:
// over sockets of this machine from that port on which a live run asks for. What is known of a
// socket that failed is kept there.
fn run_words<R: Threads + Sync + Net + RandomSource + AllocGlobal, S: Source, K: Sink>(
    rt: &R,
    owned: &[String],
    source: &mut S,
    sink: &mut K,
    told: &Cell<Option<SocketFault>>,
) -> Status
    ensures { OnMachine (map string_bytes owned.now)
        (streams (S.left source.old) (S.faults source.old) (K.out sink.old) (K.faults sink.old))
        (streams (S.left source.new) (S.faults source.new) (K.out sink.new) (K.faults sink.new))
        result }
{
    let alloc = rt.alloc();
    let Ok(words) = texts(alloc, owned) else {
        return Status::NoMemory;
    };
    let Ok(asked) = read_words(alloc, &words) else {
        return Status::NoMemory;
    };
    let access_points = Cell::new(0);
    let mut air = UdpAir::new(rt, first_port(asked), &access_points, told);
    let mut draws = OsDraws::new(MachineRandom::new(rt));
    run_over(rt, &words, source, sink, &mut air, &mut draws)
}

/// Runs the command that the program's words say between a source and a sink, as `run` does; a
/// live run over UDP sockets of this machine, from the port on that the words say, and with seeds
/// from its random source. Where the words cannot be read or memory runs out before, nothing is
/// run.
///
/// It promises what `run` does for the words that it read. Which words the program has is not told.
/// What is known of a socket that failed is kept in the room that it is lent.
pub fn command<R: Threads + Sync + Net + RandomSource + Env + AllocGlobal, S: Source, K: Sink>(
    rt: &R,
    source: &mut S,
    sink: &mut K,
    told: &Cell<Option<SocketFault>>,
) -> Status
    ensures { HasRun
        (streams (S.left source.old) (S.faults source.old) (K.out sink.old) (K.faults sink.old))
        (streams (S.left source.new) (S.faults source.new) (K.out sink.new) (K.faults sink.new))
        result }
{
    match words_of(rt) {
        Ok(words) => run_words(rt, &words, source, sink, told),
        Err(error) => unread(error.kind()),
    }
}

/// Which of the program's words is wrong, where they are no command.
pub fn known_of_words<R: Env + AllocGlobal>(rt: &R) -> Known {
    let Ok(owned) = words_of(rt) else {
        return Known::NotText;
    };
    let Ok(words) = texts(rt.alloc(), &owned) else {
        return Known::Nothing;
    };
    let wrong = wrong_word(&words);
    Known::Word(wrong.word, wrong.fault)
}
