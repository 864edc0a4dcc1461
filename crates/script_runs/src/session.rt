//! A domain under way, whose report is written as its rounds end.

ghost use Rattle.std.specs.Prelude.{◌≡◌, ◌≤◌, ◌<◌, ◌+◌, ◌^◌, suc, length, IfOk, IsOk, OnOk, OnErr};
ghost use Rattle.std.specs.Io.KnownBytes.{Appends};
ghost use Rattle.domain_base.specs.Causes.{AppendsPart, HasCause};
ghost use Rattle.run_journal.specs.declared.domain.Domain.{Domain as AnyDomain};
ghost use Rattle.run_journal.specs.Changed.{changed_by};
ghost use Rattle.run_journal.specs.Limits.{most_events};
ghost use Rattle.domain_rules.specs.Explained.{Step, Follows};
ghost use Rattle.domain_world.specs.Owning.{Owns, IsEventIn, AreEventsIn, IsSince};
ghost use Rattle.journal_report.specs.Since.{lines_since};
ghost use Rattle.script_runs.specs.Sessions.{OnRun, OnUnrun, Writes, output};

use domain_base::{Failed, NoMemory, Sink};
use domain_world::{Gate, World};
use journal_report::ReportWriter;
use run_journal::{Event, Journal};
use std::alloc::Global;
use std::thread::Threads;

/// A world, and how many entries of its journal are written to a sink.
///
/// All calls of a session are given one journal, which is the world's own, and where one sink is
/// given to all of them, empty before the first and written by them alone, it has the lines of the
/// whole journal after each call that succeeds.
#[derive(Drop)]
pub struct Session {
    /// The domain.
    pub world: World,
    /// What writes the lines. Contracts see how many entries it has written.
    pub writer: ReportWriter,
}

/// Why a round is not done, or its lines are not written.
#[derive(Clone, Copy)]
pub enum SessionFault {
    /// Memory ran out before the round. The journal and the sink are as before.
    NoMemory,
    /// The round was run, and the journal has it, but the sink failed: a front of the lines that
    /// were to be written has gone out.
    WriteFault,
}

impl Session {
    /// Before anything is written. Takes the memory of its writer, which takes no more afterwards.
    pub fn start(alloc: Global, world: World) -> Result<Self, NoMemory>
        ensures world { IfOk result (λ s. s.world ≡ world) }
        ensures none { IfOk result (λ s. s.writer ≡ 0) }
    {
        match ReportWriter::start(alloc) {
            Ok(writer) => Ok(Session { world, writer }),
            Err(_) => Err(NoMemory),
        }
    }

    /// Writes the lines of the entries that are not written, in a run in which no event and no
    /// round was run. Takes no memory.
    pub fn lines<K: Sink>(&mut self, journal: &Journal, sink: &mut K) -> Result<(), Failed>
        requires { self.old.writer ≤ length journal.now.entries }
        ensures ok { OnOk result (Appends (K.out sink.old) (K.out sink.new)
            (lines_since self.old.writer journal.now.entries)) }
        ensures all { OnOk result (self.new.writer ≡ length journal.now.entries) }
        ensures err { OnErr result (AppendsPart (K.out sink.old) (K.out sink.new)
            (lines_since self.old.writer journal.now.entries)) }
        ensures same { OnErr result (self.new.writer ≡ self.old.writer) }
        ensures idle { self.old.writer ≡ length journal.now.entries → IsOk result }
        ensures world { self.new.world ≡ self.old.world }
        ensures cause { HasCause (K.faults sink.old) (K.faults sink.new) result }
        ensures unfailed { OnOk result (K.faults sink.new ≡ K.faults sink.old) }
    {
        if self.writer.written() == journal.len() {
            return Ok(());
        }
        self.writer.round_end(journal, sink)
    }

    /// Runs one event, a round by itself, on no gate, and then writes the lines of the entries that
    /// are not written. Its conditions are those of `World::event`.
    pub fn event<K: Sink>(
        &mut self,
        event: &Event,
        journal: &mut Journal,
        sink: &mut K,
    ) -> Result<(), SessionFault>
        requires own { Owns self.old.world journal.old.entries }
        requires event { IsEventIn self.old.world.domain (length self.old.world.frames)
            journal.old.entries event.now }
        requires few { self.old.world.rounds + 1 < 2 ^ 64 }
        requires written { self.old.writer ≤ length journal.old.entries }
        ensures step { OnRun result ((c : AnyDomain) → IsSince c self.old.world journal.old.entries
            → Step c (suc self.old.world.rounds) event.now journal.old.entries
            journal.new.entries) }
        ensures since { (c : AnyDomain) → IsSince c self.old.world journal.old.entries
            → IsSince c self.new.world journal.new.entries }
        ensures rounds { OnRun result (self.new.world.rounds ≡ suc self.old.world.rounds) }
        ensures domain { OnRun result
            (self.new.world.domain ≡ changed_by self.old.world.domain event.now) }
        ensures own { Owns self.new.world journal.new.entries }
        ensures same { OnUnrun result (self.new ≡ self.old) }
        ensures kept { OnUnrun result (journal.new.entries ≡ journal.old.entries) }
        ensures writes { Writes result (output (K.out sink.old) (K.faults sink.old))
            (output (K.out sink.new) (K.faults sink.new)) self.old.writer self.new.writer
            journal.new.entries }
    {
        let Ok(()) = self.world.event(event, journal) else {
            return Err(SessionFault::NoMemory);
        };
        match self.writer.round_end(journal, sink) {
            Ok(()) => Ok(()),
            Err(_) => Err(SessionFault::WriteFault),
        }
    }

    /// Runs the events as one round, in which each access point that has some passes the gate once,
    /// and then writes the lines of the entries that are not written. Its conditions are those of
    /// `World::round_with`.
    pub fn round<R: Threads + Sync, K: Sink, G: Gate + Sync>(
        &mut self,
        rt: &R,
        events: &[Event],
        journal: &mut Journal,
        sink: &mut K,
        gate: &G,
    ) -> Result<(), SessionFault>
        requires own { Owns self.old.world journal.old.entries }
        requires events { AreEventsIn self.old.world.domain (length self.old.world.frames)
            journal.old.entries events.now }
        requires few_events { length events.now ≤ most_events }
        requires few { self.old.world.rounds + 1 < 2 ^ 64 }
        requires written { self.old.writer ≤ length journal.old.entries }
        ensures steps { OnRun result ((c : AnyDomain)
            → IsSince c self.old.world journal.old.entries
            → Follows c (suc self.old.world.rounds) events.now journal.old.entries
            journal.new.entries) }
        ensures since { OnRun result ((c : AnyDomain)
            → IsSince c self.old.world journal.old.entries
            → IsSince c self.new.world journal.new.entries) }
        ensures rounds { OnRun result (self.new.world.rounds ≡ suc self.old.world.rounds) }
        ensures domain { self.new.world.domain ≡ self.old.world.domain }
        ensures own { OnRun result (Owns self.new.world journal.new.entries) }
        ensures kept { OnUnrun result (journal.new.entries ≡ journal.old.entries) }
        ensures writes { Writes result (output (K.out sink.old) (K.faults sink.old))
            (output (K.out sink.new) (K.faults sink.new)) self.old.writer self.new.writer
            journal.new.entries }
    {
        let Ok(()) = self.world.round_with(rt, events, journal, gate) else {
            return Err(SessionFault::NoMemory);
        };
        match self.writer.round_end(journal, sink) {
            Ok(()) => Ok(()),
            Err(_) => Err(SessionFault::WriteFault),
        }
    }
}
