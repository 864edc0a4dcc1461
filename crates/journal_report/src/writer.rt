//! The report of a run that is under way: its lines go out as rounds end.

ghost use Rattle.std.specs.Prelude.{◌≡◌, ◌≤◌, ◌++◌, ℕ, List, length, reverse, take, IfOk, OnErr, OnOk};
ghost use Rattle.std.specs.Io.KnownBytes.{Appends};
ghost use Rattle.domain_base.specs.Causes.{AppendsPart, HasCause};
ghost use Rattle.run_journal.specs.Report.{line, lines};
ghost use Rattle.journal_report.specs.Since.{lines_since};

use crate::line::{line_fits, line_of};
use crate::report::write_line;
use domain_base::{Failed, NoMemory, Sink, write_all};
use run_journal::{Entry, Journal};
use std::alloc::Global;
use std::marker::Model;

// How many octets of lines wait at most, before they go out together.
const WAITING: usize = 8192;

/// Writes the lines of a journal that grows, each once. Contracts see how many of its entries, from
/// the first on, are written.
#[derive(Drop)]
pub struct ReportWriter {
    buffer: Vec<u8>,
    written: usize,
}

impl Model for ReportWriter {
    ghost use Rattle.std.specs.Prelude.{◌≡◌, ℕ, length};

    ghost Value = { ℕ };

    ghost view = { λ w. w.written };

    ghost invariant = { λ w. length w.buffer.items ≡ 8192 };
}

impl ReportWriter {
    /// Before the first entry of a journal. Takes the memory for 8,192 octets of lines, which is all
    /// that it ever takes.
    pub fn start(alloc: Global) -> Result<Self, NoMemory>
        ensures { IfOk result (λ w. w ≡ 0) }
    {
        let buffer = vec![in alloc; 0; WAITING]?;
        Ok(ReportWriter { buffer, written: 0 })
    }

    /// How many entries are written.
    pub fn written(&self) -> usize
        ensures { result ≡ self.now }
    {
        self.written
    }

    /// Writes the lines of the entries that are new in the journal since the last call that did not
    /// fail, each as [`line_of`] has it. Takes no memory.
    ///
    /// Where the sink fails, a part of these lines has gone out.
    pub fn round_end<K: Sink>(&mut self, journal: &Journal, sink: &mut K) -> Result<(), Failed>
        requires { self.old ≤ length journal.now.entries }
        ensures ok { OnOk result (Appends (K.out sink.old) (K.out sink.new)
            (lines_since self.old journal.now.entries)) }
        ensures all { OnOk result (self.new ≡ length journal.now.entries) }
        ensures err { OnErr result (AppendsPart (K.out sink.old) (K.out sink.new)
            (lines_since self.old journal.now.entries)) }
        ensures same { OnErr result (self.new ≡ self.old) }
        ensures cause { HasCause (K.faults sink.old) (K.faults sink.new) result }
        ensures unfailed { OnOk result (K.faults sink.new ≡ K.faults sink.old) }
    {
        let entries = journal.entries();
        let (_, news) = entries.split_at(self.written);
        write_together(news, &mut self.buffer, sink)?;
        self.written = entries.len();
        Ok(())
    }
}

// Writes the lines of the entries in order, as many at once as the buffer has room for.
fn write_together<K: Sink>(entries: &[Entry], buffer: &mut [u8], sink: &mut K) -> Result<(), Failed>
    requires { length buffer.old ≡ WAITING }
    ensures ok { OnOk result
        (Appends (K.out sink.old) (K.out sink.new) (lines (reverse entries.now))) }
    ensures err { OnErr result
        (AppendsPart (K.out sink.old) (K.out sink.new) (lines (reverse entries.now))) }
    ensures cause { HasCause (K.faults sink.old) (K.faults sink.new) result }
    ensures unfailed { OnOk result (K.faults sink.new ≡ K.faults sink.old) }
{
    let mut waiting = 0;
    for entry in entries {
        waiting = add_line(entry, waiting, buffer, sink)?;
    }
    write_all(sink, &buffer[..waiting])
}

// Adds the line of one entry to so many octets that wait at the front of the buffer, and answers how
// many wait then. Where there is no room for it, they go out, and the line after them.
fn add_line<K: Sink>(
    entry: &Entry,
    waiting: usize,
    buffer: &mut [u8],
    sink: &mut K,
) -> Result<usize, Failed>
    requires long { length buffer.old ≡ WAITING }
    requires within { waiting ≤ length buffer.old }
    ensures within { IfOk result (λ count. count ≤ length buffer.new) }
    ensures ok { IfOk result (λ count. (gone : List ℕ)
        × (gone ++ take count buffer.new ≡ take waiting buffer.old ++ line entry.now)
        × Appends (K.out sink.old) (K.out sink.new) gone) }
    ensures err { OnErr result (AppendsPart (K.out sink.old) (K.out sink.new)
        (take waiting buffer.old ++ line entry.now)) }
    ensures cause { HasCause (K.faults sink.old) (K.faults sink.new) result }
    ensures unfailed { OnOk result (K.faults sink.new ≡ K.faults sink.old) }
{
    if line_fits(entry, buffer.len() - waiting) {
        let (_, room) = buffer.split_at_mut(waiting);
        let count = line_of(entry, room);
        return Ok(waiting + count);
    }
    write_all(sink, &buffer[..waiting])?;
    write_line(entry, buffer, sink)?;
    Ok(0)
}
