//! The file of a journal, given to a sink.

ghost use Rattle.std.specs.Prelude.{◌≡◌, ◌≢◌, ◌≤◌, ◌<◌, ◌+◌, [], All, length, reverse};
ghost use Rattle.std.specs.Prelude.{vec_capacity, Err, IfOk, OnErr, OnOk};
ghost use Rattle.std.specs.Io.KnownBytes.{Appends};
ghost use Rattle.domain_base.specs.Causes.{AppendsPart, HasCause, Rose};
ghost use Rattle.entry_lines.specs.Entries.{Fits};
ghost use Rattle.entry_lines.specs.Room.{line_room};
ghost use Rattle.journal_file.specs.Counting.{text_of};
ghost use Rattle.journal_file.specs.File.{IsLined};
ghost use Rattle.journal_file.specs.Files.{Files};

use crate::counting::{LineCount, counted};
use crate::entries::{MOST_WAITING, longest, write_entries};
use crate::head::{write_head, write_script};
use domain_base::{Failed, NoMemory, Sink};
use entry_lines::written_lines_read_back;
use run_journal::Entry;
use std::alloc::Global;

/// Why a file was not written, or not whole.
#[derive(Clone, Copy)]
pub enum FileFault {
    /// Memory ran out before anything was written.
    NoMemory,
    /// The sink failed, and a part of the file was written.
    WriteFault,
}

// Room for the longest line of the entries, and room for octets that wait.
fn rooms(alloc: Global, entries: &[Entry]) -> Result<(Vec<u8>, Vec<u8>), NoMemory>
    ensures lines { IfOk result
        (λ r. All (λ e. line_room e < length r.0.items) entries.now) }
    ensures fit { IfOk result (λ r. All Fits entries.now) }
    ensures empty { IfOk result (λ r. r.1.items ≡ []) }
    ensures room { IfOk result
        (λ r. MOST_WAITING + length r.0.items ≤ vec_capacity r.1) }
{
    let Some(size) = longest(entries) else {
        return Err(NoMemory);
    };
    let Some(most) = MOST_WAITING.checked_add(size) else {
        return Err(NoMemory);
    };
    let line = vec![in alloc; 0; size]?;
    let waiting = Vec::with_capacity(alloc, most)?;
    Ok((line, waiting))
}

// Writes the whole file of a script in so many lines, by way of these rooms. Takes no memory.
fn write_text<K: Sink>(
    script: &[u8],
    count: LineCount,
    entries: &[Entry],
    line: &mut [u8],
    waiting: &mut Vec<u8>,
    sink: &mut K,
) -> Result<(), Failed>
    requires lines { All (λ e. line_room e < length line.old) entries.now }
    requires empty { waiting.old.items ≡ [] }
    requires room { MOST_WAITING + length line.old ≤ vec_capacity waiting.old }
    ensures ok { OnOk result
        (Appends (K.out sink.old) (K.out sink.new) (text_of script.now count entries.now)) }
    ensures err { OnErr result
        (AppendsPart (K.out sink.old) (K.out sink.new) (text_of script.now count entries.now)) }
    ensures cause { HasCause (K.faults sink.old) (K.faults sink.new) result }
    ensures unfailed { OnOk result (K.faults sink.new ≡ K.faults sink.old) }
{
    write_head(count.lines, sink)?;
    write_script(script, count.unended, sink)?;
    write_entries(entries, line, waiting, sink)
}

/// Writes the file of a journal: `audit 1`, `script` and how many lines the script has, these
/// lines, and one line for each entry, oldest first. A carriage return stays where it stood;
/// octets of the script after its last line feed are a line too, and get one.
///
/// All memory is taken before anything is written: room for the longest line, and for some 8,192
/// octets, so that not each line is a write of its own. The file holds keys.
pub fn write_file<K: Sink>(
    alloc: Global,
    script: &[u8],
    entries: &[Entry],
    sink: &mut K,
) -> Result<(), FileFault>
    requires { All IsLined entries.now }
    ensures written { Files result script.now (reverse entries.now)
        (K.out sink.old) (K.out sink.new) }
    ensures fault { result ≡ Err FileFault.WriteFault
        → Rose (K.faults sink.old) (K.faults sink.new) }
    ensures fault_told { K.faults sink.new ≢ K.faults sink.old
        → result ≡ Err FileFault.WriteFault }
{
    written_lines_read_back();
    let count = counted(script);
    let Ok((mut line, mut waiting)) = rooms(alloc, entries) else {
        return Err(FileFault::NoMemory);
    };
    match write_text(script, count, entries, &mut line, &mut waiting, sink) {
        Ok(()) => Ok(()),
        Err(_) => Err(FileFault::WriteFault),
    }
}
