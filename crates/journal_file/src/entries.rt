//! The lines of entries, given to a sink many at a time.

ghost use Rattle.std.specs.Prelude.{◌≡◌, ◌≤◌, ◌<◌, ◌+◌, ◌++◌, ◌∷◌, [], ℕ, List, Option, All};
ghost use Rattle.std.specs.Prelude.{length, vec_len, vec_capacity, IfSome, OnErr, OnOk};
ghost use Rattle.std.specs.Io.KnownBytes.{Appends};
ghost use Rattle.domain_base.specs.Causes.{AppendsPart, HasCause};
ghost use Rattle.entry_lines.specs.Entries.{Fits};
ghost use Rattle.entry_lines.specs.Lines.{entry_line};
ghost use Rattle.entry_lines.specs.Room.{line_room};
ghost use Rattle.journal_file.specs.Counting.{entries_text};
ghost use Rattle.journal_file.specs.Waiting.{Waits};

use domain_base::{Failed, Sink, put, write_all};
use entry_lines::{entry_room, fits, write_entry};
use run_journal::Entry;

/// Lines are given to the sink as soon as so many octets wait.
pub const MOST_WAITING: usize = 8_192;

/// Room for each line of the entries with its line feed, or none where that is more than a `usize`
/// holds.
pub fn longest(entries: &[Entry]) -> Option<usize>
    ensures room { IfSome result (λ n. All (λ e. line_room e < n) entries.now) }
    ensures fit { IfSome result (λ n. All Fits entries.now) }
{
    let mut most = 0usize;
    for entry in entries {
        fits(entry);
        let Some(room) = entry_room(entry) else {
            return None;
        };
        most = most.max(room);
    }
    most.checked_add(1)
}

// Gives what waits to the sink, where it is much.
fn pass_on<K: Sink>(waiting: &mut Vec<u8>, sink: &mut K) -> Result<(), Failed>
    ensures few { OnOk result (vec_len waiting.new < MOST_WAITING) }
    ensures capacity { vec_capacity waiting.new ≡ vec_capacity waiting.old }
    ensures gone { (first : Option (List ℕ)) (text : List ℕ)
        → Waits first (K.out sink.old) waiting.old.items text
        → OnOk result (Waits first (K.out sink.new) waiting.new.items text) }
    ensures part { (first : Option (List ℕ)) (text : List ℕ)
        → Waits first (K.out sink.old) waiting.old.items text
        → OnErr result (AppendsPart first (K.out sink.new) text) }
    ensures cause { HasCause (K.faults sink.old) (K.faults sink.new) result }
    ensures unfailed { OnOk result (K.faults sink.new ≡ K.faults sink.old) }
{
    let count = waiting.len();
    if count < MOST_WAITING {
        return Ok(());
    }
    write_all(sink, waiting.as_slice())?;
    waiting.clear();
    Ok(())
}

// Puts the entry's line with its line feed after what waits.
fn put_line(entry: &Entry, line: &mut [u8], waiting: &mut Vec<u8>)
    requires line { line_room entry.now < length line.old }
    requires few { vec_len waiting.old < MOST_WAITING }
    requires room { MOST_WAITING + length line.old ≤ vec_capacity waiting.old }
    ensures len { length line.new ≡ length line.old }
    ensures room { vec_capacity waiting.old ≤ vec_capacity waiting.new }
    ensures items { waiting.new.items ≡ waiting.old.items ++ (entry_line entry.now ++ 10 ∷ []) }
{
    let count = write_entry(entry, line);
    let end = put(line, count, b"\n");
    let Ok(()) = waiting.extend_from_slice(&line[..end]) else {
        unreachable!()
    };
}

// Writes the entry's line with its line feed, or has it wait.
fn write_line<K: Sink>(
    entry: &Entry,
    line: &mut [u8],
    waiting: &mut Vec<u8>,
    sink: &mut K,
) -> Result<(), Failed>
    requires line { line_room entry.now < length line.old }
    requires room { MOST_WAITING + length line.old ≤ vec_capacity waiting.old }
    ensures len { length line.new ≡ length line.old }
    ensures room { vec_capacity waiting.old ≤ vec_capacity waiting.new }
    ensures gone { (first : Option (List ℕ)) (text : List ℕ)
        → Waits first (K.out sink.old) waiting.old.items text
        → OnOk result (Waits first (K.out sink.new) waiting.new.items
        (text ++ (entry_line entry.now ++ 10 ∷ []))) }
    ensures part { (first : Option (List ℕ)) (text : List ℕ)
        → Waits first (K.out sink.old) waiting.old.items text
        → OnErr result (AppendsPart first (K.out sink.new) text) }
    ensures cause { HasCause (K.faults sink.old) (K.faults sink.new) result }
    ensures unfailed { OnOk result (K.faults sink.new ≡ K.faults sink.old) }
{
    pass_on(waiting, sink)?;
    put_line(entry, line, waiting);
    Ok(())
}

/// Writes the lines of the entries, each with its line feed, by way of a room for one line and one
/// for octets that wait. Takes no memory.
pub fn write_entries<K: Sink>(
    entries: &[Entry],
    line: &mut [u8],
    waiting: &mut Vec<u8>,
    sink: &mut K,
) -> Result<(), Failed>
    requires lines { All (λ e. line_room e < length line.old) entries.now }
    requires empty { waiting.old.items ≡ [] }
    requires room { MOST_WAITING + length line.old ≤ vec_capacity waiting.old }
    ensures ok { OnOk result
        (Appends (K.out sink.old) (K.out sink.new) (entries_text entries.now)) }
    ensures err { OnErr result
        (AppendsPart (K.out sink.old) (K.out sink.new) (entries_text entries.now)) }
    ensures cause { HasCause (K.faults sink.old) (K.faults sink.new) result }
    ensures unfailed { OnOk result (K.faults sink.new ≡ K.faults sink.old) }
{
    for entry in entries {
        write_line(entry, line, waiting, sink)?;
    }
    write_all(sink, waiting.as_slice())
}
