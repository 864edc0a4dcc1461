//! A line read as the line of an entry.

ghost use Rattle.std.specs.Prelude.{◌≡◌, ◌≤◌, ◌↔◌, None, Some, IfOk, IfSome, IsTrue, length};
ghost use Rattle.run_journal.specs.declared.acts.Entry.{Entry as AnyEntry};
ghost use Rattle.entry_lines.specs.Acts.{ReadsEntry};
ghost use Rattle.entry_lines.specs.Entries.{SpellsEntry};
ghost use Rattle.entry_lines.specs.Lines.{entry_line};
ghost use Rattle.entry_lines.specs.Room.{line_room};

use crate::acts::{act_of, kind_of, sent_number};
use crate::fitting::fits;
use crate::room::entry_room;
use crate::splitting::{after_fields, field};
use crate::values::{is_word, node_of, number_of};
use crate::writing::write_entry;
use domain_base::NoMemory;
use run_journal::Entry;
use std::alloc::Global;

// The entry whose line it is, if it is one.
fn entry_of(alloc: Global, octets: &[u8]) -> Result<Entry, NoMemory>
    ensures { IfOk result (λ e. ReadsEntry octets.now e) }
{
    let round = field(octets, 0);
    let node = field(octets, 1);
    let node = node_of(node);
    let text = after_fields(octets, 2);
    let kind = kind_of(text);
    let act = act_of(alloc, kind, node, text)?;
    Ok(Entry {
        round: number_of(round),
        node,
        number: sent_number(kind, text),
        act,
    })
}

// Whether the octets are the line of the entry, which is written to `out`.
fn is_written(octets: &[u8], entry: &Entry, out: &mut [u8]) -> bool
    requires { line_room entry.now ≤ length out.old }
    ensures { IsTrue result ↔ (octets.now ≡ entry_line entry.now) }
{
    let count = write_entry(entry, out);
    let (line, _) = out.split_at(count);
    is_word(octets, line)
}

// Whether the octets are the line of the entry.
fn is_line_of(alloc: Global, octets: &[u8], entry: &Entry) -> Result<bool, NoMemory>
    ensures { IfOk result (λ b. IsTrue b ↔ (octets.now ≡ entry_line entry.now)) }
{
    let Some(room) = entry_room(entry) else {
        return Err(NoMemory);
    };
    let mut line = vec![in alloc; 0; room]?;
    Ok(is_written(octets, entry, &mut line))
}

/// The entry whose line the octets are, without a line feed: as the line tells it, that is without
/// the listed node of octets taken, the peer of a key derived, for which the node itself stands,
/// the name of a PMK-R1 found, for which zero octets stand, and the number of what is no frame
/// sent, for which 0 stands. None where they are the line of no entry.
pub fn read_entry(alloc: Global, octets: &[u8]) -> Result<Option<Entry>, NoMemory>
    ensures found { IfOk result (λ o. IfSome o (λ e. SpellsEntry octets.now e)) }
    ensures only { IfOk result (λ o. (e : AnyEntry) → SpellsEntry octets.now e → o ≡ Some e) }
{
    let entry = entry_of(alloc, octets)?;
    fits(&entry);
    let is_line = is_line_of(alloc, octets, &entry)?;
    if is_line { Ok(Some(entry)) } else { Ok(None) }
}
