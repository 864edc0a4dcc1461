//! The sizes of the frames that were sent.

ghost use Rattle.std.specs.Prelude.{◌≡◌, ◌++◌, OnErr, OnOk};
ghost use Rattle.script_lines.specs.Due.{draft_of};
ghost use Rattle.frame_script.specs.Headers.{HasSeen, HasSeenAll, HasSeenBy, size_sent, sizes_by};
ghost use Rattle.frame_script.specs.Headers.{sizes_of};
ghost use Rattle.frame_script.specs.Sentences.{seeing};

use crate::lines::is_within;
use domain_base::NoMemory;
use run_journal::{Act, Entry, Journal};
use script_lines::Due;

// Takes the size of a frame, where the entry is one of a frame that was sent.
fn see_entry(sizes: &mut Vec<usize>, entry: &Entry) -> Result<(), NoMemory>
    ensures ok { OnOk result (sizes.new.items ≡ sizes.old.items ++ size_sent entry.now.act) }
    ensures err { OnErr result (sizes.new.items ≡ sizes.old.items) }
{
    if let Act::Sent { octets, .. } = &entry.act {
        sizes.push(octets.as_slice().len())?;
    }
    Ok(())
}

// Takes the sizes of the frames in the entries that are new.
fn see(seen: &mut usize, sizes: &mut Vec<usize>, journal: &Journal) -> Result<(), NoMemory>
    requires { HasSeen (seeing seen.old sizes.old.items) journal.now.entries }
    ensures all { OnOk result (HasSeenAll (seeing seen.new sizes.new.items) journal.now.entries) }
    ensures kept { HasSeen (seeing seen.new sizes.new.items) journal.now.entries }
{
    let entries = journal.entries();
    for place in *seen..entries.len() {
        see_entry(sizes, &entries[place])?;
        *seen = place + 1;
    }
    Ok(())
}

/// Takes the sizes of the frames in the entries that are new, but none while a round is open.
#[tactic(auto, using(crate::proofs::Within::seeing_by))]
pub(crate) fn see_by(
    due: &Due,
    seen: &mut usize,
    sizes: &mut Vec<usize>,
    journal: &Journal,
) -> Result<(), NoMemory>
    requires { HasSeen (seeing seen.old sizes.old.items) journal.now.entries }
    ensures named { OnOk result (sizes.new.items
        ≡ sizes_by (draft_of due.now) sizes.old.items (sizes_of journal.now.entries)) }
    ensures all { OnOk result (HasSeenBy (draft_of due.now) (seeing seen.new sizes.new.items)
        journal.now.entries) }
    ensures kept { HasSeen (seeing seen.new sizes.new.items) journal.now.entries }
{
    if is_within(due) {
        return Ok(());
    }
    see(seen, sizes, journal)?;
    Ok(())
}
