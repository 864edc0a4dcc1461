//! What a storm keeps of the frames that were sent.

ghost use Rattle.std.specs.Prelude.{◌≡◌, ◌++◌, OnErr, OnOk};
ghost use Rattle.storm.specs.Frames.{frame_sent};
ghost use Rattle.storm.specs.Course.{HasSeen, HasSeenAll};

use domain_base::{NoMemory, Peer};
use run_journal::{Act, Entry, Journal};

/// A frame that was sent.
#[derive(Clone, Copy)]
pub struct Frame {
    /// To whom.
    pub to: Peer,
    /// How many octets it has.
    pub size: usize,
}

// Takes a frame, where the entry is one of a frame that was sent.
fn see_entry(frames: &mut Vec<Frame>, entry: &Entry) -> Result<(), NoMemory>
    ensures ok { OnOk result (frames.new.items ≡ frames.old.items ++ frame_sent entry.now.act) }
    ensures err { OnErr result (frames.new.items ≡ frames.old.items) }
{
    if let Act::Sent { peer, octets, .. } = &entry.act {
        frames.push(Frame {
            to: *peer,
            size: octets.as_slice().len(),
        })?;
    }
    Ok(())
}

/// Takes the frames in the entries that are new.
pub(crate) fn see(
    seen: &mut usize,
    frames: &mut Vec<Frame>,
    journal: &Journal,
) -> Result<(), NoMemory>
    requires { HasSeen seen.old frames.old.items journal.now.entries }
    ensures all { OnOk result (HasSeenAll seen.new frames.new.items journal.now.entries) }
    ensures kept { HasSeen seen.new frames.new.items journal.now.entries }
{
    let entries = journal.entries();
    for place in *seen..entries.len() {
        see_entry(frames, &entries[place])?;
        *seen = place + 1;
    }
    Ok(())
}
