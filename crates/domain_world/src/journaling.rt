//! The acts of a node put on the journal.

ghost use Rattle.std.specs.Prelude.{◌≡◌, ◌≤◌, ◌<◌, ◌+◌, suc, cond, [], ◌∷◌, ◌++◌, length, vec_len};
ghost use Rattle.std.specs.Prelude.{vec_capacity};
ghost use Rattle.run_journal.specs.Acts.{is_sent};
ghost use Rattle.domain_rules.specs.Explained.{number_of, push};
ghost use Rattle.domain_world.specs.Owning.{places};
ghost use Rattle.domain_world.specs.Waiting.{joined, waiting};

use crate::part::Part;
use act_memory::Outbox;
use domain_base::Node;
use run_journal::{Act, Entry, Journal};

// The number of an act that is journaled at that place. The place of a frame is noted.
fn number(act: &Act, place: usize, frames: &mut Vec<usize>) -> u64
    requires { vec_len frames.old < vec_capacity frames.old }
    ensures number { result ≡ cond (is_sent act.now) (suc (length frames.old.items)) 0 }
    ensures noted { frames.new.items
        ≡ cond (is_sent act.now) (frames.old.items ++ place ∷ []) frames.old.items }
    ensures length { vec_len frames.new ≤ vec_len frames.old + 1 }
    ensures capacity { vec_capacity frames.old ≤ vec_capacity frames.new }
{
    match act {
        Act::Sent { .. } => {
            frames.push_reserved(place);
            frames.len() as u64
        }
        _ => 0,
    }
}

// One act: a frame sent has the next frame's number, and its place is noted; every other act has
// number 0.
fn journal_act(round: u64, node: Node, act: Act, frames: &mut Vec<usize>, journal: &mut Journal)
    requires room { 0 < journal.old.spare }
    requires places { vec_len frames.old < vec_capacity frames.old }
    requires noted { frames.old.items ≡ places journal.old.entries }
    ensures entries { journal.new.entries
        ≡ record {
          round = round;
          node = node;
          number = number_of act journal.old.entries;
          act = act;
        } ∷ journal.old.entries }
    ensures noted { frames.new.items ≡ places journal.new.entries }
    ensures room { journal.old.spare ≤ journal.new.spare + 1 }
    ensures length { vec_len frames.new ≤ vec_len frames.old + 1 }
    ensures capacity { vec_capacity frames.old ≤ vec_capacity frames.new }
{
    let number = number(&act, journal.len(), frames);
    journal.add(Entry {
        round,
        node,
        number,
        act,
    });
}

/// The acts that wait, in order, as those of a node in a round. Takes no memory.
///
/// `frames` are the places of the frames sent, and stay so.
pub(crate) fn journal_acts(
    round: u64,
    node: Node,
    out: &mut Outbox,
    frames: &mut Vec<usize>,
    journal: &mut Journal,
)
    requires room { length out.old.acts ≤ journal.old.spare }
    requires places { vec_len frames.old + length out.old.acts ≤ vec_capacity frames.old }
    requires noted { frames.old.items ≡ places journal.old.entries }
    ensures entries { journal.new.entries ≡ push round node out.old.acts journal.old.entries }
    ensures noted { frames.new.items ≡ places journal.new.entries }
    ensures out { out.new.acts ≡ [] }
    ensures spare { out.new.spare ≡ out.old.spare }
    ensures room { journal.old.spare ≤ journal.new.spare + length out.old.acts }
    ensures length { vec_len frames.new ≤ vec_len frames.old + length out.old.acts }
    ensures capacity { vec_capacity frames.old ≤ vec_capacity frames.new }
{
    while let Some(act) = out.pop() {
        journal_act(round, node, act, frames, journal);
    }
}

/// What waits of the parts of a round, one after the other. Takes no memory.
pub(crate) fn journal_parts(
    round: u64,
    parts: Vec<Part>,
    frames: &mut Vec<usize>,
    journal: &mut Journal,
)
    requires room { waiting parts.items ≤ journal.old.spare }
    requires places { vec_len frames.old + waiting parts.items ≤ vec_capacity frames.old }
    requires noted { frames.old.items ≡ places journal.old.entries }
    ensures entries { journal.new.entries ≡ joined round parts.items journal.old.entries }
    ensures noted { frames.new.items ≡ places journal.new.entries }
{
    for part in parts {
        let Part { node, mut out } = part;
        journal_acts(round, node, &mut out, frames, journal);
    }
}
