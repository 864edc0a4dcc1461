//! Entries compared.

ghost use Rattle.std.specs.Prelude.{◌≡◌, IsTrue};
ghost use Rattle.entry_comparison.specs.Kinds.{IsNodeAct};

use crate::acts::is_act;
use domain_base::Node;
use run_journal::{Act, Entry};

/// When an act was done, at which node and, for a frame sent, with which number.
#[derive(Clone, Copy)]
pub struct Stamp {
    /// The round.
    pub round: u64,
    /// The node.
    pub node: Node,
    /// The number of the frame sent, from 1; 0 for every other act.
    pub number: u64,
}

/// Whether the entry is that act, done then, which is an act of a node.
pub fn is_entry(entry: &Entry, stamp: Stamp, act: &Act) -> bool
    ensures same { IsTrue result → entry.now ≡ record {
      round = stamp.round;
      node = stamp.node;
      number = stamp.number;
      act = act.now;
    } }
    ensures only { IsNodeAct act.now → entry.now ≡ record {
      round = stamp.round;
      node = stamp.node;
      number = stamp.number;
      act = act.now;
    } → IsTrue result }
{
    entry.round == stamp.round
        && entry.node == stamp.node
        && entry.number == stamp.number
        && is_act(&entry.act, act)
}
