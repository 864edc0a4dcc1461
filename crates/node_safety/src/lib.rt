//! What holds of one node alone, whatever its peers are, one function for each part of it. The
//! functions do nothing; their contracts are proved.
//!
//! The premises of each are the same, and none speaks of the peers: what they send is any octets,
//! and what they are is any programs. The history of the node is one that the definitions give:
//! it started, and each event that came added the acts of that event, while the network that it
//! knows grew and keys of its stations changed. Listed nodes have addresses of one node each, which
//! differ. What the node draws is new, and no peer knew it before; the keys that it derives do not
//! collide. With suite 4, what the network puts into frames is of octets, and key holders gave it
//! the right keys.
#![tactic(auto)]

ghost use Rattle.std.specs.Prelude.{ℕ, List};
ghost use Rattle.domain_base.specs.declared.names.Node.{Node};
ghost use Rattle.run_journal.specs.declared.domain.Domain.{Domain};
ghost use Rattle.run_journal.specs.declared.acts.Act.{Act};
ghost use Rattle.node_safety.specs.Alone.{Coming, Comes, IsSound, PairwiseOnce, UsedOnce};
ghost use Rattle.node_safety.specs.Alone.{UpOnce, GroupsNew};

/// The node installs no pairwise key twice.
pub fn installs_pairwise_once()
    ensures { (start d : Domain) (first : ℕ) (n : Node) (comings : List Coming) (h : List Act)
        → Comes start first n comings d h → IsSound h → PairwiseOnce h }
{}

/// The node uses no packet number twice under a key, pairwise or its own group key.
pub fn uses_once()
    ensures { (start d : Domain) (first : ℕ) (n : Node) (comings : List Coming) (h : List Act)
        → Comes start first n comings d h → IsSound h → UsedOnce h }
{}

/// Between two installations of a key the node hands up no payload twice, from that peer under that
/// key, key id, TID and packet number. A pairwise key is installed once; of a group key a peer
/// decides how often it gives it.
pub fn hands_up_once()
    ensures { (start d : Domain) (first : ℕ) (n : Node) (comings : List Coming) (h : List Act)
        → Comes start first n comings d h → IsSound h → UpOnce h }
{}

/// An access point makes each of its own group keys current once. A station installs no group key
/// of an access point that is one of the last two that it installed from it.
pub fn installs_group_keys()
    ensures { (start d : Domain) (first : ℕ) (n : Node) (comings : List Coming) (h : List Act)
        → Comes start first n comings d h → IsSound h → GroupsNew h }
{}
