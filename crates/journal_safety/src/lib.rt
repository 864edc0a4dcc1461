//! The safety theorem: what the definitions of nodes and the premises of a run give, one function
//! for each part of it. The functions do nothing; their contracts are proved.
//!
//! The premises of each are the same. Listed nodes have addresses of one node each, which differ;
//! the definitions explain the journal; the values drawn are fresh; derived keys do not collide;
//! and whatever verified was sealed by a holder of its key. With suite 4, what the network puts
//! into frames of fast transition is of octets and of the sizes of their fields, and key holders
//! answered rightly. Each part holds for any number of stations and access points, whatever frames
//! come in whatever order, however stations roam, and whenever their pre-shared keys are changed and
//! pairwise keys are renewed.
//!
//! That addresses differ is needed: where two stations have one address, an access point that ends
//! a handshake with the second of them takes it for the first.
#![tactic(auto)]

ghost use Rattle.std.specs.Prelude.{◌≡◌, List};
ghost use Rattle.domain_base.specs.declared.names.Akm.TheVariants.{FtPsk};
ghost use Rattle.run_journal.specs.declared.domain.Domain.{Domain};
ghost use Rattle.run_journal.specs.declared.domain.Event.{Event};
ghost use Rattle.run_journal.specs.declared.acts.Entry.{Entry};
ghost use Rattle.run_journal.specs.Premises.{Fresh, NoCollision, Unforged};
ghost use Rattle.run_journal.specs.Safe.{InstalledOnce, Joined, Once, Sourced, use_of, up_of};
ghost use Rattle.domain_rules.specs.Network.{IsNamed};
ghost use Rattle.domain_rules.specs.Explained.{Explained};
ghost use Rattle.domain_rules.specs.HeldRight.{HeldRight};
ghost use Rattle.domain_rules.specs.InOctets.{InOctets};
ghost use Rattle.journal_safety.specs.NeverBack.{NeverBack};
ghost use Rattle.journal_safety.specs.Renewed.{FollowsOthers, FormerUnused};
ghost use Rattle.journal_safety.specs.SentFrames.{FromFrames};

/// An accepted final message joins equal derivations: whoever accepts one has the inputs of a
/// derivation that its peer made before.
pub fn joins()
    ensures { (d : Domain) (rounds : List (List Event)) (j : List Entry)
        → (d.akm ≡ FtPsk → InOctets d) → (d.akm ≡ FtPsk → HeldRight d j)
        → IsNamed d → Explained d rounds j → Fresh j → NoCollision j → Unforged j → Joined j }
{}

/// No node installs a key twice.
pub fn installs_once()
    ensures { (d : Domain) (rounds : List (List Event)) (j : List Entry)
        → (d.akm ≡ FtPsk → InOctets d) → (d.akm ≡ FtPsk → HeldRight d j) → IsNamed d
        → Explained d rounds j → Fresh j → NoCollision j → Unforged j → InstalledOnce j }
{}

/// The group keys of each kind that a station takes from one access point, installed or resumed,
/// never go back in the order of drawing, over all its associations and whatever is repeated or
/// comes late. So it is enough that it remembers the last of them.
pub fn keys_never_go_back()
    ensures { (d : Domain) (rounds : List (List Event)) (j : List Entry)
        → (d.akm ≡ FtPsk → InOctets d) → (d.akm ≡ FtPsk → HeldRight d j)
        → IsNamed d → Explained d rounds j → Fresh j → NoCollision j → Unforged j → NeverBack j }
{}

/// No node uses a packet number twice under a key.
pub fn uses_once()
    ensures { (d : Domain) (rounds : List (List Event)) (j : List Entry)
        → (d.akm ≡ FtPsk → InOctets d) → (d.akm ≡ FtPsk → HeldRight d j)
        → IsNamed d → Explained d rounds j → Fresh j → NoCollision j → Unforged j → Once use_of j }
{}

/// What a node hands up, a payload or an announcement, its peer used before, with that key, packet
/// number and octets, and sent it under them in a frame; an access point did, where the key is a
/// group key. And it is handed up once.
pub fn hands_up_once()
    ensures sourced { (d : Domain) (rounds : List (List Event)) (j : List Entry)
        → (d.akm ≡ FtPsk → InOctets d) → (d.akm ≡ FtPsk → HeldRight d j)
        → IsNamed d → Explained d rounds j → Fresh j → NoCollision j → Unforged j → Sourced j }
    ensures sent { (d : Domain) (rounds : List (List Event)) (j : List Entry)
        → (d.akm ≡ FtPsk → InOctets d) → (d.akm ≡ FtPsk → HeldRight d j)
        → IsNamed d → Explained d rounds j → Fresh j → NoCollision j → Unforged j → FromFrames j }
    ensures once { (d : Domain) (rounds : List (List Event)) (j : List Entry)
        → (d.akm ≡ FtPsk → InOctets d) → (d.akm ≡ FtPsk → HeldRight d j)
        → IsNamed d → Explained d rounds j → Fresh j → NoCollision j → Unforged j → Once up_of j }
{}

/// A final message that renews a pairwise key follows one of the same peer with other nonces, and
/// after it its node uses no packet number under the former key.
pub fn renews_safely()
    ensures follows { (d : Domain) (rounds : List (List Event)) (j : List Entry)
        → (d.akm ≡ FtPsk → InOctets d) → (d.akm ≡ FtPsk → HeldRight d j)
        → IsNamed d → Explained d rounds j → Fresh j → NoCollision j → Unforged j → FollowsOthers j }
    ensures former { (d : Domain) (rounds : List (List Event)) (j : List Entry)
        → (d.akm ≡ FtPsk → InOctets d) → (d.akm ≡ FtPsk → HeldRight d j)
        → IsNamed d → Explained d rounds j → Fresh j → NoCollision j → Unforged j → FormerUnused j }
{}
