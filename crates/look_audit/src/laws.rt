//! A law of looks. The function does nothing; its contract is proved.

ghost use Rattle.std.specs.Prelude.{◌≡◌, ◌↔◌, ◌++◌, ℕ, List, Some};
ghost use Rattle.domain_base.specs.declared.names.Node.{Node};
ghost use Rattle.key_hierarchy.specs.declared.answers.PullAnswer.{PullAnswer};
ghost use Rattle.run_journal.specs.declared.domain.Domain.{Domain};
ghost use Rattle.run_journal.specs.declared.acts.Act.TheVariants.{Looked};
ghost use Rattle.run_journal.specs.declared.acts.Entry.{Entry};
ghost use Rattle.domain_rules.specs.Network.{holder_of};
ghost use Rattle.domain_rules.specs.Present.{present, earlier};
ghost use Rattle.domain_rules.specs.HeldRight.{HeldAt, looking};
ghost use Rattle.packet_history.specs.Own.{entries_at};
ghost use Rattle.look_audit.specs.Own.{HeldIn};

/// Whether a look is answered rightly is told by the entries of the access point that asks before
/// it, and by those of the holder, where there is one, with later ones of all nodes.
pub fn holders_alone_tell()
    ensures { (d : Domain) (j later : List Entry) (e : Entry) (past : List Entry)
        (id name : List ℕ) (p : Node) (answer : PullAnswer) (theirs : List Entry)
        → e.act ≡ Looked id name p answer
        → ((r : Node) → holder_of d id ≡ Some r → theirs ≡ entries_at r j)
        → HeldAt d (later ++ j) e past ↔ HeldIn (present d (earlier e.round (later ++ j))) id
        (looking e name p) answer (entries_at e.node past) (later ++ theirs) }
{}
