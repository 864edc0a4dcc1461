//! Laws of the parts of safety. The functions do nothing; their contracts are proved.

ghost use Rattle.std.specs.Prelude.{◌≡◌, ◌↔◌, List, Option, Some};
ghost use Rattle.domain_base.specs.declared.names.Node.{Node};
ghost use Rattle.key_hierarchy.specs.declared.inputs.Inputs.{Inputs};
ghost use Rattle.run_journal.specs.declared.acts.Act.{Act};
ghost use Rattle.run_journal.specs.declared.acts.Act.TheVariants.{Finished};
ghost use Rattle.run_journal.specs.declared.acts.Entry.{Entry};
ghost use Rattle.run_journal.specs.Safe.{Use, InstallsNew, UsesNew, Once, JoinedAt, SourcedAt};
ghost use Rattle.run_journal.specs.Safe.{up_from};
ghost use Rattle.packet_history.specs.Own.{entries_at, InstallsNewIn, UsesNewIn, OnceIn, JoinedIn};
ghost use Rattle.packet_history.specs.Own.{SourcedIn};

/// Whether an entry installs a key, or has a packet number, that its node did not have before is
/// told by the entries of that node alone.
pub fn one_node_tells()
    ensures installs { (e : Entry) (past : List Entry)
        → InstallsNew e past ↔ InstallsNewIn e.act (entries_at e.node past) }
    ensures uses { (f : Act → Option Use) (e : Entry) (past : List Entry)
        → UsesNew f e past ↔ UsesNewIn f e.act (entries_at e.node past) }
    ensures once { (f : Act → Option Use) (n : Node) (j : List Entry)
        → Once f j → OnceIn f (entries_at n j) }
{}

/// Whether an entry accepts or hands up what its peer derived or used before is told by the entries
/// of that peer.
pub fn other_nodes_tell()
    ensures joined { (e : Entry) (p : Node) (i : Inputs) (past : List Entry)
        → e.act ≡ Finished p i → JoinedAt e past ↔ JoinedIn e (entries_at p past) }
    ensures sourced { (e : Entry) (p : Node) (past : List Entry)
        → up_from e.act ≡ Some p → SourcedAt e past ↔ SourcedIn e (entries_at p past) }
{}
