//! What stays as the network grows, or keys of other stations change. The functions do nothing; their
//! contracts are proved.

ghost use Rattle.std.specs.Prelude.{◌≡◌, ◌<◌, ℕ, List, length};
ghost use Rattle.run_journal.specs.declared.domain.Domain.{Domain};
ghost use Rattle.run_journal.specs.declared.acts.Act.{Act};
ghost use Rattle.node_base.specs.Changing.{Rekeys};
ghost use Rattle.node_base.specs.Growing.{Grows};
ghost use Rattle.station_node.specs.State.{State};
ghost use Rattle.station_node.specs.Stands.{Stands};

/// A station that is listed in a network stands for the same histories in each larger one: of the
/// same header, and with further nodes behind those that there were.
pub fn stands_as_the_network_grows()
    ensures grown { (d e : Domain) (first : ℕ) (s : State) (h : List Act) → Grows d e
        → s.number < length d.stas → Stands d first s h → Stands e first s h }
{}

/// A station stands for the same histories in each network that is as it was but for keys of other
/// stations.
pub fn stands_as_other_keys_change()
    ensures rekeyed { (d e : Domain) (first : ℕ) (s : State) (h : List Act)
        → Rekeys d e (λ k. k ≡ s.number) → s.number < length d.stas → Stands d first s h
        → Stands e first s h }
{}
