//! What stays as the network grows, or keys of stations change. The functions do nothing; their
//! contracts are proved.

ghost use Rattle.std.specs.Prelude.{◌<◌, ◌≢◌, ℕ, List, length};
ghost use Rattle.key_holders.specs.declared.rows.HeldRow.{HeldRow};
ghost use Rattle.run_journal.specs.declared.domain.Domain.{Domain};
ghost use Rattle.run_journal.specs.declared.acts.Act.{Act};
ghost use Rattle.domain_rules.specs.Network.{IsNamed};
ghost use Rattle.node_base.specs.Changing.{Rekeys};
ghost use Rattle.node_base.specs.Growing.{Grows};
ghost use Rattle.ap_node.specs.State.{State, no_station, station_at};
ghost use Rattle.ap_node.specs.Stands.{Stands, StandsWith};

/// An access point that is listed in a network stands for the same histories in each larger one: of
/// the same header, and with further nodes behind those that there were.
pub fn stands_as_the_network_grows()
    ensures grown { (d e : Domain) (first : ℕ) (s : State) (h : List Act) → Grows d e
        → s.number < length d.aps → Stands d first s h → Stands e first s h }
    ensures with_rows { (d e : Domain) (first : ℕ) (s : State) (xs : List HeldRow) (h : List Act)
        → Grows d e → IsNamed e → s.number < length d.aps → StandsWith d first s xs h
        → StandsWith e first s xs h }
{}

/// An access point stands for the same histories in each network that is as it was but for keys of
/// stations with which it has neither an attempt nor a session.
pub fn stands_as_keys_change()
    ensures rekeyed { (d e : Domain) (first : ℕ) (s : State) (h : List Act)
        → Rekeys d e (λ k. station_at s.stations k ≢ no_station) → s.number < length d.aps
        → Stands d first s h → Stands e first s h }
{}
