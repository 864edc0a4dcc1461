//! A law of turns. The function does nothing; its contract is proved.

ghost use Rattle.std.specs.Prelude.{ℕ, List};
ghost use Rattle.run_journal.specs.declared.domain.Domain.{Domain};
ghost use Rattle.run_journal.specs.declared.domain.Event.{Event};
ghost use Rattle.run_journal.specs.declared.acts.Entry.{Entry};
ghost use Rattle.domain_rules.specs.Rounds.{Place, in_order};
ghost use Rattle.domain_rules.specs.Explained.{AllHappen};
ghost use Rattle.event_turns.specs.Turns.{AreTurns, ordered, turns_from};

/// The nodes that take the events of a round, in order, are those at which they happen.
pub fn turns_are_places()
    ensures { (d : Domain) (events : List Event) (old : List Entry) (round : ℕ)
        (places : List Place) → AllHappen d events old round places
        → AreTurns events old round (ordered (turns_from d 0 events)) (in_order places) }
{}
