//! What is believed. The functions do nothing; their contracts are proved.

ghost use Rattle.std.specs.Prelude.{◌≡◌, ℕ, List};
ghost use Rattle.key_holders.specs.Listed.{below, rows_at};
ghost use Rattle.run_journal.specs.declared.domain.Domain.{Domain};
ghost use Rattle.run_journal.specs.declared.acts.Act.{Act};
ghost use Rattle.domain_rules.specs.Network.{IsNamed};
ghost use Rattle.domain_base.specs.declared.names.Node.TheVariants.{Ap};
ghost use Rattle.held_rows.specs.Knows.{KnowsRows};
ghost use Rattle.held_rows.specs.Looks.{AreLooked};
ghost use Rattle.ft_exchange.specs.Asking.{ids_of};
ghost use Rattle.ap_node.specs.Looking.{AnsweredBy};
ghost use Rattle.embedded_node.specs.Believed.{AreRight, AreRightLooks};
ghost use Rattle.embedded_node.specs.Pushed.{Holding, ids_in, PulledFrom};

/// What others gave an access point is believed: where each of those keys is the right one, so is
/// each that is answered as an event asks for it, by the own rows or by what was given. Of one that
/// is not right nothing is said: whoever gave it can have known it.
pub fn pushed_keys_are_believed()
    ensures { (d : Domain) (a : Holding) (h g : List Act) → IsNamed d → ids_in a ≡ ids_of d
        → KnowsRows d (Ap 0) (rows_at a.rows 0) h → AreRight d a
        → AreLooked (AnsweredBy (PulledFrom a) (ids_in a) (below 1) (λ r. rows_at a.rows r) d 0)
        d g → AreRightLooks d g }
{}
