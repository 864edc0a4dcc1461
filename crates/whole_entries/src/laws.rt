//! The laws. The functions do nothing; their contracts are proved.

ghost use Rattle.std.specs.Prelude.{◌≡◌, ℕ, List, map};
ghost use Rattle.run_journal.specs.declared.domain.Domain.{Domain};
ghost use Rattle.run_journal.specs.declared.domain.Event.{Event};
ghost use Rattle.run_journal.specs.declared.acts.Entry.{Entry};
ghost use Rattle.run_journal.specs.Premises.{In};
ghost use Rattle.domain_rules.specs.Network.{InForm};
ghost use Rattle.domain_rules.specs.Present.{present, earlier};
ghost use Rattle.domain_rules.specs.Explained.{Explained};
ghost use Rattle.domain_rules.specs.HeldRight.{HeldRight};
ghost use Rattle.entry_lines.specs.Entries.{HasLine, bare};
ghost use Rattle.whole_entries.specs.Whole.{complete};

/// An entry of a run, as its line tells it, is completed to that entry, and to no other, by the
/// network as it is in the round of the entry: that of the header with the keys as they were changed
/// in earlier rounds, which the lines of these rounds tell.
pub fn entries_are_completed()
    ensures whole { (d : Domain) (rounds : List (List Event)) (j : List Entry) (e : Entry)
        → Explained d rounds j → HeldRight d j → In e j
        → complete (present d (earlier e.round j)) (bare e) ≡ e }
    ensures network { (d : Domain) (round : ℕ) (j : List Entry)
        → present d (earlier round (map bare j)) ≡ present d (earlier round j) }
{}

/// Each entry of a run has a line.
pub fn entries_have_lines()
    ensures { (d : Domain) (rounds : List (List Event)) (j : List Entry) (e : Entry)
        → InForm d → Explained d rounds j → In e j → HasLine e.act }
{}
