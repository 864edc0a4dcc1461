//! The laws. The functions do nothing; their contracts are proved.

ghost use Rattle.std.specs.Prelude.{◌≡◌, ℕ, suc, List, [], ◌∷◌, Option, None, Some};
ghost use Rattle.std.specs.Prelude.{length, reverse};
ghost use Rattle.run_journal.specs.declared.domain.Domain.{Domain};
ghost use Rattle.run_journal.specs.declared.domain.Event.{Event};
ghost use Rattle.run_journal.specs.declared.acts.Entry.{Entry};
ghost use Rattle.domain_rules.specs.Due.{AllCanCome, onto};
ghost use Rattle.domain_rules.specs.Explained.{AllHappen, Explained};
ghost use Rattle.domain_rules.specs.Present.{present};
ghost use Rattle.domain_rules.specs.Rounds.{Place, in_order};
ghost use Rattle.audit_rules.specs.Wrong.{AreRight, FailsRound, IsFirst, IsSound, MeetsRound};
ghost use Rattle.audit_rules.specs.Wrong.{first_due};
ghost use Rattle.audit_rules.specs.declared.cause.Cause.{Cause};
ghost use Rattle.audit_rules.specs.Causes.{cause_number};
ghost use Rattle.audit_rules.specs.Looks.{IsFirstWrong};
ghost use Rattle.audit_rules.specs.Rounds.{EndsBy, PlacesMet, StartsMet};
ghost use Rattle.audit_rules.specs.Files.{AllInForm, AreInForm, FailsFile, MeetsFile};

/// Entries that are told are not wrong where nothing is, and where something is, one place is the
/// first, and one cause the least there: so it is of a round that follows rounds which explain the
/// journal before it, and of a whole file.
pub fn first_place_is_one()
    ensures place { (d : Domain) (old told due : List Entry) (place cause other least : ℕ)
        → IsFirst d old told due place cause → IsFirst d old told due other least
        → (place ≡ other) × (cause ≡ least) }
    ensures none { (d : Domain) (old told due : List Entry) (place cause : ℕ)
        → AreRight d old told due → IsFirst d old told due place cause → ⊥ }
    ensures in_round { (d : Domain) (rounds : List (List Event)) (events : List Event)
        (old told : List Entry) (place cause other least : ℕ) → Explained d rounds old
        → FailsRound d (suc (length rounds)) events old told place cause
        → FailsRound d (suc (length rounds)) events old told other least
        → (place ≡ other) × (cause ≡ least) }
    ensures none_in_round { (d : Domain) (rounds : List (List Event)) (events : List Event)
        (old told : List Entry) (place cause : ℕ) → Explained d rounds old
        → MeetsRound d (suc (length rounds)) events old told
        → FailsRound d (suc (length rounds)) events old told place cause → ⊥ }
    ensures in_file { (d : Domain) (rounds : List (List Event)) (entries : List Entry)
        (place cause other least : ℕ) → FailsFile d rounds entries place cause
        → FailsFile d rounds entries other least → (place ≡ other) × (cause ≡ least) }
    ensures none_in_file { (d : Domain) (rounds : List (List Event)) (entries : List Entry)
        (place cause : ℕ) → MeetsFile d rounds entries → FailsFile d rounds entries place cause
        → ⊥ }
{}

/// Where nothing is wrong in the entries of round 0 they are a journal without a round that the
/// definitions explain, in which key holders answered rightly, and which is safe; and where nothing
/// is wrong in those of a round after such a journal, the journal goes on so.
pub fn rounds_go_on()
    ensures start { (d : Domain) (told : List Entry) → AreRight d [] told (first_due d)
        → IsSound d [] (onto told []) }
    ensures round { (d : Domain) (rounds : List (List Event)) (events : List Event)
        (old told : List Entry) → IsSound d rounds old
        → MeetsRound d (suc (length rounds)) events old told
        → IsSound d (events ∷ rounds) (onto told old) }
{}

/// A file in which nothing is wrong is the journal of its rounds.
pub fn met_files_are_sound()
    ensures { (d : Domain) (rounds : List (List Event)) (entries : List Entry)
        → MeetsFile d rounds entries → IsSound d (reverse rounds) (onto entries []) }
{}

/// A file in which something is wrong is not the journal of its rounds: not all of these hold, that
/// they explain it, that each look in it is answered rightly, and that it is safe. That is so where
/// the events of each round name frames that the file's entries of rounds before it sent.
pub fn failed_files_are_not_sound()
    ensures { (d : Domain) (rounds : List (List Event)) (entries : List Entry) (place cause : ℕ)
        → AllInForm d 1 rounds (onto entries []) → FailsFile d rounds entries place cause
        → IsSound d (reverse rounds) (onto entries []) → ⊥ }
{}

/// Events in form happen in a round, at nodes each of which can have what it is there.
pub fn events_in_form_happen()
    ensures { (d : Domain) (j : List Entry) (round : ℕ) (events : List Event)
        → AreInForm d j round events → (places : List Place)
        × (AllHappen d events j round places × AllCanCome (present d j) (in_order places)) }
{}

/// Where the entries told of a round end to be those that are due, and safe, is the first place at
/// which something is wrong, with the least cause there; but for a look before it that is not
/// answered rightly. Where they are all that are due, and safe, and each look is answered rightly,
/// nothing is wrong.
pub fn rounds_end_at_the_first()
    ensures met { (d : Domain) (round : ℕ) (events : List Event) (old told : List Entry)
        (places : List Place) (end : ℕ) → AllHappen d events old round places
        → EndsBy (PlacesMet (present d old) round (in_order places) old told 0) (length told) end
        None → IsFirstWrong d old told end None → MeetsRound d round events old told }
    ensures fails { (d : Domain) (round : ℕ) (events : List Event) (old told : List Entry)
        (places : List Place) (end : ℕ) (c : Cause) → AllHappen d events old round places
        → AllCanCome (present d old) (in_order places)
        → EndsBy (PlacesMet (present d old) round (in_order places) old told 0) (length told) end
        (Some c) → IsFirstWrong d old told end None
        → FailsRound d round events old told end (cause_number c) }
    ensures held { (d : Domain) (round : ℕ) (events : List Event) (old told : List Entry)
        (places : List Place) (end place : ℕ) (o : Option Cause)
        → AllHappen d events old round places → AllCanCome (present d old) (in_order places)
        → EndsBy (PlacesMet (present d old) round (in_order places) old told 0) (length told) end o
        → IsFirstWrong d old told end (Some place) → FailsRound d round events old told place 4 }
{}

/// The same of round 0, in which access points start.
pub fn starts_end_at_the_first()
    ensures met { (d : Domain) (told : List Entry) (end : ℕ)
        → EndsBy (StartsMet d 0 (length d.aps) [] told 0) (length told) end None
        → IsFirstWrong d [] told end None → AreRight d [] told (first_due d) }
    ensures fails { (d : Domain) (told : List Entry) (end : ℕ) (c : Cause)
        → EndsBy (StartsMet d 0 (length d.aps) [] told 0) (length told) end (Some c)
        → IsFirstWrong d [] told end None
        → IsFirst d [] told (first_due d) end (cause_number c) }
    ensures held { (d : Domain) (told : List Entry) (end place : ℕ) (o : Option Cause)
        → EndsBy (StartsMet d 0 (length d.aps) [] told 0) (length told) end o
        → IsFirstWrong d [] told end (Some place) → IsFirst d [] told (first_due d) place 4 }
{}
