//! Which premises hold of a journal with one more entry, where it is known which hold without it.

ghost use Rattle.std.specs.Prelude.{◌≡◌, ◌<◌, ◌↔◌, ◌∷◌, List, reverse, length, IsTrue, Option};
ghost use Rattle.std.specs.Prelude.{Some, OnSome, IfSome, All, MatchOption};
ghost use Rattle.std.specs.Option.{option_copied};
ghost use Rattle.std.specs.List.{HoldsAt};
ghost use Rattle.run_journal.specs.declared.acts.Entry.{Entry};
ghost use Rattle.run_journal.specs.Premises.{Fresh, NotDrawn, NoCollision, Unforged, seal_taken};
ghost use Rattle.run_journal.specs.Report.{Decides};
ghost use Rattle.run_journal.specs.Looking.{maker, temporal_key, confirmation_key, Fits, Agrees};
ghost use Rattle.run_journal.specs.Looking.{AllAgree, IsSourced, Indexed, IndexHasRoom};

use crate::acts::{Act, Entry};
use crate::index::{Index, Question};
use crate::naming::same_name;
use crate::premises::Premises;
use crate::reading::{confirmation_key, drawn, seal_taken, temporal_key};

// Whether both keys are drawn, or both derived from inputs of one name.
fn same_maker(earlier: &Act, later: &Act) -> bool
    ensures { IsTrue result ↔ (maker earlier.now ≡ maker later.now) }
{
    match (earlier, later) {
        (Act::Derived { inputs: i, .. }, Act::Derived { inputs: m, .. }) => {
            same_name(i.inputs(), m.inputs())
        }
        (Act::Derived { .. }, _) | (_, Act::Derived { .. }) => false,
        _ => true,
    }
}

// No earlier entry drew what this one did.
fn draws_afresh(entries: &[Entry], index: &Index, entry: &Entry) -> bool
    requires indexed { Indexed entries.now index.now }
    requires room { IndexHasRoom 1 index.now }
    ensures { IsTrue result ↔ NotDrawn entry.now.act (reverse entries.now) }
{
    match drawn(&entry.act) {
        Some(octets) => index.find(entries, &Question::Drawn(octets)).is_none(),
        None => true,
    }
}

// Whether the entry at the place, if any, has its key from the maker of this act.
fn agrees_at(entries: &[Entry], place: Option<usize>, act: &Act) -> bool
    requires { IfSome place (λ i. i < length entries.now) }
    ensures { MatchOption place (IsTrue result) (λ i. IsTrue result
        ↔ HoldsAt (λ e. maker e.act ≡ maker act.now) entries.now i) }
{
    match place {
        Some(place) => same_maker(&entries[place].act, act),
        None => true,
    }
}

// Each earlier entry that has the TK of this one has it from the same maker. One of them tells.
fn agrees_on_tk(entries: &[Entry], index: &Index, entry: &Entry) -> bool
    requires indexed { Indexed entries.now index.now }
    requires room { IndexHasRoom 1 index.now }
    ensures { AllAgree temporal_key (reverse entries.now)
        → (IsTrue result ↔ Agrees temporal_key entry.now (reverse entries.now)) }
{
    match temporal_key(&entry.act) {
        Some(key) => {
            let place = index.find(entries, &Question::TemporalKey(key));
            agrees_at(entries, place, &entry.act)
        }
        None => true,
    }
}

// Each earlier entry that has the KCK of this one has it from the same maker. One of them tells.
fn agrees_on_kck(entries: &[Entry], index: &Index, entry: &Entry) -> bool
    requires indexed { Indexed entries.now index.now }
    requires room { IndexHasRoom 1 index.now }
    ensures { AllAgree confirmation_key (reverse entries.now)
        → (IsTrue result ↔ Agrees confirmation_key entry.now (reverse entries.now)) }
{
    match confirmation_key(&entry.act) {
        Some(key) => {
            let place = index.find(entries, &Question::ConfirmationKey(key));
            agrees_at(entries, place, &entry.act)
        }
        None => true,
    }
}

// Where no keys collided before, none does with this entry.
fn keeps_apart(entries: &[Entry], index: &Index, entry: &Entry) -> bool
    requires indexed { Indexed entries.now index.now }
    requires room { IndexHasRoom 1 index.now }
    ensures { NoCollision (reverse entries.now)
        → (IsTrue result ↔ NoCollision (entry.now ∷ reverse entries.now)) }
{
    agrees_on_tk(entries, index, entry) && agrees_on_kck(entries, index, entry)
}

// What verified in this entry was sent before.
fn is_sourced(entries: &[Entry], index: &Index, entry: &Entry) -> bool
    requires indexed { Indexed entries.now index.now }
    requires room { IndexHasRoom 1 index.now }
    ensures { IsTrue result ↔ IsSourced entry.now (reverse entries.now) }
{
    match seal_taken(&entry.act) {
        Some(seal) => index
            .find(entries, &Question::SealBefore(seal, entry))
            .is_some(),
        None => true,
    }
}

fn stays_fresh(held: bool, entries: &[Entry], index: &Index, entry: &Entry) -> bool
    requires indexed { Indexed entries.now index.now }
    requires room { IndexHasRoom 1 index.now }
    requires held { IsTrue held ↔ Fresh (reverse entries.now) }
    ensures { IsTrue result ↔ Fresh (entry.now ∷ reverse entries.now) }
{
    held && draws_afresh(entries, index, entry)
}

fn stays_apart(held: bool, entries: &[Entry], index: &Index, entry: &Entry) -> bool
    requires indexed { Indexed entries.now index.now }
    requires room { IndexHasRoom 1 index.now }
    requires held { IsTrue held ↔ NoCollision (reverse entries.now) }
    ensures { IsTrue result ↔ NoCollision (entry.now ∷ reverse entries.now) }
{
    held && keeps_apart(entries, index, entry)
}

fn stays_unforged(held: bool, entries: &[Entry], index: &Index, entry: &Entry) -> bool
    requires indexed { Indexed entries.now index.now }
    requires room { IndexHasRoom 1 index.now }
    requires held { IsTrue held ↔ Unforged (reverse entries.now) }
    ensures { IsTrue result ↔ Unforged (entry.now ∷ reverse entries.now) }
{
    held && is_sourced(entries, index, entry)
}

/// Which premises hold with one more entry. Takes no memory.
pub(crate) fn judge(held: Premises, entries: &[Entry], index: &Index, entry: &Entry) -> Premises
    requires indexed { Indexed entries.now index.now }
    requires room { IndexHasRoom 1 index.now }
    requires held { Decides (reverse entries.now) held }
    ensures { Decides (entry.now ∷ reverse entries.now) result }
{
    Premises {
        fresh: stays_fresh(held.fresh, entries, index, entry),
        no_collision: stays_apart(held.no_collision, entries, index, entry),
        unforged: stays_unforged(held.unforged, entries, index, entry),
    }
}
