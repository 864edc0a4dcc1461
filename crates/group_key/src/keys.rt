//! The group keys of an access point (IEEE Std 802.11-2020, 12.7.7).

ghost use Rattle.std.specs.Prelude.{◌≡◌, ◌≢◌, ◌↔◌, ◌<◌, ◌^◌, suc, is_some, option_map};
ghost use Rattle.std.specs.Prelude.{IsTrue, IsFalse, MatchResult};
ghost use Rattle.std.specs.Option.{ForSome};
ghost use Rattle.run_journal.specs.declared.acts.GroupKind.TheVariants as groups;
ghost use Rattle.group_key.specs.declared.keys.Pair.{Pair as AnyPair};
ghost use Rattle.domain_rules.specs.GroupKeys.{key_id};
ghost use Rattle.group_key.specs.Keys.{placed, started, drawn, drawn_beside, switched};

use run_journal::GroupKind;
use std::marker::Model;

/// A group key of an access point.
#[derive(Clone, Copy)]
pub struct GroupKey {
    /// Its number in the order of drawing of the keys of its kind, from 0.
    pub place: u64,
    /// Its key id: of a group temporal key 1 and 2 in turn, of an integrity group temporal key 4
    /// and 5.
    pub id: u8,
    /// The key.
    pub key: [u8; 16],
}

// The key id of the key of that kind and that number.
fn key_id(kind: GroupKind, place: u64) -> u8
    ensures { result ≡ key_id kind place }
{
    let turn = (place % 2) as u8;
    match kind {
        GroupKind::Gtk => turn + 1,
        GroupKind::Igtk => 4 + turn,
    }
}

impl GroupKey {
    // The key of that kind and that number.
    fn at(kind: GroupKind, place: u64, key: [u8; 16]) -> Self
        ensures { result ≡ placed kind place key }
    {
        let id = key_id(kind, place);
        GroupKey { place, id, key }
    }
}

/// The newest group key is not current yet.
#[derive(Clone, Copy)]
pub struct RekeyPending;

// Of the keys of one kind the one that is in use, and the one that was drawn last.
#[derive(Clone, Copy)]
struct Pair {
    current: GroupKey,
    newest: GroupKey,
}

impl Pair {
    // The first key of its kind, drawn and in use.
    fn started(kind: GroupKind, key: [u8; 16]) -> Self
        ensures { result ≡ started kind key }
    {
        let key = GroupKey::at(kind, 0, key);
        Pair {
            current: key,
            newest: key,
        }
    }

    // One more key was drawn.
    fn drawn(self, kind: GroupKind, key: [u8; 16]) -> Self
        requires { self.newest.place < 2 ^ 60 }
        ensures { result ≡ drawn kind key self }
    {
        Pair {
            current: self.current,
            newest: GroupKey::at(kind, self.newest.place + 1, key),
        }
    }

    // The key drawn last is in use.
    fn switched(self) -> Self
        ensures { result ≡ switched self }
    {
        Pair {
            current: self.newest,
            newest: self.newest,
        }
    }
}

// The first IGTK, where there are IGTKs.
fn started_beside(igtk: Option<[u8; 16]>) -> Option<Pair>
    ensures { result ≡ option_map (started groups.Igtk) igtk }
{
    match igtk {
        Some(key) => Some(Pair::started(GroupKind::Igtk, key)),
        None => None,
    }
}

// The IGTK drawn last is in use, where there are IGTKs.
fn switched_beside(pair: Option<Pair>) -> Option<Pair>
    ensures { result ≡ option_map switched pair }
{
    match pair {
        Some(pair) => Some(pair.switched()),
        None => None,
    }
}

// One more IGTK was drawn, where there are IGTKs.
fn drawn_beside(igtk: Option<[u8; 16]>, pair: Option<Pair>) -> Option<Pair>
    requires { ForSome pair (λ s. s.newest.place < 2 ^ 60) }
    ensures { result ≡ drawn_beside igtk pair }
{
    let Some(pair) = pair else {
        return None;
    };
    match igtk {
        Some(key) => Some(pair.drawn(GroupKind::Igtk, key)),
        None => Some(pair),
    }
}

/// The group keys that an access point uses, and those that it drew last: the group temporal key,
/// and where management frames are protected the integrity group temporal key, which is drawn after
/// it and comes into use with it.
#[derive(Drop)]
pub struct GroupKeys {
    gtk: Pair,
    igtk: Option<Pair>,
}

impl Model for GroupKeys {
    ghost use Rattle.group_key.specs.Keys.{Pairs, IsInTurn, AreBeside};

    ghost Value = { Pairs };

    ghost view = { λ s. record { gtk = s.gtk; igtk = s.igtk } };

    ghost invariant = { λ s. IsInTurn s.gtk × AreBeside s.gtk s.igtk };
}

impl GroupKeys {
    /// The first keys, drawn and in use: an IGTK where management frames are protected.
    #[tactic(auto, using(crate::proofs::Beside::turn_started, crate::proofs::Beside::started_beside))]
    pub fn new(first: [u8; 16], igtk: Option<[u8; 16]>) -> Self
        ensures gtk { result.gtk ≡ started groups.Gtk first }
        ensures igtk { result.igtk ≡ option_map (started groups.Igtk) igtk }
    {
        let gtk = Pair::started(GroupKind::Gtk, first);
        let igtk = started_beside(igtk);
        GroupKeys { gtk, igtk }
    }

    /// The GTK in use.
    pub fn current(&self) -> GroupKey
        ensures { result ≡ self.now.gtk.current }
    {
        self.gtk.current
    }

    /// The GTK drawn last.
    pub fn newest(&self) -> GroupKey
        ensures { result ≡ self.now.gtk.newest }
    {
        self.gtk.newest
    }

    /// The IGTK in use, where management frames are protected.
    pub fn current_igtk(&self) -> Option<GroupKey>
        ensures { result ≡ option_map (λ (s : AnyPair). s.current) self.now.igtk }
    {
        match self.igtk {
            Some(pair) => Some(pair.current),
            None => None,
        }
    }

    /// The IGTK drawn last, where management frames are protected.
    pub fn newest_igtk(&self) -> Option<GroupKey>
        ensures { result ≡ option_map (λ (s : AnyPair). s.newest) self.now.igtk }
    {
        match self.igtk {
            Some(pair) => Some(pair.newest),
            None => None,
        }
    }

    /// Whether the keys drawn last are not in use yet: they are then those drawn right after the
    /// keys in use.
    pub fn is_pending(&self) -> bool
        ensures pending { IsTrue result
            ↔ (self.now.gtk.newest.place ≡ suc self.now.gtk.current.place) }
        ensures in_use { IsFalse result
            ↔ (self.now.gtk.newest.place ≡ self.now.gtk.current.place) }
    {
        let in_use = self.gtk.newest.place == self.gtk.current.place;
        !in_use
    }

    /// One more key of each kind was drawn, an IGTK where there are IGTKs; they come into use by
    /// `switch`. Refused exactly where the newest are not in use yet, and then nothing is changed.
    #[tactic(auto, using(crate::proofs::Beside::places_low, crate::proofs::Beside::turn_drawn_as, crate::proofs::Beside::drawn_beside_as))]
    pub fn rekey(&mut self, next: [u8; 16], igtk: Option<[u8; 16]>) -> Result<(), RekeyPending>
        requires place { self.old.gtk.newest.place < 2 ^ 60 }
        requires both { is_some igtk ≡ is_some self.old.igtk }
        ensures gtk { MatchResult result
            (λ _. self.new.gtk ≡ drawn groups.Gtk next self.old.gtk)
            (λ _. self.new.gtk ≡ self.old.gtk) }
        ensures igtk { MatchResult result
            (λ _. self.new.igtk ≡ drawn_beside igtk self.old.igtk)
            (λ _. self.new.igtk ≡ self.old.igtk) }
        ensures pending { MatchResult result
            (λ _. self.old.gtk.newest.place ≡ self.old.gtk.current.place)
            (λ _. self.old.gtk.newest.place ≢ self.old.gtk.current.place) }
    {
        if self.gtk.newest.place != self.gtk.current.place {
            return Err(RekeyPending);
        }
        let drawn = self.gtk.drawn(GroupKind::Gtk, next);
        let igtk = drawn_beside(igtk, self.igtk);
        self.gtk = drawn;
        self.igtk = igtk;
        Ok(())
    }

    /// The keys drawn last come into use.
    #[tactic(auto, using(crate::proofs::Beside::turn_switched, crate::proofs::Beside::switched_beside))]
    pub fn switch(&mut self)
        ensures gtk { self.new.gtk ≡ switched self.old.gtk }
        ensures igtk { self.new.igtk ≡ option_map switched self.old.igtk }
    {
        let gtk = self.gtk.switched();
        let igtk = switched_beside(self.igtk);
        self.gtk = gtk;
        self.igtk = igtk;
    }
}
