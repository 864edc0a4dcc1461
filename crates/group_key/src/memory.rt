//! The group keys that a station keeps of one access point.

ghost use Rattle.std.specs.Prelude.{◌≡◌, ◌<◌, [], max, option_map, IfSome, if◌then◌else◌};
ghost use Rattle.group_key.specs.Keys.{Kept, has_key, kept_counter, kept_id, given};
ghost use Rattle.group_key.specs.Keys.{found, taken, is_integrity_id, kept_in, with_kept};

use std::marker::Model;

/// What became of a group key that was given.
#[derive(Clone, Copy)]
pub enum Given {
    /// It is new here.
    Installed,
    /// It is kept here, and goes on.
    Resumed,
}

// A key that is kept.
#[derive(Clone, Copy)]
struct Remembered {
    key: [u8; 16],
    id: u8,
    counter: u64,
}

// The last two group keys of one kind that a station installed from one access point, each with its
// receive counter. Contracts see them as a list, the later first.
#[derive(Drop)]
struct KindMemory {
    later: Option<Remembered>,
    earlier: Option<Remembered>,
}

impl Model for KindMemory {
    ghost use Rattle.std.specs.Prelude.{List, [], ◌≡◌, None};
    ghost use Rattle.group_key.specs.Keys.{Kept};
    ghost use Rattle.group_key.specs.Views.{keep};

    ghost Value = { List Kept };

    ghost view = { λ s. keep s.later (keep s.earlier []) };

    ghost invariant = { λ s. s.later ≡ None → s.earlier ≡ None };
}

// The same key with a counter that is no less than that.
fn raised(kept: Remembered, rsc: u64) -> Remembered
    ensures key { result.key ≡ kept.key }
    ensures id { result.id ≡ kept.id }
    ensures counter { result.counter ≡ max rsc kept.counter }
{
    Remembered {
        counter: kept.counter.max(rsc),
        ..kept
    }
}

impl KindMemory {
    // No keys.
    fn empty() -> Self
        ensures { result ≡ [] }
    {
        KindMemory {
            later: None,
            earlier: None,
        }
    }

    // The key id that the key was installed with, where it is kept.
    fn id_of(&self, key: &[u8; 16]) -> Option<u8>
        ensures { result ≡ kept_id key.now self.now }
    {
        if let Some(kept) = self.later
            && kept.key == *key
        {
            return Some(kept.id);
        }
        if let Some(kept) = self.earlier
            && kept.key == *key
        {
            return Some(kept.id);
        }
        None
    }

    // The receive counter of the key, where it is kept.
    fn counter_of(&self, key: &[u8; 16]) -> Option<u64>
        ensures { result ≡ kept_counter key.now self.now }
    {
        if let Some(kept) = self.later
            && kept.key == *key
        {
            return Some(kept.counter);
        }
        if let Some(kept) = self.earlier
            && kept.key == *key
        {
            return Some(kept.counter);
        }
        None
    }

    // A key was given, with its RSC. A key that is kept goes on under the key id that it was
    // installed with, its counter no less than the RSC; a new one is kept with the RSC as its
    // counter, and the earlier of two is forgotten.
    fn give(&mut self, key: &[u8; 16], id: u8, rsc: u64) -> Given
        ensures memory { self.new ≡ given key.now id rsc self.old }
        ensures what { result
            ≡ (if has_key key.now self.old then Given.Resumed else Given.Installed) }
    {
        if let Some(kept) = self.later
            && kept.key == *key
        {
            self.later = Some(raised(kept, rsc));
            return Given::Resumed;
        }
        if let Some(kept) = self.earlier
            && kept.key == *key
        {
            self.earlier = Some(raised(kept, rsc));
            return Given::Resumed;
        }
        self.earlier = self.later;
        self.later = Some(Remembered {
            key: *key,
            id,
            counter: rsc,
        });
        Given::Installed
    }

    // The later of the keys with that id, and its counter.
    fn find(&self, id: u8) -> Option<([u8; 16], u64)>
        ensures { result ≡ option_map (λ (k : Kept). (k.key, k.counter)) (found id self.now) }
    {
        if let Some(kept) = self.later
            && kept.id == id
        {
            let key = kept.key;
            return Some((key, kept.counter));
        }
        if let Some(kept) = self.earlier
            && kept.id == id
        {
            let key = kept.key;
            return Some((key, kept.counter));
        }
        None
    }

    // Puts the counter of the key that `find` gives for that id to a greater number. Nothing is
    // done where it gives none.
    fn take(&mut self, id: u8, number: u64)
        requires { IfSome (found id self.old) (λ k. k.counter < number) }
        ensures { self.new ≡ taken id number self.old }
    {
        if let Some(kept) = self.later
            && kept.id == id
        {
            self.later = Some(Remembered {
                counter: number,
                ..kept
            });
            return;
        }
        if let Some(kept) = self.earlier
            && kept.id == id
        {
            self.earlier = Some(Remembered {
                counter: number,
                ..kept
            });
        }
    }
}

/// The group keys that a station keeps of one access point: the last two group temporal keys that it
/// installed, and apart from them the last two integrity group temporal keys, each with its receive
/// counter. A key id tells of which kind a key is: 4 and 5 are those of the latter.
#[derive(Drop)]
pub struct GroupMemory {
    gtks: KindMemory,
    igtks: KindMemory,
}

impl Model for GroupMemory {
    ghost use Rattle.group_key.specs.Keys.{Memories};

    ghost Value = { Memories };

    ghost view = { λ s. record { gtks = s.gtks; igtks = s.igtks } };
}

// Whether a key id is one of integrity group temporal keys (IEEE Std 802.11-2020, 12.7.2).
fn is_integrity_id(id: u8) -> bool
    ensures { result ≡ is_integrity_id id }
{
    id == 4 || id == 5
}

impl GroupMemory {
    /// No keys.
    pub fn empty() -> Self
        ensures { result ≡ record { gtks = []; igtks = [] } }
    {
        GroupMemory {
            gtks: KindMemory::empty(),
            igtks: KindMemory::empty(),
        }
    }

    // The keys of the kind that has that key id.
    fn of_kind(&self, id: u8) -> &KindMemory
        ensures { result.now ≡ kept_in id self.now }
    {
        if is_integrity_id(id) {
            &self.igtks
        } else {
            &self.gtks
        }
    }

    /// Of the keys of the kind that has the key id `id`: the key id that the key was installed with,
    /// where it is kept.
    pub fn id_of(&self, key: &[u8; 16], id: u8) -> Option<u8>
        ensures { result ≡ kept_id key.now (kept_in id self.now) }
    {
        self.of_kind(id).id_of(key)
    }

    /// Of the keys of that kind: the receive counter of the key, where it is kept.
    pub fn counter_of(&self, key: &[u8; 16], id: u8) -> Option<u64>
        ensures { result ≡ kept_counter key.now (kept_in id self.now) }
    {
        self.of_kind(id).counter_of(key)
    }

    /// A key was given, with its RSC, or the IPN of an integrity group temporal key. A key that is
    /// kept goes on under the key id that it was installed with, its counter no less than the RSC; a
    /// new one is kept with the RSC as its counter, and the earlier of two of its kind is forgotten.
    pub fn give(&mut self, key: &[u8; 16], id: u8, rsc: u64) -> Given
        ensures memory { self.new
            ≡ with_kept id (given key.now id rsc (kept_in id self.old)) self.old }
        ensures what { result
            ≡ (if has_key key.now (kept_in id self.old) then Given.Resumed else Given.Installed) }
    {
        if is_integrity_id(id) {
            self.igtks.give(key, id, rsc)
        } else {
            self.gtks.give(key, id, rsc)
        }
    }

    /// The later of the keys with that id, and its counter.
    pub fn find(&self, id: u8) -> Option<([u8; 16], u64)>
        ensures { result ≡ option_map (λ (k : Kept). (k.key, k.counter))
            (found id (kept_in id self.now)) }
    {
        self.of_kind(id).find(id)
    }

    /// Puts the counter of the key that `find` gives for that id to a greater number. Nothing is
    /// done where it gives none.
    pub fn take(&mut self, id: u8, number: u64)
        requires { IfSome (found id (kept_in id self.old)) (λ k. k.counter < number) }
        ensures { self.new ≡ with_kept id (taken id number (kept_in id self.old)) self.old }
    {
        if is_integrity_id(id) {
            self.igtks.take(id, number);
        } else {
            self.gtks.take(id, number);
        }
    }
}
