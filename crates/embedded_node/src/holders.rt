//! The key holders as an access point has them that stands alone: its own, and of the others what they
//! gave it beforehand.

ghost use Rattle.std.specs.Prelude.{◌≡◌, ◌∷◌, [], length, position, take, IfOk, OnOk, OnErr};
ghost use Rattle.key_holders.specs.Listed.{none_held};
ghost use Rattle.embedded_node.specs.Pushed.{alone, with_other, with_keys, with_key, other_of};
ghost use Rattle.embedded_node.specs.Pushed.{is_asked, is_from, is_of, forgotten_key, forgotten};
ghost use Rattle.embedded_node.specs.Pushed.{MayGive};

use domain_base::{Mac, NoMemory, Octets};
use key_hierarchy::{PmkR1, PullAnswer, PutAnswer, RevokeAnswer, r1_name};
use key_holders::{HolderRow, Holders, ListHolders};
use std::alloc::Global;
use std::marker::Model;

/// A PMK-R1 that another R0 key holder gave beforehand, for this access point as R1 key holder.
#[derive(Clone, Copy)]
pub struct PushedKey {
    /// The R0 key holder, by its place among the others.
    pub holder: usize,
    /// PMKR0Name of the PMK-R0 that the key is made from.
    pub name: [u8; 16],
    /// The station's address.
    pub sta: Mac,
    /// PMK-R1.
    pub key: [u8; 32],
    /// Whether it may be answered.
    pub live: bool,
}

/// The own key holder, and of the others their R0KH-IDs and what they gave.
#[derive(Drop)]
pub struct PushedHolders {
    own: ListHolders,
    others: Vec<Octets>,
    pushed: Vec<PushedKey>,
}

impl Model for PushedHolders {
    ghost use Rattle.std.specs.Prelude.{◌≡◌, length};
    ghost use Rattle.embedded_node.specs.Pushed.{Holding};

    ghost Value = { Holding };

    ghost view = { λ h. record {
      own = h.own.ids;
      others = h.others.items;
      rows = h.own.rows;
      pushed = h.pushed.items;
    } };

    ghost invariant = { λ h. length h.own.ids ≡ 1 };
}

// The key holder of that R0KH-ID.
fn own_holder(alloc: Global, r0kh_id: &[u8]) -> Result<ListHolders, NoMemory>
    ensures { IfOk result (λ h. h ≡ none_held (r0kh_id.now ∷ [])) }
{
    let id = Vec::from_slice(alloc, r0kh_id)?;
    let mut ids = Vec::new(alloc);
    ids.push(Octets(id))?;
    ListHolders::new(alloc, ids)
}

// Whether the key is of that station, where one is named.
fn is_of(key: &PushedKey, sta: Option<Mac>) -> bool
    ensures { result ≡ is_of sta key.now }
{
    match sta {
        Some(sta) => key.sta.0 == sta.0,
        None => true,
    }
}

// The key, which may be answered no longer where it is of that station.
fn forgotten_key(key: PushedKey, sta: Option<Mac>) -> PushedKey
    ensures { result ≡ forgotten_key sta key }
{
    let live = key.live && !is_of(&key, sta);
    PushedKey { live, ..key }
}

impl PushedHolders {
    /// The own key holder, of that R0KH-ID, and no others.
    pub(crate) fn alone(alloc: Global, r0kh_id: &[u8]) -> Result<Self, NoMemory>
        ensures { IfOk result (λ h. h ≡ alone r0kh_id.now) }
    {
        Ok(PushedHolders {
            own: own_holder(alloc, r0kh_id)?,
            others: Vec::new(alloc),
            pushed: Vec::new(alloc),
        })
    }

    /// One more of the others.
    pub(crate) fn list(&mut self, alloc: Global, r0kh_id: &[u8]) -> Result<(), NoMemory>
        ensures listed { OnOk result (self.new ≡ with_other r0kh_id.now self.old) }
        ensures same { OnErr result (self.new ≡ self.old) }
    {
        let id = Vec::from_slice(alloc, r0kh_id)?;
        match self.others.push(Octets(id)) {
            Ok(()) => Ok(()),
            Err(_) => Err(NoMemory),
        }
    }

    /// How many others there are.
    pub(crate) fn others(&self) -> usize
        ensures { result ≡ length self.now.others }
    {
        self.others.len()
    }

    /// The first others, so many; the rest goes.
    pub(crate) fn keep(&mut self, others: usize)
        ensures { self.new ≡ record self.old { others = take others self.old.others } }
    {
        self.others.truncate(others);
    }

    /// Which of the others has an R0KH-ID.
    pub(crate) fn other_of(&self, r0kh_id: &[u8]) -> Option<usize>
        ensures { result ≡ other_of self.now r0kh_id.now }
    {
        self.others.iter().position(|id| id.as_slice() == r0kh_id)
    }

    // The place of the key that one of the others gave for a station.
    fn place_from(&self, holder: usize, sta: Mac) -> Option<usize>
        ensures { result ≡ position (is_from holder sta) self.now.pushed }
    {
        self.pushed
            .iter()
            .position(|x| x.holder == holder && x.sta.0 == sta.0)
    }

    /// One more key that one of the others gave: in the place of the one that it gave for that
    /// station before, where there is one.
    pub(crate) fn give(&mut self, key: PushedKey) -> Result<(), NoMemory>
        ensures given { OnOk result
            (self.new ≡ with_keys (with_key key self.old.pushed) self.old) }
        ensures same { OnErr result (self.new ≡ self.old) }
    {
        match self.place_from(key.holder, key.sta) {
            Some(place) => {
                self.pushed[place] = key;
                Ok(())
            }
            None => match self.pushed.push(key) {
                Ok(()) => Ok(()),
                Err(_) => Err(NoMemory),
            },
        }
    }

    /// What others gave for that station, or for any, is answered no longer. Takes no memory.
    pub(crate) fn forget(&mut self, sta: Option<Mac>)
        ensures { self.new ≡ with_keys (forgotten sta self.old.pushed) self.old }
    {
        for place in 0..self.pushed.len() {
            self.pushed[place] = forgotten_key(self.pushed[place], sta);
        }
    }

    // The place of the key that is asked for.
    fn place_of(&self, holder: usize, name: &[u8; 16], sta: Mac) -> Option<usize>
        ensures { result ≡ position (is_asked holder name.now sta) self.now.pushed }
    {
        self.pushed.iter().position(|x| x.live
            && x.holder == holder
            && x.name == *name
            && x.sta.0 == sta.0)
    }

    // What one of the others gave.
    fn given(&self, holder: usize, name: &[u8; 16], r1kh: Mac, sta: Mac) -> PullAnswer
        ensures { MayGive self.now.pushed holder name.now r1kh sta result }
    {
        match self.place_of(holder, name, sta) {
            Some(place) => PullAnswer::Found(PmkR1 {
                key: self.pushed[place].key,
                name: r1_name(name, r1kh, sta),
            }),
            None => PullAnswer::Absent,
        }
    }
}

impl Holders for PushedHolders {
    ghost use Rattle.std.specs.Prelude.{◌≡◌, ⊤};
    ghost use Rattle.key_holders.specs.Listed.{below, rows_at, PutAt, RevokedAt};
    ghost use Rattle.embedded_node.specs.Pushed.{ids_in, listed_in, PulledFrom};
    ghost use Rattle.embedded_node.specs.Pushed.{HasKeysOf, keys_here, keys_then};

    ghost ids = { λ h. ids_in h };

    ghost has = { λ h. below 1 };

    ghost rows = { λ h r. rows_at h.rows r };

    ghost pulls = { λ g id name r1kh sta h answer. PulledFrom g id name r1kh sta answer };

    ghost puts = { λ g r row h answer. PutAt (listed_in g) r row (listed_in h) answer };

    ghost revokes = { λ g r name h answer. RevokedAt (listed_in g) r name (listed_in h) answer };

    ghost wants = { ⊤ };

    ghost no_less = { HasKeysOf };

    ghost same = { λ h. keys_here h };

    ghost chain = { λ g h k one two. keys_then g h k one two };

    fn put(&mut self, r0kh: u16, row: HolderRow) -> PutAnswer {
        self.own.put(r0kh, row)
    }

    fn pull(&mut self, r0kh_id: &[u8], name: &[u8; 16], r1kh: Mac, sta: Mac) -> PullAnswer {
        match self.own.pull(r0kh_id, name, r1kh, sta) {
            PullAnswer::Found(r1) => return PullAnswer::Found(r1),
            PullAnswer::Absent => return PullAnswer::Absent,
            PullAnswer::NoHolder => {}
        }
        match self.other_of(r0kh_id) {
            Some(holder) => self.given(holder, name, r1kh, sta),
            None => PullAnswer::NoHolder,
        }
    }

    fn revoke(&mut self, r0kh: u16, name: &[u8; 16]) -> RevokeAnswer {
        self.own.revoke(r0kh, name)
    }
}
