//! The group keys that a station keeps of the access points.

ghost use Rattle.std.specs.Prelude.{◌≡◌, ℕ, [], true, OnOk, OnErr};
ghost use Rattle.std.specs.Borrow.{sem};
ghost use Rattle.group_key.specs.Keys.{kept_counter, kept_in};
ghost use Rattle.station_node.specs.State.{memory_at, is_there, KeepsPlaces};
ghost use Rattle.station_node.specs.Lent.{IsLentAt};

use domain_base::NoMemory;
use group_key::GroupMemory;
use std::alloc::Global;
use std::collections::BTreeMap;
use std::marker::Model;

/// The group keys that a station keeps of each access point that it met. Contracts see them by the
/// numbers of the access points, in their order.
#[derive(Drop)]
pub struct Memories(BTreeMap<u16, GroupMemory>);

impl Model for Memories {
    ghost use Rattle.std.specs.Prelude.{ℕ, List};
    ghost use Rattle.group_key.specs.Keys.{Memories as Keys};

    ghost Value = { List (ℕ × Keys) };

    ghost view = { λ m. m.0.entries };
}

impl Memories {
    /// No places. Takes no memory.
    pub fn new(alloc: Global) -> Self
        ensures { result ≡ [] }
    {
        Memories(BTreeMap::new(alloc))
    }

    /// Makes a place for the access point of that number, where there is none yet.
    pub fn make_place(&mut self, ap: u16) -> Result<(), NoMemory>
        ensures place { OnOk result (is_there self.new ap ≡ true) }
        ensures same { (k : ℕ) → memory_at self.new k ≡ memory_at self.old k }
        ensures more { KeepsPlaces self.old self.new }
        ensures err { OnErr result (self.new ≡ self.old) }
    {
        if self.0.contains_key(&ap) {
            return Ok(());
        }
        self.0.insert(ap, GroupMemory::empty())?;
        Ok(())
    }

    /// The receive counter of a group key that is kept of that access point, of the kind that has the
    /// key id `id`.
    pub fn counter_of(&self, ap: u16, key: &[u8; 16], id: u8) -> Option<u64>
        ensures { result ≡ kept_counter key.now (kept_in id (memory_at self.now ap)) }
    {
        match self.0.get(&ap) {
            Some(memory) => memory.counter_of(key, id),
            None => None,
        }
    }

    /// What is kept of that access point, which has a place, to be changed.
    pub fn of(&mut self, ap: u16) -> &mut GroupMemory
        requires { is_there self.old ap ≡ true }
        ensures* lent { sem 𝓛 (IsLentAt ap self.entry result) }
        ensures value { result.now ≡ memory_at self.old ap }
    {
        self.0.get_mut(&ap).unwrap()
    }
}
