//! Where the stations of a list stand, by their addresses.

ghost use Rattle.std.specs.Prelude.{◌≡◌, ◌∷◌, ◌++◌, List, [], length, OnOk, position, vec_len};
ghost use Rattle.domain_base.specs.Octets.{AreOctets};
ghost use Rattle.run_journal.specs.declared.domain.ListedSta.{ListedSta as AnySta};
ghost use Rattle.run_journal.specs.Places.{number_of, IsWhole, IsIndexOf, HasRoom, has};

use crate::domain::ListedSta;
use domain_base::{Mac, NoMemory};
use std::alloc::Global;

// Octets are below 256.
fn octets(octets: &[u8])
    ensures { AreOctets octets.now }
{}

// The number that stands for an address: its octets, the lowest first.
fn number_of(address: Mac) -> u64
    ensures number { result ≡ number_of address.0 }
    ensures whole { IsWhole address.0 }
{
    octets(&address.0);
    let [a, b, c, d, e, f] = address.0;
    u64::from_le_bytes([a, b, c, d, e, f, 0, 0])
}

/// The address of each station with the first place where it stands. They are in the order of the
/// numbers that stand for the addresses, so that a place is found by halving.
#[derive(Drop)]
pub(crate) struct Places {
    numbers: Vec<u64>,
    places: Vec<usize>,
}

impl Places {
    /// The places of no stations. Takes no memory.
    pub(crate) fn new(alloc: Global) -> Self
        ensures { IsIndexOf [] result }
    {
        Places {
            numbers: Vec::new(alloc),
            places: Vec::new(alloc),
        }
    }

    /// Makes room for one more station.
    pub(crate) fn reserve(&mut self) -> Result<(), NoMemory>
        ensures kept { (stas : List AnySta) → IsIndexOf stas self.old → IsIndexOf stas self.new }
        ensures room { OnOk result (HasRoom self.new) }
    {
        self.numbers.reserve(1)?;
        self.places.reserve(1)?;
        Ok(())
    }

    /// One more station, at that place. Takes no memory.
    pub(crate) fn add(&mut self, sta: &ListedSta, place: usize)
        requires room { HasRoom self.old }
        requires even { vec_len self.old.places ≡ vec_len self.old.numbers }
        ensures { (stas : List AnySta) → IsIndexOf stas self.old → place ≡ length stas
            → IsIndexOf (stas ++ sta.now ∷ []) self.new }
    {
        let number = number_of(sta.address);
        if let Err(at) = self.numbers.binary_search(&number) {
            // There is room, so neither fails.
            let _numbers = self.numbers.insert(at, number);
            let _places = self.places.insert(at, place);
        }
    }

    /// The first place of an address, where a station has it.
    pub(crate) fn place_of(&self, address: Mac) -> Option<usize>
        ensures { (stas : List AnySta) → IsIndexOf stas self.now
            → result ≡ position (λ (s : AnySta). has address.0 s) stas }
    {
        match self.numbers.binary_search(&number_of(address)) {
            Ok(at) => self.places.get(at).copied(),
            Err(_) => None,
        }
    }
}
