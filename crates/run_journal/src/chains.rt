//! Chains through a journal: each leads from an entry to the one before it that may be alike.
//!
//! An entry stands in the chain that a mix of some of its octets names, so entries that have those
//! octets alike stand in one chain.

ghost use Rattle.std.specs.Prelude.{◌≡◌, ◌≤◌, ◌<◌, ◌+◌, ℕ, List, [], ◌∷◌, ◌++◌, length, vec_len};
ghost use Rattle.std.specs.Prelude.{Option, None, OnOk, IfSome, Some, slice_get};
ghost use Rattle.run_journal.specs.Chained.{Chained, IsLast, HasRoom};

use domain_base::NoMemory;
use std::alloc::Global;

/// A journal has at most so many entries: places are kept in 32 bits.
const MOST: usize = 4_294_967_296;

// The place that is kept, if one is.
fn place_of(kept: Option<u32>) -> Option<usize>
    ensures { result ≡ kept }
{
    match kept {
        Some(place) => Some(place as usize),
        None => None,
    }
}

/// The last entry of each chain, and for each entry the one before it in its chain.
#[derive(Drop)]
pub(crate) struct Chains {
    lasts: Vec<Option<u32>>,
    links: Vec<Option<u32>>,
}

impl Chains {
    /// Chains through no entries. Takes no memory.
    pub(crate) fn new(alloc: Global) -> Self
        ensures chained { Chained [] result }
    {
        Chains {
            lasts: Vec::new(alloc),
            links: Vec::new(alloc),
        }
    }

    /// Makes room for so many more entries, in so many chains.
    pub(crate) fn reserve(&mut self, chains: usize, more: usize) -> Result<(), NoMemory>
        ensures chained { (named : List (Option ℕ)) → Chained named self.old
            → Chained named self.new }
        ensures room { OnOk result (HasRoom more self.new × (chains ≤ vec_len self.new.lasts)) }
        ensures kept { (n : ℕ) → HasRoom n self.old → HasRoom n self.new }
        ensures longer { vec_len self.old.lasts ≤ vec_len self.new.lasts }
    {
        let count = self.links.len();
        if count > MOST || more > MOST - count {
            return Err(NoMemory);
        }
        self.links.reserve(more)?;
        if self.lasts.len() < chains {
            self.lasts.resize(chains, None)?;
        }
        Ok(())
    }

    /// One more entry, in that chain. Takes no memory.
    pub(crate) fn add(&mut self, chain: Option<usize>)
        requires room { HasRoom 1 self.old }
        requires within { IfSome chain (λ c. c < vec_len self.old.lasts) }
        ensures chained { (chains : List (Option ℕ)) → Chained chains self.old
            → Chained (chains ++ chain ∷ []) self.new }
        ensures room { (n : ℕ) → HasRoom (n + 1) self.old → HasRoom n self.new }
        ensures lasts { vec_len self.new.lasts ≡ vec_len self.old.lasts }
    {
        let place = self.links.len() as u32;
        let before = match chain {
            Some(chain) => {
                let before = self.lasts[chain];
                self.lasts[chain] = Some(place);
                before
            }
            None => None,
        };
        self.links.push_reserved(before);
    }

    /// The place of the last entry of the chain.
    pub(crate) fn last(&self, chain: usize) -> Option<usize>
        requires { chain < vec_len self.now.lasts }
        ensures { (chains : List (Option ℕ)) → Chained chains self.now
            → IsLast chains chain (length chains) result }
    {
        place_of(self.lasts[chain])
    }

    /// The place of the entry before that one in its chain.
    pub(crate) fn before(&self, place: usize) -> Option<usize>
        requires { place < vec_len self.now.links }
        ensures { (chains : List (Option ℕ)) (c : ℕ) → Chained chains self.now
            → slice_get chains place ≡ Some (Some c) → IsLast chains c place result }
    {
        place_of(self.links[place])
    }
}
