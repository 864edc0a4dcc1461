//! The keys that were derived last, kept for the next time that they are asked for.

ghost use Rattle.std.specs.Prelude.{◌≡◌, ◌≤◌, IfOk};
ghost use Rattle.key_holders.specs.Keys.{row_r1};
ghost use Rattle.key_holders.specs.Cached.{no_keys, pair_of, CacheAfter};

use crate::rows::HolderRow;
use domain_base::{Mac, NoMemory};
use key_hierarchy::PmkR1;
use lru::LruCache;
use std::alloc::Global;
use std::marker::Model;
use std::num::NonZeroUsize;

/// What a cache did for the key that was asked for.
#[derive(Clone, Copy)]
pub enum CacheAnswer {
    /// It had the key.
    Hit,
    /// The key was derived, and is kept.
    Kept,
    /// The key was derived. Memory ran out, so it is not kept.
    NotKept,
}

/// A row and the R1KH-ID of an access point, which make one PMK-R1
/// (IEEE Std 802.11-2020, 12.7.1.6.4).
#[derive(Clone, Copy, PartialEq, Eq, Hash)]
pub struct R1Pair {
    /// The row.
    pub row: HolderRow,
    /// The R1KH-ID.
    pub r1kh: Mac,
}

/// PMK-R1s that were derived from rows, of which the one asked for last is kept longest. Contracts
/// see the pairs of a row and an R1KH-ID whose keys it has, the one asked for last first. No key
/// stands in it but that of its pair (IEEE Std 802.11-2020, 12.7.1.6.4).
#[derive(Drop)]
pub struct R1Cache {
    keys: LruCache<R1Pair, PmkR1>,
}

impl Model for R1Cache {
    ghost use Rattle.key_holders.specs.Cached.{Cached, pairs_of, AreDerived};

    ghost Value = { Cached };

    ghost view = { λ c. record { pairs = pairs_of c.keys.entries; capacity = c.keys.cap } };

    ghost invariant = { λ c. AreDerived c.keys.entries };
}

impl R1Cache {
    /// A cache with no keys, which has room for that many.
    pub fn new(alloc: Global, capacity: usize) -> Result<R1Cache, NoMemory>
        requires { 1 ≤ capacity }
        ensures { IfOk result (λ c. c ≡ no_keys capacity) }
    {
        let Some(capacity) = NonZeroUsize::new(capacity) else {
            unreachable!()
        };
        let keys = LruCache::new(alloc, capacity)?;
        Ok(R1Cache { keys })
    }

    /// The PMK-R1 that a row makes for an R1 key holder, with its name, as `HolderRow::r1` gives
    /// it, and what the cache did for it. Where it had the key, it derives none.
    pub fn r1(&mut self, row: &HolderRow, r1kh: Mac) -> (PmkR1, CacheAnswer)
        ensures key { result.0 ≡ row_r1 row.now r1kh }
        ensures after { CacheAfter (pair_of row.now r1kh) self.old result.1 self.new }
    {
        let pair = R1Pair { row: *row, r1kh };
        if let Some(key) = self.keys.peek(&pair).copied() {
            self.keys.promote(&pair);
            return (key, CacheAnswer::Hit);
        }
        let key = row.r1(r1kh);
        match self.keys.put(pair, key) {
            Ok(_) => (key, CacheAnswer::Kept),
            Err(_) => (key, CacheAnswer::NotKept),
        }
    }
}
