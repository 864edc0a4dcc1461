//! The shared holders as one worker calls them that keeps the keys which it pulled.

ghost use Rattle.std.specs.Prelude.{◌≡◌};

use crate::holders::{HolderPass, SharedHolders};
use domain_base::Mac;
use key_hierarchy::{PullAnswer, PutAnswer, RevokeAnswer};
use key_holders::{HolderRow, Holders, R1Cache};

/// The shared holders, by a pass of theirs and with a cache of keys. They answer as `Bound` does.
pub struct CachedBound<'a> {
    table: &'a SharedHolders,
    pass: HolderPass,
    cache: R1Cache,
    ghost its: { pass.table ≡ table.now.table },
}

impl<'a> CachedBound<'a> {
    /// The holders by this pass, with this cache.
    pub fn new(table: &'a SharedHolders, pass: HolderPass, cache: R1Cache) -> CachedBound<'a>
        requires { pass.table ≡ table.now.table }
        ensures { (result.table ≡ table.entry) × (result.pass ≡ pass) × (result.cache ≡ cache) }
    {
        CachedBound { table, pass, cache }
    }

    /// The pass and the cache.
    pub fn into_parts(self) -> (HolderPass, R1Cache)
        ensures { (result.0 ≡ self.entry.pass) × (result.1 ≡ self.entry.cache) }
    {
        let CachedBound {
            table: _,
            pass,
            cache,
        } = self;
        (pass, cache)
    }
}

impl<'a> Holders for CachedBound<'a> {
    ghost use Rattle.holder_table.specs.Histories.{held_at};
    ghost use Rattle.holder_table.specs.Relations.{Pulls, Puts, Revokes, KnowsNoLess};
    ghost use Rattle.holder_table.specs.Relations.{no_less_here, no_less_then};

    ghost ids = { λ b. b.table.now.ids };

    ghost has = { λ b. b.pass.knows.has };

    ghost rows = { λ b r. held_at r b.pass.knows.seen };

    ghost pulls = { λ b id name r1kh sta c answer.
        Pulls b.table.now b.pass id name r1kh sta c.table.now c.pass answer };

    ghost puts = { λ b r0kh row c answer.
        Puts b.table.now b.pass r0kh row c.table.now c.pass answer };

    ghost revokes = { λ b r0kh name c answer.
        Revokes b.table.now b.pass r0kh name c.table.now c.pass answer };

    // Memory is never wanted.
    ghost wants = { ⊥ };

    ghost no_less = { λ b c. KnowsNoLess b.table.now b.pass c.table.now c.pass };

    ghost same = { λ b. no_less_here b.table.now b.pass };

    ghost chain = { λ a b c f g.
        no_less_then a.table.now a.pass b.table.now b.pass c.table.now c.pass f g };

    fn put(&mut self, r0kh: u16, row: HolderRow) -> PutAnswer {
        self.table.put(&mut self.pass, r0kh, row)
    }

    fn pull(&mut self, r0kh_id: &[u8], name: &[u8; 16], r1kh: Mac, sta: Mac) -> PullAnswer {
        self.table
            .pull_cached(&mut self.pass, &mut self.cache, r0kh_id, name, r1kh, sta)
    }

    fn revoke(&mut self, r0kh: u16, name: &[u8; 16]) -> RevokeAnswer {
        self.table.revoke(&mut self.pass, r0kh, name)
    }
}
