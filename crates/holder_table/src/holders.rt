//! The key holders as the workers of the access points call them.

ghost use Rattle.std.specs.Prelude.{◌≡◌, ◌≢◌, ◌≤◌, ℕ, true, length, position, bytes_eq, IfOk};
ghost use Rattle.key_holders.specs.Rows.{is_in, put_answer, after_put, revoke_answer, after_revoke};
ghost use Rattle.key_holders.specs.Pulls.{Answers, IsNamed};
ghost use Rattle.holder_table.specs.Histories.{held_at};
ghost use Rattle.holder_table.specs.Rule.{first_view, LoadsLast};
ghost use Rattle.holder_table.specs.Knowledge.{NoLess, Pulled, AfterPut, AfterRevoke, Gave, GaveFrom};
ghost use Rattle.holder_table.specs.Knowledge.{TookIn};
ghost use Rattle.holder_table.specs.Caches.{CacheAfterPull};

use crate::row_table::RowTable;
use crate::view::HolderSeat;
use domain_base::{Mac, NoMemory, Octets};
use key_hierarchy::{PullAnswer, PutAnswer, RevokeAnswer};
use key_holders::{HolderRow, R1Cache};
use std::alloc::Global;
use std::marker::Model;

/// The key holders of all access points of a mobility domain, which any number of workers share.
#[derive(Drop)]
pub struct SharedHolders {
    rows: RowTable,
    ids: Vec<Octets>,
}

impl Model for SharedHolders {
    ghost use Rattle.std.specs.Prelude.{◌≡◌, length};
    ghost use Rattle.holder_table.specs.Pass.{Holders};

    ghost Value = { Holders };

    ghost view = { λ h. record { table = h.rows.table.shared.table_id; ids = h.ids.items } };

    ghost invariant = { λ h. h.rows.aps ≡ length h.ids.items };
}

/// The right to some access points, and what was seen at all of them. It has no bytes.
#[derive(Drop)]
pub struct HolderPass {
    seat: HolderSeat,
}

impl Model for HolderPass {
    ghost use Rattle.holder_table.specs.Pass.{Pass, IsAtRest};

    ghost Value = { Pass };

    ghost view = { λ p. record { table = p.seat.table_id; knows = p.seat.me.0 } };

    ghost invariant = { λ p. IsAtRest p.seat.table_id p.seat.me };
}

impl SharedHolders {
    /// The holders of the access points with these R0KH-IDs, in order, with no row, and the pass
    /// that has them all.
    pub fn start(alloc: Global, aps: Vec<Octets>) -> Result<(SharedHolders, HolderPass), NoMemory>
        requires { length aps.items ≤ 65536 }
        ensures { IfOk result (λ r.
            (r.0.ids ≡ aps.items) × (r.1.table ≡ r.0.table)
            × (r.1.knows ≡ first_view (length aps.items))) }
    {
        let (rows, seat) = RowTable::make(alloc, aps.len())?;
        Ok((SharedHolders { rows, ids: aps }, HolderPass { seat }))
    }

    /// Puts a row at an access point that the pass has. Takes no memory.
    pub fn put(&self, pass: &mut HolderPass, r0kh: u16, row: HolderRow) -> PutAnswer
        requires pass { pass.old.table ≡ self.now.table }
        requires has { is_in r0kh pass.old.knows.has ≡ true }
        ensures pass { pass.new.table ≡ pass.old.table }
        ensures answer { result ≡ put_answer row.name (held_at r0kh pass.old.knows.seen) }
        ensures effect { AfterPut r0kh row pass.old.knows pass.new.knows result }
        ensures rows { held_at r0kh pass.new.knows.seen ≡
            after_put row result (held_at r0kh pass.old.knows.seen) }
        ensures others { (r : ℕ) → r ≢ r0kh → is_in r pass.old.knows.has ≡ true →
            held_at r pass.new.knows.seen ≡ held_at r pass.old.knows.seen }
        ensures no_less { NoLess pass.old.knows pass.new.knows }
        ensures lasting { LoadsLast pass.new.knows }
    {
        self.rows.put(&mut pass.seat, r0kh as usize, &row)
    }

    // The access point that has an R0KH-ID.
    fn holder_of(&self, r0kh_id: &[u8]) -> Option<usize>
        ensures { result ≡ position (λ id. bytes_eq id r0kh_id.now) self.now.ids }
    {
        self.ids.iter().position(|id| id.as_slice() == r0kh_id)
    }

    /// Asks the access point of an R0KH-ID, which the pass need not have, for the PMK-R1 that its
    /// live row of a PMKR0Name and a station makes for an R1 key holder. Takes no memory.
    pub fn pull(
        &self,
        pass: &mut HolderPass,
        r0kh_id: &[u8],
        name: &[u8; 16],
        r1kh: Mac,
        sta: Mac,
    ) -> PullAnswer
        requires pass { pass.old.table ≡ self.now.table }
        ensures pass { pass.new.table ≡ pass.old.table }
        ensures pulled { Pulled self.now.ids r0kh_id.now name.now r1kh sta pass.old.knows
            pass.new.knows result }
        ensures own { Answers self.now.ids pass.old.knows.has (λ r. held_at r pass.old.knows.seen)
            r0kh_id.now name.now r1kh sta result }
        ensures named { IsNamed name.now r1kh sta result }
        ensures no_less { NoLess pass.old.knows pass.new.knows }
        ensures lasting { LoadsLast pass.new.knows }
    {
        let Some(r0kh) = self.holder_of(r0kh_id) else {
            // A look at the pass, which is as it was, for what lasts of its loads.
            let _ = &pass.seat;
            return PullAnswer::NoHolder;
        };
        self.rows.pull(&mut pass.seat, r0kh, name, r1kh, sta)
    }

    /// The same, with the PMK-R1 from a cache where it is there. The cache is asked for the key of a
    /// row that was found live by a load of its state word in this call: a row that was revoked is
    /// absent, whatever the cache has. The key is found also where memory ran out to keep it.
    pub fn pull_cached(
        &self,
        pass: &mut HolderPass,
        cache: &mut R1Cache,
        r0kh_id: &[u8],
        name: &[u8; 16],
        r1kh: Mac,
        sta: Mac,
    ) -> PullAnswer
        requires pass { pass.old.table ≡ self.now.table }
        ensures pass { pass.new.table ≡ pass.old.table }
        ensures pulled { Pulled self.now.ids r0kh_id.now name.now r1kh sta pass.old.knows
            pass.new.knows result }
        ensures own { Answers self.now.ids pass.old.knows.has (λ r. held_at r pass.old.knows.seen)
            r0kh_id.now name.now r1kh sta result }
        ensures named { IsNamed name.now r1kh sta result }
        ensures no_less { NoLess pass.old.knows pass.new.knows }
        ensures lasting { LoadsLast pass.new.knows }
        ensures cache { CacheAfterPull name.now r1kh sta cache.old cache.new result }
    {
        let Some(r0kh) = self.holder_of(r0kh_id) else {
            // A look at the pass, which is as it was, for what lasts of its loads.
            let _ = &pass.seat;
            return PullAnswer::NoHolder;
        };
        self.rows
            .pull_cached(&mut pass.seat, cache, r0kh, name, r1kh, sta)
    }

    /// Revokes the live row of a PMKR0Name at an access point that the pass has. Takes no memory.
    pub fn revoke(&self, pass: &mut HolderPass, r0kh: u16, name: &[u8; 16]) -> RevokeAnswer
        requires pass { pass.old.table ≡ self.now.table }
        requires has { is_in r0kh pass.old.knows.has ≡ true }
        ensures pass { pass.new.table ≡ pass.old.table }
        ensures answer { result ≡ revoke_answer name.now (held_at r0kh pass.old.knows.seen) }
        ensures effect { AfterRevoke r0kh name.now pass.old.knows pass.new.knows result }
        ensures rows { held_at r0kh pass.new.knows.seen ≡
            after_revoke name.now result (held_at r0kh pass.old.knows.seen) }
        ensures others { (r : ℕ) → r ≢ r0kh → is_in r pass.old.knows.has ≡ true →
            held_at r pass.new.knows.seen ≡ held_at r pass.old.knows.seen }
        ensures no_less { NoLess pass.old.knows pass.new.knows }
        ensures lasting { LoadsLast pass.new.knows }
    {
        self.rows.revoke(&mut pass.seat, r0kh as usize, name)
    }

    /// A pass of its own for an access point that the pass has.
    pub fn split(&self, pass: &mut HolderPass, ap: u16) -> HolderPass
        requires pass { pass.old.table ≡ self.now.table }
        requires has { is_in ap pass.old.knows.has ≡ true }
        ensures pass { (pass.new.table ≡ pass.old.table) × (result.table ≡ pass.old.table) }
        ensures gave { Gave ap pass.old.knows pass.new.knows result.knows }
        ensures lasting { (LoadsLast pass.new.knows) × (LoadsLast result.knows) }
    {
        let seat = self.rows.split(&mut pass.seat, ap as usize);
        HolderPass { seat }
    }

    /// A pass of its own for an access point that the pass has, and for all that it has after it.
    pub fn split_from(&self, pass: &mut HolderPass, ap: u16) -> HolderPass
        requires pass { pass.old.table ≡ self.now.table }
        requires has { is_in ap pass.old.knows.has ≡ true }
        ensures pass { (pass.new.table ≡ pass.old.table) × (result.table ≡ pass.old.table) }
        ensures gave { GaveFrom ap pass.old.knows pass.new.knows result.knows }
        ensures lasting { (LoadsLast pass.new.knows) × (LoadsLast result.knows) }
    {
        let seat = self.rows.split_from(&mut pass.seat, ap as usize);
        HolderPass { seat }
    }

    /// One pass that has and knows what both did.
    pub fn join(&self, pass: &mut HolderPass, other: HolderPass)
        requires pass { (pass.old.table ≡ self.now.table) × (other.table ≡ self.now.table) }
        ensures pass { pass.new.table ≡ pass.old.table }
        ensures took_in { TookIn pass.old.knows other.knows pass.new.knows }
        ensures lasting { LoadsLast pass.new.knows }
    {
        let HolderPass { seat } = other;
        self.rows.join(&mut pass.seat, seat);
    }
}
