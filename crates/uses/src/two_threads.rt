//! Key holders that two threads share.

ghost use Rattle.std.specs.Prelude.{◌≡◌, ◌≢◌, [], ◌∷◌, true, length, slice_index_or, IfOk};
ghost use Rattle.key_hierarchy.specs.declared.answers.PullAnswer.TheVariants.{Found};
ghost use Rattle.key_holders.specs.Keys.{row_r1};
ghost use Rattle.key_holders.specs.Rows.{is_in, live};
ghost use Rattle.holder_table.specs.Histories.{held_at};
ghost use Rattle.holder_table.specs.Knowledge.{Pulled};
ghost use Rattle.uses.specs.Looks.{IsThatOrNone};

use domain_base::{Mac, NoMemory, Octets};
use holder_table::{HolderPass, SharedHolders};
use key_hierarchy::PullAnswer;
use key_holders::HolderRow;
use std::alloc::Global;
use std::thread::{Threads, join};

/// What an access point found at the key holder of another one.
#[derive(Clone, Copy)]
pub struct Looks {
    /// While the other one put the key there, on another thread.
    pub during: PullAnswer,
    /// After that.
    pub after: PullAnswer,
}

// The first access point puts a key at its key holder, where there is none yet.
fn put(holders: &SharedHolders, pass: HolderPass, row: HolderRow) -> HolderPass
    requires table { pass.table ≡ holders.now.table }
    requires has { is_in 0 pass.knows.has ≡ true }
    requires none { held_at 0 pass.knows.seen ≡ [] }
    ensures table { result.table ≡ pass.table }
    ensures row { held_at 0 result.knows.seen ≡ live row ∷ [] }
    ensures has { result.knows.has ≡ pass.knows.has }
{
    let mut pass = pass;
    let _held = holders.put(&mut pass, 0, row);
    pass
}

// The second one asks the first one's key holder for it.
fn ask(
    holders: &SharedHolders,
    pass: HolderPass,
    r0kh_id: &[u8],
    row: HolderRow,
    r1kh: Mac,
) -> (HolderPass, PullAnswer)
    requires table { pass.table ≡ holders.now.table }
    ensures table { result.0.table ≡ pass.table }
    ensures pulled { Pulled holders.now.ids r0kh_id.now row.name r1kh row.sta pass.knows
        result.0.knows result.1 }
{
    let mut pass = pass;
    let answer = holders.pull(&mut pass, r0kh_id, &row.name, r1kh, row.sta);
    (pass, answer)
}

// Both at once, each on a thread of its own.
fn at_once<R: Threads + Sync>(
    rt: &R,
    holders: &SharedHolders,
    passes: (HolderPass, HolderPass),
    r0kh_id: &[u8],
    row: HolderRow,
    r1kh: Mac,
) -> (HolderPass, (HolderPass, PullAnswer))
    requires tables { (passes.0.table ≡ holders.now.table) × (passes.1.table ≡ holders.now.table) }
    requires has { is_in 0 passes.0.knows.has ≡ true }
    requires none { held_at 0 passes.0.knows.seen ≡ [] }
    ensures tables { (result.0.table ≡ holders.now.table)
        × (result.1.0.table ≡ holders.now.table) }
    ensures row { held_at 0 result.0.knows.seen ≡ live row ∷ [] }
    ensures has { result.0.knows.has ≡ passes.0.knows.has }
    ensures pulled { Pulled holders.now.ids r0kh_id.now row.name r1kh row.sta passes.1.knows
        result.1.0.knows result.1.1 }
{
    let (first, second) = passes;
    join(
        rt,
        || -> HolderPass
            requires { (first.table ≡ holders.now.table) × (is_in 0 first.knows.has ≡ true)
                × (held_at 0 first.knows.seen ≡ []) }
            ensures table { result.table ≡ holders.entry.now.table }
            ensures row { held_at 0 result.knows.seen ≡ live row ∷ [] }
            ensures has { result.knows.has ≡ first.knows.has }
        { put(holders, first, row) },
        || -> (HolderPass, PullAnswer)
            requires { second.table ≡ holders.now.table }
            ensures table { result.0.table ≡ holders.entry.now.table }
            ensures pulled { Pulled holders.entry.now.ids r0kh_id.entry.now row.name r1kh row.sta
                second.knows result.0.knows result.1 }
        { ask(holders, second, r0kh_id, row, r1kh) },
    )
}

/// Two access points, each on a thread of its own, with these R0KH-IDs: the first one, whose
/// R0KH-ID is `r0kh_id`, puts the PMK-R0 of a station at its key holder, and the second one asks
/// there for the PMK-R1 of that station for the R1 key holder `r1kh`. Once both are done it asks
/// again.
///
/// While they run side by side it finds that key or none, and no other one; and afterwards it finds
/// that key.
///
/// # Errors
///
/// Out of memory.
pub fn side_by_side<R: Threads + Sync>(
    rt: &R,
    alloc: Global,
    ids: Vec<Octets>,
    r0kh_id: &[u8],
    row: HolderRow,
    r1kh: Mac,
) -> Result<Looks, NoMemory>
    requires two { length ids.items ≡ 2 }
    requires first { slice_index_or ids.items 0 [] ≡ r0kh_id.now }
    requires other { slice_index_or ids.items 1 [] ≢ r0kh_id.now }
    ensures during { IfOk result (λ l. IsThatOrNone (row_r1 row r1kh) l.during) }
    ensures after { IfOk result (λ l. l.after ≡ Found (row_r1 row r1kh)) }
{
    let (holders, mut first) = SharedHolders::start(alloc, ids)?;
    let second = holders.split(&mut first, 1);
    let passes = (first, second);
    let (mut pass, (other, during)) = at_once(rt, &holders, passes, r0kh_id, row, r1kh);
    holders.join(&mut pass, other);
    let after = holders.pull(&mut pass, r0kh_id, &row.name, r1kh, row.sta);
    Ok(Looks { during, after })
}
