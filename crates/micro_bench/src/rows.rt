//! The access points and their rows.

ghost use Rattle.std.specs.Prelude.{◌≡◌, ◌<◌, length, IfOk, true};
ghost use Rattle.key_holders.specs.Rows.{is_in};
ghost use Rattle.key_holders.specs.Listed.{below};

use domain_base::{Mac, NoMemory, Octets};
use holder_table::{HolderPass, SharedHolders};
use key_hierarchy::PutAnswer;
use key_holders::HolderRow;
use std::alloc::Global;

/// The R0KH-IDs of the access points in order.
pub const R0KH_IDS: [&[u8]; 16] = [
    b"r0kh-1", b"r0kh-2", b"r0kh-3", b"r0kh-4", b"r0kh-5", b"r0kh-6", b"r0kh-7", b"r0kh-8",
    b"r0kh-9", b"r0kh-10", b"r0kh-11", b"r0kh-12", b"r0kh-13", b"r0kh-14", b"r0kh-15", b"r0kh-16",
];

/// The R0KH-IDs, each in memory of its own.
pub fn ids(alloc: Global) -> Result<Vec<Octets>, NoMemory>
    ensures { IfOk result (λ v. length v.items ≡ 16) }
{
    let mut ids = Vec::new(alloc);
    for ap in 0..16 {
        let id = Vec::from_slice(alloc, R0KH_IDS[ap])?;
        ids.push(Octets(id))?;
    }
    Ok(ids)
}

/// The PMKR0Name of a row of an access point.
pub fn name_of(ap: u8, number: u8) -> [u8; 16] {
    let mut name = [number; 16];
    name[15] = ap;
    name
}

/// The station of a row.
pub fn sta_of(number: u8) -> Mac {
    Mac([0x02, 0x00, 0x00, 0x00, 0x02, number])
}

fn row(ap: u8, number: u8) -> HolderRow {
    let mut key = [number; 32];
    key[31] = ap;
    HolderRow {
        name: name_of(ap, number),
        key,
        sta: sta_of(number),
    }
}

// Puts that many rows at an access point, and answers whether each was held.
fn fill(holders: &SharedHolders, pass: &mut HolderPass, ap: u8, rows: u8) -> bool
    requires pass { pass.old.table ≡ holders.now.table }
    requires has { is_in ap pass.old.knows.has ≡ true }
    ensures pass { pass.new.table ≡ pass.old.table }
    ensures has { pass.new.knows.has ≡ pass.old.knows.has }
{
    let mut all = true;
    for number in 0..rows {
        let answer = holders.put(pass, u16::from(ap), row(ap, number));
        all &= matches!(answer, PutAnswer::Held);
    }
    all
}

/// Puts that many rows at each access point, and answers whether each was held.
pub fn fill_all(holders: &SharedHolders, pass: &mut HolderPass, rows: u8) -> bool
    requires pass { pass.old.table ≡ holders.now.table }
    requires has { pass.old.knows.has ≡ below 16 }
    ensures pass { pass.new.table ≡ pass.old.table }
    ensures has { pass.new.knows.has ≡ pass.old.knows.has }
{
    let mut all = true;
    for ap in 0..16 {
        all &= fill(holders, pass, ap, rows);
    }
    all
}
