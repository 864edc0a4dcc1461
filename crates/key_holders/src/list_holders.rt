//! Key holders that one alone has.

ghost use Rattle.std.specs.Prelude.{◌≡◌, ◌≤◌, length, position, bytes_eq, IfOk};
ghost use Rattle.key_holders.specs.Listed.{none_held};

use crate::holder_rows::HolderRows;
use crate::holders::Holders;
use crate::rows::HolderRow;
use domain_base::{Mac, NoMemory, Octets};
use key_hierarchy::{PullAnswer, PutAnswer, RevokeAnswer};
use std::alloc::Global;
use std::marker::Model;

/// The key holders of all access points, with one list of rows for each.
#[derive(Drop)]
pub struct ListHolders {
    ids: Vec<Octets>,
    holders: Vec<HolderRows>,
}

impl Model for ListHolders {
    ghost use Rattle.std.specs.Prelude.{◌≡◌, length};
    ghost use Rattle.key_holders.specs.Listed.{Listed};

    ghost Value = { Listed };

    ghost view = { λ h. record { ids = h.ids.items; rows = h.holders.items } };

    ghost invariant = { λ h. length h.holders.items ≡ length h.ids.items };
}

impl ListHolders {
    /// The key holders of the access points with these R0KH-IDs, in order, with no rows.
    pub fn new(alloc: Global, aps: Vec<Octets>) -> Result<ListHolders, NoMemory>
        requires { length aps.items ≤ 65536 }
        ensures { IfOk result (λ h. h ≡ none_held aps.items) }
    {
        let mut holders = Vec::with_capacity(alloc, aps.len())?;
        for place in 0..aps.len() {
            holders.push(HolderRows::new(alloc))?;
        }
        Ok(ListHolders { ids: aps, holders })
    }

    // The access point that has an R0KH-ID.
    fn holder_of(&self, r0kh_id: &[u8]) -> Option<usize>
        ensures { result ≡ position (λ id. bytes_eq id r0kh_id.now) self.now.ids }
    {
        self.ids.iter().position(|id| id.as_slice() == r0kh_id)
    }
}

impl Holders for ListHolders {
    ghost use Rattle.std.specs.Prelude.{◌≡◌, ⊤, length};
    ghost use Rattle.key_holders.specs.Listed.{below, rows_at, Pulled, PutAt, RevokedAt};

    ghost ids = { λ h. h.ids };

    ghost has = { λ h. below (length h.ids) };

    ghost rows = { λ h r. rows_at h.rows r };

    ghost pulls = { λ g id name r1kh sta h answer. Pulled g id name r1kh sta answer × (h ≡ g) };

    ghost puts = { PutAt };

    ghost revokes = { RevokedAt };

    ghost wants = { ⊤ };

    ghost no_less = { λ _ _. ⊤ };

    ghost same = { λ _. tt };

    ghost chain = { λ _ _ _ _ _. tt };

    fn put(&mut self, r0kh: u16, row: HolderRow) -> PutAnswer {
        self.holders[r0kh as usize].put(row)
    }

    fn pull(&mut self, r0kh_id: &[u8], name: &[u8; 16], r1kh: Mac, sta: Mac) -> PullAnswer {
        let Some(r0kh) = self.holder_of(r0kh_id) else {
            return PullAnswer::NoHolder;
        };
        self.holders[r0kh].pull(name, r1kh, sta)
    }

    fn revoke(&mut self, r0kh: u16, name: &[u8; 16]) -> RevokeAnswer {
        self.holders[r0kh as usize].revoke(name)
    }
}
