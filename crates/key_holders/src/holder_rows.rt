//! The rows of one access point.

ghost use Rattle.std.specs.Prelude.{◌≡◌, ◌≢◌, [], position};
ghost use Rattle.key_holders.specs.Rows.{holds_live, put_answer, after_put, ended_row, ended};
ghost use Rattle.key_holders.specs.Rows.{revoke_answer, after_revoke};
ghost use Rattle.key_holders.specs.Pulls.{MayPull, is_match};

use crate::rows::{HeldRow, HolderRow, ROWS};
use domain_base::Mac;
use key_hierarchy::{PullAnswer, PutAnswer, RevokeAnswer};
use std::alloc::Global;
use std::marker::Model;

/// The rows in the order in which they were put. Contracts see the list.
#[derive(Drop)]
pub(crate) struct HolderRows(Vec<HeldRow>);

impl Model for HolderRows {
    ghost use Rattle.std.specs.Prelude.{List};
    ghost use Rattle.key_holders.specs.declared.rows.HeldRow.{HeldRow};

    ghost Value = { List HeldRow };

    ghost view = { λ r. r.0.items };
}

// The row, live no longer where it has that name.
fn ended_row(held: HeldRow, name: &[u8; 16]) -> HeldRow
    ensures { result ≡ ended_row name.now held }
{
    let HeldRow { row, live } = held;
    if row.name == *name {
        return HeldRow { row, live: false };
    }
    HeldRow { row, live }
}

impl HolderRows {
    /// No rows. Takes no memory.
    pub(crate) fn new(alloc: Global) -> Self
        ensures { result ≡ [] }
    {
        HolderRows(Vec::new(alloc))
    }

    // Whether a live row has that name.
    fn holds_live(&self, name: &[u8; 16]) -> bool
        ensures { result ≡ holds_live name.now self.now }
    {
        self.0.iter().any(|h| h.live && h.row.name == *name)
    }

    // The place of the live row of a name and a station.
    fn place_of(&self, name: &[u8; 16], sta: Mac) -> Option<usize>
        ensures { result ≡ position (λ h. is_match name.now sta h) self.now }
    {
        self.0
            .iter()
            .position(|h| h.live && h.row.name == *name && h.row.sta.0 == sta.0)
    }

    /// Puts a row, where no live row has its name and there is room.
    pub(crate) fn put(&mut self, row: HolderRow) -> PutAnswer
        ensures answer { result ≢ PutAnswer.NoMemory → result ≡ put_answer row.name self.old }
        ensures rows { self.new ≡ after_put row result self.old }
    {
        if self.holds_live(&row.name) {
            return PutAnswer::HeldAlready;
        }
        if self.0.len() >= ROWS {
            return PutAnswer::Full;
        }
        match self.0.push(HeldRow { row, live: true }) {
            Ok(()) => PutAnswer::Held,
            Err(_) => PutAnswer::NoMemory,
        }
    }

    /// The PMK-R1 of the live row of a name and a station.
    pub(crate) fn pull(&self, name: &[u8; 16], r1kh: Mac, sta: Mac) -> PullAnswer
        ensures { MayPull self.now name.now r1kh sta result }
    {
        match self.place_of(name, sta) {
            Some(place) => PullAnswer::Found(self.0[place].row.r1(r1kh)),
            None => PullAnswer::Absent,
        }
    }

    // Every row of a name is live no longer.
    fn end(&mut self, name: &[u8; 16])
        ensures { self.new ≡ ended name.now self.old }
    {
        for place in 0..self.0.len() {
            self.0[place] = ended_row(self.0[place], name);
        }
    }

    /// Revokes the live row of a name.
    pub(crate) fn revoke(&mut self, name: &[u8; 16]) -> RevokeAnswer
        ensures answer { result ≡ revoke_answer name.now self.old }
        ensures rows { self.new ≡ after_revoke name.now result self.old }
    {
        if !self.holds_live(name) {
            return RevokeAnswer::Absent;
        }
        self.end(name);
        RevokeAnswer::Revoked
    }
}
