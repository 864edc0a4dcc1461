//! What one process asks the other.

ghost use Rattle.std.specs.Prelude.{◌≡◌, IfOk};

use domain_base::{Mac, NoMemory, Octets};
use std::alloc::Global;

/// What an R1 key holder asks: the PMK-R1 that a PMK-R0 makes for it and a station
/// (IEEE Std 802.11-2020, 12.7.1.6.4).
#[derive(Drop)]
pub struct Question {
    /// The R0 key holder, by its R0KH-ID of 1 to 48 octets.
    pub r0kh_id: Octets,
    /// PMKR0Name.
    pub name: [u8; 16],
    /// The R1 key holder, by its R1KH-ID.
    pub r1kh: Mac,
    /// The station's address.
    pub sta: Mac,
}

/// What became of a question that is to be open no longer.
#[derive(Clone, Copy)]
pub enum Forgetting {
    /// It was open until now.
    Forgot,
    /// It was not open.
    Nothing,
}

impl Question {
    /// The same, in memory of its own.
    pub fn copied(&self, alloc: Global) -> Result<Question, NoMemory>
        ensures { IfOk result (λ q. q ≡ self.now) }
    {
        Ok(Question {
            r0kh_id: Octets(Vec::from_slice(alloc, self.r0kh_id.as_slice())?),
            name: self.name,
            r1kh: self.r1kh,
            sta: self.sta,
        })
    }
}
