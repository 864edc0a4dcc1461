//! What the holders of the keys of fast transition answer.

use crate::fast_transition::PmkR1;

/// How a key holder answers where a PMK-R0 is put into it.
#[derive(Clone, Copy)]
pub enum PutAnswer {
    /// It is held from now on.
    Held,
    /// One of that name was held already.
    HeldAlready,
    /// There is no room for one more.
    Full,
    /// Memory ran out.
    NoMemory,
}

/// How the key holders answer where a PMK-R1 is asked for.
#[derive(Clone, Copy)]
pub enum PullAnswer {
    /// The key.
    Found(PmkR1),
    /// No access point has that R0KH-ID.
    NoHolder,
    /// The holder has no PMK-R0 of that name for that station.
    Absent,
}

/// How a key holder answers where a PMK-R0 is to be held no longer.
#[derive(Clone, Copy)]
pub enum RevokeAnswer {
    /// It was held until now.
    Revoked,
    /// None of that name was held.
    Absent,
}
