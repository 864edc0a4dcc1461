//! What the datagrams say.

use domain_base::Mac;

/// An Ask, over the octets that it was read from.
#[derive(Clone, Copy)]
pub struct Ask<'a> {
    /// The nonce.
    pub nonce: [u8; 16],
    /// The R0 key holder.
    pub r0kh_id: &'a [u8],
    /// PMKR0Name.
    pub name: [u8; 16],
    /// The R1 key holder.
    pub r1kh: Mac,
    /// The station.
    pub sta: Mac,
    /// The CMAC.
    pub code: [u8; 16],
    /// The octets that it covers.
    pub covered: &'a [u8],
}

/// What an Answer says.
#[derive(Clone, Copy)]
pub enum Said {
    /// The PMK-R1, wrapped.
    Found([u8; 40]),
    /// No access point has that R0KH-ID.
    NoHolder,
    /// There is no such PMK-R0.
    Absent,
}

/// An Answer, over the octets that it was read from.
#[derive(Clone, Copy)]
pub struct Answer<'a> {
    /// The nonce of the question.
    pub nonce: [u8; 16],
    /// What is said.
    pub said: Said,
    /// The CMAC.
    pub code: [u8; 16],
    /// The octets that it covers.
    pub covered: &'a [u8],
}
