//! Where the fields of an EAPOL-Key frame stand, counted from its EAPOL version, with a MIC of 16
//! octets (IEEE Std 802.11-2020, 12.7.2).

/// Where the MIC begins.
pub const MIC_AT: usize = 81;

/// The octets of the MIC.
pub const MIC_LEN: usize = 16;

/// Where the length of the key data stands, in two octets.
pub const KEY_DATA_LEN_AT: usize = 97;

/// Where the key data begins: so many octets has a frame without any.
pub const KEY_DATA_AT: usize = 99;
