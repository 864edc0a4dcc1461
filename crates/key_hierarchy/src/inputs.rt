//! What a pairwise transient key is made of, and its parts.

ghost use Rattle.std.specs.Prelude.{◌≡◌};

use domain_base::{Akm, Mac, Octets, array_at};

/// All that a pairwise transient key is derived from (IEEE Std 802.11-2020, 12.7.1.3 and 12.7.1.6).
///
/// With AKM suites 2 and 6 the MDID is `[0, 0]` and the R0KH-ID is empty.
#[derive(Drop)]
pub struct Inputs {
    /// The suite.
    pub akm: Akm,
    /// The pre-shared key.
    pub psk: [u8; 32],
    /// 1 to 32 octets.
    pub ssid: Octets,
    /// The mobility domain.
    pub mdid: [u8; 2],
    /// The R0 key holder, 1 to 48 octets with AKM suite 4.
    pub r0kh_id: Octets,
    /// The authenticator's address: the BSSID.
    pub aa: Mac,
    /// The supplicant's address: the station's.
    pub spa: Mac,
    /// The authenticator's nonce.
    pub anonce: [u8; 32],
    /// The supplicant's nonce.
    pub snonce: [u8; 32],
}

/// A pairwise transient key by its three parts (IEEE Std 802.11-2020, 12.7.1.3).
#[derive(Clone, Copy, PartialEq, Eq)]
pub struct Ptk {
    /// The key confirmation key, for MICs.
    pub kck: [u8; 16],
    /// The key encryption key, for key data.
    pub kek: [u8; 16],
    /// The temporal key, for data under CCMP-128.
    pub tk: [u8; 16],
}

impl Ptk {
    ghost use Rattle.key_hierarchy.specs.Parts.{split_ptk};

    // The key of its 48 octets: KCK, KEK and TK in this order.
    pub(crate) fn from_octets(octets: &[u8; 48]) -> Ptk
        ensures { result ≡ split_ptk octets.now }
    {
        Ptk {
            kck: array_at(octets, 0),
            kek: array_at(octets, 16),
            tk: array_at(octets, 32),
        }
    }
}
