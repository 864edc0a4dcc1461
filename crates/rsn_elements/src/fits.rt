//! Whether the suites and capabilities that a peer asks for are those of the network.

ghost use Rattle.std.specs.Prelude.{◌≡◌, ◌<◌, option_map, bytes_eq};
ghost use Rattle.rsn_elements.specs.Fields.{rsne_fields};
ghost use Rattle.rsn_elements.specs.Pieces.{suite};
ghost use Rattle.rsn_elements.specs.Fits.{is_suite, is_ccmp, is_bip, has_capability};
ghost use Rattle.rsn_elements.specs.Fits.{protection_status, rsne_status};

use crate::security::{Rsne, Suites};
use crate::writing::akm_type;
use domain_base::Akm;

// The cipher suite CCMP-128 (IEEE Std 802.11-2020, 9.4.2.24.2).
const CCMP: u8 = 4;

// The cipher suite BIP-CMAC-128 (9.4.2.24.2).
const BIP: u8 = 6;

// The bit of the RSN capabilities that requires management frame protection (9.4.2.24.4).
const MFP_REQUIRED: u32 = 6;

// The bit that says that it is possible (9.4.2.24.4).
const MFP_CAPABLE: u32 = 7;

// The octets are 00-0F-AC and the number of the suite (9.4.2.24.2 and 9.4.2.24.3).
fn names(octets: &[u8], number: u8) -> bool
    ensures { result ≡ bytes_eq octets.now (suite number) }
{
    octets == [0x00, 0x0f, 0xac, number].as_slice()
}

// That suite alone.
fn is_suite(number: u8, suites: Option<Suites<'_>>) -> bool
    ensures { result ≡ is_suite number (option_map (λ s. s.0.now) suites.entry) }
{
    match suites {
        Some(suites) => names(suites.0, number),
        None => false,
    }
}

// CCMP-128 alone, also where nothing is said.
fn is_ccmp(suites: Option<Suites<'_>>) -> bool
    ensures { result ≡ is_ccmp (option_map (λ s. s.0.now) suites.entry) }
{
    match suites {
        Some(suites) => names(suites.0, CCMP),
        None => true,
    }
}

// The same of one suite.
fn is_group_ccmp(suite: Option<[u8; 4]>) -> bool
    ensures { result ≡ is_ccmp suite }
{
    match suite {
        Some(octets) => names(&octets, CCMP),
        None => true,
    }
}

// BIP-CMAC-128, also where nothing is said.
fn is_bip(suite: Option<[u8; 4]>) -> bool
    ensures { result ≡ is_bip suite }
{
    match suite {
        Some(octets) => names(&octets, BIP),
        None => true,
    }
}

// That bit of the capabilities is set.
fn has_capability(bit: u32, capabilities: Option<u16>) -> bool
    requires { bit < 16 }
    ensures { result ≡ has_capability bit capabilities }
{
    match capabilities {
        Some(bits) => bits >> bit & 1 == 1,
        None => false,
    }
}

// The status with which an RSNE is refused for what it says of the protection of management frames,
// if it is.
fn protection_status(protects: bool, rsne: &Rsne<'_>) -> Option<u16>
    ensures { result ≡ protection_status protects (rsne_fields rsne.now) }
{
    if !protects {
        if has_capability(MFP_REQUIRED, rsne.capabilities) {
            Some(43)
        } else {
            None
        }
    } else if !has_capability(MFP_CAPABLE, rsne.capabilities) {
        Some(31)
    } else if !is_bip(rsne.management) {
        Some(46)
    } else {
        None
    }
}

/// The status with which the RSNE of a peer is refused, if it is, by a network that protects
/// management frames or one that does not (IEEE Std 802.11-2020, 9.4.1.9): 41 for the group cipher
/// or a missing RSNE, 42 for the pairwise cipher, 43 for the suite. Then, where management frames
/// are protected, 31 where the peer is not capable of it, and 46 for the group management cipher;
/// and where they are not, 43 where protection is required. A cipher that is not named is the one
/// of the network.
pub fn rsne_status(protects: bool, akm: Akm, rsne: Option<Rsne<'_>>) -> Option<u16>
    ensures { result ≡ rsne_status protects akm (option_map rsne_fields rsne.entry) }
{
    let Some(rsne) = rsne else { return Some(41) };
    if !is_group_ccmp(rsne.group) {
        Some(41)
    } else if !is_ccmp(rsne.pairwise) {
        Some(42)
    } else if !is_suite(akm_type(akm), rsne.akms) {
        Some(43)
    } else {
        protection_status(protects, &rsne)
    }
}
