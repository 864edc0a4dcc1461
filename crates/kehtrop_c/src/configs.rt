//! The configuration of a node, and what it starts from.

ghost use Rattle.std.specs.Prelude.{◌≡◌, ◌&&◌, nat_le, false, MatchOption};
ghost use Rattle.std.specs.List.{list_all};
ghost use Rattle.embedded_node.specs.Starts.{is_ssid};
ghost use Rattle.kehtrop_c.specs.Crossing.{IsHeaderOf, akm_of, extras_of, has_mfp};
ghost use Rattle.kehtrop_c.specs.Crossing.{is_config};
ghost use Rattle.kehtrop_c.specs.Passphrases.{is_passphrase};

use crate::crossing::Config;
use domain_base::Akm;
use embedded_node::Header;
use run_journal::{Extras, Version};

// Whether each code is that of a character of a passphrase.
fn are_characters(octets: &[u8]) -> bool
    ensures { result ≡ list_all (λ c. nat_le 32 c && nat_le c 126) octets.now }
{
    octets.iter().all(|c| 32 <= *c && *c <= 126)
}

// Whether these octets are a passphrase (IEEE Std 802.11-2020, J.4).
fn is_passphrase(octets: &[u8]) -> bool
    ensures { result ≡ is_passphrase octets.now }
{
    8 <= octets.len() && octets.len() <= 63 && are_characters(octets)
}

// Whether these octets are the name of a network.
fn is_ssid(octets: &[u8]) -> bool
    ensures { result ≡ is_ssid octets.now }
{
    1 <= octets.len() && octets.len() <= 32
}

/// Whether a pre-shared key is made of these: a passphrase, and the name of a network.
pub fn makes_psk(passphrase: &[u8], ssid: &[u8]) -> bool
    ensures { result ≡ (is_passphrase passphrase.now && is_ssid ssid.now) }
{
    is_passphrase(passphrase) && is_ssid(ssid)
}

// The suite of that number.
fn akm_of(number: u8) -> Option<Akm>
    ensures { result ≡ akm_of number }
{
    match number {
        2 => Some(Akm::Psk),
        6 => Some(Akm::PskSha256),
        4 => Some(Akm::FtPsk),
        _ => None,
    }
}

// Whether a network of that suite can be one that protects management frames or does not.
fn has_mfp(akm: u8, mfp: u8) -> bool
    ensures { result ≡ has_mfp akm mfp }
{
    mfp == 0 || akm != 2
}

// Whether keys are renewed, at which packet number by an access point itself, and whether management
// frames are protected.
fn extras_of(renewals: u8, at: u32, mfp: u8) -> Extras
    ensures { result ≡ extras_of renewals at mfp }
{
    let version = if renewals == 0 {
        Version::One
    } else {
        Version::Two
    };
    let renew_at = if at == 0 { None } else { Some(at) };
    let mfp = mfp != 0;
    Extras {
        version,
        renew_at,
        mfp,
    }
}

/// The header of a configuration, where it is one.
#[tactic(auto, using(crate::proofs::Gone::unconfigured))]
pub fn header_of(config: &Config) -> Option<Header<'_>>
    ensures { MatchOption result (is_config config.now ≡ false) (IsHeaderOf config.now) }
{
    let len = usize::from(config.ssid_len);
    if 32 < len {
        return None;
    }
    if !has_mfp(config.akm, config.mfp) {
        return None;
    }
    match akm_of(config.akm) {
        Some(akm) => Some(Header {
            seed: &config.seed,
            ssid: &config.ssid[..len],
            akm,
            mdid: config.mdid,
            extras: extras_of(config.renewals, config.renew_at, config.mfp),
        }),
        None => None,
    }
}
