//! The pairwise key hierarchy of AKM suites 2 and 6.

ghost use Rattle.std.specs.Prelude.{◌≡◌, ◌≢◌, length, codes};
ghost use Rattle.key_hierarchy.specs.Keys.{lesser, greater, pairwise_context, expansion};
ghost use Rattle.key_hierarchy.specs.Keys.{pairwise_ptk};
ghost use Rattle.domain_base.specs.declared.names.Akm.TheVariants.{PskSha256};

use crate::inputs::Ptk;
use domain_base::{Akm, Mac, put};
use mac_prf::{KdfKey, kdf, prf};
use std::cmp::Ordering;

const LABEL: &[u8] = b"Pairwise key expansion";

// Two octet strings of one length, the lesser first.
fn in_order<'a>(a: &'a [u8], b: &'a [u8]) -> (&'a [u8], &'a [u8])
    requires { length a.now ≡ length b.now }
    ensures low { result.0.now ≡ lesser a.now b.now }
    ensures high { result.1.now ≡ greater a.now b.now }
    ensures low_len { length result.0.now ≡ length a.now }
    ensures high_len { length result.1.now ≡ length a.now }
{
    match a.cmp(&b) {
        Ordering::Less | Ordering::Equal => (a, b),
        Ordering::Greater => (b, a),
    }
}

// The addresses and then the nonces, each pair in order.
fn pairwise_context(aa: Mac, spa: Mac, anonce: &[u8; 32], snonce: &[u8; 32]) -> [u8; 76]
    ensures { result ≡ pairwise_context aa spa anonce.now snonce.now }
{
    let (low_address, high_address) = in_order(&aa.0, &spa.0);
    let (low_nonce, high_nonce) = in_order(anonce, snonce);
    let mut context = [0; 76];
    let end = put(&mut context, 0, low_address);
    let end = put(&mut context, end, high_address);
    let end = put(&mut context, end, low_nonce);
    put(&mut context, end, high_nonce);
    context
}

// 48 octets of the key's expansion, by the function of the suite.
fn expanded(akm: Akm, psk: &[u8; 32], context: &[u8; 76]) -> [u8; 48]
    requires { akm ≢ Akm.FtPsk }
    ensures { result ≡ expansion akm psk.now (codes "Pairwise key expansion") context.now 48 }
{
    let mut octets = [0; 48];
    match akm {
        Akm::Psk => prf(psk, LABEL, context, &mut octets),
        Akm::PskSha256 => kdf(psk, LABEL, context, &mut octets),
        Akm::FtPsk => unreachable!(),
    }
    octets
}

/// The pairwise transient key of AKM suites 2 and 6 (IEEE Std 802.11-2020, 12.7.1.3): PRF-384 with
/// suite 2 and KDF-SHA-256-384 with suite 6, over the addresses and nonces by their order. Takes no
/// memory.
pub fn pairwise_ptk(
    akm: Akm,
    psk: &[u8; 32],
    aa: Mac,
    spa: Mac,
    anonce: &[u8; 32],
    snonce: &[u8; 32],
) -> Ptk
    requires { akm ≢ Akm.FtPsk }
    ensures { result ≡ pairwise_ptk akm psk.now aa spa anonce.now snonce.now }
{
    let context = pairwise_context(aa, spa, anonce, snonce);
    Ptk::from_octets(&expanded(akm, psk, &context))
}

/// The same with suite 6, of a pre-shared key that was looked at already.
pub(crate) fn keyed_ptk(
    psk: &KdfKey,
    aa: Mac,
    spa: Mac,
    anonce: &[u8; 32],
    snonce: &[u8; 32],
) -> Ptk
    ensures { result ≡ pairwise_ptk PskSha256 psk.now aa spa anonce.now snonce.now }
{
    let context = pairwise_context(aa, spa, anonce, snonce);
    let mut octets = [0; 48];
    psk.kdf(LABEL, &context, &mut octets);
    Ptk::from_octets(&octets)
}
