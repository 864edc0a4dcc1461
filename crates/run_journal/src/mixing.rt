//! Which chain an entry stands in: one that a mix of octets names.

ghost use Rattle.std.specs.Prelude.{◌≡◌, ◌<◌, take};
ghost use Rattle.run_journal.specs.Chained.{count_of, mix, mixed};
ghost use Rattle.run_journal.specs.Looking.{chain_of, chain_of_seal};

use crate::acts::Seal;
use crate::breadth::Breadth;

// What a mix begins with, and what each octet multiplies it by (32-bit FNV-1a).
const START: u32 = 2_166_136_261;

const PRIME: u32 = 16_777_619;

// How many octets are mixed of what is drawn or derived, and of the key of a seal. Any of them tell
// one from another, since a KDF made them.
const VALUE_FRONT: usize = 8;

// How many octets of a seal are mixed. In them is what tells one seal of a key from another: the
// replay counter of an EAPOL-Key frame, or the packet number of a data frame. A fast BSS transition
// seals two frames by its key.
const SEAL_FRONT: usize = 32;

// One more octet in a mix.
#[tactic(auto, unfolding(crate::specs::Chained::mixed))]
fn mixed(mix: u32, octet: u8) -> u32
    ensures { result ≡ mixed mix octet }
{
    (mix ^ u32::from(octet)).wrapping_mul(PRIME)
}

// The mix of octets, after that of others.
#[tactic(auto, unfolding(crate::specs::Chained::mix))]
fn mix(before: u32, octets: &[u8]) -> u32
    ensures { result ≡ mix before octets.now }
{
    octets.iter().fold(before, |sum, octet| mixed(sum, *octet))
}

/// The chain of what has these octets, by the first of them.
pub(crate) fn chain_of(breadth: Breadth, octets: &[u8]) -> usize
    ensures chain { result ≡ chain_of breadth octets.now }
    ensures within { result < count_of breadth }
{
    breadth.chain(mix(START, front(octets, VALUE_FRONT)))
}

// At most so many of the octets.
fn front(octets: &[u8], most: usize) -> &[u8]
    ensures { result.now ≡ take most octets.now }
{
    if octets.len() < most {
        octets
    } else {
        &octets[..most]
    }
}

/// The chain of what has this seal, by the first octets of its key and of what is sealed.
pub(crate) fn chain_of_seal(breadth: Breadth, seal: &Seal) -> usize
    ensures chain { result ≡ chain_of_seal breadth seal.now }
    ensures within { result < count_of breadth }
{
    let key = mix(START, front(&seal.key, VALUE_FRONT));
    breadth.chain(mix(key, front(seal.octets.as_slice(), SEAL_FRONT)))
}
