//! PBKDF2 (RFC 8018, 5.2) with HMAC-SHA-1, for the key of a passphrase.

ghost use Rattle.std.specs.Prelude.{◌≡◌, ◌≤◌, ℕ, List, []};
ghost use Rattle.sha1.specs.Sha1.{sha1, Holds as HoldsSha1};
ghost use Rattle.mac_prf.specs.HoldsText.{HoldsText};
ghost use Rattle.mac_prf.specs.Hmac.{hmac};
ghost use Rattle.mac_prf.specs.Pbkdf2.{pbkdf2, pbkdf2_block};

use crate::blocks::{add, put_block};
use crate::hmac::Hmac;
use sha1::Sha1;

// How often each block is hashed anew.
const ITERATIONS: u32 = 4096;

// The HMAC of one iterate under the key.
fn next_iterate(keyed: &Hmac<20, Sha1>, iterate: &[u8; 20]) -> [u8; 20]
    ensures { (key : List ℕ) → HoldsText HoldsSha1 sha1 keyed.now.inner keyed.now.outer key []
        → result ≡ hmac sha1 key iterate.now }
{
    let mut state = keyed.fork();
    state.update(iterate);
    state.finalize()
}

/// The block of a number, after at least one iteration.
pub fn pbkdf2_block(keyed: &Hmac<20, Sha1>, salt: &[u8], count: u32, i: u32) -> [u8; 20]
    requires { 1 ≤ count }
    ensures { (key : List ℕ) → HoldsText HoldsSha1 sha1 keyed.now.inner keyed.now.outer key []
        → result ≡ pbkdf2_block key salt.now count i }
{
    let mut state = keyed.fork();
    state.update(salt);
    state.update(&i.to_be_bytes());
    let mut iterate = state.finalize();
    let mut sum = iterate;
    for _ in 1..count {
        iterate = next_iterate(keyed, &iterate);
        add(&mut sum, &iterate);
    }
    sum
}

/// The 256 bits that PBKDF2 makes of a passphrase and an SSID with 4,096 iterations of HMAC-SHA-1
/// (RFC 8018, 5.2; IEEE Std 802.11-2020, J.4), of octets of any number. Takes no memory.
pub fn pbkdf2(passphrase: &[u8], ssid: &[u8]) -> [u8; 32]
    ensures { result ≡ pbkdf2 passphrase.now ssid.now }
{
    let keyed = Hmac::<20, Sha1>::new(passphrase);
    let first = pbkdf2_block(&keyed, ssid, ITERATIONS, 1);
    let second = pbkdf2_block(&keyed, ssid, ITERATIONS, 2);
    let mut key = [0; 32];
    put_block(&mut key, 0, &first);
    put_block(&mut key, 20, &second);
    key
}
