//! The two functions that expand a key: PRF and KDF.

ghost use Rattle.std.specs.Prelude.{◌≡◌, ◌≤◌, ℕ, List, [], length};
ghost use Rattle.sha1.specs.Sha1.{sha1, Holds as HoldsSha1};
ghost use Rattle.sha2.specs.Sha256.{sha256};
ghost use Rattle.sha2.specs.Hashers.{Holds256};
ghost use Rattle.mac_prf.specs.HoldsText.{HoldsText};
ghost use Rattle.mac_prf.specs.Prf.{prf, prf_block, kdf, kdf_block};

use crate::blocks::put_block;
use crate::hmac::Hmac;
use sha1::Sha1;
use sha2::Sha256;
use std::marker::Model;

// The lengths of the two digests.
const SHA1_LEN: usize = 20;

const SHA256_LEN: usize = 32;

fn prf_block(keyed: &Hmac<20, Sha1>, label: &[u8], context: &[u8], i: u8) -> [u8; 20]
    ensures { (key : List ℕ) → HoldsText HoldsSha1 sha1 keyed.now.inner keyed.now.outer key []
        → result ≡ prf_block key label.now context.now i }
{
    let mut state = keyed.fork();
    state.update(label);
    state.update(&[0]);
    state.update(context);
    state.update(&[i]);
    state.finalize()
}

/// PRF-n (IEEE Std 802.11-2020, 12.7.1.2): fills `out`, of at most 5,120 octets, so that the number
/// of each block of 20 octets is one octet. Takes no memory.
pub fn prf(key: &[u8], label: &[u8], context: &[u8], out: &mut [u8])
    requires { length out.old ≤ 5120 }
    ensures { out.new ≡ prf key.now label.now context.now (length out.old) }
{
    let keyed = Hmac::<20, Sha1>::new(key);
    for i in 0..out.len().div_ceil(SHA1_LEN) {
        let block = prf_block(&keyed, label, context, i as u8);
        put_block(out, SHA1_LEN * i, &block);
    }
}

fn kdf_block(keyed: &Hmac<32, Sha256>, label: &[u8], context: &[u8], bits: u16, i: u16) -> [u8; 32]
    ensures { (key : List ℕ) → HoldsText Holds256 sha256 keyed.now.inner keyed.now.outer key []
        → result ≡ kdf_block key label.now context.now bits i }
{
    let mut state = keyed.fork();
    state.update(&i.to_le_bytes());
    state.update(label);
    state.update(context);
    state.update(&bits.to_le_bytes());
    state.finalize()
}

// KDF-SHA-256-n from the keyed state.
fn kdf_under(keyed: &Hmac<32, Sha256>, label: &[u8], context: &[u8], out: &mut [u8])
    requires { length out.old ≤ 8191 }
    ensures { (key : List ℕ) → HoldsText Holds256 sha256 keyed.now.inner keyed.now.outer key []
        → out.new ≡ kdf key label.now context.now (length out.old) }
{
    let bits = 8 * out.len() as u16;
    for i in 0..out.len().div_ceil(SHA256_LEN) {
        let block = kdf_block(keyed, label, context, bits, i as u16 + 1);
        put_block(out, SHA256_LEN * i, &block);
    }
}

/// KDF-SHA-256-n (IEEE Std 802.11-2020, 12.7.1.6.2): fills `out`, of at most 8,191 octets, so that
/// their number of bits is two octets. Takes no memory.
pub fn kdf(key: &[u8], label: &[u8], context: &[u8], out: &mut [u8])
    requires { length out.old ≤ 8191 }
    ensures { out.new ≡ kdf key.now label.now context.now (length out.old) }
{
    let keyed = Hmac::<32, Sha256>::new(key);
    kdf_under(&keyed, label, context, out);
}

/// A key of KDF-SHA-256, with the state that all begins with that is made of it: so it is looked at
/// once. Contracts see the key.
#[derive(Drop)]
pub struct KdfKey {
    key: [u8; 32],
    keyed: Hmac<32, Sha256>,
}

impl Model for KdfKey {
    ghost use Rattle.std.specs.Prelude.{ℕ, List, []};
    ghost use Rattle.sha2.specs.Sha256.{sha256};
    ghost use Rattle.sha2.specs.Hashers.{Holds256};
    ghost use Rattle.mac_prf.specs.HoldsText.{HoldsText};

    ghost Value = { List ℕ };

    ghost view = { λ k. k.key };

    ghost invariant = { λ k. HoldsText Holds256 sha256 k.keyed.inner k.keyed.outer k.key [] };
}

impl KdfKey {
    /// That key.
    pub fn new(key: &[u8; 32]) -> Self
        ensures { result ≡ key.now }
    {
        KdfKey {
            key: *key,
            keyed: Hmac::<32, Sha256>::new(key),
        }
    }

    /// A second one of the same key.
    pub fn fork(&self) -> Self
        ensures { result ≡ self.now }
    {
        KdfKey {
            key: self.key,
            keyed: self.keyed.fork(),
        }
    }

    /// Its octets.
    pub fn octets(&self) -> [u8; 32]
        ensures { result ≡ self.now }
    {
        self.key
    }

    /// KDF-SHA-256-n of the key, as [`kdf`] does it. What is made of it leaves the key as it is.
    /// Takes no memory.
    pub fn kdf(&self, label: &[u8], context: &[u8], out: &mut [u8])
        requires { length out.old ≤ 8191 }
        ensures { out.new ≡ kdf self.now label.now context.now (length out.old) }
    {
        kdf_under(&self.keyed, label, context, out);
    }
}
