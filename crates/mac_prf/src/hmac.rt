//! HMAC (RFC 2104) over SHA-1 and SHA-256.

ghost use Rattle.std.specs.Prelude.{◌≡◌, ℕ, List, [], ◌≤◌, ◌++◌, drop, length};
ghost use Rattle.sha1.specs.Sha1.{sha1};
ghost use Rattle.sha2.specs.Sha256.{sha256};
ghost use Rattle.mac_prf.specs.Hmac.{block_key, masked, hmac};

use crate::block_hash::BlockHash;
use sha1::Sha1;
use sha2::Sha256;

const INNER_PAD: u8 = 0x36;

const OUTER_PAD: u8 = 0x5c;

// Writes over the front.
fn put_front(block: &mut [u8], front: &[u8])
    requires { length front.now ≤ length block.old }
    ensures { block.new ≡ front.now ++ drop (length front.now) block.old }
{
    block[..front.len()].copy_from_slice(front);
}

// The key as one block: a longer key is hashed first.
fn block_key_of<const N: usize, H: BlockHash<N>>(key: &[u8]) -> [u8; 64]
    requires { N ≤ 64 }
    ensures { result ≡ block_key H.digest key.now }
{
    let mut block = [0u8; 64];
    if key.len() > 64 {
        let mut state = H::start();
        state.take(key);
        let digest = state.finish();
        put_front(&mut block, &digest);
    } else {
        put_front(&mut block, key);
    }
    block
}

fn mask(block: &mut [u8], pad: u8)
    ensures { block.new ≡ masked pad block.old }
{
    for octet in block.iter_mut() {
        *octet ^= pad;
    }
}

/// A text under a key, taken in piece by piece.
#[derive(Drop)]
pub struct Hmac<const N: usize, H: BlockHash<N>> {
    inner: H,
    outer: H,
}

impl<const N: usize, H: BlockHash<N>> Hmac<N, H> {
    ghost use Rattle.mac_prf.specs.HoldsText.{HoldsText};

    /// The empty text under the key.
    pub fn new(key: &[u8]) -> Self
        requires { N ≤ 64 }
        ensures { HoldsText H.holds H.digest result.inner result.outer key.now [] }
    {
        let mut inner_key = block_key_of::<N, H>(key);
        let mut outer_key = inner_key;
        mask(&mut inner_key, INNER_PAD);
        mask(&mut outer_key, OUTER_PAD);
        let mut inner = H::start();
        inner.take(&inner_key);
        let mut outer = H::start();
        outer.take(&outer_key);
        Hmac { inner, outer }
    }

    /// Takes in a piece.
    pub fn update(&mut self, piece: &[u8])
        ensures { (key text : List ℕ)
            → HoldsText H.holds H.digest self.old.inner self.old.outer key text
            → HoldsText H.holds H.digest self.new.inner self.new.outer key (text ++ piece.now) }
    {
        self.inner.take(piece);
    }

    /// A second text that begins as this one does, without a new look at the key.
    pub fn fork(&self) -> Self
        ensures { (key text : List ℕ)
            → HoldsText H.holds H.digest self.now.inner self.now.outer key text
            → HoldsText H.holds H.digest result.inner result.outer key text }
    {
        Hmac {
            inner: self.inner.fork(),
            outer: self.outer.fork(),
        }
    }

    /// The HMAC of the text.
    pub fn finalize(self) -> [u8; N]
        ensures { (key text : List ℕ)
            → HoldsText H.holds H.digest self.inner self.outer key text
            → result ≡ hmac H.digest key text }
    {
        let Hmac { inner, mut outer } = self;
        outer.take(&inner.finish());
        outer.finish()
    }
}

/// HMAC-SHA-1 of a text under a key of any length (RFC 2104). Takes no memory.
pub fn hmac_sha1(key: &[u8], text: &[u8]) -> [u8; 20]
    ensures { result ≡ hmac sha1 key.now text.now }
{
    let mut state = Hmac::<20, Sha1>::new(key);
    state.update(text);
    state.finalize()
}

/// HMAC-SHA-256 of a text under a key of any length (RFC 2104). Takes no memory.
pub fn hmac_sha256(key: &[u8], text: &[u8]) -> [u8; 32]
    ensures { result ≡ hmac sha256 key.now text.now }
{
    let mut state = Hmac::<32, Sha256>::new(key);
    state.update(text);
    state.finalize()
}
