//! CCM (RFC 3610) with AES-128, M = 8 and L = 2. The message authentication code and the key stream
//! run in one pass.

ghost use Rattle.std.specs.Prelude.{◌≡◌, ◌∷◌, ◌<◌, ◌≤◌, ◌+◌, ◌-◌, ◌*◌, ◌^◌, ◌++◌, ℕ, List, length};
ghost use Rattle.std.specs.Prelude.{take, drop, min, IsTrue};
ghost use Rattle.std.specs.Int.{w16, to_be_bytes};
ghost use Rattle.aes_block.specs.Octets.{exclusive_or};
ghost use Rattle.aes_block.specs.Cipher.{cipher};
ghost use Rattle.ccmp_guard.specs.Ccm.{filled, block_count, chained, chained_all, first_block};
ghost use Rattle.ccmp_guard.specs.Ccm.{aad_octets, begun, encrypted, key_block, key_stream, Sealed};

use aes_block::ForwardAes128;
use domain_base::{array_at, put};

const BLOCK_LEN: usize = 16;

/// The octets of the encrypted authentication field.
pub const MIC_LEN: usize = 8;

// Flags of B_0: additional authenticated data, M = 8 and L = 2 (RFC 3610, 2.2).
const FIRST_FLAGS: u8 = 0x59;

// Flags of a counter block: L = 2 (RFC 3610, 2.3).
const COUNTER_FLAGS: u8 = 0x01;

// Adds octets to as many others, each to its own by exclusive or.
fn add<const N: usize>(sum: &mut [u8; N], octets: &[u8; N])
    ensures { sum.new ≡ exclusive_or sum.old octets.now }
{
    for i in 0..N {
        sum[i] ^= octets[i];
    }
}

// At most a block of octets, filled up with zeros.
fn padded(piece: &[u8]) -> [u8; 16]
    requires { length piece.now ≤ 16 }
    ensures { result ≡ filled piece.now }
{
    let mut block = [0; 16];
    block[..piece.len()].copy_from_slice(piece);
    block
}

// Flags, nonce and a number of two octets.
fn framed(flags: u8, nonce: &[u8; 13], number: u16) -> [u8; 16]
    ensures { result ≡ flags ∷ nonce.now ++ to_be_bytes w16 number }
{
    let mut block = [flags; 16];
    block[1..14].copy_from_slice(nonce);
    block[14..].copy_from_slice(&number.to_be_bytes());
    block
}

// Block n of the key stream, S_n (RFC 3610, 2.3).
fn key_block(key: &ForwardAes128, nonce: &[u8; 13], n: u16) -> [u8; 16]
    ensures { result ≡ key_block key.now nonce.now n }
{
    key.encrypt(framed(COUNTER_FLAGS, nonce, n))
}

// X goes on by one more block (RFC 3610, 2.2).
fn chain(key: &ForwardAes128, x: &mut [u8; 16], block: &[u8; 16])
    ensures { x.new ≡ cipher key.now (exclusive_or x.old block.now) }
{
    let next = key.encrypt_sum(*x, *block);
    *x = next;
}

// The end of the block that begins at a place, in octets of that number.
fn block_end(at: usize, len: usize) -> usize
    requires { at ≤ len }
    ensures { result ≡ min (at + 16) len }
{
    if len - at < BLOCK_LEN {
        len
    } else {
        at + BLOCK_LEN
    }
}

// X after the blocks of octets.
fn absorb(key: &ForwardAes128, start: [u8; 16], octets: &[u8]) -> [u8; 16]
    requires { length octets.now < 2 ^ 16 }
    ensures { result ≡ chained_all key.now start octets.now }
{
    let mut x = start;
    for n in 0..octets.len().div_ceil(BLOCK_LEN) {
        let at = BLOCK_LEN * n;
        chain(
            key,
            &mut x,
            &padded(&octets[at..block_end(at, octets.len())]),
        );
    }
    x
}

// X after B_0 and the additional authenticated data (RFC 3610, 2.2).
fn begin(key: &ForwardAes128, nonce: &[u8; 13], aad: &[u8], len: u16) -> [u8; 16]
    requires some { 0 < length aad.now }
    requires few { length aad.now ≤ 30 }
    ensures { result ≡ begun key.now nonce.now aad.now len }
{
    let mut octets = [0; 32];
    let at = put(&mut octets, 0, &(aad.len() as u16).to_be_bytes());
    let end = put(&mut octets, at, aad);
    absorb(
        key,
        key.encrypt(framed(FIRST_FLAGS, nonce, len)),
        &octets[..end],
    )
}

// One block of a message, or what there is of it, is encrypted with its block of the key stream,
// and X goes on.
fn seal_block(
    key: &ForwardAes128,
    x: &mut [u8; 16],
    stream: &[u8; 16],
    plain: &[u8],
    out: &mut [u8],
)
    requires few { length plain.now ≤ 16 }
    requires room { length out.old ≡ length plain.now }
    ensures chained { x.new ≡ cipher key.now (exclusive_or x.old (filled plain.now)) }
    ensures encrypted { out.new ≡ exclusive_or plain.now stream.now }
{
    let block = padded(plain);
    let mut sum = block;
    add(&mut sum, stream);
    out.copy_from_slice(&sum[..plain.len()]);
    chain(key, x, &block)
}

// One block of an encrypted message, or what there is of it, is decrypted, and X goes on.
fn open_block(
    key: &ForwardAes128,
    x: &mut [u8; 16],
    stream: &[u8; 16],
    sealed: &[u8],
    out: &mut [u8],
)
    requires few { length sealed.now ≤ 16 }
    requires room { length out.old ≡ length sealed.now }
    ensures chained { x.new
        ≡ cipher key.now (exclusive_or x.old (filled (exclusive_or sealed.now stream.now))) }
    ensures decrypted { out.new ≡ exclusive_or sealed.now stream.now }
{
    let mut sum = padded(sealed);
    add(&mut sum, stream);
    out.copy_from_slice(&sum[..sealed.len()]);
    chain(key, x, &padded(out))
}

// Encrypts a message, and gives X after its blocks.
fn seal_blocks(
    key: &ForwardAes128,
    nonce: &[u8; 13],
    start: [u8; 16],
    plain: &[u8],
    out: &mut [u8],
) -> [u8; 16]
    requires short { length plain.now < 2 ^ 16 }
    requires room { length out.old ≡ length plain.now }
    ensures chained { result ≡ chained_all key.now start plain.now }
    ensures encrypted { out.new ≡ encrypted key.now nonce.now plain.now }
{
    let mut x = start;
    for n in 0..plain.len().div_ceil(BLOCK_LEN) {
        let at = BLOCK_LEN * n;
        let end = block_end(at, plain.len());
        let stream = key_block(key, nonce, n as u16 + 1);
        seal_block(key, &mut x, &stream, &plain[at..end], &mut out[at..end]);
    }
    x
}

// Decrypts a message, and gives X after the blocks of the plain text.
fn open_blocks(
    key: &ForwardAes128,
    nonce: &[u8; 13],
    start: [u8; 16],
    sealed: &[u8],
    out: &mut [u8],
) -> [u8; 16]
    requires short { length sealed.now < 2 ^ 16 }
    requires room { length out.old ≡ length sealed.now }
    ensures chained { result ≡ chained_all key.now start out.new }
    ensures decrypted { out.new ≡ encrypted key.now nonce.now sealed.now }
{
    let mut x = start;
    for n in 0..sealed.len().div_ceil(BLOCK_LEN) {
        let at = BLOCK_LEN * n;
        let end = block_end(at, sealed.len());
        let stream = key_block(key, nonce, n as u16 + 1);
        open_block(key, &mut x, &stream, &sealed[at..end], &mut out[at..end]);
    }
    x
}

// The encrypted authentication field from the last X, U (RFC 3610, 2.3).
fn mic_of(key: &ForwardAes128, nonce: &[u8; 13], x: [u8; 16]) -> [u8; 8]
    ensures { result ≡ exclusive_or (take 8 x) (key_block key.now nonce.now 0) }
{
    let mut sum = x;
    add(&mut sum, &key_block(key, nonce, 0));
    array_at(&sum, 0)
}

/// Seals a message under a key, with a nonce that no other message under the key has, and with
/// additional authenticated data (RFC 3610, 2): writes it encrypted, and the encrypted
/// authentication field of 8 octets after it. Takes no memory.
pub fn seal(key: &ForwardAes128, nonce: &[u8; 13], aad: &[u8], plain: &[u8], out: &mut [u8])
    requires some { 0 < length aad.now }
    requires few { length aad.now ≤ 30 }
    requires short { length plain.now < 2 ^ 16 }
    requires room { length out.old ≡ length plain.now + 8 }
    ensures { Sealed key.now nonce.now aad.now plain.now out.new }
{
    let start = begin(key, nonce, aad, plain.len() as u16);
    let (text, mic) = out.split_at_mut(plain.len());
    let last = seal_blocks(key, nonce, start, plain, text);
    mic.copy_from_slice(&mic_of(key, nonce, last));
}

/// Opens a sealed message into `out`, and answers whether the authentication field is the one of
/// what stands there: whether there is a plain text that is sealed to this (RFC 3610, 2.5). Takes no
/// memory.
pub fn open(
    key: &ForwardAes128,
    nonce: &[u8; 13],
    aad: &[u8],
    sealed: &[u8],
    out: &mut [u8],
) -> bool
    requires some { 0 < length aad.now }
    requires few { length aad.now ≤ 30 }
    requires long { 8 ≤ length sealed.now }
    requires short { length sealed.now < 2 ^ 16 + 8 }
    requires room { length out.old + 8 ≡ length sealed.now }
    ensures sealed { IsTrue result → Sealed key.now nonce.now aad.now out.new sealed.now }
    ensures only { (plain : List ℕ) → Sealed key.now nonce.now aad.now plain sealed.now
        → IsTrue result × (out.new ≡ plain) }
{
    let (text, mic) = sealed.split_at(sealed.len() - MIC_LEN);
    let start = begin(key, nonce, aad, text.len() as u16);
    let last = open_blocks(key, nonce, start, text, out);
    let expected = mic_of(key, nonce, last);
    &expected[..] == mic
}
