//! Key wrap (RFC 3394) under a key-encryption key of 128 bits.
#![tactic(auto)]

ghost use Rattle.std.specs.Prelude.{◌≡◌, ◌≤◌, ◌+◌, ◌-◌, ◌*◌, ◌/◌, ◌%◌, ℕ, List, ◌++◌, length, take};
ghost use Rattle.std.specs.Prelude.{drop, IfOk, OnErr, IsOkAnd};
ghost use Rattle.domain_base.specs.Octets.{AreOctets};
ghost use Rattle.aes_block.specs.Octets.{exclusive_or};
ghost use Rattle.aes_block.specs.Cipher.{cipher};
ghost use Rattle.key_wrap.specs.KeyWrap.{after_steps, counter, initial_value, Wraps};

use aes_block::{Aes128, ForwardAes128};

/// The input of an unwrapping is not what a plain text is wrapped to.
#[derive(Clone, Copy)]
pub struct BadWrap;

// The initial value (RFC 3394, 2.2.3.1).
const INITIAL_VALUE: [u8; 8] = [0xa6; 8];

// The length of the shortest input that can be unwrapped: A and two blocks.
const SHORTEST: usize = 24;

/// Wraps a plain text of whole blocks of 8 octets, at least two of them, into the front of `out`,
/// and gives the number of octets written (RFC 3394, 2.2.1).
pub fn wrap(kek: &[u8; 16], plain: &[u8], out: &mut [u8]) -> usize
    requires whole_blocks { length plain.now % 8 ≡ 0 }
    requires two_blocks { 16 ≤ length plain.now }
    requires room { length plain.now + 8 ≤ length out.old }
    ensures end { result ≡ length plain.now + 8 }
    ensures wrapped { Wraps kek.now plain.now (take result out.new) }
    ensures rest { (n : ℕ) → result ≤ n → drop n out.new ≡ drop n out.old }
    ensures len { length out.new ≡ length out.old }
{
    let end = plain.len() + 8;
    out[8..end].copy_from_slice(plain);
    wrap_in_place(kek, &mut out[..end]);
    end
}

/// Wraps the plain text that stands behind the first 8 octets, of whole blocks of 8 octets and at
/// least two of them, in its own place, with A in the first 8 octets (RFC 3394, 2.2.1).
pub fn wrap_in_place(kek: &[u8; 16], octets: &mut [u8])
    requires whole_blocks { length octets.old % 8 ≡ 0 }
    requires two_blocks { 24 ≤ length octets.old }
    ensures wrapped { Wraps kek.now (drop 8 octets.old) octets.new }
    ensures len { length octets.new ≡ length octets.old }
{
    show_octets(octets);
    let check = wrap_blocks(&ForwardAes128::new(kek), &mut octets[8..]);
    octets[..8].copy_from_slice(&check);
}

/// Writes the plain text that is wrapped to the input into the front of `out`, and gives the number
/// of its octets (RFC 3394, 2.2.2). What stands there after a refusal is of no use.
pub fn unwrap(kek: &[u8; 16], wrapped: &[u8], out: &mut [u8]) -> Result<usize, BadWrap>
    requires room { length wrapped.now - 8 ≤ length out.old }
    ensures end { IfOk result (λ end. end + 8 ≡ length wrapped.now) }
    ensures unwrapped { IfOk result (λ end. Wraps kek.now (take end out.new) wrapped.now) }
    // where there is a plain text, it is given
    ensures only { (plain : List ℕ) → Wraps kek.now plain wrapped.now
        → IsOkAnd result (λ end. take end out.new ≡ plain) }
    ensures bad_wrap { OnErr result ((plain : List ℕ) → ¬ Wraps kek.now plain wrapped.now) }
    ensures rest { (n : ℕ) → length wrapped.now - 8 ≤ n → drop n out.new ≡ drop n out.old }
    ensures len { length out.new ≡ length out.old }
{
    if wrapped.len() < SHORTEST || wrapped.len() % 8 != 0 {
        return Err(BadWrap);
    }
    let end = wrapped.len() - 8;
    let check = upper_half(wrapped);
    out[..end].copy_from_slice(&wrapped[8..]);
    let check = unwrap_blocks(&Aes128::new(kek), check, &mut out[..end]);
    if check == INITIAL_VALUE {
        Ok(end)
    } else {
        Err(BadWrap)
    }
}

/// No two plain texts are wrapped to one input. The call does nothing: its contract is the law.
pub fn plain_text_is_unique()
    ensures { (kek plain other out : List ℕ) → AreOctets kek → Wraps kek plain out
        → Wraps kek other out → plain ≡ other }
{}

// Runs the steps over the blocks in place, and gives the last A: step t changes block t - 1 modulo
// their number, where the standard shifts that block to the front first.
fn wrap_blocks(key: &ForwardAes128, blocks: &mut [u8]) -> [u8; 8]
    requires whole_blocks { length blocks.old % 8 ≡ 0 }
    requires some_blocks { 8 ≤ length blocks.old }
    ensures { after_steps key.now (record { check = initial_value; blocks = blocks.old })
        (6 * (length blocks.old / 8)) ≡ record { check = result; blocks = blocks.new } }
{
    let count = blocks.len() / 8;
    let mut check = INITIAL_VALUE;
    for t in 0..6 * count {
        let at = 8 * (t % count);
        wrap_step(key, t as u64 + 1, &mut check, &mut blocks[at..at + 8]);
    }
    check
}

// Undoes the steps over the blocks in place, from the last A, and gives the first.
fn unwrap_blocks(key: &Aes128, check: [u8; 8], blocks: &mut [u8]) -> [u8; 8]
    requires whole_blocks { length blocks.old % 8 ≡ 0 }
    requires some_blocks { 8 ≤ length blocks.old }
    ensures { after_steps key.now (record { check = result; blocks = blocks.new })
        (6 * (length blocks.old / 8)) ≡ record { check = check; blocks = blocks.old } }
{
    let count = blocks.len() / 8;
    let mut first = check;
    for t in (0..6 * count).rev() {
        let at = 8 * (t % count);
        unwrap_step(key, t as u64 + 1, &mut first, &mut blocks[at..at + 8]);
    }
    first
}

// Step t on A and one block, in place.
fn wrap_step(key: &ForwardAes128, t: u64, check: &mut [u8; 8], block: &mut [u8])
    requires { length block.old ≡ 8 }
    ensures check { check.new
        ≡ exclusive_or (take 8 (cipher key.now (check.old ++ block.old))) (counter t) }
    ensures block { block.new ≡ drop 8 (cipher key.now (check.old ++ block.old)) }
{
    let encrypted = key.encrypt(joined(check, block));
    block.copy_from_slice(&encrypted[8..]);
    let upper = with_count(upper_half(&encrypted), t);
    *check = upper;
}

// Undoes step t on A and one block, in place.
fn unwrap_step(key: &Aes128, t: u64, check: &mut [u8; 8], block: &mut [u8])
    requires { length block.old ≡ 8 }
    ensures { cipher key.now (check.new ++ block.new)
        ≡ exclusive_or check.old (counter t) ++ block.old }
{
    let decrypted = key.decrypt(joined(&with_count(*check, t), block));
    block.copy_from_slice(&decrypted[8..]);
    let upper = upper_half(&decrypted);
    *check = upper;
}

// A exclusive or the number of a step (RFC 3394, 2.2.1: `^ t`).
fn with_count(mut check: [u8; 8], t: u64) -> [u8; 8]
    ensures { result ≡ exclusive_or check (counter t) }
{
    let count = t.to_be_bytes();
    for i in 0..8 {
        check[i] ^= count[i];
    }
    check
}

// Each number in a slice of octets is one. A proof knows this of a slice that is read, and not of
// what stood in one before it was written to. The call does nothing.
fn show_octets(octets: &[u8])
    ensures { AreOctets octets.now }
{}

// A and a block, in a row.
fn joined(check: &[u8; 8], block: &[u8]) -> [u8; 16]
    requires { length block.now ≡ 8 }
    ensures { result ≡ check.now ++ block.now }
{
    let mut both = [0; 16];
    both[..8].copy_from_slice(check);
    both[8..].copy_from_slice(block);
    both
}

// The first 8 octets.
fn upper_half(octets: &[u8]) -> [u8; 8]
    requires { 8 ≤ length octets.now }
    ensures { result ≡ take 8 octets.now }
{
    let mut upper = [0; 8];
    upper.copy_from_slice(&octets[..8]);
    upper
}
