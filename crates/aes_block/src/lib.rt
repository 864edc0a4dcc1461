//! AES-128, the block cipher of FIPS 197 with a key of 128 bits.
#![tactic(auto)]

ghost use Rattle.std.specs.Prelude.{◌≡◌, ◌<◌, ◌+◌, ◌*◌, ◌/◌, ◌%◌, ◌^◌, ◌++◌, ℕ, List, [], slice_index_or};
ghost use Rattle.std.specs.Int.{w32, to_be_bytes};
ghost use Rattle.domain_base.specs.Octets.{AreOctets};
ghost use Rattle.aes_block.specs.Octets.{IsBlock, exclusive_or};
ghost use Rattle.aes_block.specs.Field.{sub_octet};
ghost use Rattle.aes_block.specs.State.{sub_octets, shift_rows, mix_columns};
ghost use Rattle.aes_block.specs.Words.{word, columns, octets_of, substituted_word, mixed_word};
ghost use Rattle.aes_block.specs.Words.{unmixed_word, unmix_columns, HasRoundKeys, IsExpanded};
ghost use Rattle.aes_block.specs.Cipher.{next_round_key, round_key, cipher, Decrypts};

mod constants;

use constants::{
    INVERSE_SUBSTITUTION, MIXED_FIRST, MIXED_FOURTH, MIXED_SECOND, MIXED_THIRD, ROUND_CONSTANTS,
    SUBSTITUTION, UNMIXED_FIRST, UNMIXED_FOURTH, UNMIXED_SECOND, UNMIXED_THIRD,
};
use std::marker::Model;

/// The keys of the rounds of AES-128 under one key, for both directions (FIPS 197). Contracts see
/// the key, as the list of its 16 octets.
#[derive(Drop)]
pub struct Aes128 {
    round_keys: [[u32; 4]; 11],
    // Those of the rounds between the first and the last, with unmixed columns (FIPS 197, 5.3.5).
    unmixed_keys: [[u32; 4]; 9],
}

impl Model for Aes128 {
    ghost Value = { List ℕ };

    ghost view = { λ a. octets_of (slice_index_or a.round_keys 0 []) };

    ghost invariant = { λ a. IsExpanded a.round_keys a.unmixed_keys
        (octets_of (slice_index_or a.round_keys 0 [])) };
}

impl Aes128 {
    /// Expands a key (FIPS 197, 5.2).
    pub fn new(key: &[u8; 16]) -> Self
        ensures value { result ≡ key.now }
        ensures octets { IsBlock key.now }
    {
        Aes128::of_key(*key)
    }

    // The same from a key by value, of which a proof knows that it has 16 octets.
    fn of_key(key: [u8; 16]) -> Self
        ensures value { result ≡ key }
        ensures octets { IsBlock key }
    {
        let round_keys = expand_key(columns(key));
        Aes128 {
            round_keys,
            unmixed_keys: unmix_keys(&round_keys),
        }
    }

    /// The block that a block is encrypted to (FIPS 197, 5.1).
    pub fn encrypt(&self, block: [u8; 16]) -> [u8; 16]
        ensures { result ≡ cipher self.now block }
    {
        encrypted(&self.round_keys, columns(block))
    }

    /// The block that is encrypted to a block (FIPS 197, 5.3).
    pub fn decrypt(&self, block: [u8; 16]) -> [u8; 16]
        ensures { Decrypts self.now block result }
    {
        let start = added(columns(block), self.round_keys[10]);
        let first = full_round_back(start, self.unmixed_keys[8]);
        let second = full_round_back(first, self.unmixed_keys[7]);
        let third = full_round_back(second, self.unmixed_keys[6]);
        let fourth = full_round_back(third, self.unmixed_keys[5]);
        let fifth = full_round_back(fourth, self.unmixed_keys[4]);
        let sixth = full_round_back(fifth, self.unmixed_keys[3]);
        let seventh = full_round_back(sixth, self.unmixed_keys[2]);
        let eighth = full_round_back(seventh, self.unmixed_keys[1]);
        let ninth = full_round_back(eighth, self.unmixed_keys[0]);
        octets(last_round_back(ninth, self.round_keys[0]))
    }
}

/// The keys of the rounds of AES-128 under one key, for encryption alone (FIPS 197): what a mode
/// needs that decrypts no block. Contracts see the key, as the list of its 16 octets.
#[derive(Drop)]
pub struct ForwardAes128 {
    round_keys: [[u32; 4]; 11],
}

impl Model for ForwardAes128 {
    ghost Value = { List ℕ };

    ghost view = { λ a. octets_of (slice_index_or a.round_keys 0 []) };

    ghost invariant = { λ a. HasRoundKeys a.round_keys
        (octets_of (slice_index_or a.round_keys 0 [])) };
}

impl ForwardAes128 {
    /// Expands a key (FIPS 197, 5.2).
    pub fn new(key: &[u8; 16]) -> Self
        ensures value { result ≡ key.now }
        ensures octets { IsBlock key.now }
    {
        ForwardAes128::of_key(*key)
    }

    // The same from a key by value, of which a proof knows that it has 16 octets.
    fn of_key(key: [u8; 16]) -> Self
        ensures value { result ≡ key }
        ensures octets { IsBlock key }
    {
        ForwardAes128 {
            round_keys: expand_key(columns(key)),
        }
    }

    /// A second one of the same key, which is not expanded anew.
    pub fn fork(&self) -> Self
        ensures { result ≡ self.now }
    {
        ForwardAes128 {
            round_keys: self.round_keys,
        }
    }

    /// The block that a block is encrypted to (FIPS 197, 5.1).
    pub fn encrypt(&self, block: [u8; 16]) -> [u8; 16]
        ensures { result ≡ cipher self.now block }
    {
        encrypted(&self.round_keys, columns(block))
    }

    /// The block that the sum of two blocks, octet by octet, is encrypted to: one step of cipher
    /// block chaining, from the block before it and the next of the text.
    pub fn encrypt_sum(&self, before: [u8; 16], block: [u8; 16]) -> [u8; 16]
        ensures { result ≡ cipher self.now (exclusive_or before block) }
    {
        encrypted(&self.round_keys, added(columns(before), columns(block)))
    }
}

/// Encryption and decryption under one key undo each other: what a block is encrypted to is
/// decrypted to that block alone, and each block is decrypted to some block, which is encrypted to
/// it. The call does nothing: its contract is the law.
pub fn decryption_undoes_encryption()
    ensures undone { (key plain : List ℕ) → AreOctets key → IsBlock plain
        → Decrypts key (cipher key plain) plain }
    ensures alone { (key plain other : List ℕ) → AreOctets key → IsBlock plain
        → Decrypts key (cipher key plain) other → other ≡ plain }
    ensures some { (key block : List ℕ) → AreOctets key → IsBlock block
        → (plain : List ℕ) × Decrypts key block plain }
{}

// The block that is encrypted to, from the columns of one. The rounds are written out: as variables
// of a loop the four columns would be kept in one vector register, from which each octet that a
// table is asked for has to be taken out.
#[inline(always)]
fn encrypted(keys: &[[u32; 4]; 11], block: [u32; 4]) -> [u8; 16]
    ensures { (k s : List ℕ) → IsBlock k → IsBlock s → block ≡ columns s
        → ((n : ℕ) → n < 11 → slice_index_or keys.now n [] ≡ columns (round_key k n))
        → result ≡ cipher k s }
{
    let start = added(block, keys[0]);
    let first = full_round(start, keys[1]);
    let second = full_round(first, keys[2]);
    let third = full_round(second, keys[3]);
    let fourth = full_round(third, keys[4]);
    let fifth = full_round(fourth, keys[5]);
    let sixth = full_round(fifth, keys[6]);
    let seventh = full_round(sixth, keys[7]);
    let eighth = full_round(seventh, keys[8]);
    let ninth = full_round(eighth, keys[9]);
    octets(last_round(ninth, keys[10]))
}

// The columns of a block.
fn columns(block: [u8; 16]) -> [u32; 4]
    ensures { result ≡ columns block }
{
    [
        u32::from_be_bytes([block[0], block[1], block[2], block[3]]),
        u32::from_be_bytes([block[4], block[5], block[6], block[7]]),
        u32::from_be_bytes([block[8], block[9], block[10], block[11]]),
        u32::from_be_bytes([block[12], block[13], block[14], block[15]]),
    ]
}

// The octets of the columns. They are put in their places by eight, so that what reads the block as
// words need not wait for octets that were written one by one.
fn octets(state: [u32; 4]) -> [u8; 16]
    ensures { result ≡ octets_of state }
{
    let mut block = [0; 16];
    block[..8].copy_from_slice(&half(state[0], state[1]));
    block[8..].copy_from_slice(&half(state[2], state[3]));
    block
}

// The octets of two columns.
fn half(first: u32, second: u32) -> [u8; 8]
    ensures { result ≡ to_be_bytes w32 first ++ to_be_bytes w32 second }
{
    ((first as u64) << 32 | second as u64).to_be_bytes()
}

// ADDROUNDKEY (FIPS 197, 5.1.4).
fn added(state: [u32; 4], key: [u32; 4]) -> [u32; 4]
    ensures { (s k : List ℕ) → IsBlock s → IsBlock k → state ≡ columns s → key ≡ columns k
        → result ≡ columns (exclusive_or s k) }
{
    [
        state[0] ^ key[0],
        state[1] ^ key[1],
        state[2] ^ key[2],
        state[3] ^ key[3],
    ]
}

// The column that SUBBYTES and MIXCOLUMNS make of the first octet of a, the second of b, the third
// of c and the fourth of d (FIPS 197, 5.1.1 and 5.1.3).
fn mixed_column(a: u32, b: u32, c: u32, d: u32) -> u32
    ensures { result ≡ mixed_word (sub_octet (a / 2 ^ 24)) (sub_octet (b / 2 ^ 16 % 256))
        (sub_octet (c / 2 ^ 8 % 256)) (sub_octet (d % 256)) }
{
    MIXED_FIRST[(a >> 24) as usize]
        ^ MIXED_SECOND[(b >> 16 & 0xff) as usize]
        ^ MIXED_THIRD[(c >> 8 & 0xff) as usize]
        ^ MIXED_FOURTH[(d & 0xff) as usize]
}

// The column that SUBBYTES makes of the first octet of a, the second of b, the third of c and the
// fourth of d (FIPS 197, 5.1.1).
fn substituted_column(a: u32, b: u32, c: u32, d: u32) -> u32
    ensures { result
        ≡ substituted_word (a / 2 ^ 24) (b / 2 ^ 16 % 256) (c / 2 ^ 8 % 256) (d % 256) }
{
    u32::from_be_bytes([
        SUBSTITUTION[(a >> 24) as usize],
        SUBSTITUTION[(b >> 16 & 0xff) as usize],
        SUBSTITUTION[(c >> 8 & 0xff) as usize],
        SUBSTITUTION[(d & 0xff) as usize],
    ])
}

// The column that INVMIXCOLUMNS makes of the octets that are substituted to the first octet of a,
// the second of b, the third of c and the fourth of d (FIPS 197, 5.3.2 and 5.3.3).
fn unmixed_column(a: u32, b: u32, c: u32, d: u32) -> u32
    ensures { (e f g h : ℕ) → e < 256 → f < 256 → g < 256 → h < 256
        → sub_octet e ≡ a / 2 ^ 24 → sub_octet f ≡ b / 2 ^ 16 % 256 → sub_octet g ≡ c / 2 ^ 8 % 256
        → sub_octet h ≡ d % 256 → result ≡ unmixed_word e f g h }
{
    UNMIXED_FIRST[(a >> 24) as usize]
        ^ UNMIXED_SECOND[(b >> 16 & 0xff) as usize]
        ^ UNMIXED_THIRD[(c >> 8 & 0xff) as usize]
        ^ UNMIXED_FOURTH[(d & 0xff) as usize]
}

// The column of the octets that are substituted to the first octet of a, the second of b, the third
// of c and the fourth of d (FIPS 197, 5.3.2).
fn unsubstituted_column(a: u32, b: u32, c: u32, d: u32) -> u32
    ensures { (e f g h : ℕ) → e < 256 → f < 256 → g < 256 → h < 256
        → sub_octet e ≡ a / 2 ^ 24 → sub_octet f ≡ b / 2 ^ 16 % 256 → sub_octet g ≡ c / 2 ^ 8 % 256
        → sub_octet h ≡ d % 256 → result ≡ word e f g h }
{
    u32::from_be_bytes([
        INVERSE_SUBSTITUTION[(a >> 24) as usize],
        INVERSE_SUBSTITUTION[(b >> 16 & 0xff) as usize],
        INVERSE_SUBSTITUTION[(c >> 8 & 0xff) as usize],
        INVERSE_SUBSTITUTION[(d & 0xff) as usize],
    ])
}

// A round other than the last (FIPS 197, 5.1).
#[inline(always)]
fn full_round(state: [u32; 4], key: [u32; 4]) -> [u32; 4]
    ensures { (s k : List ℕ) → IsBlock s → IsBlock k → state ≡ columns s → key ≡ columns k
        → result ≡ columns (exclusive_or (mix_columns (shift_rows (sub_octets s))) k) }
{
    let [a, b, c, d] = state;
    [
        mixed_column(a, b, c, d) ^ key[0],
        mixed_column(b, c, d, a) ^ key[1],
        mixed_column(c, d, a, b) ^ key[2],
        mixed_column(d, a, b, c) ^ key[3],
    ]
}

// The last round, which mixes no columns (FIPS 197, 5.1).
fn last_round(state: [u32; 4], key: [u32; 4]) -> [u32; 4]
    ensures { (s k : List ℕ) → IsBlock s → IsBlock k → state ≡ columns s → key ≡ columns k
        → result ≡ columns (exclusive_or (shift_rows (sub_octets s)) k) }
{
    let [a, b, c, d] = state;
    [
        substituted_column(a, b, c, d) ^ key[0],
        substituted_column(b, c, d, a) ^ key[1],
        substituted_column(c, d, a, b) ^ key[2],
        substituted_column(d, a, b, c) ^ key[3],
    ]
}

// A round other than the last of the equivalent inverse cipher, under a key with unmixed columns
// (FIPS 197, 5.3.5).
#[inline(always)]
fn full_round_back(state: [u32; 4], key: [u32; 4]) -> [u32; 4]
    ensures { (s k : List ℕ) → IsBlock s → IsBlock k → state ≡ columns (shift_rows (sub_octets s))
        → key ≡ columns k → result ≡ columns (exclusive_or (unmix_columns s) k) }
{
    let [a, b, c, d] = state;
    [
        unmixed_column(a, d, c, b) ^ key[0],
        unmixed_column(b, a, d, c) ^ key[1],
        unmixed_column(c, b, a, d) ^ key[2],
        unmixed_column(d, c, b, a) ^ key[3],
    ]
}

// The last round of the equivalent inverse cipher (FIPS 197, 5.3.5).
fn last_round_back(state: [u32; 4], key: [u32; 4]) -> [u32; 4]
    ensures { (s k : List ℕ) → IsBlock s → IsBlock k → state ≡ columns (shift_rows (sub_octets s))
        → key ≡ columns k → result ≡ columns (exclusive_or s k) }
{
    let [a, b, c, d] = state;
    [
        unsubstituted_column(a, d, c, b) ^ key[0],
        unsubstituted_column(b, a, d, c) ^ key[1],
        unsubstituted_column(c, b, a, d) ^ key[2],
        unsubstituted_column(d, c, b, a) ^ key[3],
    ]
}

// KEYEXPANSION: the key, and the keys of the ten rounds (FIPS 197, 5.2).
fn expand_key(key: [u32; 4]) -> [[u32; 4]; 11]
    ensures { (k : List ℕ) → IsBlock k → key ≡ columns k → (n : ℕ) → n < 11
        → slice_index_or result n [] ≡ columns (round_key k n) }
{
    let mut round_keys = [key; 11];
    for n in 0..10 {
        round_keys[n + 1] = next_round_key(ROUND_CONSTANTS[n], round_keys[n]);
    }
    round_keys
}

// The round key after one (FIPS 197, 5.2).
fn next_round_key(constant: u32, key: [u32; 4]) -> [u32; 4]
    ensures { (x : ℕ) (k : List ℕ) → x < 256 → IsBlock k → constant ≡ word x 0 0 0 → key ≡ columns k
        → result ≡ columns (next_round_key x k) }
{
    let first = key[0] ^ turned_word(key[3]) ^ constant;
    let second = key[1] ^ first;
    let third = key[2] ^ second;
    [first, second, third, key[3] ^ third]
}

// ROTWORD, then SUBWORD (FIPS 197, 5.2).
fn turned_word(word: u32) -> u32
    ensures { result ≡ substituted_word (word / 2 ^ 16 % 256) (word / 2 ^ 8 % 256) (word % 256)
        (word / 2 ^ 24) }
{
    u32::from_be_bytes([
        SUBSTITUTION[(word >> 16 & 0xff) as usize],
        SUBSTITUTION[(word >> 8 & 0xff) as usize],
        SUBSTITUTION[(word & 0xff) as usize],
        SUBSTITUTION[(word >> 24) as usize],
    ])
}

// The keys of the rounds between the first and the last with their columns unmixed (FIPS 197,
// 5.3.5).
fn unmix_keys(round_keys: &[[u32; 4]; 11]) -> [[u32; 4]; 9]
    ensures { (k : List ℕ) → IsBlock k
        → ((n : ℕ) → n < 11 → slice_index_or round_keys.now n [] ≡ columns (round_key k n))
        → (n : ℕ) → n < 9
        → slice_index_or result n [] ≡ columns (unmix_columns (round_key k (n + 1))) }
{
    let mut unmixed = [[0; 4]; 9];
    for i in 0..9 {
        unmixed[i] = unmix_key(round_keys[i + 1]);
    }
    unmixed
}

// INVMIXCOLUMNS of a round key (FIPS 197, 5.3.3).
fn unmix_key(key: [u32; 4]) -> [u32; 4]
    ensures { (k : List ℕ) → IsBlock k → key ≡ columns k → result ≡ columns (unmix_columns k) }
{
    [
        unmix_word(key[0]),
        unmix_word(key[1]),
        unmix_word(key[2]),
        unmix_word(key[3]),
    ]
}

// INVMIXCOLUMNS of one column (FIPS 197, 5.3.3).
fn unmix_word(word: u32) -> u32
    ensures { result
        ≡ unmixed_word (word / 2 ^ 24) (word / 2 ^ 16 % 256) (word / 2 ^ 8 % 256) (word % 256) }
{
    let s = substituted_column(word, word, word, word);
    unmixed_column(s, s, s, s)
}
