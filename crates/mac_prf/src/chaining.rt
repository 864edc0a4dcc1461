//! CMAC (RFC 4493) with AES-128.

ghost use Rattle.std.specs.Prelude.{◌≡◌, ◌<◌, ◌≤◌, ℕ, ◌-◌, ◌++◌, List, [], length, take, replicate};
ghost use Rattle.std.specs.List.{flat_map};
ghost use Rattle.mac_prf.specs.Cmac.{cmac, doubled, first_subkey, last_block, last_octets};
ghost use Rattle.mac_prf.specs.HoldsBlocks.{HoldsBlocks};

use crate::blocks::add;
use aes_block::ForwardAes128;
use domain_base::array_at;

const BLOCK_LEN: usize = 16;

// The constant for the exclusive or where a doubled block has lost a bit (RFC 4493, 2.3).
const REDUCTION: u128 = 0x87;

// What stands behind the octets of a block that is not whole (RFC 4493, 2.4).
const PADDING: u8 = 0x80;

/// A block times x in GF(2^128): a subkey from the one before it (RFC 4493, 2.3).
pub fn doubled(block: [u8; 16]) -> [u8; 16]
    ensures { result ≡ doubled block }
{
    let bits = u128::from_be_bytes(block);
    let shifted = bits << 1;
    if bits >> 127 == 0 {
        shifted.to_be_bytes()
    } else {
        (shifted ^ REDUCTION).to_be_bytes()
    }
}

// At most a block of octets, filled up with zeros.
fn filled(piece: &[u8]) -> [u8; 16]
    requires { length piece.now ≤ 16 }
    ensures { result ≡ piece.now ++ replicate (16 - length piece.now) 0 }
{
    if piece.len() == BLOCK_LEN {
        return array_at(piece, 0);
    }
    let mut block = [0; 16];
    block[..piece.len()].copy_from_slice(piece);
    block
}

/// A text under a key, taken in piece by piece.
#[derive(Drop)]
pub struct CmacState {
    cipher: ForwardAes128,
    // The first subkey (RFC 4493, 2.3).
    subkey: [u8; 16],
    // The blocks before the last, chained.
    chain: [u8; 16],
    // The octets of the last block so far, with zeros behind them.
    block: [u8; 16],
    // How many they are.
    count: usize,
    ghost subkeyed: { subkey ≡ first_subkey cipher },
}

impl CmacState {
    /// The empty text under the key.
    pub fn new(key: &[u8; 16]) -> Self
        ensures { HoldsBlocks result.cipher result.chain result.block result.count key.now [] }
    {
        let cipher = ForwardAes128::new(key);
        let subkey = doubled(cipher.encrypt([0; 16]));
        CmacState {
            cipher,
            subkey,
            chain: [0; 16],
            block: [0; 16],
            count: 0,
        }
    }

    /// A second text that begins as this one does, without a new look at the key.
    pub fn fork(&self) -> Self
        ensures { (key text : List ℕ)
            → HoldsBlocks self.now.cipher self.now.chain self.now.block self.now.count key text
            → HoldsBlocks result.cipher result.chain result.block result.count key text }
    {
        CmacState {
            cipher: self.cipher.fork(),
            subkey: self.subkey,
            chain: self.chain,
            block: self.block,
            count: self.count,
        }
    }

    // Takes in the front of a piece, so much of it as the last block has room for.
    fn fill(&mut self, piece: &[u8]) -> usize
        requires some { 0 < length piece.now }
        requires room { self.old.count < 16 }
        ensures some { 0 < result }
        ensures few { result ≤ length piece.now }
        ensures holds { (key text : List ℕ)
            → HoldsBlocks self.old.cipher self.old.chain self.old.block self.old.count key text
            → HoldsBlocks self.new.cipher self.new.chain self.new.block self.new.count key
            (text ++ take result piece.now) }
    {
        let at = self.count;
        let count = piece.len().min(BLOCK_LEN - at);
        self.block[at..at + count].copy_from_slice(&piece[..count]);
        self.count = at + count;
        count
    }

    // Chains the last block, which is whole and after which more comes, and takes in the next one,
    // or what there is of it.
    fn turn(&mut self, piece: &[u8]) -> usize
        requires some { 0 < length piece.now }
        requires whole { 16 ≤ self.old.count }
        ensures some { 0 < result }
        ensures few { result ≤ length piece.now }
        ensures holds { (key text : List ℕ)
            → HoldsBlocks self.old.cipher self.old.chain self.old.block self.old.count key text
            → HoldsBlocks self.new.cipher self.new.chain self.new.block self.new.count key
            (text ++ take result piece.now) }
    {
        let next = self.cipher.encrypt_sum(self.chain, self.block);
        let count = piece.len().min(BLOCK_LEN);
        self.chain = next;
        self.block = filled(&piece[..count]);
        self.count = count;
        count
    }

    // Takes in the front of a piece: a block of it, or less.
    fn take_in(&mut self, piece: &[u8]) -> usize
        requires some { 0 < length piece.now }
        ensures some { 0 < result }
        ensures few { result ≤ length piece.now }
        ensures holds { (key text : List ℕ)
            → HoldsBlocks self.old.cipher self.old.chain self.old.block self.old.count key text
            → HoldsBlocks self.new.cipher self.new.chain self.new.block self.new.count key
            (text ++ take result piece.now) }
    {
        if self.count < BLOCK_LEN {
            self.fill(piece)
        } else {
            self.turn(piece)
        }
    }

    /// Takes in a piece, block by block.
    pub fn update(&mut self, piece: &[u8])
        ensures { (key text : List ℕ)
            → HoldsBlocks self.old.cipher self.old.chain self.old.block self.old.count key text
            → HoldsBlocks self.new.cipher self.new.chain self.new.block self.new.count key
            (text ++ piece.now) }
    {
        let mut at = 0;
        while at < piece.len() {
            let count = self.take_in(&piece[at..]);
            at += count;
        }
    }

    // The last block under its subkey.
    fn last_block(&self) -> [u8; 16]
        ensures { (key text : List ℕ)
            → HoldsBlocks self.now.cipher self.now.chain self.now.block self.now.count key text
            → result ≡ last_block key (last_octets text) }
    {
        let mut block = self.block;
        if self.count < BLOCK_LEN {
            block[self.count] = PADDING;
            add(&mut block, &doubled(self.subkey));
        } else {
            add(&mut block, &self.subkey);
        }
        block
    }

    /// The CMAC of the text.
    pub fn finalize(self) -> [u8; 16]
        ensures { (key text : List ℕ)
            → HoldsBlocks self.cipher self.chain self.block self.count key text
            → result ≡ cmac key text }
    {
        let last = self.last_block();
        self.cipher.encrypt_sum(self.chain, last)
    }
}

/// AES-128-CMAC of a text of any number of octets (RFC 4493, 2.4). Takes no memory.
pub fn cmac(key: &[u8; 16], text: &[u8]) -> [u8; 16]
    ensures { result ≡ cmac key.now text.now }
{
    let mut state = CmacState::new(key);
    state.update(text);
    state.finalize()
}

/// `cmac` of a text that is given in pieces, each behind the one before it. Takes no memory.
pub fn cmac_of_pieces(key: &[u8; 16], pieces: &[&[u8]]) -> [u8; 16]
    ensures { result ≡ cmac key.now (flat_map (λ p. p.now) pieces.now) }
{
    let mut state = CmacState::new(key);
    for piece in pieces {
        state.update(piece);
    }
    state.finalize()
}
