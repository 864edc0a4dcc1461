//! Values by the words that write them. A word that writes none gives any value: an entry that is
//! read is written again, and compared with what was read.

ghost use Rattle.std.specs.Prelude.{◌≡◌, ◌<◌, ◌≤◌, ◌+◌, ◌^◌, ◌↔◌, ℕ, List, IfOk, IsTrue, length};
ghost use Rattle.std.specs.Fmt.{decimal};
ghost use Rattle.domain_base.specs.declared.names.Node.{Node as AnyNode};
ghost use Rattle.domain_base.specs.declared.names.Peer.{Peer as AnyPeer};
ghost use Rattle.domain_base.specs.Names.{node_text, peer_text};
ghost use Rattle.domain_base.specs.Octets.{AreOctets};
ghost use Rattle.hex.specs.declared.error.FromHexError.TheVariants.{OutOfMemory};
ghost use Rattle.run_journal.specs.Report.{hex, payload_text};
ghost use Rattle.entry_lines.specs.Entries.{FitsNode, FitsPeer, IsArray};

use domain_base::{NoMemory, Node, Octets, Peer, ShortOctets, Tid};
use hex::{FromHex, FromHexError};
use std::alloc::Global;

/// Whether the word is that text.
pub(crate) fn is_word(word: &[u8], text: &[u8]) -> bool
    ensures { IsTrue result ↔ (word.now ≡ text.now) }
{
    word == text
}

/// The number in decimal.
pub(crate) fn number_of(word: &[u8]) -> u64
    ensures { (n : ℕ) → n < 2 ^ 64 → word.now ≡ decimal n → result ≡ n }
{
    let Ok(text) = str::from_utf8(word) else {
        return 0;
    };
    match text.parse::<u64>() {
        Ok(number) => number,
        Err(_) => 0,
    }
}

/// The number of 8 bits in decimal.
pub(crate) fn byte_of(word: &[u8]) -> u8
    ensures { (n : ℕ) → n < 2 ^ 8 → word.now ≡ decimal n → result ≡ n }
{
    let number = number_of(word);
    if number < 256 { number as u8 } else { 0 }
}

/// The traffic identifier in decimal.
pub(crate) fn tid_of(word: &[u8]) -> Tid
    ensures { (n : ℕ) → n < 16 → word.now ≡ decimal n → result ≡ n }
{
    let number = byte_of(word);
    match Tid::new(number % 16) {
        Some(tid) => tid,
        None => unreachable!(),
    }
}

// A place, by its number from 1.
fn place_of(digits: &[u8]) -> u16
    ensures { (n : ℕ) → n < 2 ^ 16 → digits.now ≡ decimal (n + 1) → result ≡ n }
{
    let number = number_of(digits);
    if 0 < number && number <= 65_536 {
        (number - 1) as u16
    } else {
        0
    }
}

/// The node of that name.
pub(crate) fn node_of(word: &[u8]) -> Node
    ensures { (n : AnyNode) → FitsNode n → word.now ≡ node_text n → result ≡ n }
{
    if word.is_empty() {
        return Node::Ap(0);
    }
    let (_, digits) = word.split_at(1);
    let place = place_of(digits);
    if word[0] == b'a' {
        Node::Ap(place)
    } else {
        Node::Sta(place)
    }
}

/// The node of that name, or all.
pub(crate) fn peer_of(word: &[u8]) -> Peer
    ensures { (p : AnyPeer) → FitsPeer p → word.now ≡ peer_text p → result ≡ p }
{
    if is_word(word, b"all") {
        Peer::All
    } else {
        Peer::One(node_of(word))
    }
}

/// So many octets in hexadecimal digits.
pub(crate) fn array_of<const N: usize>(word: &[u8]) -> [u8; N]
    ensures { (octets : List ℕ) → IsArray N octets → word.now ≡ hex octets → result ≡ octets }
{
    match <[u8; N] as FromHex>::from_hex(word) {
        Ok(octets) => octets,
        Err(_) => [0; N],
    }
}

// Memory ran out.
fn is_memory(fault: &FromHexError) -> bool
    ensures { IsTrue result ↔ (fault.now ≡ OutOfMemory) }
{
    match fault {
        FromHexError::OutOfMemory => true,
        _ => false,
    }
}

// Octets in hexadecimal digits.
fn decoded(alloc: Global, word: &[u8]) -> Result<Vec<u8>, NoMemory>
    ensures { IfOk result (λ v. (octets : List ℕ) → AreOctets octets → word.now ≡ hex octets
        → v.items ≡ octets) }
{
    match hex::decode(alloc, word) {
        Ok(octets) => Ok(octets),
        Err(fault) => {
            if is_memory(&fault) {
                Err(NoMemory)
            } else {
                Ok(Vec::new(alloc))
            }
        }
    }
}

/// The octets, where there are no more than so many.
pub(crate) fn short_of<const N: usize>(octets: &[u8]) -> ShortOctets<N>
    ensures same { length octets.now ≤ N → result ≡ octets.now }
    ensures few { length result ≤ N }
{
    if octets.len() <= N {
        ShortOctets::of(octets)
    } else {
        ShortOctets::of(b"")
    }
}

/// Octets in hexadecimal digits, or none.
pub(crate) fn octets_of(alloc: Global, word: &[u8]) -> Result<Octets, NoMemory>
    ensures { IfOk result (λ o. (octets : List ℕ) → AreOctets octets
        → word.now ≡ payload_text octets → o ≡ octets) }
{
    if is_word(word, b"-") {
        Ok(Octets(Vec::new(alloc)))
    } else {
        let octets = decoded(alloc, word)?;
        Ok(Octets(octets))
    }
}
