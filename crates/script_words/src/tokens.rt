//! The words of a line.

ghost use Rattle.std.specs.Prelude.{◌≡◌, ◌==◌, ◌&&◌, None, Some, Bool, MatchOption, nat_le};
ghost use Rattle.std.specs.Prelude.{position, is_some, option_map};
ghost use Rattle.std.specs.Char.{is_ascii_hexdigit};
ghost use Rattle.std.specs.List.{list_all};
ghost use Rattle.script_words.specs.Tokens.{behind, first_word, hex_octets, is_single, is_text, named};
ghost use Rattle.script_words.specs.Tokens.{node_word, number_of_digits, numbered, packet_number};
ghost use Rattle.script_words.specs.Tokens.{peer_word, some_octets, split_word, tid_number};
ghost use Rattle.script_words.specs.Tokens.{tid_word};
ghost use Rattle.script_words.specs.Names.{name_of, peer_of};

use domain_base::Tid;
use hex::FromHex;

/// What stands behind the word at the front of the text.
#[tactic(auto, unfolding(crate::specs::Tokens::behind))]
pub fn behind<'a>(word: &[u8], text: &'a [u8]) -> Option<&'a [u8]>
    ensures { MatchOption result (behind word.now text.now ≡ None)
        (λ rest. behind word.now text.now ≡ Some rest.now) }
{
    text.strip_prefix(word)
}

// The place of the first space.
fn first_space(text: &[u8]) -> Option<usize>
    ensures { result ≡ position (λ c. c == 32) text.now }
{
    text.iter().position(|c| *c == b' ')
}

/// What stands before the first space, and what stands behind it.
#[tactic(auto, unfolding(crate::specs::Tokens::split_word))]
pub fn split_word(text: &[u8]) -> Option<(&[u8], &[u8])>
    ensures { MatchOption result (split_word text.now ≡ None)
        (λ words. split_word text.now ≡ Some (words.0.now, words.1.now)) }
{
    let place = first_space(text)?;
    let (word, _) = text.split_at(place);
    let (_, rest) = text.split_at(place + 1);
    Some((word, rest))
}

/// The first word, and what stands behind the space behind it.
#[tactic(auto, unfolding(crate::specs::Tokens::first_word))]
pub fn first_word(text: &[u8]) -> (&[u8], &[u8])
    ensures { first_word text.now ≡ (result.0.now, result.1.now) }
{
    match split_word(text) {
        Some(words) => words,
        None => (text, b"".as_slice()),
    }
}

/// The octets that twice as many hexadecimal digits write.
pub fn hex_octets<const N: usize>(text: &[u8]) -> Option<[u8; N]>
    ensures { result ≡ hex_octets N text.now }
{
    <[u8; N] as FromHex>::from_hex(text).ok()
}

/// Whether all of the text is hexadecimal digits. Each is looked at, also behind one that is none: a
/// loop with one way out is made into one over many octets at once.
pub fn is_hex(text: &[u8]) -> bool
    ensures { result ≡ list_all is_ascii_hexdigit text.now }
{
    let mut all = true;
    for octet in text {
        all &= octet.is_ascii_hexdigit();
    }
    all
}

/// Whether the text is at least one octet, in pairs of hexadecimal digits.
pub fn is_octets(text: &[u8]) -> bool
    ensures { result ≡ is_some (some_octets text.now) }
{
    if text.is_empty() {
        return false;
    }
    if text.len() % 2 != 0 {
        return false;
    }
    is_hex(text)
}

/// Whether an address is that of one node: neither zero nor a group's.
#[tactic(auto, unfolding(crate::specs::Tokens::is_single))]
pub fn is_single(octets: &[u8; 6]) -> bool
    ensures { result ≡ is_single octets.now }
{
    *octets != [0; 6] && octets[0] % 2 == 0
}

/// The number that one to ten decimal digits write.
#[tactic(auto, unfolding(crate::specs::Tokens::number_of_digits))]
pub fn number_of_digits(text: &[u8]) -> Option<u64>
    ensures { result ≡ number_of_digits text.now }
{
    if text.is_empty() || 10 < text.len() {
        return None;
    }
    let mut number = 0;
    for digit in text {
        if !digit.is_ascii_digit() {
            return None;
        }
        number = number * 10 + u64::from(*digit - b'0');
    }
    Some(number)
}

/// Whether every code is from the least to 126.
pub fn is_between(least: u8, text: &[u8]) -> bool
    ensures { result ≡ list_all (λ c. nat_le least c && nat_le c 126) text.now }
{
    text.iter().all(|c| least <= *c && *c <= 126)
}

/// Whether the text has a size from 1 to the greatest, and every code from the least to 126.
pub fn is_text(greatest: usize, least: u8, text: &[u8]) -> bool
    ensures { result ≡ is_text greatest least text.now }
{
    1 <= text.len() && text.len() <= greatest && is_between(least, text)
}

/// A node by its word: its kind, and its number from 1.
#[derive(Clone, Copy)]
pub enum NodeName {
    /// An access point.
    Ap(u64),
    /// A station.
    Sta(u64),
}

// The number behind a letter.
#[tactic(auto, unfolding(crate::specs::Tokens::numbered))]
fn number_behind(letter: &[u8], word: &[u8]) -> Option<u64>
    ensures { (is_ap : Bool)
        → option_map (named is_ap) result ≡ numbered is_ap letter.now word.now }
{
    number_of_digits(behind(letter, word)?)
}

/// A node by its word.
#[tactic(auto, unfolding(crate::specs::Tokens::node_word))]
pub fn node_name(word: &[u8]) -> Option<NodeName>
    ensures { option_map name_of result ≡ node_word word.now }
{
    if let Some(number) = number_behind(b"a", word) {
        return Some(NodeName::Ap(number));
    }
    number_behind(b"s", word).map(NodeName::Sta)
}

/// To whom is sent, by its word.
#[derive(Clone, Copy)]
pub enum PeerName {
    /// All stations.
    All,
    /// One node.
    One(NodeName),
}

/// To whom is sent, by its word.
#[tactic(auto, unfolding(crate::specs::Tokens::peer_word))]
pub fn peer_name(word: &[u8]) -> Option<PeerName>
    ensures { option_map peer_of result ≡ peer_word word.now }
{
    if word == b"all".as_slice() {
        Some(PeerName::All)
    } else {
        node_name(word).map(PeerName::One)
    }
}

/// A packet number from 1 to `u32::MAX`.
#[tactic(auto, unfolding(crate::specs::Tokens::packet_number))]
pub fn packet_number(word: &[u8]) -> Option<u32>
    ensures { result ≡ packet_number word.now }
{
    let number = number_of_digits(word)?;
    if 1 <= number && number < 4294967296 {
        Some(number as u32)
    } else {
        None
    }
}

// The traffic identifier by its number.
#[tactic(auto, unfolding(crate::specs::Tokens::tid_number))]
fn tid_number(word: &[u8]) -> Option<Tid>
    ensures { result ≡ tid_number word.now }
{
    let number = number_of_digits(word)?;
    if number < 16 {
        Tid::new(number as u8)
    } else {
        None
    }
}

/// A traffic identifier; `-` where there is none.
#[tactic(auto, unfolding(crate::specs::Tokens::tid_word))]
pub fn tid_of(word: &[u8]) -> Option<Option<Tid>>
    ensures { result ≡ tid_word word.now }
{
    if word == b"-".as_slice() {
        Some(None)
    } else {
        tid_number(word).map(Some)
    }
}
