//! Rows as the words of a table, octets with the first highest.

ghost use Rattle.std.specs.Prelude.{◌≡◌, ◌+◌, ◌≤◌, length};
ghost use Rattle.std.specs.Int.{w64, to_be_bytes};
ghost use Rattle.domain_base.specs.Places.{part};
ghost use Rattle.holder_table.specs.Words.{row_of, row_words, name_octets, octets_in};

use domain_base::{Mac, array_at, put};
use key_holders::HolderRow;

/// A PMKR0Name in two words.
#[derive(Clone, Copy)]
pub struct NameWords {
    /// Octets 0 to 7.
    pub high: u64,
    /// Octets 8 to 15.
    pub low: u64,
}

/// A row in seven words.
#[derive(Clone, Copy)]
pub struct RowWords {
    /// PMKR0Name.
    pub name: NameWords,
    /// PMK-R0, octets 0 to 7.
    pub first: u64,
    /// Octets 8 to 15.
    pub second: u64,
    /// Octets 16 to 23.
    pub third: u64,
    /// Octets 24 to 31.
    pub fourth: u64,
    /// The station's address in the low 48 bits.
    pub sta: u64,
}

// Eight octets from a place on as a word.
fn word_at(octets: &[u8], at: usize) -> u64
    requires { at + 8 ≤ length octets.now }
    ensures { to_be_bytes w64 result ≡ part at 8 octets.now }
{
    u64::from_be_bytes(array_at(octets, at))
}

// An address in the low 48 bits of a word.
fn mac_word(octets: &[u8; 6]) -> u64
    ensures { octets_in 6 result ≡ octets.now }
{
    let mut eight = [0; 8];
    put(&mut eight, 2, octets);
    u64::from_be_bytes(eight)
}

// The address in the low 48 bits of a word.
pub(crate) fn mac_in(word: u64) -> Mac
    ensures { result.0 ≡ octets_in 6 word }
{
    Mac(array_at(&word.to_be_bytes(), 2))
}

impl NameWords {
    /// The words of a PMKR0Name.
    pub(crate) fn of(name: &[u8; 16]) -> NameWords
        ensures { name_octets result ≡ name.now }
    {
        NameWords {
            high: word_at(name, 0),
            low: word_at(name, 8),
        }
    }

    // The PMKR0Name.
    fn octets(&self) -> [u8; 16]
        ensures { result ≡ name_octets self.now }
    {
        let mut octets = [0; 16];
        let end = put(&mut octets, 0, &self.high.to_be_bytes());
        put(&mut octets, end, &self.low.to_be_bytes());
        octets
    }
}

impl RowWords {
    /// The words of a row.
    pub(crate) fn of(row: &HolderRow) -> RowWords
        ensures { row_of (row_words result) ≡ row.now }
    {
        RowWords::of_parts(&row.name, &row.key, &row.sta.0)
    }

    // The words of a PMKR0Name, a PMK-R0 and a station's address.
    fn of_parts(name: &[u8; 16], key: &[u8; 32], sta: &[u8; 6]) -> RowWords
        ensures name { (row_of (row_words result)).name ≡ name.now }
        ensures key { (row_of (row_words result)).key ≡ key.now }
        ensures sta { (row_of (row_words result)).sta.0 ≡ sta.now }
    {
        let first = word_at(key, 0);
        let second = word_at(key, 8);
        let third = word_at(key, 16);
        let fourth = word_at(key, 24);
        RowWords {
            name: NameWords::of(name),
            first,
            second,
            third,
            fourth,
            sta: mac_word(sta),
        }
    }

    // The PMK-R0.
    fn key(&self) -> [u8; 32]
        ensures { result ≡ (row_of (row_words self.now)).key }
    {
        let mut octets = [0; 32];
        let end = put(&mut octets, 0, &self.first.to_be_bytes());
        let end = put(&mut octets, end, &self.second.to_be_bytes());
        let end = put(&mut octets, end, &self.third.to_be_bytes());
        put(&mut octets, end, &self.fourth.to_be_bytes());
        octets
    }

    /// The row.
    pub(crate) fn row(&self) -> HolderRow
        ensures { result ≡ row_of (row_words self.now) }
    {
        HolderRow {
            name: self.name.octets(),
            key: self.key(),
            sta: mac_in(self.sta),
        }
    }
}
