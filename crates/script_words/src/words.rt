//! What is wrong with a word of a line.

ghost use Rattle.std.specs.Prelude.{◌≡◌, ◌==◌, ◌&&◌, None, Some, MatchOption, nat_le, bytes_eq};
ghost use Rattle.std.specs.Prelude.{codes, if◌then◌else◌};
ghost use Rattle.std.specs.List.{list_any};
ghost use Rattle.script_words.specs.declared.causes.Cause.TheVariants as causes;
ghost use Rattle.script_words.specs.Slips.{address_cause, blemish, cause_at, hex_cause, id_cause};
ghost use Rattle.script_words.specs.Slips.{fits, is_comment, is_key_word, key_kind, key_word_cause};
ghost use Rattle.script_words.specs.Slips.{kind_cause, kind_in, lower, no_key_cause, seed_cause};
ghost use Rattle.script_words.specs.Slips.{single_cause, slip, suite_cause, text_cause};
ghost use Rattle.script_words.specs.Slips.{word_cause, words_from};
ghost use Rattle.script_words.specs.Tokens.{node_word, number_of_digits, packet_number, peer_word};
ghost use Rattle.script_words.specs.Tokens.{tid_word};

use crate::causes::Cause;
use crate::forms::Form;
use crate::kinds::{Kind, is_needed, kind_at};
use crate::tokens::{
    first_word, hex_octets, is_between, is_hex, node_name, number_of_digits, packet_number,
    peer_name, split_word, tid_of,
};

/// What stands in the line behind so many words.
#[tactic(auto, unfolding(crate::specs::Slips::words_from))]
pub fn words_from(before: u64, line: &[u8]) -> Option<&[u8]>
    ensures { MatchOption result (words_from before line.now ≡ None)
        (λ text. words_from before line.now ≡ Some text.now) }
{
    if before == 0 {
        return Some(line);
    }
    match split_word(line) {
        Some((_, rest)) => words_from(before - 1, rest),
        None => None,
    }
}

// Whether the word has a tab.
fn has_tab(word: &[u8]) -> bool
    ensures { result ≡ list_any (λ c. c == 9) word.now }
{
    word.iter().any(|c| *c == b'\t')
}

// Whether the word has a colon.
fn has_colon(word: &[u8]) -> bool
    ensures { result ≡ list_any (λ c. c == 58) word.now }
{
    word.iter().any(|c| *c == b':')
}

// Whether the word has a capital.
fn has_capital(word: &[u8]) -> bool
    ensures { result ≡ list_any (λ c. nat_le 65 c && nat_le c 90) word.now }
{
    word.iter().any(|c| 65 <= *c && *c <= 90)
}

// Whether a comment begins so.
fn is_comment(word: &[u8]) -> bool
    ensures { result ≡ is_comment word.now }
{
    match word.first() {
        None => false,
        Some(c) => *c == b'#',
    }
}

// What is wrong with a word that is none, or has octets that no word has; else the other cause.
#[tactic(auto, unfolding(crate::specs::Slips::blemish))]
fn blemish(other: Cause, word: &[u8]) -> Cause
    ensures { result ≡ blemish other word.now }
{
    if word.is_empty() {
        Cause::Space
    } else if has_tab(word) {
        Cause::Tab
    } else if is_between(33, word) {
        other
    } else {
        Cause::Strange
    }
}

// A word that begins a comment, or has a capital; else the other cause.
#[tactic(auto, unfolding(crate::specs::Slips::lower))]
fn lower(other: Cause, word: &[u8]) -> Cause
    ensures { result ≡ lower other word.now }
{
    if is_comment(word) {
        Cause::Comment
    } else if has_capital(word) {
        Cause::Capital
    } else {
        other
    }
}

/// What is wrong with a word of the language that is misspelled; else the other cause.
pub fn slip(other: Cause, word: &[u8]) -> Cause
    ensures { result ≡ slip other word.now }
{
    blemish(lower(other, word), word)
}

// What is wrong with hexadecimal digits, of which there are as many as there should be or not.
#[tactic(auto, unfolding(crate::specs::Slips::hex_cause))]
fn hex_cause(whole: bool, word: &[u8]) -> Cause
    ensures { result ≡ hex_cause whole word.now }
{
    if word.is_empty() {
        Cause::Space
    } else if is_hex(word) {
        if word.len() % 2 == 0 {
            if whole { Cause::Plain } else { Cause::Size }
        } else {
            Cause::Odd
        }
    } else {
        blemish(Cause::NoDigit, word)
    }
}

// What is wrong with the address of a node.
#[tactic(auto, unfolding(crate::specs::Slips::single_cause))]
fn single_cause(octets: &[u8; 6]) -> Cause
    ensures { result ≡ single_cause octets.now }
{
    if *octets == [0; 6] {
        Cause::Zero
    } else if octets[0] % 2 == 0 {
        Cause::Plain
    } else {
        Cause::Group
    }
}

// What is wrong with an address.
#[tactic(auto, unfolding(crate::specs::Slips::address_cause))]
fn address_cause(word: &[u8]) -> Cause
    ensures { result ≡ address_cause word.now }
{
    if has_colon(word) {
        return Cause::Colons;
    }
    let found: Option<[u8; 6]> = hex_octets(word);
    match found {
        Some(octets) => single_cause(&octets),
        None => hex_cause(word.len() == 12, word),
    }
}

// What is wrong with an R0KH-ID.
#[tactic(auto, unfolding(crate::specs::Slips::id_cause))]
fn id_cause(word: &[u8]) -> Cause
    ensures { result ≡ id_cause word.now }
{
    if word.len() <= 48 {
        blemish(Cause::Plain, word)
    } else {
        Cause::Long
    }
}

// What is wrong with a text that goes to the end of the line.
#[tactic(auto, unfolding(crate::specs::Slips::text_cause))]
fn text_cause(least: usize, most: usize, text: &[u8]) -> Cause
    ensures { result ≡ text_cause least most text.now }
{
    if text.len() < least {
        Cause::Short
    } else if most < text.len() {
        Cause::Long
    } else if is_between(32, text) {
        Cause::Plain
    } else {
        Cause::Strange
    }
}

// What is wrong with a suite.
#[tactic(auto, unfolding(crate::specs::Slips::suite_cause))]
fn suite_cause(word: &[u8]) -> Cause
    ensures { result ≡ suite_cause word.now }
{
    if word == b"psk".as_slice() {
        Cause::Plain
    } else if word == b"psk-sha256".as_slice() {
        Cause::Plain
    } else if word == b"ft-psk".as_slice() {
        Cause::Plain
    } else {
        slip(Cause::NoSuite, word)
    }
}

// What is wrong with a seed, where that is wrong with its draw.
#[tactic(auto, unfolding(crate::specs::Slips::seed_cause))]
fn seed_cause(draws: Cause, word: &[u8]) -> Cause
    ensures { result ≡ seed_cause draws word.now }
{
    if word == b"draw".as_slice() {
        draws
    } else {
        hex_cause(word.len() == 64, word)
    }
}

// What is wrong with the version.
fn version_cause(word: &[u8]) -> Cause
    ensures { result ≡ (if bytes_eq word.now (codes "1") then causes.Plain
        else if bytes_eq word.now (codes "2") then causes.Plain
        else slip causes.Version word.now) }
{
    if word == b"1".as_slice() {
        Cause::Plain
    } else if word == b"2".as_slice() {
        Cause::Plain
    } else {
        slip(Cause::Version, word)
    }
}

// Whether the word says in which form a key follows.
fn is_key_word(word: &[u8]) -> bool
    ensures { result ≡ is_key_word word.now }
{
    if word == b"psk".as_slice() {
        true
    } else {
        word == b"passphrase".as_slice()
    }
}

// What is wrong with the word of a key.
#[tactic(auto, unfolding(crate::specs::Slips::key_word_cause))]
fn key_word_cause(word: &[u8]) -> Cause
    ensures { result ≡ key_word_cause word.now }
{
    if is_key_word(word) {
        Cause::Plain
    } else {
        slip(Cause::NoKeyWord, word)
    }
}

// What is wrong with a word where nothing may stand, but in scripts of version 2 the word of a key.
#[tactic(auto, unfolding(crate::specs::Slips::no_key_cause))]
fn no_key_cause(word: &[u8]) -> Cause
    ensures { result ≡ no_key_cause word.now }
{
    if is_key_word(word) {
        Cause::Second
    } else {
        slip(Cause::Many, word)
    }
}

// What is wrong with the name of a station, or with `all`.
fn sta_or_all_cause(word: &[u8]) -> Cause
    ensures { result ≡ fits (peer_word word.now) causes.NoStaOrAll word.now }
{
    match peer_name(word) {
        Some(_) => Cause::Plain,
        None => slip(Cause::NoStaOrAll, word),
    }
}

// What is wrong with the word `to`.
fn to_cause(word: &[u8]) -> Cause
    ensures { result ≡ (if bytes_eq word.now (codes "to") then causes.Plain
        else slip causes.NoTo word.now) }
{
    if word == b"to".as_slice() {
        Cause::Plain
    } else {
        slip(Cause::NoTo, word)
    }
}

// What is wrong with the name of a node.
fn name_cause(word: &[u8]) -> Cause
    ensures { result ≡ fits (node_word word.now) causes.NoNode word.now }
{
    match node_name(word) {
        Some(_) => Cause::Plain,
        None => slip(Cause::NoNode, word),
    }
}

// What is wrong with the one to whom is sent.
fn peer_cause(word: &[u8]) -> Cause
    ensures { result ≡ fits (peer_word word.now) causes.NoPeer word.now }
{
    match peer_name(word) {
        Some(_) => Cause::Plain,
        None => slip(Cause::NoPeer, word),
    }
}

// What is wrong with a traffic identifier.
fn tid_cause(word: &[u8]) -> Cause
    ensures { result ≡ fits (tid_word word.now) causes.NoTid word.now }
{
    match tid_of(word) {
        Some(_) => Cause::Plain,
        None => slip(Cause::NoTid, word),
    }
}

// What is wrong with a number.
fn number_cause(word: &[u8]) -> Cause
    ensures { result ≡ fits (number_of_digits word.now) causes.NoNumber word.now }
{
    match number_of_digits(word) {
        Some(_) => Cause::Plain,
        None => slip(Cause::NoNumber, word),
    }
}

// What is wrong with a packet number.
fn packet_number_cause(word: &[u8]) -> Cause
    ensures { result ≡ fits (packet_number word.now) causes.NoPacketNumber word.now }
{
    match packet_number(word) {
        Some(_) => Cause::Plain,
        None => slip(Cause::NoPacketNumber, word),
    }
}

// What is wrong with a word, by what should stand there.
#[tactic(auto, unfolding(crate::specs::Slips::word_cause))]
fn word_cause(kind: Kind, word: &[u8]) -> Cause
    ensures { result ≡ word_cause kind word.now }
{
    match kind {
        Kind::Version => version_cause(word),
        Kind::Seed => seed_cause(Cause::LiveRun, word),
        Kind::LiveSeed => seed_cause(Cause::Plain, word),
        Kind::Psk => hex_cause(word.len() == 64, word),
        Kind::Akm => suite_cause(word),
        Kind::Mdid => hex_cause(word.len() == 4, word),
        Kind::Address => address_cause(word),
        Kind::R0khId => id_cause(word),
        Kind::Ap | Kind::Sta | Kind::Node => name_cause(word),
        Kind::Peer => peer_cause(word),
        Kind::Tid => tid_cause(word),
        Kind::Number | Kind::Place | Kind::Length => number_cause(word),
        Kind::Mask => hex_cause(word.len() == 2, word),
        Kind::Octets => hex_cause(true, word),
        Kind::To => to_cause(word),
        Kind::NoKey => no_key_cause(word),
        Kind::OwnKey | Kind::KeyWord => key_word_cause(word),
        Kind::StaOrAll => sta_or_all_cause(word),
        Kind::PacketNumber => packet_number_cause(word),
        Kind::End | Kind::Ssid | Kind::Passphrase | Kind::Key => slip(Cause::Many, word),
    }
}

// What is wrong with the first word of the text, by what should stand there; a text that goes to
// the end of the line is looked at as a whole.
#[tactic(auto, unfolding(crate::specs::Slips::kind_cause))]
fn kind_cause(kind: Kind, text: &[u8]) -> Cause
    ensures { result ≡ kind_cause kind text.now }
{
    match kind {
        Kind::Ssid => text_cause(1, 32, text),
        Kind::Passphrase => text_cause(8, 63, text),
        kind => {
            let (word, _) = first_word(text);
            word_cause(kind, word)
        }
    }
}

// The form of a key, by the word before it and what stands behind that.
fn key_kind(text: &[u8]) -> Kind
    ensures { result ≡ key_kind (Some text.now) }
{
    let (word, _) = first_word(text);
    if word == b"passphrase".as_slice() {
        Kind::Passphrase
    } else {
        Kind::Psk
    }
}

/// What should stand in a line of the form behind so many words: a key is in the form that the
/// line's third word says, and without that word nothing.
#[tactic(auto, unfolding(crate::specs::Slips::kind_in))]
pub fn kind_in(form: Form, before: u64, line: &[u8]) -> Kind
    ensures { result ≡ kind_in form before line.now }
{
    match kind_at(form, before) {
        Kind::Key => match words_from(2, line) {
            Some(text) => key_kind(text),
            None => Kind::End,
        },
        kind => kind,
    }
}

/// What is wrong with the word of the line behind so many words, by what should stand there.
pub fn cause_behind(kind: Kind, before: u64, line: &[u8]) -> Cause
    ensures { result ≡ cause_at kind (words_from before line.now) }
{
    match words_from(before, line) {
        None => {
            if is_needed(kind) {
                Cause::Missing
            } else {
                Cause::Plain
            }
        }
        Some(text) => {
            if text.is_empty() && is_needed(kind) {
                Cause::Missing
            } else {
                kind_cause(kind, text)
            }
        }
    }
}
