//! Which of the words is wrong, where they are no command.

ghost use Rattle.std.specs.Prelude.{◌≡◌};
ghost use Rattle.command_words.specs.Faults.{ends_options, fault_text, wrong_alone, wrong_in};
ghost use Rattle.command_words.specs.Faults.{wrong_live, wrong_port, wrong_storm};
ghost use Rattle.command_words.specs.Faults.{wrong_end, wrong_link, wrong_pair, wrong_storm_number};
ghost use Rattle.command_words.specs.Words.{end_of};

use crate::ends::end_of;
use crate::numbers::{port_number, storm_number};

/// What is wrong with a word.
#[derive(Clone, Copy, Debug, PartialEq)]
pub enum WordFault {
    /// It is no command.
    Command,
    /// It is no port for a live run.
    Port,
    /// It is no number of a storm.
    Number,
    /// It is no end of a link.
    End,
    /// There should be none.
    Many,
}

impl WordFault {
    /// It in words, with the range of what should stand there.
    pub fn text(self) -> &'static str
        ensures { result.now ≡ fault_text self }
    {
        match self {
            WordFault::Command => "has to be replay, live, storm, journal or link",
            WordFault::Port => "has to be a port from 1024 to 64000, in one to ten digits",
            WordFault::Number => "has to be a number from 0 to 4294967295, in one to ten digits",
            WordFault::End => "has to be holder or asker",
            WordFault::Many => "is one too many",
        }
    }
}

/// The word that is wrong, from 1, or that is missing, and what is wrong with it.
#[derive(Clone, Copy, Debug, PartialEq)]
pub struct WrongWord {
    /// Which one.
    pub word: u64,
    /// What is wrong with it.
    pub fault: WordFault,
}

// Whether the word is `--`, which `clap` passes over once behind the command.
fn ends_options(word: &[u8]) -> bool
    ensures { result ≡ ends_options word.now }
{
    word == b"--".as_slice()
}

// That the word at that place is no port, or the one behind it is one too many.
fn wrong_port(place: u64, behind: u64, word: &[u8]) -> WrongWord
    ensures { result ≡ wrong_port place behind word.now }
{
    match port_number(word) {
        Some(_) => WrongWord {
            word: behind,
            fault: WordFault::Many,
        },
        None => WrongWord {
            word: place,
            fault: WordFault::Port,
        },
    }
}

// That the word at that place is no number of a storm, or the one behind it is one too many.
fn wrong_storm_number(place: u64, behind: u64, word: &[u8]) -> WrongWord
    ensures { result ≡ wrong_storm_number place behind word.now }
{
    match storm_number(word) {
        Some(_) => WrongWord {
            word: behind,
            fault: WordFault::Many,
        },
        None => WrongWord {
            word: place,
            fault: WordFault::Number,
        },
    }
}

// What is wrong behind `live`.
fn wrong_live(second: &[u8], third: &[u8]) -> WrongWord
    ensures { result ≡ wrong_live second.now third.now }
{
    if ends_options(second) {
        wrong_port(3, 4, third)
    } else if ends_options(third) {
        wrong_port(2, 4, second)
    } else {
        wrong_port(2, 3, second)
    }
}

// What is wrong behind `storm`.
fn wrong_storm(second: &[u8], third: &[u8]) -> WrongWord
    ensures { result ≡ wrong_storm second.now third.now }
{
    if ends_options(second) {
        wrong_storm_number(3, 4, third)
    } else if ends_options(third) {
        wrong_storm_number(2, 4, second)
    } else {
        wrong_storm_number(2, 3, second)
    }
}

// What is wrong after a command that takes no word.
fn wrong_alone(second: &[u8]) -> WrongWord
    ensures { result ≡ wrong_alone second.now }
{
    WrongWord {
        word: if ends_options(second) { 3 } else { 2 },
        fault: WordFault::Many,
    }
}

// That the word at that place is no end, or the one after it is one too many.
fn wrong_end(place: u64, after: u64, word: &[u8]) -> WrongWord
    ensures { result ≡ wrong_end place after (end_of word.now) }
{
    match end_of(word) {
        Some(_) => WrongWord {
            word: after,
            fault: WordFault::Many,
        },
        None => WrongWord {
            word: place,
            fault: WordFault::End,
        },
    }
}

// That the word at that place is no port, or what is wrong with the end after it.
fn wrong_pair(port: u64, end: u64, after: u64, word: &[u8], last: &[u8]) -> WrongWord
    ensures { result ≡ wrong_pair port end after word.now last.now }
{
    match port_number(word) {
        Some(_) => wrong_end(end, after, last),
        None => WrongWord {
            word: port,
            fault: WordFault::Port,
        },
    }
}

// What is wrong after `link`.
#[tactic(auto, unfolding(crate::specs::Faults::wrong_link))]
fn wrong_link(second: &[u8], third: &[u8], fourth: &[u8]) -> WrongWord
    ensures { result ≡ wrong_link second.now third.now fourth.now }
{
    if ends_options(second) {
        wrong_pair(3, 4, 5, third, fourth)
    } else if ends_options(third) {
        wrong_pair(2, 4, 5, second, fourth)
    } else if ends_options(fourth) {
        wrong_pair(2, 3, 5, second, third)
    } else {
        wrong_pair(2, 3, 4, second, third)
    }
}

// The first word that is wrong, by the first four.
#[tactic(auto, unfolding(crate::specs::Faults::wrong_in))]
fn wrong_in(first: &[u8], second: &[u8], third: &[u8], fourth: &[u8]) -> WrongWord
    ensures { result ≡ wrong_in first.now second.now third.now fourth.now }
{
    if first == b"replay".as_slice() {
        wrong_alone(second)
    } else if first == b"live".as_slice() {
        wrong_live(second, third)
    } else if first == b"storm".as_slice() {
        wrong_storm(second, third)
    } else if first == b"journal".as_slice() {
        wrong_alone(second)
    } else if first == b"link".as_slice() {
        wrong_link(second, third, fourth)
    } else {
        WrongWord {
            word: 1,
            fault: WordFault::Command,
        }
    }
}

// The octets of the word at that place, or none.
fn octets_at<'a>(words: &[&'a str], place: usize) -> &'a [u8] {
    match words.get(place) {
        Some(word) => word.as_bytes(),
        None => b"".as_slice(),
    }
}

/// The first word that is wrong in words that are no command. The first four tell which it is:
/// after the command there are two words at most, and `--` once, before, between or after them.
pub fn wrong_word(words: &[&str]) -> WrongWord {
    wrong_in(
        octets_at(words, 0),
        octets_at(words, 1),
        octets_at(words, 2),
        octets_at(words, 3),
    )
}
