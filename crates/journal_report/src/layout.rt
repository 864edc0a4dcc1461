//! How words stand in a line.

ghost use Rattle.std.specs.Prelude.{◌≤◌, ◌+◌, [], ◌∷◌, length, map};
ghost use Rattle.domain_base.specs.Names.{node_text};
ghost use Rattle.run_journal.specs.Report.{words};
ghost use Rattle.journal_report.specs.Words.{spaced, word_room, word_text, words_room};
ghost use Rattle.journal_report.specs.Writing.{Writes};

use crate::outcome::put_outcome;
use crate::pieces::{put_decimal, put_hex, put_node, put_numbered, put_peer};
use crate::words::Word;
use domain_base::{Node, put};

// Writes the word at a place, and answers the place behind it.
fn put_word(out: &mut [u8], at: usize, word: &Word) -> usize
    requires { at + word_room word.now ≤ length out.old }
    ensures written { Writes (word_text word.now) at out.old result out.new }
    ensures short { result ≤ at + word_room word.now }
{
    match *word {
        Word::Text(text) => put(out, at, text),
        Word::Number(number) => put_decimal(out, at, number),
        Word::Numbered(text, number) => put_numbered(out, at, text, number),
        Word::Node(node) => put_node(out, at, node),
        Word::Peer(peer) => put_peer(out, at, peer),
        Word::Outcome(outcome) => put_outcome(out, at, outcome),
        Word::Address(address) => put_hex(out, at, &address.0),
    }
}

/// Writes words at a place, each further one behind a space, and answers the place behind them.
pub fn put_words(out: &mut [u8], at: usize, first: &[u8], further: &[Word]) -> usize
    requires { at + length first.now + words_room further.now ≤ length out.old }
    ensures written { Writes (spaced first.now further.now) at out.old result out.new }
    ensures short { result ≤ at + length first.now + words_room further.now }
{
    let mut end = put(out, at, first);
    for word in further {
        end = put(out, end, b" ");
        end = put_word(out, end, word);
    }
    end
}

/// Writes a line of these words at a place, and answers the place behind its line feed.
pub(crate) fn put_line(out: &mut [u8], at: usize, first: &[u8], further: &[Word]) -> usize
    requires { at + length first.now + words_room further.now + 1 ≤ length out.old }
    ensures written { Writes (words (first.now ∷ map word_text further.now)) at out.old result
        out.new }
    ensures short { result ≤ at + length first.now + words_room further.now + 1 }
{
    let end = put_words(out, at, first, further);
    put(out, end, b"\n")
}

/// Writes the line of a node, its peer and one word more to the front, and answers its length.
pub(crate) fn put_pair(out: &mut [u8], verb: &[u8], node: Node, peer: Word, last: Word) -> usize
    requires { length verb.now + word_room peer + word_room last + 15 ≤ length out.old }
    ensures written { Writes
        (words (verb.now ∷ node_text node ∷ word_text peer ∷ word_text last ∷ [])) 0
        out.old result out.new }
    ensures short { result ≤ length verb.now + word_room peer + word_room last + 15 }
{
    put_line(out, 0, verb, &[Word::Node(node), peer, last])
}
