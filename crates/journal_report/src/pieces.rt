//! Pieces of text, each written into a slice at a place. The answer is the place behind the piece.

ghost use Rattle.std.specs.Prelude.{◌≤◌, ◌+◌, ◌*◌, length, decimal};
ghost use Rattle.domain_base.specs.Names.{node_text, peer_text};
ghost use Rattle.run_journal.specs.Report.{hex, numbered, payload_text};
ghost use Rattle.journal_report.specs.Writing.{Writes};

use domain_base::{Node, Peer, put};
use itoa::Buffer;

/// The most digits that a number of 64 bits has.
pub const NUMBER_ROOM: usize = 20;

/// Room that is enough for a letter and a number of 32 bits.
pub(crate) const NODE_ROOM: usize = 11;

/// The number in decimal digits.
pub fn put_decimal(out: &mut [u8], at: usize, number: u64) -> usize
    requires { at + NUMBER_ROOM ≤ length out.old }
    ensures written { Writes (decimal number) at out.old result out.new }
    ensures short { result ≤ at + NUMBER_ROOM }
{
    let mut digits = Buffer::new();
    put(out, at, digits.format(number).as_bytes())
}

/// A word, a space and a number.
pub(crate) fn put_numbered(out: &mut [u8], at: usize, word: &[u8], number: u64) -> usize
    requires { at + length word.now + 1 + NUMBER_ROOM ≤ length out.old }
    ensures written { Writes (numbered word.now number) at out.old result out.new }
    ensures short { result ≤ at + length word.now + 1 + NUMBER_ROOM }
{
    let at = put(out, at, word);
    let at = put(out, at, b" ");
    put_decimal(out, at, number)
}

/// The node's name: its letter, and its place from 1.
pub(crate) fn put_node(out: &mut [u8], at: usize, node: Node) -> usize
    requires { at + NODE_ROOM ≤ length out.old }
    ensures written { Writes (node_text node) at out.old result out.new }
    ensures short { result ≤ at + NODE_ROOM }
{
    let (letter, place) = match node {
        Node::Ap(place) => (b"a", place),
        Node::Sta(place) => (b"s", place),
    };
    let mut digits = Buffer::new();
    let at = put(out, at, letter);
    put(out, at, digits.format(u32::from(place) + 1).as_bytes())
}

/// The node's name, or `all`.
pub(crate) fn put_peer(out: &mut [u8], at: usize, peer: Peer) -> usize
    requires { at + NODE_ROOM ≤ length out.old }
    ensures written { Writes (peer_text peer) at out.old result out.new }
    ensures short { result ≤ at + NODE_ROOM }
{
    match peer {
        Peer::One(node) => put_node(out, at, node),
        Peer::All => put(out, at, b"all"),
    }
}

/// The octets in hexadecimal digits of lower case, or `-` for none.
pub fn put_payload(out: &mut [u8], at: usize, octets: &[u8]) -> usize
    requires { at + 2 * length octets.now + 1 ≤ length out.old }
    ensures written { Writes (payload_text octets.now) at out.old result out.new }
    ensures short { result ≤ at + 2 * length octets.now + 1 }
{
    if octets.is_empty() {
        put(out, at, b"-")
    } else {
        put_hex(out, at, octets)
    }
}

/// Each octet as two hexadecimal digits of lower case, the high four bits first.
pub fn put_hex(out: &mut [u8], at: usize, octets: &[u8]) -> usize
    requires { at + 2 * length octets.now ≤ length out.old }
    ensures written { Writes (hex octets.now) at out.old result out.new }
    ensures short { result ≤ at + 2 * length octets.now }
{
    let end = at + 2 * octets.len();
    if hex::encode_to_slice(octets, &mut out[at..end]).is_err() {
        unreachable!()
    }
    end
}
