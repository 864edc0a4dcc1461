//! The line of an act.

ghost use Rattle.std.specs.Prelude.{◌≡◌, ◌≤◌, ◌↔◌, ℕ, drop, length, take, IsTrue};
ghost use Rattle.run_journal.specs.Report.{line};
ghost use Rattle.journal_report.specs.Room.{IsAttempt, IsHolding, IsTraffic, room_of, up_head};
ghost use Rattle.journal_report.specs.Writing.{Writes};

use crate::layout::{put_line, put_pair, put_words};
use crate::link_line::link_line;
use crate::pieces::put_payload;
use crate::words::{
    Word, key_word, kind_word, message_word, part_word, pull_word, put_word, revoke_word,
    start_word, why_word,
};
use domain_base::{Node, Tid, put};
use run_journal::{Act, Entry};

/// Room that is enough for a line beside the digits of a payload.
pub const LINE_ROOM: usize = 128;

/// Room that is enough for the line of a payload handed up, as far as the payload.
pub(crate) const UP_HEAD_ROOM: usize = 90;

/// Whether the entry's line fits in so many octets for sure: it needs two for each octet of a
/// payload that is handed up, and `LINE_ROOM` at most for all the rest.
pub fn line_fits(entry: &Entry, room: usize) -> bool
    ensures { IsTrue result ↔ (room_of entry.now ≤ room) }
{
    let digits = room.saturating_sub(LINE_ROOM);
    match &entry.act {
        Act::HandedUp { octets, .. } => LINE_ROOM <= room && octets.as_slice().len() <= digits / 2,
        _ => LINE_ROOM <= room,
    }
}

/// Writes the entry's line to the front of `out`, with its line feed, and answers its length: 0 for
/// an act that is not printed. What stands behind the line stays.
pub fn line_of(entry: &Entry, out: &mut [u8]) -> usize
    requires { room_of entry.now ≤ length out.old }
    ensures count { result ≡ length (line entry.now) }
    ensures text { take result out.new ≡ line entry.now }
    ensures rest { (n : ℕ) → result ≤ n → drop n out.new ≡ drop n out.old }
    ensures len { length out.new ≡ length out.old }
    ensures short { result ≤ room_of entry.now }
{
    let node = entry.node;
    match &entry.act {
        Act::Drew { .. } | Act::Derived { .. } => 0,
        Act::Opened { .. } | Act::Closed { .. } | Act::Finished { .. } | Act::GaveUp { .. } => {
            attempt_line(entry, out)
        }
        Act::Secret { .. } => attempt_line(entry, out),
        Act::Installed { peer, key } => {
            put_pair(out, b"install", node, Word::Peer(*peer), key_word(key))
        }
        Act::Resumed { peer, key } => {
            put_pair(out, b"resume", node, Word::Node(*peer), key_word(key))
        }
        Act::Took { kind, outcome, .. } => {
            let words = [Word::Node(node), kind_word(*kind), Word::Outcome(*outcome)];
            put_line(out, 0, b"took", &words)
        }
        Act::Put { .. } | Act::Looked { .. } | Act::Revoked { .. } => holder_line(entry, out),
        Act::Idle { why } => put_line(out, 0, b"idle", &[Word::Node(node), why_word(*why)]),
        Act::Sent { .. } | Act::Used { .. } | Act::HandedUp { .. } => traffic_line(entry, out),
        Act::Link { sta, step } => link_line(node, *sta, step.step(), out),
    }
}

// The line of an attempt or session that began, was finished or ended, and of a changed key.
fn attempt_line(entry: &Entry, out: &mut [u8]) -> usize
    requires attempt { IsAttempt entry.now.act }
    requires room { room_of entry.now ≤ length out.old }
    ensures written { Writes (line entry.now) 0 out.old result out.new }
    ensures short { result ≤ room_of entry.now }
{
    let node = entry.node;
    match &entry.act {
        Act::Opened { peer, start } => {
            put_pair(out, b"open", node, Word::Node(*peer), start_word(*start))
        }
        Act::Closed { peer, part } => {
            put_pair(out, b"close", node, Word::Node(*peer), part_word(*part))
        }
        Act::Finished { peer, .. } => {
            put_line(out, 0, b"finish", &[Word::Node(node), Word::Node(*peer)])
        }
        Act::Secret { sta, .. } => {
            put_line(out, 0, b"secret", &[Word::Node(node), Word::Node(*sta)])
        }
        Act::GaveUp { peer, message } => {
            let message = message_word(*message);
            put_pair(out, b"gave-up", node, Word::Node(*peer), message)
        }
        _ => unreachable!(),
    }
}

// The line of what a key holder was asked and answered.
fn holder_line(entry: &Entry, out: &mut [u8]) -> usize
    requires holding { IsHolding entry.now.act }
    requires room { room_of entry.now ≤ length out.old }
    ensures written { Writes (line entry.now) 0 out.old result out.new }
    ensures short { result ≤ room_of entry.now }
{
    let node = entry.node;
    match &entry.act {
        Act::Put { sta, answer, .. } => {
            put_pair(out, b"put", node, Word::Node(*sta), put_word(*answer))
        }
        Act::Looked { sta, answer, .. } => {
            put_pair(out, b"look", node, Word::Node(*sta), pull_word(answer))
        }
        Act::Revoked { sta, answer, .. } => {
            put_pair(out, b"revoke", node, Word::Node(*sta), revoke_word(*answer))
        }
        _ => unreachable!(),
    }
}

// The line of a frame sent, a packet number used or a payload handed up.
fn traffic_line(entry: &Entry, out: &mut [u8]) -> usize
    requires traffic { IsTraffic entry.now.act }
    requires room { room_of entry.now ≤ length out.old }
    ensures written { Writes (line entry.now) 0 out.old result out.new }
    ensures short { result ≤ room_of entry.now }
{
    let node = Word::Node(entry.node);
    match &entry.act {
        Act::Sent {
            peer,
            kind,
            octets,
            ..
        } => {
            let number = Word::Number(entry.number);
            let size = Word::Number(octets.as_slice().len() as u64);
            let words = [number, node, Word::Peer(*peer), kind_word(*kind), size];
            put_line(out, 0, b"sent", &words)
        }
        Act::Used {
            peer,
            id,
            number,
            ..
        } => {
            let id = Word::Number(u64::from(*id));
            let words = [node, Word::Peer(*peer), id, Word::Number(*number)];
            put_line(out, 0, b"used", &words)
        }
        Act::HandedUp {
            peer,
            id,
            tid,
            number,
            octets,
            ..
        } => {
            let at = put_up_head(out, entry.node, *peer, *id, *tid, *number);
            let at = put_payload(out, at, octets.as_slice());
            put(out, at, b"\n")
        }
        _ => unreachable!(),
    }
}

/// Writes the line of a payload handed up, as far as the space before the payload, to the front.
pub(crate) fn put_up_head(
    out: &mut [u8],
    node: Node,
    peer: Node,
    id: u8,
    tid: Tid,
    number: u64,
) -> usize
    requires { UP_HEAD_ROOM ≤ length out.old }
    ensures written { Writes (up_head node peer id tid number) 0 out.old result out.new }
    ensures short { result ≤ UP_HEAD_ROOM }
{
    let id = Word::Number(u64::from(id));
    let tid = Word::Number(u64::from(tid.number()));
    let words = [
        Word::Node(node),
        Word::Node(peer),
        id,
        tid,
        Word::Number(number),
    ];
    let at = put_words(out, 0, b"up", &words);
    put(out, at, b" ")
}
