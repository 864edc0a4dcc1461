//! Whether what a node accepts or hands up comes from its peer.

ghost use Rattle.std.specs.Prelude.{◌≡◌, ◌↔◌, IsTrue, reverse};
ghost use Rattle.run_journal.specs.Safe.{use_of};
ghost use Rattle.packet_history.specs.Own.{DerivesBefore, JoinedIn, OnceIn, SomeIn, SourcedIn};
ghost use Rattle.packet_history.specs.Own.{UsedThere, UsesBefore};
ghost use Rattle.packet_history.specs.Records.{Records};

use crate::packets::Packet;
use crate::reading::{derives, is_before, uses};
use crate::records::NodePackets;
use key_hierarchy::Inputs;
use run_journal::{Act, Entry};

// Whether one of the entries derived a key from the inputs before. The newest are asked first.
fn some_derives(entries: &[Entry], inputs: &Inputs, later: &Entry) -> bool
    ensures { IsTrue result ↔ SomeIn (DerivesBefore inputs.now later.now) (reverse entries.now) }
{
    let mut older = entries;
    while let Some((entry, rest)) = older.split_last() {
        if is_before(entry, later) && derives(&entry.act, inputs) {
            return true;
        }
        older = rest;
    }
    false
}

/// Whether an entry that accepts a final message has inputs from which its peer derived before, by
/// the entries of the peer. They are walked back to the one that did: those of a handshake.
pub fn is_joined(entry: &Entry, peer_entries: &[Entry]) -> bool
    ensures { IsTrue result ↔ JoinedIn entry.now (reverse peer_entries.now) }
{
    match &entry.act {
        Act::Finished { inputs, .. } => some_derives(peer_entries, inputs.inputs(), entry),
        _ => true,
    }
}

// Whether the entry used the packet number for these octets before the other one.
fn uses_before(entry: &Entry, packet: Packet, plain: &[u8], later: &Entry) -> bool
    ensures { IsTrue result ↔ UsesBefore (record {
      key = packet.key;
      number = packet.number;
      octets = plain.now;
    }) later.now entry.now }
{
    is_before(entry, later) && uses(&entry.act, packet, plain)
}

// Whether the entry at that place, if any, did so.
fn uses_at(
    entries: &[Entry],
    place: Option<usize>,
    packet: Packet,
    plain: &[u8],
    later: &Entry,
) -> bool
    ensures { IsTrue result ↔ UsedThere (record {
      key = packet.key;
      number = packet.number;
      octets = plain.now;
    }) later.now entries.now place }
{
    let Some(place) = place else {
        return false;
    };
    match entries.get(place) {
        Some(entry) => uses_before(entry, packet, plain, later),
        None => false,
    }
}

/// Whether a payload that an entry hands up was sent so by its peer before, by the entries of the
/// peer, which used no packet number of a key twice.
pub fn is_sourced(entry: &Entry, peer_entries: &[Entry], peer: &NodePackets) -> bool
    ensures { Records (reverse peer_entries.now) peer.now
        → OnceIn use_of (reverse peer_entries.now)
        → IsTrue result ↔ SourcedIn entry.now (reverse peer_entries.now) }
{
    match &entry.act {
        Act::HandedUp {
            key,
            number,
            octets,
            ..
        } => {
            let packet = Packet {
                key: *key,
                number: *number,
            };
            let place = peer.use_place(packet);
            uses_at(peer_entries, place, packet, octets.as_slice(), entry)
        }
        _ => true,
    }
}
