//! What entries of one node tell of keys and packet numbers, and whether entries are one.

use domain_base::{Node, Octets, Peer, Tid};
use entry_comparison::{Stamp, is_entry};
use packet_history::{NodePackets, is_sourced};
use run_journal::{Act, Entry};
use std::alloc::Global;
use std::process::Abort;
use std::test::*;

const S1: Node = Node::Sta(0);

const A1: Node = Node::Ap(0);

// Whether a packet number is used or handed up, with what key and number, and whether it is new
// then.
static PACKETS: [(bool, u8, u64, bool); 7] = [
    (true, 1, 1, true),
    (true, 1, 2, true),
    (false, 1, 1, true),
    (true, 2, 1, true),
    (true, 1, 2, false),
    (false, 1, 1, false),
    (false, 2, 1, true),
];

fn act_of(rt: &impl Abort, alloc: Global, is_use: bool, key: u8, number: u64) -> Act {
    let octets = Octets(Vec::from_slice(alloc, b"payload").expect(rt, "memory"));
    let key = [key; 16];
    if is_use {
        Act::Used {
            peer: Peer::One(A1),
            key,
            id: 0,
            number,
            octets,
        }
    } else {
        Act::HandedUp {
            peer: A1,
            key,
            id: 0,
            tid: Tid::new(0).expect(rt, "a TID"),
            number,
            octets,
        }
    }
}

// Whether the act is new or not, as it should be; it is kept then.
fn is_as_told(
    rt: &impl Abort,
    alloc: Global,
    packets: &mut NodePackets,
    place: usize,
    row: (bool, u8, u64, bool),
) -> bool {
    let (is_use, key, number, is_new) = row;
    let act = act_of(rt, alloc, is_use, key, number);
    let found = packets.uses_new(&act) && packets.hands_up_new(&act);
    packets.add(&act, place).expect(rt, "memory");
    found == is_new
}

#[test]
fn packet_numbers_are_told_apart_by_key_and_use(rt: HostRuntime) {
    let mut packets = NodePackets::new(rt.alloc());
    for place in 0..PACKETS.len() {
        let told = is_as_told(&rt, rt.alloc(), &mut packets, place, PACKETS[place]);
        assert!(rt; told, "{place}");
    }
}

fn entry_of(rt: &impl Abort, alloc: Global, round: u64, node: Node, is_use: bool) -> Entry {
    Entry {
        round,
        node,
        number: 0,
        act: act_of(rt, alloc, is_use, 1, 1),
    }
}

// Whether a payload that is handed up in that round is one that the peer sent before.
fn is_sent_before(rt: &impl Abort, alloc: Global, sent: u64, handed: u64) -> bool {
    let entry = entry_of(rt, alloc, sent, A1, true);
    let mut packets = NodePackets::new(alloc);
    packets.add(&entry.act, 0).expect(rt, "memory");
    let mut entries = Vec::new(alloc);
    entries.push(entry).expect(rt, "memory");
    is_sourced(&entry_of(rt, alloc, handed, S1, false), &entries, &packets)
}

#[test]
fn payloads_come_from_earlier_rounds(rt: HostRuntime) {
    assert!(rt; is_sent_before(&rt, rt.alloc(), 1, 2));
    assert!(rt; !is_sent_before(&rt, rt.alloc(), 2, 2));
}

// Whether an entry is that of a round.
fn is_of_round(rt: &impl Abort, alloc: Global, round: u64) -> bool {
    let entry = entry_of(rt, alloc, 3, S1, true);
    let stamp = Stamp {
        round,
        node: S1,
        number: 0,
    };
    is_entry(&entry, stamp, &act_of(rt, alloc, true, 1, 1))
}

#[test]
fn entries_are_one_by_round_and_act(rt: HostRuntime) {
    assert!(rt; is_of_round(&rt, rt.alloc(), 3));
    assert!(rt; !is_of_round(&rt, rt.alloc(), 4));
}
