//! Lines of entries: each written by its format, and read back.

use domain_base::{Akm, Mac, Node, Octets, Peer, ShortOctets, Tid};
use eapol_key::{FaultKind as KeyFault, FrameFault, Message};
use entry_lines::{entry_room, read_entry, write_entry};
use key_hierarchy::{
    BoxedInputs, Inputs, PmkR1, Ptk, PullAnswer, PutAnswer, RevokeAnswer, SharedInputs,
};
use run_journal::{
    Act, BoxedSeal, Drawn, Entry, GroupKind, Key, KeyDataFault, Kind, Malformed, MalformedFrame,
    Outcome, Part, Reason, Seal, Start, Why,
};
use std::alloc::Global;
use std::process::Abort;
use std::test::*;

const A1: Node = Node::Ap(0);

const A2: Node = Node::Ap(1);

const S1: Node = Node::Sta(0);

const LAST: Node = Node::Sta(65_535);

const AA: Mac = Mac([2, 0, 0, 0, 0, 1]);

const AA2: Mac = Mac([2, 0, 0, 0, 0, 2]);

const SPA: Mac = Mac([2, 0, 0, 0, 1, 1]);

const ANONCE: [u8; 32] = [0x11; 32];

const SNONCE: [u8; 32] = [0x22; 32];

const KCK: [u8; 16] = [0xc1; 16];

const KEK: [u8; 16] = [0xc2; 16];

const TK: [u8; 16] = [0xc3; 16];

const GTK: [u8; 16] = [0xd4; 16];

const IGTK: [u8; 16] = [0xe5; 16];

const PMK_R0_NAME: [u8; 16] = [0x55; 16];

// A key by what else its line tells; a pairwise one is that of the roam or of the first handshake.
#[derive(Clone, Copy)]
enum Which {
    Pairwise(bool),
    Group(Mac),
    Integrity(Mac),
}

// An act in few words.
#[derive(Clone, Copy)]
enum Told {
    Opened(Node, Start),
    Closed(Node, Part),
    Drew(Drawn),
    Derived(bool),
    Sent(u64, Node, Kind, &'static [u8], bool),
    Took(Kind, Outcome, &'static [u8], bool),
    Installed(Peer, Which),
    Resumed(Node, Which),
    Used(Peer, [u8; 16], u8, u64, &'static [u8]),
    HandedUp(Node, [u8; 16], u8, u8, u64, &'static [u8]),
    Finished(Node, bool),
    Put(PutAnswer),
    Looked(bool),
    Revoked(RevokeAnswer),
    Secret([u8; 32]),
    GaveUp(Node, Message),
    Idle(Why),
}

// Frames are cut to their first octets; what is sealed of one is the octet 1 and these.
static FIRST_HANDSHAKE: [(u64, Node, Told, &[u8]); 26] = [
    (
        0,
        A1,
        Told::Drew(Drawn::Group(GroupKind::Gtk, GTK)),
        b"0 a1 drew d4d4d4d4d4d4d4d4d4d4d4d4d4d4d4d4 gtk",
    ),
    (
        0,
        A1,
        Told::Installed(Peer::All, Which::Group(AA)),
        b"0 a1 installed all gtk d4d4d4d4d4d4d4d4d4d4d4d4d4d4d4d4 1 020000000001",
    ),
    (
        1,
        S1,
        Told::Opened(A1, Start::Connect),
        b"1 s1 opened a1 connect",
    ),
    (
        1,
        S1,
        Told::Drew(Drawn::Nonce(SNONCE)),
        b"1 s1 drew 2222222222222222222222222222222222222222222222222222222222222222 nonce",
    ),
    (
        1,
        S1,
        Told::Sent(1, A1, Kind::AssocReq, b"\x00\x00", false),
        b"1 s1 sent 1 a1 assoc-req 0000 - -",
    ),
    (
        2,
        A1,
        Told::Took(Kind::AssocReq, Outcome::Accepted, b"\x00\x00", false),
        b"2 a1 took assoc-req accepted 0000 - -",
    ),
    (
        2,
        A1,
        Told::Opened(S1, Start::Connect),
        b"2 a1 opened s1 connect",
    ),
    (
        2,
        A1,
        Told::Drew(Drawn::Nonce(ANONCE)),
        b"2 a1 drew 1111111111111111111111111111111111111111111111111111111111111111 nonce",
    ),
    (
        2,
        A1,
        Told::Sent(2, S1, Kind::AssocResp, b"\x10\x00", false),
        b"2 a1 sent 2 s1 assoc-resp 1000 - -",
    ),
    (
        2,
        A1,
        Told::Sent(3, S1, Kind::Key(Message::M1), b"\x08\x02", false),
        b"2 a1 sent 3 s1 m1 0802 - -",
    ),
    (
        4,
        S1,
        Told::Took(
            Kind::Key(Message::M1),
            Outcome::Accepted,
            b"\x08\x02",
            false,
        ),
        b"4 s1 took m1 accepted 0802 - -",
    ),
    (
        4,
        S1,
        Told::Derived(false),
        b"4 s1 derived psk abababababababababababababababababababababababababababababababab 686f6d65 0000 - 020000000001 020000000101 1111111111111111111111111111111111111111111111111111111111111111 2222222222222222222222222222222222222222222222222222222222222222 c1c1c1c1c1c1c1c1c1c1c1c1c1c1c1c1c2c2c2c2c2c2c2c2c2c2c2c2c2c2c2c2c3c3c3c3c3c3c3c3c3c3c3c3c3c3c3c3",
    ),
    (
        4,
        S1,
        Told::Sent(4, A1, Kind::Key(Message::M2), b"\x08\x01", true),
        b"4 s1 sent 4 a1 m2 0801 010801 c1c1c1c1c1c1c1c1c1c1c1c1c1c1c1c1",
    ),
    (
        6,
        S1,
        Told::Took(
            Kind::Key(Message::M3),
            Outcome::Accepted,
            b"\x08\x02\x3a",
            true,
        ),
        b"6 s1 took m3 accepted 08023a 0108023a c1c1c1c1c1c1c1c1c1c1c1c1c1c1c1c1",
    ),
    (
        6,
        S1,
        Told::Installed(Peer::One(A1), Which::Pairwise(false)),
        b"6 s1 installed a1 ptk c3c3c3c3c3c3c3c3c3c3c3c3c3c3c3c3 0 psk abababababababababababababababababababababababababababababababab 686f6d65 0000 - 020000000001 020000000101 1111111111111111111111111111111111111111111111111111111111111111 2222222222222222222222222222222222222222222222222222222222222222",
    ),
    (
        6,
        S1,
        Told::Installed(Peer::One(A1), Which::Group(AA)),
        b"6 s1 installed a1 gtk d4d4d4d4d4d4d4d4d4d4d4d4d4d4d4d4 1 020000000001",
    ),
    (
        6,
        S1,
        Told::Finished(A1, false),
        b"6 s1 finished a1 psk abababababababababababababababababababababababababababababababab 686f6d65 0000 - 020000000001 020000000101 1111111111111111111111111111111111111111111111111111111111111111 2222222222222222222222222222222222222222222222222222222222222222",
    ),
    (
        7,
        A1,
        Told::Took(
            Kind::Key(Message::M4),
            Outcome::Answered,
            b"\x08\x01\x3b",
            true,
        ),
        b"7 a1 took m4 answered 08013b 0108013b c1c1c1c1c1c1c1c1c1c1c1c1c1c1c1c1",
    ),
    (
        8,
        S1,
        Told::Used(Peer::One(A1), TK, 0, 1, b"hello"),
        b"8 s1 used a1 c3c3c3c3c3c3c3c3c3c3c3c3c3c3c3c3 0 1 68656c6c6f",
    ),
    (
        9,
        A1,
        Told::HandedUp(S1, TK, 0, 5, 18446744073709551615, b""),
        b"9 a1 handed s1 c3c3c3c3c3c3c3c3c3c3c3c3c3c3c3c3 0 5 18446744073709551615 -",
    ),
    (
        9,
        A1,
        Told::Took(
            Kind::Data,
            Outcome::Refused(Reason::Replayed(7)),
            b"\x88\x41\x11",
            false,
        ),
        b"9 a1 took data refused.replayed.7 884111 - -",
    ),
    (
        10,
        A1,
        Told::Took(
            Kind::Unread,
            Outcome::Refused(Reason::Malformed(Malformed::Air(MalformedFrame::Short(0)))),
            b"",
            false,
        ),
        b"10 a1 took unread refused.malformed.1.0.1 - - -",
    ),
    (
        10,
        A1,
        Told::Took(
            Kind::Eapol,
            Outcome::Refused(Reason::Malformed(Malformed::Key(FrameFault {
                place: 97,
                kind: KeyFault::KeyDataLength,
            }))),
            b"\x08\x01\x3b",
            false,
        ),
        b"10 a1 took eapol refused.malformed.2.97.5 08013b - -",
    ),
    (
        10,
        A1,
        Told::GaveUp(S1, Message::G1),
        b"10 a1 gave-up g1 s1",
    ),
    (
        10,
        A1,
        Told::Closed(S1, Part::Session),
        b"10 a1 closed s1 session",
    ),
    (
        11,
        LAST,
        Told::Idle(Why::RekeyPending),
        b"11 s65536 idle rekey-pending",
    ),
];

static ROAM: [(u64, Node, Told, &[u8]); 16] = [
    (
        12,
        A1,
        Told::Put(PutAnswer::HeldAlready),
        b"12 a1 put 72306b682d31 55555555555555555555555555555555 s1 held-already -",
    ),
    (
        13,
        S1,
        Told::Opened(A2, Start::Roam),
        b"13 s1 opened a2 roam",
    ),
    (
        13,
        S1,
        Told::Sent(9, A2, Kind::FtReq, b"\xb0\x00\x01", false),
        b"13 s1 sent 9 a2 ft-req b00001 - -",
    ),
    (
        14,
        A2,
        Told::Took(Kind::FtReq, Outcome::Accepted, b"\xb0\x00\x01", false),
        b"14 a2 took ft-req accepted b00001 - -",
    ),
    (
        14,
        A2,
        Told::Looked(true),
        b"14 a2 looked 72306b682d31 55555555555555555555555555555555 s1 found 6666666666666666666666666666666666666666666666666666666666666666",
    ),
    (
        14,
        A2,
        Told::Derived(true),
        b"14 a2 derived ft-psk abababababababababababababababababababababababababababababababab 686f6d65 a1b2 72306b682d31 020000000002 020000000101 3333333333333333333333333333333333333333333333333333333333333333 4444444444444444444444444444444444444444444444444444444444444444 c1c1c1c1c1c1c1c1c1c1c1c1c1c1c1c1c2c2c2c2c2c2c2c2c2c2c2c2c2c2c2c2c3c3c3c3c3c3c3c3c3c3c3c3c3c3c3c3",
    ),
    (
        14,
        A2,
        Told::Sent(10, S1, Kind::FtResp, b"\xb0\x00\x02", false),
        b"14 a2 sent 10 s1 ft-resp b00002 - -",
    ),
    (
        15,
        S1,
        Told::Sent(11, A2, Kind::ReReq, b"\x20\x00", true),
        b"15 s1 sent 11 a2 re-req 2000 012000 c1c1c1c1c1c1c1c1c1c1c1c1c1c1c1c1",
    ),
    (
        16,
        A2,
        Told::Installed(Peer::One(S1), Which::Pairwise(true)),
        b"16 a2 installed s1 ptk c3c3c3c3c3c3c3c3c3c3c3c3c3c3c3c3 0 ft-psk abababababababababababababababababababababababababababababababab 686f6d65 a1b2 72306b682d31 020000000002 020000000101 3333333333333333333333333333333333333333333333333333333333333333 4444444444444444444444444444444444444444444444444444444444444444",
    ),
    (
        16,
        A2,
        Told::Finished(S1, true),
        b"16 a2 finished s1 ft-psk abababababababababababababababababababababababababababababababab 686f6d65 a1b2 72306b682d31 020000000002 020000000101 3333333333333333333333333333333333333333333333333333333333333333 4444444444444444444444444444444444444444444444444444444444444444",
    ),
    (
        17,
        S1,
        Told::Took(
            Kind::ReResp,
            Outcome::Refused(Reason::Status(55)),
            b"\x30\x00",
            true,
        ),
        b"17 s1 took re-resp refused.status.55 3000 013000 c1c1c1c1c1c1c1c1c1c1c1c1c1c1c1c1",
    ),
    (
        17,
        S1,
        Told::Resumed(A2, Which::Group(AA)),
        b"17 s1 resumed a2 gtk d4d4d4d4d4d4d4d4d4d4d4d4d4d4d4d4 1 020000000001",
    ),
    (
        18,
        A1,
        Told::Looked(false),
        b"18 a1 looked 72306b682d31 55555555555555555555555555555555 s1 no-holder -",
    ),
    (
        18,
        A1,
        Told::Revoked(RevokeAnswer::Absent),
        b"18 a1 revoked 72306b682d31 55555555555555555555555555555555 s1 absent -",
    ),
    (
        19,
        A1,
        Told::Secret([0xef; 32]),
        b"19 a1 secret s1 efefefefefefefefefefefefefefefefefefefefefefefefefefefefefefefef",
    ),
    (
        19,
        A1,
        Told::Revoked(RevokeAnswer::Revoked),
        b"19 a1 revoked 72306b682d31 55555555555555555555555555555555 s1 revoked -",
    ),
];

static PROTECTED_FRAMES: [(u64, Node, Told, &[u8]); 6] = [
    (
        0,
        A1,
        Told::Drew(Drawn::Group(GroupKind::Igtk, IGTK)),
        b"0 a1 drew e5e5e5e5e5e5e5e5e5e5e5e5e5e5e5e5 igtk",
    ),
    (
        0,
        A1,
        Told::Installed(Peer::All, Which::Integrity(AA)),
        b"0 a1 installed all igtk e5e5e5e5e5e5e5e5e5e5e5e5e5e5e5e5 4 020000000001",
    ),
    (
        20,
        S1,
        Told::Took(
            Kind::Key(Message::M3),
            Outcome::Refused(Reason::KeyData(KeyDataFault::Igtk)),
            b"\x08\x02",
            false,
        ),
        b"20 s1 took m3 refused.key-data.6 0802 - -",
    ),
    (
        20,
        S1,
        Told::Took(
            Kind::Key(Message::M3),
            Outcome::Refused(Reason::KeyData(KeyDataFault::Gtk)),
            b"\x08\x02",
            false,
        ),
        b"20 s1 took m3 refused.key-data.5 0802 - -",
    ),
    (
        21,
        S1,
        Told::Took(
            Kind::Action,
            Outcome::Refused(Reason::Seal),
            b"\xd0\x00",
            false,
        ),
        b"21 s1 took action refused.seal d000 - -",
    ),
    (
        21,
        S1,
        Told::Resumed(A1, Which::Integrity(AA)),
        b"21 s1 resumed a1 igtk e5e5e5e5e5e5e5e5e5e5e5e5e5e5e5e5 4 020000000001",
    ),
];

// Lines of no entry: a fault in each, which its comment names.
static NO_LINES: [&[u8]; 25] = [
    b"",
    // a leading zero
    b"01 s1 opened a1 connect",
    // an end
    b"1 s1 opened a1 connect ",
    b"1 s1 opened a1 connect\r",
    // two spaces
    b"1 s1  opened a1 connect",
    // a field left out, and one too many
    b"1 s1 opened a1",
    b"1 s1 opened a1 connect a1",
    // the words of another kind
    b"1 s1 closed a1 connect",
    b"1 s1 open a1 connect",
    b"1 s1 drew d4d4d4d4d4d4d4d4d4d4d4d4d4d4d4d4 ptk",
    // letters of another case
    b"1 s1 drew D4d4d4d4d4d4d4d4d4d4d4d4d4d4d4d4 gtk",
    b"1 s1 drew d4d4d4d4d4d4d4d4d4d4d4d4d4d4d4D4 gtk",
    // octets too few
    b"1 s1 secret s1 efefefefefefefefefefefefefefefefefefefefefefefefefefefefefef",
    b"1 s1 drew d4d4d4d4d4d4d4d4d4d4d4d4d4d4d4 gtk",
    // an R0KH-ID of 49 octets
    b"1 a1 revoked 61616161616161616161616161616161616161616161616161616161616161616161616161616161616161616161616161 55555555555555555555555555555555 s1 absent -",
    // no such node
    b"1 s0 opened a1 connect",
    b"1 s65537 opened a1 connect",
    b"1 s1 opened all connect",
    // numbers past their type
    b"18446744073709551616 s1 opened a1 connect",
    b"1 a1 installed all gtk d4d4d4d4d4d4d4d4d4d4d4d4d4d4d4d4 256 020000000001",
    b"1 a1 handed s1 d4d4d4d4d4d4d4d4d4d4d4d4d4d4d4d4 0 16 1 -",
    // no outcome of a frame, and no answer of a holder
    b"1 a1 took m4 done - - -",
    b"1 a1 took m4 refused.malformed.1.0.3 - - -",
    b"1 a1 put - 55555555555555555555555555555555 s1 no-memory -",
    // a seal without its key
    b"1 a1 took m4 accepted - 01 -",
];

fn octets_of(rt: &impl Abort, alloc: Global, octets: &[u8]) -> Octets {
    Octets(Vec::from_slice(alloc, octets).expect(rt, "memory"))
}

fn seal_of(rt: &impl Abort, alloc: Global, octets: &[u8], sealed: bool) -> Option<BoxedSeal> {
    if !sealed {
        return None;
    }
    let mut covered = Vec::from_slice(alloc, &[1]).expect(rt, "memory");
    covered.extend_from_slice(octets).expect(rt, "memory");
    let octets = Octets(covered);
    let seal = BoxedSeal::new(alloc, Seal { octets, key: KCK });
    Some(seal.expect(rt, "memory"))
}

fn inputs_of(rt: &impl Abort, alloc: Global, roam: bool) -> SharedInputs {
    let r0kh_id: &[u8] = if roam { b"r0kh-1" } else { b"" };
    let inputs = Inputs {
        akm: if roam { Akm::FtPsk } else { Akm::Psk },
        psk: [0xab; 32],
        ssid: octets_of(rt, alloc, b"home"),
        mdid: if roam { [0xa1, 0xb2] } else { [0, 0] },
        r0kh_id: octets_of(rt, alloc, r0kh_id),
        aa: if roam { AA2 } else { AA },
        spa: SPA,
        anonce: if roam { [0x33; 32] } else { ANONCE },
        snonce: if roam { [0x44; 32] } else { SNONCE },
    };
    SharedInputs::of(BoxedInputs::new(alloc, inputs).expect(rt, "memory"))
}

fn key_of(rt: &impl Abort, alloc: Global, which: Which) -> Key {
    match which {
        Which::Pairwise(roam) => Key::Pairwise {
            tk: TK,
            inputs: inputs_of(rt, alloc, roam),
        },
        Which::Group(bssid) => Key::Group {
            kind: GroupKind::Gtk,
            key: GTK,
            id: 1,
            bssid,
        },
        Which::Integrity(bssid) => Key::Group {
            kind: GroupKind::Igtk,
            key: IGTK,
            id: 4,
            bssid,
        },
    }
}

fn frame_of(rt: &impl Abort, alloc: Global, told: Told) -> Act {
    match told {
        Told::Sent(_, peer, kind, octets, sealed) => Act::Sent {
            peer: Peer::One(peer),
            kind,
            octets: octets_of(rt, alloc, octets),
            seal: seal_of(rt, alloc, octets, sealed),
        },
        Told::Took(kind, outcome, octets, sealed) => Act::Took {
            from: Some(A1),
            octets: octets_of(rt, alloc, octets),
            kind,
            outcome,
            seal: seal_of(rt, alloc, octets, sealed),
        },
        Told::Used(peer, key, id, number, octets) => Act::Used {
            peer,
            key,
            id,
            number,
            octets: octets_of(rt, alloc, octets),
        },
        Told::HandedUp(peer, key, id, tid, number, octets) => Act::HandedUp {
            peer,
            key,
            id,
            tid: Tid::new(tid).expect(rt, "a traffic identifier"),
            number,
            octets: octets_of(rt, alloc, octets),
        },
        _ => Act::Idle { why: Why::Nothing },
    }
}

fn asked_of(rt: &impl Abort, alloc: Global, told: Told) -> Act {
    let found = PullAnswer::Found(PmkR1 {
        key: [0x66; 32],
        name: [0x77; 16],
    });
    match told {
        Told::Put(answer) => Act::Put {
            r0kh_id: octets_of(rt, alloc, b"r0kh-1"),
            name: PMK_R0_NAME,
            sta: S1,
            answer,
        },
        Told::Looked(is_found) => Act::Looked {
            r0kh_id: octets_of(rt, alloc, b"r0kh-1"),
            name: PMK_R0_NAME,
            sta: S1,
            answer: if is_found {
                found
            } else {
                PullAnswer::NoHolder
            },
        },
        Told::Revoked(answer) => Act::Revoked {
            r0kh_id: ShortOctets::of(b"r0kh-1"),
            name: PMK_R0_NAME,
            sta: S1,
            answer,
        },
        _ => Act::Idle { why: Why::Nothing },
    }
}

fn act_of(rt: &impl Abort, alloc: Global, told: Told) -> Act {
    match told {
        Told::Opened(peer, start) => Act::Opened { peer, start },
        Told::Closed(peer, part) => Act::Closed { peer, part },
        Told::Drew(value) => Act::Drew { value },
        Told::Derived(roam) => Act::Derived {
            peer: A2,
            inputs: inputs_of(rt, alloc, roam),
            ptk: Ptk {
                kck: KCK,
                kek: KEK,
                tk: TK,
            },
        },
        Told::Installed(peer, which) => Act::Installed {
            peer,
            key: key_of(rt, alloc, which),
        },
        Told::Resumed(peer, which) => Act::Resumed {
            peer,
            key: key_of(rt, alloc, which),
        },
        Told::Finished(peer, roam) => Act::Finished {
            peer,
            inputs: inputs_of(rt, alloc, roam),
        },
        Told::Secret(psk) => Act::Secret { sta: S1, psk },
        Told::GaveUp(peer, message) => Act::GaveUp { peer, message },
        Told::Idle(why) => Act::Idle { why },
        Told::Put(_) | Told::Looked(_) | Told::Revoked(_) => asked_of(rt, alloc, told),
        _ => frame_of(rt, alloc, told),
    }
}

fn number_of(told: Told) -> u64 {
    match told {
        Told::Sent(number, ..) => number,
        _ => 0,
    }
}

// Whether that line is written of the entry.
fn is_written(entry: &Entry, line: &[u8]) -> bool {
    let mut out = [0; 2048];
    match entry_room(entry) {
        Some(room) if room <= out.len() => {
            let count = write_entry(entry, &mut out);
            line == &out[..count]
        }
        _ => false,
    }
}

// Whether an entry is read of the line, whose line it is.
fn is_read(alloc: Global, line: &[u8]) -> bool {
    match read_entry(alloc, line) {
        Ok(Some(entry)) => is_written(&entry, line),
        _ => false,
    }
}

fn is_told(rt: &impl Abort, row: &(u64, Node, Told, &[u8]), alloc: Global) -> bool {
    let (round, node, told, line) = *row;
    let entry = Entry {
        round,
        node,
        number: number_of(told),
        act: act_of(rt, alloc, told),
    };
    is_written(&entry, line) && is_read(alloc, line)
}

#[test]
fn lines_of_a_first_handshake_are_told(rt: HostRuntime) {
    for row in &FIRST_HANDSHAKE {
        assert!(rt; is_told(&rt, row, rt.alloc()), "{:?}", row.3);
    }
}

#[test]
fn lines_of_a_roam_are_told(rt: HostRuntime) {
    for row in &ROAM {
        assert!(rt; is_told(&rt, row, rt.alloc()), "{:?}", row.3);
    }
}

#[test]
fn lines_of_protected_frames_are_told(rt: HostRuntime) {
    for row in &PROTECTED_FRAMES {
        assert!(rt; is_told(&rt, row, rt.alloc()), "{:?}", row.3);
    }
}

fn is_no_line(alloc: Global, line: &[u8]) -> bool {
    matches!(read_entry(alloc, line), Ok(None))
}

#[test]
fn lines_of_no_entry_are_refused(rt: HostRuntime) {
    for line in &NO_LINES {
        assert!(rt; is_no_line(rt.alloc(), line), "{line:?}");
    }
}
