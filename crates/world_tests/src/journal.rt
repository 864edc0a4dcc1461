//! Hand-made journals, and which premises of safety hold of them: those that no script breaks.

use domain_base::{Akm, Mac, Node, Octets, Peer};
use key_hierarchy::{BoxedInputs, Inputs, Ptk, SharedInputs};
use run_journal::{
    Act, BoxedSeal, Drawn, Entry, GroupKind, Journal, Kind, Outcome, Premises, Seal,
};
use std::alloc::Global;
use std::process::Abort;

const A1: Node = Node::Ap(0);

const A2: Node = Node::Ap(1);

const S1: Node = Node::Sta(0);

// What an entry does. An octet stands for a whole value made of it.
enum Does {
    Nonce(u8),
    Gtk(u8),
    // The last octets of both addresses and both nonces, KCK and TK.
    Derives(Akm, [u8; 4], u8, u8),
    // What is sealed.
    Sends(u8),
    Takes(u8),
}

use Does::{Derives, Gtk, Nonce, Sends, Takes};

// What is shown, entries of these rounds and nodes, and which premises hold of them: fresh, without
// collision, unforged.
type Case = (
    &'static str,
    &'static [(u64, Node, Does)],
    (bool, bool, bool),
);

const ALL: (bool, bool, bool) = (true, true, true);

const NOT_FRESH: (bool, bool, bool) = (false, true, true);

const COLLISION: (bool, bool, bool) = (true, false, true);

const FORGED: (bool, bool, bool) = (true, true, false);

const CASES: &[Case] = &[
    (
        "a nonce drawn twice",
        &[(1, A1, Nonce(1)), (1, S1, Nonce(2)), (2, S1, Nonce(1))],
        NOT_FRESH,
    ),
    (
        "a group key drawn twice",
        &[(0, A1, Gtk(1)), (0, A2, Gtk(1))],
        NOT_FRESH,
    ),
    (
        "sent after it was taken",
        &[(1, A1, Takes(1)), (1, A1, Sends(1))],
        FORGED,
    ),
    (
        "sent in the same round by another node",
        &[(2, S1, Sends(1)), (2, A1, Takes(1))],
        FORGED,
    ),
    (
        "sent in the same round by the same node",
        &[(2, A1, Sends(1)), (2, A1, Takes(1))],
        ALL,
    ),
    (
        "one KCK of two names",
        &[
            (1, S1, Derives(Akm::Psk, [1, 2, 1, 2], 3, 4)),
            (2, S1, Derives(Akm::Psk, [1, 2, 1, 3], 3, 5)),
        ],
        COLLISION,
    ),
    (
        "one TK of two names",
        &[
            (1, S1, Derives(Akm::Psk, [1, 2, 1, 2], 3, 4)),
            (2, S1, Derives(Akm::Psk, [1, 3, 1, 2], 5, 4)),
        ],
        COLLISION,
    ),
    (
        "one key of two suites",
        &[
            (1, S1, Derives(Akm::Psk, [1, 2, 1, 2], 3, 4)),
            (2, S1, Derives(Akm::PskSha256, [1, 2, 1, 2], 3, 4)),
        ],
        COLLISION,
    ),
    (
        "exchanged roles, SHA-1",
        &[
            (1, S1, Derives(Akm::Psk, [1, 2, 3, 4], 3, 4)),
            (2, S1, Derives(Akm::Psk, [2, 1, 4, 3], 3, 4)),
        ],
        ALL,
    ),
    (
        "exchanged roles, fast transition",
        &[
            (1, S1, Derives(Akm::FtPsk, [1, 2, 3, 4], 3, 4)),
            (2, S1, Derives(Akm::FtPsk, [2, 1, 4, 3], 3, 4)),
        ],
        COLLISION,
    ),
    (
        "a group key that is an earlier TK",
        &[
            (1, S1, Derives(Akm::Psk, [1, 2, 1, 2], 3, 4)),
            (2, A1, Gtk(4)),
        ],
        COLLISION,
    ),
    (
        "a group key that is a KCK",
        &[
            (0, A1, Gtk(3)),
            (1, S1, Derives(Akm::Psk, [1, 2, 1, 2], 3, 4)),
        ],
        ALL,
    ),
];

fn inputs(rt: &impl Abort, alloc: Global, akm: Akm, of: [u8; 4]) -> SharedInputs {
    let [aa, spa, anonce, snonce] = of;
    let inputs = Inputs {
        akm,
        psk: [7; 32],
        ssid: Octets(Vec::new(alloc)),
        mdid: [0, 0],
        r0kh_id: Octets(Vec::new(alloc)),
        aa: Mac([2, 0, 0, 0, 0, aa]),
        spa: Mac([2, 0, 0, 0, 0, spa]),
        anonce: [anonce; 32],
        snonce: [snonce; 32],
    };
    SharedInputs::of(BoxedInputs::new(alloc, inputs).expect(rt, "memory"))
}

fn seal(rt: &impl Abort, alloc: Global, sealed: u8) -> BoxedSeal {
    let octets = Octets(Vec::from_slice(alloc, &[sealed]).expect(rt, "memory"));
    let seal = Seal {
        octets,
        key: [1; 16],
    };
    BoxedSeal::new(alloc, seal).expect(rt, "memory")
}

fn act(rt: &impl Abort, alloc: Global, does: &Does) -> Act {
    match *does {
        Nonce(octet) => Act::Drew {
            value: Drawn::Nonce([octet; 32]),
        },
        Gtk(octet) => Act::Drew {
            value: Drawn::Group(GroupKind::Gtk, [octet; 16]),
        },
        Derives(akm, of, kck, tk) => Act::Derived {
            peer: A1,
            inputs: inputs(rt, alloc, akm, of),
            ptk: Ptk {
                kck: [kck; 16],
                kek: [0; 16],
                tk: [tk; 16],
            },
        },
        Sends(sealed) => Act::Sent {
            peer: Peer::All,
            kind: Kind::Data,
            octets: Octets(Vec::new(alloc)),
            seal: Some(seal(rt, alloc, sealed)),
        },
        Takes(sealed) => Act::Took {
            from: None,
            octets: Octets(Vec::new(alloc)),
            kind: Kind::Data,
            outcome: Outcome::Accepted,
            seal: Some(seal(rt, alloc, sealed)),
        },
    }
}

fn push(rt: &impl Abort, alloc: Global, journal: &mut Journal, of: &(u64, Node, Does)) {
    let (round, node, does) = of;
    let entry = Entry {
        round: *round,
        node: *node,
        number: 0,
        act: act(rt, alloc, does),
    };
    journal.push(entry).expect(rt, "memory");
}

// The journal of these entries has those premises.
fn is_judged(
    rt: &impl Abort,
    alloc: Global,
    entries: &[(u64, Node, Does)],
    holds: (bool, bool, bool),
) -> bool {
    let mut journal = Journal::new(alloc);
    for of in entries {
        push(rt, alloc, &mut journal, of);
    }
    let Premises {
        fresh,
        no_collision,
        unforged,
    } = journal.premises();
    (fresh, no_collision, unforged) == holds
}

#[test]
fn premises_of_hand_made_journals(rt: HostRuntime) {
    for (shows, entries, holds) in CASES {
        assert!(rt; is_judged(&rt, rt.alloc(), entries, *holds), "{shows}");
    }
}
