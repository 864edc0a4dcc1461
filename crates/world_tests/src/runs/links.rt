//! Runs of one end of a link between two processes, with octets that Python's `cryptography` made.

use super::cases::{ALL, Calls, Case, NEVER, NONE, Script};
use domain_base::Node;
use domain_cli::Status;
use frame_script::{Cause, Form, Mistake};

pub(crate) const ASKER: &[&str] = &["link", "20000", "asker"];

pub(crate) const HOLDER: &[&str] = &["link", "20000", "holder"];

/// The header of both ends.
pub(crate) const HEADER: &str = "link 1
key 404142434445464748494a4b4c4d4e4f505152535455565758595a5b5c5d5e5f
seed 000102030405060708090a0b0c0d0e0f101112131415161718191a1b1c1d1e1f
ssid IEEE
psk f42c6fc52df0ebef9ebb4b90b38a5f902e83fe1b135a70e23aed762e9710a12e
mdid a1b2
holder r0kh-1
";

/// The question for the key of 02:00:00:00:00:11 for the R1 key holder 02:00:00:00:00:02.
pub(crate) const ASK: &[u8] = &[
    0x01, 0x6a, 0xd2, 0xe3, 0x98, 0x47, 0xcf, 0x5d, 0xe3, 0xa9, 0xe1, 0xe2, 0x40, 0xad, 0xdc, 0x1b,
    0xff, 0x06, 0x72, 0x30, 0x6b, 0x68, 0x2d, 0x31, 0x7e, 0x45, 0xb7, 0x54, 0xc0, 0x98, 0x12, 0x2c,
    0x02, 0xd3, 0xa8, 0xfa, 0xe5, 0xff, 0x53, 0xcc, 0x02, 0x00, 0x00, 0x00, 0x00, 0x02, 0x02, 0x00,
    0x00, 0x00, 0x00, 0x11, 0x9d, 0x66, 0x47, 0xc5, 0xff, 0x75, 0xe8, 0xf0, 0xd1, 0x64, 0x42, 0x21,
    0x6b, 0xdc, 0x46, 0x76,
];

/// The answer to it: the key was found.
pub(crate) const FOUND: &[u8] = &[
    0x02, 0x6a, 0xd2, 0xe3, 0x98, 0x47, 0xcf, 0x5d, 0xe3, 0xa9, 0xe1, 0xe2, 0x40, 0xad, 0xdc, 0x1b,
    0xff, 0x00, 0x49, 0x92, 0x48, 0x8d, 0x27, 0xe2, 0x38, 0x9c, 0x10, 0x0c, 0x92, 0x32, 0x16, 0xd7,
    0x40, 0xe9, 0x2c, 0x35, 0xde, 0xd0, 0x21, 0x2a, 0x32, 0xb5, 0x77, 0xdc, 0xa9, 0xed, 0xc9, 0xe3,
    0x2b, 0xd0, 0x12, 0x93, 0xac, 0x67, 0x80, 0xb4, 0x95, 0xb8, 0x27, 0xfe, 0xcf, 0xb8, 0xdc, 0x41,
    0x5c, 0x3f, 0x5c, 0x6c, 0x69, 0x1d, 0x4e, 0x15, 0x98, 0xe4,
];

/// The answer where there is no such row.
pub(crate) const ABSENT: &[u8] = &[
    0x02, 0x6a, 0xd2, 0xe3, 0x98, 0x47, 0xcf, 0x5d, 0xe3, 0xa9, 0xe1, 0xe2, 0x40, 0xad, 0xdc, 0x1b,
    0xff, 0x02, 0x96, 0x35, 0xc3, 0xe0, 0x47, 0xc6, 0x7b, 0x92, 0x4f, 0xf6, 0x4a, 0x20, 0x79, 0x9c,
    0x5c, 0x21,
];

// The key was found, but the last octet is another one.
const CHANGED: &[u8] = &[
    0x02, 0x6a, 0xd2, 0xe3, 0x98, 0x47, 0xcf, 0x5d, 0xe3, 0xa9, 0xe1, 0xe2, 0x40, 0xad, 0xdc, 0x1b,
    0xff, 0x00, 0x49, 0x92, 0x48, 0x8d, 0x27, 0xe2, 0x38, 0x9c, 0x10, 0x0c, 0x92, 0x32, 0x16, 0xd7,
    0x40, 0xe9, 0x2c, 0x35, 0xde, 0xd0, 0x21, 0x2a, 0x32, 0xb5, 0x77, 0xdc, 0xa9, 0xed, 0xc9, 0xe3,
    0x2b, 0xd0, 0x12, 0x93, 0xac, 0x67, 0x80, 0xb4, 0x95, 0xb8, 0x27, 0xfe, 0xcf, 0xb8, 0xdc, 0x41,
    0x5c, 0x3f, 0x5c, 0x6c, 0x69, 0x1d, 0x4e, 0x15, 0x98, 0xe5,
];

// The first ten octets of it.
const CUT: &[u8] = &[0x02, 0x6a, 0xd2, 0xe3, 0x98, 0x47, 0xcf, 0x5d, 0xe3, 0xa9];

/// The answer of a holder that has another R0KH-ID.
pub(crate) const NO_HOLDER: &[u8] = &[
    0x02, 0x6a, 0xd2, 0xe3, 0x98, 0x47, 0xcf, 0x5d, 0xe3, 0xa9, 0xe1, 0xe2, 0x40, 0xad, 0xdc, 0x1b,
    0xff, 0x01, 0x27, 0x30, 0x3d, 0xa7, 0x26, 0x75, 0x09, 0xe3, 0x66, 0x9d, 0xfd, 0x1a, 0xe9, 0x59,
    0x17, 0x78,
];

/// The question with a seed of 32 octets of 7.
pub(crate) const DRAWN_ASK: &[u8] = &[
    0x01, 0x05, 0xa3, 0x09, 0xdb, 0x6f, 0xa0, 0xfb, 0x74, 0xe4, 0x91, 0x13, 0xf1, 0xe8, 0x8c, 0xfa,
    0x03, 0x06, 0x72, 0x30, 0x6b, 0x68, 0x2d, 0x31, 0x7e, 0x45, 0xb7, 0x54, 0xc0, 0x98, 0x12, 0x2c,
    0x02, 0xd3, 0xa8, 0xfa, 0xe5, 0xff, 0x53, 0xcc, 0x02, 0x00, 0x00, 0x00, 0x00, 0x02, 0x02, 0x00,
    0x00, 0x00, 0x00, 0x11, 0xfc, 0x2d, 0xfa, 0x84, 0xb6, 0x47, 0x11, 0xd8, 0x2e, 0xfd, 0x33, 0x51,
    0xa7, 0xe8, 0xf5, 0x28,
];

// The question, but the last octet is another one.
const CHANGED_ASK: &[u8] = &[
    0x01, 0x6a, 0xd2, 0xe3, 0x98, 0x47, 0xcf, 0x5d, 0xe3, 0xa9, 0xe1, 0xe2, 0x40, 0xad, 0xdc, 0x1b,
    0xff, 0x06, 0x72, 0x30, 0x6b, 0x68, 0x2d, 0x31, 0x7e, 0x45, 0xb7, 0x54, 0xc0, 0x98, 0x12, 0x2c,
    0x02, 0xd3, 0xa8, 0xfa, 0xe5, 0xff, 0x53, 0xcc, 0x02, 0x00, 0x00, 0x00, 0x00, 0x02, 0x02, 0x00,
    0x00, 0x00, 0x00, 0x11, 0x9d, 0x66, 0x47, 0xc5, 0xff, 0x75, 0xe8, 0xf0, 0xd1, 0x64, 0x42, 0x21,
    0x6b, 0xdc, 0x46, 0x77,
];

// An answer in place of it whose CMAC is right, with zeros where the key is wrapped.
const UNWRAPPED: &[u8] = &[
    0x02, 0x6a, 0xd2, 0xe3, 0x98, 0x47, 0xcf, 0x5d, 0xe3, 0xa9, 0xe1, 0xe2, 0x40, 0xad, 0xdc, 0x1b,
    0xff, 0x00, 0x00, 0x00, 0x00, 0x00, 0x00, 0x00, 0x00, 0x00, 0x00, 0x00, 0x00, 0x00, 0x00, 0x00,
    0x00, 0x00, 0x00, 0x00, 0x00, 0x00, 0x00, 0x00, 0x00, 0x00, 0x00, 0x00, 0x00, 0x00, 0x00, 0x00,
    0x00, 0x00, 0x00, 0x00, 0x00, 0x00, 0x00, 0x00, 0x00, 0x00, 0x2f, 0x5d, 0x32, 0xfe, 0x5f, 0x85,
    0x4e, 0x8e, 0xef, 0x0f, 0x9d, 0x0e, 0x61, 0x83, 0x4e, 0x2f,
];

/// The place of a run in which a question is asked; of one in which it is answered with a key; of one
/// at another holder; and of one whose seed is drawn.
pub(crate) const QUESTION: usize = 0;

pub(crate) const HELD: usize = 4;

pub(crate) const ELSEWHERE: usize = 5;

pub(crate) const DRAWN: usize = 6;

/// The runs.
pub(crate) static LINKS: [Case; 24] = [
    Case {
        shows: "a question to which no answer comes",
        script: Script {
            words: ASKER,
            front: HEADER,
            lines: "ask 020000000011 020000000002
turn
",
            frames: [&[], &[]],
        },
        calls: NONE,
        turns: 0,
        passes: [0, 0, 0],
        status: Status::Done,
        report: (
            "ask a2 0 68
",
            ALL,
        ),
        sent: &[&[(Node::Ap(0), 68)]],
    },
    Case {
        shows: "a holder to which nothing comes",
        script: Script {
            words: HOLDER,
            front: HEADER,
            lines: "turn
",
            frames: [&[], &[]],
        },
        calls: NONE,
        turns: 0,
        passes: [0, 0, 0],
        status: Status::Done,
        report: ("", ALL),
        sent: &[&[]],
    },
    Case {
        shows: "an answer that comes twice, and is learnt once",
        script: Script {
            words: ASKER,
            front: HEADER,
            lines: "ask 020000000011 020000000002
turn
",
            frames: [&[], &[FOUND, FOUND]],
        },
        calls: NONE,
        turns: 0,
        passes: [0, 0, 0],
        status: Status::Done,
        report: (
            "ask a2 0 68
learn a2 0 found
link-refused a2 unasked
",
            ALL,
        ),
        sent: &[&[(Node::Ap(0), 68)]],
    },
    Case {
        shows: "a changed answer, a part of it, and a true one, after which the question is closed",
        script: Script {
            words: ASKER,
            front: HEADER,
            lines: "ask 020000000011 020000000002
turn
",
            frames: [&[], &[CHANGED, CUT, ABSENT, ASK, FOUND]],
        },
        calls: NONE,
        turns: 0,
        passes: [0, 0, 0],
        status: Status::Done,
        report: (
            "ask a2 0 68
link-refused a2 mac
link-refused a2 form 10
learn a2 0 absent
link-refused a2 form 0
link-refused a2 unasked
",
            ALL,
        ),
        sent: &[&[(Node::Ap(0), 68)]],
    },
    Case {
        shows: "a row that is held, and then revoked, and a turn of 16 questions",
        script: Script {
            words: HOLDER,
            front: HEADER,
            lines: "row 020000000011
turn
revoke 020000000011
revoke 020000000011
turn
",
            frames: [&[ASK; 17], &[]],
        },
        calls: NONE,
        turns: 0,
        passes: [0, 0, 0],
        status: Status::Done,
        report: (
            "told a1 found 74
told a1 found 74
told a1 found 74
told a1 found 74
told a1 found 74
told a1 found 74
told a1 found 74
told a1 found 74
told a1 found 74
told a1 found 74
told a1 found 74
told a1 found 74
told a1 found 74
told a1 found 74
told a1 found 74
told a1 found 74
revoke a1 020000000011 revoked
revoke a1 020000000011 absent
told a1 absent 34
",
            ALL,
        ),
        sent: &[&[
            (Node::Ap(1), 74),
            (Node::Ap(1), 74),
            (Node::Ap(1), 74),
            (Node::Ap(1), 74),
            (Node::Ap(1), 74),
            (Node::Ap(1), 74),
            (Node::Ap(1), 74),
            (Node::Ap(1), 74),
            (Node::Ap(1), 74),
            (Node::Ap(1), 74),
            (Node::Ap(1), 74),
            (Node::Ap(1), 74),
            (Node::Ap(1), 74),
            (Node::Ap(1), 74),
            (Node::Ap(1), 74),
            (Node::Ap(1), 74),
            (Node::Ap(1), 34),
        ]],
    },
    Case {
        shows: "a question at a holder that has another R0KH-ID",
        script: Script {
            words: HOLDER,
            front: "link 1
key 404142434445464748494a4b4c4d4e4f505152535455565758595a5b5c5d5e5f
seed 000102030405060708090a0b0c0d0e0f101112131415161718191a1b1c1d1e1f
ssid IEEE
psk f42c6fc52df0ebef9ebb4b90b38a5f902e83fe1b135a70e23aed762e9710a12e
mdid a1b2
holder r0kh-2
",
            lines: "row 020000000011
turn
",
            frames: [&[ASK], &[]],
        },
        calls: NONE,
        turns: 0,
        passes: [0, 0, 0],
        status: Status::Done,
        report: (
            "told a1 no-holder 34
",
            ALL,
        ),
        sent: &[&[(Node::Ap(1), 34)]],
    },
    Case {
        shows: "a question whose nonce comes from a seed that is drawn",
        script: Script {
            words: ASKER,
            front: "link 1
key 404142434445464748494a4b4c4d4e4f505152535455565758595a5b5c5d5e5f
seed draw
ssid IEEE
psk f42c6fc52df0ebef9ebb4b90b38a5f902e83fe1b135a70e23aed762e9710a12e
mdid a1b2
holder r0kh-1
",
            lines: "ask 020000000011 020000000002
",
            frames: [&[], &[]],
        },
        calls: NONE,
        turns: 0,
        passes: [0, 0, 0],
        status: Status::Done,
        report: (
            "ask a2 0 68
",
            ALL,
        ),
        sent: &[&[(Node::Ap(0), 68)]],
    },
    Case {
        shows: "an answer that wraps no key, and a true one after it",
        script: Script {
            words: ASKER,
            front: HEADER,
            lines: "ask 020000000011 020000000002
turn
",
            frames: [&[], &[UNWRAPPED, FOUND]],
        },
        calls: NONE,
        turns: 0,
        passes: [0, 0, 0],
        status: Status::Done,
        report: (
            "ask a2 0 68
link-refused a2 wrap
learn a2 0 found
",
            ALL,
        ),
        sent: &[&[(Node::Ap(0), 68)]],
    },
    Case {
        shows: "a changed question, which is not answered",
        script: Script {
            words: HOLDER,
            front: HEADER,
            lines: "row 020000000011
turn
",
            frames: [&[CHANGED_ASK], &[]],
        },
        calls: NONE,
        turns: 0,
        passes: [0, 0, 0],
        status: Status::Done,
        report: (
            "link-refused a1 mac
",
            ALL,
        ),
        sent: &[&[]],
    },
    Case {
        shows: "an answer that cannot be sent, after which nothing is taken",
        script: Script {
            words: HOLDER,
            front: HEADER,
            lines: "turn
turn
",
            frames: [&[ASK, ASK], &[]],
        },
        calls: Calls {
            links: [1, NEVER],
            ..NONE
        },
        turns: 0,
        passes: [0, 0, 0],
        status: Status::LinkFault,
        report: (
            "told a1 absent 34
",
            ALL,
        ),
        sent: &[&[]],
    },
    Case {
        shows: "a question whose line cannot be written, which is not sent",
        script: Script {
            words: ASKER,
            front: HEADER,
            lines: "ask 020000000011 020000000002
",
            frames: [&[], &[]],
        },
        calls: Calls { writes: 0, ..NONE },
        turns: 0,
        passes: [0, 0, 0],
        status: Status::WriteFault,
        report: ("", ALL),
        sent: &[&[]],
    },
    Case {
        shows: "a question without a row, octets that are none, and an answer",
        script: Script {
            words: HOLDER,
            front: HEADER,
            lines: "turn",
            frames: [&[ASK, FOUND, &[], &[0x01, 0x6a]], &[]],
        },
        calls: NONE,
        turns: 0,
        passes: [0, 0, 0],
        status: Status::Done,
        report: (
            "told a1 absent 34
link-refused a1 form 0
link-refused a1 form 0
link-refused a1 form 2
",
            ALL,
        ),
        sent: &[&[(Node::Ap(1), 34)]],
    },
    Case {
        shows: "a question that is forgotten, and its answer",
        script: Script {
            words: ASKER,
            front: HEADER,
            lines: "ask 020000000011 020000000002
forget 0
forget 0
turn
",
            frames: [&[], &[FOUND]],
        },
        calls: NONE,
        turns: 0,
        passes: [0, 0, 0],
        status: Status::Done,
        report: (
            "ask a2 0 68
idle a2 nothing
link-refused a2 unasked
",
            ALL,
        ),
        sent: &[&[(Node::Ap(0), 68)]],
    },
    Case {
        shows: "a question that was never asked",
        script: Script {
            words: ASKER,
            front: HEADER,
            lines: "ask 020000000011 020000000002
forget 1
turn
",
            frames: [&[], &[FOUND]],
        },
        calls: NONE,
        turns: 0,
        passes: [0, 0, 0],
        status: Status::Script(
            9,
            5,
            Mistake {
                form: Form::Forget,
                word: 2,
                cause: Cause::Asks(1),
            },
        ),
        report: (
            "ask a2 0 68
",
            ALL,
        ),
        sent: &[&[(Node::Ap(0), 68)]],
    },
    Case {
        shows: "a word of the asker at a holder",
        script: Script {
            words: HOLDER,
            front: HEADER,
            lines: "turn
ask 020000000011 020000000002
",
            frames: [&[ASK], &[]],
        },
        calls: NONE,
        turns: 0,
        passes: [0, 0, 0],
        status: Status::Script(
            9,
            2,
            Mistake {
                form: Form::HolderEvent,
                word: 1,
                cause: Cause::OtherEnd,
            },
        ),
        report: (
            "told a1 absent 34
",
            ALL,
        ),
        sent: &[&[(Node::Ap(1), 34)]],
    },
    Case {
        shows: "a word of the holder at an asker",
        script: Script {
            words: ASKER,
            front: HEADER,
            lines: "row 020000000011
",
            frames: [&[], &[]],
        },
        calls: NONE,
        turns: 0,
        passes: [0, 0, 0],
        status: Status::Script(
            8,
            2,
            Mistake {
                form: Form::AskerEvent,
                word: 1,
                cause: Cause::OtherEnd,
            },
        ),
        report: ("", ALL),
        sent: &[&[]],
    },
    Case {
        shows: "a script that is none of a link",
        script: Script {
            words: ASKER,
            front: "domain 1
",
            lines: "",
            frames: [&[], &[]],
        },
        calls: NONE,
        turns: 0,
        passes: [0, 0, 0],
        status: Status::Script(
            1,
            1,
            Mistake {
                form: Form::Link,
                word: 1,
                cause: Cause::Unknown,
            },
        ),
        report: ("", ALL),
        sent: &[],
    },
    Case {
        shows: "a header that is not whole",
        script: Script {
            words: ASKER,
            front: "link 1
key 404142434445464748494a4b4c4d4e4f505152535455565758595a5b5c5d5e5f
",
            lines: "",
            frames: [&[], &[]],
        },
        calls: NONE,
        turns: 0,
        passes: [0, 0, 0],
        status: Status::Done,
        report: ("", ALL),
        sent: &[],
    },
    Case {
        shows: "a link that cannot be attached",
        script: Script {
            words: ASKER,
            front: HEADER,
            lines: "ask 020000000011 020000000002
",
            frames: [&[], &[]],
        },
        calls: Calls { attach: 0, ..NONE },
        turns: 0,
        passes: [0, 0, 0],
        status: Status::LinkFault,
        report: ("", ALL),
        sent: &[],
    },
    Case {
        shows: "a question that cannot be sent",
        script: Script {
            words: ASKER,
            front: HEADER,
            lines: "ask 020000000011 020000000002
ask 020000000011 020000000002
",
            frames: [&[], &[]],
        },
        calls: Calls {
            links: [NEVER, 0],
            ..NONE
        },
        turns: 0,
        passes: [0, 0, 0],
        status: Status::LinkFault,
        report: (
            "ask a2 0 68
",
            ALL,
        ),
        sent: &[&[]],
    },
    Case {
        shows: "an answer that cannot be taken",
        script: Script {
            words: ASKER,
            front: HEADER,
            lines: "ask 020000000011 020000000002
turn
",
            frames: [&[], &[FOUND, FOUND]],
        },
        calls: Calls {
            links: [NEVER, 2],
            ..NONE
        },
        turns: 0,
        passes: [0, 0, 0],
        status: Status::LinkFault,
        report: (
            "ask a2 0 68
learn a2 0 found
",
            ALL,
        ),
        sent: &[&[(Node::Ap(0), 68)]],
    },
    Case {
        shows: "an answer whose line cannot be written, which is not sent",
        script: Script {
            words: HOLDER,
            front: HEADER,
            lines: "turn
",
            frames: [&[ASK, ASK], &[]],
        },
        calls: Calls { writes: 1, ..NONE },
        turns: 0,
        passes: [0, 0, 0],
        status: Status::WriteFault,
        report: (
            "told a1 absent 34
",
            ALL,
        ),
        sent: &[&[(Node::Ap(1), 34)]],
    },
    Case {
        shows: "a source that fails after a question",
        script: Script {
            words: ASKER,
            front: HEADER,
            lines: "ask 020000000011 020000000002
#........................................................................................................................................................................................................................................................................................................................................................................................................................................................................................................................................................................................................................",
            frames: [&[], &[]],
        },
        calls: Calls { reads: 1, ..NONE },
        turns: 0,
        passes: [0, 0, 0],
        status: Status::ReadFault,
        report: (
            "ask a2 0 68
",
            ALL,
        ),
        sent: &[&[(Node::Ap(0), 68)]],
    },
    Case {
        shows: "a seed that cannot be drawn",
        script: Script {
            words: ASKER,
            front: "link 1
key 404142434445464748494a4b4c4d4e4f505152535455565758595a5b5c5d5e5f
seed draw
ssid IEEE
",
            lines: "ask 020000000011 020000000002
",
            frames: [&[], &[]],
        },
        calls: Calls { draws: 0, ..NONE },
        turns: 0,
        passes: [0, 0, 0],
        status: Status::DrawFault,
        report: ("", ALL),
        sent: &[],
    },
];
