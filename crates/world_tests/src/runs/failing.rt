//! Runs in each of which one call of what is handed in fails.

use super::cases::{
    Calls, FRAME, HANDSHAKE, HANDSHAKE_REPORT, LIVE, NEVER, NODES, NONE, REPLAY, Script, VERSION,
};
use domain_cli::Status;

/// Whose call fails.
#[derive(Clone, Copy)]
pub(crate) enum Object {
    /// The source.
    Source,
    /// The air: it attaches no node.
    Air,
    /// The link of the access point, or that of the station: it sends nothing, or gives nothing.
    Link(usize),
    /// The draws.
    Draws,
}

impl Object {
    /// Its call of that number fails, from 0, and no other one; and how the run then ends.
    pub(crate) fn failing(self, number: u64) -> (Calls, Status) {
        let mut calls = NONE;
        let status = match self {
            Object::Source => {
                calls.reads = number;
                Status::ReadFault
            }
            Object::Air => {
                calls.attach = number;
                Status::LinkFault
            }
            Object::Link(0) => {
                calls.links = [number, NEVER];
                Status::LinkFault
            }
            Object::Link(_) => {
                calls.links = [NEVER, number];
                Status::LinkFault
            }
            Object::Draws => {
                calls.draws = number;
                Status::DrawFault
            }
        };
        (calls, status)
    }
}

/// A script, and each of its runs in which one call fails.
pub(crate) struct Failing {
    /// What it shows.
    pub(crate) shows: &'static str,
    pub(crate) script: Script,
    /// Whose call fails; for each of its calls in order, how many lines of the report then stand, and
    /// how many links are taken back. No further calls are made.
    pub(crate) ends: &'static [(Object, &'static [(usize, usize)])],
    /// For each call of the sink in order, but that of the lines that sum up: how many lines of the
    /// report stand before it, and after how many the journal ends where it fails.
    pub(crate) writes: &'static [(usize, usize)],
    /// The last call of the source.
    pub(crate) last_read: u64,
    /// The whole report, how many lines it has but for those that sum up, and the links taken back.
    pub(crate) report: &'static str,
    pub(crate) lines: usize,
    pub(crate) links: usize,
}

const NODES_REPORT: &str = "install a1 all gtk 1
end frames 0 accepted 0 answered 0 refused 0 ignored 0
keys installed 1 resumed 0 used 0 handed-up 0
premises fresh yes no-collision yes unforged yes
";

const TURN_REPORT: &str = "install a1 all gtk 1
took a1 ignored ignored
end frames 0 accepted 0 answered 0 refused 0 ignored 1
keys installed 1 resumed 0 used 0 handed-up 0
premises fresh yes no-collision yes unforged yes
";

const CONNECT_REPORT: &str = "install a1 all gtk 1
open s1 a1 connect
sent 1 s1 a1 assoc-req 62
took a1 ignored ignored
end frames 1 accepted 0 answered 0 refused 0 ignored 1
keys installed 1 resumed 0 used 0 handed-up 0
premises fresh yes no-collision yes unforged yes
";

/// Nodes alone, a handshake, and live runs in which one frame comes to the access point.
pub(crate) static FAILING: [Failing; 5] = [
    Failing {
        shows: "nodes alone",
        script: Script {
            words: REPLAY,
            front: NODES,
            lines: "",
            frames: [&[], &[]],
        },
        ends: &[
            (Object::Source, &[(0, 0), (1, 0)]),
            (Object::Air, &[]),
            (Object::Link(0), &[]),
            (Object::Link(1), &[]),
            (Object::Draws, &[]),
        ],
        writes: &[(0, 1)],
        last_read: 1,
        report: NODES_REPORT,
        lines: 1,
        links: 0,
    },
    Failing {
        shows: "a handshake",
        script: Script {
            words: REPLAY,
            front: NODES,
            lines: HANDSHAKE,
            frames: [&[], &[]],
        },
        ends: &[
            (Object::Source, &[(0, 0), (8, 0), (20, 0)]),
            (Object::Air, &[]),
            (Object::Link(0), &[]),
            (Object::Link(1), &[]),
            (Object::Draws, &[]),
        ],
        writes: &[
            (0, 3),
            (3, 7),
            (7, 8),
            (8, 10),
            (10, 12),
            (12, 17),
            (17, 20),
        ],
        last_read: 2,
        report: HANDSHAKE_REPORT,
        lines: 20,
        links: 0,
    },
    Failing {
        shows: "a turn",
        script: Script {
            words: LIVE,
            front: NODES,
            lines: "turn
",
            frames: [&[FRAME], &[]],
        },
        ends: &[
            (Object::Source, &[(0, 0), (2, 2)]),
            (Object::Air, &[(1, 0), (1, 1)]),
            (Object::Link(0), &[(1, 2), (2, 2)]),
            (Object::Link(1), &[(2, 2)]),
            (Object::Draws, &[]),
        ],
        writes: &[(0, 2)],
        last_read: 1,
        report: TURN_REPORT,
        lines: 2,
        links: 2,
    },
    Failing {
        shows: "a frame sent, and a turn",
        script: Script {
            words: LIVE,
            front: NODES,
            lines: "connect s1 a1
turn
",
            frames: [&[FRAME], &[]],
        },
        ends: &[
            (Object::Source, &[(0, 0), (4, 2)]),
            (Object::Air, &[(1, 0), (1, 1)]),
            (Object::Link(0), &[(3, 2), (4, 2)]),
            (Object::Link(1), &[(3, 2), (4, 2)]),
            (Object::Draws, &[]),
        ],
        writes: &[(0, 3), (3, 4)],
        last_read: 1,
        report: CONNECT_REPORT,
        lines: 4,
        links: 2,
    },
    Failing {
        shows: "a seed that is drawn, and a turn",
        script: Script {
            words: LIVE,
            front: VERSION,
            lines: "seed draw
ssid IEEE
psk f42c6fc52df0ebef9ebb4b90b38a5f902e83fe1b135a70e23aed762e9710a12e
akm psk
ap 020000000001 r0kh-1
sta 020000000011
turn
",
            frames: [&[FRAME], &[]],
        },
        ends: &[
            (Object::Source, &[(0, 0), (2, 2)]),
            (Object::Air, &[(1, 0), (1, 1)]),
            (Object::Link(0), &[(1, 2), (2, 2)]),
            (Object::Link(1), &[(2, 2)]),
            (Object::Draws, &[(0, 0)]),
        ],
        writes: &[(0, 2)],
        last_read: 1,
        report: TURN_REPORT,
        lines: 2,
        links: 2,
    },
];
