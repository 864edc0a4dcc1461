//! Runs of scripts between streams, draws and links in memory.

use domain_base::Node;
use domain_cli::Status;

/// What is run. A live run has one access point and one station.
pub(crate) struct Script {
    /// The words of the command line.
    pub(crate) words: &'static [&'static str],
    /// The front of the script, and the lines after it.
    pub(crate) front: &'static str,
    pub(crate) lines: &'static str,
    /// The frames that come by the link of the access point, and by that of the station.
    pub(crate) frames: [&'static [&'static [u8]]; 2],
}

/// Which calls fail, by their numbers from 0.
#[derive(Clone, Copy)]
pub(crate) struct Calls {
    /// Of the source.
    pub(crate) reads: u64,
    /// The room of the sink, which of its calls fails, and which takes nothing.
    pub(crate) room: usize,
    pub(crate) writes: u64,
    pub(crate) stalls: u64,
    /// Of the air.
    pub(crate) attach: u64,
    /// Of the link of the access point, and of that of the station.
    pub(crate) links: [u64; 2],
    /// Of the draws.
    pub(crate) draws: u64,
}

/// A run in memory.
pub(crate) struct Case {
    /// What it shows.
    pub(crate) shows: &'static str,
    pub(crate) script: Script,
    pub(crate) calls: Calls,
    /// How often an access point turns at the gate at most.
    pub(crate) turns: u64,
    /// How often each of the first two passes it, and 1 where one of them turned in vain.
    pub(crate) passes: [u64; 3],
    /// How it ends.
    pub(crate) status: Status,
    /// A report, and how many of its octets are written at most.
    pub(crate) report: (&'static str, usize),
    /// To whom frames went by the links taken back, in order, and how many octets they have.
    pub(crate) sent: &'static [&'static [(Node, usize)]],
}

/// A number of no call.
pub(crate) const NEVER: u64 = 9999;

/// No call fails.
pub(crate) const NONE: Calls = Calls {
    reads: NEVER,
    room: 40000,
    writes: NEVER,
    stalls: NEVER,
    attach: NEVER,
    links: [NEVER, NEVER],
    draws: NEVER,
};

/// All octets of a report.
pub(crate) const ALL: usize = 40000;

pub(crate) const REPLAY: &[&str] = &["replay"];

pub(crate) const LIVE: &[&str] = &["live", "20000"];

// The version alone.
pub(crate) const VERSION: &str = "domain 1
";

// A header, an access point and a station.
pub(crate) const NODES: &str = "domain 1
seed 000102030405060708090a0b0c0d0e0f101112131415161718191a1b1c1d1e1f
ssid IEEE
psk f42c6fc52df0ebef9ebb4b90b38a5f902e83fe1b135a70e23aed762e9710a12e
akm psk
ap 020000000001 r0kh-1
sta 020000000011
";

/// A whole handshake. A call of the source gives 512 octets: with the comment, the first one ends
/// within the line that delivers frame 3.
pub(crate) const HANDSHAKE: &str =
    "# These lines are passed over. They are as long as they are so that the first octets that come of this script,
# as many as are asked for at once, end within a line, and the others come by another call.
# ..............................................
connect s1 a1
deliver 1 to a1
deliver 2 to s1
deliver 3 to s1
deliver 4 to a1
deliver 5 to s1
deliver 6 to a1
";

pub(crate) const HANDSHAKE_REPORT: &str = "install a1 all gtk 1
open s1 a1 connect
sent 1 s1 a1 assoc-req 62
took a1 assoc-req accepted
open a1 s1 connect
sent 2 a1 s1 assoc-resp 36
sent 3 a1 s1 m1 131
took s1 assoc-resp accepted
took s1 m1 accepted
sent 4 s1 a1 m2 153
took a1 m2 accepted
sent 5 a1 s1 m3 187
took s1 m3 accepted
install s1 a1 ptk
install s1 a1 gtk 1
finish s1 a1
sent 6 s1 a1 m4 131
took a1 m4 accepted
install a1 s1 ptk
finish a1 s1
end frames 6 accepted 6 answered 0 refused 0 ignored 0
keys installed 4 resumed 0 used 0 handed-up 0
premises fresh yes no-collision yes unforged yes
";

const CONNECTED: &str = "install a1 all gtk 1
open s1 a1 connect
sent 1 s1 a1 assoc-req 62
";

// A frame of which no node reads more than that it is none of theirs.
pub(crate) const FRAME: &[u8] = &[0xd4, 0, 0, 0, 2, 0, 0, 0, 0, 0x11];

// An association request of the station, for suite 2.
const REQUEST: &[u8] =
    b"\0\0\0\0\x02\0\0\0\0\x01\x02\0\0\0\0\x11\x02\0\0\0\0\x01\0\0\x11\0\x0a\0\0\x04IEEE\x01\x04\x82\x84\x8b\x96\x30\x14\x01\0\0\x0f\xac\x04\x01\0\0\x0f\xac\x04\x01\0\0\x0f\xac\x02\x0c\0";

pub(crate) static CASES: [Case; 11] = [
    Case {
        shows: "a source that fails behind a line that has no end yet, which is not run",
        script: Script {
            words: REPLAY,
            front: NODES,
            lines: "connect s1 a1
rekey a1",
            frames: [&[], &[]],
        },
        calls: Calls { reads: 1, ..NONE },
        turns: 0,
        passes: [0, 0, 0],
        status: Status::ReadFault,
        report: (CONNECTED, ALL),
        sent: &[],
    },
    Case {
        shows: "a sink with room for 31 octets",
        script: Script {
            words: REPLAY,
            front: NODES,
            lines: "connect s1 a1
",
            frames: [&[], &[]],
        },
        calls: Calls { room: 31, ..NONE },
        turns: 0,
        passes: [0, 0, 0],
        status: Status::WriteFault,
        report: (CONNECTED, 31),
        sent: &[],
    },
    Case {
        shows: "a whole handshake to a sink with room for 100 octets, which end in the fifth line",
        script: Script {
            words: REPLAY,
            front: NODES,
            lines: HANDSHAKE,
            frames: [&[], &[]],
        },
        calls: Calls { room: 100, ..NONE },
        turns: 0,
        passes: [0, 0, 0],
        status: Status::WriteFault,
        report: (HANDSHAKE_REPORT, 100),
        sent: &[],
    },
    Case {
        shows: "a sink with room for 31 octets, before a source that would fail",
        script: Script {
            words: REPLAY,
            front: NODES,
            lines: "connect s1 a1
rekey a1",
            frames: [&[], &[]],
        },
        calls: Calls {
            reads: 1,
            room: 31,
            ..NONE
        },
        turns: 0,
        passes: [0, 0, 0],
        status: Status::WriteFault,
        report: (CONNECTED, 31),
        sent: &[],
    },
    Case {
        shows: "a source that fails after an event whose lines were written, and a sink that would fail then",
        script: Script {
            words: REPLAY,
            front: NODES,
            lines: "connect s1 a1
rekey a1",
            frames: [&[], &[]],
        },
        calls: Calls {
            reads: 1,
            writes: 1,
            ..NONE
        },
        turns: 0,
        passes: [0, 0, 0],
        status: Status::ReadFault,
        report: (CONNECTED, ALL),
        sent: &[],
    },
    Case {
        shows: "an event whose lines cannot be written, and none of whose frames is sent",
        script: Script {
            words: LIVE,
            front: NODES,
            lines: "connect s1 a1
frob
",
            frames: [&[FRAME], &[]],
        },
        calls: Calls { writes: 0, ..NONE },
        turns: 0,
        passes: [0, 0, 0],
        status: Status::WriteFault,
        report: ("", ALL),
        sent: &[&[], &[]],
    },
    Case {
        shows: "a frame taken in a turn, whose lines cannot be written, with a frame behind it",
        script: Script {
            words: LIVE,
            front: NODES,
            lines: "connect s1 a1
turn
",
            frames: [&[REQUEST, FRAME], &[]],
        },
        calls: Calls { writes: 1, ..NONE },
        turns: 0,
        passes: [0, 0, 0],
        status: Status::WriteFault,
        report: (CONNECTED, ALL),
        sent: &[&[], &[(Node::Ap(0), 62)]],
    },
    Case {
        shows: "a sink whose first call fails, which takes the place of a fault of the script",
        script: Script {
            words: REPLAY,
            front: NODES,
            lines: "frob
",
            frames: [&[], &[]],
        },
        calls: Calls { writes: 0, ..NONE },
        turns: 0,
        passes: [0, 0, 0],
        status: Status::WriteFault,
        report: ("", ALL),
        sent: &[],
    },
    Case {
        shows: "frames that go out, and a turn of 16 frames a node",
        script: Script {
            words: LIVE,
            front: NODES,
            lines: "connect s1 a1
turn
send a1 all - 61
turn
turn",
            frames: [&[FRAME; 17], &[FRAME]],
        },
        calls: NONE,
        turns: 0,
        passes: [0, 0, 0],
        status: Status::Done,
        report: (
            "install a1 all gtk 1
open s1 a1 connect
sent 1 s1 a1 assoc-req 62
took a1 ignored ignored
took a1 ignored ignored
took a1 ignored ignored
took a1 ignored ignored
took a1 ignored ignored
took a1 ignored ignored
took a1 ignored ignored
took a1 ignored ignored
took a1 ignored ignored
took a1 ignored ignored
took a1 ignored ignored
took a1 ignored ignored
took a1 ignored ignored
took a1 ignored ignored
took a1 ignored ignored
took a1 ignored ignored
took s1 ignored ignored
used a1 all 1 1
sent 2 a1 all data 41
took a1 ignored ignored
end frames 2 accepted 0 answered 0 refused 0 ignored 18
keys installed 1 resumed 0 used 1 handed-up 0
premises fresh yes no-collision yes unforged yes
",
            ALL,
        ),
        sent: &[&[(Node::Sta(0), 41)], &[(Node::Ap(0), 62)]],
    },
    Case {
        shows: "an answer that cannot be sent, with a frame behind it",
        script: Script {
            words: LIVE,
            front: NODES,
            lines: "turn
rekey a1
",
            frames: [&[REQUEST, FRAME], &[]],
        },
        calls: Calls {
            links: [1, NEVER],
            ..NONE
        },
        turns: 0,
        passes: [0, 0, 0],
        status: Status::LinkFault,
        report: (
            "install a1 all gtk 1
took a1 assoc-req accepted
open a1 s1 connect
sent 1 a1 s1 assoc-resp 36
sent 2 a1 s1 m1 131
",
            ALL,
        ),
        sent: &[&[], &[]],
    },
    Case {
        shows: "a storm, which reads nothing and writes its summary alone",
        script: Script {
            words: &["storm", "0"],
            front: "",
            lines: "",
            frames: [&[], &[]],
        },
        calls: Calls { reads: 0, ..NONE },
        turns: 0,
        passes: [0, 0, 0],
        status: Status::Done,
        report: (
            "end frames 745 accepted 395 answered 8 refused 743 ignored 0
keys installed 88 resumed 2 used 52 handed-up 4
premises fresh yes no-collision yes unforged yes
",
            ALL,
        ),
        sent: &[],
    },
];
