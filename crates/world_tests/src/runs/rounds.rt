//! Rounds at a gate.

use super::cases::{ALL, Case, NONE, REPLAY, Script};
use domain_cli::Status;

// The script's front: two access points and two stations.
const NETWORK: &str = "domain 1
seed 000102030405060708090a0b0c0d0e0f101112131415161718191a1b1c1d1e1f
ssid IEEE
psk f42c6fc52df0ebef9ebb4b90b38a5f902e83fe1b135a70e23aed762e9710a12e
akm ft-psk
mdid a1b2
ap 020000000001 r0kh-1
ap 020000000002 r0kh-2
sta 020000000011
sta 020000000012
";

// Each station asks the access point of the other for a fast transition, both in one round.
const CROSSING: &str = "connect s1 a1
deliver 1 to a1
deliver 2 to s1
deliver 3 to s1
deliver 4 to a1
deliver 5 to s1
deliver 6 to a1
connect s2 a2
deliver 7 to a2
deliver 8 to s2
deliver 9 to s2
deliver 10 to a2
deliver 11 to s2
deliver 12 to a2
roam s1 a2
roam s2 a1
round
deliver 14 to a1
deliver 13 to a2
end
";

const CROSSED: &str = "install a1 all gtk 1
install a2 all gtk 1
open s1 a1 connect
sent 1 s1 a1 assoc-req 67
took a1 assoc-req accepted
open a1 s1 connect
sent 2 a1 s1 assoc-resp 141
sent 3 a1 s1 m1 131
took s1 assoc-resp accepted
took s1 m1 accepted
sent 4 s1 a1 m2 276
took a1 m2 accepted
sent 5 a1 s1 m3 323
took s1 m3 accepted
install s1 a1 ptk
install s1 a1 gtk 1
finish s1 a1
sent 6 s1 a1 m4 131
took a1 m4 accepted
install a1 s1 ptk
finish a1 s1
put a1 s1 held
open s2 a2 connect
sent 7 s2 a2 assoc-req 67
took a2 assoc-req accepted
open a2 s2 connect
sent 8 a2 s2 assoc-resp 141
sent 9 a2 s2 m1 131
took s2 assoc-resp accepted
took s2 m1 accepted
sent 10 s2 a2 m2 276
took a2 m2 accepted
sent 11 a2 s2 m3 323
took s2 m3 accepted
install s2 a2 ptk
install s2 a2 gtk 1
finish s2 a2
sent 12 s2 a2 m4 131
took a2 m4 accepted
install a2 s2 ptk
finish a2 s2
put a2 s2 held
open s1 a2 roam
sent 13 s1 a2 ft-req 167
open s2 a1 roam
sent 14 s2 a1 ft-req 167
took a1 ft-req accepted
look a1 s2 found
open a1 s2 roam
sent 15 a1 s2 ft-resp 175
took a2 ft-req accepted
look a2 s1 found
open a2 s1 roam
sent 16 a2 s1 ft-resp 175
end frames 16 accepted 14 answered 0 refused 0 ignored 0
keys installed 8 resumed 0 used 0 handed-up 0
premises fresh yes no-collision yes unforged yes
";

/// Runs with rounds and without.
pub(crate) static ROUNDS: [Case; 3] = [
    Case {
        shows: "two access points that meet in one round",
        script: Script {
            words: REPLAY,
            front: NETWORK,
            lines: CROSSING,
            frames: [&[], &[]],
        },
        calls: NONE,
        turns: 200_000_000,
        passes: [1, 1, 0],
        status: Status::Done,
        report: (CROSSED, ALL),
        sent: &[],
    },
    Case {
        shows: "one that is alone in its round",
        script: Script {
            words: REPLAY,
            front: NETWORK,
            lines: "connect s1 a1
round
deliver 1 to a1
rekey a1
end
",
            frames: [&[], &[]],
        },
        calls: NONE,
        turns: 0,
        passes: [1, 0, 1],
        status: Status::Done,
        report: (
            "install a1 all gtk 1
install a2 all gtk 1
open s1 a1 connect
sent 1 s1 a1 assoc-req 67
took a1 assoc-req accepted
open a1 s1 connect
sent 2 a1 s1 assoc-resp 141
sent 3 a1 s1 m1 131
install a1 all gtk 2
end frames 3 accepted 1 answered 0 refused 0 ignored 0
keys installed 3 resumed 0 used 0 handed-up 0
premises fresh yes no-collision yes unforged yes
",
            ALL,
        ),
        sent: &[],
    },
    Case {
        shows: "no round",
        script: Script {
            words: REPLAY,
            front: NETWORK,
            lines: "connect s1 a1
deliver 1 to a1
",
            frames: [&[], &[]],
        },
        calls: NONE,
        turns: 0,
        passes: [0, 0, 0],
        status: Status::Done,
        report: (
            "install a1 all gtk 1
install a2 all gtk 1
open s1 a1 connect
sent 1 s1 a1 assoc-req 67
took a1 assoc-req accepted
open a1 s1 connect
sent 2 a1 s1 assoc-resp 141
sent 3 a1 s1 m1 131
end frames 3 accepted 1 answered 0 refused 0 ignored 0
keys installed 2 resumed 0 used 0 handed-up 0
premises fresh yes no-collision yes unforged yes
",
            ALL,
        ),
        sent: &[],
    },
];
