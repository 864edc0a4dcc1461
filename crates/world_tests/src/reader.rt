//! A reader goes on behind lines that it refuses, as no run does. Which lines are refused, and what
//! others say, is shown by the scripts of `tools/ends` and by the examples.

ghost use Rattle.std.specs.Prelude.{◌≡◌, ◌+◌, ◌<◌, ◌≤◌, ◌^◌, length};
ghost use Rattle.frame_script.specs.Headers.{HasSeen};

use domain_base::{Akm, Mac};
use frame_script::{LineFault, Mode, ScriptReader, Step};
use run_journal::{Domain, Journal, ListedSta};
use std::alloc::Global;
use std::process::Abort;

// What becomes of a line.
#[derive(Clone, Copy, PartialEq)]
enum Says {
    Nothing,
    Network,
    // A node, an event, or the beginning or end of a round.
    More,
    // It is refused for that reason.
    Refused(u8),
    // Memory is out, or it goes past a limit.
    Broken,
}

use Says::{More, Network, Nothing, Refused};

fn what_becomes(answer: &Result<Step, LineFault>) -> Says {
    match answer {
        Ok(Step::Nothing) => Nothing,
        Ok(Step::Network) => Network,
        Ok(_) => More,
        Err(LineFault::Script(reason)) => Refused(*reason),
        Err(_) => Says::Broken,
    }
}

const SEED: &[u8] = b"seed 000102030405060708090a0b0c0d0e0f101112131415161718191a1b1c1d1e1f";

// A script with lines between its own that are refused, each of which leaves the reader as it was.
const LINES: &[(&[u8], Says)] = &[
    (b"", Refused(1)),
    (b"domain 1", Nothing),
    (b"domain 1", Refused(2)),
    (SEED, Nothing),
    (SEED, Refused(2)),
    (b"ssid", Refused(3)),
    (b"ssid a", Nothing),
    (b"passphrase", Refused(3)),
    (b"passphrase password", Nothing),
    (b"mdid a1b2", Refused(2)),
    (b"akm ft-psk", Nothing),
    (b"mdid a1b", Refused(3)),
    (b"akm psk", Refused(2)),
    (b"mdid a1b2", Network),
    (b"mdid c3d4", Refused(2)),
];

// The same behind the header.
const NODES: &[(&[u8], Says)] = &[
    (b"connect s1 a1", Refused(4)),
    (b"ap 020000000001 r0kh-1", More),
    (b"ap 020000000002 r0kh-1", Refused(8)),
    (b"sta 020000000001", Refused(8)),
    (b"sta 020000000011", More),
    (b"deliver 1 to a1", Refused(5)),
    (b"connect s1 a1", More),
    (b"round", More),
    (b"leave s1", Refused(2)),
    (b"rekey a1", More),
    (b"end", More),
    (b"end", Refused(2)),
];

// In version 2 a station may have a key of its own, and keys are changed outside rounds.
const SECOND: &[(&[u8], Says)] = &[
    (b"domain 2", Nothing),
    (SEED, Nothing),
    (b"ssid a", Nothing),
    (b"passphrase another passphrase", Nothing),
    (b"akm psk", Network),
    (b"sta 020000000011 psk 00", Refused(3)),
    (b"sta 020000000011 passphrase", Refused(3)),
    (b"sta 020000000011 passphrase password", More),
    (b"secret s1 passphrase 1234567", Refused(3)),
    (b"secret s2 passphrase 12345678", Refused(4)),
    (b"secret all passphrase 12345678", More),
    (b"round", More),
    (b"secret s1 passphrase 12345678", Refused(2)),
    (b"end", More),
];

// With management frame protection, of which the header tells after renewals and before nodes,
// access points announce outside rounds.
const PROTECTED: &[(&[u8], Says)] = &[
    (b"domain 2", Nothing),
    (SEED, Nothing),
    (b"ssid a", Nothing),
    (b"passphrase password", Nothing),
    (b"mfp", Refused(2)),
    (b"akm psk-sha256", Network),
    (b"announce a1 01", Refused(2)),
    (b"mfp 1", Refused(3)),
    (b"mfp ", Refused(3)),
    (b"renew-at 7", More),
    (b"renew-at 7", Refused(2)),
    (b"mfp", More),
    (b"mfp", Refused(2)),
    (b"renew-at 7", Refused(2)),
    (b"ap 020000000001 r0kh-1", More),
    (b"announce a1", Refused(3)),
    (b"announce a1 0", Refused(3)),
    (b"announce a2 01", Refused(4)),
    (b"announce s1 01", Refused(4)),
    (b"announce a1 01", More),
    (b"round", More),
    (b"announce a1 01", Refused(2)),
    (b"mfp", Refused(2)),
    (b"end", More),
];

const STA: Mac = Mac([2, 0, 0, 0, 0, 0x11]);

// The key of the passphrase "password" in the network "a", by Python's hashlib.
const PSK: [u8; 32] =
    *b"\x0e\xc0\x65\xb1\xa9\xb5\xf7\xe1\x02\x78\x87\xbd\x0c\x18\x2b\x8b\xd5\xd8\xc7\xf1\xbb\x7c\xe9\x69\x5d\xbf\xda\xc9\x3c\xa4\x37\x0f";

// That station alone, with that key.
fn is_sta(stas: &[ListedSta]) -> bool {
    match stas {
        [sta] => sta.address == STA && sta.psk == PSK,
        _ => false,
    }
}

// What becomes of the line.
#[tactic(auto, using(frame_script::proofs::Feeding::feeding))]
fn tell(alloc: Global, reader: &mut ScriptReader, line: &[u8], journal: &Journal) -> Says
    requires seen { HasSeen reader.old journal.now.entries }
    requires few { reader.old.rounds < 2 ^ 63 }
    ensures seen { HasSeen reader.new journal.now.entries }
    ensures few { reader.new.rounds ≤ reader.old.rounds + 1 }
{
    let answer = reader.line(alloc, line, journal);
    let said = what_becomes(&answer);
    drop(answer);
    said
}

// Each of the lines becomes what stands beside it.
fn play(
    rt: &impl Abort,
    alloc: Global,
    reader: &mut ScriptReader,
    rows: &[(&[u8], Says)],
    journal: &Journal,
)
    requires seen { HasSeen reader.old journal.now.entries }
    requires few { reader.old.rounds < 2 ^ 62 }
    ensures seen { HasSeen reader.new journal.now.entries }
    ensures few { reader.new.rounds ≤ reader.old.rounds + length rows.now }
{
    assert!(rt; rows.len() <= 100);
    for (line, want) in rows {
        assert!(rt; tell(alloc, reader, line, journal) == *want, "{line:?}");
    }
}

// The reader of these lines.
#[tactic(auto, using(frame_script::proofs::Feeding::feeding))]
fn reader_of(rt: &impl Abort, alloc: Global, journal: &Journal) -> ScriptReader {
    let mut reader = ScriptReader::start(alloc, Mode::Replay);
    play(rt, alloc, &mut reader, LINES, journal);
    play(rt, alloc, &mut reader, NODES, journal);
    reader
}

// That of a script of version 2.
#[tactic(auto, using(frame_script::proofs::Feeding::feeding))]
fn second_reader(rt: &impl Abort, alloc: Global, journal: &Journal) -> ScriptReader {
    let mut reader = ScriptReader::start(alloc, Mode::Replay);
    play(rt, alloc, &mut reader, SECOND, journal);
    reader
}

// That of a script with management frame protection.
#[tactic(auto, using(frame_script::proofs::Feeding::feeding))]
fn protected_reader(rt: &impl Abort, alloc: Global, journal: &Journal) -> ScriptReader {
    let mut reader = ScriptReader::start(alloc, Mode::Replay);
    play(rt, alloc, &mut reader, PROTECTED, journal);
    reader
}

// The network has what its header said once each.
fn is_protected(network: Option<&Domain>) -> bool {
    match network {
        Some(network) => {
            network.extras.mfp && network.extras.renew_at == Some(7) && network.aps.0.len() == 1
        }
        None => false,
    }
}

// The only station has the key of its own passphrase, whatever its key was changed to: the reader
// tells the header.
fn is_keyed(network: Option<&Domain>) -> bool {
    match network {
        Some(network) => is_sta(network.stas.as_slice()),
        None => false,
    }
}

// The network that the lines tell which are taken.
fn is_told(network: Option<&Domain>) -> bool {
    match network {
        Some(network) => {
            network.ssid.as_slice() == b"a".as_slice()
                && network.akm == Akm::FtPsk
                && network.mdid == [0xa1, 0xb2]
                && is_sta(network.stas.as_slice())
                && network.aps.0.len() == 1
        }
        None => false,
    }
}

#[test]
fn a_reader_goes_on_behind_lines_that_it_refuses(rt: HostRuntime) {
    let journal = Journal::new(rt.alloc());
    let reader = reader_of(&rt, rt.alloc(), &journal);
    assert!(rt; is_told(reader.domain()) && reader.finish().is_ok());
}

#[test]
fn a_station_of_version_2_may_have_a_key_of_its_own(rt: HostRuntime) {
    let journal = Journal::new(rt.alloc());
    let reader = second_reader(&rt, rt.alloc(), &journal);
    assert!(rt; is_keyed(reader.domain()) && reader.finish().is_ok());
}

#[test]
fn access_points_announce_where_the_header_protects_management_frames(rt: HostRuntime) {
    let journal = Journal::new(rt.alloc());
    let reader = protected_reader(&rt, rt.alloc(), &journal);
    assert!(rt; is_protected(reader.domain()) && reader.finish().is_ok());
}
