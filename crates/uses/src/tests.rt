//! The uses run, on frames, keys and texts that were made apart from this project.

ghost use Rattle.std.specs.Prelude.{◌≡◌, ◌≢◌, [], length, slice_index_or};
ghost use Rattle.domain_base.specs.declared.names.Akm.TheVariants.{FtPsk};
ghost use Rattle.domain_rules.specs.Network.{InForm};

use crate::access_point::{Client, serve};
use crate::handshake::{ANONCE, GTK, M1, M2, M3, M4, PSK, RSNE, SNONCE, TK};
use crate::management::open_management;
use crate::payload::carry;
use crate::replay::run_script;
use crate::station::join;
use crate::two_threads::side_by_side;
use bip_guard::BipGuard;
use domain_base::{Akm, Mac, Octets};
use domain_cli::Status;
use group_key::GroupKeys;
use key_hierarchy::{PullAnswer, ptk_from_r1};
use key_holders::HolderRow;
use mac_prf::KdfKey;
use run_journal::{Aps, Domain, Extras, ListedAp, ListedSta, Reply, Stas, Version};
use std::alloc::Global;
use std::process::Abort;
use std::thread::Threads;

// IEEE Std 802.11-2020, annex J: CCMP-128.
const HEADER: [u8; 24] =
    *b"\x08\x48\xc3\x2c\x0f\xd2\xe1\x28\xa5\x7c\x50\x30\xf1\x84\x44\x08\xab\xae\xa5\xb8\xfc\xba\x80\x33";

const KEY: [u8; 16] = *b"\xc9\x7c\x1f\x67\xce\x37\x11\x85\x51\x4a\x8a\x19\xf2\xbd\xd5\x2f";

const PLAIN: [u8; 20] =
    *b"\xf8\xba\x1a\x55\xd0\x2f\x85\xae\x96\x7b\xb6\x2f\xb6\xcd\xa8\xeb\x7e\x78\xa0\x50";

const BODY: [u8; 36] =
    *b"\x0c\xe7\x00\x20\x76\x97\x03\xb5\xf3\xd0\xa2\xfe\x9a\x3d\xbf\x23\x42\xa6\x43\xe4\x32\x46\xe8\x0c\x3c\x04\xd0\x19\x78\x45\xce\x0b\x16\xf9\x76\x23";

#[test]
fn payload_of_the_standard(rt: HostRuntime) {
    let mut body = [0; 36];
    let mut opened = [0; 20];
    let size = carry(
        &KEY,
        0xb503_9776_e70b,
        &HEADER,
        &PLAIN,
        &mut body,
        &mut opened,
    );
    assert!(rt; size == 20 && body == BODY && opened == PLAIN);
}

// A frame with the content 7e 01, whose MIC is by the CMAC of another program.
const IGTK: [u8; 16] = *b"\x5e\xca\x1f\x02\xb7\x4d\x69\x11\xc0\x38\x8f\xd2\xa4\x7e\x93\xb1";

const MANAGEMENT_HEADER: [u8; 24] =
    *b"\xd0\x00\x00\x00\xff\xff\xff\xff\xff\xff\x02\x00\x00\x00\x00\xa1\x02\x00\x00\x00\x00\xa1\x70\x00";

const MANAGEMENT_BODY: [u8; 20] =
    *b"\x7e\x01\x4c\x10\x04\x00\x01\x00\x00\x00\x00\x00\x9e\xa7\xae\x22\x3e\xbc\xa5\x16";

fn opens(guard: &mut BipGuard, body: &[u8]) -> bool {
    match open_management(guard, &MANAGEMENT_HEADER, body) {
        Some(content) => content == &MANAGEMENT_BODY[..2],
        None => false,
    }
}

// It is opened once. What has no Management MIC element is not.
#[test]
fn management_frame_of_another_program(rt: HostRuntime) {
    let mut guard = BipGuard::empty();
    guard.install(&IGTK, 4, 0, 0);
    let came = opens(&mut guard, &MANAGEMENT_BODY);
    let again = opens(&mut guard, &MANAGEMENT_BODY);
    assert!(rt; came && !again && !opens(&mut guard, b"\x7e\x01"));
}

// Those octets.
fn octets(rt: &impl Abort, alloc: Global, of: &[u8]) -> Octets
    ensures { result ≡ of.now }
{
    Octets(Vec::from_slice(alloc, of).expect(rt, "memory"))
}

// A network of one access point and one station.
fn network(rt: &impl Abort, alloc: Global) -> Domain
    ensures form { InForm result }
    ensures suite { result.akm ≢ FtPsk }
    ensures aps { length result.aps ≡ 1 }
    ensures stas { length result.stas ≡ 1 }
{
    let ap = ListedAp {
        address: Mac([2, 0, 0, 0, 0, 1]),
        r0kh_id: octets(rt, alloc, b"r0kh-1"),
    };
    let mut stas = Stas::new(alloc);
    let sta = ListedSta {
        address: Mac([2, 0, 0, 0, 0, 0x11]),
        psk: PSK,
    };
    stas.push(sta).expect(rt, "memory");
    Domain {
        seed: KdfKey::new(&[0; 32]),
        ssid: octets(rt, alloc, b"IEEE"),
        akm: Akm::Psk,
        mdid: [0, 0],
        extras: Extras {
            version: Version::One,
            renew_at: None,
            mfp: false,
        },
        aps: Aps(Vec::from_array(alloc, [ap]).expect(rt, "memory")),
        stas,
    }
}

// The EAPOL frame in an air frame.
fn eapol(frame: &[u8]) -> &[u8] {
    if frame.len() < 32 {
        return frame;
    }
    let (_, body) = frame.split_at(32);
    body
}

// The reply sends that air frame.
fn sends(reply: &Reply, frame: &[u8]) -> bool {
    reply.len <= 512 && &reply.octets[..reply.len] == frame
}

// The reply tells that both keys of the handshake were installed.
fn installs(reply: &Reply) -> bool {
    let (Some(pairwise), Some(group)) = (reply.installed, reply.gtk) else {
        return false;
    };
    pairwise.ptk.tk == TK && !group.resumed && group.id == 1 && group.key == GTK
}

fn joins(domain: &Domain) -> bool
    requires form { InForm domain.now }
    requires suite { domain.now.akm ≢ FtPsk }
    requires aps { length domain.now.aps ≡ 1 }
    requires stas { length domain.now.stas ≡ 1 }
{
    match join(domain, 0, 0, &SNONCE, eapol(M1), eapol(M3)) {
        Some(joined) => { sends(&joined.m2, M2) && sends(&joined.m4, M4) && installs(&joined.m4) }
        None => false,
    }
}

// Message 3 does not come first, nor under another nonce.
fn joins_otherwise(domain: &Domain) -> bool
    requires form { InForm domain.now }
    requires suite { domain.now.akm ≢ FtPsk }
    requires aps { length domain.now.aps ≡ 1 }
    requires stas { length domain.now.stas ≡ 1 }
{
    join(domain, 0, 0, &SNONCE, eapol(M3), eapol(M1)).is_some()
        || join(domain, 0, 0, &ANONCE, eapol(M1), eapol(M3)).is_some()
}

#[test]
fn supplicant_by_itself(rt: HostRuntime) {
    let domain = network(&rt, rt.alloc());
    assert!(rt; joins(&domain) && !joins_otherwise(&domain));
}

fn serves(domain: &Domain) -> bool
    requires form { InForm domain.now }
    requires aps { length domain.now.aps ≡ 1 }
    requires stas { length domain.now.stas ≡ 1 }
{
    let client = Client {
        ap: 0,
        sta: 0,
        anonce: &ANONCE,
        rsne: RSNE,
    };
    let group = GroupKeys::new(GTK, None).newest();
    match serve(domain, client, &group, eapol(M2), eapol(M4)) {
        Some(served) => {
            sends(&served.m1, M1) && sends(&served.m3, M3) && served.key.ptk.tk == TK
        }
        None => false,
    }
}

#[test]
fn authenticator_by_itself(rt: HostRuntime) {
    let domain = network(&rt, rt.alloc());
    assert!(rt; serves(&domain));
}

// A capture of fast transition: the key of the passphrase "12345678" with its SSID, by Python's
// hashlib, the nonces of the move to the target, and PMKR1Name and KCK that came of it.
const CAPTURED_PSK: [u8; 32] =
    *b"\xb7\x1e\x6f\x3b\xac\xf0\xde\x61\xe9\x44\xd9\x6e\x25\x21\xd5\x56\x72\xfe\xd4\x0b\x17\xbc\xa0\xd7\x6a\x7f\x7d\x54\x7f\x6b\xd8\xd2";

const CAPTURED_ANONCE: [u8; 32] =
    *b"\xf4\xbb\xc8\x82\xa5\x77\xbf\xf0\x08\xb9\x93\x19\x15\x55\x53\x10\x74\xaf\x31\x25\xc0\x34\xad\xde\xb2\x60\x5f\x89\xb0\x28\x64\x61";

const CAPTURED_SNONCE: [u8; 32] =
    *b"\xbc\x89\xc2\xf4\x87\xa4\xe4\xa9\xda\xfa\x0c\x74\x8f\x0e\x8f\x15\x03\xab\x57\xfc\xac\xc6\x23\xd6\xcc\xe3\x3c\x13\xec\xdb\x82\x6f";

const CAPTURED_NAME: [u8; 16] =
    *b"\x68\x5b\x0e\x6b\xb2\xb3\x69\x76\x06\x56\xc4\xb3\xe5\xa3\xcf\xd0";

const CAPTURED_KCK: [u8; 16] = *b"\x79\x00\xa9\xe9\x1a\x5f\xe0\x08\x09\x6f\xb2\x89\xf6\x5f\x4c\x21";

const STA: Mac = Mac([2, 0, 0, 0, 2, 0]);

const TARGET: Mac = Mac([2, 0, 0, 0, 1, 0]);

fn is_captured(answer: PullAnswer) -> bool {
    let PullAnswer::Found(r1) = answer else {
        return false;
    };
    let ptk = ptk_from_r1(&r1, &CAPTURED_SNONCE, &CAPTURED_ANONCE, TARGET, STA);
    r1.name == CAPTURED_NAME && ptk.kck == CAPTURED_KCK
}

// The R0KH-IDs of two access points, which differ in their lengths.
fn ids(rt: &impl Abort, alloc: Global, first: &[u8], other: &[u8]) -> Vec<Octets>
    requires apart { length first.now ≢ length other.now }
    ensures two { length result.items ≡ 2 }
    ensures first { slice_index_or result.items 0 [] ≡ first.now }
    ensures other { slice_index_or result.items 1 [] ≢ first.now }
{
    let ids = [octets(rt, alloc, first), octets(rt, alloc, other)];
    Vec::from_array(alloc, ids).expect(rt, "memory")
}

fn shares<R: Threads + Sync + Abort>(rt: &R, alloc: Global) -> bool {
    let id = b"kanstrup-ft".as_slice();
    let ids = ids(rt, alloc, id, b"r0kh-2");
    let row = HolderRow::derive(&CAPTURED_PSK, b"wireshark-ft-psk", [1, 2], id, STA);
    let looks = side_by_side(rt, alloc, ids, id, row, TARGET).expect(rt, "memory");
    let during = matches!(looks.during, PullAnswer::Absent) || is_captured(looks.during);
    during && is_captured(looks.after)
}

#[test]
fn holders_of_two_threads(rt: HostRuntime) {
    assert!(rt; shares(&rt, rt.alloc()));
}

// A worked example: an association.
const SCRIPT: &[u8] = b"domain 1
seed 000102030405060708090a0b0c0d0e0f101112131415161718191a1b1c1d1e1f
ssid IEEE
passphrase password
akm psk
ap 020000000001 r0kh-1
sta 020000000011
connect s1 a1
deliver 1 to a1
";

const REPORT: &[u8] = b"install a1 all gtk 1
open s1 a1 connect
sent 1 s1 a1 assoc-req 62
took a1 assoc-req accepted
open a1 s1 connect
sent 2 a1 s1 assoc-resp 36
sent 3 a1 s1 m1 131
end frames 3 accepted 1 answered 0 refused 0 ignored 0
keys installed 1 resumed 0 used 0 handed-up 0
premises fresh yes no-collision yes unforged yes
";

// In room of so many octets the replay ends so, and writes that.
fn replays<R: Threads + Sync + Abort>(
    rt: &R,
    alloc: Global,
    room: usize,
    status: Status,
    report: &[u8],
) -> bool {
    let script = Vec::from_slice(alloc, SCRIPT).expect(rt, "memory");
    let ran = run_script(rt, alloc, script, room).expect(rt, "memory");
    ran.status == status && ran.sink.written() == report
}

#[test]
fn replay_from_memory(rt: HostRuntime) {
    assert!(rt;
        replays(&rt, rt.alloc(), 1000, Status::Done, REPORT)
            && replays(&rt, rt.alloc(), 21, Status::WriteFault, &REPORT[..21])
    );
}
