//! The key holders that one alone has and those that are shared: what each answers, with the keys of a
//! capture too, and that two threads see each other's rows. And the cache of the keys that were pulled.

ghost use Rattle.std.specs.Prelude.{◌≡◌, true, length};
ghost use Rattle.key_holders.specs.Rows.{is_in};

use crate::keys::octets;
use domain_base::{Mac, Octets};
use holder_table::{Bound, CachedBound, HolderPass, SharedHolders};
use key_hierarchy::{PmkR1, PullAnswer, PutAnswer, RevokeAnswer, ptk_from_r1};
use key_holders::{CacheAnswer, HolderRow, Holders, ListHolders, R1Cache};
use std::alloc::Global;
use std::process::Abort;
use std::test::*;
use std::thread::{Threads, join};

// The R0KH-IDs of two access points; the first is that of a capture.
const R0KH_IDS: [&[u8]; 2] = [b"kanstrup-ft", b"r0kh-2"];

const STA: Mac = Mac([0x02, 0x00, 0x00, 0x00, 0x02, 0x00]);

const TARGET: Mac = Mac([0x02, 0x00, 0x00, 0x00, 0x01, 0x00]);

// The key of the passphrase "12345678" with the SSID of a capture of fast transition, by Python's
// hashlib.
const PSK: [u128; 2] = [
    0xb71e6f3bacf0de61e944d96e2521d556,
    0x72fed40b17bca0d76a7f7d547f6bd8d2,
];

// The names and the nonces of the capture's move to the target, and the KCK that came of it.
const R0_NAME: u128 = 0xccfb899605e2f69a58001b43662ad588;

const R1_NAME: u128 = 0x685b0e6bb2b369760656c4b3e5a3cfd0;

const ANONCE: [u128; 2] = [
    0xf4bbc882a577bff008b9931915555310,
    0x74af3125c034addeb2605f89b0286461,
];

const SNONCE: [u128; 2] = [
    0xbc89c2f487a4e4a9dafa0c748f0e8f15,
    0x03ab57fcacc623d6cce33c13ecdb826f,
];

const KCK: u128 = 0x7900a9e91a5fe008096fb289f65f4c21;

fn is_captured(answer: PullAnswer) -> bool {
    let PullAnswer::Found(r1) = answer else {
        return false;
    };
    let ptk = ptk_from_r1(&r1, &octets(SNONCE), &octets(ANONCE), TARGET, STA);
    r1.name == R1_NAME.to_be_bytes() && ptk.kck == KCK.to_be_bytes()
}

fn ids(rt: &impl Abort, alloc: Global) -> Vec<Octets>
    ensures { length result.items ≡ 2 }
{
    let mut ids = Vec::new(alloc);
    for i in 0..2 {
        let id = Vec::from_slice(alloc, R0KH_IDS[i]).expect(rt, "memory");
        ids.push(Octets(id)).expect(rt, "memory");
    }
    ids
}

// A row of its own for each access point and number.
fn row(ap: u8, number: u8) -> HolderRow {
    let mut name = [0xff; 16];
    name[0] = ap;
    name[15] = number;
    let mut key = [number; 32];
    key[31] = ap;
    HolderRow {
        name,
        key,
        sta: STA,
    }
}

// A station's row of a capture gives the keys of its move, until it is revoked.
fn gives_the_captured_key<H: Holders>(holders: &mut H) -> bool
    requires { is_in 0 (H.has holders.old) ≡ true }
    ensures { H.has holders.new ≡ H.has holders.old }
{
    let psk = octets(PSK);
    let row = HolderRow::derive(&psk, b"wireshark-ft-psk", [1, 2], R0KH_IDS[0], STA);
    let name = row.name();
    let held = matches!(holders.put(0, row), PutAnswer::Held);
    let found = is_captured(holders.pull(R0KH_IDS[0], &name, TARGET, STA));
    let revoked = matches!(holders.revoke(0, &name), RevokeAnswer::Revoked);
    let answer = holders.pull(R0KH_IDS[0], &name, TARGET, STA);
    let gone = matches!(answer, PullAnswer::Absent);
    name == R0_NAME.to_be_bytes() && held && found && revoked && gone
}

// Whether 64 rows of different names are held.
fn fills<H: Holders>(holders: &mut H) -> bool
    requires { is_in 1 (H.has holders.old) ≡ true }
    ensures { H.has holders.new ≡ H.has holders.old }
{
    let mut all = true;
    for number in 0..64 {
        all &= matches!(holders.put(1, row(1, number)), PutAnswer::Held);
    }
    all
}

// Each answer of a key holder of 64 rows, of which a revoked one makes no room and is found no more.
fn meets_each_answer<H: Holders>(holders: &mut H) -> bool
    requires { is_in 1 (H.has holders.old) ≡ true }
{
    let first = row(1, 0);
    let filled = fills(holders);
    let again = matches!(holders.put(1, first), PutAnswer::HeldAlready);
    let full = matches!(holders.put(1, row(1, 64)), PutAnswer::Full);
    let revoked = matches!(holders.revoke(1, &first.name), RevokeAnswer::Revoked);
    let gone = matches!(holders.revoke(1, &first.name), RevokeAnswer::Absent);
    let still_full = matches!(holders.put(1, first), PutAnswer::Full);
    let answer = holders.pull(R0KH_IDS[1], &first.name, TARGET, STA);
    let absent = matches!(answer, PullAnswer::Absent);
    let answer = holders.pull(b"r0kh-3", &row(1, 1).name, TARGET, STA);
    let no_holder = matches!(answer, PullAnswer::NoHolder);
    filled && again && full && revoked && gone && still_full && absent && no_holder
}

#[test]
fn listed_holders_answer(rt: HostRuntime) {
    let ids = ids(&rt, rt.alloc());
    let mut holders = ListHolders::new(rt.alloc(), ids).expect(&rt, "memory");
    assert!(rt; gives_the_captured_key(&mut holders) && meets_each_answer(&mut holders));
}

// The shared holders give the same answers on one thread.
fn shared_meet_each_answer(holders: &SharedHolders, pass: HolderPass) -> bool
    requires pass { pass.table ≡ holders.now.table }
    requires has { (is_in 0 pass.knows.has ≡ true) × (is_in 1 pass.knows.has ≡ true) }
{
    let mut bound = Bound::new(holders, pass);
    let is_right = gives_the_captured_key(&mut bound) && meets_each_answer(&mut bound);
    let _pass = bound.into_pass();
    is_right
}

#[test]
fn shared_holders_answer(rt: HostRuntime) {
    let ids = ids(&rt, rt.alloc());
    let (holders, pass) = SharedHolders::start(rt.alloc(), ids).expect(&rt, "memory");
    assert!(rt; shared_meet_each_answer(&holders, pass));
}

// The most pulls that wait for the other side.
const PULLS: u64 = 20_000_000;

fn is_found(answer: PullAnswer, r1: &PmkR1) -> bool {
    match answer {
        PullAnswer::Found(found) => found.key == r1.key && found.name == r1.name,
        PullAnswer::NoHolder | PullAnswer::Absent => false,
    }
}

// Rows that a cache of two pairs is asked for, one after the other, and whether it had the key.
const ASKED: [(u8, bool); 5] = [(1, false), (2, false), (1, true), (3, false), (2, false)];

// Whether a cache gives the key of a row, and had it or not, as is told.
fn gives(cache: &mut R1Cache, number: u8, r1kh: Mac, had: bool) -> bool {
    let row = row(0, number);
    let (r1, answer) = cache.r1(&row, r1kh);
    let is_told = match answer {
        CacheAnswer::Hit => had,
        CacheAnswer::Kept => !had,
        CacheAnswer::NotKept => false,
    };
    is_told && is_found(PullAnswer::Found(r1), &row.r1(r1kh))
}

#[test]
fn cache_of_two_keeps_the_pair_asked_for_last(rt: HostRuntime) {
    let mut cache = R1Cache::new(rt.alloc(), 2).expect(&rt, "memory");
    let mut all = true;
    for i in 0..ASKED.len() {
        let (number, had) = ASKED[i];
        all &= gives(&mut cache, number, TARGET, had);
    }
    // The same row at another R1 key holder is another pair.
    assert!(rt; all && gives(&mut cache, 2, STA, false) && gives(&mut cache, 2, TARGET, true));
}

// A row is found twice, the second time by its key in the cache where there is one, is revoked, and
// is absent from then on.
fn is_absent_once_revoked<H: Holders>(holders: &mut H) -> bool
    requires { is_in 0 (H.has holders.old) ≡ true }
    ensures { H.has holders.new ≡ H.has holders.old }
{
    let row = row(0, 5);
    let r1 = row.r1(TARGET);
    let held = matches!(holders.put(0, row), PutAnswer::Held);
    let found = is_found(holders.pull(R0KH_IDS[0], &row.name, TARGET, STA), &r1);
    let again = is_found(holders.pull(R0KH_IDS[0], &row.name, TARGET, STA), &r1);
    let revoked = matches!(holders.revoke(0, &row.name), RevokeAnswer::Revoked);
    let answer = holders.pull(R0KH_IDS[0], &row.name, TARGET, STA);
    let gone = matches!(answer, PullAnswer::Absent);
    held && found && again && revoked && gone
}

// The same answers with a cache, which still has the key of the row that was revoked.
fn cached_meet_each_answer(holders: &SharedHolders, pass: HolderPass, cache: R1Cache) -> bool
    requires pass { pass.table ≡ holders.now.table }
    requires has { (is_in 0 pass.knows.has ≡ true) × (is_in 1 pass.knows.has ≡ true) }
{
    let mut bound = CachedBound::new(holders, pass, cache);
    let is_right = gives_the_captured_key(&mut bound)
        && is_absent_once_revoked(&mut bound)
        && meets_each_answer(&mut bound);
    let (_pass, mut cache) = bound.into_parts();
    is_right && gives(&mut cache, 5, TARGET, true)
}

#[test]
fn cached_holders_answer(rt: HostRuntime) {
    let ids = ids(&rt, rt.alloc());
    let (holders, pass) = SharedHolders::start(rt.alloc(), ids).expect(&rt, "memory");
    let cache = R1Cache::new(rt.alloc(), 4).expect(&rt, "memory");
    assert!(rt; cached_meet_each_answer(&holders, pass, cache));
}

// Whether eight rows are held.
fn put_eight(holders: &SharedHolders, pass: &mut HolderPass, ap: u8) -> bool
    requires pass { pass.old.table ≡ holders.now.table }
    requires has { is_in ap pass.old.knows.has ≡ true }
    ensures pass { pass.new.table ≡ pass.old.table }
    ensures has { pass.new.knows.has ≡ pass.old.knows.has }
{
    let mut all = true;
    for number in 0..8 {
        let answer = holders.put(pass, u16::from(ap), row(ap, number));
        all &= matches!(answer, PutAnswer::Held);
    }
    all
}

// Asks for a row of an access point.
fn pull(holders: &SharedHolders, pass: &mut HolderPass, ap: u8, number: u8) -> PullAnswer
    requires pass { pass.old.table ≡ holders.now.table }
    ensures pass { pass.new.table ≡ pass.old.table }
    ensures has { pass.new.knows.has ≡ pass.old.knows.has }
{
    let id = R0KH_IDS[usize::from(ap) % 2];
    holders.pull(pass, id, &row(ap, number).name, TARGET, STA)
}

// Whether a row of the other side is found, or is gone, of many pulls.
fn comes(holders: &SharedHolders, pass: &mut HolderPass, ap: u8, number: u8, is_there: bool) -> bool
    requires pass { pass.old.table ≡ holders.now.table }
    ensures pass { pass.new.table ≡ pass.old.table }
    ensures has { pass.new.knows.has ≡ pass.old.knows.has }
{
    let r1 = row(ap, number).r1(TARGET);
    for _ in 0..PULLS {
        let answer = pull(holders, pass, ap, number);
        let is_seen = if is_there {
            is_found(answer, &r1)
        } else {
            matches!(answer, PullAnswer::Absent)
        };
        if is_seen {
            return true;
        }
    }
    false
}

// Puts eight rows, waits for the other side's last one, revokes its own first, and waits until the
// other's is gone.
fn side(holders: &SharedHolders, pass: HolderPass, own: u8, other: u8) -> (HolderPass, bool)
    requires pass { pass.table ≡ holders.now.table }
    requires has { is_in own pass.knows.has ≡ true }
    ensures { result.0.table ≡ pass.table }
{
    let mut pass = pass;
    let put = put_eight(holders, &mut pass, own);
    let found = comes(holders, &mut pass, other, 7, true);
    let revoked = holders.revoke(&mut pass, u16::from(own), &row(own, 0).name);
    let gone = comes(holders, &mut pass, other, 0, false);
    let all = put && found && matches!(revoked, RevokeAnswer::Revoked) && gone;
    (pass, all)
}

// Whether the first of an access point's eight rows is gone and the others are there.
fn are_left(holders: &SharedHolders, pass: &mut HolderPass, ap: u8) -> bool
    requires pass { pass.old.table ≡ holders.now.table }
    ensures pass { pass.new.table ≡ pass.old.table }
{
    let mut all = matches!(pull(holders, pass, ap, 0), PullAnswer::Absent);
    for number in 1..8 {
        let r1 = row(ap, number).r1(TARGET);
        all &= is_found(pull(holders, pass, ap, number), &r1);
    }
    all
}

// Two threads put, pull and revoke side by side, and each sees what the other does.
fn see_each_other<R: Threads + Sync>(
    rt: &R,
    holders: &SharedHolders,
    first: HolderPass,
    second: HolderPass,
) -> bool
    requires passes { (first.table ≡ holders.now.table) × (second.table ≡ holders.now.table) }
    requires has { (is_in 0 first.knows.has ≡ true) × (is_in 1 second.knows.has ≡ true) }
{
    let ((mut pass, one), (other, two)) = join(
        rt,
        || -> (HolderPass, bool)
            requires { (first.table ≡ holders.now.table) × (is_in 0 first.knows.has ≡ true) }
            ensures { result.0.table ≡ holders.entry.now.table }
        { side(holders, first, 0, 1) },
        || -> (HolderPass, bool)
            requires { (second.table ≡ holders.now.table) × (is_in 1 second.knows.has ≡ true) }
            ensures { result.0.table ≡ holders.entry.now.table }
        { side(holders, second, 1, 0) },
    );
    holders.join(&mut pass, other);
    one && two && are_left(holders, &mut pass, 0) && are_left(holders, &mut pass, 1)
}

#[test]
fn shared_rows(rt: HostRuntime) {
    let ids = ids(&rt, rt.alloc());
    let (holders, mut first) = SharedHolders::start(rt.alloc(), ids).expect(&rt, "memory");
    let second = holders.split(&mut first, 1);
    assert!(rt; see_each_other(&rt, &holders, first, second));
}
