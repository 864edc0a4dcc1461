//! Questions and answers between two processes, with octets that Python's `cryptography` made.

ghost use Rattle.std.specs.Prelude.{◌≡◌, ◌≤◌, ◌<◌, ◌+◌, true, length};
ghost use Rattle.key_holders.specs.Rows.{is_in};
ghost use Rattle.holder_link.specs.Datagrams.{IsQuestion};

use domain_base::{Mac, Octets};
use holder_link::{Asker, LinkWorld, Server, Taken};
use key_hierarchy::{PullAnswer, PutAnswer};
use key_holders::{HolderRow, Holders, ListHolders};
use link_steps::{Forgetting, LinkAnswer, LinkEvent, LinkFault, Question, Step};
use std::alloc::Global;
use std::process::Abort;
use std::test::*;

const R0KH_ID: &[u8] = b"r0kh-1";

const STA: Mac = Mac([0x02, 0x00, 0x00, 0x00, 0x00, 0x11]);

const TARGET: Mac = Mac([0x02, 0x00, 0x00, 0x00, 0x00, 0x02]);

const KCK: [u8; 16] = [
    0x40, 0x41, 0x42, 0x43, 0x44, 0x45, 0x46, 0x47, 0x48, 0x49, 0x4a, 0x4b, 0x4c, 0x4d, 0x4e, 0x4f,
];

const KEK: [u8; 16] = [
    0x50, 0x51, 0x52, 0x53, 0x54, 0x55, 0x56, 0x57, 0x58, 0x59, 0x5a, 0x5b, 0x5c, 0x5d, 0x5e, 0x5f,
];

// PMKR0Name of the row.
const NAME: [u8; 16] = [
    0x7e, 0x45, 0xb7, 0x54, 0xc0, 0x98, 0x12, 0x2c, 0x02, 0xd3, 0xa8, 0xfa, 0xe5, 0xff, 0x53, 0xcc,
];

// Its PMK-R1 for the R1 key holder.
const R1: [u8; 32] = [
    0x12, 0x77, 0x0c, 0xc5, 0xff, 0x47, 0xce, 0x22, 0x04, 0xdf, 0xc5, 0xab, 0x02, 0x65, 0xbe, 0x26,
    0x16, 0x36, 0x9e, 0xb0, 0x38, 0xe3, 0x8c, 0x05, 0x9c, 0x02, 0xe0, 0xc1, 0x74, 0x48, 0xd4, 0x12,
];

// PMKR1Name.
const R1_NAME: [u8; 16] = [
    0xc9, 0xba, 0x96, 0xe5, 0x43, 0x80, 0x18, 0xb1, 0xde, 0x09, 0x79, 0xd6, 0xe6, 0x56, 0xce, 0x71,
];

// The nonce.
const NONCE: [u8; 16] = [
    0x6a, 0xd2, 0xe3, 0x98, 0x47, 0xcf, 0x5d, 0xe3, 0xa9, 0xe1, 0xe2, 0x40, 0xad, 0xdc, 0x1b, 0xff,
];

// The question.
const ASK: [u8; 68] = [
    0x01, 0x6a, 0xd2, 0xe3, 0x98, 0x47, 0xcf, 0x5d, 0xe3, 0xa9, 0xe1, 0xe2, 0x40, 0xad, 0xdc, 0x1b,
    0xff, 0x06, 0x72, 0x30, 0x6b, 0x68, 0x2d, 0x31, 0x7e, 0x45, 0xb7, 0x54, 0xc0, 0x98, 0x12, 0x2c,
    0x02, 0xd3, 0xa8, 0xfa, 0xe5, 0xff, 0x53, 0xcc, 0x02, 0x00, 0x00, 0x00, 0x00, 0x02, 0x02, 0x00,
    0x00, 0x00, 0x00, 0x11, 0x9d, 0x66, 0x47, 0xc5, 0xff, 0x75, 0xe8, 0xf0, 0xd1, 0x64, 0x42, 0x21,
    0x6b, 0xdc, 0x46, 0x76,
];

// The key was found.
const FOUND: [u8; 74] = [
    0x02, 0x6a, 0xd2, 0xe3, 0x98, 0x47, 0xcf, 0x5d, 0xe3, 0xa9, 0xe1, 0xe2, 0x40, 0xad, 0xdc, 0x1b,
    0xff, 0x00, 0x49, 0x92, 0x48, 0x8d, 0x27, 0xe2, 0x38, 0x9c, 0x10, 0x0c, 0x92, 0x32, 0x16, 0xd7,
    0x40, 0xe9, 0x2c, 0x35, 0xde, 0xd0, 0x21, 0x2a, 0x32, 0xb5, 0x77, 0xdc, 0xa9, 0xed, 0xc9, 0xe3,
    0x2b, 0xd0, 0x12, 0x93, 0xac, 0x67, 0x80, 0xb4, 0x95, 0xb8, 0x27, 0xfe, 0xcf, 0xb8, 0xdc, 0x41,
    0x5c, 0x3f, 0x5c, 0x6c, 0x69, 0x1d, 0x4e, 0x15, 0x98, 0xe4,
];

// No access point has the R0KH-ID.
const NO_HOLDER: [u8; 34] = [
    0x02, 0x6a, 0xd2, 0xe3, 0x98, 0x47, 0xcf, 0x5d, 0xe3, 0xa9, 0xe1, 0xe2, 0x40, 0xad, 0xdc, 0x1b,
    0xff, 0x01, 0x27, 0x30, 0x3d, 0xa7, 0x26, 0x75, 0x09, 0xe3, 0x66, 0x9d, 0xfd, 0x1a, 0xe9, 0x59,
    0x17, 0x78,
];

// There is no such row.
const ABSENT: [u8; 34] = [
    0x02, 0x6a, 0xd2, 0xe3, 0x98, 0x47, 0xcf, 0x5d, 0xe3, 0xa9, 0xe1, 0xe2, 0x40, 0xad, 0xdc, 0x1b,
    0xff, 0x02, 0x96, 0x35, 0xc3, 0xe0, 0x47, 0xc6, 0x7b, 0x92, 0x4f, 0xf6, 0x4a, 0x20, 0x79, 0x9c,
    0x5c, 0x21,
];

// Forty zeros in place of the wrapped key, under a true CMAC.
const BAD_WRAP: [u8; 74] = [
    0x02, 0x6a, 0xd2, 0xe3, 0x98, 0x47, 0xcf, 0x5d, 0xe3, 0xa9, 0xe1, 0xe2, 0x40, 0xad, 0xdc, 0x1b,
    0xff, 0x00, 0x00, 0x00, 0x00, 0x00, 0x00, 0x00, 0x00, 0x00, 0x00, 0x00, 0x00, 0x00, 0x00, 0x00,
    0x00, 0x00, 0x00, 0x00, 0x00, 0x00, 0x00, 0x00, 0x00, 0x00, 0x00, 0x00, 0x00, 0x00, 0x00, 0x00,
    0x00, 0x00, 0x00, 0x00, 0x00, 0x00, 0x00, 0x00, 0x00, 0x00, 0x2f, 0x5d, 0x32, 0xfe, 0x5f, 0x85,
    0x4e, 0x8e, 0xef, 0x0f, 0x9d, 0x0e, 0x61, 0x83, 0x4e, 0x2f,
];

// The pre-shared key of the passphrase "password" with the SSID "IEEE".
const PSK: [u8; 32] = [
    0xf4, 0x2c, 0x6f, 0xc5, 0x2d, 0xf0, 0xeb, 0xef, 0x9e, 0xbb, 0x4b, 0x90, 0xb3, 0x8a, 0x5f, 0x90,
    0x2e, 0x83, 0xfe, 0x1b, 0x13, 0x5a, 0x70, 0xe2, 0x3a, 0xed, 0x76, 0x2e, 0x97, 0x10, 0xa1, 0x2e,
];

fn row() -> HolderRow {
    HolderRow::derive(&PSK, b"IEEE", [0xa1, 0xb2], R0KH_ID, STA)
}

fn question(rt: &impl Abort, alloc: Global) -> Question
    ensures { IsQuestion result }
{
    Question {
        r0kh_id: Octets(Vec::from_slice(alloc, R0KH_ID).expect(rt, "memory")),
        name: NAME,
        r1kh: TARGET,
        sta: STA,
    }
}

// The key holders of one access point, with no rows.
fn holders(rt: &impl Abort, alloc: Global, id: &[u8]) -> ListHolders
    ensures { length result.ids ≡ 1 }
{
    let mut ids = Vec::new(alloc);
    let id = Vec::from_slice(alloc, id).expect(rt, "memory");
    ids.push(Octets(id)).expect(rt, "memory");
    ListHolders::new(alloc, ids).expect(rt, "memory")
}

fn is_key(answer: &PullAnswer) -> bool {
    match answer {
        PullAnswer::Found(r1) => r1.key == R1 && r1.name == R1_NAME,
        PullAnswer::NoHolder | PullAnswer::Absent => false,
    }
}

// Whether the first question is written so.
fn asks(asker: &mut Asker, question: &Question) -> bool
    requires question { IsQuestion question.now }
    requires few { asker.old.asked < 100 }
{
    let mut out = [0; 110];
    match asker.ask(question, &NONCE, &mut out) {
        Ok(end) => &out[..end] == ASK.as_slice(),
        Err(_) => false,
    }
}

#[test]
fn a_question_has_the_octets_of_its_fields(rt: HostRuntime) {
    let question = question(&rt, rt.alloc());
    let mut asker = Asker::new(&KCK, &KEK);
    assert!(rt; asks(&mut asker, &question));
}

// Whether the question is answered so.
fn answers<H: Holders>(holders: &mut H, expected: &[u8]) -> bool
    ensures { H.has holders.new ≡ H.has holders.old }
{
    let mut out = [0; 110];
    match Server::new(&KCK, &KEK).answer(&ASK, holders, &mut out) {
        Ok(end) => &out[..end] == expected,
        Err(_) => false,
    }
}

// Whether a row is told, and the row's own key, once it is put.
fn tells<H: Holders>(holders: &mut H) -> bool
    requires { is_in 0 (H.has holders.old) ≡ true }
{
    let before = answers(holders, &ABSENT);
    let put = matches!(holders.put(0, row()), PutAnswer::Held);
    before && put && answers(holders, &FOUND) && row().name == NAME && row().r1(TARGET).key == R1
}

#[test]
fn a_row_is_told(rt: HostRuntime) {
    let mut held = holders(&rt, rt.alloc(), R0KH_ID);
    let mut other = holders(&rt, rt.alloc(), b"r0kh-2");
    assert!(rt; tells(&mut held) && answers(&mut other, &NO_HOLDER));
}

// An asker whose first question is open, and its question.
fn asked(rt: &impl Abort, alloc: Global) -> (Asker, bool) {
    let question = question(rt, alloc);
    let mut asker = Asker::new(&KCK, &KEK);
    let written = asks(&mut asker, &question);
    (asker, written)
}

fn is_learnt(taken: Result<Taken, LinkFault>) -> bool {
    match taken {
        Ok(taken) => taken.n == 0 && is_key(&taken.answer),
        Err(_) => false,
    }
}

fn learns_once(asker: &mut Asker) -> bool {
    let learnt = is_learnt(asker.take(&FOUND));
    learnt && matches!(asker.take(&FOUND), Err(LinkFault::Unasked))
}

#[test]
fn an_answer_is_learnt_once(rt: HostRuntime) {
    let (mut asker, written) = asked(&rt, rt.alloc());
    assert!(rt; written && learns_once(&mut asker));
}

// Whether octets that are changed, cut or wrap nothing are refused, and the true ones learnt then.
fn refuses(asker: &mut Asker) -> bool {
    let mut changed = FOUND;
    changed[73] ^= 1;
    let mac = matches!(asker.take(&changed), Err(LinkFault::Mac));
    let form = matches!(asker.take(&FOUND[..10]), Err(LinkFault::Form(10)));
    let asks = matches!(asker.take(&ASK), Err(LinkFault::Form(0)));
    let wrap = matches!(asker.take(&BAD_WRAP), Err(LinkFault::Wrap));
    mac && form && asks && wrap && is_learnt(asker.take(&FOUND))
}

#[test]
fn a_changed_answer_is_refused(rt: HostRuntime) {
    let (mut asker, written) = asked(&rt, rt.alloc());
    assert!(rt; written && refuses(&mut asker));
}

// Whether one question more is asked.
fn ask_one(asker: &mut Asker, question: &Question) -> bool
    requires question { IsQuestion question.now }
    requires few { asker.old.asked < 100 }
    ensures { asker.new.asked ≤ asker.old.asked + 1 }
{
    let mut out = [0; 110];
    asker.ask(question, &NONCE, &mut out).is_ok()
}

// Whether so many are asked.
fn ask_many(asker: &mut Asker, question: &Question) -> bool
    requires question { IsQuestion question.now }
    requires none { asker.old.asked ≡ 0 }
    ensures { asker.new.asked ≤ 64 }
{
    let mut all = true;
    for n in 0..64u64 {
        let one = ask_one(asker, question);
        all = all && one && n < 64;
    }
    all
}

// Whether 64 questions are open at most, and one that is forgotten makes room.
fn fills(asker: &mut Asker, question: &Question) -> bool
    requires question { IsQuestion question.now }
    requires none { asker.old.asked ≡ 0 }
{
    let all = ask_many(asker, question);
    let full = !ask_one(asker, question);
    let forgot = matches!(asker.forget(3), Forgetting::Forgot);
    let nothing = matches!(asker.forget(3), Forgetting::Nothing);
    all && full && forgot && nothing && ask_one(asker, question)
}

#[test]
fn sixty_four_questions_are_open_at_most(rt: HostRuntime) {
    let question = question(&rt, rt.alloc());
    let mut asker = Asker::new(&KCK, &KEK);
    assert!(rt; fills(&mut asker, &question));
}

fn octets(rt: &impl Abort, alloc: Global, of: &[u8]) -> Octets {
    Octets(Vec::from_slice(alloc, of).expect(rt, "memory"))
}

// The first question is asked.
fn ask_first(rt: &impl Abort, alloc: Global, world: &mut LinkWorld)
    requires { world.old.both.asking.asked ≡ 0 }
{
    let event = LinkEvent::Ask(question(rt, alloc), NONCE);
    world.event(&event).expect(rt, "memory");
}

fn come(rt: &impl Abort, alloc: Global, world: &mut LinkWorld) {
    let row = LinkEvent::Row(row());
    world.event(&row).expect(rt, "memory");
    let ask = LinkEvent::ToHolder(octets(rt, alloc, &ASK));
    world.event(&ask).expect(rt, "memory");
    let answer = LinkEvent::ToAsker(octets(rt, alloc, &FOUND));
    world.event(&answer).expect(rt, "memory");
    world.event(&answer).expect(rt, "memory");
}

// Whether these are the steps: a question asked, a row put, the question told and learnt, and its
// answer refused where it comes again. What was taken was sent before: both premises are met.
fn are_steps(steps: &[Step]) -> bool {
    if steps.len() != 5 {
        return false;
    }
    let asked = matches!(steps[0].answer, LinkAnswer::Asked(0));
    let put = matches!(steps[1].answer, LinkAnswer::Put(PutAnswer::Held));
    let told = match &steps[2].answer {
        LinkAnswer::Told(answer) => is_key(answer),
        _ => false,
    };
    let learnt = match &steps[3].answer {
        LinkAnswer::Learnt(0, answer) => is_key(answer),
        _ => false,
    };
    let again = matches!(steps[4].answer, LinkAnswer::Refused(LinkFault::Unasked));
    let sent = steps[0].sent.as_slice() == ASK.as_slice()
        && steps[2].sent.as_slice() == FOUND.as_slice();
    asked && put && told && learnt && again && sent
}

#[test]
fn both_ends_learn_a_key(rt: HostRuntime) {
    let held = holders(&rt, rt.alloc(), R0KH_ID);
    let mut world = LinkWorld::start(rt.alloc(), &KCK, &KEK, held);
    ask_first(&rt, rt.alloc(), &mut world);
    come(&rt, rt.alloc(), &mut world);
    assert!(rt; are_steps(world.steps()));
}
