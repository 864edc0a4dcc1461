//! Keys asked for over a link: one question asked, answered and its answer taken, and the
//! cryptography of it alone.

ghost use Rattle.std.specs.Prelude.{◌≡◌, ◌≤◌, ◌<◌, ◌+◌, length};
ghost use Rattle.holder_link.specs.Datagrams.{IsQuestion};

use domain_base::{Mac, Octets};
use holder_link::{Asker, Server};
use key_hierarchy::{PmkR1, PullAnswer};
use key_holders::{HolderRow, Holders, ListHolders};
use key_wrap::{unwrap, wrap};
use link_steps::Question;
use mac_prf::cmac;
use std::alloc::Global;

const KCK: [u8; 16] = *b"key of 16 octets";

const KEK: [u8; 16] = *b"one of 16 octets";

const R0KH_ID: &[u8] = b"r0kh-1";

const PMK_R0: [u8; 32] = [9; 32];

const NAME: [u8; 16] = [8; 16];

const R1KH: Mac = Mac([0x02, 0x00, 0x00, 0x00, 0x00, 0x02]);

const STA: Mac = Mac([0x02, 0x00, 0x00, 0x00, 0x00, 0x11]);

fn octet_of(answer: &PullAnswer) -> u8 {
    match answer {
        PullAnswer::Found(r1) => r1.key[0] ^ r1.name[0],
        PullAnswer::NoHolder | PullAnswer::Absent => 0,
    }
}

// One question, asked, answered and taken.
fn learnt(asker: &mut Asker, holders: &mut ListHolders, question: &Question, nonce: &[u8; 16]) -> u8
    requires question { IsQuestion question.now }
    requires few { asker.old.asked < 4294967296 }
    ensures { asker.new.asked ≤ asker.old.asked + 1 }
{
    let mut ask = [0; 110];
    let Ok(end) = asker.ask(question, nonce, &mut ask) else {
        return 1;
    };
    let mut answer = [0; 110];
    let Ok(told) = Server::new(&KCK, &KEK).answer(&ask[..end], holders, &mut answer) else {
        return 2;
    };
    match asker.take(&answer[..told]) {
        Ok(taken) => octet_of(&taken.answer),
        Err(_) => 3,
    }
}

// That many, one after the other.
fn all_learnt(asker: &mut Asker, holders: &mut ListHolders, question: &Question, times: u32) -> u8
    requires question { IsQuestion question.now }
    requires none { asker.old.asked ≡ 0 }
{
    let mut nonce = [7; 16];
    for n in 0..times {
        let next = learnt(asker, holders, question, &nonce);
        if n < 4294967295 {
            nonce[0] = next;
        }
    }
    nonce[0]
}

/// That many questions of a key that is held, each asked, answered and taken before the next.
pub fn linked(alloc: Global, times: u32) -> Option<u8> {
    let mut ids = Vec::new(alloc);
    ids.push(Octets(Vec::from_slice(alloc, R0KH_ID).ok()?))
        .ok()?;
    let mut holders = ListHolders::new(alloc, ids).ok()?;
    let row = HolderRow {
        name: NAME,
        key: PMK_R0,
        sta: STA,
    };
    let _answer = holders.put(0, row);
    let question = Question {
        r0kh_id: Octets(Vec::from_slice(alloc, R0KH_ID).ok()?),
        name: NAME,
        r1kh: R1KH,
        sta: STA,
    };
    let mut asker = Asker::new(&KCK, &KEK);
    Some(all_learnt(&mut asker, &mut holders, &question, times))
}

/// What such a question owes to cryptography: the CMACs of an Ask and of an Answer, each made and
/// compared, a PMK-R1 derived and wrapped, and what it is wrapped to opened.
pub fn ciphered(times: u32) -> u8 {
    let mut ask = [7; 52];
    let mut answer = [7; 58];
    let mut pmk_r0 = PMK_R0;
    let mut out = [0; 40];
    let mut key = [0; 32];
    for _ in 0..times {
        let r1 = PmkR1::of(&pmk_r0, &NAME, R1KH, STA);
        let _end = wrap(&KEK, &r1.key, &mut out);
        let _found = unwrap(&KEK, &out, &mut key);
        let asked = cmac(&KCK, &ask);
        ask[0] = asked[0];
        let read = cmac(&KCK, &ask);
        ask[0] = read[0];
        let told = cmac(&KCK, &answer);
        answer[0] = told[0];
        let taken = cmac(&KCK, &answer);
        answer[0] = taken[0] ^ r1.name[0];
        pmk_r0[0] = ask[0] ^ answer[0] ^ key[0];
    }
    ask[0] ^ pmk_r0[0]
}
