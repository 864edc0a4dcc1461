//! The end that asks.

ghost use Rattle.std.specs.Prelude.{◌≡◌, ◌≤◌, ◌<◌, ◌+◌, ◌-◌, ◌^◌, ◌↔◌, ℕ, length, take, drop};
ghost use Rattle.std.specs.Prelude.{IsErr, OnOk, OnErr, IfOk, IfErr};
ghost use Rattle.arrayvec.specs.ArrayVec.{array_vec_len};
ghost use Rattle.mac_prf.specs.Cmac.{cmac};
ghost use Rattle.holder_link.specs.Datagrams.{IsQuestion, ask_front, SpellsAsk};

use crate::open_questions::{OPEN, OpenQuestion, place_of_nonce, place_of_number};
use crate::reading::read_answer;
use crate::wrapping::heard;
use crate::writing::write_ask;
use arrayvec::ArrayVec;
use key_hierarchy::PullAnswer;
use link_steps::{Forgetting, LinkFault, Question};
use mac_prf::cmac;
use std::marker::Model;

/// So many questions are open that no further one can be asked.
#[derive(Clone, Copy)]
pub struct Full;

/// What was learnt.
#[derive(Clone, Copy)]
pub struct Taken {
    /// The number of the question.
    pub n: u64,
    /// Its answer.
    pub answer: PullAnswer,
}

/// The end that asks, under a link key. Contracts see the key, how many questions were asked, and
/// those that are open, in the order in which they were asked.
#[derive(Drop)]
pub struct Asker {
    kck: [u8; 16],
    kek: [u8; 16],
    asked: u64,
    questions: ArrayVec<OpenQuestion, 64>,
}

impl Model for Asker {
    ghost use Rattle.holder_link.specs.Asker.{Asking};

    ghost Value = { Asking };

    ghost view = { λ a. record { kck = a.kck; kek = a.kek; asked = a.asked; questions = a.questions.items } };
}

impl Asker {
    ghost use Rattle.holder_link.specs.Asker.{no_questions, after_ask, forget_answer, forgotten};
    ghost use Rattle.holder_link.specs.Asker.{Learns, RefusesAnswer};

    /// No question was asked.
    pub fn new(kck: &[u8; 16], kek: &[u8; 16]) -> Asker
        ensures { result ≡ no_questions kck.now kek.now }
    {
        Asker {
            kck: *kck,
            kek: *kek,
            asked: 0,
            questions: ArrayVec::new(),
        }
    }

    /// How many questions were asked.
    pub fn asked(&self) -> u64
        ensures { result ≡ self.now.asked }
    {
        self.asked
    }

    /// Asks a question with a nonce: writes its Ask to the front of `out`, and answers how many
    /// octets it takes. At most 64 questions are open. Takes no memory.
    pub fn ask(
        &mut self,
        question: &Question,
        nonce: &[u8; 16],
        out: &mut [u8],
    ) -> Result<usize, Full>
        requires question { IsQuestion question.now }
        requires more { self.old.asked < 2 ^ 64 - 1 }
        requires room { 62 + length question.now.r0kh_id ≤ length out.old }
        ensures full { IsErr result ↔ (length self.old.questions ≡ 64) }
        ensures room { OnOk result (length self.old.questions < 64) }
        ensures unchanged { OnErr result ((self.new ≡ self.old) × (out.new ≡ out.old)) }
        ensures asked { OnOk result (self.new ≡ after_ask nonce.now question.now self.old) }
        ensures written { IfOk result (λ end. SpellsAsk (take end out.new) nonce.now question.now
            (cmac self.old.kck (ask_front nonce.now question.now))) }
        ensures end { IfOk result (λ end. end ≡ 62 + length question.now.r0kh_id) }
        ensures rest { IfOk result (λ end. (n : ℕ) → end ≤ n → drop n out.new ≡ drop n out.old) }
        ensures len { length out.new ≡ length out.old }
    {
        if self.questions.is_full() {
            return Err(Full);
        }
        let end = write_ask(&self.kck, question, nonce, out);
        self.questions.push(OpenQuestion {
            n: self.asked,
            nonce: *nonce,
            name: question.name,
            r1kh: question.r1kh,
            sta: question.sta,
        });
        self.asked += 1;
        Ok(end)
    }

    /// Takes what came, and closes the question that it answers: of several of one nonce, the one
    /// asked first. Takes no memory.
    pub fn take(&mut self, octets: &[u8]) -> Result<Taken, LinkFault>
        ensures learnt { IfOk result (λ t. Learns self.old octets.now t.n t.answer) }
        ensures closed { IfOk result (λ t. self.new ≡ forgotten t.n self.old) }
        ensures refused { IfErr result (λ e.
            RefusesAnswer self.old octets.now e) }
        ensures unchanged { OnErr result (self.new ≡ self.old) }
    {
        let answer = match read_answer(octets) {
            Ok(answer) => answer,
            Err(place) => return Err(LinkFault::Form(place)),
        };
        let Some(place) = place_of_nonce(self.questions.as_slice(), &answer.nonce) else {
            return Err(LinkFault::Unasked);
        };
        let covered = answer.covered;
        if answer.code != cmac(&self.kck, covered) {
            return Err(LinkFault::Mac);
        }
        let question = self.questions[place];
        let said = answer.said;
        let heard = heard(
            &self.kek,
            &said,
            &question.name,
            question.r1kh,
            question.sta,
        );
        let Some(answer) = heard else {
            return Err(LinkFault::Wrap);
        };
        self.forget(question.n);
        Ok(Taken {
            n: question.n,
            answer,
        })
    }

    /// Closes a question by its number. Takes no memory.
    pub fn forget(&mut self, n: u64) -> Forgetting
        ensures answer { result ≡ forget_answer n self.old }
        ensures state { self.new ≡ forgotten n self.old }
    {
        match place_of_number(self.questions.as_slice(), n) {
            Some(place) => {
                self.questions.remove(place);
                Forgetting::Forgot
            }
            None => Forgetting::Nothing,
        }
    }
}
