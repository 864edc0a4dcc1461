//! Reading the datagrams.

ghost use Rattle.std.specs.Prelude.{◌≡◌, ◌≤◌, ℕ, List, length, slice_index, IfOk};
ghost use Rattle.std.specs.Prelude.{IfErr, IsOkAnd};
ghost use Rattle.link_steps.specs.declared.questions.Question.{Question};
ghost use Rattle.holder_link.specs.declared.fields.Said.{Said};
ghost use Rattle.holder_link.specs.Datagrams.{ask_front, answer_front, IsAsk, IsAnswer};
ghost use Rattle.holder_link.specs.Datagrams.{SpellsAsk, SpellsAnswer};
ghost use Rattle.holder_link.specs.Beginnings.{NotOne};
ghost use Rattle.holder_link.specs.Parts.{question_of, said_at};

use crate::datagrams::{Datagram, SIZE_AT, form_fault};
use crate::fields::{Answer, Ask, Said};
use domain_base::{Mac, array_at};

/// The Ask that octets are, or the length of the longest front of them that begins one. Takes no
/// memory.
pub fn read_ask(octets: &[u8]) -> Result<Ask<'_>, usize>
    ensures found { IfOk result (λ a. SpellsAsk octets.now a.nonce (question_of a) a.code) }
    ensures covered { IfOk result (λ a. a.covered.now ≡ ask_front a.nonce (question_of a)) }
    ensures only { (nonce : List ℕ) (q : Question) (code : List ℕ)
        → SpellsAsk octets.now nonce q code
        → IsOkAnd result (λ a. (a.nonce ≡ nonce) × (question_of a ≡ q) × (a.code ≡ code)) }
    ensures fault { IfErr result (λ place. NotOne IsAsk octets.now place) }
{
    if let Some(place) = form_fault(Datagram::Ask, octets) {
        return Err(place);
    }
    let end = usize::from(octets[SIZE_AT]) + SIZE_AT + 1;
    let ask = Ask {
        nonce: array_at::<16>(octets, 1),
        r0kh_id: &octets[SIZE_AT + 1..end],
        name: array_at::<16>(octets, end),
        r1kh: Mac(array_at::<6>(octets, end + 16)),
        sta: Mac(array_at::<6>(octets, end + 22)),
        code: array_at::<16>(octets, end + 28),
        covered: &octets[..end + 28],
    };
    Ok(ask)
}

// What an Answer says.
fn said_at(octets: &[u8]) -> Said
    requires long { 18 ≤ length octets.now }
    requires found { slice_index octets.now 17 ≡ 0 → 58 ≤ length octets.now }
    ensures { result ≡ said_at octets.now }
{
    match octets[SIZE_AT] {
        0 => Said::Found(array_at::<40>(octets, SIZE_AT + 1)),
        1 => Said::NoHolder,
        _ => Said::Absent,
    }
}

/// The Answer that octets are, or the length of the longest front of them that begins one. Takes no
/// memory.
pub fn read_answer(octets: &[u8]) -> Result<Answer<'_>, usize>
    ensures found { IfOk result (λ a. SpellsAnswer octets.now a.nonce a.said a.code) }
    ensures covered { IfOk result (λ a. a.covered.now ≡ answer_front a.nonce a.said) }
    ensures only { (nonce : List ℕ) (said : Said) (code : List ℕ)
        → SpellsAnswer octets.now nonce said code
        → IsOkAnd result (λ a. (a.nonce ≡ nonce) × (a.said ≡ said) × (a.code ≡ code)) }
    ensures fault { IfErr result (λ place. NotOne IsAnswer octets.now place) }
{
    if let Some(place) = form_fault(Datagram::Answer, octets) {
        return Err(place);
    }
    let end = octets.len() - 16;
    let answer = Answer {
        nonce: array_at::<16>(octets, 1),
        said: said_at(octets),
        code: array_at::<16>(octets, end),
        covered: &octets[..end],
    };
    Ok(answer)
}
