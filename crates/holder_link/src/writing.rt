//! Writing the datagrams.

ghost use Rattle.std.specs.Prelude.{◌≡◌, ◌≤◌, ◌+◌, ◌++◌, ℕ, length, take, drop};
ghost use Rattle.mac_prf.specs.Cmac.{cmac};
ghost use Rattle.holder_link.specs.Datagrams.{ask_front, answer_front, IsQuestion, SpellsAsk};
ghost use Rattle.holder_link.specs.Datagrams.{SpellsAnswer, IsSaid, said_octets};

use crate::fields::Said;
use domain_base::put;
use link_steps::Question;
use mac_prf::cmac;

// Writes a question to the front of `out`, without its CMAC, and answers how many octets it takes.
fn put_ask(question: &Question, nonce: &[u8; 16], out: &mut [u8]) -> usize
    requires question { IsQuestion question.now }
    requires room { 46 + length question.now.r0kh_id ≤ length out.old }
    ensures end { result ≡ 46 + length question.now.r0kh_id }
    ensures front { take result out.new ≡ ask_front nonce.now question.now }
    ensures rest { (n : ℕ) → result ≤ n → drop n out.new ≡ drop n out.old }
    ensures len { length out.new ≡ length out.old }
{
    let id = question.r0kh_id.as_slice();
    let at = put(out, 0, &[1]);
    let at = put(out, at, nonce);
    let at = put(out, at, &[id.len() as u8]);
    let at = put(out, at, id);
    let at = put(out, at, &question.name);
    let at = put(out, at, &question.r1kh.0);
    put(out, at, &question.sta.0)
}

// Puts the CMAC of the octets before a place there.
fn put_code(kck: &[u8; 16], out: &mut [u8], at: usize) -> usize
    requires room { at + 16 ≤ length out.old }
    ensures end { result ≡ at + 16 }
    ensures front { take result out.new
        ≡ take at out.old ++ cmac kck.now (take at out.old) }
    ensures code { length (cmac kck.now (take at out.old)) ≡ 16 }
    ensures rest { (n : ℕ) → result ≤ n → drop n out.new ≡ drop n out.old }
    ensures len { length out.new ≡ length out.old }
{
    let code = cmac(kck, &out[..at]);
    put(out, at, &code)
}

/// Writes the Ask of a question to the front of `out`, and answers how many octets it takes. Takes
/// no memory.
pub fn write_ask(kck: &[u8; 16], question: &Question, nonce: &[u8; 16], out: &mut [u8]) -> usize
    requires question { IsQuestion question.now }
    requires room { 62 + length question.now.r0kh_id ≤ length out.old }
    ensures end { result ≡ 62 + length question.now.r0kh_id }
    ensures spelled { SpellsAsk (take result out.new) nonce.now question.now
        (cmac kck.now (ask_front nonce.now question.now)) }
    ensures rest { (n : ℕ) → result ≤ n → drop n out.new ≡ drop n out.old }
    ensures len { length out.new ≡ length out.old }
{
    let at = put_ask(question, nonce, out);
    put_code(kck, out, at)
}

// Writes what is said, after the nonce.
fn put_said(said: Said, out: &mut [u8], at: usize) -> usize
    requires room { at + 41 ≤ length out.old }
    ensures end { result ≡ at + length (said_octets said) }
    ensures within { result ≤ at + 41 }
    ensures front { take result out.new ≡ take at out.old ++ said_octets said }
    ensures rest { (n : ℕ) → result ≤ n → drop n out.new ≡ drop n out.old }
    ensures len { length out.new ≡ length out.old }
{
    match said {
        Said::Found(wrapped) => {
            let at = put(out, at, &[0]);
            put(out, at, &wrapped)
        }
        Said::NoHolder => put(out, at, &[1]),
        Said::Absent => put(out, at, &[2]),
    }
}

/// Writes an Answer to the front of `out`, and answers how many octets it takes: 74 where a key was
/// found, and else 34. Takes no memory.
pub fn write_answer(kck: &[u8; 16], nonce: &[u8; 16], said: Said, out: &mut [u8]) -> usize
    requires said { IsSaid said }
    requires room { 74 ≤ length out.old }
    ensures within { result ≤ 74 }
    ensures spelled { SpellsAnswer (take result out.new) nonce.now said
        (cmac kck.now (answer_front nonce.now said)) }
    ensures rest { (n : ℕ) → result ≤ n → drop n out.new ≡ drop n out.old }
    ensures len { length out.new ≡ length out.old }
{
    let at = put(out, 0, &[2]);
    let at = put(out, at, nonce);
    let at = put_said(said, out, at);
    put_code(kck, out, at)
}
