//! The end that has key holders.

ghost use Rattle.std.specs.Prelude.{◌≡◌, ◌≤◌, length, IfOk, IfErr, OnErr, take, drop, ℕ, true};
ghost use Rattle.key_holders.specs.Rows.{is_in};
ghost use Rattle.key_hierarchy.specs.declared.answers.PullAnswer.{PullAnswer};

use crate::reading::read_ask;
use crate::wrapping::said_of;
use crate::writing::write_answer;
use key_hierarchy::PullAnswer;
use key_holders::Holders;
use link_steps::LinkFault;
use mac_prf::cmac;

/// What was answered.
#[derive(Clone, Copy)]
pub struct Told {
    /// How many octets the Answer takes.
    pub end: usize,
    /// What the key holders gave.
    pub answer: PullAnswer,
}

/// The end that has key holders, under a link key.
#[derive(Clone, Copy)]
pub struct Server {
    /// The key of the CMACs.
    pub kck: [u8; 16],
    /// The key that wraps keys.
    pub kek: [u8; 16],
}

impl Server {
    ghost use Rattle.holder_link.specs.Server.{Tells, RefusesAsk};

    /// Under that link key.
    pub fn new(kck: &[u8; 16], kek: &[u8; 16]) -> Server
        ensures { result ≡ record { kck = kck.now; kek = kek.now } }
    {
        Server {
            kck: *kck,
            kek: *kek,
        }
    }

    /// Answers what came: writes to the front of `out` the Answer that a pull of the key holders
    /// gives, which the result has too. Takes no memory.
    pub fn tell<H: Holders>(
        &self,
        octets: &[u8],
        holders: &mut H,
        out: &mut [u8],
    ) -> Result<Told, LinkFault>
        requires room { 74 ≤ length out.old }
        ensures told { IfOk result (λ t. Tells self.now octets.now (λ id name r1kh sta a.
            H.pulls holders.old id name r1kh sta holders.new a) t.answer (take t.end out.new)) }
        ensures rest { IfOk result (λ t. (n : ℕ) → t.end ≤ n → drop n out.new ≡ drop n out.old) }
        ensures within { IfOk result (λ t. t.end ≤ 74) }
        ensures refused { IfErr result (λ e. RefusesAsk self.now.kck octets.now e) }
        ensures unchanged { OnErr result ((holders.new ≡ holders.old) × (out.new ≡ out.old)) }
        ensures rows { (r : ℕ) → is_in r (H.has holders.old) ≡ true →
            H.rows holders.new r ≡ H.rows holders.old r }
        ensures ids { H.ids holders.new ≡ H.ids holders.old }
        ensures still_has { H.has holders.new ≡ H.has holders.old }
        ensures no_less { H.no_less holders.old holders.new }
        ensures len { length out.new ≡ length out.old }
    {
        let ask = match read_ask(octets) {
            Ok(ask) => ask,
            Err(place) => return Err(LinkFault::Form(place)),
        };
        let covered = ask.covered;
        if ask.code != cmac(&self.kck, covered) {
            return Err(LinkFault::Mac);
        }
        let r0kh_id = ask.r0kh_id;
        let answer = holders.pull(r0kh_id, &ask.name, ask.r1kh, ask.sta);
        let said = said_of(&self.kek, &answer);
        let end = write_answer(&self.kck, &ask.nonce, said, out);
        Ok(Told { end, answer })
    }

    /// The same, with the number of octets of the Answer alone.
    pub fn answer<H: Holders>(
        &self,
        octets: &[u8],
        holders: &mut H,
        out: &mut [u8],
    ) -> Result<usize, LinkFault>
        requires room { 74 ≤ length out.old }
        ensures told { IfOk result (λ end. (a : PullAnswer) × Tells self.now octets.now
            (λ id name r1kh sta b. H.pulls holders.old id name r1kh sta holders.new b) a
            (take end out.new)) }
        ensures within { IfOk result (λ end. end ≤ 74) }
        ensures rest { IfOk result (λ end. (n : ℕ) → end ≤ n → drop n out.new ≡ drop n out.old) }
        ensures refused { IfErr result (λ e. RefusesAsk self.now.kck octets.now e) }
        ensures unchanged { OnErr result ((holders.new ≡ holders.old) × (out.new ≡ out.old)) }
        ensures rows { (r : ℕ) → is_in r (H.has holders.old) ≡ true →
            H.rows holders.new r ≡ H.rows holders.old r }
        ensures ids { H.ids holders.new ≡ H.ids holders.old }
        ensures still_has { H.has holders.new ≡ H.has holders.old }
        ensures no_less { H.no_less holders.old holders.new }
        ensures len { length out.new ≡ length out.old }
    {
        match self.tell(octets, holders, out) {
            Ok(told) => Ok(told.end),
            Err(fault) => Err(fault),
        }
    }
}
