//! Both ends together.

ghost use Rattle.std.specs.Prelude.{◌≡◌, ◌≤◌, [], take, length, IfOk, OnErr};
ghost use Rattle.link_steps.specs.declared.steps.LinkEvent.TheVariants as event;
ghost use Rattle.holder_link.specs.Acts.{Acts, after, IsFormed};

use crate::asker::Asker;
use crate::server::Server;
use domain_base::NoMemory;
use key_hierarchy::PutAnswer;
use key_holders::{HolderRow, Holders, ListHolders};
use link_steps::{LinkAnswer, LinkEvent, Question};

/// The longest datagram: an Ask with an R0KH-ID of 48 octets.
pub const LONGEST: usize = 110;

/// The end that asks, and the end that has key holders, with them.
#[derive(Drop)]
pub struct Ends {
    /// The end that asks.
    pub asker: Asker,
    /// The end that has key holders.
    pub server: Server,
    /// Those key holders. A process that asks has none of its own: rows are at the other end.
    pub holders: ListHolders,
}

/// What became of an event, and how many octets are sent.
#[derive(Clone, Copy)]
pub struct Acted {
    /// What became of the event.
    pub answer: LinkAnswer,
    /// How many octets are sent.
    pub end: usize,
}

// Nothing is sent.
fn silent(answer: LinkAnswer) -> Acted
    ensures { result ≡ record { answer = answer; end = 0 } }
{
    Acted { answer, end: 0 }
}

impl Ends {
    ghost use Rattle.holder_link.specs.Between.{state_of_ends};

    fn ask(&mut self, question: &Question, nonce: &[u8; 16], out: &mut [u8; 110]) -> Acted
        requires formed { IsFormed (event.Ask question.now nonce.now) self.old.asker }
        ensures acts { Acts (state_of_ends self.old) (event.Ask question.now nonce.now)
            (take result.end out.new) result.answer }
        ensures state { state_of_ends self.new ≡ after (event.Ask question.now nonce.now)
            result.answer (state_of_ends self.old) }
        ensures within { result.end ≤ 110 }
    {
        let n = self.asker.asked();
        match self.asker.ask(question, nonce, out) {
            Ok(end) => Acted {
                answer: LinkAnswer::Asked(n),
                end,
            },
            Err(_) => Acted {
                answer: LinkAnswer::Full,
                end: 0,
            },
        }
    }

    fn forget(&mut self, n: u64) -> LinkAnswer
        ensures acts { Acts (state_of_ends self.old) (event.Forget n) [] result }
        ensures state { state_of_ends self.new ≡ after (event.Forget n) result
            (state_of_ends self.old) }
    {
        LinkAnswer::Closed(self.asker.forget(n))
    }

    fn row(&mut self, row: HolderRow) -> Result<LinkAnswer, NoMemory>
        requires one { length self.old.holders.ids ≡ 1 }
        ensures acts { IfOk result (λ a. Acts (state_of_ends self.old) (event.Row row) [] a) }
        ensures state { IfOk result (λ a. state_of_ends self.new ≡ after (event.Row row) a
            (state_of_ends self.old)) }
        ensures err { OnErr result (state_of_ends self.new ≡ state_of_ends self.old) }
    {
        match self.holders.put(0, row) {
            PutAnswer::NoMemory => Err(NoMemory),
            answer => Ok(LinkAnswer::Put(answer)),
        }
    }

    fn revoke(&mut self, name: &[u8; 16]) -> LinkAnswer
        requires one { length self.old.holders.ids ≡ 1 }
        ensures acts { Acts (state_of_ends self.old) (event.Revoke name.now) [] result }
        ensures state { state_of_ends self.new ≡ after (event.Revoke name.now) result
            (state_of_ends self.old) }
    {
        LinkAnswer::Revoked(self.holders.revoke(0, name))
    }

    fn to_asker(&mut self, octets: &[u8]) -> LinkAnswer
        ensures acts { Acts (state_of_ends self.old) (event.ToAsker octets.now) [] result }
        ensures state { state_of_ends self.new ≡ after (event.ToAsker octets.now) result
            (state_of_ends self.old) }
    {
        match self.asker.take(octets) {
            Ok(taken) => LinkAnswer::Learnt(taken.n, taken.answer),
            Err(fault) => LinkAnswer::Refused(fault),
        }
    }

    fn to_holder(&mut self, octets: &[u8], out: &mut [u8; 110]) -> Acted
        requires one { length self.old.holders.ids ≡ 1 }
        ensures acts { Acts (state_of_ends self.old) (event.ToHolder octets.now)
            (take result.end out.new) result.answer }
        ensures state { state_of_ends self.new ≡ after (event.ToHolder octets.now) result.answer
            (state_of_ends self.old) }
        ensures within { result.end ≤ 110 }
    {
        match self.server.tell(octets, &mut self.holders, out) {
            Ok(told) => Acted {
                answer: LinkAnswer::Told(told.answer),
                end: told.end,
            },
            Err(fault) => Acted {
                answer: LinkAnswer::Refused(fault),
                end: 0,
            },
        }
    }

    /// What an event does. What is sent stands at the front of `out`.
    pub fn act(&mut self, event: &LinkEvent, out: &mut [u8; 110]) -> Result<Acted, NoMemory>
        requires one { length self.old.holders.ids ≡ 1 }
        requires formed { IsFormed event.now self.old.asker }
        ensures acts { IfOk result (λ a. Acts (state_of_ends self.old) event.now
            (take a.end out.new) a.answer) }
        ensures state { IfOk result (λ a. state_of_ends self.new ≡ after event.now a.answer
            (state_of_ends self.old)) }
        ensures within { IfOk result (λ a. a.end ≤ 110) }
        ensures err { OnErr result (state_of_ends self.new ≡ state_of_ends self.old) }
    {
        match event {
            LinkEvent::Ask(question, nonce) => Ok(self.ask(question, nonce, out)),
            LinkEvent::Forget(n) => Ok(silent(self.forget(*n))),
            LinkEvent::Row(row) => Ok(silent(self.row(*row)?)),
            LinkEvent::Revoke(name) => Ok(silent(self.revoke(name))),
            LinkEvent::ToAsker(octets) => Ok(silent(self.to_asker(octets.as_slice()))),
            LinkEvent::ToHolder(octets) => Ok(self.to_holder(octets.as_slice(), out)),
        }
    }
}
