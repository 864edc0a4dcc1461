//! What happens at the two ends, step by step.

ghost use Rattle.std.specs.Prelude.{◌≡◌, IfOk};

use crate::faults::LinkFault;
use crate::questions::{Forgetting, Question};
use domain_base::{NoMemory, Octets};
use key_hierarchy::{PullAnswer, PutAnswer, RevokeAnswer};
use key_holders::HolderRow;
use std::alloc::Global;

/// What happens at one of the two ends.
#[derive(Drop)]
pub enum LinkEvent {
    /// A question is asked, with that nonce.
    Ask(Question, [u8; 16]),
    /// The question of that number is to be open no longer.
    Forget(u64),
    /// A row is put.
    Row(HolderRow),
    /// The row of that PMKR0Name is revoked.
    Revoke([u8; 16]),
    /// Octets come to the end that asks.
    ToAsker(Octets),
    /// Octets come to the end that has key holders.
    ToHolder(Octets),
}

/// What became of it.
#[derive(Clone, Copy)]
pub enum LinkAnswer {
    /// The question has that number.
    Asked(u64),
    /// Too many questions are open: it was not asked.
    Full,
    /// Whether the question was open.
    Closed(Forgetting),
    /// What became of the row.
    Put(PutAnswer),
    /// Whether there was such a row.
    Revoked(RevokeAnswer),
    /// The answer to the question of that number was learnt.
    Learnt(u64, PullAnswer),
    /// What the key holders gave was told.
    Told(PullAnswer),
    /// The octets were not taken.
    Refused(LinkFault),
}

/// One step of the two ends: what happened, the octets sent, none where nothing was, and what
/// became of it.
#[derive(Drop)]
pub struct Step {
    /// What happened.
    pub event: LinkEvent,
    /// The datagram sent.
    pub sent: Octets,
    /// What became of it.
    pub answer: LinkAnswer,
}

fn copied(alloc: Global, octets: &Octets) -> Result<Octets, NoMemory>
    ensures { IfOk result (λ o. o ≡ octets.now) }
{
    Ok(Octets(Vec::from_slice(alloc, octets.as_slice())?))
}

impl LinkEvent {
    /// The same, in memory of its own.
    pub fn copied(&self, alloc: Global) -> Result<LinkEvent, NoMemory>
        ensures { IfOk result (λ e. e ≡ self.now) }
    {
        match self {
            LinkEvent::Ask(q, nonce) => Ok(LinkEvent::Ask(q.copied(alloc)?, *nonce)),
            LinkEvent::Forget(n) => Ok(LinkEvent::Forget(*n)),
            LinkEvent::Row(row) => Ok(LinkEvent::Row(*row)),
            LinkEvent::Revoke(name) => Ok(LinkEvent::Revoke(*name)),
            LinkEvent::ToAsker(o) => Ok(LinkEvent::ToAsker(copied(alloc, o)?)),
            LinkEvent::ToHolder(o) => Ok(LinkEvent::ToHolder(copied(alloc, o)?)),
        }
    }
}
