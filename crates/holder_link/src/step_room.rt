//! Memory for one step.

ghost use Rattle.std.specs.Prelude.{◌≡◌, ◌≤◌, [], length, IfOk, vec_capacity, vec_len};

use crate::ends::LONGEST;
use domain_base::{NoMemory, Octets};
use link_steps::{LinkAnswer, LinkEvent, Step};
use std::alloc::Global;

/// A step whose octets and answer are still to come, with memory for both.
#[derive(Drop)]
pub(crate) struct StepRoom {
    pub event: LinkEvent,
    sent: Vec<u8>,
    ghost empty: { sent.items ≡ [] },
    ghost none: { vec_len sent ≡ 0 },
    ghost room: { 110 ≤ vec_capacity sent },
}

impl StepRoom {
    /// For a step of that event.
    pub(crate) fn of(alloc: Global, event: &LinkEvent) -> Result<StepRoom, NoMemory>
        ensures { IfOk result (λ r. r.event ≡ event.now) }
    {
        let sent = Vec::with_capacity(alloc, LONGEST)?;
        let event = event.copied(alloc)?;
        Ok(StepRoom { event, sent })
    }

    /// The step that sends those octets, at most 110, and has that answer. Takes no memory.
    pub(crate) fn fill(self, octets: &[u8], answer: LinkAnswer) -> Step
        requires { length octets.now ≤ 110 }
        ensures { result ≡ record { event = self.event; sent = octets.now; answer = answer } }
    {
        let StepRoom { event, mut sent } = self;
        match sent.extend_from_slice(octets) {
            Ok(()) => {}
            Err(_) => unreachable!(),
        }
        Step {
            event,
            sent: Octets(sent),
            answer,
        }
    }
}
