//! Memory for one step.

ghost use Rattle.std.specs.Prelude.{◌≡◌, ◌≤◌, [], length, vec_capacity, vec_len};

use domain_base::{NoMemory, Octets};
use holder_link::LONGEST;
use link_steps::{BoxedStep, LinkAnswer, LinkEvent, Step};
use std::alloc::Global;

/// A step whose event, octets and answer are still to come, with memory for all of it.
#[derive(Drop)]
pub struct StepRoom {
    /// The memory for the step.
    pub boxed: BoxedStep,
    /// The memory for its octets.
    pub sent: Vec<u8>,
    ghost empty: { sent.items ≡ [] },
    ghost none: { vec_len sent ≡ 0 },
    ghost room: { 110 ≤ vec_capacity sent },
}

impl StepRoom {
    /// For any step.
    pub(crate) fn of(alloc: Global) -> Result<StepRoom, NoMemory> {
        let boxed = BoxedStep::room(alloc)?;
        let sent = Vec::with_capacity(alloc, LONGEST)?;
        Ok(StepRoom { boxed, sent })
    }

    /// The step of that event that sends those octets, at most 110, and has that answer. Takes no
    /// memory.
    pub(crate) fn fill(self, event: LinkEvent, octets: &[u8], answer: LinkAnswer) -> BoxedStep
        requires { length octets.now ≤ 110 }
        ensures { result ≡ record { event = event; sent = octets.now; answer = answer } }
    {
        let StepRoom { boxed, mut sent } = self;
        match sent.extend_from_slice(octets) {
            Ok(()) => {}
            Err(_) => unreachable!(),
        }
        boxed.filled(Step {
            event,
            sent: Octets(sent),
            answer,
        })
    }
}
