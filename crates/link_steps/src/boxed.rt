//! A step in memory of its own, so that what has one is small.

ghost use Rattle.std.specs.Prelude.{◌≡◌, IfOk};

use crate::steps::{LinkAnswer, LinkEvent, Step};
use domain_base::{NoMemory, Octets};
use std::alloc::Global;
use std::marker::Model;

/// A step in memory of its own. Contracts see the step.
#[derive(Drop)]
pub struct BoxedStep(Box<Step>);

impl Model for BoxedStep {
    ghost use Rattle.link_steps.specs.declared.steps.Step.{Step};

    ghost Value = { Step };

    ghost view = { λ b. b.0.value };
}

impl BoxedStep {
    /// That step.
    pub fn new(alloc: Global, step: Step) -> Result<Self, NoMemory>
        ensures { IfOk result (λ b. b ≡ step) }
    {
        let step = Box::new(alloc, step)?;
        Ok(BoxedStep(step))
    }

    /// The memory for a step, with one that forgets question 0 in it.
    pub fn room(alloc: Global) -> Result<Self, NoMemory> {
        let sent = Octets(Vec::new(alloc));
        BoxedStep::new(
            alloc,
            Step {
                event: LinkEvent::Forget(0),
                sent,
                answer: LinkAnswer::Full,
            },
        )
    }

    /// That step, in the memory of this one. Takes no memory.
    pub fn filled(self, step: Step) -> Self
        ensures { result ≡ step }
    {
        let BoxedStep(mut room) = self;
        *room = step;
        BoxedStep(room)
    }

    /// The step.
    pub fn step(&self) -> &Step
        ensures { result.now ≡ self.now }
    {
        self.0.as_ref()
    }
}
