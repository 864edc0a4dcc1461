//! A storm under way.

ghost use Rattle.std.specs.Prelude.{◌≡◌, [], IfOk, OnErr, OnOk};

use crate::events::next_event;
use crate::generator::Generator;
use crate::header::{domain, draw_secrets};
use crate::seen::{Frame, see};
use domain_base::NoMemory;
use run_journal::{Domain, Event, Journal};
use std::alloc::Global;
use std::marker::Model;

/// How many events a storm has.
pub const EVENTS: u32 = 2000;

/// A storm: a domain of four access points and eight stations with fast transition, and its events,
/// each a round by itself.
///
/// One number makes all of it: the same domain, and of the same journals the same events.
#[derive(Drop)]
pub struct Storm {
    number: u32,
    generator: Generator,
    seen: usize,
    frames: Vec<Frame>,
}

impl Model for Storm {
    ghost use Rattle.storm.specs.Course.{Course};

    ghost Value = { Course };

    ghost view = { λ s. record {
      number = s.number;
      state = s.generator;
      seen = s.seen;
      frames = s.frames.items;
    } };
}

impl Storm {
    ghost use Rattle.storm.specs.Course.{HasSeen, HasSeenAll};
    ghost use Rattle.storm.specs.Events.{event_of};
    ghost use Rattle.storm.specs.Frames.{frames_of};
    ghost use Rattle.storm.specs.Header.{begun, domain_of};

    /// The storm of that number before its first event. Takes no memory.
    #[tactic(auto, unfolding(crate::specs::Header::begun))]
    pub fn new(alloc: Global, number: u32) -> Self
        ensures { result
            ≡ record { number = number; state = begun number; seen = 0; frames = [] } }
    {
        let mut generator = Generator::new(number);
        let _secrets = draw_secrets(&mut generator);
        Storm {
            number,
            generator,
            seen: 0,
            frames: Vec::new(alloc),
        }
    }

    /// Its domain, with all nodes listed.
    pub fn domain(&self, alloc: Global) -> Result<Domain, NoMemory>
        ensures { IfOk result (λ d. d ≡ domain_of self.now.number) }
    {
        domain(alloc, self.number)
    }

    /// Its next event. The journal has grown at its end alone since the event before.
    ///
    /// Without memory the next event is still the same.
    pub fn event(&mut self, alloc: Global, journal: &Journal) -> Result<Event, NoMemory>
        requires seen { HasSeen self.old.seen self.old.frames journal.now.entries }
        ensures event { IfOk result
            (λ e. e ≡ (event_of (frames_of journal.now.entries) self.old.state).0) }
        ensures state { OnOk result
            (self.new.state ≡ (event_of (frames_of journal.now.entries) self.old.state).1) }
        ensures seen { OnOk result
            (HasSeenAll self.new.seen self.new.frames journal.now.entries) }
        ensures number { self.new.number ≡ self.old.number }
        ensures same { OnErr result (self.new.state ≡ self.old.state) }
        ensures kept { HasSeen self.new.seen self.new.frames journal.now.entries }
    {
        see(&mut self.seen, &mut self.frames, journal)?;
        let mut generator = self.generator;
        let event = next_event(&mut generator, alloc, &self.frames)?;
        self.generator = generator;
        Ok(event)
    }
}
