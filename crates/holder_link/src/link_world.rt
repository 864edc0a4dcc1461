//! Both ends, with the list of what happened.

ghost use Rattle.std.specs.Prelude.{◌≡◌, [], length, reverse, OnOk, OnErr};
ghost use Rattle.key_holders.specs.Listed.{rows_at};
ghost use Rattle.holder_link.specs.Acts.{IsFormed};
ghost use Rattle.holder_link.specs.History.{Link};

use crate::asker::Asker;
use crate::ends::{Ends, LONGEST};
use crate::server::Server;
use crate::step_room::StepRoom;
use domain_base::NoMemory;
use key_holders::ListHolders;
use link_steps::{LinkEvent, Step};
use std::alloc::Global;
use std::marker::Model;

/// Both ends under a link key, with one access point's key holders, and what happened so far.
/// Contracts see what the ends have now, and the steps, the newest first.
#[derive(Drop)]
pub struct LinkWorld {
    alloc: Global,
    ends: Ends,
    steps: Vec<Step>,
}

impl Model for LinkWorld {
    ghost use Rattle.std.specs.Prelude.{◌≡◌, length, reverse};
    ghost use Rattle.domain_base.specs.Octets.{AreOctets};
    ghost use Rattle.holder_link.specs.Between.{state_of_ends};
    ghost use Rattle.holder_link.specs.World.{Linked};

    ghost Value = { Linked };

    ghost view = { λ w. record { both = state_of_ends w.ends; steps = reverse w.steps.items } };

    ghost invariant = { λ w. (length w.ends.holders.ids ≡ 1) × AreOctets w.ends.server.kek };
}

impl LinkWorld {
    ghost use Rattle.holder_link.specs.Learning.{NoncesDiffer, Unforged, LearntRight};
    ghost use Rattle.holder_link.specs.World.{Happens, IsOf};

    /// Both ends, where nothing has happened. The key holders have exactly one access point.
    pub fn start(alloc: Global, kck: &[u8; 16], kek: &[u8; 16], holders: ListHolders) -> LinkWorld
        requires one { length holders.ids ≡ 1 }
        ensures steps { result.steps ≡ [] }
        ensures stands { IsOf (record {
          kck = kck.now;
          kek = kek.now;
          ids = holders.ids;
          begun = rows_at holders.rows 0;
        }) result }
    {
        let ends = Ends {
            asker: Asker::new(kck, kek),
            server: Server::new(kck, kek),
            holders,
        };
        LinkWorld {
            alloc,
            ends,
            steps: Vec::new(alloc),
        }
    }

    /// What happened, in order.
    pub fn steps(&self) -> &[Step]
        ensures { reverse result.now ≡ self.now.steps }
    {
        self.steps.as_slice()
    }

    /// One step more. Where memory ran out, nothing has happened.
    ///
    /// Where the nonces of all questions differ, and each CMAC that verified belongs to a datagram
    /// that an end sent, each answer learnt is right.
    pub fn event(&mut self, event: &LinkEvent) -> Result<(), NoMemory>
        requires formed { IsFormed event.now self.old.both.asking }
        ensures happens { OnOk result (Happens self.old event.now self.new) }
        ensures err { OnErr result (self.new ≡ self.old) }
        ensures stands { (link : Link) → IsOf link self.old → IsOf link self.new }
        ensures right { (link : Link) → IsOf link self.old → NoncesDiffer self.new.steps
            → Unforged self.new.steps → LearntRight link self.new.steps }
    {
        self.steps.reserve(1)?;
        let room = StepRoom::of(self.alloc, event)?;
        let mut out = [0; LONGEST];
        let acted = self.ends.act(event, &mut out)?;
        let step = room.fill(&out[..acted.end], acted.answer);
        self.steps.push_reserved(step);
        Ok(())
    }
}
