//! Protected data for a group of stations, taken under a group key that a station keeps.

ghost use Rattle.std.specs.Prelude.{◌≡◌, ◌<◌, ◌≤◌, ◌+◌, nat_le, length, IfOk, IfErr, OnOk, OnErr};
ghost use Rattle.ccmp_guard.specs.Ccmp.{key_id_in, packet_number};
ghost use Rattle.ccmp_guard.specs.Held.{Held as AnyHeld};
ghost use Rattle.run_journal.specs.declared.acts.Outcome.TheVariants.{Accepted};
ghost use Rattle.node_base.specs.Events.{seen};
ghost use Rattle.frame_intake.specs.SealedFields.{IsSealedData};
ghost use Rattle.frame_intake.specs.Views.{sealed_fields};
ghost use Rattle.data_frames.specs.Holding.{kept_key};
ghost use Rattle.data_frames.specs.Rooms.{IsRoomFor};
ghost use Rattle.data_frames.specs.Taking.{IsOpenedTo, IsStoppedBy, IsOpenedUnder};

use crate::handing_up::{OpenedUnder, add_opened, add_refused};
use crate::rooms::{Plain, TakeRoom};
use act_memory::Outbox;
use ccmp_guard::{GuardFault, open_body, packet_number};
use domain_base::{NoMemory, Node, Tid};
use frame_intake::SealedData;
use run_journal::Outcome;
use std::alloc::Global;

/// A group key that a station keeps of an access point: its octets, its key id and its receive
/// counter.
#[derive(Clone, Copy)]
pub struct KeptKey {
    /// Its octets.
    pub key: [u8; 16],
    /// Its key id.
    pub id: u8,
    /// The greatest packet number that was taken.
    pub counter: u64,
}

impl KeptKey {
    /// Takes protected data for a group from that access point, with the key id of the key: hands
    /// its payload up, or refuses it. The counter is the caller's to move.
    pub fn take(
        &self,
        alloc: Global,
        from: Node,
        octets: &[u8],
        frame: &SealedData<'_>,
        out: &mut Outbox,
    ) -> Result<Outcome, NoMemory>
        requires whole { IsSealedData (sealed_fields frame.now) }
        requires id { key_id_in frame.now.body.now ≡ self.now.id }
        ensures taken { IfOk result (λ outcome. (new : AnyHeld) × IsOpenedUnder from octets.now
            (sealed_fields frame.now) (kept_key self.now.key self.now.id self.now.counter) new
            (seen out.old.acts out.new.acts outcome)) }
        ensures above { IfOk result (λ outcome. outcome ≡ Accepted
            → self.now.counter < packet_number frame.now.body.now) }
        ensures kept { OnErr result (out.new.acts ≡ out.old.acts) }
    {
        out.reserve(2)?;
        let room = TakeRoom::take(alloc, octets, frame)?;
        Ok(self.take_in(from, frame, room, out))
    }

    // Takes it, in that room.
    fn take_in(
        &self,
        from: Node,
        frame: &SealedData<'_>,
        room: TakeRoom,
        out: &mut Outbox,
    ) -> Outcome
        requires whole { IsSealedData (sealed_fields frame.now) }
        requires id { key_id_in frame.now.body.now ≡ self.now.id }
        requires room { IsRoomFor room.taken.items (sealed_fields frame.now) room }
        requires spare { 2 ≤ out.old.spare }
        ensures taken { (new : AnyHeld) × IsOpenedUnder from room.taken.items
            (sealed_fields frame.now) (kept_key self.now.key self.now.id self.now.counter) new
            (seen out.old.acts out.new.acts result) }
        ensures above { result ≡ Accepted → self.now.counter < packet_number frame.now.body.now }
    {
        let TakeRoom {
            taken,
            plain,
            covered,
            seal,
        } = room;
        let mut plain = plain;
        match self.open(frame, &mut plain) {
            Ok(()) => {
                let opened = Plain {
                    plain,
                    covered,
                    seal,
                };
                add_opened(from, taken, frame, self.used_here(), opened, out);
                Outcome::Accepted
            }
            Err(fault) => add_refused(from, taken, fault, out),
        }
    }

    /// The key, with the one counter that it has.
    pub(crate) fn used_here(&self) -> OpenedUnder
        ensures tk { result.tk ≡ self.now.key }
        ensures id { result.id ≡ self.now.id }
        ensures tid { result.tid ≡ 0 }
    {
        let Some(tid) = Tid::new(0) else {
            unreachable!()
        };
        let tk = self.key;
        OpenedUnder {
            tk,
            id: self.id,
            tid,
        }
    }

    // Was that packet number taken, or a greater one?
    fn has_taken(&self, number: u64) -> bool
        ensures { result ≡ nat_le number self.now.counter }
    {
        number <= self.counter
    }

    // Opens the body of a frame, and writes its plain text.
    fn open(&self, frame: &SealedData<'_>, plain: &mut [u8]) -> Result<(), GuardFault>
        requires whole { IsSealedData (sealed_fields frame.now) }
        requires id { key_id_in frame.now.body.now ≡ self.now.id }
        requires room { length plain.old + 16 ≡ length frame.now.body.now }
        ensures opened { OnOk result ((new : AnyHeld) × IsOpenedTo (sealed_fields frame.now)
            (kept_key self.now.key self.now.id self.now.counter) new plain.new) }
        ensures stopped { IfErr result (λ why. IsStoppedBy (sealed_fields frame.now)
            (kept_key self.now.key self.now.id self.now.counter) why) }
        ensures above { OnOk result (self.now.counter < packet_number frame.now.body.now) }
        ensures len { length plain.new ≡ length plain.old }
    {
        if self.has_taken(packet_number(frame.body)) {
            return Err(GuardFault::Replayed(self.counter));
        }
        let opened = open_body(&self.key, frame.header.octets, frame.body, plain);
        let Err(_) = opened else {
            return Ok(());
        };
        Err(GuardFault::Seal)
    }
}
