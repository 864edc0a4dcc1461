//! Announcements: action frames to all stations of an access point, sent under its current IGTK (IEEE
//! Std 802.11-2020, 12.5.4.4).

ghost use Rattle.std.specs.Prelude.{◌≡◌, ◌≤◌, ◌<◌, ◌+◌, ◌++◌, suc, nat_lt, [], ◌∷◌, Some, length};
ghost use Rattle.std.specs.Prelude.{replicate, IfOk, OnOk, OnErr};
ghost use Rattle.replay_window.specs.Numbers.{last_number};
ghost use Rattle.domain_base.specs.declared.names.Peer.TheVariants.{All};
ghost use Rattle.bip_guard.specs.Bip.{protected_body};
ghost use Rattle.run_journal.specs.declared.acts.Kind.TheVariants.{Action as OfAction};
ghost use Rattle.run_journal.specs.declared.acts.Outcome.TheVariants.{Done};
ghost use Rattle.run_journal.specs.declared.acts.Act.TheVariants.{Used, Sent};
ghost use Rattle.run_journal.specs.Events.{IsListed, IsReceiverOf, most_payload};
ghost use Rattle.domain_rules.specs.ManagementFrames.{action_header, announced, sent_action};
ghost use Rattle.domain_rules.specs.ManagementFrames.{announced_acts};
ghost use Rattle.act_memory.specs.Templates.{seal_over};
ghost use Rattle.data_frames.specs.Announcing.{with_used, announced_once, announced_outcome};

use crate::action_rooms::AnnounceRoom;
use crate::key::receiver;
use act_memory::{Outbox, idle};
use air_frame::{Subtype, management_header};
use bip_guard::seal_frame;
use domain_base::{NoMemory, Octets, Peer};
use node_base::{Here, address};
use replay_window::LAST_NUMBER;
use run_journal::{Act, Kind, Outcome, Seal, Why};
use std::marker::Model;

/// The current IGTK of an access point in use. Contracts see its octets, its key id, and the packet
/// number used last under it.
#[derive(Drop)]
pub struct IntegrityKey {
    igtk: [u8; 16],
    id: u8,
    used: u64,
}

impl Model for IntegrityKey {
    ghost use Rattle.std.specs.Prelude.{◌≤◌};
    ghost use Rattle.replay_window.specs.Numbers.{last_number};
    ghost use Rattle.domain_rules.specs.PacketNumbers.{SendKey};

    ghost Value = { SendKey };

    ghost view = { λ k. record { key = k.igtk; id = k.id; used = k.used } };

    ghost invariant = { λ k. k.used ≤ last_number };
}

// The header of an announcement.
fn header_of(here: Here<'_>) -> [u8; 24]
    requires listed { IsListed here.domain.now here.node }
    requires receiver { IsReceiverOf here.domain.now here.node All }
    ensures { result ≡ action_header here.entry.domain.now here.entry.node }
{
    let own = address(here.domain, here.node);
    management_header(Subtype::Action, receiver(here, Peer::All), own, own)
}

impl IntegrityKey {
    /// An IGTK with that key id, as it comes into use.
    pub fn made(igtk: &[u8; 16], id: u8) -> Self
        ensures { result ≡ record { key = igtk.now; id = id; used = 0 } }
    {
        IntegrityKey {
            igtk: *igtk,
            id,
            used: 0,
        }
    }

    /// The packet number used last; 0 where none was.
    pub fn used(&self) -> u64
        ensures value { result ≡ self.now.used }
        ensures range { result ≤ last_number }
    {
        self.used
    }

    /// Sends an announcement with that payload to all under the next packet number, or does nothing
    /// where the last one was used.
    pub fn announce(
        &mut self,
        here: Here<'_>,
        payload: &[u8],
        out: &mut Outbox,
    ) -> Result<Outcome, NoMemory>
        requires listed { IsListed here.domain.now here.node }
        requires receiver { IsReceiverOf here.domain.now here.node All }
        requires short { length payload.now ≤ most_payload }
        ensures acts { OnOk result (out.new.acts ≡ out.old.acts
            ++ announced_acts here.entry.domain.now here.entry.node (announced payload.now)
            self.old) }
        ensures outcome { IfOk result (λ came. came ≡ announced_outcome self.old) }
        ensures used { OnOk result (self.new ≡ announced_once self.old) }
        ensures same { OnErr result (self.new ≡ self.old) }
        ensures kept { OnErr result (out.new.acts ≡ out.old.acts) }
    {
        if !self.has_next() {
            return idle(Why::Spent, out);
        }
        self.announce_next(here, payload, out)
    }

    // Is there a packet number that was not used?
    fn has_next(&self) -> bool
        ensures { result ≡ nat_lt self.now.used last_number }
    {
        self.used() < LAST_NUMBER
    }

    // Sends it under the next packet number.
    fn announce_next(
        &mut self,
        here: Here<'_>,
        payload: &[u8],
        out: &mut Outbox,
    ) -> Result<Outcome, NoMemory>
        requires listed { IsListed here.domain.now here.node }
        requires receiver { IsReceiverOf here.domain.now here.node All }
        requires short { length payload.now ≤ most_payload }
        requires number { self.old.used < last_number }
        ensures acts { OnOk result (out.new.acts ≡ out.old.acts
            ++ Used All self.old.key self.old.id (suc self.old.used) (announced payload.now)
            ∷ sent_action here.entry.domain.now here.entry.node self.old.key self.old.id
            (suc self.old.used) (announced payload.now) ∷ []) }
        ensures outcome { IfOk result (λ came. came ≡ Done) }
        ensures used { OnOk result (self.new ≡ with_used self.old) }
        ensures same { OnErr result (self.new ≡ self.old) }
        ensures kept { OnErr result (out.new.acts ≡ out.old.acts) }
    {
        let header = header_of(here);
        let number = self.used() + 1;
        out.reserve(2)?;
        let room = AnnounceRoom::take(here.alloc, &header, self.id, number, payload)?;
        self.announce_in(&header, room, out);
        Ok(Outcome::Done)
    }

    // Sends it, in that room.
    fn announce_in(&mut self, header: &[u8], room: AnnounceRoom, out: &mut Outbox)
        requires header { length header.now ≡ 24 }
        requires number { self.old.used < last_number }
        requires frame { room.frame.items
            ≡ header.now ++ replicate (length room.content.items + 18) 0 }
        requires spare { 2 ≤ out.old.spare }
        ensures acts { out.new.acts ≡ out.old.acts
            ++ Used All self.old.key self.old.id (suc self.old.used) room.content.items
            ∷ Sent All OfAction (header.now ++ protected_body self.old.key header.now self.old.id
            (suc self.old.used) room.content.items)
            (Some (seal_over room.covered.items self.old.key)) ∷ [] }
        ensures used { self.new ≡ with_used self.old }
    {
        let AnnounceRoom {
            content,
            covered,
            frame,
            seal,
        } = room;
        let mut frame = frame;
        let key = self.igtk;
        let id = self.id;
        let number = self.used() + 1;
        protect(&key, header, id, number, &content, &mut frame);
        self.used = number;
        out.add(Act::Used {
            peer: Peer::All,
            key,
            id,
            number,
            octets: Octets(content),
        });
        out.add(Act::Sent {
            peer: Peer::All,
            kind: Kind::Action,
            octets: Octets(frame),
            seal: Some(seal.filled(Seal {
                octets: Octets(covered),
                key,
            })),
        });
    }
}

// Writes the protected body of a frame behind its header, where there are zeros.
fn protect(igtk: &[u8; 16], header: &[u8], id: u8, ipn: u64, content: &[u8], frame: &mut [u8])
    requires header { length header.now ≡ 24 }
    requires number { ipn ≤ last_number }
    requires frame { frame.old ≡ header.now ++ replicate (length content.now + 18) 0 }
    ensures frame { frame.new
        ≡ header.now ++ protected_body igtk.now header.now id ipn content.now }
    ensures len { length frame.new ≡ length frame.old }
{
    let (_, body) = frame.split_at_mut(header.len());
    let _ = seal_frame(igtk, header, id, ipn, content, body);
}
