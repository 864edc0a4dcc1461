//! A temporal key in use at a node.

ghost use Rattle.std.specs.Prelude.{◌≡◌, ◌≤◌, ◌<◌, ◌+◌, ◌++◌, suc, nat_lt, [], ◌∷◌, Some, length};
ghost use Rattle.std.specs.Prelude.{replicate, IfOk, IfErr, OnOk, OnErr};
ghost use Rattle.replay_window.specs.Numbers.{last_number};
ghost use Rattle.ccmp_guard.specs.declared.guard.Role.TheVariants.{Pairwise, Group};
ghost use Rattle.ccmp_guard.specs.Ccmp.{IsHeader, packet_number};
ghost use Rattle.ccmp_guard.specs.Roles.{key_id, counter_of};
ghost use Rattle.ccmp_guard.specs.Held.{with_next};
ghost use Rattle.run_journal.specs.declared.acts.Kind.TheVariants.{Data as OfData};
ghost use Rattle.run_journal.specs.declared.acts.Outcome.TheVariants.{Done};
ghost use Rattle.run_journal.specs.declared.acts.Act.TheVariants.{Used, Sent};
ghost use Rattle.run_journal.specs.Events.{IsListed, IsReceiverOf, most_payload};
ghost use Rattle.domain_rules.specs.DataFrames.{data_header, data_body, sent_data, receiver};
ghost use Rattle.domain_rules.specs.DataFrames.{bssid_with};
ghost use Rattle.domain_rules.specs.DataRows.{used_acts};
ghost use Rattle.node_base.specs.Events.{seen};
ghost use Rattle.act_memory.specs.Templates.{seal_over};
ghost use Rattle.frame_intake.specs.SealedFields.{IsSealedData};
ghost use Rattle.frame_intake.specs.Views.{sealed_fields};
ghost use Rattle.data_frames.specs.Rooms.{IsRoomFor};
ghost use Rattle.data_frames.specs.Sending.{send_key_of, used_once, outcome_under};
ghost use Rattle.data_frames.specs.Taking.{reason_of, covered_front, taken_acts, IsOpenedTo};
ghost use Rattle.data_frames.specs.Taking.{IsStoppedBy, IsOpenedUnder};

use crate::handing_up::{OpenedUnder, add_opened, add_refused};
use crate::rooms::{Plain, SendRoom, TakeRoom};
use act_memory::{Outbox, idle};
use air_frame::data_header;
use ccmp_guard::{Guard, GuardFault, Role, packet_number, traffic_identifier};
use domain_base::{Mac, NoMemory, Node, Octets, Peer, ShortOctets, Tid};
use frame_intake::SealedData;
use node_base::{Here, address, direction};
use replay_window::LAST_NUMBER;
use run_journal::{Act, Kind, Outcome, Seal, Why};
use std::alloc::Global;
use std::marker::Model;

// The broadcast address (IEEE Std 802.11-2020, 9.2.4.3).
const BROADCAST: Mac = Mac([0xff; 6]);

/// A temporal key in use at a node. Contracts see its role and octets, the packet number used last
/// under it, and for each TID the greatest that was taken.
#[derive(Drop)]
pub struct DataKey {
    tk: [u8; 16],
    role: Role,
    guard: Guard,
}

impl Model for DataKey {
    ghost use Rattle.std.specs.Prelude.{◌≡◌, Some};
    ghost use Rattle.ccmp_guard.specs.Held.{Held};
    ghost use Rattle.data_frames.specs.Holding.{held_in};

    ghost Value = { Held };

    ghost view = { λ k. held_in k.guard };

    ghost invariant = { λ k. (k.guard ≡ Some (held_in k.guard)) × ((held_in k.guard).key ≡ k.tk)
        × ((held_in k.guard).role ≡ k.role) };
}

// A1: the peer's address, or that of all.
pub(crate) fn receiver(here: Here<'_>, to: Peer) -> Mac
    requires { IsReceiverOf here.domain.now here.node to }
    ensures { result.0 ≡ receiver here.entry.domain.now to }
{
    match to {
        Peer::One(peer) => address(here.domain, peer),
        Peer::All => BROADCAST,
    }
}

// A3: the BSSID of the access point of the two.
fn bssid(here: Here<'_>, to: Peer) -> Mac
    requires listed { IsListed here.domain.now here.node }
    requires receiver { IsReceiverOf here.domain.now here.node to }
    ensures { result.0 ≡ bssid_with here.entry.domain.now here.entry.node to }
{
    match (here.node, to) {
        (Node::Sta(_), Peer::One(peer)) => address(here.domain, peer),
        _ => address(here.domain, here.node),
    }
}

// The header of a frame of protected data.
fn header_to(here: Here<'_>, to: Peer, tid: Option<Tid>) -> ShortOctets<26>
    requires listed { IsListed here.domain.now here.node }
    requires receiver { IsReceiverOf here.domain.now here.node to }
    ensures octets { result ≡ data_header here.entry.domain.now here.entry.node to tid }
    ensures header { IsHeader result }
{
    let from = address(here.domain, here.node);
    let way = direction(here.node);
    data_header(way, true, tid, receiver(here, to), from, bssid(here, to))
}

impl DataKey {
    /// A pairwise key as it is installed.
    pub fn pairwise(tk: &[u8; 16]) -> Self
        ensures { result
            ≡ record { role = Pairwise; key = tk.now; used = 0; kept = replicate 16 0 } }
    {
        let mut guard = Guard::empty();
        guard.install(tk, Role::Pairwise, 0, 0);
        DataKey {
            tk: *tk,
            role: Role::Pairwise,
            guard,
        }
    }

    /// A group key with that key id, of which numbers up to `rsc` are taken no more.
    pub fn group(tk: &[u8; 16], id: u8, rsc: u64) -> Self
        requires { (1 ≤ id) × (id ≤ 3) }
        ensures { result
            ≡ record { role = Group id; key = tk.now; used = 0; kept = replicate 16 rsc } }
    {
        let role = Role::Group(id);
        let mut guard = Guard::empty();
        guard.install(tk, role, 0, rsc);
        DataKey {
            tk: *tk,
            role,
            guard,
        }
    }

    /// The packet number used last; 0 where none was.
    pub fn used(&self) -> u64
        ensures value { result ≡ self.now.used }
        ensures range { result ≤ last_number }
    {
        self.guard.used()
    }

    /// Sends a payload under the next packet number, or does nothing where the last one was used.
    pub fn send(
        &mut self,
        here: Here<'_>,
        to: Peer,
        tid: Option<Tid>,
        payload: &[u8],
        out: &mut Outbox,
    ) -> Result<Outcome, NoMemory>
        requires listed { IsListed here.domain.now here.node }
        requires receiver { IsReceiverOf here.domain.now here.node to }
        requires short { length payload.now ≤ most_payload }
        ensures acts { OnOk result (out.new.acts ≡ out.old.acts ++ used_acts here.entry.domain.now
            here.entry.node to tid payload.now (send_key_of self.old)) }
        ensures outcome { IfOk result (λ came. came ≡ outcome_under self.old) }
        ensures used { OnOk result (self.new ≡ used_once self.old) }
        // a payload that is sent takes two places at most of those that there were
        ensures spare { OnOk result
            (self.old.used < last_number → out.old.spare ≤ out.new.spare + 2) }
        ensures same { OnErr result (self.new ≡ self.old) }
        ensures kept { OnErr result (out.new.acts ≡ out.old.acts) }
    {
        if !self.has_next() {
            return idle(Why::Spent, out);
        }
        self.send_next(here, to, tid, payload, out)
    }

    // Is there a packet number that was not used?
    fn has_next(&self) -> bool
        ensures { result ≡ nat_lt self.now.used last_number }
    {
        self.used() < LAST_NUMBER
    }

    // Sends a payload under the next packet number.
    fn send_next(
        &mut self,
        here: Here<'_>,
        to: Peer,
        tid: Option<Tid>,
        payload: &[u8],
        out: &mut Outbox,
    ) -> Result<Outcome, NoMemory>
        requires listed { IsListed here.domain.now here.node }
        requires receiver { IsReceiverOf here.domain.now here.node to }
        requires short { length payload.now ≤ most_payload }
        requires number { self.old.used < last_number }
        ensures acts { OnOk result (out.new.acts ≡ out.old.acts
            ++ Used to self.old.key (key_id self.old.role) (suc self.old.used) payload.now
            ∷ sent_data here.entry.domain.now here.entry.node to tid self.old.key
            (key_id self.old.role) (suc self.old.used) payload.now ∷ []) }
        ensures outcome { IfOk result (λ came. came ≡ Done) }
        ensures used { OnOk result (self.new ≡ with_next self.old) }
        ensures spare { OnOk result
            (self.old.used < last_number → out.old.spare ≤ out.new.spare + 2) }
        ensures same { OnErr result (self.new ≡ self.old) }
        ensures kept { OnErr result (out.new.acts ≡ out.old.acts) }
    {
        let header = header_to(here, to, tid);
        let header = header.as_slice();
        let number = self.used() + 1;
        out.reserve(2)?;
        let room = SendRoom::take(here.alloc, header, number, payload)?;
        self.send_in(to, header, payload, room, out);
        Ok(Outcome::Done)
    }

    // Sends it, in that room.
    fn send_in(&mut self, to: Peer, header: &[u8], payload: &[u8], room: SendRoom, out: &mut Outbox)
        requires header { IsHeader header.now }
        requires number { self.old.used < last_number }
        requires short { length payload.now ≤ most_payload }
        requires frame { room.frame.items ≡ header.now ++ replicate (length payload.now + 16) 0 }
        requires spare { 2 ≤ out.old.spare }
        ensures acts { out.new.acts ≡ out.old.acts
            ++ Used to self.old.key (key_id self.old.role) (suc self.old.used) room.plain.items
            ∷ Sent to OfData (header.now ++ data_body self.old.key header.now
            (key_id self.old.role) (suc self.old.used) payload.now)
            (Some (seal_over room.covered.items self.old.key)) ∷ [] }
        ensures used { self.new ≡ with_next self.old }
        ensures spare { out.old.spare ≤ out.new.spare + 2 }
    {
        let SendRoom {
            plain,
            covered,
            frame,
            seal,
        } = room;
        let mut frame = frame;
        let key = self.tk;
        let id = self.key_id();
        let number = self.used() + 1;
        self.protect(header, payload, &mut frame);
        out.add(Act::Used {
            peer: to,
            key,
            id,
            number,
            octets: Octets(plain),
        });
        out.add(Act::Sent {
            peer: to,
            kind: Kind::Data,
            octets: Octets(frame),
            seal: Some(seal.filled(Seal {
                octets: Octets(covered),
                key,
            })),
        });
    }

    /// Takes protected data from that node: hands its payload up, or refuses it, and then the key
    /// is unchanged.
    pub fn take(
        &mut self,
        alloc: Global,
        from: Node,
        octets: &[u8],
        frame: &SealedData<'_>,
        out: &mut Outbox,
    ) -> Result<Outcome, NoMemory>
        requires whole { IsSealedData (sealed_fields frame.now) }
        ensures taken { IfOk result (λ outcome. IsOpenedUnder from octets.now
            (sealed_fields frame.now) self.old self.new (seen out.old.acts out.new.acts outcome)) }
        ensures same { OnErr result (self.new ≡ self.old) }
        ensures kept { OnErr result (out.new.acts ≡ out.old.acts) }
    {
        out.reserve(2)?;
        let room = TakeRoom::take(alloc, octets, frame)?;
        Ok(self.take_in(from, frame, room, out))
    }

    // Takes it, in that room.
    fn take_in(
        &mut self,
        from: Node,
        frame: &SealedData<'_>,
        room: TakeRoom,
        out: &mut Outbox,
    ) -> Outcome
        requires whole { IsSealedData (sealed_fields frame.now) }
        requires room { IsRoomFor room.taken.items (sealed_fields frame.now) room }
        requires spare { 2 ≤ out.old.spare }
        ensures { IsOpenedUnder from room.taken.items (sealed_fields frame.now) self.old self.new
            (seen out.old.acts out.new.acts result) }
    {
        let TakeRoom {
            taken,
            plain,
            covered,
            seal,
        } = room;
        let mut plain = plain;
        match self.open(frame, &mut plain) {
            Ok(()) => {
                let opened = Plain {
                    plain,
                    covered,
                    seal,
                };
                let key = self.opened_under(frame.header.octets);
                add_opened(from, taken, frame, key, opened, out);
                Outcome::Accepted
            }
            Err(fault) => add_refused(from, taken, fault, out),
        }
    }

    // Opens the body of a frame, and writes its plain text.
    fn open(&mut self, frame: &SealedData<'_>, plain: &mut [u8]) -> Result<(), GuardFault>
        requires whole { IsSealedData (sealed_fields frame.now) }
        requires room { length plain.old + 16 ≡ length frame.now.body.now }
        ensures opened { OnOk result
            (IsOpenedTo (sealed_fields frame.now) self.old self.new plain.new) }
        ensures stopped { IfErr result (λ why. IsStoppedBy (sealed_fields frame.now) self.old why) }
        ensures same { OnErr result (self.new ≡ self.old) }
        ensures len { length plain.new ≡ length plain.old }
    {
        let opened = self.guard.unprotect(frame.header.octets, frame.body, plain);
        let Err(fault) = opened else {
            return Ok(());
        };
        Err(fault)
    }

    // The key, with its counter for a frame with that header.
    fn opened_under(&self, header: &[u8]) -> OpenedUnder
        requires { IsHeader header.now }
        ensures tk { result.tk ≡ self.now.key }
        ensures id { result.id ≡ key_id self.now.role }
        ensures tid { result.tid ≡ counter_of self.now.role header.now }
    {
        let tk = self.tk;
        OpenedUnder {
            tk,
            id: self.key_id(),
            tid: self.counter(header),
        }
    }

    // Its key id.
    fn key_id(&self) -> u8
        ensures { result ≡ key_id self.now.role }
    {
        match self.role {
            Role::Pairwise => 0,
            Role::Group(id) => id,
        }
    }

    // The TID of the receive counter that a frame with that header is held against.
    fn counter(&self, header: &[u8]) -> Tid
        requires { IsHeader header.now }
        ensures { result ≡ counter_of self.now.role header.now }
    {
        let number = match self.role {
            Role::Pairwise => traffic_identifier(header),
            Role::Group(_) => 0,
        };
        match Tid::new(number) {
            Some(tid) => tid,
            None => unreachable!(),
        }
    }

    // Writes the body of the next frame behind its header, where there are zeros.
    fn protect(&mut self, header: &[u8], payload: &[u8], frame: &mut [u8])
        requires header { IsHeader header.now }
        requires number { self.old.used < last_number }
        requires short { length payload.now ≤ most_payload }
        requires frame { frame.old ≡ header.now ++ replicate (length payload.now + 16) 0 }
        ensures frame { frame.new ≡ header.now ++ data_body self.old.key header.now
            (key_id self.old.role) (suc self.old.used) payload.now }
        ensures len { length frame.new ≡ length frame.old }
        ensures used { self.new ≡ with_next self.old }
    {
        let (_, body) = frame.split_at_mut(header.len());
        if self.guard.protect(header, payload, body).is_err() {
            unreachable!()
        }
    }
}
