//! A station's state, and what each event does to it.

ghost use Rattle.std.specs.Prelude.{Ok, true, false, ◌≡◌, ◌<◌, ◌≤◌, ◌+◌, ◌++◌, ◌∷◌, ℕ, List, [], length};
ghost use Rattle.std.specs.Prelude.{Option, Some, IfOk, IsOk, OnOk, OnErr};
ghost use Rattle.domain_base.specs.declared.names.Akm.{Akm as AnyAkm};
ghost use Rattle.domain_base.specs.declared.names.Node.TheVariants.{Ap, Sta};
ghost use Rattle.eapol_key.specs.Fields.{IsKeyFrame};
ghost use Rattle.run_journal.specs.declared.acts.Act.{Act as AnyAct};
ghost use Rattle.run_journal.specs.declared.acts.Kind.TheVariants.{AssocResp, FtResp, ReResp};
ghost use Rattle.rsn_elements.specs.Elements.{HasRaw};
ghost use Rattle.rsn_elements.specs.Fields.{element_fields};
ghost use Rattle.ft_exchange.specs.Comes.{IsManagementFrom};
ghost use Rattle.run_journal.specs.declared.acts.Reason.{Reason as AnyReason};
ghost use Rattle.run_journal.specs.declared.acts.Outcome.TheVariants.{Accepted, Refused};
ghost use Rattle.run_journal.specs.declared.acts.Act.TheVariants.{Opened, Drew};
ghost use Rattle.run_journal.specs.declared.acts.Drawn.TheVariants.{Nonce};
ghost use Rattle.run_journal.specs.declared.acts.Start.TheVariants.{Connect};
ghost use Rattle.run_journal.specs.declared.domain.Domain.{Domain as AnyDomain};
ghost use Rattle.domain_rules.specs.Here.{here};
ghost use Rattle.key_hierarchy.specs.Sizes.{IsSsid};
ghost use Rattle.domain_rules.specs.Frames.{sent_assoc_req};
ghost use Rattle.domain_rules.specs.Network.{InForm, draw_end};
ghost use Rattle.run_journal.specs.Events.{IsListed, IsReceiverOf, most_payload};
ghost use Rattle.domain_rules.specs.Replies.{IsMessageFrom};
ghost use Rattle.domain_rules.specs.Closing.{close_associated, close_pending};
ghost use Rattle.domain_rules.specs.Rows.{Begin, Roam, Leave, Send, Take};
ghost use Rattle.frame_intake.specs.ActionFields.{IsActionFrame};
ghost use Rattle.frame_intake.specs.SealedFields.{IsSealedData};
ghost use Rattle.frame_intake.specs.Views.{management_fields, message_fields, sealed_fields};
ghost use Rattle.frame_intake.specs.Views.{action_fields};
ghost use Rattle.node_base.specs.Changing.{after, HasRoomFor, most_changed};
ghost use Rattle.node_base.specs.Events.{event_of, IsEventAt, Steps, seen};
ghost use Rattle.station_node.specs.Parts.{peer_of_attempt, peer_of_session};
ghost use Rattle.station_node.specs.Parts.{roams_from, peer_pending, opens_by};
ghost use Rattle.station_node.specs.Responses.{response_outcome};
ghost use Rattle.station_node.specs.declared.attempt.Association.TheVariants.{Requested};
ghost use Rattle.station_node.specs.Parts.{IsElsewhere};
ghost use Rattle.group_key.specs.Keys.{kept_counter};
ghost use Rattle.station_node.specs.Stands.{Stands};
ghost use Rattle.station_node.specs.State.{memory_at};
ghost use Rattle.station_node.specs.Steps.{Takes, TakesKey, turn, IsDataFrom, IsActionFrom};

use crate::attempt::{Association, Attempt};
use crate::group_data::{take_group, take_integrity};
use crate::handing::{hand, holder_of};
use crate::managed::Managed;
use crate::memories::Memories;
use crate::moving::{Way, answer, arrive};
use crate::peers::{has_neither, is_with, number_of, receiver_number};
use crate::refusing::{refuse, refuse_message};
use crate::renewing::{drawn_after, hand_first, next_nonce, opens_renewal};
use crate::responses::{response_fault, response_fte, take_accepted};
use crate::roaming::{Transition, can_roam, reserve_transition, roams_from};
use crate::session::Session;
use act_memory::{Outbox, idle, settle};
use air_frame::Action;
use data_frames::DataKey;
use domain_base::{NoMemory, Node, Peer, ShortOctets, Tid};
use frame_intake::{Heard, Judged, SealedData, judge, read};
use frame_making::assoc_req;
use key_hierarchy::LastDerived;
use node_base::{DRAW_END, Here, NodeEvent, nonce};
use run_journal::{Act, Domain, Kind, Outcome, Reason, Why, is_group};
use std::alloc::Global;
use std::marker::Model;
use supplicant::{StaStart, Supplicant};

// A key id that GTKs have, and one that IGTKs have (IEEE Std 802.11-2020, 12.7.2).
const GTK_ID: u8 = 1;

const IGTK_ID: u8 = 4;

/// A station of the domain.
#[derive(Drop)]
pub struct StationNode {
    number: u16,
    drawn: u64,
    attempt: Option<Attempt>,
    session: Option<Session>,
    memories: Memories,
    // With suite 4 the R0KH-ID of the last four-way handshake.
    r0kh_id: ShortOctets<48>,
    // The keys of its hierarchy that were derived last: they show in no result.
    derived: LastDerived,
}

impl Model for StationNode {
    ghost use Rattle.station_node.specs.State.{State, HavePlaces};

    ghost Value = { State };

    ghost view = { λ s. record {
      number = s.number;
      drawn = s.drawn;
      attempt = s.attempt;
      session = s.session;
      memories = s.memories;
      r0kh_id = s.r0kh_id;
    } };

    ghost invariant = { λ s. HavePlaces s.attempt s.session s.memories };
}

impl StationNode {
    /// The station as it starts. It begins to draw at that number.
    pub fn start(alloc: Global, sta: u16, first_draw: u64) -> Self
        requires { first_draw < draw_end }
        ensures number { result.number ≡ sta }
        ensures stands { (d : AnyDomain) → Stands d first_draw result [] }
    {
        StationNode {
            number: sta,
            drawn: first_draw,
            attempt: None,
            session: None,
            memories: Memories::new(alloc),
            r0kh_id: ShortOctets::of(&[]),
            derived: LastDerived::none(),
        }
    }

    /// The receive counter of a GTK that the station keeps of that access point, a packet number
    /// below 2^48: the greatest, since the key was installed, of the RSCs that came with it and of
    /// the packet numbers that the station took under it. None where it keeps no such key (IEEE Std
    /// 802.11-2020, 12.7.7).
    pub fn group_counter(&self, ap: u16, key: &[u8; 16]) -> Option<u64>
        ensures { result ≡ kept_counter key.now (memory_at self.now.memories ap).gtks }
    {
        self.memories.counter_of(ap, key, GTK_ID)
    }

    /// The receive counter of an IGTK that the station keeps of that access point, in the same way
    /// by the IPNs that came with it (IEEE Std 802.11-2020, 12.5.4.4).
    pub fn integrity_counter(&self, ap: u16, key: &[u8; 16]) -> Option<u64>
        ensures { result ≡ kept_counter key.now (memory_at self.now.memories ap).igtks }
    {
        self.memories.counter_of(ap, key, IGTK_ID)
    }

    /// Takes one event. What the station stands for is of the network with the changed key, where the
    /// event is one, which takes no memory where there is room for its acts.
    pub fn step(
        &mut self,
        alloc: Global,
        domain: &Domain,
        event: NodeEvent<'_>,
        out: &mut Outbox,
    ) -> Result<Outcome, NoMemory>
        requires form { InForm domain.now }
        requires listed { self.old.number < length domain.now.stas }
        requires event { IsEventAt domain.now (Sta self.old.number) (event_of event) }
        ensures number { self.new.number ≡ self.old.number }
        ensures steps { IfOk result (λ outcome. (first : ℕ) (h : List AnyAct)
            → Stands domain.now first self.old h
            → Steps (here domain.now first (Sta self.old.number)) (event_of event.entry)
            (Stands (after domain.now (event_of event.entry)) first self.new) h
            (seen out.old.acts out.new.acts outcome)) }
        ensures refused { IfOk result
            (λ outcome. (why : AnyReason) → outcome ≡ Refused why → self.new ≡ self.old) }
        ensures same { OnErr result (self.new ≡ self.old) }
        ensures kept { OnErr result (out.new.acts ≡ out.old.acts) }
        // a changed key takes no memory
        ensures always { HasRoomFor domain.now (event_of event.entry) out.old.spare
            → IsOk result }
        ensures spare { HasRoomFor domain.now (event_of event.entry) out.old.spare
            → out.old.spare ≤ out.new.spare + most_changed (length domain.now.stas) }
    {
        let here = Here {
            alloc,
            domain,
            node: Node::Sta(self.number),
        };
        match event {
            NodeEvent::Connect(ap) => self.connect(here, ap, out),
            NodeEvent::Take(octets) => self.take(here, octets, out),
            NodeEvent::Send(to, Some(tid), payload) => self.send(here, to, Some(tid), payload, out),
            NodeEvent::Send(to, None, payload) => self.send(here, to, None, payload, out),
            NodeEvent::Leave => self.leave(out),
            NodeEvent::Roam(ap) => self.roam(here, ap, out),
            NodeEvent::Secret(_, psk) => self.change(psk, out),
            NodeEvent::Retry(_) => unreachable!(),
            NodeEvent::Rekey => unreachable!(),
            NodeEvent::Expire(_) => unreachable!(),
            NodeEvent::Revoke(_) => unreachable!(),
            NodeEvent::Renew(_) => unreachable!(),
            NodeEvent::Announce(_) => unreachable!(),
        }
    }

    // Takes a frame that was delivered.
    fn take(&mut self, here: Here<'_>, octets: &[u8], out: &mut Outbox) -> Result<Outcome, NoMemory>
        requires form { InForm here.domain.now }
        requires listed { self.old.number < length here.domain.now.stas }
        requires node { here.node ≡ Sta self.old.number }
        ensures { Takes here.entry.domain.now (Take octets.now)
            (turn self.old self.new out.old.acts out.new.acts) result }
    {
        let delivered = read(here.domain.akm, here.domain.extras.mfp, octets);
        match judge(here.domain, here.node, &delivered) {
            Judged::Settled(from, outcome) => {
                settle(here.alloc, from, octets, delivered.kind(), outcome, out)
            }
            Judged::Managed(from, frame, elements) => {
                let managed = Managed {
                    octets,
                    frame,
                    elements,
                };
                self.take_management(here, number_of(from), &managed, out)
            }
            Judged::Keyed(from, message) => {
                self.take_message(here, number_of(from), &Heard { octets, message }, out)
            }
            Judged::Sealed(from, frame) => {
                self.take_data(here.alloc, number_of(from), octets, &frame, out)
            }
            Judged::Acting(from, frame) => {
                self.take_acting(here.alloc, number_of(from), octets, &frame, out)
            }
        }
    }

    // Begins an attempt with that access point, or does nothing where the last draw was made.
    fn connect(&mut self, here: Here<'_>, ap: u16, out: &mut Outbox) -> Result<Outcome, NoMemory>
        requires form { InForm here.domain.now }
        requires listed { self.old.number < length here.domain.now.stas }
        requires node { here.node ≡ Sta self.old.number }
        requires ap { ap < length here.domain.now.aps }
        ensures { Takes here.entry.domain.now (Begin ap)
            (turn self.old self.new out.old.acts out.new.acts) result }
    {
        if self.drawn >= DRAW_END {
            return idle(Why::Spent, out);
        }
        let snonce = nonce(here.domain, here.node, self.drawn);
        ask(here, ap, snonce, &self.attempt, &self.session, out)?;
        self.drawn += 1;
        self.attempt = Some(Attempt {
            ap,
            association: Association::Requested(snonce),
        });
        self.session = None;
        Ok(Outcome::Done)
    }

    // Begins a fast transition to that access point, or does nothing: without a session, where it
    // is with that access point, or where the last draw was made.
    fn roam(&mut self, here: Here<'_>, ap: u16, out: &mut Outbox) -> Result<Outcome, NoMemory>
        requires form { InForm here.domain.now }
        requires suite { here.domain.now.akm ≡ AnyAkm.FtPsk }
        requires listed { self.old.number < length here.domain.now.stas }
        requires node { here.node ≡ Sta self.old.number }
        requires ap { ap < length here.domain.now.aps }
        ensures { Takes here.entry.domain.now (Roam ap)
            (turn self.old self.new out.old.acts out.new.acts) result }
    {
        match roams_from(&self.session, ap, self.drawn) {
            Ok(current) => self.roam_from(here, ap, current, out),
            Err(why) => idle(why, out),
        }
    }

    // From the session with the access point `current`, which is listed, under an R0KH-ID.
    fn roam_from(
        &mut self,
        here: Here<'_>,
        ap: u16,
        current: u16,
        out: &mut Outbox,
    ) -> Result<Outcome, NoMemory>
        requires form { InForm here.domain.now }
        requires suite { here.domain.now.akm ≡ AnyAkm.FtPsk }
        requires listed { self.old.number < length here.domain.now.stas }
        requires node { here.node ≡ Sta self.old.number }
        requires ap { ap < length here.domain.now.aps }
        requires from { roams_from self.old.session ap self.old.drawn ≡ Ok current }
        ensures { Takes here.entry.domain.now (Roam ap)
            (turn self.old self.new out.old.acts out.new.acts) result }
    {
        let r0kh_id = self.r0kh_id.as_slice();
        if !can_roam(here.domain, current, r0kh_id) {
            return idle(Why::NoSession, out);
        }
        let send = reserve_transition(here, ap, &mut self.memories, out)?;
        let number = self.drawn;
        let snonce = nonce(here.domain, here.node, number);
        let transition = Transition {
            sta: self.number,
            ap,
            current,
            r0kh_id,
            snonce: &snonce,
        };
        let originator = transition.begin(here.domain, &self.attempt, &self.derived, send, out);
        self.drawn = number + 1;
        self.attempt = Some(Attempt {
            ap,
            association: Association::Moving(originator),
        });
        Ok(Outcome::Done)
    }

    // Drops the attempt, of whatever kind, and the session, or does nothing where there is neither.
    // What is kept of group keys stays.
    fn leave(&mut self, out: &mut Outbox) -> Result<Outcome, NoMemory>
        ensures { (d : AnyDomain)
            → Takes d Leave (turn self.old self.new out.old.acts out.new.acts) result }
    {
        if has_neither(&self.attempt, &self.session) {
            return idle(Why::Nothing, out);
        }
        out.reserve(2)?;
        close(&self.attempt, &self.session, out);
        self.attempt = None;
        self.session = None;
        Ok(Outcome::Done)
    }

    // The station's key is changed: the attempt and the session under the old one are dropped. What
    // is kept of group keys stays. Takes no memory where there is room for three acts.
    fn change(&mut self, psk: &[u8; 32], out: &mut Outbox) -> Result<Outcome, NoMemory>
        ensures taken { (d : AnyDomain) (named : Option ℕ) → TakesKey d named psk.now
            (turn self.old self.new out.old.acts out.new.acts) result }
        ensures always { 3 ≤ out.old.spare → IsOk result }
        ensures spare { 3 ≤ out.old.spare → out.old.spare ≤ out.new.spare + 3 }
    {
        out.reserve(3)?;
        close(&self.attempt, &self.session, out);
        out.add(Act::Secret {
            sta: Node::Sta(self.number),
            psk: *psk,
        });
        self.attempt = None;
        self.session = None;
        Ok(Outcome::Done)
    }

    // Sends a payload under the key of the session with that access point, or does nothing where
    // there is none.
    fn send(
        &mut self,
        here: Here<'_>,
        to: Peer,
        tid: Option<Tid>,
        payload: &[u8],
        out: &mut Outbox,
    ) -> Result<Outcome, NoMemory>
        requires listed { self.old.number < length here.domain.now.stas }
        requires node { here.node ≡ Sta self.old.number }
        requires receiver { IsReceiverOf here.domain.now (Sta self.old.number) to }
        requires short { length payload.now ≤ most_payload }
        ensures { Takes here.entry.domain.now (Send to tid payload.now)
            (turn self.old self.new out.old.acts out.new.acts) result }
    {
        let with = receiver_number(here.domain, self.number, to);
        match &mut self.session {
            Some(Session { ap, key, .. }) if *ap == with => key.send(here, to, tid, payload, out),
            _ => idle(Why::NoKey, out),
        }
    }

    // Protected data of that access point: for the station alone it is under the key of the session
    // with it, and for a group under one of the group keys that are kept of it.
    fn take_data(
        &mut self,
        alloc: Global,
        ap: u16,
        octets: &[u8],
        frame: &SealedData<'_>,
        out: &mut Outbox,
    ) -> Result<Outcome, NoMemory>
        requires whole { IsSealedData (sealed_fields frame.now) }
        ensures { (d : AnyDomain) → ap < length d.aps
            → IsDataFrom d self.old.number ap octets.now (sealed_fields frame.now)
            → Takes d (Take octets.now) (turn self.old self.new out.old.acts out.new.acts) result }
    {
        match &mut self.session {
            Some(Session { ap: with, key, .. }) if *with == ap => {
                if is_group(frame.header.a1) {
                    let kept = self.memories.of(ap);
                    return take_group(alloc, ap, octets, frame, kept, out);
                }
                key.take(alloc, Node::Ap(ap), octets, frame, out)
            }
            _ => refuse(alloc, ap, octets, Kind::Data, Reason::NoKey, out),
        }
    }

    // An action frame to a group of that access point, under one of the IGTKs that are kept of it
    // where there is a session with it.
    fn take_acting(
        &mut self,
        alloc: Global,
        ap: u16,
        octets: &[u8],
        frame: &Action<'_>,
        out: &mut Outbox,
    ) -> Result<Outcome, NoMemory>
        requires whole { IsActionFrame (action_fields frame.now) }
        ensures { (d : AnyDomain) → ap < length d.aps
            → IsActionFrom d self.old.number ap octets.now (action_fields frame.now)
            → Takes d (Take octets.now) (turn self.old self.new out.old.acts out.new.acts) result }
    {
        if !is_with(&self.session, ap) {
            return refuse(alloc, ap, octets, Kind::Action, Reason::NoKey, out);
        }
        let kept = self.memories.of(ap);
        take_integrity(alloc, ap, octets, frame, kept, out)
    }

    // A management frame of that access point.
    fn take_management(
        &mut self,
        here: Here<'_>,
        ap: u16,
        managed: &Managed<'_>,
        out: &mut Outbox,
    ) -> Result<Outcome, NoMemory>
        requires form { InForm here.domain.now }
        requires listed { self.old.number < length here.domain.now.stas }
        requires node { here.node ≡ Sta self.old.number }
        requires ap { ap < length here.domain.now.aps }
        requires raw { HasRaw (element_fields managed.now.elements) }
        requires managed { IsManagementFrom here.domain.now (Sta self.old.number) (Ap ap)
            managed.now.octets.now (management_fields managed.now.frame)
            (element_fields managed.now.elements) }
        ensures { Takes here.entry.domain.now (Take managed.now.octets.now)
            (turn self.old self.new out.old.acts out.new.acts) result }
    {
        match managed.frame.kind {
            Kind::AssocResp => self.take_response(here, ap, managed, out),
            Kind::FtResp => self.take_auth(here, ap, managed, out),
            Kind::ReResp => self.take_reassoc(here, ap, managed, out),
            kind => refuse(here.alloc, ap, managed.octets, kind, Reason::Unawaited, out),
        }
    }

    // An association response of that access point.
    fn take_response(
        &mut self,
        here: Here<'_>,
        ap: u16,
        managed: &Managed<'_>,
        out: &mut Outbox,
    ) -> Result<Outcome, NoMemory>
        requires form { InForm here.domain.now }
        requires listed { self.old.number < length here.domain.now.stas }
        requires ap { ap < length here.domain.now.aps }
        requires raw { HasRaw (element_fields managed.now.elements) }
        requires managed { IsManagementFrom here.domain.now (Sta self.old.number) (Ap ap)
            managed.now.octets.now (management_fields managed.now.frame)
            (element_fields managed.now.elements) }
        requires kind { managed.now.frame.kind ≡ AssocResp }
        ensures { Takes here.entry.domain.now (Take managed.now.octets.now)
            (turn self.old self.new out.old.acts out.new.acts) result }
    {
        let (octets, kind) = (managed.octets, Kind::AssocResp);
        let Some(snonce) = Attempt::requested(&self.attempt, ap) else {
            return refuse(here.alloc, ap, octets, kind, Reason::Unawaited, out);
        };
        let status = managed.frame.status;
        if let Some(why) = response_fault(here.domain, ap, status, &managed.elements) {
            return refuse(here.alloc, ap, octets, kind, why, out);
        }
        self.associate(here, ap, managed, snonce, out)
    }

    // An association response of that access point that is accepted, in the attempt under that
    // nonce.
    fn associate(
        &mut self,
        here: Here<'_>,
        ap: u16,
        managed: &Managed<'_>,
        snonce: [u8; 32],
        out: &mut Outbox,
    ) -> Result<Outcome, NoMemory>
        requires form { InForm here.domain.now }
        requires listed { self.old.number < length here.domain.now.stas }
        requires ap { ap < length here.domain.now.aps }
        requires raw { HasRaw (element_fields managed.now.elements) }
        requires managed { IsManagementFrom here.domain.now (Sta self.old.number) (Ap ap)
            managed.now.octets.now (management_fields managed.now.frame)
            (element_fields managed.now.elements) }
        requires kind { managed.now.frame.kind ≡ AssocResp }
        requires requested { self.old.attempt
            ≡ Some (record { ap = ap; association = Requested snonce }) }
        requires accepts { Accepted ≡ response_outcome here.domain.now ap
            managed.now.frame.status (element_fields managed.now.elements) }
        ensures { Takes here.entry.domain.now (Take managed.now.octets.now)
            (turn self.old self.new out.old.acts out.new.acts) result }
    {
        take_accepted(here.alloc, ap, managed.octets, &mut self.memories, out)?;
        let fte = response_fte(here.domain.akm, &managed.elements);
        let start = StaStart::Connect {
            snonce: &snonce,
            fte,
        };
        let derived = &mut self.derived;
        let supplicant = Supplicant::begin(here.domain, self.number, ap, start, derived);
        self.attempt = Some(Attempt {
            ap,
            association: Association::Accepted(supplicant),
        });
        Ok(Outcome::Accepted)
    }

    // An authentication response of that access point.
    fn take_auth(
        &mut self,
        here: Here<'_>,
        ap: u16,
        managed: &Managed<'_>,
        out: &mut Outbox,
    ) -> Result<Outcome, NoMemory>
        requires form { InForm here.domain.now }
        requires listed { self.old.number < length here.domain.now.stas }
        requires node { here.node ≡ Sta self.old.number }
        requires ap { ap < length here.domain.now.aps }
        requires managed { IsManagementFrom here.domain.now (Sta self.old.number) (Ap ap)
            managed.now.octets.now (management_fields managed.now.frame)
            (element_fields managed.now.elements) }
        requires kind { managed.now.frame.kind ≡ FtResp }
        ensures { Takes here.entry.domain.now (Take managed.now.octets.now)
            (turn self.old self.new out.old.acts out.new.acts) result }
    {
        let (octets, kind) = (managed.octets, Kind::FtResp);
        match &mut self.attempt {
            Some(
                Attempt {
                    ap: with,
                    association,
                },
            ) if *with == ap => match association {
                Association::Moving(originator) => {
                    let r0kh_id = self.r0kh_id.as_slice();
                    let left = Session::peer(&self.session);
                    let way = Way { ap, r0kh_id, left };
                    answer(here, way, managed, originator, out)
                }
                _ => refuse(here.alloc, ap, octets, kind, Reason::Unawaited, out),
            },
            _ => refuse(here.alloc, ap, octets, kind, Reason::Unawaited, out),
        }
    }

    // A reassociation response of that access point. The attempt becomes a session in place of the
    // one that there is.
    fn take_reassoc(
        &mut self,
        here: Here<'_>,
        ap: u16,
        managed: &Managed<'_>,
        out: &mut Outbox,
    ) -> Result<Outcome, NoMemory>
        requires form { InForm here.domain.now }
        requires listed { self.old.number < length here.domain.now.stas }
        requires node { here.node ≡ Sta self.old.number }
        requires ap { ap < length here.domain.now.aps }
        requires raw { HasRaw (element_fields managed.now.elements) }
        requires managed { IsManagementFrom here.domain.now (Sta self.old.number) (Ap ap)
            managed.now.octets.now (management_fields managed.now.frame)
            (element_fields managed.now.elements) }
        requires kind { managed.now.frame.kind ≡ ReResp }
        ensures { Takes here.entry.domain.now (Take managed.now.octets.now)
            (turn self.old self.new out.old.acts out.new.acts) result }
    {
        let (octets, kind) = (managed.octets, Kind::ReResp);
        match &mut self.attempt {
            Some(
                Attempt {
                    ap: with,
                    association,
                },
            ) if *with == ap => match association {
                Association::Moving(originator) => {
                    let r0kh_id = self.r0kh_id.as_slice();
                    let left = Session::peer(&self.session);
                    let way = Way { ap, r0kh_id, left };
                    let kept = self.memories.of(ap);
                    let came = arrive(here, way, managed, originator, kept, out)?;
                    if let Some(key) = came.installed {
                        let session = Session::transferred(here.domain, self.number, ap, &key.ptk);
                        self.attempt = None;
                        self.session = Some(session);
                    }
                    Ok(came.outcome)
                }
                _ => refuse(here.alloc, ap, octets, kind, Reason::Unawaited, out),
            },
            _ => refuse(here.alloc, ap, octets, kind, Reason::Unawaited, out),
        }
    }

    // An EAPOL-Key message of that access point goes to the attempt with it, else to the session.
    fn take_message(
        &mut self,
        here: Here<'_>,
        ap: u16,
        heard: &Heard<'_>,
        out: &mut Outbox,
    ) -> Result<Outcome, NoMemory>
        requires listed { self.old.number < length here.domain.now.stas }
        requires node { here.node ≡ Sta self.old.number }
        requires ap { ap < length here.domain.now.aps }
        requires frame { IsKeyFrame heard.now.message.frame }
        requires message { IsMessageFrom here.domain.now (Sta self.old.number) (Ap ap)
            heard.now.octets.now (message_fields heard.now.message) }
        ensures { Takes here.entry.domain.now (Take heard.now.octets.now)
            (turn self.old self.new out.old.acts out.new.acts) result }
    {
        match &mut self.attempt {
            Some(
                Attempt {
                    ap: with,
                    association,
                },
            ) if *with == ap => match association {
                Association::Requested(_) => refuse_message(here.alloc, ap, heard, out),
                Association::Moving(_) => refuse_message(here.alloc, ap, heard, out),
                Association::Accepted(supplicant) => {
                    let (memory, derived) = (self.memories.of(ap), &mut self.derived);
                    let came = hand(here, ap, heard, supplicant, memory, derived, out)?;
                    if let Some(tk) = came.installed {
                        self.r0kh_id = holder_of(supplicant);
                        Attempt::finish(&mut self.attempt, &mut self.session, &tk);
                    }
                    Ok(came.outcome)
                }
            },
            _ => self.take_in_session(here, ap, heard, out),
        }
    }

    // An EAPOL-Key message of an access point with which there is no attempt.
    fn take_in_session(
        &mut self,
        here: Here<'_>,
        ap: u16,
        heard: &Heard<'_>,
        out: &mut Outbox,
    ) -> Result<Outcome, NoMemory>
        requires listed { self.old.number < length here.domain.now.stas }
        requires node { here.node ≡ Sta self.old.number }
        requires ap { ap < length here.domain.now.aps }
        requires frame { IsKeyFrame heard.now.message.frame }
        requires message { IsMessageFrom here.domain.now (Sta self.old.number) (Ap ap)
            heard.now.octets.now (message_fields heard.now.message) }
        requires elsewhere { IsElsewhere (peer_of_attempt self.old.attempt) ap }
        ensures { Takes here.entry.domain.now (Take heard.now.octets.now)
            (turn self.old self.new out.old.acts out.new.acts) result }
    {
        let message = heard.message.message;
        if opens_renewal(here.domain, &self.attempt, &self.session, ap, message) {
            return self.begin_renewal(here, ap, heard, out);
        }
        self.take_beside(here, ap, heard, out)
    }

    // Message 1 of the access point of the session, by which the station begins to renew its key.
    fn begin_renewal(
        &mut self,
        here: Here<'_>,
        ap: u16,
        heard: &Heard<'_>,
        out: &mut Outbox,
    ) -> Result<Outcome, NoMemory>
        requires listed { self.old.number < length here.domain.now.stas }
        requires node { here.node ≡ Sta self.old.number }
        requires ap { ap < length here.domain.now.aps }
        requires message { IsMessageFrom here.domain.now (Sta self.old.number) (Ap ap)
            heard.now.octets.now (message_fields heard.now.message) }
        requires opens { opens_by here.domain.now self.old.attempt self.old.session ap
            heard.now.message.message ≡ true }
        ensures { Takes here.entry.domain.now (Take heard.now.octets.now)
            (turn self.old self.new out.old.acts out.new.acts) result }
    {
        match &mut self.session {
            Some(Session { supplicant, .. }) => {
                let snonce = next_nonce(here, self.drawn);
                let derived = &mut self.derived;
                let outcome = hand_first(here, ap, heard, supplicant, snonce, derived, out)?;
                self.drawn = drawn_after(outcome, self.drawn);
                Ok(outcome)
            }
            None => unreachable!(),
        }
    }

    // Another one. By message 3 of an attempt that renews the key of the session the new key takes
    // the place of the old one.
    fn take_beside(
        &mut self,
        here: Here<'_>,
        ap: u16,
        heard: &Heard<'_>,
        out: &mut Outbox,
    ) -> Result<Outcome, NoMemory>
        requires listed { self.old.number < length here.domain.now.stas }
        requires node { here.node ≡ Sta self.old.number }
        requires ap { ap < length here.domain.now.aps }
        requires frame { IsKeyFrame heard.now.message.frame }
        requires message { IsMessageFrom here.domain.now (Sta self.old.number) (Ap ap)
            heard.now.octets.now (message_fields heard.now.message) }
        requires elsewhere { IsElsewhere (peer_of_attempt self.old.attempt) ap }
        requires other { opens_by here.domain.now self.old.attempt self.old.session ap
            heard.now.message.message ≡ false }
        ensures { Takes here.entry.domain.now (Take heard.now.octets.now)
            (turn self.old self.new out.old.acts out.new.acts) result }
    {
        match &mut self.session {
            Some(
                Session {
                    ap: with,
                    supplicant,
                    key,
                },
            ) if *with == ap => {
                let (kept, derived) = (self.memories.of(ap), &mut self.derived);
                let came = hand(here, ap, heard, supplicant, kept, derived, out)?;
                if let Some(tk) = came.installed {
                    *key = DataKey::pairwise(&tk);
                }
                Ok(came.outcome)
            }
            _ => refuse_message(here.alloc, ap, heard, out),
        }
    }
}

// The end of the attempt, where there is one: of its own, or of the one that renews the key of the
// session.
fn close_attempt(attempt: &Option<Attempt>, session: &Option<Session>, out: &mut Outbox)
    requires { 0 < out.old.spare }
    ensures acts { out.new.acts ≡ out.old.acts
        ++ close_pending (peer_pending attempt.now session.now) }
    ensures spare { out.old.spare ≤ out.new.spare + 1 }
{
    match attempt {
        Some(_) => Attempt::leave(attempt, out),
        None => Session::leave_renewal(session, out),
    }
}

// The ends of an attempt and of a session, where there are any.
fn close(attempt: &Option<Attempt>, session: &Option<Session>, out: &mut Outbox)
    requires { 2 ≤ out.old.spare }
    ensures acts { out.new.acts
        ≡ (out.old.acts ++ close_pending (peer_pending attempt.now session.now))
        ++ close_associated (peer_of_session session.now) }
    ensures spare { out.old.spare ≤ out.new.spare + 2 }
{
    close_attempt(attempt, session, out);
    Session::leave(session, out);
}

// Ends an attempt and a session, where there are any, and requests association of that access point
// in an attempt under that nonce.
fn ask(
    here: Here<'_>,
    ap: u16,
    snonce: [u8; 32],
    attempt: &Option<Attempt>,
    session: &Option<Session>,
    out: &mut Outbox,
) -> Result<(), NoMemory>
    requires ssid { IsSsid here.domain.now.ssid }
    requires station { IsListed here.domain.now here.node }
    requires ap { IsListed here.domain.now (Ap ap) }
    ensures acts { OnOk result (out.new.acts
        ≡ ((((out.old.acts ++ close_pending (peer_pending attempt.now session.now))
        ++ close_associated (peer_of_session session.now)) ++ Opened (Ap ap) Connect ∷ [])
        ++ Drew (Nonce snonce) ∷ [])
        ++ sent_assoc_req here.entry.domain.now here.entry.node (Ap ap) ∷ []) }
    ensures kept { OnErr result (out.new.acts ≡ out.old.acts) }
{
    out.reserve(5)?;
    let request = assoc_req(here, ap)?;
    close(attempt, session, out);
    Attempt::connect(ap, snonce, out);
    out.add(request);
    Ok(())
}
