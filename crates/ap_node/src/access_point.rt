//! An access point's state, and what each event does to it.

ghost use Rattle.std.specs.Prelude.{◌≡◌, ◌<◌, ◌≤◌, ◌+◌, ◌++◌, ℕ, List, [], length};
ghost use Rattle.std.specs.Prelude.{true, false, IfOk, IsOk, OnOk, OnErr};
ghost use Rattle.domain_base.specs.declared.names.Node.TheVariants.{Ap, Sta};
ghost use Rattle.domain_base.specs.declared.names.Peer.TheVariants.{One, All};
ghost use Rattle.eapol_key.specs.Fields.{IsKeyFrame};
ghost use Rattle.key_holders.specs.Rows.{is_in};
ghost use Rattle.rsn_elements.specs.Elements.{HasRaw};
ghost use Rattle.rsn_elements.specs.Fields.{element_fields};
ghost use Rattle.run_journal.specs.declared.acts.Act.{Act as AnyAct};
ghost use Rattle.run_journal.specs.declared.acts.Reason.{Reason as AnyReason};
ghost use Rattle.run_journal.specs.declared.acts.Kind.TheVariants as kind;
ghost use Rattle.run_journal.specs.declared.acts.Outcome.TheVariants.{Accepted, Refused};
ghost use Rattle.run_journal.specs.declared.domain.Domain.{Domain as AnyDomain};
ghost use Rattle.run_journal.specs.Questions.{add};
ghost use Rattle.domain_rules.specs.Here.{here};
ghost use Rattle.domain_rules.specs.Network.{InForm, draw_end, nonce};
ghost use Rattle.run_journal.specs.Events.{IsListed, IsReceiverOf, most_payload};
ghost use Rattle.domain_rules.specs.AccessPointRows.{start_acts, last_draw};
ghost use Rattle.domain_rules.specs.Rows.{Take, Retry, Send, Expire, Revoke};
ghost use Rattle.node_base.specs.Changing.{after, ButSecret, HasRoomFor, most_changed};
ghost use Rattle.node_base.specs.Events.{event_of, IsEventAt, Steps, seen};
ghost use Rattle.authenticator.specs.Judged.{frame_of};
ghost use Rattle.ft_exchange.specs.Asking.{ids_of};
ghost use Rattle.ap_node.specs.State.{station_at, has_attempt};
ghost use Rattle.ap_node.specs.Switching.{ended, end_acts};
ghost use Rattle.ap_node.specs.Putting.{LeavesOthers, LeavesRest, OneChange, OneMove};
ghost use Rattle.held_rows.specs.Looks.{NoLooks, AreLooked};
ghost use Rattle.ap_node.specs.Looking.{AnsweredBy};
ghost use Rattle.ap_node.specs.Takes.{IsDone, IsDoneWith, IsTaken, IsTakenWith, IsRequest};
ghost use Rattle.ap_node.specs.Takes.{IsRequestOf, IsKeyedAtAp, BeginsWith, IsBeside, associated_acts};
ghost use Rattle.ap_node.specs.Handed.{IsHandedOver};
ghost use Rattle.ap_node.specs.Parts.{is_final_at};

mod changing;
mod grouping;
mod renewing;

use crate::association::{accept, add_accepted, begin_attempt, refuse, request_status};
use crate::boxed::BoxedStation;
use crate::counting::{owes, recounted};
use crate::drawing::{add_drawn, draw_keys, number_after};
use crate::expiring::{add_dropped, drop_part};
use crate::places::make_place;
use crate::protected::take_data;
use crate::putting::prepare;
use crate::ready::Ready;
use crate::revoking::revoke;
use crate::sending::{Sending, add_made};
use crate::stations::{is_final, retry, take_message};
use crate::transitions::{begun_key, drawn_with, next_nonce, number_of, take_move, take_request};
use act_memory::{Outbox, settle};
use domain_base::{NoMemory, Node, Peer, Tid};
use frame_intake::{Heard, Judged, KeyMessage, judge, read};
use group_key::GroupKeys;
use key_hierarchy::LastDerived;
use key_holders::Holders;
use node_base::{DRAW_END, Here, NodeEvent, address, nonce, whole_element};
use rsn_elements::Elements;
use run_journal::{Domain, Kind, Outcome, Reason, Reply};
use std::alloc::Global;
use std::collections::BTreeMap;
use std::marker::Model;

/// An access point of the domain.
#[derive(Drop)]
pub struct ApNode {
    number: u16,
    drawn: u64,
    group: GroupKeys,
    // The current group keys in use.
    sending: Sending,
    // What it has with stations, by their numbers.
    stations: BTreeMap<u16, BoxedStation>,
    // How many sessions owe a G2 for the newest group keys.
    owing: u64,
    // The keys of the hierarchy that were derived last: they show in no result.
    derived: LastDerived,
}

impl Model for ApNode {
    ghost use Rattle.std.specs.Prelude.{◌<◌, ◌≤◌};
    ghost use Rattle.ap_node.specs.State.{State};

    ghost Value = { State };

    ghost view = { λ s. record {
      number = s.number;
      drawn = s.drawn;
      group = s.group;
      sending = s.sending;
      stations = s.stations.entries;
      owing = s.owing;
    } };

    ghost invariant = { λ s. (s.group.gtk.newest.id < 4) × (1 ≤ s.group.gtk.newest.id)
        × (s.group.gtk.newest.place < s.drawn) };
}

impl ApNode {
    ghost use Rattle.ap_node.specs.Stands.{StandsWith};

    /// The access point as it starts: it draws its first group keys and installs them, an IGTK
    /// after the GTK where the network protects management frames. It begins to draw at that number.
    pub fn start(
        alloc: Global,
        domain: &Domain,
        ap: u16,
        first_draw: u64,
        out: &mut Outbox,
    ) -> Result<Self, NoMemory>
        requires draw { last_draw domain.now first_draw < draw_end }
        requires listed { IsListed domain.now (Ap ap) }
        ensures number { IfOk result (λ node. node.number ≡ ap) }
        ensures stands { IfOk result (λ node. StandsWith domain.now first_draw node []
            (add (start_acts domain.now first_draw (Ap ap)) [])) }
        ensures acts { IfOk result (λ node. out.new.acts
            ≡ out.old.acts ++ start_acts domain.now first_draw (Ap ap)) }
        ensures kept { OnErr result (out.new.acts ≡ out.old.acts) }
    {
        let node = Node::Ap(ap);
        let protects = domain.extras.mfp;
        let keys = draw_keys(protects, domain, node, first_draw);
        let group = GroupKeys::new(keys.gtk, keys.igtk);
        let gtk = group.newest();
        let igtk = group.newest_igtk();
        let sending = Sending::made(&gtk, igtk);
        out.reserve(4)?;
        add_drawn(&keys, out);
        add_made(&gtk, igtk, address(domain, node), out);
        Ok(ApNode {
            number: ap,
            drawn: number_after(protects, first_draw),
            group,
            sending,
            stations: BTreeMap::new(alloc),
            owing: 0,
            derived: LastDerived::none(),
        })
    }

    /// Takes one event. Of the key holders it has its own at least. What the access point stands for,
    /// with the rows of its key holder, is of the network with the changed key, where the event is
    /// one, which takes no memory where there is room for its acts.
    #[tactic(auto, using(crate::proofs::Rows::if_with, crate::proofs::Rows::if_plain, crate::proofs::Rows::same_others))]
    pub fn step<H: Holders>(
        &mut self,
        alloc: Global,
        domain: &Domain,
        event: NodeEvent<'_>,
        holders: &mut H,
        out: &mut Outbox,
    ) -> Result<Outcome, NoMemory>
        requires form { InForm domain.now }
        requires listed { self.old.number < length domain.now.aps }
        requires event { IsEventAt domain.now (Ap self.old.number) (event_of event) }
        requires has { is_in self.old.number (H.has holders.old) ≡ true }
        requires ids { H.ids holders.old ≡ ids_of domain.now }
        ensures number { self.new.number ≡ self.old.number }
        ensures steps { IfOk result (λ outcome. (first : ℕ) (h : List AnyAct)
            → StandsWith domain.now first self.old (H.rows holders.old self.old.number) h
            → Steps (here domain.now first (Ap self.old.number)) (event_of event.entry)
            (StandsWith (after domain.now (event_of event.entry)) first self.new
            (H.rows holders.new self.old.number)) h (seen out.old.acts out.new.acts outcome)) }
        ensures refused { IfOk result (λ outcome. (why : AnyReason) → outcome ≡ Refused why
            → self.new ≡ self.old) }
        // where a key holder was asked, that is told
        ensures looks { OnOk result ((first : ℕ) (h : List AnyAct)
            → StandsWith domain.now first self.old (H.rows holders.old self.old.number) h
            → (g : List AnyAct) → out.new.acts ≡ out.old.acts ++ g → AreLooked (AnsweredBy
            (λ id name r1kh sta answer. H.pulls holders.old id name r1kh sta holders.new answer)
            (H.ids holders.old) (H.has holders.old) (H.rows holders.old) domain.now
            self.old.number) domain.now g) }
        ensures same { OnErr result (self.new ≡ self.old) }
        ensures same_rows { OnErr result
            (H.rows holders.new self.old.number ≡ H.rows holders.old self.old.number) }
        ensures kept { OnErr result (out.new.acts ≡ out.old.acts) }
        ensures others { LeavesRest self.old.number (H.ids holders.old) (H.ids holders.new)
            (H.has holders.old) (H.has holders.new) (H.rows holders.old) (H.rows holders.new) }
        // a changed key of all stations revokes a row of each
        ensures one { ButSecret (event_of event.entry) (OneMove
            (H.rows holders.old self.old.number) (H.rows holders.new self.old.number)) }
        // where none is told to have been asked, none was
        ensures unasked { OnOk result ((g : List AnyAct) → out.new.acts ≡ out.old.acts ++ g
            → NoLooks g → ButSecret (event_of event.entry)
            (OneChange H H.puts H.revokes self.old.number holders.old holders.new)) }
        ensures change { OnErr result (ButSecret (event_of event.entry)
            (OneChange H H.puts H.revokes self.old.number holders.old holders.new)) }
        ensures no_less { H.no_less holders.old holders.new }
        // a changed key takes no memory
        ensures always { HasRoomFor domain.now (event_of event.entry) out.old.spare
            → IsOk result }
        ensures spare { HasRoomFor domain.now (event_of event.entry) out.old.spare
            → out.old.spare ≤ out.new.spare + most_changed (length domain.now.stas) }
    {
        let node = Node::Ap(self.number);
        let here = Here {
            alloc,
            domain,
            node,
        };
        match event {
            NodeEvent::Take(octets) => self.take(here, octets, holders, out),
            NodeEvent::Retry(station) => self.retry(here, station, out),
            NodeEvent::Rekey => self.rekey(here, out),
            NodeEvent::Send(to, Some(tid), payload) => self.send(here, to, Some(tid), payload, out),
            NodeEvent::Send(to, None, payload) => self.send(here, to, None, payload, out),
            NodeEvent::Expire(station) => self.expire(here, station, out),
            NodeEvent::Revoke(station) => self.revoke(here, station, holders, out),
            NodeEvent::Secret(sta, psk) => self.change(here, sta, psk, holders, out),
            NodeEvent::Renew(station) => self.renew_key(here, station, out),
            NodeEvent::Announce(payload) => self.announce(here, payload, out),
            NodeEvent::Connect(_) | NodeEvent::Roam(_) | NodeEvent::Leave => unreachable!(),
        }
    }

    // The end of an event of which that came: the switch, unless the event was refused, which
    // changes nothing. Takes no memory.
    fn end(&mut self, here: Here<'_>, outcome: Outcome, out: &mut Outbox) -> Outcome
        requires node { here.node ≡ Ap self.old.number }
        requires listed { self.old.number < length here.domain.now.aps }
        requires room { 2 ≤ out.old.spare }
        ensures outcome { result ≡ outcome }
        ensures state { self.new ≡ ended outcome self.old }
        ensures acts { out.new.acts
            ≡ out.old.acts ++ end_acts here.entry.domain.now outcome self.old }
        ensures spare { out.old.spare ≤ out.new.spare + 2 }
    {
        match outcome {
            Outcome::Refused(_) => outcome,
            _ => {
                self.switch(here, out);
                outcome
            }
        }
    }

    // Takes the octets of a frame.
    #[tactic(auto, using(crate::proofs::Rows::if_same, crate::proofs::Rows::same_others))]
    fn take<H: Holders>(
        &mut self,
        here: Here<'_>,
        octets: &[u8],
        holders: &mut H,
        out: &mut Outbox,
    ) -> Result<Outcome, NoMemory>
        requires node { here.node ≡ Ap self.old.number }
        requires form { InForm here.domain.now }
        requires listed { self.old.number < length here.domain.now.aps }
        requires has { is_in self.old.number (H.has holders.old) ≡ true }
        requires ids { H.ids holders.old ≡ ids_of here.domain.now }
        ensures taken { IfOk result (λ outcome. IsTakenWith (AreLooked (AnsweredBy
            (λ id name r1kh sta answer. H.pulls holders.old id name r1kh sta holders.new answer)
            (H.ids holders.old) (H.has holders.old) (H.rows holders.old) here.entry.domain.now
            self.old.number) here.entry.domain.now) here.entry.domain.now (Take octets.now)
            self.old self.new (H.rows holders.old self.old.number)
            (H.rows holders.new self.old.number) (seen out.old.acts out.new.acts outcome)) }
        ensures same { OnErr result (self.new ≡ self.old) }
        ensures same_rows { OnErr result
            (H.rows holders.new self.old.number ≡ H.rows holders.old self.old.number) }
        ensures kept { OnErr result (out.new.acts ≡ out.old.acts) }
        ensures others { LeavesOthers self.old.number (H.ids holders.old) (H.ids holders.new)
            (H.has holders.old) (H.has holders.new) (H.rows holders.old) (H.rows holders.new) }
        ensures unasked { OnOk result ((g : List AnyAct) → out.new.acts ≡ out.old.acts ++ g
            → NoLooks g → OneChange H H.puts H.revokes self.old.number holders.old holders.new) }
        ensures change { OnErr result
            (OneChange H H.puts H.revokes self.old.number holders.old holders.new) }
        ensures no_less { H.no_less holders.old holders.new }
    {
        let delivered = read(here.domain.akm, here.domain.extras.mfp, octets);
        match judge(here.domain, here.node, &delivered) {
            Judged::Settled(from, outcome) => {
                settle(here.alloc, from, octets, delivered.kind(), outcome, out)
            }
            Judged::Managed(from, frame, elements) => match frame.kind {
                Kind::AssocReq => {
                    self.take_request(here, number_of(from), octets, &elements, out)
                }
                Kind::FtReq => {
                    self.take_auth(here, number_of(from), octets, &elements, holders, out)
                }
                Kind::ReReq => { self.take_reassoc(here, number_of(from), octets, &elements, out) }
                kind => {
                    let outcome = Outcome::Refused(Reason::Unawaited);
                    settle(here.alloc, Some(from), octets, kind, outcome, out)
                }
            },
            Judged::Keyed(from, message) => {
                let heard = Heard { octets, message };
                self.take_keyed(here, number_of(from), &heard, holders, out)
            }
            // no session owes more or less because of it
            Judged::Sealed(from, frame) => {
                let station = number_of(from);
                take_data(&mut self.stations, here.alloc, station, octets, &frame, out)
            }
            // none is for an access point
            Judged::Acting(_, _) => unreachable!(),
        }
    }

    // Takes an authentication request of a station, by which a fast transition begins. No session
    // owes more or less because of it.
    fn take_auth<H: Holders>(
        &mut self,
        here: Here<'_>,
        station: u16,
        octets: &[u8],
        elements: &Elements<'_>,
        holders: &mut H,
        out: &mut Outbox,
    ) -> Result<Outcome, NoMemory>
        requires node { here.node ≡ Ap self.old.number }
        requires form { InForm here.domain.now }
        requires listed { self.old.number < length here.domain.now.aps }
        requires has { is_in self.old.number (H.has holders.old) ≡ true }
        requires ids { H.ids holders.old ≡ ids_of here.domain.now }
        requires raw { HasRaw (element_fields elements.now) }
        requires frame { IsRequestOf kind.FtReq here.domain.now self.old.number octets.now station
            elements.now }
        ensures taken { IfOk result (λ outcome. IsTakenWith (AreLooked (AnsweredBy
            (λ id name r1kh sta answer. H.pulls holders.old id name r1kh sta holders.new answer)
            (H.ids holders.old) (H.has holders.old) (H.rows holders.old) here.entry.domain.now
            self.old.number) here.entry.domain.now) here.entry.domain.now (Take octets.now)
            self.old self.new (H.rows holders.old self.old.number)
            (H.rows holders.new self.old.number) (seen out.old.acts out.new.acts outcome)) }
        ensures same { OnErr result (self.new ≡ self.old) }
        ensures same_rows { OnErr result
            (H.rows holders.new self.old.number ≡ H.rows holders.old self.old.number) }
        ensures kept { OnErr result (out.new.acts ≡ out.old.acts) }
        ensures others { LeavesOthers self.old.number (H.ids holders.old) (H.ids holders.new)
            (H.has holders.old) (H.has holders.new) (H.rows holders.old) (H.rows holders.new) }
        ensures unasked { OnOk result ((g : List AnyAct) → out.new.acts ≡ out.old.acts ++ g
            → NoLooks g → OneChange H H.puts H.revokes self.old.number holders.old holders.new) }
        ensures change { OnErr result
            (OneChange H H.puts H.revokes self.old.number holders.old holders.new) }
        ensures no_less { H.no_less holders.old holders.new }
    {
        let anonce = next_nonce(here, self.drawn);
        let taken = take_request(
            &mut self.stations,
            here,
            self.number,
            station,
            octets,
            elements,
            anonce.as_ref(),
            holders,
            out,
        )?;
        self.drawn = drawn_with(self.drawn, begun_key(taken));
        Ok(taken.outcome)
    }

    // Takes a reassociation request of a station, by which a fast transition ends.
    fn take_reassoc(
        &mut self,
        here: Here<'_>,
        station: u16,
        octets: &[u8],
        elements: &Elements<'_>,
        out: &mut Outbox,
    ) -> Result<Outcome, NoMemory>
        requires node { here.node ≡ Ap self.old.number }
        requires form { InForm here.domain.now }
        requires listed { self.old.number < length here.domain.now.aps }
        requires raw { HasRaw (element_fields elements.now) }
        requires frame { IsRequestOf kind.ReReq here.domain.now self.old.number octets.now station
            elements.now }
        ensures taken { IfOk result (λ outcome. IsTaken here.entry.domain.now (Take octets.now)
            self.old self.new (seen out.old.acts out.new.acts outcome)) }
        ensures same { OnErr result (self.new ≡ self.old) }
        ensures kept { OnErr result (out.new.acts ≡ out.old.acts) }
    {
        let outcome = self.move_over(here, station, octets, elements, out)?;
        Ok(self.end(here, outcome, out))
    }

    // The fast transition with a station takes a reassociation request of it. Where a key is
    // installed the session with it has come of that. The switch is to come, and there is room for
    // it.
    fn move_over(
        &mut self,
        here: Here<'_>,
        station: u16,
        octets: &[u8],
        elements: &Elements<'_>,
        out: &mut Outbox,
    ) -> Result<Outcome, NoMemory>
        requires node { here.node ≡ Ap self.old.number }
        requires form { InForm here.domain.now }
        requires listed { self.old.number < length here.domain.now.aps }
        requires raw { HasRaw (element_fields elements.now) }
        requires frame { IsRequestOf kind.ReReq here.domain.now self.old.number octets.now station
            elements.now }
        ensures done { IfOk result (λ outcome. IsDone here.entry.domain.now (Take octets.now)
            self.old self.new (seen out.old.acts out.new.acts outcome)) }
        ensures number { self.new.number ≡ self.old.number }
        ensures same { OnErr result (self.new ≡ self.old) }
        ensures kept { OnErr result (out.new.acts ≡ out.old.acts) }
        ensures room { OnOk result (2 ≤ out.new.spare) }
    {
        let newest = self.newest();
        let owed = owes(&self.stations, station, &newest.gtk);
        let taken = take_move(
            &mut self.stations,
            here,
            self.number,
            station,
            octets,
            elements,
            &newest,
            out,
        )?;
        let owes = owes(&self.stations, station, &newest.gtk);
        self.owing = recounted(self.owing, owed, owes);
        Ok(taken.outcome)
    }

    // Takes an association request of a station.
    fn take_request(
        &mut self,
        here: Here<'_>,
        station: u16,
        octets: &[u8],
        elements: &Elements<'_>,
        out: &mut Outbox,
    ) -> Result<Outcome, NoMemory>
        requires node { here.node ≡ Ap self.old.number }
        requires form { InForm here.domain.now }
        requires listed { self.old.number < length here.domain.now.aps }
        requires frame { IsRequest here.domain.now self.old.number octets.now station elements.now }
        ensures taken { IfOk result (λ outcome. IsTaken here.entry.domain.now (Take octets.now)
            self.old self.new (seen out.old.acts out.new.acts outcome)) }
        ensures same { OnErr result (self.new ≡ self.old) }
        ensures kept { OnErr result (out.new.acts ≡ out.old.acts) }
    {
        if let Some(status) = request_status(here.domain, elements) {
            return refuse(here, station, octets, status, out);
        }
        if self.drawn >= DRAW_END {
            let outcome = Outcome::Refused(Reason::Spent);
            let from = Some(Node::Sta(station));
            return settle(here.alloc, from, octets, Kind::AssocReq, outcome, out);
        }
        match elements.rsne_octets {
            Some(rsne) => self.associate(here, station, octets, whole_element(rsne), out),
            None => unreachable!(),
        }
    }

    // Accepts an association request with that RSNE, and begins an attempt.
    fn associate(
        &mut self,
        here: Here<'_>,
        station: u16,
        octets: &[u8],
        rsne: &[u8],
        out: &mut Outbox,
    ) -> Result<Outcome, NoMemory>
        requires node { here.node ≡ Ap self.old.number }
        requires form { InForm here.domain.now }
        requires listed { self.old.number < length here.domain.now.aps }
        requires station { station < length here.domain.now.stas }
        requires draw { self.old.drawn < draw_end }
        requires rsne { length rsne.now ≤ 257 }
        ensures outcome { IfOk result (λ came. came ≡ Accepted) }
        ensures begun { OnOk result
            (BeginsWith here.entry.domain.now self.old self.new station rsne.now) }
        ensures acts { OnOk result (out.new.acts ≡ out.old.acts
            ++ associated_acts here.entry.domain.now (Ap self.old.number) (Sta station) octets.now
            (has_attempt (station_at self.old.stations station))
            (nonce here.entry.domain.now (Ap self.old.number) self.old.drawn)) }
        ensures same { OnErr result (self.new ≡ self.old) }
        ensures kept { OnErr result (out.new.acts ≡ out.old.acts) }
    {
        out.reserve(6)?;
        let acceptance = accept(here, station, octets)?;
        make_place(&mut self.stations, here.alloc, station)?;
        let anonce = nonce(here.domain, here.node, self.drawn);
        let mut reply = Reply::empty();
        let (domain, number) = (here.domain, self.number);
        let (stations, derived) = (&mut self.stations, &mut self.derived);
        let had = begin_attempt(
            stations, domain, number, station, &anonce, rsne, derived, &mut reply,
        );
        add_accepted(acceptance, station, had, anonce, &reply, out);
        self.drawn += 1;
        Ok(Outcome::Accepted)
    }

    // Takes an EAPOL-Key message of a station: it is for the part with it.
    fn take_keyed<H: Holders>(
        &mut self,
        here: Here<'_>,
        station: u16,
        heard: &Heard<'_>,
        holders: &mut H,
        out: &mut Outbox,
    ) -> Result<Outcome, NoMemory>
        requires node { here.node ≡ Ap self.old.number }
        requires form { InForm here.domain.now }
        requires listed { self.old.number < length here.domain.now.aps }
        requires has { is_in self.old.number (H.has holders.old) ≡ true }
        requires frame { IsKeyedAtAp here.domain.now self.old.number heard.now.octets.now
            (Sta station) heard.now.message }
        ensures taken { IfOk result (λ outcome. IsTakenWith NoLooks here.entry.domain.now
            (Take heard.now.octets.now) self.old self.new (H.rows holders.old self.old.number)
            (H.rows holders.new self.old.number) (seen out.old.acts out.new.acts outcome)) }
        ensures same { OnErr result (self.new ≡ self.old) }
        ensures same_rows { OnErr result
            (H.rows holders.new self.old.number ≡ H.rows holders.old self.old.number) }
        ensures kept { OnErr result (out.new.acts ≡ out.old.acts) }
        ensures others { LeavesOthers self.old.number (H.ids holders.old) (H.ids holders.new)
            (H.has holders.old) (H.has holders.new) (H.rows holders.old) (H.rows holders.new) }
        ensures change { OneChange H H.puts H.revokes self.old.number holders.old holders.new }
        ensures no_less { H.no_less holders.old holders.new }
    {
        let outcome = self.hand(here, station, heard, holders, out)?;
        Ok(self.end(here, outcome, out))
    }

    // The part with a station takes an EAPOL-Key message of it, where all memory is taken and a row
    // put first. The switch is to come, and there is room for it.
    fn hand<H: Holders>(
        &mut self,
        here: Here<'_>,
        station: u16,
        heard: &Heard<'_>,
        holders: &mut H,
        out: &mut Outbox,
    ) -> Result<Outcome, NoMemory>
        requires node { here.node ≡ Ap self.old.number }
        requires form { InForm here.domain.now }
        requires listed { self.old.number < length here.domain.now.aps }
        requires has { is_in self.old.number (H.has holders.old) ≡ true }
        requires frame { IsKeyedAtAp here.domain.now self.old.number heard.now.octets.now
            (Sta station) heard.now.message }
        ensures done { IfOk result (λ outcome. IsDoneWith here.entry.domain.now
            (Take heard.now.octets.now) self.old self.new (H.rows holders.old self.old.number)
            (H.rows holders.new self.old.number) (seen out.old.acts out.new.acts outcome)) }
        ensures number { self.new.number ≡ self.old.number }
        ensures same { OnErr result (self.new ≡ self.old) }
        ensures same_rows { OnErr result
            (H.rows holders.new self.old.number ≡ H.rows holders.old self.old.number) }
        ensures kept { OnErr result (out.new.acts ≡ out.old.acts) }
        ensures room { OnOk result (2 ≤ out.new.spare) }
        ensures others { LeavesOthers self.old.number (H.ids holders.old) (H.ids holders.new)
            (H.has holders.old) (H.has holders.new) (H.rows holders.old) (H.rows holders.new) }
        ensures change { OneChange H H.puts H.revokes self.old.number holders.old holders.new }
        ensures no_less { H.no_less holders.old holders.new }
    {
        out.reserve(11)?;
        let number = self.number;
        let message = &heard.message;
        let is_final = is_final(&self.stations, station, message);
        let ready = prepare(
            here,
            number,
            station,
            heard,
            is_final,
            &self.derived,
            holders,
        )?;
        Ok(self.hand_ready(station, message, ready, out))
    }

    // As all is ready. Takes no memory.
    fn hand_ready(
        &mut self,
        station: u16,
        message: &KeyMessage<'_>,
        ready: Ready,
        out: &mut Outbox,
    ) -> Outcome
        requires frame { IsKeyFrame message.now.frame }
        requires judged { ready.is_final ≡ is_final_at (station_at self.old.stations station)
            message.now.message (frame_of message.now.frame) }
        requires same { ready.room.message ≡ message.now.message }
        requires room { 10 + length ready.between.opened.items + length ready.between.put.items
            ≤ out.old.spare }
        ensures handed { IsHandedOver station message.now ready self.old self.new
            (seen out.old.acts out.new.acts result) }
        ensures beside { IsBeside self.old self.new station }
        ensures refused { (why : AnyReason) → result ≡ Refused why → self.new ≡ self.old }
        ensures room { 2 ≤ out.new.spare }
    {
        let newest = self.newest();
        let owed = owes(&self.stations, station, &newest.gtk);
        let (stations, derived) = (&mut self.stations, &mut self.derived);
        let outcome = take_message(stations, station, message, &newest, ready, derived, out);
        let owes = owes(&self.stations, station, &newest.gtk);
        self.owing = recounted(self.owing, owed, owes);
        outcome
    }

    // Sends a payload to a station, under the key of the session with it, or to all, under the
    // current GTK.
    fn send(
        &mut self,
        here: Here<'_>,
        to: Peer,
        tid: Option<Tid>,
        payload: &[u8],
        out: &mut Outbox,
    ) -> Result<Outcome, NoMemory>
        requires node { here.node ≡ Ap self.old.number }
        requires listed { self.old.number < length here.domain.now.aps }
        requires receiver { IsReceiverOf here.domain.now (Ap self.old.number) to }
        requires short { length payload.now ≤ most_payload }
        ensures taken { IfOk result (λ outcome. IsTaken here.entry.domain.now
            (Send to tid payload.now) self.old self.new
            (seen out.old.acts out.new.acts outcome)) }
        ensures same { OnErr result (self.new ≡ self.old) }
        ensures kept { OnErr result (out.new.acts ≡ out.old.acts) }
    {
        match to {
            Peer::One(peer) => self.send_one(here, number_of(peer), tid, payload, out),
            Peer::All => self.sending.gtk.send(here, Peer::All, tid, payload, out),
        }
    }

    // Sends once more what waits for an answer of the station.
    fn retry(&mut self, here: Here<'_>, station: u16, out: &mut Outbox) -> Result<Outcome, NoMemory>
        requires node { here.node ≡ Ap self.old.number }
        requires form { InForm here.domain.now }
        requires listed { self.old.number < length here.domain.now.aps }
        requires station { station < length here.domain.now.stas }
        ensures taken { IfOk result (λ outcome. IsTaken here.entry.domain.now (Retry station)
            self.old self.new (seen out.old.acts out.new.acts outcome)) }
        ensures same { OnErr result (self.new ≡ self.old) }
        ensures kept { OnErr result (out.new.acts ≡ out.old.acts) }
    {
        let outcome = self.repeat(here, station, out)?;
        Ok(self.end(here, outcome, out))
    }

    // The part with a station sends once more. The switch is to come, and there is room for it.
    fn repeat(
        &mut self,
        here: Here<'_>,
        station: u16,
        out: &mut Outbox,
    ) -> Result<Outcome, NoMemory>
        requires form { InForm here.domain.now }
        requires station { station < length here.domain.now.stas }
        ensures done { IfOk result (λ outcome. IsDone here.entry.domain.now (Retry station)
            self.old self.new (seen out.old.acts out.new.acts outcome)) }
        ensures number { self.new.number ≡ self.old.number }
        ensures same { OnErr result (self.new ≡ self.old) }
        ensures kept { OnErr result (out.new.acts ≡ out.old.acts) }
        ensures room { OnOk result (2 ≤ out.new.spare) }
    {
        let newest = self.newest();
        let owed = owes(&self.stations, station, &newest.gtk);
        let outcome = retry(&mut self.stations, here.alloc, station, &newest, out)?;
        let owes = owes(&self.stations, station, &newest.gtk);
        self.owing = recounted(self.owing, owed, owes);
        Ok(outcome)
    }

    // Drops what there is with a station.
    fn expire(
        &mut self,
        here: Here<'_>,
        station: u16,
        out: &mut Outbox,
    ) -> Result<Outcome, NoMemory>
        requires node { here.node ≡ Ap self.old.number }
        requires form { InForm here.domain.now }
        requires listed { self.old.number < length here.domain.now.aps }
        requires station { station < length here.domain.now.stas }
        ensures taken { IfOk result (λ outcome. IsTaken here.entry.domain.now (Expire station)
            self.old self.new (seen out.old.acts out.new.acts outcome)) }
        ensures same { OnErr result (self.new ≡ self.old) }
        ensures kept { OnErr result (out.new.acts ≡ out.old.acts) }
    {
        out.reserve(4)?;
        let outcome = self.drop_station(station, out);
        Ok(self.end(here, outcome, out))
    }

    // The part with a station is dropped. The switch is to come, and there is room for it.
    fn drop_station(&mut self, station: u16, out: &mut Outbox) -> Outcome
        requires room { 4 ≤ out.old.spare }
        ensures done { (d : AnyDomain) → InForm d → station < length d.stas
            → IsDone d (Expire station) self.old self.new (seen out.old.acts out.new.acts result) }
        ensures number { self.new.number ≡ self.old.number }
        ensures room { 2 ≤ out.new.spare }
    {
        let newest = self.group.newest();
        let owed = owes(&self.stations, station, &newest);
        let (had_attempt, had_session) = drop_part(&mut self.stations, station);
        self.owing = recounted(self.owing, owed, false);
        add_dropped(station, had_attempt, had_session, out)
    }

    // Revokes the key of a station.
    fn revoke<H: Holders>(
        &self,
        here: Here<'_>,
        station: u16,
        holders: &mut H,
        out: &mut Outbox,
    ) -> Result<Outcome, NoMemory>
        requires form { InForm here.domain.now }
        requires listed { self.now.number < length here.domain.now.aps }
        requires station { station < length here.domain.now.stas }
        requires has { is_in self.now.number (H.has holders.old) ≡ true }
        ensures taken { IfOk result (λ outcome. IsTakenWith NoLooks here.entry.domain.now
            (Revoke station)
            self.now self.now (H.rows holders.old self.now.number)
            (H.rows holders.new self.now.number) (seen out.old.acts out.new.acts outcome)) }
        ensures same_rows { OnErr result
            (H.rows holders.new self.now.number ≡ H.rows holders.old self.now.number) }
        ensures kept { OnErr result (out.new.acts ≡ out.old.acts) }
        ensures others { LeavesOthers self.now.number (H.ids holders.old) (H.ids holders.new)
            (H.has holders.old) (H.has holders.new) (H.rows holders.old) (H.rows holders.new) }
        ensures change { OneChange H H.puts H.revokes self.now.number holders.old holders.new }
        ensures no_less { H.no_less holders.old holders.new }
    {
        revoke(here, self.number, station, &self.derived, holders, out)
    }
}
