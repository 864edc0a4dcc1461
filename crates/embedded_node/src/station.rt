//! A station with the network as it knows it.

ghost use Rattle.std.specs.Prelude.{◌≡◌, ◌<◌, ◌↔◌, ◌∷◌, ℕ, List, [], length, true};
ghost use Rattle.std.specs.Prelude.{IfOk, IfErr, IfSome, OnOk, OnErr, IsTrue};
ghost use Rattle.std.specs.Prelude.{MatchOption, MatchResult};
ghost use Rattle.domain_base.specs.declared.names.Node.TheVariants.{Sta};
ghost use Rattle.run_journal.specs.declared.acts.Act.{Act as AnyAct};
ghost use Rattle.run_journal.specs.declared.acts.GroupKind.TheVariants as groups;
ghost use Rattle.run_journal.specs.Listing.{with_ap, with_sta};
ghost use Rattle.domain_rules.specs.Here.{here};
ghost use Rattle.domain_rules.specs.Network.{InForm, peer_of};
ghost use Rattle.node_base.specs.Changing.{after};
ghost use Rattle.node_base.specs.Events.{event_of, IsEventAt, Steps, seen};
ghost use Rattle.station_node.specs.Stands.{Stands};
ghost use Rattle.embedded_node.specs.Counters.{counter_at, IsGot};
ghost use Rattle.embedded_node.specs.Free.{ap_fault, IsCause};
ghost use Rattle.embedded_node.specs.Headers.{bare};
ghost use Rattle.embedded_node.specs.Events.{IsCauseOf};
ghost use Rattle.embedded_node.specs.Starts.{can_start, IsStartCause};

use crate::events::{again, follow};
use crate::header::{Header, domain_of};
use crate::listing::{list_ap, list_station};
use crate::starting::can_start;
use crate::untaken::Untaken;
use act_memory::Outbox;
use domain_base::{Akm, Mac, NoMemory, Node, Peer};
use node_base::{NodeEvent, peer_of};
use run_journal::{Act, Domain, MOST_PAYLOAD, Outcome, is_named};
use station_node::{StationNode, stands_as_the_network_grows};
use std::alloc::Global;
use std::marker::Model;

/// A station with the network as it knows it.
#[derive(Drop)]
pub struct EmbeddedStation {
    domain: Domain,
    node: StationNode,
    out: Outbox,
}

impl Model for EmbeddedStation {
    ghost use Rattle.embedded_node.specs.States.{Station, IsStation};

    ghost Value = { Station };

    ghost view = { λ s. record { domain = s.domain; node = s.node; acts = s.out.acts } };

    ghost invariant = { λ s. IsStation
        (record { domain = s.domain; node = s.node; acts = s.out.acts }) };
}

// Whether an access point is listed under that number.
fn is_listed(domain: &Domain, ap: u16) -> bool
    ensures { IsTrue result ↔ (ap < length domain.now.aps) }
{
    usize::from(ap) < domain.aps.0.len()
}

// Whether an event is one that the first station of that network takes.
fn is_event(domain: &Domain, event: &NodeEvent<'_>) -> bool
    ensures { IsTrue result ↔ IsEventAt domain.now (Sta 0) (event_of event.now) }
{
    match event {
        NodeEvent::Take(_) => true,
        NodeEvent::Connect(ap) => is_listed(domain, *ap),
        NodeEvent::Roam(ap) => is_listed(domain, *ap) && domain.akm == Akm::FtPsk,
        NodeEvent::Send(Peer::One(Node::Ap(ap)), _, payload) => {
            is_listed(domain, *ap) && payload.len() <= MOST_PAYLOAD
        }
        NodeEvent::Leave => true,
        NodeEvent::Secret(sta, _) => is_named(*sta, 0),
        _ => false,
    }
}

// One event at a station.
fn step(
    station: &mut StationNode,
    alloc: Global,
    domain: &Domain,
    event: &NodeEvent<'_>,
    out: &mut Outbox,
) -> Result<Outcome, NoMemory>
    requires form { InForm domain.now }
    requires listed { station.old.number < length domain.now.stas }
    requires event { IsEventAt domain.now (Sta station.old.number) (event_of event.now) }
    ensures number { station.new.number ≡ station.old.number }
    ensures steps { IfOk result (λ outcome. (first : ℕ) (h : List AnyAct)
        → Stands domain.now first station.old h
        → Steps (here domain.now first (Sta station.old.number)) (event_of event.now)
        (Stands (after domain.now (event_of event.now)) first station.new) h
        (seen out.old.acts out.new.acts outcome)) }
    ensures same { OnErr result (station.new ≡ station.old) }
    ensures kept { OnErr result (out.new.acts ≡ out.old.acts) }
{
    match *event {
        NodeEvent::Send(to, Some(tid), payload) => {
            station.step(alloc, domain, NodeEvent::Send(to, Some(tid), payload), out)
        }
        _ => station.step(alloc, domain, again(event), out),
    }
}

impl EmbeddedStation {
    /// A station of that address and pre-shared key, which begins to draw at that number. It knows
    /// of no access point.
    ///
    /// # Errors
    ///
    /// `Unfit` where the draws are at their end, the name of the network has no octet or more than
    /// 32, or the address is not that of one node. `NoMemory`.
    #[tactic(auto, using(crate::proofs::StartCauses::of_station))]
    pub fn start(
        alloc: Global,
        header: &Header<'_>,
        address: Mac,
        psk: &[u8; 32],
        first_draw: u64,
    ) -> Result<Self, Untaken>
        ensures acts { IfOk result (λ s. s.acts ≡ []) }
        ensures stands { IfOk result (λ s. Stands s.domain first_draw s.node []) }
        ensures network { IfOk result
            (λ s. s.domain ≡ with_sta (bare header.now) address psk.now) }
        ensures cause { MatchResult result (λ _. can_start header.now address first_draw ≡ true)
            (IsStartCause (can_start header.now address first_draw)) }
    {
        if !can_start(header, address, first_draw) {
            return Err(Untaken::Unfit);
        }
        let mut domain = domain_of(alloc, header)?;
        list_station(&mut domain, address, psk)?;
        Ok(EmbeddedStation {
            domain,
            node: StationNode::start(alloc, 0, first_draw),
            out: Outbox::new(alloc),
        })
    }

    /// Lists an access point that it found.
    ///
    /// # Errors
    ///
    /// `Full` where the most access points are listed. `Unfit` where the address is not that of one
    /// node, the R0KH-ID has no octet or more than 48, or a listed node has either. `NoMemory`. All
    /// is as before.
    pub fn list_ap(&mut self, alloc: Global, address: Mac, r0kh_id: &[u8]) -> Result<(), Untaken>
        ensures acts { self.new.acts ≡ self.old.acts }
        ensures stands { (first : ℕ) (h : List AnyAct)
            → Stands self.old.domain first self.old.node h
            → Stands self.new.domain first self.new.node h }
        ensures network { OnOk result
            (self.new.domain ≡ with_ap self.old.domain address r0kh_id.now) }
        ensures cause { IfErr result (IsCause (ap_fault self.old.domain address r0kh_id.now)) }
        ensures same { OnErr result (self.new ≡ self.old) }
    {
        stands_as_the_network_grows();
        list_ap(alloc, &mut self.domain, address, r0kh_id)
    }

    /// The network as it knows it.
    pub fn domain(&self) -> &Domain
        ensures { result.now ≡ self.now.domain }
    {
        &self.domain
    }

    /// The access point of that address, where it is listed.
    pub fn peer_of(&self, address: Mac) -> Option<Node>
        ensures { result ≡ peer_of self.now.domain (Sta 0) address.0 }
    {
        peer_of(&self.domain, Node::Sta(0), address)
    }

    /// The receive counter of a GTK that it keeps of that access point, a packet number below 2^48:
    /// the greatest, since the key was installed, of the RSCs that came with it and of the packet
    /// numbers that were taken under it. None where it keeps no such key
    /// (IEEE Std 802.11-2020, 12.7.7).
    pub fn group_counter(&self, ap: u16, key: &[u8; 16]) -> Option<u64>
        ensures memory { result ≡ counter_at groups.Gtk self.now ap key.now }
        ensures got { IfSome result (IsGot groups.Gtk self.now ap key.now) }
    {
        self.node.group_counter(ap, key)
    }

    /// The receive counter of an IGTK that it keeps of that access point, in the same way by the
    /// IPNs that came with it (IEEE Std 802.11-2020, 12.5.4.4).
    pub fn integrity_counter(&self, ap: u16, key: &[u8; 16]) -> Option<u64>
        ensures memory { result ≡ counter_at groups.Igtk self.now ap key.now }
        ensures got { IfSome result (IsGot groups.Igtk self.now ap key.now) }
    {
        self.node.integrity_counter(ap, key)
    }

    /// One event, where it is one that the station takes. Where that is a changed key of its own,
    /// the network has that key from then on.
    ///
    /// # Errors
    ///
    /// `Unfit` where it is none. `NoMemory`. All is as before.
    pub fn event(&mut self, alloc: Global, event: &NodeEvent<'_>) -> Result<Outcome, Untaken>
        ensures domain { OnOk result
            (self.new.domain ≡ after self.old.domain (event_of event.now)) }
        ensures steps { IfOk result (λ outcome. (first : ℕ) (h : List AnyAct)
            → Stands self.old.domain first self.old.node h
            → Steps (here self.old.domain first (Sta 0)) (event_of event.now)
            (Stands self.new.domain first self.new.node) h
            (seen self.old.acts self.new.acts outcome)) }
        ensures cause { IfErr result
            (IsCauseOf (IsEventAt self.old.domain (Sta 0) (event_of event.now))) }
        ensures same { OnErr result (self.new ≡ self.old) }
    {
        if !is_event(&self.domain, event) {
            return Err(Untaken::Unfit);
        }
        match step(&mut self.node, alloc, &self.domain, event, &mut self.out) {
            Ok(outcome) => {
                follow(&mut self.domain, event);
                Ok(outcome)
            }
            Err(NoMemory) => Err(Untaken::NoMemory),
        }
    }

    /// The first of what it did that was not told yet.
    pub fn next(&mut self) -> Option<Act>
        ensures domain { self.new.domain ≡ self.old.domain }
        ensures node { self.new.node ≡ self.old.node }
        ensures acts { MatchOption result
            (self.old.acts ≡ []) (λ act. self.old.acts ≡ act ∷ self.new.acts) }
        ensures none { self.old.acts ≡ [] → self.new.acts ≡ [] }
    {
        self.out.pop()
    }
}
