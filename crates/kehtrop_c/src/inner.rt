//! What a handle stands for.

ghost use Rattle.std.specs.Prelude.{◌≡◌};
ghost use Rattle.node_base.specs.Events.{event_of as event_meant};
ghost use Rattle.domain_rules.specs.Network.{peer_of};
ghost use Rattle.run_journal.specs.Listing.{with_ap, with_sta};
ghost use Rattle.kehtrop_c.specs.Crossing.{asked};
ghost use Rattle.kehtrop_c.specs.Going.{Answered, Became, Listed, Said, Tells, network, node_of};
ghost use Rattle.kehtrop_c.specs.Going.{ap_unlisted, counter_of, sta_unlisted, Pushed};

use crate::counters::counter_told;
use crate::crossing::{Item, R1Key};
use crate::events::event_of;
use crate::items::item_of;
use crate::statuses::{NOTHING, OK, UNFIT, status_listed, status_of};
use domain_base::{Mac, Node};
use embedded_node::{EmbeddedAp, EmbeddedStation};
use node_base::NodeEvent;
use run_journal::{Act, Domain};
use std::alloc::Global;

/// The node.
#[derive(Drop)]
pub enum Role {
    /// A station.
    Station(EmbeddedStation),
    /// An access point.
    Ap(EmbeddedAp),
}

impl Role {
    /// The network as the node knows it.
    pub(crate) fn domain(&self) -> &Domain
        ensures { result.now ≡ network self.now }
    {
        match self {
            Role::Station(station) => station.domain(),
            Role::Ap(ap) => ap.domain(),
        }
    }

    // The node of that address of the other kind, where it is listed.
    fn peer_of(&self, address: Mac) -> Option<Node>
        ensures { result ≡ peer_of (network self.now) (node_of self.now) address.0 }
    {
        match self {
            Role::Station(station) => station.peer_of(address),
            Role::Ap(ap) => ap.peer_of(address),
        }
    }

    /// Lists an access point.
    pub(crate) fn list_ap(&mut self, alloc: Global, address: Mac, r0kh_id: &[u8]) -> u8
        ensures { Listed self.old self.new (with_ap (network self.old) address r0kh_id.now)
            (ap_unlisted self.old address r0kh_id.now) result }
    {
        match self {
            Role::Station(station) => status_listed(station.list_ap(alloc, address, r0kh_id)),
            Role::Ap(ap) => status_listed(ap.list_ap(alloc, address, r0kh_id)),
        }
    }

    /// Takes a PMK-R1 of the R0 key holder of that R0KH-ID, where the node is an access point.
    pub(crate) fn push(&mut self, r0kh_id: &[u8], key: &R1Key) -> u8
        ensures { Pushed self.old self.new r0kh_id.now key.now result }
    {
        match self {
            Role::Station(_) => UNFIT,
            Role::Ap(ap) => {
                let sta = Mac(key.station);
                status_listed(ap.push(r0kh_id, &key.r0_name, sta, &key.key))
            }
        }
    }

    /// Lists a station, where the node is an access point.
    pub(crate) fn list_station(&mut self, address: Mac, psk: &[u8; 32]) -> u8
        ensures { Listed self.old self.new (with_sta (network self.old) address psk.now)
            (sta_unlisted self.old address) result }
    {
        match self {
            Role::Station(_) => UNFIT,
            Role::Ap(ap) => status_listed(ap.list_station(address, psk)),
        }
    }

    // One event.
    fn event(&mut self, alloc: Global, event: &NodeEvent<'_>) -> u8
        ensures { Became self.old self.new (event_meant event.now) result }
    {
        match self {
            Role::Station(station) => status_of(station.event(alloc, event)),
            Role::Ap(ap) => status_of(ap.event(alloc, event)),
        }
    }

    /// The event that these numbers ask for.
    pub(crate) fn ask(
        &mut self,
        alloc: Global,
        what: u8,
        address: &[u8; 6],
        tid: u8,
        octets: &[u8],
    ) -> u8
        ensures { Answered self.old self.new
            (asked (network self.old) (node_of self.old) what address.now tid octets.now) result }
    {
        let peer = self.peer_of(Mac(*address));
        match event_of(what, address, peer, tid, octets) {
            Some(event) => self.event(alloc, &event),
            None => UNFIT,
        }
    }

    // The receive counter of the key that an act installs, or lets go on.
    fn counter_of(&self, act: &Act) -> u64
        ensures { result ≡ counter_of self.now act.now }
    {
        match self {
            Role::Station(station) => counter_told(station, act),
            Role::Ap(_) => 0,
        }
    }

    // The first of what the node did that was not told yet.
    fn next(&mut self) -> Option<Act>
        ensures { Tells self.old self.new result }
    {
        match self {
            Role::Station(station) => station.next(),
            Role::Ap(ap) => ap.next(),
        }
    }
}

/// What a handle stands for: a node, and what it told last.
#[derive(Drop)]
pub struct Inner {
    /// The node.
    pub role: Role,
    /// What it told last.
    pub told: Option<Act>,
}

impl Inner {
    /// Tells the first of what the node did that was not told yet.
    pub(crate) fn tell(&mut self)
        ensures { Tells self.old.role self.new.role self.new.told }
    {
        self.told = self.role.next();
    }

    /// Writes what it told last as an item, where it told anything, and answers the status.
    pub(crate) fn say(&self, item: &mut Item) -> u8
        ensures { Said self.now.role self.now.told item.old item.new result }
    {
        match &self.told {
            Some(act) => {
                *item = item_of(self.role.domain(), self.role.counter_of(act), act);
                OK
            }
            None => NOTHING,
        }
    }
}
