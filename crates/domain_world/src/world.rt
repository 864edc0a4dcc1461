//! The world: its nodes, the frames sent and the rounds run.

ghost use Rattle.std.specs.Prelude.{◌≡◌, ◌≤◌, ◌<◌, ◌+◌, ◌^◌, suc, ℕ, List, [], length, take, map};
ghost use Rattle.std.specs.Prelude.{false, IfOk, OnOk, OnErr};
ghost use Rattle.std.specs.List.{AllByRecursion};
ghost use Rattle.domain_base.specs.Octets.{AreOctets};
ghost use Rattle.air_frame.specs.Sent.{IsAddress};
ghost use Rattle.run_journal.specs.declared.acts.Entry.{Entry};
ghost use Rattle.run_journal.specs.declared.domain.Domain.{Domain as AnyDomain};
ghost use Rattle.run_journal.specs.declared.domain.Event.TheVariants.{Secret};
ghost use Rattle.run_journal.specs.Changed.{changed, changed_by};
ghost use Rattle.domain_rules.specs.Network.{InForm};
ghost use Rattle.run_journal.specs.Events.{IsListed, NamesSta};
ghost use Rattle.run_journal.specs.Limits.{most_events};
ghost use Rattle.domain_rules.specs.Explained.{HappensAt, Step, Follows, WasSent, started};
ghost use Rattle.domain_world.specs.Ordering.{node_of};
ghost use Rattle.node_base.specs.Events.{event_of, IsEventAt};
ghost use Rattle.run_journal.specs.Listing.{with_ap, with_extra, with_sta};

use crate::gate::{Gate, Unbarred};
use crate::journaling::{journal_acts, journal_parts};
use crate::nodes::Nodes;
use crate::ordering::{node_event, node_of};
use crate::part::Part;
use crate::working::Turn;
use act_memory::Outbox;
use domain_base::{Mac, NoMemory, Node, Octets};
use node_base::NodeEvent;
use run_journal::{Act, Domain, Event, Extra, Journal};
use std::alloc::Global;
use std::marker::Model;
use std::thread::Threads;

/// A domain whose access points and stations take one event at a time.
#[derive(Drop)]
pub struct World {
    alloc: Global,
    nodes: Nodes,
    // where in the journal each frame stands
    frames: Vec<usize>,
    rounds: u64,
    // empty between events
    out: Outbox,
    usable: bool,
}

impl Model for World {
    ghost use Rattle.std.specs.Prelude.{◌≡◌, []};
    ghost use Rattle.domain_world.specs.State.{State};

    ghost Value = { State };

    ghost view = { λ w. record {
      domain = w.nodes.domain;
      aps = w.nodes.aps;
      stas = w.nodes.stas;
      rows = w.nodes.rows;
      frames = w.frames.items;
      rounds = w.rounds;
      usable = w.usable;
    } };

    ghost invariant = { λ w. w.out.acts ≡ [] };
}

// An event of a round, and the octets that come by it where it changes one.
#[derive(Drop)]
struct Coming<'a> {
    event: &'a Event,
    changed: Vec<u8>,
}

// Two octets are so many.
fn pair(mdid: &[u8; 2])
    ensures size { length mdid.now ≡ 2 }
    ensures octets { AreOctets mdid.now }
{
    octets(mdid);
}

// An address has six octets.
fn six(address: &[u8; 6])
    ensures size { IsAddress address.now }
    ensures octets { AreOctets address.now }
{
    octets(address);
}

// Octets are below 256.
fn octets(octets: &[u8])
    ensures { AreOctets octets.now }
{}

impl World {
    ghost use Rattle.domain_world.specs.Owning.{Owns, Places, AreListed, Stand, nodes_of};
    ghost use Rattle.domain_world.specs.Owning.{HasOctets, IsEventIn, IsOneIn, IsSince};
    ghost use Rattle.domain_world.specs.Owning.{AreEventsIn};
    ghost use Rattle.domain_world.specs.Acting.{IsAltered, IsChanged, Played};
    ghost use Rattle.domain_world.specs.Waiting.{events_below};
    ghost use Rattle.domain_world.specs.Comings.{event_at};
    ghost use Rattle.domain_world.specs.Working.{IsComing, IsTurn};

    /// A world of that network, in which no node is listed yet, and which is in form.
    pub fn start(alloc: Global, domain: &Domain) -> Result<Self, NoMemory>
        requires form { InForm domain.now }
        requires no_aps { domain.now.aps ≡ [] }
        requires no_stas { domain.now.stas ≡ [] }
        ensures domain { IfOk result (λ w. w.domain ≡ domain.now) }
        ensures rounds { IfOk result (λ w. w.rounds ≡ 0) }
        ensures own { IfOk result (λ w. Owns w []) }
        ensures since { IfOk result (λ w. IsSince w.domain w []) }
    {
        pair(&domain.mdid);
        let nodes = Nodes::new(alloc, domain)?;
        Ok(World {
            alloc,
            nodes,
            frames: Vec::new(alloc),
            rounds: 0,
            out: Outbox::new(alloc),
            usable: true,
        })
    }

    /// One more access point. It starts: what it does is journaled in round 0.
    ///
    /// No event came yet, and the journal is this world's own.
    pub fn add_ap(
        &mut self,
        address: Mac,
        r0kh_id: Octets,
        journal: &mut Journal,
    ) -> Result<(), NoMemory>
        requires own { Owns self.old journal.old.entries }
        requires first { self.old.rounds ≡ 0 }
        requires form { InForm (with_ap self.old.domain address r0kh_id) }
        ensures domain { OnOk result (self.new.domain ≡ with_ap self.old.domain address r0kh_id) }
        ensures own { Owns self.new journal.new.entries }
        ensures since { OnOk result ((c : AnyDomain) → IsSince c self.old journal.old.entries
            → IsSince (with_ap c address r0kh_id) self.new journal.new.entries) }
        ensures rounds { self.new.rounds ≡ self.old.rounds }
        ensures started { OnOk result
            (journal.old.entries ≡ started self.old.domain (length self.old.domain.aps)
            → journal.new.entries ≡ started self.new.domain (length self.new.domain.aps)) }
        ensures same { OnErr result (self.new ≡ self.old) }
        ensures kept { OnErr result (journal.new.entries ≡ journal.old.entries) }
    {
        six(&address.0);
        octets(r0kh_id.as_slice());
        let most = self.nodes.most_acts();
        journal.reserve(most)?;
        self.frames.reserve(most)?;
        let node = self
            .nodes
            .add_ap(self.alloc, address, r0kh_id, &mut self.out)?;
        journal_acts(0, node, &mut self.out, &mut self.frames, journal);
        Ok(())
    }

    /// One more station, of that pre-shared key. No event came yet.
    pub fn add_station(&mut self, address: Mac, psk: [u8; 32]) -> Result<(), NoMemory>
        requires first { self.old.rounds ≡ 0 }
        requires form { InForm (with_sta self.old.domain address psk) }
        ensures domain { OnOk result (self.new.domain ≡ with_sta self.old.domain address psk) }
        ensures own { (j : List Entry) → Owns self.old j → Owns self.new j }
        ensures since { OnOk result ((c : AnyDomain) (j : List Entry) → Owns self.old j
            → IsSince c self.old j → IsSince (with_sta c address psk) self.new j) }
        ensures rounds { self.new.rounds ≡ self.old.rounds }
        ensures started { OnOk result
            ((j : List Entry) → j ≡ started self.old.domain (length self.old.domain.aps)
            → j ≡ started self.new.domain (length self.new.domain.aps)) }
        ensures same { OnErr result (self.new ≡ self.old) }
    {
        six(&address.0);
        self.nodes.add_station(self.alloc, address, psk)?;
        Ok(())
    }

    /// The header has that line too from now on, which it may have. No node is listed yet.
    pub fn add_extra(&mut self, extra: Extra)
        requires first { self.old.rounds ≡ 0 }
        requires no_aps { self.old.domain.aps ≡ [] }
        requires no_stas { self.old.domain.stas ≡ [] }
        ensures domain { self.new.domain ≡ with_extra self.old.domain extra }
        ensures own { (j : List Entry) → Owns self.old j → Owns self.new j }
        ensures since { (c : AnyDomain) (j : List Entry) → Owns self.old j → IsSince c self.old j
            → IsSince (with_extra c extra) self.new j }
        ensures rounds { self.new.rounds ≡ self.old.rounds }
        ensures started { (j : List Entry)
            → j ≡ started self.old.domain (length self.old.domain.aps)
            → j ≡ started self.new.domain (length self.new.domain.aps) }
    {
        self.nodes.add_extra(extra);
    }

    /// One event, a round by itself. The journal is this world's own; the event names listed nodes
    /// of the right kinds and a frame that was sent. An octet that is changed, and octets that are
    /// kept, are the frame's. A payload has at most 2304 octets. Keys are changed in version 2
    /// alone: from then on the network of the world has the new one, where the round is of the
    /// network as it was before. Pairwise keys are renewed in version 2 with suites 2 and 6 alone, and
    /// announcements made in networks alone that protect them.
    pub fn event(&mut self, event: &Event, journal: &mut Journal) -> Result<(), NoMemory>
        requires own { Owns self.old journal.old.entries }
        requires event { IsEventIn self.old.domain (length self.old.frames) journal.old.entries
            event.now }
        requires few { self.old.rounds + 1 < 2 ^ 64 }
        ensures step { OnOk result ((c : AnyDomain) → IsSince c self.old journal.old.entries
            → Step c (suc self.old.rounds) event.now journal.old.entries journal.new.entries) }
        ensures since { (c : AnyDomain) → IsSince c self.old journal.old.entries
            → IsSince c self.new journal.new.entries }
        ensures rounds { OnOk result (self.new.rounds ≡ suc self.old.rounds) }
        ensures domain { OnOk result (self.new.domain ≡ changed_by self.old.domain event.now) }
        ensures own { Owns self.new journal.new.entries }
        ensures same { OnErr result (self.new ≡ self.old) }
        ensures kept { OnErr result (journal.new.entries ≡ journal.old.entries) }
    {
        match event {
            Event::Secret { sta, psk } => self.change(*sta, psk, journal),
            _ => self.happen(event, journal),
        }
    }

    // The key of a station is changed, or that of all.
    fn change(
        &mut self,
        sta: Option<u16>,
        psk: &[u8; 32],
        journal: &mut Journal,
    ) -> Result<(), NoMemory>
        requires own { Owns self.old journal.old.entries }
        requires sta { NamesSta self.old.domain sta }
        requires few { self.old.rounds + 1 < 2 ^ 64 }
        ensures step { OnOk result ((c : AnyDomain) → IsSince c self.old journal.old.entries
            → Step c (suc self.old.rounds) (Secret sta psk.now) journal.old.entries
            journal.new.entries) }
        ensures since { (c : AnyDomain) → IsSince c self.old journal.old.entries
            → IsSince c self.new journal.new.entries }
        ensures rounds { OnOk result (self.new.rounds ≡ suc self.old.rounds) }
        ensures domain { OnOk result (self.new.domain ≡ changed self.old.domain sta psk.now) }
        ensures own { Owns self.new journal.new.entries }
        ensures same { OnErr result (self.new ≡ self.old) }
        ensures kept { OnErr result (journal.new.entries ≡ journal.old.entries) }
    {
        let round = self.rounds + 1;
        self.nodes.change(
            self.alloc,
            round,
            sta,
            psk,
            &mut self.out,
            &mut self.frames,
            journal,
        )?;
        self.rounds = round;
        Ok(())
    }

    // An event that is at one node.
    fn happen(&mut self, event: &Event, journal: &mut Journal) -> Result<(), NoMemory>
        requires own { Owns self.old journal.old.entries }
        requires event { IsOneIn self.old.domain (length self.old.frames) journal.old.entries
            event.now }
        requires few { self.old.rounds + 1 < 2 ^ 64 }
        ensures step { OnOk result ((c : AnyDomain) → IsSince c self.old journal.old.entries
            → Step c (suc self.old.rounds) event.now journal.old.entries journal.new.entries) }
        ensures since { (c : AnyDomain) → IsSince c self.old journal.old.entries
            → IsSince c self.new journal.new.entries }
        ensures rounds { OnOk result (self.new.rounds ≡ suc self.old.rounds) }
        ensures domain { self.new.domain ≡ self.old.domain }
        ensures own { Owns self.new journal.new.entries }
        ensures same { OnErr result (self.new ≡ self.old) }
        ensures kept { OnErr result (journal.new.entries ≡ journal.old.entries) }
    {
        let changed = self.changed(event, journal)?;
        let most = self.nodes.most_acts();
        journal.reserve(most)?;
        self.frames.reserve(most)?;
        let (node, at_node) = self.at_node(event, journal, changed.as_slice());
        self.nodes.step(self.alloc, node, &at_node, &mut self.out)?;
        let round = self.rounds + 1;
        journal_acts(round, node, &mut self.out, &mut self.frames, journal);
        self.rounds = round;
        Ok(())
    }

    /// A round: its events, each at an access point, side by side. There are at most
    /// `MOST_EVENTS`. The journal is this world's own, and each event might come by itself.
    ///
    /// Each access point that has events has a worker, which takes them as they are listed. However
    /// the workers interleave, the round stands in the journal by access points, in order: what one
    /// sends comes behind the round, and what it asks of another's key holder is answered by what
    /// that had at some moment of the round. Where a thread cannot be started this one does its
    /// work.
    ///
    /// Where memory is wanted the journal is as before, and the world is of no use any longer.
    pub fn round<R: Threads + Sync>(
        &mut self,
        rt: &R,
        events: &[Event],
        journal: &mut Journal,
    ) -> Result<(), NoMemory>
        requires own { Owns self.old journal.old.entries }
        requires events { AreEventsIn self.old.domain (length self.old.frames) journal.old.entries
            events.now }
        requires few_events { length events.now ≤ most_events }
        requires few { self.old.rounds + 1 < 2 ^ 64 }
        ensures steps { OnOk result ((c : AnyDomain) → IsSince c self.old journal.old.entries
            → Follows c (suc self.old.rounds) events.now journal.old.entries
            journal.new.entries) }
        ensures since { OnOk result ((c : AnyDomain) → IsSince c self.old journal.old.entries
            → IsSince c self.new journal.new.entries) }
        ensures rounds { OnOk result (self.new.rounds ≡ suc self.old.rounds) }
        ensures domain { self.new.domain ≡ self.old.domain }
        ensures own { OnOk result (Owns self.new journal.new.entries) }
        ensures kept { OnErr result (journal.new.entries ≡ journal.old.entries) }
        ensures unusable { OnErr result (self.new.usable ≡ false) }
    {
        self.round_with(rt, events, journal, &Unbarred)
    }

    /// A round, in which each worker passes the gate once, before its first event.
    pub fn round_with<R: Threads + Sync, G: Gate + Sync>(
        &mut self,
        rt: &R,
        events: &[Event],
        journal: &mut Journal,
        gate: &G,
    ) -> Result<(), NoMemory>
        requires own { Owns self.old journal.old.entries }
        requires events { AreEventsIn self.old.domain (length self.old.frames) journal.old.entries
            events.now }
        requires few_events { length events.now ≤ most_events }
        requires few { self.old.rounds + 1 < 2 ^ 64 }
        ensures steps { OnOk result ((c : AnyDomain) → IsSince c self.old journal.old.entries
            → Follows c (suc self.old.rounds) events.now journal.old.entries
            journal.new.entries) }
        ensures since { OnOk result ((c : AnyDomain) → IsSince c self.old journal.old.entries
            → IsSince c self.new journal.new.entries) }
        ensures rounds { OnOk result (self.new.rounds ≡ suc self.old.rounds) }
        ensures domain { self.new.domain ≡ self.old.domain }
        ensures own { OnOk result (Owns self.new journal.new.entries) }
        ensures kept { OnErr result (journal.new.entries ≡ journal.old.entries) }
        ensures unusable { OnErr result (self.new.usable ≡ false) }
    {
        self.usable = false;
        let parts = self.play(rt, events, journal, gate)?;
        // more than memory holds where the product is no number: then the next call says so
        let most = self.nodes.most_acts().saturating_mul(parts.len());
        journal.reserve(most)?;
        self.frames.reserve(most)?;
        let round = self.rounds + 1;
        journal_parts(round, parts, &mut self.frames, journal);
        self.rounds = round;
        self.usable = true;
        Ok(())
    }

    // The events of a round: what each adds waits, by access points.
    fn play<R: Threads + Sync, G: Gate + Sync>(
        &mut self,
        rt: &R,
        events: &[Event],
        journal: &Journal,
        gate: &G,
    ) -> Result<Vec<Part>, NoMemory>
        requires listed { AreListed (nodes_of self.old) }
        requires form { InForm self.old.domain }
        requires stand { Stand (nodes_of self.old) journal.now.entries }
        requires placed { Places self.old journal.now.entries }
        requires events { AreEventsIn self.old.domain (length self.old.frames) journal.now.entries
            events.now }
        ensures played { IfOk result (λ parts. Played (suc self.old.rounds)
            (events_below (length self.old.domain.aps) events.now) journal.now.entries
            (nodes_of self.old) (nodes_of self.new) parts.items) }
        ensures listed { AreListed (nodes_of self.new) }
        ensures domain { self.new.domain ≡ self.old.domain }
        ensures frames { self.new.frames ≡ self.old.frames }
        ensures rounds { self.new.rounds ≡ self.old.rounds }
        ensures usable { self.new.usable ≡ self.old.usable }
    {
        let comings = self.comings(events, journal)?;
        let turns = self.turns(comings.as_slice(), journal)?;
        self.nodes.round(rt, self.alloc, gate, turns.as_slice())
    }

    // The events, each with the octets that it changes.
    fn comings<'a>(
        &self,
        events: &'a [Event],
        journal: &Journal,
    ) -> Result<Vec<Coming<'a>>, NoMemory>
        requires placed { Places self.now journal.now.entries }
        requires events { AreEventsIn self.now.domain (length self.now.frames) journal.now.entries
            events.now }
        ensures events { IfOk result (λ v. map (λ c. c.event.now) v.items ≡ events.now) }
        ensures changed { IfOk result (λ v. AllByRecursion (IsComing journal.now.entries
            (suc self.now.rounds)) v.items) }
    {
        let mut comings = Vec::new(self.alloc);
        for event in events {
            let changed = self.changed(event, journal)?;
            comings.push(Coming { event, changed })?;
        }
        Ok(comings)
    }

    // What the events are at their access points.
    fn turns<'a>(
        &self,
        comings: &'a [Coming<'a>],
        journal: &'a Journal,
    ) -> Result<Vec<Turn<'a>>, NoMemory>
        requires placed { Places self.now journal.now.entries }
        requires events { AreEventsIn self.now.domain (length self.now.frames) journal.now.entries
            (map (λ c. c.event.now) comings.now) }
        requires changed { AllByRecursion (IsComing journal.now.entries (suc self.now.rounds))
            comings.now }
        ensures events { IfOk result (λ v. map (λ t. t.event.now) v.items
            ≡ map (λ c. c.event.now) comings.now) }
        ensures turns { IfOk result (λ v. AllByRecursion (IsTurn self.now.domain
            journal.now.entries (suc self.now.rounds)) v.items) }
    {
        let mut turns = Vec::new(self.alloc);
        for coming in comings {
            let event = coming.event;
            let comes = self.comes(event, journal, coming.changed.as_slice());
            turns.push(Turn { event, comes })?;
        }
        Ok(turns)
    }

    // The octets that come by an event that changes one; none by any other.
    fn changed(&self, event: &Event, journal: &Journal) -> Result<Vec<u8>, NoMemory>
        requires placed { Places self.now journal.now.entries }
        requires event { IsOneIn self.now.domain (length self.now.frames) journal.now.entries
            event.now }
        ensures { IfOk result
            (λ v. IsChanged event.now journal.now.entries (suc self.now.rounds) v.items) }
    {
        match *event {
            Event::Alter {
                number,
                place,
                mask,
                ..
            } => self.altered(number, place, mask, journal),
            _ => Ok(Vec::new(self.alloc)),
        }
    }

    // The octets of a frame with one changed.
    fn altered(
        &self,
        number: u64,
        place: usize,
        mask: u8,
        journal: &Journal,
    ) -> Result<Vec<u8>, NoMemory>
        requires placed { Places self.now journal.now.entries }
        requires some { 1 ≤ number }
        requires sent { number ≤ length self.now.frames }
        requires long { HasOctets journal.now.entries number (suc place) }
        ensures { IfOk result
            (λ v. IsAltered journal.now.entries (suc self.now.rounds) number place mask v.items) }
    {
        let frame = self.octets(number, journal);
        let mut octets = Vec::from_slice(self.alloc, frame)?;
        octets[place] ^= mask;
        Ok(octets)
    }

    // The first octets of a frame.
    fn front<'a>(&self, number: u64, size: usize, journal: &'a Journal) -> &'a [u8]
        requires placed { Places self.now journal.now.entries }
        requires some { 1 ≤ number }
        requires sent { number ≤ length self.now.frames }
        requires long { HasOctets journal.now.entries number size }
        ensures { (octets : List ℕ) ×
            (WasSent journal.now.entries (suc self.now.rounds) number octets
            × (result.now ≡ take size octets)) }
    {
        let frame = self.octets(number, journal);
        &frame[..size]
    }

    // The octets that come by an event; none by one that takes none. It may come to its node.
    fn comes<'a>(&self, event: &'a Event, journal: &'a Journal, changed: &'a [u8]) -> &'a [u8]
        requires placed { Places self.now journal.now.entries }
        requires event { IsOneIn self.now.domain (length self.now.frames) journal.now.entries
            event.now }
        requires changed { IsChanged event.now journal.now.entries (suc self.now.rounds)
            changed.now }
        ensures happens { HappensAt event.now journal.now.entries (suc self.now.rounds)
            (node_of event.now) (event_at event.now result.now) }
        ensures there { IsEventAt self.now.domain (node_of event.now)
            (event_at event.now result.now) }
    {
        match event {
            Event::Deliver { number, .. } => self.octets(*number, journal),
            Event::Alter { .. } => changed,
            Event::Cut { number, size, .. } => self.front(*number, *size, journal),
            Event::Inject { octets, .. } => octets.as_slice(),
            _ => &[],
        }
    }

    // What the event is in the next round, and at which node.
    fn at_node<'a>(
        &self,
        event: &'a Event,
        journal: &'a Journal,
        changed: &'a [u8],
    ) -> (Node, NodeEvent<'a>)
        requires placed { Places self.now journal.now.entries }
        requires event { IsOneIn self.now.domain (length self.now.frames) journal.now.entries
            event.now }
        requires changed { IsChanged event.now journal.now.entries (suc self.now.rounds)
            changed.now }
        ensures happens { HappensAt event.now journal.now.entries (suc self.now.rounds) result.0
            (event_of result.1) }
        ensures listed { IsListed self.now.domain result.0 }
        ensures event { IsEventAt self.now.domain result.0 (event_of result.1) }
    {
        let comes = self.comes(event, journal, changed);
        (node_of(event), node_event(event, comes))
    }

    /// The octets of the frame of that number, from 1. The journal is this world's own, and the
    /// frame was sent.
    pub fn frame<'a>(&self, number: u64, journal: &'a Journal) -> &'a [u8]
        requires own { Owns self.now journal.now.entries }
        requires some { 1 ≤ number }
        requires sent { number ≤ length self.now.frames }
        ensures { WasSent journal.now.entries (suc self.now.rounds) number result.now }
    {
        self.octets(number, journal)
    }

    // The octets of the frame of that number.
    fn octets<'a>(&self, number: u64, journal: &'a Journal) -> &'a [u8]
        requires placed { Places self.now journal.now.entries }
        requires some { 1 ≤ number }
        requires sent { number ≤ length self.now.frames }
        ensures { WasSent journal.now.entries (suc self.now.rounds) number result.now }
    {
        let place = self.frames[(number - 1) as usize];
        match &journal.at(place).act {
            Act::Sent { octets, .. } => octets.as_slice(),
            _ => unreachable!(),
        }
    }

    /// How many frames were sent.
    pub fn frames(&self) -> usize
        ensures { result ≡ length self.now.frames }
    {
        self.frames.len()
    }

    /// How many rounds were run.
    pub fn rounds(&self) -> u64
        ensures { result ≡ self.now.rounds }
    {
        self.rounds
    }

    /// Whether no round wanted memory.
    pub fn usable(&self) -> bool
        ensures { result ≡ self.now.usable }
    {
        self.usable
    }

    /// The network: the header and the nodes listed so far.
    pub fn domain(&self) -> &Domain
        ensures { result.now ≡ self.now.domain }
    {
        self.nodes.domain()
    }
}
