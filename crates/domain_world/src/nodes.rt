//! The network and its nodes.

ghost use Rattle.std.specs.Prelude.{◌≡◌, ◌≤◌, ◌<◌, ◌+◌, ℕ, List, [], ◌∷◌, ◌++◌, length, map, IfOk};
ghost use Rattle.std.specs.Prelude.{OnOk, OnErr, false};
ghost use Rattle.std.specs.List.{AllByRecursion};
ghost use Rattle.domain_base.specs.declared.names.Node.TheVariants.{Ap as ApOf, Sta as StaOf};
ghost use Rattle.run_journal.specs.declared.domain.ListedAp.{ListedAp as Listed};
ghost use Rattle.run_journal.specs.declared.domain.Event.{Event};
ghost use Rattle.run_journal.specs.declared.acts.Entry.{Entry};
ghost use Rattle.run_journal.specs.Questions.{history};
ghost use Rattle.run_journal.specs.Secrets.{changes_keys};
ghost use Rattle.domain_rules.specs.Network.{InForm};
ghost use Rattle.run_journal.specs.Events.{IsListed, NamesSta};
ghost use Rattle.domain_rules.specs.AccessPointRows.{start_acts};
ghost use Rattle.domain_rules.specs.Explained.{push};
ghost use Rattle.domain_rules.specs.Rounds.{most_acts};
ghost use Rattle.node_base.specs.Changing.{IsStill};
ghost use Rattle.node_base.specs.Events.{event_of, IsEventAt};
ghost use Rattle.run_journal.specs.Limits.{most_stas};
ghost use Rattle.run_journal.specs.Listing.{with_ap, with_extra, with_sta};

use crate::by_ap::Round;
use crate::caching::CachingAp;
use crate::changing::{KeyChange, change_aps, change_stas, room};
use crate::gate::Gate;
use crate::handing::{step_station, turn_alone};
use crate::held::held;
use crate::part::Part;
use crate::shared::Shared;
use crate::working::{Ran, Turn, run};
use act_memory::Outbox;
use domain_base::{Mac, NoMemory, Node, Octets};
use node_base::NodeEvent;
use run_journal::{Aps, Domain, Extra, Journal, ListedAp, ListedSta, Stas};
use station_node::StationNode;
use std::alloc::Global;
use std::marker::Model;
use std::mem;
use std::thread::Threads;

/// The network and its nodes.
#[derive(Drop)]
pub(crate) struct Nodes {
    domain: Domain,
    aps: Vec<CachingAp>,
    stas: Vec<StationNode>,
    // made at the first event of an access point
    holders: Option<Shared>,
}

impl Model for Nodes {
    ghost use Rattle.std.specs.Prelude.{length};
    ghost use Rattle.domain_world.specs.State.{Nodes as Kept, rows_below};
    ghost use Rattle.domain_world.specs.Holding.{seen_of, HoldersFit};
    ghost use Rattle.domain_world.specs.Owning.{AreListed};

    ghost Value = { Kept };

    ghost view = { λ n. record {
      domain = n.domain;
      aps = n.aps.items;
      stas = n.stas.items;
      rows = rows_below (length n.aps.items) (seen_of n.holders);
    } };

    ghost invariant = { λ n. AreListed (record {
      domain = n.domain;
      aps = n.aps.items;
      stas = n.stas.items;
      rows = rows_below (length n.aps.items) (seen_of n.holders);
    }) × HoldersFit n.domain n.holders };
}

// One more listed access point.
fn list_ap(aps: &mut Aps, ap: ListedAp) -> Result<(), NoMemory>
    ensures ok { OnOk result (aps.new ≡ aps.old ++ ap ∷ []) }
    ensures err { OnErr result (aps.new ≡ aps.old) }
{
    aps.0.push(ap)?;
    Ok(())
}

// One more listed station.
fn list_station(stas: &mut Stas, sta: ListedSta) -> Result<(), NoMemory>
    ensures ok { OnOk result (stas.new ≡ stas.old ++ sta ∷ []) }
    ensures err { OnErr result (stas.new ≡ stas.old) }
{
    stas.push(sta)
}

// The access point that was listed last is listed no more.
fn unlist_ap(aps: &mut Aps)
    ensures { (before : List Listed) (last : Listed) → aps.old ≡ before ++ last ∷ []
        → aps.new ≡ before }
{
    let _last = aps.0.pop();
}

impl Nodes {
    ghost use Rattle.domain_world.specs.Changing.{AreChanged};
    ghost use Rattle.domain_world.specs.Owning.{AreListed, Stand, HoldNone, places};
    ghost use Rattle.domain_world.specs.Acting.{Acted, Played};
    ghost use Rattle.domain_world.specs.Waiting.{events_below};
    ghost use Rattle.domain_world.specs.Working.{IsFor, IsTurn};

    /// The network with that header, and no nodes.
    pub(crate) fn new(alloc: Global, header: &Domain) -> Result<Self, NoMemory>
        requires no_aps { header.now.aps ≡ [] }
        requires no_stas { header.now.stas ≡ [] }
        ensures domain { IfOk result (λ n. n.domain ≡ header.now) }
        ensures listed { IfOk result (λ n. AreListed n) }
        ensures stand { IfOk result (λ n. Stand n []) }
        ensures quiet { IfOk result (λ n. n.rows ≡ []) }
    {
        let ssid = Vec::from_slice(alloc, header.ssid.0.as_slice())?;
        Ok(Nodes {
            domain: Domain {
                seed: header.seed.fork(),
                ssid: Octets(ssid),
                akm: header.akm,
                mdid: header.mdid,
                extras: header.extras,
                aps: Aps(Vec::new(alloc)),
                stas: Stas::new(alloc),
            },
            aps: Vec::new(alloc),
            stas: Vec::new(alloc),
            holders: None,
        })
    }

    /// The network.
    pub(crate) fn domain(&self) -> &Domain
        ensures { result.now ≡ self.now.domain }
    {
        &self.domain
    }

    /// One more access point, which starts: its node, and what it does put in the outbox.
    pub(crate) fn add_ap(
        &mut self,
        alloc: Global,
        address: Mac,
        r0kh_id: Octets,
        out: &mut Outbox,
    ) -> Result<Node, NoMemory>
        requires form { InForm (with_ap self.old.domain address r0kh_id) }
        requires waiting { out.old.acts ≡ [] }
        ensures node { IfOk result (λ node. node ≡ ApOf (length self.old.domain.aps)) }
        ensures domain { OnOk result (self.new.domain ≡ with_ap self.old.domain address r0kh_id) }
        ensures listed { AreListed self.new }
        ensures acts { IfOk result (λ node. out.new.acts ≡ start_acts self.new.domain 0 node) }
        ensures stand { IfOk result
            (λ node. (j : List Entry) → Stand self.old j → HoldNone self.old.rows
            → history node j ≡ [] → Stand self.new (push 0 node out.new.acts j)) }
        ensures quiet { OnOk result (HoldNone self.new.rows) }
        ensures same { OnErr result (self.new ≡ self.old) }
        ensures kept { OnErr result (out.new.acts ≡ []) }
    {
        let number = self.aps.len() as u16;
        self.aps.reserve(1)?;
        list_ap(&mut self.domain.aps, ListedAp { address, r0kh_id })?;
        match CachingAp::start(alloc, &self.domain, number, out) {
            Ok(node) => {
                self.aps.push_reserved(node);
                self.holders = None;
                Ok(Node::Ap(number))
            }
            Err(error) => {
                unlist_ap(&mut self.domain.aps);
                Err(error)
            }
        }
    }

    /// One more station.
    pub(crate) fn add_station(
        &mut self,
        alloc: Global,
        address: Mac,
        psk: [u8; 32],
    ) -> Result<(), NoMemory>
        requires form { InForm (with_sta self.old.domain address psk) }
        ensures domain { OnOk result (self.new.domain ≡ with_sta self.old.domain address psk) }
        ensures listed { AreListed self.new }
        ensures stand { OnOk result
            ((j : List Entry) → Stand self.old j
            → history (StaOf (length self.old.domain.stas)) j ≡ []
            → Stand self.new j) }
        ensures rows { self.new.rows ≡ self.old.rows }
        ensures same { OnErr result (self.new ≡ self.old) }
    {
        let number = self.stas.len() as u16;
        self.stas.reserve(1)?;
        list_station(&mut self.domain.stas, ListedSta { address, psk })?;
        let station = StationNode::start(alloc, number, 0);
        self.stas.push_reserved(station);
        Ok(())
    }

    /// The header has that line too. No node is listed yet.
    pub(crate) fn add_extra(&mut self, extra: Extra)
        requires no_aps { self.old.domain.aps ≡ [] }
        requires no_stas { self.old.domain.stas ≡ [] }
        ensures domain { self.new.domain ≡ with_extra self.old.domain extra }
        ensures listed { AreListed self.new }
        ensures stand { (j : List Entry) → Stand self.new j }
        ensures rows { self.new.rows ≡ self.old.rows }
    {
        self.domain.extras.add(extra);
    }

    /// How many access points there are.
    pub(crate) fn count_aps(&self) -> u16
        requires form { InForm self.now.domain }
        ensures { result ≡ length self.now.domain.aps }
    {
        self.aps.len() as u16
    }

    /// How many acts an event that changes no key adds at most: by a new group key a frame goes to
    /// each station.
    pub(crate) fn most_acts(&self) -> usize
        requires { length self.now.stas ≤ most_stas }
        ensures few { result ≤ 9 + most_stas }
        ensures most { (event : Event) → changes_keys event ≡ false
            → most_acts event (length self.now.stas) ≤ result }
    {
        9 + self.stas.len()
    }

    /// The key of a station is changed, or that of all where none is named: at each access point,
    /// and then at each of these stations, whose groups are journaled in that round. All memory is
    /// taken before the first node changes. The outbox is empty before and after.
    pub(crate) fn change(
        &mut self,
        alloc: Global,
        round: u64,
        sta: Option<u16>,
        psk: &[u8; 32],
        out: &mut Outbox,
        frames: &mut Vec<usize>,
        journal: &mut Journal,
    ) -> Result<(), NoMemory>
        requires form { InForm self.old.domain }
        requires listed { AreListed self.old }
        requires sta { NamesSta self.old.domain sta }
        requires stand { Stand self.old journal.old.entries }
        requires waiting { out.old.acts ≡ [] }
        requires noted { frames.old.items ≡ places journal.old.entries }
        ensures changed { OnOk result
            (AreChanged (record { round = round; named = sta; psk = psk.now }) self.old self.new
            journal.old.entries journal.new.entries) }
        ensures noted { frames.new.items ≡ places journal.new.entries }
        ensures waiting { out.new.acts ≡ [] }
        ensures listed { AreListed self.new }
        ensures same { OnErr result (self.new ≡ self.old) }
        ensures kept { OnErr result (journal.new.entries ≡ journal.old.entries) }
    {
        let aps = self.aps.len();
        let stas = self.stas.len();
        let most = room(&self.domain, sta, aps, stas);
        journal.reserve(most)?;
        frames.reserve(most)?;
        out.reserve(most)?;
        let shared = held(alloc, &self.domain, &mut self.holders)?;
        let change = KeyChange {
            alloc,
            domain: &self.domain,
            round,
            sta,
            psk,
        };
        let shared = change_aps(change, &mut self.aps, shared, out, frames, journal);
        change_stas(change, &mut self.stas, out, frames, journal);
        self.holders = Some(shared);
        self.domain.stas.change_keys(sta, psk);
        Ok(())
    }

    /// One event at a node, whose acts are put in the empty outbox.
    pub(crate) fn step(
        &mut self,
        alloc: Global,
        node: Node,
        event: &NodeEvent<'_>,
        out: &mut Outbox,
    ) -> Result<(), NoMemory>
        requires form { InForm self.old.domain }
        requires listed { IsListed self.old.domain node }
        requires event { IsEventAt self.old.domain node (event_of event.now) }
        requires still { IsStill (event_of event.now) }
        requires waiting { out.old.acts ≡ [] }
        ensures domain { self.new.domain ≡ self.old.domain }
        ensures listed { AreListed self.new }
        ensures acted { OnOk result ((j : List Entry) → Stand self.old j
            → Acted node (event_of event.now) j self.old self.new out.new.acts) }
        ensures same { OnErr result (self.new ≡ self.old) }
        ensures kept { OnErr result (out.new.acts ≡ []) }
    {
        match node {
            Node::Ap(number) => {
                let shared = held(alloc, &self.domain, &mut self.holders)?;
                let ap = &mut self.aps[usize::from(number)];
                let (shared, done) = turn_alone(ap, alloc, &self.domain, event, shared, out);
                self.holders = Some(shared);
                done
            }
            Node::Sta(number) => {
                let station = &mut self.stas[usize::from(number)];
                step_station(station, alloc, &self.domain, event, out)?;
                Ok(())
            }
        }
    }

    /// The events of a round, each at an access point: a worker for each access point that has
    /// some, all side by side. What each adds waits, by access points.
    pub(crate) fn round<R: Threads + Sync, G: Gate + Sync>(
        &mut self,
        rt: &R,
        alloc: Global,
        gate: &G,
        turns: &[Turn<'_>],
    ) -> Result<Vec<Part>, NoMemory>
        requires form { InForm self.old.domain }
        requires turns { AllByRecursion (IsFor self.old.domain) turns.now }
        ensures played { IfOk result (λ parts. (round : ℕ) (j : List Entry) → Stand self.old j
            → AllByRecursion (λ (e : Entry). e.round < round) j
            → AllByRecursion (IsTurn self.old.domain j round) turns.now
            → Played round (events_below (length self.old.domain.aps)
            (map (λ t. t.event.now) turns.now)) j self.old self.new parts.items) }
        ensures domain { self.new.domain ≡ self.old.domain }
        ensures listed { AreListed self.new }
    {
        let Shared { table, pass } = held(alloc, &self.domain, &mut self.holders)?;
        let aps = mem::replace(&mut self.aps, Vec::new(alloc));
        let round = Round {
            alloc,
            domain: &self.domain,
            turns,
        };
        let Ran { aps, pass, parts } = run(rt, alloc, &table, &round, gate, aps, pass);
        self.aps = aps;
        self.holders = Some(Shared { table, pass });
        parts
    }
}
