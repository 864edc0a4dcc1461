//! An access point with the network as it knows it.

ghost use Rattle.std.specs.Prelude.{◌≡◌, ◌<◌, ◌↔◌, ◌∷◌, ℕ, List, [], length, true};
ghost use Rattle.std.specs.Prelude.{IfOk, IfErr, OnOk, OnErr, IsTrue, MatchOption, MatchResult};
ghost use Rattle.std.specs.Prelude.{◌++◌, None};
ghost use Rattle.std.specs.List.{list_any};
ghost use Rattle.run_journal.specs.declared.domain.ListedSta.{ListedSta as AnySta};
ghost use Rattle.domain_base.specs.declared.names.Node.TheVariants.{Ap};
ghost use Rattle.run_journal.specs.declared.acts.Act.{Act as AnyAct};
ghost use Rattle.run_journal.specs.Listing.{with_ap, with_sta};
ghost use Rattle.run_journal.specs.Questions.{add};
ghost use Rattle.key_holders.specs.Listed.{below, rows_at};
ghost use Rattle.key_holders.specs.Rows.{is_in};
ghost use Rattle.ft_exchange.specs.Asking.{ids_of};
ghost use Rattle.domain_rules.specs.AccessPointRows.{start_acts};
ghost use Rattle.domain_rules.specs.Here.{here};
ghost use Rattle.domain_rules.specs.Network.{InForm, peer_of};
ghost use Rattle.node_base.specs.Changing.{after};
ghost use Rattle.node_base.specs.Events.{event_of, IsEventAt, Steps, seen};
ghost use Rattle.held_rows.specs.Looks.{AreLooked};
ghost use Rattle.ap_node.specs.Looking.{AnsweredBy};
ghost use Rattle.ap_node.specs.Stands.{StandsWith};
ghost use Rattle.embedded_node.specs.Free.{ap_fault, sta_fault, is_same, IsCause};
ghost use Rattle.embedded_node.specs.Pushed.{alone, given, left_by, other_of, push_fault};
ghost use Rattle.embedded_node.specs.Pushed.{ids_in, with_keys, PulledFrom};
ghost use Rattle.embedded_node.specs.Headers.{bare};
ghost use Rattle.embedded_node.specs.Events.{IsCauseOf};
ghost use Rattle.embedded_node.specs.Starts.{can_start_ap, IsStartCause};

use crate::events::{again, follow};
use crate::header::{Header, domain_of};
use crate::holders::{PushedHolders, PushedKey};
use crate::listing::{is_of_sta, list_ap, list_other, list_station};
use crate::starting::can_start_ap;
use crate::untaken::Untaken;
use act_memory::Outbox;
use ap_node::{ApNode, stands_as_the_network_grows};
use domain_base::{Mac, NoMemory, Node, Peer};
use node_base::{NodeEvent, address, peer_of, renews};
use run_journal::{Act, Domain, MOST_PAYLOAD, Outcome};
use std::alloc::Global;
use std::marker::Model;

/// An access point with the network as it knows it, its own key holder, and of the others what they
/// gave it.
#[derive(Drop)]
pub struct EmbeddedAp {
    domain: Domain,
    node: ApNode,
    holders: PushedHolders,
    out: Outbox,
}

impl Model for EmbeddedAp {
    ghost use Rattle.embedded_node.specs.States.{Ap, IsAp};

    ghost Value = { Ap };

    ghost view = { λ s. record {
      domain = s.domain;
      node = s.node;
      holders = s.holders;
      acts = s.out.acts;
    } };

    ghost invariant = { λ s. IsAp (record {
      domain = s.domain;
      node = s.node;
      holders = s.holders;
      acts = s.out.acts;
    }) };
}

// Whether a station is listed under that number.
fn is_listed(domain: &Domain, sta: u16) -> bool
    ensures { IsTrue result ↔ (sta < length domain.now.stas) }
{
    usize::from(sta) < domain.stas.len()
}

// Whether an event is one that the first access point of that network takes.
fn is_event(domain: &Domain, event: &NodeEvent<'_>) -> bool
    ensures { IsTrue result ↔ IsEventAt domain.now (Ap 0) (event_of event.now) }
{
    match event {
        NodeEvent::Take(_) => true,
        NodeEvent::Retry(sta) => is_listed(domain, *sta),
        NodeEvent::Rekey => true,
        NodeEvent::Send(Peer::One(Node::Sta(sta)), _, payload) => {
            is_listed(domain, *sta) && payload.len() <= MOST_PAYLOAD
        }
        NodeEvent::Send(Peer::All, _, payload) => payload.len() <= MOST_PAYLOAD,
        NodeEvent::Expire(sta) => is_listed(domain, *sta),
        NodeEvent::Revoke(sta) => is_listed(domain, *sta),
        NodeEvent::Renew(sta) => is_listed(domain, *sta) && renews(domain),
        NodeEvent::Secret(Some(sta), _) => is_listed(domain, *sta),
        NodeEvent::Secret(None, _) => true,
        NodeEvent::Announce(payload) => payload.len() <= MOST_PAYLOAD && domain.extras.mfp,
        _ => false,
    }
}

// One event at an access point that has the first of those key holders.
fn step(
    ap: &mut ApNode,
    alloc: Global,
    domain: &Domain,
    event: &NodeEvent<'_>,
    holders: &mut PushedHolders,
    out: &mut Outbox,
) -> Result<Outcome, NoMemory>
    requires form { InForm domain.now }
    requires listed { ap.old.number < length domain.now.aps }
    requires event { IsEventAt domain.now (Ap ap.old.number) (event_of event.now) }
    requires has { is_in ap.old.number (below 1) ≡ true }
    requires ids { ids_in holders.old ≡ ids_of domain.now }
    ensures number { ap.new.number ≡ ap.old.number }
    ensures steps { IfOk result (λ outcome. (first : ℕ) (h : List AnyAct)
        → StandsWith domain.now first ap.old (rows_at holders.old.rows ap.old.number) h
        → Steps (here domain.now first (Ap ap.old.number)) (event_of event.now)
        (StandsWith (after domain.now (event_of event.now)) first ap.new
        (rows_at holders.new.rows ap.old.number)) h
        (seen out.old.acts out.new.acts outcome)) }
    ensures looks { OnOk result ((first : ℕ) (h : List AnyAct)
        → StandsWith domain.now first ap.old (rows_at holders.old.rows ap.old.number) h
        → (g : List AnyAct) → out.new.acts ≡ out.old.acts ++ g
        → AreLooked (AnsweredBy (PulledFrom holders.old) (ids_in holders.old) (below 1)
        (λ r. rows_at holders.old.rows r) domain.now ap.old.number) domain.now g) }
    ensures ids { ids_in holders.new ≡ ids_in holders.old }
    ensures pushed { holders.new.pushed ≡ holders.old.pushed }
    ensures same { OnErr result (ap.new ≡ ap.old) }
    ensures same_rows { OnErr result (rows_at holders.new.rows ap.old.number
        ≡ rows_at holders.old.rows ap.old.number) }
    ensures kept { OnErr result (out.new.acts ≡ out.old.acts) }
{
    match *event {
        NodeEvent::Send(to, Some(tid), payload) => {
            let event = NodeEvent::Send(to, Some(tid), payload);
            ap.step(alloc, domain, event, holders, out)
        }
        _ => ap.step(alloc, domain, again(event), holders, out),
    }
}

// What others gave of a station whose key is revoked, or changed, is answered no longer. Takes no
// memory.
fn forget(holders: &mut PushedHolders, domain: &Domain, event: &NodeEvent<'_>)
    requires event { IsEventAt domain.now (Ap 0) (event_of event.now) }
    ensures { holders.new
        ≡ with_keys (left_by domain.now (event_of event.now) holders.old.pushed) holders.old }
{
    match event {
        NodeEvent::Revoke(sta) => holders.forget(Some(address(domain, Node::Sta(*sta)))),
        NodeEvent::Secret(Some(sta), _) => {
            holders.forget(Some(address(domain, Node::Sta(*sta))));
        }
        NodeEvent::Secret(None, _) => holders.forget(None),
        _ => {}
    }
}

impl EmbeddedAp {
    /// An access point of that address and R0KH-ID, which begins to draw at that number: it draws
    /// its first group keys, a GTK and where management frames are protected an IGTK, and installs
    /// them. It knows of no station and no other access point.
    ///
    /// # Errors
    ///
    /// `Unfit` where not as many draws are left, the name of the network has no octet or more than
    /// 32, the address is not that of one node, or the R0KH-ID has no octet or more than 48.
    /// `NoMemory`.
    #[tactic(auto, using(crate::proofs::StartCauses::of_access_point))]
    pub fn start(
        alloc: Global,
        header: &Header<'_>,
        address: Mac,
        r0kh_id: &[u8],
        first_draw: u64,
    ) -> Result<Self, Untaken>
        ensures acts { IfOk result (λ s. s.acts ≡ start_acts s.domain first_draw (Ap 0)) }
        ensures stands { IfOk result (λ s. StandsWith s.domain first_draw s.node
            (rows_at s.holders.rows 0) (add (start_acts s.domain first_draw (Ap 0)) [])) }
        ensures network { IfOk result
            (λ s. s.domain ≡ with_ap (bare header.now) address r0kh_id.now) }
        ensures holders { IfOk result (λ s. s.holders ≡ alone r0kh_id.now) }
        ensures cause { MatchResult result
            (λ _. can_start_ap header.now address r0kh_id.now first_draw ≡ true)
            (IsStartCause (can_start_ap header.now address r0kh_id.now first_draw)) }
    {
        if !can_start_ap(header, address, r0kh_id, first_draw) {
            return Err(Untaken::Unfit);
        }
        let mut domain = domain_of(alloc, header)?;
        list_ap(alloc, &mut domain, address, r0kh_id)?;
        let Ok(holders) = PushedHolders::alone(alloc, r0kh_id) else {
            return Err(Untaken::NoMemory);
        };
        let mut out = Outbox::new(alloc);
        let Ok(node) = ApNode::start(alloc, &domain, 0, first_draw, &mut out) else {
            return Err(Untaken::NoMemory);
        };
        Ok(EmbeddedAp {
            domain,
            node,
            holders,
            out,
        })
    }

    /// Lists a station that it found, with the pre-shared key between them.
    ///
    /// # Errors
    ///
    /// `Full` where the most stations are listed. `Unfit` where the address is not that of one node,
    /// or a listed node has it. `NoMemory`. All is as before.
    pub fn list_station(&mut self, address: Mac, psk: &[u8; 32]) -> Result<(), Untaken>
        ensures acts { self.new.acts ≡ self.old.acts }
        ensures stands { (first : ℕ) (h : List AnyAct)
            → StandsWith self.old.domain first self.old.node (rows_at self.old.holders.rows 0) h
            → StandsWith self.new.domain first self.new.node (rows_at self.new.holders.rows 0) h }
        ensures network { OnOk result
            (self.new.domain ≡ with_sta self.old.domain address psk.now) }
        ensures pushed { self.new.holders.pushed ≡ self.old.holders.pushed }
        ensures cause { IfErr result (IsCause (sta_fault self.old.domain address)) }
        ensures same { OnErr result (self.new ≡ self.old) }
    {
        stands_as_the_network_grows();
        list_station(&mut self.domain, address, psk)
    }

    /// Lists another access point of the mobility domain, with its R0KH-ID.
    ///
    /// # Errors
    ///
    /// `Full` where the most access points are listed. `Unfit` where the address is not that of one
    /// node, the R0KH-ID has no octet or more than 48, or a listed node has either. `NoMemory`. All
    /// is as before.
    pub fn list_ap(&mut self, alloc: Global, address: Mac, r0kh_id: &[u8]) -> Result<(), Untaken>
        ensures acts { self.new.acts ≡ self.old.acts }
        ensures stands { (first : ℕ) (h : List AnyAct)
            → StandsWith self.old.domain first self.old.node (rows_at self.old.holders.rows 0) h
            → StandsWith self.new.domain first self.new.node (rows_at self.new.holders.rows 0) h }
        ensures network { OnOk result
            (self.new.domain ≡ with_ap self.old.domain address r0kh_id.now) }
        ensures pushed { self.new.holders.pushed ≡ self.old.holders.pushed }
        ensures cause { IfErr result (IsCause (ap_fault self.old.domain address r0kh_id.now)) }
        ensures same { OnErr result (self.new ≡ self.old) }
    {
        stands_as_the_network_grows();
        list_other(alloc, &mut self.domain, &mut self.holders, address, r0kh_id)
    }

    /// Takes the PMK-R1 that the R0 key holder of a listed other access point made for this one and
    /// a station, with the PMKR0Name of the PMK-R0 that it is made from
    /// (IEEE Std 802.11-2020, 12.7.1.6.4). It is believed: where the station asks for a fast
    /// transition under that R0KH-ID and PMKR0Name, it is the key. The one that the same holder gave
    /// for the station before is forgotten, and each is as the station is revoked or has another
    /// pre-shared key.
    ///
    /// # Errors
    ///
    /// `Unfit` where no other access point with that R0KH-ID, or no such station, is listed.
    /// `NoMemory`. All is as before.
    pub fn push(
        &mut self,
        r0kh_id: &[u8],
        name: &[u8; 16],
        sta: Mac,
        key: &[u8; 32],
    ) -> Result<(), Untaken>
        ensures domain { self.new.domain ≡ self.old.domain }
        ensures node { self.new.node ≡ self.old.node }
        ensures acts { self.new.acts ≡ self.old.acts }
        ensures given { OnOk result (self.new.holders
            ≡ given r0kh_id.now name.now sta key.now self.old.holders) }
        ensures fit { OnOk result (push_fault (other_of self.old.holders r0kh_id.now)
            (list_any (λ (s : AnySta). is_same s.address sta) self.old.domain.stas) ≡ None) }
        ensures cause { IfErr result (IsCause (push_fault
            (other_of self.old.holders r0kh_id.now)
            (list_any (λ (s : AnySta). is_same s.address sta) self.old.domain.stas))) }
        ensures same { OnErr result (self.new ≡ self.old) }
    {
        let Some(holder) = self.holders.other_of(r0kh_id) else {
            return Err(Untaken::Unfit);
        };
        if !is_of_sta(&self.domain, sta) {
            return Err(Untaken::Unfit);
        }
        let (name, key) = (*name, *key);
        let pushed = PushedKey {
            holder,
            name,
            sta,
            key,
            live: true,
        };
        match self.holders.give(pushed) {
            Ok(()) => Ok(()),
            Err(_) => Err(Untaken::NoMemory),
        }
    }

    /// The network as it knows it.
    pub fn domain(&self) -> &Domain
        ensures { result.now ≡ self.now.domain }
    {
        &self.domain
    }

    /// The station of that address, where it is listed.
    pub fn peer_of(&self, address: Mac) -> Option<Node>
        ensures { result ≡ peer_of self.now.domain (Ap 0) address.0 }
    {
        peer_of(&self.domain, Node::Ap(0), address)
    }

    /// One event, where it is one that the access point takes. Where that is a changed key of
    /// stations, the network has that key from then on. Where a key holder is asked, it is the own
    /// one, or what another gave is the answer.
    ///
    /// # Errors
    ///
    /// `Unfit` where it is none. `NoMemory`. All is as before.
    pub fn event(&mut self, alloc: Global, event: &NodeEvent<'_>) -> Result<Outcome, Untaken>
        ensures domain { OnOk result
            (self.new.domain ≡ after self.old.domain (event_of event.now)) }
        ensures same_domain { OnErr result (self.new.domain ≡ self.old.domain) }
        ensures steps { IfOk result (λ outcome. (first : ℕ) (h : List AnyAct)
            → StandsWith self.old.domain first self.old.node (rows_at self.old.holders.rows 0) h
            → Steps (here self.old.domain first (Ap 0)) (event_of event.now)
            (StandsWith self.new.domain first self.new.node (rows_at self.new.holders.rows 0)) h
            (seen self.old.acts self.new.acts outcome)) }
        ensures looks { OnOk result ((first : ℕ) (h : List AnyAct)
            → StandsWith self.old.domain first self.old.node (rows_at self.old.holders.rows 0) h
            → (g : List AnyAct) → self.new.acts ≡ self.old.acts ++ g
            → AreLooked (AnsweredBy (PulledFrom self.old.holders) (ids_in self.old.holders)
            (below 1) (λ r. rows_at self.old.holders.rows r) self.old.domain 0)
            self.old.domain g) }
        ensures pushed { OnOk result (self.new.holders.pushed
            ≡ left_by self.old.domain (event_of event.now) self.old.holders.pushed) }
        ensures same_pushed { OnErr result
            (self.new.holders.pushed ≡ self.old.holders.pushed) }
        ensures cause { IfErr result
            (IsCauseOf (IsEventAt self.old.domain (Ap 0) (event_of event.now))) }
        ensures same { OnErr result (self.new.node ≡ self.old.node) }
        ensures same_rows { OnErr result
            (rows_at self.new.holders.rows 0 ≡ rows_at self.old.holders.rows 0) }
        ensures kept { OnErr result (self.new.acts ≡ self.old.acts) }
    {
        if !is_event(&self.domain, event) {
            return Err(Untaken::Unfit);
        }
        let (node, holders) = (&mut self.node, &mut self.holders);
        match step(node, alloc, &self.domain, event, holders, &mut self.out) {
            Ok(outcome) => {
                forget(&mut self.holders, &self.domain, event);
                follow(&mut self.domain, event);
                Ok(outcome)
            }
            Err(NoMemory) => Err(Untaken::NoMemory),
        }
    }

    /// The first of what it did that was not told yet.
    pub fn next(&mut self) -> Option<Act>
        ensures domain { self.new.domain ≡ self.old.domain }
        ensures node { self.new.node ≡ self.old.node }
        ensures holders { self.new.holders ≡ self.old.holders }
        ensures acts { MatchOption result
            (self.old.acts ≡ []) (λ act. self.old.acts ≡ act ∷ self.new.acts) }
        ensures none { self.old.acts ≡ [] → self.new.acts ≡ [] }
    {
        self.out.pop()
    }
}
