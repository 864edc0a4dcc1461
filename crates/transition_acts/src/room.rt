//! The memory that the acts of one frame of a fast transition take, taken before anything is done.

ghost use Rattle.std.specs.Prelude.{◌≡◌, ◌≤◌, ◌+◌, ◌++◌, ℕ, List, Option, IfOk, is_some};
ghost use Rattle.domain_base.specs.declared.names.Node.{Node as AnyNode};
ghost use Rattle.key_hierarchy.specs.Sizes.{IsSsid};
ghost use Rattle.mac_prf.specs.declared.reassociation.Reassociation.TheVariants.{Request, Response};
ghost use Rattle.rsn_elements.specs.Elements.{ElementFields};
ghost use Rattle.rsn_elements.specs.Fields.{element_fields};
ghost use Rattle.run_journal.specs.declared.domain.Domain.{Domain as AnyDomain};
ghost use Rattle.run_journal.specs.declared.acts.Act.{Act as AnyAct};
ghost use Rattle.run_journal.specs.Replies.{IsWhole};
ghost use Rattle.domain_rules.specs.Network.{Root, root_at, station_of};
ghost use Rattle.run_journal.specs.Events.{IsListed, IsPeerOf};
ghost use Rattle.ft_exchange.specs.Told.{came, auth_request_acts, auth_response_acts};
ghost use Rattle.ft_exchange.specs.Told.{reassoc_request_acts, reassoc_response_acts};
ghost use Rattle.transition_acts.specs.Seals.{covered_by};
ghost use Rattle.act_memory.specs.Templates.{IsTemplateAt};
ghost use Rattle.transition_acts.specs.Rooms.{IsSendRoom, IsTakenRoom};

use crate::looking::{Look, add_looked};
use crate::sending::TransitionSend;
use crate::taken::TakenRoom;
use crate::turning::{add_begun, add_left};
use act_memory::{
    Outbox, add_derived, add_finished, add_group_key, add_installed, add_replaced, template,
};
use domain_base::{NoMemory, Node};
use key_hierarchy::BoxedInputs;
use mac_prf::Reassociation;
use node_base::Here;
use rsn_elements::Elements;
use run_journal::{GroupKind, Kind, Outcome, Reply};
use std::alloc::Global;

// The memory for taking that frame of the peer.
fn take_frame(
    alloc: Global,
    octets: &[u8],
    elements: &Elements<'_>,
    frame: Reassociation,
    sent: &TransitionSend,
) -> Result<TakenRoom, NoMemory>
    ensures { IfOk result (λ room. (d : AnyDomain) (n p : AnyNode) → IsSendRoom d n p sent.now
        → IsTakenRoom octets.now (covered_by frame d n p (element_fields elements.now)) room) }
{
    let parts = sent.side().covered(frame, elements);
    TakenRoom::take(alloc, octets, parts)
}

// The memory for sending the peer a frame, and for taking that frame of it.
fn take_frames(
    here: Here<'_>,
    peer: Node,
    octets: &[u8],
    elements: &Elements<'_>,
    frame: Reassociation,
) -> Result<(TransitionSend, TakenRoom), NoMemory>
    requires listed { IsListed here.domain.now here.node }
    requires peer { IsPeerOf here.domain.now here.node peer }
    requires ssid { IsSsid here.domain.now.ssid }
    ensures sent { IfOk result (λ rooms. IsSendRoom here.entry.domain.now here.entry.node peer
        rooms.0) }
    ensures taken { IfOk result (λ rooms. IsTakenRoom octets.now (covered_by frame
        here.entry.domain.now here.entry.node peer (element_fields elements.now)) rooms.1) }
{
    let sent = TransitionSend::take(here, peer)?;
    let taken = take_frame(here.alloc, octets, elements, frame, &sent)?;
    Ok((sent, taken))
}

// What the pairwise key with the peer is made of, without nonces, twice.
fn templates(
    here: Here<'_>,
    peer: Node,
    r0kh_id: &[u8],
) -> Result<(BoxedInputs, BoxedInputs), NoMemory>
    requires listed { IsListed here.domain.now here.node }
    requires peer { IsPeerOf here.domain.now here.node peer }
    ensures key { IfOk result (λ rooms. let d = here.entry.domain.now
        in IsTemplateAt d here.entry.node peer r0kh_id.now rooms.0) }
    ensures finished { IfOk result (λ rooms. let d = here.entry.domain.now
        in IsTemplateAt d here.entry.node peer r0kh_id.now rooms.1) }
{
    let key = template(here, peer, r0kh_id)?;
    let finished = template(here, peer, r0kh_id)?;
    Ok((key, finished))
}

/// The memory that the acts of one frame of a fast transition take.
#[derive(Drop)]
pub struct TransitionRoom {
    peer: Node,
    taken: TakenRoom,
    looked: Option<Look>,
    // What the pairwise key is made of, without nonces: for the act that derives or installs it,
    // and for the act that finishes the attempt.
    key: BoxedInputs,
    finished: BoxedInputs,
    sent: TransitionSend,
}

impl TransitionRoom {
    ghost use Rattle.transition_acts.specs.Rooms.{IsRoom};

    /// Takes it, for the node that stands here and takes that frame of its peer: these octets, with
    /// these elements. Of a frame of reassociation, which one it is; else that does not count. The
    /// keys go back to the R0KH-ID with suite 4.
    pub fn take(
        here: Here<'_>,
        peer: Node,
        octets: &[u8],
        elements: &Elements<'_>,
        frame: Reassociation,
        r0kh_id: &[u8],
    ) -> Result<Self, NoMemory>
        requires listed { IsListed here.domain.now here.node }
        requires peer { IsPeerOf here.domain.now here.node peer }
        requires ssid { IsSsid here.domain.now.ssid }
        ensures { IfOk result (λ room. let d = here.entry.domain.now
            in IsRoom d (root_at d (station_of here.entry.node peer) r0kh_id.now)
            here.entry.node peer octets.now (element_fields elements.now) frame room) }
    {
        let looked = Look::take(here.alloc, elements)?;
        let (sent, taken) = take_frames(here, peer, octets, elements, frame)?;
        let (key, finished) = templates(here, peer, r0kh_id)?;
        Ok(TransitionRoom {
            peer,
            taken,
            looked,
            key,
            finished,
            sent,
        })
    }

    /// Adds the acts of an access point that takes an authentication request with that outcome and
    /// reply, where it had an attempt with the station or not (IEEE Std 802.11-2020, 13.8.2). No
    /// memory is wanted.
    pub fn add_auth_request(
        self,
        outcome: Outcome,
        had_attempt: bool,
        reply: &Reply,
        out: &mut Outbox,
    )
        requires room { 7 ≤ out.old.spare }
        requires whole { IsWhole reply.now }
        ensures acts { (d : AnyDomain) (root : Root) (n p : AnyNode) (octets : List ℕ)
            (e : ElementFields) (frame : Reassociation) (part : Option (List AnyAct))
            → IsRoom d root n p octets e frame self → is_some part ≡ had_attempt
            → out.new.acts ≡ out.old.acts
            ++ auth_request_acts d root n p part (came octets e outcome) reply.now }
        ensures spare { out.old.spare ≤ out.new.spare + 7 }
    {
        let TransitionRoom {
            peer,
            taken,
            looked,
            key,
            sent,
            ..
        } = self;
        taken.add_plain(peer, Kind::FtReq, outcome, out);
        add_looked(looked, peer, reply.looked, out);
        add_begun(peer, had_attempt, reply.derived, out);
        add_derived(peer, key, reply.derived, out);
        sent.add_sent(reply, out);
    }

    /// Adds the acts of a station that takes an authentication response (13.8.3).
    pub fn add_auth_response(self, outcome: Outcome, reply: &Reply, out: &mut Outbox)
        requires room { 3 ≤ out.old.spare }
        requires whole { IsWhole reply.now }
        ensures acts { (d : AnyDomain) (root : Root) (n p : AnyNode) (octets : List ℕ)
            (e : ElementFields) (frame : Reassociation) → IsRoom d root n p octets e frame self
            → out.new.acts ≡ out.old.acts
            ++ auth_response_acts d root n p (came octets e outcome) reply.now }
        ensures spare { out.old.spare ≤ out.new.spare + 3 }
    {
        let TransitionRoom {
            peer,
            taken,
            key,
            sent,
            ..
        } = self;
        taken.add_plain(peer, Kind::FtResp, outcome, out);
        add_derived(peer, key, reply.derived, out);
        sent.add_sent(reply, out);
    }

    /// Adds the acts of an access point that takes a reassociation request, where it had a session
    /// with the station or not (13.8.4).
    pub fn add_reassoc_request(
        self,
        outcome: Outcome,
        had_session: bool,
        reply: &Reply,
        out: &mut Outbox,
    )
        requires room { 5 ≤ out.old.spare }
        requires whole { IsWhole reply.now }
        ensures acts { (d : AnyDomain) (root : Root) (n p : AnyNode) (octets : List ℕ)
            (e : ElementFields) → IsRoom d root n p octets e Request self
            → out.new.acts ≡ out.old.acts
            ++ reassoc_request_acts d root n p had_session (came octets e outcome) reply.now }
        ensures spare { out.old.spare ≤ out.new.spare + 5 }
    {
        let TransitionRoom {
            peer,
            taken,
            key,
            finished,
            sent,
            ..
        } = self;
        taken.add_sealed(peer, Kind::ReReq, outcome, reply.verified, out);
        add_replaced(peer, had_session, reply.installed, out);
        add_installed(peer, key, reply.installed, out);
        add_finished(peer, finished, reply.installed, out);
        sent.add_sent(reply, out);
    }

    /// Adds the acts of a station that takes a reassociation response, and had a session with that
    /// access point, if with one (13.8.5).
    pub fn add_reassoc_response(
        self,
        outcome: Outcome,
        left: Option<Node>,
        reply: &Reply,
        out: &mut Outbox,
    )
        requires room { 6 ≤ out.old.spare }
        ensures acts { (d : AnyDomain) (root : Root) (n p : AnyNode) (octets : List ℕ)
            (e : ElementFields) → IsRoom d root n p octets e Response self
            → out.new.acts ≡ out.old.acts
            ++ reassoc_response_acts d root n p left (came octets e outcome) reply.now }
        ensures spare { out.old.spare ≤ out.new.spare + 6 }
    {
        let TransitionRoom {
            peer,
            taken,
            key,
            finished,
            sent,
            ..
        } = self;
        let bssid = sent.side().peer;
        taken.add_sealed(peer, Kind::ReResp, outcome, reply.verified, out);
        add_left(left, reply.installed, out);
        add_installed(peer, key, reply.installed, out);
        add_group_key(peer, bssid, GroupKind::Gtk, reply.gtk, out);
        add_group_key(peer, bssid, GroupKind::Igtk, reply.igtk, out);
        add_finished(peer, finished, reply.installed, out);
    }
}
