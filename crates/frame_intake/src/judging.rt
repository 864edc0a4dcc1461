//! Delivered frames judged as far as no history is needed.

ghost use Rattle.std.specs.Prelude.{◌≡◌, Option, List, ℕ};
ghost use Rattle.air_frame.specs.Views.{header_of};
ghost use Rattle.rsn_elements.specs.Fields.{element_fields};
ghost use Rattle.eapol_key.specs.Fields.{IsKeyFrame};
ghost use Rattle.domain_rules.specs.Network.{InForm, bssid, direction, goes_like};
ghost use Rattle.run_journal.specs.Events.{IsListed};
ghost use Rattle.domain_rules.specs.Reading.{Managed, Keyed};
ghost use Rattle.domain_rules.specs.Verdict.{is_mine, is_mine_or_group, air_reason};
ghost use Rattle.frame_intake.specs.ActionFields.{IsActionFrame};
ghost use Rattle.frame_intake.specs.Views.{management_fields, message_fields, sealed_fields};
ghost use Rattle.frame_intake.specs.Views.{action_fields, reading_of, IsWhole};
ghost use Rattle.frame_intake.specs.SealedFields.{IsSealedData};
ghost use Rattle.frame_intake.specs.Judging.{IsJudged};

use crate::delivered::{Delivered, KeyMessage, Management, SealedData};
use air_frame::{Action, AirFault, Direction, Header};
use domain_base::{Mac, Node};
use node_base::{address, direction, peer_of};
use rsn_elements::Elements;
use run_journal::{Domain, Malformed, MalformedFrame, Outcome, Reason, is_group};

// A message that the profile leaves out stands in the frame.
const NO_MESSAGE: u8 = 19;

/// What a delivered frame is judged as before any question to the history.
#[derive(Clone, Copy)]
pub enum Judged<'a> {
    /// Ignored or refused: the sender, where it is a listed node of the other kind, and what came
    /// of the frame.
    Settled(Option<Node>, Outcome),
    /// A management frame for this node from that node.
    Managed(Node, Management<'a>, Elements<'a>),
    /// An EAPOL-Key message for this node from that node.
    Keyed(Node, KeyMessage<'a>),
    /// Protected data for this node from that node.
    Sealed(Node, SealedData<'a>),
    /// An action frame to a group, for this node, which is a station, from that access point.
    Acting(Node, Action<'a>),
}

// Of a node and its peer, the access point's BSSID.
fn bssid(domain: &Domain, node: Node, peer: Node) -> Mac
    requires node { IsListed domain.now node }
    requires peer { IsListed domain.now peer }
    ensures { result.0 ≡ bssid domain.now node peer }
{
    match node {
        Node::Ap(_) => address(domain, node),
        Node::Sta(_) => address(domain, peer),
    }
}

// The receiver is the node itself.
fn is_mine(domain: &Domain, node: Node, header: &Header<'_>) -> bool
    requires { IsListed domain.now node }
    ensures { result ≡ is_mine domain.now node (header_of header.now) }
{
    header.a1.0 == address(domain, node).0
}

// The receiver is the node itself, or at a station a group.
fn is_mine_or_group(domain: &Domain, node: Node, header: &Header<'_>) -> bool
    requires { IsListed domain.now node }
    ensures { result ≡ is_mine_or_group domain.now node (header_of header.now) }
{
    match node {
        Node::Ap(_) => is_mine(domain, node, header),
        Node::Sta(_) => is_mine(domain, node, header) || is_group(header.a1),
    }
}

// The way in which the node itself sends data.
fn is_own_way(node: Node, way: Direction) -> bool
    ensures { result ≡ goes_like way (direction node) }
{
    way == direction(node)
}

// What the air reader's fault is refused as.
fn air_reason(fault: AirFault) -> Reason
    ensures { result ≡ air_reason fault }
{
    match fault {
        AirFault::OutOfProfile(code) => Reason::OutOfProfile(code),
        AirFault::Short(place) => Reason::Malformed(Malformed::Air(MalformedFrame::Short(place))),
        AirFault::Version => Reason::Malformed(Malformed::Air(MalformedFrame::Version)),
        AirFault::Body(place) => Reason::Malformed(Malformed::Air(MalformedFrame::Body(place))),
    }
}

// A management frame, by its addresses.
#[tactic(auto, using(crate::proofs::Silence::silent_receiver, crate::proofs::Silence::silent_sender))]
fn judge_managed<'a>(
    domain: &Domain,
    node: Node,
    frame: Management<'a>,
    elements: Elements<'a>,
) -> Judged<'a>
    requires listed { IsListed domain.now node }
    requires form { InForm domain.now }
    ensures { IsJudged domain.now node
        (Managed (management_fields frame.entry) (element_fields elements.entry)) result }
{
    let from = peer_of(domain, node, frame.header.a2);
    if !is_mine(domain, node, &frame.header) {
        return Judged::Settled(from, Outcome::Refused(Reason::NotForMe));
    }
    let Some(peer) = from else {
        return Judged::Settled(None, Outcome::Refused(Reason::UnknownPeer));
    };
    if frame.header.a3.0 != bssid(domain, node, peer).0 {
        return Judged::Settled(from, Outcome::Refused(Reason::UnknownPeer));
    }
    Judged::Managed(peer, frame, elements)
}

// An EAPOL-Key message, by its addresses and the way that it goes.
#[tactic(auto, using(crate::proofs::Silence::silent_receiver, crate::proofs::Silence::silent_sender))]
fn judge_keyed<'a>(domain: &Domain, node: Node, message: KeyMessage<'a>) -> Judged<'a>
    requires listed { IsListed domain.now node }
    requires form { InForm domain.now }
    requires frame { IsKeyFrame message.frame }
    ensures { IsJudged domain.now node (Keyed (message_fields message.entry)) result }
{
    let from = peer_of(domain, node, message.header.a2);
    if !is_mine(domain, node, &message.header) || is_own_way(node, message.direction) {
        return Judged::Settled(from, Outcome::Refused(Reason::NotForMe));
    }
    match from {
        Some(peer) => Judged::Keyed(peer, message),
        None => Judged::Settled(None, Outcome::Refused(Reason::UnknownPeer)),
    }
}

// Protected data, by its addresses and the way that it goes.
#[tactic(auto, using(crate::proofs::Silence::silent_receiver, crate::proofs::Silence::silent_sender))]
fn judge_sealed<'a>(domain: &Domain, node: Node, frame: SealedData<'a>) -> Judged<'a>
    requires listed { IsListed domain.now node }
    requires form { InForm domain.now }
    requires whole { IsSealedData (sealed_fields frame) }
    ensures { IsJudged domain.now node (reading_of (Delivered.Sealed frame.entry)) result }
{
    let from = peer_of(domain, node, frame.header.a2);
    if !is_mine_or_group(domain, node, &frame.header) || is_own_way(node, frame.direction) {
        return Judged::Settled(from, Outcome::Refused(Reason::NotForMe));
    }
    match from {
        Some(peer) => Judged::Sealed(peer, frame),
        None => Judged::Settled(None, Outcome::Refused(Reason::UnknownPeer)),
    }
}

// An action frame to a group, by its addresses. At an access point none is for it: its address is no
// group's.
#[tactic(auto, using(crate::proofs::Silence::silent_receiver, crate::proofs::Silence::silent_sender))]
fn judge_acting<'a>(domain: &Domain, node: Node, frame: Action<'a>) -> Judged<'a>
    requires listed { IsListed domain.now node }
    requires form { InForm domain.now }
    requires whole { IsActionFrame (action_fields frame) }
    ensures { IsJudged domain.now node (reading_of (Delivered.Acting frame.entry)) result }
{
    let from = peer_of(domain, node, frame.header.a2);
    if !is_mine_or_group(domain, node, &frame.header) {
        return Judged::Settled(from, Outcome::Refused(Reason::NotForMe));
    }
    let Some(peer) = from else {
        return Judged::Settled(None, Outcome::Refused(Reason::UnknownPeer));
    };
    let at = bssid(domain, node, peer);
    if frame.header.a3.0 != at.0 {
        return Judged::Settled(from, Outcome::Refused(Reason::UnknownPeer));
    }
    Judged::Acting(peer, frame)
}

/// What a delivered frame is judged as at a node, by the frame alone. Takes no memory.
#[tactic(auto, using(crate::proofs::Silence::silent_air, crate::proofs::Silence::silent_malformed, crate::proofs::Silence::silent_profile))]
pub fn judge<'a>(domain: &Domain, node: Node, delivered: &Delivered<'a>) -> Judged<'a>
    requires listed { IsListed domain.now node }
    requires form { InForm domain.now }
    requires whole { IsWhole delivered.now }
    ensures { IsJudged domain.now node (reading_of delivered.now) result }
{
    match *delivered {
        Delivered::NoFrame(fault) => Judged::Settled(None, Outcome::Refused(air_reason(fault))),
        Delivered::PassedOver => Judged::Settled(None, Outcome::Ignored),
        Delivered::NoElements(frame, fault) => {
            let from = peer_of(domain, node, frame.header.a2);
            let why = Reason::Malformed(Malformed::Elements(fault));
            Judged::Settled(from, Outcome::Refused(why))
        }
        Delivered::Managed(frame, elements) => judge_managed(domain, node, frame, elements),
        Delivered::NoKeyFrame(header, fault) => {
            let from = peer_of(domain, node, header.a2);
            let why = Reason::Malformed(Malformed::Key(fault));
            Judged::Settled(from, Outcome::Refused(why))
        }
        Delivered::NoMessage(header) => {
            let from = peer_of(domain, node, header.a2);
            Judged::Settled(from, Outcome::Refused(Reason::OutOfProfile(NO_MESSAGE)))
        }
        Delivered::Keyed(message) => judge_keyed(domain, node, message),
        Delivered::Sealed(frame) => judge_sealed(domain, node, frame),
        Delivered::Acting(frame) => judge_acting(domain, node, frame),
    }
}
