//! The frames of a fast transition, handed to the originator of an attempt.

ghost use Rattle.std.specs.Prelude.{◌≡◌, length, IfOk, OnErr};
ghost use Rattle.domain_base.specs.declared.names.Node.TheVariants.{Ap};
ghost use Rattle.rsn_elements.specs.Elements.{HasRaw};
ghost use Rattle.rsn_elements.specs.Fields.{element_fields};
ghost use Rattle.key_hierarchy.specs.Sizes.{IsSsid};
ghost use Rattle.run_journal.specs.Events.{IsListed, IsPeerOf};
ghost use Rattle.ft_exchange.specs.Exchange.{both};
ghost use Rattle.ft_exchange.specs.OriginatorSteps.{IsAuthTaken};
ghost use Rattle.station_node.specs.Moved.{IsAnswered, IsArrived, move};

use crate::managed::Managed;
use act_memory::Outbox;
use domain_base::{NoMemory, Node};
use ft_exchange::Originator;
use group_key::GroupMemory;
use mac_prf::Reassociation;
use node_base::Here;
use run_journal::{Keyed, Outcome, Reply};
use transition_acts::TransitionRoom;

/// The way of a fast transition.
#[derive(Clone, Copy)]
pub struct Way<'a> {
    /// The number of the access point to which it leads.
    pub ap: u16,
    /// The R0KH-ID that its keys go back to.
    pub r0kh_id: &'a [u8],
    /// The access point of the session, which it leaves.
    pub left: Option<Node>,
}

/// What came of a reassociation response.
#[derive(Clone, Copy)]
pub struct Arrival {
    /// What came of it.
    pub outcome: Outcome,
    /// The key that it installed, if it did: then it made the attempt a session.
    pub installed: Option<Keyed>,
}

/// Hands an authentication response to the originator of the attempt.
pub fn answer(
    here: Here<'_>,
    way: Way<'_>,
    managed: &Managed<'_>,
    originator: &mut Originator,
    out: &mut Outbox,
) -> Result<Outcome, NoMemory>
    requires listed { IsListed here.domain.now here.node }
    requires peer { IsPeerOf here.domain.now here.node (Ap way.ap) }
    requires ssid { IsSsid here.domain.now.ssid }
    ensures answered { IfOk result (λ outcome. (ks : _)
        → IsAnswered here.entry.domain.now here.entry.node way.entry managed.now
        (move (both originator.old ks) (both originator.new ks)
        out.old.acts out.new.acts) outcome) }
    ensures same { OnErr result (originator.new ≡ originator.old) }
    ensures kept { OnErr result (out.new.acts ≡ out.old.acts) }
{
    let (octets, status) = (managed.octets, managed.frame.status);
    let (peer, elements) = (Node::Ap(way.ap), &managed.elements);
    let frame = Reassociation::Response;
    out.reserve(3)?;
    let room = TransitionRoom::take(here, peer, octets, elements, frame, way.r0kh_id)?;
    let mut reply = Reply::empty();
    let outcome = originator.on_auth(status, elements, &mut reply);
    room.add_auth_response(outcome, &reply, out);
    Ok(outcome)
}

/// Hands a reassociation response to the originator of the attempt, and to the group keys that are
/// kept of its access point.
pub fn arrive(
    here: Here<'_>,
    way: Way<'_>,
    managed: &Managed<'_>,
    originator: &mut Originator,
    memory: &mut GroupMemory,
    out: &mut Outbox,
) -> Result<Arrival, NoMemory>
    requires listed { IsListed here.domain.now here.node }
    requires peer { IsPeerOf here.domain.now here.node (Ap way.ap) }
    requires ssid { IsSsid here.domain.now.ssid }
    requires raw { HasRaw (element_fields managed.now.elements) }
    ensures arrived { IfOk result (λ arrival.
        IsArrived here.entry.domain.now here.entry.node way.entry managed.now
        (move (both originator.old memory.old) (both originator.new memory.new)
        out.old.acts out.new.acts) arrival) }
    ensures same { OnErr result ((originator.new ≡ originator.old) × (memory.new ≡ memory.old)) }
    ensures kept { OnErr result (out.new.acts ≡ out.old.acts) }
{
    let (octets, status) = (managed.octets, managed.frame.status);
    let (peer, elements) = (Node::Ap(way.ap), &managed.elements);
    let frame = Reassociation::Response;
    out.reserve(6)?;
    let room = TransitionRoom::take(here, peer, octets, elements, frame, way.r0kh_id)?;
    let mut reply = Reply::empty();
    let outcome = originator.on_reassoc(status, elements, memory, &mut reply);
    room.add_reassoc_response(outcome, way.left, &reply, out);
    let installed = reply.installed;
    Ok(Arrival { outcome, installed })
}
