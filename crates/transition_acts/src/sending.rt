//! The memory that the act of sending a frame of a fast transition takes, taken before anything is
//! done.

ghost use Rattle.std.specs.Prelude.{◌≡◌, ◌≤◌, ◌+◌, ◌++◌, length, IfOk};
ghost use Rattle.std.specs.Option.{ForSome};
ghost use Rattle.domain_base.specs.declared.names.Node.{Node as AnyNode};
ghost use Rattle.run_journal.specs.Replies.{IsWhole};
ghost use Rattle.run_journal.specs.declared.domain.Domain.{Domain as AnyDomain};
ghost use Rattle.key_hierarchy.specs.Sizes.{IsSsid};
ghost use Rattle.run_journal.specs.Events.{IsListed, IsPeerOf};
ghost use Rattle.ft_exchange.specs.Told.{transition_sent};
ghost use Rattle.transition_acts.specs.Seals.{seal_at};

use crate::covering::cover_in;
use crate::sides::{Place, Side};
use act_memory::{Buffer, Outbox, SendRoom};
use domain_base::{NoMemory, Node, Octets, Peer};
use node_base::{Here, address};
use run_journal::{Act, BoxedSeal, Reply, Seal};

// What is sealed in a frame at that place, under that KCK, in that memory.
fn seal_at(
    kck: Option<[u8; 16]>,
    place: Option<Place>,
    frame: &[u8],
    covered: Buffer,
    room: BoxedSeal,
) -> Option<BoxedSeal>
    requires few { length frame.now ≤ 512 }
    requires low { ForSome place (λ w. 30 ≤ w.rsne_at) }
    ensures { result ≡ seal_at kck place frame.now }
{
    let Some(key) = kck else { return None };
    let Some(place) = place else { return None };
    let octets = Octets(cover_in(covered, &place.covered(frame)));
    Some(room.filled(Seal { octets, key }))
}

/// The memory that the act of sending a frame to the peer takes.
#[derive(Drop)]
pub struct TransitionSend {
    peer: Node,
    side: Side,
    room: SendRoom,
    ghost few: { side.ssid_len ≤ 32 },
}

impl TransitionSend {
    ghost use Rattle.transition_acts.specs.Rooms.{IsSendRoom};

    /// Takes it, for the node that stands here.
    pub fn take(here: Here<'_>, peer: Node) -> Result<Self, NoMemory>
        requires listed { IsListed here.domain.now here.node }
        requires peer { IsPeerOf here.domain.now here.node peer }
        requires ssid { IsSsid here.domain.now.ssid }
        ensures { IfOk result (λ room. IsSendRoom here.entry.domain.now here.entry.node peer room) }
    {
        let room = SendRoom::take(here.alloc)?;
        let side = Side {
            own: address(here.domain, here.node),
            peer: address(here.domain, peer),
            ssid_len: here.domain.ssid.as_slice().len(),
            mfp: here.domain.extras.mfp,
        };
        Ok(TransitionSend { peer, side, room })
    }

    // Adds the act of sending the frame of the reply.
    fn add_frame(self, reply: &Reply, out: &mut Outbox)
        requires room { 1 ≤ out.old.spare }
        requires some { 1 ≤ reply.now.len }
        requires whole { IsWhole reply.now }
        ensures acts { (d : AnyDomain) (n p : AnyNode) → IsSendRoom d n p self
            → out.new.acts ≡ out.old.acts ++ transition_sent d n p reply.now }
        ensures spare { out.old.spare ≤ out.new.spare + 1 }
    {
        let TransitionSend { peer, side, room } = self;
        let SendRoom {
            octets,
            covered,
            seal,
        } = room;
        let (frame, _) = reply.octets.split_at(reply.len);
        let seal = seal_at(reply.sealed, side.place(reply.kind), frame, covered, seal);
        let octets = Octets(octets.filled(frame));
        out.add(Act::Sent {
            peer: Peer::One(peer),
            kind: reply.kind,
            octets,
            seal,
        });
    }

    /// Adds the act of sending the frame of the reply, if it has one. No memory is wanted: octets
    /// go into memory of their size where there is some more, and else stay in the room.
    #[tactic(auto, using(crate::proofs::Rooming::nothing_sent))]
    pub fn add_sent(self, reply: &Reply, out: &mut Outbox)
        requires room { 1 ≤ out.old.spare }
        requires whole { IsWhole reply.now }
        ensures acts { (d : AnyDomain) (n p : AnyNode) → IsSendRoom d n p self
            → out.new.acts ≡ out.old.acts ++ transition_sent d n p reply.now }
        ensures spare { out.old.spare ≤ out.new.spare + 1 }
    {
        if reply.len == 0 {
            return;
        }
        self.add_frame(reply, out);
    }

    // What the node has of the peer.
    pub(crate) fn side(&self) -> Side
        ensures { result ≡ self.now.side }
    {
        self.side
    }
}
