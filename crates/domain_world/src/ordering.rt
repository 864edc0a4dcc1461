//! At which nodes events are, and what they are there.

ghost use Rattle.std.specs.Prelude.{◌≡◌, ℕ, ◌<◌, ◌≤◌, ◌+◌, false};
ghost use Rattle.domain_base.specs.declared.names.Node.TheVariants.{Ap as ApOf};
ghost use Rattle.run_journal.specs.Acts.{same};
ghost use Rattle.domain_world.specs.Ordering.{node_of};
ghost use Rattle.node_base.specs.Events.{event_of};
ghost use Rattle.domain_world.specs.Comings.{event_at};

use domain_base::Node;
use node_base::NodeEvent;
use run_journal::Event;

/// The node at which an event is: a changed key is at several, this the first of them.
pub(crate) fn node_of(event: &Event) -> Node
    ensures { result ≡ node_of event.now }
{
    match event {
        Event::Connect { sta, .. } | Event::Roam { sta, .. } | Event::Leave { sta } => {
            Node::Sta(*sta)
        }
        Event::Deliver { to, .. }
        | Event::Alter { to, .. }
        | Event::Cut { to, .. }
        | Event::Inject { to, .. } => *to,
        Event::Send { from, .. } => *from,
        Event::Retry { ap, .. }
        | Event::Rekey { ap }
        | Event::Expire { ap, .. }
        | Event::Revoke { ap, .. }
        | Event::Renew { ap, .. }
        | Event::Announce { ap, .. } => Node::Ap(*ap),
        Event::Secret { .. } => Node::Ap(0),
    }
}

/// Whether it is at that access point.
pub(crate) fn is_at(event: &Event, ap: u16) -> bool
    ensures { result ≡ same (ApOf ap) (node_of event.now) }
{
    match node_of(event) {
        Node::Ap(number) => ap == number,
        Node::Sta(_) => false,
    }
}

/// Whether it is at one of so many access points from that one on.
pub(crate) fn is_among(event: &Event, first: u16, count: usize) -> bool
    ensures { result ≡ false → (k : ℕ) → first ≤ k → k < first + count
        → same (ApOf k) (node_of event.now) ≡ false }
{
    let Node::Ap(number) = node_of(event) else {
        return false;
    };
    if number < first {
        return false;
    }
    usize::from(number - first) < count
}

/// What an event is at its node, where these octets come by it.
pub(crate) fn node_event<'a>(event: &'a Event, comes: &'a [u8]) -> NodeEvent<'a>
    ensures { event_of result ≡ event_at event.now comes.now }
{
    match event {
        Event::Connect { ap, .. } => NodeEvent::Connect(*ap),
        Event::Roam { ap, .. } => NodeEvent::Roam(*ap),
        Event::Deliver { .. } | Event::Alter { .. } | Event::Cut { .. } | Event::Inject { .. } => {
            NodeEvent::Take(comes)
        }
        Event::Retry { sta, .. } => NodeEvent::Retry(*sta),
        Event::Rekey { .. } => NodeEvent::Rekey,
        Event::Send {
            to,
            tid,
            octets,
            ..
        } => NodeEvent::Send(*to, *tid, octets.as_slice()),
        Event::Expire { sta, .. } => NodeEvent::Expire(*sta),
        Event::Revoke { sta, .. } => NodeEvent::Revoke(*sta),
        Event::Leave { .. } => NodeEvent::Leave,
        Event::Secret { sta, psk } => NodeEvent::Secret(*sta, psk),
        Event::Renew { sta, .. } => NodeEvent::Renew(*sta),
        Event::Announce { octets, .. } => NodeEvent::Announce(octets.as_slice()),
    }
}
