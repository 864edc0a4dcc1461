//! An event handed to its node, and the network after it.

ghost use Rattle.std.specs.Prelude.{◌≡◌};
ghost use Rattle.node_base.specs.Changing.{after};
ghost use Rattle.node_base.specs.Events.{event_of};

use node_base::NodeEvent;
use run_journal::Domain;

/// The same event again, to be given away.
pub(crate) fn again<'a>(event: &NodeEvent<'a>) -> NodeEvent<'a>
    ensures { event_of result ≡ event_of event.now }
{
    match *event {
        NodeEvent::Take(octets) => NodeEvent::Take(octets),
        NodeEvent::Connect(ap) => NodeEvent::Connect(ap),
        NodeEvent::Roam(ap) => NodeEvent::Roam(ap),
        NodeEvent::Retry(sta) => NodeEvent::Retry(sta),
        NodeEvent::Rekey => NodeEvent::Rekey,
        NodeEvent::Send(to, Some(tid), payload) => NodeEvent::Send(to, Some(tid), payload),
        NodeEvent::Send(to, None, payload) => NodeEvent::Send(to, None, payload),
        NodeEvent::Expire(sta) => NodeEvent::Expire(sta),
        NodeEvent::Revoke(sta) => NodeEvent::Revoke(sta),
        NodeEvent::Leave => NodeEvent::Leave,
        NodeEvent::Renew(sta) => NodeEvent::Renew(sta),
        NodeEvent::Secret(sta, psk) => NodeEvent::Secret(sta, psk),
        NodeEvent::Announce(payload) => NodeEvent::Announce(payload),
    }
}

/// The network after an event at its node: a changed key is that of its stations from then on.
/// Takes no memory.
pub(crate) fn follow(domain: &mut Domain, event: &NodeEvent<'_>)
    ensures { domain.new ≡ after domain.old (event_of event.now) }
{
    if let NodeEvent::Secret(sta, psk) = event {
        domain.stas.change_keys(*sta, psk);
    }
}
