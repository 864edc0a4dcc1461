//! What an event is to one node.

use domain_base::{Peer, Tid};

/// An event at a node. Numbers are those of the other node, from 0.
#[derive(Clone, Copy)]
pub enum NodeEvent<'a> {
    /// These octets come.
    Take(&'a [u8]),
    /// A station begins an attempt with that access point, by association.
    Connect(u16),
    /// A station with a session begins a fast transition to that access point.
    Roam(u16),
    /// An access point sends that station once more what it waits to have answered.
    Retry(u16),
    /// An access point draws a new group key and gives it to each session.
    Rekey,
    /// A node sends that payload to its peer, or an access point to all, as QoS data where there is
    /// a TID.
    Send(Peer, Option<Tid>, &'a [u8]),
    /// An access point drops what it has with that station.
    Expire(u16),
    /// An access point tells its key holder to hold the key of that station no longer.
    Revoke(u16),
    /// A station drops what it has.
    Leave,
    /// An access point begins to renew the pairwise key of its session with that station.
    Renew(u16),
    /// The key of that station is changed to this, or that of all where none is named. The network
    /// has the old key still, and the new one once all nodes have taken the event.
    Secret(Option<u16>, &'a [u8; 32]),
    /// An access point sends that payload to all in a protected Action frame, where management
    /// frames are protected.
    Announce(&'a [u8]),
}
