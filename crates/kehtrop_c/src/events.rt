//! What happens at a node.

ghost use Rattle.std.specs.Prelude.{◌≡◌, option_map};
ghost use Rattle.domain_rules.specs.Rows.{Begin, Roam, Retry, Send, Expire, Revoke, Renew, Secret};
ghost use Rattle.node_base.specs.Events.{event_of as event_meant};
ghost use Rattle.kehtrop_c.specs.Crossing.{ap_number, sta_number, receiver, tid_of, event_with};
ghost use Rattle.kehtrop_c.specs.Crossing.{named, changing};

use domain_base::{Node, Peer, Tid};
use node_base::NodeEvent;

/// The octets came.
pub const TAKE: u8 = 1;

/// Station: associate with the peer.
pub const CONNECT: u8 = 2;

/// Station, suite 4: fast transition to the peer.
pub const ROAM: u8 = 3;

/// Access point: send the peer again what it has to answer.
pub const RETRY: u8 = 4;

/// Access point: a new group key.
pub const REKEY: u8 = 5;

/// Send the octets, a payload, to the peer, or of an access point to ff:ff:ff:ff:ff:ff.
pub const PASS: u8 = 6;

/// Access point: drop what there is with the peer.
pub const EXPIRE: u8 = 7;

/// Access point: hold the key of the peer no longer.
pub const REVOKE: u8 = 8;

/// Station: drop what there is.
pub const LEAVE: u8 = 9;

/// Another pre-shared key, the 32 octets: of an access point with the peer, or with all stations by
/// ff:ff:ff:ff:ff:ff; of a station, its own, by that address too. What there is under the old one
/// ends.
pub const SECRET: u8 = 10;

/// Access point, where pairwise keys are renewed: renew the key with the peer.
pub const RENEW: u8 = 11;

/// Access point, where Action frames to all are protected: send the octets, a payload, to all in one.
pub const ANNOUNCE: u8 = 12;

// The access point of a peer.
fn ap_of(peer: Option<Node>) -> Option<u16>
    ensures { result ≡ ap_number peer }
{
    match peer {
        Some(Node::Ap(ap)) => Some(ap),
        Some(Node::Sta(_)) => None,
        None => None,
    }
}

// The station of a peer.
fn station_of(peer: Option<Node>) -> Option<u16>
    ensures { result ≡ sta_number peer }
{
    match peer {
        Some(Node::Ap(_)) => None,
        Some(Node::Sta(station)) => Some(station),
        None => None,
    }
}

// Whom a payload goes to.
fn receiver_of(address: &[u8; 6], peer: Option<Node>) -> Option<Peer>
    ensures { result ≡ receiver address.now peer }
{
    if *address == [255; 6] {
        return Some(Peer::All);
    }
    match peer {
        Some(node) => Some(Peer::One(node)),
        None => None,
    }
}

// A TID, where it is one.
fn tid_of(number: u8) -> Option<Tid>
    ensures { result ≡ tid_of number }
{
    if number < 16 { Tid::new(number) } else { None }
}

// A payload to that receiver.
fn passing<'a>(to: Option<Peer>, tid: u8, octets: &'a [u8]) -> Option<NodeEvent<'a>>
    ensures { option_map event_meant result
        ≡ option_map (λ q. Send q (tid_of tid) octets.now) to }
{
    match to {
        Some(to) => Some(NodeEvent::Send(to, tid_of(tid), octets)),
        None => None,
    }
}

// An association with the access point.
fn connecting<'a>(ap: Option<u16>) -> Option<NodeEvent<'a>>
    ensures { option_map event_meant result ≡ option_map (λ k. Begin k) ap }
{
    match ap {
        Some(ap) => Some(NodeEvent::Connect(ap)),
        None => None,
    }
}

// A fast transition to the access point.
fn roaming<'a>(ap: Option<u16>) -> Option<NodeEvent<'a>>
    ensures { option_map event_meant result ≡ option_map (λ k. Roam k) ap }
{
    match ap {
        Some(ap) => Some(NodeEvent::Roam(ap)),
        None => None,
    }
}

// What the station has to answer is sent again.
fn retrying<'a>(station: Option<u16>) -> Option<NodeEvent<'a>>
    ensures { option_map event_meant result ≡ option_map (λ k. Retry k) station }
{
    match station {
        Some(station) => Some(NodeEvent::Retry(station)),
        None => None,
    }
}

// What there is with the station is dropped.
fn expiring<'a>(station: Option<u16>) -> Option<NodeEvent<'a>>
    ensures { option_map event_meant result ≡ option_map (λ k. Expire k) station }
{
    match station {
        Some(station) => Some(NodeEvent::Expire(station)),
        None => None,
    }
}

// The key of the station is held no longer.
fn revoking<'a>(station: Option<u16>) -> Option<NodeEvent<'a>>
    ensures { option_map event_meant result ≡ option_map (λ k. Revoke k) station }
{
    match station {
        Some(station) => Some(NodeEvent::Revoke(station)),
        None => None,
    }
}

// The pairwise key of the station is renewed.
fn renewing<'a>(station: Option<u16>) -> Option<NodeEvent<'a>>
    ensures { option_map event_meant result ≡ option_map (λ k. Renew k) station }
{
    match station {
        Some(station) => Some(NodeEvent::Renew(station)),
        None => None,
    }
}

// Which stations have another key.
fn named_by(address: &[u8; 6], station: Option<u16>) -> Option<Option<u16>>
    ensures { result ≡ named address.now station }
{
    if *address == [255; 6] {
        return Some(None);
    }
    match station {
        Some(station) => Some(Some(station)),
        None => None,
    }
}

// This key of these stations.
fn keyed<'a>(stations: Option<Option<u16>>, psk: &'a [u8; 32]) -> Option<NodeEvent<'a>>
    ensures { option_map event_meant result ≡ option_map (λ s. Secret s psk.now) stations }
{
    match stations {
        Some(stations) => Some(NodeEvent::Secret(stations, psk)),
        None => None,
    }
}

// Another key of these stations, where it is one.
fn changing<'a>(stations: Option<Option<u16>>, octets: &'a [u8]) -> Option<NodeEvent<'a>>
    ensures { option_map event_meant result ≡ changing stations octets.now }
{
    match <&[u8; 32]>::try_from(octets) {
        Ok(psk) => keyed(stations, psk),
        Err(_) => None,
    }
}

/// The event of that number. The peer is the listed node that has the address.
pub fn event_of<'a>(
    what: u8,
    address: &[u8; 6],
    peer: Option<Node>,
    tid: u8,
    octets: &'a [u8],
) -> Option<NodeEvent<'a>>
    ensures { option_map event_meant result
        ≡ event_with what address.now peer tid octets.now }
{
    match what {
        TAKE => Some(NodeEvent::Take(octets)),
        CONNECT => connecting(ap_of(peer)),
        ROAM => roaming(ap_of(peer)),
        RETRY => retrying(station_of(peer)),
        REKEY => Some(NodeEvent::Rekey),
        PASS => passing(receiver_of(address, peer), tid, octets),
        EXPIRE => expiring(station_of(peer)),
        REVOKE => revoking(station_of(peer)),
        LEAVE => Some(NodeEvent::Leave),
        SECRET => changing(named_by(address, station_of(peer)), octets),
        RENEW => renewing(station_of(peer)),
        ANNOUNCE => Some(NodeEvent::Announce(octets)),
        _ => None,
    }
}
