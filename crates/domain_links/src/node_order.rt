//! The order of nodes, and whom a frame is for.

ghost use Rattle.std.specs.Prelude.{◌≡◌, ◌<◌, ◌≤◌, length};
ghost use Rattle.domain_links.specs.NodeOrder.{count, node_at, place_of, with_address, receiver_of};

use domain_base::{Mac, Node, array_at};
use run_journal::{Domain, is_group};

/// Whom a frame is for.
#[derive(Clone, Copy)]
pub(crate) enum Receiver {
    /// Every station, in order.
    Stations,
    /// One node.
    One(Node),
    /// No listed node.
    Nobody,
}

/// The node at a place: access points, then stations, from 0.
pub fn node_at(domain: &Domain, place: usize) -> Node
    requires within { place < count domain.now }
    requires aps { length domain.now.aps ≤ 65536 }
    requires stas { length domain.now.stas ≤ 65536 }
    ensures { result ≡ node_at domain.now place }
{
    let aps = domain.aps.0.len();
    if place < aps {
        Node::Ap(place as u16)
    } else {
        Node::Sta((place - aps) as u16)
    }
}

/// Where a listed node stands in that order.
pub(crate) fn place_of(domain: &Domain, node: Node) -> usize
    requires aps { length domain.now.aps ≤ 65536 }
    ensures { result ≡ place_of domain.now node }
{
    match node {
        Node::Ap(number) => usize::from(number),
        Node::Sta(number) => domain.aps.0.len() + usize::from(number),
    }
}

// The node that has this address.
fn with_address(domain: &Domain, address: Mac) -> Receiver
    requires aps { length domain.now.aps ≤ 65536 }
    requires stas { length domain.now.stas ≤ 65536 }
    ensures { result ≡ with_address domain.now address.0 }
{
    let ap = domain.aps.place_of(address);
    let sta = domain.stas.place_of(address);
    match (ap, sta) {
        (Some(place), _) => Receiver::One(Node::Ap(place as u16)),
        (None, Some(place)) => Receiver::One(Node::Sta(place as u16)),
        (None, None) => Receiver::Nobody,
    }
}

/// Whom address 1 of a frame names (IEEE Std 802.11-2020, 9.2.4.3.4): a group's every station, else
/// the node that has it.
pub(crate) fn receiver_of(domain: &Domain, octets: &[u8]) -> Receiver
    requires aps { length domain.now.aps ≤ 65536 }
    requires stas { length domain.now.stas ≤ 65536 }
    ensures { result ≡ receiver_of domain.now octets.now }
{
    if octets.len() < 10 {
        return Receiver::Nobody;
    }
    let address = Mac(array_at(octets, 4));
    if is_group(address) {
        Receiver::Stations
    } else {
        with_address(domain, address)
    }
}
