//! The nodes of a network by number and by address.

ghost use Rattle.std.specs.Prelude.{◌≡◌, ◌≤◌, [], length};
ghost use Rattle.std.specs.Prelude.{slice_get, option_map, unwrap_or};
ghost use Rattle.run_journal.specs.declared.domain.ListedAp.{ListedAp as AnyAp};
ghost use Rattle.air_frame.specs.Sent.{IsAddress};
ghost use Rattle.domain_base.specs.declared.names.Node.TheVariants.{Ap};
ghost use Rattle.key_hierarchy.specs.Sizes.{IsR0khId};
ghost use Rattle.domain_rules.specs.Network.{InForm, mac, peer_of, r0kh_id, psk_of, station_of};
ghost use Rattle.run_journal.specs.Events.{IsListed, IsPeerOf};

use domain_base::{Mac, Node};
use run_journal::{Domain, ListedAp};

// The address, which has six octets.
fn whole(address: Mac) -> Mac
    ensures same { result ≡ address }
    ensures whole { IsAddress result.0 }
{
    address
}

/// A node's address: an access point's is its BSSID.
pub fn address(domain: &Domain, node: Node) -> Mac
    requires { IsListed domain.now node }
    ensures mac { result ≡ mac domain.now node }
    ensures whole { IsAddress result.0 }
{
    match node {
        Node::Ap(number) => whole(domain.aps.0[usize::from(number)].address),
        Node::Sta(number) => whole(domain.stas.as_slice()[usize::from(number)].address),
    }
}

// The R0KH-ID at that place, or none.
fn id_at(aps: &[ListedAp], place: usize) -> &[u8]
    ensures { result.now
        ≡ unwrap_or (option_map (λ (a : AnyAp). a.r0kh_id) (slice_get aps.now place)) [] }
{
    match aps.get(place) {
        Some(ap) => ap.r0kh_id.as_slice(),
        None => &[],
    }
}

/// The R0KH-ID of an access point.
pub fn r0kh_id(domain: &Domain, ap: u16) -> &[u8]
    requires form { InForm domain.now }
    requires listed { IsListed domain.now (Ap ap) }
    ensures id { result.now ≡ r0kh_id domain.now (Ap ap) }
    ensures sized { IsR0khId result.now }
{
    id_at(&domain.aps.0, usize::from(ap))
}

/// The pre-shared key between a node and its peer, which is that of the station.
pub fn psk(domain: &Domain, node: Node, peer: Node) -> [u8; 32]
    requires listed { IsListed domain.now node }
    requires peer { IsPeerOf domain.now node peer }
    ensures { result ≡ psk_of domain.now (station_of node peer) }
{
    match node {
        Node::Sta(number) => domain.stas.as_slice()[usize::from(number)].psk,
        Node::Ap(_) => match peer {
            Node::Sta(number) => domain.stas.as_slice()[usize::from(number)].psk,
            Node::Ap(_) => unreachable!(),
        },
    }
}

/// The listed node of the other kind that has this address.
pub fn peer_of(domain: &Domain, node: Node, address: Mac) -> Option<Node>
    requires aps { length domain.now.aps ≤ 65536 }
    requires stas { length domain.now.stas ≤ 65536 }
    ensures { result ≡ peer_of domain.now node address.0 }
{
    match node {
        Node::Ap(_) => match domain.stas.place_of(address) {
            Some(place) => Some(Node::Sta(place as u16)),
            None => None,
        },
        Node::Sta(_) => match domain.aps.place_of(address) {
            Some(place) => Some(Node::Ap(place as u16)),
            None => None,
        },
    }
}
