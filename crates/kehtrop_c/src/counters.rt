//! The receive counter of a key that is told.

ghost use Rattle.std.specs.Prelude.{◌≡◌};
ghost use Rattle.embedded_node.specs.Counters.{counter_at};
ghost use Rattle.kehtrop_c.specs.Counters.{counter_from, counter_between, counter_with};
ghost use Rattle.kehtrop_c.specs.Counters.{counter_told};

use domain_base::{Node, Peer};
use embedded_node::EmbeddedStation;
use run_journal::{Act, GroupKind, Key};

// Of a group key of that kind of an access point, where the station keeps it.
fn counter_at(station: &EmbeddedStation, kind: GroupKind, ap: u16, key: &[u8; 16]) -> Option<u64>
    ensures { result ≡ counter_at kind station.now ap key.now }
{
    match kind {
        GroupKind::Gtk => station.group_counter(ap, key),
        GroupKind::Igtk => station.integrity_counter(ap, key),
    }
}

// Of a group key that the station keeps of the access point.
fn counter_from(station: &EmbeddedStation, kind: GroupKind, key: &[u8; 16], node: Node) -> u64
    ensures { result ≡ counter_from station.now kind key.now node }
{
    match node {
        Node::Ap(ap) => counter_at(station, kind, ap, key).unwrap_or(0),
        Node::Sta(_) => 0,
    }
}

// Of a key with that node.
fn counter_between(station: &EmbeddedStation, node: Node, key: &Key) -> u64
    ensures { result ≡ counter_between station.now node key.now }
{
    match key {
        Key::Pairwise { .. } => 0,
        Key::Group {
            kind,
            key: octets,
            ..
        } => counter_from(station, *kind, octets, node),
    }
}

// Of a key with that node, or with all.
fn counter_with(station: &EmbeddedStation, peer: Peer, key: &Key) -> u64
    ensures { result ≡ counter_with station.now peer key.now }
{
    match peer {
        Peer::One(node) => counter_between(station, node, key),
        Peer::All => 0,
    }
}

/// Of the key that an act of the station installs, or lets go on.
pub fn counter_told(station: &EmbeddedStation, act: &Act) -> u64
    ensures { result ≡ counter_told station.now act.now }
{
    match act {
        Act::Installed { peer, key } => counter_with(station, *peer, key),
        Act::Resumed { peer, key } => counter_between(station, *peer, key),
        _ => 0,
    }
}
