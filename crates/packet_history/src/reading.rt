//! What one act tells of keys and packet numbers.

ghost use Rattle.std.specs.Prelude.{◌≡◌, ◌↔◌, IsTrue, Some};
ghost use Rattle.key_hierarchy.specs.declared.inputs.Ptk.{Ptk as AnyPtk};
ghost use Rattle.domain_base.specs.declared.names.Node.{Node as AnyNode};
ghost use Rattle.run_journal.specs.declared.acts.Act.TheVariants.{Derived};
ghost use Rattle.run_journal.specs.Acts.{key_octets};
ghost use Rattle.run_journal.specs.Premises.{IsBefore};
ghost use Rattle.run_journal.specs.Safe.{use_of};
ghost use Rattle.packet_history.specs.Packets.{install_packet, use_packet, up_packet};

use crate::packets::Packet;
use key_hierarchy::Inputs;
use run_journal::{Act, Entry, Key};

// The octets of a key.
fn key_of(key: &Key) -> [u8; 16]
    ensures { result ≡ key_octets key.now }
{
    match key {
        Key::Pairwise { tk, .. } => *tk,
        Key::Group { key, .. } => *key,
    }
}

/// The key that the act installs, with number 0.
pub(crate) fn install_packet(act: &Act) -> Option<Packet>
    ensures { result ≡ install_packet act.now }
{
    match act {
        Act::Installed { key, .. } => Some(Packet {
            key: key_of(key),
            number: 0,
        }),
        _ => None,
    }
}

/// The packet number that the act uses.
pub(crate) fn use_packet(act: &Act) -> Option<Packet>
    ensures { result ≡ use_packet act.now }
{
    match act {
        Act::Used { key, number, .. } => Some(Packet {
            key: *key,
            number: *number,
        }),
        _ => None,
    }
}

/// The packet number of a payload that the act hands up.
pub(crate) fn up_packet(act: &Act) -> Option<Packet>
    ensures { result ≡ up_packet act.now }
{
    match act {
        Act::HandedUp { key, number, .. } => Some(Packet {
            key: *key,
            number: *number,
        }),
        _ => None,
    }
}

/// Whether the entry comes before a later one: it has a lower round, or is of the same node.
pub(crate) fn is_before(earlier: &Entry, later: &Entry) -> bool
    ensures { IsTrue result ↔ IsBefore earlier.now later.now }
{
    earlier.round < later.round || earlier.node == later.node
}

/// All fields are equal.
pub(crate) fn are_inputs(i: &Inputs, m: &Inputs) -> bool
    ensures { IsTrue result ↔ (i.now ≡ m.now) }
{
    i.anonce == m.anonce
        && i.snonce == m.snonce
        && i.aa == m.aa
        && i.spa == m.spa
        && i.psk == m.psk
        && i.akm == m.akm
        && i.mdid == m.mdid
        && i.ssid.as_slice() == m.ssid.as_slice()
        && i.r0kh_id.as_slice() == m.r0kh_id.as_slice()
}

/// Whether the act derives a key from these inputs.
pub(crate) fn derives(act: &Act, asked: &Inputs) -> bool
    ensures { IsTrue result
        ↔ ((p : AnyNode) × ((k : AnyPtk) × (act.now ≡ Derived p asked.now k))) }
{
    match act {
        Act::Derived { inputs, .. } => are_inputs(inputs.inputs(), asked),
        _ => false,
    }
}

/// Whether the act uses that packet number for these octets.
pub(crate) fn uses(act: &Act, packet: Packet, plain: &[u8]) -> bool
    ensures { IsTrue result ↔ (use_of act.now ≡ Some (record {
      key = packet.key;
      number = packet.number;
      octets = plain.now;
    })) }
{
    match act {
        Act::Used {
            key,
            number,
            octets,
            ..
        } => *key == packet.key && *number == packet.number && octets.as_slice() == plain,
        _ => false,
    }
}
