//! Packets by key and number, and where they stand.

ghost use Rattle.std.specs.Prelude.{◌≡◌, cond, is_some, Some, None, OnOk, OnErr};
ghost use Rattle.std.specs.BTreeMap.{is_at};
ghost use Rattle.packet_history.specs.declared.packets.Packet.{Packet as AnyPacket};
ghost use Rattle.packet_history.specs.Packets.{packet_cmp, place_in};

use domain_base::NoMemory;
use std::alloc::Global;
use std::collections::BTreeMap;

/// A packet number under a key. They are ordered by the key's octets, and then by the number.
#[derive(Clone, Copy, PartialEq, Eq, PartialOrd, Ord)]
pub struct Packet {
    /// The key.
    pub key: [u8; 16],
    /// The packet number.
    pub number: u64,
}

/// The place of each packet among the entries of a node: the newest one, counted from 0.
#[derive(Drop)]
pub struct Packets {
    places: BTreeMap<Packet, usize>,
}

impl Packets {
    /// No packets. Takes no memory.
    pub fn new(alloc: Global) -> Self
        ensures { (q : AnyPacket) → place_in result.places.entries q ≡ None }
    {
        Packets {
            places: BTreeMap::new(alloc),
        }
    }

    /// One more packet, or another place of one.
    pub fn keep(&mut self, packet: Packet, place: usize) -> Result<(), NoMemory>
        ensures ok { OnOk result ((q : AnyPacket) → place_in self.new.places.entries q
            ≡ cond (is_at (packet_cmp packet) q) (Some place)
            (place_in self.old.places.entries q)) }
        ensures err { OnErr result ((q : AnyPacket) → place_in self.new.places.entries q
            ≡ place_in self.old.places.entries q) }
    {
        self.places.insert(packet, place)?;
        Ok(())
    }

    /// Where the packet stands.
    pub fn place(&self, packet: Packet) -> Option<usize>
        ensures { result ≡ place_in self.now.places.entries packet }
    {
        self.places.get(&packet).copied()
    }

    /// Whether the packet stands anywhere.
    pub fn has(&self, packet: Packet) -> bool
        ensures { result ≡ is_some (place_in self.now.places.entries packet) }
    {
        self.place(packet).is_some()
    }
}
