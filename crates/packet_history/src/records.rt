//! What the entries of one node tell of keys and packet numbers, kept as they come.

ghost use Rattle.std.specs.Prelude.{◌≡◌, ◌↔◌, ◌∷◌, [], List, IsTrue, OnOk, OnErr, length};
ghost use Rattle.run_journal.specs.declared.acts.Entry.{Entry as AnyEntry};
ghost use Rattle.run_journal.specs.Safe.{use_of, up_of};
ghost use Rattle.packet_history.specs.Own.{InstallsNewIn, UsesNewIn};
ghost use Rattle.packet_history.specs.Packets.{use_packet, place_of};
ghost use Rattle.packet_history.specs.Records.{Records};

use crate::packets::{Packet, Packets};
use crate::reading::{install_packet, up_packet, use_packet};
use domain_base::NoMemory;
use run_journal::{Act, Entry};
use std::alloc::Global;

/// The keys that a node installed, and the packet numbers that it used and handed up, each in about
/// the same time.
#[derive(Drop)]
pub struct NodePackets {
    installed: Packets,
    used: Packets,
    handed_up: Packets,
}

impl NodePackets {
    /// Those of no entries. Takes no memory.
    pub fn new(alloc: Global) -> Self
        ensures { Records [] result }
    {
        NodePackets {
            installed: Packets::new(alloc),
            used: Packets::new(alloc),
            handed_up: Packets::new(alloc),
        }
    }

    /// One more entry, after so many.
    pub fn add(&mut self, act: &Act, place: usize) -> Result<(), NoMemory>
        ensures ok { OnOk result ((own : List AnyEntry) (e : AnyEntry) → Records own self.old
            → place ≡ length own → e.act ≡ act.now → Records (e ∷ own) self.new) }
        ensures err { OnErr result ((own : List AnyEntry) → Records own self.old
            → Records own self.new) }
    {
        if let Some(packet) = install_packet(act) {
            return self.installed.keep(packet, place);
        }
        if let Some(packet) = use_packet(act) {
            return self.used.keep(packet, place);
        }
        if let Some(packet) = up_packet(act) {
            return self.handed_up.keep(packet, place);
        }
        Ok(())
    }

    /// Whether the node did not install the key before that the act installs, if it does.
    pub fn installs_new(&self, act: &Act) -> bool
        ensures { (own : List AnyEntry) → Records own self.now
            → IsTrue result ↔ InstallsNewIn act.now own }
    {
        match install_packet(act) {
            Some(packet) => !self.installed.has(packet),
            None => true,
        }
    }

    /// Whether the node did not use the packet number before that the act uses, if it does.
    pub fn uses_new(&self, act: &Act) -> bool
        ensures { (own : List AnyEntry) → Records own self.now
            → IsTrue result ↔ UsesNewIn use_of act.now own }
    {
        match use_packet(act) {
            Some(packet) => !self.used.has(packet),
            None => true,
        }
    }

    /// Whether the node did not hand up the packet number before that the act hands up, if it does.
    pub fn hands_up_new(&self, act: &Act) -> bool
        ensures { (own : List AnyEntry) → Records own self.now
            → IsTrue result ↔ UsesNewIn up_of act.now own }
    {
        match up_packet(act) {
            Some(packet) => !self.handed_up.has(packet),
            None => true,
        }
    }

    /// The place of the newest entry that used the packet number.
    pub fn use_place(&self, packet: Packet) -> Option<usize>
        ensures { (own : List AnyEntry) → Records own self.now
            → result ≡ place_of use_packet packet own }
    {
        self.used.place(packet)
    }
}
