//! The calls of a world that no run makes.

ghost use Rattle.std.specs.Prelude.{◌≡◌, ◌≢◌, ◌≤◌, [], length, IsTrue};
ghost use Rattle.domain_base.specs.declared.names.Akm.{Akm as AnyAkm};
ghost use Rattle.domain_rules.specs.Network.{InForm};
ghost use Rattle.run_journal.specs.Events.{IsListed};
ghost use Rattle.domain_world.specs.Owning.{Owns};

use domain_base::{Akm, Mac, Node, Octets};
use domain_world::World;
use mac_prf::KdfKey;
use run_journal::{Act, Aps, Domain, Event, Extras, Journal, Stas, Version};
use std::alloc::Global;
use std::process::Abort;
use std::thread::Threads;

pub(crate) fn octets(rt: &impl Abort, alloc: Global, of: &[u8]) -> Octets
    ensures { result ≡ of.now }
{
    Octets(Vec::from_slice(alloc, of).expect(rt, "memory"))
}

fn header(rt: &impl Abort, alloc: Global) -> Domain
    ensures form { InForm result }
    ensures suite { result.akm ≢ AnyAkm.FtPsk }
    ensures no_aps { result.aps ≡ [] }
    ensures no_stas { result.stas ≡ [] }
{
    Domain {
        seed: KdfKey::new(&[1; 32]),
        ssid: octets(rt, alloc, b"net"),
        akm: Akm::Psk,
        mdid: [0, 0],
        extras: Extras {
            version: Version::One,
            renew_at: None,
            mfp: false,
        },
        aps: Aps(Vec::new(alloc)),
        stas: Stas::new(alloc),
    }
}

// One access point and one station.
fn two_nodes(rt: &impl Abort, alloc: Global, journal: &mut Journal) -> World
    requires { journal.old.entries ≡ [] }
    ensures { Owns result journal.new.entries }
{
    let header = header(rt, alloc);
    let mut nodes = World::start(alloc, &header).expect(rt, "memory");
    let r0kh_id = octets(rt, alloc, b"r0");
    nodes
        .add_ap(Mac([2, 0, 0, 0, 0, 1]), r0kh_id, journal)
        .expect(rt, "memory");
    nodes
        .add_station(Mac([2, 0, 0, 0, 0, 2]), [2; 32])
        .expect(rt, "memory");
    nodes
}

fn is_listed(domain: &Domain, node: Node) -> bool
    ensures { IsTrue result → IsListed domain.now node }
{
    match node {
        Node::Ap(number) => usize::from(number) < domain.aps.0.len(),
        Node::Sta(number) => usize::from(number) < domain.stas.len(),
    }
}

// The station asks the access point for an association, behind a round without events.
fn connect<R: Abort + Threads + Sync>(rt: &R, nodes: &mut World, journal: &mut Journal)
    requires { Owns nodes.old journal.old.entries }
    ensures { Owns nodes.new journal.new.entries }
{
    assert!(rt; nodes.rounds() < 1000);
    nodes.round(rt, &[], journal).expect(rt, "memory");
    let domain = nodes.domain();
    assert!(rt; is_listed(domain, Node::Sta(0)) && is_listed(domain, Node::Ap(0)));
    nodes
        .event(&Event::Connect { sta: 0, ap: 0 }, journal)
        .expect(rt, "memory");
}

// There were two rounds, and one frame was sent, which is the one that the journal tells at its end.
fn has_asked(nodes: &World, journal: &Journal) -> bool
    requires { Owns nodes.now journal.now.entries }
{
    if nodes.frames() != 1 || nodes.rounds() != 2 || !nodes.usable() {
        return false;
    }
    match journal.entries().last() {
        Some(entry) => match &entry.act {
            Act::Sent { octets, .. } => {
                entry.number == 1 && octets.as_slice() == nodes.frame(1, journal)
            }
            _ => false,
        },
        None => false,
    }
}

#[test]
fn rounds_and_frames_of_a_world(rt: HostRuntime) {
    let mut journal = Journal::new(rt.alloc());
    let mut nodes = two_nodes(&rt, rt.alloc(), &mut journal);
    connect(&rt, &mut nodes, &mut journal);
    assert!(rt; has_asked(&nodes, &journal));
}
