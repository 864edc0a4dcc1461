//! Forms of the outside in memory that other tests do not use, and names, with what no clause of
//! them says: that calls succeed, and what is printed.

use crate::adapters::gives;
use domain_base::{
    Air, Incoming, Link, LinkError, MemLink, Node, Octets, Peer, Sink, Source, SteadyAir,
    SteadySink, SteadySource,
};
use std::alloc::Global;
use std::process::Abort;

static PRINTED: [(Peer, &str); 3] = [
    (Peer::One(Node::Sta(63)), "s64"),
    (Peer::One(Node::Ap(65535)), "a65536"),
    (Peer::All, "all"),
];

fn check_printed(rt: &impl Abort, alloc: Global, peer: Peer, text: &str) {
    let printed = format!(in alloc; "{peer}").expect(rt, "memory");
    assert!(rt; printed.as_str() == text);
}

#[test]
fn nodes_print_from_one(rt: HostRuntime) {
    for (peer, text) in &PRINTED {
        check_printed(&rt, rt.alloc(), *peer, text);
    }
}

// Four octets go from the source to the sink, which keeps two.
fn goes_through(source: &mut SteadySource, sink: &mut SteadySink) -> bool {
    let mut buf = [0; 4];
    (source.read(&mut buf) == Ok(4) && sink.write(&buf) == Ok(4)) && sink.kept() == b"oc".as_slice()
}

#[test]
fn octets_go_from_a_source_to_a_sink(rt: HostRuntime) {
    let octets = b"octets".to_vec(rt.alloc()).expect(&rt, "memory");
    let mut source = SteadySource::new(octets);
    let mut sink = SteadySink::with_room(rt.alloc(), 2).expect(&rt, "memory");
    assert!(rt; goes_through(&mut source, &mut sink));
}

// An air with a frame for the first access point.
fn air_of_one(rt: &impl Abort, alloc: Global) -> SteadyAir {
    let mut frames = Vec::new(alloc);
    let frame = Octets(b"one".to_vec(alloc).expect(rt, "memory"));
    frames.push(frame).expect(rt, "memory");
    let mut incoming = Vec::new(alloc);
    incoming
        .push(Incoming::new(Node::Ap(0), frames))
        .expect(rt, "memory");
    SteadyAir::new(alloc, incoming).expect(rt, "memory")
}

#[test]
fn a_link_gives_and_keeps_frames(rt: HostRuntime) {
    let mut air = air_of_one(&rt, rt.alloc());
    let mut link = air.attach(Node::Ap(0)).expect(&rt, "a link");
    let is_right = gives(&mut link, Some(b"one"))
        && link.send(Node::Sta(2), b"reply").is_ok()
        && link.sent().len() == 1
        && link.left().is_empty();
    air.take_back(link);
    assert!(rt; is_right && air.tells() && air.returned().len() == 1);
}

// A send fails, and the next one is kept.
fn fails_once(link: &mut MemLink) -> bool {
    matches!(link.send(Node::Sta(2), b"lost"), Err(LinkError::Failed))
        && link.send(Node::Sta(2), b"reply").is_ok()
        && link.sent().len() == 1
        && link.left().is_empty()
}

#[test]
fn a_link_fails_where_it_was_told(rt: HostRuntime) {
    let failing = [0].to_vec(rt.alloc()).expect(&rt, "memory");
    let mut link = MemLink::new(rt.alloc(), Node::Ap(0), Vec::new(rt.alloc()), failing);
    assert!(rt; fails_once(&mut link));
}
