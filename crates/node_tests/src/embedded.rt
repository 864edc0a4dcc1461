//! A station and an access point, each with the network as it knows it: the same octets as of nodes
//! of a whole network, and what they do not take.

use crate::access_point::SUITE_2 as AP_STEPS;
use crate::management_protection::{
    AP_STEPS as PROTECTING_AP_STEPS, STATION_STEPS as PROTECTED_STATION_STEPS,
};
use crate::network::{protecting, version_1};
use crate::station::SUITE_2 as STATION_STEPS;
use crate::steps::{Event, Step, comes};
use crate::vectors::{PSK, SEED};
use domain_base::{Akm, Mac, Node, Peer, Tid};
use embedded_node::{EmbeddedAp, EmbeddedStation, Header, Untaken};
use node_base::NodeEvent;
use run_journal::{Domain, Extras, Outcome};
use std::alloc::Global;
use std::process::Abort;

const A1: Mac = Mac([2, 0, 0, 0, 0, 1]);

const A2: Mac = Mac([2, 0, 0, 0, 0, 2]);

const S1: Mac = Mac([2, 0, 0, 0, 0, 0x11]);

const NEW_PSK: [u8; 32] = [0x5a; 32];

fn header(akm: Akm, extras: Extras) -> Header<'static> {
    Header {
        seed: &SEED,
        ssid: b"IEEE",
        akm,
        mdid: [0xa1, 0xb2],
        extras,
    }
}

// The first station of the network has that key.
fn is_keyed(domain: &Domain, psk: &[u8; 32]) -> bool {
    match domain.stas.as_slice().first() {
        Some(sta) => sta.psk == *psk,
        None => false,
    }
}

// That came of an event.
fn is_outcome(came: Result<Outcome, Untaken>, wanted: Outcome) -> bool {
    match came {
        Ok(outcome) => outcome == wanted,
        Err(_) => false,
    }
}

// The station's outcome and acts are those of the step.
fn station_steps(alloc: Global, node: &mut EmbeddedStation, step: &Step) -> bool {
    let event = match step.event {
        Event::Connect(ap) => NodeEvent::Connect(ap),
        Event::Take(octets) => NodeEvent::Take(octets),
        Event::SendPlain(payload) => NodeEvent::Send(Peer::One(Node::Ap(0)), None, payload),
        _ => return false,
    };
    if !is_outcome(node.event(alloc, &event), step.outcome) {
        return false;
    }
    for frame in step.acts {
        if !comes(node.next(), *frame) {
            return false;
        }
    }
    !comes(node.next(), None)
}

// The access point's are.
fn ap_steps(alloc: Global, node: &mut EmbeddedAp, step: &Step) -> bool {
    let event = match step.event {
        Event::Take(octets) => NodeEvent::Take(octets),
        Event::Rekey => NodeEvent::Rekey,
        Event::Send(sta, tid, payload) => {
            NodeEvent::Send(Peer::One(Node::Sta(sta)), Tid::new(tid), payload)
        }
        Event::SendPlain(payload) => NodeEvent::Send(Peer::All, None, payload),
        Event::Announce(payload) => NodeEvent::Announce(payload),
        _ => return false,
    };
    if !is_outcome(node.event(alloc, &event), step.outcome) {
        return false;
    }
    for frame in step.acts {
        if !comes(node.next(), *frame) {
            return false;
        }
    }
    !comes(node.next(), None)
}

#[test]
fn a_station_that_lists_what_it_finds(rt: HostRuntime) {
    let alloc = rt.alloc();
    let header = header(Akm::Psk, version_1());
    let mut node = EmbeddedStation::start(alloc, &header, S1, &PSK, 0).expect(&rt, "it starts");
    assert!(rt;
        node.event(alloc, &NodeEvent::Connect(0)).is_err(),
        "none is listed"
    );
    assert!(rt; node.list_ap(alloc, A1, b"r0kh-1").is_ok(), "one is listed");
    assert!(rt;
        node.list_ap(alloc, A1, b"r0kh-2").is_err(),
        "it is listed once"
    );
    for step in STATION_STEPS {
        assert!(rt; station_steps(alloc, &mut node, step), "{}", step.shows);
    }
    assert!(rt;
        node.event(alloc, &NodeEvent::Secret(Some(1), &NEW_PSK))
            .is_err(),
        "the key is another's"
    );
    assert!(rt;
        is_outcome(
            node.event(alloc, &NodeEvent::Secret(None, &NEW_PSK)),
            Outcome::Done
        ) && is_keyed(node.domain(), &NEW_PSK),
        "its key is changed"
    );
}

#[test]
fn an_access_point_that_lists_what_it_finds(rt: HostRuntime) {
    let alloc = rt.alloc();
    let header = header(Akm::Psk, version_1());
    let mut node = EmbeddedAp::start(alloc, &header, A1, b"r0kh-1", 0).expect(&rt, "it starts");
    assert!(rt;
        comes(node.next(), None) && comes(node.next(), None),
        "it has a group key"
    );
    assert!(rt;
        node.event(alloc, &NodeEvent::Retry(0)).is_err(),
        "no station is listed"
    );
    assert!(rt; node.list_station(S1, &PSK).is_ok(), "one is listed");
    assert!(rt;
        node.list_station(A1, &PSK).is_err(),
        "its address is another's"
    );
    for step in AP_STEPS {
        assert!(rt; ap_steps(alloc, &mut node, step), "{}", step.shows);
    }
    assert!(rt;
        node.event(alloc, &NodeEvent::Renew(0)).is_err(),
        "the network renews no keys"
    );
    assert!(rt;
        node.event(alloc, &NodeEvent::Announce(b"\x01")).is_err(),
        "the network protects no management frames"
    );
    assert!(rt;
        node.event(alloc, &NodeEvent::Secret(Some(1), &NEW_PSK))
            .is_err(),
        "no such station is listed"
    );
    assert!(rt;
        is_outcome(
            node.event(alloc, &NodeEvent::Secret(Some(0), &NEW_PSK)),
            Outcome::Done
        ) && is_keyed(node.domain(), &NEW_PSK),
        "the key of its station is changed"
    );
}

#[test]
fn a_station_that_protects_management_frames(rt: HostRuntime) {
    let alloc = rt.alloc();
    let header = header(Akm::PskSha256, protecting());
    let mut node = EmbeddedStation::start(alloc, &header, S1, &PSK, 0).expect(&rt, "it starts");
    assert!(rt; node.list_ap(alloc, A1, b"r0kh-1").is_ok(), "one is listed");
    assert!(rt;
        node.list_ap(alloc, A2, b"r0kh-2").is_ok(),
        "another is listed"
    );
    for step in PROTECTED_STATION_STEPS {
        assert!(rt; station_steps(alloc, &mut node, step), "{}", step.shows);
    }
}

#[test]
fn an_access_point_that_protects_management_frames(rt: HostRuntime) {
    let alloc = rt.alloc();
    let header = header(Akm::PskSha256, protecting());
    let mut node = EmbeddedAp::start(alloc, &header, A1, b"r0kh-1", 0).expect(&rt, "it starts");
    assert!(rt;
        comes(node.next(), None)
            && comes(node.next(), None)
            && comes(node.next(), None)
            && comes(node.next(), None),
        "it has two group keys"
    );
    assert!(rt; node.list_station(S1, &PSK).is_ok(), "one is listed");
    for step in PROTECTING_AP_STEPS {
        assert!(rt; ap_steps(alloc, &mut node, step), "{}", step.shows);
    }
}
