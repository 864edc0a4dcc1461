//! The station S1, event by event: frames octet by octet, and what no script comes to.

ghost use Rattle.std.specs.Prelude.{◌≡◌, length};
ghost use Rattle.domain_rules.specs.Network.{InForm};

use crate::air_frames::{
    G1_3, G1_3_OF_SUITE_6, G1_4_WITH_WRONG_MIC, G2_3, G2_3_OF_SUITE_6, LAST_M3_2, M1_1,
    M1_1_OF_SUITE_6, M1_3, M2_1, M2_1_OF_SUITE_6, M2_3, M3_2, M3_2_OF_SUITE_6, M4_2,
    M4_2_OF_SUITE_6, REQUEST, REQUEST_OF_SUITE_6, RESPONSE,
};
use crate::mobility_vectors as ft;
use crate::network::{network, version_1, version_2};
use crate::protected_frames::{ALL_1, ALL_OF_A2, DOWN_3, NEXT_ALL_1, UP_0};
use crate::steps::{Event, Step, come, is_outcome};
use crate::transition_frames::{FT_REQ, FT_RESP, RE_REQ, RE_RESP};
use crate::vectors::LAST;
use act_memory::Outbox;
use domain_base::{Akm, Node, Peer};
use node_base::NodeEvent;
use run_journal::{Domain, Extras, Outcome, Reason, Why};
use station_node::StationNode;
use std::alloc::Global;
use std::process::Abort;

// The outcome and the acts of the event are those of the step. No event of an access point comes to
// a station.
fn steps(
    alloc: Global,
    domain: &Domain,
    node: &mut StationNode,
    out: &mut Outbox,
    step: &Step,
) -> bool
    requires form { InForm domain.now }
    requires aps { length domain.now.aps ≡ 2 }
    requires stas { length domain.now.stas ≡ 2 }
    requires node { node.old.number ≡ 0 }
    ensures { node.new.number ≡ 0 }
{
    let event = match step.event {
        Event::Connect(ap) => NodeEvent::Connect(ap % 2),
        Event::Roam(ap) if domain.akm == Akm::FtPsk => NodeEvent::Roam(ap % 2),
        Event::Take(octets) => NodeEvent::Take(octets),
        Event::SendPlain(payload) if payload.len() <= 2304 => {
            NodeEvent::Send(Peer::One(Node::Ap(0)), None, payload)
        }
        _ => return false,
    };
    is_outcome(node.step(alloc, domain, event, out), step.outcome) && come(out, step.acts)
}

// The station takes these steps.
fn follow(
    rt: &impl Abort,
    alloc: Global,
    domain: &Domain,
    node: &mut StationNode,
    scenario: &[Step],
)
    requires form { InForm domain.now }
    requires aps { length domain.now.aps ≡ 2 }
    requires stas { length domain.now.stas ≡ 2 }
    requires node { node.old.number ≡ 0 }
{
    let mut out = Outbox::new(alloc);
    for step in scenario {
        assert!(rt;
            steps(alloc, domain, node, &mut out, step),
            "{}",
            step.shows
        );
    }
}

/// With that suite, by those rules, and from that draw on.
pub fn try_scenario(
    rt: &impl Abort,
    alloc: Global,
    akm: Akm,
    extras: Extras,
    first: u64,
    scenario: &[Step],
) {
    let domain = network(rt, alloc, akm, extras);
    let mut node = StationNode::start(alloc, 0, first.min(LAST));
    follow(rt, alloc, &domain, &mut node, scenario);
}

pub const SUITE_2: &[Step] = &[
    Step {
        shows: "connect",
        event: Event::Connect(0),
        outcome: Outcome::Done,
        acts: &[None, None, Some(REQUEST)],
    },
    Step {
        shows: "the response",
        event: Event::Take(RESPONSE),
        outcome: Outcome::Accepted,
        acts: &[None],
    },
    Step {
        shows: "M1",
        event: Event::Take(M1_1),
        outcome: Outcome::Accepted,
        acts: &[None, None, Some(M2_1)],
    },
    Step {
        shows: "M3",
        event: Event::Take(M3_2),
        outcome: Outcome::Accepted,
        acts: &[None, None, None, None, Some(M4_2)],
    },
    Step {
        shows: "a payload to all",
        event: Event::Take(ALL_1),
        outcome: Outcome::Accepted,
        acts: &[None, None],
    },
    Step {
        shows: "a payload of the station",
        event: Event::SendPlain(b"plain"),
        outcome: Outcome::Done,
        acts: &[None, Some(UP_0)],
    },
    Step {
        shows: "a payload for the station",
        event: Event::Take(DOWN_3),
        outcome: Outcome::Accepted,
        acts: &[None, None],
    },
    Step {
        shows: "G1 with a wrong MIC",
        event: Event::Take(G1_4_WITH_WRONG_MIC),
        outcome: Outcome::Refused(Reason::Mic),
        acts: &[None],
    },
    Step {
        shows: "G1",
        event: Event::Take(G1_3),
        outcome: Outcome::Accepted,
        acts: &[None, None, Some(G2_3)],
    },
    Step {
        shows: "a payload to all under the new group key",
        event: Event::Take(NEXT_ALL_1),
        outcome: Outcome::Accepted,
        acts: &[None, None],
    },
];

#[test]
fn a_station_of_suite_2(rt: HostRuntime) {
    try_scenario(&rt, rt.alloc(), Akm::Psk, version_1(), 0, SUITE_2);
}

const SUITE_6: &[Step] = &[
    Step {
        shows: "connect",
        event: Event::Connect(0),
        outcome: Outcome::Done,
        acts: &[None, None, Some(REQUEST_OF_SUITE_6)],
    },
    Step {
        shows: "the response",
        event: Event::Take(RESPONSE),
        outcome: Outcome::Accepted,
        acts: &[None],
    },
    Step {
        shows: "M1",
        event: Event::Take(M1_1_OF_SUITE_6),
        outcome: Outcome::Accepted,
        acts: &[None, None, Some(M2_1_OF_SUITE_6)],
    },
    Step {
        shows: "M3",
        event: Event::Take(M3_2_OF_SUITE_6),
        outcome: Outcome::Accepted,
        acts: &[None, None, None, None, Some(M4_2_OF_SUITE_6)],
    },
    Step {
        shows: "G1",
        event: Event::Take(G1_3_OF_SUITE_6),
        outcome: Outcome::Accepted,
        acts: &[None, None, Some(G2_3_OF_SUITE_6)],
    },
];

#[test]
fn a_station_of_suite_6(rt: HostRuntime) {
    try_scenario(&rt, rt.alloc(), Akm::PskSha256, version_1(), 0, SUITE_6);
}

// An association, and a fast transition to the second access point.
const SUITE_4: &[Step] = &[
    Step {
        shows: "connect",
        event: Event::Connect(0),
        outcome: Outcome::Done,
        acts: &[None, None, Some(ft::REQUEST)],
    },
    Step {
        shows: "the response",
        event: Event::Take(ft::RESPONSE),
        outcome: Outcome::Accepted,
        acts: &[None],
    },
    Step {
        shows: "M1",
        event: Event::Take(ft::M1),
        outcome: Outcome::Accepted,
        acts: &[None, None, Some(ft::M2)],
    },
    Step {
        shows: "M3",
        event: Event::Take(ft::M3),
        outcome: Outcome::Accepted,
        acts: &[None, None, None, None, Some(ft::M4)],
    },
    Step {
        shows: "roams",
        event: Event::Roam(1),
        outcome: Outcome::Done,
        acts: &[None, None, Some(FT_REQ)],
    },
    Step {
        shows: "the authentication response",
        event: Event::Take(FT_RESP),
        outcome: Outcome::Accepted,
        acts: &[None, None, Some(RE_REQ)],
    },
    Step {
        shows: "the reassociation response",
        event: Event::Take(RE_RESP),
        outcome: Outcome::Accepted,
        acts: &[None, None, None, None, None],
    },
    Step {
        shows: "a payload to all of the second access point",
        event: Event::Take(ALL_OF_A2),
        outcome: Outcome::Accepted,
        acts: &[None, None],
    },
    Step {
        shows: "G1, whose counter is the first in this session",
        event: Event::Take(ft::G1),
        outcome: Outcome::Accepted,
        acts: &[None, None, Some(ft::G2)],
    },
];

#[test]
fn a_station_of_suite_4(rt: HostRuntime) {
    try_scenario(&rt, rt.alloc(), Akm::FtPsk, version_1(), 0, SUITE_4);
}

// The last draw is spent on the association.
const SPENT: &[Step] = &[
    Step {
        shows: "connect",
        event: Event::Connect(0),
        outcome: Outcome::Done,
        acts: &[None, None, None],
    },
    Step {
        shows: "the response",
        event: Event::Take(ft::RESPONSE),
        outcome: Outcome::Accepted,
        acts: &[None],
    },
    Step {
        shows: "M1",
        event: Event::Take(ft::M1),
        outcome: Outcome::Accepted,
        acts: &[None, None, None],
    },
    Step {
        shows: "M3",
        event: Event::Take(ft::LAST_M3),
        outcome: Outcome::Accepted,
        acts: &[None, None, None, None, None],
    },
    Step {
        shows: "no fast transition at the end of draws",
        event: Event::Roam(1),
        outcome: Outcome::Idle(Why::Spent),
        acts: &[None],
    },
    Step {
        shows: "no association at the end of draws",
        event: Event::Connect(1),
        outcome: Outcome::Idle(Why::Spent),
        acts: &[None],
    },
];

#[test]
fn the_end_of_draws_of_a_station(rt: HostRuntime) {
    try_scenario(&rt, rt.alloc(), Akm::FtPsk, version_1(), LAST, SPENT);
}

// An association, and a renewal of its key.
const RENEWED: &[Step] = &[
    Step {
        shows: "connect",
        event: Event::Connect(0),
        outcome: Outcome::Done,
        acts: &[None, None, None],
    },
    Step {
        shows: "the response",
        event: Event::Take(RESPONSE),
        outcome: Outcome::Accepted,
        acts: &[None],
    },
    Step {
        shows: "M1",
        event: Event::Take(M1_1),
        outcome: Outcome::Accepted,
        acts: &[None, None, None],
    },
    Step {
        shows: "M3",
        event: Event::Take(M3_2),
        outcome: Outcome::Accepted,
        acts: &[None, None, None, None, None],
    },
    Step {
        shows: "M1 in the session, and M2 with the Secure bit",
        event: Event::Take(M1_3),
        outcome: Outcome::Accepted,
        acts: &[None, None, None, None, Some(M2_3)],
    },
];

// And where the nonce of the association was the last draw.
const NOT_RENEWED: &[Step] = &[
    Step {
        shows: "connect",
        event: Event::Connect(0),
        outcome: Outcome::Done,
        acts: &[None, None, None],
    },
    Step {
        shows: "the response",
        event: Event::Take(RESPONSE),
        outcome: Outcome::Accepted,
        acts: &[None],
    },
    Step {
        shows: "M1",
        event: Event::Take(M1_1),
        outcome: Outcome::Accepted,
        acts: &[None, None, None],
    },
    Step {
        shows: "M3",
        event: Event::Take(LAST_M3_2),
        outcome: Outcome::Accepted,
        acts: &[None, None, None, None, None],
    },
    Step {
        shows: "M1 with the counter of the association",
        event: Event::Take(M1_1),
        outcome: Outcome::Refused(Reason::Counter(2)),
        acts: &[None],
    },
    Step {
        shows: "no M2 at the end of draws",
        event: Event::Take(M1_3),
        outcome: Outcome::Refused(Reason::Spent),
        acts: &[None],
    },
];

#[test]
fn a_key_that_is_renewed(rt: HostRuntime) {
    try_scenario(&rt, rt.alloc(), Akm::Psk, version_2(), 0, RENEWED);
    try_scenario(&rt, rt.alloc(), Akm::Psk, version_2(), LAST, NOT_RENEWED);
}
