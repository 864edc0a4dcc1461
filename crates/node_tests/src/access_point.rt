//! Access points, event by event: frames octet by octet, and what no script comes to.

ghost use Rattle.std.specs.Prelude.{◌≡◌, ◌<◌, IsTrue, length};
ghost use Rattle.domain_rules.specs.Network.{InForm, draw_end};
ghost use Rattle.domain_rules.specs.AccessPointRows.{last_draw};
ghost use Rattle.ft_exchange.specs.Asking.{ids_of};

use crate::air_frames::{
    G1_3, G1_3_OF_SUITE_6, G2_2, G2_3, G2_3_OF_SUITE_6, G2_3_WITH_WRONG_MIC, LAST_M2_1, LAST_M4_2,
    M1_1, M1_1_OF_SUITE_6, M1_3, M2_1, M2_1_OF_SUITE_6, M2_1_WITH_CUT_RSNE, M2_3, M3_2_OF_SUITE_6,
    M3_2_WITH_RSC_1, M4_2, M4_2_OF_SUITE_6, OTHER_G1_3, OTHER_G2_3, OTHER_M2_1, OTHER_M4_2,
    REQUEST, REQUEST_OF_S2, REQUEST_OF_SUITE_6, RESPONSE,
};
use crate::mobility_vectors as ft;
use crate::network::{holders, network, renewed_at_1, version_1};
use crate::protected_frames::{ALL_1, ALL_OF_A2, DOWN_3, NEXT_ALL_1, UP_0, UP_5};
use crate::steps::{Event, Step, come, is_outcome};
use crate::transition_frames::{FT_REQ, FT_RESP, RE_REQ, RE_RESP};
use crate::vectors::{LAST, LAST_BUT_ONE};
use act_memory::Outbox;
use ap_node::ApNode;
use domain_base::{Akm, Node, Peer, Tid};
use key_holders::ListHolders;
use node_base::{NodeEvent, renews};
use run_journal::{Domain, Extras, KeyDataFault, Outcome, Reason, Why};
use std::alloc::Global;
use std::process::Abort;

// The outcome and the acts of the event are those of the step. No event of a station comes to an
// access point.
#[tactic(auto, using(key_holders::proofs::Listing::below_in))]
fn steps(
    alloc: Global,
    domain: &Domain,
    node: &mut ApNode,
    holders: &mut ListHolders,
    out: &mut Outbox,
    step: &Step,
) -> bool
    requires form { InForm domain.now }
    requires aps { length domain.now.aps ≡ 2 }
    requires stas { length domain.now.stas ≡ 2 }
    requires node { node.old.number < 2 }
    requires ids { holders.old.ids ≡ ids_of domain.now }
    ensures node { node.new.number ≡ node.old.number }
    ensures ids { holders.new.ids ≡ ids_of domain.now }
{
    let event = match step.event {
        Event::Take(octets) => NodeEvent::Take(octets),
        Event::Rekey => NodeEvent::Rekey,
        Event::Renew(station) if renews(domain) => NodeEvent::Renew(station % 2),
        Event::Send(station, tid, payload) if tid < 16 && payload.len() <= 2304 => {
            NodeEvent::Send(Peer::One(Node::Sta(station % 2)), Tid::new(tid), payload)
        }
        Event::SendPlain(payload) if payload.len() <= 2304 => {
            NodeEvent::Send(Peer::All, None, payload)
        }
        Event::Announce(payload) if domain.extras.mfp && payload.len() <= 2304 => {
            NodeEvent::Announce(payload)
        }
        _ => return false,
    };
    is_outcome(node.step(alloc, domain, event, holders, out), step.outcome) && come(out, step.acts)
}

// The access point takes these steps.
fn follow(
    rt: &impl Abort,
    alloc: Global,
    domain: &Domain,
    node: &mut ApNode,
    holders: &mut ListHolders,
    scenario: &[Step],
)
    requires form { InForm domain.now }
    requires aps { length domain.now.aps ≡ 2 }
    requires stas { length domain.now.stas ≡ 2 }
    requires node { node.old.number < 2 }
    requires ids { holders.old.ids ≡ ids_of domain.now }
    ensures ids { holders.new.ids ≡ ids_of domain.now }
{
    let mut out = Outbox::new(alloc);
    for step in scenario {
        assert!(rt;
            steps(alloc, domain, node, holders, &mut out, step),
            "{}",
            step.shows
        );
    }
}

/// An access point: its number, the number from which it draws, and its steps.
pub type Starting = (u16, u64, &'static [Step]);

// It may start with that draw: its last group key at the start is no later than the last draw.
fn may_start(domain: &Domain, first: u64) -> bool
    ensures { IsTrue result → last_draw domain.now first < draw_end }
{
    if domain.extras.mfp {
        first < LAST
    } else {
        first <= LAST
    }
}

// What it does as it starts.
fn starting_acts(domain: &Domain) -> &'static [Option<&'static [u8]>] {
    if domain.extras.mfp {
        &[None, None, None, None]
    } else {
        &[None, None]
    }
}

// It starts so: its group keys are drawn and come into use.
fn started(rt: &impl Abort, alloc: Global, domain: &Domain, number: u16, first: u64) -> ApNode
    requires form { InForm domain.now }
    requires aps { length domain.now.aps ≡ 2 }
    requires stas { length domain.now.stas ≡ 2 }
    ensures { result.number < 2 }
{
    assert!(rt; number < 2 && may_start(domain, first));
    let mut out = Outbox::new(alloc);
    let node = ApNode::start(alloc, domain, number, first, &mut out).expect(rt, "memory");
    assert!(rt; come(&mut out, starting_acts(domain)));
    node
}

// It starts so and takes its steps.
fn start_and_follow(
    rt: &impl Abort,
    alloc: Global,
    domain: &Domain,
    holders: &mut ListHolders,
    node: &Starting,
)
    requires form { InForm domain.now }
    requires aps { length domain.now.aps ≡ 2 }
    requires stas { length domain.now.stas ≡ 2 }
    requires ids { holders.old.ids ≡ ids_of domain.now }
    ensures ids { holders.new.ids ≡ ids_of domain.now }
{
    let (number, first, steps) = *node;
    let mut node = started(rt, alloc, domain, number, first);
    follow(rt, alloc, domain, &mut node, holders, steps);
}

/// These access points take their steps in turn, with the key holders of the network.
pub fn try_scenario(rt: &impl Abort, alloc: Global, akm: Akm, extras: Extras, nodes: &[Starting]) {
    let domain = network(rt, alloc, akm, extras);
    let mut holders = holders(rt, alloc, &domain);
    for node in nodes {
        start_and_follow(rt, alloc, &domain, &mut holders, node);
    }
}

pub const SUITE_2: &[Step] = &[
    Step {
        shows: "to all, with no session at all",
        event: Event::SendPlain(b"all"),
        outcome: Outcome::Done,
        acts: &[None, Some(ALL_1)],
    },
    Step {
        shows: "a request",
        event: Event::Take(REQUEST),
        outcome: Outcome::Accepted,
        acts: &[None, None, None, Some(RESPONSE), Some(M1_1)],
    },
    Step {
        shows: "M2 with a cut RSNE",
        event: Event::Take(M2_1_WITH_CUT_RSNE),
        outcome: Outcome::Refused(Reason::KeyData(KeyDataFault::Unreadable)),
        acts: &[None],
    },
    Step {
        shows: "M2, and M3 tells of the number that was used",
        event: Event::Take(M2_1),
        outcome: Outcome::Accepted,
        acts: &[None, None, Some(M3_2_WITH_RSC_1)],
    },
    Step {
        shows: "M4",
        event: Event::Take(M4_2),
        outcome: Outcome::Accepted,
        acts: &[None, None, None],
    },
    Step {
        shows: "to the station, with a TID",
        event: Event::Send(0, 3, b"down"),
        outcome: Outcome::Done,
        acts: &[None, Some(DOWN_3)],
    },
    Step {
        shows: "of the station, with a TID",
        event: Event::Take(UP_5),
        outcome: Outcome::Accepted,
        acts: &[None, None],
    },
    Step {
        shows: "the same number without a TID",
        event: Event::Take(UP_0),
        outcome: Outcome::Accepted,
        acts: &[None, None],
    },
    Step {
        shows: "a new group key",
        event: Event::Rekey,
        outcome: Outcome::Done,
        acts: &[None, Some(G1_3)],
    },
    Step {
        shows: "G2 with the counter of M3",
        event: Event::Take(G2_2),
        outcome: Outcome::Refused(Reason::Counter(3)),
        acts: &[None],
    },
    Step {
        shows: "G2 with a wrong MIC",
        event: Event::Take(G2_3_WITH_WRONG_MIC),
        outcome: Outcome::Refused(Reason::Mic),
        acts: &[None],
    },
    Step {
        shows: "G2",
        event: Event::Take(G2_3),
        outcome: Outcome::Accepted,
        acts: &[None, None],
    },
    Step {
        shows: "to all, under the new key",
        event: Event::SendPlain(b"turned"),
        outcome: Outcome::Done,
        acts: &[None, Some(NEXT_ALL_1)],
    },
];

#[test]
fn an_access_point_of_suite_2(rt: HostRuntime) {
    try_scenario(&rt, rt.alloc(), Akm::Psk, version_1(), &[(0, 0, SUITE_2)]);
}

const SUITE_6: &[Step] = &[
    Step {
        shows: "a request",
        event: Event::Take(REQUEST_OF_SUITE_6),
        outcome: Outcome::Accepted,
        acts: &[None, None, None, Some(RESPONSE), Some(M1_1_OF_SUITE_6)],
    },
    Step {
        shows: "M2",
        event: Event::Take(M2_1_OF_SUITE_6),
        outcome: Outcome::Accepted,
        acts: &[None, None, Some(M3_2_OF_SUITE_6)],
    },
    Step {
        shows: "M4",
        event: Event::Take(M4_2_OF_SUITE_6),
        outcome: Outcome::Accepted,
        acts: &[None, None, None],
    },
    Step {
        shows: "a new group key",
        event: Event::Rekey,
        outcome: Outcome::Done,
        acts: &[None, Some(G1_3_OF_SUITE_6)],
    },
    Step {
        shows: "G2",
        event: Event::Take(G2_3_OF_SUITE_6),
        outcome: Outcome::Accepted,
        acts: &[None, None],
    },
];

#[test]
fn an_access_point_of_suite_6(rt: HostRuntime) {
    try_scenario(
        &rt,
        rt.alloc(),
        Akm::PskSha256,
        version_1(),
        &[(0, 0, SUITE_6)],
    );
}

// The first access point: an association, behind which its key holder is given the row.
const ASSOCIATED: &[Step] = &[
    Step {
        shows: "the association request",
        event: Event::Take(ft::REQUEST),
        outcome: Outcome::Accepted,
        acts: &[None, None, None, Some(ft::RESPONSE), Some(ft::M1)],
    },
    Step {
        shows: "M2",
        event: Event::Take(ft::M2),
        outcome: Outcome::Accepted,
        acts: &[None, None, Some(ft::M3)],
    },
    Step {
        shows: "M4",
        event: Event::Take(ft::M4),
        outcome: Outcome::Accepted,
        acts: &[None, None, None, None],
    },
];

// The second one: a fast transition.
const TAKEN: &[Step] = &[
    Step {
        shows: "the authentication request",
        event: Event::Take(FT_REQ),
        outcome: Outcome::Accepted,
        acts: &[None, None, None, None, None, Some(FT_RESP)],
    },
    Step {
        shows: "the reassociation request",
        event: Event::Take(RE_REQ),
        outcome: Outcome::Accepted,
        acts: &[None, None, None, Some(RE_RESP)],
    },
    Step {
        shows: "to all",
        event: Event::SendPlain(b"moved"),
        outcome: Outcome::Done,
        acts: &[None, Some(ALL_OF_A2)],
    },
];

// And where its group key was the last draw.
const SPENT_BY_THEN: &[Step] = &[Step {
    shows: "an authentication request at the end of draws",
    event: Event::Take(FT_REQ),
    outcome: Outcome::Refused(Reason::Spent),
    acts: &[None, None],
}];

#[test]
fn access_points_of_suite_4(rt: HostRuntime) {
    try_scenario(
        &rt,
        rt.alloc(),
        Akm::FtPsk,
        version_1(),
        &[(0, 0, ASSOCIATED), (1, 0, TAKEN), (1, LAST, SPENT_BY_THEN)],
    );
}

// The group key was the last draw.
const SPENT: &[Step] = &[
    Step {
        shows: "a request at the end of draws",
        event: Event::Take(REQUEST),
        outcome: Outcome::Refused(Reason::Spent),
        acts: &[None],
    },
    Step {
        shows: "no new group key at the end of draws",
        event: Event::Rekey,
        outcome: Outcome::Idle(Why::Spent),
        acts: &[None],
    },
];

// A new group key comes between M3 and M4 of the second station.
const OLDER: &[Step] = &[
    Step {
        shows: "a request",
        event: Event::Take(REQUEST),
        outcome: Outcome::Accepted,
        acts: &[None, None, None, None, None],
    },
    Step {
        shows: "M2",
        event: Event::Take(M2_1),
        outcome: Outcome::Accepted,
        acts: &[None, None, None],
    },
    Step {
        shows: "M4",
        event: Event::Take(M4_2),
        outcome: Outcome::Accepted,
        acts: &[None, None, None],
    },
    Step {
        shows: "a request of another station",
        event: Event::Take(REQUEST_OF_S2),
        outcome: Outcome::Accepted,
        acts: &[None, None, None, None, None],
    },
    Step {
        shows: "M2 of the other station",
        event: Event::Take(OTHER_M2_1),
        outcome: Outcome::Accepted,
        acts: &[None, None, None],
    },
    Step {
        shows: "a new group key for the one session",
        event: Event::Rekey,
        outcome: Outcome::Done,
        acts: &[None, None],
    },
    Step {
        shows: "M4 for the older group key is followed by G1",
        event: Event::Take(OTHER_M4_2),
        outcome: Outcome::Accepted,
        acts: &[None, None, None, Some(OTHER_G1_3)],
    },
    Step {
        shows: "the one answers, and nothing else is done",
        event: Event::Take(G2_3),
        outcome: Outcome::Accepted,
        acts: &[None],
    },
    Step {
        shows: "the other answers, and the group key comes into use",
        event: Event::Take(OTHER_G2_3),
        outcome: Outcome::Accepted,
        acts: &[None, None],
    },
];

#[test]
fn an_older_group_key_and_the_end_of_draws(rt: HostRuntime) {
    try_scenario(
        &rt,
        rt.alloc(),
        Akm::Psk,
        version_1(),
        &[(0, 0, OLDER), (0, LAST, SPENT)],
    );
}

// The first packet number begins to renew the key.
const RENEWED: &[Step] = &[
    Step {
        shows: "a request",
        event: Event::Take(REQUEST),
        outcome: Outcome::Accepted,
        acts: &[None, None, None, None, None],
    },
    Step {
        shows: "M2",
        event: Event::Take(M2_1),
        outcome: Outcome::Accepted,
        acts: &[None, None, None],
    },
    Step {
        shows: "M4",
        event: Event::Take(M4_2),
        outcome: Outcome::Accepted,
        acts: &[None, None, None],
    },
    Step {
        shows: "to the station, and M1",
        event: Event::Send(0, 3, b"down"),
        outcome: Outcome::Done,
        acts: &[None, Some(DOWN_3), None, None, Some(M1_3)],
    },
    Step {
        shows: "no renewal beside another",
        event: Event::Renew(0),
        outcome: Outcome::Idle(Why::Nothing),
        acts: &[None],
    },
    Step {
        shows: "no renewal without a session",
        event: Event::Renew(1),
        outcome: Outcome::Idle(Why::NoSession),
        acts: &[None],
    },
    Step {
        shows: "M2 with the Secure bit",
        event: Event::Take(M2_3),
        outcome: Outcome::Accepted,
        acts: &[None, None, None],
    },
];

// And where the nonce of the association was the last draw.
const NOT_RENEWED: &[Step] = &[
    Step {
        shows: "a request",
        event: Event::Take(REQUEST),
        outcome: Outcome::Accepted,
        acts: &[None, None, None, None, None],
    },
    Step {
        shows: "M2",
        event: Event::Take(LAST_M2_1),
        outcome: Outcome::Accepted,
        acts: &[None, None, None],
    },
    Step {
        shows: "M4",
        event: Event::Take(LAST_M4_2),
        outcome: Outcome::Accepted,
        acts: &[None, None, None],
    },
    Step {
        shows: "to the station, and no M1 at the end of draws",
        event: Event::Send(0, 3, b"down"),
        outcome: Outcome::Done,
        acts: &[None, None],
    },
    Step {
        shows: "no renewal at the end of draws",
        event: Event::Renew(0),
        outcome: Outcome::Idle(Why::Spent),
        acts: &[None],
    },
];

#[test]
fn keys_that_are_renewed_at_a_packet_number(rt: HostRuntime) {
    try_scenario(
        &rt,
        rt.alloc(),
        Akm::Psk,
        renewed_at_1(),
        &[(0, 0, RENEWED), (0, LAST_BUT_ONE, NOT_RENEWED)],
    );
}
