//! An access point and a station of a network that protects management frames: the association, the
//! group key handshake, and announcements (IEEE Std 802.11-2020, 12.5.4, 12.7.6, 12.7.7).

use crate::access_point::try_scenario as try_access_points;
use crate::air_frames::RESPONSE;
use crate::management_frames::{
    ACTION_TO_S1, ACTION_WITHOUT_MME, ANNOUNCEMENT_1, ANNOUNCEMENT_1_WITH_WRONG_MIC,
    ANNOUNCEMENT_2, ANNOUNCEMENT_3, ANNOUNCEMENT_OF_A2, ANNOUNCEMENT_UNDER_IGTK_OF_A2, G1_3, G2_3,
    M1_1, M2_1, M3_2, M3_2_WITH_IGTK_2, M3_2_WITH_IPN_1, M3_2_WITH_OTHER_RSNE, M3_2_WITHOUT_IGTK,
    M4_2, NEXT_ANNOUNCEMENT_1, OTHER_M1_1, OTHER_M2_1, OTHER_M3_2, OTHER_M3_2_WITH_IPN_0,
    OTHER_M4_2, REQUEST,
};
use crate::management_transition as moving;
use crate::network::{protecting, version_2};
use crate::station::try_scenario as try_station;
use crate::steps::{Event, Step};
use crate::vectors::LAST_BUT_TWO;
use domain_base::Akm;
use run_journal::{KeyDataFault, Malformed, MalformedFrame, Outcome, Reason, Why};

/// An association, announcements, a rekey, and another association.
pub const AP_STEPS: &[Step] = &[
    Step {
        shows: "the request",
        event: Event::Take(REQUEST),
        outcome: Outcome::Accepted,
        acts: &[None, None, None, Some(RESPONSE), Some(M1_1)],
    },
    Step {
        shows: "M2, and M3 has both group keys",
        event: Event::Take(M2_1),
        outcome: Outcome::Accepted,
        acts: &[None, None, Some(M3_2)],
    },
    Step {
        shows: "M4",
        event: Event::Take(M4_2),
        outcome: Outcome::Accepted,
        acts: &[None, None, None],
    },
    Step {
        shows: "an announcement",
        event: Event::Announce(b"\x01"),
        outcome: Outcome::Done,
        acts: &[None, Some(ANNOUNCEMENT_1)],
    },
    Step {
        shows: "the next packet number",
        event: Event::Announce(b"\x02\x03"),
        outcome: Outcome::Done,
        acts: &[None, Some(ANNOUNCEMENT_2)],
    },
    Step {
        shows: "both group keys are drawn, and G1 has both",
        event: Event::Rekey,
        outcome: Outcome::Done,
        acts: &[None, None, Some(G1_3)],
    },
    Step {
        shows: "the old IGTK as long as G2 is awaited",
        event: Event::Announce(b"\x04"),
        outcome: Outcome::Done,
        acts: &[None, Some(ANNOUNCEMENT_3)],
    },
    Step {
        shows: "both group keys come into use",
        event: Event::Take(G2_3),
        outcome: Outcome::Accepted,
        acts: &[None, None, None],
    },
    Step {
        shows: "the new IGTK",
        event: Event::Announce(b"\x05"),
        outcome: Outcome::Done,
        acts: &[None, Some(NEXT_ANNOUNCEMENT_1)],
    },
    Step {
        shows: "an announcement comes to no access point",
        event: Event::Take(NEXT_ANNOUNCEMENT_1),
        outcome: Outcome::Refused(Reason::NotForMe),
        acts: &[None],
    },
    Step {
        shows: "the request once more",
        event: Event::Take(REQUEST),
        outcome: Outcome::Accepted,
        acts: &[None, None, None, Some(RESPONSE), Some(OTHER_M1_1)],
    },
    Step {
        shows: "M3 tells how many numbers were used under the IGTK",
        event: Event::Take(OTHER_M2_1),
        outcome: Outcome::Accepted,
        acts: &[None, None, Some(OTHER_M3_2)],
    },
    Step {
        shows: "M4 ends the session that was there",
        event: Event::Take(OTHER_M4_2),
        outcome: Outcome::Accepted,
        acts: &[None, None, None, None],
    },
];

// One announcement before any association.
const EARLY: &[Step] = &[
    Step {
        shows: "an announcement to no one",
        event: Event::Announce(b"\x01"),
        outcome: Outcome::Done,
        acts: &[None, Some(ANNOUNCEMENT_1)],
    },
    Step {
        shows: "the request",
        event: Event::Take(REQUEST),
        outcome: Outcome::Accepted,
        acts: &[None, None, None, Some(RESPONSE), Some(M1_1)],
    },
    Step {
        shows: "M3 tells of it",
        event: Event::Take(M2_1),
        outcome: Outcome::Accepted,
        acts: &[None, None, Some(M3_2_WITH_IPN_1)],
    },
];

// One draw is left after the first group keys.
const ONE_DRAW_LEFT: &[Step] = &[Step {
    shows: "no two group keys can be drawn",
    event: Event::Rekey,
    outcome: Outcome::Idle(Why::Spent),
    acts: &[None],
}];

#[test]
fn access_points_that_protect_management_frames(rt: HostRuntime) {
    try_access_points(
        &rt,
        rt.alloc(),
        Akm::PskSha256,
        protecting(),
        &[
            (0, 0, AP_STEPS),
            (0, 0, EARLY),
            (0, LAST_BUT_TWO, ONE_DRAW_LEFT),
        ],
    );
}

/// An association in which M3 is refused for its key data, announcements, a rekey, and another
/// association whose M3 tells less of the IGTK than the station knows.
pub const STATION_STEPS: &[Step] = &[
    Step {
        shows: "connect",
        event: Event::Connect(0),
        outcome: Outcome::Done,
        acts: &[None, None, Some(REQUEST)],
    },
    Step {
        shows: "the response",
        event: Event::Take(RESPONSE),
        outcome: Outcome::Accepted,
        acts: &[None],
    },
    Step {
        shows: "M1",
        event: Event::Take(M1_1),
        outcome: Outcome::Accepted,
        acts: &[None, None, Some(M2_1)],
    },
    Step {
        shows: "M3 without an IGTK",
        event: Event::Take(M3_2_WITHOUT_IGTK),
        outcome: Outcome::Refused(Reason::KeyData(KeyDataFault::Igtk)),
        acts: &[None],
    },
    Step {
        shows: "M3 whose IGTK has the key id of a GTK",
        event: Event::Take(M3_2_WITH_IGTK_2),
        outcome: Outcome::Refused(Reason::KeyData(KeyDataFault::Igtk)),
        acts: &[None],
    },
    Step {
        shows: "M3 with the RSNE of another network",
        event: Event::Take(M3_2_WITH_OTHER_RSNE),
        outcome: Outcome::Refused(Reason::KeyData(KeyDataFault::Rsne)),
        acts: &[None],
    },
    Step {
        shows: "M3 installs three keys",
        event: Event::Take(M3_2),
        outcome: Outcome::Accepted,
        acts: &[None, None, None, None, None, Some(M4_2)],
    },
    Step {
        shows: "an announcement with a wrong MIC",
        event: Event::Take(ANNOUNCEMENT_1_WITH_WRONG_MIC),
        outcome: Outcome::Refused(Reason::Seal),
        acts: &[None],
    },
    Step {
        shows: "the announcement",
        event: Event::Take(ANNOUNCEMENT_1),
        outcome: Outcome::Accepted,
        acts: &[None, None],
    },
    Step {
        shows: "it is handed up once",
        event: Event::Take(ANNOUNCEMENT_1),
        outcome: Outcome::Refused(Reason::Replayed(1)),
        acts: &[None],
    },
    Step {
        shows: "of an access point without a session",
        event: Event::Take(ANNOUNCEMENT_OF_A2),
        outcome: Outcome::Refused(Reason::NoKey),
        acts: &[None],
    },
    Step {
        shows: "under the IGTK of another access point",
        event: Event::Take(ANNOUNCEMENT_UNDER_IGTK_OF_A2),
        outcome: Outcome::Refused(Reason::Seal),
        acts: &[None],
    },
    Step {
        shows: "an Action frame to the station alone",
        event: Event::Take(ACTION_TO_S1),
        outcome: Outcome::Ignored,
        acts: &[None],
    },
    Step {
        shows: "an Action frame to all without an MME",
        event: Event::Take(ACTION_WITHOUT_MME),
        outcome: Outcome::Refused(Reason::Malformed(Malformed::Air(MalformedFrame::Body(24)))),
        acts: &[None],
    },
    Step {
        shows: "G1 installs two keys",
        event: Event::Take(G1_3),
        outcome: Outcome::Accepted,
        acts: &[None, None, None, Some(G2_3)],
    },
    Step {
        shows: "under the old IGTK, two numbers later",
        event: Event::Take(ANNOUNCEMENT_3),
        outcome: Outcome::Accepted,
        acts: &[None, None],
    },
    Step {
        shows: "the number between them",
        event: Event::Take(ANNOUNCEMENT_2),
        outcome: Outcome::Refused(Reason::Replayed(3)),
        acts: &[None],
    },
    Step {
        shows: "under the new IGTK",
        event: Event::Take(NEXT_ANNOUNCEMENT_1),
        outcome: Outcome::Accepted,
        acts: &[None, None],
    },
    Step {
        shows: "connect once more",
        event: Event::Connect(0),
        outcome: Outcome::Done,
        acts: &[None, None, None, Some(REQUEST)],
    },
    Step {
        shows: "no announcement without a session",
        event: Event::Take(NEXT_ANNOUNCEMENT_1),
        outcome: Outcome::Refused(Reason::NoKey),
        acts: &[None],
    },
    Step {
        shows: "the response once more",
        event: Event::Take(RESPONSE),
        outcome: Outcome::Accepted,
        acts: &[None],
    },
    Step {
        shows: "M1 once more",
        event: Event::Take(OTHER_M1_1),
        outcome: Outcome::Accepted,
        acts: &[None, None, Some(OTHER_M2_1)],
    },
    Step {
        shows: "M3 that tells of no announcement resumes the group keys",
        event: Event::Take(OTHER_M3_2_WITH_IPN_0),
        outcome: Outcome::Accepted,
        acts: &[None, None, None, None, None, Some(OTHER_M4_2)],
    },
    Step {
        shows: "the IGTK goes on at the number that was kept",
        event: Event::Take(NEXT_ANNOUNCEMENT_1),
        outcome: Outcome::Refused(Reason::Replayed(1)),
        acts: &[None],
    },
];

#[test]
fn a_station_that_protects_management_frames(rt: HostRuntime) {
    try_station(
        &rt,
        rt.alloc(),
        Akm::PskSha256,
        protecting(),
        0,
        STATION_STEPS,
    );
}

// M3 tells of an announcement that the station missed.
const LATE: &[Step] = &[
    Step {
        shows: "connect",
        event: Event::Connect(0),
        outcome: Outcome::Done,
        acts: &[None, None, Some(REQUEST)],
    },
    Step {
        shows: "the response",
        event: Event::Take(RESPONSE),
        outcome: Outcome::Accepted,
        acts: &[None],
    },
    Step {
        shows: "M1",
        event: Event::Take(M1_1),
        outcome: Outcome::Accepted,
        acts: &[None, None, Some(M2_1)],
    },
    Step {
        shows: "M3 with a packet number",
        event: Event::Take(M3_2_WITH_IPN_1),
        outcome: Outcome::Accepted,
        acts: &[None, None, None, None, None, Some(M4_2)],
    },
    Step {
        shows: "the announcement before the association",
        event: Event::Take(ANNOUNCEMENT_1),
        outcome: Outcome::Refused(Reason::Replayed(1)),
        acts: &[None],
    },
    Step {
        shows: "the one after it",
        event: Event::Take(ANNOUNCEMENT_2),
        outcome: Outcome::Accepted,
        acts: &[None, None],
    },
];

#[test]
fn a_station_that_comes_late(rt: HostRuntime) {
    try_station(&rt, rt.alloc(), Akm::PskSha256, protecting(), 0, LATE);
}

// Without protection Action frames are passed over, whatever stands in them.
const PASSED_OVER: &[Step] = &[
    Step {
        shows: "an announcement",
        event: Event::Take(ANNOUNCEMENT_1),
        outcome: Outcome::Ignored,
        acts: &[None],
    },
    Step {
        shows: "an Action frame without an MME",
        event: Event::Take(ACTION_WITHOUT_MME),
        outcome: Outcome::Ignored,
        acts: &[None],
    },
    Step {
        shows: "one octet of such a frame",
        event: Event::Take(b"\xd0"),
        outcome: Outcome::Ignored,
        acts: &[None],
    },
];

#[test]
fn a_station_without_protection(rt: HostRuntime) {
    try_station(&rt, rt.alloc(), Akm::PskSha256, version_2(), 0, PASSED_OVER);
}

// An association with the first access point.
const ASSOCIATED: &[Step] = &[
    Step {
        shows: "the association request",
        event: Event::Take(moving::REQUEST),
        outcome: Outcome::Accepted,
        acts: &[None, None, None, Some(moving::RESPONSE), Some(moving::M1)],
    },
    Step {
        shows: "M2, and M3 has both group keys",
        event: Event::Take(moving::M2),
        outcome: Outcome::Accepted,
        acts: &[None, None, Some(moving::M3)],
    },
    Step {
        shows: "M4",
        event: Event::Take(moving::M4),
        outcome: Outcome::Accepted,
        acts: &[None, None, None, None],
    },
    Step {
        shows: "an announcement",
        event: Event::Announce(b"\x01"),
        outcome: Outcome::Done,
        acts: &[None, Some(moving::ANNOUNCEMENT_OF_A1)],
    },
];

// A fast transition to the second one, which sent an announcement before it.
const MOVED: &[Step] = &[
    Step {
        shows: "an announcement before the transition",
        event: Event::Announce(b"\x01"),
        outcome: Outcome::Done,
        acts: &[None, Some(moving::ANNOUNCEMENT_1)],
    },
    Step {
        shows: "the authentication request",
        event: Event::Take(moving::FT_REQ),
        outcome: Outcome::Accepted,
        acts: &[None, None, None, None, None, Some(moving::FT_RESP)],
    },
    Step {
        shows: "the reassociation request, and the response has both group keys",
        event: Event::Take(moving::RE_REQ),
        outcome: Outcome::Accepted,
        acts: &[None, None, None, Some(moving::RE_RESP)],
    },
    Step {
        shows: "an announcement after it",
        event: Event::Announce(b"\x02\x03"),
        outcome: Outcome::Done,
        acts: &[None, Some(moving::ANNOUNCEMENT_2)],
    },
];

#[test]
fn access_points_with_fast_transitions_that_protect_management_frames(rt: HostRuntime) {
    try_access_points(
        &rt,
        rt.alloc(),
        Akm::FtPsk,
        protecting(),
        &[(0, 0, ASSOCIATED), (1, 0, MOVED)],
    );
}

const MOVING: &[Step] = &[
    Step {
        shows: "connect",
        event: Event::Connect(0),
        outcome: Outcome::Done,
        acts: &[None, None, Some(moving::REQUEST)],
    },
    Step {
        shows: "the response",
        event: Event::Take(moving::RESPONSE),
        outcome: Outcome::Accepted,
        acts: &[None],
    },
    Step {
        shows: "M1",
        event: Event::Take(moving::M1),
        outcome: Outcome::Accepted,
        acts: &[None, None, Some(moving::M2)],
    },
    Step {
        shows: "M3",
        event: Event::Take(moving::M3),
        outcome: Outcome::Accepted,
        acts: &[None, None, None, None, None, Some(moving::M4)],
    },
    Step {
        shows: "an announcement of the first access point",
        event: Event::Take(moving::ANNOUNCEMENT_OF_A1),
        outcome: Outcome::Accepted,
        acts: &[None, None],
    },
    Step {
        shows: "roams",
        event: Event::Roam(1),
        outcome: Outcome::Done,
        acts: &[None, None, Some(moving::FT_REQ)],
    },
    Step {
        shows: "the authentication response",
        event: Event::Take(moving::FT_RESP),
        outcome: Outcome::Accepted,
        acts: &[None, None, Some(moving::RE_REQ)],
    },
    Step {
        shows: "a reassociation response without an IGTK",
        event: Event::Take(moving::RE_RESP_WITHOUT_IGTK),
        outcome: Outcome::Refused(Reason::Status(55)),
        acts: &[None],
    },
    Step {
        shows: "one whose IGTK is wrapped under another key",
        event: Event::Take(moving::RE_RESP_WITH_WRONG_WRAP),
        outcome: Outcome::Refused(Reason::Wrap),
        acts: &[None],
    },
    Step {
        shows: "the reassociation response installs three keys",
        event: Event::Take(moving::RE_RESP),
        outcome: Outcome::Accepted,
        acts: &[None, None, None, None, None, None],
    },
    Step {
        shows: "an announcement of the second access point before it",
        event: Event::Take(moving::ANNOUNCEMENT_1),
        outcome: Outcome::Refused(Reason::Replayed(1)),
        acts: &[None],
    },
    Step {
        shows: "the one after it",
        event: Event::Take(moving::ANNOUNCEMENT_2),
        outcome: Outcome::Accepted,
        acts: &[None, None],
    },
    Step {
        shows: "the first access point has no session any more",
        event: Event::Take(moving::ANNOUNCEMENT_OF_A1),
        outcome: Outcome::Refused(Reason::NoKey),
        acts: &[None],
    },
];

#[test]
fn a_station_with_fast_transitions_that_protects_management_frames(rt: HostRuntime) {
    try_station(&rt, rt.alloc(), Akm::FtPsk, protecting(), 0, MOVING);
}
