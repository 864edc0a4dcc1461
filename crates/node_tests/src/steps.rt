//! The steps of a scenario, and whether the frames of a node are those of its step.

use act_memory::Outbox;
use domain_base::NoMemory;
use run_journal::{Act, Outcome};

/// An event at a node, by the number of the other node.
pub enum Event {
    Connect(u16),
    Roam(u16),
    /// These octets come.
    Take(&'static [u8]),
    Rekey,
    /// The pairwise key is renewed.
    Renew(u16),
    /// A payload to a node, with a TID below 16.
    Send(u16, u8, &'static [u8]),
    /// A payload to the peer of a station or to all stations, without a TID.
    SendPlain(&'static [u8]),
    /// A payload to all stations in a protected Action frame.
    Announce(&'static [u8]),
}

/// An event at a node, what comes of it, and its acts in their order: of one that sends a frame the
/// octets, which were made apart, and nothing of another, of which the contract of `step` tells.
pub struct Step {
    pub shows: &'static str,
    pub event: Event,
    pub outcome: Outcome,
    pub acts: &'static [Option<&'static [u8]>],
}

fn is_sent(act: &Act, frame: &[u8]) -> bool {
    match act {
        Act::Sent { octets, .. } => octets.as_slice() == frame,
        _ => false,
    }
}

// There is an act, which sends that frame, where there is one.
fn is(act: &Option<Act>, frame: Option<&[u8]>) -> bool {
    match (act, frame) {
        (Some(act), Some(frame)) => is_sent(act, frame),
        (Some(_), None) => true,
        (None, _) => false,
    }
}

// The act is so, and is dropped.
pub fn comes(act: Option<Act>, frame: Option<&[u8]>) -> bool {
    let is_right = is(&act, frame);
    drop(act);
    is_right
}

/// These acts come, and no more.
pub fn come(out: &mut Outbox, acts: &[Option<&[u8]>]) -> bool {
    for frame in acts {
        if !comes(out.pop(), *frame) {
            return false;
        }
    }
    !comes(out.pop(), None)
}

/// That came of an event.
pub fn is_outcome(came: Result<Outcome, NoMemory>, wanted: Outcome) -> bool {
    match came {
        Ok(outcome) => outcome == wanted,
        Err(_) => false,
    }
}
