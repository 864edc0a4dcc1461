//! How much room the line of an entry wants.

ghost use Rattle.std.specs.Prelude.{◌≡◌, ◌≤◌, ◌+◌, ◌^◌, MatchOption};
ghost use Rattle.entry_lines.specs.Room.{act_octets, inputs_octets, key_octets, line_room};
ghost use Rattle.entry_lines.specs.Room.{seal_octets};

use key_hierarchy::Inputs;
use run_journal::{Act, BoxedSeal, Entry, Key};

/// Room that is enough for a line beside the digits of octets of no fixed number.
pub const ENTRY_ROOM: usize = 512;

// How many octets the SSID has, and how many the R0KH-ID.
fn inputs_octets(inputs: &Inputs) -> (usize, usize)
    ensures { result.0 + result.1 ≡ inputs_octets inputs.now }
{
    (
        inputs.ssid.as_slice().len(),
        inputs.r0kh_id.as_slice().len(),
    )
}

// How many octets are sealed.
fn seal_octets(seal: &Option<BoxedSeal>) -> usize
    ensures { result ≡ seal_octets seal.now }
{
    match seal {
        Some(seal) => seal.seal().octets.as_slice().len(),
        None => 0,
    }
}

// How many octets of no fixed number the key's inputs have, in two parts.
fn key_octets(key: &Key) -> (usize, usize)
    ensures { result.0 + result.1 ≡ key_octets key.now }
{
    match key {
        Key::Pairwise { inputs, .. } => inputs_octets(inputs.inputs()),
        Key::Group { .. } => (0, 0),
    }
}

// How many octets of no fixed number the act tells, in two parts.
fn act_octets(act: &Act) -> (usize, usize)
    ensures { result.0 + result.1 ≡ act_octets act.now }
{
    match act {
        Act::Derived { inputs, .. } | Act::Finished { inputs, .. } => {
            inputs_octets(inputs.inputs())
        }
        Act::Sent { octets, seal, .. } | Act::Took { octets, seal, .. } => {
            (octets.as_slice().len(), seal_octets(seal))
        }
        Act::Installed { key, .. } | Act::Resumed { key, .. } => key_octets(key),
        Act::Used { octets, .. } | Act::HandedUp { octets, .. } => (octets.as_slice().len(), 0),
        Act::Put { r0kh_id, .. } | Act::Looked { r0kh_id, .. } => (r0kh_id.as_slice().len(), 0),
        Act::Revoked { r0kh_id, .. } => (r0kh_id.as_slice().len(), 0),
        Act::Opened { .. }
        | Act::Closed { .. }
        | Act::Drew { .. }
        | Act::Secret { .. }
        | Act::GaveUp { .. }
        | Act::Idle { .. }
        | Act::Link { .. } => (0, 0),
    }
}

/// Room that is enough for the entry's line: two octets for each octet of a frame, of what is
/// sealed, of a payload, of an SSID and of an R0KH-ID in it, and `ENTRY_ROOM` for all the rest.
/// None where that is more than a `usize` holds.
pub fn entry_room(entry: &Entry) -> Option<usize>
    ensures { MatchOption result (2 ^ 64 ≤ line_room entry.now) (λ n. n ≡ line_room entry.now) }
{
    let (first, second) = act_octets(&entry.act);
    let octets = first.checked_add(second)?;
    let digits = octets.checked_mul(2)?;
    digits.checked_add(ENTRY_ROOM)
}
