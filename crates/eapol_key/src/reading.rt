//! Reading a frame from the front of octets.

ghost use Rattle.std.specs.Prelude.{◌≡◌, ◌≤◌, ℕ, length, take, None, Some, MatchResult, IfOk};
ghost use Rattle.std.specs.Prelude.{IsOkAnd};
ghost use Rattle.eapol_key.specs.Bodies.{body_fault};
ghost use Rattle.eapol_key.specs.Fields.{fields_of, IsKeyFrame};
ghost use Rattle.eapol_key.specs.KeyFrame.{KeyFields, SpellsKeyFrame, key_frame_fault};

use crate::frame::{FaultKind, FrameFault, KeyFrame};
use crate::layout::{KEY_DATA_AT, KEY_DATA_LEN_AT, MIC_AT};
use domain_base::{array_at, big_u16_at};

// The octets of the EAPOL header, whose last two are the length of the body.
const HEADER_LEN: usize = 4;

// The least length of a body: that of its fixed fields.
const LEAST_BODY: usize = KEY_DATA_AT - HEADER_LEN;

fn fault_at(place: usize, kind: FaultKind) -> Option<FrameFault>
    ensures { result ≡ Some (record { place = place; kind = kind }) }
{
    Some(FrameFault { place, kind })
}

// The first fault from the length of the body on.
fn body_fault(octets: &[u8]) -> Option<FrameFault>
    requires { 4 ≤ length octets.now }
    ensures { result ≡ body_fault octets.now }
{
    let body = usize::from(big_u16_at(octets, 2));
    if body < LEAST_BODY || octets.len() < body + HEADER_LEN {
        fault_at(2, FaultKind::BodyLength)
    } else if octets[4] != 2 {
        fault_at(4, FaultKind::Descriptor)
    } else if usize::from(big_u16_at(octets, KEY_DATA_LEN_AT)) + LEAST_BODY != body {
        fault_at(KEY_DATA_LEN_AT, FaultKind::KeyDataLength)
    } else {
        None
    }
}

// The first fault of octets that begin with no frame.
fn fault_of(octets: &[u8]) -> Option<FrameFault>
    ensures { result ≡ key_frame_fault octets.now }
{
    if octets.len() < HEADER_LEN {
        return fault_at(octets.len(), FaultKind::Short);
    }
    if octets[0] < 1 || octets[0] > 3 {
        fault_at(0, FaultKind::PacketType)
    } else if octets[1] != 3 {
        fault_at(1, FaultKind::PacketType)
    } else {
        body_fault(octets)
    }
}

/// The EAPOL-Key frame at the front of octets, and how many of them it takes, or the first fault
/// (IEEE Std 802.11-2020, 12.7.2). Octets behind its body are not looked at. Takes no memory.
pub fn read(octets: &[u8]) -> Result<(KeyFrame<'_>, usize), FrameFault>
    ensures found { IfOk result (λ r. SpellsKeyFrame octets.now (fields_of r.0) r.1) }
    ensures whole { IfOk result (λ r. r.0.octets.now ≡ take r.1 octets.now) }
    ensures frame { IfOk result (λ r. IsKeyFrame r.0) }
    ensures only { (f : KeyFields) (used : ℕ) → SpellsKeyFrame octets.now f used
        → IsOkAnd result (λ r. (fields_of r.0 ≡ f) × (r.1 ≡ used)) }
    ensures fault { MatchResult result
        (λ _. key_frame_fault octets.now ≡ None) (λ e. key_frame_fault octets.now ≡ Some e) }
{
    if let Some(fault) = fault_of(octets) {
        return Err(fault);
    }
    let used = usize::from(big_u16_at(octets, 2)) + HEADER_LEN;
    let (whole, _) = octets.split_at(used);
    let (_, key_data) = whole.split_at(KEY_DATA_AT);
    let counter = u64::from_be_bytes(array_at::<8>(octets, 9));
    let frame = KeyFrame {
        version: octets[0],
        information: big_u16_at(octets, 5),
        key_length: big_u16_at(octets, 7),
        counter,
        nonce: array_at::<32>(octets, 17),
        iv: array_at::<16>(octets, 49),
        rsc: array_at::<8>(octets, 65),
        reserved: array_at::<8>(octets, 73),
        mic: array_at::<16>(octets, MIC_AT),
        key_data,
        octets: whole,
    };
    Ok((frame, used))
}
