//! The memory that the acts of a frame of protected data take, taken before anything is done.

ghost use Rattle.std.specs.Prelude.{◌≡◌, ◌≤◌, ◌+◌, ◌++◌, ◌∷◌, length, replicate, IfOk, vec_len};
ghost use Rattle.std.specs.Vec.{vec_capacity};
ghost use Rattle.ccmp_guard.specs.Ccmp.{IsHeader};
ghost use Rattle.frame_intake.specs.SealedFields.{IsSealedData};
ghost use Rattle.frame_intake.specs.Views.{sealed_fields};
ghost use Rattle.data_frames.specs.Taking.{covered_front};
ghost use Rattle.data_frames.specs.Rooms.{IsRoomFor};

use act_memory::append;
use ccmp_guard::{packet_number, sealed_front};
use domain_base::NoMemory;
use frame_intake::SealedData;
use run_journal::BoxedSeal;
use std::alloc::Global;

/// The octets that the CCMP header and the MIC take in a body.
pub const OVERHEAD: usize = 16;

// The octet with which the seal of protected data begins.
const DATA_FORM: u8 = 3;

/// So many zeros.
pub fn zeros(alloc: Global, size: usize) -> Result<Vec<u8>, NoMemory>
    ensures items { IfOk result (λ octets. octets.items ≡ replicate size 0) }
{
    let mut octets = Vec::new(alloc);
    octets.resize(size, 0)?;
    Ok(octets)
}

/// The octets of a header, and behind them so many zeros.
pub fn behind_header(alloc: Global, header: &[u8], size: usize) -> Result<Vec<u8>, NoMemory>
    requires { length header.now + size ≤ 65536 }
    ensures items { IfOk result (λ octets. octets.items ≡ header.now ++ replicate size 0) }
{
    let mut octets = Vec::with_capacity(alloc, header.len() + size)?;
    append(&mut octets, header);
    octets.resize(header.len() + size, 0)?;
    Ok(octets)
}

/// The form of the seal, and what the seal covers before the plain text, with room for as many
/// octets as these.
pub fn cover(alloc: Global, header: &[u8], pn: u64, plain: &[u8]) -> Result<Vec<u8>, NoMemory>
    requires header { IsHeader header.now }
    ensures items { IfOk result (λ octets. octets.items ≡ covered_front header.now pn) }
    ensures room { IfOk result
        (λ octets. vec_len octets + length plain.now ≤ vec_capacity octets) }
{
    let front = sealed_front(header, pn);
    let front = front.as_slice();
    let mut octets = Vec::with_capacity(alloc, 1 + front.len() + plain.len())?;
    append(&mut octets, &[DATA_FORM]);
    append(&mut octets, front);
    Ok(octets)
}

// What a seal of protected data is made of, before the plain text, with room for that, and the
// memory for the seal.
#[derive(Drop)]
struct Sealing {
    covered: Vec<u8>,
    seal: BoxedSeal,
}

// They, for as many octets of plain text as these.
fn seal_room(alloc: Global, header: &[u8], pn: u64, plain: &[u8]) -> Result<Sealing, NoMemory>
    requires header { IsHeader header.now }
    ensures items { IfOk result (λ room. room.covered.items ≡ covered_front header.now pn) }
    ensures room { IfOk result
        (λ room. vec_len room.covered + length plain.now ≤ vec_capacity room.covered) }
{
    let covered = cover(alloc, header, pn, plain)?;
    let seal = BoxedSeal::room(alloc)?;
    Ok(Sealing { covered, seal })
}

/// The memory for a payload that is handed up.
#[derive(Drop)]
pub struct Plain {
    /// Its octets.
    pub plain: Vec<u8>,
    /// The form of the seal, and what the seal covers before the plain text, with room for that.
    pub covered: Vec<u8>,
    /// The memory for a seal.
    pub seal: BoxedSeal,
}

/// The memory that the acts of taking protected data take.
#[derive(Drop)]
pub struct TakeRoom {
    /// The octets that came.
    pub taken: Vec<u8>,
    /// As many zeros as the plain text has octets.
    pub plain: Vec<u8>,
    /// The form of the seal, and what the seal covers before the plain text, with room for that.
    pub covered: Vec<u8>,
    /// The memory for a seal.
    pub seal: BoxedSeal,
}

impl TakeRoom {
    /// Takes it.
    pub fn take(alloc: Global, octets: &[u8], frame: &SealedData<'_>) -> Result<Self, NoMemory>
        requires whole { IsSealedData (sealed_fields frame.now) }
        ensures { IfOk result (λ room. IsRoomFor octets.now (sealed_fields frame.now) room) }
    {
        let size = frame.body.len() - OVERHEAD;
        let taken = Vec::from_slice(alloc, octets)?;
        let plain = zeros(alloc, size)?;
        let number = packet_number(frame.body);
        let sealing = seal_room(alloc, frame.header.octets, number, &plain)?;
        let Sealing { covered, seal } = sealing;
        Ok(TakeRoom {
            taken,
            plain,
            covered,
            seal,
        })
    }
}

/// The memory that the acts of sending protected data take.
#[derive(Drop)]
pub struct SendRoom {
    /// The payload.
    pub plain: Vec<u8>,
    /// What the seal covers, behind its form.
    pub covered: Vec<u8>,
    /// The header, and as many zeros as the body has octets.
    pub frame: Vec<u8>,
    /// The memory for a seal.
    pub seal: BoxedSeal,
}

impl SendRoom {
    ghost use Rattle.ccmp_guard.specs.Ccmp.{sealed_octets};
    ghost use Rattle.run_journal.specs.Events.{most_payload};

    /// Takes it, for a frame with that header and packet number.
    pub fn take(alloc: Global, header: &[u8], pn: u64, payload: &[u8]) -> Result<Self, NoMemory>
        requires header { IsHeader header.now }
        requires short { length payload.now ≤ most_payload }
        ensures plain { IfOk result (λ room. room.plain.items ≡ payload.now) }
        ensures covered { IfOk result
            (λ room. room.covered.items ≡ 3 ∷ sealed_octets header.now pn payload.now) }
        ensures frame { IfOk result
            (λ room. room.frame.items ≡ header.now ++ replicate (length payload.now + 16) 0) }
    {
        let plain = Vec::from_slice(alloc, payload)?;
        let frame = behind_header(alloc, header, payload.len() + OVERHEAD)?;
        let sealing = seal_room(alloc, header, pn, payload)?;
        let Sealing { covered, seal } = sealing;
        let mut covered = covered;
        append(&mut covered, payload);
        Ok(SendRoom {
            plain,
            covered,
            frame,
            seal,
        })
    }
}
