//! The memory that the acts of an action frame to a group take, taken before anything is done.

ghost use Rattle.std.specs.Prelude.{◌≡◌, ◌≤◌, ◌+◌, ◌++◌, ◌∷◌, length, replicate, IfOk, vec_len};
ghost use Rattle.std.specs.Vec.{vec_capacity};
ghost use Rattle.bip_guard.specs.Bip.{EndsInMme, mme_front};
ghost use Rattle.run_journal.specs.Events.{most_payload};
ghost use Rattle.domain_rules.specs.ManagementFrames.{announced, bip_input};
ghost use Rattle.domain_rules.specs.ManagementFrames.{before_mic, before_mme};
ghost use Rattle.frame_intake.specs.ActionFields.{IsActionFrame};
ghost use Rattle.frame_intake.specs.Views.{action_fields};

use crate::rooms::behind_header;
use act_memory::append;
use air_frame::Action;
use bip_guard::{aad_of, mme_front};
use domain_base::NoMemory;
use run_journal::BoxedSeal;
use std::alloc::Global;

// The octets of a Management MIC element, and those of its MIC.
const MME_LEN: usize = 18;

const MIC_LEN: usize = 8;

// The octet with which the seal of an action frame begins.
const ACTION_FORM: u8 = 4;

// What an announcement has behind its header beside the payload: the category, and the element.
const ADDED: usize = 1 + MME_LEN;

// The category of an announcement: vendor-specific protected (IEEE Std 802.11-2020, 9.4.1.11).
const CATEGORY: u8 = 0x7e;

// Puts the form of the seal and what the MIC covers behind the octets, within the room that there
// is: by the MAC header, and by the body before its MIC, in two pieces.
fn append_action(octets: &mut Vec<u8>, header: &[u8], front: &[u8], rest: &[u8])
    requires header { length header.now ≡ 24 }
    requires room { vec_len octets.old + (29 + length front.now + length rest.now)
        ≤ vec_capacity octets.old }
    ensures { octets.new.items
        ≡ octets.old.items ++ 4 ∷ bip_input header.now (front.now ++ rest.now) }
{
    append(octets, &[ACTION_FORM]);
    append(octets, &aad_of(header));
    append(octets, front);
    append(octets, rest);
    append(octets, &[0; MIC_LEN]);
}

// They, in memory of their own.
fn cover(alloc: Global, header: &[u8], front: &[u8], rest: &[u8]) -> Result<Vec<u8>, NoMemory>
    requires header { length header.now ≡ 24 }
    requires few { length rest.now ≤ 10 }
    ensures { IfOk result (λ octets. octets.items
        ≡ 4 ∷ bip_input header.now (front.now ++ rest.now)) }
{
    let mut octets = Vec::with_capacity(alloc, 29 + front.len() + rest.len())?;
    append_action(&mut octets, header, front, rest);
    Ok(octets)
}

// What stands in a body before its Management MIC element.
fn before_mme(body: &[u8]) -> &[u8]
    requires { EndsInMme body.now }
    ensures { result.now ≡ before_mme body.now }
{
    let (content, _) = body.split_at(body.len() - MME_LEN);
    content
}

// What stands in it before the MIC of that.
fn before_mic(body: &[u8]) -> &[u8]
    requires { EndsInMme body.now }
    ensures { result.now ≡ before_mic body.now }
{
    let (front, _) = body.split_at(body.len() - MIC_LEN);
    front
}

/// The memory that the acts of handing up an action frame take.
#[derive(Drop)]
pub struct ActionRoom {
    /// The octets that came.
    pub taken: Vec<u8>,
    /// What stands before the Management MIC element.
    pub content: Vec<u8>,
    /// The form of the seal, and what the seal covers.
    pub covered: Vec<u8>,
    /// The memory for a seal.
    pub seal: BoxedSeal,
}

impl ActionRoom {
    /// Takes it.
    pub fn take(alloc: Global, octets: &[u8], frame: &Action<'_>) -> Result<Self, NoMemory>
        requires whole { IsActionFrame (action_fields frame.now) }
        ensures taken { IfOk result (λ room. room.taken.items ≡ octets.now) }
        ensures content { IfOk result
            (λ room. room.content.items ≡ before_mme frame.now.body.now) }
        ensures covered { IfOk result (λ room. room.covered.items
            ≡ 4 ∷ bip_input frame.now.header.octets.now (before_mic frame.now.body.now)) }
    {
        let front = before_mic(frame.body);
        let taken = Vec::from_slice(alloc, octets)?;
        let content = Vec::from_slice(alloc, before_mme(frame.body))?;
        let covered = cover(alloc, frame.header.octets, front, &[])?;
        let seal = BoxedSeal::room(alloc)?;
        Ok(ActionRoom {
            taken,
            content,
            covered,
            seal,
        })
    }
}

// What an announcement says: the category, and the payload.
fn announced(alloc: Global, payload: &[u8]) -> Result<Vec<u8>, NoMemory>
    ensures { IfOk result (λ octets. octets.items ≡ announced payload.now) }
{
    let mut octets = Vec::with_capacity(alloc, 1 + payload.len())?;
    append(&mut octets, &[CATEGORY]);
    append(&mut octets, payload);
    Ok(octets)
}

/// The memory that the acts of an announcement take.
#[derive(Drop)]
pub struct AnnounceRoom {
    /// What it says: the category, and the payload.
    pub content: Vec<u8>,
    /// The form of the seal, and what the seal covers.
    pub covered: Vec<u8>,
    /// The header, and as many zeros as the body has octets.
    pub frame: Vec<u8>,
    /// The memory for a seal.
    pub seal: BoxedSeal,
}

impl AnnounceRoom {
    /// Takes it, for a frame with that header, key id and packet number.
    pub fn take(
        alloc: Global,
        header: &[u8],
        id: u8,
        ipn: u64,
        payload: &[u8],
    ) -> Result<Self, NoMemory>
        requires header { length header.now ≡ 24 }
        requires short { length payload.now ≤ most_payload }
        ensures content { IfOk result (λ room. room.content.items ≡ announced payload.now) }
        ensures covered { IfOk result (λ room. room.covered.items
            ≡ 4 ∷ bip_input header.now (announced payload.now ++ mme_front id ipn)) }
        ensures frame { IfOk result
            (λ room. room.frame.items ≡ header.now ++ replicate (length payload.now + 19) 0) }
    {
        let content = announced(alloc, payload)?;
        let frame = behind_header(alloc, header, payload.len() + ADDED)?;
        let covered = cover(alloc, header, &content, &mme_front(id, ipn))?;
        let seal = BoxedSeal::room(alloc)?;
        Ok(AnnounceRoom {
            content,
            covered,
            frame,
            seal,
        })
    }
}
