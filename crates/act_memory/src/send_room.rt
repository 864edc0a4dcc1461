//! The memory that the act of sending a frame takes, taken before anything is done, and given back
//! as far as the frame is shorter.

ghost use Rattle.std.specs.Prelude.{◌≡◌, ◌==◌, ◌≤◌, ◌<◌, ◌+◌, ◌++◌, ℕ, List, [], ◌∷◌, length};
ghost use Rattle.std.specs.Prelude.{drop, not, Some, option_map, vec_len};
ghost use Rattle.std.specs.Vec.{vec_capacity};
ghost use Rattle.mac_prf.specs.Mic.{without_mic};
ghost use Rattle.run_journal.specs.Replies.{IsWhole};
ghost use Rattle.domain_rules.specs.Frames.{frame_seal};
ghost use Rattle.domain_rules.specs.Replies.{sent_acts};

use crate::covered::{append, append_covered, covered_len};
use crate::outbox::Outbox;
use domain_base::{NoMemory, Node, Octets, Peer};
use run_journal::{Act, BoxedSeal, REPLY_LEN, Reply, Seal};
use std::alloc::Global;

// The octets before an EAPOL frame in a data frame.
const EAPOL_FRONT: usize = 32;

/// Room for the octets of a reply, without any.
#[derive(Drop)]
pub struct Buffer {
    octets: Vec<u8>,
    ghost empty: { octets.items ≡ [] },
    ghost none: { vec_len octets ≡ 0 },
    ghost room: { 512 ≤ vec_capacity octets },
}

impl Buffer {
    fn take(alloc: Global) -> Result<Self, NoMemory> {
        let octets = Vec::with_capacity(alloc, REPLY_LEN)?;
        Ok(Buffer { octets })
    }

    /// Room for so many octets: memory of that size where there is some more, and else all that was
    /// taken.
    pub fn of_size(self, size: usize) -> Vec<u8>
        requires { size ≤ 512 }
        ensures empty { result.items ≡ [] }
        ensures none { vec_len result ≡ 0 }
        ensures room { size ≤ vec_capacity result }
    {
        let Buffer { octets } = self;
        match Vec::with_capacity(*octets.allocator(), size) {
            Ok(exact) => exact,
            Err(_) => octets,
        }
    }

    /// These octets.
    pub fn filled(self, piece: &[u8]) -> Vec<u8>
        requires { length piece.now ≤ 512 }
        ensures { result.items ≡ piece.now }
    {
        let mut octets = self.of_size(piece.len());
        append(&mut octets, piece);
        octets
    }

    // What the MIC of an EAPOL-Key frame covers, behind the form.
    fn covering(self, frame: &[u8]) -> Vec<u8>
        requires { length frame.now ≤ 480 }
        ensures { result.items ≡ 1 ∷ without_mic frame.now }
    {
        let mut octets = self.of_size(covered_len(frame));
        append_covered(&mut octets, frame);
        octets
    }
}

// Has the reply a frame?
fn has_frame(reply: &Reply) -> bool
    ensures { result ≡ not (reply.now.len == 0) }
{
    reply.len != 0
}

// The EAPOL frame in a data frame.
fn eapol_in(frame: &[u8]) -> &[u8]
    requires { 32 ≤ length frame.now }
    ensures octets { result.now ≡ drop 32 frame.now }
    ensures len { length result.now + 32 ≡ length frame.now }
{
    let (_, eapol) = frame.split_at(EAPOL_FRONT);
    eapol
}

// What is sealed in a frame by that key, where there is one, in the room for it.
fn seal_by(
    key: Option<[u8; 16]>,
    covered: Buffer,
    seal: BoxedSeal,
    frame: &[u8],
) -> Option<BoxedSeal>
    requires few { length frame.now ≤ 512 }
    requires sealed { (kck : List ℕ) → key ≡ Some kck → 131 ≤ length frame.now }
    ensures { result ≡ option_map (λ kck. frame_seal kck (drop 32 frame.now)) key }
{
    let key = key?;
    let octets = Octets(covered.covering(eapol_in(frame)));
    Some(seal.filled(Seal { octets, key }))
}

/// The memory that the act of sending the frame of a reply takes.
#[derive(Drop)]
pub struct SendRoom {
    /// Room for the frame.
    pub octets: Buffer,
    /// Room for what its MIC covers.
    pub covered: Buffer,
    /// The memory for a seal.
    pub seal: BoxedSeal,
}

impl SendRoom {
    /// Takes it.
    pub fn take(alloc: Global) -> Result<Self, NoMemory> {
        let octets = Buffer::take(alloc)?;
        let covered = Buffer::take(alloc)?;
        let seal = BoxedSeal::room(alloc)?;
        Ok(SendRoom {
            octets,
            covered,
            seal,
        })
    }

    /// Adds the act of sending the frame of the reply to the peer, if it has one. No memory is
    /// wanted: octets go into memory of their size where there is some more, and else stay in the
    /// room.
    pub fn add_sent(self, peer: Node, reply: &Reply, out: &mut Outbox)
        requires room { 1 ≤ out.old.spare }
        requires whole { IsWhole reply.now }
        ensures acts { out.new.acts ≡ out.old.acts ++ sent_acts peer reply.now }
        ensures spare { out.old.spare ≤ out.new.spare + 1 }
    {
        if !has_frame(reply) {
            return;
        }
        let SendRoom {
            octets,
            covered,
            seal,
        } = self;
        let (frame, _) = reply.octets.split_at(reply.len);
        let seal = seal_by(reply.sealed, covered, seal, frame);
        let octets = Octets(octets.filled(frame));
        out.add(Act::Sent {
            peer: Peer::One(peer),
            kind: reply.kind,
            octets,
            seal,
        });
    }
}
