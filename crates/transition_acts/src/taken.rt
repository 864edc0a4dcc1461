//! The memory that the act of taking a frame of a fast transition takes, taken before anything is
//! done.

ghost use Rattle.std.specs.Prelude.{◌≡◌, ◌<◌, ◌+◌, ◌++◌, [], ◌∷◌, ℕ, List, Option, None, Some};
ghost use Rattle.std.specs.Prelude.{IfOk, option_map};
ghost use Rattle.mac_prf.specs.FteMic.{input_of};
ghost use Rattle.run_journal.specs.declared.acts.Act.TheVariants.{Took};
ghost use Rattle.ft_exchange.specs.Told.{taken_seal};
ghost use Rattle.transition_acts.specs.Seals.{formed, seal_of};

use crate::covering::cover;
use act_memory::Outbox;
use domain_base::{NoMemory, Node, Octets};
use mac_prf::FteCovered;
use run_journal::{Act, BoxedSeal, Kind, Outcome, Seal};
use std::alloc::Global;

// The form and what a MIC covers, where there is something.
fn covered(alloc: Global, parts: Option<FteCovered<'_>>) -> Result<Option<Vec<u8>>, NoMemory>
    ensures { IfOk result (λ octets. option_map (λ v. v.items) octets
        ≡ formed (option_map input_of parts.entry)) }
{
    match parts {
        Some(parts) => Ok(Some(cover(alloc, &parts)?)),
        None => Ok(None),
    }
}

// These octets under that key, in that memory for a seal, where there are both.
fn seal_of(octets: Option<Vec<u8>>, room: BoxedSeal, kck: Option<[u8; 16]>) -> Option<BoxedSeal>
    ensures { result ≡ seal_of (option_map (λ v. v.items) octets) kck }
{
    let Some(octets) = octets else { return None };
    let Some(key) = kck else { return None };
    let octets = Octets(octets);
    Some(room.filled(Seal { octets, key }))
}

/// The memory that the act of taking a frame takes.
#[derive(Drop)]
pub struct TakenRoom {
    octets: Vec<u8>,
    // The form, and what the MIC of the frame covers, where all of it is there.
    covered: Option<Vec<u8>>,
    seal: BoxedSeal,
}

impl TakenRoom {
    ghost use Rattle.transition_acts.specs.Rooms.{IsTakenRoom};

    /// Takes it, for these octets, whose MIC covers these parts, where it has one.
    pub fn take(
        alloc: Global,
        octets: &[u8],
        parts: Option<FteCovered<'_>>,
    ) -> Result<Self, NoMemory>
        ensures { IfOk result (λ room. IsTakenRoom octets.now (option_map input_of parts.entry)
            room) }
    {
        let covered = covered(alloc, parts)?;
        let octets = Vec::from_slice(alloc, octets)?;
        let seal = BoxedSeal::room(alloc)?;
        Ok(TakenRoom {
            octets,
            covered,
            seal,
        })
    }

    /// A frame without a MIC came from the peer.
    pub fn add_plain(self, peer: Node, kind: Kind, outcome: Outcome, out: &mut Outbox)
        requires { 0 < out.old.spare }
        ensures acts { (octets : List ℕ) (input : Option (List ℕ)) → IsTakenRoom octets input self
            → out.new.acts ≡ out.old.acts ++ Took (Some peer) octets kind outcome None ∷ [] }
        ensures spare { out.new.spare + 1 ≡ out.old.spare }
    {
        let TakenRoom { octets, .. } = self;
        let octets = Octets(octets);
        out.add(Act::Took {
            from: Some(peer),
            octets,
            kind,
            outcome,
            seal: None,
        });
    }

    /// A frame came from the peer whose MIC verified under that KCK, or did not.
    pub fn add_sealed(
        self,
        peer: Node,
        kind: Kind,
        outcome: Outcome,
        verified: Option<[u8; 16]>,
        out: &mut Outbox,
    )
        requires { 0 < out.old.spare }
        ensures acts { (octets : List ℕ) (input : Option (List ℕ)) → IsTakenRoom octets input self
            → out.new.acts ≡ out.old.acts ++ Took (Some peer) octets kind outcome
            (taken_seal input verified) ∷ [] }
        ensures spare { out.new.spare + 1 ≡ out.old.spare }
    {
        let TakenRoom {
            octets,
            covered,
            seal,
        } = self;
        let octets = Octets(octets);
        out.add(Act::Took {
            from: Some(peer),
            octets,
            kind,
            outcome,
            seal: seal_of(covered, seal, verified),
        });
    }
}
