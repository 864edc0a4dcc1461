//! The packet numbers that a receiver took (IEEE Std 802.11-2020, 12.5.3.4.4).

ghost use Rattle.std.specs.Prelude.{◌≡◌, ◌<◌, ◌≤◌, replicate, slice_set, IfErr, MatchResult};
ghost use Rattle.replay_window.specs.Numbers.{kept_for};

use domain_base::Tid;
use std::marker::Model;

/// The packet number is not above the kept one, which is given.
#[derive(Clone, Copy, PartialEq, Eq)]
pub struct Replayed(pub u64);

/// For each traffic identifier the greatest packet number that was taken, the replay counters of a
/// pairwise key. Frames without a QoS Control field use that of traffic identifier 0. Contracts see
/// the list of the 16 numbers.
///
/// A group key has one counter: who keeps it passes traffic identifier 0 with every frame.
#[derive(Drop)]
pub struct RecvCounters {
    kept: [u64; 16],
}

impl Model for RecvCounters {
    ghost use Rattle.std.specs.Prelude.{ℕ, List, length, ◌≡◌};

    ghost Value = { List ℕ };

    ghost view = { λ s. s.kept };

    ghost invariant = { λ s. length s.kept ≡ 16 };
}

impl RecvCounters {
    /// As if that number were the last that was taken with each traffic identifier: the receive
    /// sequence counter (RSC) that came with the key, or 0.
    pub fn from(rsc: u64) -> Self
        ensures { result ≡ replicate 16 rsc }
    {
        RecvCounters { kept: [rsc; 16] }
    }

    /// Whether a number may be taken. `Replayed` comes exactly where it is at most the one kept for
    /// the traffic identifier.
    pub fn look(&self, tid: Tid, pn: u64) -> Result<(), Replayed>
        ensures fresh { MatchResult result (λ _. kept_for tid self.now < pn)
            (λ _. pn ≤ kept_for tid self.now) }
        ensures kept { IfErr result (λ e. e.0 ≡ kept_for tid self.now) }
    {
        let kept = self.kept[tid.number() as usize];
        if pn <= kept {
            Err(Replayed(kept))
        } else {
            Ok(())
        }
    }

    /// Takes a number that `look` does not refuse: it is the kept one of its traffic identifier
    /// from now on, and those of the others stay.
    pub fn take(&mut self, tid: Tid, pn: u64)
        requires { kept_for tid self.old < pn }
        ensures { self.new ≡ slice_set self.old tid pn }
    {
        self.kept[tid.number() as usize] = pn;
    }
}
