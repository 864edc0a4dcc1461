//! Message 3 of the four-way handshake judged (IEEE Std 802.11-2020, 12.7.6.4). No memory is taken.

ghost use Rattle.std.specs.Prelude.{◌≡◌, ◌↔◌, IsTrue, MatchOption};
ghost use Rattle.eapol_key.specs.Fields.{fields_of, IsKeyFrame};
ghost use Rattle.run_journal.specs.Replies.{IsEmpty};
ghost use Rattle.supplicant.specs.M3.{under, IsM3, IsAbove, IsNotAbove};
ghost use Rattle.supplicant.specs.Told.{IsSilent};

use crate::base::Base;
use crate::key_data::{CarriedKeys, open};
use eapol_key::{KeyFrame, verify};
use mac_prf::KeptMicKey;
use run_journal::{Keyed, Reason, Reply};

/// The counter that is kept, where that of a message is not above it.
pub fn not_above(kept: Option<u64>, counter: u64) -> Option<u64>
    ensures { MatchOption result (IsAbove kept counter) (λ was. IsNotAbove kept counter was) }
{
    let Some(kept) = kept else { return None };
    if counter <= kept { Some(kept) } else { None }
}

// Whether two nonces are the same.
fn is_same_nonce(nonce: &[u8; 32], other: &[u8; 32]) -> bool
    ensures { IsTrue result ↔ (nonce.now ≡ other.now) }
{
    nonce == other
}

/// Judges an M3 under that key, where its replay counter has to be above the kept one: its group
/// keys, or why it is refused. The KCK comes into the reply as soon as the MIC verified.
pub fn judge_m3(
    mfp: bool,
    base: &Base,
    mic_key: &KeptMicKey,
    key: &Keyed,
    kept: Option<u64>,
    frame: &KeyFrame<'_>,
    reply: &mut Reply,
) -> Result<CarriedKeys, Reason>
    requires frame { IsKeyFrame frame.now }
    requires empty { IsEmpty reply.old }
    ensures judged { IsM3 (under mfp base.now key.now kept) (fields_of frame.now) frame.now.octets.now
        result reply.new.verified }
    ensures silent { IsSilent reply.new }
{
    if let Some(was) = not_above(kept, frame.counter) {
        return Err(Reason::Counter(was));
    }
    let (nonce, anonce) = (frame.nonce, key.anonce);
    if !is_same_nonce(&nonce, &anonce) {
        return Err(Reason::Nonce);
    }
    let (kck, kek) = (key.ptk.kck, key.ptk.kek);
    if !verify(mic_key, frame, base.akm, &kck) {
        return Err(Reason::Mic);
    }
    reply.verified = Some(kck);
    open(Some(base), mfp, &kek, frame)
}
