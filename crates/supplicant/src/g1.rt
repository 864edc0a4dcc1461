//! Message 1 of the group key handshake judged (IEEE Std 802.11-2020, 12.7.7.2). No memory is
//! taken.

ghost use Rattle.eapol_key.specs.Fields.{fields_of, IsKeyFrame};
ghost use Rattle.run_journal.specs.Replies.{IsEmpty};
ghost use Rattle.supplicant.specs.G1.{under_g1};
ghost use Rattle.supplicant.specs.G1.{IsG1};
ghost use Rattle.supplicant.specs.Told.{IsSilent};

use crate::key_data::{CarriedKeys, open};
use crate::m3::not_above;
use domain_base::Akm;
use eapol_key::{KeyFrame, verify};
use key_hierarchy::Ptk;
use mac_prf::KeptMicKey;
use run_journal::{Reason, Reply};

/// Judges a G1 under that key, where its replay counter has to be above the kept one: its group
/// keys, or why it is refused. The KCK comes into the reply as soon as the MIC verified.
pub fn judge_g1(
    mfp: bool,
    akm: Akm,
    mic_key: &KeptMicKey,
    key: &Ptk,
    kept: Option<u64>,
    frame: &KeyFrame<'_>,
    reply: &mut Reply,
) -> Result<CarriedKeys, Reason>
    requires frame { IsKeyFrame frame.now }
    requires empty { IsEmpty reply.old }
    ensures judged { IsG1 (under_g1 mfp akm key.now kept) (fields_of frame.now) frame.now.octets.now
        result reply.new.verified }
    ensures silent { IsSilent reply.new }
{
    if let Some(was) = not_above(kept, frame.counter) {
        return Err(Reason::Counter(was));
    }
    let (kck, kek) = (key.kck, key.kek);
    if !verify(mic_key, frame, akm, &kck) {
        return Err(Reason::Mic);
    }
    reply.verified = Some(kck);
    open(None, mfp, &kek, frame)
}
