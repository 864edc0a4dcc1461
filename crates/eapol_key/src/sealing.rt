//! The MIC of a frame.

ghost use Rattle.std.specs.Prelude.{◌≡◌, ◌≤◌, ◌↔◌, IsTrue, length};
ghost use Rattle.mac_prf.specs.Mic.{mic};
ghost use Rattle.eapol_key.specs.Fields.{IsKeyFrame};
ghost use Rattle.eapol_key.specs.Sealed.{sealed};

use crate::frame::KeyFrame;
use crate::layout::{MIC_AT, MIC_LEN};
use domain_base::Akm;
use mac_prf::KeptMicKey;

/// Puts the MIC by the AKM and KCK into a frame of at least 99 octets, over whatever stands in its
/// MIC field (IEEE Std 802.11-2020, 12.7.2). Where the KCK is the kept one it is not looked at
/// anew. Takes no memory.
pub fn seal(kept: &KeptMicKey, akm: Akm, kck: &[u8; 16], frame: &mut [u8])
    requires { 99 ≤ length frame.old }
    ensures { frame.new ≡ sealed akm kck.now frame.old }
{
    let code = kept.mic(akm, kck, frame);
    frame[MIC_AT..MIC_AT + MIC_LEN].copy_from_slice(&code);
}

/// Whether a frame that octets spell carries the MIC that the AKM and KCK give it
/// (IEEE Std 802.11-2020, 12.7.2). Where the KCK is the kept one it is not looked at anew. Takes no
/// memory.
pub fn verify(kept: &KeptMicKey, frame: &KeyFrame<'_>, akm: Akm, kck: &[u8; 16]) -> bool
    requires { IsKeyFrame frame.now }
    ensures { IsTrue result ↔ (frame.now.mic ≡ mic akm kck.now frame.now.octets.now) }
{
    let octets = frame.octets;
    frame.mic == kept.mic(akm, kck, octets)
}
