//! The nonces and the MIC in the FTE of a frame of reassociation (IEEE Std 802.11-2020, 13.8.4 and
//! 13.8.5).

ghost use Rattle.std.specs.Prelude.{◌≡◌, Some};
ghost use Rattle.rsn_elements.specs.Elements.{HasRaw};
ghost use Rattle.rsn_elements.specs.Fields.{fte_fields, element_fields};
ghost use Rattle.ft_exchange.specs.Tried.{IsCovered, input_of, has_nonces_of, is_with};
ghost use Rattle.ft_exchange.specs.Tried.{tried_mic, tried, tried_reason, verified_key};

use domain_base::Mac;
use mac_prf::{FteCovered, KeptMicKey, Reassociation, verify_fte_mic};
use rsn_elements::{Elements, Fte};
use run_journal::{Keyed, Reason};

/// What came of the nonces and the MIC of a frame of reassociation.
#[derive(Clone, Copy)]
pub enum Tried {
    /// There is no FTE, or not all is there that its MIC covers: the MIC was not tried.
    Nothing,
    /// The nonces are not those of the key.
    OtherNonces,
    /// The MIC does not verify.
    OtherMic,
    /// The MIC verified.
    Verified,
}

impl Tried {
    /// Why the frame is refused, if it is.
    pub fn reason(self) -> Option<Reason>
        ensures { result ≡ tried_reason self }
    {
        match self {
            Tried::OtherNonces => Some(Reason::Nonce),
            Tried::OtherMic => Some(Reason::Mic),
            _ => None,
        }
    }

    /// The KCK under which the frame verified, of that key.
    pub fn kck(self, key: &Keyed) -> Option<[u8; 16]>
        ensures { result ≡ verified_key key.now self }
    {
        match self {
            Tried::Verified => Some(key.ptk.kck),
            _ => None,
        }
    }
}

/// The two ends of a frame of reassociation, and which of the two frames it is.
#[derive(Clone, Copy)]
pub struct Between {
    /// The station.
    pub station: Mac,
    /// The access point.
    pub bssid: Mac,
    /// Which frame.
    pub frame: Reassociation,
}

// What the MIC covers, where all of it is there.
fn covered<'a>(between: Between, elements: &Elements<'a>) -> Option<FteCovered<'a>>
    ensures covered { IsCovered between (element_fields elements.now) result }
{
    let Some(rsne) = elements.rsne_octets else {
        return None;
    };
    let Some(mde) = elements.mde_octets else {
        return None;
    };
    let Some(fte) = elements.fte_octets else {
        return None;
    };
    Some(FteCovered {
        station: between.station,
        bssid: between.bssid,
        frame: between.frame,
        rsne,
        mde,
        fte,
    })
}

// Whether the FTE has the nonces of the key.
fn has_nonces(fte: &Fte<'_>, key: &Keyed) -> bool
    ensures { result ≡ has_nonces_of (fte_fields fte.now) key.now }
{
    fte.anonce == key.anonce && fte.snonce == key.snonce
}

/// Whether there is an FTE that has the nonces of the key.
pub fn is_with(elements: &Elements<'_>, key: &Keyed) -> bool
    ensures { result ≡ is_with (element_fields elements.now) key.now }
{
    match &elements.fte {
        Some(fte) => has_nonces(fte, key),
        None => false,
    }
}

// The MIC of a frame with that FTE, which has the right nonces.
#[tactic(auto, using(crate::proofs::MicThere::long_fte, crate::proofs::MicThere::nothing_tried, crate::proofs::MicThere::mic_right, crate::proofs::MicThere::mic_wrong,))]
fn try_mic(
    kept: &KeptMicKey,
    key: &Keyed,
    between: Between,
    fte: &Fte<'_>,
    elements: &Elements<'_>,
) -> Tried
    requires raw { HasRaw (element_fields elements.now) }
    requires fte { (element_fields elements.now).fte ≡ Some (fte_fields fte.now) }
    ensures { result ≡ tried_mic key.now.ptk.kck (fte_fields fte.now)
        (input_of between (element_fields elements.now)) }
{
    let Some(covered) = covered(between, elements) else {
        return Tried::Nothing;
    };
    let kck = key.ptk.kck;
    if verify_fte_mic(kept, &kck, &covered) {
        Tried::Verified
    } else {
        Tried::OtherMic
    }
}

/// Tries the nonces and the MIC of a frame under that key. Where its KCK is the kept one that is
/// not looked at anew.
pub fn try_frame(kept: &KeptMicKey, key: &Keyed, between: Between, elements: &Elements<'_>) -> Tried
    requires raw { HasRaw (element_fields elements.now) }
    ensures { let e = element_fields elements.now
        in result ≡ tried key.now e.fte (input_of between e) }
{
    let Some(fte) = elements.fte else {
        return Tried::Nothing;
    };
    if !has_nonces(&fte, key) {
        return Tried::OtherNonces;
    }
    try_mic(kept, key, between, &fte, elements)
}
