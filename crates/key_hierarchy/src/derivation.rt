//! The pre-shared key of a passphrase, and the pairwise transient key of any suite.

ghost use Rattle.std.specs.Prelude.{◌≡◌};
ghost use Rattle.mac_prf.specs.Pbkdf2.{pbkdf2};
ghost use Rattle.key_hierarchy.specs.Keys.{ptk};
ghost use Rattle.key_hierarchy.specs.Sizes.{IsSsid, IsR0khId};

use crate::fast_transition::{PmkR0, ptk_from_r1};
use crate::inputs::{Inputs, Ptk};
use crate::pairwise::pairwise_ptk;
use domain_base::Akm;
use mac_prf::pbkdf2;

/// The pre-shared key of a passphrase, of 8 to 63 octets with codes 32 to 126, and an SSID of 1 to
/// 32 octets (IEEE Std 802.11-2020, J.4). Takes no memory.
pub fn psk_of(passphrase: &[u8], ssid: &[u8]) -> [u8; 32]
    ensures { result ≡ pbkdf2 passphrase.now ssid.now }
{
    pbkdf2(passphrase, ssid)
}

/// The pairwise transient key of the inputs by their suite (IEEE Std 802.11-2020, 12.7.1.3 and
/// 12.7.1.6). Takes no memory.
pub fn ptk_of(inputs: &Inputs) -> Ptk
    requires ssid { inputs.now.akm ≡ Akm.FtPsk → IsSsid inputs.now.ssid }
    requires r0kh_id { inputs.now.akm ≡ Akm.FtPsk → IsR0khId inputs.now.r0kh_id }
    ensures { result ≡ ptk inputs.now }
{
    let Inputs {
        akm,
        psk,
        ssid,
        mdid,
        r0kh_id,
        aa,
        spa,
        anonce,
        snonce,
    } = inputs;
    match akm {
        Akm::Psk | Akm::PskSha256 => pairwise_ptk(*akm, psk, *aa, *spa, anonce, snonce),
        Akm::FtPsk => {
            let r0 = PmkR0::derive(psk, ssid.as_slice(), *mdid, r0kh_id.as_slice(), *spa);
            ptk_from_r1(&r0.r1(*aa, *spa), snonce, anonce, *aa, *spa)
        }
    }
}
