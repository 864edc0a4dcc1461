//! The domain of a storm.

ghost use Rattle.std.specs.Prelude.{◌≡◌, ◌<◌, [], ◌∷◌, ◌++◌, IfOk, OnOk};
ghost use Rattle.storm.specs.Header.{ap_of, aps_to, domain_of, secrets, sta_of, stas_to};

use crate::generator::Generator;
use domain_base::{Akm, Mac, NoMemory, Octets};
use mac_prf::KdfKey;
use run_journal::{Aps, Domain, Extras, ListedAp, ListedSta, Stas, Version};
use std::alloc::Global;

/// What is drawn before the first event.
#[derive(Drop)]
pub(crate) struct Secrets {
    /// What the nodes draw from.
    pub(crate) seed: [u8; 32],
    /// The pre-shared key.
    pub(crate) psk: [u8; 32],
}

/// Draws the seed and the pre-shared key of a storm, which all its stations have.
pub(crate) fn draw_secrets(generator: &mut Generator) -> Secrets
    ensures seed { result.seed ≡ (secrets generator.old).0.seed }
    ensures psk { result.psk ≡ (secrets generator.old).0.psk }
    ensures state { generator.new ≡ (secrets generator.old).1 }
{
    let seed = generator.octets();
    let psk = generator.octets();
    Secrets { seed, psk }
}

// The access point of that number.
#[tactic(auto, unfolding(crate::specs::Header::ap_of))]
fn ap_of(alloc: Global, number: u8) -> Result<ListedAp, NoMemory>
    requires { number < 10 }
    ensures { IfOk result (λ ap. ap ≡ ap_of number) }
{
    let r0kh_id = Vec::from_slice(alloc, &[b'r', b'0', b'k', b'h', b'-', b'0' + number])?;
    Ok(ListedAp {
        address: Mac([2, 0, 0, 0, 0, number]),
        r0kh_id: Octets(r0kh_id),
    })
}

// One more access point.
fn list_ap(alloc: Global, aps: &mut Vec<ListedAp>, number: u8) -> Result<(), NoMemory>
    requires { number < 10 }
    ensures { OnOk result (aps.new.items ≡ aps.old.items ++ ap_of number ∷ []) }
{
    let ap = ap_of(alloc, number)?;
    aps.push(ap)?;
    Ok(())
}

// The access points.
#[tactic(auto, using(crate::proofs::Listed::listing))]
fn aps(alloc: Global) -> Result<Aps, NoMemory>
    ensures { IfOk result (λ aps. aps ≡ aps_to 4) }
{
    let mut aps = Vec::new(alloc);
    for place in 0..4u8 {
        list_ap(alloc, &mut aps, place + 1)?;
    }
    Ok(Aps(aps))
}

// The station of that number.
#[tactic(auto, unfolding(crate::specs::Header::sta_of))]
fn sta_of(psk: [u8; 32], number: u8) -> ListedSta
    ensures { result ≡ sta_of psk number }
{
    ListedSta {
        address: Mac([2, 0, 0, 0, 1, number]),
        psk,
    }
}

// The stations.
#[tactic(auto, using(crate::proofs::Listed::listing))]
fn stas(alloc: Global, psk: [u8; 32]) -> Result<Stas, NoMemory>
    ensures { IfOk result (λ stas. stas ≡ stas_to psk 8) }
{
    let mut stas = Stas::new(alloc);
    for place in 0..8u8 {
        stas.push(sta_of(psk, place + 1))?;
    }
    Ok(stas)
}

/// The domain of the storm of that number.
#[tactic(auto, unfolding(crate::specs::Header::domain_of))]
pub(crate) fn domain(alloc: Global, number: u32) -> Result<Domain, NoMemory>
    ensures { IfOk result (λ d. d ≡ domain_of number) }
{
    let Secrets { seed, psk } = draw_secrets(&mut Generator::new(number));
    let ssid = Vec::from_slice(alloc, b"storm")?;
    let aps = aps(alloc)?;
    let stas = stas(alloc, psk)?;
    Ok(Domain {
        seed: KdfKey::new(&seed),
        ssid: Octets(ssid),
        akm: Akm::FtPsk,
        mdid: [0xa1, 0xb2],
        extras: Extras {
            version: Version::One,
            renew_at: None,
            mfp: false,
        },
        aps,
        stas,
    })
}
