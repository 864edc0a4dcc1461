//! The keys of the FT hierarchy that were derived last, with what they were derived from, and the
//! pre-shared key of suite 6 that was looked at last, for the next time that the same are asked
//! for.

ghost use Rattle.std.specs.Prelude.{◌≡◌, IfSome, IsTrue};
ghost use Rattle.domain_base.specs.declared.names.Akm.TheVariants.{PskSha256};
ghost use Rattle.key_hierarchy.specs.FastTransition.{pmk_r0, pmk_r0_name, pmk_r1, pmk_r1_of};
ghost use Rattle.key_hierarchy.specs.Keys.{pairwise_ptk};
ghost use Rattle.key_hierarchy.specs.Sizes.{IsSsid, IsR0khId};

use crate::fast_transition::{PmkR0, PmkR1};
use crate::inputs::Ptk;
use crate::pairwise::{keyed_ptk, pairwise_ptk};
use domain_base::{Akm, Mac, ShortOctets};
use mac_prf::KdfKey;
use std::marker::Model;

/// A PMK-R0 with its name, PMKR0Name (IEEE Std 802.11-2020, 12.7.1.6.3). Contracts see the PMK-R0.
#[derive(Drop)]
pub struct NamedR0 {
    r0: PmkR0,
    name: [u8; 16],
}

impl Model for NamedR0 {
    ghost use Rattle.std.specs.Prelude.{◌≡◌};
    ghost use Rattle.key_hierarchy.specs.declared.fast_transition.PmkR0.{PmkR0};
    ghost use Rattle.key_hierarchy.specs.FastTransition.{pmk_r0_name};

    ghost Value = { PmkR0 };

    ghost view = { λ n. n.r0 };

    ghost invariant = { λ n. n.name ≡ pmk_r0_name n.r0 };
}

impl NamedR0 {
    /// That PMK-R0.
    pub fn of(r0: PmkR0) -> Self
        ensures { result ≡ r0 }
    {
        NamedR0 {
            r0,
            name: r0.name(),
        }
    }

    // A second one, whose name is not made anew.
    fn fork(&self) -> Self
        ensures { result ≡ self.now }
    {
        NamedR0 {
            r0: self.r0,
            name: self.name,
        }
    }

    /// The PMK-R0.
    pub fn r0(&self) -> PmkR0
        ensures { result ≡ self.now }
    {
        self.r0
    }

    /// PMKR0Name, which is not made anew.
    pub fn name(&self) -> [u8; 16]
        ensures { result ≡ pmk_r0_name self.now }
    {
        self.name
    }

    /// Both.
    pub fn parts(&self) -> (PmkR0, [u8; 16])
        ensures r0 { result.0 ≡ self.now }
        ensures name { result.1 ≡ pmk_r0_name result.0 }
    {
        (self.r0, self.name)
    }

    /// The PMK-R1 that it makes for an R1 key holder and the station, as `PmkR0::r1` gives it.
    pub fn r1(&self, r1kh: Mac, sta: Mac) -> PmkR1
        ensures { result ≡ pmk_r1 self.now r1kh sta }
    {
        PmkR1::of(&self.r0.key, &self.name, r1kh, sta)
    }
}

// A PMK-R0 with what it was derived from.
#[derive(Drop)]
struct DerivedR0 {
    psk: [u8; 32],
    ssid: ShortOctets<32>,
    mdid: [u8; 2],
    r0kh_id: ShortOctets<48>,
    sta: Mac,
    r0: NamedR0,
    ghost derived: { r0 ≡ pmk_r0 psk ssid mdid r0kh_id sta },
}

impl DerivedR0 {
    // That PMK-R0, which was derived from these.
    fn of(psk: &[u8; 32], ssid: &[u8], mdid: [u8; 2], r0kh_id: &[u8], sta: Mac, r0: NamedR0) -> Self
        requires ssid { IsSsid ssid.now }
        requires r0kh_id { IsR0khId r0kh_id.now }
        requires derived { r0 ≡ pmk_r0 psk.now ssid.now mdid r0kh_id.now sta }
    {
        DerivedR0 {
            psk: *psk,
            ssid: ShortOctets::of(ssid),
            mdid,
            r0kh_id: ShortOctets::of(r0kh_id),
            sta,
            r0,
        }
    }

    // Whether it was derived from these.
    fn is_of(&self, psk: &[u8; 32], ssid: &[u8], mdid: [u8; 2], r0kh_id: &[u8], sta: Mac) -> bool
        ensures { IsTrue result → (self.now.sta ≡ sta) × (self.now.psk ≡ psk.now)
            × (self.now.mdid ≡ mdid) × (self.now.ssid ≡ ssid.now)
            × (self.now.r0kh_id ≡ r0kh_id.now) }
    {
        self.sta == sta
            && self.psk == *psk
            && self.mdid == mdid
            && self.ssid.as_slice() == ssid
            && self.r0kh_id.as_slice() == r0kh_id
    }

    // The PMK-R0, where it was derived from these.
    fn given(
        &self,
        psk: &[u8; 32],
        ssid: &[u8],
        mdid: [u8; 2],
        r0kh_id: &[u8],
        sta: Mac,
    ) -> Option<NamedR0>
        ensures { IfSome result (λ r0. r0 ≡ pmk_r0 psk.now ssid.now mdid r0kh_id.now sta) }
    {
        if self.is_of(psk, ssid, mdid, r0kh_id, sta) {
            Some(self.r0.fork())
        } else {
            None
        }
    }
}

// A PMK-R1 with what it was derived from.
#[derive(Drop)]
struct DerivedR1 {
    key: [u8; 32],
    name: [u8; 16],
    r1kh: Mac,
    sta: Mac,
    r1: PmkR1,
    ghost derived: { r1 ≡ pmk_r1_of key name r1kh sta },
}

impl DerivedR1 {
    // That PMK-R1, which was derived from these.
    fn of(r0: &NamedR0, r1kh: Mac, sta: Mac, r1: PmkR1) -> Self
        requires derived { r1 ≡ pmk_r1 r0.now r1kh sta }
    {
        let (key, name) = (r0.r0().key, r0.name());
        DerivedR1 {
            key,
            name,
            r1kh,
            sta,
            r1,
        }
    }

    // Whether it was derived from these.
    fn is_of(&self, r0: &NamedR0, r1kh: Mac, sta: Mac) -> bool
        ensures { IsTrue result → (self.now.r1kh ≡ r1kh) × (self.now.sta ≡ sta)
            × (self.now.key ≡ r0.now.key) × (self.now.name ≡ pmk_r0_name r0.now) }
    {
        let (key, name) = (r0.r0().key, r0.name());
        self.r1kh == r1kh && self.sta == sta && self.key == key && self.name == name
    }

    // The PMK-R1, where it was derived from these.
    fn given(&self, r0: &NamedR0, r1kh: Mac, sta: Mac) -> Option<PmkR1>
        ensures { IfSome result (λ r1. r1 ≡ pmk_r1 r0.now r1kh sta) }
    {
        if self.is_of(r0, r1kh, sta) {
            Some(self.r1)
        } else {
            None
        }
    }
}

// The PMK-R0 and the PMK-R1 that were derived last for some stations.
#[derive(Drop)]
struct Last {
    r0: Option<DerivedR0>,
    r1: Option<DerivedR1>,
}

impl Last {
    // None yet.
    fn none() -> Self {
        Last { r0: None, r1: None }
    }

    // The last PMK-R0, where it was derived from these.
    fn found_r0(
        &self,
        psk: &[u8; 32],
        ssid: &[u8],
        mdid: [u8; 2],
        r0kh_id: &[u8],
        sta: Mac,
    ) -> Option<NamedR0>
        ensures { IfSome result (λ r0. r0 ≡ pmk_r0 psk.now ssid.now mdid r0kh_id.now sta) }
    {
        match &self.r0 {
            Some(last) => last.given(psk, ssid, mdid, r0kh_id, sta),
            None => None,
        }
    }

    // The PMK-R0. Where it is the last one it is not derived anew.
    fn r0(&self, psk: &[u8; 32], ssid: &[u8], mdid: [u8; 2], r0kh_id: &[u8], sta: Mac) -> NamedR0
        requires ssid { IsSsid ssid.now }
        requires r0kh_id { IsR0khId r0kh_id.now }
        ensures { result ≡ pmk_r0 psk.now ssid.now mdid r0kh_id.now sta }
    {
        match self.found_r0(psk, ssid, mdid, r0kh_id, sta) {
            Some(r0) => r0,
            None => NamedR0::of(PmkR0::derive(psk, ssid, mdid, r0kh_id, sta)),
        }
    }

    // The same, which is the last one from now on.
    fn keep_r0(
        &mut self,
        psk: &[u8; 32],
        ssid: &[u8],
        mdid: [u8; 2],
        r0kh_id: &[u8],
        sta: Mac,
    ) -> NamedR0
        requires ssid { IsSsid ssid.now }
        requires r0kh_id { IsR0khId r0kh_id.now }
        ensures { result ≡ pmk_r0 psk.now ssid.now mdid r0kh_id.now sta }
    {
        let r0 = self.r0(psk, ssid, mdid, r0kh_id, sta);
        let kept = r0.fork();
        self.r0 = Some(DerivedR0::of(psk, ssid, mdid, r0kh_id, sta, kept));
        r0
    }

    // The last PMK-R1, where it was derived from these.
    fn found_r1(&self, r0: &NamedR0, r1kh: Mac, sta: Mac) -> Option<PmkR1>
        ensures { IfSome result (λ r1. r1 ≡ pmk_r1 r0.now r1kh sta) }
    {
        match &self.r1 {
            Some(last) => last.given(r0, r1kh, sta),
            None => None,
        }
    }

    // The PMK-R1, which is the last one from now on. Where it was already it is not derived anew.
    fn keep_r1(&mut self, r0: &NamedR0, r1kh: Mac, sta: Mac) -> PmkR1
        ensures { result ≡ pmk_r1 r0.now r1kh sta }
    {
        if let Some(r1) = self.found_r1(r0, r1kh, sta) {
            return r1;
        }
        let r1 = r0.r1(r1kh, sta);
        self.r1 = Some(DerivedR1::of(r0, r1kh, sta, r1));
        r1
    }
}

// Whether it is that pre-shared key.
fn is_psk(key: &KdfKey, psk: &[u8; 32]) -> bool
    ensures { IsTrue result → key.now ≡ psk.now }
{
    key.octets() == *psk
}

/// The PMK-R0 and the PMK-R1 that were derived last, of each quarter of the stations: by the last
/// octet of their addresses. So stations that take turns do not drive out each other's. With them
/// the pre-shared key of suite 6 of which a pairwise key was derived last. No result tells whether
/// they were kept.
#[derive(Drop)]
pub struct LastDerived {
    psk: Option<KdfKey>,
    first: Last,
    second: Last,
    third: Last,
    fourth: Last,
}

impl LastDerived {
    /// None yet. Takes no memory.
    pub fn none() -> Self {
        LastDerived {
            psk: None,
            first: Last::none(),
            second: Last::none(),
            third: Last::none(),
            fourth: Last::none(),
        }
    }

    // The pre-shared key, where it is the one that was looked at last.
    fn found_psk(&self, psk: &[u8; 32]) -> Option<&KdfKey>
        ensures { IfSome result (λ key. key.now ≡ psk.now) }
    {
        let key = self.psk.as_ref()?;
        if is_psk(key, psk) { Some(key) } else { None }
    }

    // The pre-shared key is the one that was looked at last.
    fn keep_psk(&mut self, psk: &[u8; 32]) {
        let has = self.found_psk(psk).is_some();
        if !has {
            self.psk = Some(KdfKey::new(psk));
        }
    }

    /// The pairwise transient key of AKM suite 6 as [`pairwise_ptk`] gives it. Where the pre-shared
    /// key is that of the last one it is not looked at anew. Takes no memory.
    pub fn sha256_ptk(
        &mut self,
        psk: &[u8; 32],
        aa: Mac,
        spa: Mac,
        anonce: &[u8; 32],
        snonce: &[u8; 32],
    ) -> Ptk
        ensures { result ≡ pairwise_ptk PskSha256 psk.now aa spa anonce.now snonce.now }
    {
        self.keep_psk(psk);
        match self.found_psk(psk) {
            Some(key) => keyed_ptk(key, aa, spa, anonce, snonce),
            None => pairwise_ptk(Akm::PskSha256, psk, aa, spa, anonce, snonce),
        }
    }

    /// The PMK-R0 as `PmkR0::derive` gives it, with its name. Where it is the last one it is not
    /// derived anew. Takes no memory.
    pub fn r0(
        &self,
        psk: &[u8; 32],
        ssid: &[u8],
        mdid: [u8; 2],
        r0kh_id: &[u8],
        sta: Mac,
    ) -> NamedR0
        requires ssid { IsSsid ssid.now }
        requires r0kh_id { IsR0khId r0kh_id.now }
        ensures { result ≡ pmk_r0 psk.now ssid.now mdid r0kh_id.now sta }
    {
        match sta.0[5] % 4 {
            0 => self.first.r0(psk, ssid, mdid, r0kh_id, sta),
            1 => self.second.r0(psk, ssid, mdid, r0kh_id, sta),
            2 => self.third.r0(psk, ssid, mdid, r0kh_id, sta),
            _ => self.fourth.r0(psk, ssid, mdid, r0kh_id, sta),
        }
    }

    /// The same, which is the last one from now on.
    pub fn keep_r0(
        &mut self,
        psk: &[u8; 32],
        ssid: &[u8],
        mdid: [u8; 2],
        r0kh_id: &[u8],
        sta: Mac,
    ) -> NamedR0
        requires ssid { IsSsid ssid.now }
        requires r0kh_id { IsR0khId r0kh_id.now }
        ensures { result ≡ pmk_r0 psk.now ssid.now mdid r0kh_id.now sta }
    {
        match sta.0[5] % 4 {
            0 => self.first.keep_r0(psk, ssid, mdid, r0kh_id, sta),
            1 => self.second.keep_r0(psk, ssid, mdid, r0kh_id, sta),
            2 => self.third.keep_r0(psk, ssid, mdid, r0kh_id, sta),
            _ => self.fourth.keep_r0(psk, ssid, mdid, r0kh_id, sta),
        }
    }

    /// The PMK-R1 that a PMK-R0 makes for an R1 key holder and the station, with its name, which is
    /// the last one from now on. Where it was already it is not derived anew. Takes no memory.
    pub fn keep_r1(&mut self, r0: &NamedR0, r1kh: Mac, sta: Mac) -> PmkR1
        ensures { result ≡ pmk_r1 r0.now r1kh sta }
    {
        match sta.0[5] % 4 {
            0 => self.first.keep_r1(r0, r1kh, sta),
            1 => self.second.keep_r1(r0, r1kh, sta),
            2 => self.third.keep_r1(r0, r1kh, sta),
            _ => self.fourth.keep_r1(r0, r1kh, sta),
        }
    }
}
