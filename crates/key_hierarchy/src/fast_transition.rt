//! The FT key hierarchy of AKM suite 4.

ghost use Rattle.std.specs.Prelude.{◌≡◌, ◌≤◌, take, length};
ghost use Rattle.key_hierarchy.specs.FastTransition.{
  r0_context,
  pmk_r0,
  pmk_r0_name,
  r1_context,
  pmk_r1,
  pmk_r1_of,
  pmk_r1_name,
  ft_context,
  ft_ptk,
  ptk_name,
};
ghost use Rattle.key_hierarchy.specs.Sizes.{IsSsid, IsR0khId};

use crate::inputs::Ptk;
use domain_base::{Mac, array_at, put};
use mac_prf::kdf;
use sha2::{Digest, Sha256};

/// The first level of the hierarchy, of one network, mobility domain, R0 key holder and station
/// (IEEE Std 802.11-2020, 12.7.1.6.3).
#[derive(Clone, Copy)]
pub struct PmkR0 {
    /// PMK-R0.
    pub key: [u8; 32],
    /// PMK-R0Name-Salt, from which its name is made.
    pub salt: [u8; 16],
}

/// The second level of the hierarchy, of one access point (IEEE Std 802.11-2020, 12.7.1.6.4).
#[derive(Clone, Copy)]
pub struct PmkR1 {
    /// PMK-R1.
    pub key: [u8; 32],
    /// PMKR1Name.
    pub name: [u8; 16],
}

// An SSID of 32 octets behind its length, an MDID, an R0KH-ID of 48 behind its length, an address.
const LONGEST_R0_CONTEXT: usize = 1 + 32 + 2 + 1 + 48 + 6;

// The front of a digest, as names are cut (Truncate-128).
fn truncated(digest: &[u8; 32]) -> [u8; 16]
    ensures { result ≡ take 16 digest.now }
{
    array_at(digest, 0)
}

// Writes the context of a PMK-R0 to the front of `out` and answers its length.
fn put_r0_context(
    ssid: &[u8],
    mdid: [u8; 2],
    r0kh_id: &[u8],
    sta: Mac,
    out: &mut [u8; LONGEST_R0_CONTEXT],
) -> usize
    requires ssid { IsSsid ssid.now }
    requires r0kh_id { IsR0khId r0kh_id.now }
    ensures front { take result out.new ≡ r0_context ssid.now mdid r0kh_id.now sta }
    ensures end { result ≤ LONGEST_R0_CONTEXT }
{
    let end = put(out, 0, &[ssid.len() as u8]);
    let end = put(out, end, ssid);
    let end = put(out, end, &mdid);
    let end = put(out, end, &[r0kh_id.len() as u8]);
    let end = put(out, end, r0kh_id);
    put(out, end, &sta.0)
}

impl PmkR0 {
    /// The PMK-R0 of a pre-shared key, an SSID of 1 to 32 octets, a mobility domain, an R0 key
    /// holder by its id of 1 to 48 octets, and a station (IEEE Std 802.11-2020, 12.7.1.6.3). Takes
    /// no memory.
    pub fn derive(psk: &[u8; 32], ssid: &[u8], mdid: [u8; 2], r0kh_id: &[u8], sta: Mac) -> PmkR0
        requires ssid { IsSsid ssid.now }
        requires r0kh_id { IsR0khId r0kh_id.now }
        ensures { result ≡ pmk_r0 psk.now ssid.now mdid r0kh_id.now sta }
    {
        let mut context = [0; LONGEST_R0_CONTEXT];
        let end = put_r0_context(ssid, mdid, r0kh_id, sta, &mut context);
        let mut octets = [0; 48];
        kdf(psk, b"FT-R0", &context[..end], &mut octets);
        PmkR0 {
            key: array_at(&octets, 0),
            salt: array_at(&octets, 32),
        }
    }

    /// PMKR0Name (IEEE Std 802.11-2020, 12.7.1.6.3).
    pub fn name(&self) -> [u8; 16]
        ensures { result ≡ pmk_r0_name self.now }
    {
        let mut hasher = Sha256::new();
        hasher.update(b"FT-R0N");
        hasher.update(&self.salt);
        truncated(&hasher.finalize())
    }

    /// The PMK-R1 that this makes for an R1 key holder and the station, with its name
    /// (IEEE Std 802.11-2020, 12.7.1.6.4). Takes no memory.
    pub fn r1(&self, r1kh: Mac, sta: Mac) -> PmkR1
        ensures r1 { result ≡ pmk_r1 self.now r1kh sta }
        ensures name { result.name ≡ pmk_r1_name (pmk_r0_name self.now) r1kh sta }
    {
        PmkR1::of(&self.key, &self.name(), r1kh, sta)
    }
}

// The key holder and the station.
fn r1_context(r1kh: Mac, sta: Mac) -> [u8; 12]
    ensures { result ≡ r1_context r1kh sta }
{
    let mut context = [0; 12];
    let end = put(&mut context, 0, &r1kh.0);
    put(&mut context, end, &sta.0);
    context
}

/// PMKR1Name of the PMK-R1 that the PMK-R0 of a PMKR0Name makes for an R1 key holder and the station
/// (IEEE Std 802.11-2020, 12.7.1.6.4). Takes no memory.
pub fn r1_name(r0_name: &[u8; 16], r1kh: Mac, sta: Mac) -> [u8; 16]
    ensures { result ≡ pmk_r1_name r0_name.now r1kh sta }
{
    let mut hasher = Sha256::new();
    hasher.update(b"FT-R1N");
    hasher.update(r0_name);
    hasher.update(&r1_context(r1kh, sta));
    truncated(&hasher.finalize())
}

impl PmkR1 {
    /// The PMK-R1 that a PMK-R0, by its octets and its name, makes for an R1 key holder and the
    /// station (IEEE Std 802.11-2020, 12.7.1.6.4). Takes no memory.
    pub fn of(pmk_r0: &[u8; 32], pmk_r0_name: &[u8; 16], r1kh: Mac, sta: Mac) -> PmkR1
        ensures { result ≡ pmk_r1_of pmk_r0.now pmk_r0_name.now r1kh sta }
    {
        let mut key = [0; 32];
        kdf(pmk_r0, b"FT-R1", &r1_context(r1kh, sta), &mut key);
        let name = r1_name(pmk_r0_name, r1kh, sta);
        PmkR1 { key, name }
    }

    /// PMKR1Name (IEEE Std 802.11-2020, 12.7.1.6.4).
    pub fn name(&self) -> [u8; 16]
        ensures { result ≡ self.now.name }
    {
        self.name
    }
}

// Both nonces, the supplicant's first, the BSSID and the station's address.
fn ft_context(snonce: &[u8; 32], anonce: &[u8; 32], bssid: Mac, sta: Mac) -> [u8; 76]
    ensures { result ≡ ft_context snonce.now anonce.now bssid sta }
{
    let mut context = [0; 76];
    let end = put(&mut context, 0, snonce);
    let end = put(&mut context, end, anonce);
    let end = put(&mut context, end, &bssid.0);
    put(&mut context, end, &sta.0);
    context
}

/// The pairwise transient key of a PMK-R1 (IEEE Std 802.11-2020, 12.7.1.6.5). Takes no memory.
pub fn ptk_from_r1(r1: &PmkR1, snonce: &[u8; 32], anonce: &[u8; 32], bssid: Mac, sta: Mac) -> Ptk
    ensures { result ≡ ft_ptk r1.now snonce.now anonce.now bssid sta }
{
    let context = ft_context(snonce, anonce, bssid, sta);
    let mut octets = [0; 48];
    kdf(&r1.key, b"FT-PTK", &context, &mut octets);
    Ptk::from_octets(&octets)
}

/// PTKName, the name of that key (IEEE Std 802.11-2020, 12.7.1.6.5). Takes no memory.
pub fn ptk_name(r1: &PmkR1, snonce: &[u8; 32], anonce: &[u8; 32], bssid: Mac, sta: Mac) -> [u8; 16]
    ensures { result ≡ ptk_name r1.now snonce.now anonce.now bssid sta }
{
    let mut hasher = Sha256::new();
    hasher.update(&r1.name);
    hasher.update(b"FT-PTKN");
    hasher.update(&ft_context(snonce, anonce, bssid, sta));
    truncated(&hasher.finalize())
}
