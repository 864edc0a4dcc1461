//! What a key holder keeps.

ghost use Rattle.std.specs.Prelude.{◌≡◌};
ghost use Rattle.domain_base.specs.declared.names.Mac.{Mac};
ghost use Rattle.key_hierarchy.specs.FastTransition.{pmk_r0, pmk_r1};
ghost use Rattle.key_hierarchy.specs.Sizes.{IsSsid, IsR0khId};
ghost use Rattle.key_holders.specs.Keys.{row_of, row_r1};

use domain_base::Mac;
use key_hierarchy::{LastDerived, NamedR0, PmkR0, PmkR1};

/// The most rows of one access point, revoked ones counted.
pub const ROWS: usize = 64;

/// A PMK-R0 with its name and its station (IEEE Std 802.11-2020, 12.7.1.6.3).
#[derive(Clone, Copy, PartialEq, Eq, Hash)]
pub struct HolderRow {
    /// PMKR0Name.
    pub name: [u8; 16],
    /// PMK-R0.
    pub key: [u8; 32],
    /// The station's address: S0KH-ID and S1KH-ID.
    pub sta: Mac,
}

/// A row that was put, and whether it is live: not revoked since.
#[derive(Clone, Copy)]
pub struct HeldRow {
    /// What was put.
    pub row: HolderRow,
    /// Whether it was not revoked.
    pub live: bool,
}

impl HolderRow {
    /// The row of a pre-shared key, an SSID of 1 to 32 octets, a mobility domain, an R0 key holder
    /// by its id of 1 to 48 octets, and a station (IEEE Std 802.11-2020, 12.7.1.6.3). Takes no
    /// memory.
    pub fn derive(psk: &[u8; 32], ssid: &[u8], mdid: [u8; 2], r0kh_id: &[u8], sta: Mac) -> HolderRow
        requires ssid { IsSsid ssid.now }
        requires r0kh_id { IsR0khId r0kh_id.now }
        ensures row { result ≡ row_of (pmk_r0 psk.now ssid.now mdid r0kh_id.now sta) sta }
        ensures keys { (r1kh : Mac) → row_r1 result r1kh ≡
            pmk_r1 (pmk_r0 psk.now ssid.now mdid r0kh_id.now sta) r1kh sta }
    {
        let r0 = NamedR0::of(PmkR0::derive(psk, ssid, mdid, r0kh_id, sta));
        HolderRow::of(&r0, sta)
    }

    /// The same. Where its PMK-R0 is the last one that was derived it is not derived anew. Takes no
    /// memory.
    pub fn of_last(
        derived: &LastDerived,
        psk: &[u8; 32],
        ssid: &[u8],
        mdid: [u8; 2],
        r0kh_id: &[u8],
        sta: Mac,
    ) -> HolderRow
        requires ssid { IsSsid ssid.now }
        requires r0kh_id { IsR0khId r0kh_id.now }
        ensures row { result ≡ row_of (pmk_r0 psk.now ssid.now mdid r0kh_id.now sta) sta }
        ensures keys { (r1kh : Mac) → row_r1 result r1kh ≡
            pmk_r1 (pmk_r0 psk.now ssid.now mdid r0kh_id.now sta) r1kh sta }
    {
        let r0 = derived.r0(psk, ssid, mdid, r0kh_id, sta);
        HolderRow::of(&r0, sta)
    }

    // The row of a PMK-R0 of that station.
    fn of(r0: &NamedR0, sta: Mac) -> HolderRow
        ensures row { result ≡ row_of r0.now sta }
        ensures keys { (r1kh : Mac) → row_r1 result r1kh ≡ pmk_r1 r0.now r1kh sta }
    {
        let (key, name) = (r0.r0().key, r0.name());
        HolderRow { name, key, sta }
    }

    /// PMKR0Name.
    pub fn name(&self) -> [u8; 16]
        ensures { result ≡ self.now.name }
    {
        self.name
    }

    /// The PMK-R1 that the row makes for an R1 key holder, with its name
    /// (IEEE Std 802.11-2020, 12.7.1.6.4). Takes no memory.
    pub fn r1(&self, r1kh: Mac) -> PmkR1
        ensures { result ≡ row_r1 self.now r1kh }
    {
        PmkR1::of(&self.key, &self.name, r1kh, self.sta)
    }
}
