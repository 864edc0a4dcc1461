//! PMK-R1s that key holders give one another.

ghost use Rattle.std.specs.Prelude.{◌≡◌, ◌≤◌, IsTrue, take};
ghost use Rattle.embedded_node.specs.Free.{is_id};
ghost use Rattle.key_hierarchy.specs.Sizes.{IsR0khId, IsSsid};
ghost use Rattle.kehtrop_c.specs.Transfers.{makes_r1, r1_in};

use crate::crossing::{Address, Config, Psk, R1Key};
use domain_base::Mac;
use key_holders::HolderRow;

// Whether these octets are an R0KH-ID (IEEE Std 802.11-2020, 9.4.2.47).
fn is_id(r0kh_id: &[u8]) -> bool
    ensures { result ≡ is_id r0kh_id.now }
{
    1 <= r0kh_id.len() && r0kh_id.len() <= 48
}

/// Whether a key is made of these.
pub fn makes_r1(config: &Config, r0kh_id: &[u8]) -> bool
    ensures same { result ≡ makes_r1 config.now r0kh_id.now }
    ensures ssid { IsTrue result → IsSsid (take config.now.ssid_len config.now.ssid) }
    ensures room { IsTrue result → config.now.ssid_len ≤ 32 }
    ensures id { IsTrue result → IsR0khId r0kh_id.now }
{
    let is_named = 1 <= config.ssid_len && config.ssid_len <= 32;
    (config.akm == 4 && is_named) && is_id(r0kh_id)
}

/// The key that the R0 key holder of an R0KH-ID makes for a station and an access point.
pub fn r1_of(
    config: &Config,
    psk: &Psk,
    r0kh_id: &[u8],
    station: &Address,
    access_point: &Address,
) -> R1Key
    requires ssid { IsSsid (take config.now.ssid_len config.now.ssid) }
    requires room { config.now.ssid_len ≤ 32 }
    requires id { IsR0khId r0kh_id.now }
    ensures { result ≡ r1_in config.now psk.now.octets r0kh_id.now station.now.octets
        access_point.now.octets }
{
    let ssid = &config.ssid[..usize::from(config.ssid_len)];
    let sta = Mac(station.octets);
    let row = HolderRow::derive(&psk.octets, ssid, config.mdid, r0kh_id, sta);
    let key = row.r1(Mac(access_point.octets)).key;
    let r0_name = row.name();
    let station = station.octets;
    R1Key {
        key,
        r0_name,
        station,
    }
}
