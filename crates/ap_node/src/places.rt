//! The places of stations at an access point, by the number of each.

ghost use Rattle.std.specs.Prelude.{◌≡◌, ℕ, ◌&&◌, IfOk, OnOk, OnErr, true};
ghost use Rattle.ap_node.specs.State.{station_at, is_there};
ghost use Rattle.ap_node.specs.Making.{IsMade, unmade};

use crate::boxed::BoxedStation;
use domain_base::NoMemory;
use std::alloc::Global;
use std::collections::BTreeMap;

/// Makes a place for the station of that number, where there is none yet, and tells whether it did.
/// A new one is empty.
pub fn make_place(
    stations: &mut BTreeMap<u16, BoxedStation>,
    alloc: Global,
    station: u16,
) -> Result<bool, NoMemory>
    ensures made { IfOk result (λ is_new. IsMade is_new station stations.old.entries
        stations.new.entries) }
    ensures there { OnOk result (is_there station stations.new.entries ≡ true) }
    ensures same { (k : ℕ)
        → station_at stations.new.entries k ≡ station_at stations.old.entries k }
    ensures kept { OnErr result (stations.new.entries ≡ stations.old.entries) }
{
    if stations.contains_key(&station) {
        return Ok(false);
    }
    let place = BoxedStation::none(alloc)?;
    stations.insert(station, place)?;
    Ok(true)
}

/// Takes the place of that station away again, where it is new and was made in vain.
pub fn unmake_place(
    stations: &mut BTreeMap<u16, BoxedStation>,
    station: u16,
    is_new: bool,
    is_in_vain: bool,
)
    ensures { stations.new.entries
        ≡ unmade (is_new && is_in_vain) station stations.old.entries }
{
    if is_new && is_in_vain {
        stations.remove(&station);
    }
}
