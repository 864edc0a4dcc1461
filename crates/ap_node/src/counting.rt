//! How many sessions owe a G2 for the newest group key: counted as each changes, so that no event
//! asks every station.

ghost use Rattle.std.specs.Prelude.{◌≡◌, ◌<◌, ◌-◌, ◌^◌};
ghost use Rattle.ap_node.specs.State.{station_at};
ghost use Rattle.ap_node.specs.Counts.{owes_part, recounted};

use crate::boxed::BoxedStation;
use group_key::GroupKey;
use std::collections::BTreeMap;

/// Whether the session of that station owes a G2 for that group key.
pub fn owes(stations: &BTreeMap<u16, BoxedStation>, station: u16, group: &GroupKey) -> bool
    ensures { result ≡ owes_part group.now.place (station_at stations.now.entries station) }
{
    match stations.get(&station) {
        Some(place) => place.station().owes(group),
        None => false,
    }
}

/// The count as a session changes, by whether it owed a G2 and owes one now. It is a count of
/// stations, and far from its end.
pub fn recounted(owing: u64, owed: bool, owes: bool) -> u64
    ensures exact { owing < 2 ^ 64 - 1 → result ≡ recounted owing owed owes }
    ensures same { owed ≡ owes → result ≡ owing }
{
    match (owed, owes) {
        (true, false) => owing.saturating_sub(1),
        (false, true) => owing.saturating_add(1),
        _ => owing,
    }
}
