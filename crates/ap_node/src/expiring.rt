//! An access point drops what it has with a station, as it is told to or the station's key is changed.

ghost use Rattle.std.specs.Prelude.{◌≡◌, ◌≢◌, ◌≤◌, ◌+◌, ◌++◌, ℕ};
ghost use Rattle.domain_base.specs.declared.names.Node.TheVariants.{Sta};
ghost use Rattle.domain_rules.specs.Rows.{outcome_of};
ghost use Rattle.ap_node.specs.State.{station_at, no_station, has_attempt, has_session};
ghost use Rattle.ap_node.specs.Changing.{changed_acts};
ghost use Rattle.ap_node.specs.Takes.{expired_acts};

use crate::boxed::BoxedStation;
use act_memory::{Outbox, stay_idle};
use domain_base::Node;
use run_journal::{Act, Outcome, Part, Why};
use std::collections::BTreeMap;

/// Drops what there is with a station, and tells whether there was an attempt, and whether a
/// session.
pub fn drop_part(stations: &mut BTreeMap<u16, BoxedStation>, station: u16) -> (bool, bool)
    ensures attempt { result.0 ≡ has_attempt (station_at stations.old.entries station) }
    ensures session { result.1 ≡ has_session (station_at stations.old.entries station) }
    ensures left { station_at stations.new.entries station ≡ no_station }
    ensures others { (k : ℕ) → k ≢ station
        → station_at stations.new.entries k ≡ station_at stations.old.entries k }
{
    match stations.remove(&station) {
        Some(boxed) => {
            let place = boxed.station();
            (place.has_attempt(), place.session.is_some())
        }
        None => (false, false),
    }
}

/// Adds the acts of ending what there was with a station under its old key, and of the new key. Takes
/// no memory.
pub fn add_changed(
    station: u16,
    had_attempt: bool,
    had_session: bool,
    psk: &[u8; 32],
    out: &mut Outbox,
)
    requires room { 3 ≤ out.old.spare }
    ensures acts { out.new.acts
        ≡ out.old.acts ++ changed_acts (Sta station) had_attempt had_session psk.now }
    ensures spare { out.old.spare ≤ out.new.spare + 3 }
{
    let peer = Node::Sta(station);
    if had_attempt {
        let part = Part::Attempt;
        out.add(Act::Closed { peer, part });
    }
    if had_session {
        let part = Part::Session;
        out.add(Act::Closed { peer, part });
    }
    out.add(Act::Secret {
        sta: peer,
        psk: *psk,
    });
}

/// Adds the acts of dropping what there was with a station. Takes no memory.
pub fn add_dropped(station: u16, had_attempt: bool, had_session: bool, out: &mut Outbox) -> Outcome
    requires room { 2 ≤ out.old.spare }
    ensures outcome { result ≡ outcome_of (expired_acts (Sta station) had_attempt had_session) }
    ensures acts { out.new.acts
        ≡ out.old.acts ++ expired_acts (Sta station) had_attempt had_session }
    ensures spare { out.old.spare ≤ out.new.spare + 2 }
{
    let peer = Node::Sta(station);
    if !had_attempt && !had_session {
        return stay_idle(Why::Nothing, out);
    }
    if had_attempt {
        let part = Part::Attempt;
        out.add(Act::Closed { peer, part });
    }
    if had_session {
        let part = Part::Session;
        out.add(Act::Closed { peer, part });
    }
    Outcome::Done
}
