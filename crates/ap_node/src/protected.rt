//! Protected data to and from a station, under the pairwise key of the session with it
//! (IEEE Std 802.11-2020, 12.5.3).

ghost use Rattle.std.specs.Prelude.{◌≡◌, ◌≢◌, ◌<◌, ◌≤◌, ◌+◌, ◌++◌, ℕ, List, Some, length};
ghost use Rattle.std.specs.Prelude.{IfOk, OnOk, OnErr};
ghost use Rattle.domain_base.specs.declared.names.Node.TheVariants.{Sta};
ghost use Rattle.domain_base.specs.declared.names.Peer.TheVariants.{One};
ghost use Rattle.replay_window.specs.Numbers.{last_number};
ghost use Rattle.ccmp_guard.specs.Held.{Held as AnyHeld};
ghost use Rattle.run_journal.specs.declared.acts.Reason.{Reason as AnyReason};
ghost use Rattle.run_journal.specs.declared.acts.Reason.TheVariants as reason;
ghost use Rattle.run_journal.specs.declared.acts.Outcome.TheVariants.{Refused};
ghost use Rattle.run_journal.specs.Events.{IsListed, IsReceiverOf, most_payload};
ghost use Rattle.domain_rules.specs.Rows.{outcome_of};
ghost use Rattle.node_base.specs.Events.{seen};
ghost use Rattle.frame_intake.specs.SealedFields.{IsSealedData};
ghost use Rattle.frame_intake.specs.Views.{sealed_fields};
ghost use Rattle.data_frames.specs.Taking.{refusal};
ghost use Rattle.ap_node.specs.State.{station_at, key_in, key_by, with_key, rekeyed};
ghost use Rattle.ap_node.specs.Keys.{sent_under, used_in, IsTakenUnder};

use crate::boxed::BoxedStation;
use crate::station::Session;
use act_memory::{Outbox, idle, settle};
use domain_base::{NoMemory, Node, Peer, Tid};
use frame_intake::SealedData;
use node_base::Here;
use run_journal::{Kind, Outcome, Reason, Why};
use std::alloc::Global;
use std::collections::BTreeMap;

// Sends a payload to a station under the key of its session, where there is one.
fn send_under(
    session: &mut Option<Session>,
    here: Here<'_>,
    station: u16,
    tid: Option<Tid>,
    payload: &[u8],
    out: &mut Outbox,
) -> Result<Outcome, NoMemory>
    requires listed { IsListed here.domain.now here.node }
    requires receiver { IsReceiverOf here.domain.now here.node (One (Sta station)) }
    requires short { length payload.now ≤ most_payload }
    ensures acts { OnOk result (out.new.acts ≡ out.old.acts ++ sent_under here.entry.domain.now
        here.entry.node (One (Sta station)) tid payload.now (key_by session.old)) }
    ensures outcome { IfOk result (λ came. came ≡ outcome_of (sent_under here.entry.domain.now
        here.entry.node (One (Sta station)) tid payload.now (key_by session.old))) }
    ensures used { OnOk result
        (session.new ≡ rekeyed (used_in (key_by session.old)) session.old) }
    ensures spare { OnOk result ((k : AnyHeld) → key_by session.old ≡ Some k
        → k.used < last_number → out.old.spare ≤ out.new.spare + 2) }
    ensures same { OnErr result (session.new ≡ session.old) }
    ensures kept { OnErr result (out.new.acts ≡ out.old.acts) }
{
    match session {
        Some(session) => {
            let to = Peer::One(Node::Sta(station));
            session.key.send(here, to, tid, payload, out)
        }
        None => idle(Why::NoKey, out),
    }
}

/// Sends a payload to a station under the key of the session with it; without one nothing is sent.
pub fn send_to(
    stations: &mut BTreeMap<u16, BoxedStation>,
    here: Here<'_>,
    station: u16,
    tid: Option<Tid>,
    payload: &[u8],
    out: &mut Outbox,
) -> Result<Outcome, NoMemory>
    requires listed { IsListed here.domain.now here.node }
    requires receiver { IsReceiverOf here.domain.now here.node (One (Sta station)) }
    requires short { length payload.now ≤ most_payload }
    ensures acts { OnOk result (out.new.acts ≡ out.old.acts ++ sent_under here.entry.domain.now
        here.entry.node (One (Sta station)) tid payload.now
        (key_in (station_at stations.old.entries station))) }
    ensures outcome { IfOk result (λ came. came ≡ outcome_of (sent_under here.entry.domain.now
        here.entry.node (One (Sta station)) tid payload.now
        (key_in (station_at stations.old.entries station)))) }
    ensures used { OnOk result (station_at stations.new.entries station
        ≡ with_key (used_in (key_in (station_at stations.old.entries station)))
        (station_at stations.old.entries station)) }
    // where it is sent it takes two places at most of those that there were for acts
    ensures spare { OnOk result ((k : AnyHeld)
        → key_in (station_at stations.old.entries station) ≡ Some k
        → k.used < last_number → out.old.spare ≤ out.new.spare + 2) }
    ensures others { (k : ℕ) → k ≢ station
        → station_at stations.new.entries k ≡ station_at stations.old.entries k }
    ensures same { OnErr result (stations.new.entries ≡ stations.old.entries) }
    ensures kept { OnErr result (out.new.acts ≡ out.old.acts) }
{
    match stations.get_mut(&station) {
        Some(place) => send_under(
            &mut place.station_mut().session,
            here,
            station,
            tid,
            payload,
            out,
        ),
        None => idle(Why::NoKey, out),
    }
}

// Refuses protected data of a station: there is no session with it.
fn refuse(alloc: Global, station: u16, octets: &[u8], out: &mut Outbox) -> Result<Outcome, NoMemory>
    ensures outcome { IfOk result (λ came. came ≡ Refused reason.NoKey) }
    ensures acts { OnOk result
        (out.new.acts ≡ out.old.acts ++ refusal (Sta station) octets.now reason.NoKey) }
    ensures kept { OnErr result (out.new.acts ≡ out.old.acts) }
{
    let outcome = Outcome::Refused(Reason::NoKey);
    let from = Some(Node::Sta(station));
    settle(alloc, from, octets, Kind::Data, outcome, out)
}

// Takes protected data of a station under the key of its session, where there is one.
fn take_under(
    session: &mut Option<Session>,
    alloc: Global,
    station: u16,
    octets: &[u8],
    frame: &SealedData<'_>,
    out: &mut Outbox,
) -> Result<Outcome, NoMemory>
    requires whole { IsSealedData (sealed_fields frame.now) }
    ensures taken { IfOk result (λ outcome. IsTakenUnder (Sta station) octets.now
        (sealed_fields frame.now) (key_by session.old) (key_by session.new)
        (seen out.old.acts out.new.acts outcome)) }
    ensures beside { session.new ≡ rekeyed (key_by session.new) session.old }
    ensures same { OnErr result (session.new ≡ session.old) }
    ensures kept { OnErr result (out.new.acts ≡ out.old.acts) }
{
    match session {
        Some(session) => {
            let from = Node::Sta(station);
            session.key.take(alloc, from, octets, frame, out)
        }
        None => refuse(alloc, station, octets, out),
    }
}

/// Takes protected data of a station under the key of the session with it: hands its payload up, or
/// refuses it, and then nothing is changed.
pub fn take_data(
    stations: &mut BTreeMap<u16, BoxedStation>,
    alloc: Global,
    station: u16,
    octets: &[u8],
    frame: &SealedData<'_>,
    out: &mut Outbox,
) -> Result<Outcome, NoMemory>
    requires whole { IsSealedData (sealed_fields frame.now) }
    ensures taken { IfOk result (λ outcome. IsTakenUnder (Sta station) octets.now
        (sealed_fields frame.now) (key_in (station_at stations.old.entries station))
        (key_in (station_at stations.new.entries station))
        (seen out.old.acts out.new.acts outcome)) }
    ensures part { station_at stations.new.entries station
        ≡ with_key (key_in (station_at stations.new.entries station))
        (station_at stations.old.entries station) }
    ensures others { (k : ℕ) → k ≢ station
        → station_at stations.new.entries k ≡ station_at stations.old.entries k }
    ensures refused { IfOk result (λ outcome. (why : AnyReason) → outcome ≡ Refused why
        → stations.new.entries ≡ stations.old.entries) }
    ensures same { OnErr result (stations.new.entries ≡ stations.old.entries) }
    ensures kept { OnErr result (out.new.acts ≡ out.old.acts) }
{
    match stations.get_mut(&station) {
        Some(place) => take_under(
            &mut place.station_mut().session,
            alloc,
            station,
            octets,
            frame,
            out,
        ),
        None => refuse(alloc, station, octets, out),
    }
}
