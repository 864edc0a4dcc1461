//! An event handed to its node.

ghost use Rattle.std.specs.Prelude.{◌≡◌, ◌≢◌, ◌<◌, ◌≤◌, ◌+◌, ◌++◌, true, [], ℕ, List, length};
ghost use Rattle.std.specs.Prelude.{IfOk, IsOk, OnOk, OnErr};
ghost use Rattle.domain_base.specs.declared.names.Node.TheVariants.{Ap as ApOf, Sta as StaOf};
ghost use Rattle.run_journal.specs.declared.acts.Act.{Act as AnyAct};
ghost use Rattle.domain_rules.specs.Here.{here};
ghost use Rattle.domain_rules.specs.Network.{InForm};
ghost use Rattle.node_base.specs.Changing.{after, ButSecret, HasRoomFor, IsStill, most_changed};
ghost use Rattle.node_base.specs.Events.{event_of, IsEventAt, Steps, seen};
ghost use Rattle.key_holders.specs.Rows.{is_in};
ghost use Rattle.ft_exchange.specs.Asking.{ids_of};
ghost use Rattle.held_rows.specs.Looks.{AreLooked};
ghost use Rattle.holder_table.specs.Histories.{held_at};
ghost use Rattle.holder_table.specs.Relations.{KnowsNoLess};
ghost use Rattle.ap_node.specs.Looking.{AnsweredBy};
ghost use Rattle.ap_node.specs.Putting.{LeavesRest, OneMove};
ghost use Rattle.ap_node.specs.Stands.{StandsWith as ApStands};
ghost use Rattle.station_node.specs.Stands.{Stands as StationStands};
ghost use Rattle.domain_world.specs.Working.{Turned};

use crate::caching::CachingAp;
use crate::shared::Shared;
use act_memory::Outbox;
use ap_node::ApNode;
use domain_base::NoMemory;
use holder_table::CachedBound;
use key_holders::Holders;
use node_base::NodeEvent;
use run_journal::{Domain, Outcome};
use station_node::StationNode;
use std::alloc::Global;

// The same event once more, to be given away.
fn once_more<'a>(event: &NodeEvent<'a>) -> NodeEvent<'a>
    ensures { event_of result ≡ event_of event.now }
{
    match *event {
        NodeEvent::Take(octets) => NodeEvent::Take(octets),
        NodeEvent::Connect(ap) => NodeEvent::Connect(ap),
        NodeEvent::Roam(ap) => NodeEvent::Roam(ap),
        NodeEvent::Retry(sta) => NodeEvent::Retry(sta),
        NodeEvent::Rekey => NodeEvent::Rekey,
        NodeEvent::Send(to, Some(tid), payload) => NodeEvent::Send(to, Some(tid), payload),
        NodeEvent::Send(to, None, payload) => NodeEvent::Send(to, None, payload),
        NodeEvent::Expire(sta) => NodeEvent::Expire(sta),
        NodeEvent::Revoke(sta) => NodeEvent::Revoke(sta),
        NodeEvent::Leave => NodeEvent::Leave,
        NodeEvent::Secret(sta, psk) => NodeEvent::Secret(sta, psk),
        NodeEvent::Renew(sta) => NodeEvent::Renew(sta),
        NodeEvent::Announce(payload) => NodeEvent::Announce(payload),
    }
}

/// One event at an access point, which has these key holders.
pub(crate) fn step_ap<H: Holders>(
    ap: &mut ApNode,
    alloc: Global,
    domain: &Domain,
    event: &NodeEvent<'_>,
    holders: &mut H,
    out: &mut Outbox,
) -> Result<Outcome, NoMemory>
    requires form { InForm domain.now }
    requires listed { ap.old.number < length domain.now.aps }
    requires event { IsEventAt domain.now (ApOf ap.old.number) (event_of event.now) }
    requires ids { H.ids holders.old ≡ ids_of domain.now }
    requires has { is_in ap.old.number (H.has holders.old) ≡ true }
    ensures number { ap.new.number ≡ ap.old.number }
    ensures steps { IfOk result (λ outcome. (first : ℕ) (h : List AnyAct)
        → ApStands domain.now first ap.old (H.rows holders.old ap.old.number) h
        → Steps (here domain.now first (ApOf ap.old.number)) (event_of event.now)
        (ApStands (after domain.now (event_of event.now)) first ap.new
        (H.rows holders.new ap.old.number)) h (seen out.old.acts out.new.acts outcome)) }
    ensures looks { OnOk result ((first : ℕ) (h : List AnyAct)
        → ApStands domain.now first ap.old (H.rows holders.old ap.old.number) h
        → (g : List AnyAct) → out.new.acts ≡ out.old.acts ++ g → AreLooked (AnsweredBy
        (λ id name r1kh sta answer. H.pulls holders.old id name r1kh sta holders.new answer)
        (H.ids holders.old) (H.has holders.old) (H.rows holders.old) domain.now
        ap.old.number) domain.now g) }
    ensures same { OnErr result (ap.new ≡ ap.old) }
    ensures same_rows { OnErr result
        (H.rows holders.new ap.old.number ≡ H.rows holders.old ap.old.number) }
    ensures kept { OnErr result (out.new.acts ≡ out.old.acts) }
    ensures others { LeavesRest ap.old.number (H.ids holders.old) (H.ids holders.new)
        (H.has holders.old) (H.has holders.new) (H.rows holders.old) (H.rows holders.new) }
    ensures one { ButSecret (event_of event.now) (OneMove
        (H.rows holders.old ap.old.number) (H.rows holders.new ap.old.number)) }
    ensures no_less { H.no_less holders.old holders.new }
    ensures always { HasRoomFor domain.now (event_of event.now) out.old.spare → IsOk result }
    ensures spare { HasRoomFor domain.now (event_of event.now) out.old.spare
        → out.old.spare ≤ out.new.spare + most_changed (length domain.now.stas) }
{
    match *event {
        NodeEvent::Send(to, Some(tid), payload) => {
            let event = NodeEvent::Send(to, Some(tid), payload);
            ap.step(alloc, domain, event, holders, out)
        }
        _ => ap.step(alloc, domain, once_more(event), holders, out),
    }
}

/// One event at an access point, by a pass that has it. What it does is put in the empty outbox.
pub(crate) fn turn(
    ap: &mut ApNode,
    alloc: Global,
    domain: &Domain,
    event: &NodeEvent<'_>,
    holders: &mut CachedBound<'_>,
    out: &mut Outbox,
) -> Result<(), NoMemory>
    requires form { InForm domain.now }
    requires listed { ap.old.number < length domain.now.aps }
    requires event { IsEventAt domain.now (ApOf ap.old.number) (event_of event.now) }
    requires still { IsStill (event_of event.now) }
    requires ids { holders.old.table.now.ids ≡ ids_of domain.now }
    requires has { is_in ap.old.number holders.old.pass.knows.has ≡ true }
    requires waiting { out.old.acts ≡ [] }
    ensures number { ap.new.number ≡ ap.old.number }
    ensures turned { OnOk result (Turned domain.now ap.old.number (event_of event.now) ap.old
        ap.new holders.old.pass.knows.seen holders.new.pass.knows.seen out.new.acts) }
    ensures same { OnErr result (ap.new ≡ ap.old) }
    ensures same_rows { OnErr result (held_at ap.old.number holders.new.pass.knows.seen
        ≡ held_at ap.old.number holders.old.pass.knows.seen) }
    ensures kept { OnErr result (out.new.acts ≡ []) }
    ensures others { (r : ℕ) → r ≢ ap.old.number
        → is_in r holders.old.pass.knows.has ≡ true
        → held_at r holders.new.pass.knows.seen ≡ held_at r holders.old.pass.knows.seen }
    ensures no_less { KnowsNoLess holders.old.table.now holders.old.pass holders.new.table.now
        holders.new.pass }
{
    step_ap(ap, alloc, domain, event, holders, out)?;
    Ok(())
}

/// One event at an access point, by its cache and the pass that has all.
pub(crate) fn turn_alone(
    ap: &mut CachingAp,
    alloc: Global,
    domain: &Domain,
    event: &NodeEvent<'_>,
    shared: Shared,
    out: &mut Outbox,
) -> (Shared, Result<(), NoMemory>)
    requires form { InForm domain.now }
    requires listed { ap.old.number < length domain.now.aps }
    requires event { IsEventAt domain.now (ApOf ap.old.number) (event_of event.now) }
    requires still { IsStill (event_of event.now) }
    requires ids { shared.table.ids ≡ ids_of domain.now }
    requires has { is_in ap.old.number shared.pass.knows.has ≡ true }
    requires waiting { out.old.acts ≡ [] }
    ensures number { ap.new.number ≡ ap.old.number }
    ensures turned { OnOk result.1 (Turned domain.now ap.old.number (event_of event.now) ap.old
        ap.new shared.pass.knows.seen result.0.pass.knows.seen out.new.acts) }
    ensures same { OnErr result.1 (ap.new ≡ ap.old) }
    ensures same_rows { OnErr result.1 (held_at ap.old.number result.0.pass.knows.seen
        ≡ held_at ap.old.number shared.pass.knows.seen) }
    ensures kept { OnErr result.1 (out.new.acts ≡ []) }
    ensures others { (r : ℕ) → r ≢ ap.old.number → is_in r shared.pass.knows.has ≡ true
        → held_at r result.0.pass.knows.seen ≡ held_at r shared.pass.knows.seen }
    ensures still { (result.0.table.ids ≡ shared.table.ids)
        × (result.0.pass.knows.has ≡ shared.pass.knows.has) }
{
    let Shared { table, pass } = shared;
    let Some(cache) = ap.cache.take() else {
        unreachable!()
    };
    let mut holders = CachedBound::new(&table, pass, cache);
    let done = turn(&mut ap.node, alloc, domain, event, &mut holders, out);
    let (pass, cache) = holders.into_parts();
    ap.cache = Some(cache);
    (Shared { table, pass }, done)
}

/// One event at a station.
pub(crate) fn step_station(
    station: &mut StationNode,
    alloc: Global,
    domain: &Domain,
    event: &NodeEvent<'_>,
    out: &mut Outbox,
) -> Result<Outcome, NoMemory>
    requires form { InForm domain.now }
    requires listed { station.old.number < length domain.now.stas }
    requires event { IsEventAt domain.now (StaOf station.old.number) (event_of event.now) }
    ensures number { station.new.number ≡ station.old.number }
    ensures steps { IfOk result (λ outcome. (first : ℕ) (h : List AnyAct)
        → StationStands domain.now first station.old h
        → Steps (here domain.now first (StaOf station.old.number)) (event_of event.now)
        (StationStands (after domain.now (event_of event.now)) first station.new) h
        (seen out.old.acts out.new.acts outcome)) }
    ensures same { OnErr result (station.new ≡ station.old) }
    ensures kept { OnErr result (out.new.acts ≡ out.old.acts) }
    ensures always { HasRoomFor domain.now (event_of event.now) out.old.spare → IsOk result }
    ensures spare { HasRoomFor domain.now (event_of event.now) out.old.spare
        → out.old.spare ≤ out.new.spare + most_changed (length domain.now.stas) }
{
    match *event {
        NodeEvent::Send(to, Some(tid), payload) => {
            station.step(alloc, domain, NodeEvent::Send(to, Some(tid), payload), out)
        }
        _ => station.step(alloc, domain, once_more(event), out),
    }
}
