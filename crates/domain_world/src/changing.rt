//! The keys of stations are changed: at each access point, then at each station whose key it is.
//! All memory for it is taken before.

ghost use Rattle.std.specs.Prelude.{◌≡◌, ◌≢◌, ◌≤◌, ◌<◌, ◌+◌, ℕ, true, [], length, vec_len};
ghost use Rattle.std.specs.Prelude.{vec_capacity};
ghost use Rattle.run_journal.specs.Changed.{is_named};
ghost use Rattle.run_journal.specs.Events.{NamesSta};
ghost use Rattle.run_journal.specs.Limits.{most_aps, most_stas};
ghost use Rattle.domain_rules.specs.Network.{InForm};
ghost use Rattle.domain_rules.specs.Rows.{Secret};
ghost use Rattle.ft_exchange.specs.Asking.{ids_of};
ghost use Rattle.holder_table.specs.Histories.{held_at};
ghost use Rattle.holder_table.specs.Relations.{KnowsNoLess};
ghost use Rattle.holder_table.specs.Rule.{is_in};
ghost use Rattle.node_base.specs.Changing.{most_changed};
ghost use Rattle.node_base.specs.Events.{event_of};
ghost use Rattle.domain_world.specs.Changing.{ApChanged, ApsSo, ApsStand, StaChanged, StasSo, StasStand};
ghost use Rattle.domain_world.specs.Changing.{AreStations, change_of, count_named, room_of};
ghost use Rattle.domain_world.specs.Holding.{IsHeld};
ghost use Rattle.domain_world.specs.Owning.{places};
ghost use Rattle.domain_world.specs.Working.{AreNumbered};

use crate::caching::CachingAp;
use crate::handing::{step_ap, step_station};
use crate::journaling::journal_acts;
use crate::shared::Shared;
use act_memory::Outbox;
use ap_node::ApNode;
use domain_base::Node;
use holder_table::CachedBound;
use node_base::{NodeEvent, most_changed};
use run_journal::{Domain, Journal, is_named};
use station_node::StationNode;
use std::alloc::Global;

/// A changed key in a round.
#[derive(Clone, Copy)]
pub(crate) struct KeyChange<'a> {
    /// Gives memory. None is taken.
    pub(crate) alloc: Global,
    /// The network, with the old key still.
    pub(crate) domain: &'a Domain,
    /// The round.
    pub(crate) round: u64,
    /// The station whose key it is; none where it is that of all.
    pub(crate) sta: Option<u16>,
    /// The new key.
    pub(crate) psk: &'a [u8; 32],
}

// How many of so many stations have the changed key: one, or all.
fn count_named(sta: Option<u16>, stas: usize) -> usize
    requires { stas ≤ most_stas }
    ensures count { result ≡ count_named sta stas }
    ensures few { result ≤ most_stas }
{
    match sta {
        Some(_) => 1,
        None => stas,
    }
}

/// To how many acts a changed key comes at most: at so many access points, and at one of so many
/// stations, or at all.
pub(crate) fn room(domain: &Domain, sta: Option<u16>, aps: usize, stas: usize) -> usize
    requires form { InForm domain.now }
    requires aps { aps ≤ most_aps }
    requires stas { stas ≤ most_stas }
    ensures { result ≡ room_of domain.now (aps + count_named sta stas) }
{
    let most = most_changed(domain);
    let named = count_named(sta, stas);
    let nodes = aps + named;
    most * nodes
}

// What it is to a node.
fn secret_of(change: KeyChange<'_>) -> NodeEvent<'_>
    ensures { event_of result ≡ Secret change.entry.sta change.entry.psk.now }
{
    NodeEvent::Secret(change.sta, change.psk)
}

// One access point, by a pass that has it. There is room for what it does.
fn change_node(
    change: KeyChange<'_>,
    node: &mut ApNode,
    holders: &mut CachedBound<'_>,
    out: &mut Outbox,
)
    requires form { InForm change.domain.now }
    requires listed { node.old.number < length change.domain.now.aps }
    requires sta { NamesSta change.domain.now change.sta }
    requires ids { holders.old.table.now.ids ≡ ids_of change.domain.now }
    requires has { is_in node.old.number holders.old.pass.knows.has ≡ true }
    requires waiting { out.old.acts ≡ [] }
    requires room { most_changed (length change.domain.now.stas) ≤ out.old.spare }
    ensures number { node.new.number ≡ node.old.number }
    ensures changed { ApChanged change.entry.domain.now (change_of change.entry)
        node.old.number node.old node.new holders.old.pass.knows.seen
        holders.new.pass.knows.seen out.new.acts }
    ensures others { (r : ℕ) → r ≢ node.old.number
        → is_in r holders.old.pass.knows.has ≡ true
        → held_at r holders.new.pass.knows.seen ≡ held_at r holders.old.pass.knows.seen }
    ensures no_less { KnowsNoLess holders.old.table.now holders.old.pass holders.new.table.now
        holders.new.pass }
    ensures spare { out.old.spare
        ≤ out.new.spare + most_changed (length change.entry.domain.now.stas) }
{
    let event = secret_of(change);
    match step_ap(node, change.alloc, change.domain, &event, holders, out) {
        Ok(_) => {}
        Err(_) => unreachable!(),
    }
}

// One access point, by its cache and the pass that has all. There is room for what it does.
fn change_ap(change: KeyChange<'_>, ap: &mut CachingAp, shared: Shared, out: &mut Outbox) -> Shared
    requires form { InForm change.domain.now }
    requires listed { ap.old.number < length change.domain.now.aps }
    requires sta { NamesSta change.domain.now change.sta }
    requires ids { shared.table.ids ≡ ids_of change.domain.now }
    requires has { is_in ap.old.number shared.pass.knows.has ≡ true }
    requires waiting { out.old.acts ≡ [] }
    requires room { most_changed (length change.domain.now.stas) ≤ out.old.spare }
    ensures number { ap.new.number ≡ ap.old.number }
    ensures changed { ApChanged change.entry.domain.now (change_of change.entry) ap.old.number
        ap.old ap.new shared.pass.knows.seen result.pass.knows.seen out.new.acts }
    ensures others { (r : ℕ) → r ≢ ap.old.number → is_in r shared.pass.knows.has ≡ true
        → held_at r result.pass.knows.seen ≡ held_at r shared.pass.knows.seen }
    ensures still { (result.table.ids ≡ shared.table.ids)
        × (result.pass.knows.has ≡ shared.pass.knows.has) }
    ensures spare { out.old.spare
        ≤ out.new.spare + most_changed (length change.entry.domain.now.stas) }
{
    let Shared { table, pass } = shared;
    let Some(cache) = ap.cache.take() else {
        unreachable!()
    };
    let mut holders = CachedBound::new(&table, pass, cache);
    change_node(change, &mut ap.node, &mut holders, out);
    let (pass, cache) = holders.into_parts();
    ap.cache = Some(cache);
    Shared { table, pass }
}

// One station, whose key it is. There is room for what it does.
fn change_sta(change: KeyChange<'_>, station: &mut StationNode, out: &mut Outbox)
    requires form { InForm change.domain.now }
    requires listed { station.old.number < length change.domain.now.stas }
    requires sta { is_named change.sta station.old.number ≡ true }
    requires waiting { out.old.acts ≡ [] }
    requires room { most_changed (length change.domain.now.stas) ≤ out.old.spare }
    ensures number { station.new.number ≡ station.old.number }
    ensures changed { StaChanged change.entry.domain.now (change_of change.entry)
        station.old.number station.old station.new out.new.acts }
    ensures spare { out.old.spare
        ≤ out.new.spare + most_changed (length change.entry.domain.now.stas) }
{
    let event = secret_of(change);
    match step_station(station, change.alloc, change.domain, &event, out) {
        Ok(_) => {}
        Err(_) => unreachable!(),
    }
}

/// Each access point, in order: what it does is journaled. There is room for that.
pub(crate) fn change_aps(
    change: KeyChange<'_>,
    aps: &mut Vec<CachingAp>,
    shared: Shared,
    out: &mut Outbox,
    frames: &mut Vec<usize>,
    journal: &mut Journal,
) -> Shared
    requires form { InForm change.domain.now }
    requires listed { length aps.old.items ≡ length change.domain.now.aps }
    requires numbered { AreNumbered aps.old.items }
    requires sta { NamesSta change.domain.now change.sta }
    requires held { IsHeld change.domain.now shared }
    requires stand { ApsStand change.domain.now aps.old.items shared.pass.knows.seen
        journal.old.entries }
    requires waiting { out.old.acts ≡ [] }
    requires room { room_of change.domain.now (length aps.old.items) ≤ out.old.spare }
    requires entries { room_of change.domain.now (length aps.old.items) ≤ journal.old.spare }
    requires places { vec_len frames.old + room_of change.domain.now (length aps.old.items)
        ≤ vec_capacity frames.old }
    requires noted { frames.old.items ≡ places journal.old.entries }
    ensures changed { ApsSo change.entry.domain.now (change_of change.entry)
        (length aps.old.items) aps.old.items aps.new.items shared.pass.knows.seen
        result.pass.knows.seen journal.old.entries journal.new.entries }
    ensures numbered { AreNumbered aps.new.items }
    ensures held { IsHeld change.entry.domain.now result }
    ensures waiting { out.new.acts ≡ [] }
    ensures noted { frames.new.items ≡ places journal.new.entries }
    ensures spare { out.old.spare
        ≤ out.new.spare + room_of change.entry.domain.now (length aps.old.items) }
    ensures entries { journal.old.spare
        ≤ journal.new.spare + room_of change.entry.domain.now (length aps.old.items) }
    ensures places { vec_len frames.new
        ≤ vec_len frames.old + room_of change.entry.domain.now (length aps.old.items) }
    ensures capacity { vec_capacity frames.old ≤ vec_capacity frames.new }
{
    let mut held = shared;
    for place in 0..aps.len() {
        let ap = &mut aps[place];
        held = change_ap(change, ap, held, out);
        let node = Node::Ap(place as u16);
        journal_acts(change.round, node, out, frames, journal);
    }
    held
}

/// Each station whose key it is, in order: what it does is journaled. There is room for that.
pub(crate) fn change_stas(
    change: KeyChange<'_>,
    stas: &mut Vec<StationNode>,
    out: &mut Outbox,
    frames: &mut Vec<usize>,
    journal: &mut Journal,
)
    requires form { InForm change.domain.now }
    requires listed { length stas.old.items ≡ length change.domain.now.stas }
    requires numbered { AreStations stas.old.items }
    requires sta { NamesSta change.domain.now change.sta }
    requires stand { StasStand change.domain.now stas.old.items journal.old.entries }
    requires waiting { out.old.acts ≡ [] }
    requires room { room_of change.domain.now (count_named change.sta (length stas.old.items))
        ≤ out.old.spare }
    requires entries { room_of change.domain.now
        (count_named change.sta (length stas.old.items)) ≤ journal.old.spare }
    requires places { vec_len frames.old + room_of change.domain.now
        (count_named change.sta (length stas.old.items)) ≤ vec_capacity frames.old }
    requires noted { frames.old.items ≡ places journal.old.entries }
    ensures changed { StasSo change.entry.domain.now (change_of change.entry)
        (length stas.old.items) stas.old.items stas.new.items journal.old.entries
        journal.new.entries }
    ensures numbered { AreStations stas.new.items }
    ensures waiting { out.new.acts ≡ [] }
    ensures noted { frames.new.items ≡ places journal.new.entries }
{
    for place in 0..stas.len() {
        if is_named(change.sta, place) {
            let station = &mut stas[place];
            change_sta(change, station, out);
            let node = Node::Sta(place as u16);
            journal_acts(change.round, node, out, frames, journal);
        }
    }
}
