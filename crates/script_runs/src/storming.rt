//! A storm, run in its world.

ghost use Rattle.std.specs.Prelude.{◌≡◌, ◌<◌, [], suc, length, slice_index_or, IfOk, OnOk, OnErr};
ghost use Rattle.run_journal.specs.declared.domain.ListedAp.{ListedAp as AnyAp};
ghost use Rattle.run_journal.specs.declared.domain.ListedSta.{ListedSta as AnySta};
ghost use Rattle.storm.specs.Header.{domain_of};
ghost use Rattle.script_runs.specs.Courses.{IsFrontSoFar, IsListing, IsSoFar, IsUnbegun, IsUnderWay};
ghost use Rattle.script_runs.specs.Storms.{IsStormFront, IsWholeStorm, all_events};

use domain_base::{NoMemory, Octets};
use domain_rules::looks_are_right;
use domain_world::World;
use run_journal::{Aps, Domain, Journal, ListedAp, ListedSta, Stas};
use std::alloc::Global;
use storm::{EVENTS, Storm};

// The network of a storm without nodes.
fn header(alloc: Global, domain: &Domain) -> Result<Domain, NoMemory>
    ensures { IfOk result (λ d. d ≡ record domain.now { aps = []; stas = [] }) }
{
    let ssid = Vec::from_slice(alloc, domain.ssid.as_slice())?;
    Ok(Domain {
        seed: domain.seed.fork(),
        ssid: Octets(ssid),
        akm: domain.akm,
        mdid: domain.mdid,
        extras: domain.extras,
        aps: Aps(Vec::new(alloc)),
        stas: Stas::new(alloc),
    })
}

// The world of a storm before a node is listed.
#[tactic(auto, using(crate::proofs::Nodes::beginning))]
fn begin(alloc: Global, storm: &Storm, domain: &Domain) -> Result<World, NoMemory>
    requires { domain.now ≡ domain_of storm.now.number }
    ensures { IfOk result (λ w. IsListing storm.now.number 0 0 w []) }
{
    let Ok(header) = header(alloc, domain) else {
        return Err(NoMemory);
    };
    match World::start(alloc, &header) {
        Ok(world) => Ok(world),
        Err(_) => Err(NoMemory),
    }
}

// The access point at that place.
fn ap_at(domain: &Domain, place: usize) -> &ListedAp
    requires { place < length domain.now.aps }
    ensures { (other : AnyAp) → result.now ≡ slice_index_or domain.now.aps place other }
{
    &domain.aps.0[place]
}

// The station at that place.
fn sta_at(domain: &Domain, place: usize) -> ListedSta
    requires { place < length domain.now.stas }
    ensures { (other : AnySta) → result ≡ slice_index_or domain.now.stas place other }
{
    domain.stas.as_slice()[place]
}

// One more access point.
#[tactic(auto, using(crate::proofs::Nodes::listing))]
fn list_ap(
    world: &mut World,
    alloc: Global,
    storm: &Storm,
    domain: &Domain,
    place: usize,
    journal: &mut Journal,
) -> Result<(), NoMemory>
    requires network { domain.now ≡ domain_of storm.now.number }
    requires few { place < 4 }
    requires listing { IsListing storm.now.number place 0 world.old journal.old.entries }
    ensures listing { OnOk result
        (IsListing storm.now.number (suc place) 0 world.new journal.new.entries) }
    ensures front { OnErr result (IsFrontSoFar storm.now.number journal.new.entries) }
{
    let ap = ap_at(domain, place);
    let Ok(r0kh_id) = Vec::from_slice(alloc, ap.r0kh_id.as_slice()) else {
        return Err(NoMemory);
    };
    match world.add_ap(ap.address, Octets(r0kh_id), journal) {
        Ok(()) => Ok(()),
        Err(_) => Err(NoMemory),
    }
}

// All access points.
fn list_aps(
    world: &mut World,
    alloc: Global,
    storm: &Storm,
    domain: &Domain,
    journal: &mut Journal,
) -> Result<(), NoMemory>
    requires network { domain.now ≡ domain_of storm.now.number }
    requires listing { IsListing storm.now.number 0 0 world.old journal.old.entries }
    ensures listing { OnOk result (IsListing storm.now.number 4 0 world.new journal.new.entries) }
    ensures front { OnErr result (IsFrontSoFar storm.now.number journal.new.entries) }
{
    for place in 0..4 {
        list_ap(world, alloc, storm, domain, place, journal)?;
    }
    Ok(())
}

// One more station.
#[tactic(auto, using(crate::proofs::Nodes::listing))]
fn list_sta(
    world: &mut World,
    storm: &Storm,
    domain: &Domain,
    place: usize,
    journal: &Journal,
) -> Result<(), NoMemory>
    requires network { domain.now ≡ domain_of storm.now.number }
    requires few { place < 8 }
    requires listing { IsListing storm.now.number 4 place world.old journal.now.entries }
    ensures listing { OnOk result
        (IsListing storm.now.number 4 (suc place) world.new journal.now.entries) }
    ensures front { OnErr result (IsFrontSoFar storm.now.number journal.now.entries) }
{
    let sta = sta_at(domain, place);
    match world.add_station(sta.address, sta.psk) {
        Ok(()) => Ok(()),
        Err(_) => Err(NoMemory),
    }
}

// All stations.
fn list_stas(
    world: &mut World,
    storm: &Storm,
    domain: &Domain,
    journal: &Journal,
) -> Result<(), NoMemory>
    requires network { domain.now ≡ domain_of storm.now.number }
    requires listing { IsListing storm.now.number 4 0 world.old journal.now.entries }
    ensures listing { OnOk result (IsListing storm.now.number 4 8 world.new journal.now.entries) }
    ensures front { OnErr result (IsFrontSoFar storm.now.number journal.now.entries) }
{
    for place in 0..8 {
        list_sta(world, storm, domain, place, journal)?;
    }
    Ok(())
}

// One more event.
fn one_event(
    world: &mut World,
    alloc: Global,
    storm: &mut Storm,
    journal: &mut Journal,
) -> Result<(), NoMemory>
    requires under_way { IsUnderWay storm.old world.old journal.old.entries }
    requires few { world.old.rounds < all_events }
    ensures under_way { OnOk result (IsUnderWay storm.new world.new journal.new.entries) }
    ensures rounds { OnOk result (world.new.rounds ≡ suc world.old.rounds) }
    ensures number { storm.new.number ≡ storm.old.number }
    ensures front { OnErr result (IsFrontSoFar storm.old.number journal.new.entries) }
{
    let Ok(event) = storm.event(alloc, journal) else {
        return Err(NoMemory);
    };
    match world.event(&event, journal) {
        Ok(()) => Ok(()),
        Err(_) => Err(NoMemory),
    }
}

// All events.
fn run_events(
    world: &mut World,
    alloc: Global,
    storm: &mut Storm,
    journal: &mut Journal,
) -> Result<(), NoMemory>
    requires under_way { IsUnderWay storm.old world.old journal.old.entries }
    requires none { world.old.rounds ≡ 0 }
    ensures whole { OnOk result
        (IsSoFar storm.old.number 4 8 all_events journal.new.entries) }
    ensures front { OnErr result (IsFrontSoFar storm.old.number journal.new.entries) }
{
    for count in 0..EVENTS {
        one_event(world, alloc, storm, journal)?;
    }
    Ok(())
}

// All nodes.
fn list_nodes(
    world: &mut World,
    alloc: Global,
    storm: &Storm,
    domain: &Domain,
    journal: &mut Journal,
) -> Result<(), NoMemory>
    requires network { domain.now ≡ domain_of storm.now.number }
    requires listing { IsListing storm.now.number 0 0 world.old journal.old.entries }
    ensures listing { OnOk result (IsListing storm.now.number 4 8 world.new journal.new.entries) }
    ensures front { OnErr result (IsFrontSoFar storm.now.number journal.new.entries) }
{
    match list_aps(world, alloc, storm, domain, journal) {
        Ok(()) => list_stas(world, storm, domain, journal),
        Err(_) => Err(NoMemory),
    }
}

// Runs a storm in a world in which no node is listed yet.
fn run_world(
    world: &mut World,
    alloc: Global,
    storm: &mut Storm,
    domain: &Domain,
    journal: &mut Journal,
) -> Result<(), NoMemory>
    requires network { domain.now ≡ domain_of storm.old.number }
    requires first { IsUnbegun storm.old }
    requires listing { IsListing storm.old.number 0 0 world.old journal.old.entries }
    ensures whole { OnOk result (IsSoFar storm.old.number 4 8 all_events journal.new.entries) }
    ensures front { OnErr result (IsFrontSoFar storm.old.number journal.new.entries) }
{
    match list_nodes(world, alloc, storm, domain, journal) {
        Ok(()) => run_events(world, alloc, storm, journal),
        Err(_) => Err(NoMemory),
    }
}

// Runs a storm in that network.
#[tactic(auto, using(crate::proofs::Nodes::assembling))]
fn run_in(
    alloc: Global,
    storm: &mut Storm,
    domain: &Domain,
    journal: &mut Journal,
) -> Result<(), NoMemory>
    requires network { domain.now ≡ domain_of storm.old.number }
    requires first { IsUnbegun storm.old }
    requires none { journal.old.entries ≡ [] }
    ensures whole { OnOk result (IsSoFar storm.old.number 4 8 all_events journal.new.entries) }
    ensures front { OnErr result (IsFrontSoFar storm.old.number journal.new.entries) }
{
    let Ok(mut world) = begin(alloc, storm, domain) else {
        return Err(NoMemory);
    };
    run_world(&mut world, alloc, storm, domain, journal)
}

// Runs a storm that is before its first event.
#[tactic(auto, using(crate::proofs::Nodes::assembling))]
fn run_from(alloc: Global, storm: &mut Storm, journal: &mut Journal) -> Result<(), NoMemory>
    requires first { IsUnbegun storm.old }
    requires none { journal.old.entries ≡ [] }
    ensures whole { OnOk result (IsSoFar storm.old.number 4 8 all_events journal.new.entries) }
    ensures front { OnErr result (IsFrontSoFar storm.old.number journal.new.entries) }
{
    let Ok(domain) = storm.domain(alloc) else {
        return Err(NoMemory);
    };
    run_in(alloc, storm, &domain, journal)
}

/// Runs the storm of that number, or where memory is wanted a front of it.
pub fn run_storm(alloc: Global, number: u32, journal: &mut Journal) -> Result<(), NoMemory>
    requires { journal.old.entries ≡ [] }
    ensures whole { OnOk result (IsWholeStorm number journal.new.entries) }
    ensures front { OnErr result (IsStormFront number journal.new.entries) }
{
    looks_are_right();
    let mut storm = Storm::new(alloc, number);
    match run_from(alloc, &mut storm, journal) {
        Ok(()) => Ok(()),
        Err(_) => Err(NoMemory),
    }
}
