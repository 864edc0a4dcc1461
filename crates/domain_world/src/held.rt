//! The key holders as they are made, and as they are taken for an event.

ghost use Rattle.std.specs.Prelude.{◌≡◌, [], None, IfOk, OnErr};
ghost use Rattle.domain_rules.specs.Network.{InForm};
ghost use Rattle.ft_exchange.specs.Asking.{ids_of};
ghost use Rattle.domain_world.specs.Holding.{seen_of, IsHeld, HoldersFit};

use crate::shared::Shared;
use domain_base::{NoMemory, Octets};
use holder_table::SharedHolders;
use run_journal::Domain;
use std::alloc::Global;

// The R0KH-ID of an access point, once more.
fn copied(alloc: Global, r0kh_id: &Octets) -> Result<Octets, NoMemory>
    ensures { IfOk result (λ id. id ≡ r0kh_id.now) }
{
    Ok(Octets(Vec::from_slice(alloc, r0kh_id.as_slice())?))
}

// The R0KH-IDs of a network, in order.
fn ids(alloc: Global, domain: &Domain) -> Result<Vec<Octets>, NoMemory>
    ensures { IfOk result (λ ids. ids.items ≡ ids_of domain.now) }
{
    let mut ids = Vec::with_capacity(alloc, domain.aps.0.len())?;
    for ap in domain.aps.0.iter() {
        ids.push(copied(alloc, &ap.r0kh_id)?)?;
    }
    Ok(ids)
}

// The key holders of a network, without rows.
fn start(alloc: Global, domain: &Domain) -> Result<Shared, NoMemory>
    requires form { InForm domain.now }
    ensures held { IfOk result (λ shared. IsHeld domain.now shared) }
    ensures seen { IfOk result (λ shared. shared.pass.knows.seen ≡ []) }
{
    let (table, pass) = SharedHolders::start(alloc, ids(alloc, domain)?)?;
    Ok(Shared { table, pass })
}

/// The key holders are taken. Where there are none yet they are made, without rows.
pub(crate) fn held(
    alloc: Global,
    domain: &Domain,
    holders: &mut Option<Shared>,
) -> Result<Shared, NoMemory>
    requires form { InForm domain.now }
    requires fit { HoldersFit domain.now holders.old }
    ensures held { IfOk result (λ shared. IsHeld domain.now shared) }
    ensures seen { IfOk result (λ shared. shared.pass.knows.seen ≡ seen_of holders.old) }
    ensures taken { holders.new ≡ None }
    ensures same { OnErr result (holders.old ≡ None) }
{
    match holders.take() {
        Some(shared) => Ok(shared),
        None => start(alloc, domain),
    }
}
