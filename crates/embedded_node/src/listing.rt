//! Whether a node can be listed, and the listing of one.

ghost use Rattle.std.specs.Prelude.{◌≡◌, None, Some, OnOk, OnErr, IfErr, MatchResult};
ghost use Rattle.std.specs.List.{list_any};
ghost use Rattle.run_journal.specs.Listing.{with_ap, with_sta};
ghost use Rattle.run_journal.specs.declared.domain.ListedAp.{ListedAp as AnyAp};
ghost use Rattle.run_journal.specs.declared.domain.ListedSta.{ListedSta as AnySta};
ghost use Rattle.domain_rules.specs.Network.{InForm};
ghost use Rattle.node_base.specs.Growing.{Grows};
ghost use Rattle.embedded_node.specs.Free.{is_single, is_same, is_used, is_used_id, is_id};
ghost use Rattle.embedded_node.specs.Free.{ap_fault, sta_fault, IsCause};
ghost use Rattle.embedded_node.specs.Pushed.{with_other};

use crate::holders::PushedHolders;
use crate::untaken::Untaken;
use domain_base::{Mac, Octets};
use run_journal::{Domain, ListedAp, ListedSta, MOST_APS, MOST_STAS};
use std::alloc::Global;

/// Whether an address is that of one node: neither zero nor a group's.
pub(crate) fn is_single(octets: &[u8; 6]) -> bool
    ensures { result ≡ is_single octets.now }
{
    *octets != [0; 6] && octets[0] % 2 == 0
}

/// Whether these octets are an R0KH-ID (IEEE Std 802.11-2020, 9.4.2.47).
pub(crate) fn is_id(r0kh_id: &[u8]) -> bool
    ensures { result ≡ is_id r0kh_id.now }
{
    1 <= r0kh_id.len() && r0kh_id.len() <= 48
}

// Whether a listed access point has the address.
fn is_of_ap(domain: &Domain, address: Mac) -> bool
    ensures { result ≡ list_any (λ (a : AnyAp). is_same a.address address) domain.now.aps }
{
    domain.aps.0.iter().any(|ap| ap.address == address)
}

/// Whether a listed station has the address.
pub(crate) fn is_of_sta(domain: &Domain, address: Mac) -> bool
    ensures { result ≡ list_any (λ (s : AnySta). is_same s.address address) domain.now.stas }
{
    domain.stas.place_of(address).is_some()
}

// Whether a listed node has the address.
fn is_used(domain: &Domain, address: Mac) -> bool
    ensures { result ≡ is_used domain.now address }
{
    is_of_ap(domain, address) || is_of_sta(domain, address)
}

// Whether a listed access point has the R0KH-ID.
fn is_used_id(domain: &Domain, r0kh_id: &[u8]) -> bool
    ensures { result ≡ is_used_id domain.now r0kh_id.now }
{
    domain
        .aps
        .0
        .iter()
        .any(|ap| ap.r0kh_id.as_slice() == r0kh_id)
}

/// Whether an access point can be listed so.
pub(crate) fn can_list_ap(domain: &Domain, address: Mac, r0kh_id: &[u8]) -> Result<(), Untaken>
    ensures { MatchResult result (λ _. ap_fault domain.now address r0kh_id.now ≡ None)
        (λ why. ap_fault domain.now address r0kh_id.now ≡ Some why) }
{
    if MOST_APS <= domain.aps.0.len() {
        Err(Untaken::Full)
    } else if !is_single(&address.0) || !is_id(r0kh_id) {
        Err(Untaken::Unfit)
    } else if is_used(domain, address) || is_used_id(domain, r0kh_id) {
        Err(Untaken::Unfit)
    } else {
        Ok(())
    }
}

// Whether a station can be listed so.
fn can_list_station(domain: &Domain, address: Mac) -> Result<(), Untaken>
    ensures { MatchResult result (λ _. sta_fault domain.now address ≡ None)
        (λ why. sta_fault domain.now address ≡ Some why) }
{
    if MOST_STAS <= domain.stas.len() {
        Err(Untaken::Full)
    } else if !is_single(&address.0) || is_used(domain, address) {
        Err(Untaken::Unfit)
    } else {
        Ok(())
    }
}

/// Lists one more access point.
#[tactic(auto, using(crate::proofs::Listed::in_form_ap, crate::proofs::Listed::grows_ap))]
pub(crate) fn list_ap(
    alloc: Global,
    domain: &mut Domain,
    address: Mac,
    r0kh_id: &[u8],
) -> Result<(), Untaken>
    ensures form { OnOk result (InForm domain.old → InForm domain.new) }
    ensures domain { OnOk result (domain.new ≡ with_ap domain.old address r0kh_id.now) }
    ensures grows { OnOk result (Grows domain.old domain.new) }
    ensures same { OnErr result (domain.new ≡ domain.old) }
    ensures cause { IfErr result (IsCause (ap_fault domain.old address r0kh_id.now)) }
{
    can_list_ap(domain, address, r0kh_id)?;
    let Ok(kept) = Vec::from_slice(alloc, r0kh_id) else {
        return Err(Untaken::NoMemory);
    };
    let r0kh_id = Octets(kept);
    match domain.aps.0.push(ListedAp { address, r0kh_id }) {
        Ok(()) => Ok(()),
        Err(_) => Err(Untaken::NoMemory),
    }
}

/// Lists one more access point, and its key holder among the others.
pub(crate) fn list_other(
    alloc: Global,
    domain: &mut Domain,
    holders: &mut PushedHolders,
    address: Mac,
    r0kh_id: &[u8],
) -> Result<(), Untaken>
    ensures form { OnOk result (InForm domain.old → InForm domain.new) }
    ensures domain { OnOk result (domain.new ≡ with_ap domain.old address r0kh_id.now) }
    ensures grows { OnOk result (Grows domain.old domain.new) }
    ensures holders { OnOk result (holders.new ≡ with_other r0kh_id.now holders.old) }
    ensures same { OnErr result (domain.new ≡ domain.old) }
    ensures same_holders { OnErr result (holders.new ≡ holders.old) }
    ensures cause { IfErr result (IsCause (ap_fault domain.old address r0kh_id.now)) }
{
    can_list_ap(domain, address, r0kh_id)?;
    let before = holders.others();
    let Ok(()) = holders.list(alloc, r0kh_id) else {
        return Err(Untaken::NoMemory);
    };
    match list_ap(alloc, domain, address, r0kh_id) {
        Ok(()) => Ok(()),
        Err(why) => {
            holders.keep(before);
            Err(why)
        }
    }
}

/// Lists one more station, with the key that it shares with the network.
#[tactic(auto, using(crate::proofs::Listed::in_form_sta, crate::proofs::Listed::grows_sta))]
pub(crate) fn list_station(domain: &mut Domain, address: Mac, psk: &[u8; 32]) -> Result<(), Untaken>
    ensures form { OnOk result (InForm domain.old → InForm domain.new) }
    ensures domain { OnOk result (domain.new ≡ with_sta domain.old address psk.now) }
    ensures grows { OnOk result (Grows domain.old domain.new) }
    ensures same { OnErr result (domain.new ≡ domain.old) }
    ensures cause { IfErr result (IsCause (sta_fault domain.old address)) }
{
    can_list_station(domain, address)?;
    let psk = *psk;
    match domain.stas.push(ListedSta { address, psk }) {
        Ok(()) => Ok(()),
        Err(_) => Err(Untaken::NoMemory),
    }
}
