//! Message 2 of the four-way handshake at an access point (IEEE Std 802.11-2020, 12.7.6.3 and
//! 13.4.2).

ghost use Rattle.std.specs.Prelude.{◌≡◌, option_map};
ghost use Rattle.rsn_elements.specs.declared.framing.Within.TheVariants.{Body};
ghost use Rattle.rsn_elements.specs.Elements.{ElementFields, SpellsElements};
ghost use Rattle.std.specs.Option.{option_copied};
ghost use Rattle.rsn_elements.specs.Fields.{rsne_fields, mde_fields, element_fields};
ghost use Rattle.domain_rules.specs.Facts.{is_same};
ghost use Rattle.domain_rules.specs.TransitionKeyData.{is_equal, is_equal_number, has_same_suites};
ghost use Rattle.authenticator.specs.KeyData.{IsKeyDataOf, is_named_by, has_mdid};
ghost use Rattle.authenticator.specs.KeyData.{plain_fault, mobile_fault};

use frame_making::Mobility;
use node_base::is_same_rsne;
use rsn_elements::{Elements, Mde, Rsne, Suites, Within, read_elements};
use run_journal::{KeyDataFault, Keyed, Reason};

/// What an M2 is judged as.
#[derive(Clone, Copy)]
pub enum M2 {
    /// Refused before its MIC verified.
    Refused(Reason),
    /// Its MIC verified under that key, but its key data is not that of the attempt: what is wrong.
    Other(KeyDataFault, Keyed),
    /// Accepted: the key.
    Agreed(Keyed),
}

// Whether both are there and equal, or neither is.
fn is_equal(some: Option<&[u8]>, other: Option<&[u8]>) -> bool
    ensures { result ≡ is_equal (option_copied some.entry) (option_copied other.entry) }
{
    match (some, other) {
        (Some(some), Some(other)) => some == other,
        (None, None) => true,
        _ => false,
    }
}

// The same of one suite.
fn is_equal_suite(some: Option<[u8; 4]>, other: Option<[u8; 4]>) -> bool
    ensures { result ≡ is_equal some other }
{
    match (some, other) {
        (Some(some), Some(other)) => some == other,
        (None, None) => true,
        _ => false,
    }
}

// The same of a list of suites.
fn is_equal_list(some: Option<Suites<'_>>, other: Option<Suites<'_>>) -> bool
    ensures { result ≡ is_equal (option_map (λ s. s.0.now) some.entry)
        (option_map (λ s. s.0.now) other.entry) }
{
    match (some, other) {
        (Some(some), Some(other)) => is_equal(Some(some.0), Some(other.0)),
        (None, None) => true,
        _ => false,
    }
}

// The same of capabilities.
fn is_equal_number(some: Option<u16>, other: Option<u16>) -> bool
    ensures { result ≡ is_equal_number some other }
{
    match (some, other) {
        (Some(some), Some(other)) => some == other,
        (None, None) => true,
        _ => false,
    }
}

// Whether both RSNEs are there and have the same suites and capabilities.
fn has_same_suites(found: Option<Rsne<'_>>, requested: Option<Rsne<'_>>) -> bool
    ensures { result ≡ has_same_suites (option_map rsne_fields found.entry)
        (option_map rsne_fields requested.entry) }
{
    let (Some(found), Some(requested)) = (found, requested) else {
        return false;
    };
    is_equal_suite(found.group, requested.group)
        && is_equal_list(found.pairwise, requested.pairwise)
        && is_equal_list(found.akms, requested.akms)
        && is_equal_number(found.capabilities, requested.capabilities)
        && is_equal_suite(found.management, requested.management)
}

// Whether an RSNE names that key, and no other.
fn is_named(found: Option<Rsne<'_>>, name: &[u8; 16]) -> bool
    ensures { result ≡ is_named_by name.now (option_map rsne_fields found.entry) }
{
    let Some(found) = found else { return false };
    match found.pmkids {
        Some(pmkids) => is_equal(Some(pmkids.0), Some(name)),
        None => false,
    }
}

// Whether an MDE is of that mobility domain.
fn has_mdid(found: Option<Mde>, mdid: [u8; 2]) -> bool
    ensures { result ≡ has_mdid mdid (option_map mde_fields found) }
{
    match found {
        Some(found) => found.mdid == mdid,
        None => false,
    }
}

// What is wrong with the elements of an M2 with suite 4, by the RSNE of the association request.
fn mobile_fault(
    mobility: &Mobility,
    requested: Option<Rsne<'_>>,
    elements: &Elements<'_>,
) -> Option<KeyDataFault>
    ensures { result ≡ mobile_fault mobility.now (option_map rsne_fields requested.entry)
        (element_fields elements.now) }
{
    if !(has_same_suites(elements.rsne, requested) && is_named(elements.rsne, mobility.name())) {
        return Some(KeyDataFault::Rsne);
    }
    if !has_mdid(elements.mde, mobility.mdid()) {
        return Some(KeyDataFault::Mde);
    }
    if !is_equal(elements.fte_octets, Some(mobility.fte())) {
        return Some(KeyDataFault::Fte);
    }
    None
}

// The RSNE that those octets are.
fn read_rsne(rsne: &[u8]) -> Option<Rsne<'_>>
    ensures { (e : ElementFields) → SpellsElements Body rsne.now e
        → e.rsne ≡ option_map rsne_fields result }
{
    match read_elements(rsne, Within::Body) {
        Ok(elements) => elements.rsne,
        Err(_) => None,
    }
}

// What is wrong with the RSNE of an M2 with suites 2 and 6, by that of the association request.
fn plain_fault(found: Option<&[u8]>, rsne: &[u8]) -> Option<KeyDataFault>
    ensures { result ≡ plain_fault (option_copied found.entry) rsne.now }
{
    if is_same_rsne(found, rsne) {
        None
    } else {
        Some(KeyDataFault::Rsne)
    }
}

/// What is wrong with the key data of an M2 by the RSNE of the association request, and with suite
/// 4 by what that adds.
pub fn key_data_fault(
    mobility: &Option<Mobility>,
    rsne: &[u8],
    key_data: &[u8],
) -> Option<KeyDataFault>
    ensures { IsKeyDataOf mobility.now rsne.now key_data.now result }
{
    let Ok(elements) = read_elements(key_data, Within::KeyData) else {
        return Some(KeyDataFault::Unreadable);
    };
    match mobility {
        Some(mobility) => mobile_fault(mobility, read_rsne(rsne), &elements),
        None => plain_fault(elements.rsne_octets, rsne),
    }
}
