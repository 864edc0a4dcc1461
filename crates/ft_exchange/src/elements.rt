//! Whether the elements of a frame are those of a fast transition.

ghost use Rattle.std.specs.Prelude.{◌≡◌, Some, option_map};
ghost use Rattle.std.specs.Option.{option_copied};
ghost use Rattle.rsn_elements.specs.Fields.{rsne_fields, mde_fields, fte_fields, element_fields};
ghost use Rattle.domain_rules.specs.Facts.{is_same};
ghost use Rattle.domain_rules.specs.FastTransition.{names_both, counts_three, is_named, single};
ghost use Rattle.domain_rules.specs.FastTransition.{names_in};
ghost use Rattle.ft_exchange.specs.Elements.{mde_code, elements_status, pmkids_of};

use domain_base::{Akm, array_at};
use rsn_elements::{Elements, Fte, Mde, Rsne, rsne_status};

// The status of a mobility domain element that is missing or of another domain
// (IEEE Std 802.11-2020, 9.4.1.9).
const INVALID_MDE: u16 = 54;

/// The status of an FTE that is missing or other (IEEE Std 802.11-2020, 9.4.1.9).
pub const INVALID_FTE: u16 = 55;

// The octets of a name.
const NAME_LEN: usize = 16;

// The status with which an MDE is refused, if it is.
fn mde_code(mdid: [u8; 2], mde: Option<Mde>) -> Option<u16>
    ensures { result ≡ mde_code mdid (option_map mde_fields mde) }
{
    let Some(mde) = mde else {
        return Some(INVALID_MDE);
    };
    if mde.mdid == mdid {
        None
    } else {
        Some(INVALID_MDE)
    }
}

/// The status with which the RSNE or the MDE of a frame is refused, if one is, where management
/// frames are protected or not.
pub fn elements_status(mfp: bool, mdid: [u8; 2], elements: &Elements<'_>) -> Option<u16>
    ensures { result ≡ elements_status mfp mdid (element_fields elements.now) }
{
    match rsne_status(mfp, Akm::FtPsk, elements.rsne) {
        Some(code) => Some(code),
        None => mde_code(mdid, elements.mde),
    }
}

// Whether the octets are there, and are these.
fn is_same(found: Option<&[u8]>, octets: &[u8]) -> bool
    ensures { result ≡ is_same (option_copied found.entry) (Some octets.now) }
{
    match found {
        Some(found) => found == octets,
        None => false,
    }
}

// Whether the address is there, and is this one.
fn is_same_id(found: Option<[u8; 6]>, id: [u8; 6]) -> bool
    ensures { result ≡ is_same found (Some id) }
{
    match found {
        Some(found) => found == id,
        None => false,
    }
}

/// Whether the FTE names these two key holders.
pub fn names_both(r1kh_id: [u8; 6], r0kh_id: &[u8], fte: Option<Fte<'_>>) -> bool
    ensures { result ≡ names_both r1kh_id r0kh_id.now (option_map fte_fields fte.entry) }
{
    let Some(fte) = fte else { return false };
    is_same_id(fte.r1kh_id, r1kh_id) && is_same(fte.r0kh_id, r0kh_id)
}

/// Whether the FTE says that three elements are under its MIC.
pub fn counts_three(fte: Option<Fte<'_>>) -> bool
    ensures { result ≡ counts_three (option_map fte_fields fte.entry) }
{
    let Some(fte) = fte else { return false };
    fte.mic_control[1] == 3
}

// The names of keys in an RSNE.
fn pmkids(rsne: Option<Rsne<'_>>) -> Option<&[u8]>
    ensures { option_copied result ≡ pmkids_of (option_map rsne_fields rsne.entry) }
{
    let Some(rsne) = rsne else { return None };
    let Some(pmkids) = rsne.pmkids else {
        return None;
    };
    Some(pmkids.0)
}

/// The names of keys in the RSNE of a frame, one after the other.
pub fn names_in<'a>(elements: &Elements<'a>) -> Option<&'a [u8]>
    ensures { option_copied result ≡ names_in (element_fields elements.now) }
{
    pmkids(elements.rsne)
}

/// Whether the RSNE of a frame names that key, and no other.
pub fn is_named(name: &[u8; 16], elements: &Elements<'_>) -> bool
    ensures { result ≡ is_named name.now (element_fields elements.now) }
{
    is_same(names_in(elements), name)
}

/// The name, where there is one and no other.
pub fn single(names: Option<&[u8]>) -> Option<[u8; 16]>
    ensures { result ≡ single (option_copied names.entry) }
{
    let Some(names) = names else { return None };
    if names.len() != NAME_LEN {
        return None;
    }
    Some(array_at(names, 0))
}
