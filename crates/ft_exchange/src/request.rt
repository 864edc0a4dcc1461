//! An authentication request judged (IEEE Std 802.11-2020, 13.8.2).

ghost use Rattle.std.specs.Prelude.{◌≡◌, option_map, is_some, position, bytes_eq};
ghost use Rattle.rsn_elements.specs.Fields.{element_fields};
ghost use Rattle.run_journal.specs.declared.domain.ListedAp.{ListedAp as AnyAp};
ghost use Rattle.domain_rules.specs.Network.{holder_of};
ghost use Rattle.domain_rules.specs.TransitionKeys.{asked};
ghost use Rattle.ft_exchange.specs.Asking.{asked_fields, IsRequest};

use crate::elements::{INVALID_FTE, elements_status, names_in};
use rsn_elements::Elements;
use run_journal::{Domain, ListedAp, Reason};

/// What an authentication request asks for.
#[derive(Clone, Copy)]
pub struct Asked<'a> {
    /// The station's nonce.
    pub snonce: [u8; 32],
    /// The R0KH-ID.
    pub r0kh_id: &'a [u8],
    /// The names of keys, one after the other.
    pub names: Option<&'a [u8]>,
}

// What the elements ask for, where they ask for something.
fn asks<'a>(elements: &Elements<'a>) -> Option<Asked<'a>>
    ensures { option_map asked_fields result ≡ asked (element_fields elements.now) }
{
    let Some(fte) = elements.fte else {
        return None;
    };
    let Some(r0kh_id) = fte.r0kh_id else {
        return None;
    };
    Some(Asked {
        snonce: fte.snonce,
        r0kh_id,
        names: names_in(elements),
    })
}

/// What a request asks for, or why its elements are refused, where management frames are protected
/// or not.
pub fn judge_request<'a>(
    mfp: bool,
    mdid: [u8; 2],
    elements: &Elements<'a>,
) -> Result<Asked<'a>, Reason>
    ensures { IsRequest mfp mdid (element_fields elements.now) result }
{
    if let Some(code) = elements_status(mfp, mdid, elements) {
        return Err(Reason::Status(code));
    }
    match asks(elements) {
        Some(asked) => Ok(asked),
        None => Err(Reason::Status(INVALID_FTE)),
    }
}

// The place of the first access point that has the R0KH-ID.
fn place_of(aps: &[ListedAp], id: &[u8]) -> Option<usize>
    ensures { result ≡ position (λ (a : AnyAp). bytes_eq a.r0kh_id id.now) aps.now }
{
    aps.iter().position(|ap| ap.r0kh_id.as_slice() == id)
}

/// Whether an access point of the network has the R0KH-ID.
pub fn has_holder(domain: &Domain, id: &[u8]) -> bool
    ensures { result ≡ is_some (holder_of domain.now id.now) }
{
    place_of(&domain.aps.0, id).is_some()
}
