//! Frames judged by their elements (IEEE Std 802.11-2020, 13.8).

ghost use Rattle.std.specs.Prelude.{◌≡◌, option_map};
ghost use Rattle.rsn_elements.specs.Fields.{fte_fields, element_fields};
ghost use Rattle.ft_exchange.specs.Judged.{wanted, response_reason, reassociation_reason};
ghost use Rattle.ft_exchange.specs.Judged.{has_other_nonce, auth_response_reason, IsJudged};

use crate::elements::{INVALID_FTE, counts_three, elements_status, is_named, names_both};
use crate::group::{CarriedKeys, Unwrapped, carried_keys};
use rsn_elements::{Elements, Fte};
use run_journal::Reason;

/// What the elements of a frame have to say.
#[derive(Clone, Copy)]
pub struct Expected<'a> {
    /// Whether management frames are protected.
    pub mfp: bool,
    /// The mobility domain.
    pub mdid: [u8; 2],
    /// The R1KH-ID.
    pub r1kh_id: [u8; 6],
    /// The R0KH-ID.
    pub r0kh_id: &'a [u8],
    /// The name of a key.
    pub name: [u8; 16],
}

// Why the elements of an authentication response are refused, if they are.
fn response_fault(expected: &Expected<'_>, elements: &Elements<'_>) -> Option<Reason>
    ensures { result ≡ response_reason (wanted expected.now) (element_fields elements.now) }
{
    let Expected {
        mfp,
        mdid,
        r1kh_id,
        r0kh_id,
        name,
    } = *expected;
    if let Some(code) = elements_status(mfp, mdid, elements) {
        return Some(Reason::Status(code));
    }
    if !names_both(r1kh_id, r0kh_id, elements.fte) {
        return Some(Reason::Status(INVALID_FTE));
    }
    if !is_named(&name, elements) {
        return Some(Reason::Name);
    }
    None
}

// Whether there is an FTE with another SNonce.
fn has_other_nonce(snonce: &[u8; 32], fte: Option<Fte<'_>>) -> bool
    ensures { result ≡ has_other_nonce snonce.now (option_map fte_fields fte.entry) }
{
    match fte {
        Some(fte) => !(fte.snonce == *snonce),
        None => false,
    }
}

/// Why an authentication response is refused in an attempt of that SNonce, if it is.
pub fn auth_response_fault(
    expected: &Expected<'_>,
    snonce: &[u8; 32],
    status: u16,
    elements: &Elements<'_>,
) -> Option<Reason>
    ensures { result ≡ auth_response_reason (wanted expected.now) snonce.now status
        (element_fields elements.now) }
{
    if status != 0 {
        return Some(Reason::Status(status));
    }
    if has_other_nonce(snonce, elements.fte) {
        return Some(Reason::Nonce);
    }
    response_fault(expected, elements)
}

/// Why a frame of reassociation is refused behind its MIC, if it is. A response has to carry the
/// group keys.
pub fn reassociation_fault(
    expected: &Expected<'_>,
    elements: &Elements<'_>,
    carries: bool,
) -> Option<Reason>
    ensures { result ≡ reassociation_reason (wanted expected.now) (element_fields elements.now)
        carries }
{
    let Expected {
        mfp,
        mdid,
        r1kh_id,
        r0kh_id,
        name,
    } = *expected;
    if let Some(code) = elements_status(mfp, mdid, elements) {
        return Some(Reason::Status(code));
    }
    let right = counts_three(elements.fte) && names_both(r1kh_id, r0kh_id, elements.fte);
    if !(right && carries) {
        return Some(Reason::Status(INVALID_FTE));
    }
    if !is_named(&name, elements) {
        return Some(Reason::Name);
    }
    None
}

/// The group keys of a reassociation response behind its MIC, under the KEK, or why it is refused.
#[tactic(auto, using(crate::proofs::Judging::judged_bad, crate::proofs::Judging::judged_status, crate::proofs::Judging::gtk_some, crate::proofs::Judging::igtk_some, crate::proofs::Judging::judged_fault, crate::proofs::Judging::judged_keys, crate::proofs::Judging::never_without,))]
pub fn judge_reassoc_response(
    expected: &Expected<'_>,
    kek: &[u8; 16],
    status: u16,
    elements: &Elements<'_>,
) -> Result<CarriedKeys, Reason>
    ensures { IsJudged (wanted expected.now) kek.now status (element_fields elements.now) result }
{
    let unwrapped = Unwrapped::of(kek, expected.mfp, elements.fte);
    if unwrapped.has_bad() {
        return Err(Reason::Wrap);
    }
    if status != 0 {
        return Err(Reason::Status(status));
    }
    let keys = carried_keys(expected.mfp, elements.fte, unwrapped);
    if let Some(why) = reassociation_fault(expected, elements, keys.is_some()) {
        return Err(why);
    }
    match keys {
        Some(keys) => Ok(keys),
        None => Err(Reason::Status(INVALID_FTE)),
    }
}
