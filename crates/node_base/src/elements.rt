//! Elements as nodes take them: the status of an MDE, and an element cut to its length.

ghost use Rattle.std.specs.Prelude.{◌≡◌, ◌≤◌, ◌+◌, length, slice_index, option_map};
ghost use Rattle.rsn_elements.specs.Fields.{mde_fields};
ghost use Rattle.domain_rules.specs.FastTransition.{mde_status};

use rsn_elements::Mde;
use run_journal::Domain;

// The status of a mobility domain element that is missing or of another domain
// (IEEE Std 802.11-2020, 9.4.1.9).
const INVALID_MDE: u16 = 54;

/// The status with which an MDE is refused, if it is (IEEE Std 802.11-2020, 9.4.1.9): 54 where it
/// is missing or of another mobility domain.
pub fn mde_status(domain: &Domain, mde: Option<Mde>) -> Option<u16>
    ensures { result ≡ mde_status domain.now (option_map mde_fields mde) }
{
    let Some(mde) = mde else {
        return Some(INVALID_MDE);
    };
    if mde.mdid == domain.mdid {
        None
    } else {
        Some(INVALID_MDE)
    }
}

/// An element whose second octet is the length of its body, as it is: so it has at most 257 octets
/// (IEEE Std 802.11-2020, 9.4.2.1).
pub fn whole_element(element: &[u8]) -> &[u8]
    requires some { 2 ≤ length element.now }
    requires framed { length element.now ≡ slice_index element.now 1 + 2 }
    ensures same { result.now ≡ element.now }
    ensures few { length result.now ≤ 257 }
{
    let body = usize::from(element[1]);
    let (whole, _) = element.split_at(body + 2);
    whole
}
