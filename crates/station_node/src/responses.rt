//! Association responses by what they say.

ghost use Rattle.std.specs.Prelude.{true, ◌≡◌, ◌<◌, ◌≤◌, length, Some, is_some};
ghost use Rattle.std.specs.Prelude.{option_map, ◌++◌, ◌∷◌, [], ℕ, None, OnOk, OnErr};
ghost use Rattle.std.specs.Option.{option_copied};
ghost use Rattle.domain_base.specs.declared.names.Akm.TheVariants.{FtPsk};
ghost use Rattle.domain_base.specs.declared.names.Node.TheVariants.{Ap};
ghost use Rattle.rsn_elements.specs.Elements.{HasRaw};
ghost use Rattle.rsn_elements.specs.Fields.{fte_fields, element_fields};
ghost use Rattle.domain_rules.specs.Facts.{is_same};
ghost use Rattle.domain_rules.specs.Associating.{response_fields};
ghost use Rattle.domain_rules.specs.FastTransition.{names_r1kh};
ghost use Rattle.run_journal.specs.declared.acts.Act.TheVariants.{Took};
ghost use Rattle.run_journal.specs.declared.acts.Kind.TheVariants.{AssocResp};
ghost use Rattle.run_journal.specs.declared.acts.Outcome.TheVariants.{Accepted};
ghost use Rattle.station_node.specs.State.{memory_at, is_there, KeepsPlaces};
ghost use Rattle.station_node.specs.Responses.{outcome_by, response_outcome, fte_with};

use crate::memories::Memories;
use act_memory::Outbox;
use domain_base::{Akm, Mac, NoMemory, Node, Octets};
use node_base::{address, mde_status, whole_element};
use rsn_elements::{Elements, Fte};
use run_journal::{Act, Domain, Kind, Outcome, Reason};
use std::alloc::Global;

// The status of an FTE that is missing or other (IEEE Std 802.11-2020, 9.4.1.9).
const INVALID_FTE: u16 = 55;

// Whether the address is there, and is this one.
fn is_same_id(found: Option<[u8; 6]>, id: [u8; 6]) -> bool
    ensures { result ≡ is_same found (Some id) }
{
    match found {
        Some(found) => found == id,
        None => false,
    }
}

// Whether there is an R0KH-ID.
fn is_there(found: Option<&[u8]>) -> bool
    ensures { result ≡ is_some (option_copied found.entry) }
{
    match found {
        Some(_) => true,
        None => false,
    }
}

// Whether the FTE names that R1KH-ID, and some R0KH-ID.
fn names_r1kh(bssid: Mac, fte: Option<Fte<'_>>) -> bool
    ensures { result ≡ names_r1kh bssid.0 (option_map fte_fields fte.entry) }
{
    let Some(fte) = fte else { return false };
    is_same_id(fte.r1kh_id, bssid.0) && is_there(fte.r0kh_id)
}

// Why the elements of an association response of that access point are refused with suite 4, if
// they are.
fn mobile_fault(domain: &Domain, ap: u16, elements: &Elements<'_>) -> Option<Reason>
    requires { ap < length domain.now.aps }
    ensures { outcome_by result
        ≡ response_fields FtPsk domain.now (Ap ap) (element_fields elements.now) }
{
    if let Some(code) = mde_status(domain, elements.mde) {
        return Some(Reason::Status(code));
    }
    if !names_r1kh(address(domain, Node::Ap(ap)), elements.fte) {
        return Some(Reason::Status(INVALID_FTE));
    }
    None
}

/// Why an association response of that access point, which is awaited, is refused, if it is
/// (IEEE Std 802.11-2020, 11.3.5.2 and 13.4.2).
pub fn response_fault(
    domain: &Domain,
    ap: u16,
    status: u16,
    elements: &Elements<'_>,
) -> Option<Reason>
    requires { ap < length domain.now.aps }
    ensures { outcome_by result
        ≡ response_outcome domain.now ap status (element_fields elements.now) }
{
    if status != 0 {
        return Some(Reason::Status(status));
    }
    match domain.akm {
        Akm::FtPsk => mobile_fault(domain, ap, elements),
        Akm::Psk => None,
        Akm::PskSha256 => None,
    }
}

// An association response of that access point, of these octets, came and was accepted.
fn took_response(ap: u16, octets: Vec<u8>) -> Act
    ensures { result ≡ Took (Some (Ap ap)) octets.items AssocResp Accepted None }
{
    Act::Took {
        from: Some(Node::Ap(ap)),
        octets: Octets(octets),
        kind: Kind::AssocResp,
        outcome: Outcome::Accepted,
        seal: None,
    }
}

/// Makes a place for the access point, whose association response, these octets, is accepted.
pub fn take_accepted(
    alloc: Global,
    ap: u16,
    octets: &[u8],
    memories: &mut Memories,
    out: &mut Outbox,
) -> Result<(), NoMemory>
    ensures acts { OnOk result (out.new.acts ≡ out.old.acts
        ++ Took (Some (Ap ap)) octets.now AssocResp Accepted None ∷ []) }
    ensures kept { OnErr result (out.new.acts ≡ out.old.acts) }
    ensures place { OnOk result (is_there memories.new ap ≡ true) }
    ensures same { (k : ℕ) → memory_at memories.new k ≡ memory_at memories.old k }
    ensures more { KeepsPlaces memories.old memories.new }
    ensures err { OnErr result (memories.new ≡ memories.old) }
{
    out.reserve(1)?;
    let octets = Vec::from_slice(alloc, octets)?;
    memories.make_place(ap)?;
    out.add(took_response(ap, octets));
    Ok(())
}

/// The FTE of an association response with suite 4, as a whole element, and with the others
/// nothing.
pub fn response_fte<'a>(akm: Akm, elements: &Elements<'a>) -> &'a [u8]
    requires { HasRaw (element_fields elements.now) }
    ensures fte { result.now ≡ fte_with akm (element_fields elements.now) }
    ensures few { length result.now ≤ 257 }
{
    match akm {
        Akm::FtPsk => match elements.fte_octets {
            Some(fte) => whole_element(fte),
            None => &[],
        },
        Akm::Psk => &[],
        Akm::PskSha256 => &[],
    }
}
