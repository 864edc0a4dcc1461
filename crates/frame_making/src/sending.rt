//! The frames of associations, each as the act of sending it.

ghost use Rattle.std.specs.Prelude.{◌≡◌, ◌≤◌, ◌++◌, true, false, Some, None, IfOk, length, take};
ghost use Rattle.domain_base.specs.declared.names.Akm.TheVariants.{FtPsk};
ghost use Rattle.domain_base.specs.declared.names.Node.TheVariants.{Ap, Sta};
ghost use Rattle.domain_base.specs.declared.names.Peer.TheVariants.{One};
ghost use Rattle.air_frame.specs.Sent.{assoc_resp_octets};
ghost use Rattle.rsn_elements.specs.Sent.{ssid_octets, rates_octets};
ghost use Rattle.rsn_elements.specs.Sent.{mde_octets, fte_body, fte_octets};
ghost use Rattle.rsn_elements.specs.Fields.{fte_fields};
ghost use Rattle.std.specs.Option.{ForSome};
ghost use Rattle.key_hierarchy.specs.Sizes.{IsSsid, IsR0khId};
ghost use Rattle.run_journal.specs.declared.acts.Kind.TheVariants.{AssocResp};
ghost use Rattle.run_journal.specs.declared.acts.Act.TheVariants.{Sent};
ghost use Rattle.domain_rules.specs.Network.{InForm, address, is_ap};
ghost use Rattle.run_journal.specs.Events.{IsListed};
ghost use Rattle.domain_rules.specs.FastTransition.{plain_fte, no_nonce, assoc_fte};
ghost use Rattle.domain_rules.specs.Suites.{network_rsne};
ghost use Rattle.domain_rules.specs.Frames.{assoc_req_elements_by, assoc_req_elements};
ghost use Rattle.domain_rules.specs.Frames.{assoc_resp_elements, sent_assoc_req, sent_assoc_resp};
ghost use Rattle.domain_rules.specs.Frames.{sent_refusal};

use crate::key_data::{MOST_FTE, rsne};
use air_frame::{write_assoc_req, write_assoc_resp};
use domain_base::{Akm, Mac, NoMemory, Node, Octets, Peer, ShortOctets, put};
use node_base::{Here, address, r0kh_id};
use rsn_elements::{ElementWriter, Fte};
use run_journal::{Act, Domain, Kind};

// The two highest bits of an association identifier as it is sent (IEEE Std 802.11-2020, 9.4.1.8).
const AID_BITS: u16 = 0xc000;

// The octets before the elements of an association request, and before those of a response.
const REQUEST_FRONT: usize = 28;

const RESPONSE_FRONT: usize = 30;

// The most octets that the elements of an association request take with suites 2 and 6, with suite
// 4, and those of a response.
const MOST_PLAIN_ELEMENTS: usize = 68;

const MOST_ELEMENTS: usize = MOST_PLAIN_ELEMENTS + 5;

const MOST_RESPONSE_ELEMENTS: usize = 6 + 5 + MOST_FTE;

// The act of sending these octets to the peer, of which nothing is sealed.
fn sent(peer: Node, kind: Kind, octets: Vec<u8>) -> Act
    ensures { result ≡ Sent (One peer) kind octets.items None }
{
    Act::Sent {
        peer: Peer::One(peer),
        kind,
        octets: Octets(octets),
        seal: None,
    }
}

// The rates.
fn rates() -> [u8; 6]
    ensures { result ≡ rates_octets }
{
    let mut out = [0; 6];
    ElementWriter::over(&mut out).rates();
    out
}

// Writes the name of the network and the rates to the front of `out`, and answers how many octets
// they take.
fn put_front(domain: &Domain, out: &mut [u8]) -> usize
    requires ssid { IsSsid domain.now.ssid }
    requires room { MOST_ELEMENTS ≤ length out.old }
    ensures few { result ≤ 40 }
    ensures len { length out.new ≡ length out.old }
    ensures octets { take result out.new ≡ ssid_octets domain.now.ssid ++ rates_octets }
{
    let mut writer = ElementWriter::over(out);
    writer.ssid(domain.ssid.as_slice());
    writer.rates();
    writer.len()
}

// Writes the elements of an association request with suites 2 and 6 to the front of `out`, and
// answers how many octets they take.
#[tactic(auto, using(crate::proofs::Elements::plain_made))]
fn put_plain_elements(domain: &Domain, out: &mut [u8]) -> usize
    requires ssid { IsSsid domain.now.ssid }
    requires room { MOST_ELEMENTS ≤ length out.old }
    ensures few { result ≤ MOST_PLAIN_ELEMENTS }
    ensures len { length out.new ≡ length out.old }
    ensures octets { take result out.new
        ≡ ssid_octets domain.now.ssid ++ rates_octets ++ network_rsne domain.now None }
{
    let plain = rsne(domain.akm, domain.extras.mfp);
    let at = put_front(domain, out);
    put(out, at, plain.as_slice())
}

// The MDE of the network.
fn mde(mdid: [u8; 2]) -> [u8; 5]
    ensures { result ≡ mde_octets mdid }
{
    let mut out = [0; 5];
    ElementWriter::over(&mut out).mde(mdid);
    out
}

// With suite 4 there is an MDE after them (IEEE Std 802.11-2020, 13.4.2).
#[tactic(auto, using(crate::proofs::Elements::request_mobile))]
fn put_mobility_elements(domain: &Domain, out: &mut [u8]) -> usize
    requires ssid { IsSsid domain.now.ssid }
    requires room { MOST_ELEMENTS ≤ length out.old }
    ensures few { result ≤ MOST_ELEMENTS }
    ensures octets { take result out.new ≡ assoc_req_elements_by FtPsk domain.now }
{
    let at = put_plain_elements(domain, out);
    put(out, at, &mde(domain.mdid))
}

// Writes the elements of an association request to the front of `out`, and answers how many octets
// they take.
#[tactic(auto, using(crate::proofs::Elements::plain_asked, crate::proofs::Elements::mobility_asked))]
fn put_request_elements(domain: &Domain, out: &mut [u8]) -> usize
    requires ssid { IsSsid domain.now.ssid }
    requires room { MOST_ELEMENTS ≤ length out.old }
    ensures few { result ≤ MOST_ELEMENTS }
    ensures octets { take result out.new ≡ assoc_req_elements domain.now }
{
    match domain.akm {
        Akm::FtPsk => put_mobility_elements(domain, out),
        _ => put_plain_elements(domain, out),
    }
}

// The FTE of an association response (IEEE Std 802.11-2020, 13.4.2).
#[tactic(auto, using(crate::proofs::Elements::fte_few))]
fn response_fte(bssid: Mac, r0kh_id: &[u8]) -> Fte<'_>
    requires { IsR0khId r0kh_id.now }
    ensures fields { fte_fields result
        ≡ plain_fte no_nonce no_nonce (Some bssid.0) r0kh_id.now }
    ensures few { length (fte_body (fte_fields result)) ≤ 140 }
    ensures id { ForSome result.r0kh_id (λ id. (1 ≤ length id.now) × (length id.now ≤ 48)) }
{
    Fte {
        mic_control: [0, 0],
        mic: [0; 16],
        anonce: [0; 32],
        snonce: [0; 32],
        r1kh_id: Some(bssid.0),
        gtk: None,
        r0kh_id: Some(r0kh_id),
        igtk: None,
    }
}

/// The whole FTE of the association responses of an access point (IEEE Std 802.11-2020, 13.4.2).
#[tactic(auto, using(crate::proofs::Elements::fte_of_response))]
pub fn association_fte(domain: &Domain, ap: u16) -> ShortOctets<MOST_FTE>
    requires form { InForm domain.now }
    requires listed { IsListed domain.now (Ap ap) }
    ensures octets { result ≡ fte_octets (assoc_fte domain.now (Ap ap)) }
    ensures few { length result ≤ MOST_FTE }
{
    let bssid = address(domain, Node::Ap(ap));
    let fte = response_fte(bssid, r0kh_id(domain, ap));
    let mut out = [0; MOST_FTE];
    let mut writer = ElementWriter::over(&mut out);
    writer.fte(&fte);
    let size = writer.len();
    let (octets, _) = out.split_at(size);
    ShortOctets::of(octets)
}

// Writes the elements of an association response with suite 4 to the front of `out`, and answers
// how many octets they take.
#[tactic(auto, using(crate::proofs::Elements::mobility_answered))]
fn put_response_mobility(domain: &Domain, ap: u16, out: &mut [u8]) -> usize
    requires form { InForm domain.now }
    requires listed { IsListed domain.now (Ap ap) }
    requires suite { domain.now.akm ≡ FtPsk }
    requires room { MOST_RESPONSE_ELEMENTS ≤ length out.old }
    ensures few { result ≤ MOST_RESPONSE_ELEMENTS }
    ensures octets { take result out.new ≡ assoc_resp_elements domain.now (Ap ap) }
{
    let fte = association_fte(domain, ap);
    let at = put(out, 0, &rates());
    let at = put(out, at, &mde(domain.mdid));
    put(out, at, fte.as_slice())
}

// Writes the elements of an association response of that access point to the front of `out`, and
// answers how many octets they take.
#[tactic(auto, using(crate::proofs::Elements::plain_answered))]
fn put_response_elements(domain: &Domain, ap: u16, out: &mut [u8]) -> usize
    requires form { InForm domain.now }
    requires listed { IsListed domain.now (Ap ap) }
    requires room { MOST_RESPONSE_ELEMENTS ≤ length out.old }
    ensures few { result ≤ MOST_RESPONSE_ELEMENTS }
    ensures octets { take result out.new ≡ assoc_resp_elements domain.now (Ap ap) }
{
    match domain.akm {
        Akm::FtPsk => put_response_mobility(domain, ap, out),
        _ => put(out, 0, &rates()),
    }
}

/// An association request of the station that stands here to an access point.
pub fn assoc_req(here: Here<'_>, ap: u16) -> Result<Act, NoMemory>
    requires ssid { IsSsid here.domain.now.ssid }
    requires station { IsListed here.domain.now here.node }
    requires ap { IsListed here.domain.now (Ap ap) }
    ensures { IfOk result (λ act. act
        ≡ sent_assoc_req here.entry.domain.now here.entry.node (Ap ap)) }
{
    let Here {
        alloc,
        domain,
        node,
    } = here;
    let mut buffer = [0; MOST_ELEMENTS];
    let size = put_request_elements(domain, &mut buffer);
    let (elements, _) = buffer.split_at(size);
    let own = address(domain, node);
    let bssid = address(domain, Node::Ap(ap));
    let mut octets = vec![in alloc; 0; REQUEST_FRONT + size]?;
    write_assoc_req(bssid, own, bssid, elements, &mut octets);
    Ok(sent(Node::Ap(ap), Kind::AssocReq, octets))
}

// A response of the access point that stands here to a station's association request.
fn response(
    here: Here<'_>,
    station: u16,
    status: u16,
    aid: u16,
    elements: &[u8],
) -> Result<Act, NoMemory>
    requires ap { IsListed here.domain.now here.node }
    requires station { IsListed here.domain.now (Sta station) }
    ensures { IfOk result (λ act. let bssid = address here.entry.domain.now here.entry.node
        in let receiver = address here.entry.domain.now (Sta station)
        in act ≡ Sent (One (Sta station)) AssocResp
        (assoc_resp_octets receiver bssid bssid status aid elements.now) None) }
{
    let Here {
        alloc,
        domain,
        node,
    } = here;
    let receiver = address(domain, Node::Sta(station));
    let bssid = address(domain, node);
    let mut octets = vec![in alloc; 0; RESPONSE_FRONT + elements.len()]?;
    write_assoc_resp(receiver, bssid, bssid, status, aid, elements, &mut octets);
    Ok(sent(Node::Sta(station), Kind::AssocResp, octets))
}

/// The response of the access point that stands here, where it accepts a station's association.
pub fn assoc_resp(here: Here<'_>, station: u16) -> Result<Act, NoMemory>
    requires form { InForm here.domain.now }
    requires ap { IsListed here.domain.now here.node }
    requires is_ap { is_ap here.node ≡ true }
    requires station { IsListed here.domain.now (Sta station) }
    ensures { IfOk result (λ act. act
        ≡ sent_assoc_resp here.entry.domain.now here.entry.node (Sta station)) }
{
    let Node::Ap(ap) = here.node else {
        unreachable!()
    };
    let aid = AID_BITS + (station + 1);
    let mut buffer = [0; MOST_RESPONSE_ELEMENTS];
    let size = put_response_elements(here.domain, ap, &mut buffer);
    let (elements, _) = buffer.split_at(size);
    response(here, station, 0, aid, elements)
}

/// The response of the access point that stands here, where it refuses a station's association,
/// with a status other than 0.
pub fn refusal(here: Here<'_>, station: u16, status: u16) -> Result<Act, NoMemory>
    requires ap { IsListed here.domain.now here.node }
    requires station { IsListed here.domain.now (Sta station) }
    ensures { IfOk result (λ act. act
        ≡ sent_refusal here.entry.domain.now here.entry.node (Sta station) status) }
{
    response(here, station, status, 0, &[])
}
