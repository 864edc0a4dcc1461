//! Association requests at an access point.

ghost use Rattle.std.specs.Prelude.{◌≡◌, ◌≤◌, ◌+◌, [], ◌∷◌, ◌++◌, true, length, Some};
ghost use Rattle.std.specs.Prelude.{◌≢◌, ◌<◌, ℕ, None, IfOk, OnOk, OnErr, option_map, false};
ghost use Rattle.domain_base.specs.declared.names.Node.TheVariants.{Ap, Sta};
ghost use Rattle.rsn_elements.specs.Fields.{rsne_fields, mde_fields, element_fields};
ghost use Rattle.run_journal.specs.declared.acts.Act.TheVariants.{Took, Opened, Drew};
ghost use Rattle.run_journal.specs.declared.acts.Reason.TheVariants as reason;
ghost use Rattle.run_journal.specs.declared.acts.Kind.TheVariants as kind;
ghost use Rattle.run_journal.specs.declared.acts.Start.TheVariants.{Connect};
ghost use Rattle.run_journal.specs.declared.acts.Drawn.TheVariants.{Nonce};
ghost use Rattle.run_journal.specs.declared.acts.Outcome.TheVariants.{Accepted, Refused};
ghost use Rattle.domain_rules.specs.Network.{InForm, is_ap};
ghost use Rattle.run_journal.specs.Events.{IsListed};
ghost use Rattle.domain_rules.specs.Suites.{rsne_status};
ghost use Rattle.domain_rules.specs.FastTransition.{mobility_status};
ghost use Rattle.domain_rules.specs.Frames.{sent_assoc_resp, sent_m1, sent_refusal};
ghost use Rattle.domain_rules.specs.Replies.{sent_acts};
ghost use Rattle.run_journal.specs.Replies.{IsWhole};
ghost use Rattle.authenticator.specs.Kinds.{kinds};
ghost use Rattle.authenticator.specs.State.{State as AnyPart};
ghost use Rattle.ap_node.specs.State.{station_at, is_there, has_attempt, begun_over};
ghost use Rattle.ap_node.specs.Takes.{Begins, closed, request_status};

use crate::boxed::BoxedStation;
use crate::stations::begin;
use act_memory::{Outbox, SendRoom};
use authenticator::{ApStart, Authenticator};
use domain_base::{Akm, NoMemory, Node, Octets};
use frame_making::{assoc_resp, refusal};
use key_hierarchy::LastDerived;
use node_base::{Here, mde_status};
use rsn_elements::{Elements, Mde, Rsne, rsne_status};
use run_journal::{Act, Domain, Drawn, Kind, Outcome, Part, Reason, Reply, Start};
use std::collections::BTreeMap;

// The status with which an MDE is refused, if it is: with suite 4 alone.
fn mobility_status(domain: &Domain, mde: Option<Mde>) -> Option<u16>
    ensures { result ≡ mobility_status domain.now.akm domain.now (option_map mde_fields mde) }
{
    match domain.akm {
        Akm::Psk | Akm::PskSha256 => None,
        Akm::FtPsk => mde_status(domain, mde),
    }
}

// The status with which the RSNE of a peer is refused, if it is.
fn network_status(domain: &Domain, rsne: Option<Rsne<'_>>) -> Option<u16>
    ensures { result ≡ rsne_status domain.now (option_map rsne_fields rsne.entry) }
{
    rsne_status(domain.extras.mfp, domain.akm, rsne)
}

/// The status with which an association request is refused, if it is: by its RSNE, and with suite 4
/// by its MDE (IEEE Std 802.11-2020, 13.4.2).
pub fn request_status(domain: &Domain, elements: &Elements<'_>) -> Option<u16>
    ensures { result ≡ request_status domain.now (element_fields elements.now) }
{
    match network_status(domain, elements.rsne) {
        Some(status) => Some(status),
        None => mobility_status(domain, elements.mde),
    }
}

/// Refuses an association request of a station with a status.
pub fn refuse(
    here: Here<'_>,
    station: u16,
    octets: &[u8],
    status: u16,
    out: &mut Outbox,
) -> Result<Outcome, NoMemory>
    requires ap { IsListed here.domain.now here.node }
    requires station { IsListed here.domain.now (Sta station) }
    ensures outcome { IfOk result (λ came. came ≡ Refused (reason.Status status)) }
    ensures acts { OnOk result (out.new.acts ≡ out.old.acts
        ++ Took (Some (Sta station)) octets.now kind.AssocReq (Refused (reason.Status status)) None
        ∷ sent_refusal here.entry.domain.now here.entry.node (Sta station) status ∷ []) }
    ensures kept { OnErr result (out.new.acts ≡ out.old.acts) }
{
    out.reserve(2)?;
    let octets = Vec::from_slice(here.alloc, octets)?;
    let response = refusal(here, station, status)?;
    let outcome = Outcome::Refused(Reason::Status(status));
    out.add(took_request(station, octets, outcome));
    out.add(response);
    Ok(outcome)
}

// An association request of these octets came, and that came of it.
fn took_request(station: u16, octets: Vec<u8>, outcome: Outcome) -> Act
    ensures { result ≡ Took (Some (Sta station)) octets.items kind.AssocReq outcome None }
{
    Act::Took {
        from: Some(Node::Sta(station)),
        octets: Octets(octets),
        kind: Kind::AssocReq,
        outcome,
        seal: None,
    }
}

/// Closes the attempt with a station, where there is one.
pub fn close_attempt(has_attempt: bool, station: u16, out: &mut Outbox)
    requires { 1 ≤ out.old.spare }
    ensures acts { out.new.acts ≡ out.old.acts ++ closed (Sta station) has_attempt }
    ensures spare { out.old.spare ≤ out.new.spare + 1 }
{
    if has_attempt {
        out.add(Act::Closed {
            peer: Node::Sta(station),
            part: Part::Attempt,
        });
    }
}

/// Opens an attempt with a station, by the nonce that was drawn for it and the response.
pub fn open_attempt(station: u16, anonce: [u8; 32], response: Act, out: &mut Outbox)
    requires { 3 ≤ out.old.spare }
    ensures acts { out.new.acts ≡ out.old.acts
        ++ Opened (Sta station) Connect ∷ Drew (Nonce anonce) ∷ response ∷ [] }
    ensures spare { out.old.spare ≤ out.new.spare + 3 }
{
    out.add(Act::Opened {
        peer: Node::Sta(station),
        start: Start::Connect,
    });
    out.add(Act::Drew {
        value: Drawn::Nonce(anonce),
    });
    out.add(response);
}

/// What the acceptance of an association request needs, made before anything is changed.
#[derive(Drop)]
pub struct Acceptance {
    /// The act of taking the request.
    pub taken: Act,
    /// The act of sending the response.
    pub response: Act,
    /// The memory for the act of sending M1.
    pub room: SendRoom,
}

/// Prepares the acceptance of an association request of a station.
pub fn accept(here: Here<'_>, station: u16, octets: &[u8]) -> Result<Acceptance, NoMemory>
    requires form { InForm here.domain.now }
    requires ap { IsListed here.domain.now here.node }
    requires is_ap { is_ap here.node ≡ true }
    requires station { IsListed here.domain.now (Sta station) }
    ensures taken { IfOk result (λ a. a.taken
        ≡ Took (Some (Sta station)) octets.now kind.AssocReq Accepted None) }
    ensures response { IfOk result (λ a. a.response
        ≡ sent_assoc_resp here.entry.domain.now here.entry.node (Sta station)) }
{
    let octets = Vec::from_slice(here.alloc, octets)?;
    let room = SendRoom::take(here.alloc)?;
    accept_with(here, station, octets, room)
}

// As its octets are copied and the memory for M1 is taken.
fn accept_with(
    here: Here<'_>,
    station: u16,
    octets: Vec<u8>,
    room: SendRoom,
) -> Result<Acceptance, NoMemory>
    requires form { InForm here.domain.now }
    requires ap { IsListed here.domain.now here.node }
    requires is_ap { is_ap here.node ≡ true }
    requires station { IsListed here.domain.now (Sta station) }
    ensures taken { IfOk result (λ a. a.taken
        ≡ Took (Some (Sta station)) octets.items kind.AssocReq Accepted None) }
    ensures response { IfOk result (λ a. a.response
        ≡ sent_assoc_resp here.entry.domain.now here.entry.node (Sta station)) }
{
    let response = assoc_resp(here, station)?;
    Ok(Acceptance {
        taken: took_request(station, octets, Outcome::Accepted),
        response,
        room,
    })
}

/// Begins an attempt with a station, which has a place, by that nonce and that RSNE, beside the
/// session that there is with it. The attempt that there was is at its end, and whether there was
/// one is answered. The reply has M1 then. Takes no memory.
pub fn begin_attempt(
    stations: &mut BTreeMap<u16, BoxedStation>,
    domain: &Domain,
    ap: u16,
    station: u16,
    anonce: &[u8; 32],
    rsne: &[u8],
    derived: &mut LastDerived,
    reply: &mut Reply,
) -> bool
    requires form { InForm domain.now }
    requires ap { ap < length domain.now.aps }
    requires station { station < length domain.now.stas }
    requires there { is_there station stations.old.entries ≡ true }
    requires rsne { length rsne.now ≤ 257 }
    ensures had { result ≡ has_attempt (station_at stations.old.entries station) }
    ensures begun { (part : AnyPart) × (station_at stations.new.entries station
        ≡ begun_over (station_at stations.old.entries station) part)
        × ((kinds part).attempt ≡ Some false)
        × Begins domain.now ap station anonce.now rsne.now part }
    ensures others { (k : ℕ) → k ≢ station
        → station_at stations.new.entries k ≡ station_at stations.old.entries k }
    ensures sends { sent_acts (Sta station) reply.new
        ≡ sent_m1 domain.now (Ap ap) (Sta station) 1 anonce.now ∷ [] }
    ensures whole { IsWhole reply.new }
{
    let start = ApStart::Connect { anonce, rsne };
    let part = Authenticator::begin(domain, ap, station, start, derived, reply);
    begin(stations, station, part)
}

/// Adds the acts of accepting an association request of a station: the attempt that there was, if
/// any, is closed, and one begins by that nonce and by M1, which the reply has. Takes no memory.
pub fn add_accepted(
    acceptance: Acceptance,
    station: u16,
    had_attempt: bool,
    anonce: [u8; 32],
    reply: &Reply,
    out: &mut Outbox,
)
    requires room { 6 ≤ out.old.spare }
    requires whole { IsWhole reply.now }
    ensures { out.new.acts ≡ out.old.acts ++ (acceptance.taken ∷ closed (Sta station) had_attempt
        ++ Opened (Sta station) Connect ∷ Drew (Nonce anonce) ∷ acceptance.response
        ∷ sent_acts (Sta station) reply.now) }
{
    let Acceptance {
        taken,
        response,
        room,
    } = acceptance;
    out.add(taken);
    close_attempt(had_attempt, station, out);
    open_attempt(station, anonce, response, out);
    room.add_sent(Node::Sta(station), reply, out);
}
