//! Reading a frame from octets.

ghost use Rattle.std.specs.Prelude.{◌≡◌, ◌≢◌, ◌≤◌, ◌+◌, Some, None, length, drop, MatchResult};
ghost use Rattle.std.specs.Prelude.{IfOk, IsOkAnd};
ghost use Rattle.std.specs.Int.{w16};
ghost use Rattle.domain_base.specs.Places.{little_endian_at};
ghost use Rattle.air_frame.specs.Control.{frame_subtype, data_header_length};
ghost use Rattle.air_frame.specs.Fields.{AirFields, header_at, assoc_req_at, re_req_at};
ghost use Rattle.air_frame.specs.Fields.{direction_at, tid_at, authentication_at, management_at};
ghost use Rattle.air_frame.specs.Fields.{action_at, data_at, air_at};
ghost use Rattle.air_frame.specs.Faults.{fixed_length, air_fault};
ghost use Rattle.air_frame.specs.Spelled.{SpellsAir, IsSpelled};
ghost use Rattle.air_frame.specs.Sent.{air_octets};
ghost use Rattle.air_frame.specs.Views.{header_of, fields_of};

use crate::control::{
    ACTION, PROTECTED, TO_DS, data_header_length, frame_control, is_data, is_management, is_qos,
    is_set, subtype,
};
use crate::faults::fault_of;
use crate::frame::{
    Action, AirFault, AirFrame, AssocReq, AssocResp, Data, Direction, FtAuthentication, Header,
    ReassocReq,
};
use domain_base::{Mac, Tid, array_at, little_u16_at};

/// The authentication algorithm of a fast transition (IEEE Std 802.11-2020, 9.4.1.1).
pub const FT_ALGORITHM: u16 = 2;

// The octets from a place on.
fn rest(octets: &[u8], at: usize) -> &[u8]
    requires { at ≤ length octets.now }
    ensures { result.now ≡ drop at octets.now }
{
    let (_, rest) = octets.split_at(at);
    rest
}

fn header(octets: &[u8], size: usize) -> Header<'_>
    requires low { 22 ≤ size }
    requires high { size ≤ length octets.now }
    ensures { header_of result ≡ header_at size octets.now }
{
    Header {
        octets: &octets[..size],
        a1: Mac(array_at::<6>(octets, 4)),
        a2: Mac(array_at::<6>(octets, 10)),
        a3: Mac(array_at::<6>(octets, 16)),
    }
}

fn assoc_req(octets: &[u8]) -> AirFrame<'_>
    requires { 28 ≤ length octets.now }
    ensures { fields_of result ≡ assoc_req_at octets.now }
{
    AirFrame::AssocReq(AssocReq {
        header: header(octets, 24),
        capability: little_u16_at(octets, 24),
        listen_interval: little_u16_at(octets, 26),
        elements: rest(octets, 28),
    })
}

// The response to an association or a reassociation request.
fn response(octets: &[u8]) -> AssocResp<'_>
    requires { 30 ≤ length octets.now }
    ensures header { header_of result.header ≡ header_at 24 octets.now }
    ensures capability { result.capability ≡ little_endian_at w16 24 octets.now }
    ensures status { result.status ≡ little_endian_at w16 26 octets.now }
    ensures aid { result.aid ≡ little_endian_at w16 28 octets.now }
    ensures elements { result.elements.now ≡ drop 30 octets.now }
{
    AssocResp {
        header: header(octets, 24),
        capability: little_u16_at(octets, 24),
        status: little_u16_at(octets, 26),
        aid: little_u16_at(octets, 28),
        elements: rest(octets, 30),
    }
}

fn re_req(octets: &[u8]) -> AirFrame<'_>
    requires { 34 ≤ length octets.now }
    ensures { fields_of result ≡ re_req_at octets.now }
{
    AirFrame::ReReq(ReassocReq {
        header: header(octets, 24),
        capability: little_u16_at(octets, 24),
        listen_interval: little_u16_at(octets, 26),
        current_ap: Mac(array_at::<6>(octets, 28)),
        elements: rest(octets, 34),
    })
}

fn authentication(octets: &[u8]) -> AirFrame<'_>
    requires { 30 ≤ length octets.now }
    ensures { fields_of result ≡ authentication_at octets.now }
{
    let frame = FtAuthentication {
        header: header(octets, 24),
        status: little_u16_at(octets, 28),
        elements: rest(octets, 30),
    };
    match (little_u16_at(octets, 24), little_u16_at(octets, 26)) {
        (FT_ALGORITHM, 1) => AirFrame::FtReq(frame),
        (FT_ALGORITHM, 2) => AirFrame::FtResp(frame),
        _ => AirFrame::Ignored,
    }
}

fn action(octets: &[u8]) -> AirFrame<'_>
    requires { 24 ≤ length octets.now }
    ensures { fields_of result ≡ action_at octets.now }
{
    AirFrame::Action(Action {
        header: header(octets, 24),
        body: rest(octets, 24),
    })
}

fn tid(octets: &[u8]) -> Option<Tid>
    requires control { 2 ≤ length octets.now }
    requires header { data_header_length octets.now ≤ length octets.now }
    ensures { result ≡ tid_at octets.now }
{
    if is_qos(octets) {
        Tid::new(octets[24] & 15)
    } else {
        None
    }
}

fn direction(octets: &[u8]) -> Direction
    requires { 2 ≤ length octets.now }
    ensures { result ≡ direction_at octets.now }
{
    if is_set(frame_control(octets), TO_DS) {
        Direction::ToDs
    } else {
        Direction::FromDs
    }
}

fn data(octets: &[u8]) -> AirFrame<'_>
    requires control { 2 ≤ length octets.now }
    requires body { data_header_length octets.now + 8 ≤ length octets.now }
    ensures { fields_of result ≡ data_at octets.now }
{
    let size = data_header_length(octets);
    let is_protected = is_set(frame_control(octets), PROTECTED);
    let data = Data {
        header: header(octets, size),
        direction: direction(octets),
        tid: tid(octets),
        body: rest(octets, if is_protected { size } else { size + 8 }),
    };
    if is_protected {
        AirFrame::Protected(data)
    } else {
        AirFrame::Eapol(data)
    }
}

fn management(octets: &[u8]) -> AirFrame<'_>
    requires { 24 + fixed_length (frame_subtype octets.now) ≤ length octets.now }
    ensures { fields_of result ≡ management_at octets.now }
{
    match subtype(octets) {
        0 => assoc_req(octets),
        1 => AirFrame::AssocResp(response(octets)),
        2 => re_req(octets),
        3 => AirFrame::ReResp(response(octets)),
        ACTION => action(octets),
        _ => authentication(octets),
    }
}

// The frame that octets without a fault are.
#[tactic(auto, unfolding(crate::specs::Fields::air_at))]
fn frame_of(octets: &[u8]) -> AirFrame<'_>
    requires { air_fault octets.now ≡ None }
    ensures { fields_of result ≡ air_at octets.now }
{
    if is_management(octets) {
        management(octets)
    } else if is_data(octets) {
        data(octets)
    } else {
        AirFrame::Ignored
    }
}

/// The frame that the octets are, or the first fault in reading order. The frame borrows the
/// octets; no memory is taken.
///
/// # Errors
///
/// Those of `AirFault`, each exactly where it is the first.
pub fn read(bytes: &[u8]) -> Result<AirFrame<'_>, AirFault>
    ensures found { IfOk result (λ frame. SpellsAir bytes.now (fields_of frame)) }
    ensures spelled { IfOk result (λ frame. IsSpelled (fields_of frame)) }
    ensures again { IfOk result
        (λ frame. frame ≢ AirFrame.Ignored → air_octets (fields_of frame) ≡ bytes.now) }
    ensures only { (f : AirFields) → SpellsAir bytes.now f
        → IsOkAnd result (λ frame. fields_of frame ≡ f) }
    ensures fault { MatchResult result (λ _. air_fault bytes.now ≡ None)
        (λ e. air_fault bytes.now ≡ Some e) }
{
    match fault_of(bytes) {
        Some(fault) => Err(fault),
        None => Ok(frame_of(bytes)),
    }
}
