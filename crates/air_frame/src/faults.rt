//! The first fault of octets that are no frame of the profile.

ghost use Rattle.std.specs.Prelude.{◌≡◌, ◌≤◌, ◌+◌, ◌&&◌, ◌||◌, not, nat_lt, length};
ghost use Rattle.air_frame.specs.Control.{frame_subtype, is_to_ds, is_from_ds};
ghost use Rattle.air_frame.specs.Control.{data_header_length};
ghost use Rattle.air_frame.specs.Faults.{fixed_length, management_fault, begins_eapol, has_ext_iv};
ghost use Rattle.air_frame.specs.Faults.{lacks_mme, body_fault, data_fault, air_fault};

use crate::control::{
    ACTION, FROM_DS, HT_CONTROL, MORE_FRAGMENTS, PROTECTED, TO_DS, data_header_length, ends_in_mme,
    fragment, frame_control, has_a_msdu, is_data, is_management, is_set, subtype, version,
};
use crate::frame::AirFault;

/// The LLC and SNAP header before an EAPOL frame in data (RFC 1042, with the type 88-8E of IEEE Std
/// 802.1X).
pub const EAPOL_LLC: [u8; 8] = [0xaa, 0xaa, 0x03, 0x00, 0x00, 0x00, 0x88, 0x8e];

// How many octets of fixed fields a management frame has. Action to a group has an octet and an MME
// at least.
fn fixed_length(subtype: u16) -> usize
    ensures { result ≡ fixed_length subtype }
{
    match subtype {
        0 => 4,
        2 => 10,
        ACTION => 19,
        _ => 6,
    }
}

// Whether an action frame does not end in an MME.
fn lacks_mme(octets: &[u8]) -> bool
    requires { 24 + fixed_length (frame_subtype octets.now) ≤ length octets.now }
    ensures { result ≡ lacks_mme octets.now }
{
    let (_, body) = octets.split_at(24);
    subtype(octets) == ACTION && !ends_in_mme(body)
}

// What of a management frame is not of the profile, or its body too short for its fixed fields.
fn management_fault(octets: &[u8]) -> Option<AirFault>
    requires { 2 ≤ length octets.now }
    ensures { result ≡ management_fault octets.now }
{
    let control = frame_control(octets);
    if octets.len() < 24 {
        Some(AirFault::Short(octets.len()))
    } else if is_set(control, TO_DS) || is_set(control, FROM_DS) {
        Some(AirFault::OutOfProfile(8))
    } else if is_set(control, MORE_FRAGMENTS) {
        Some(AirFault::OutOfProfile(10))
    } else if is_set(control, PROTECTED) {
        Some(AirFault::OutOfProfile(14))
    } else if is_set(control, HT_CONTROL) {
        Some(AirFault::OutOfProfile(15))
    } else if fragment(octets) != 0 {
        Some(AirFault::OutOfProfile(16))
    } else if octets.len() < 24 + fixed_length(subtype(octets)) {
        Some(AirFault::Body(24))
    } else if lacks_mme(octets) {
        Some(AirFault::Body(24))
    } else {
        None
    }
}

// The body of a data frame begins with the header before EAPOL.
fn begins_eapol(octets: &[u8]) -> bool
    requires control { 2 ≤ length octets.now }
    requires header { data_header_length octets.now ≤ length octets.now }
    ensures { result ≡ begins_eapol octets.now }
{
    octets[data_header_length(octets)..].starts_with(&EAPOL_LLC)
}

// The CCMP header of a protected body has the bit ExtIV.
fn has_ext_iv(octets: &[u8]) -> bool
    requires control { 2 ≤ length octets.now }
    requires body { data_header_length octets.now + 16 ≤ length octets.now }
    ensures { result ≡ has_ext_iv octets.now }
{
    is_set(octets[data_header_length(octets) + 3].into(), 5)
}

// The bits To DS and From DS are both set, or none is.
fn goes_no_way(octets: &[u8]) -> bool
    requires { 2 ≤ length octets.now }
    ensures { result ≡
        ((is_to_ds octets.now && is_from_ds octets.now) ||
        (not (is_to_ds octets.now) && not (is_from_ds octets.now))) }
{
    let control = frame_control(octets);
    is_set(control, TO_DS) == is_set(control, FROM_DS)
}

// The body has no room for the CCMP header and the MIC.
fn is_short_sealed(octets: &[u8]) -> bool
    requires { 2 ≤ length octets.now }
    ensures { result ≡ nat_lt (length octets.now) (data_header_length octets.now + 16) }
{
    octets.len() < data_header_length(octets) + 16
}

// What of the body of a data frame is not of the profile, or too short where it is protected.
fn body_fault(octets: &[u8]) -> Option<AirFault>
    requires control { 2 ≤ length octets.now }
    requires header { data_header_length octets.now ≤ length octets.now }
    ensures { result ≡ body_fault octets.now }
{
    let is_protected = is_set(frame_control(octets), PROTECTED);
    if !is_protected && !begins_eapol(octets) {
        Some(AirFault::OutOfProfile(18))
    } else if is_protected && is_short_sealed(octets) {
        Some(AirFault::Body(data_header_length(octets)))
    } else if is_protected && !has_ext_iv(octets) {
        Some(AirFault::OutOfProfile(20))
    } else {
        None
    }
}

// What of a data frame is not of the profile, or its protected body too short.
fn data_fault(octets: &[u8]) -> Option<AirFault>
    requires { 2 ≤ length octets.now }
    ensures { result ≡ data_fault octets.now }
{
    let control = frame_control(octets);
    if octets.len() < data_header_length(octets) {
        Some(AirFault::Short(octets.len()))
    } else if goes_no_way(octets) {
        Some(AirFault::OutOfProfile(8))
    } else if is_set(control, MORE_FRAGMENTS) {
        Some(AirFault::OutOfProfile(10))
    } else if is_set(control, HT_CONTROL) {
        Some(AirFault::OutOfProfile(15))
    } else if fragment(octets) != 0 {
        Some(AirFault::OutOfProfile(16))
    } else if has_a_msdu(octets) {
        Some(AirFault::OutOfProfile(17))
    } else {
        body_fault(octets)
    }
}

/// The first fault in reading order, if the octets are no frame of the profile.
pub(crate) fn fault_of(octets: &[u8]) -> Option<AirFault>
    ensures { result ≡ air_fault octets.now }
{
    if octets.len() < 2 {
        Some(AirFault::Short(octets.len()))
    } else if version(octets) != 0 {
        Some(AirFault::Version)
    } else if is_management(octets) {
        management_fault(octets)
    } else if is_data(octets) {
        data_fault(octets)
    } else {
        None
    }
}
