//! Headers and frames as they are sent.

ghost use Rattle.std.specs.Prelude.{◌≡◌, ◌≤◌, ◌+◌, ℕ, is_some, if◌then◌else◌, [], length, take};
ghost use Rattle.std.specs.Prelude.{drop};
ghost use Rattle.air_frame.specs.Sent.{data_flags, header_octets, management_header_octets};
ghost use Rattle.air_frame.specs.Sent.{data_header_octets, assoc_req_octets, assoc_resp_octets};
ghost use Rattle.air_frame.specs.Sent.{re_req_octets, re_resp_octets, ft_req_octets};
ghost use Rattle.air_frame.specs.Sent.{ft_resp_octets, eapol_data_octets};
ghost use Rattle.air_frame.specs.Subtypes.{subtype_number};

use crate::faults::EAPOL_LLC;
use crate::frame::Direction;
use crate::reading::FT_ALGORITHM;
use crate::writing::{put_frame, three_numbers, two_numbers};
use domain_base::{Mac, ShortOctets, Tid, put};

/// Capability Information as it is sent.
pub const CAPABILITY: u16 = 0x0011;

/// The listen interval as it is sent.
pub const LISTEN_INTERVAL: u16 = 10;

/// The management frames of the profile (IEEE Std 802.11-2020, 9.2.4.1.3).
#[derive(Clone, Copy)]
pub enum Subtype {
    AssocReq,
    AssocResp,
    ReReq,
    ReResp,
    Authentication,
    Action,
}

impl Subtype {
    /// Its number, from 0 to 15.
    pub fn number(self) -> u8
        ensures { result ≡ subtype_number self }
    {
        match self {
            Subtype::AssocReq => 0,
            Subtype::AssocResp => 1,
            Subtype::ReReq => 2,
            Subtype::ReResp => 3,
            Subtype::Authentication => 11,
            Subtype::Action => 13,
        }
    }
}

// A header of 24 octets. Duration and sequence control are zero.
fn plain_header(first: u8, second: u8, a1: Mac, a2: Mac, a3: Mac) -> [u8; 24]
    ensures { result ≡ header_octets first second a1.0 a2.0 a3.0 [] }
{
    let mut out = [0; 24];
    let at = put(&mut out, 0, &[first, second, 0, 0]);
    let at = put(&mut out, at, &a1.0);
    let at = put(&mut out, at, &a2.0);
    let at = put(&mut out, at, &a3.0);
    put(&mut out, at, &[0, 0]);
    out
}

/// The header of a management frame as it is sent: no bit of the Frame Control field set but those
/// of the subtype, duration and sequence control zero.
pub fn management_header(subtype: Subtype, a1: Mac, a2: Mac, a3: Mac) -> [u8; 24]
    ensures { result ≡ management_header_octets (subtype_number subtype) a1.0 a2.0 a3.0 }
{
    plain_header(subtype.number() << 4, 0, a1, a2, a3)
}

/// The octets of the header of a data frame at most: those of QoS data.
const MOST_HEADER: usize = 26;

// The second octet of the Frame Control field of a data frame.
fn data_flags(direction: Direction, is_protected: bool) -> u8
    ensures { result ≡ data_flags direction is_protected }
{
    match (direction, is_protected) {
        (Direction::ToDs, false) => 0x01,
        (Direction::FromDs, false) => 0x02,
        (Direction::ToDs, true) => 0x41,
        (Direction::FromDs, true) => 0x42,
    }
}

/// The header of a data frame as it is sent: the bit of its direction is set, that of protection if
/// it is protected, and with a TID it is QoS data, of 26 octets in place of 24. Duration, sequence
/// control and all else are zero. No memory is taken.
pub fn data_header(
    direction: Direction,
    is_protected: bool,
    tid: Option<Tid>,
    a1: Mac,
    a2: Mac,
    a3: Mac,
) -> ShortOctets<MOST_HEADER>
    ensures octets { result ≡ data_header_octets direction is_protected tid a1.0 a2.0 a3.0 }
    ensures size { length result ≡ (if is_some tid then 26 else 24) }
{
    let flags = data_flags(direction, is_protected);
    match tid {
        None => ShortOctets::of(&plain_header(0x08, flags, a1, a2, a3)),
        Some(tid) => {
            let mut octets = [0; MOST_HEADER];
            let at = put(&mut octets, 0, &plain_header(0x88, flags, a1, a2, a3));
            put(&mut octets, at, &[tid.number(), 0]);
            ShortOctets::of(&octets)
        }
    }
}

/// Writes an association request to the front of `out`, and answers how many octets it takes.
pub fn write_assoc_req(a1: Mac, a2: Mac, a3: Mac, elements: &[u8], out: &mut [u8]) -> usize
    requires { 28 + length elements.now ≤ length out.old }
    ensures size { result ≡ 28 + length elements.now }
    ensures octets { take result out.new ≡ assoc_req_octets a1.0 a2.0 a3.0 elements.now }
    ensures rest { (n : ℕ) → result ≤ n → drop n out.new ≡ drop n out.old }
    ensures len { length out.new ≡ length out.old }
{
    let header = management_header(Subtype::AssocReq, a1, a2, a3);
    put_frame(
        out,
        &header,
        &two_numbers(CAPABILITY, LISTEN_INTERVAL),
        elements,
    )
}

/// Writes an association response to the front of `out`, and answers how many octets it takes.
pub fn write_assoc_resp(
    a1: Mac,
    a2: Mac,
    a3: Mac,
    status: u16,
    aid: u16,
    elements: &[u8],
    out: &mut [u8],
) -> usize
    requires { 30 + length elements.now ≤ length out.old }
    ensures size { result ≡ 30 + length elements.now }
    ensures octets { take result out.new
        ≡ assoc_resp_octets a1.0 a2.0 a3.0 status aid elements.now }
    ensures rest { (n : ℕ) → result ≤ n → drop n out.new ≡ drop n out.old }
    ensures len { length out.new ≡ length out.old }
{
    let header = management_header(Subtype::AssocResp, a1, a2, a3);
    put_frame(
        out,
        &header,
        &three_numbers(CAPABILITY, status, aid),
        elements,
    )
}

/// Writes a reassociation request to the front of `out`, and answers how many octets it takes.
pub fn write_re_req(
    a1: Mac,
    a2: Mac,
    a3: Mac,
    current_ap: Mac,
    elements: &[u8],
    out: &mut [u8],
) -> usize
    requires { 34 + length elements.now ≤ length out.old }
    ensures size { result ≡ 34 + length elements.now }
    ensures octets { take result out.new ≡ re_req_octets a1.0 a2.0 a3.0 current_ap.0 elements.now }
    ensures rest { (n : ℕ) → result ≤ n → drop n out.new ≡ drop n out.old }
    ensures len { length out.new ≡ length out.old }
{
    let header = management_header(Subtype::ReReq, a1, a2, a3);
    let fixed = two_numbers(CAPABILITY, LISTEN_INTERVAL);
    let at = put_frame(out, &header, &fixed, &current_ap.0);
    put(out, at, elements)
}

/// Writes a reassociation response to the front of `out`, and answers how many octets it takes.
pub fn write_re_resp(
    a1: Mac,
    a2: Mac,
    a3: Mac,
    status: u16,
    aid: u16,
    elements: &[u8],
    out: &mut [u8],
) -> usize
    requires { 30 + length elements.now ≤ length out.old }
    ensures size { result ≡ 30 + length elements.now }
    ensures octets { take result out.new ≡ re_resp_octets a1.0 a2.0 a3.0 status aid elements.now }
    ensures rest { (n : ℕ) → result ≤ n → drop n out.new ≡ drop n out.old }
    ensures len { length out.new ≡ length out.old }
{
    let header = management_header(Subtype::ReResp, a1, a2, a3);
    put_frame(
        out,
        &header,
        &three_numbers(CAPABILITY, status, aid),
        elements,
    )
}

/// Writes the first authentication frame of a fast transition to the front of `out`, and answers
/// how many octets it takes.
pub fn write_ft_req(a1: Mac, a2: Mac, a3: Mac, elements: &[u8], out: &mut [u8]) -> usize
    requires { 30 + length elements.now ≤ length out.old }
    ensures size { result ≡ 30 + length elements.now }
    ensures octets { take result out.new ≡ ft_req_octets a1.0 a2.0 a3.0 elements.now }
    ensures rest { (n : ℕ) → result ≤ n → drop n out.new ≡ drop n out.old }
    ensures len { length out.new ≡ length out.old }
{
    let header = management_header(Subtype::Authentication, a1, a2, a3);
    put_frame(out, &header, &three_numbers(FT_ALGORITHM, 1, 0), elements)
}

/// Writes the second authentication frame of a fast transition to the front of `out`, and answers
/// how many octets it takes.
pub fn write_ft_resp(
    a1: Mac,
    a2: Mac,
    a3: Mac,
    status: u16,
    elements: &[u8],
    out: &mut [u8],
) -> usize
    requires { 30 + length elements.now ≤ length out.old }
    ensures size { result ≡ 30 + length elements.now }
    ensures octets { take result out.new ≡ ft_resp_octets a1.0 a2.0 a3.0 status elements.now }
    ensures rest { (n : ℕ) → result ≤ n → drop n out.new ≡ drop n out.old }
    ensures len { length out.new ≡ length out.old }
{
    let header = management_header(Subtype::Authentication, a1, a2, a3);
    put_frame(
        out,
        &header,
        &three_numbers(FT_ALGORITHM, 2, status),
        elements,
    )
}

/// Writes a data frame with an EAPOL frame to the front of `out`, and answers how many octets it
/// takes.
pub fn write_eapol_data(
    direction: Direction,
    a1: Mac,
    a2: Mac,
    a3: Mac,
    eapol: &[u8],
    out: &mut [u8],
) -> usize
    requires { 32 + length eapol.now ≤ length out.old }
    ensures size { result ≡ 32 + length eapol.now }
    ensures octets { take result out.new ≡ eapol_data_octets direction a1.0 a2.0 a3.0 eapol.now }
    ensures rest { (n : ℕ) → result ≤ n → drop n out.new ≡ drop n out.old }
    ensures len { length out.new ≡ length out.old }
{
    let header = data_header(direction, false, None, a1, a2, a3);
    put_frame(out, header.as_slice(), &EAPOL_LLC, eapol)
}
