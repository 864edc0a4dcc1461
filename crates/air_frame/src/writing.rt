//! Writing a frame into octets.

ghost use Rattle.std.specs.Prelude.{◌≡◌, ◌≢◌, ◌≤◌, ◌+◌, ◌++◌, ℕ, length, take, drop};
ghost use Rattle.std.specs.Int.{w16, to_le_bytes};
ghost use Rattle.air_frame.specs.Spelled.{SpellsAir, IsSpelled};
ghost use Rattle.air_frame.specs.Sent.{air_octets};
ghost use Rattle.air_frame.specs.Views.{fields_of, IsManagement};

use crate::faults::EAPOL_LLC;
use crate::frame::{Action, AirFrame, AssocReq, AssocResp, FtAuthentication, ReassocReq};
use crate::reading::FT_ALGORITHM;
use domain_base::put;

/// Two numbers, low octet first.
pub(crate) fn two_numbers(first: u16, second: u16) -> [u8; 4]
    ensures { result ≡ to_le_bytes w16 first ++ to_le_bytes w16 second }
{
    let [a, b] = first.to_le_bytes();
    let [c, d] = second.to_le_bytes();
    [a, b, c, d]
}

/// Three numbers, low octet first.
pub(crate) fn three_numbers(first: u16, second: u16, third: u16) -> [u8; 6]
    ensures { result ≡ to_le_bytes w16 first ++ (to_le_bytes w16 second ++ to_le_bytes w16 third) }
{
    let [a, b] = first.to_le_bytes();
    let [c, d] = second.to_le_bytes();
    let [e, f] = third.to_le_bytes();
    [a, b, c, d, e, f]
}

/// Writes a header, fixed fields and what is behind them, from the front on.
pub(crate) fn put_frame(out: &mut [u8], header: &[u8], fixed: &[u8], rest: &[u8]) -> usize
    requires { length header.now + length fixed.now + length rest.now ≤ length out.old }
    ensures size { result ≡ length header.now + length fixed.now + length rest.now }
    ensures octets { take result out.new ≡ header.now ++ (fixed.now ++ rest.now) }
    ensures rest { (n : ℕ) → result ≤ n → drop n out.new ≡ drop n out.old }
    ensures len { length out.new ≡ length out.old }
{
    let at = put(out, 0, header);
    let at = put(out, at, fixed);
    put(out, at, rest)
}

// Writes the octets of an association request.
fn put_assoc_req(f: &AssocReq<'_>, out: &mut [u8]) -> usize
    requires { length (air_octets (fields_of (AirFrame.AssocReq f.now))) ≤ length out.old }
    ensures size { result ≡ length (air_octets (fields_of (AirFrame.AssocReq f.now))) }
    ensures octets { take result out.new ≡ air_octets (fields_of (AirFrame.AssocReq f.now)) }
    ensures rest { (n : ℕ) → result ≤ n → drop n out.new ≡ drop n out.old }
    ensures len { length out.new ≡ length out.old }
{
    let fixed = two_numbers(f.capability, f.listen_interval);
    put_frame(out, f.header.octets, &fixed, f.elements)
}

// Writes the octets of a response to an association or a reassociation request.
fn put_response(f: &AssocResp<'_>, out: &mut [u8]) -> usize
    requires { length (air_octets (fields_of (AirFrame.AssocResp f.now))) ≤ length out.old }
    ensures size { result ≡ length (air_octets (fields_of (AirFrame.AssocResp f.now))) }
    ensures octets { take result out.new ≡ air_octets (fields_of (AirFrame.AssocResp f.now)) }
    ensures rest { (n : ℕ) → result ≤ n → drop n out.new ≡ drop n out.old }
    ensures len { length out.new ≡ length out.old }
{
    let fixed = three_numbers(f.capability, f.status, f.aid);
    put_frame(out, f.header.octets, &fixed, f.elements)
}

// Writes the octets of a reassociation request.
fn put_re_req(f: &ReassocReq<'_>, out: &mut [u8]) -> usize
    requires { length (air_octets (fields_of (AirFrame.ReReq f.now))) ≤ length out.old }
    ensures size { result ≡ length (air_octets (fields_of (AirFrame.ReReq f.now))) }
    ensures octets { take result out.new ≡ air_octets (fields_of (AirFrame.ReReq f.now)) }
    ensures rest { (n : ℕ) → result ≤ n → drop n out.new ≡ drop n out.old }
    ensures len { length out.new ≡ length out.old }
{
    let fixed = two_numbers(f.capability, f.listen_interval);
    let at = put_frame(out, f.header.octets, &fixed, &f.current_ap.0);
    put(out, at, f.elements)
}

// Writes the octets of the first message of a fast transition.
fn put_ft_req(f: &FtAuthentication<'_>, out: &mut [u8]) -> usize
    requires { length (air_octets (fields_of (AirFrame.FtReq f.now))) ≤ length out.old }
    ensures size { result ≡ length (air_octets (fields_of (AirFrame.FtReq f.now))) }
    ensures octets { take result out.new ≡ air_octets (fields_of (AirFrame.FtReq f.now)) }
    ensures rest { (n : ℕ) → result ≤ n → drop n out.new ≡ drop n out.old }
    ensures len { length out.new ≡ length out.old }
{
    let fixed = three_numbers(FT_ALGORITHM, 1, f.status);
    put_frame(out, f.header.octets, &fixed, f.elements)
}

// Writes the octets of the second message of a fast transition.
fn put_ft_resp(f: &FtAuthentication<'_>, out: &mut [u8]) -> usize
    requires { length (air_octets (fields_of (AirFrame.FtResp f.now))) ≤ length out.old }
    ensures size { result ≡ length (air_octets (fields_of (AirFrame.FtResp f.now))) }
    ensures octets { take result out.new ≡ air_octets (fields_of (AirFrame.FtResp f.now)) }
    ensures rest { (n : ℕ) → result ≤ n → drop n out.new ≡ drop n out.old }
    ensures len { length out.new ≡ length out.old }
{
    let fixed = three_numbers(FT_ALGORITHM, 2, f.status);
    put_frame(out, f.header.octets, &fixed, f.elements)
}

// Writes the octets of an action frame.
fn put_action(f: &Action<'_>, out: &mut [u8]) -> usize
    requires { length (air_octets (fields_of (AirFrame.Action f.now))) ≤ length out.old }
    ensures size { result ≡ length (air_octets (fields_of (AirFrame.Action f.now))) }
    ensures octets { take result out.new ≡ air_octets (fields_of (AirFrame.Action f.now)) }
    ensures rest { (n : ℕ) → result ≤ n → drop n out.new ≡ drop n out.old }
    ensures len { length out.new ≡ length out.old }
{
    put_frame(out, f.header.octets, &[], f.body)
}

// Writes the octets of a management frame.
fn put_management(frame: &AirFrame<'_>, out: &mut [u8]) -> usize
    requires management { IsManagement frame.now }
    requires room { length (air_octets (fields_of frame.now)) ≤ length out.old }
    ensures size { result ≡ length (air_octets (fields_of frame.now)) }
    ensures octets { take result out.new ≡ air_octets (fields_of frame.now) }
    ensures rest { (n : ℕ) → result ≤ n → drop n out.new ≡ drop n out.old }
    ensures len { length out.new ≡ length out.old }
{
    match frame {
        AirFrame::AssocReq(f) => put_assoc_req(f, out),
        AirFrame::AssocResp(f) | AirFrame::ReResp(f) => put_response(f, out),
        AirFrame::ReReq(f) => put_re_req(f, out),
        AirFrame::FtReq(f) => put_ft_req(f, out),
        AirFrame::FtResp(f) => put_ft_resp(f, out),
        AirFrame::Action(f) => put_action(f, out),
        _ => unreachable!(),
    }
}

// Writes the octets of the frame, none for `Ignored`.
fn put_octets(frame: &AirFrame<'_>, out: &mut [u8]) -> usize
    requires { length (air_octets (fields_of frame.now)) ≤ length out.old }
    ensures size { result ≡ length (air_octets (fields_of frame.now)) }
    ensures octets { take result out.new ≡ air_octets (fields_of frame.now) }
    ensures rest { (n : ℕ) → result ≤ n → drop n out.new ≡ drop n out.old }
    ensures len { length out.new ≡ length out.old }
{
    match frame {
        AirFrame::Eapol(f) => put_frame(out, f.header.octets, &EAPOL_LLC, f.body),
        AirFrame::Protected(f) => put_frame(out, f.header.octets, &[], f.body),
        AirFrame::Ignored => 0,
        _ => put_management(frame, out),
    }
}

/// Writes the frame to the front of `out`, and answers how many octets it takes. What is behind
/// them stays. No memory is taken.
///
/// Some octets must be this frame, as they are where it was read, and it must not be `Ignored`.
/// What is written is then read as the same frame.
pub fn write(frame: &AirFrame<'_>, out: &mut [u8]) -> usize
    requires spelled { IsSpelled (fields_of frame.now) }
    requires kind { frame.now ≢ AirFrame.Ignored }
    requires room { length (air_octets (fields_of frame.now)) ≤ length out.old }
    ensures size { result ≡ length (air_octets (fields_of frame.now)) }
    ensures octets { take result out.new ≡ air_octets (fields_of frame.now) }
    ensures spelled { SpellsAir (take result out.new) (fields_of frame.now) }
    ensures rest { (n : ℕ) → result ≤ n → drop n out.new ≡ drop n out.old }
    ensures len { length out.new ≡ length out.old }
{
    put_octets(frame, out)
}
