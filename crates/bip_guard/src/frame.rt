//! Frame bodies with a Management MIC element (MME) at their end (IEEE Std 802.11-2020, 9.4.2.54
//! and 12.5.4): Element ID, Length, Key ID in two octets, IPN in six, MIC in eight.

ghost use Rattle.std.specs.Prelude.{◌≡◌, ◌<◌, ◌≤◌, ◌+◌, ◌-◌, ◌^◌, ℕ, List, length, take, drop};
ghost use Rattle.std.specs.Prelude.{IsTrue, IsFalse, IfOk, OnErr, IsOkAnd, MatchResult};
ghost use Rattle.replay_window.specs.Numbers.{last_number};
ghost use Rattle.bip_guard.specs.Bip.{bip_aad, bip_mic, mme_front, mme_of, EndsInMme, key_id_in};
ghost use Rattle.bip_guard.specs.Bip.{ipn_in, mic_verifies, BipProtected};

use domain_base::{array_at, little_u16_at, put};
use mac_prf::cmac_of_pieces;

/// The body is no protected one: its MIC does not verify.
#[derive(Clone, Copy, PartialEq, Eq)]
pub struct Seal;

// The octets of an MME, and those of its MIC.
const MME_LEN: usize = 18;

const MIC_LEN: usize = 8;

// What an MME begins with: its Element ID, and its Length of 16.
const ELEMENT_ID: u8 = 0x4c;

const LENGTH: u8 = 0x10;

/// What the MIC of a body covers before the body, by the MAC header of 24 octets (IEEE Std 802.11-2020,
/// 12.5.4.3).
pub fn aad_of(header: &[u8]) -> [u8; 20]
    requires { length header.now ≡ 24 }
    ensures { result ≡ bip_aad header.now }
{
    let mut aad = [0; 20];
    let at = put(&mut aad, 0, &[header[0], header[1] & 0xc7]);
    put(&mut aad, at, &header[4..22]);
    aad
}

/// An MME before its MIC, with that key id and packet number (IEEE Std 802.11-2020, 9.4.2.54).
pub fn mme_front(id: u8, ipn: u64) -> [u8; 10]
    ensures { result ≡ mme_front id ipn }
{
    let n = ipn.to_le_bytes();
    [
        ELEMENT_ID, LENGTH, id, 0, n[0], n[1], n[2], n[3], n[4], n[5],
    ]
}

// The MIC of a body that stands there as far as its MIC (IEEE Std 802.11-2020, 12.5.4.5).
fn mic_of(igtk: &[u8; 16], header: &[u8], front: &[u8]) -> [u8; 8]
    requires { length header.now ≡ 24 }
    ensures { result ≡ bip_mic igtk.now header.now front.now }
{
    let code = cmac_of_pieces(igtk, &[&aad_of(header), front, &[0; MIC_LEN]]);
    array_at(&code, 0)
}

// The MME of a body.
fn mme_of(body: &[u8]) -> &[u8]
    requires { EndsInMme body.now }
    ensures octets { result.now ≡ mme_of body.now }
    ensures len { length result.now ≡ 18 }
{
    let (_, mme) = body.split_at(body.len() - MME_LEN);
    mme
}

/// The key id in the MME of a body: all 16 bits of the field.
pub fn key_id_in(body: &[u8]) -> u16
    requires { EndsInMme body.now }
    ensures { result ≡ key_id_in body.now }
{
    little_u16_at(mme_of(body), 2)
}

/// The packet number in the MME of a body.
pub fn ipn_in(body: &[u8]) -> u64
    requires { EndsInMme body.now }
    ensures { result ≡ ipn_in body.now }
{
    let mme = mme_of(body);
    u64::from_le_bytes([mme[4], mme[5], mme[6], mme[7], mme[8], mme[9], 0, 0])
}

// Whether the MIC of a body is the one of what it covers (IEEE Std 802.11-2020, 12.5.4.6).
fn mic_verifies(igtk: &[u8; 16], header: &[u8], body: &[u8]) -> bool
    requires header { length header.now ≡ 24 }
    requires element { EndsInMme body.now }
    ensures { result ≡ mic_verifies igtk.now header.now body.now }
{
    let before = body.len() - MIC_LEN;
    let (front, _) = body.split_at(before);
    array_at::<MIC_LEN>(body, before) == mic_of(igtk, header, front)
}

/// Writes the protected body of a frame into the front of `out`, that is, the body and its MME
/// behind it, and gives the number of octets written, 18 more than the body has. The header is the
/// MAC header of the frame, of 24 octets, and the packet number has 48 bits (IEEE Std 802.11-2020,
/// 12.5.4.5). Takes no memory.
pub fn seal_frame(
    igtk: &[u8; 16],
    header: &[u8],
    id: u8,
    ipn: u64,
    body: &[u8],
    out: &mut [u8],
) -> usize
    requires header { length header.now ≡ 24 }
    requires number { ipn ≤ last_number }
    requires room { length body.now + 18 ≤ length out.old }
    ensures end { result ≡ length body.now + 18 }
    ensures sealed { BipProtected igtk.now header.now id ipn body.now (take result out.new) }
    ensures rest { (n : ℕ) → result ≤ n → drop n out.new ≡ drop n out.old }
    ensures len { length out.new ≡ length out.old }
{
    let at = put(out, 0, body);
    let at = put(out, at, &mme_front(id, ipn));
    let mic = mic_of(igtk, header, &out[..at]);
    put(out, at, &mic)
}

/// Opens the protected body of a frame: gives its packet number, and the number of octets that
/// stand before its MME, 18 fewer than the body has. The header is the MAC header of the frame, of
/// 24 octets, and the body ends in an MME, whatever its key id. `Seal` comes exactly where no body
/// is protected by this one (IEEE Std 802.11-2020, 12.5.4.6). Takes no memory.
pub fn open_frame(igtk: &[u8; 16], header: &[u8], body: &[u8]) -> Result<(u64, usize), Seal>
    requires header { length header.now ≡ 24 }
    requires element { EndsInMme body.now }
    ensures found { IfOk result (λ r.
        BipProtected igtk.now header.now (key_id_in body.now) r.0 (take r.1 body.now) body.now) }
    ensures number { IfOk result (λ r. r.0 ≡ ipn_in body.now) }
    ensures end { IfOk result (λ r. r.1 + 18 ≡ length body.now) }
    ensures mic { MatchResult result
        (λ _. IsTrue (mic_verifies igtk.now header.now body.now))
        (λ _. IsFalse (mic_verifies igtk.now header.now body.now)) }
    ensures only { (id ipn : ℕ) (content : List ℕ)
        → BipProtected igtk.now header.now id ipn content body.now
        → IsOkAnd result (λ r. (r.0 ≡ ipn) × (take r.1 body.now ≡ content)) }
    ensures seal { OnErr result ((id ipn : ℕ) (content : List ℕ)
        → ¬ BipProtected igtk.now header.now id ipn content body.now) }
{
    if mic_verifies(igtk, header, body) {
        Ok((ipn_in(body), body.len() - MME_LEN))
    } else {
        Err(Seal)
    }
}
