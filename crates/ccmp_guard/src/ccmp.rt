//! CCMP bodies (IEEE Std 802.11-2020, 12.5.3.2): CCMP header of 8 octets, encrypted payload, MIC of
//! 8 octets.

ghost use Rattle.std.specs.Prelude.{◌≡◌, ◌↔◌, ◌<◌, ◌≤◌, ◌+◌, ◌-◌, ◌*◌, ◌^◌, ◌++◌, ℕ, List, length};
ghost use Rattle.std.specs.Prelude.{take, drop, IsTrue, IfOk, OnErr, IsOkAnd};
ghost use Rattle.ccmp_guard.specs.Ccmp.{IsHeader, traffic_identifier, ccm_nonce, ccm_aad};
ghost use Rattle.ccmp_guard.specs.Ccmp.{ccmp_header, packet_number, key_id_in, ext_iv, Protected};

use crate::ccm::{MIC_LEN, open, seal};
use aes_block::ForwardAes128;
use domain_base::{ShortOctets, put};

/// No plain text is sealed to the body: the MIC does not verify.
#[derive(Clone, Copy, PartialEq, Eq)]
pub struct Seal;

/// The octets of a CCMP header.
pub const CCMP_HEADER_LEN: usize = 8;

// The MAC header of a QoS data frame.
const QOS_HEADER_LEN: usize = 26;

// The bit of the CCMP header's octet 3 that says that the packet number has six octets.
const EXT_IV: u8 = 0x20;

/// The octets of a body that carries none.
pub const LEAST_BODY: usize = 16;

// The most octets that the seal of a frame covers before its plain text.
const MOST_FRONT: usize = 37;

// The longest payload.
const LONGEST: usize = 65_535;

/// The TID of a QoS data frame, and 0 in a header of 24 octets.
pub fn traffic_identifier(header: &[u8]) -> u8
    requires { IsHeader header.now }
    ensures value { result ≡ traffic_identifier header.now }
    ensures range { result < 16 }
{
    if header.len() == QOS_HEADER_LEN {
        header[24] % 16
    } else {
        0
    }
}

// The nonce of a frame (IEEE Std 802.11-2020, 12.5.3.3.4).
fn nonce_of(header: &[u8], pn: u64) -> [u8; 13]
    requires { IsHeader header.now }
    ensures { result ≡ ccm_nonce header.now pn }
{
    let mut nonce = [0; 13];
    let at = put(&mut nonce, 0, &[traffic_identifier(header)]);
    let at = put(&mut nonce, at, &header[10..16]);
    put(&mut nonce, at, &pn.to_be_bytes()[2..]);
    nonce
}

// Writes the additional authenticated data of a frame (IEEE Std 802.11-2020, 12.5.3.3.3), and gives
// how many octets they are.
fn aad_of(header: &[u8], aad: &mut [u8; 24]) -> usize
    requires { IsHeader header.now }
    ensures written { take result aad.new ≡ ccm_aad header.now }
    ensures some { 0 < result }
    ensures few { result ≤ 24 }
{
    let at = put(aad, 0, &[header[0] & 0x8f, header[1] & 0xc7 | 0x40]);
    let at = put(aad, at, &header[4..22]);
    let at = put(aad, at, &[header[22] % 16, 0]);
    if header.len() == QOS_HEADER_LEN {
        put(aad, at, &[header[24] % 16, 0])
    } else {
        at
    }
}

/// What the seal of a frame covers before the plain text: the nonce of 13 octets and the additional
/// authenticated data, 22 octets or in a QoS data frame 24 (IEEE Std 802.11-2020, 12.5.3.3.3 and
/// 12.5.3.3.4). Takes no memory.
pub fn sealed_front(header: &[u8], pn: u64) -> ShortOctets<MOST_FRONT>
    requires { IsHeader header.now }
    ensures octets { result ≡ ccm_nonce header.now pn ++ ccm_aad header.now }
    ensures few { length result ≤ 37 }
{
    let mut front = [0; MOST_FRONT];
    let at = put(&mut front, 0, &nonce_of(header, pn));
    let mut aad = [0; 24];
    let size = aad_of(header, &mut aad);
    let (aad, _) = aad.split_at(size);
    let end = put(&mut front, at, aad);
    let (front, _) = front.split_at(end);
    ShortOctets::of(front)
}

// The CCMP header (IEEE Std 802.11-2020, 12.5.3.2).
fn header_octets(key_id: u8, pn: u64) -> [u8; 8]
    requires id { key_id < 4 }
    ensures { result ≡ ccmp_header key_id pn }
{
    let number = pn.to_le_bytes();
    let flags = key_id * 64 + EXT_IV;
    [
        number[0], number[1], 0, flags, number[2], number[3], number[4], number[5],
    ]
}

/// The packet number in a CCMP header.
pub fn packet_number(body: &[u8]) -> u64
    requires { 8 ≤ length body.now }
    ensures value { result ≡ packet_number body.now }
    ensures range { result < 2 ^ 48 }
{
    u64::from_le_bytes([body[0], body[1], body[4], body[5], body[6], body[7], 0, 0])
}

/// The key id in a CCMP header.
pub fn key_id_in(body: &[u8]) -> u8
    requires { 8 ≤ length body.now }
    ensures { result ≡ key_id_in body.now }
{
    body[3] >> 6
}

/// Whether the bit ExtIV of a CCMP header is set.
pub fn has_ext_iv(body: &[u8]) -> bool
    requires { 8 ≤ length body.now }
    ensures { IsTrue result ↔ (ext_iv body.now ≡ 1) }
{
    body[3] >> 5 & 1 == 1
}

/// `seal_body` under an expanded key.
pub fn seal_with(
    key: &ForwardAes128,
    header: &[u8],
    key_id: u8,
    pn: u64,
    plain: &[u8],
    out: &mut [u8],
) -> usize
    requires header { IsHeader header.now }
    requires id { key_id < 4 }
    requires number { pn < 2 ^ 48 }
    requires short { length plain.now < 2 ^ 16 }
    requires room { length plain.now + 16 ≤ length out.old }
    ensures end { result ≡ length plain.now + 16 }
    ensures sealed { Protected key.now header.now key_id pn plain.now (take result out.new) }
    ensures header { take 8 out.new ≡ ccmp_header key_id pn }
    ensures rest { (n : ℕ) → result ≤ n → drop n out.new ≡ drop n out.old }
    ensures len { length out.new ≡ length out.old }
{
    let end = CCMP_HEADER_LEN + plain.len() + MIC_LEN;
    let mut aad = [0; 24];
    let aad_len = aad_of(header, &mut aad);
    out[..CCMP_HEADER_LEN].copy_from_slice(&header_octets(key_id, pn));
    seal(
        key,
        &nonce_of(header, pn),
        &aad[..aad_len],
        plain,
        &mut out[CCMP_HEADER_LEN..end],
    );
    end
}

/// `open_body` under an expanded key.
pub fn open_with(
    key: &ForwardAes128,
    header: &[u8],
    body: &[u8],
    out: &mut [u8],
) -> Result<(u64, usize), Seal>
    requires header { IsHeader header.now }
    requires long { 16 ≤ length body.now }
    requires room { length body.now ≤ length out.old + 16 }
    ensures end { IfOk result (λ r. r.1 + 16 ≡ length body.now) }
    ensures opened { IfOk result
        (λ r. Protected key.now header.now (key_id_in body.now) r.0 (take r.1 out.new) body.now) }
    ensures only { (id pn : ℕ) (plain : List ℕ) → Protected key.now header.now id pn plain body.now
        → IsOkAnd result (λ r. (r.0 ≡ pn) × (take r.1 out.new ≡ plain)) }
    ensures seal { OnErr result
        ((id pn : ℕ) (plain : List ℕ) → ¬ Protected key.now header.now id pn plain body.now) }
    ensures rest { (n : ℕ) → length body.now ≤ n + 16 → drop n out.new ≡ drop n out.old }
    ensures len { length out.new ≡ length out.old }
{
    let len = body.len() - CCMP_HEADER_LEN - MIC_LEN;
    if len > LONGEST || !has_ext_iv(body) {
        return Err(Seal);
    }
    let pn = packet_number(body);
    let mut aad = [0; 24];
    let aad_len = aad_of(header, &mut aad);
    let sealed = &body[CCMP_HEADER_LEN..];
    if open(
        key,
        &nonce_of(header, pn),
        &aad[..aad_len],
        sealed,
        &mut out[..len],
    ) {
        Ok((pn, len))
    } else {
        Err(Seal)
    }
}

/// Writes the CCMP body of a plain text of at most 65,535 octets into the front of `out`, and gives
/// the number of octets written, 16 more. The header is the MAC header of the frame, of 24 or 26
/// octets, the key id is below 4, and the packet number has 48 bits (IEEE Std 802.11-2020,
/// 12.5.3.3). Takes no memory.
pub fn seal_body(
    tk: &[u8; 16],
    header: &[u8],
    key_id: u8,
    pn: u64,
    plain: &[u8],
    out: &mut [u8],
) -> usize
    requires header { IsHeader header.now }
    requires id { key_id < 4 }
    requires number { pn < 2 ^ 48 }
    requires short { length plain.now < 2 ^ 16 }
    requires room { length plain.now + 16 ≤ length out.old }
    ensures end { result ≡ length plain.now + 16 }
    ensures sealed { Protected tk.now header.now key_id pn plain.now (take result out.new) }
    ensures header { take 8 out.new ≡ ccmp_header key_id pn }
    ensures rest { (n : ℕ) → result ≤ n → drop n out.new ≡ drop n out.old }
    ensures len { length out.new ≡ length out.old }
{
    seal_with(&ForwardAes128::new(tk), header, key_id, pn, plain, out)
}

/// Writes the plain text of a CCMP body into the front of `out`, and gives its packet number and
/// the number of octets written, 16 fewer than the body has. What stands in `out` after a refusal
/// is of no use. Takes no memory.
pub fn open_body(
    tk: &[u8; 16],
    header: &[u8],
    body: &[u8],
    out: &mut [u8],
) -> Result<(u64, usize), Seal>
    requires header { IsHeader header.now }
    requires long { 16 ≤ length body.now }
    requires room { length body.now ≤ length out.old + 16 }
    ensures end { IfOk result (λ r. r.1 + 16 ≡ length body.now) }
    ensures opened { IfOk result
        (λ r. Protected tk.now header.now (key_id_in body.now) r.0 (take r.1 out.new) body.now) }
    // where a plain text is sealed to the body, it is given
    ensures only { (id pn : ℕ) (plain : List ℕ) → Protected tk.now header.now id pn plain body.now
        → IsOkAnd result (λ r. (r.0 ≡ pn) × (take r.1 out.new ≡ plain)) }
    ensures seal { OnErr result
        ((id pn : ℕ) (plain : List ℕ) → ¬ Protected tk.now header.now id pn plain body.now) }
    ensures rest { (n : ℕ) → length body.now ≤ n + 16 → drop n out.new ≡ drop n out.old }
    ensures len { length out.new ≡ length out.old }
{
    open_with(&ForwardAes128::new(tk), header, body, out)
}
