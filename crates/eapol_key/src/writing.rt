//! Writing a message, with zeros for its MIC.

ghost use Rattle.std.specs.Prelude.{◌≡◌, ℕ, ◌≤◌, ◌<◌, ◌+◌, ◌^◌, ◌++◌, ◌∷◌, [], List, length, take};
ghost use Rattle.std.specs.Prelude.{drop};
ghost use Rattle.std.specs.Int.{w16, to_be_bytes};
ghost use Rattle.eapol_key.specs.KeyFrame.{SpellsKeyFrame};
ghost use Rattle.eapol_key.specs.Messages.{IsMessage, descriptor_version};
ghost use Rattle.eapol_key.specs.Octets.{frame_octets};
ghost use Rattle.eapol_key.specs.Parts.{front_octets, back_octets};
ghost use Rattle.eapol_key.specs.Sent.{IsSentWith, rsc_octets, sent_bits, sent_fields};
ghost use Rattle.eapol_key.specs.Sent.{sent_key_length, sent_nonce, sent_rsc};

use crate::messages::{Message, descriptor_version};
use domain_base::{Akm, put};

// The length of CCMP's temporal key.
const TK_LEN: u16 = 16;

// The octets of the body before its key data.
const FIXED_BODY: u16 = 95;

fn sent_bits(message: Message) -> u16
    ensures value { result ≡ sent_bits message }
    ensures range { result < 2 ^ 15 }
{
    match message {
        Message::M1 => 0x0088,
        Message::M2 => 0x0108,
        Message::M3 => 0x13c8,
        Message::M4 => 0x0308,
        Message::G1 => 0x1380,
        Message::G2 => 0x0300,
    }
}

fn sent_key_length(message: Message) -> u16
    ensures { result ≡ sent_key_length message }
{
    match message {
        Message::M1 | Message::M3 => TK_LEN,
        Message::M2 | Message::M4 | Message::G1 | Message::G2 => 0,
    }
}

fn sent_nonce(message: Message, nonce: &[u8; 32]) -> [u8; 32]
    ensures { result ≡ sent_nonce message nonce.now }
{
    match message {
        Message::M1 | Message::M2 | Message::M3 => *nonce,
        Message::M4 | Message::G1 | Message::G2 => [0; 32],
    }
}

// A packet number, lowest octet first.
fn rsc_octets(rsc: u64) -> [u8; 8]
    ensures { result ≡ rsc_octets rsc }
{
    let [a, b, c, d, e, f, _, _] = rsc.to_le_bytes();
    [a, b, c, d, e, f, 0, 0]
}

fn sent_rsc(message: Message, rsc: u64) -> [u8; 8]
    ensures { result ≡ sent_rsc message rsc }
{
    match message {
        Message::M3 | Message::G1 => rsc_octets(rsc),
        Message::M1 | Message::M2 | Message::M4 | Message::G2 => [0; 8],
    }
}

// The fields before the key information. The body is the fixed fields and the key data.
fn put_start(size: u16, out: &mut [u8]) -> usize
    requires fits { size ≤ 65440 }
    requires room { 5 ≤ length out.old }
    ensures end { result ≡ 5 }
    ensures front { take 5 out.new ≡ 2 ∷ 3 ∷ to_be_bytes w16 (95 + size) ++ 2 ∷ [] }
    ensures rest { (n : ℕ) → 5 ≤ n → drop n out.new ≡ drop n out.old }
    ensures len { length out.new ≡ length out.old }
{
    let body = FIXED_BODY + size;
    let at = put(out, 0, &[2, 3]);
    let at = put(out, at, &body.to_be_bytes());
    put(out, at, &[2])
}

// The fields before the IV.
fn put_front(
    information: u16,
    key_length: u16,
    counter: u64,
    nonce: &[u8; 32],
    size: u16,
    out: &mut [u8],
) -> usize
    requires fits { size ≤ 65440 }
    requires room { 49 ≤ length out.old }
    ensures end { result ≡ 49 }
    ensures front { take 49 out.new
        ≡ front_octets 2 information key_length counter nonce.now size }
    ensures rest { (n : ℕ) → 49 ≤ n → drop n out.new ≡ drop n out.old }
    ensures len { length out.new ≡ length out.old }
{
    let at = put_start(size, out);
    let at = put(out, at, &information.to_be_bytes());
    let at = put(out, at, &key_length.to_be_bytes());
    let at = put(out, at, &counter.to_be_bytes());
    put(out, at, nonce)
}

// The IV, the RSC, the reserved field, the MIC, and the key data with its length.
fn put_back(rsc: &[u8; 8], key_data: &[u8], out: &mut [u8], at: usize) -> usize
    requires fits { length key_data.now ≤ 65440 }
    requires room { at + 50 + length key_data.now ≤ length out.old }
    ensures end { result ≡ at + 50 + length key_data.now }
    ensures front { take result out.new ≡ take at out.old ++ back_octets rsc.now key_data.now }
    ensures rest { (n : ℕ) → result ≤ n → drop n out.new ≡ drop n out.old }
    ensures len { length out.new ≡ length out.old }
{
    let size = key_data.len() as u16;
    let at = put(out, at, &[0; 16]);
    let at = put(out, at, rsc);
    let at = put(out, at, &[0; 8]);
    let at = put(out, at, &[0; 16]);
    let at = put(out, at, &size.to_be_bytes());
    put(out, at, key_data)
}

/// Writes a message to the front of `out` and answers how many octets it takes, 99 and those of its
/// key data (IEEE Std 802.11-2020, 12.7.6 and 12.7.7). Its MIC is zero. What the message does not
/// carry, the nonce or the RSC, is not looked at. Takes no memory.
///
/// The RSC is a packet number. The octets behind the frame stay.
pub fn write(
    message: Message,
    akm: Akm,
    counter: u64,
    nonce: &[u8; 32],
    rsc: u64,
    key_data: &[u8],
    out: &mut [u8],
) -> usize
    requires packet_number { rsc < 2 ^ 48 }
    requires carried { IsSentWith message key_data.now }
    requires fits { length key_data.now ≤ 65440 }
    requires room { 99 + length key_data.now ≤ length out.old }

    ensures used { result ≡ 99 + length key_data.now }
    ensures octets { take result out.new
        ≡ frame_octets (sent_fields message akm counter nonce.now rsc key_data.now) }
    ensures spelled { SpellsKeyFrame out.new
        (sent_fields message akm counter nonce.now rsc key_data.now) result }

    // Whatever is put behind the frame later.
    ensures reads_back { (later : List ℕ) → take result later ≡ take result out.new
        → SpellsKeyFrame later (sent_fields message akm counter nonce.now rsc key_data.now) result }
    ensures message { IsMessage akm message
        (sent_fields message akm counter nonce.now rsc key_data.now) }
    ensures rest { (n : ℕ) → result ≤ n → drop n out.new ≡ drop n out.old }
    ensures len { length out.new ≡ length out.old }
{
    let information = sent_bits(message) + descriptor_version(akm);
    let key_length = sent_key_length(message);
    let size = key_data.len() as u16;
    let nonce = sent_nonce(message, nonce);
    let at = put_front(information, key_length, counter, &nonce, size, out);
    put_back(&sent_rsc(message, rsc), key_data, out, at)
}
