//! The EAPOL-Key frames of the four-way handshake and of the group key handshake, as octets.

ghost use Rattle.std.specs.Prelude.{◌≡◌, ◌≤◌, ◌<◌, ◌+◌, ◌^◌, [], length, take};
ghost use Rattle.eapol_key.specs.declared.messages.Message.TheVariants.{M1, M2, M3, M4, G1, G2};
ghost use Rattle.eapol_key.specs.KeyData.{padded};
ghost use Rattle.eapol_key.specs.Octets.{frame_octets};
ghost use Rattle.eapol_key.specs.Sealed.{sealed};
ghost use Rattle.eapol_key.specs.Sent.{sent_fields};
ghost use Rattle.domain_rules.specs.Frames.{wrapped};
ghost use Rattle.frame_making.specs.Second.{marked};

use crate::key_data::{MOST_KDES, MOST_M2_DATA, MOST_M3_DATA};
use domain_base::{Akm, ShortOctets};
use eapol_key::{KEY_DATA_AT, Message, close_key_data, seal, write};
use key_hierarchy::Ptk;
use mac_prf::KeptMicKey;

// The octets of message 2 at most.
pub(crate) const MOST_M2: usize = KEY_DATA_AT + MOST_M2_DATA;

// The octets of the key data of message 3 under its wrap at most, and of message 3.
const MOST_WRAPPED: usize = MOST_M3_DATA + 7 + 8;

pub(crate) const MOST_M3: usize = KEY_DATA_AT + MOST_WRAPPED;

// The octets of the KDEs of group keys, which are the key data of message 1 of the group key
// handshake, under their wrap at most, and of that message.
const MOST_WRAPPED_KDES: usize = MOST_KDES + 7 + 8;

pub(crate) const MOST_G1: usize = KEY_DATA_AT + MOST_WRAPPED_KDES;

// Where the octet of the key information stands that has the Secure bit, and that octet in a message
// 2 that has it set (IEEE Std 802.11-2020, 12.7.2).
const SECURE_AT: usize = 5;

const SECURED_M2: u8 = 0x03;

// Message 1 (IEEE Std 802.11-2020, 12.7.6.2).
pub(crate) fn m1_frame(akm: Akm, counter: u64, anonce: &[u8; 32]) -> [u8; KEY_DATA_AT]
    ensures frame { result ≡ frame_octets (sent_fields M1 akm counter anonce.now 0 []) }
    ensures size { length result ≡ KEY_DATA_AT }
{
    let mut frame = [0; KEY_DATA_AT];
    write(Message::M1, akm, counter, anonce, 0, &[], &mut frame);
    frame
}

// Sets the Secure bit in message 2, or leaves it clear (IEEE Std 802.11-2020, 12.7.2).
fn mark(secure: bool, frame: &mut [u8])
    requires { 99 ≤ length frame.old }
    ensures octets { frame.new ≡ marked secure frame.old }
    ensures len { length frame.new ≡ length frame.old }
{
    if secure {
        frame[SECURE_AT] = SECURED_M2;
    }
}

// What message 2 carries: the SNonce, and whether its Secure bit is set.
#[derive(Clone, Copy)]
pub(crate) struct Second {
    pub(crate) snonce: [u8; 32],
    pub(crate) secure: bool,
}

/// Message 2 with that key data, at the front of `out`, and how many octets it takes
/// (IEEE Std 802.11-2020, 12.7.6.3).
pub(crate) fn put_m2(
    kept: &KeptMicKey,
    akm: Akm,
    kck: &[u8; 16],
    counter: u64,
    second: Second,
    key_data: &[u8],
    out: &mut [u8; MOST_M2],
) -> usize
    requires some { 0 < length key_data.now }
    requires few { length key_data.now ≤ MOST_M2_DATA }
    ensures size { result ≡ 99 + length key_data.now }
    ensures frame { take result out.new ≡ sealed akm kck.now (marked second.secure
        (frame_octets (sent_fields M2 akm counter second.snonce 0 key_data.now))) }
{
    let snonce = second.snonce;
    let size = write(Message::M2, akm, counter, &snonce, 0, key_data, out);
    let (frame, _) = out.split_at_mut(size);
    mark(second.secure, frame);
    seal(kept, akm, kck, frame);
    size
}

// Key data under its wrap, with padding.
fn closed(kek: &[u8; 16], plain: &[u8]) -> ShortOctets<MOST_WRAPPED>
    requires { length plain.now ≤ MOST_M3_DATA }
    ensures { result ≡ wrapped kek.now (padded plain.now) }
{
    let mut out = [0; MOST_WRAPPED];
    let end = close_key_data(kek, plain, &mut out);
    let (octets, _) = out.split_at(end);
    ShortOctets::of(octets)
}

// What message 3 carries: the ANonce, and the count of packet numbers used under its group key.
#[derive(Clone, Copy)]
pub(crate) struct Third {
    pub(crate) anonce: [u8; 32],
    pub(crate) rsc: u64,
}

/// Message 3 with that key data, which comes under its wrap, at the front of `out`, and how many
/// octets it takes (IEEE Std 802.11-2020, 12.7.6.4).
pub(crate) fn put_m3(
    kept: &KeptMicKey,
    akm: Akm,
    key: &Ptk,
    counter: u64,
    third: Third,
    plain: &[u8],
    out: &mut [u8; MOST_M3],
) -> usize
    requires packet_number { third.rsc < 2 ^ 48 }
    requires few { length plain.now ≤ MOST_M3_DATA }
    ensures least { 99 ≤ result }
    ensures most { result ≤ MOST_M3 }
    ensures frame { take result out.new ≡ sealed akm key.now.kck
        (frame_octets (sent_fields M3 akm counter third.anonce third.rsc
        (wrapped key.now.kek (padded plain.now)))) }
{
    let (kck, kek) = (key.kck, key.kek);
    let key_data = closed(&kek, plain);
    let (anonce, rsc) = (third.anonce, third.rsc);
    let size = write(
        Message::M3,
        akm,
        counter,
        &anonce,
        rsc,
        key_data.as_slice(),
        out,
    );
    let (frame, _) = out.split_at_mut(size);
    seal(kept, akm, &kck, frame);
    size
}

// Message 4 (IEEE Std 802.11-2020, 12.7.6.5).
pub(crate) fn m4_frame(
    kept: &KeptMicKey,
    akm: Akm,
    kck: &[u8; 16],
    counter: u64,
) -> [u8; KEY_DATA_AT]
    ensures frame { result ≡ sealed akm kck.now
        (frame_octets (sent_fields M4 akm counter [] 0 [])) }
    ensures size { length result ≡ KEY_DATA_AT }
{
    let mut frame = [0; KEY_DATA_AT];
    write(Message::M4, akm, counter, &[0; 32], 0, &[], &mut frame);
    seal(kept, akm, kck, &mut frame);
    frame
}

// The KDEs of group keys under their wrap, with padding.
fn closed_kdes(kek: &[u8; 16], plain: &[u8]) -> ShortOctets<MOST_WRAPPED_KDES>
    requires { length plain.now ≤ MOST_KDES }
    ensures { result ≡ wrapped kek.now (padded plain.now) }
{
    let mut out = [0; MOST_WRAPPED_KDES];
    let end = close_key_data(kek, plain, &mut out);
    let (octets, _) = out.split_at(end);
    ShortOctets::of(octets)
}

/// Message 1 of the group key handshake with the KDEs of group keys, which come under their wrap, and
/// the count of packet numbers used under the GTK, at the front of `out`, and how many octets it
/// takes (IEEE Std 802.11-2020, 12.7.7.2).
pub(crate) fn put_g1(
    kept: &KeptMicKey,
    akm: Akm,
    key: &Ptk,
    counter: u64,
    rsc: u64,
    plain: &[u8],
    out: &mut [u8; MOST_G1],
) -> usize
    requires packet_number { rsc < 2 ^ 48 }
    requires few { length plain.now ≤ MOST_KDES }
    ensures least { 99 ≤ result }
    ensures most { result ≤ MOST_G1 }
    ensures frame { take result out.new ≡ sealed akm key.now.kck
        (frame_octets (sent_fields G1 akm counter [] rsc
        (wrapped key.now.kek (padded plain.now)))) }
{
    let (kck, kek) = (key.kck, key.kek);
    let key_data = closed_kdes(&kek, plain);
    let size = write(
        Message::G1,
        akm,
        counter,
        &[0; 32],
        rsc,
        key_data.as_slice(),
        out,
    );
    let (frame, _) = out.split_at_mut(size);
    seal(kept, akm, &kck, frame);
    size
}

// Message 2 of the group key handshake (IEEE Std 802.11-2020, 12.7.7.3).
pub(crate) fn g2_frame(
    kept: &KeptMicKey,
    akm: Akm,
    kck: &[u8; 16],
    counter: u64,
) -> [u8; KEY_DATA_AT]
    ensures frame { result ≡ sealed akm kck.now
        (frame_octets (sent_fields G2 akm counter [] 0 [])) }
    ensures size { length result ≡ KEY_DATA_AT }
{
    let mut frame = [0; KEY_DATA_AT];
    write(Message::G2, akm, counter, &[0; 32], 0, &[], &mut frame);
    seal(kept, akm, kck, &mut frame);
    frame
}
