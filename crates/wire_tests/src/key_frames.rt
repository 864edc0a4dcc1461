//! EAPOL-Key frames: what is read of them, a MIC, and wrapped key data.

ghost use Rattle.std.specs.Prelude.{◌≡◌, ◌≤◌, ◌+◌, length};
ghost use Rattle.eapol_key.specs.KeyData.{padded_length};

use domain_base::{Akm, array_at};
use eapol_key::{BadWrap, Message, close_key_data, open_key_data, read, seal, write};
use mac_prf::KeptMicKey;
use std::test::*;

static KCK: [u8; 16] = [
    0x40, 0x41, 0x42, 0x43, 0x44, 0x45, 0x46, 0x47, 0x48, 0x49, 0x4a, 0x4b, 0x4c, 0x4d, 0x4e, 0x4f,
];

static NONCE: [u8; 32] = [0x5a; 32];

// How many octets a frame has, its key information, its counter and its nonce.
type Read = (usize, u16, u64, [u8; 32]);

static FRAMES: [(&[u8], Read); 2] = [
    (&FIRST_M1, (99, 0x008a, 1, [b'n'; 32])),
    (&LONGER, (99, 0x008a, 1, [b'n'; 32])),
];

// The first M1 of an attempt with 00-0F-AC:2, and three octets after it.
const FIRST_M1: [u8; 99] = *b"\x02\x03\x00\x5f\x02\x00\x8a\x00\x10\0\0\0\0\0\0\0\x01\
    nnnnnnnnnnnnnnnnnnnnnnnnnnnnnnnn\0\0\0\0\0\0\0\0\0\0\0\0\0\0\0\0\0\0\0\0\0\0\0\0\0\0\0\0\0\0\0\0\
    \0\0\0\0\0\0\0\0\0\0\0\0\0\0\0\0\0\0";

const LONGER: [u8; 102] = *b"\x02\x03\x00\x5f\x02\x00\x8a\x00\x10\0\0\0\0\0\0\0\x01\
    nnnnnnnnnnnnnnnnnnnnnnnnnnnnnnnn\0\0\0\0\0\0\0\0\0\0\0\0\0\0\0\0\0\0\0\0\0\0\0\0\0\0\0\0\0\0\0\0\
    \0\0\0\0\0\0\0\0\0\0\0\0\0\0\0\0\0\0end";

static KEK: [u8; 16] = [
    0x50, 0x51, 0x52, 0x53, 0x54, 0x55, 0x56, 0x57, 0x58, 0x59, 0x5a, 0x5b, 0x5c, 0x5d, 0x5e, 0x5f,
];

// The RSNE and the GTK KDE of an M3 with 00-0F-AC:2, and two octets of padding.
static M3_KEY_DATA: [u8; 48] = [
    0x30, 0x14, 0x01, 0x00, 0x00, 0x0f, 0xac, 0x04, 0x01, 0x00, 0x00, 0x0f, 0xac, 0x04, 0x01, 0x00,
    0x00, 0x0f, 0xac, 0x02, 0x0c, 0x00, 0xdd, 0x16, 0x00, 0x0f, 0xac, 0x01, 0x01, 0x00, 0xc0, 0xc1,
    0xc2, 0xc3, 0xc4, 0xc5, 0xc6, 0xc7, 0xc8, 0xc9, 0xca, 0xcb, 0xcc, 0xcd, 0xce, 0xcf, 0xdd, 0x00,
];

// What OpenSSL wraps padded key data to.
static M3_WRAPPED: [u8; 56] = [
    0x7c, 0x66, 0xac, 0x8f, 0x41, 0x1d, 0x7e, 0xbd, 0xf4, 0x22, 0xbe, 0x8d, 0xee, 0x74, 0x82, 0x4d,
    0x97, 0xed, 0x34, 0xf0, 0x4a, 0x7c, 0xde, 0xeb, 0x48, 0x41, 0x9b, 0x2f, 0xa2, 0x2f, 0x43, 0x00,
    0x26, 0x59, 0xb7, 0xd1, 0x68, 0xd9, 0x0a, 0x61, 0xf4, 0xc6, 0xe5, 0x83, 0x38, 0xcf, 0x04, 0x65,
    0xdb, 0x74, 0x38, 0xaa, 0x19, 0xa0, 0xfb, 0x6c,
];

static EMPTY_WRAPPED: [u8; 24] = [
    0x32, 0xab, 0xe6, 0xcb, 0x98, 0xd1, 0xc7, 0x6a, 0x0b, 0x8b, 0x0b, 0x96, 0xa8, 0xe5, 0x92, 0x09,
    0xf6, 0x49, 0xae, 0xbb, 0xfa, 0xa2, 0x38, 0x0a,
];

static EIGHT_WRAPPED: [u8; 24] = [
    0xf6, 0xba, 0xbd, 0xbf, 0xd5, 0x19, 0xff, 0x76, 0x3b, 0xf5, 0x1d, 0x9e, 0x76, 0x3c, 0xed, 0x65,
    0x01, 0xa6, 0xdd, 0xd6, 0xbf, 0x38, 0xa4, 0x68,
];

static SIXTEEN_WRAPPED: [u8; 24] = [
    0x94, 0x66, 0x5a, 0x97, 0xec, 0xc0, 0x2e, 0x84, 0xef, 0xad, 0xba, 0x1c, 0xaa, 0x3e, 0xc7, 0x1f,
    0x4b, 0x8a, 0x64, 0x9a, 0x95, 0x75, 0xde, 0x02,
];

// The MIC of M4 by OpenSSL.
static M4_MIC: [u8; 16] = [
    0x08, 0xf2, 0x59, 0xd6, 0xed, 0xb2, 0x1a, 0xb0, 0xc4, 0xa7, 0x9d, 0x79, 0x9c, 0xea, 0xac, 0xb6,
];

fn parts(octets: &[u8]) -> Option<Read> {
    match read(octets) {
        Ok((frame, used)) => Some((used, frame.information, frame.counter, frame.nonce)),
        Err(_) => None,
    }
}

#[test]
fn frames_are_read(rt: HostRuntime) {
    for (octets, read) in &FRAMES {
        assert!(rt; parts(octets) == Some(*read), "{octets:?}");
    }
}

// Whether M4 of the SHA-256 suite has the MIC that another program gave.
fn is_sealed(kept: &KeptMicKey) -> bool {
    let mut out = [0; 99];
    write(Message::M4, Akm::PskSha256, 7, &NONCE, 0, &[], &mut out);
    seal(kept, Akm::PskSha256, &KCK, &mut out);
    array_at::<16>(&out, 81) == M4_MIC
}

// No MIC tells which KCK is kept, nor by which suite.
#[test]
fn a_message_is_sealed(rt: HostRuntime) {
    let none = KeptMicKey::none();
    let mut same = KeptMicKey::none();
    same.keep(Akm::PskSha256, &KCK);
    let mut by_sha1 = KeptMicKey::none();
    by_sha1.keep(Akm::Psk, &KCK);
    let mut other = KeptMicKey::none();
    other.keep(Akm::PskSha256, &[7; 16]);
    assert!(rt; is_sealed(&none) && is_sealed(&same) && is_sealed(&by_sha1) && is_sealed(&other));
}

// The key data, and then its padding.
fn is_opened_to(wrapped: &[u8], plain: &[u8]) -> bool
    requires { length wrapped.now ≤ 192 }
{
    let mut out = [0; 184];
    match open_key_data(&KEK, wrapped, &mut out) {
        Ok(end) => {
            end + 8 == wrapped.len() && plain.len() <= 184 && &out[..plain.len()] == plain
        }
        Err(BadWrap) => false,
    }
}

fn goes_both_ways(plain: &[u8], wrapped: &[u8]) -> bool
    requires size { length wrapped.now ≡ padded_length (length plain.now) + 8 }
    requires most { length wrapped.now ≤ 192 }
{
    let mut out = [0; 192];
    let end = close_key_data(&KEK, plain, &mut out);
    &out[..end] == wrapped && is_opened_to(wrapped, plain)
}

#[test]
fn key_data_is_padded_wrapped_and_opened(rt: HostRuntime) {
    assert!(rt;
        (goes_both_ways(&M3_KEY_DATA[..46], &M3_WRAPPED) && is_opened_to(&M3_WRAPPED, &M3_KEY_DATA))
            && goes_both_ways(&[], &EMPTY_WRAPPED)
            && goes_both_ways(&M3_KEY_DATA[..8], &EIGHT_WRAPPED)
            && goes_both_ways(&M3_KEY_DATA[..16], &SIXTEEN_WRAPPED)
    );
    assert!(rt; matches!(open_key_data(&KEK, &[], &mut []), Err(BadWrap)));
}
