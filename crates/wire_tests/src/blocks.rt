//! AES-128 and key wrap: the vectors of the standards, and of another program.

ghost use Rattle.std.specs.Prelude.{◌≡◌, ◌≤◌, ◌%◌, length};

use crate::vectors::{COUNTED_KEY, RISING, STANDARD_KEY};
use aes_block::{Aes128, decryption_undoes_encryption};
use key_wrap::{BadWrap, plain_text_is_unique, unwrap, wrap};
use std::test::*;

// A key, a block, and what it is encrypted to.
static ENCRYPTED: [([u8; 16], [u8; 16], [u8; 16]); 6] = [
    // FIPS 197, Appendix B.
    (
        STANDARD_KEY,
        *b"\x32\x43\xf6\xa8\x88\x5a\x30\x8d\x31\x31\x98\xa2\xe0\x37\x07\x34",
        *b"\x39\x25\x84\x1d\x02\xdc\x09\xfb\xdc\x11\x85\x97\x19\x6a\x0b\x32",
    ),
    // FIPS 197, Appendix C.1 of the text of 2001.
    (
        COUNTED_KEY,
        *b"\x00\x11\x22\x33\x44\x55\x66\x77\x88\x99\xaa\xbb\xcc\xdd\xee\xff",
        *b"\x69\xc4\xe0\xd8\x6a\x7b\x04\x30\xd8\xcd\xb7\x80\x70\xb4\xc5\x5a",
    ),
    // NIST SP 800-38A, F.1.1 and F.1.2: four blocks in ECB mode, each way.
    (
        STANDARD_KEY,
        *b"\x6b\xc1\xbe\xe2\x2e\x40\x9f\x96\xe9\x3d\x7e\x11\x73\x93\x17\x2a",
        *b"\x3a\xd7\x7b\xb4\x0d\x7a\x36\x60\xa8\x9e\xca\xf3\x24\x66\xef\x97",
    ),
    (
        STANDARD_KEY,
        *b"\xae\x2d\x8a\x57\x1e\x03\xac\x9c\x9e\xb7\x6f\xac\x45\xaf\x8e\x51",
        *b"\xf5\xd3\xd5\x85\x03\xb9\x69\x9d\xe7\x85\x89\x5a\x96\xfd\xba\xaf",
    ),
    (
        STANDARD_KEY,
        *b"\x30\xc8\x1c\x46\xa3\x5c\xe4\x11\xe5\xfb\xc1\x19\x1a\x0a\x52\xef",
        *b"\x43\xb1\xcd\x7f\x59\x8e\xce\x23\x88\x1b\x00\xe3\xed\x03\x06\x88",
    ),
    (
        STANDARD_KEY,
        *b"\xf6\x9f\x24\x45\xdf\x4f\x9b\x17\xad\x2b\x41\x7b\xe6\x6c\x37\x10",
        *b"\x7b\x0c\x78\x5e\x27\xe8\xad\x3f\x82\x23\x20\x71\x04\x72\x5d\xd4",
    ),
];

// RFC 3394, 4.1.
static STANDARD_PLAIN: [u8; 16] =
    *b"\x00\x11\x22\x33\x44\x55\x66\x77\x88\x99\xaa\xbb\xcc\xdd\xee\xff";

static STANDARD_WRAPPED: [u8; 24] = [
    0x1f, 0xa6, 0x8b, 0x0a, 0x81, 0x12, 0xb4, 0x47, 0xae, 0xf3, 0x4b, 0xd8, 0xfb, 0x5a, 0x7b, 0x82,
    0x9d, 0x3e, 0x86, 0x23, 0x71, 0xd2, 0xcf, 0xe5,
];

// Wrapped by OpenSSL (`aes_key_wrap` of Python's `cryptography`).
static WRAPPED_24: [u8; 32] = [
    0x98, 0xd7, 0x9f, 0x25, 0x3e, 0x10, 0x6d, 0xd0, 0x21, 0x81, 0x64, 0x9f, 0xfe, 0xc6, 0xe6, 0xcd,
    0x7a, 0xaf, 0x5b, 0x39, 0xef, 0x51, 0x67, 0x44, 0x20, 0xe7, 0x71, 0xbb, 0x34, 0xc0, 0xb4, 0xb0,
];

static WRAPPED_32: [u8; 40] = [
    0xb1, 0x2f, 0x18, 0x02, 0x69, 0x05, 0x98, 0x7b, 0xec, 0x7d, 0xb6, 0x19, 0xf1, 0xd1, 0xdc, 0x40,
    0x9e, 0x44, 0xd1, 0xa3, 0x99, 0x7f, 0xbb, 0x67, 0xe5, 0x0b, 0x97, 0x35, 0x20, 0xab, 0xb0, 0x53,
    0x78, 0xd0, 0x2d, 0xcd, 0x9c, 0x36, 0xe6, 0x92,
];

static WRAPPED_184: [u8; 192] = [
    0xdd, 0x7b, 0xbe, 0x97, 0x55, 0xed, 0x4d, 0x5f, 0x6f, 0xbc, 0xa3, 0x0f, 0x78, 0x81, 0xc7, 0x1d,
    0x56, 0xbf, 0x01, 0x27, 0x95, 0x66, 0xf4, 0x48, 0xf3, 0x1b, 0x77, 0x7b, 0x1c, 0x49, 0xe9, 0x38,
    0xa6, 0x8e, 0xef, 0xdd, 0xbc, 0x28, 0x8b, 0x0e, 0xad, 0xa3, 0xa5, 0x41, 0x37, 0xf6, 0x44, 0xee,
    0x1c, 0xe5, 0xb9, 0xd1, 0xf3, 0xcf, 0x20, 0xd7, 0x86, 0xe8, 0xfc, 0xc9, 0xf3, 0x21, 0xa0, 0x6f,
    0x42, 0x1a, 0x05, 0x2d, 0x6c, 0xf5, 0xfc, 0xa5, 0x4c, 0xd4, 0x73, 0x1f, 0x50, 0xc7, 0x35, 0x44,
    0xfc, 0x68, 0x16, 0x5c, 0xd9, 0xaf, 0x41, 0xd1, 0xa2, 0xee, 0x34, 0x22, 0xd1, 0x2e, 0x6a, 0x59,
    0x7d, 0xdd, 0x95, 0xf7, 0x2d, 0x12, 0xe2, 0xd1, 0xa0, 0x05, 0x04, 0x43, 0x70, 0x45, 0xcf, 0x53,
    0xd3, 0xa2, 0x0d, 0xc9, 0x03, 0x10, 0x1e, 0x7b, 0xa7, 0x5e, 0x3d, 0x6b, 0x57, 0x71, 0xa5, 0xea,
    0x5b, 0xa9, 0xb2, 0x8b, 0x37, 0x69, 0x42, 0x60, 0x9f, 0x3b, 0x62, 0xea, 0x9b, 0x3a, 0x24, 0xb3,
    0x76, 0x30, 0x87, 0x4b, 0xef, 0x8d, 0x44, 0x68, 0xb6, 0xde, 0x0b, 0x09, 0x4a, 0x04, 0xad, 0x3c,
    0x40, 0x93, 0xa8, 0x8d, 0xa4, 0xf0, 0x60, 0x66, 0x94, 0xb4, 0x66, 0x6a, 0x64, 0x6a, 0x22, 0xaa,
    0x17, 0xe2, 0x37, 0x6e, 0xbd, 0x0a, 0x25, 0xe7, 0xde, 0x11, 0x9b, 0x03, 0xf6, 0x02, 0xb7, 0x82,
];

#[test]
fn blocks_are_encrypted_and_decrypted(rt: HostRuntime) {
    decryption_undoes_encryption();
    for (key, plain, block) in &ENCRYPTED {
        let aes = Aes128::new(key);
        assert!(rt;
            aes.encrypt(*plain) == *block && aes.decrypt(*block) == *plain,
            "{block:?}"
        );
    }
}

fn is_wrapped(kek: &[u8; 16], plain: &[u8], wrapped: &[u8]) -> bool
    requires whole_blocks { length plain.now % 8 ≡ 0 }
    requires two_blocks { 16 ≤ length plain.now }
    requires short { length plain.now ≤ 184 }
{
    let mut out = [0; 192];
    let end = wrap(kek, plain, &mut out);
    &out[..end] == wrapped
}

fn is_unwrapped(kek: &[u8; 16], plain: &[u8], wrapped: &[u8]) -> bool
    requires { length wrapped.now ≤ 192 }
{
    let mut out = [0; 184];
    match unwrap(kek, wrapped, &mut out) {
        Ok(end) => &out[..end] == plain,
        Err(BadWrap) => false,
    }
}

fn is_refused(kek: &[u8; 16], wrapped: &[u8]) -> bool
    requires { length wrapped.now ≤ 24 }
{
    let mut out = [0; 16];
    matches!(unwrap(kek, wrapped, &mut out), Err(BadWrap))
}

// The vector of RFC 3394, one octet changed, its first 8 and its first 23 octets, and plain texts of
// three and more blocks.
#[test]
fn keys_are_wrapped_and_unwrapped_or_refused(rt: HostRuntime) {
    plain_text_is_unique();
    let mut other = STANDARD_WRAPPED;
    other[23] = 0xe4;
    assert!(rt;
        is_wrapped(&COUNTED_KEY, &STANDARD_PLAIN, &STANDARD_WRAPPED)
            && is_unwrapped(&COUNTED_KEY, &STANDARD_PLAIN, &STANDARD_WRAPPED)
            && is_refused(&COUNTED_KEY, &other)
            && is_refused(&COUNTED_KEY, &STANDARD_WRAPPED[..8])
            && is_refused(&COUNTED_KEY, &STANDARD_WRAPPED[..23])
    );
    assert!(rt;
        is_wrapped(&STANDARD_KEY, &RISING[..24], &WRAPPED_24)
            && is_wrapped(&STANDARD_KEY, &RISING[..32], &WRAPPED_32)
            && is_wrapped(&STANDARD_KEY, &RISING, &WRAPPED_184)
            && is_unwrapped(&STANDARD_KEY, &RISING, &WRAPPED_184)
    );
}
