//! The test network "IEEE": the access points 02:00:00:00:00:01 and 02:00:00:00:00:02, and the
//! stations 02:00:00:00:00:11 and 02:00:00:00:00:12. The pre-shared key is that of the passphrase
//! "password", the seed 00 to 1f.

pub const SEED: [u8; 32] = [
    0, 1, 2, 3, 4, 5, 6, 7, 8, 9, 10, 11, 12, 13, 14, 15, 16, 17, 18, 19, 20, 21, 22, 23, 24, 25,
    26, 27, 28, 29, 30, 31,
];

pub const PSK: [u8; 32] =
    *b"\xf4\x2c\x6f\xc5\x2d\xf0\xeb\xef\x9e\xbb\x4b\x90\xb3\x8a\x5f\x90\x2e\x83\xfe\x1b\x13\x5a\x70\xe2\x3a\xed\x76\x2e\x97\x10\xa1\x2e";

/// The number of the last draw of a node.
pub const LAST: u64 = 1_152_921_504_606_846_975;

/// The number of the draw before it.
pub const LAST_BUT_ONE: u64 = 1_152_921_504_606_846_974;

/// And of the one before that.
pub const LAST_BUT_TWO: u64 = 1_152_921_504_606_846_973;
