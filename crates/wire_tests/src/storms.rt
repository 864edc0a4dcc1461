//! What storms draw first: the seed of their network, and its pre-shared key.

use run_journal::ListedSta;
use std::alloc::Global;
use storm::Storm;

// The number of a storm, its seed and its pre-shared key: from the state x, at first the number, the
// next x is x * 6364136223846793005 + 1442695040888963407 modulo 2^64, and its octet x >> 33 modulo
// 256; by Python.
static SECRETS: [(u32, [u8; 32], [u8; 32]); 2] = [
    (
        0,
        *b"\xbf\x08\x11\x74\x6d\x9b\xb8\xc7\xe0\x9b\x4f\xd2\x06\x3d\x34\x1e\x49\x12\x9b\x23\x2e\x35\xcf\x6a\x8d\x3b\x71\x17\x93\xfe\xe9\x50",
        *b"\xda\xe4\x21\xbb\x12\x17\x30\x66\xc0\x1b\xf1\xd1\xbd\xc8\xb7\xeb\x54\x86\x88\xff\xb9\x89\x93\x37\x5a\x0c\x42\x0b\x90\x1e\x35\x56",
    ),
    (
        1,
        *b"\xd6\x59\xcc\xe6\x5a\xf3\x9a\xf6\x29\xba\xfb\xf2\x7c\x20\xba\x0c\x1a\x1f\xd4\x35\x6b\x8d\xde\x62\x3d\xb0\x24\xa0\x51\xa0\x9f\x12",
        *b"\x1c\xc5\x8e\x5a\xca\x6a\xdc\x1d\xff\xe4\x8a\xb8\xcd\x16\xf4\x05\x2f\xa2\xaa\xe8\x7c\xc2\x1d\x28\xd6\xb3\x77\x06\x49\x16\xec\x35",
    ),
];

// Eight stations, which have that key.
fn have_key(stas: &[ListedSta], psk: &[u8; 32]) -> bool {
    stas.len() == 8 && stas.iter().all(|sta| sta.psk == *psk)
}

fn draws(alloc: Global, number: u32, seed: &[u8; 32], psk: &[u8; 32]) -> bool {
    match Storm::new(alloc, number).domain(alloc) {
        Ok(domain) => domain.seed.octets() == *seed && have_key(domain.stas.as_slice(), psk),
        Err(_) => false,
    }
}

#[test]
fn storms_draw_their_secrets(rt: HostRuntime) {
    for (number, seed, psk) in &SECRETS {
        assert!(rt; draws(rt.alloc(), *number, seed, psk), "storm {number}");
    }
}
