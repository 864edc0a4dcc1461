//! Cryptographic works. Each answers an octet of its result, so that no part of the work is left out.

ghost use Rattle.std.specs.Prelude.{◌≤◌};

use crate::links::ciphered;
use aes_block::{Aes128, ForwardAes128};
use bip_guard::BipGuard;
use ccmp_guard::{Guard, Role};
use key_wrap::{unwrap, wrap};
use mac_prf::{cmac, pbkdf2};

const KEY: [u8; 16] = *b"key of 16 octets";

const BLOCK: [u8; 16] = *b"one of 16 octets";

// The first octet, by a call: where it is read in place, a compiler splits the block of the loop
// before in two, and the cipher waits for it to be put together at each turn.
#[inline(never)]
fn first(block: &[u8; 16]) -> u8 {
    block[0]
}

// One block after the other under one key.
fn encrypted(times: u32) -> u8 {
    let aes = ForwardAes128::new(&KEY);
    let mut block = BLOCK;
    for _ in 0..times {
        let next = aes.encrypt(block);
        block = next;
    }
    first(&block)
}

fn decrypted(times: u32) -> u8 {
    let aes = Aes128::new(&KEY);
    let mut block = BLOCK;
    for _ in 0..times {
        let next = aes.decrypt(block);
        block = next;
    }
    first(&block)
}

// A key, and one block under it.
fn expanded(times: u32) -> u8 {
    let mut block = BLOCK;
    for _ in 0..times {
        let next = Aes128::new(&block).encrypt(block);
        block = next;
    }
    first(&block)
}

// A key for encryption alone, and one block under it.
fn expanded_forward(times: u32) -> u8 {
    let mut block = BLOCK;
    for _ in 0..times {
        let next = ForwardAes128::new(&block).encrypt(block);
        block = next;
    }
    first(&block)
}

// The code of a text of 1,500 octets.
fn authenticated(times: u32) -> u8 {
    let mut text = [7; 1500];
    for _ in 0..times {
        let code = cmac(&KEY, &text);
        text[0] = code[0];
    }
    text[0]
}

// A plain text of 48 octets, with the expansion of its key.
fn wrapped(times: u32) -> u8 {
    let mut plain = [7; 48];
    let mut out = [0; 56];
    for _ in 0..times {
        let _end = wrap(&KEY, &plain, &mut out);
        plain[0] = out[0];
    }
    plain[0]
}

// What a plain text of 48 octets is wrapped to, with the expansion of its key.
fn unwrapped(times: u32) -> u8 {
    let mut input = [7; 56];
    let mut out = [0; 48];
    for _ in 0..times {
        let _found = unwrap(&KEY, &input, &mut out);
        input[0] = out[0];
    }
    input[0]
}

// A key of a passphrase.
fn stretched(times: u32) -> u8 {
    let mut key = [7; 32];
    for _ in 0..times {
        let next = pbkdf2(&key[..12], b"IEEE");
        key = next;
    }
    key[0]
}

// The header of a frame from an access point to a station.
const HEADER: &[u8] =
    b"\x08\x42\x00\x00\x02\x00\x00\x00\x00\xbb\x02\x00\x00\x00\x00\xaa\x02\x00\x00\x00\x00\xcc\x00\x00";

// A payload of that size, protected under one packet number after the other.
fn protected(size: usize, times: u32) -> u8
    requires { size ≤ 2304 }
{
    let plain = [7; 2304];
    let mut body = [0; 2320];
    let mut guard = Guard::empty();
    guard.install(&KEY, Role::Pairwise, 0, 0);
    for _ in 0..times {
        let _end = guard.protect(HEADER, &plain[..size], &mut body);
    }
    body[0]
}

// The same, and each body opened.
fn opened(size: usize, times: u32) -> u8
    requires { size ≤ 2304 }
{
    let mut plain = [7; 2304];
    let mut body = [0; 2320];
    let mut sender = Guard::empty();
    sender.install(&KEY, Role::Pairwise, 0, 0);
    let mut receiver = Guard::empty();
    receiver.install(&KEY, Role::Pairwise, 0, 0);
    for _ in 0..times {
        let _sealed = sender.protect(HEADER, &plain[..size], &mut body);
        let _opened = receiver.unprotect(HEADER, &body[..size + 16], &mut plain);
    }
    plain[0]
}

// The header of a management frame from an access point to all.
const TO_ALL: &[u8] =
    b"\xd0\x00\x00\x00\xff\xff\xff\xff\xff\xff\x02\x00\x00\x00\x00\xbb\x02\x00\x00\x00\x00\xbb\x00\x00";

// A body of 1,500 octets, sealed under one packet number after the other.
fn sealed(times: u32) -> u8 {
    let mut body = [7; 1500];
    let mut out = [0; 1518];
    let mut guard = BipGuard::empty();
    guard.install(&KEY, 4, 0, 0);
    for _ in 0..times {
        let _end = guard.protect(TO_ALL, &body, &mut out);
        body[0] = out[1510];
    }
    body[0]
}

// A work that is the same each time.
fn worked(work: &str, times: u32) -> Option<u8> {
    match work {
        "encrypt" => Some(encrypted(times)),
        "decrypt" => Some(decrypted(times)),
        "expand" => Some(expanded(times)),
        "expand-forward" => Some(expanded_forward(times)),
        "cmac" => Some(authenticated(times)),
        "seal" => Some(sealed(times)),
        "wrap" => Some(wrapped(times)),
        "unwrap" => Some(unwrapped(times)),
        "pbkdf2" => Some(stretched(times)),
        "link-ciphers" => Some(ciphered(times)),
        _ => None,
    }
}

// A work on payloads of that size.
fn worked_on(work: &str, times: u32, size: usize) -> Option<u8> {
    if size > 2304 {
        return None;
    }
    match work {
        "protect" => Some(protected(size, times)),
        "open" => Some(opened(size, times)),
        _ => None,
    }
}

/// An octet of the result of the work of that name, done so often; for a work on payloads their size is
/// told, from 0 to 2,304 octets.
pub fn octet_of(work: &str, times: u32, size: Option<usize>) -> Option<u8> {
    match size {
        None => worked(work, times),
        Some(size) => worked_on(work, times, size),
    }
}
