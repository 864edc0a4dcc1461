//! Bodies of management frames under an IGTK, and guards.

ghost use Rattle.std.specs.Prelude.{IsTrue};
ghost use Rattle.bip_guard.specs.Bip.{EndsInMme};

use bip_guard::{BipFault, BipGuard, Seal, a_body_has_one_content, open_frame, seal_frame};

// The MICs here were made by other programs, as the CMAC of OpenSSL and of the Python library
// `cryptography` over the octets that IEEE Std 802.11-2020, 12.5.4.5 names.

const IGTK: [u8; 16] = [
    0x5e, 0xca, 0x1f, 0x02, 0xb7, 0x4d, 0x69, 0x11, 0xc0, 0x38, 0x8f, 0xd2, 0xa4, 0x7e, 0x93, 0xb1,
];

const HEADER: &[u8] =
    b"\xd0\x00\x00\x00\xff\xff\xff\xff\xff\xff\x02\x00\x00\x00\x00\xa1\x02\x00\x00\x00\x00\xa1\x70\x00";

// The same but for what the MIC does not cover: Retry, Power Management, More Data, the sequence
// number.
const RETRIED: &[u8] =
    b"\xd0\x38\x00\x00\xff\xff\xff\xff\xff\xff\x02\x00\x00\x00\x00\xa1\x02\x00\x00\x00\x00\xa1\xf3\xff";

// Of another frame, with three addresses that differ.
const OTHER: &[u8] =
    b"\xc0\x00\x8f\x23\x01\x00\x5e\x00\x00\x01\x02\xaa\xbb\xcc\xdd\xee\x02\x11\x22\x33\x44\x55\x00\x10";

// A frame, and the body that it has under `IGTK`.
struct Frame {
    header: &'static [u8],
    id: u8,
    ipn: u64,
    content: &'static [u8],
    body: &'static [u8],
}

fn ends_in_mme(body: &[u8]) -> bool
    ensures { IsTrue result → EndsInMme body.now }
{
    body.len() >= 18 && body[body.len() - 18] == 0x4c && body[body.len() - 17] == 0x10
}

// The content is sealed to the body.
fn is_sealed(frame: &Frame) -> bool {
    let end = frame.content.len() + 18;
    if frame.header.len() != 24 || frame.ipn >> 48 != 0 || end > 48 {
        return false;
    }
    let mut out = [0; 48];
    let written = seal_frame(
        &IGTK,
        frame.header,
        frame.id,
        frame.ipn,
        frame.content,
        &mut out,
    );
    written == end && &out[..end] == frame.body
}

// What a body is opened to: its packet number, and the octets before its MME.
fn opened(header: &[u8], body: &[u8]) -> Option<(u64, usize)> {
    if header.len() != 24 || !ends_in_mme(body) {
        return None;
    }
    match open_frame(&IGTK, header, body) {
        Ok(found) => Some(found),
        Err(Seal) => None,
    }
}

fn goes_both_ways(frame: &Frame) -> bool {
    is_sealed(frame) && opened(frame.header, frame.body) == Some((frame.ipn, frame.content.len()))
}

#[test]
fn frames_are_sealed_and_opened(rt: HostRuntime) {
    a_body_has_one_content();
    for frame in &FRAMES {
        let body = frame.body;
        assert!(rt; goes_both_ways(frame), "{body:?}");
    }
    assert!(rt; opened(OTHER, FRAMES[0].body) == None);
    for body in &FORGED {
        assert!(rt; opened(HEADER, body) == None, "{body:?}");
    }
}

fn protect(guard: &mut BipGuard) -> Result<usize, BipFault> {
    let mut out = [0; 48];
    guard.protect(HEADER, b"\x7e\x01", &mut out)
}

fn gives(guard: &mut BipGuard, body: &[u8], answer: Result<usize, BipFault>) -> bool {
    ends_in_mme(body) && guard.unprotect(HEADER, body) == answer
}

// The last number protects one frame; then bodies come one after the other, of which numbers up to
// 6 were taken.
#[test]
fn integrity_guards_protect_and_open_or_refuse(rt: HostRuntime) {
    let mut none = BipGuard::empty();
    assert!(rt; protect(&mut none) == Err(BipFault::NoKey));
    assert!(rt; gives(&mut none, FRAMES[0].body, Err(BipFault::NoKey)));
    let mut guard = BipGuard::empty();
    guard.install(&IGTK, 4, 281_474_976_710_654, 6);
    assert!(rt; protect(&mut guard) == Ok(20) && protect(&mut guard) == Err(BipFault::Spent));
    for (body, answer) in &ANSWERS {
        assert!(rt; gives(&mut guard, body, *answer), "{body:?}");
    }
}

static FRAMES: [Frame; 7] = [
    Frame {
        header: HEADER,
        id: 4,
        ipn: 1,
        content: b"\x7e\x01",
        body: b"\x7e\x01\x4c\x10\x04\x00\x01\x00\x00\x00\x00\x00\x9e\xa7\xae\x22\x3e\xbc\xa5\x16",
    },
    Frame {
        header: RETRIED,
        id: 4,
        ipn: 1,
        content: b"\x7e\x01",
        body: b"\x7e\x01\x4c\x10\x04\x00\x01\x00\x00\x00\x00\x00\x9e\xa7\xae\x22\x3e\xbc\xa5\x16",
    },
    Frame {
        header: OTHER,
        id: 5,
        ipn: 0x0605_0403_0201,
        content: b"\x02\x00",
        body: b"\x02\x00\x4c\x10\x05\x00\x01\x02\x03\x04\x05\x06\xc3\xee\x1d\x6c\x68\xf6\xcb\x8d",
    },
    Frame {
        header: HEADER,
        id: 5,
        ipn: 0xffff_ffff_ffff,
        content: b"",
        body: b"\x4c\x10\x05\x00\xff\xff\xff\xff\xff\xff\x7f\xcd\xd4\xcb\x6b\x33\x6a\x59",
    },
    // the MIC covers whole blocks
    Frame {
        header: OTHER,
        id: 4,
        ipn: 0xff00_0100,
        content: b"\x03\x0a\x11\x18\x1f\x26\x2d\x34\x3b\x42",
        body: b"\x03\x0a\x11\x18\x1f\x26\x2d\x34\x3b\x42\x4c\x10\x04\x00\x00\x01\x00\xff\x00\x00\xc6\xc3\xee\x5a\x09\xe3\xf4\xd3",
    },
    Frame {
        header: HEADER,
        id: 255,
        ipn: 0x8000_0000_0000,
        content: b"\x03\x0a\x11\x18\x1f\x26\x2d\x34\x3b\x42\x49",
        body: b"\x03\x0a\x11\x18\x1f\x26\x2d\x34\x3b\x42\x49\x4c\x10\xff\x00\x00\x00\x00\x00\x00\x80\x71\x0b\x20\xbd\x07\xfa\xd3\x00",
    },
    Frame {
        header: RETRIED,
        id: 0,
        ipn: 0,
        content: b"\x03\x0a\x11\x18\x1f\x26\x2d\x34\x3b\x42\x49\x50\x57\x5e\x65\x6c\x73\x7a\x81\x88\x8f\x96\x9d\xa4\xab\xb2",
        body: b"\x03\x0a\x11\x18\x1f\x26\x2d\x34\x3b\x42\x49\x50\x57\x5e\x65\x6c\x73\x7a\x81\x88\x8f\x96\x9d\xa4\xab\xb2\x4c\x10\x00\x00\x00\x00\x00\x00\x00\x00\xbe\x60\x1b\x56\xdc\x6d\xc3\xd1",
    },
];

// The body of the first frame with one bit changed: in its content, key id, packet number and MIC.
static FORGED: [&[u8]; 5] = [
    b"\x7e\x00\x4c\x10\x04\x00\x01\x00\x00\x00\x00\x00\x9e\xa7\xae\x22\x3e\xbc\xa5\x16",
    b"\x7e\x01\x4c\x10\x04\x10\x01\x00\x00\x00\x00\x00\x9e\xa7\xae\x22\x3e\xbc\xa5\x16",
    b"\x7e\x01\x4c\x10\x04\x00\x01\x00\x00\x00\x00\x80\x9e\xa7\xae\x22\x3e\xbc\xa5\x16",
    b"\x7e\x01\x4c\x10\x04\x00\x01\x00\x00\x00\x00\x00\x9f\xa7\xae\x22\x3e\xbc\xa5\x16",
    b"\x7e\x01\x4c\x10\x04\x00\x01\x00\x00\x00\x00\x00\x9e\xa7\xae\x22\x3e\xbc\xa5\x17",
];

// Bodies, and what a guard of key id 4 gives for them. The MICs are right but where `Seal` comes.
static ANSWERS: [(&[u8], Result<usize, BipFault>); 9] = [
    // another key id, also beside a number that was taken, and one that differs in its high octet
    (
        b"\x7e\x03\x4c\x10\x05\x00\x09\x00\x00\x00\x00\x00\xca\xff\xe4\xa9\xfa\x3f\xa6\x2a",
        Err(BipFault::KeyId),
    ),
    (
        b"\x7e\x04\x4c\x10\x05\x00\x06\x00\x00\x00\x00\x00\xe5\x75\x78\x19\x0c\xe5\x85\xd5",
        Err(BipFault::KeyId),
    ),
    (
        b"\x7e\x03\x4c\x10\x04\x01\x09\x00\x00\x00\x00\x00\xec\x15\x3c\xb1\x60\x0e\x9f\x93",
        Err(BipFault::KeyId),
    ),
    (
        b"\x7e\x04\x4c\x10\x04\x00\x06\x00\x00\x00\x00\x00\x8e\xad\xf8\x69\xf0\xef\x8c\xa0",
        Err(BipFault::Replayed(6)),
    ),
    // a forged frame does not move the kept number
    (
        b"\x7e\x00\x4c\x10\x04\x00\xff\xff\xff\xff\xff\xff\x8f\x0c\x9d\xc0\x17\xaa\x44\x75",
        Err(BipFault::Seal),
    ),
    (
        b"\x7e\x01\x4c\x10\x04\x00\x07\x00\x00\x00\x00\x00\x82\x67\xd1\xa1\x59\x90\x19\x1e",
        Ok(2),
    ),
    (
        b"\x7e\x01\x4c\x10\x04\x00\x07\x00\x00\x00\x00\x00\x82\x67\xd1\xa1\x59\x90\x19\x1e",
        Err(BipFault::Replayed(7)),
    ),
    (
        b"\x7e\x05\x4c\x10\x04\x00\x00\x01\x00\x00\x00\x00\x8c\x3b\xea\xec\x59\xa5\xad\x2f",
        Ok(2),
    ),
    (
        b"\x7e\x02\x4c\x10\x04\x00\x08\x00\x00\x00\x00\x00\x6e\x80\x98\x21\xff\x7a\xb0\x9a",
        Err(BipFault::Replayed(256)),
    ),
];
