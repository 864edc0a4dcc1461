//! Frames written by hand, read and written back.

use air_frame::{AirFrame, is_action, read, write};

const ASSOC_REQ: &[u8] = b"\0\0\0\0\x02\0\0\0\0\x01\x02\0\0\0\0\x11\x02\0\0\0\0\x01\0\0\
    \x11\0\x0a\0\0\x04IEEE";

const ASSOC_RESP: &[u8] = b"\x10\0\0\0\x02\0\0\0\0\x11\x02\0\0\0\0\x01\x02\0\0\0\0\x01\0\0\
    \x11\0\0\0\x01\xc0\x01\x04\x82\x84\x8b\x96";

const RE_REQ: &[u8] = b"\x20\0\0\0\x02\0\0\0\0\x01\x02\0\0\0\0\x11\x02\0\0\0\0\x01\0\0\
    \x11\0\x0a\0\x02\0\0\0\0\x02\x36\x03\xa1\xb2\0";

const RE_RESP: &[u8] = b"\x30\0\0\0\x02\0\0\0\0\x11\x02\0\0\0\0\x01\x02\0\0\0\0\x01\0\0\
    \x11\0\x35\0\0\0";

const FT_REQ: &[u8] = b"\xb0\0\0\0\x02\0\0\0\0\x01\x02\0\0\0\0\x11\x02\0\0\0\0\x01\0\0\
    \x02\0\x01\0\0\0\x36\x03\xa1\xb2\0";

const FT_RESP: &[u8] = b"\xb0\0\0\0\x02\0\0\0\0\x11\x02\0\0\0\0\x01\x02\0\0\0\0\x01\0\0\
    \x02\0\x02\0\x35\0";

const EAPOL: &[u8] = b"\x08\x02\0\0\x02\0\0\0\0\x11\x02\0\0\0\0\x01\x02\0\0\0\0\x01\0\0\
    \xaa\xaa\x03\0\0\0\x88\x8e\x02\x03\0\x5f";

const QOS_EAPOL: &[u8] = b"\x88\x01\0\0\x02\0\0\0\0\x01\x02\0\0\0\0\x11\x02\0\0\0\0\x01\0\0\x05\0\
    \xaa\xaa\x03\0\0\0\x88\x8e\x02\x03\0\x5f";

// The body 7e 01, and an MME with key id 4 and packet number 1.
const ACTION: &[u8] = b"\xd0\0\0\0\xff\xff\xff\xff\xff\xff\x02\0\0\0\0\x01\x02\0\0\0\0\x01\0\0\
    \x7e\x01\x4c\x10\x04\0\x01\0\0\0\0\0\x11\x22\x33\x44\x55\x66\x77\x88";

const SEALED: &[u8] = b"\x08\x42\0\0\xff\xff\xff\xff\xff\xff\x02\0\0\0\0\x01\x02\0\0\0\0\x01\0\0\
    \x01\0\0\x60\0\0\0\0\x11\x22\x33\x44\x55\x66\x77\x88";

const QOS_SEALED: &[u8] = b"\x88\x41\0\0\x02\0\0\0\0\x01\x02\0\0\0\0\x11\x02\0\0\0\0\x01\0\0\x05\0\
    \x01\0\0\x20\0\0\0\0\x11\x22\x33\x44\x55\x66\x77\x88";

// That message, cut behind the LLC and SNAP header.
const BARE_EAPOL: &[u8] = b"\x08\x02\0\0\x02\0\0\0\0\x11\x02\0\0\0\0\x01\x02\0\0\0\0\x01\0\0\
    \xaa\xaa\x03\0\0\0\x88\x8e";

static FRAMES: [&[u8]; 12] = [
    ASSOC_REQ, ASSOC_RESP, RE_REQ, RE_RESP, FT_REQ, FT_RESP, EAPOL, QOS_EAPOL, SEALED, QOS_SEALED,
    BARE_EAPOL, ACTION,
];

// The frame that the octets are is written as it was read.
fn is_written_as_read(octets: &[u8]) -> bool {
    if octets.len() > 64 {
        return false;
    }
    let mut out = [0; 64];
    match read(octets) {
        Err(_) | Ok(AirFrame::Ignored) => false,
        Ok(frame) => {
            let len = write(&frame, &mut out);
            &out[..len] == octets
        }
    }
}

#[test]
fn frames_are_read_and_written_back(rt: HostRuntime) {
    for octets in &FRAMES {
        assert!(rt; is_written_as_read(octets), "at {octets:?}");
    }
}

// Frames, and whether they are of action frames, by the first octet alone.
static BY_FIRST_OCTET: [(&[u8], bool); 7] = [
    (ACTION, true),
    (b"\xd0\x01", true),
    (b"\xd0", true),
    (b"\xd1\0\0\0", false),
    (b"\xc0\0\0\0", false),
    (FT_REQ, false),
    (b"", false),
];

#[test]
fn action_frames_are_told_by_the_first_octet(rt: HostRuntime) {
    for (octets, is) in &BY_FIRST_OCTET {
        assert!(rt; is_action(octets) == *is, "at {octets:?}");
    }
}
