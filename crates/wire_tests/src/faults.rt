//! Octets that are cut, lie about a length or are outside the profile: the first fault that each
//! reader answers, and what lies next to it and is none.

use air_frame::{AirFault, AirFrame};
use rsn_elements::{Elements, Within};

// Whose octets they are.
#[derive(Clone, Copy)]
enum Reader {
    Air,
    EapolKey,
    Elements(Within),
}

// Whether there is something: a frame that is not passed over, in a body an FTE, in key data any
// element. Or the number of the first fault's kind, and its place or, where that is outside the
// profile, its code.
type Answer = Result<bool, (u8, usize)>;

// A reader, its octets (those in front, so many zeros, and those after them), and its answer.
type Case = (Reader, &'static [u8], usize, &'static [u8], Answer);

const AIR: Reader = Reader::Air;

const EAPOL_KEY: Reader = Reader::EapolKey;

const BODY: Reader = Reader::Elements(Within::Body);

const KEY_DATA: Reader = Reader::Elements(Within::KeyData);

// IEEE Std 802.11-2020: 9.2.4 for air frames, 12.7.2 for EAPOL-Key frames and key data, 9.4.2 for
// elements.
static CASES: [Case; 51] = [
    // less than a Frame Control field; another version
    (AIR, b"\x08", 0, b"", Err((1, 1))),
    (AIR, b"\x01\x00", 0, b"", Err((2, 0))),
    // data: both bits of the direction, more fragments, an HT Control field, a fragment number, an
    // A-MSDU, in the clear
    (AIR, b"\x08\x03", 22, b"", Err((3, 8))),
    (AIR, b"\x08\x05", 22, b"", Err((3, 10))),
    (AIR, b"\x88\x81", 24, b"", Err((3, 15))),
    (AIR, b"\x08\x01", 20, b"\x01\x00", Err((3, 16))),
    (AIR, b"\x88\x01", 22, b"\x80\x00", Err((3, 17))),
    (AIR, b"\x08\x01", 22, b"", Err((3, 18))),
    // protected data: of 15 octets, and of 16 without ExtIV
    (AIR, b"\x08\x41", 37, b"", Err((4, 24))),
    (AIR, b"\x08\x41", 38, b"", Err((3, 20))),
    // authentication: protected, without its fields, of another algorithm; an acknowledgement
    (AIR, b"\xb0\x40", 22, b"", Err((3, 14))),
    (AIR, b"\xb0\x00", 22, b"", Err((4, 24))),
    (AIR, b"\xb0\x00", 22, b"\x00\x00\x01\x00\x00\x00", Ok(false)),
    (AIR, b"\xd4\x00\x00\x00\x02", 4, b"\x11", Ok(false)),
    // action: to a group, ended inside the address, and behind it; to one receiver
    (AIR, b"\xd0\x00\x00\x00\x01", 4, b"", Ok(false)),
    (AIR, b"\xd0\x00\x00\x00\x01", 5, b"", Err((1, 10))),
    (AIR, b"\xd0\x00\x00\x00\x02", 40, b"", Ok(false)),
    // action to a group: protected, without an MME, with an MME alone, of another length, behind an
    // octet
    (AIR, b"\xd0\x40\x00\x00\x01", 19, b"", Err((3, 14))),
    (AIR, b"\xd0\x00\x00\x00\x01", 38, b"", Err((4, 24))),
    (
        AIR,
        b"\xd0\x00\x00\x00\xff\xff\xff\xff\xff\xff\x02\0\0\0\0\x01\x02\0\0\0\0\x01\0\0\x4c\x10",
        16,
        b"",
        Err((4, 24)),
    ),
    (
        AIR,
        b"\xd0\x00\x00\x00\xff\xff\xff\xff\xff\xff\x02\0\0\0\0\x01\x02\0\0\0\0\x01\0\0\x7e\x4c\x11",
        16,
        b"",
        Err((4, 24)),
    ),
    (
        AIR,
        b"\xd0\x00\x00\x00\xff\xff\xff\xff\xff\xff\x02\0\0\0\0\x01\x02\0\0\0\0\x01\0\0\x7e\x4c\x10",
        16,
        b"",
        Ok(true),
    ),
    // less than an EAPOL header; EAPOL version 4; another packet type
    (EAPOL_KEY, b"\x02", 0, b"", Err((1, 1))),
    (EAPOL_KEY, b"\x04\x03", 2, b"", Err((2, 0))),
    (EAPOL_KEY, b"\x02", 3, b"", Err((2, 1))),
    // a body that is too short, one that is not there; another descriptor; key data past the body
    (EAPOL_KEY, b"\x02\x03\x00\x5e", 94, b"", Err((4, 2))),
    (EAPOL_KEY, b"\x02\x03\x00\x5f", 0, b"", Err((4, 2))),
    (EAPOL_KEY, b"\x02\x03\x00\x5f\x01", 94, b"", Err((3, 4))),
    (
        EAPOL_KEY,
        b"\x02\x03\x00\x5f\x02",
        92,
        b"\x00\x01",
        Err((5, 97)),
    ),
    // an RSNE: truncated, ended inside a field, of another version; two of them
    (BODY, b"\x30\x14", 0, b"", Err((1, 0))),
    (BODY, b"\x30\x05\x01\x00\x00\x0f\xac", 0, b"", Err((2, 0))),
    (
        BODY,
        b"\x30\x06\x02\x00\x00\x0f\xac\x04",
        0,
        b"",
        Err((3, 0)),
    ),
    (
        BODY,
        b"\x30\x14\x01\x00\x00\x0f\xac\x04\x01\x00\x00\x0f\xac\x04\x01\x00\x00\x0f\xac\x02\x0c\x00\
        \x30\x14\x01\x00\x00\x0f\xac\x04\x01\x00\x00\x0f\xac\x04\x01\x00\x00\x0f\xac\x02\x0c\x00",
        0,
        b"",
        Err((4, 22)),
    ),
    // an MDE of two octets; two MDEs
    (BODY, b"\x36\x02\xa1\xb2", 0, b"", Err((2, 0))),
    (
        BODY,
        b"\x36\x03\xa1\xb2\x00\x36\x03\xa1\xb2\x00",
        0,
        b"",
        Err((4, 5)),
    ),
    // an FTE that lacks an octet, one without subelements, one whose first subelement is past its
    // end, one with an R0KH-ID of no octet
    (BODY, b"\x37\x51", 81, b"", Err((2, 0))),
    (BODY, b"\x37\x52", 82, b"", Ok(true)),
    (BODY, b"\x37\x54", 82, b"\x01\x05", Err((5, 84))),
    (BODY, b"\x37\x54", 82, b"\x03\x00", Err((5, 84))),
    // subelement 4 of eight octets, and of nine; two of them
    (
        BODY,
        b"\x37\x5c",
        82,
        b"\x04\x08\0\0\0\0\0\0\0\0",
        Err((5, 84)),
    ),
    (
        BODY,
        b"\x37\x5d",
        82,
        b"\x04\x09\0\0\0\0\0\0\0\0\0",
        Ok(true),
    ),
    (
        BODY,
        b"\x37\x68",
        82,
        b"\x04\x09\0\0\0\0\0\0\0\0\0\x04\x09\0\0\0\0\0\0\0\0\0",
        Err((4, 95)),
    ),
    // padding, which ends key data and no body of a frame; a GTK KDE without all of its fields
    (BODY, b"\xdd", 0, b"", Err((1, 0))),
    (KEY_DATA, b"\xdd", 0, b"", Ok(false)),
    (
        KEY_DATA,
        b"\xdd\x05\x00\x0f\xac\x01\x00",
        0,
        b"",
        Err((2, 0)),
    ),
    // an IGTK KDE without all of its fields, in key data and in a body; with an empty key; two of
    // them; one behind a GTK KDE; a KDE of another type
    (KEY_DATA, b"\xdd\x0b\x00\x0f\xac\x09", 7, b"", Err((2, 0))),
    (BODY, b"\xdd\x0b\x00\x0f\xac\x09", 7, b"", Ok(false)),
    (KEY_DATA, b"\xdd\x0c\x00\x0f\xac\x09", 8, b"", Ok(true)),
    (
        KEY_DATA,
        b"\xdd\x0c\x00\x0f\xac\x09\x04\0\0\0\0\0\0\0\xdd\x0c\x00\x0f\xac\x09",
        8,
        b"",
        Err((4, 14)),
    ),
    (
        KEY_DATA,
        b"\xdd\x06\x00\x0f\xac\x01\x01\x00\xdd\x0c\x00\x0f\xac\x09",
        8,
        b"",
        Ok(true),
    ),
    (KEY_DATA, b"\xdd\x05\x00\x0f\xac\x0a", 1, b"", Ok(false)),
];

fn air(octets: &[u8]) -> Answer {
    match air_frame::read(octets) {
        Ok(AirFrame::Ignored) => Ok(false),
        Ok(_) => Ok(true),
        Err(AirFault::Short(place)) => Err((1, place)),
        Err(AirFault::Version) => Err((2, 0)),
        Err(AirFault::OutOfProfile(code)) => Err((3, code as usize)),
        Err(AirFault::Body(place)) => Err((4, place)),
    }
}

fn eapol_key(octets: &[u8]) -> Answer {
    match eapol_key::read(octets) {
        Ok(_) => Ok(true),
        Err(fault) => Err((fault.kind.code(), fault.place)),
    }
}

fn says_anything(elements: &Elements<'_>) -> bool {
    elements.rsne.is_some()
        || elements.mde.is_some()
        || elements.fte.is_some()
        || elements.gtk.is_some()
        || elements.igtk.is_some()
        || elements.deadline.is_some()
        || elements.lifetime.is_some()
}

fn elements(octets: &[u8], within: Within) -> Answer {
    match rsn_elements::read_elements(octets, within) {
        Ok(elements) => Ok(match within {
            Within::Body => elements.fte.is_some(),
            Within::KeyData => says_anything(&elements),
        }),
        Err(fault) => Err((fault.kind.code(), fault.place)),
    }
}

fn is_answered(case: &Case) -> bool {
    let (reader, front, zeros, after, answer) = *case;
    if front.len() > 44 || zeros > 94 || after.len() > 22 {
        return false;
    }
    let mut octets = [0; 160];
    let at = front.len() + zeros;
    let end = at + after.len();
    octets[..front.len()].copy_from_slice(front);
    octets[at..end].copy_from_slice(after);
    let octets = &octets[..end];
    let given = match reader {
        Reader::Air => air(octets),
        Reader::EapolKey => eapol_key(octets),
        Reader::Elements(within) => elements(octets, within),
    };
    given == answer
}

#[test]
fn first_fault_is_answered(rt: HostRuntime) {
    for case in &CASES {
        let (_, front, zeros, after, _) = case;
        assert!(rt; is_answered(case), "at {front:?}, {zeros} zeros, {after:?}");
    }
}
