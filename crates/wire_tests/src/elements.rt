//! RSN elements, and lists of suites and of names of keys.

use rsn_elements::{Pmkids, Rsne, Suites, Within, read_elements};

// An RSNE with every field up to the capabilities, and the AKM suite that it names.
const RSNE: &[u8] =
    b"\x30\x14\x01\x00\x00\x0f\xac\x04\x01\x00\x00\x0f\xac\x04\x01\x00\x00\x0f\xac\x02\x0c\x00";

// The first with bit 7 of the capabilities: protection of management frames is offered.
const MFP_CAPABLE: &[u8] =
    b"\x30\x14\x01\x00\x00\x0f\xac\x04\x01\x00\x00\x0f\xac\x04\x01\x00\x00\x0f\xac\x02\x8c\x00";

const PSK: [u8; 4] = [0x00, 0x0f, 0xac, 0x02];

// RSNEs, and the only AKM suite of each, if there is one: whole, and ended after the version and after
// the group suite.
static RSNES: [(&[u8], Option<[u8; 4]>); 4] = [
    (RSNE, Some(PSK)),
    (MFP_CAPABLE, Some(PSK)),
    (b"\x30\x02\x01\x00", None),
    (b"\x30\x06\x01\x00\x00\x0f\xac\x04", None),
];

fn akm_of(rsne: &Rsne<'_>) -> Option<[u8; 4]> {
    match rsne.akms {
        Some(akms) if akms.count() == 1 => akms.get(0),
        Some(_) | None => None,
    }
}

fn is_read(octets: &[u8], akm: Option<[u8; 4]>) -> bool {
    match read_elements(octets, Within::Body) {
        Ok(elements) => match elements.rsne {
            Some(rsne) => akm_of(&rsne) == akm,
            None => false,
        },
        Err(_) => false,
    }
}

#[test]
fn rsnes_are_read(rt: HostRuntime) {
    for (octets, akm) in &RSNES {
        assert!(rt; is_read(octets, *akm), "at {octets:?}");
    }
}

#[test]
fn members_of_lists(rt: HostRuntime) {
    let names = Pmkids(b"0123456789abcdef");
    let suites = Suites(b"\x00\x0f\xac\x04\x00\x0f\xac\x02");
    assert!(rt;
        (names.count() == 1 && names.get(0) == Some(*b"0123456789abcdef"))
            && (suites.count() == 2 && suites.get(1) == Some([0x00, 0x0f, 0xac, 0x02]))
    );
}
