//! Elements of networks that protect management frames: what is written, what is read of it, and
//! with which status RSNEs are refused.

use domain_base::Akm;
use rsn_elements::{
    ElementWriter, Fte, IgtkKde, Within, WrappedGtk, WrappedIgtk, read_elements, rsne_status,
};

// The RSNE with 00-0F-AC:6 and no name of a key, of 28 octets, and with 00-0F-AC:4 and a name, of
// 44.
const PLAIN: [u8; 28] = *b"\x30\x1a\x01\x00\x00\x0f\xac\x04\x01\x00\x00\x0f\xac\x04\
    \x01\x00\x00\x0f\xac\x06\x8c\x00\x00\x00\x00\x0f\xac\x06";

const NAMED: [u8; 44] = *b"\x30\x2a\x01\x00\x00\x0f\xac\x04\x01\x00\x00\x0f\xac\x04\
    \x01\x00\x00\x0f\xac\x04\x8c\x00\x01\x000123456789abcdef\x00\x0f\xac\x06";

const KEY: [u8; 16] = *b"k0k1k2k3k4k5k6k7";

// An IGTK KDE: key id 4, a packet number of six octets.
const KDE: [u8; 30] = *b"\xdd\x1c\x00\x0f\xac\x09\x04\x00\x05\x00\x00\x00\x00\x01k0k1k2k3k4k5k6k7";

const WRAPPED_GTK: [u8; 24] = [b'g'; 24];

const WRAPPED_IGTK: [u8; 24] = [b'i'; 24];

// An FTE with all four subelements: the GTK in 35 octets, and the IGTK last, in 33.
const FTE: [u8; 170] = *b"\x37\xa8\x00\x03mmmmmmmmmmmmmmmm\
    aaaaaaaaaaaaaaaaaaaaaaaaaaaaaaaassssssssssssssssssssssssssssssss\
    \x01\x06\x02\x00\x00\x00\x00\x01\x03\x04r0kh\
    \x02\x23\x01\x00\x10\x09\x00\x00\x00\x00\x00\x00\x00gggggggggggggggggggggggg\
    \x04\x21\x05\x00\x07\x00\x00\x00\x00\x01\x10iiiiiiiiiiiiiiiiiiiiiiii";

fn are_rsnes_written() -> bool {
    let mut plain = [0; 28];
    ElementWriter::over(&mut plain).rsne_mfp(Akm::PskSha256, None);
    let mut named = [0; 44];
    ElementWriter::over(&mut named).rsne_mfp(Akm::FtPsk, Some(b"0123456789abcdef"));
    plain == PLAIN && named == NAMED
}

fn is_kde_written() -> bool {
    let mut out = [0; 30];
    ElementWriter::over(&mut out).igtk_kde(4, 0x0100_0000_0005, &KEY);
    out == KDE
}

fn is_fte_written() -> bool {
    let fte = Fte {
        mic_control: [0, 3],
        mic: [b'm'; 16],
        anonce: [b'a'; 32],
        snonce: [b's'; 32],
        r1kh_id: Some([2, 0, 0, 0, 0, 1]),
        gtk: Some(WrappedGtk {
            information: 1,
            key_length: 16,
            rsc: [9, 0, 0, 0, 0, 0, 0, 0],
            wrapped: &WRAPPED_GTK,
        }),
        r0kh_id: Some(b"r0kh"),
        igtk: Some(WrappedIgtk {
            id: 5,
            ipn: [7, 0, 0, 0, 0, 1],
            key_length: 16,
            wrapped: &WRAPPED_IGTK,
        }),
    };
    let mut out = [0; 170];
    ElementWriter::over(&mut out).fte(&fte);
    out == FTE
}

#[test]
fn igtks_are_written(rt: HostRuntime) {
    assert!(rt; are_rsnes_written() && is_kde_written() && is_fte_written());
}

fn is_kde(kde: Option<IgtkKde<'_>>) -> bool {
    match kde {
        Some(kde) => kde.id == 4 && kde.ipn == [5, 0, 0, 0, 0, 1] && kde.key == KEY.as_slice(),
        None => false,
    }
}

fn is_subelement(igtk: Option<WrappedIgtk<'_>>) -> bool {
    match igtk {
        Some(igtk) => {
            (igtk.id == 5 && igtk.ipn == [7, 0, 0, 0, 0, 1])
                && (igtk.key_length == 16 && igtk.wrapped == WRAPPED_IGTK.as_slice())
        }
        None => false,
    }
}

// What is read of the KDE, within these octets.
fn kde_of(octets: &[u8], within: Within) -> Option<IgtkKde<'_>> {
    match read_elements(octets, within) {
        Ok(elements) => elements.igtk,
        Err(_) => None,
    }
}

fn subelement_of(octets: &[u8]) -> Option<WrappedIgtk<'_>> {
    match read_elements(octets, Within::Body) {
        Ok(elements) => match elements.fte {
            Some(fte) => fte.igtk,
            None => None,
        },
        Err(_) => None,
    }
}

#[test]
fn igtks_are_read(rt: HostRuntime) {
    assert!(rt;
        is_kde(kde_of(&KDE, Within::KeyData))
            && kde_of(&KDE, Within::Body).is_none()
            && is_subelement(subelement_of(&FTE))
    );
}

// RSNEs of peers of a network with 00-0F-AC:6; the status where management frames are protected,
// and where they are not.
type Asked = (&'static [u8], Option<u16>, Option<u16>);

static ASKED: [Asked; 14] = [
    (&PLAIN, None, None),
    // bit 7 clear; bits 6 and 7 set; bit 6 alone
    (
        b"\x30\x1a\x01\x00\x00\x0f\xac\x04\x01\x00\x00\x0f\xac\x04\x01\x00\x00\x0f\xac\x06\
        \x0c\x00\x00\x00\x00\x0f\xac\x06",
        Some(31),
        None,
    ),
    (
        b"\x30\x1a\x01\x00\x00\x0f\xac\x04\x01\x00\x00\x0f\xac\x04\x01\x00\x00\x0f\xac\x06\
        \xcc\x00\x00\x00\x00\x0f\xac\x06",
        None,
        Some(43),
    ),
    (
        b"\x30\x1a\x01\x00\x00\x0f\xac\x04\x01\x00\x00\x0f\xac\x04\x01\x00\x00\x0f\xac\x06\
        \x4c\x00\x00\x00\x00\x0f\xac\x06",
        Some(31),
        Some(43),
    ),
    // capabilities absent; the management suite absent, which counts as BIP-CMAC-128; another one,
    // with bit 7 set and clear
    (
        b"\x30\x12\x01\x00\x00\x0f\xac\x04\x01\x00\x00\x0f\xac\x04\x01\x00\x00\x0f\xac\x06",
        Some(31),
        None,
    ),
    (
        b"\x30\x14\x01\x00\x00\x0f\xac\x04\x01\x00\x00\x0f\xac\x04\x01\x00\x00\x0f\xac\x06\x8c\x00",
        None,
        None,
    ),
    (
        b"\x30\x1a\x01\x00\x00\x0f\xac\x04\x01\x00\x00\x0f\xac\x04\x01\x00\x00\x0f\xac\x06\
        \x8c\x00\x00\x00\x00\x0f\xac\x0b",
        Some(46),
        None,
    ),
    (
        b"\x30\x1a\x01\x00\x00\x0f\xac\x04\x01\x00\x00\x0f\xac\x04\x01\x00\x00\x0f\xac\x06\
        \x0c\x00\x00\x00\x00\x0f\xac\x0b",
        Some(31),
        None,
    ),
    // no AKM, behind a list of pairwise suites, and behind the version; another AKM
    (
        b"\x30\x0e\x01\x00\x00\x0f\xac\x04\x01\x00\x00\x0f\xac\x04\x00\x00",
        Some(43),
        Some(43),
    ),
    (b"\x30\x02\x01\x00", Some(43), Some(43)),
    (
        b"\x30\x1a\x01\x00\x00\x0f\xac\x04\x01\x00\x00\x0f\xac\x04\x01\x00\x00\x0f\xac\x02\
        \x0c\x00\x00\x00\x00\x0f\xac\x06",
        Some(43),
        Some(43),
    ),
    // another pairwise suite; another group suite; no RSNE
    (
        b"\x30\x1a\x01\x00\x00\x0f\xac\x04\x01\x00\x00\x0f\xac\x02\x01\x00\x00\x0f\xac\x02\
        \x0c\x00\x00\x00\x00\x0f\xac\x06",
        Some(42),
        Some(42),
    ),
    (
        b"\x30\x1a\x01\x00\x00\x0f\xac\x02\x01\x00\x00\x0f\xac\x02\x01\x00\x00\x0f\xac\x02\
        \x0c\x00\x00\x00\x00\x0f\xac\x06",
        Some(41),
        Some(41),
    ),
    (b"", Some(41), Some(41)),
];

fn is_answered(octets: &[u8], protected: Option<u16>, open_frames: Option<u16>) -> bool {
    match read_elements(octets, Within::Body) {
        Ok(elements) => {
            rsne_status(true, Akm::PskSha256, elements.rsne) == protected
                && rsne_status(false, Akm::PskSha256, elements.rsne) == open_frames
        }
        Err(_) => false,
    }
}

#[test]
fn rsnes_are_refused(rt: HostRuntime) {
    for (octets, protected, open_frames) in &ASKED {
        assert!(rt;
            is_answered(octets, *protected, *open_frames),
            "at {octets:?}"
        );
    }
}
