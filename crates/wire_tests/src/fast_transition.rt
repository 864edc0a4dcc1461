//! MICs of FTEs, as a second program computed them.

use domain_base::{Akm, Mac};
use mac_prf::{FteCovered, KeptMicKey, Reassociation, fte_mic, verify_fte_mic};

const ACCESS_POINT: Mac = Mac([2, 0, 0, 0, 0, 2]);

const STATION: Mac = Mac([2, 0, 0, 0, 0, 0x11]);

const KCK: [u8; 16] = *b"\xd6\x7e\xb7\x3a\x8c\xca\x98\x89\x31\x19\x7c\xca\x40\xab\x87\x36";

// An RSNE with a management suite and octets behind it, and an FTE whose MIC control begins with 5,
// with a subelement that is passed over and the others in another order; their MICs.
const RSNE: [u8; 46] =
    *b"\x30\x2c\x01\x00\x00\x0f\xac\x04\x01\x00\x00\x0f\xac\x04\x01\x00\x00\x0f\xac\x04\x8c\
    \x00\x01\x00\xc9\xba\x96\xe5\x43\x80\x18\xb1\xde\x09\x79\xd6\xe6\x56\xce\x71\x00\x0f\
    \xac\x06\xff\xff";

const FTE: [u8; 105] =
    *b"\x37\x67\x05\x03\xaa\xaa\xaa\xaa\xaa\xaa\xaa\xaa\xaa\xaa\xaa\xaa\xaa\xaa\xaa\xaa\xbf\
    \x8a\x3d\x65\x57\x2d\x3c\xaa\x5e\x6a\xc4\x92\xe2\x95\x93\x6d\x3d\x77\xf8\x4e\x4e\xc7\
    \x29\xa3\xba\x21\x37\x97\xc6\xee\xc5\x35\x3b\x03\x7b\xb2\xd5\x84\x1f\x3f\xc6\xcb\x80\
    \xb7\x63\x22\xac\xef\x23\xe5\x87\x64\xa0\xc4\xfd\x6f\xe3\xe8\xfc\x06\xd2\x4a\xf5\xa8\
    \x03\x06\x72\x30\x6b\x68\x2d\x31\x09\x03\x78\x79\x7a\x01\x06\x02\x00\x00\x00\x00\x02";

const REQUEST_MIC: [u8; 16] = *b"\xbd\xaf\x30\x15\x2e\xe4\x9f\xbb\xb6\x8a\xac\xb6\x00\x03\xea\x8a";

const RESPONSE_MIC: [u8; 16] = *b"\x2b\xcb\xeb\xf3\x6e\xbb\x69\x58\x36\x3f\xe5\xe3\x10\x7e\xf8\xb4";

// The MIC is that of elements as they came, with all that stands in them, and stands not in the FTE.
fn is_mic(frame: Reassociation, mic: &[u8; 16]) -> bool {
    let covered = FteCovered {
        station: STATION,
        bssid: ACCESS_POINT,
        frame,
        rsne: &RSNE,
        mde: b"\x36\x03\xa1\xb2\x00",
        fte: &FTE,
    };
    let none = KeptMicKey::none();
    let mut kept = KeptMicKey::none();
    kept.keep(Akm::FtPsk, &KCK);
    fte_mic(&none, &KCK, &covered) == *mic
        && fte_mic(&kept, &KCK, &covered) == *mic
        && !verify_fte_mic(&kept, &KCK, &covered)
}

#[test]
fn mics_are_those_of_whole_elements(rt: HostRuntime) {
    assert!(rt;
        is_mic(Reassociation::Request, &REQUEST_MIC)
            && is_mic(Reassociation::Response, &RESPONSE_MIC)
    );
}
