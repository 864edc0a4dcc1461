//! Keys of captured handshakes and of the standard, and the hierarchy of fast transition.

ghost use Rattle.key_hierarchy.specs.Sizes.{IsSsid, IsR0khId};

use domain_base::{Akm, Mac, put};
use key_hierarchy::{LastDerived, PmkR0, Ptk, pairwise_ptk, psk_of, ptk_from_r1, ptk_name};
use std::test::*;

// 32 octets as two numbers, highest octet first.
type Halves = [u128; 2];

// What a pairwise transient key is made of, and its KCK, KEK and TK.
struct Handshake {
    akm: Akm,
    psk: Halves,
    ssid: &'static [u8],
    mdid: [u8; 2],
    r0kh_id: &'static [u8],
    aa: [u8; 6],
    spa: [u8; 6],
    anonce: Halves,
    snonce: Halves,
    ptk: [u128; 3],
}

// The keys of both levels of the FT key hierarchy, and PTKName.
struct Levels {
    r0: Halves,
    r1: Halves,
    ptk_name: u128,
}

// A handshake with the names of both levels, and with their keys where they are known.
struct Roam {
    handshake: Handshake,
    r0_name: u128,
    r1_name: u128,
    levels: Option<Levels>,
}

// The key of the passphrase "password" and the SSID "IEEE" (IEEE Std 802.11-2020, J.4).
const STANDARD_PSK: Halves = [
    0xf42c6fc52df0ebef9ebb4b90b38a5f90,
    0x2e83fe1b135a70e23aed762e9710a12e,
];

// The SSID of a capture of fast transition, and the key of the passphrase "12345678" with it, by
// Python's hashlib.
const CAPTURED_SSID: &[u8] = b"wireshark-ft-psk";

const CAPTURED_PSK: Halves = [
    0xb71e6f3bacf0de61e944d96e2521d556,
    0x72fed40b17bca0d76a7f7d547f6bd8d2,
];

// The longest SSID, and the longest R0KH-ID.
const LONG_SSID: &[u8] = b"abcdefghijklmnopqrstuvwxyzabcdef";

const LONG_R0KH_ID: &[u8] = b"0123456789:;<=>?@ABCDEFGHIJKLMNOPQRSTUVWXYZ[\\]^_";

// Two captures, and the second with the two ends exchanged, which gives the same key.
static HANDSHAKES: [Handshake; 3] = [
    Handshake {
        akm: Akm::Psk,
        psk: [
            0xa288fcf0caaacda9a9f58633ff35e899,
            0x2a01d9c10ba5e02efdf8cb5d730ce7bc,
        ],
        ssid: b"Coherer",
        mdid: [0, 0],
        r0kh_id: b"",
        aa: [0x00, 0x0c, 0x41, 0x82, 0xb2, 0x55],
        spa: [0x00, 0x0d, 0x93, 0x82, 0x36, 0x3a],
        anonce: [
            0x3e8e967dacd960324cac5b6aa721235b,
            0xf57b949771c867989f49d04ed47c6933,
        ],
        snonce: [
            0xcdf405ceb9d889ef3dec42609828fae5,
            0x46b7add7baecbb1a394eac5214b1d386,
        ],
        ptk: [
            0xb1cd792716762903f723424cd7d16511,
            0x82a644133bfa4e0b75d96d2308358433,
            0x15798d511beae0028313c8ab32f12c7e,
        ],
    },
    Handshake {
        akm: Akm::PskSha256,
        psk: [
            0x3c9afdcc3087285e6729f6f9b4fe4b00,
            0x7c5c370585970a858da474004f5a389c,
        ],
        ssid: b"Wireshark-pmf",
        mdid: [0, 0],
        r0kh_id: b"",
        aa: [0x02, 0x00, 0x00, 0x00, 0x00, 0x00],
        spa: [0x02, 0x00, 0x00, 0x00, 0x02, 0x00],
        anonce: [
            0xd68cc9cb94b995a174a8f6d270b330c0,
            0x87d4eea657d2586f89e3b724f15e9411,
        ],
        snonce: [
            0xc89b73d93ee6a79cfa7f911510959e61,
            0xc547325326f6f4863bf87e5ba9b21741,
        ],
        ptk: [
            0x46f620285d4676ddd6438cb00b3a77ec,
            0xd4c059ba60a639d003caeffa65cd8c0b,
            0x4e30e8c019bea43ea5262b10853b818d,
        ],
    },
    Handshake {
        akm: Akm::PskSha256,
        psk: [
            0x3c9afdcc3087285e6729f6f9b4fe4b00,
            0x7c5c370585970a858da474004f5a389c,
        ],
        ssid: b"Wireshark-pmf",
        mdid: [0, 0],
        r0kh_id: b"",
        aa: [0x02, 0x00, 0x00, 0x00, 0x02, 0x00],
        spa: [0x02, 0x00, 0x00, 0x00, 0x00, 0x00],
        anonce: [
            0xc89b73d93ee6a79cfa7f911510959e61,
            0xc547325326f6f4863bf87e5ba9b21741,
        ],
        snonce: [
            0xd68cc9cb94b995a174a8f6d270b330c0,
            0x87d4eea657d2586f89e3b724f15e9411,
        ],
        ptk: [
            0x46f620285d4676ddd6438cb00b3a77ec,
            0xd4c059ba60a639d003caeffa65cd8c0b,
            0x4e30e8c019bea43ea5262b10853b818d,
        ],
    },
];

// First one capture of a station that associates with an access point by the four-way handshake, and
// moves to a second one by fast transition: names and keys are those of the devices that took part.
static ROAMS: [Roam; 4] = [
    Roam {
        handshake: Handshake {
            akm: Akm::FtPsk,
            psk: CAPTURED_PSK,
            ssid: CAPTURED_SSID,
            mdid: [0x01, 0x02],
            r0kh_id: b"kanstrup-ft",
            aa: [0x02, 0x00, 0x00, 0x00, 0x00, 0x00],
            spa: [0x02, 0x00, 0x00, 0x00, 0x02, 0x00],
            anonce: [
                0xf81b3ec23bbb36bcb0abe8ea8873667d,
                0x4fd7e9b9cf2f6021003b91075eba21d9,
            ],
            snonce: [
                0x19f19721a13d50a66725eca2d90f3589,
                0xffc675e317b66b8b0cbe02fe0774cb22,
            ],
            ptk: [
                0x721d5d3a1b24a4580e4e84f445966796,
                0xe19c3ed13407f33fcce63bb36c61d7db,
                0xba60c7be2944e18f31949508a53ee9d6,
            ],
        },
        r0_name: 0xccfb899605e2f69a58001b43662ad588,
        r1_name: 0x94a8eeb64f69df004cc5dc5e99c31ec0,
        levels: None,
    },
    Roam {
        handshake: Handshake {
            akm: Akm::FtPsk,
            psk: CAPTURED_PSK,
            ssid: CAPTURED_SSID,
            mdid: [0x01, 0x02],
            r0kh_id: b"kanstrup-ft",
            aa: [0x02, 0x00, 0x00, 0x00, 0x01, 0x00],
            spa: [0x02, 0x00, 0x00, 0x00, 0x02, 0x00],
            anonce: [
                0xf4bbc882a577bff008b9931915555310,
                0x74af3125c034addeb2605f89b0286461,
            ],
            snonce: [
                0xbc89c2f487a4e4a9dafa0c748f0e8f15,
                0x03ab57fcacc623d6cce33c13ecdb826f,
            ],
            ptk: [
                0x7900a9e91a5fe008096fb289f65f4c21,
                0x98b35acff49cd5aa80c8b0a8432b172b,
                0xa6a3304e5a8fabe0dc427cc41a707858,
            ],
        },
        r0_name: 0xccfb899605e2f69a58001b43662ad588,
        r1_name: 0x685b0e6bb2b369760656c4b3e5a3cfd0,
        levels: None,
    },
    // These were computed by another program, with Python's hmac and hashlib.
    Roam {
        handshake: Handshake {
            akm: Akm::FtPsk,
            psk: [
                0x000102030405060708090a0b0c0d0e0f,
                0x101112131415161718191a1b1c1d1e1f,
            ],
            ssid: b"IEEE",
            mdid: [0xa1, 0xb2],
            r0kh_id: b"r0kh-1",
            aa: [0x02, 0x00, 0x00, 0x00, 0x00, 0x01],
            spa: [0x02, 0x00, 0x00, 0x00, 0x00, 0x11],
            anonce: [
                0x404142434445464748494a4b4c4d4e4f,
                0x505152535455565758595a5b5c5d5e5f,
            ],
            snonce: [
                0x808182838485868788898a8b8c8d8e8f,
                0x909192939495969798999a9b9c9d9e9f,
            ],
            ptk: [
                0xb92f0b8f8fa5e58920b67f5ae5a71433,
                0xb4d0de7ba89ddc3112075a73d4481110,
                0x853b4904431be6dd19f9f734710425e5,
            ],
        },
        r0_name: 0x603989803659d93291dd156077a312d4,
        r1_name: 0xeb73bcbd882aeb8d7fe62ce6fea220a9,
        levels: Some(Levels {
            r0: [
                0xc8fc0ed6b503db8d5690db3b491a68c6,
                0xf3e3ea7b66f16edb5acf6ab9f95adfb7,
            ],
            r1: [
                0xb7d16c74e769baa444194fdac08f6efc,
                0xf27c97af734bcd45705711208db3b3cd,
            ],
            ptk_name: 0x3ded84dc229f69d838af3f509cf6c8ac,
        }),
    },
    Roam {
        handshake: Handshake {
            akm: Akm::FtPsk,
            psk: STANDARD_PSK,
            ssid: LONG_SSID,
            mdid: [0x00, 0x01],
            r0kh_id: LONG_R0KH_ID,
            aa: [0x02, 0x00, 0x00, 0x00, 0x00, 0x02],
            spa: [0x02, 0x00, 0x00, 0x00, 0x00, 0x12],
            anonce: [
                0xfffefdfcfbfaf9f8f7f6f5f4f3f2f1f0,
                0xefeeedecebeae9e8e7e6e5e4e3e2e1e0,
            ],
            snonce: [
                0x0104070a0d101316191c1f2225282b2e,
                0x3134373a3d404346494c4f5255585b5e,
            ],
            ptk: [
                0x316f1093674a818d23adc0d4ce005f7c,
                0x7586416572d2eb2bae2a67e69988e3e7,
                0xf72efce611753e78307e4d38e8d5e08b,
            ],
        },
        r0_name: 0x6930962aef3504143b06f0a81bef9d0a,
        r1_name: 0xb89951a04508c66f757979cb3424d472,
        levels: Some(Levels {
            r0: [
                0x7bff68407a0ce30c3b16e69c1f9d5f31,
                0xc1e071a48017740a5bd9d43577fa79e7,
            ],
            r1: [
                0x256a87ef4ec39070029f40be01951423,
                0xd247fabe39fa0d3e7979cf46062ed9ca,
            ],
            ptk_name: 0x123cb7632373f9c82ebf32c1a8bf141f,
        }),
    },
];

/// The 32 octets of two numbers.
pub fn octets(halves: [u128; 2]) -> [u8; 32] {
    let mut out = [0; 32];
    let end = put(&mut out, 0, &halves[0].to_be_bytes());
    put(&mut out, end, &halves[1].to_be_bytes());
    out
}

fn parts(ptk: &Ptk) -> [u128; 3] {
    [
        u128::from_be_bytes(ptk.kck),
        u128::from_be_bytes(ptk.kek),
        u128::from_be_bytes(ptk.tk),
    ]
}

// Of suite 2 or 6.
fn is_pairwise(h: &Handshake) -> bool {
    if h.akm == Akm::FtPsk {
        return false;
    }
    let (psk, anonce, snonce) = (octets(h.psk), octets(h.anonce), octets(h.snonce));
    let ptk = pairwise_ptk(h.akm, &psk, Mac(h.aa), Mac(h.spa), &anonce, &snonce);
    parts(&ptk) == h.ptk && (h.akm == Akm::Psk || is_by_the_last_psk(h))
}

// Of suite 6: the key is that of its pre-shared key, whichever was the last one.
fn is_by_the_last_psk(h: &Handshake) -> bool {
    let (aa, spa, anonce, snonce) = (Mac(h.aa), Mac(h.spa), octets(h.anonce), octets(h.snonce));
    let (psk, other) = (octets(h.psk), octets([h.psk[0], h.psk[1] ^ 1]));
    let mut derived = LastDerived::none();
    let first = derived.sha256_ptk(&psk, aa, spa, &anonce, &snonce);
    let again = derived.sha256_ptk(&psk, aa, spa, &anonce, &snonce);
    let of_another = derived.sha256_ptk(&other, aa, spa, &anonce, &snonce);
    let last = derived.sha256_ptk(&psk, aa, spa, &anonce, &snonce);
    parts(&first) == h.ptk
        && parts(&again) == h.ptk
        && parts(&of_another) != h.ptk
        && parts(&last) == h.ptk
}

// The names of both levels, the key of the last one by its own function, and the keys and PTKName
// that are known.
fn is_transition(roam: &Roam) -> bool
    requires ssid { IsSsid roam.now.handshake.ssid.now }
    requires r0kh_id { IsR0khId roam.now.handshake.r0kh_id.now }
{
    let h = &roam.handshake;
    let (aa, spa, anonce, snonce) = (Mac(h.aa), Mac(h.spa), octets(h.anonce), octets(h.snonce));
    let (ssid, r0kh_id) = (h.ssid, h.r0kh_id);
    let r0 = PmkR0::derive(&octets(h.psk), ssid, h.mdid, r0kh_id, spa);
    let r1 = r0.r1(aa, spa);
    let ptk = ptk_from_r1(&r1, &snonce, &anonce, aa, spa);
    if parts(&ptk) != h.ptk || r0.name() != roam.r0_name.to_be_bytes() {
        return false;
    }
    let name = ptk_name(&r1, &snonce, &anonce, aa, spa);
    let is_known = match &roam.levels {
        Some(levels) => {
            (r0.key == octets(levels.r0) && r1.key == octets(levels.r1))
                && name == levels.ptk_name.to_be_bytes()
        }
        None => true,
    };
    is_known && r1.name() == roam.r1_name.to_be_bytes()
}

// The last keys are given again to the same station alone.
fn are_kept(roam: &Roam) -> bool
    requires ssid { IsSsid roam.now.handshake.ssid.now }
    requires r0kh_id { IsR0khId roam.now.handshake.r0kh_id.now }
{
    let h = &roam.handshake;
    let (aa, spa, psk) = (Mac(h.aa), Mac(h.spa), octets(h.psk));
    let (ssid, r0kh_id) = (h.ssid, h.r0kh_id);
    let mut derived = LastDerived::none();
    let first = derived.keep_r0(&psk, ssid, h.mdid, r0kh_id, spa);
    let again = derived.r0(&psk, ssid, h.mdid, r0kh_id, spa);
    let other = derived.r0(&psk, ssid, h.mdid, r0kh_id, aa);
    let (name, r1_name) = (roam.r0_name.to_be_bytes(), roam.r1_name.to_be_bytes());
    let (one, two) = (
        derived.keep_r1(&first, aa, spa),
        derived.keep_r1(&again, aa, spa),
    );
    first.name() == name
        && again.name() == name
        && other.name() != name
        && one.name() == r1_name
        && two.name() == r1_name
        && derived.keep_r1(&other, aa, spa).name() != r1_name
}

fn roams(roam: &Roam) -> bool {
    let (ssid, r0kh_id) = (roam.handshake.ssid, roam.handshake.r0kh_id);
    (1..=32).contains(&ssid.len())
        && (1..=48).contains(&r0kh_id.len())
        && is_transition(roam)
        && are_kept(roam)
}

// Of passphrases, and of captured handshakes.
#[test]
fn keys_are_those_of_captures_and_of_the_standard(rt: HostRuntime) {
    let standard = psk_of(b"password", b"IEEE");
    let captured = psk_of(b"12345678", CAPTURED_SSID);
    assert!(rt; standard == octets(STANDARD_PSK) && captured == octets(CAPTURED_PSK));
    for h in &HANDSHAKES {
        assert!(rt; is_pairwise(h), "{:?}", h.ssid);
    }
}

#[test]
fn keys_of_fast_transition_have_their_names(rt: HostRuntime) {
    for roam in &ROAMS {
        assert!(rt; roams(roam), "{:?}", roam.r0_name);
    }
}
