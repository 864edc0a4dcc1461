//! The test network.

ghost use Rattle.std.specs.Prelude.{◌≡◌, length};
ghost use Rattle.domain_rules.specs.Network.{InForm};
ghost use Rattle.ft_exchange.specs.Asking.{ids_of};
ghost use Rattle.key_holders.specs.Listed.{none_held};

use crate::vectors::{PSK, SEED};
use domain_base::{Akm, Mac, Octets};
use key_holders::ListHolders;
use mac_prf::KdfKey;
use run_journal::{Aps, Domain, Extras, ListedAp, ListedSta, Stas, Version};
use std::alloc::Global;
use std::process::Abort;

/// Those octets.
pub fn octets(rt: &impl Abort, alloc: Global, of: &[u8]) -> Octets
    ensures { result ≡ of.now }
{
    Octets(Vec::from_slice(alloc, of).expect(rt, "memory"))
}

/// By the rules of version 1.
pub fn version_1() -> Extras {
    Extras {
        version: Version::One,
        renew_at: None,
        mfp: false,
    }
}

/// By those of version 2: an access point renews a pairwise key as it is asked.
pub fn version_2() -> Extras {
    Extras {
        version: Version::Two,
        renew_at: None,
        mfp: false,
    }
}

/// And by itself, with the first packet number that it uses under the key.
pub fn renewed_at_1() -> Extras {
    Extras {
        version: Version::Two,
        renew_at: Some(1),
        mfp: false,
    }
}

/// By those of version 2, where management frames are protected.
pub fn protecting() -> Extras {
    Extras {
        version: Version::Two,
        renew_at: None,
        mfp: true,
    }
}

/// The test network with that suite, by those rules: two access points and two stations, with suite
/// 4 in the mobility domain a1b2.
pub fn network(rt: &impl Abort, alloc: Global, akm: Akm, extras: Extras) -> Domain
    ensures form { InForm result }
    ensures akm { result.akm ≡ akm }
    ensures aps { length result.aps ≡ 2 }
    ensures stas { length result.stas ≡ 2 }
{
    let mdid = match akm {
        Akm::FtPsk => [0xa1, 0xb2],
        _ => [0, 0],
    };
    let first = ListedAp {
        address: Mac([2, 0, 0, 0, 0, 1]),
        r0kh_id: octets(rt, alloc, b"r0kh-1"),
    };
    let second = ListedAp {
        address: Mac([2, 0, 0, 0, 0, 2]),
        r0kh_id: octets(rt, alloc, b"r0kh-2"),
    };
    let one = ListedSta {
        address: Mac([2, 0, 0, 0, 0, 0x11]),
        psk: PSK,
    };
    let other = ListedSta {
        address: Mac([2, 0, 0, 0, 0, 0x12]),
        psk: PSK,
    };
    let mut stas = Stas::new(alloc);
    stas.push(one).expect(rt, "memory");
    stas.push(other).expect(rt, "memory");
    Domain {
        seed: KdfKey::new(&SEED),
        ssid: octets(rt, alloc, b"IEEE"),
        akm,
        mdid,
        extras,
        aps: Aps(Vec::from_array(alloc, [first, second]).expect(rt, "memory")),
        stas,
    }
}

// The R0KH-IDs of a network, in order.
fn ids(rt: &impl Abort, alloc: Global, domain: &Domain) -> Vec<Octets>
    ensures { result.items ≡ ids_of domain.now }
{
    let mut ids = Vec::new(alloc);
    for ap in domain.aps.0.iter() {
        let id = octets(rt, alloc, ap.r0kh_id.as_slice());
        ids.push(id).expect(rt, "memory");
    }
    ids
}

/// The key holders of the access points of a network, with no rows.
pub fn holders(rt: &impl Abort, alloc: Global, domain: &Domain) -> ListHolders
    requires { length domain.now.aps ≡ 2 }
    ensures { result ≡ none_held (ids_of domain.now) }
{
    let ids = ids(rt, alloc, domain);
    ListHolders::new(alloc, ids).expect(rt, "memory")
}
