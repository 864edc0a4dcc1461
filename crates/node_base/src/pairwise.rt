//! What pairwise keys go back to, and the pairwise key of two nonces.

ghost use Rattle.std.specs.Prelude.{◌≡◌};
ghost use Rattle.domain_base.specs.declared.names.Akm.TheVariants.{FtPsk};
ghost use Rattle.key_hierarchy.specs.FastTransition.{pmk_r0, pmk_r1};
ghost use Rattle.key_hierarchy.specs.Sizes.{IsSsid, IsR0khId};
ghost use Rattle.domain_rules.specs.Network.{root_at, station_of};
ghost use Rattle.run_journal.specs.Events.{IsListed, IsPeerOf};
ghost use Rattle.node_base.specs.PairwiseKeys.{key_with, pmk_of};

use crate::ends::Ends;
use crate::network::{address, psk};
use air_frame::Direction;
use domain_base::{Akm, Mac, Node};
use key_hierarchy::{LastDerived, PmkR1, pairwise_ptk, ptk_from_r1};
use run_journal::{Domain, Keyed};

/// What the pairwise keys of two ends go back to.
#[derive(Clone, Copy)]
pub enum Pmk {
    /// With suite 2 the pre-shared key (IEEE Std 802.11-2020, 12.7.1.3).
    Psk([u8; 32]),
    /// With suite 6 the same.
    PskSha256([u8; 32]),
    /// With suite 4 the PMK-R1, with its name (IEEE Std 802.11-2020, 12.7.1.6.4).
    R1(PmkR1),
}

// The PMK-R1 of a station at an access point, by its pre-shared key and the R0KH-ID of its first
// association.
fn pmk_r1(
    domain: &Domain,
    psk: &[u8; 32],
    ap: Mac,
    sta: Mac,
    r0kh_id: &[u8],
    derived: &mut LastDerived,
) -> PmkR1
    requires ssid { IsSsid domain.now.ssid }
    requires id { IsR0khId r0kh_id.now }
    ensures { let d = domain.now
        in result ≡ pmk_r1 (pmk_r0 psk.now d.ssid d.mdid r0kh_id.now sta) ap sta }
{
    let r0 = derived.keep_r0(psk, domain.ssid.as_slice(), domain.mdid, r0kh_id, sta);
    derived.keep_r1(&r0, ap, sta)
}

impl Pmk {
    /// Of a node with its peer: with suite 4 by the R0KH-ID of the first association of the
    /// station. Where its keys are those that were derived last they are not derived anew.
    pub fn of(
        domain: &Domain,
        node: Node,
        peer: Node,
        r0kh_id: &[u8],
        derived: &mut LastDerived,
    ) -> Self
        requires listed { IsListed domain.now node }
        requires peer { IsPeerOf domain.now node peer }
        requires ssid { IsSsid domain.now.ssid }
        requires id { domain.now.akm ≡ FtPsk → IsR0khId r0kh_id.now }
        ensures { let d = domain.now
            in result ≡ pmk_of d (root_at d (station_of node peer) r0kh_id.now) node peer }
    {
        let psk = psk(domain, node, peer);
        let (ap, sta) = match node {
            Node::Ap(_) => (address(domain, node), address(domain, peer)),
            Node::Sta(_) => (address(domain, peer), address(domain, node)),
        };
        match domain.akm {
            Akm::Psk => Pmk::Psk(psk),
            Akm::PskSha256 => Pmk::PskSha256(psk),
            Akm::FtPsk => Pmk::R1(pmk_r1(domain, &psk, ap, sta, r0kh_id, derived)),
        }
    }
}

/// The key between the two ends (IEEE Std 802.11-2020, 12.7.1.3 and 12.7.1.6.5). The pre-shared key
/// of suite 6 is not looked at anew where the last one was derived of it.
pub fn pairwise_key(
    ends: &Ends,
    pmk: &Pmk,
    anonce: &[u8; 32],
    snonce: &[u8; 32],
    derived: &mut LastDerived,
) -> Keyed
    ensures { result ≡ key_with ends.now pmk.now anonce.now snonce.now }
{
    let (aa, spa) = match ends.direction {
        Direction::FromDs => (ends.own, ends.peer),
        Direction::ToDs => (ends.peer, ends.own),
    };
    let ptk = match *pmk {
        Pmk::Psk(psk) => pairwise_ptk(Akm::Psk, &psk, aa, spa, anonce, snonce),
        Pmk::PskSha256(psk) => derived.sha256_ptk(&psk, aa, spa, anonce, snonce),
        Pmk::R1(r1) => ptk_from_r1(&r1, snonce, anonce, aa, spa),
    };
    Keyed {
        ptk,
        anonce: *anonce,
        snonce: *snonce,
    }
}
