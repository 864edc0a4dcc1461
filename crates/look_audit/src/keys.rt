//! The right PMK-R1 of a look.

ghost use Rattle.std.specs.Prelude.{◌≡◌, ◌↔◌, IsTrue, Some};
ghost use Rattle.domain_base.specs.declared.names.Node.TheVariants.{Ap, Sta};
ghost use Rattle.key_hierarchy.specs.FastTransition.{pmk_r0, pmk_r1};
ghost use Rattle.run_journal.specs.Events.{IsListed};
ghost use Rattle.domain_rules.specs.Network.{InForm, mac, psk_of, r0kh_id};

use domain_base::Node;
use key_hierarchy::{PmkR0, PmkR1};
use node_base::{address, r0kh_id};
use run_journal::Domain;

// The pre-shared key of the station.
fn psk_of(domain: &Domain, sta: u16) -> [u8; 32]
    requires { IsListed domain.now (Sta sta) }
    ensures { result ≡ psk_of domain.now (Sta sta) }
{
    domain.stas.as_slice()[usize::from(sta)].psk
}

/// The PMK-R1 of the station's pre-shared key that a holder makes for an access point (IEEE Std
/// 802.11-2020, 12.7.1.6).
pub(crate) fn right_key(domain: &Domain, holder: u16, ap: u16, sta: u16) -> PmkR1
    requires form { InForm domain.now }
    requires holder { IsListed domain.now (Ap holder) }
    requires ap { IsListed domain.now (Ap ap) }
    requires station { IsListed domain.now (Sta sta) }
    ensures { let d = domain.now in result ≡ pmk_r1 (pmk_r0 (psk_of d (Sta sta)) d.ssid d.mdid
        (r0kh_id d (Ap holder)) (mac d (Sta sta))) (mac d (Ap ap)) (mac d (Sta sta)) }
{
    let spa = address(domain, Node::Sta(sta));
    let bssid = address(domain, Node::Ap(ap));
    let psk = psk_of(domain, sta);
    let id = r0kh_id(domain, holder);
    let r0 = PmkR0::derive(&psk, domain.ssid.as_slice(), domain.mdid, id, spa);
    r0.r1(bssid, spa)
}

/// Whether two PMK-R1s are one, with their names.
pub(crate) fn is_r1(k: PmkR1, other: PmkR1) -> bool
    ensures { IsTrue result ↔ (k ≡ other) }
{
    k.key == other.key && k.name == other.name
}
