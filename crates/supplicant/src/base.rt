//! What the attempts of a supplicant go back to.

ghost use Rattle.std.specs.Prelude.{◌≡◌, ◌<◌, ◌≤◌, [], length, replicate, Some, None};
ghost use Rattle.node_base.specs.declared.pairwise.Pmk.TheVariants.{Psk};
ghost use Rattle.domain_base.specs.declared.names.Akm.TheVariants.{FtPsk};
ghost use Rattle.domain_base.specs.declared.names.Node.TheVariants.{Ap, Sta};
ghost use Rattle.key_hierarchy.specs.Sizes.{IsSsid};
ghost use Rattle.rsn_elements.specs.declared.framing.Within.TheVariants.{Body as InBody};
ghost use Rattle.rsn_elements.specs.Elements.{ElementFields, SpellsElements};
ghost use Rattle.domain_rules.specs.TransitionKeyData.{responded_r0kh_id};
ghost use Rattle.supplicant.specs.Bases.{mobility_with, NamesHolder, IsBaseOf};

use domain_base::{Akm, Node, ShortOctets};
use frame_making::Mobility;
use key_hierarchy::LastDerived;
use node_base::Pmk;
use rsn_elements::{Within, read_elements};
use run_journal::Domain;

// The octets of an R0KH-ID at most (IEEE Std 802.11-2020, 9.4.2.47).
const MOST_R0KH_ID: usize = 48;

/// What the attempts of a supplicant go back to.
#[derive(Drop)]
pub struct Base {
    /// The suite.
    pub akm: Akm,
    /// The pre-shared key, with suite 4 the PMK-R1.
    pub pmk: Pmk,
    /// What suite 4 adds to key data.
    pub mobility: Option<Mobility>,
    /// The R0KH-ID, with suite 4.
    pub r0kh_id: ShortOctets<MOST_R0KH_ID>,
}

// The R0KH-ID that an FTE names, if it names one.
fn named_in(fte: &[u8]) -> ShortOctets<MOST_R0KH_ID>
    ensures { (e : ElementFields) → SpellsElements InBody fte.now e
        → result ≡ responded_r0kh_id (Some e) }
{
    let Ok(elements) = read_elements(fte, Within::Body) else {
        return ShortOctets::of(&[]);
    };
    let Some(fte) = elements.fte else {
        return ShortOctets::of(&[]);
    };
    match fte.r0kh_id {
        Some(id) => ShortOctets::of(id),
        None => ShortOctets::of(&[]),
    }
}

// What suite 4 adds to key data under that PMK-R1.
fn mobility_of(domain: &Domain, pmk: &Pmk, fte: &[u8]) -> Option<Mobility>
    requires { length fte.now ≤ 257 }
    ensures { result ≡ mobility_with domain.now.mdid pmk.now fte.now }
{
    match pmk {
        Pmk::Psk(_) | Pmk::PskSha256(_) => None,
        Pmk::R1(r1) => Some(Mobility::of(&r1.name, domain.mdid, fte)),
    }
}

impl Base {
    /// Where there is no attempt, nor will be one: in a session that a fast transition installed.
    pub fn none(akm: Akm) -> Self
        ensures akm { result.akm ≡ akm }
        ensures pmk { result.pmk ≡ Psk (replicate 32 0) }
        ensures mobility { result.mobility ≡ None }
        ensures id { result.r0kh_id ≡ [] }
    {
        Base {
            akm,
            pmk: Pmk::Psk([0; 32]),
            mobility: None,
            r0kh_id: ShortOctets::of(&[]),
        }
    }

    /// Of a station with an access point, by the whole FTE of the association response, which suite
    /// 4 alone has.
    pub fn of(domain: &Domain, sta: u16, ap: u16, fte: &[u8], derived: &mut LastDerived) -> Self
        requires sta { sta < length domain.now.stas }
        requires ap { ap < length domain.now.aps }
        requires ssid { IsSsid domain.now.ssid }
        requires fte { length fte.now ≤ 257 }
        requires id { domain.now.akm ≡ FtPsk → NamesHolder fte.now }
        ensures { IsBaseOf domain.now (Sta sta) (Ap ap) fte.now result }
    {
        let r0kh_id = named_in(fte);
        let id = r0kh_id.as_slice();
        let pmk = Pmk::of(domain, Node::Sta(sta), Node::Ap(ap), id, derived);
        Base {
            akm: domain.akm,
            pmk,
            mobility: mobility_of(domain, &pmk, fte),
            r0kh_id,
        }
    }
}
