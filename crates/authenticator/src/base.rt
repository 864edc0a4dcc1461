//! What the attempts and sessions of an authenticator go back to.

ghost use Rattle.std.specs.Prelude.{◌≡◌, ◌≤◌, ◌<◌, length};
ghost use Rattle.domain_base.specs.declared.names.Node.TheVariants.{Ap, Sta};
ghost use Rattle.domain_rules.specs.Network.{InForm};
ghost use Rattle.frame_making.specs.KeyData.{HasShortFte};
ghost use Rattle.authenticator.specs.Bases.{IsBaseOf};

use domain_base::{Node, ShortOctets};
use frame_making::{Mobility, association_fte};
use key_hierarchy::LastDerived;
use node_base::{Pmk, r0kh_id};
use run_journal::Domain;
use std::marker::Model;

/// The octets of an element at most: its id, its length, and 255 more
/// (IEEE Std 802.11-2020, 9.4.2.1).
const MOST_RSNE: usize = 257;

/// What the keys of an authenticator go back to.
#[derive(Drop)]
pub struct Base {
    /// The pre-shared key, with suite 4 the PMK-R1.
    pub pmk: Pmk,
    /// What suite 4 adds to key data: the access point is the R0 key holder.
    pub mobility: Option<Mobility>,
}

/// An association of a station: what its keys go back to, and the RSNE of the request, whole.
#[derive(Drop)]
pub struct Association {
    base: Base,
    rsne: ShortOctets<MOST_RSNE>,
}

impl Model for Association {
    ghost use Rattle.std.specs.Prelude.{◌≤◌, length};
    ghost use Rattle.frame_making.specs.KeyData.{HasShortFte};
    ghost use Rattle.authenticator.specs.Associated.{Associated};

    ghost Value = { Associated };

    ghost view = { λ a. record {
      base = a.base;
      rsne = a.rsne;
    } };

    ghost invariant = { λ a. (length a.rsne ≤ 257) × HasShortFte a.base.mobility };
}

impl Base {
    /// Of an access point with a station.
    #[tactic(auto, using(crate::proofs::ShortFte::short_some))]
    pub fn of(domain: &Domain, ap: u16, sta: u16, derived: &mut LastDerived) -> Self
        requires form { InForm domain.now }
        requires ap { ap < length domain.now.aps }
        requires sta { sta < length domain.now.stas }
        ensures base { IsBaseOf domain.now (Ap ap) (Sta sta) result }
        ensures fte { HasShortFte result.mobility }
    {
        let id = r0kh_id(domain, ap);
        let pmk = Pmk::of(domain, Node::Ap(ap), Node::Sta(sta), id, derived);
        let mobility = match pmk {
            Pmk::Psk(_) | Pmk::PskSha256(_) => None,
            Pmk::R1(r1) => {
                let fte = association_fte(domain, ap);
                Some(Mobility::of(&r1.name, domain.mdid, fte.as_slice()))
            }
        };
        Base { pmk, mobility }
    }

    // The same.
    fn copied(&self) -> Self
        ensures { result ≡ self.now }
    {
        let mobility = match &self.mobility {
            Some(m) => Some(Mobility::of(m.name(), m.mdid(), m.fte())),
            None => None,
        };
        Base {
            pmk: self.pmk,
            mobility,
        }
    }
}

impl Association {
    /// Of that base and that RSNE.
    pub fn of(base: Base, rsne: &[u8]) -> Self
        requires rsne { length rsne.now ≤ 257 }
        requires fte { HasShortFte base.mobility }
        ensures { result ≡ record { base = base; rsne = rsne.now } }
    {
        Association {
            base,
            rsne: ShortOctets::of(rsne),
        }
    }

    /// What its keys go back to.
    pub fn base(&self) -> &Base
        ensures same { result.now ≡ self.now.base }
        ensures fte { HasShortFte result.now.mobility }
    {
        &self.base
    }

    /// The RSNE of the request.
    pub fn rsne(&self) -> &[u8]
        ensures octets { result.now ≡ self.now.rsne }
        ensures few { length result.now ≤ 257 }
    {
        self.rsne.as_slice()
    }

    /// The same, for another attempt.
    #[tactic(auto, using(crate::proofs::ShortFte::short_as))]
    pub fn copied(&self) -> Self
        ensures { result ≡ self.now }
    {
        Association::of(self.base().copied(), self.rsne())
    }
}
