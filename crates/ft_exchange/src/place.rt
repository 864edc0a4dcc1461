//! Where an access point stands with a station.

ghost use Rattle.std.specs.Prelude.{◌<◌, ◌≤◌, length};
ghost use Rattle.domain_base.specs.declared.names.Node.TheVariants.{Ap, Sta};

use domain_base::{Mac, Node};
use node_base::address;
use run_journal::Domain;

// The two highest bits of an association identifier as it is sent (IEEE Std 802.11-2020, 9.4.1.8).
const AID_BITS: u16 = 0xc000;

/// An access point and a station of a network, by their addresses.
#[derive(Clone, Copy)]
pub struct Place {
    /// The access point's address.
    pub own: Mac,
    /// The station's.
    pub peer: Mac,
    /// The station's association identifier.
    pub aid: u16,
    /// The mobility domain.
    pub mdid: [u8; 2],
    /// Whether management frames are protected.
    pub mfp: bool,
}

impl Place {
    ghost use Rattle.ft_exchange.specs.Stands.{IsPlace};

    /// Of that access point with that station.
    pub fn of(domain: &Domain, ap: u16, sta: u16) -> Self
        requires ap { ap < length domain.now.aps }
        requires sta { sta < length domain.now.stas }
        requires few { length domain.now.stas ≤ 1024 }
        ensures { IsPlace domain.now (Ap ap) (Sta sta) result }
    {
        let mdid = domain.mdid;
        Place {
            own: address(domain, Node::Ap(ap)),
            peer: address(domain, Node::Sta(sta)),
            aid: AID_BITS + (sta + 1),
            mdid,
            mfp: domain.extras.mfp,
        }
    }
}
