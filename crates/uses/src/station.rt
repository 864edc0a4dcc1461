//! A supplicant by itself, from its accepted association to message 4.

ghost use Rattle.std.specs.Prelude.{◌≡◌, ◌≢◌, ◌<◌, Some, None, length, IsTrue, IfSome};
ghost use Rattle.domain_base.specs.declared.names.Akm.TheVariants.{FtPsk};
ghost use Rattle.domain_base.specs.declared.names.Node.TheVariants.{Ap, Sta};
ghost use Rattle.domain_rules.specs.Network.{InForm};
ghost use Rattle.node_base.specs.Ends.{AreEnds};
ghost use Rattle.supplicant.specs.State.{both};
ghost use Rattle.uses.specs.Joins.{Accepts, HasJoined, no_keys};

use domain_base::Akm;
use eapol_key::{classify, read};
use group_key::GroupMemory;
use key_hierarchy::LastDerived;
use run_journal::{Domain, Outcome, Reply};
use supplicant::{StaStart, Supplicant};

/// A station's part with one access point, and what it keeps beside it.
#[derive(Drop)]
pub struct Station {
    /// The part.
    pub part: Supplicant,
    /// The group keys of the access point.
    pub keys: GroupMemory,
    /// What was derived last: it shows in no result.
    pub derived: LastDerived,
}

/// What a station has after a four-way handshake.
#[derive(Drop)]
pub struct Joined {
    /// The station: from now on it takes message 1 of group key handshakes.
    pub station: Station,
    /// Message 2, and the key that was derived.
    pub m2: Reply,
    /// Message 4, and the keys that were installed.
    pub m4: Reply,
}

impl Station {
    /// Its association was accepted, in an attempt with that SNonce. It has no key.
    pub fn associated(domain: &Domain, sta: u16, ap: u16, snonce: &[u8; 32]) -> Self
        requires form { InForm domain.now }
        requires suite { domain.now.akm ≢ FtPsk }
        requires sta { sta < length domain.now.stas }
        requires ap { ap < length domain.now.aps }
        ensures ends { AreEnds domain.now (Sta sta) (Ap ap) result.part.ends }
        ensures attempt { result.part.attempt
            ≡ Some (record { snonce = snonce.now; key = None }) }
        ensures session { result.part.session ≡ None }
        ensures keys { result.keys ≡ no_keys }
    {
        let mut derived = LastDerived::none();
        let start = StaStart::Connect { snonce, fte: &[] };
        Station {
            part: Supplicant::begin(domain, sta, ap, start, &mut derived),
            keys: GroupMemory::empty(),
            derived,
        }
    }

    /// Whether the octets begin with an EAPOL-Key message of the access point that is accepted.
    /// What is sent, derived and installed comes into the reply.
    pub fn accepts(&mut self, akm: Akm, octets: &[u8], reply: &mut Reply) -> bool
        ensures { IsTrue result → Accepts akm octets.now (both self.old.part self.old.keys)
            (both self.new.part self.new.keys) reply.new }
    {
        let Ok((frame, _)) = read(octets) else {
            return false;
        };
        let Some(message) = classify(&frame, akm) else {
            return false;
        };
        let (keys, derived) = (&mut self.keys, &mut self.derived);
        match self.part.step(message, &frame, keys, derived, reply) {
            Outcome::Accepted => true,
            _ => false,
        }
    }
}

/// A station joins an access point that accepted its association: it takes message 1 and message 3,
/// each as the octets of its EAPOL frame, and gives message 2 and message 4, whole air frames, with
/// the keys that were derived and installed. None where one of them is not accepted.
pub fn join(
    domain: &Domain,
    sta: u16,
    ap: u16,
    snonce: &[u8; 32],
    m1: &[u8],
    m3: &[u8],
) -> Option<Joined>
    requires form { InForm domain.now }
    requires suite { domain.now.akm ≢ FtPsk }
    requires sta { sta < length domain.now.stas }
    requires ap { ap < length domain.now.aps }
    ensures { IfSome result (λ j. HasJoined domain.now sta ap snonce.now m1.now m3.now
        (both j.station.part j.station.keys) j.m2 j.m4) }
{
    let mut station = Station::associated(domain, sta, ap, snonce);
    let mut m2 = Reply::empty();
    if !station.accepts(domain.akm, m1, &mut m2) {
        return None;
    }
    let mut m4 = Reply::empty();
    if !station.accepts(domain.akm, m3, &mut m4) {
        return None;
    }
    Some(Joined { station, m2, m4 })
}
