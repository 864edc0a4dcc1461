//! An authenticator by itself, from the association that it accepted to message 4.

ghost use Rattle.std.specs.Prelude.{◌<◌, ◌≤◌, length, IsTrue, IfSome};
ghost use Rattle.domain_rules.specs.Network.{InForm};
ghost use Rattle.uses.specs.Serves.{Takes, HasServed};

use authenticator::{ApStart, Authenticator};
use domain_base::Akm;
use eapol_key::{classify, read};
use group_key::GroupKey;
use key_hierarchy::LastDerived;
use run_journal::{Domain, Keyed, Outcome, Reply};

/// A station that an access point knows.
#[derive(Clone, Copy)]
pub struct Client<'a> {
    /// The access point's place in the network.
    pub ap: u16,
    /// The station's.
    pub sta: u16,
    /// The nonce that was drawn for the attempt.
    pub anonce: &'a [u8; 32],
    /// The whole RSNE of the association request, from its id on.
    pub rsne: &'a [u8],
}

/// What an access point has after a four-way handshake.
#[derive(Drop)]
pub struct Served {
    /// Its part with the station.
    pub part: Authenticator,
    /// Message 1.
    pub m1: Reply,
    /// Message 3, and the key that was derived.
    pub m3: Reply,
    /// The pairwise key that message 4 installed.
    pub key: Keyed,
}

// Whether the octets begin with an EAPOL-Key message of the station that is accepted.
#[tactic(auto, using(crate::proofs::Fitting::fits_alone))]
fn accepts(
    part: &mut Authenticator,
    akm: Akm,
    octets: &[u8],
    group: &GroupKey,
    reply: &mut Reply,
) -> bool
    requires { group.now.id < 4 }
    ensures { IsTrue result → Takes akm octets.now group.now part.old part.new reply.new }
{
    let Ok((frame, _)) = read(octets) else {
        return false;
    };
    let Some(message) = classify(&frame, akm) else {
        return false;
    };
    match part.step(message, &frame, group, 0, None, reply) {
        Outcome::Accepted => true,
        _ => false,
    }
}

/// An access point that accepted the association of a station goes on to message 4: it gives message
/// 1 and message 3, whole air frames, takes message 2 and message 4, each as the octets of its EAPOL
/// frame, and installs the pairwise key. Message 3 carries the group key, under which no packet
/// number was used yet, and no key for management frames. None where one of them is not accepted, or installs no key.
pub fn serve(
    domain: &Domain,
    client: Client<'_>,
    group: &GroupKey,
    m2: &[u8],
    m4: &[u8],
) -> Option<Served>
    requires form { InForm domain.now }
    requires ap { client.ap < length domain.now.aps }
    requires sta { client.sta < length domain.now.stas }
    requires rsne { length client.rsne.now ≤ 257 }
    requires id { group.now.id < 4 }
    ensures { IfSome result (λ s. HasServed domain.now client.entry group.now m2.now m4.now
        s.part s.m1 s.m3 s.key) }
{
    let (mut m1, mut m3, mut last) = (Reply::empty(), Reply::empty(), Reply::empty());
    let start = ApStart::Connect {
        anonce: client.anonce,
        rsne: client.rsne,
    };
    let mut derived = LastDerived::none();
    let (ap, sta) = (client.ap, client.sta);
    let mut part = Authenticator::begin(domain, ap, sta, start, &mut derived, &mut m1);
    if !accepts(&mut part, domain.akm, m2, group, &mut m3) {
        return None;
    }
    if !accepts(&mut part, domain.akm, m4, group, &mut last) {
        return None;
    }
    let key = last.installed?;
    Some(Served { part, m1, m3, key })
}
