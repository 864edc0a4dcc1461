//! The pairwise key of a session begins to be renewed: as an access point is asked to, or as it is
//! due with a packet number (IEEE Std 802.11-2020, 12.7.6.2).

ghost use Rattle.std.specs.Prelude.{◌≡◌, ◌≢◌, ◌≤◌, ◌+◌, ◌++◌, ℕ, suc, true, None};
ghost use Rattle.domain_base.specs.declared.names.Node.TheVariants.{Sta};
ghost use Rattle.run_journal.specs.Replies.{IsWhole};
ghost use Rattle.authenticator.specs.Kinds.{can_renew};
ghost use Rattle.ap_node.specs.State.{station_at};
ghost use Rattle.ap_node.specs.Renewing.{renewable, obstacle_in, obstacle, is_due_by, is_due_in};
ghost use Rattle.ap_node.specs.Renewing.{is_due_at, renewal_acts, RenewsKey, RenewsAt};

use crate::boxed::BoxedStation;
use crate::station::{Session, Station};
use act_memory::{Outbox, SendRoom};
use data_frames::DataKey;
use domain_base::Node;
use node_base::{DRAW_END, renews_at};
use replay_window::LAST_NUMBER;
use run_journal::{Act, Domain, Drawn, Reply, Start, Why};
use std::collections::BTreeMap;

// Why the key of a session is not renewed, where it is not: beside an attempt or without one, and
// where so many values were drawn.
fn obstacle_in(session: &Session, has_attempt: bool, drawn: u64) -> Option<Why>
    ensures { result ≡ obstacle_in drawn has_attempt session.now }
{
    if has_attempt {
        return Some(Why::Nothing);
    }
    if drawn >= DRAW_END {
        return Some(Why::Spent);
    }
    if session.part.can_renew() {
        None
    } else {
        Some(Why::NoSession)
    }
}

// The next packet number of a key.
fn next_number(key: &DataKey) -> u64
    ensures { result ≡ suc key.now.used }
{
    key.used() + 1
}

// Whether a key is to be renewed as its next packet number is used.
fn is_due_by(key: &DataKey, domain: &Domain, has_attempt: bool, drawn: u64) -> bool
    ensures { result ≡ is_due_by domain.now drawn has_attempt key.now }
{
    key.used() < LAST_NUMBER
        && (renews_at(domain, next_number(key)) && (!has_attempt && drawn < DRAW_END))
}

// Whether that of a session is, which can be renewed.
fn is_due_in(session: &Option<Session>, domain: &Domain, has_attempt: bool, drawn: u64) -> bool
    ensures { result ≡ is_due_in domain.now drawn has_attempt session.now }
{
    match session {
        Some(session) => {
            is_due_by(&session.key, domain, has_attempt, drawn) && session.part.can_renew()
        }
        None => false,
    }
}

// The part of a session begins to renew its key by that nonce. The reply has M1 then.
fn renew_key(session: &mut Session, anonce: &[u8; 32], reply: &mut Reply)
    requires { can_renew session.old.part ≡ true }
    ensures renewed { RenewsKey session.old session.new anonce.now reply.new }
    ensures whole { IsWhole reply.new }
{
    session.part.renew(anonce, reply);
}

impl Station {
    /// Why the key of the session is not renewed, where it is not and so many values were drawn:
    /// there is no session, an attempt is under way, or no nonce is left.
    pub fn obstacle(&self, drawn: u64) -> Option<Why>
        ensures { result ≡ obstacle drawn self.now }
    {
        match &self.session {
            Some(session) => obstacle_in(session, self.has_attempt(), drawn),
            None => Some(Why::NoSession),
        }
    }

    /// Whether the key of the session is to be renewed as its next packet number is used.
    pub fn is_due(&self, domain: &Domain, drawn: u64) -> bool
        ensures { result ≡ is_due_at domain.now drawn self.now }
    {
        is_due_in(&self.session, domain, self.has_attempt(), drawn)
    }

    /// Begins to renew the key of the session by that nonce. The reply has M1 then.
    pub fn renew(&mut self, anonce: &[u8; 32], reply: &mut Reply)
        requires { renewable self.old.session ≡ true }
        ensures renewed { RenewsAt self.old self.new anonce.now reply.new }
        ensures whole { IsWhole reply.new }
    {
        let Some(session) = &mut self.session else {
            unreachable!()
        };
        renew_key(session, anonce, reply);
    }
}

/// Why the key of the session with that station is not renewed, where it is not and so many values
/// were drawn.
pub fn obstacle(stations: &BTreeMap<u16, BoxedStation>, station: u16, drawn: u64) -> Option<Why>
    ensures { result ≡ obstacle drawn (station_at stations.now.entries station) }
{
    match stations.get(&station) {
        Some(place) => place.station().obstacle(drawn),
        None => Some(Why::NoSession),
    }
}

/// Whether the key of the session with that station is to be renewed as its next packet number is
/// used, where so many values were drawn.
pub fn is_due(
    stations: &BTreeMap<u16, BoxedStation>,
    station: u16,
    domain: &Domain,
    drawn: u64,
) -> bool
    ensures { result ≡ is_due_at domain.now drawn (station_at stations.now.entries station) }
{
    match stations.get(&station) {
        Some(place) => place.station().is_due(domain, drawn),
        None => false,
    }
}

/// Begins to renew the key of the session with that station by that nonce. The reply has M1 then.
pub fn renew(
    stations: &mut BTreeMap<u16, BoxedStation>,
    station: u16,
    anonce: &[u8; 32],
    reply: &mut Reply,
)
    requires { renewable (station_at stations.old.entries station).session ≡ true }
    ensures renewed { RenewsAt (station_at stations.old.entries station)
        (station_at stations.new.entries station) anonce.now reply.new }
    ensures others { (k : ℕ) → k ≢ station
        → station_at stations.new.entries k ≡ station_at stations.old.entries k }
    ensures whole { IsWhole reply.new }
{
    let Some(place) = stations.get_mut(&station) else {
        unreachable!()
    };
    place.station_mut().renew(anonce, reply);
}

/// Adds the acts of beginning to renew the key of the session with a station, by the nonce that was
/// drawn and M1, which the reply has. Takes no memory.
pub fn add_renewal(station: u16, anonce: [u8; 32], room: SendRoom, reply: &Reply, out: &mut Outbox)
    requires room { 3 ≤ out.old.spare }
    requires whole { IsWhole reply.now }
    ensures { out.new.acts ≡ out.old.acts ++ renewal_acts (Sta station) anonce reply.now }
{
    let peer = Node::Sta(station);
    out.add(Act::Opened {
        peer,
        start: Start::Renew,
    });
    out.add(Act::Drew {
        value: Drawn::Nonce(anonce),
    });
    room.add_sent(peer, reply, out);
}
