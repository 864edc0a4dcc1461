//! Whom a station has an attempt and a session with, and the numbers of access points.

ghost use Rattle.std.specs.Prelude.{◌≡◌, true};
ghost use Rattle.domain_base.specs.declared.names.Node.TheVariants.{Ap, Sta};
ghost use Rattle.domain_base.specs.declared.names.Peer.TheVariants.{One};
ghost use Rattle.domain_rules.specs.Network.{is_ap};
ghost use Rattle.run_journal.specs.Events.{IsReceiverOf};
ghost use Rattle.station_node.specs.Parts.{has_neither, is_with};

use crate::attempt::Attempt;
use crate::session::Session;
use domain_base::{Node, Peer};
use run_journal::Domain;

/// Whether the session is with that access point.
pub fn is_with(session: &Option<Session>, ap: u16) -> bool
    ensures { result ≡ is_with session.now ap }
{
    match session {
        Some(session) => session.ap == ap,
        None => false,
    }
}

/// Whether there is neither an attempt nor a session.
pub fn has_neither(attempt: &Option<Attempt>, session: &Option<Session>) -> bool
    ensures { result ≡ has_neither attempt.now session.now }
{
    match attempt {
        Some(_) => false,
        None => match session {
            Some(_) => false,
            None => true,
        },
    }
}

/// The number of an access point.
pub fn number_of(peer: Node) -> u16
    requires { is_ap peer ≡ true }
    ensures { peer ≡ Ap result }
{
    match peer {
        Node::Ap(number) => number,
        Node::Sta(_) => unreachable!(),
    }
}

/// The number of the access point to which a station sends.
pub fn receiver_number(domain: &Domain, sta: u16, to: Peer) -> u16
    requires { IsReceiverOf domain.now (Sta sta) to }
    ensures { to ≡ One (Ap result) }
{
    match to {
        Peer::One(peer) => match peer {
            Node::Ap(number) => number,
            Node::Sta(_) => unreachable!(),
        },
        Peer::All => unreachable!(),
    }
}
