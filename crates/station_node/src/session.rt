//! The session of a station.

ghost use Rattle.std.specs.Prelude.{◌≡◌, ◌<◌, ◌≤◌, ◌+◌, ◌++◌, length};
ghost use Rattle.domain_rules.specs.Network.{InForm};
ghost use Rattle.domain_rules.specs.Closing.{close_associated, close_pending};

use act_memory::Outbox;
use data_frames::DataKey;
use domain_base::Node;
use key_hierarchy::{LastDerived, Ptk};
use run_journal::{Act, Domain, Part};
use supplicant::{StaStart, Supplicant};

/// A session of a station.
#[derive(Drop)]
pub struct Session {
    /// The number of the access point.
    pub ap: u16,
    /// The handshake with it, that is over.
    pub supplicant: Supplicant,
    /// The pairwise key that it installed.
    pub key: DataKey,
}

impl Session {
    ghost use Rattle.data_frames.specs.Holding.{fresh_key};
    ghost use Rattle.station_node.specs.Parts.{peer_of_session, peer_of_renewal};
    ghost use Rattle.station_node.specs.Transferred.{IsTransferredTo};

    /// The session that a fast transition made, of that station with that access point, under that
    /// key.
    pub fn transferred(domain: &Domain, sta: u16, ap: u16, ptk: &Ptk) -> Self
        requires form { InForm domain.now }
        requires sta { sta < length domain.now.stas }
        requires ap { ap < length domain.now.aps }
        ensures ap { result.ap ≡ ap }
        ensures begun { IsTransferredTo domain.now sta ap ptk.now result.supplicant }
        ensures key { result.key ≡ fresh_key ptk.now.tk }
    {
        let start = StaStart::Ft { ptk };
        let mut derived = LastDerived::none();
        let supplicant = Supplicant::begin(domain, sta, ap, start, &mut derived);
        let key = DataKey::pairwise(&ptk.tk);
        Session {
            ap,
            supplicant,
            key,
        }
    }

    /// The access point of the session, where there is one.
    pub fn peer(session: &Option<Session>) -> Option<Node>
        ensures { result ≡ peer_of_session session.now }
    {
        match session {
            Some(session) => Some(Node::Ap(session.ap)),
            None => None,
        }
    }

    /// The end of the attempt that renews the key of the session, where there is one.
    pub fn leave_renewal(session: &Option<Session>, out: &mut Outbox)
        requires { 0 < out.old.spare }
        ensures acts { out.new.acts ≡ out.old.acts ++ close_pending (peer_of_renewal session.now) }
        ensures spare { out.old.spare ≤ out.new.spare + 1 }
    {
        let Some(session) = session else { return };
        if session.supplicant.is_renewing() {
            out.add(Act::Closed {
                peer: Node::Ap(session.ap),
                part: Part::Attempt,
            });
        }
    }

    /// The end of the session, where there is one.
    pub fn leave(session: &Option<Session>, out: &mut Outbox)
        requires { 0 < out.old.spare }
        ensures acts { out.new.acts ≡ out.old.acts
            ++ close_associated (peer_of_session session.now) }
        ensures spare { out.old.spare ≤ out.new.spare + 1 }
    {
        if let Some(session) = session {
            out.add(Act::Closed {
                peer: Node::Ap(session.ap),
                part: Part::Session,
            });
        }
    }
}
