//! The attempt of a station.

ghost use Rattle.std.specs.Prelude.{◌≡◌, ◌<◌, ◌≤◌, ◌+◌, ◌++◌, ◌∷◌, [], ℕ, Some, None, MatchOption};
ghost use Rattle.domain_base.specs.declared.names.Node.TheVariants.{Ap};
ghost use Rattle.run_journal.specs.declared.acts.Act.TheVariants.{Opened, Drew};
ghost use Rattle.run_journal.specs.declared.acts.Drawn.TheVariants.{Nonce};
ghost use Rattle.run_journal.specs.declared.acts.Start.TheVariants.{Connect, Roam};
ghost use Rattle.domain_rules.specs.Closing.{close_pending};

use crate::session::Session;
use act_memory::Outbox;
use data_frames::DataKey;
use domain_base::Node;
use ft_exchange::Originator;
use run_journal::{Act, Drawn, Part, Start};
use supplicant::Supplicant;

/// How far the association of an attempt is.
#[derive(Drop)]
pub enum Association {
    /// It was requested, with that SNonce drawn for the attempt.
    Requested([u8; 32]),
    /// It was accepted, and the four-way handshake goes on.
    Accepted(Supplicant),
    /// A fast transition goes on, from the session with another access point.
    Moving(Originator),
}

/// An attempt of a station.
#[derive(Drop)]
pub struct Attempt {
    /// The number of the access point.
    pub ap: u16,
    /// The association with it.
    pub association: Association,
}

impl Attempt {
    ghost use Rattle.supplicant.specs.State.{State as SupplicantState};
    ghost use Rattle.data_frames.specs.Holding.{fresh_key};
    ghost use Rattle.station_node.specs.Parts.{peer_of_attempt, IsNotRequested};

    /// The nonce of the attempt in which association was requested of that access point.
    pub fn requested(attempt: &Option<Attempt>, ap: u16) -> Option<[u8; 32]>
        ensures { MatchOption result (IsNotRequested attempt.now ap)
            (λ v. attempt.now ≡ Some (record { ap = ap; association = Association.Requested v })) }
    {
        match attempt {
            Some(
                Attempt {
                    ap: with,
                    association: Association::Requested(snonce),
                },
            ) if *with == ap => Some(*snonce),
            _ => None,
        }
    }

    /// The end of the attempt, where there is one.
    pub fn leave(attempt: &Option<Attempt>, out: &mut Outbox)
        requires { 0 < out.old.spare }
        ensures acts { out.new.acts ≡ out.old.acts ++ close_pending (peer_of_attempt attempt.now) }
        ensures spare { out.old.spare ≤ out.new.spare + 1 }
    {
        if let Some(attempt) = attempt {
            out.add(Act::Closed {
                peer: Node::Ap(attempt.ap),
                part: Part::Attempt,
            });
        }
    }

    /// The beginning of an attempt with that access point, with that nonce.
    pub fn connect(ap: u16, snonce: [u8; 32], out: &mut Outbox)
        requires { 2 ≤ out.old.spare }
        ensures acts { out.new.acts
            ≡ (out.old.acts ++ Opened (Ap ap) Connect ∷ []) ++ Drew (Nonce snonce) ∷ [] }
        ensures spare { out.old.spare ≤ out.new.spare + 2 }
    {
        out.add(Act::Opened {
            peer: Node::Ap(ap),
            start: Start::Connect,
        });
        out.add(Act::Drew {
            value: Drawn::Nonce(snonce),
        });
    }

    /// The beginning of a fast transition to that access point, with that nonce.
    pub fn roam(ap: u16, snonce: [u8; 32], out: &mut Outbox)
        requires { 2 ≤ out.old.spare }
        ensures acts { out.new.acts ≡ out.old.acts
            ++ Opened (Ap ap) Roam ∷ Drew (Nonce snonce) ∷ [] }
        ensures spare { out.old.spare ≤ out.new.spare + 2 }
    {
        out.add(Act::Opened {
            peer: Node::Ap(ap),
            start: Start::Roam,
        });
        out.add(Act::Drew {
            value: Drawn::Nonce(snonce),
        });
    }

    /// The attempt, in which M3 was accepted, becomes the session under that key.
    pub fn finish(attempt: &mut Option<Attempt>, session: &mut Option<Session>, tk: &[u8; 16])
        ensures { (ap : ℕ) (s : SupplicantState)
            → attempt.old ≡ Some (record { ap = ap; association = Association.Accepted s })
            → (attempt.new ≡ None)
            × (session.new ≡ Some (record { ap = ap; supplicant = s; key = fresh_key tk.now })) }
    {
        match attempt.take() {
            Some(
                Attempt {
                    ap,
                    association: Association::Accepted(supplicant),
                },
            ) => {
                let key = DataKey::pairwise(tk);
                *session = Some(Session {
                    ap,
                    supplicant,
                    key,
                });
            }
            other => *attempt = other,
        }
    }
}
