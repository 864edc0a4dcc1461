//! What an access point has with one station.

ghost use Rattle.std.specs.Prelude.{◌≡◌, Some, is_some};
ghost use Rattle.eapol_key.specs.Fields.{IsKeyFrame};
ghost use Rattle.run_journal.specs.Replies.{IsWhole};
ghost use Rattle.group_key.specs.News.{FitsNews};
ghost use Rattle.authenticator.specs.Judged.{frame_of};
ghost use Rattle.authenticator.specs.State.{State as AnyPart};
ghost use Rattle.ap_node.specs.declared.station.Attempt.TheVariants.{Association};
ghost use Rattle.ap_node.specs.State.{no_station, moves_in, pending_by, held_by, with_moves};
ghost use Rattle.ap_node.specs.State.{without_moves, associated, with_pending, without_held};
ghost use Rattle.ap_node.specs.State.{with_held, has_attempt, begun_over};
ghost use Rattle.ap_node.specs.State.{renewal_by, unrenewed};
ghost use Rattle.ap_node.specs.Counts.{owes_part};
ghost use Rattle.ap_node.specs.Parts.{part_by, transited, after_step, kept_after};
ghost use Rattle.ap_node.specs.Parts.{is_final_in, is_final_at, IsAgainInSession, IsSentAgain};

use authenticator::{Again, Authenticator};
use data_frames::DataKey;
use eapol_key::Message;
use frame_intake::KeyMessage;
use ft_exchange::Target;
use group_key::{GroupKey, News};
use run_journal::{Keyed, Reply};
use targets::Moves;

/// An attempt of a station beside its session. One of either kind excludes one of the other.
#[derive(Drop)]
pub enum Attempt {
    /// By association: the part in the four-way handshake.
    Association(Authenticator),
    /// By fast transition.
    Transition(Target),
}

/// A session with a station.
#[derive(Drop)]
pub struct Session {
    /// The part in the group key handshakes, and in an attempt that renews the pairwise key, which
    /// excludes one beside the session.
    pub part: Authenticator,
    /// The pairwise key.
    pub key: DataKey,
    /// The fast transition that it came of, where it came of one.
    pub came_of: Option<Target>,
}

/// What an access point has with a station: an attempt and a session, side by side.
#[derive(Drop)]
pub struct Station {
    /// The attempt, where one is under way that does not renew the key of the session.
    pub attempt: Option<Attempt>,
    /// The session, where there is one.
    pub session: Option<Session>,
}

// Takes the part of an attempt by association out.
fn take_part(attempt: &mut Option<Attempt>) -> Option<Authenticator>
    ensures part { result ≡ part_by attempt.old }
    ensures left { attempt.new ≡ transited attempt.old }
{
    match attempt.take() {
        Some(Attempt::Association(part)) => Some(part),
        Some(Attempt::Transition(target)) => {
            *attempt = Some(Attempt::Transition(target));
            None
        }
        None => None,
    }
}

// Whether there is an attempt that renews the key of the session.
fn is_renewed(session: &Option<Session>) -> bool
    ensures { result ≡ is_some (renewal_by session.now) }
{
    match session {
        Some(session) => session.part.has_attempt(),
        None => false,
    }
}

// Drops the attempt that renews the key of the session, if there is one.
fn abandon(session: &mut Option<Session>)
    ensures { session.new ≡ unrenewed session.old }
{
    if let Some(session) = session {
        session.part.abandon();
    }
}

// Whether a message is the last of the attempt that renews the key of the session.
fn is_last(session: &Option<Session>, message: &KeyMessage<'_>) -> bool
    requires { IsKeyFrame message.now.frame }
    ensures { result
        ≡ is_final_in session.now message.now.message (frame_of message.now.frame) }
{
    match session {
        Some(session) => session.part.is_final(message.message, &message.frame),
        None => false,
    }
}

// Sends once more in the session, where there is one: where that is given up it is at its end.
fn session_again(session: &mut Option<Session>, newest: &News, reply: &mut Reply) -> Again
    requires news { FitsNews newest.now }
    requires whole { IsWhole reply.old }
    ensures again { IsAgainInSession newest.now session.old session.new result reply.new }
    ensures whole { IsWhole reply.new }
{
    match session {
        Some(kept) => {
            let came = kept.part.send_again(newest, reply);
            if let Again::GaveUp(Message::G1) = came {
                *session = None;
            }
            came
        }
        None => Again::Nothing,
    }
}

// Takes an attempt by fast transition out.
fn take_pending(attempt: &mut Option<Attempt>) -> Option<Target>
    ensures pending { result ≡ pending_by attempt.old }
    ensures left { attempt.new ≡ associated attempt.old }
{
    match attempt.take() {
        Some(Attempt::Transition(target)) => Some(target),
        Some(Attempt::Association(part)) => {
            *attempt = Some(Attempt::Association(part));
            None
        }
        None => None,
    }
}

// An attempt by fast transition takes the place of the one that there is.
fn put_pending(attempt: &mut Option<Attempt>, pending: Option<Target>)
    ensures { attempt.new ≡ with_pending pending attempt.old }
{
    if let Some(target) = pending {
        *attempt = Some(Attempt::Transition(target));
    }
}

// Takes what a session came of out.
fn take_held(session: &mut Option<Session>) -> Option<Target>
    ensures held { result ≡ held_by session.old }
    ensures left { session.new ≡ without_held session.old }
{
    match session {
        Some(session) => session.came_of.take(),
        None => None,
    }
}

// Puts it back.
fn put_held(session: &mut Option<Session>, held: Option<Target>)
    ensures { session.new ≡ with_held held session.old }
{
    if let Some(session) = session {
        session.came_of = held;
    }
}

impl Session {
    /// A key that the part installed is in use from then on, and the session came of no fast
    /// transition.
    pub fn use_key(&mut self, installed: Option<Keyed>)
        ensures { self.new ≡ kept_after self.old.part installed self.old }
    {
        if let Some(key) = installed {
            self.key = DataKey::pairwise(&key.ptk.tk);
            self.came_of = None;
        }
    }
}

impl Station {
    /// Neither an attempt nor a session.
    pub fn none() -> Self
        ensures { result ≡ no_station }
    {
        Station {
            attempt: None,
            session: None,
        }
    }

    /// Whether an attempt is under way, of whatever kind.
    pub fn has_attempt(&self) -> bool
        ensures { result ≡ has_attempt self.now }
    {
        self.attempt.is_some() || is_renewed(&self.session)
    }

    /// Begins an attempt by association, and tells whether there was an attempt, which is at its
    /// end. The session goes on.
    pub fn begin(&mut self, part: Authenticator) -> bool
        ensures had { result ≡ has_attempt self.old }
        ensures begun { self.new ≡ begun_over self.old part }
    {
        let had_attempt = self.has_attempt();
        abandon(&mut self.session);
        self.attempt = Some(Attempt::Association(part));
        had_attempt
    }

    /// Whether an EAPOL-Key message of the station is the last of its attempt.
    pub fn is_final(&self, message: &KeyMessage<'_>) -> bool
        requires { IsKeyFrame message.now.frame }
        ensures { result
            ≡ is_final_at self.now message.now.message (frame_of message.now.frame) }
    {
        match &self.attempt {
            Some(Attempt::Association(part)) => part.is_final(message.message, &message.frame),
            Some(Attempt::Transition(_)) => is_last(&self.session, message),
            None => is_last(&self.session, message),
        }
    }

    /// A key that the part of an attempt by association installed, if it did, is in use from then
    /// on: the attempt has become the session, which came of no fast transition. Without such an
    /// attempt nothing changes.
    pub fn seat(&mut self, installed: Option<Keyed>)
        ensures { (part : AnyPart) → self.old.attempt ≡ Some (Association part)
            → self.new ≡ after_step part installed self.old }
    {
        let Some(key) = installed else {
            return;
        };
        let Some(part) = take_part(&mut self.attempt) else {
            return;
        };
        let key = DataKey::pairwise(&key.ptk.tk);
        self.session = Some(Session {
            part,
            key,
            came_of: None,
        });
    }

    /// Sends once more what waits for an answer of the station: of an attempt by association, or
    /// without one of the session.
    pub fn send_again(&mut self, newest: &News, reply: &mut Reply) -> Again
        requires news { FitsNews newest.now }
        requires whole { IsWhole reply.old }
        ensures again { IsSentAgain newest.now self.old self.new result reply.new }
        ensures whole { IsWhole reply.new }
    {
        match &mut self.attempt {
            Some(Attempt::Association(part)) => {
                let came = part.send_again(newest, reply);
                if let Again::GaveUp(_) = came {
                    self.attempt = None;
                }
                came
            }
            Some(Attempt::Transition(_)) => session_again(&mut self.session, newest, reply),
            None => session_again(&mut self.session, newest, reply),
        }
    }

    /// Whether the session owes a G2 for that group key.
    pub fn owes(&self, group: &GroupKey) -> bool
        ensures { result ≡ owes_part group.now.place self.now }
    {
        match &self.session {
            Some(session) => session.part.owes(group),
            None => false,
        }
    }

    /// Takes the fast transitions out, which are to be put back.
    pub fn take_moves(&mut self) -> Moves
        ensures moves { result ≡ moves_in self.old }
        ensures left { self.new ≡ without_moves self.old }
    {
        Moves {
            pending: take_pending(&mut self.attempt),
            held: take_held(&mut self.session),
        }
    }

    /// Puts fast transitions in: an attempt takes the place of the one that there is, and the
    /// session came of that one.
    pub fn put_moves(&mut self, moves: Moves)
        ensures { self.new ≡ with_moves moves self.old }
    {
        let Moves { pending, held } = moves;
        put_pending(&mut self.attempt, pending);
        put_held(&mut self.session, held);
    }
}
