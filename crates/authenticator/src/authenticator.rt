//! An access point's part with one station.

ghost use Rattle.std.specs.Prelude.{◌≡◌, ◌≢◌, ◌<◌, ◌≤◌, ℕ, List, [], ◌∷◌, length};
ghost use Rattle.std.specs.Prelude.{true, false, Option, Some, None, is_some};
ghost use Rattle.domain_base.specs.declared.names.Node.TheVariants.{Ap, Sta};
ghost use Rattle.air_frame.specs.Sent.{IsAddress};
ghost use Rattle.eapol_key.specs.Fields.{IsKeyFrame};
ghost use Rattle.eapol_key.specs.declared.messages.Message.TheVariants as messages;
ghost use Rattle.run_journal.specs.declared.acts.Act.{Act as AnyAct};
ghost use Rattle.run_journal.specs.declared.acts.Outcome.TheVariants.{Refused};
ghost use Rattle.run_journal.specs.declared.acts.Reason.{Reason as AnyReason};
ghost use Rattle.run_journal.specs.Replies.{IsEmpty, IsWhole};
ghost use Rattle.domain_rules.specs.Replies.{sent_acts};
ghost use Rattle.group_key.specs.News.{FitsNews, news_of};
ghost use Rattle.frame_making.specs.KeyData.{HasShortFte};
ghost use Rattle.frame_making.specs.Replied.{TellsNothing};
ghost use Rattle.domain_rules.specs.Network.{InForm};
ghost use Rattle.authenticator.specs.Starts.{rsne_in, first_acts, held_at_first};

use crate::agreement::Agreement;
use crate::attempt::{Attempt, M4};
use crate::base::{Association, Base};
use crate::m2::M2;
use crate::session::{Session, move_on};
use domain_base::Node;
use eapol_key::{KeyFrame, Message};
use group_key::{GroupKey, News};
use key_hierarchy::{LastDerived, Ptk};
use mac_prf::KeptMicKey;
use node_base::Ends;
use run_journal::{Domain, Kind, Outcome, Reason, Reply};
use std::marker::Model;

/// The replay counter of the first M1 after an association.
const FIRST_COUNTER: u64 = 1;

/// How an authenticator begins.
#[derive(Clone, Copy)]
pub enum ApStart<'a> {
    /// An association request was accepted.
    Connect {
        /// The ANonce that was drawn for the attempt.
        anonce: &'a [u8; 32],
        /// The whole RSNE of the request, from its id on: at most 257 octets.
        rsne: &'a [u8],
    },
    /// A fast transition installed that key.
    Ft {
        /// The key.
        ptk: &'a Ptk,
    },
}

/// What came of sending once more, with the message that was sent in vain.
#[derive(Clone, Copy)]
pub enum Again {
    /// M1 was sent once more, or from M2 on M3; or in a session G1.
    Sent,
    /// The attempt is given up, or with G1 the session: that message was sent as often as it may
    /// be.
    GaveUp(Message),
    /// Nothing waits for an answer.
    Nothing,
}

/// What came of sending once more.
#[derive(Clone, Copy)]
pub enum Retried {
    /// M1 was sent once more, or from M2 on M3; or in a session G1.
    Sent,
    /// The attempt is given up, or with G1 the session: the message was sent as often as it may be.
    /// The reply names its kind.
    GaveUp,
    /// Nothing waits for an answer.
    Nothing,
}

/// An access point's part with one station: an attempt, which is a four-way handshake
/// (IEEE Std 802.11-2020, 12.7.6), and a session, where there is one. A new attempt may stand
/// beside a session; it takes the session's place as it becomes one. It goes back to an association
/// of its own, or renews the key of the session. In a session the station is given new group keys
/// (12.7.7). It takes no memory.
#[derive(Drop)]
pub struct Authenticator {
    ends: Ends,
    attempt: Option<Attempt>,
    session: Option<Session>,
    // The KCK of the last M2 or G1: it shows in no result.
    kept: KeptMicKey,
}

impl Model for Authenticator {
    ghost use Rattle.authenticator.specs.State.{State};

    ghost Value = { State };

    ghost view = { λ s. record {
      ends = s.ends;
      attempt = s.attempt;
      session = s.session;
    } };
}

impl Authenticator {
    ghost use Rattle.authenticator.specs.State.{beginning, with_session, with_attempt};
    ghost use Rattle.authenticator.specs.Kinds.{kinds, renews_in, renewing, kinds_at_first};
    ghost use Rattle.authenticator.specs.Kinds.{kinds_after, kinds_again, can_renew, abandoned};
    ghost use Rattle.authenticator.specs.Steps.{IsNamed};
    ghost use Rattle.authenticator.specs.Begins.{StandsAtFirst};
    ghost use Rattle.authenticator.specs.Judged.{begun, frame_of, is_final_m4, is_final};
    ghost use Rattle.authenticator.specs.Sends.{SendsM1};
    ghost use Rattle.authenticator.specs.Groups.{owes_in, transferred};
    ghost use Rattle.authenticator.specs.Taken.{given, StepsFrom, Installs, Derives};
    ghost use Rattle.authenticator.specs.Taken.{RetriesFrom, GivesFrom, RenewsFrom, AbandonsFrom};
    ghost use Rattle.group_key.specs.Replied.{HasKeysOf};
    ghost use Rattle.authenticator.specs.Beside.{StepsBeside, StepsInSession, LeavesAttempt};
    ghost use Rattle.authenticator.specs.Beside.{session_after, RetriesBeside, LeavesAgain};
    ghost use Rattle.authenticator.specs.Beside.{GivesBeside, attempt_at_first};
    ghost use Rattle.authenticator.specs.declared.attempt.Attempt.{Attempt as AnyAttempt};
    ghost use Rattle.authenticator.specs.declared.session.Session.{Session as AnySession};

    /// Begins with an attempt, and sends M1 with replay counter 1 (IEEE Std 802.11-2020, 12.7.6.2);
    /// or with the session that a fast transition installed, and sends nothing. The reply has M1 or
    /// nothing, whatever was in it.
    pub fn begin(
        domain: &Domain,
        ap: u16,
        sta: u16,
        start: ApStart<'_>,
        derived: &mut LastDerived,
        reply: &mut Reply,
    ) -> Authenticator
        requires form { InForm domain.now }
        requires ap { ap < length domain.now.aps }
        requires sta { sta < length domain.now.stas }
        requires rsne { length (rsne_in start) ≤ 257 }
        ensures sends { sent_acts (Sta sta) reply.new
            ≡ first_acts domain.now (Ap ap) (Sta sta) start.entry }
        // after an association it stands for the history with M1, also beside the session of
        // another part; after a fast transition for the history as it is
        ensures stands { StandsAtFirst domain.now (Ap ap) (Sta sta) start.entry result }
        ensures session { result.session ≡ held_at_first start.entry }
        ensures attempt { is_some result.attempt ≡ attempt_at_first start.entry }
        ensures kinds { kinds result ≡ kinds_at_first start.entry }
        ensures told { TellsNothing reply.new }
        ensures whole { IsWhole reply.new }
    {
        let ends = Ends::between(domain, Node::Ap(ap), Node::Sta(sta));
        match start {
            ApStart::Connect { anonce, rsne } => {
                let base = Base::of(domain, ap, sta, derived);
                Authenticator::with_attempt(ends, base, anonce, rsne, reply)
            }
            ApStart::Ft { ptk } => {
                *reply = Reply::empty();
                Authenticator::after_transition(ends, ptk)
            }
        }
    }

    // With an attempt, whose M1 is sent.
    fn with_attempt(
        ends: Ends,
        base: Base,
        anonce: &[u8; 32],
        rsne: &[u8],
        reply: &mut Reply,
    ) -> Authenticator
        requires rsne { length rsne.now ≤ 257 }
        requires fte { HasShortFte base.mobility }
        ensures value { result ≡ beginning ends (Some (begun
            (record { base = base; rsne = rsne.now }) false 1 anonce.now)) None }
        ensures sends { SendsM1 ends 1 anonce.now reply.new }
        ensures told { TellsNothing reply.new }
        ensures whole { IsWhole reply.new }
        ensures addresses { IsAddress ends.own.0 × IsAddress ends.peer.0 }
    {
        let association = Association::of(base, rsne);
        let attempt = Attempt::begin(&ends, association, false, FIRST_COUNTER, anonce, reply);
        Authenticator {
            ends,
            attempt: Some(attempt),
            session: None,
            kept: KeptMicKey::none(),
        }
    }

    // With the session that a fast transition installed.
    fn after_transition(ends: Ends, ptk: &Ptk) -> Authenticator
        ensures { result ≡ beginning ends None (Some (transferred ptk.now)) }
    {
        Authenticator {
            ends,
            attempt: None,
            session: Some(Session::transferred(*ptk)),
            kept: KeptMicKey::none(),
        }
    }

    /// Whether there is an attempt.
    pub fn has_attempt(&self) -> bool
        ensures { result ≡ is_some self.now.attempt }
    {
        self.attempt.is_some()
    }

    /// Whether there is an attempt that renews the key of the session.
    pub fn is_renewing(&self) -> bool
        ensures { result ≡ renews_in self.now.attempt }
    {
        match &self.attempt {
            Some(attempt) => attempt.renews,
            None => false,
        }
    }

    /// Whether there is a session.
    pub fn has_session(&self) -> bool
        ensures { result ≡ is_some self.now.session }
    {
        self.session.is_some()
    }

    /// Whether that message of the station is the last of the attempt, by which it becomes a
    /// session: [`Authenticator::step`] accepts it and installs the key. By every other message it
    /// installs none.
    pub fn is_final(&self, message: Message, frame: &KeyFrame<'_>) -> bool
        requires { IsKeyFrame frame.now }
        ensures { result
            ≡ is_final self.now.ends.akm self.now.attempt message (frame_of frame.now) }
    {
        match message {
            Message::M4 => match &self.attempt {
                Some(attempt) => attempt.is_final(self.ends.akm, &self.kept, frame),
                None => false,
            },
            _ => false,
        }
    }

    /// Whether the session owes a G2 for that group key.
    pub fn owes(&self, group: &GroupKey) -> bool
        ensures { result ≡ owes_in group.now.place self.now.session }
    {
        match &self.session {
            Some(session) => session.owes(group),
            None => false,
        }
    }

    /// Whether the key of the session can be renewed: there is a session that goes back to an
    /// association, and no attempt.
    pub fn can_renew(&self) -> bool
        ensures { result ≡ can_renew self.now }
    {
        if self.attempt.is_some() {
            return false;
        }
        match &self.session {
            Some(session) => session.association.is_some(),
            None => false,
        }
    }

    /// Begins to renew the key of the session: the reply has M1 with the next replay counter, and
    /// nothing else, whatever was in it (IEEE Std 802.11-2020, 12.7.6.2). The session stays in use
    /// until the attempt becomes one.
    pub fn renew(&mut self, anonce: &[u8; 32], reply: &mut Reply)
        requires { can_renew self.old ≡ true }
        ensures renews { RenewsFrom self.old self.new anonce.now reply.new }
        ensures kinds { kinds self.new ≡ renewing }
        ensures owes { (place : ℕ) → owes_in place self.new.session
            ≡ owes_in place self.old.session }
        ensures told { TellsNothing reply.new }
        ensures whole { IsWhole reply.new }
    {
        let Some(session) = &mut self.session else {
            unreachable!()
        };
        let attempt = Attempt::renewing(session, &self.ends, anonce, reply);
        self.attempt = Some(attempt);
    }

    /// Drops an attempt that renews the key of the session, where there is one, and tells whether
    /// there was one. The session goes on.
    pub fn abandon(&mut self) -> bool
        ensures had { result ≡ renews_in self.old.attempt }
        ensures left { self.new ≡ abandoned self.old }
        ensures stands { AbandonsFrom self.old self.new }
    {
        let had = self.is_renewing();
        if had {
            self.attempt = None;
        }
        had
    }

    // Takes message 2. The newest group keys are given, with their counts of packet numbers.
    fn take_m2(
        &mut self,
        frame: &KeyFrame<'_>,
        news: &News,
        derived: &mut LastDerived,
        reply: &mut Reply,
    ) -> Outcome
        requires frame { IsKeyFrame frame.now }
        requires news { FitsNews news.now }
        requires empty { IsEmpty reply.old }
        ensures steps { StepsFrom self.old self.new
            (given messages.M2 (frame_of frame.now) news.now) result reply.new }
        ensures beside { (s : Option AnySession) → renews_in self.old.attempt ≡ false
            → StepsFrom (with_session s self.old) (with_session s self.new)
            (given messages.M2 (frame_of frame.now) news.now) result reply.new }
        ensures attempt { is_some self.new.attempt ≡ is_some self.old.attempt }
        ensures kinds { kinds self.new ≡ kinds self.old }
        ensures refused { (why : AnyReason) → result ≡ Refused why → self.new ≡ self.old }
        ensures installs { Installs result reply.new self.new }
        ensures derives { Derives self.old reply.new }
        ensures none { reply.new.installed ≡ None }
        ensures fits { IsWhole reply.new }
    {
        let Some(attempt) = &mut self.attempt else {
            return Outcome::Refused(Reason::Unawaited);
        };
        let key = match attempt.judge_m2(&self.ends, &mut self.kept, frame, derived) {
            M2::Refused(why) => return Outcome::Refused(why),
            M2::Other(fault, key) => {
                reply.verified = Some(key.ptk.kck);
                return Outcome::Refused(Reason::KeyData(fault));
            }
            M2::Agreed(key) => key,
        };
        let counter = attempt.next(&self.session);
        let plain = attempt.m3_key_data(&self.ends, news);
        let agreement = Agreement::of(&key, news, plain);
        attempt.answer_m2(&self.ends, &self.kept, counter, agreement, reply);
        let renews = attempt.renews;
        move_on(&mut self.session, renews, counter);
        Outcome::Accepted
    }

    // Takes message 4: where it is accepted, the session that the attempt becomes takes the place
    // of the one there was. Where M3 carried older group keys than the newest, G1 follows.
    fn take_m4(
        &mut self,
        frame: &KeyFrame<'_>,
        is_last: bool,
        news: &News,
        reply: &mut Reply,
    ) -> Outcome
        requires judged { is_last
            ≡ is_final_m4 self.old.ends.akm self.old.attempt (frame_of frame.now) }
        requires news { FitsNews news.now }
        requires empty { IsEmpty reply.old }
        ensures steps { StepsFrom self.old self.new
            (given messages.M4 (frame_of frame.now) news.now) result reply.new }
        ensures beside { (s : Option AnySession) → renews_in self.old.attempt ≡ false
            → StepsFrom (with_session s self.old)
            (with_session (session_after reply.new.installed self.new.session s) self.new)
            (given messages.M4 (frame_of frame.now) news.now) result reply.new }
        ensures attempt { LeavesAttempt reply.new.installed self.old self.new }
        ensures kinds { kinds self.new ≡ kinds_after reply.new.installed (kinds self.old) }
        ensures refused { (why : AnyReason) → result ≡ Refused why → self.new ≡ self.old }
        ensures installs { Installs result reply.new self.new }
        ensures derives { Derives self.old reply.new }
        ensures is_final { is_some reply.new.installed
            ≡ is_final_m4 self.old.ends.akm self.old.attempt (frame_of frame.now) }
        ensures underived { reply.new.derived ≡ None }
        ensures fits { IsWhole reply.new }
    {
        let Some(attempt) = self.attempt.take() else {
            return Outcome::Refused(Reason::Unawaited);
        };
        let last = attempt.last(&self.session);
        match attempt.finish(is_last, last, &news.gtk, frame) {
            M4::Refused(why, attempt) => {
                self.attempt = Some(attempt);
                Outcome::Refused(why)
            }
            M4::Finished(finish) => {
                let session = finish.install(&self.ends, &mut self.kept, news, reply);
                self.session = Some(session);
                Outcome::Accepted
            }
        }
    }

    // Takes message 2 of the group key handshake: it is awaited where the session owes it.
    fn take_g2(&mut self, frame: &KeyFrame<'_>, news: &News, reply: &mut Reply) -> Outcome
        requires frame { IsKeyFrame frame.now }
        requires empty { IsEmpty reply.old }
        ensures steps { StepsFrom self.old self.new
            (given messages.G2 (frame_of frame.now) news.now) result reply.new }
        ensures beside { (a : Option AnyAttempt)
            → StepsFrom (with_attempt a self.old) (with_attempt a self.new)
            (given messages.G2 (frame_of frame.now) news.now) result reply.new }
        ensures attempt { self.new.attempt ≡ self.old.attempt }
        ensures kinds { kinds self.new ≡ kinds self.old }
        ensures refused { (why : AnyReason) → result ≡ Refused why → self.new ≡ self.old }
        ensures installs { Installs result reply.new self.new }
        ensures derives { Derives self.old reply.new }
        ensures none { reply.new.installed ≡ None }
        ensures underived { reply.new.derived ≡ None }
        ensures fits { IsWhole reply.new }
    {
        let Some(session) = &mut self.session else {
            return Outcome::Refused(Reason::Unawaited);
        };
        match session.judge_g2(self.ends.akm, &self.kept, &news.gtk, frame) {
            Err(why) => return Outcome::Refused(why),
            Ok(()) => {}
        }
        reply.verified = Some(session.ptk.kck);
        session.answer();
        Outcome::Accepted
    }

    /// Takes a message of the station. The newest GTK and the count of packet numbers that were used
    /// under it go into M3, and into G1 where an M4 answers an M3 with older group keys; so do the
    /// newest IGTK and its count, where there is one. By the second version of the rules an M2 with
    /// Secure set is awaited in an attempt that renews a key alone, and one with Secure clear in
    /// another (IEEE Std 802.11-2020, 12.7.6.3).
    ///
    /// What is sent, derived and installed comes into the reply, whatever was in it. A refusal does
    /// not change the authenticator.
    #[tactic(auto, using(group_key::proofs::Newest::fits_as))]
    pub fn step(
        &mut self,
        message: Message,
        frame: &KeyFrame<'_>,
        newest: &GroupKey,
        rsc: u64,
        igtk: Option<(&GroupKey, u64)>,
        reply: &mut Reply,
    ) -> Outcome
        requires frame { IsKeyFrame frame.now }
        requires news { FitsNews (news_of newest.now rsc igtk) }
        ensures steps { StepsFrom self.old self.new
            (given message (frame_of frame.now) (news_of newest.now rsc igtk.entry))
            result reply.new }
        // an attempt that renews no key steps so beside whatever session there is, and a session
        // beside whatever attempt
        ensures beside { StepsBeside self.old self.new
            (given message (frame_of frame.now) (news_of newest.now rsc igtk.entry))
            result reply.new }
        ensures in_session { StepsInSession self.old self.new
            (given message (frame_of frame.now) (news_of newest.now rsc igtk.entry))
            result reply.new }
        ensures attempt { LeavesAttempt reply.new.installed self.old self.new }
        ensures kinds { kinds self.new ≡ kinds_after reply.new.installed (kinds self.old) }
        ensures refused { (why : AnyReason) → result ≡ Refused why → self.new ≡ self.old }
        ensures installs { Installs result reply.new self.new }
        ensures derives { Derives self.old reply.new }
        ensures is_final { is_some reply.new.installed
            ≡ is_final self.old.ends.akm self.old.attempt message (frame_of frame.now) }
        ensures keys { HasKeysOf message reply.new }
        ensures whole { IsWhole reply.new }
    {
        let is_last = self.is_final(message, frame);
        let mut derived = LastDerived::none();
        let news = News::of(newest, rsc, igtk);
        self.step_judged(message, frame, is_last, &news, &mut derived, reply)
    }

    /// Takes a message of which [`Authenticator::is_final`] was found, as [`Authenticator::step`]
    /// does: so the MIC of an M4 is verified once. `derived` has the keys that the access point
    /// derived last, which show in no result.
    pub fn step_judged(
        &mut self,
        message: Message,
        frame: &KeyFrame<'_>,
        is_last: bool,
        news: &News,
        derived: &mut LastDerived,
        reply: &mut Reply,
    ) -> Outcome
        requires frame { IsKeyFrame frame.now }
        requires judged { is_last
            ≡ is_final self.old.ends.akm self.old.attempt message (frame_of frame.now) }
        requires news { FitsNews news.now }
        ensures steps { StepsFrom self.old self.new
            (given message (frame_of frame.now) news.now) result reply.new }
        ensures beside { StepsBeside self.old self.new
            (given message (frame_of frame.now) news.now) result reply.new }
        ensures in_session { StepsInSession self.old self.new
            (given message (frame_of frame.now) news.now) result reply.new }
        ensures attempt { LeavesAttempt reply.new.installed self.old self.new }
        ensures kinds { kinds self.new ≡ kinds_after reply.new.installed (kinds self.old) }
        ensures refused { (why : AnyReason) → result ≡ Refused why → self.new ≡ self.old }
        ensures installs { Installs result reply.new self.new }
        ensures derives { Derives self.old reply.new }
        ensures is_final { is_some reply.new.installed
            ≡ is_final self.old.ends.akm self.old.attempt message (frame_of frame.now) }
        ensures keys { HasKeysOf message reply.new }
        ensures whole { IsWhole reply.new }
    {
        *reply = Reply::empty();
        match message {
            Message::M2 => self.take_m2(frame, news, derived, reply),
            Message::M4 => self.take_m4(frame, is_last, news, reply),
            Message::G2 => self.take_g2(frame, news, reply),
            _ => Outcome::Refused(Reason::Unawaited),
        }
    }

    // Sends G1 once more in a session that owes its answer, or gives the session up.
    fn ask_again(&mut self, news: &News, reply: &mut Reply) -> Again
        requires none { self.old.attempt ≡ None }
        requires news { FitsNews news.now }
        requires empty { IsEmpty reply.old }
        ensures retries { RetriesFrom self.old self.new news.now result reply.new }
        ensures leaves { LeavesAgain self.old.attempt result self.old self.new }
        ensures kinds { kinds self.new ≡ kinds_again result (kinds self.old) }
        ensures told { TellsNothing reply.new }
        ensures silent { result ≢ Again.Sent → reply.new.len ≡ 0 }
        ensures whole { IsWhole reply.new }
    {
        let Some(session) = &mut self.session else {
            return Again::Nothing;
        };
        if !session.owes(&news.gtk) {
            return Again::Nothing;
        }
        if session.is_in_vain(&news.gtk) {
            self.session = None;
            return Again::GaveUp(Message::G1);
        }
        session.send_g1(&self.ends, &mut self.kept, news, reply);
        Again::Sent
    }

    /// Sends M1, or from M2 on M3, once more; without an attempt G1 in a session that owes its
    /// answer: at most four times each, G1 for each group key. Then the attempt, or with G1 the
    /// session, is given up (IEEE Std 802.11-2020, 12.7.6.6 and 12.7.7.4). The newest group keys,
    /// with their counts of packet numbers, go into G1, and into the M3 of an attempt that renews a
    /// key; another M3 is sent as it was first.
    ///
    /// The reply has the message and nothing else, whatever was in it; nothing is sent where it is
    /// given up, or where nothing waits.
    pub fn send_again(&mut self, news: &News, reply: &mut Reply) -> Again
        requires { FitsNews news.now }
        ensures retries { RetriesFrom self.old self.new news.now result reply.new }
        // an attempt that renews no key is sent again so beside whatever session there is
        ensures beside { RetriesBeside self.old self.new news.now result reply.new }
        ensures leaves { LeavesAgain self.old.attempt result self.old self.new }
        ensures kinds { kinds self.new ≡ kinds_again result (kinds self.old) }
        ensures told { TellsNothing reply.new }
        ensures silent { result ≢ Again.Sent → reply.new.len ≡ 0 }
        ensures whole { IsWhole reply.new }
    {
        *reply = Reply::empty();
        let Some(attempt) = &mut self.attempt else {
            return self.ask_again(news, reply);
        };
        let counter = attempt.next(&self.session);
        match attempt.send_again(&self.ends, &self.kept, counter, news, reply) {
            Ok(()) => {
                let renews = attempt.renews;
                move_on(&mut self.session, renews, counter);
                Again::Sent
            }
            Err(message) => {
                self.attempt = None;
                Again::GaveUp(message)
            }
        }
    }

    /// As [`Authenticator::send_again`], but where something is given up it is the reply that names
    /// the kind of the message that was sent in vain.
    #[tactic(auto, using(group_key::proofs::Newest::fits_as))]
    pub fn retry(
        &mut self,
        newest: &GroupKey,
        rsc: u64,
        igtk: Option<(&GroupKey, u64)>,
        reply: &mut Reply,
    ) -> Retried
        requires { FitsNews (news_of newest.now rsc igtk) }
        ensures retries { (came : Again) × IsNamed came result reply.new.kind
            × RetriesFrom self.old self.new (news_of newest.now rsc igtk.entry) came reply.new }
        ensures told { TellsNothing reply.new }
        ensures silent { result ≢ Retried.Sent → reply.new.len ≡ 0 }
        ensures whole { IsWhole reply.new }
    {
        let news = News::of(newest, rsc, igtk);
        match self.send_again(&news, reply) {
            Again::Sent => Retried::Sent,
            Again::GaveUp(message) => {
                reply.kind = Kind::Key(message);
                Retried::GaveUp
            }
            Again::Nothing => Retried::Nothing,
        }
    }

    /// Sends G1 in the session, with the newest GTK and IGTK, of which so many packet numbers were
    /// used (IEEE Std 802.11-2020, 12.7.7.2). The reply has G1 and nothing else, whatever was in
    /// it.
    #[tactic(auto, using(group_key::proofs::Newest::fits_as))]
    pub fn group(
        &mut self,
        newest: &GroupKey,
        rsc: u64,
        igtk: Option<(&GroupKey, u64)>,
        reply: &mut Reply,
    )
        requires session { is_some self.old.session ≡ true }
        requires news { FitsNews (news_of newest.now rsc igtk) }
        ensures gives { GivesFrom self.old self.new (news_of newest.now rsc igtk.entry) reply.new }
        ensures beside { GivesBeside self.old self.new (news_of newest.now rsc igtk.entry)
            reply.new }
        ensures attempt { self.new.attempt ≡ self.old.attempt }
        ensures session { is_some self.new.session ≡ true }
        ensures kinds { kinds self.new ≡ kinds self.old }
        ensures told { TellsNothing reply.new }
        ensures whole { IsWhole reply.new }
    {
        *reply = Reply::empty();
        let Some(session) = &mut self.session else {
            unreachable!()
        };
        let news = News::of(newest, rsc, igtk);
        session.send_g1(&self.ends, &mut self.kept, &news, reply);
    }
}
