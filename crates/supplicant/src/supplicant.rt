//! A supplicant, and what each message does to it.

ghost use Rattle.std.specs.Prelude.{◌≡◌, ◌≤◌, ◌<◌, true, Some, None, length, is_some};
ghost use Rattle.std.specs.Option.{option_copied};
ghost use Rattle.domain_rules.specs.Network.{InForm};
ghost use Rattle.domain_base.specs.declared.names.Akm.TheVariants.{FtPsk};
ghost use Rattle.domain_base.specs.declared.names.Node.TheVariants.{Ap, Sta};
ghost use Rattle.eapol_key.specs.declared.messages.Message.TheVariants.{M1, M3, G1};
ghost use Rattle.eapol_key.specs.Fields.{IsKeyFrame};
ghost use Rattle.run_journal.specs.Replies.{IsEmpty};
ghost use Rattle.group_key.specs.Keys.{Memories};
ghost use Rattle.group_key.specs.Replied.{HasKeysOf};
ghost use Rattle.node_base.specs.Ends.{AreEnds};
ghost use Rattle.supplicant.specs.Exchange.{is_under, tried_by};
ghost use Rattle.supplicant.specs.State.{both, is_renewing};
ghost use Rattle.supplicant.specs.Starts.{begun, held_at_first, fte_in_start};
ghost use Rattle.supplicant.specs.Starts.{NamesHolderWhere, IsBaseAtFirst};
ghost use Rattle.supplicant.specs.Taken.{IsTaken, IsOpening, may_renew};

use crate::attempt::Attempt;
use crate::base::Base;
use crate::m3::not_above;
use crate::session::{Session, counter_in, is_connected};
use domain_base::Node;
use eapol_key::{KeyFrame, Message};
use group_key::GroupMemory;
use key_hierarchy::{LastDerived, Ptk};
use mac_prf::KeptMicKey;
use node_base::Ends;
use run_journal::{Domain, Keyed, Outcome, Reason, Reply};
use std::marker::Model;

/// How a supplicant begins.
#[derive(Clone, Copy)]
pub enum StaStart<'a> {
    /// An association response was accepted, in an attempt with that SNonce.
    Connect {
        /// The nonce that was drawn for the attempt.
        snonce: &'a [u8; 32],
        /// With suite 4 the whole FTE of the response, from its id on: at most 257 octets. Else
        /// none.
        fte: &'a [u8],
    },
    /// A fast transition installed that key.
    Ft {
        /// The key.
        ptk: &'a Ptk,
    },
}

/// A station's part with one access point: an attempt, a session, a session and an attempt that
/// renews its key, or neither. No call takes memory.
#[derive(Drop)]
pub struct Supplicant {
    ends: Ends,
    base: Base,
    attempt: Option<Attempt>,
    session: Option<Session>,
    // The KCK of the last M1 or G1: it shows in no result.
    kept: KeptMicKey,
}

impl Model for Supplicant {
    ghost use Rattle.supplicant.specs.State.{State};
    ghost use Rattle.supplicant.specs.Keys.{IsOwn};

    ghost Value = { State };

    ghost view = { λ s. record {
      ends = s.ends;
      base = s.base;
      attempt = s.attempt;
      session = s.session;
    } };

    ghost invariant = { λ s. IsOwn s.ends s.base s.attempt s.session };
}

impl Supplicant {
    /// The R0KH-ID of the association, with suite 4: what the keys that a reply tells of go back
    /// to.
    pub fn r0kh_id(&self) -> &[u8]
        ensures { result.now ≡ self.now.base.r0kh_id }
    {
        self.base.r0kh_id.as_slice()
    }

    /// Of a station with an access point, by their places in the lists.
    pub fn begin(
        domain: &Domain,
        sta: u16,
        ap: u16,
        start: StaStart<'_>,
        derived: &mut LastDerived,
    ) -> Self
        requires form { InForm domain.now }
        requires sta { sta < length domain.now.stas }
        requires ap { ap < length domain.now.aps }
        requires fte { length (fte_in_start start) ≤ 257 }
        requires holder { domain.now.akm ≡ FtPsk → NamesHolderWhere start }
        ensures ends { AreEnds domain.now (Sta sta) (Ap ap) result.ends }
        ensures base { IsBaseAtFirst domain.now (Sta sta) (Ap ap) start.entry result.base }
        ensures attempt { result.attempt ≡ begun start.entry }
        ensures session { result.session ≡ held_at_first start.entry }
    {
        let ends = Ends::between(domain, Node::Sta(sta), Node::Ap(ap));
        Supplicant {
            ends,
            base: first_base(domain, sta, ap, start, derived),
            attempt: first_attempt(start),
            session: first_session(start),
            kept: KeptMicKey::none(),
        }
    }

    /// Whether there is a session.
    pub fn has_session(&self) -> bool
        ensures { result ≡ is_some self.now.session }
    {
        self.session.is_some()
    }

    /// Whether an attempt is under way that renews the key of the session.
    pub fn is_renewing(&self) -> bool
        ensures { result ≡ is_renewing self.now }
    {
        self.attempt.is_some() && self.session.is_some()
    }

    /// Whether there is a session of a four-way handshake, and no attempt.
    pub fn may_renew(&self) -> bool
        ensures { result ≡ may_renew self.now }
    {
        !self.attempt.is_some() && is_connected(self.session)
    }

    /// Takes an EAPOL-Key message of the access point: its kind and its frame, which is no M1 that
    /// begins to renew the key of the session.
    ///
    /// In an attempt M1 gives the key and M2 answers it, and M3 installs the keys and M4 answers
    /// it; in a session M3 is answered once more, and G1 gives the group keys and G2 answers it.
    /// Where management frames are protected, the group keys are a GTK and an IGTK. Where the
    /// attempt renews the key of the session, M3 is judged under the attempt's key where its nonce
    /// is that of the last M1, else under that of the session. The memory is of the group keys of
    /// that access point. What is sent, derived and installed comes into the reply, whatever was in
    /// it. A refusal changes neither the supplicant nor the memory.
    /// `derived` has the keys that the station derived last, which show in no result.
    pub fn step(
        &mut self,
        message: Message,
        frame: &KeyFrame<'_>,
        memory: &mut GroupMemory,
        derived: &mut LastDerived,
        reply: &mut Reply,
    ) -> Outcome
        requires frame { IsKeyFrame frame.now }
        ensures taken { IsTaken message frame.now (both self.old memory.old)
            (both self.new memory.new) result reply.new }
        ensures keys { HasKeysOf message reply.new }
    {
        *reply = Reply::empty();
        match message {
            Message::M1 => self.take_m1(frame, derived, reply),
            Message::M3 => self.take_m3(frame, memory, reply),
            Message::G1 => self.take_g1(frame, memory, reply),
            _ => Outcome::Refused(Reason::Unawaited),
        }
    }

    /// Takes message 1 of a handshake that renews the key of the session: an attempt begins under
    /// that SNonce, which is none exactly where no more can be drawn, and M2 answers with Secure
    /// set (IEEE Std 802.11-2020, 12.7.6.2). The reply is as after `step`, and so is `derived`.
    pub fn renew(
        &mut self,
        frame: &KeyFrame<'_>,
        snonce: Option<&[u8; 32]>,
        derived: &mut LastDerived,
        reply: &mut Reply,
    ) -> Outcome
        requires ready { may_renew self.old ≡ true }
        ensures opening { IsOpening frame.now (option_copied snonce.entry) self.old self.new result
            reply.new }
        ensures keys { HasKeysOf M1 reply.new }
    {
        *reply = Reply::empty();
        if let Some(was) = not_above(counter_in(self.session), frame.counter) {
            return Outcome::Refused(Reason::Counter(was));
        }
        match snonce {
            None => Outcome::Refused(Reason::Spent),
            Some(snonce) => {
                let attempt = Attempt::begin(*snonce);
                let (ends, base, kept) = (&self.ends, &self.base, &mut self.kept);
                let begun = attempt.take_m1(ends, base, kept, frame, true, derived, reply);
                self.attempt = Some(begun);
                Outcome::Accepted
            }
        }
    }

    /// Neither attempt nor session.
    pub fn retire(&mut self)
        ensures { self.new ≡ record self.old { attempt = None; session = None } }
    {
        self.attempt = None;
        self.session = None;
    }

    // M1 goes to the attempt.
    fn take_m1(
        &mut self,
        frame: &KeyFrame<'_>,
        derived: &mut LastDerived,
        reply: &mut Reply,
    ) -> Outcome
        requires empty { IsEmpty reply.old }
        ensures taken { (had : Memories) →
            IsTaken M1 frame.now (both self.old had) (both self.new had) result reply.new }
        ensures keys { HasKeysOf M1 reply.new }
    {
        let Some(attempt) = self.attempt else {
            return Outcome::Refused(Reason::Unawaited);
        };
        self.take_m1_in(attempt, frame, derived, reply)
    }

    // In that attempt, which is the own one. Where it renews the key of the session, its counter has
    // to be above that of the session.
    fn take_m1_in(
        &mut self,
        attempt: Attempt,
        frame: &KeyFrame<'_>,
        derived: &mut LastDerived,
        reply: &mut Reply,
    ) -> Outcome
        requires empty { IsEmpty reply.old }
        requires own { self.old.attempt ≡ Some attempt }
        ensures taken { (had : Memories) →
            IsTaken M1 frame.now (both self.old had) (both self.new had) result reply.new }
        ensures keys { HasKeysOf M1 reply.new }
    {
        let kept = counter_in(self.session);
        if let Some(was) = not_above(kept, frame.counter) {
            return Outcome::Refused(Reason::Counter(was));
        }
        let secure = self.session.is_some();
        let (ends, base, kept) = (&self.ends, &self.base, &mut self.kept);
        self.attempt = Some(attempt.take_m1(ends, base, kept, frame, secure, derived, reply));
        Outcome::Accepted
    }

    // M3 goes to the attempt where it is judged under the key of that, else to the session.
    fn take_m3(
        &mut self,
        frame: &KeyFrame<'_>,
        memory: &mut GroupMemory,
        reply: &mut Reply,
    ) -> Outcome
        requires frame { IsKeyFrame frame.now }
        requires empty { IsEmpty reply.old }
        ensures taken { IsTaken M3 frame.now (both self.old memory.old) (both self.new memory.new)
            result reply.new }
        ensures keys { HasKeysOf M3 reply.new }
    {
        let Some(attempt) = tried_by(frame.nonce, self.attempt, self.session) else {
            return self.take_m3_again(frame, reply);
        };
        let kept = counter_in(self.session);
        match attempt.take_m3(
            &self.ends, &self.base, &self.kept, kept, frame, memory, reply,
        ) {
            Ok(session) => {
                self.attempt = None;
                self.session = Some(session);
                Outcome::Accepted
            }
            Err(why) => Outcome::Refused(why),
        }
    }

    // M3 in a session, which is not judged under the key of an attempt.
    fn take_m3_again(&mut self, frame: &KeyFrame<'_>, reply: &mut Reply) -> Outcome
        requires frame { IsKeyFrame frame.now }
        requires empty { IsEmpty reply.old }
        requires alone { tried_by frame.now.nonce self.old.attempt self.old.session ≡ None }
        ensures taken { (had : Memories) →
            IsTaken M3 frame.now (both self.old had) (both self.new had) result reply.new }
        ensures keys { HasKeysOf M3 reply.new }
    {
        let Some(session) = self.session else {
            return Outcome::Refused(Reason::Unawaited);
        };
        match session.take_m3(&self.ends, &self.base, &self.kept, frame, reply) {
            Ok(session) => {
                self.session = Some(session);
                Outcome::Answered
            }
            Err(why) => Outcome::Refused(why),
        }
    }

    // G1 goes to the session.
    fn take_g1(
        &mut self,
        frame: &KeyFrame<'_>,
        memory: &mut GroupMemory,
        reply: &mut Reply,
    ) -> Outcome
        requires frame { IsKeyFrame frame.now }
        requires empty { IsEmpty reply.old }
        ensures taken { IsTaken G1 frame.now (both self.old memory.old) (both self.new memory.new)
            result reply.new }
        ensures keys { HasKeysOf G1 reply.new }
    {
        let Some(session) = self.session else {
            return Outcome::Refused(Reason::Unawaited);
        };
        let kept = &mut self.kept;
        match session.take_g1(&self.ends, kept, frame, memory, reply) {
            Ok(session) => {
                self.session = Some(session);
                Outcome::Accepted
            }
            Err(why) => Outcome::Refused(why),
        }
    }
}

// Whether that key was derived from that ANonce.
fn is_under(nonce: [u8; 32], key: Option<Keyed>) -> bool
    ensures { result ≡ is_under nonce key }
{
    match key {
        Some(key) => nonce == key.anonce,
        None => false,
    }
}

// The attempt under whose key an M3 with that ANonce is judged: beside a session only where the key
// was derived from it.
fn tried_by(nonce: [u8; 32], attempt: Option<Attempt>, session: Option<Session>) -> Option<Attempt>
    ensures { result ≡ tried_by nonce attempt session }
{
    let Some(tried) = attempt else { return None };
    let Some(_) = session else {
        return Some(tried);
    };
    if is_under(nonce, tried.key) {
        Some(tried)
    } else {
        None
    }
}

// The attempt that a supplicant begins with.
fn first_attempt(start: StaStart<'_>) -> Option<Attempt>
    ensures { result ≡ begun start.entry }
{
    match start {
        StaStart::Connect { snonce, .. } => Some(Attempt::begin(*snonce)),
        StaStart::Ft { .. } => None,
    }
}

// The session that it begins with.
fn first_session(start: StaStart<'_>) -> Option<Session>
    ensures { result ≡ held_at_first start.entry }
{
    match start {
        StaStart::Connect { .. } => None,
        StaStart::Ft { ptk } => Some(Session::Ft {
            ptk: *ptk,
            counter: None,
        }),
    }
}

// What its attempt goes back to.
fn first_base(
    domain: &Domain,
    sta: u16,
    ap: u16,
    start: StaStart<'_>,
    derived: &mut LastDerived,
) -> Base
    requires form { InForm domain.now }
    requires sta { sta < length domain.now.stas }
    requires ap { ap < length domain.now.aps }
    requires fte { length (fte_in_start start) ≤ 257 }
    requires holder { domain.now.akm ≡ FtPsk → NamesHolderWhere start }
    ensures { IsBaseAtFirst domain.now (Sta sta) (Ap ap) start.entry result }
{
    match start {
        StaStart::Connect { fte, .. } => Base::of(domain, sta, ap, fte, derived),
        StaStart::Ft { .. } => Base::none(domain.akm),
    }
}
