//! A session with a station, and in it the group key handshake (IEEE Std 802.11-2020, 12.7.7).

ghost use Rattle.std.specs.Prelude.{◌≡◌, ◌<◌, ◌^◌, suc, leb, MatchResult};
ghost use Rattle.eapol_key.specs.Fields.{IsKeyFrame};
ghost use Rattle.run_journal.specs.Replies.{IsWhole};
ghost use Rattle.group_key.specs.News.{FitsNews};
ghost use Rattle.frame_making.specs.Replied.{Keeps};
ghost use Rattle.authenticator.specs.Counters.{last_in, moved};
ghost use Rattle.authenticator.specs.Judged.{frame_of};

use crate::base::Association;
use crate::counters::Offers;
use domain_base::Akm;
use eapol_key::{KeyFrame, verify};
use frame_making::write_g1;
use group_key::{GroupKey, News};
use key_hierarchy::Ptk;
use mac_prf::KeptMicKey;
use node_base::Ends;
use run_journal::{Reason, Reply};

/// How often G1 is sent in a session for one group key at most.
const MOST_SENDS: u8 = 4;

/// A session: what an attempt becomes by M4, or a fast transition by its reassociation. It counts
/// the handshake for one group key, the newest as it began or as G1 was sent last; for a newer one
/// there was none yet.
#[derive(Drop)]
pub struct Session {
    /// The key that was installed.
    pub ptk: Ptk,
    /// The association that it goes back to; after a fast transition there is none.
    pub association: Option<Association>,
    /// The last replay counter that was used.
    pub last: u64,
    /// The group key whose handshake is counted: its number in the order of drawing.
    pub place: u64,
    /// The replay counters of the G1 that were sent for it in this session.
    pub g1s: Offers,
    /// Whether a G2 was accepted for it.
    pub is_answered: bool,
}

/// The last replay counter that was used in a session, where there is one.
pub fn last_in(session: &Option<Session>) -> u64
    ensures { result ≡ last_in session.now }
{
    match session {
        Some(session) => session.last,
        None => 0,
    }
}

/// A replay counter was used in an attempt beside the session: where that renews its key, it is the
/// last of the session too.
pub fn move_on(session: &mut Option<Session>, renews: bool, counter: u64)
    ensures { session.new ≡ moved renews counter session.old }
{
    if !renews {
        return;
    }
    if let Some(session) = session {
        session.last = counter;
    }
}

impl Session {
    ghost use Rattle.authenticator.specs.Groups.{offers_for, sent_for, is_answered_for, owes};
    ghost use Rattle.authenticator.specs.Groups.{replied_to};
    ghost use Rattle.authenticator.specs.Groups.{transferred};
    ghost use Rattle.authenticator.specs.Groups.{SendsG1, Asks, IsG2, IsRefusedG2};

    /// A session of that key as a fast transition installs it: nothing was sent in it.
    pub fn transferred(ptk: Ptk) -> Self
        ensures { result ≡ transferred ptk }
    {
        Session {
            ptk,
            association: None,
            last: 0,
            place: 0,
            g1s: Offers::Zero,
            is_answered: false,
        }
    }

    // The replay counters of the G1 that were sent for that group key.
    fn offers_for(&self, group: &GroupKey) -> Offers
        ensures { result ≡ offers_for group.now.place self.now }
    {
        if self.place == group.place {
            self.g1s
        } else {
            Offers::Zero
        }
    }

    // Whether a G2 was accepted for that group key.
    fn is_answered_for(&self, group: &GroupKey) -> bool
        ensures { result ≡ is_answered_for group.now.place self.now }
    {
        if self.place == group.place {
            self.is_answered
        } else {
            false
        }
    }

    /// Whether the session owes a G2 for that group key: G1 was sent for it, and no G2 accepted.
    pub fn owes(&self, group: &GroupKey) -> bool
        ensures { result ≡ owes group.now.place self.now }
    {
        let sent = self.offers_for(group).count();
        let is_answered = self.is_answered_for(group);
        sent > 0 && !is_answered
    }

    /// Whether G1 was sent as often as it may be for that group key.
    pub fn is_in_vain(&self, group: &GroupKey) -> bool
        ensures { result ≡ leb 4 (sent_for group.now.place self.now) }
    {
        self.offers_for(group).count() >= MOST_SENDS
    }

    /// Judges a G2 of the station by the newest group key (IEEE Std 802.11-2020, 12.7.7.3).
    pub fn judge_g2(
        &self,
        akm: Akm,
        kept: &KeptMicKey,
        newest: &GroupKey,
        frame: &KeyFrame<'_>,
    ) -> Result<(), Reason>
        requires { IsKeyFrame frame.now }
        ensures { MatchResult result
            (λ _. IsG2 akm newest.now.place self.now (frame_of frame.now))
            (IsRefusedG2 akm newest.now.place self.now (frame_of frame.now)) }
    {
        if !self.owes(newest) {
            return Err(Reason::Unawaited);
        }
        let offers = self.offers_for(newest);
        if !offers.is_offered(frame.counter) {
            return Err(Reason::Counter(offers.greatest()));
        }
        let kck = self.ptk.kck;
        if !verify(kept, frame, akm, &kck) {
            return Err(Reason::Mic);
        }
        Ok(())
    }

    /// A G2 was accepted.
    pub fn answer(&mut self)
        ensures { self.new ≡ replied_to self.old }
    {
        self.is_answered = true;
    }

    /// Sends G1 with the next replay counter and those group keys (IEEE Std 802.11-2020, 12.7.7.2).
    /// The replay counters do not come to their end: for each value that is drawn at most twelve
    /// are used.
    pub fn send_g1(&mut self, ends: &Ends, kept: &mut KeptMicKey, news: &News, reply: &mut Reply)
        requires { FitsNews news.now }
        ensures sends { suc self.old.last < 2 ^ 64
            → SendsG1 ends.now self.old.ptk (suc self.old.last) news.now reply.new }
        ensures asks { suc self.old.last < 2 ^ 64 → sent_for news.now.gtk.place self.old < 4
            → Asks ends.now news.now self.old self.new reply.new }
        ensures ptk { self.new.ptk ≡ self.old.ptk }
        ensures association { self.new.association ≡ self.old.association }
        ensures keeps { Keeps reply.old reply.new }
        ensures fits { IsWhole reply.new }
    {
        let sent = self.offers_for(&news.gtk);
        let is_answered = self.is_answered_for(&news.gtk);
        let counter = self.last.saturating_add(1);
        self.last = counter;
        self.place = news.gtk.place;
        self.g1s = sent.with(counter);
        self.is_answered = is_answered;
        kept.keep(ends.akm, &self.ptk.kck);
        write_g1(ends, kept, &self.ptk, self.last, news, reply);
    }
}
