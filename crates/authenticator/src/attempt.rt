//! An attempt of a station: the four-way handshake, up to M4 (IEEE Std 802.11-2020, 12.7.6).

ghost use Rattle.std.specs.Prelude.{◌≡◌, ◌≤◌, ◌<◌, ◌^◌, suc, true, is_some, length};
ghost use Rattle.group_key.specs.News.{FitsNews, carried_news};
ghost use Rattle.std.specs.Prelude.{MatchResult, OnErr, IfOk};
ghost use Rattle.domain_base.specs.declared.names.Akm.{Akm as AnyAkm};
ghost use Rattle.air_frame.specs.Sent.{IsAddress};
ghost use Rattle.eapol_key.specs.Fields.{IsKeyFrame};
ghost use Rattle.run_journal.specs.Replies.{IsEmpty, IsWhole};
ghost use Rattle.frame_making.specs.KeyData.{m3_data};
ghost use Rattle.frame_making.specs.Replied.{Keeps, TellsNothing};
ghost use Rattle.eapol_key.specs.Messages.{has_bit};
ghost use Rattle.authenticator.specs.Judged.{is_secured_by};

use crate::agreement::Agreement;
use crate::base::Association;
use crate::counters::Offers;
use crate::m2::{M2, key_data_fault};
use crate::session::{Session, last_in};
use domain_base::{Akm, ShortOctets};
use eapol_key::{KeyFrame, Message, verify};
use frame_making::{MOST_M3_DATA, m3_key_data, write_m1};
use group_key::{GroupKey, News};
use key_hierarchy::LastDerived;
use mac_prf::KeptMicKey;
use node_base::{Ends, pairwise_key};
use run_journal::{Keyed, Reason, Reply, Version};

/// How often M1, and M3, is sent in an attempt at most.
const MOST_SENDS: u8 = 4;

/// The bit of the key information that tells whether a frame is under a key that is in use
/// (IEEE Std 802.11-2020, 12.7.2).
const SECURE: u16 = 9;

/// An attempt, from its association request on; or from its first M1 on, where it renews the key of
/// a session.
#[derive(Drop)]
pub struct Attempt {
    /// The association that it goes back to.
    pub association: Association,
    /// Whether it renews the key of the session, beside which it stands.
    pub renews: bool,
    /// The nonce that was drawn for it.
    pub anonce: [u8; 32],
    /// The replay counters of the M1 that were sent in it.
    pub m1s: Offers,
    /// Those of the M3.
    pub m3s: Offers,
    /// What was agreed on, from M2 on.
    pub agreed: Option<Agreement>,
}

/// The session that an attempt becomes by M4, and whether the group key that M3 carried is older
/// than the newest.
#[derive(Drop)]
pub struct Finish {
    /// The session.
    pub session: Session,
    /// Its key, with its nonces.
    pub key: Keyed,
    /// Whether M3 carried an older group key.
    pub is_older: bool,
}

/// The key of an M4 that was accepted, and whether M3 carried an older group key.
#[derive(Clone, Copy)]
pub struct FinalKey {
    /// The key, with its nonces.
    pub key: Keyed,
    /// Whether M3 carried an older group key than the newest.
    pub is_older: bool,
}

/// What comes of an M4 in an attempt.
#[derive(Drop)]
pub enum M4 {
    /// Refused: the attempt goes on as it was.
    Refused(Reason, Attempt),
    /// Accepted: the attempt has become this session.
    Finished(Finish),
}

impl Finish {
    ghost use Rattle.authenticator.specs.Judged.{IsFresh};
    ghost use Rattle.authenticator.specs.Installed.{IsInstalled};

    /// The key is installed, and where M3 carried older group keys G1 is sent with the newest
    /// (IEEE Std 802.11-2020, 12.7.7.2).
    pub fn install(
        self,
        ends: &Ends,
        kept: &mut KeptMicKey,
        news: &News,
        reply: &mut Reply,
    ) -> Session
        requires news { FitsNews news.now }
        requires fresh { IsFresh news.now.gtk.place self.session }
        requires empty { IsEmpty reply.old }
        ensures installed { IsInstalled ends.now news.now self result reply.new }
        ensures fits { IsWhole reply.new }
    {
        let Finish {
            mut session,
            key,
            is_older,
        } = self;
        reply.verified = Some(key.ptk.kck);
        reply.installed = Some(key);
        if is_older {
            session.send_g1(ends, kept, news, reply);
        }
        session
    }
}

// Whether Secure is set.
fn is_secure(information: u16) -> bool
    ensures { result ≡ has_bit information 9 }
{
    (information >> SECURE) & 1 == 1
}

// Whether Secure stands in an M2 as it is to stand: by the second version of the rules it is set
// where the attempt renews the key of a session, and else clear; by the first it is not looked at.
fn is_secured_rightly(version: Version, renews: bool, information: u16) -> bool
    ensures { result ≡ is_secured_by version renews information }
{
    match version {
        Version::One => true,
        Version::Two => {
            if renews {
                is_secure(information)
            } else {
                !is_secure(information)
            }
        }
    }
}

impl Attempt {
    ghost use Rattle.authenticator.specs.Counters.{last_for};
    ghost use Rattle.authenticator.specs.Sends.{SendsM1, SendsM3};
    ghost use Rattle.authenticator.specs.Judged.{frame_of, begun, answered, IsM2, TellsDerived};
    ghost use Rattle.authenticator.specs.Judged.{awaits_m2, Answers, IsM4, IsFinalKey, IsRefusedM4};
    ghost use Rattle.authenticator.specs.Judged.{is_final_by, carried_by, remade, IsAgain};
    ghost use Rattle.authenticator.specs.Judged.{IsInVain, IsRenewal};

    /// Begins an attempt, and writes its first M1 with that replay counter
    /// (IEEE Std 802.11-2020, 12.7.6.2). Nothing of what was in the reply stays.
    pub fn begin(
        ends: &Ends,
        association: Association,
        renews: bool,
        counter: u64,
        anonce: &[u8; 32],
        reply: &mut Reply,
    ) -> Self
        ensures value { result ≡ begun association renews counter anonce.now }
        ensures sends { SendsM1 ends.now counter anonce.now reply.new }
        ensures told { TellsNothing reply.new }
        ensures fits { IsWhole reply.new }
        ensures addresses { IsAddress ends.now.own.0 × IsAddress ends.now.peer.0 }
    {
        *reply = Reply::empty();
        write_m1(ends, counter, anonce, reply);
        Attempt {
            association,
            renews,
            anonce: *anonce,
            m1s: Offers::One(counter),
            m3s: Offers::Zero,
            agreed: None,
        }
    }

    /// Begins to renew the key of a session, and writes M1 with its next replay counter
    /// (IEEE Std 802.11-2020, 12.7.6.2). Nothing of what was in the reply stays.
    pub fn renewing(
        session: &mut Session,
        ends: &Ends,
        anonce: &[u8; 32],
        reply: &mut Reply,
    ) -> Self
        requires { is_some session.old.association ≡ true }
        ensures renewal { IsRenewal ends.now session.old session.new anonce.now result reply.new }
        ensures told { TellsNothing reply.new }
        ensures fits { IsWhole reply.new }
    {
        let Some(association) = &session.association else {
            unreachable!()
        };
        let association = association.copied();
        let counter = session.last.saturating_add(1);
        session.last = counter;
        Attempt::begin(ends, association, true, counter, anonce, reply)
    }

    /// The last replay counter before the next M1 or M3: as many as were sent, and in an attempt
    /// that renews the key of that session the last one that was used there.
    pub fn last(&self, session: &Option<Session>) -> u64
        ensures { result ≡ last_for self.now session.now }
    {
        if self.renews {
            last_in(session)
        } else {
            u64::from(self.m1s.count()) + u64::from(self.m3s.count())
        }
    }

    /// The next replay counter. They do not come to their end.
    pub fn next(&self, session: &Option<Session>) -> u64
        ensures { suc (last_for self.now session.now) < 2 ^ 64
            → result ≡ suc (last_for self.now session.now) }
    {
        self.last(session).saturating_add(1)
    }

    // Whether this M2 of the station is awaited.
    fn awaits_m2(&self, ends: &Ends, frame: &KeyFrame<'_>) -> bool
        ensures { result ≡ awaits_m2 ends.now self.now (frame_of frame.now).fields }
    {
        self.agreed.is_none() && is_secured_rightly(ends.version, self.renews, frame.information)
    }

    /// Judges an M2 of the station.
    pub fn judge_m2(
        &self,
        ends: &Ends,
        kept: &mut KeptMicKey,
        frame: &KeyFrame<'_>,
        derived: &mut LastDerived,
    ) -> M2
        requires frame { IsKeyFrame frame.now }
        ensures { IsM2 ends.now self.now (frame_of frame.now) result }
    {
        if !self.awaits_m2(ends, frame) {
            return M2::Refused(Reason::Unawaited);
        }
        if !self.m1s.is_offered(frame.counter) {
            return M2::Refused(Reason::Counter(self.m1s.greatest()));
        }
        let base = self.association.base();
        let key = pairwise_key(ends, &base.pmk, &self.anonce, &frame.nonce, derived);
        kept.keep(ends.akm, &key.ptk.kck);
        if !verify(kept, frame, ends.akm, &key.ptk.kck) {
            return M2::Refused(Reason::Mic);
        }
        match key_data_fault(&base.mobility, self.association.rsne(), frame.key_data) {
            Some(fault) => M2::Other(fault, key),
            None => M2::Agreed(key),
        }
    }

    /// The key data of M3 with those group keys, before padding and wrap (IEEE Std 802.11-2020,
    /// 12.7.6.4).
    #[tactic(auto, using(crate::proofs::ShortFte::short_as))]
    pub fn m3_key_data(&self, ends: &Ends, news: &News) -> ShortOctets<MOST_M3_DATA>
        requires { FitsNews news.now }
        ensures octets { result ≡ m3_data ends.now.mfp ends.now.akm
            self.now.association.base.mobility (carried_news news.now) }
        ensures few { length result ≤ MOST_M3_DATA }
    {
        m3_key_data(ends.akm, ends.mfp, &self.association.base().mobility, news)
    }

    /// An M2 was accepted, under whose key it verified: it is answered with M3, with that replay
    /// counter (IEEE Std 802.11-2020, 12.7.6.4).
    pub fn answer_m2(
        &mut self,
        ends: &Ends,
        kept: &KeptMicKey,
        counter: u64,
        agreement: Agreement,
        reply: &mut Reply,
    )
        requires { IsEmpty reply.old }
        ensures attempt { self.new ≡ answered counter agreement self.old }
        ensures sends { Answers ends.now counter agreement reply.new }
        ensures told { TellsDerived agreement.key reply.new }
        ensures fits { IsWhole reply.new }
    {
        agreement.send_m3(ends, kept, counter, reply);
        let key = *agreement.key();
        reply.verified = Some(key.ptk.kck);
        reply.derived = Some(key);
        self.m3s = Offers::One(counter);
        self.agreed = Some(agreement);
    }

    /// Whether the attempt becomes a session by an M4 of the station: its counter is one of those
    /// of the M3, and its MIC verifies (IEEE Std 802.11-2020, 12.7.6.5).
    pub fn is_final(&self, akm: Akm, kept: &KeptMicKey, frame: &KeyFrame<'_>) -> bool
        requires { IsKeyFrame frame.now }
        ensures { result ≡ is_final_by akm self.now (frame_of frame.now) self.now.agreed }
    {
        let Some(agreement) = &self.agreed else {
            return false;
        };
        if !self.m3s.is_offered(frame.counter) {
            return false;
        }
        let key = agreement.key();
        verify(kept, frame, akm, &key.ptk.kck)
    }

    // Judges an M4 of the station, of which it was found whether it is the last of the attempt: its
    // key, and whether M3 carried an older group key than the newest, or why it is refused.
    fn judge_m4(
        &self,
        is_last: bool,
        newest: &GroupKey,
        frame: &KeyFrame<'_>,
    ) -> Result<FinalKey, Reason>
        ensures { (akm : AnyAkm)
            → is_last ≡ is_final_by akm self.now (frame_of frame.now) self.now.agreed
            → MatchResult result (IsFinalKey akm newest.now self.now (frame_of frame.now))
            (IsRefusedM4 akm self.now (frame_of frame.now)) }
    {
        let Some(agreement) = &self.agreed else {
            return Err(Reason::Unawaited);
        };
        if !self.m3s.is_offered(frame.counter) {
            return Err(Reason::Counter(self.m3s.greatest()));
        }
        if !is_last {
            return Err(Reason::Mic);
        }
        let key = agreement.key();
        let is_older = agreement.is_older(newest);
        Ok(FinalKey {
            key: *key,
            is_older,
        })
    }

    /// The attempt becomes a session by an M4 of the station, or it is given back with the reason
    /// why that is refused, as [`Attempt::is_final`] found (IEEE Std 802.11-2020, 12.7.6.5). `last`
    /// is the last replay counter that was used.
    pub fn finish(self, is_last: bool, last: u64, newest: &GroupKey, frame: &KeyFrame<'_>) -> M4
        ensures { (akm : AnyAkm)
            → is_last ≡ is_final_by akm self (frame_of frame.now) self.agreed
            → IsM4 akm newest.now last self (frame_of frame.now) result }
    {
        match self.judge_m4(is_last, newest, frame) {
            Err(why) => M4::Refused(why, self),
            Ok(FinalKey { key, is_older }) => {
                let Attempt { association, .. } = self;
                let session = Session {
                    ptk: key.ptk,
                    association: Some(association),
                    last,
                    place: newest.place,
                    g1s: Offers::Zero,
                    is_answered: false,
                };
                M4::Finished(Finish {
                    session,
                    key,
                    is_older,
                })
            }
        }
    }

    // Writes M3 once more, with that replay counter: as it was sent first, or in an attempt that
    // renews a key with the newest group keys.
    fn send_m3(
        &self,
        agreed: &Agreement,
        ends: &Ends,
        kept: &KeptMicKey,
        counter: u64,
        news: &News,
        reply: &mut Reply,
    )
        requires { FitsNews news.now }
        ensures sends { SendsM3 ends.now (carried_by self.now.renews agreed.now
            (remade ends.now self.now agreed.now news.now)) counter reply.new }
        ensures keeps { Keeps reply.old reply.new }
        ensures fits { IsWhole reply.new }
        ensures addresses { IsAddress ends.now.own.0 × IsAddress ends.now.peer.0 }
    {
        if self.renews {
            let plain = self.m3_key_data(ends, news);
            let again = Agreement::of(agreed.key(), news, plain);
            again.send_m3(ends, kept, counter, reply);
        } else {
            agreed.send_m3(ends, kept, counter, reply);
        }
    }

    /// Sends M1, or from M2 on M3, once more, with that replay counter. The newest group keys go
    /// into the M3 of an attempt that renews a key; another is sent as it was first. Fails with the
    /// message that was sent as often as it may be.
    pub fn send_again(
        &mut self,
        ends: &Ends,
        kept: &KeptMicKey,
        counter: u64,
        news: &News,
        reply: &mut Reply,
    ) -> Result<(), Message>
        requires news { FitsNews news.now }
        requires empty { IsEmpty reply.old }
        ensures again { MatchResult result
            (λ _. IsAgain ends.now news.now counter self.old self.new reply.new)
            (IsInVain self.old) }
        ensures kind { IfOk result (λ _. self.new.renews ≡ self.old.renews) }
        ensures told { TellsNothing reply.new }
        ensures silent { OnErr result (reply.new.len ≡ 0) }
        ensures fits { IsWhole reply.new }
    {
        match &self.agreed {
            None => {
                if self.m1s.count() >= MOST_SENDS {
                    return Err(Message::M1);
                }
                write_m1(ends, counter, &self.anonce, reply);
                self.m1s = self.m1s.with(counter);
                Ok(())
            }
            Some(agreed) => {
                if self.m3s.count() >= MOST_SENDS {
                    return Err(Message::M3);
                }
                self.send_m3(agreed, ends, kept, counter, news, reply);
                self.m3s = self.m3s.with(counter);
                Ok(())
            }
        }
    }
}
