//! An access point's part of a fast transition (IEEE Std 802.11-2020, 13.7.1 and 13.8).

ghost use Rattle.std.specs.Prelude.{◌≡◌, ◌≢◌, ◌<◌, ◌≤◌, ◌^◌, ℕ, List, true, false, Some, None};
ghost use Rattle.std.specs.Prelude.{length, take, is_some, option_map, IsTrue, ◌↔◌};
ghost use Rattle.std.specs.Option.{option_copied};
ghost use Rattle.domain_base.specs.declared.names.Node.TheVariants.{Ap, Sta};
ghost use Rattle.key_hierarchy.specs.declared.answers.PullAnswer.{PullAnswer as AnyAnswer};
ghost use Rattle.key_hierarchy.specs.Sizes.{IsR0khId};
ghost use Rattle.key_holders.specs.Rows.{is_in};
ghost use Rattle.key_holders.specs.Pulls.{Answers, IsNamed};
ghost use Rattle.rsn_elements.specs.Elements.{HasRaw};
ghost use Rattle.rsn_elements.specs.Fields.{element_fields};
ghost use Rattle.run_journal.specs.Replies.{IsEmpty};
ghost use Rattle.domain_rules.specs.Network.{InForm, mac};
ghost use Rattle.domain_rules.specs.Rows.{refused_status};
ghost use Rattle.group_key.specs.News.{news_of};
ghost use Rattle.ft_exchange.specs.Asking.{asked_fields, ids_of};
ghost use Rattle.ft_exchange.specs.Refusals.{RefusesAuth, RefusesReassoc};

use crate::expected::{Expected, reassociation_fault};
use crate::frames::{Side, send_ft_refusal, send_ft_resp, send_re_refusal, send_re_resp};
use crate::group::{igtk_subelement, subelement, wrapped, wrapped_igtk};
use crate::looking::{Granted, look};
use crate::mic::{Between, is_with, try_frame};
use crate::place::Place;
use crate::request::{Asked, judge_request};
use domain_base::{Akm, Mac, ShortOctets, put};
use group_key::{GroupKey, News};
use key_hierarchy::ptk_from_r1;
use key_holders::Holders;
use mac_prf::{KeptMicKey, Reassociation};
use rsn_elements::Elements;
use run_journal::{Domain, Keyed, Kind, Outcome, REPLY_LEN, Reason, Reply};
use std::marker::Model;

/// An access point's attempt at a fast transition with a station, or the session that came of one.
/// No call takes memory.
#[derive(Drop)]
pub struct Target {
    place: Place,
    r0kh_id: ShortOctets<48>,
    // PMKR0Name as the station asked for it, and PMKR1Name
    asked: [u8; 16],
    name: [u8; 16],
    key: Keyed,
    is_installed: bool,
    // the last response
    stored: ShortOctets<REPLY_LEN>,
    // the KCK of the key: it shows in no result
    kept: KeptMicKey,
}

// The status with which a refusal is answered (IEEE Std 802.11-2020, 9.4.1.9), where it is: 28 for
// an unreachable R0KH, 53 for an invalid PMKID.
fn refused_status(why: Reason) -> Option<u16>
    ensures { result ≡ refused_status why }
{
    match why {
        Reason::Status(code) => Some(code),
        Reason::NoHolder => Some(28),
        Reason::Name => Some(53),
        _ => None,
    }
}

// An authentication request is refused, and that is answered where it has a status.
fn refuse_auth(place: Place, why: Reason, reply: &mut Reply) -> Outcome
    requires quiet { reply.old.len ≡ 0 }
    ensures outcome { result ≡ Outcome.Refused why }
    ensures refuses { RefusesAuth place why reply.old reply.new }
    ensures looked { reply.new.looked ≡ reply.old.looked }
{
    if let Some(status) = refused_status(why) {
        send_ft_refusal(place.own, place.peer, status, reply);
    }
    Outcome::Refused(why)
}

// A reassociation request is refused, and that is answered where it has a status.
fn refuse_reassoc(place: Place, why: Reason, reply: &mut Reply) -> Outcome
    requires quiet { reply.old.len ≡ 0 }
    ensures outcome { result ≡ Outcome.Refused why }
    ensures refuses { RefusesReassoc place why reply.old reply.new }
{
    if let Some(status) = refused_status(why) {
        send_re_refusal(place.own, place.peer, status, reply);
    }
    Outcome::Refused(why)
}

// The frame that a reply sends.
fn sent_in(reply: &Reply) -> ShortOctets<REPLY_LEN>
    requires { reply.now.len ≤ 512 }
    ensures { result ≡ take reply.now.len reply.now.octets }
{
    let (front, _) = reply.octets.split_at(reply.len);
    ShortOctets::of(front)
}

impl Model for Target {
    ghost use Rattle.ft_exchange.specs.State.{TargetState, IsTarget};

    ghost Value = { TargetState };

    ghost view = { λ s. record {
      place = s.place;
      r0kh_id = s.r0kh_id;
      asked = s.asked;
      name = s.name;
      key = s.key;
      is_installed = s.is_installed;
      stored = s.stored;
    } };

    ghost invariant = { λ s. IsTarget s.r0kh_id s.stored };
}

impl Target {
    ghost use Rattle.ft_exchange.specs.State.{TargetState};
    ghost use Rattle.ft_exchange.specs.Asking.{is_repeated, is_pending_repeated};
    ghost use Rattle.ft_exchange.specs.Refusals.{AnswersPending};
    ghost use Rattle.ft_exchange.specs.Tried.{is_with};
    ghost use Rattle.ft_exchange.specs.Judged.{wanted};
    ghost use Rattle.ft_exchange.specs.Sent.{HasFrame, Sends};
    ghost use Rattle.ft_exchange.specs.Exchange.{wanted_at, Begins, request_between};
    ghost use Rattle.ft_exchange.specs.Exchange.{installing_octets, IsInstalling, Installs};
    ghost use Rattle.ft_exchange.specs.TargetSteps.{IsAuthTaken, LooksBy, IsReassocTaken};
    ghost use Rattle.run_journal.specs.declared.acts.Kind.TheVariants as kind;

    /// Takes an authentication request of a station at an access point, by what its elements say. A
    /// request that repeats that of the pending attempt is answered with the stored response; any
    /// other one that asks for one name is looked up at the key holders. Where it is accepted the
    /// key is derived, and a new attempt stands in the place of the pending one
    /// (IEEE Std 802.11-2020, 13.8.2 and 13.8.3).
    ///
    /// `anonce` is the nonce drawn for it, and `None` where no more can be drawn. What is looked
    /// up, derived and sent comes into the reply, whatever was in it. A refusal with a status is
    /// answered with that status, and changes no attempt.
    pub fn on_auth<H: Holders>(
        pending: &mut Option<Target>,
        domain: &Domain,
        ap: u16,
        sta: u16,
        elements: &Elements<'_>,
        anonce: Option<&[u8; 32]>,
        holders: &mut H,
        reply: &mut Reply,
    ) -> Outcome
        requires form { InForm domain.now }
        requires ap { ap < length domain.now.aps }
        requires sta { sta < length domain.now.stas }
        requires raw { HasRaw (element_fields elements.now) }
        requires ids { H.ids holders.old ≡ ids_of domain.now }
        ensures taken { IsAuthTaken domain.now ap sta (element_fields elements.now)
            (option_copied anonce.entry) pending.old pending.new result reply.new }
        ensures looks { LooksBy (element_fields elements.now)
            (λ id name answer. H.pulls holders.old id name (mac domain.now (Ap ap))
            (mac domain.now (Sta sta)) holders.new answer
            × Answers (H.ids holders.old) (H.has holders.old) (H.rows holders.old) id name
            (mac domain.now (Ap ap)) (mac domain.now (Sta sta)) answer
            × IsNamed name (mac domain.now (Ap ap)) (mac domain.now (Sta sta)) answer)
            (holders.new ≡ holders.old) reply.new.looked }
        ensures rows { (r : ℕ) → is_in r (H.has holders.old) ≡ true
            → H.rows holders.new r ≡ H.rows holders.old r }
        ensures ids { H.ids holders.new ≡ H.ids holders.old }
        ensures still_has { H.has holders.new ≡ H.has holders.old }
        ensures no_less { H.no_less holders.old holders.new }
    {
        *reply = Reply::empty();
        let Akm::FtPsk = domain.akm else {
            return Outcome::Refused(Reason::Unawaited);
        };
        let place = Place::of(domain, ap, sta);
        let asked = match judge_request(place.mfp, domain.mdid, elements) {
            Ok(asked) => asked,
            Err(why) => return refuse_auth(place, why, reply),
        };
        if Target::repeats(pending, &asked) {
            Target::answer_pending(pending, reply);
            return Outcome::Answered;
        }
        match look(place, domain, &asked, anonce, holders, reply) {
            Ok(granted) => {
                *pending = Some(Target::begin(place, &asked, &granted, reply));
                Outcome::Accepted
            }
            Err(why) => refuse_auth(place, why, reply),
        }
    }

    // Whether a request repeats the one that the pending attempt began with.
    fn repeats(pending: &Option<Target>, asked: &Asked<'_>) -> bool
        ensures { result ≡ is_pending_repeated (asked_fields asked.now) pending.now }
    {
        match pending {
            Some(target) => target.is_asked_again(asked),
            None => false,
        }
    }

    // Sends the last response of the pending attempt once more, where there is one.
    fn answer_pending(pending: &Option<Target>, reply: &mut Reply)
        ensures { AnswersPending pending.now reply.old reply.new }
    {
        if let Some(target) = pending {
            target.answer_again(Kind::FtResp, None, reply);
        }
    }

    // Whether a request repeats the one that this attempt began with.
    fn is_asked_again(&self, asked: &Asked<'_>) -> bool
        ensures { result ≡ is_repeated (asked_fields asked.now) self.now }
    {
        let Some(names) = asked.names else {
            return false;
        };
        asked.snonce == self.key.snonce
            && asked.r0kh_id == self.r0kh_id.as_slice()
            && names == self.asked.as_slice()
    }

    // Sends the last response once more.
    fn answer_again(&self, kind: Kind, sealed: Option<[u8; 16]>, reply: &mut Reply)
        ensures { Sends self.now.stored kind sealed reply.old reply.new }
    {
        reply.len = put(&mut reply.octets, 0, self.stored.as_slice());
        reply.kind = kind;
        reply.sealed = sealed;
    }

    // A new attempt, whose key is derived, and whose response is sent.
    fn begin(place: Place, asked: &Asked<'_>, granted: &Granted, reply: &mut Reply) -> Self
        requires { IsR0khId asked.now.r0kh_id.now }
        ensures begins { Begins place (asked_fields asked.now) granted.now result reply.old
            reply.new }
    {
        let r1 = granted.r1;
        let (anonce, snonce) = (granted.anonce, asked.snonce);
        let ptk = ptk_from_r1(&r1, &snonce, &anonce, place.own, place.peer);
        let key = Keyed {
            ptk,
            anonce,
            snonce,
        };
        let mdid = place.mdid;
        let side = Side {
            own: place.own,
            peer: place.peer,
            mfp: place.mfp,
            mdid,
            r0kh_id: asked.r0kh_id,
        };
        let (asked_for, name) = (granted.asked, r1.name);
        let mut kept = KeptMicKey::none();
        kept.keep(Akm::FtPsk, &ptk.kck);
        send_ft_resp(side, &asked_for, &key, reply);
        reply.derived = Some(key);
        Target {
            place,
            r0kh_id: ShortOctets::of(asked.r0kh_id),
            asked: asked_for,
            name,
            key,
            is_installed: false,
            stored: sent_in(reply),
            kept,
        }
    }

    /// The R0KH-ID of the key holder to which the keys go back.
    pub fn r0kh_id(&self) -> &[u8]
        ensures { result.now ≡ self.now.r0kh_id }
    {
        self.r0kh_id.as_slice()
    }

    /// Whether the FTE has the nonces of this attempt or session: of a pending attempt and a
    /// session, a reassociation request is for the first of which it has them.
    pub fn is_meant(&self, elements: &Elements<'_>) -> bool
        ensures { result ≡ is_with (element_fields elements.now) self.now.key }
    {
        is_with(elements, &self.key)
    }

    /// Takes a reassociation request of the station, by what its elements say: in a pending attempt
    /// it installs the key, and is answered with the newest group keys; in a session it is answered
    /// with the stored response (IEEE Std 802.11-2020, 13.8.4 and 13.8.5).
    ///
    /// `newest` is the newest GTK, and `rsc` the count of packet numbers used under it; `igtk` is
    /// the newest IGTK with the count used under that, where management frames are protected. What
    /// is installed and sent comes into the reply, whatever was in it. A refusal with a status is
    /// answered with that status, and changes nothing.
    pub fn on_reassoc(
        &mut self,
        elements: &Elements<'_>,
        newest: &GroupKey,
        rsc: u64,
        igtk: Option<(&GroupKey, u64)>,
        reply: &mut Reply,
    ) -> Outcome
        requires raw { HasRaw (element_fields elements.now) }
        ensures { IsReassocTaken (element_fields elements.now) (news_of newest.now rsc igtk.entry)
            self.old self.new result reply.new }
    {
        *reply = Reply::empty();
        let news = News::of(newest, rsc, igtk);
        let key = self.key;
        let tried = try_frame(&self.kept, &key, self.between(), elements);
        if let Some(why) = tried.reason() {
            return Outcome::Refused(why);
        }
        reply.verified = tried.kck(&key);
        if let Some(why) = reassociation_fault(&self.expects(), elements, true) {
            return refuse_reassoc(self.place, why, reply);
        }
        if self.is_installed {
            self.answer_again(Kind::ReResp, Some(key.ptk.kck), reply);
            return Outcome::Answered;
        }
        self.install(&news, reply);
        Outcome::Accepted
    }

    // The two ends of the frames of reassociation.
    fn between(&self) -> Between
        ensures { result ≡ request_between self.now }
    {
        Between {
            station: self.place.peer,
            bssid: self.place.own,
            frame: Reassociation::Request,
        }
    }

    // What a reassociation request has to say.
    fn expects(&self) -> Expected<'_>
        ensures { wanted result ≡ wanted_at self.now }
    {
        let (mdid, r1kh_id) = (self.place.mdid, self.place.own.0);
        let name = self.name;
        Expected {
            mfp: self.place.mfp,
            mdid,
            r1kh_id,
            r0kh_id: self.r0kh_id.as_slice(),
            name,
        }
    }

    // The key is installed, and the response sent.
    fn install(&mut self, news: &News, reply: &mut Reply)
        ensures { Installs news.now self.old self.new reply.old reply.new }
    {
        self.respond(news, reply);
        reply.installed = Some(self.key);
        self.is_installed = true;
        self.stored = sent_in(reply);
    }

    // Sends the response, with the group keys.
    fn respond(&self, news: &News, reply: &mut Reply)
        ensures sends { Sends (installing_octets self.now news.now) kind.ReResp
            (Some self.now.key.ptk.kck) reply.old reply.new }
        ensures covers { IsInstalling self.now news.now }
        ensures least { 131 ≤ reply.new.len }
    {
        let key = self.key;
        let gtk_octets = wrapped(&key.ptk.kek, &news.gtk.key);
        let gtk = subelement(&news.gtk, news.rsc, &gtk_octets);
        let igtk_octets = wrapped_igtk(&key.ptk.kek, news.igtk);
        let igtk = igtk_subelement(news.igtk, &igtk_octets);
        let mdid = self.place.mdid;
        let side = Side {
            own: self.place.own,
            peer: self.place.peer,
            mfp: self.place.mfp,
            mdid,
            r0kh_id: self.r0kh_id.as_slice(),
        };
        send_re_resp(
            side,
            &self.kept,
            self.place.aid,
            &self.name,
            &key,
            gtk,
            igtk,
            reply,
        );
    }

    /// Drops an attempt or a session, and answers whether there was one.
    pub fn expire(target: &mut Option<Target>) -> bool
        ensures none { target.new ≡ None }
        ensures was { result ≡ is_some target.old }
    {
        let was = target.is_some();
        *target = None;
        was
    }
}
