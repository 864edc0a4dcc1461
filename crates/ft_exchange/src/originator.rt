//! A station's part of a fast transition (IEEE Std 802.11-2020, 13.5.2 and 13.8).

ghost use Rattle.std.specs.Prelude.{◌≡◌, ◌<◌, Some, None, length};
ghost use Rattle.domain_base.specs.declared.names.Akm.{Akm as AnyAkm};
ghost use Rattle.domain_base.specs.declared.names.Node.TheVariants.{Ap, Sta};
ghost use Rattle.rsn_elements.specs.Elements.{HasRaw};
ghost use Rattle.rsn_elements.specs.Fields.{element_fields};
ghost use Rattle.key_hierarchy.specs.Sizes.{IsSsid, IsR0khId};
ghost use Rattle.run_journal.specs.Replies.{IsEmpty};

use crate::expected::{Expected, auth_response_fault, judge_reassoc_response};
use crate::frames::{Side, send_ft_req, send_re_req};
use crate::group::{CarriedKeys, give_all};
use crate::mic::{Between, Tried, try_frame};
use domain_base::{Akm, Mac, Node, ShortOctets};
use group_key::GroupMemory;
use key_hierarchy::{LastDerived, PmkR0, PmkR1, ptk_from_r1};
use mac_prf::{KeptMicKey, Reassociation};
use node_base::{address, psk};
use rsn_elements::Elements;
use run_journal::{Domain, Keyed, Outcome, Reason, Reply};
use std::marker::Model;

/// The key of an attempt, and the name of the PMK-R1 that it was derived from.
#[derive(Clone, Copy)]
pub struct Transit {
    /// The key.
    pub key: Keyed,
    /// PMKR1Name.
    pub name: [u8; 16],
}

/// How far a station's attempt at a fast transition has come.
#[derive(Clone, Copy)]
pub enum Stage {
    /// The authentication request was sent.
    Asked,
    /// The authentication response was accepted, and the reassociation request sent.
    Keyed(Transit),
    /// The reassociation response was accepted: the attempt is a session.
    Done,
}

/// A station's attempt at a fast transition to an access point, from a session with another one. No
/// call takes memory.
#[derive(Drop)]
pub struct Originator {
    own: Mac,
    peer: Mac,
    current: Mac,
    ssid: ShortOctets<32>,
    mfp: bool,
    mdid: [u8; 2],
    r0kh_id: ShortOctets<48>,
    r0: PmkR0,
    r0_name: [u8; 16],
    snonce: [u8; 32],
    stage: Stage,
    // The KCK of its key, once that is derived: it shows in no result.
    kept: KeptMicKey,
}

impl Model for Originator {
    ghost use Rattle.key_hierarchy.specs.Sizes.{IsSsid, IsR0khId};
    ghost use Rattle.ft_exchange.specs.State.{OriginatorState, IsOriginator};

    ghost Value = { OriginatorState };

    ghost view = { λ s. record {
      own = s.own;
      peer = s.peer;
      current = s.current;
      ssid = s.ssid;
      mfp = s.mfp;
      mdid = s.mdid;
      r0kh_id = s.r0kh_id;
      r0 = s.r0;
      snonce = s.snonce;
      stage = s.stage;
    } };

    ghost invariant = { λ s. IsOriginator s.ssid s.r0kh_id s.r0 s.r0_name };
}

impl Originator {
    ghost use Rattle.ft_exchange.specs.Judged.{wanted};
    ghost use Rattle.ft_exchange.specs.Sent.{Sends, HasFrame};
    ghost use Rattle.ft_exchange.specs.Exchange.{asking_octets, wanted_by, r1_in, transit_in};
    ghost use Rattle.ft_exchange.specs.Exchange.{IsRequesting, request_octets, GoesOn};
    ghost use Rattle.ft_exchange.specs.Exchange.{response_between};
    ghost use Rattle.key_hierarchy.specs.FastTransition.{pmk_r0_name};
    ghost use Rattle.ft_exchange.specs.Exchange.{response_tried, IsResponse, both, Finishes};
    ghost use Rattle.ft_exchange.specs.OriginatorSteps.{IsBegun, IsAuthTaken, IsReassocTaken};
    ghost use Rattle.run_journal.specs.declared.acts.Kind.TheVariants as kind;

    /// A station asks an access point for a fast transition, from its session with the access point
    /// `current`, by the R0KH-ID of its last four-way handshake (IEEE Std 802.11-2020, 13.8.2). The
    /// reply has the authentication request and nothing else, whatever was in it.
    pub fn roam(
        domain: &Domain,
        sta: u16,
        ap: u16,
        current: u16,
        r0kh_id: &[u8],
        snonce: &[u8; 32],
        derived: &LastDerived,
        reply: &mut Reply,
    ) -> Self
        requires suite { domain.now.akm ≡ AnyAkm.FtPsk }
        requires ssid { IsSsid domain.now.ssid }
        requires sta { sta < length domain.now.stas }
        requires ap { ap < length domain.now.aps }
        requires current { current < length domain.now.aps }
        requires r0kh_id { IsR0khId r0kh_id.now }
        ensures { IsBegun domain.now (Sta sta) (Ap ap) (Ap current) r0kh_id.now snonce.now
            result reply.new }
    {
        *reply = Reply::empty();
        let own = address(domain, Node::Sta(sta));
        let key = psk(domain, Node::Sta(sta), Node::Ap(ap));
        let (ssid, id) = (domain.ssid.as_slice(), r0kh_id);
        let named = derived.r0(&key, ssid, domain.mdid, id, own);
        let (r0, r0_name) = named.parts();
        let originator = Originator {
            own,
            peer: address(domain, Node::Ap(ap)),
            current: address(domain, Node::Ap(current)),
            ssid: ShortOctets::of(ssid),
            mfp: domain.extras.mfp,
            mdid: domain.mdid,
            r0kh_id: ShortOctets::of(id),
            r0,
            r0_name,
            snonce: *snonce,
            stage: Stage::Asked,
            kept: KeptMicKey::none(),
        };
        originator.ask(reply);
        originator
    }

    // What each frame has.
    fn side(&self) -> Side<'_>
        ensures own { result.own ≡ self.now.own }
        ensures peer { result.peer ≡ self.now.peer }
        ensures mfp { result.mfp ≡ self.now.mfp }
        ensures mdid { result.mdid ≡ self.now.mdid }
        ensures r0kh_id { result.r0kh_id.now ≡ self.now.r0kh_id }
        ensures fits { IsR0khId result.r0kh_id.now }
    {
        let mdid = self.mdid;
        Side {
            own: self.own,
            peer: self.peer,
            mfp: self.mfp,
            mdid,
            r0kh_id: self.r0kh_id.as_slice(),
        }
    }

    // Sends the authentication request.
    fn ask(&self, reply: &mut Reply)
        requires { IsEmpty reply.old }
        ensures { Sends (asking_octets self.now) kind.FtReq None reply.old reply.new }
    {
        send_ft_req(self.side(), &self.r0_name(), &self.snonce, reply);
    }

    // What a frame has to say that carries that name.
    fn expects(&self, name: [u8; 16]) -> Expected<'_>
        ensures { wanted result ≡ wanted_by self.now name }
    {
        let (mdid, r1kh_id) = (self.mdid, self.peer.0);
        Expected {
            mfp: self.mfp,
            mdid,
            r1kh_id,
            r0kh_id: self.r0kh_id.as_slice(),
            name,
        }
    }

    // PMKR0Name, which was made as the attempt began.
    fn r0_name(&self) -> [u8; 16]
        ensures { result ≡ pmk_r0_name self.now.r0 }
    {
        self.r0_name
    }

    // The PMK-R1 at the access point.
    fn r1(&self) -> PmkR1
        ensures { result ≡ r1_in self.now }
    {
        PmkR1::of(&self.r0.key, &self.r0_name(), self.peer, self.own)
    }

    // The key of that ANonce.
    fn transit(&self, anonce: &[u8; 32]) -> Transit
        ensures { result ≡ transit_in self.now anonce.now }
    {
        let r1 = self.r1();
        let snonce = self.snonce;
        let ptk = ptk_from_r1(&r1, &snonce, anonce, self.peer, self.own);
        let key = Keyed {
            ptk,
            anonce: *anonce,
            snonce,
        };
        let name = r1.name;
        Transit { key, name }
    }

    /// Takes an authentication response of the access point, by its status and what its elements
    /// say. Where it is accepted the key is derived, and the reassociation request sent
    /// (IEEE Std 802.11-2020, 13.8.3 and 13.8.4). What is sent and derived comes into the reply,
    /// whatever was in it. A refusal changes nothing.
    pub fn on_auth(&mut self, status: u16, elements: &Elements<'_>, reply: &mut Reply) -> Outcome
        ensures { IsAuthTaken status (element_fields elements.now) self.old self.new result
            reply.new }
    {
        *reply = Reply::empty();
        let Stage::Asked = self.stage else {
            return Outcome::Refused(Reason::Unawaited);
        };
        let expected = self.expects(self.r0_name());
        if let Some(why) = auth_response_fault(&expected, &self.snonce, status, elements) {
            return Outcome::Refused(why);
        }
        match elements.fte {
            Some(fte) => self.go_on(&fte.anonce, reply),
            None => Outcome::Refused(Reason::Unawaited),
        }
    }

    // The response is accepted.
    fn go_on(&mut self, anonce: &[u8; 32], reply: &mut Reply) -> Outcome
        requires empty { IsEmpty reply.old }
        ensures outcome { result ≡ Outcome.Accepted }
        ensures goes { GoesOn anonce.now self.old self.new reply.new }
    {
        let transit = self.transit(anonce);
        let mut kept = KeptMicKey::none();
        kept.keep(Akm::FtPsk, &transit.key.ptk.kck);
        self.request(&transit, &kept, reply);
        reply.derived = Some(transit.key);
        self.kept = kept;
        self.stage = Stage::Keyed(transit);
        Outcome::Accepted
    }

    // Sends the reassociation request under that key.
    fn request(&self, transit: &Transit, kept: &KeptMicKey, reply: &mut Reply)
        ensures sends { Sends (request_octets self.now transit.now) kind.ReReq
            (Some transit.now.key.ptk.kck) reply.old reply.new }
        ensures covers { IsRequesting self.now transit.now }
    {
        let (key, name) = (transit.key, transit.name);
        let ssid = self.ssid.as_slice();
        send_re_req(self.side(), kept, ssid, self.current, &name, &key, reply);
    }

    /// Takes a reassociation response of the access point, by its status and what its elements say.
    /// Where it is accepted the pairwise key is installed, and the group keys are given to the
    /// memory, which is of the group keys of that access point (IEEE Std 802.11-2020, 13.8.5). A
    /// refusal changes neither the originator nor the memory.
    pub fn on_reassoc(
        &mut self,
        status: u16,
        elements: &Elements<'_>,
        memory: &mut GroupMemory,
        reply: &mut Reply,
    ) -> Outcome
        requires raw { HasRaw (element_fields elements.now) }
        ensures { IsReassocTaken status (element_fields elements.now) (both self.old memory.old)
            (both self.new memory.new) result reply.new }
    {
        *reply = Reply::empty();
        let Stage::Keyed(transit) = self.stage else {
            return Outcome::Refused(Reason::Unawaited);
        };
        match self.judge(&transit, status, elements, reply) {
            Ok(keys) => self.finish(&transit, keys, memory, reply),
            Err(why) => Outcome::Refused(why),
        }
    }

    // The two ends of the frames of reassociation.
    fn between(&self) -> Between
        ensures { result ≡ response_between self.now }
    {
        Between {
            station: self.own,
            bssid: self.peer,
            frame: Reassociation::Response,
        }
    }

    // Judges a reassociation response under that key: its group keys, or why it is refused. The KCK
    // comes into the reply as soon as the MIC verified.
    #[tactic(auto, using(crate::proofs::Judging::judged_first, crate::proofs::Judging::judged_then))]
    fn judge(
        &self,
        transit: &Transit,
        status: u16,
        elements: &Elements<'_>,
        reply: &mut Reply,
    ) -> Result<CarriedKeys, Reason>
        requires raw { HasRaw (element_fields elements.now) }
        requires empty { IsEmpty reply.old }
        ensures { IsResponse self.now transit.now status (element_fields elements.now) reply.new
            result }
    {
        let key = transit.key;
        let tried = self.try_response(&key, status, elements);
        if let Some(why) = tried.reason() {
            return Err(why);
        }
        reply.verified = tried.kck(&key);
        let expected = self.expects(transit.name);
        judge_reassoc_response(&expected, &key.ptk.kek, status, elements)
    }

    // Tries nonces and MIC, which a response with another status than 0 does not have.
    fn try_response(&self, key: &Keyed, status: u16, elements: &Elements<'_>) -> Tried
        requires raw { HasRaw (element_fields elements.now) }
        ensures { result ≡ response_tried self.now key.now status (element_fields elements.now) }
    {
        if status != 0 {
            return Tried::Nothing;
        }
        try_frame(&self.kept, key, self.between(), elements)
    }

    // The response is accepted.
    fn finish(
        &mut self,
        transit: &Transit,
        keys: CarriedKeys,
        memory: &mut GroupMemory,
        reply: &mut Reply,
    ) -> Outcome
        ensures outcome { result ≡ Outcome.Accepted }
        ensures finishes { Finishes transit.now keys (both self.old memory.old)
            (both self.new memory.new) reply.old reply.new }
    {
        let key = transit.key;
        let became = give_all(memory, keys);
        reply.installed = Some(key);
        reply.gtk = Some(became.gtk);
        reply.igtk = became.igtk;
        self.stage = Stage::Done;
        Outcome::Accepted
    }
}
