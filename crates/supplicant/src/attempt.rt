//! An attempt of a station with an access point, from the association on.

ghost use Rattle.std.specs.Prelude.{◌≡◌, Some, None, IfOk, IfErr, OnErr};
ghost use Rattle.eapol_key.specs.Fields.{IsKeyFrame};
ghost use Rattle.run_journal.specs.Replies.{IsEmpty, IsWhole};
ghost use Rattle.supplicant.specs.Exchange.{Answers, Finishes, IsRefusal};
ghost use Rattle.supplicant.specs.Held.{key_in};

use crate::answers::{accept_m3, answer_m1, give_all};
use crate::base::Base;
use crate::key_data::packet_number;
use crate::m3::judge_m3;
use crate::session::Session;
use eapol_key::KeyFrame;
use group_key::GroupMemory;
use key_hierarchy::LastDerived;
use mac_prf::KeptMicKey;
use node_base::{Ends, pairwise_key};
use run_journal::{Keyed, Reason, Reply};

/// An attempt: the association was accepted, and M3 is awaited.
#[derive(Clone, Copy)]
pub struct Attempt {
    /// The own nonce of the attempt.
    pub snonce: [u8; 32],
    /// The key of the last M1.
    pub key: Option<Keyed>,
}

impl Attempt {
    /// Under that nonce, before M1.
    pub fn begin(snonce: [u8; 32]) -> Self
        ensures { result ≡ record { snonce = snonce; key = None } }
    {
        Attempt { snonce, key: None }
    }

    /// M1 whose counter is not too low: the key is derived, and M2 answers, with Secure set where
    /// the attempt renews the key of a session.
    pub fn take_m1(
        self,
        ends: &Ends,
        base: &Base,
        kept: &mut KeptMicKey,
        frame: &KeyFrame<'_>,
        secure: bool,
        derived: &mut LastDerived,
        reply: &mut Reply,
    ) -> Self
        requires empty { IsEmpty reply.old }
        ensures answers { Answers ends.now base.now frame.now secure self result reply.new }
        ensures keys { reply.new.installed ≡ None }
        ensures whole { IsWhole reply.new }
    {
        let (anonce, snonce) = (frame.nonce, self.snonce);
        let key = pairwise_key(ends, &base.pmk, &anonce, &snonce, derived);
        kept.keep(ends.akm, &key.ptk.kck);
        answer_m1(ends, base, kept, &key, secure, frame.counter, reply);
        Attempt {
            snonce,
            key: Some(key),
        }
    }

    /// M3, whose replay counter has to be above the kept one: the keys are installed, M4 answers,
    /// and the attempt becomes a session.
    pub fn take_m3(
        self,
        ends: &Ends,
        base: &Base,
        mic_key: &KeptMicKey,
        kept: Option<u64>,
        frame: &KeyFrame<'_>,
        memory: &mut GroupMemory,
        reply: &mut Reply,
    ) -> Result<Session, Reason>
        requires frame { IsKeyFrame frame.now }
        requires empty { IsEmpty reply.old }
        ensures key { IfOk result (λ x. self.key ≡ key_in x) }
        ensures finishes { IfOk result (λ x.
            Finishes ends.now base.now frame.now kept memory.old memory.new x reply.new) }
        ensures refused { IfErr result (λ why.
            IsRefusal ends.now base.now self.key kept frame.now why reply.new) }
        ensures kept { OnErr result (memory.new ≡ memory.old) }
        ensures keys { reply.new.derived ≡ None }
        ensures whole { IsWhole reply.new }
    {
        let Some(key) = self.key else {
            return Err(Reason::Unawaited);
        };
        let group = judge_m3(ends.mfp, base, mic_key, &key, kept, frame, reply)?;
        let counter = frame.counter;
        let keys = give_all(memory, group, packet_number(frame.rsc));
        accept_m3(ends, mic_key, &key, keys, counter, reply);
        Ok(Session::Connect { key, counter })
    }
}
