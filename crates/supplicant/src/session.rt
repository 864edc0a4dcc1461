//! A session of a station with an access point.

ghost use Rattle.std.specs.Prelude.{◌≡◌, Some, None, IfOk, IfErr, OnErr};
ghost use Rattle.eapol_key.specs.Fields.{IsKeyFrame};
ghost use Rattle.run_journal.specs.Replies.{IsEmpty, IsWhole};
ghost use Rattle.supplicant.specs.Held.{ptk_of, kept_of, counted, counter_in, is_connected};
ghost use Rattle.supplicant.specs.Exchange.{Repeats, Renews, IsRepeatRefusal, IsG1Refusal};

use crate::answers::{accept_g1, answer_m3, give_all};
use crate::base::Base;
use crate::g1::judge_g1;
use crate::key_data::packet_number;
use crate::m3::judge_m3;
use eapol_key::KeyFrame;
use group_key::GroupMemory;
use key_hierarchy::Ptk;
use mac_prf::KeptMicKey;
use node_base::Ends;
use run_journal::{Keyed, Reason, Reply};

/// A session.
#[derive(Clone, Copy)]
pub enum Session {
    /// Of a four-way handshake, whose M3 was accepted.
    Connect {
        /// The key.
        key: Keyed,
        /// The greatest replay counter of an M3 or G1 that was accepted or answered.
        counter: u64,
    },
    /// Of a fast transition.
    Ft {
        /// The key.
        ptk: Ptk,
        /// The greatest replay counter of a G1 that was accepted, where one was.
        counter: Option<u64>,
    },
}

impl Session {
    // Its key.
    fn ptk(&self) -> Ptk
        ensures { result ≡ ptk_of self.now }
    {
        match self {
            Session::Connect { key, .. } => key.ptk,
            Session::Ft { ptk, .. } => *ptk,
        }
    }

    // The replay counter that is kept, where one is.
    fn kept(&self) -> Option<u64>
        ensures { result ≡ kept_of self.now }
    {
        match *self {
            Session::Connect { counter, .. } => Some(counter),
            Session::Ft { counter, .. } => counter,
        }
    }

    // With that replay counter.
    fn counted(self, counter: u64) -> Self
        ensures { result ≡ counted counter self }
    {
        match self {
            Session::Connect { key, .. } => Session::Connect { key, counter },
            Session::Ft { ptk, .. } => Session::Ft {
                ptk,
                counter: Some(counter),
            },
        }
    }

    /// M3 once more: M4 alone answers, and the counter is that of the message. It is awaited in a
    /// session of a four-way handshake alone.
    pub fn take_m3(
        self,
        ends: &Ends,
        base: &Base,
        kept: &KeptMicKey,
        frame: &KeyFrame<'_>,
        reply: &mut Reply,
    ) -> Result<Self, Reason>
        requires frame { IsKeyFrame frame.now }
        requires empty { IsEmpty reply.old }
        ensures repeats { IfOk result (λ x. Repeats ends.now base.now frame.now self x reply.new) }
        ensures refused { IfErr result (λ why.
            IsRepeatRefusal ends.now base.now self frame.now why reply.new) }
        ensures keys { reply.new.derived ≡ None }
        ensures whole { IsWhole reply.new }
    {
        let Session::Connect { key, counter } = self else {
            return Err(Reason::Unawaited);
        };
        judge_m3(ends.mfp, base, kept, &key, Some(counter), frame, reply)?;
        let counter = frame.counter;
        answer_m3(ends, kept, &key, counter, reply);
        Ok(Session::Connect { key, counter })
    }

    /// G1: each group key is installed or goes on, G2 answers, and the counter is that of the
    /// message.
    pub fn take_g1(
        self,
        ends: &Ends,
        kept: &mut KeptMicKey,
        frame: &KeyFrame<'_>,
        memory: &mut GroupMemory,
        reply: &mut Reply,
    ) -> Result<Self, Reason>
        requires frame { IsKeyFrame frame.now }
        requires empty { IsEmpty reply.old }
        ensures renews { IfOk result (λ x.
            Renews ends.now frame.now memory.old memory.new self x reply.new) }
        ensures refused { IfErr result (λ why.
            IsG1Refusal ends.now self frame.now why reply.new) }
        ensures kept { OnErr result (memory.new ≡ memory.old) }
        ensures keys { (reply.new.derived ≡ None) × (reply.new.installed ≡ None) }
        ensures whole { IsWhole reply.new }
    {
        let ptk = self.ptk();
        kept.keep(ends.akm, &ptk.kck);
        let group = judge_g1(ends.mfp, ends.akm, kept, &ptk, self.kept(), frame, reply)?;
        let counter = frame.counter;
        let keys = give_all(memory, group, packet_number(frame.rsc));
        accept_g1(ends, kept, &ptk, keys, counter, reply);
        Ok(self.counted(counter))
    }
}

/// The replay counter that is kept in a session, where there is one and it keeps one.
pub fn counter_in(session: Option<Session>) -> Option<u64>
    ensures { result ≡ counter_in session }
{
    match session {
        Some(session) => session.kept(),
        None => None,
    }
}

/// Whether a session began by a four-way handshake.
pub fn is_connected(session: Option<Session>) -> bool
    ensures { result ≡ is_connected session }
{
    match session {
        Some(Session::Connect { .. }) => true,
        Some(Session::Ft { .. }) => false,
        None => false,
    }
}
