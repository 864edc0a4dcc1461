//! What comes of a retry (IEEE Std 802.11-2020, 12.7.6.6 and 12.7.7.4).

ghost use Rattle.std.specs.Prelude.{◌≡◌, ◌≤◌, ◌+◌, ◌++◌, [], ◌∷◌, IfOk, OnOk, OnErr};
ghost use Rattle.domain_base.specs.declared.names.Node.TheVariants.{Sta};
ghost use Rattle.run_journal.specs.declared.acts.Act.TheVariants.{Idle};
ghost use Rattle.run_journal.specs.declared.acts.Outcome.TheVariants as outcome;
ghost use Rattle.run_journal.specs.declared.acts.Why.TheVariants as why;
ghost use Rattle.run_journal.specs.Replies.{IsWhole};
ghost use Rattle.domain_rules.specs.Rows.{outcome_of};
ghost use Rattle.authenticator.specs.Steps.{part_of, again_acts};

use act_memory::{Outbox, SendRoom, stay_idle};
use authenticator::Again;
use domain_base::{NoMemory, Node};
use eapol_key::Message;
use run_journal::{Act, Outcome, Part, Reply, Why};

// What is given up with a message: a session with G1, and else an attempt.
fn part_of(message: Message) -> Part
    ensures { result ≡ part_of message }
{
    match message {
        Message::G1 => Part::Session,
        _ => Part::Attempt,
    }
}

/// Adds the acts of a retry of a station, by what came of it and the reply. Takes no memory.
pub fn add_again(
    station: u16,
    came: Again,
    room: SendRoom,
    reply: &Reply,
    out: &mut Outbox,
) -> Outcome
    requires room { 2 ≤ out.old.spare }
    requires whole { IsWhole reply.now }
    ensures outcome { result ≡ outcome_of (again_acts (Sta station) came reply.now) }
    ensures acts { out.new.acts ≡ out.old.acts ++ again_acts (Sta station) came reply.now }
    ensures spare { out.old.spare ≤ out.new.spare + 2 }
{
    let peer = Node::Sta(station);
    match came {
        Again::Sent => {
            room.add_sent(peer, reply, out);
            Outcome::Done
        }
        Again::GaveUp(message) => {
            out.add(Act::GaveUp { peer, message });
            out.add(Act::Closed {
                peer,
                part: part_of(message),
            });
            Outcome::GaveUp(message)
        }
        Again::Nothing => stay_idle(Why::Nothing, out),
    }
}

/// Nothing waits for an answer, so nothing is sent. There is room for two more acts then.
pub fn idle_again(out: &mut Outbox) -> Result<Outcome, NoMemory>
    ensures outcome { IfOk result (λ came. came ≡ outcome.Idle why.Nothing) }
    ensures acts { OnOk result (out.new.acts ≡ out.old.acts ++ Idle why.Nothing ∷ []) }
    ensures kept { OnErr result (out.new.acts ≡ out.old.acts) }
    ensures room { OnOk result (2 ≤ out.new.spare) }
{
    out.reserve(3)?;
    Ok(stay_idle(Why::Nothing, out))
}
