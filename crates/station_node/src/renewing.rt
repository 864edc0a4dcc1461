//! Message 1 by which a station begins to renew the key of its session.

ghost use Rattle.std.specs.Prelude.{◌≡◌, ◌≤◌, ◌+◌, ◌++◌, [], true, length, IfOk, OnErr};
ghost use Rattle.std.specs.Prelude.{vec_len, vec_capacity};
ghost use Rattle.domain_base.specs.declared.names.Node.TheVariants.{Ap};
ghost use Rattle.eapol_key.specs.declared.messages.Message.TheVariants.{M1};
ghost use Rattle.run_journal.specs.Events.{IsListed, IsPeerOf};
ghost use Rattle.supplicant.specs.Steps.{opened_with, opening};
ghost use Rattle.supplicant.specs.Taken.{may_renew};
ghost use Rattle.station_node.specs.Parts.{is_ready, is_m1, opens_by, next_drawn, drawn_after};
ghost use Rattle.station_node.specs.Handed.{IsRenewed, renewal};

use crate::attempt::Attempt;
use crate::session::Session;
use act_memory::{Between, Outbox, Room};
use domain_base::{NoMemory, Node};
use eapol_key::Message;
use frame_intake::Heard;
use key_hierarchy::LastDerived;
use node_base::{DRAW_END, Here, nonce, renews};
use run_journal::{Act, Domain, Drawn, Outcome, Reply, Start};
use supplicant::Supplicant;

// Whether the message is message 1.
fn is_m1(message: Message) -> bool
    ensures { result ≡ is_m1 message }
{
    match message {
        Message::M1 => true,
        _ => false,
    }
}

// Whether the session is with that access point, and its key may be renewed.
fn is_ready(session: &Option<Session>, ap: u16) -> bool
    ensures { result ≡ is_ready session.now ap }
{
    match session {
        Some(session) => session.ap == ap && session.supplicant.may_renew(),
        None => false,
    }
}

/// Whether the message of that access point is one by which a station begins to renew the key of its
/// session (IEEE Std 802.11-2020, 12.7.6.2).
pub fn opens_renewal(
    domain: &Domain,
    attempt: &Option<Attempt>,
    session: &Option<Session>,
    ap: u16,
    message: Message,
) -> bool
    ensures { result ≡ opens_by domain.now attempt.now session.now ap message }
{
    is_m1(message) && (renews(domain) && (!attempt.is_some() && is_ready(session, ap)))
}

/// The nonce that a station draws next, where it has drawn so often and draws one more.
pub fn next_nonce(here: Here<'_>, drawn: u64) -> Option<[u8; 32]>
    requires { IsListed here.domain.now here.node }
    ensures { result ≡ next_drawn here.entry.domain.now here.entry.node drawn }
{
    if drawn < DRAW_END {
        Some(nonce(here.domain, here.node, drawn))
    } else {
        None
    }
}

/// How often it has drawn after a message of which that came, by which it may begin to renew a key.
pub fn drawn_after(outcome: Outcome, drawn: u64) -> u64
    ensures { result ≡ drawn_after outcome drawn }
{
    match outcome {
        Outcome::Accepted => { if drawn < DRAW_END { drawn + 1 } else { drawn } }
        _ => drawn,
    }
}

// The beginning of an attempt with that access point that renews a key, under that nonce, in that
// room, which has no act yet.
fn opened_with(ap: u16, snonce: Option<[u8; 32]>, room: Vec<Act>) -> Vec<Act>
    requires none { room.items ≡ [] }
    requires room { vec_len room + 2 ≤ vec_capacity room }
    ensures { result.items ≡ opened_with (Ap ap) snonce }
{
    let mut acts = room;
    let Some(value) = snonce else { return acts };
    acts.push_reserved(Act::Opened {
        peer: Node::Ap(ap),
        start: Start::Renew,
    });
    acts.push_reserved(Act::Drew {
        value: Drawn::Nonce(value),
    });
    acts
}

// It, where the message was accepted.
fn opening(outcome: Outcome, ap: u16, snonce: Option<[u8; 32]>, room: Vec<Act>) -> Vec<Act>
    requires none { room.items ≡ [] }
    requires room { vec_len room + 2 ≤ vec_capacity room }
    ensures acts { result.items ≡ opening outcome (Ap ap) snonce }
    ensures few { length result.items ≤ 2 }
{
    match outcome {
        Outcome::Accepted => opened_with(ap, snonce, room),
        _ => room,
    }
}

/// Hands a message 1 of that access point, by which the station begins to renew the key of its
/// session, to the supplicant of that, under the nonce that is drawn next. `derived` has the keys
/// that the station derived last.
pub fn hand_first(
    here: Here<'_>,
    ap: u16,
    heard: &Heard<'_>,
    supplicant: &mut Supplicant,
    snonce: Option<[u8; 32]>,
    derived: &mut LastDerived,
    out: &mut Outbox,
) -> Result<Outcome, NoMemory>
    requires listed { IsListed here.domain.now here.node }
    requires peer { IsPeerOf here.domain.now here.node (Ap ap) }
    requires message { heard.now.message.message ≡ M1 }
    requires ready { may_renew supplicant.old ≡ true }
    ensures renewed { IfOk result (λ outcome. IsRenewed here.entry.domain.now here.entry.node
        (Ap ap) heard.now snonce (renewal supplicant.old supplicant.new out.old.acts out.new.acts)
        outcome) }
    ensures same { OnErr result (supplicant.new ≡ supplicant.old) }
    ensures kept { OnErr result (out.new.acts ≡ out.old.acts) }
{
    let message = &heard.message;
    out.reserve(10)?;
    let room = Room::take(here, Node::Ap(ap), supplicant.r0kh_id(), heard)?;
    let acts = Vec::with_capacity(here.alloc, 2)?;
    let mut reply = Reply::empty();
    let outcome = supplicant.renew(&message.frame, snonce.as_ref(), derived, &mut reply);
    let between = Between {
        opened: opening(outcome, ap, snonce, acts),
        put: Vec::new(here.alloc),
    };
    room.add_reply(outcome, false, &reply, between, out);
    Ok(outcome)
}
