//! What stations have sent to an access point, and what it sends to them once more: each is for the
//! place of the station, found by its number.

ghost use Rattle.std.specs.Prelude.{◌≡◌, ◌≢◌, ◌≤◌, ◌+◌, ◌++◌, ℕ, List, Some, None};
ghost use Rattle.std.specs.Prelude.{IfOk, OnOk, OnErr, length, is_some, true, false};
ghost use Rattle.domain_base.specs.declared.names.Node.{Node as AnyNode};
ghost use Rattle.eapol_key.specs.Fields.{IsKeyFrame};
ghost use Rattle.eapol_key.specs.declared.messages.Message.TheVariants.{G2};
ghost use Rattle.run_journal.specs.declared.acts.Act.{Act as AnyAct};
ghost use Rattle.run_journal.specs.declared.acts.Outcome.TheVariants.{Refused};
ghost use Rattle.run_journal.specs.declared.acts.Reason.TheVariants as reason;
ghost use Rattle.run_journal.specs.declared.acts.Reason.{Reason as AnyReason};
ghost use Rattle.run_journal.specs.declared.domain.Domain.{Domain as AnyDomain};
ghost use Rattle.run_journal.specs.declared.reply.Reply.{Reply as AnyReply};
ghost use Rattle.run_journal.specs.Replies.{IsEmpty};
ghost use Rattle.domain_rules.specs.Reading.{KeyMessage as KeyFields};
ghost use Rattle.domain_rules.specs.Replies.{taken_as, replied_acts};
ghost use Rattle.domain_rules.specs.Rows.{outcome_of};
ghost use Rattle.act_memory.specs.Rooms.{IsRoom, between_of};
ghost use Rattle.node_base.specs.Pairs.{pair_at};
ghost use Rattle.group_key.specs.News.{FitsNews};
ghost use Rattle.authenticator.specs.Judged.{frame_of, is_final};
ghost use Rattle.authenticator.specs.Taken.{given};
ghost use Rattle.ap_node.specs.declared.station.Station.{Station as AnyStation};
ghost use Rattle.ap_node.specs.declared.station.Attempt.TheVariants.{Association};
ghost use Rattle.ap_node.specs.State.{station_at, begun_over, has_attempt, is_there};
ghost use Rattle.ap_node.specs.Parts.{after_step, IsHanded, InAttempt, HearsInSession};
ghost use Rattle.ap_node.specs.Parts.{IsForSession};
ghost use Rattle.ap_node.specs.Parts.{is_final_in, is_final_at, IsResent};

use crate::boxed::BoxedStation;
use crate::ready::Ready;
use crate::retrying::{add_again, idle_again};
use crate::station::{Attempt, Session, Station};
use act_memory::{Outbox, SendRoom};
use authenticator::Authenticator;
use domain_base::NoMemory;
use eapol_key::Message;
use frame_intake::KeyMessage;
use group_key::News;
use key_hierarchy::LastDerived;
use run_journal::{Keyed, Outcome, Reason, Reply};
use std::alloc::Global;
use std::collections::BTreeMap;

/// From now on this is the attempt with the station of that number, which has a place: the session
/// goes on beside it. The attempt that there was is at its end, and whether there was one is
/// answered.
pub fn begin(stations: &mut BTreeMap<u16, BoxedStation>, station: u16, part: Authenticator) -> bool
    requires there { is_there station stations.old.entries ≡ true }
    ensures had { result ≡ has_attempt (station_at stations.old.entries station) }
    ensures begun { station_at stations.new.entries station
        ≡ begun_over (station_at stations.old.entries station) part }
    ensures others { (k : ℕ) → k ≢ station
        → station_at stations.new.entries k ≡ station_at stations.old.entries k }
{
    let Some(place) = stations.get_mut(&station) else {
        unreachable!()
    };
    place.station_mut().begin(part)
}

/// Whether an EAPOL-Key message of a station is the last of the attempt with it.
pub fn is_final(
    stations: &BTreeMap<u16, BoxedStation>,
    station: u16,
    message: &KeyMessage<'_>,
) -> bool
    requires { IsKeyFrame message.now.frame }
    ensures { result ≡ is_final_at (station_at stations.now.entries station) message.now.message
        (frame_of message.now.frame) }
{
    match stations.get(&station) {
        Some(place) => place.station().is_final(message),
        None => false,
    }
}

// A message that no part awaits.
fn unawaited(ready: Ready, out: &mut Outbox) -> Outcome
    requires room { 10 + length ready.between.opened.items + length ready.between.put.items
        ≤ out.old.spare }
    ensures outcome { result ≡ Refused reason.Unawaited }
    ensures acts { (d : AnyDomain) (id : List ℕ) (n p : AnyNode) (octets : List ℕ)
        (k : KeyFields) → IsRoom d id n p octets k ready.room → (r : AnyReply) × IsEmpty r
        × (out.new.acts ≡ out.old.acts ++ replied_acts (pair_at d id n p) false
        (taken_as octets k result) r (between_of ready.between)) }
    ensures room { 2 ≤ out.new.spare }
{
    let Ready { room, between, .. } = ready;
    let outcome = Outcome::Refused(Reason::Unawaited);
    let reply = Reply::empty();
    room.add_reply(outcome, false, &reply, between, out);
    outcome
}

// The part of an attempt by association takes a message of its station, beside a session or not. A
// key that it installs is answered too: the attempt becomes the session then.
fn step_attempt(
    part: &mut Authenticator,
    had_session: bool,
    message: &KeyMessage<'_>,
    newest: &News,
    ready: Ready,
    derived: &mut LastDerived,
    out: &mut Outbox,
) -> (Outcome, Option<Keyed>)
    requires frame { IsKeyFrame message.now.frame }
    requires other { message.now.message ≢ G2 }
    requires judged { ready.is_final ≡ is_final part.old.ends.akm part.old.attempt
        message.now.message (frame_of message.now.frame) }
    requires news { FitsNews newest.now }
    requires same { ready.room.message ≡ message.now.message }
    requires room { 10 + length ready.between.opened.items + length ready.between.put.items
        ≤ out.old.spare }
    ensures handed { (d : AnyDomain) (id : List ℕ) (n p : AnyNode) (octets : List ℕ)
        (k : KeyFields) → IsRoom d id n p octets k ready.room → (acts : List AnyAct)
        × (out.new.acts ≡ out.old.acts ++ acts)
        × ((x : AnyStation) → x.attempt ≡ Some (Association part.old)
        → had_session ≡ is_some x.session
        → InAttempt (pair_at d id n p) (given message.now.message (frame_of message.now.frame)
        newest.now) (taken_as octets k result.0) (between_of ready.between)
        x (after_step part.new result.1 x) acts) }
    ensures refused { (why : AnyReason) → result.0 ≡ Refused why
        → (part.new ≡ part.old) × (result.1 ≡ None) }
    ensures room { 2 ≤ out.new.spare }
{
    let Ready {
        is_final,
        room,
        between,
    } = ready;
    let (kind, frame) = (message.message, &message.frame);
    let mut reply = Reply::empty();
    let outcome = part.step_judged(kind, frame, is_final, newest, derived, &mut reply);
    room.add_reply(outcome, had_session, &reply, between, out);
    (outcome, reply.installed)
}

// The part of a session takes a message of its station. A key that it installs is in use from then
// on.
fn step_session(
    session: &mut Session,
    message: &KeyMessage<'_>,
    newest: &News,
    ready: Ready,
    derived: &mut LastDerived,
    out: &mut Outbox,
) -> Outcome
    requires frame { IsKeyFrame message.now.frame }
    requires judged { ready.is_final ≡ is_final session.old.part.ends.akm session.old.part.attempt
        message.now.message (frame_of message.now.frame) }
    requires news { FitsNews newest.now }
    requires same { ready.room.message ≡ message.now.message }
    requires room { 10 + length ready.between.opened.items + length ready.between.put.items
        ≤ out.old.spare }
    ensures handed { (d : AnyDomain) (id : List ℕ) (n p : AnyNode) (octets : List ℕ)
        (k : KeyFields) → IsRoom d id n p octets k ready.room → (acts : List AnyAct)
        × (out.new.acts ≡ out.old.acts ++ acts)
        × HearsInSession (pair_at d id n p) (given message.now.message
        (frame_of message.now.frame) newest.now) (taken_as octets k result)
        (between_of ready.between) session.old session.new acts }
    ensures refused { (why : AnyReason) → result ≡ Refused why → session.new ≡ session.old }
    ensures room { 2 ≤ out.new.spare }
{
    let Ready {
        is_final,
        room,
        between,
    } = ready;
    let (kind, frame) = (message.message, &message.frame);
    let mut reply = Reply::empty();
    let part = &mut session.part;
    let outcome = part.step_judged(kind, frame, is_final, newest, derived, &mut reply);
    session.use_key(reply.installed);
    room.add_reply(outcome, true, &reply, between, out);
    outcome
}

// The part of the session with a station takes a message of it, where there is one.
fn hand_session(
    place: &mut Station,
    message: &KeyMessage<'_>,
    newest: &News,
    ready: Ready,
    derived: &mut LastDerived,
    out: &mut Outbox,
) -> Outcome
    requires frame { IsKeyFrame message.now.frame }
    requires which { IsForSession message.now.message place.old }
    requires judged { ready.is_final ≡ is_final_in place.old.session message.now.message
        (frame_of message.now.frame) }
    requires news { FitsNews newest.now }
    requires same { ready.room.message ≡ message.now.message }
    requires room { 10 + length ready.between.opened.items + length ready.between.put.items
        ≤ out.old.spare }
    ensures handed { (d : AnyDomain) (id : List ℕ) (n p : AnyNode) (octets : List ℕ)
        (k : KeyFields) → IsRoom d id n p octets k ready.room → (acts : List AnyAct)
        × (out.new.acts ≡ out.old.acts ++ acts)
        × IsHanded (pair_at d id n p) (given message.now.message (frame_of message.now.frame)
        newest.now) (taken_as octets k result) (between_of ready.between)
        place.old place.new acts }
    ensures refused { (why : AnyReason) → result ≡ Refused why → place.new ≡ place.old }
    ensures room { 2 ≤ out.new.spare }
{
    match &mut place.session {
        Some(session) => step_session(session, message, newest, ready, derived, out),
        None => unawaited(ready, out),
    }
}

// The part of the attempt with a station takes a message of it, or without one by association that
// of the session.
fn hand_attempt(
    place: &mut Station,
    message: &KeyMessage<'_>,
    newest: &News,
    ready: Ready,
    derived: &mut LastDerived,
    out: &mut Outbox,
) -> Outcome
    requires frame { IsKeyFrame message.now.frame }
    requires other { message.now.message ≢ G2 }
    requires judged { ready.is_final ≡ is_final_at place.old message.now.message
        (frame_of message.now.frame) }
    requires news { FitsNews newest.now }
    requires same { ready.room.message ≡ message.now.message }
    requires room { 10 + length ready.between.opened.items + length ready.between.put.items
        ≤ out.old.spare }
    ensures handed { (d : AnyDomain) (id : List ℕ) (n p : AnyNode) (octets : List ℕ)
        (k : KeyFields) → IsRoom d id n p octets k ready.room → (acts : List AnyAct)
        × (out.new.acts ≡ out.old.acts ++ acts)
        × IsHanded (pair_at d id n p) (given message.now.message (frame_of message.now.frame)
        newest.now) (taken_as octets k result) (between_of ready.between)
        place.old place.new acts }
    ensures refused { (why : AnyReason) → result ≡ Refused why → place.new ≡ place.old }
    ensures room { 2 ≤ out.new.spare }
{
    match &mut place.attempt {
        Some(Attempt::Association(part)) => {
            let had_session = place.session.is_some();
            let (outcome, installed) = step_attempt(
                part,
                had_session,
                message,
                newest,
                ready,
                derived,
                out,
            );
            place.seat(installed);
            outcome
        }
        Some(Attempt::Transition(_)) => hand_session(place, message, newest, ready, derived, out),
        None => hand_session(place, message, newest, ready, derived, out),
    }
}

// The part that an EAPOL-Key message of a station is for takes it, by the newest group key: G2 is
// for the session.
fn hand(
    place: &mut Station,
    message: &KeyMessage<'_>,
    newest: &News,
    ready: Ready,
    derived: &mut LastDerived,
    out: &mut Outbox,
) -> Outcome
    requires frame { IsKeyFrame message.now.frame }
    requires judged { ready.is_final ≡ is_final_at place.old message.now.message
        (frame_of message.now.frame) }
    requires news { FitsNews newest.now }
    requires same { ready.room.message ≡ message.now.message }
    requires room { 10 + length ready.between.opened.items + length ready.between.put.items
        ≤ out.old.spare }
    ensures handed { (d : AnyDomain) (id : List ℕ) (n p : AnyNode) (octets : List ℕ)
        (k : KeyFields) → IsRoom d id n p octets k ready.room → (acts : List AnyAct)
        × (out.new.acts ≡ out.old.acts ++ acts)
        × IsHanded (pair_at d id n p) (given message.now.message (frame_of message.now.frame)
        newest.now) (taken_as octets k result) (between_of ready.between)
        place.old place.new acts }
    ensures refused { (why : AnyReason) → result ≡ Refused why → place.new ≡ place.old }
    ensures room { 2 ≤ out.new.spare }
{
    match message.message {
        Message::G2 => hand_session(place, message, newest, ready, derived, out),
        _ => hand_attempt(place, message, newest, ready, derived, out),
    }
}

/// The part with a station takes an EAPOL-Key message of it, by the newest group key. There is room
/// for two more acts then. Without a part for it the message is unawaited. `derived` has the keys
/// that the access point derived last. Takes no memory.
pub fn take_message(
    stations: &mut BTreeMap<u16, BoxedStation>,
    station: u16,
    message: &KeyMessage<'_>,
    newest: &News,
    ready: Ready,
    derived: &mut LastDerived,
    out: &mut Outbox,
) -> Outcome
    requires frame { IsKeyFrame message.now.frame }
    requires judged { ready.is_final ≡ is_final_at (station_at stations.old.entries station)
        message.now.message (frame_of message.now.frame) }
    requires news { FitsNews newest.now }
    requires same { ready.room.message ≡ message.now.message }
    requires room { 10 + length ready.between.opened.items + length ready.between.put.items
        ≤ out.old.spare }
    ensures handed { (d : AnyDomain) (id : List ℕ) (n p : AnyNode) (octets : List ℕ)
        (k : KeyFields) → IsRoom d id n p octets k ready.room → (acts : List AnyAct)
        × (out.new.acts ≡ out.old.acts ++ acts)
        × IsHanded (pair_at d id n p) (given message.now.message (frame_of message.now.frame)
        newest.now) (taken_as octets k result) (between_of ready.between)
        (station_at stations.old.entries station) (station_at stations.new.entries station) acts }
    ensures others { (k : ℕ) → k ≢ station
        → station_at stations.new.entries k ≡ station_at stations.old.entries k }
    ensures refused { (why : AnyReason) → result ≡ Refused why
        → stations.new.entries ≡ stations.old.entries }
    ensures room { 2 ≤ out.new.spare }
{
    match stations.get_mut(&station) {
        Some(place) => hand(place.station_mut(), message, newest, ready, derived, out),
        None => unawaited(ready, out),
    }
}

// The part with a station sends once more what waits for an answer of it.
fn send_again(
    alloc: Global,
    station: u16,
    place: &mut Station,
    newest: &News,
    out: &mut Outbox,
) -> Result<Outcome, NoMemory>
    requires news { FitsNews newest.now }
    ensures resent { IfOk result (λ outcome. (acts : List AnyAct)
        × (out.new.acts ≡ out.old.acts ++ acts)
        × (outcome ≡ outcome_of acts) × IsResent station newest.now place.old place.new acts) }
    ensures same { OnErr result (place.new ≡ place.old) }
    ensures kept { OnErr result (out.new.acts ≡ out.old.acts) }
    ensures room { OnOk result (2 ≤ out.new.spare) }
{
    let room = SendRoom::take(alloc)?;
    out.reserve(4)?;
    let mut reply = Reply::empty();
    let came = place.send_again(newest, &mut reply);
    Ok(add_again(station, came, room, &reply, out))
}

/// The part with a station sends once more what waits for an answer of it, where there is one.
/// There is room for two more acts then.
pub fn retry(
    stations: &mut BTreeMap<u16, BoxedStation>,
    alloc: Global,
    station: u16,
    newest: &News,
    out: &mut Outbox,
) -> Result<Outcome, NoMemory>
    requires news { FitsNews newest.now }
    ensures resent { IfOk result (λ outcome. (acts : List AnyAct)
        × (out.new.acts ≡ out.old.acts ++ acts)
        × (outcome ≡ outcome_of acts) × IsResent station newest.now
        (station_at stations.old.entries station) (station_at stations.new.entries station)
        acts) }
    ensures others { (k : ℕ) → k ≢ station
        → station_at stations.new.entries k ≡ station_at stations.old.entries k }
    ensures same { OnErr result (stations.new.entries ≡ stations.old.entries) }
    ensures kept { OnErr result (out.new.acts ≡ out.old.acts) }
    ensures room { OnOk result (2 ≤ out.new.spare) }
{
    match stations.get_mut(&station) {
        Some(place) => send_again(alloc, station, place.station_mut(), newest, out),
        None => idle_again(out),
    }
}
