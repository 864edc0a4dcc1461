//! What a storm asks for next.

ghost use Rattle.std.specs.Prelude.{◌≡◌, ◌≢◌, ◌<◌, ◌≤◌, [], ◌∷◌, length, IfOk, OnOk};
ghost use Rattle.storm.specs.Drawing.{after, drawn};
ghost use Rattle.storm.specs.Events.{alter, any_number, any_sta, connect, deliver, event_by};
ghost use Rattle.storm.specs.Events.{event_of, is_listed, late_number, other, other_of, receiver};
ghost use Rattle.storm.specs.Events.{rekey, retry, roam, send, send_of};
ghost use Rattle.storm.specs.Frames.{frame_at};
ghost use Rattle.run_journal.specs.declared.domain.Event.TheVariants as sends;

use crate::generator::Generator;
use crate::seen::Frame;
use domain_base::{NoMemory, Node, Octets, Peer, Tid};
use run_journal::Event;
use std::alloc::Global;

/// How many access points there are.
pub(crate) const APS: u16 = 4;

/// How many stations there are.
pub(crate) const STAS: u16 = 8;

// How far back a frame is that is called late.
const LATE: u64 = 8;

// A station, and then an access point.
fn sta_and_ap(generator: &mut Generator) -> (u16, u16)
    ensures sta { result.0 ≡ drawn 8 generator.old }
    ensures ap { result.1 ≡ drawn 4 (after generator.old) }
    ensures state { generator.new ≡ after (after generator.old) }
{
    let sta = generator.place(STAS);
    let ap = generator.place(APS);
    (sta, ap)
}

// A station begins an attempt with an access point.
#[tactic(auto, unfolding(crate::specs::Events::connect))]
fn connect(generator: &mut Generator) -> Event
    ensures value { result ≡ (connect generator.old).0 }
    ensures state { generator.new ≡ (connect generator.old).1 }
{
    let (sta, ap) = sta_and_ap(generator);
    Event::Connect { sta, ap }
}

// A station begins an attempt with an access point, by fast transition.
#[tactic(auto, unfolding(crate::specs::Events::roam))]
fn roam(generator: &mut Generator) -> Event
    ensures value { result ≡ (roam generator.old).0 }
    ensures state { generator.new ≡ (roam generator.old).1 }
{
    let (sta, ap) = sta_and_ap(generator);
    Event::Roam { sta, ap }
}

// Whether a node is one of the storm's.
fn is_listed(node: Node) -> bool
    ensures { result ≡ is_listed node }
{
    match node {
        Node::Ap(ap) => ap < APS,
        Node::Sta(sta) => sta < STAS,
    }
}

// A station.
fn any_sta(generator: &mut Generator) -> Node
    ensures value { result ≡ (any_sta generator.old).0 }
    ensures state { generator.new ≡ (any_sta generator.old).1 }
{
    Node::Sta(generator.place(STAS))
}

// To whom a frame comes that was sent to this one.
#[tactic(auto, unfolding(crate::specs::Events::receiver))]
fn receiver(generator: &mut Generator, peer: Peer) -> Node
    ensures value { result ≡ (receiver peer generator.old).0 }
    ensures state { generator.new ≡ (receiver peer generator.old).1 }
{
    match peer {
        Peer::One(node) => {
            if is_listed(node) {
                node
            } else {
                any_sta(generator)
            }
        }
        Peer::All => any_sta(generator),
    }
}

// The number of one of the last frames.
#[tactic(auto, unfolding(crate::specs::Events::late_number))]
fn late_number(generator: &mut Generator, frames: &[Frame]) -> u64
    requires { 0 < length frames.now }
    ensures some { 1 ≤ result }
    ensures sent { result ≤ length frames.now }
    ensures value { result ≡ (late_number frames.now generator.old).0 }
    ensures state { generator.new ≡ (late_number frames.now generator.old).1 }
{
    let count = frames.len() as u64;
    count - generator.next(count.min(LATE))
}

// The number of a frame.
#[tactic(auto, unfolding(crate::specs::Events::any_number))]
fn any_number(generator: &mut Generator, frames: &[Frame]) -> u64
    requires { 0 < length frames.now }
    ensures some { 1 ≤ result }
    ensures sent { result ≤ length frames.now }
    ensures value { result ≡ (any_number frames.now generator.old).0 }
    ensures state { generator.new ≡ (any_number frames.now generator.old).1 }
{
    1 + generator.next(frames.len() as u64)
}

// The frame of that number, from 1.
fn frame_at(frames: &[Frame], number: u64) -> Frame
    requires some { 1 ≤ number }
    requires sent { number ≤ length frames.now }
    ensures { result ≡ frame_at frames.now number }
{
    frames[(number - 1) as usize]
}

// The frame of that number comes as it was sent.
#[tactic(auto, unfolding(crate::specs::Events::deliver))]
fn deliver(generator: &mut Generator, frames: &[Frame], number: u64) -> Event
    requires some { 1 ≤ number }
    requires sent { number ≤ length frames.now }
    ensures value { result ≡ (deliver frames.now number generator.old).0 }
    ensures state { generator.new ≡ (deliver frames.now number generator.old).1 }
{
    let frame = frame_at(frames, number);
    Event::Deliver {
        number,
        to: receiver(generator, frame.to),
    }
}

// The frame of that number comes with one octet changed, or without octets as it was sent.
#[tactic(auto, unfolding(crate::specs::Events::alter))]
fn alter(generator: &mut Generator, frames: &[Frame], number: u64) -> Event
    requires some { 1 ≤ number }
    requires sent { number ≤ length frames.now }
    ensures value { result ≡ (alter frames.now number generator.old).0 }
    ensures state { generator.new ≡ (alter frames.now number generator.old).1 }
{
    let frame = frame_at(frames, number);
    if frame.size == 0 {
        return deliver(generator, frames, number);
    }
    let place = generator.next(frame.size as u64) as usize;
    let mask = 1 + generator.next(255) as u8;
    let to = receiver(generator, frame.to);
    Event::Alter {
        number,
        place,
        mask,
        to,
    }
}

// An access point sends a station once more what it waits to have answered.
#[tactic(auto, unfolding(crate::specs::Events::retry))]
fn retry(generator: &mut Generator) -> Event
    ensures value { result ≡ (retry generator.old).0 }
    ensures state { generator.new ≡ (retry generator.old).1 }
{
    let (sta, ap) = sta_and_ap(generator);
    Event::Retry { ap, sta }
}

// A node sends a payload: who, to whom, with which TID and which octet.
fn payload(sta: u16, ap: u16, way: u64) -> (Node, Peer, Option<Tid>, u8)
    ensures { send_of sta ap way ≡ sends.Send result.0 result.1 result.2 (result.3 ∷ []) }
{
    if way == 0 {
        (Node::Sta(sta), Peer::One(Node::Ap(ap)), Tid::new(3), b's')
    } else if way == 1 {
        (Node::Ap(ap), Peer::One(Node::Sta(sta)), None, b'a')
    } else {
        (Node::Ap(ap), Peer::All, None, b'g')
    }
}

// A node sends a payload of one octet.
#[tactic(auto, unfolding(crate::specs::Events::send))]
fn send(generator: &mut Generator, alloc: Global) -> Result<Event, NoMemory>
    ensures value { IfOk result (λ e. e ≡ (send generator.old).0) }
    ensures state { OnOk result (generator.new ≡ (send generator.old).1) }
{
    let (sta, ap) = sta_and_ap(generator);
    let way = generator.next(3);
    let (from, to, tid, octet) = payload(sta, ap, way);
    let octets = Octets(Vec::from_slice(alloc, &[octet])?);
    Ok(Event::Send {
        from,
        to,
        tid,
        octets,
    })
}

// An access point draws a new group key.
#[tactic(auto, unfolding(crate::specs::Events::rekey))]
fn rekey(generator: &mut Generator) -> Event
    ensures value { result ≡ (rekey generator.old).0 }
    ensures state { generator.new ≡ (rekey generator.old).1 }
{
    Event::Rekey {
        ap: generator.place(APS),
    }
}

// What of a station and an access point ends, or is sent once more.
fn other_of(sta: u16, ap: u16, way: u64) -> Event
    ensures { result ≡ other_of sta ap way }
{
    match way {
        0 => Event::Revoke { ap, sta },
        1 => Event::Expire { ap, sta },
        2 => Event::Leave { sta },
        _ => Event::Retry { ap, sta },
    }
}

// Something ends, or is sent once more.
#[tactic(auto, unfolding(crate::specs::Events::other))]
fn other(generator: &mut Generator) -> Event
    ensures value { result ≡ (other generator.old).0 }
    ensures state { generator.new ≡ (other generator.old).1 }
{
    let (sta, ap) = sta_and_ap(generator);
    let way = generator.next(4);
    other_of(sta, ap, way)
}

// The event of that number below 16.
#[tactic(auto, unfolding(crate::specs::Events::event_by))]
fn event_by(
    generator: &mut Generator,
    alloc: Global,
    frames: &[Frame],
    choice: u64,
) -> Result<Event, NoMemory>
    requires { choice ≢ 0 → 0 < length frames.now }
    ensures value { IfOk result (λ e. e ≡ (event_by frames.now choice generator.old).0) }
    ensures state { OnOk result (generator.new ≡ (event_by frames.now choice generator.old).1) }
{
    if choice == 0 {
        Ok(connect(generator))
    } else if choice <= 2 {
        Ok(roam(generator))
    } else if choice <= 9 {
        let number = late_number(generator, frames);
        Ok(deliver(generator, frames, number))
    } else if choice == 10 {
        let number = any_number(generator, frames);
        Ok(deliver(generator, frames, number))
    } else if choice == 11 {
        let number = late_number(generator, frames);
        Ok(alter(generator, frames, number))
    } else if choice == 12 {
        Ok(retry(generator))
    } else if choice == 13 {
        send(generator, alloc)
    } else if choice == 14 {
        Ok(rekey(generator))
    } else {
        Ok(other(generator))
    }
}

/// The next event, where these frames were sent. Where none was, a station connects.
#[tactic(auto, unfolding(crate::specs::Events::event_of))]
pub(crate) fn next_event(
    generator: &mut Generator,
    alloc: Global,
    frames: &[Frame],
) -> Result<Event, NoMemory>
    ensures value { IfOk result (λ e. e ≡ (event_of frames.now generator.old).0) }
    ensures state { OnOk result (generator.new ≡ (event_of frames.now generator.old).1) }
{
    let choice = generator.next(16);
    let choice = if frames.is_empty() { 0 } else { choice };
    event_by(generator, alloc, frames, choice)
}
