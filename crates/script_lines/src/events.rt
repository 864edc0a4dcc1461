//! The lines that ask for events.

ghost use Rattle.std.specs.Prelude.{◌≡◌, ◌<◌, ◌≤◌, ℕ, List, length, is_some, nat_le, nat_lt};
ghost use Rattle.std.specs.Prelude.{if◌then◌else◌, Some, Ok, Err, IfOk, IfSome, IsTrue, option_map};
ghost use Rattle.run_journal.specs.declared.domain.Domain.{Domain as AnyDomain};
ghost use Rattle.run_journal.specs.declared.domain.Event.TheVariants as asks;
ghost use Rattle.script_words.specs.Tokens.{hex_value, number_of_digits, split_word};
ghost use Rattle.run_journal.specs.Events.{IsListed, IsReceiverOf};
ghost use Rattle.run_journal.specs.Limits.{most_frames};
ghost use Rattle.script_words.specs.Grammar.{goes_with, in_version, row_of};
ghost use Rattle.script_lines.specs.Headers.{CanHappen, IsSized};
ghost use Rattle.script_lines.specs.Refusals.{fault_of};
ghost use Rattle.script_lines.specs.Script.{Asks, alter_line, announce_line, any_event};
ghost use Rattle.script_lines.specs.Script.{ap_and_sta, cut_line, listed_ap, payload_octets};
ghost use Rattle.script_lines.specs.Script.{deliver_line, event_by, event_line, event_node};
ghost use Rattle.script_lines.specs.Script.{event_of, frame_, frame_event, frame_octets};
ghost use Rattle.script_lines.specs.Script.{inject_line, is_second, leave_line, listed, need};
ghost use Rattle.script_lines.specs.Script.{node_, ◌>>=◌ as ◌>>=ᴿ◌, octets_within, part_line};
ghost use Rattle.script_lines.specs.Script.{place_, receiver_by, rekey_line, send_between};
ghost use Rattle.script_lines.specs.Script.{send_line, send_payload, session_event, size_of};
ghost use Rattle.script_lines.specs.Script.{sta_and_ap, station_event, to_word, two_words};
ghost use Rattle.script_lines.specs.Sentences.{CanAsk, CanJoin, Tells, TellsBy};
ghost use Rattle.script_lines.specs.Sentences.{event_of as event_asked, is_few};
ghost use Rattle.script_words.specs.Names.{name_of, names_of, octets_of, peer_of};

use crate::listed::{listed_ap, listed_sta};
use crate::nodes::is_of_network;
use crate::refusal::Refusal;
use crate::secrets::secret_line;
use domain_base::{Node, Peer, Tid};
use run_journal::{Domain, Event, MOST_EVENTS, MOST_FRAMES, MOST_OCTETS, MOST_PAYLOAD};
use script_words::{
    Form, NodeName, PeerName, Row, behind, goes_with, hex_octets, in_replay, is_octets, node_name,
    number_of_digits, peer_name, row_of, split_word, stands_in, tid_of,
};

/// What is asked for, before memory is taken for it.
#[derive(Drop)]
pub enum Asked<'a> {
    /// An event.
    Event(Event),
    /// That octets come to a node, in digits.
    Inject(Node, &'a [u8]),
    /// That a node sends a payload, with the TID, if there is one, in digits.
    Send(Node, Peer, Option<Tid>, &'a [u8]),
    /// That an access point announces a payload, in digits.
    Announce(u16, &'a [u8]),
}

// A listed node.
#[tactic(auto, unfolding(crate::specs::Script::listed))]
fn listed(domain: &Domain, name: NodeName) -> Option<Node>
    requires { IsTrue (is_few domain.now) }
    ensures inside { IfSome result (IsListed domain.now) }
    ensures value { result ≡ listed domain.now (name_of name) }
{
    match name {
        NodeName::Ap(_) => listed_ap(domain, name).map(Node::Ap),
        NodeName::Sta(_) => listed_sta(domain, name).map(Node::Sta),
    }
}

// A listed node that takes a frame or sends a payload, within a round or not.
#[tactic(auto, unfolding(crate::specs::Script::event_node))]
fn event_node(domain: &Domain, within: bool, name: NodeName) -> Option<Node>
    requires { IsTrue (is_few domain.now) }
    ensures inside { IfSome result (IsListed domain.now) }
    ensures value { result ≡ event_node within domain.now (name_of name) }
{
    match name {
        NodeName::Ap(_) => listed(domain, name),
        NodeName::Sta(_) => { if within { None } else { listed(domain, name) } }
    }
}

/// The size of the frame of that number, from 1, where frames of these sizes were sent.
#[tactic(auto, unfolding(crate::specs::Script::size_of))]
pub fn size_of(sizes: &[usize], number: u64) -> Option<usize>
    ensures sized { IfSome result (λ whole. (size : ℕ)
        → size ≤ whole → IsSized sizes.now number size) }
    ensures value { result ≡ size_of sizes.now number }
{
    if 1 <= number && number <= sizes.len() as u64 {
        Some(sizes[(number - 1) as usize])
    } else {
        None
    }
}

// `to` and a node.
#[tactic(auto, unfolding(crate::specs::Script::to_word))]
fn to_name(text: &[u8]) -> Option<NodeName>
    ensures { option_map name_of result ≡ to_word text.now }
{
    node_name(behind(b"to ", text)?)
}

// The names of two nodes.
#[tactic(auto, unfolding(crate::specs::Script::two_words))]
fn two_names(text: &[u8]) -> Option<(NodeName, NodeName)>
    ensures { option_map names_of result ≡ two_words text.now }
{
    let (first, second) = split_word(text)?;
    let first = node_name(first)?;
    let second = node_name(second)?;
    Some((first, second))
}

// A station and an access point that are listed, in this order.
#[tactic(auto, unfolding(crate::specs::Script::sta_and_ap))]
fn sta_and_ap(domain: &Domain, text: &[u8]) -> Result<(u16, u16), Refusal>
    requires { IsTrue (is_few domain.now) }
    ensures inside { IfOk result (λ nodes. (nodes.0 < length domain.now.stas)
        × (nodes.1 < length domain.now.aps)) }
    ensures says { Tells result (sta_and_ap domain.now text.now) }
{
    let Some((sta, ap)) = two_names(text) else {
        return Err(Refusal::Arguments);
    };
    let Some(sta) = listed_sta(domain, sta) else {
        return Err(Refusal::Node);
    };
    let Some(ap) = listed_ap(domain, ap) else {
        return Err(Refusal::Node);
    };
    Ok((sta, ap))
}

// An access point and a station that are listed, in this order.
#[tactic(auto, unfolding(crate::specs::Script::ap_and_sta))]
fn ap_and_sta(domain: &Domain, text: &[u8]) -> Result<(u16, u16), Refusal>
    requires { IsTrue (is_few domain.now) }
    ensures inside { IfOk result (λ nodes. (nodes.0 < length domain.now.aps)
        × (nodes.1 < length domain.now.stas)) }
    ensures says { Tells result (ap_and_sta domain.now text.now) }
{
    let Some((ap, sta)) = two_names(text) else {
        return Err(Refusal::Arguments);
    };
    let Some(ap) = listed_ap(domain, ap) else {
        return Err(Refusal::Node);
    };
    let Some(sta) = listed_sta(domain, sta) else {
        return Err(Refusal::Node);
    };
    Ok((ap, sta))
}

// A frame that was sent comes to a node, by its number and the node's name.
fn deliver(
    domain: &Domain,
    within: bool,
    sizes: &[usize],
    number: u64,
    name: NodeName,
) -> Result<Event, Refusal>
    requires { IsTrue (is_few domain.now) }
    ensures can { IfOk result (CanHappen domain.now sizes.now) }
    ensures says { Tells result
        (need node_ (event_node within domain.now (name_of name)) >>=ᴿ (λ to.
        need frame_ (size_of sizes.now number) >>=ᴿ (λ _. Ok (asks.Deliver number to)))) }
{
    let Some(to) = event_node(domain, within, name) else {
        return Err(Refusal::Node);
    };
    let Some(_) = size_of(sizes, number) else {
        return Err(Refusal::Frame);
    };
    Ok(Event::Deliver { number, to })
}

// A frame that was sent comes to a node.
#[tactic(auto, unfolding(crate::specs::Script::deliver_line))]
fn deliver_line(
    domain: &Domain,
    within: bool,
    sizes: &[usize],
    text: &[u8],
) -> Result<Event, Refusal>
    requires { IsTrue (is_few domain.now) }
    ensures can { IfOk result (CanHappen domain.now sizes.now) }
    ensures says { Tells result (deliver_line domain.now within sizes.now text.now) }
{
    let Some((number, rest)) = split_word(text) else {
        return Err(Refusal::Arguments);
    };
    let Some(number) = number_of_digits(number) else {
        return Err(Refusal::Arguments);
    };
    let Some(name) = to_name(rest) else {
        return Err(Refusal::Arguments);
    };
    deliver(domain, within, sizes, number, name)
}

// Whether a frame of that size has an octet at that place.
fn has_place(place: u64, size: usize) -> bool
    ensures { result ≡ nat_lt place size }
{
    place < size as u64
}

// A frame that was sent comes to a node with one octet changed, by numbers and the node.
fn alter(sizes: &[usize], number: u64, place: u64, mask: u8, to: Node) -> Result<Event, Refusal>
    ensures can { (d : AnyDomain) → IsListed d to → IfOk result (CanHappen d sizes.now) }
    ensures says { Tells result
        (need frame_ (size_of sizes.now number) >>=ᴿ (λ size.
        if nat_lt place size then Ok (asks.Alter number place mask to) else Err place_)) }
{
    let Some(size) = size_of(sizes, number) else {
        return Err(Refusal::Frame);
    };
    if !has_place(place, size) {
        return Err(Refusal::Place);
    }
    let place = place as usize;
    Ok(Event::Alter {
        number,
        place,
        mask,
        to,
    })
}

// A frame that was sent comes to a node with one octet changed, by its number, the place and what
// stands behind that in the line.
#[tactic(auto, unfolding(crate::specs::Script::alter_line))]
fn alter_octet(
    domain: &Domain,
    within: bool,
    sizes: &[usize],
    number: u64,
    place: u64,
    text: &[u8],
) -> Result<Event, Refusal>
    requires { IsTrue (is_few domain.now) }
    ensures can { IfOk result (CanHappen domain.now sizes.now) }
    ensures says { (line word rest second : List ℕ) → split_word line ≡ Some (word, rest)
        → number_of_digits word ≡ Some number → split_word rest ≡ Some (second, text.now)
        → number_of_digits second ≡ Some place
        → Tells result (alter_line domain.now within sizes.now line) }
{
    let Some((mask, rest)) = split_word(text) else {
        return Err(Refusal::Arguments);
    };
    let Some(mask): Option<[u8; 1]> = hex_octets(mask) else {
        return Err(Refusal::Arguments);
    };
    let Some(name) = to_name(rest) else {
        return Err(Refusal::Arguments);
    };
    let Some(to) = event_node(domain, within, name) else {
        return Err(Refusal::Node);
    };
    alter(sizes, number, place, mask[0], to)
}

// A frame that was sent comes to a node with one octet changed, by its number and what stands
// behind that in the line.
#[tactic(auto, unfolding(crate::specs::Script::alter_line))]
fn alter_frame(
    domain: &Domain,
    within: bool,
    sizes: &[usize],
    number: u64,
    text: &[u8],
) -> Result<Event, Refusal>
    requires { IsTrue (is_few domain.now) }
    ensures can { IfOk result (CanHappen domain.now sizes.now) }
    ensures says { (line word : List ℕ) → split_word line ≡ Some (word, text.now)
        → number_of_digits word ≡ Some number
        → Tells result (alter_line domain.now within sizes.now line) }
{
    let Some((place, rest)) = split_word(text) else {
        return Err(Refusal::Arguments);
    };
    let Some(place) = number_of_digits(place) else {
        return Err(Refusal::Arguments);
    };
    alter_octet(domain, within, sizes, number, place, rest)
}

// A frame that was sent comes to a node with one octet changed.
#[tactic(auto, unfolding(crate::specs::Script::alter_line))]
fn alter_line(domain: &Domain, within: bool, sizes: &[usize], text: &[u8]) -> Result<Event, Refusal>
    requires { IsTrue (is_few domain.now) }
    ensures can { IfOk result (CanHappen domain.now sizes.now) }
    ensures says { Tells result (alter_line domain.now within sizes.now text.now) }
{
    let Some((number, rest)) = split_word(text) else {
        return Err(Refusal::Arguments);
    };
    let Some(number) = number_of_digits(number) else {
        return Err(Refusal::Arguments);
    };
    alter_frame(domain, within, sizes, number, rest)
}

// The first octets of a frame that was sent come to a node, by numbers and the node's name.
fn cut(
    domain: &Domain,
    within: bool,
    sizes: &[usize],
    number: u64,
    count: u64,
    name: NodeName,
) -> Result<Event, Refusal>
    requires { IsTrue (is_few domain.now) }
    ensures can { IfOk result (CanHappen domain.now sizes.now) }
    ensures says { Tells result
        (need node_ (event_node within domain.now (name_of name)) >>=ᴿ (λ to.
        need frame_ (size_of sizes.now number) >>=ᴿ (λ size.
        if nat_le count size then Ok (asks.Cut number count to) else Err place_))) }
{
    let Some(to) = event_node(domain, within, name) else {
        return Err(Refusal::Node);
    };
    let Some(whole) = size_of(sizes, number) else {
        return Err(Refusal::Frame);
    };
    let size = count as usize;
    if size <= whole {
        Ok(Event::Cut { number, size, to })
    } else {
        Err(Refusal::Place)
    }
}

// The first octets of a frame that was sent come to a node, by its number and what stands behind
// that in the line.
#[tactic(auto, unfolding(crate::specs::Script::cut_line))]
fn cut_frame(
    domain: &Domain,
    within: bool,
    sizes: &[usize],
    number: u64,
    text: &[u8],
) -> Result<Event, Refusal>
    requires { IsTrue (is_few domain.now) }
    ensures can { IfOk result (CanHappen domain.now sizes.now) }
    ensures says { (line word : List ℕ) → split_word line ≡ Some (word, text.now)
        → number_of_digits word ≡ Some number
        → Tells result (cut_line domain.now within sizes.now line) }
{
    let Some((count, rest)) = split_word(text) else {
        return Err(Refusal::Arguments);
    };
    let Some(count) = number_of_digits(count) else {
        return Err(Refusal::Arguments);
    };
    let Some(name) = to_name(rest) else {
        return Err(Refusal::Arguments);
    };
    cut(domain, within, sizes, number, count, name)
}

// The first octets of a frame that was sent come to a node.
#[tactic(auto, unfolding(crate::specs::Script::cut_line))]
fn cut_line(domain: &Domain, within: bool, sizes: &[usize], text: &[u8]) -> Result<Event, Refusal>
    requires { IsTrue (is_few domain.now) }
    ensures can { IfOk result (CanHappen domain.now sizes.now) }
    ensures says { Tells result (cut_line domain.now within sizes.now text.now) }
{
    let Some((number, rest)) = split_word(text) else {
        return Err(Refusal::Arguments);
    };
    let Some(number) = number_of_digits(number) else {
        return Err(Refusal::Arguments);
    };
    cut_frame(domain, within, sizes, number, rest)
}

// Octets, at most so many, or they are refused as too many.
#[tactic(auto, using(crate::proofs::Injected::framing), unfolding(crate::specs::Script::octets_within))]
fn octets_within(most: usize, many: Refusal, text: &[u8]) -> Result<(), Refusal>
    ensures digits { IfOk result (λ _. IsTrue (is_some (hex_value text.now))) }
    ensures few { IfOk result (λ _. length (octets_of text.now) ≤ most) }
    ensures says { TellsBy (λ _. octets_of text.now) result
        (octets_within most (fault_of many) text.now) }
{
    if !is_octets(text) {
        Err(Refusal::Arguments)
    } else if most < text.len() / 2 {
        Err(many)
    } else {
        Ok(())
    }
}

// Octets come to a node, by its name and their digits.
fn inject<'a>(
    domain: &Domain,
    within: bool,
    name: NodeName,
    digits: &'a [u8],
) -> Result<Asked<'a>, Refusal>
    requires { IsTrue (is_few domain.now) }
    ensures can { (sizes : List ℕ) → IfOk result (CanAsk domain.now sizes) }
    ensures says { TellsBy event_asked result
        (frame_octets digits.now >>=ᴿ (λ octets.
        need node_ (event_node within domain.now (name_of name)) >>=ᴿ (λ to.
        Ok (asks.Inject to octets)))) }
{
    octets_within(MOST_OCTETS, Refusal::LongFrame, digits)?;
    let Some(to) = event_node(domain, within, name) else {
        return Err(Refusal::Node);
    };
    Ok(Asked::Inject(to, digits))
}

// Octets come to a node.
#[tactic(auto, unfolding(crate::specs::Script::inject_line))]
fn inject_line<'a>(domain: &Domain, within: bool, text: &'a [u8]) -> Result<Asked<'a>, Refusal>
    requires { IsTrue (is_few domain.now) }
    ensures can { (sizes : List ℕ) → IfOk result (CanAsk domain.now sizes) }
    ensures says { TellsBy event_asked result (inject_line domain.now within text.now) }
{
    let Some((word, digits)) = split_word(text) else {
        return Err(Refusal::Arguments);
    };
    let Some(name) = node_name(word) else {
        return Err(Refusal::Arguments);
    };
    inject(domain, within, name, digits)
}

// To whom the node sends, by the name.
#[tactic(auto, unfolding(crate::specs::Script::receiver_by))]
fn receiver_of(domain: &Domain, from: Node, name: PeerName) -> Option<Peer>
    requires { IsTrue (is_few domain.now) }
    ensures inside { IfSome result (IsReceiverOf domain.now from) }
    ensures value { result ≡ receiver_by domain.now from (peer_of name) }
{
    match (from, name) {
        (Node::Ap(_), PeerName::All) => Some(Peer::All),
        (Node::Ap(_), PeerName::One(sta)) => listed_sta(domain, sta).map(Node::Sta).map(Peer::One),
        (Node::Sta(_), PeerName::All) => None,
        (Node::Sta(_), PeerName::One(ap)) => listed_ap(domain, ap).map(Node::Ap).map(Peer::One),
    }
}

// A node sends a payload, by the names and the digits.
#[tactic(auto, unfolding(crate::specs::Script::send_payload))]
fn send_payload<'a>(
    domain: &Domain,
    within: bool,
    from: NodeName,
    to: PeerName,
    tid: Option<Tid>,
    digits: &'a [u8],
) -> Result<Asked<'a>, Refusal>
    requires { IsTrue (is_few domain.now) }
    ensures can { (sizes : List ℕ) → IfOk result (CanAsk domain.now sizes) }
    ensures says { TellsBy event_asked result
        (send_payload domain.now within (name_of from) (peer_of to) tid digits.now) }
{
    octets_within(MOST_PAYLOAD, Refusal::LongPayload, digits)?;
    let Some(from) = event_node(domain, within, from) else {
        return Err(Refusal::Node);
    };
    let Some(to) = receiver_of(domain, from, to) else {
        return Err(Refusal::Node);
    };
    Ok(Asked::Send(from, to, tid, digits))
}

// A node sends a payload, by the names and what stands behind them in the line.
#[tactic(auto, unfolding(crate::specs::Script::send_between))]
fn send_between<'a>(
    domain: &Domain,
    within: bool,
    from: NodeName,
    to: PeerName,
    text: &'a [u8],
) -> Result<Asked<'a>, Refusal>
    requires { IsTrue (is_few domain.now) }
    ensures can { (sizes : List ℕ) → IfOk result (CanAsk domain.now sizes) }
    ensures says { TellsBy event_asked result
        (send_between domain.now within (name_of from) (peer_of to) text.now) }
{
    let Some((word, digits)) = split_word(text) else {
        return Err(Refusal::Arguments);
    };
    let Some(tid) = tid_of(word) else {
        return Err(Refusal::Arguments);
    };
    send_payload(domain, within, from, to, tid, digits)
}

// A node sends a payload.
#[tactic(auto, unfolding(crate::specs::Script::send_line))]
fn send_line<'a>(domain: &Domain, within: bool, text: &'a [u8]) -> Result<Asked<'a>, Refusal>
    requires { IsTrue (is_few domain.now) }
    ensures can { (sizes : List ℕ) → IfOk result (CanAsk domain.now sizes) }
    ensures says { TellsBy event_asked result (send_line domain.now within text.now) }
{
    let Some((first, rest)) = split_word(text) else {
        return Err(Refusal::Arguments);
    };
    let Some(from) = node_name(first) else {
        return Err(Refusal::Arguments);
    };
    let Some((second, rest)) = split_word(rest) else {
        return Err(Refusal::Arguments);
    };
    let Some(to) = peer_name(second) else {
        return Err(Refusal::Arguments);
    };
    send_between(domain, within, from, to, rest)
}

// An access point announces a payload, by its name and the digits.
fn announce<'a>(domain: &Domain, name: NodeName, digits: &'a [u8]) -> Result<Asked<'a>, Refusal>
    requires few { IsTrue (is_few domain.now) }
    requires mfp { IsTrue domain.now.extras.mfp }
    ensures can { (sizes : List ℕ) → IfOk result (CanAsk domain.now sizes) }
    ensures says { TellsBy event_asked result
        (payload_octets digits.now >>=ᴿ (λ octets.
        need node_ (listed_ap domain.now (name_of name)) >>=ᴿ (λ ap.
        Ok (asks.Announce ap octets)))) }
{
    octets_within(MOST_PAYLOAD, Refusal::LongPayload, digits)?;
    let Some(ap) = listed_ap(domain, name) else {
        return Err(Refusal::Node);
    };
    Ok(Asked::Announce(ap, digits))
}

// An access point announces a payload.
#[tactic(auto, unfolding(crate::specs::Script::announce_line))]
fn announce_line<'a>(domain: &Domain, text: &'a [u8]) -> Result<Asked<'a>, Refusal>
    requires few { IsTrue (is_few domain.now) }
    requires mfp { IsTrue domain.now.extras.mfp }
    ensures can { (sizes : List ℕ) → IfOk result (CanAsk domain.now sizes) }
    ensures says { TellsBy event_asked result (announce_line domain.now text.now) }
{
    let Some((word, digits)) = split_word(text) else {
        return Err(Refusal::Arguments);
    };
    let Some(name) = node_name(word) else {
        return Err(Refusal::Arguments);
    };
    announce(domain, name, digits)
}

// An access point draws a new group key.
#[tactic(auto, unfolding(crate::specs::Script::rekey_line))]
fn rekey_line(domain: &Domain, text: &[u8]) -> Result<Event, Refusal>
    requires { IsTrue (is_few domain.now) }
    ensures can { (sizes : List ℕ) → IfOk result (CanHappen domain.now sizes) }
    ensures says { Tells result (rekey_line domain.now text.now) }
{
    let Some(ap) = node_name(text) else {
        return Err(Refusal::Arguments);
    };
    let Some(ap) = listed_ap(domain, ap) else {
        return Err(Refusal::Node);
    };
    Ok(Event::Rekey { ap })
}

// A station drops what it has.
#[tactic(auto, unfolding(crate::specs::Script::leave_line))]
fn leave_line(domain: &Domain, text: &[u8]) -> Result<Event, Refusal>
    requires { IsTrue (is_few domain.now) }
    ensures can { (sizes : List ℕ) → IfOk result (CanHappen domain.now sizes) }
    ensures says { Tells result (leave_line domain.now text.now) }
{
    let Some(sta) = node_name(text) else {
        return Err(Refusal::Arguments);
    };
    let Some(sta) = listed_sta(domain, sta) else {
        return Err(Refusal::Node);
    };
    Ok(Event::Leave { sta })
}

// An event that a station begins, or a changed key, by its line.
fn station_event(domain: &Domain, line: Form, text: &[u8]) -> Result<Event, Refusal>
    requires few { IsTrue (is_few domain.now) }
    requires suite { IsTrue (goes_with (row_of line).suites domain.now.akm) }
    requires version { IsTrue (in_version (row_of line).versions
        (is_second domain.now.extras.version) domain.now.extras.mfp) }
    ensures can { (sizes : List ℕ) → IfOk result (CanHappen domain.now sizes) }
    ensures says { Tells result (station_event domain.now line text.now) }
{
    match line {
        Form::Connect => {
            let (sta, ap) = sta_and_ap(domain, text)?;
            Ok(Event::Connect { sta, ap })
        }
        Form::Roam => {
            let (sta, ap) = sta_and_ap(domain, text)?;
            Ok(Event::Roam { sta, ap })
        }
        Form::Leave => leave_line(domain, text),
        Form::Secret => secret_line(domain, text),
        _ => Err(Refusal::Word),
    }
}

// An event of an access point's sessions, one that a station begins, or a changed key, by its line.
fn session_event(domain: &Domain, line: Form, text: &[u8]) -> Result<Event, Refusal>
    requires few { IsTrue (is_few domain.now) }
    requires suite { IsTrue (goes_with (row_of line).suites domain.now.akm) }
    requires version { IsTrue (in_version (row_of line).versions
        (is_second domain.now.extras.version) domain.now.extras.mfp) }
    ensures can { (sizes : List ℕ) → IfOk result (CanHappen domain.now sizes) }
    ensures says { Tells result (session_event domain.now line text.now) }
{
    match line {
        Form::Retry => {
            let (ap, sta) = ap_and_sta(domain, text)?;
            Ok(Event::Retry { ap, sta })
        }
        Form::Expire => {
            let (ap, sta) = ap_and_sta(domain, text)?;
            Ok(Event::Expire { ap, sta })
        }
        Form::Revoke => {
            let (ap, sta) = ap_and_sta(domain, text)?;
            Ok(Event::Revoke { ap, sta })
        }
        Form::Renew => {
            let (ap, sta) = ap_and_sta(domain, text)?;
            Ok(Event::Renew { ap, sta })
        }
        Form::Rekey => rekey_line(domain, text),
        _ => station_event(domain, line, text),
    }
}

// An event that takes no memory, by its line.
fn frame_event(
    domain: &Domain,
    within: bool,
    sizes: &[usize],
    line: Form,
    text: &[u8],
) -> Result<Event, Refusal>
    requires few { IsTrue (is_few domain.now) }
    requires suite { IsTrue (goes_with (row_of line).suites domain.now.akm) }
    requires version { IsTrue (in_version (row_of line).versions
        (is_second domain.now.extras.version) domain.now.extras.mfp) }
    ensures can { IfOk result (CanHappen domain.now sizes.now) }
    ensures says { Tells result (frame_event domain.now within sizes.now line text.now) }
{
    match line {
        Form::Deliver => deliver_line(domain, within, sizes, text),
        Form::Alter => alter_line(domain, within, sizes, text),
        Form::Cut => cut_line(domain, within, sizes, text),
        _ => session_event(domain, line, text),
    }
}

// An event by its line, within a round or not.
fn any_event<'a>(
    domain: &Domain,
    within: bool,
    sizes: &[usize],
    line: Form,
    text: &'a [u8],
) -> Result<Asked<'a>, Refusal>
    requires few { IsTrue (is_few domain.now) }
    requires suite { IsTrue (goes_with (row_of line).suites domain.now.akm) }
    requires version { IsTrue (in_version (row_of line).versions
        (is_second domain.now.extras.version) domain.now.extras.mfp) }
    ensures can { IfOk result (λ a. CanAsk domain.now sizes.now a) }
    ensures says { TellsBy event_asked result
        (any_event domain.now within sizes.now line text.now) }
{
    match line {
        Form::Inject => inject_line(domain, within, text),
        Form::Send => send_line(domain, within, text),
        Form::Announce => announce_line(domain, text),
        _ => {
            let event = frame_event(domain, within, sizes, line, text)?;
            Ok(Asked::Event(event))
        }
    }
}

// An event by its line and the row of that, within a round or not.
fn event_by<'a>(
    row: Row,
    domain: &Domain,
    within: bool,
    sizes: &[usize],
    line: Form,
    text: &'a [u8],
) -> Result<Asked<'a>, Refusal>
    requires few { IsTrue (is_few domain.now) }
    requires of_line { row ≡ row_of line }
    ensures can { IfOk result (λ a. CanAsk domain.now sizes.now a) }
    ensures says { TellsBy event_asked result
        (event_by row domain.now within sizes.now line text.now) }
{
    if stands_in(row.position, within)
        && goes_with(row.suites, domain.akm)
        && is_of_network(row, domain)
    {
        if in_replay(row.runs) {
            any_event(domain, within, sizes, line, text)
        } else {
            Err(Refusal::Mode)
        }
    } else {
        Err(Refusal::Word)
    }
}

// An event by its line, within a round or not.
#[tactic(auto, unfolding(crate::specs::Script::event_of))]
fn event_of<'a>(
    domain: &Domain,
    within: bool,
    sizes: &[usize],
    line: Form,
    text: &'a [u8],
) -> Result<Asked<'a>, Refusal>
    requires { IsTrue (is_few domain.now) }
    ensures can { IfOk result (λ a. CanAsk domain.now sizes.now a) }
    ensures says { TellsBy event_asked result
        (event_of domain.now within sizes.now line text.now) }
{
    event_by(row_of(line), domain, within, sizes, line, text)
}

/// An event that is a round by itself, where no more frames were sent than a run can number: by the
/// line that its first word begins, and what stands behind that. At most `MOST_APS` access points
/// and `MOST_STAS` stations are listed.
#[tactic(auto, unfolding(crate::specs::Script::event_line))]
pub fn event_line<'a>(
    domain: &Domain,
    sizes: &[usize],
    line: Form,
    text: &'a [u8],
) -> Result<Asked<'a>, Refusal>
    requires { IsTrue (is_few domain.now) }
    ensures can { IfOk result (λ a. CanAsk domain.now sizes.now a × (length sizes.now ≤ most_frames)) }
    ensures says { TellsBy (λ a. Asks (event_asked a)) result
        (event_line domain.now sizes.now line text.now) }
{
    let asked = event_of(domain, false, sizes, line, text)?;
    if sizes.len() <= MOST_FRAMES {
        Ok(asked)
    } else {
        Err(Refusal::ManyFrames)
    }
}

/// An event in a round that has so many, where it is not one too many: by its line as `event_line`.
#[tactic(auto, using(crate::proofs::Joining::can_join), unfolding(crate::specs::Script::part_line))]
pub fn part_line<'a>(
    domain: &Domain,
    count: u64,
    sizes: &[usize],
    line: Form,
    text: &'a [u8],
) -> Result<Asked<'a>, Refusal>
    requires { IsTrue (is_few domain.now) }
    ensures can { IfOk result (CanJoin domain.now count sizes.now) }
    ensures says { TellsBy (λ a. Asks (event_asked a)) result
        (part_line domain.now count sizes.now line text.now) }
{
    let asked = event_of(domain, true, sizes, line, text)?;
    if count < MOST_EVENTS {
        Ok(asked)
    } else {
        Err(Refusal::ManyEvents)
    }
}
