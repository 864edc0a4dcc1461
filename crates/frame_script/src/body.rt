//! The lines behind a header, and those that it may have.

ghost use Rattle.std.specs.Prelude.{◌≡◌, ◌<◌, ◌≤◌, ℕ, List, length, Ok, Err, if◌then◌else◌, IfOk};
ghost use Rattle.std.specs.Prelude.{IsTrue, MatchResult};
ghost use Rattle.script_lines.specs.declared.refusal.Untaken.TheVariants as untaken;
ghost use Rattle.script_lines.specs.declared.step.Step.TheVariants as steps;
ghost use Rattle.script_words.specs.Grammar.{stands};
ghost use Rattle.script_lines.specs.Headers.{CanAddExtra, CanListSta};
ghost use Rattle.run_journal.specs.declared.domain.Extra.TheVariants.{Mfp, RenewAt};
ghost use Rattle.run_journal.specs.Listing.{with_ap, with_extra, with_sta};
ghost use Rattle.run_journal.specs.Limits.{most_aps, most_events, most_stas};
ghost use Rattle.frame_script.specs.Script.{body_line, early_protection, inner_line, inside};
ghost use Rattle.frame_script.specs.Script.{listing, placed, stage_of};
ghost use Rattle.script_lines.specs.Script.{Adds, Asks, AtNodes, InRound, ap_line};
ghost use Rattle.script_lines.specs.Script.{renewal_line, sta_line, word_};
ghost use Rattle.frame_script.specs.Sentences.{CanSay, Takes, said_of};
ghost use Rattle.script_lines.specs.Sentences.{CanJoin, TellsBy, event_of, is_few};
ghost use Rattle.script_lines.specs.Sentences.{lists_sta};
ghost use Rattle.script_words.specs.Names.{octets_of};

use crate::stages::stage_of;
use domain_base::{Mac, Octets};
use run_journal::{Domain, Event, Extra, ListedAp, ListedSta};
use script_lines::{
    Asked, Header, Refusal, Step, Untaken, ap_line, event_line, part_line, protection_line,
    renewal_line, sta_line,
};
use script_words::{Form, Position, line_of, row_of, stands};
use std::alloc::Global;

/// What a line behind the header says, before memory is taken for it.
#[derive(Drop)]
pub(crate) enum Sentence<'a> {
    /// Lists an access point, by its address and its R0KH-ID.
    Ap(Mac, &'a [u8]),
    /// Lists a station.
    Sta(ListedSta),
    /// Adds a line to the header, which may have it.
    Extra(Extra),
    /// Asks for an event.
    Asks(Asked<'a>),
}

// An access point is listed before stations and events.
fn early_ap<'a>(domain: &Domain, rounds: u64, text: &'a [u8]) -> Result<Sentence<'a>, Refusal>
    ensures can { (sizes : List ℕ) → IfOk result (CanSay domain.now rounds sizes) }
    ensures says { TellsBy said_of result
        (if stands Position.Aps (stage_of domain.now rounds)
        then ap_line domain.now text.now else Err word_) }
{
    if stands(Position::Aps, stage_of(domain, rounds)) {
        let (address, r0kh_id) = ap_line(domain, text)?;
        Ok(Sentence::Ap(address, r0kh_id))
    } else {
        Err(Refusal::Word)
    }
}

// A station is listed before events.
fn early_sta(header: &Header, rounds: u64, text: &[u8]) -> Result<ListedSta, Refusal>
    ensures can { IfOk result (λ s. CanListSta header.now.network s.address × (rounds ≡ 0)) }
    ensures says { TellsBy lists_sta result
        (if stands Position.Stas (stage_of header.now.network rounds)
        then sta_line header.now text.now else Err word_) }
{
    if stands(Position::Stas, stage_of(&header.network, rounds)) {
        sta_line(header, text)
    } else {
        Err(Refusal::Word)
    }
}

// Where pairwise keys are renewed is told before any node.
fn early_renewal(domain: &Domain, rounds: u64, text: &[u8]) -> Result<u32, Refusal>
    ensures can { IfOk result (λ _. CanAddExtra domain.now × (rounds ≡ 0)) }
    ensures says { TellsBy (λ at. Adds (RenewAt at)) result
        (if stands Position.Optional (stage_of domain.now rounds)
        then renewal_line domain.now text.now else Err word_) }
{
    if stands(Position::Optional, stage_of(domain, rounds)) {
        renewal_line(domain, text)
    } else {
        Err(Refusal::Word)
    }
}

// That management frames are protected is told before any node.
fn early_protection(domain: &Domain, rounds: u64) -> Result<(), Refusal>
    ensures can { IfOk result (λ _. CanAddExtra domain.now × (rounds ≡ 0)) }
    ensures says { TellsBy (λ _. Adds Mfp) result (early_protection domain.now rounds) }
{
    if stands(Position::LastOptional, stage_of(domain, rounds)) {
        protection_line(domain)
    } else {
        Err(Refusal::Word)
    }
}

// What the line says, by where it stands.
fn placed<'a>(
    position: Position,
    header: &Header,
    rounds: u64,
    sizes: &[usize],
    line: Form,
    text: &'a [u8],
) -> Result<Sentence<'a>, Refusal>
    requires { IsTrue (is_few header.now.network) }
    ensures can { IfOk result (CanSay header.now.network rounds sizes.now) }
    ensures says { TellsBy said_of result
        (placed position header.now rounds sizes.now line text.now) }
{
    match position {
        Position::Optional => match early_renewal(&header.network, rounds, text) {
            Ok(at) => Ok(Sentence::Extra(Extra::RenewAt(at))),
            Err(refusal) => Err(refusal),
        },
        Position::LastOptional => match early_protection(&header.network, rounds) {
            Ok(()) => Err(Refusal::Arguments),
            Err(refusal) => Err(refusal),
        },
        Position::Aps => early_ap(&header.network, rounds, text),
        Position::Stas => match early_sta(header, rounds, text) {
            Ok(sta) => Ok(Sentence::Sta(sta)),
            Err(refusal) => Err(refusal),
        },
        Position::Opening => Err(Refusal::Arguments),
        _ => match event_line(&header.network, sizes, line, text) {
            Ok(asked) => Ok(Sentence::Asks(asked)),
            Err(refusal) => Err(refusal),
        },
    }
}

// What the line says, by its first word and what stands behind it.
fn body_line<'a>(
    header: &Header,
    rounds: u64,
    sizes: &[usize],
    word: &[u8],
    text: &'a [u8],
) -> Result<Sentence<'a>, Refusal>
    requires { IsTrue (is_few header.now.network) }
    ensures can { IfOk result (CanSay header.now.network rounds sizes.now) }
    ensures says { TellsBy said_of result
        (body_line header.now rounds sizes.now word.now text.now) }
{
    let line = line_of(word);
    placed(row_of(line).position, header, rounds, sizes, line, text)
}

// Lists an access point.
fn list_ap(
    header: &mut Header,
    alloc: Global,
    address: Mac,
    r0kh_id: &[u8],
) -> Result<Step, Untaken>
    requires few { IsTrue (is_few header.old.network) }
    requires room { length header.old.network.aps < most_aps }
    ensures kept { IsTrue (is_few header.new.network) }
    ensures listed { MatchResult result
        (λ s. (s ≡ steps.Ap address r0kh_id.now) × (AtNodes header.new
        ≡ listing (AtNodes header.old) (λ d. with_ap d address r0kh_id.now)))
        (λ e. (e ≡ untaken.NoMemory) × (AtNodes header.new ≡ AtNodes header.old)) }
{
    let Ok(listed) = Vec::from_slice(alloc, r0kh_id) else {
        return Err(Untaken::NoMemory);
    };
    let Ok(said) = Vec::from_slice(alloc, r0kh_id) else {
        return Err(Untaken::NoMemory);
    };
    let ap = ListedAp {
        address,
        r0kh_id: Octets(listed),
    };
    if header.network.aps.0.push(ap).is_err() {
        return Err(Untaken::NoMemory);
    }
    let r0kh_id = Octets(said);
    Ok(Step::Ap { address, r0kh_id })
}

// Lists a station.
fn list_sta(header: &mut Header, sta: ListedSta) -> Result<Step, Untaken>
    requires few { IsTrue (is_few header.old.network) }
    requires room { length header.old.network.stas < most_stas }
    ensures kept { IsTrue (is_few header.new.network) }
    ensures listed { MatchResult result
        (λ s. (s ≡ steps.Sta sta.address sta.psk) × (AtNodes header.new
        ≡ listing (AtNodes header.old) (λ d. with_sta d sta.address sta.psk)))
        (λ e. (e ≡ untaken.NoMemory) × (AtNodes header.new ≡ AtNodes header.old)) }
{
    if header.network.stas.push(sta).is_err() {
        return Err(Untaken::NoMemory);
    }
    let ListedSta { address, psk } = sta;
    Ok(Step::Sta { address, psk })
}

// Adds a line to the header.
fn add_extra(header: &mut Header, extra: Extra) -> Step
    requires few { IsTrue (is_few header.old.network) }
    ensures kept { IsTrue (is_few header.new.network) }
    ensures told { result ≡ steps.Extra extra }
    ensures listed { AtNodes header.new
        ≡ listing (AtNodes header.old) (λ d. with_extra d extra) }
{
    header.network.extras.add(extra);
    Step::Extra(extra)
}

// The octets that the digits write.
#[tactic(auto, using(crate::proofs::Decoded::decoded))]
fn decode(alloc: Global, digits: &[u8]) -> Result<Octets, Untaken>
    ensures { MatchResult result (λ octets. octets ≡ octets_of digits.now)
        (λ e. e ≡ untaken.NoMemory) }
{
    match hex::decode(alloc, digits) {
        Ok(octets) => Ok(Octets(octets)),
        Err(_) => Err(Untaken::NoMemory),
    }
}

// The event that is asked for.
fn make_event(alloc: Global, asked: Asked) -> Result<Event, Untaken>
    ensures { MatchResult result (λ e. e ≡ event_of asked.entry) (λ e. e ≡ untaken.NoMemory) }
{
    match asked {
        Asked::Event(event) => Ok(event),
        Asked::Inject(to, digits) => {
            let octets = decode(alloc, digits)?;
            Ok(Event::Inject { to, octets })
        }
        Asked::Send(from, to, tid, digits) => {
            let octets = decode(alloc, digits)?;
            Ok(Event::Send {
                from,
                to,
                tid,
                octets,
            })
        }
        Asked::Announce(ap, digits) => {
            let octets = decode(alloc, digits)?;
            Ok(Event::Announce { ap, octets })
        }
    }
}

/// Takes the line `mfp`.
pub(crate) fn take_protection(header: &mut Header, rounds: u64) -> Result<Step, Untaken>
    requires { IsTrue (is_few header.old.network) }
    ensures kept { IsTrue (is_few header.new.network) }
    ensures takes { (sizes : List ℕ) → Takes (AtNodes header.old) (AtNodes header.new) rounds sizes
        (early_protection header.old.network rounds) result }
{
    match early_protection(&header.network, rounds) {
        Ok(()) => Ok(add_extra(header, Extra::Mfp)),
        Err(refusal) => Err(Untaken::Refused(refusal)),
    }
}

/// Takes a line behind the header, by its first word and what stands behind it.
pub(crate) fn take_body(
    header: &mut Header,
    alloc: Global,
    rounds: u64,
    sizes: &[usize],
    word: &[u8],
    text: &[u8],
) -> Result<Step, Untaken>
    requires { IsTrue (is_few header.old.network) }
    ensures kept { IsTrue (is_few header.new.network) }
    ensures takes { Takes (AtNodes header.old) (AtNodes header.new) rounds sizes.now
        (body_line header.old rounds sizes.now word.now text.now) result }
{
    match body_line(header, rounds, sizes, word, text) {
        Ok(Sentence::Ap(address, r0kh_id)) => list_ap(header, alloc, address, r0kh_id),
        Ok(Sentence::Sta(sta)) => list_sta(header, sta),
        Ok(Sentence::Extra(extra)) => Ok(add_extra(header, extra)),
        Ok(Sentence::Asks(asked)) => {
            let event = make_event(alloc, asked);
            event.map(Step::Event)
        }
        Err(refusal) => Err(Untaken::Refused(refusal)),
    }
}

// What the line in a round asks for, by where it stands.
fn inside<'a>(
    position: Position,
    domain: &Domain,
    count: u64,
    sizes: &[usize],
    line: Form,
    text: &'a [u8],
) -> Result<Asked<'a>, Refusal>
    requires { IsTrue (is_few domain.now) }
    ensures can { IfOk result (CanJoin domain.now count sizes.now) }
    ensures says { TellsBy (λ a. Asks (event_of a)) result
        (inside position domain.now count sizes.now line text.now) }
{
    match position {
        Position::Closing => Err(Refusal::Arguments),
        _ => part_line(domain, count, sizes, line, text),
    }
}

// What the line in a round asks for, by its first word and what stands behind it.
fn inner_line<'a>(
    domain: &Domain,
    count: u64,
    sizes: &[usize],
    word: &[u8],
    text: &'a [u8],
) -> Result<Asked<'a>, Refusal>
    requires { IsTrue (is_few domain.now) }
    ensures can { IfOk result (CanJoin domain.now count sizes.now) }
    ensures says { TellsBy (λ a. Asks (event_of a)) result
        (inner_line domain.now count sizes.now word.now text.now) }
{
    let line = line_of(word);
    inside(row_of(line).position, domain, count, sizes, line, text)
}

/// Takes a line in a round that has so many events, by its first word and what stands behind it.
pub(crate) fn take_inner(
    header: &Header,
    count: &mut u64,
    alloc: Global,
    sizes: &[usize],
    word: &[u8],
    text: &[u8],
) -> Result<Step, Untaken>
    requires few { IsTrue (is_few header.now.network) }
    requires room { count.old ≤ most_events }
    ensures room { count.new ≤ most_events }
    ensures takes { (rounds : ℕ) → Takes (InRound header.now count.old) (InRound header.now count.new)
        rounds sizes.now (inner_line header.now.network count.old sizes.now word.now text.now)
        result }
{
    match inner_line(&header.network, *count, sizes, word, text) {
        Ok(asked) => match make_event(alloc, asked) {
            Ok(event) => {
                *count += 1;
                Ok(Step::Event(event))
            }
            Err(untaken) => Err(untaken),
        },
        Err(refusal) => Err(Untaken::Refused(refusal)),
    }
}
