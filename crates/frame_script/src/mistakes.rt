//! What of a line was wrong that was refused.

ghost use Rattle.std.specs.Prelude.{◌≡◌, Bool};
ghost use Rattle.script_lines.specs.Due.{draft_of};
ghost use Rattle.script_words.specs.Kinds.{kind_at};
ghost use Rattle.frame_script.specs.Mistakes.{named_cause};
ghost use Rattle.frame_script.specs.Mistakes.{ap_cause, argument_cause, arguments_spot, by_frame};
ghost use Rattle.frame_script.specs.Mistakes.{cause_spot, first_spot, is_plain, listing_at};
ghost use Rattle.frame_script.specs.Mistakes.{listing_cause, mistake_in, mode_spot, node_cause};
ghost use Rattle.frame_script.specs.Mistakes.{node_spot, nodes_spot, peer_cause, spot_or};
ghost use Rattle.frame_script.specs.Mistakes.{sta_cause, used_at, used_spot, version_spot};
ghost use Rattle.script_words.specs.Slips.{words_from};
ghost use Rattle.script_lines.specs.Refusals.{fault_of};
ghost use Rattle.script_words.specs.Names.{name_of, peer_of};

use crate::forms::form_in;
use crate::heads::first_cause;
use crate::reader::Mode;
use domain_base::Mac;
use run_journal::Domain;
use script_lines::{Due, Refusal, is_used, size_of};
use script_words::{
    Cause, Form, Kind, NodeName, PeerName, before_node, cause_behind, first_word, hex_octets,
    kind_at, kind_in, line_of, node_name, number_of_digits, peer_name, words_from,
};

/// What of a line was wrong.
#[derive(Clone, Copy, Debug, PartialEq)]
pub struct Mistake {
    /// The form that the line should have had.
    pub form: Form,
    /// The word that is wrong, from 1. Words stand between spaces.
    pub word: u64,
    /// What is wrong with it.
    pub cause: Cause,
}

// A word of the line, from 1, and what is wrong with it.
type Spot = (u64, Cause);

// Whether nothing is wrong.
fn is_plain(cause: Cause) -> bool
    ensures { result ≡ is_plain cause }
{
    matches!(cause, Cause::Plain)
}

// The word, where something is wrong with it, or the other one.
fn spot_or(word: u64, cause: Cause, other: Spot) -> Spot
    ensures { result ≡ spot_or word cause other }
{
    if is_plain(cause) {
        other
    } else {
        (word, cause)
    }
}

// What is wrong with the word of the line behind so many words.
#[tactic(auto, unfolding(crate::specs::Mistakes::argument_cause))]
fn argument_cause(form: Form, line: &[u8], before: u64) -> Cause
    ensures { result ≡ argument_cause form line.now before }
{
    cause_behind(kind_in(form, before, line), before, line)
}

// The first word behind the first one that has not its form.
#[tactic(auto, unfolding(crate::specs::Mistakes::arguments_spot))]
fn arguments_spot(form: Form, line: &[u8]) -> Spot
    ensures { result ≡ arguments_spot form line.now }
{
    let last = spot_or(7, argument_cause(form, line, 6), (1, Cause::Plain));
    let sixth = spot_or(6, argument_cause(form, line, 5), last);
    let fifth = spot_or(5, argument_cause(form, line, 4), sixth);
    let fourth = spot_or(4, argument_cause(form, line, 3), fifth);
    let third = spot_or(3, argument_cause(form, line, 2), fourth);
    spot_or(2, argument_cause(form, line, 1), third)
}

// The first word, which may not stand there.
#[tactic(auto, unfolding(crate::specs::Mistakes::first_spot))]
fn first_spot(due: &Due, line: &[u8]) -> Spot
    ensures { result ≡ first_spot (draft_of due.now) line.now }
{
    let (word, _) = first_word(line);
    (1, first_cause(due, word, line_of(word)))
}

// The word of a script's first line that is wrong.
#[tactic(auto, unfolding(crate::specs::Mistakes::version_spot))]
fn version_spot(due: &Due, line: &[u8]) -> Spot
    ensures { result ≡ version_spot (draft_of due.now) line.now }
{
    if line.is_empty() {
        return (1, Cause::Missing);
    }
    let (word, _) = first_word(line);
    if word == b"domain".as_slice() {
        arguments_spot(Form::Version, line)
    } else {
        first_spot(due, line)
    }
}

// The word of a line of the other kind of run.
fn mode_spot(due: &Due, line: &[u8]) -> Spot
    ensures { result ≡ mode_spot (draft_of due.now) line.now }
{
    match due {
        Due::Header { .. } => (2, Cause::LiveRun),
        due => first_spot(due, line),
    }
}

// What is wrong with the number of an access point.
fn ap_cause(domain: &Domain, number: u64) -> Cause
    ensures { result ≡ ap_cause domain.now number }
{
    let count = domain.aps.0.len() as u64;
    if 1 <= number && number <= count {
        Cause::Plain
    } else {
        Cause::Aps(count)
    }
}

// What is wrong with the number of a station.
fn sta_cause(domain: &Domain, number: u64) -> Cause
    ensures { result ≡ sta_cause domain.now number }
{
    let count = domain.stas.len() as u64;
    if 1 <= number && number <= count {
        Cause::Plain
    } else {
        Cause::Stas(count)
    }
}

// What is wrong with an access point, where what should stand there is of that kind.
fn ap_named(kind: Kind, domain: &Domain, number: u64) -> Cause
    ensures { (within : Bool)
        → result ≡ node_cause kind domain.now within (name_of (NodeName.Ap number)) }
{
    match kind {
        Kind::Sta => Cause::OtherKind,
        _ => ap_cause(domain, number),
    }
}

// What is wrong with a station, where what should stand there is of that kind.
fn sta_named(kind: Kind, domain: &Domain, within: bool, number: u64) -> Cause
    ensures { result ≡ node_cause kind domain.now within (name_of (NodeName.Sta number)) }
{
    match kind {
        Kind::Ap => Cause::OtherKind,
        Kind::Sta => sta_cause(domain, number),
        _ => {
            if within {
                Cause::Stations
            } else {
                sta_cause(domain, number)
            }
        }
    }
}

// What is wrong with a node, where what should stand there is of that kind.
fn node_cause(kind: Kind, domain: &Domain, within: bool, name: NodeName) -> Cause
    ensures { result ≡ node_cause kind domain.now within (name_of name) }
{
    match name {
        NodeName::Ap(number) => ap_named(kind, domain, number),
        NodeName::Sta(number) => sta_named(kind, domain, within, number),
    }
}

// What is wrong with the one to whom a node sends that may send.
fn peer_cause(domain: &Domain, name: PeerName) -> Cause
    ensures { result ≡ peer_cause domain.now (peer_of name) }
{
    match name {
        PeerName::All => Cause::OtherKind,
        PeerName::One(name) => {
            let cause = node_cause(Kind::Node, domain, false, name);
            if is_plain(cause) {
                Cause::OtherKind
            } else {
                cause
            }
        }
    }
}

// What is wrong with the station whose key is changed, where not all are meant.
fn named_cause(domain: &Domain, name: PeerName) -> Cause
    ensures { result ≡ named_cause domain.now (peer_of name) }
{
    match name {
        PeerName::All => Cause::Plain,
        PeerName::One(name) => node_cause(Kind::Sta, domain, false, name),
    }
}

// What is wrong with the node of that word, where what should stand there is of that kind.
#[tactic(auto, unfolding(crate::specs::Mistakes::listing_cause))]
fn listing_cause(kind: Kind, domain: &Domain, within: bool, word: &[u8]) -> Cause
    ensures { result ≡ listing_cause kind domain.now within word.now }
{
    match kind {
        Kind::Peer => match peer_name(word) {
            Some(name) => peer_cause(domain, name),
            None => Cause::Plain,
        },
        Kind::StaOrAll => match peer_name(word) {
            Some(name) => named_cause(domain, name),
            None => Cause::Plain,
        },
        kind => match node_name(word) {
            Some(name) => node_cause(kind, domain, within, name),
            None => Cause::Plain,
        },
    }
}

// What is wrong with the node of the line behind so many words.
fn listing_at(form: Form, domain: &Domain, within: bool, before: u64, line: &[u8]) -> Cause
    ensures { result ≡ listing_at (kind_at form before) domain.now within
        (words_from before line.now) }
{
    match words_from(before, line) {
        None => Cause::Plain,
        Some(text) => {
            let (word, _) = first_word(text);
            listing_cause(kind_at(form, before), domain, within, word)
        }
    }
}

// The first node of the line, or the second one.
#[tactic(auto, unfolding(crate::specs::Mistakes::node_spot))]
fn node_spot(form: Form, domain: &Domain, within: bool, line: &[u8]) -> Spot
    ensures { result ≡ node_spot form domain.now within line.now }
{
    let before = before_node(form);
    let first = listing_at(form, domain, within, before, line);
    let second = listing_at(form, domain, within, 2, line);
    spot_or(before + 1, first, (3, second))
}

// The node of the line that is wrong.
fn nodes_spot(due: &Due, form: Form, line: &[u8]) -> Spot
    ensures { result ≡ nodes_spot (draft_of due.now) form line.now }
{
    match due {
        Due::Nodes { header } => node_spot(form, &header.network, false, line),
        Due::Round { header, .. } => node_spot(form, &header.network, true, line),
        _ => (1, Cause::Plain),
    }
}

// How many octets the frame has that the line names.
fn frame_cause(sizes: &[usize], line: &[u8]) -> Cause
    ensures { result ≡ by_frame sizes.now (words_from 1 line.now) }
{
    let Some(text) = words_from(1, line) else {
        return Cause::Plain;
    };
    let (word, _) = first_word(text);
    let Some(number) = number_of_digits(word) else {
        return Cause::Plain;
    };
    match size_of(sizes, number) {
        Some(size) => Cause::Octets(size as u64),
        None => Cause::Plain,
    }
}

// Which of the line's address and R0KH-ID was used before.
fn used_at(domain: &Domain, line: &[u8]) -> Spot
    ensures { result ≡ used_at domain.now (words_from 1 line.now) }
{
    let Some(text) = words_from(1, line) else {
        return (1, Cause::Plain);
    };
    let (word, _) = first_word(text);
    let found: Option<[u8; 6]> = hex_octets(word);
    match found {
        None => (1, Cause::Plain),
        Some(octets) => {
            if is_used(domain, Mac(octets)) {
                (2, Cause::UsedAddress)
            } else {
                (3, Cause::UsedId)
            }
        }
    }
}

// Which of the line's address and R0KH-ID was used before, where it lists a node.
fn used_spot(due: &Due, line: &[u8]) -> Spot
    ensures { result ≡ used_spot (draft_of due.now) line.now }
{
    match due {
        Due::Nodes { header } => used_at(&header.network, line),
        _ => (1, Cause::Plain),
    }
}

// The word that is wrong, and what is wrong with it.
fn cause_spot(due: &Due, sizes: &[usize], form: Form, refusal: Refusal, line: &[u8]) -> Spot
    ensures { result ≡ cause_spot (draft_of due.now) sizes.now form (fault_of refusal) line.now }
{
    match refusal {
        Refusal::Version => version_spot(due, line),
        Refusal::Word => first_spot(due, line),
        Refusal::Arguments => arguments_spot(form, line),
        Refusal::Node => nodes_spot(due, form, line),
        Refusal::Frame => (2, Cause::Frames(sizes.len() as u64)),
        Refusal::Place => (3, frame_cause(sizes, line)),
        Refusal::Duplicate => used_spot(due, line),
        Refusal::Mode => mode_spot(due, line),
        Refusal::Unclosed
        | Refusal::ManyLines
        | Refusal::LongLine
        | Refusal::LongFrame
        | Refusal::ManyFrames
        | Refusal::ManyAps
        | Refusal::ManyStas
        | Refusal::LongPayload
        | Refusal::ManyEvents => (1, Cause::Plain),
    }
}

/// What of the line was wrong that was refused so in a run of that kind, where so many rounds were
/// asked for and frames of these sizes sent.
pub(crate) fn mistake_in(
    mode: Mode,
    due: &Due,
    rounds: u64,
    sizes: &[usize],
    refusal: Refusal,
    line: &[u8],
) -> Mistake
    ensures { result ≡ mistake_in mode (draft_of due.now) rounds sizes.now (fault_of refusal)
        line.now }
{
    let form = form_in(mode, due, rounds, line);
    let (word, cause) = cause_spot(due, sizes, form, refusal, line);
    Mistake { form, word, cause }
}
