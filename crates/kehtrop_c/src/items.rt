//! What a node tells, one by one.

ghost use Rattle.std.specs.Prelude.{◌≡◌, option_map, replicate, slice_get, unwrap_or};
ghost use Rattle.run_journal.specs.declared.domain.ListedAp.{ListedAp as AnyAp};
ghost use Rattle.run_journal.specs.declared.domain.ListedSta.{ListedSta as AnySta};
ghost use Rattle.run_journal.specs.Report.{key_data_code};
ghost use Rattle.kehtrop_c.specs.Items.{address_of, bare, of_node, of_peer, with_key, reason_of};
ghost use Rattle.kehtrop_c.specs.Items.{malformed_code, why_of, of_sender, taken, closed};
ghost use Rattle.kehtrop_c.specs.Items.{handed, item_of, octets_of};

use crate::crossing::Item;
use domain_base::{Node, Peer};
use run_journal::{
    Act, Domain, Key, KeyDataFault, ListedAp, ListedSta, Malformed, Outcome, Part, Reason, Why,
};

/// Nothing that the caller has to do.
pub const NOTE: u8 = 0;

/// `len` octets: a whole frame to be sent to `peer` (ff:ff:ff:ff:ff:ff: to all).
pub const SEND: u8 = 1;

/// `key` is in use from now on: with `key_id` 0 between the node and `peer`, else a group key of
/// `peer` (of an access point its own, with `peer` ff:ff:ff:ff:ff:ff), with `key_id` 4 or 5 an IGTK.
/// `number` is its receive counter, to which a radio with CCMP or BIP of its own sets its replay
/// counter: 0 but for a group key that a station installs.
pub const INSTALL: u8 = 2;

/// A group key of `peer` that a station had goes on: its counters stay. Install nothing. A radio
/// with CCMP or BIP of its own raises its replay counter to `number`, where that is greater.
pub const RESUME: u8 = 3;

/// `len` octets came from `peer`, with `tid`, under the key with `key_id` and the packet number in
/// `number`.
pub const PAYLOAD: u8 = 4;

/// The session with `peer` began.
pub const BEGUN: u8 = 5;

/// The session with `peer` ended. As its key is renewed, `KEHTROP_BEGUN` follows among the
/// items of the same event.
pub const ENDED: u8 = 6;

/// An attempt with `peer` began.
pub const TRYING: u8 = 7;

/// An attempt with `peer` ended.
pub const DROPPED: u8 = 8;

/// A frame was accepted, answered again, or passed over.
pub const TOOK: u8 = 9;

/// A frame was refused: `reason`, and `number` with what belongs to it.
pub const WAS_REFUSED: u8 = 10;

/// An event did nothing: `reason` says why.
pub const DID_NOTHING: u8 = 11;

/// Four sends to `peer` brought no answer.
pub const GAVE_UP: u8 = 12;

/// One more number was drawn.
pub const DREW: u8 = 13;

/// `len` octets came from `peer` to all in a protected Action frame: its body before the MME, under
/// the IGTK with `key_id` and the packet number in `number`.
pub const ANNOUNCED: u8 = 14;

// The address of the access point at that place, or zeros.
fn ap_address(aps: &[ListedAp], place: usize) -> [u8; 6]
    ensures { result ≡ unwrap_or
        (option_map (λ (a : AnyAp). a.address.0) (slice_get aps.now place)) (replicate 6 0) }
{
    match aps.get(place) {
        Some(listed) => listed.address.0,
        None => [0; 6],
    }
}

// The address of the station at that place, or zeros.
fn sta_address(stas: &[ListedSta], place: usize) -> [u8; 6]
    ensures { result ≡ unwrap_or
        (option_map (λ (s : AnySta). s.address.0) (slice_get stas.now place)) (replicate 6 0) }
{
    match stas.get(place) {
        Some(listed) => listed.address.0,
        None => [0; 6],
    }
}

// The address of a node, or zeros where it is not listed.
fn address_of(domain: &Domain, node: Node) -> [u8; 6]
    ensures { result ≡ address_of domain.now node }
{
    match node {
        Node::Ap(ap) => ap_address(&domain.aps.0, usize::from(ap)),
        Node::Sta(station) => sta_address(domain.stas.as_slice(), usize::from(station)),
    }
}

// An item of that kind, which says nothing else.
fn bare(what: u8) -> Item
    ensures { result ≡ bare what }
{
    Item {
        what,
        reason: 0,
        key_id: 0,
        tid: 0,
        peer: [0; 6],
        has_peer: 0,
        spare: 0,
        key: [0; 16],
        number: 0,
        len: 0,
    }
}

// With that node.
fn of_node(domain: &Domain, what: u8, node: Node) -> Item
    ensures { result ≡ of_node domain.now what node }
{
    Item {
        peer: address_of(domain, node),
        has_peer: 1,
        ..bare(what)
    }
}

// With that node, or with all.
fn of_peer(domain: &Domain, what: u8, peer: Peer) -> Item
    ensures { result ≡ of_peer domain.now what peer }
{
    match peer {
        Peer::One(node) => of_node(domain, what, node),
        Peer::All => Item {
            peer: [255; 6],
            has_peer: 1,
            ..bare(what)
        },
    }
}

// With that key, its id and its counter.
fn keyed(told: Item, key: [u8; 16], key_id: u8, number: u64) -> Item
    ensures { result ≡ record told { key = key; key_id = key_id; number = number } }
{
    Item {
        key,
        key_id,
        number,
        ..told
    }
}

// With a key that is installed, or goes on, and its counter.
fn with_key(told: Item, key: &Key, counter: u64) -> Item
    ensures { result ≡ with_key key.now counter told }
{
    match key {
        Key::Pairwise { tk, .. } => keyed(told, *tk, 0, counter),
        Key::Group {
            key: octets,
            id,
            ..
        } => keyed(told, *octets, *id, counter),
    }
}

// The number of the reader that refuses.
fn malformed_number(fault: Malformed) -> u64
    ensures { result ≡ malformed_code fault }
{
    match fault {
        Malformed::Air(_) => 1,
        Malformed::Key(_) => 2,
        Malformed::Elements(_) => 3,
    }
}

// The number of a fault of key data.
fn key_data_number(fault: KeyDataFault) -> u64
    ensures { result ≡ key_data_code fault }
{
    match fault {
        KeyDataFault::Unreadable => 1,
        KeyDataFault::Rsne => 2,
        KeyDataFault::Mde => 3,
        KeyDataFault::Fte => 4,
        KeyDataFault::Gtk => 5,
        KeyDataFault::Igtk => 6,
    }
}

// A reason by number, and what it says beside.
fn reason_of(reason: Reason) -> (u8, u64)
    ensures { result ≡ reason_of reason }
{
    match reason {
        Reason::Malformed(fault) => (1, malformed_number(fault)),
        Reason::OutOfProfile(code) => (2, u64::from(code)),
        Reason::NotForMe => (3, 0),
        Reason::UnknownPeer => (4, 0),
        Reason::Unawaited => (5, 0),
        Reason::Counter(number) => (6, number),
        Reason::Nonce => (7, 0),
        Reason::Mic => (8, 0),
        Reason::Wrap => (9, 0),
        Reason::KeyData(fault) => (10, key_data_number(fault)),
        Reason::Status(code) => (11, u64::from(code)),
        Reason::NoHolder => (12, 0),
        Reason::Name => (13, 0),
        Reason::NoKey => (14, 0),
        Reason::Replayed(number) => (15, number),
        Reason::Seal => (16, 0),
        Reason::Spent => (17, 0),
    }
}

// Why an event did nothing, by number.
fn why_of(why: Why) -> u8
    ensures { result ≡ why_of why }
{
    match why {
        Why::NoSession => 1,
        Why::SamePeer => 2,
        Why::Nothing => 3,
        Why::RekeyPending => 4,
        Why::NoKey => 5,
        Why::Spent => 6,
    }
}

// Of the node that sent it, where there is one.
fn of_sender(domain: &Domain, what: u8, from: Option<Node>) -> Item
    ensures { result ≡ of_sender domain.now what from }
{
    match from {
        Some(node) => of_node(domain, what, node),
        None => bare(what),
    }
}

// A refusal, with its reason.
fn refused(told: Item, why: Reason) -> Item
    ensures { result ≡ record told { reason = (reason_of why).0; number = (reason_of why).1 } }
{
    let (reason, number) = reason_of(why);
    Item {
        reason,
        number,
        ..told
    }
}

// What came of a frame.
fn taken(domain: &Domain, from: Option<Node>, outcome: Outcome) -> Item
    ensures { result ≡ taken domain.now from outcome }
{
    match outcome {
        Outcome::Refused(why) => refused(of_sender(domain, WAS_REFUSED, from), why),
        Outcome::Accepted | Outcome::Answered | Outcome::Ignored => of_sender(domain, TOOK, from),
        Outcome::Done | Outcome::GaveUp(_) | Outcome::Idle(_) => of_sender(domain, TOOK, from),
    }
}

// A session ended, or an attempt.
fn closed(domain: &Domain, peer: Node, part: Part) -> Item
    ensures { result ≡ closed domain.now peer part }
{
    match part {
        Part::Session => of_node(domain, ENDED, peer),
        Part::Attempt => of_node(domain, DROPPED, peer),
    }
}

// What is handed up under a key with that id.
fn handed(id: u8) -> u8
    ensures { result ≡ handed id }
{
    if id == 4 || id == 5 {
        ANNOUNCED
    } else {
        PAYLOAD
    }
}

/// An act as it is told. The counter is that of the key, where one is installed or goes on.
pub fn item_of(domain: &Domain, counter: u64, act: &Act) -> Item
    ensures { result ≡ item_of domain.now counter act.now }
{
    match act {
        Act::Sent { peer, octets, .. } => Item {
            len: octets.as_slice().len() as u64,
            ..of_peer(domain, SEND, *peer)
        },
        Act::Installed { peer, key } => with_key(of_peer(domain, INSTALL, *peer), key, counter),
        Act::Resumed { peer, key } => with_key(of_node(domain, RESUME, *peer), key, counter),
        Act::HandedUp {
            peer,
            id,
            tid,
            number,
            octets,
            ..
        } => Item {
            key_id: *id,
            tid: tid.number(),
            number: *number,
            len: octets.as_slice().len() as u64,
            ..of_node(domain, handed(*id), *peer)
        },
        Act::Finished { peer, .. } => of_node(domain, BEGUN, *peer),
        Act::Closed { peer, part } => closed(domain, *peer, *part),
        Act::Opened { peer, .. } => of_node(domain, TRYING, *peer),
        Act::Took { from, outcome, .. } => taken(domain, *from, *outcome),
        Act::Idle { why } => Item {
            reason: why_of(*why),
            ..bare(DID_NOTHING)
        },
        Act::GaveUp { peer, .. } => of_node(domain, GAVE_UP, *peer),
        Act::Drew { .. } => bare(DREW),
        Act::Derived { .. } => bare(NOTE),
        Act::Used { .. } => bare(NOTE),
        Act::Put { .. } => bare(NOTE),
        Act::Looked { .. } => bare(NOTE),
        Act::Revoked { .. } => bare(NOTE),
        Act::Secret { .. } => bare(NOTE),
        Act::Link { .. } => bare(NOTE),
    }
}

/// The octets that belong to what was told.
pub fn octets_of(told: &Option<Act>) -> &[u8]
    ensures { result.now ≡ octets_of told.now }
{
    match told {
        Some(Act::Sent { octets, .. }) => octets.as_slice(),
        Some(Act::HandedUp { octets, .. }) => octets.as_slice(),
        _ => &[],
    }
}
