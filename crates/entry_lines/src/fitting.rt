//! What the types of an entry say of its numbers and octets. These calls do nothing: a proof knows
//! it of what is read.

ghost use Rattle.std.specs.Prelude.{◌<◌, ◌^◌};
ghost use Rattle.domain_base.specs.Octets.{AreOctets};
ghost use Rattle.entry_lines.specs.Entries.{Fits, FitsAct, FitsAnswer, FitsDrawn, FitsFault};
ghost use Rattle.entry_lines.specs.Entries.{FitsInputs, FitsKey, FitsMalformed, FitsNode};
ghost use Rattle.entry_lines.specs.Entries.{FitsOutcome, FitsPeer, FitsPtk, FitsReason, FitsSeal};
ghost use Rattle.entry_lines.specs.Entries.{IsArray};

use domain_base::{Node, Peer, Tid};
use key_hierarchy::{Inputs, Ptk, PullAnswer};
use run_journal::{Act, BoxedSeal, Drawn, Entry, Key, Malformed, MalformedFrame, Outcome, Reason};

// A number of 8 bits.
fn byte_fits(number: u8)
    ensures { number < 2 ^ 8 }
{}

// A number of 16 bits.
fn short_fits(number: u16)
    ensures { number < 2 ^ 16 }
{}

// A number of 64 bits.
fn number_fits(number: u64)
    ensures { number < 2 ^ 64 }
{}

// A place.
fn place_fits(place: usize)
    ensures { place < 2 ^ 64 }
{}

// A traffic identifier.
fn tid_fits(tid: Tid)
    ensures { tid < 16 }
{
    tid.number();
}

// Octets are below 256.
fn octets_fit(octets: &[u8])
    ensures { AreOctets octets.now }
{}

// An array has its size.
pub(crate) fn array_fits<const N: usize>(octets: &[u8; N])
    ensures { IsArray N octets.now }
{
    octets_fit(octets);
}

// Places are of 16 bits.
fn node_fits(node: Node)
    ensures { FitsNode node }
{
    match node {
        Node::Ap(place) => short_fits(place),
        Node::Sta(place) => short_fits(place),
    }
}

// Places are of 16 bits.
fn peer_fits(peer: Peer)
    ensures { FitsPeer peer }
{
    match peer {
        Peer::One(node) => node_fits(node),
        Peer::All => {}
    }
}

pub(crate) fn inputs_fit(inputs: &Inputs)
    ensures { FitsInputs inputs.now }
{
    array_fits(&inputs.psk);
    octets_fit(inputs.ssid.as_slice());
    array_fits(&inputs.mdid);
    octets_fit(inputs.r0kh_id.as_slice());
    array_fits(&inputs.aa.0);
    array_fits(&inputs.spa.0);
    array_fits(&inputs.anonce);
    array_fits(&inputs.snonce);
}

fn drawn_fits(value: &Drawn)
    ensures { FitsDrawn value.now }
{
    match value {
        Drawn::Nonce(octets) => array_fits(octets),
        Drawn::Group(_, octets) => array_fits(octets),
    }
}

pub(crate) fn ptk_fits(ptk: &Ptk)
    ensures { FitsPtk ptk.now }
{
    array_fits(&ptk.kck);
    array_fits(&ptk.kek);
    array_fits(&ptk.tk);
}

fn seal_fits(seal: &Option<BoxedSeal>)
    ensures { FitsSeal seal.now }
{
    if let Some(seal) = seal {
        let seal = seal.seal();
        octets_fit(seal.octets.as_slice());
        array_fits(&seal.key);
    }
}

fn key_fits(key: &Key)
    ensures { FitsKey key.now }
{
    match key {
        Key::Pairwise { tk, inputs } => {
            array_fits(tk);
            inputs_fit(inputs.inputs());
        }
        Key::Group {
            key: octets,
            id,
            bssid,
            ..
        } => {
            array_fits(octets);
            byte_fits(*id);
            array_fits(&bssid.0);
        }
    }
}

fn fault_fits(fault: MalformedFrame)
    ensures { FitsFault fault }
{
    match fault {
        MalformedFrame::Short(place) => place_fits(place),
        MalformedFrame::Body(place) => place_fits(place),
        MalformedFrame::Version => {}
    }
}

fn malformed_fits(malformed: Malformed)
    ensures { FitsMalformed malformed }
{
    match malformed {
        Malformed::Air(fault) => fault_fits(fault),
        Malformed::Key(fault) => place_fits(fault.place),
        Malformed::Elements(fault) => place_fits(fault.place),
    }
}

fn reason_fits(reason: Reason)
    ensures { FitsReason reason }
{
    match reason {
        Reason::Malformed(malformed) => malformed_fits(malformed),
        Reason::OutOfProfile(code) => byte_fits(code),
        Reason::Counter(kept) => number_fits(kept),
        Reason::Status(code) => short_fits(code),
        Reason::Replayed(kept) => number_fits(kept),
        _ => {}
    }
}

fn outcome_fits(outcome: Outcome)
    ensures { FitsOutcome outcome }
{
    if let Outcome::Refused(reason) = outcome {
        reason_fits(reason);
    }
}

fn answer_fits(answer: &PullAnswer)
    ensures { FitsAnswer answer.now }
{
    if let PullAnswer::Found(found) = answer {
        array_fits(&found.key);
        array_fits(&found.name);
    }
}

fn act_fits(act: &Act)
    ensures { FitsAct act.now }
{
    match act {
        Act::Opened { peer, .. } => node_fits(*peer),
        Act::Closed { peer, .. } => node_fits(*peer),
        Act::Drew { value } => drawn_fits(value),
        Act::Derived { peer, inputs, ptk } => {
            node_fits(*peer);
            inputs_fit(inputs.inputs());
            ptk_fits(ptk);
        }
        Act::Sent {
            peer,
            octets,
            seal,
            ..
        } => {
            peer_fits(*peer);
            octets_fit(octets.as_slice());
            seal_fits(seal);
        }
        Act::Took {
            octets,
            outcome,
            seal,
            ..
        } => {
            octets_fit(octets.as_slice());
            outcome_fits(*outcome);
            seal_fits(seal);
        }
        Act::Installed { peer, key } => {
            peer_fits(*peer);
            key_fits(key);
        }
        Act::Resumed { peer, key } => {
            node_fits(*peer);
            key_fits(key);
        }
        Act::Used {
            peer,
            key,
            id,
            number,
            octets,
        } => {
            peer_fits(*peer);
            array_fits(key);
            byte_fits(*id);
            number_fits(*number);
            octets_fit(octets.as_slice());
        }
        Act::HandedUp {
            peer,
            key,
            id,
            tid,
            number,
            octets,
        } => {
            node_fits(*peer);
            array_fits(key);
            byte_fits(*id);
            tid_fits(*tid);
            number_fits(*number);
            octets_fit(octets.as_slice());
        }
        Act::Finished { peer, inputs } => {
            node_fits(*peer);
            inputs_fit(inputs.inputs());
        }
        Act::Put {
            r0kh_id,
            name,
            sta,
            ..
        } => {
            octets_fit(r0kh_id.as_slice());
            array_fits(name);
            node_fits(*sta);
        }
        Act::Looked {
            r0kh_id,
            name,
            sta,
            answer,
        } => {
            octets_fit(r0kh_id.as_slice());
            array_fits(name);
            node_fits(*sta);
            answer_fits(answer);
        }
        Act::Revoked {
            r0kh_id,
            name,
            sta,
            ..
        } => {
            octets_fit(r0kh_id.as_slice());
            array_fits(name);
            node_fits(*sta);
        }
        Act::Secret { sta, psk } => {
            node_fits(*sta);
            array_fits(psk);
        }
        Act::GaveUp { peer, .. } => node_fits(*peer),
        Act::Idle { .. } => {}
        Act::Link { .. } => {}
    }
}

/// Numbers and octets of the entry are such as its type holds. The call does nothing.
pub fn fits(entry: &Entry)
    ensures { Fits entry.now }
{
    number_fits(entry.round);
    node_fits(entry.node);
    number_fits(entry.number);
    act_fits(&entry.act);
}
