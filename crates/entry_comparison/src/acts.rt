//! Acts compared.

ghost use Rattle.std.specs.Prelude.{◌≡◌, ◌↔◌, IsTrue};
ghost use Rattle.entry_comparison.specs.Kinds.{IsAttempt, IsFrame, IsKeyed, IsData, IsHolding};
ghost use Rattle.entry_comparison.specs.Kinds.{IsNodeAct};

use crate::fields::{
    is_drawn, is_from, is_inputs, is_key, is_kind, is_node, is_octets, is_outcome, is_peer, is_psk,
    is_ptk, is_pulled, is_put, is_revoked, is_seal, is_why,
};
use crate::keys::is_installed_key;
use run_journal::Act;

// Of what begins, ends, is given up or is not done.
fn is_attempt(act: &Act, other: &Act) -> bool
    requires { IsAttempt other.now }
    ensures { IsTrue result ↔ (act.now ≡ other.now) }
{
    match (act, other) {
        (Act::Opened { peer, start }, Act::Opened { peer: p, start: s }) => {
            is_node(*peer, *p) && *start == *s
        }
        (Act::Closed { peer, part }, Act::Closed { peer: p, part: q }) => {
            is_node(*peer, *p) && *part == *q
        }
        (Act::Finished { peer, inputs }, Act::Finished { peer: p, inputs: i }) => {
            is_node(*peer, *p) && is_inputs(inputs.inputs(), i.inputs())
        }
        (
            Act::GaveUp { peer, message },
            Act::GaveUp {
                peer: p,
                message: m,
            },
        ) => { is_node(*peer, *p) && *message == *m }
        (Act::Idle { why }, Act::Idle { why: w }) => is_why(*why, *w),
        _ => false,
    }
}

// Of what is drawn, derived, installed or resumed.
fn is_keyed(act: &Act, other: &Act) -> bool
    requires { IsKeyed other.now }
    ensures { IsTrue result ↔ (act.now ≡ other.now) }
{
    match (act, other) {
        (Act::Drew { value }, Act::Drew { value: v }) => is_drawn(*value, *v),
        (
            Act::Derived { peer, inputs, ptk },
            Act::Derived {
                peer: p,
                inputs: i,
                ptk: k,
            },
        ) => { is_node(*peer, *p) && is_inputs(inputs.inputs(), i.inputs()) && is_ptk(*ptk, *k) }
        (Act::Installed { peer, key }, Act::Installed { peer: p, key: k }) => {
            is_peer(*peer, *p) && is_installed_key(key, k)
        }
        (Act::Resumed { peer, key }, Act::Resumed { peer: p, key: k }) => {
            is_node(*peer, *p) && is_installed_key(key, k)
        }
        _ => false,
    }
}

// Of a frame taken or sent.
fn is_frame(act: &Act, other: &Act) -> bool
    requires { IsFrame other.now }
    ensures { IsTrue result ↔ (act.now ≡ other.now) }
{
    match (act, other) {
        (
            Act::Took {
                from,
                octets,
                kind,
                outcome,
                seal,
            },
            Act::Took {
                from: f,
                octets: b,
                kind: k,
                outcome: o,
                seal: s,
            },
        ) => {
            is_from(*from, *f)
                && is_octets(octets.as_slice(), b.as_slice())
                && is_kind(*kind, *k)
                && is_outcome(*outcome, *o)
                && is_seal(seal, s)
        }
        (
            Act::Sent {
                peer,
                kind,
                octets,
                seal,
            },
            Act::Sent {
                peer: p,
                kind: k,
                octets: b,
                seal: s,
            },
        ) => {
            is_peer(*peer, *p)
                && is_kind(*kind, *k)
                && is_octets(octets.as_slice(), b.as_slice())
                && is_seal(seal, s)
        }
        _ => false,
    }
}

// Of a packet number used, or a payload handed up.
fn is_data(act: &Act, other: &Act) -> bool
    requires { IsData other.now }
    ensures { IsTrue result ↔ (act.now ≡ other.now) }
{
    match (act, other) {
        (
            Act::Used {
                peer,
                key,
                id,
                number,
                octets,
            },
            Act::Used {
                peer: p,
                key: k,
                id: i,
                number: n,
                octets: b,
            },
        ) => {
            is_peer(*peer, *p)
                && is_key(key, k)
                && *id == *i
                && *number == *n
                && is_octets(octets.as_slice(), b.as_slice())
        }
        (
            Act::HandedUp {
                peer,
                key,
                id,
                tid,
                number,
                octets,
            },
            Act::HandedUp {
                peer: p,
                key: k,
                id: i,
                tid: t,
                number: n,
                octets: b,
            },
        ) => {
            is_node(*peer, *p)
                && is_key(key, k)
                && *id == *i
                && tid.number() == t.number()
                && *number == *n
                && is_octets(octets.as_slice(), b.as_slice())
        }
        _ => false,
    }
}

// Of what is put with a key holder, asked of one, or revoked there, and of a changed key.
fn is_holding(act: &Act, other: &Act) -> bool
    requires { IsHolding other.now }
    ensures { IsTrue result ↔ (act.now ≡ other.now) }
{
    match (act, other) {
        (
            Act::Put {
                r0kh_id,
                name,
                sta,
                answer,
            },
            Act::Put {
                r0kh_id: x,
                name: m,
                sta: p,
                answer: a,
            },
        ) => {
            is_octets(r0kh_id.as_slice(), x.as_slice())
                && is_key(name, m)
                && is_node(*sta, *p)
                && is_put(*answer, *a)
        }
        (
            Act::Looked {
                r0kh_id,
                name,
                sta,
                answer,
            },
            Act::Looked {
                r0kh_id: x,
                name: m,
                sta: p,
                answer: a,
            },
        ) => {
            is_octets(r0kh_id.as_slice(), x.as_slice())
                && is_key(name, m)
                && is_node(*sta, *p)
                && is_pulled(*answer, *a)
        }
        (
            Act::Revoked {
                r0kh_id,
                name,
                sta,
                answer,
            },
            Act::Revoked {
                r0kh_id: x,
                name: m,
                sta: p,
                answer: a,
            },
        ) => {
            is_octets(r0kh_id.as_slice(), x.as_slice())
                && is_key(name, m)
                && is_node(*sta, *p)
                && is_revoked(*answer, *a)
        }
        (Act::Secret { sta, psk }, Act::Secret { sta: p, psk: k }) => {
            is_node(*sta, *p) && is_psk(psk, k)
        }
        _ => false,
    }
}

/// Whether the act is the other one, which is an act of a node: steps of a link are not compared.
pub fn is_act(act: &Act, other: &Act) -> bool
    ensures same { IsTrue result → act.now ≡ other.now }
    ensures only { IsNodeAct other.now → act.now ≡ other.now → IsTrue result }
{
    match other {
        Act::Opened { .. }
        | Act::Closed { .. }
        | Act::Finished { .. }
        | Act::GaveUp { .. }
        | Act::Idle { .. } => is_attempt(act, other),
        Act::Drew { .. } | Act::Derived { .. } | Act::Installed { .. } | Act::Resumed { .. } => {
            is_keyed(act, other)
        }
        Act::Took { .. } | Act::Sent { .. } => is_frame(act, other),
        Act::Used { .. } | Act::HandedUp { .. } => is_data(act, other),
        Act::Put { .. } | Act::Looked { .. } | Act::Revoked { .. } | Act::Secret { .. } => {
            is_holding(act, other)
        }
        Act::Link { .. } => false,
    }
}
