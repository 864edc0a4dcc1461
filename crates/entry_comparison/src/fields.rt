//! Fields of acts compared.

ghost use Rattle.std.specs.Prelude.{◌≡◌, ◌↔◌, IsTrue};

use domain_base::{Node, Peer};
use key_hierarchy::{Inputs, PmkR1, Ptk, PullAnswer, PutAnswer, RevokeAnswer};
use run_journal::{BoxedSeal, Drawn, Kind, Outcome, Seal, Why};

pub(crate) fn is_octets(octets: &[u8], other: &[u8]) -> bool
    ensures { IsTrue result ↔ (octets.now ≡ other.now) }
{
    octets == other
}

pub(crate) fn is_key(key: &[u8; 16], other: &[u8; 16]) -> bool
    ensures { IsTrue result ↔ (key.now ≡ other.now) }
{
    *key == *other
}

pub(crate) fn is_psk(psk: &[u8; 32], other: &[u8; 32]) -> bool
    ensures { IsTrue result ↔ (psk.now ≡ other.now) }
{
    *psk == *other
}

pub(crate) fn is_node(node: Node, other: Node) -> bool
    ensures { IsTrue result ↔ (node ≡ other) }
{
    node == other
}

pub(crate) fn is_from(from: Option<Node>, other: Option<Node>) -> bool
    ensures { IsTrue result ↔ (from ≡ other) }
{
    from == other
}

pub(crate) fn is_peer(peer: Peer, other: Peer) -> bool
    ensures { IsTrue result ↔ (peer ≡ other) }
{
    peer == other
}

pub(crate) fn is_kind(kind: Kind, other: Kind) -> bool
    ensures { IsTrue result ↔ (kind ≡ other) }
{
    kind == other
}

pub(crate) fn is_outcome(outcome: Outcome, other: Outcome) -> bool
    ensures { IsTrue result ↔ (outcome ≡ other) }
{
    outcome == other
}

pub(crate) fn is_why(why: Why, other: Why) -> bool
    ensures { IsTrue result ↔ (why ≡ other) }
{
    why == other
}

pub(crate) fn is_drawn(value: Drawn, other: Drawn) -> bool
    ensures { IsTrue result ↔ (value ≡ other) }
{
    value == other
}

pub(crate) fn is_ptk(ptk: Ptk, other: Ptk) -> bool
    ensures { IsTrue result ↔ (ptk ≡ other) }
{
    ptk == other
}

pub(crate) fn is_inputs(i: &Inputs, m: &Inputs) -> bool
    ensures { IsTrue result ↔ (i.now ≡ m.now) }
{
    i.anonce == m.anonce
        && i.snonce == m.snonce
        && i.aa == m.aa
        && i.spa == m.spa
        && i.psk == m.psk
        && i.akm == m.akm
        && i.mdid == m.mdid
        && i.ssid.as_slice() == m.ssid.as_slice()
        && i.r0kh_id.as_slice() == m.r0kh_id.as_slice()
}

fn is_sealed(seal: &Seal, other: &Seal) -> bool
    ensures { IsTrue result ↔ (seal.now ≡ other.now) }
{
    seal.key == other.key && seal.octets.as_slice() == other.octets.as_slice()
}

pub(crate) fn is_seal(seal: &Option<BoxedSeal>, other: &Option<BoxedSeal>) -> bool
    ensures { IsTrue result ↔ (seal.now ≡ other.now) }
{
    match (seal, other) {
        (Some(seal), Some(other)) => is_sealed(seal.seal(), other.seal()),
        (None, None) => true,
        _ => false,
    }
}

pub(crate) fn is_put(answer: PutAnswer, other: PutAnswer) -> bool
    ensures { IsTrue result ↔ (answer ≡ other) }
{
    match (answer, other) {
        (PutAnswer::Held, PutAnswer::Held) => true,
        (PutAnswer::HeldAlready, PutAnswer::HeldAlready) => true,
        (PutAnswer::Full, PutAnswer::Full) => true,
        (PutAnswer::NoMemory, PutAnswer::NoMemory) => true,
        _ => false,
    }
}

fn is_r1(k: PmkR1, other: PmkR1) -> bool
    ensures { IsTrue result ↔ (k ≡ other) }
{
    k.key == other.key && k.name == other.name
}

pub(crate) fn is_pulled(answer: PullAnswer, other: PullAnswer) -> bool
    ensures { IsTrue result ↔ (answer ≡ other) }
{
    match (answer, other) {
        (PullAnswer::Found(k), PullAnswer::Found(other)) => is_r1(k, other),
        (PullAnswer::NoHolder, PullAnswer::NoHolder) => true,
        (PullAnswer::Absent, PullAnswer::Absent) => true,
        _ => false,
    }
}

pub(crate) fn is_revoked(answer: RevokeAnswer, other: RevokeAnswer) -> bool
    ensures { IsTrue result ↔ (answer ≡ other) }
{
    match (answer, other) {
        (RevokeAnswer::Revoked, RevokeAnswer::Revoked) => true,
        (RevokeAnswer::Absent, RevokeAnswer::Absent) => true,
        _ => false,
    }
}
