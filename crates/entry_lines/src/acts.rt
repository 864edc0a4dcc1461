//! The act of a line, by the words after its round and its node.

ghost use Rattle.std.specs.Prelude.{◌≡◌, ◌<◌, ◌^◌, ℕ, IfOk};
ghost use Rattle.domain_base.specs.declared.names.Node.{Node as AnyNode};
ghost use Rattle.run_journal.specs.declared.acts.Act.{Act as AnyAct};
ghost use Rattle.entry_lines.specs.declared.names.ActKind.TheVariants as kinds;
ghost use Rattle.entry_lines.specs.Entries.{bare_number};
ghost use Rattle.entry_lines.specs.Lines.{act_words};
ghost use Rattle.entry_lines.specs.Splitting.{Joins};
ghost use Rattle.entry_lines.specs.Acts.{ReadsAct, kind_of};

use crate::fields::{answer_of, drawn_of, inputs_of, key_of, ptk_of, seal_of};
use crate::names::{
    ActKind, act_kind_of, frame_kind_of, message_of, part_of, put_of, revoke_of, start_of, why_of,
};
use crate::outcomes::outcome_of;
use crate::splitting::{after_fields, field};
use crate::values::{array_of, byte_of, node_of, number_of, octets_of, peer_of, short_of, tid_of};
use domain_base::{NoMemory, Node};
use run_journal::Act;
use std::alloc::Global;

// An attempt that began.
fn opened(text: &[u8]) -> Act
    ensures { (n : AnyNode) → ReadsAct kinds.Opened n text.now result }
{
    let peer = field(text, 1);
    let start = field(text, 2);
    Act::Opened {
        peer: node_of(peer),
        start: start_of(start),
    }
}

// An attempt or a session that ended.
fn closed(text: &[u8]) -> Act
    ensures { (n : AnyNode) → ReadsAct kinds.Closed n text.now result }
{
    let peer = field(text, 1);
    let part = field(text, 2);
    Act::Closed {
        peer: node_of(peer),
        part: part_of(part),
    }
}

// A value drawn.
fn drew(text: &[u8]) -> Act
    ensures { (n : AnyNode) → ReadsAct kinds.Drew n text.now result }
{
    let rest = after_fields(text, 1);
    Act::Drew {
        value: drawn_of(rest),
    }
}

// A pairwise key derived at that node.
fn derived(alloc: Global, node: Node, text: &[u8]) -> Result<Act, NoMemory>
    ensures { IfOk result (λ a. ReadsAct kinds.Derived node text.now a) }
{
    let rest = after_fields(text, 1);
    let inputs = inputs_of(alloc, rest)?;
    let ptk = field(text, 10);
    Ok(Act::Derived {
        peer: node,
        inputs,
        ptk: ptk_of(ptk),
    })
}

// A frame sent.
fn sent(alloc: Global, text: &[u8]) -> Result<Act, NoMemory>
    ensures { IfOk result (λ a. (n : AnyNode) → ReadsAct kinds.Sent n text.now a) }
{
    let peer = field(text, 2);
    let kind = field(text, 3);
    let octets = field(text, 4);
    let octets = octets_of(alloc, octets)?;
    let rest = after_fields(text, 5);
    let seal = seal_of(alloc, rest)?;
    Ok(Act::Sent {
        peer: peer_of(peer),
        kind: frame_kind_of(kind),
        octets,
        seal,
    })
}

// Octets that came.
fn took(alloc: Global, text: &[u8]) -> Result<Act, NoMemory>
    ensures { IfOk result (λ a. (n : AnyNode) → ReadsAct kinds.Took n text.now a) }
{
    let kind = field(text, 1);
    let outcome = field(text, 2);
    let octets = field(text, 3);
    let octets = octets_of(alloc, octets)?;
    let rest = after_fields(text, 4);
    let seal = seal_of(alloc, rest)?;
    Ok(Act::Took {
        from: None,
        octets,
        kind: frame_kind_of(kind),
        outcome: outcome_of(outcome),
        seal,
    })
}

// A key installed.
fn installed(alloc: Global, text: &[u8]) -> Result<Act, NoMemory>
    ensures { IfOk result (λ a. (n : AnyNode) → ReadsAct kinds.Installed n text.now a) }
{
    let peer = field(text, 1);
    let rest = after_fields(text, 2);
    let key = key_of(alloc, rest)?;
    Ok(Act::Installed {
        peer: peer_of(peer),
        key,
    })
}

// A group key taken into use again.
fn resumed(alloc: Global, text: &[u8]) -> Result<Act, NoMemory>
    ensures { IfOk result (λ a. (n : AnyNode) → ReadsAct kinds.Resumed n text.now a) }
{
    let peer = field(text, 1);
    let rest = after_fields(text, 2);
    let key = key_of(alloc, rest)?;
    Ok(Act::Resumed {
        peer: node_of(peer),
        key,
    })
}

// A packet number used.
fn used(alloc: Global, text: &[u8]) -> Result<Act, NoMemory>
    ensures { IfOk result (λ a. (n : AnyNode) → ReadsAct kinds.Used n text.now a) }
{
    let peer = field(text, 1);
    let key = field(text, 2);
    let id = field(text, 3);
    let number = field(text, 4);
    let octets = field(text, 5);
    let octets = octets_of(alloc, octets)?;
    Ok(Act::Used {
        peer: peer_of(peer),
        key: array_of(key),
        id: byte_of(id),
        number: number_of(number),
        octets,
    })
}

// A payload handed up.
fn handed_up(alloc: Global, text: &[u8]) -> Result<Act, NoMemory>
    ensures { IfOk result (λ a. (n : AnyNode) → ReadsAct kinds.HandedUp n text.now a) }
{
    let peer = field(text, 1);
    let key = field(text, 2);
    let id = field(text, 3);
    let tid = field(text, 4);
    let number = field(text, 5);
    let octets = field(text, 6);
    let octets = octets_of(alloc, octets)?;
    Ok(Act::HandedUp {
        peer: node_of(peer),
        key: array_of(key),
        id: byte_of(id),
        tid: tid_of(tid),
        number: number_of(number),
        octets,
    })
}

// A final message accepted.
fn finished(alloc: Global, text: &[u8]) -> Result<Act, NoMemory>
    ensures { IfOk result (λ a. (n : AnyNode) → ReadsAct kinds.Finished n text.now a) }
{
    let peer = field(text, 1);
    let rest = after_fields(text, 2);
    let inputs = inputs_of(alloc, rest)?;
    Ok(Act::Finished {
        peer: node_of(peer),
        inputs,
    })
}

// A PMK-R0 put.
fn put(alloc: Global, text: &[u8]) -> Result<Act, NoMemory>
    ensures { IfOk result (λ a. (n : AnyNode) → ReadsAct kinds.Put n text.now a) }
{
    let r0kh_id = field(text, 1);
    let r0kh_id = octets_of(alloc, r0kh_id)?;
    let name = field(text, 2);
    let sta = field(text, 3);
    let answer = field(text, 4);
    Ok(Act::Put {
        r0kh_id,
        name: array_of(name),
        sta: node_of(sta),
        answer: put_of(answer),
    })
}

// A PMK-R1 asked for.
fn looked(alloc: Global, text: &[u8]) -> Result<Act, NoMemory>
    ensures { IfOk result (λ a. (n : AnyNode) → ReadsAct kinds.Looked n text.now a) }
{
    let r0kh_id = field(text, 1);
    let r0kh_id = octets_of(alloc, r0kh_id)?;
    let name = field(text, 2);
    let sta = field(text, 3);
    let rest = after_fields(text, 4);
    Ok(Act::Looked {
        r0kh_id,
        name: array_of(name),
        sta: node_of(sta),
        answer: answer_of(rest),
    })
}

// A PMK-R0 revoked.
fn revoked(alloc: Global, text: &[u8]) -> Result<Act, NoMemory>
    ensures { IfOk result (λ a. (n : AnyNode) → ReadsAct kinds.Revoked n text.now a) }
{
    let r0kh_id = field(text, 1);
    let r0kh_id = octets_of(alloc, r0kh_id)?;
    let name = field(text, 2);
    let sta = field(text, 3);
    let answer = field(text, 4);
    Ok(Act::Revoked {
        r0kh_id: short_of(r0kh_id.as_slice()),
        name: array_of(name),
        sta: node_of(sta),
        answer: revoke_of(answer),
    })
}

// A pre-shared key changed.
fn secret(text: &[u8]) -> Act
    ensures { (n : AnyNode) → ReadsAct kinds.Secret n text.now result }
{
    let sta = field(text, 1);
    let psk = field(text, 2);
    Act::Secret {
        sta: node_of(sta),
        psk: array_of(psk),
    }
}

// Four sends that brought no answer.
fn gave_up(text: &[u8]) -> Act
    ensures { (n : AnyNode) → ReadsAct kinds.GaveUp n text.now result }
{
    let message = field(text, 1);
    let peer = field(text, 2);
    Act::GaveUp {
        peer: node_of(peer),
        message: message_of(message),
    }
}

// An event that did nothing.
fn idle(text: &[u8]) -> Act
    ensures { (n : AnyNode) → ReadsAct kinds.Idle n text.now result }
{
    let why = field(text, 1);
    Act::Idle { why: why_of(why) }
}

/// The act of that kind, at that node.
pub(crate) fn act_of(alloc: Global, kind: ActKind, node: Node, text: &[u8]) -> Result<Act, NoMemory>
    ensures { IfOk result (λ a. ReadsAct kind node text.now a) }
{
    match kind {
        ActKind::Opened => Ok(opened(text)),
        ActKind::Closed => Ok(closed(text)),
        ActKind::Drew => Ok(drew(text)),
        ActKind::Derived => derived(alloc, node, text),
        ActKind::Sent => sent(alloc, text),
        ActKind::Took => took(alloc, text),
        ActKind::Installed => installed(alloc, text),
        ActKind::Resumed => resumed(alloc, text),
        ActKind::Used => used(alloc, text),
        ActKind::HandedUp => handed_up(alloc, text),
        ActKind::Finished => finished(alloc, text),
        ActKind::Put => put(alloc, text),
        ActKind::Looked => looked(alloc, text),
        ActKind::Revoked => revoked(alloc, text),
        ActKind::Secret => Ok(secret(text)),
        ActKind::GaveUp => Ok(gave_up(text)),
        ActKind::Idle => Ok(idle(text)),
    }
}

/// The kind of the act.
pub(crate) fn kind_of(text: &[u8]) -> ActKind
    ensures { (number : ℕ) (a : AnyAct) → Joins 32 text.now (act_words number a)
        → result ≡ kind_of a }
{
    act_kind_of(field(text, 0))
}

/// The number of a frame sent; 0 for every other act.
pub(crate) fn sent_number(kind: ActKind, text: &[u8]) -> u64
    ensures read { (number : ℕ) (a : AnyAct) → kind_of a ≡ kind → number < 2 ^ 64
        → Joins 32 text.now (act_words number a) → result ≡ bare_number number a }
    ensures is_bare { (a : AnyAct) → kind_of a ≡ kind → bare_number result a ≡ result }
{
    match kind {
        ActKind::Sent => number_of(field(text, 1)),
        _ => 0,
    }
}
