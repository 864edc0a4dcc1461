//! What came of a frame, by its word: the words of a report with points between them.

ghost use Rattle.std.specs.Prelude.{◌≡◌};
ghost use Rattle.run_journal.specs.declared.acts.Outcome.{Outcome as AnyOutcome};
ghost use Rattle.run_journal.specs.declared.acts.Outcome.TheVariants as all_outcomes;
ghost use Rattle.run_journal.specs.declared.acts.Reason.{Reason as AnyReason};
ghost use Rattle.run_journal.specs.declared.acts.Reason.TheVariants as all_reasons;
ghost use Rattle.run_journal.specs.Report.{outcome_text};
ghost use Rattle.entry_lines.specs.Entries.{FitsOutcome, FitsReason, HasOutcomeLine};
ghost use Rattle.entry_lines.specs.Lines.{pointed};
ghost use Rattle.entry_lines.specs.Names.{element_fault, filled, frame_fault, key_data_fault};
ghost use Rattle.entry_lines.specs.Names.{malformed_by, named, reasons};

use crate::names::named;
use crate::splitting::word_at;
use crate::values::number_of;
use eapol_key::{FaultKind as KeyFault, FrameFault};
use rsn_elements::{ElementFault, FaultKind as ElementKind};
use run_journal::{KeyDataFault, Malformed, MalformedFrame, Outcome, Reason};

// The fault of that number.
fn frame_fault(number: u64) -> KeyFault
    ensures { result ≡ frame_fault number }
{
    match number {
        1 => KeyFault::Short,
        2 => KeyFault::PacketType,
        3 => KeyFault::Descriptor,
        4 => KeyFault::BodyLength,
        _ => KeyFault::KeyDataLength,
    }
}

// The fault of that number.
fn element_fault(number: u64) -> ElementKind
    ensures { result ≡ element_fault number }
{
    match number {
        1 => ElementKind::Truncated,
        2 => ElementKind::Length,
        3 => ElementKind::Version,
        4 => ElementKind::Repeated,
        _ => ElementKind::SubelementLength,
    }
}

// The fault of that number.
fn key_data_fault(number: u64) -> KeyDataFault
    ensures { result ≡ key_data_fault number }
{
    match number {
        1 => KeyDataFault::Unreadable,
        2 => KeyDataFault::Rsne,
        3 => KeyDataFault::Mde,
        4 => KeyDataFault::Fte,
        5 => KeyDataFault::Gtk,
        _ => KeyDataFault::Igtk,
    }
}

// What a reader refuses, by its layer, the place and the number of the fault.
fn malformed_by(layer: u64, place: u64, number: u64) -> Malformed
    ensures { result ≡ malformed_by layer place number }
{
    let place = place as usize;
    match layer {
        1 => Malformed::Air(match number {
            1 => MalformedFrame::Short(place),
            2 => MalformedFrame::Version,
            _ => MalformedFrame::Body(place),
        }),
        2 => Malformed::Key(FrameFault {
            place,
            kind: frame_fault(number),
        }),
        _ => Malformed::Elements(ElementFault {
            place,
            kind: element_fault(number),
        }),
    }
}

// The reason of that outline that tells these numbers.
fn filled(outline: Reason, a: u64, b: u64, c: u64) -> Reason
    ensures { result ≡ filled outline a b c }
{
    match outline {
        Reason::Malformed(_) => Reason::Malformed(malformed_by(a, b, c)),
        Reason::OutOfProfile(_) => Reason::OutOfProfile(if a < 256 { a as u8 } else { 0 }),
        Reason::Counter(_) => Reason::Counter(a),
        Reason::KeyData(_) => Reason::KeyData(key_data_fault(a)),
        Reason::Status(_) => Reason::Status(if a < 65_536 { a as u16 } else { 0 }),
        Reason::Replayed(_) => Reason::Replayed(a),
        reason => reason,
    }
}

// The reason of that name, without what it tells.
fn outline_of(word: &[u8]) -> Reason
    ensures { result ≡ named reasons word.now all_reasons.Spent }
{
    let names: [(&[u8], Reason); 17] = [
        (
            b"malformed",
            Reason::Malformed(Malformed::Air(MalformedFrame::Version)),
        ),
        (b"out-of-profile", Reason::OutOfProfile(0)),
        (b"not-for-me", Reason::NotForMe),
        (b"unknown-peer", Reason::UnknownPeer),
        (b"unawaited", Reason::Unawaited),
        (b"counter", Reason::Counter(0)),
        (b"nonce", Reason::Nonce),
        (b"mic", Reason::Mic),
        (b"wrap", Reason::Wrap),
        (b"key-data", Reason::KeyData(KeyDataFault::Unreadable)),
        (b"status", Reason::Status(0)),
        (b"no-holder", Reason::NoHolder),
        (b"name", Reason::Name),
        (b"no-key", Reason::NoKey),
        (b"replayed", Reason::Replayed(0)),
        (b"seal", Reason::Seal),
        (b"spent", Reason::Spent),
    ];
    named(&names, word, Reason::Spent)
}

// The reason after the first word.
fn reason_of(word: &[u8]) -> Reason
    ensures { (r : AnyReason) → FitsReason r
        → word.now ≡ pointed (outcome_text (all_outcomes.Refused r)) → result ≡ r }
{
    let name = word_at(word, b'.', 1);
    let first = word_at(word, b'.', 2);
    let second = word_at(word, b'.', 3);
    let third = word_at(word, b'.', 4);
    let outline = outline_of(name);
    let a = number_of(first);
    let b = number_of(second);
    let c = number_of(third);
    filled(outline, a, b, c)
}

/// What came of a frame.
pub(crate) fn outcome_of(word: &[u8]) -> Outcome
    ensures read { (o : AnyOutcome) → HasOutcomeLine o → FitsOutcome o
        → word.now ≡ pointed (outcome_text o) → result ≡ o }
    ensures has { HasOutcomeLine result }
{
    let reason = reason_of(word);
    let names: [(&[u8], Outcome); 3] = [
        (b"accepted", Outcome::Accepted),
        (b"answered", Outcome::Answered),
        (b"ignored", Outcome::Ignored),
    ];
    named(&names, word, Outcome::Refused(reason))
}
