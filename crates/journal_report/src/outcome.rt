//! What came of a frame, in words.

ghost use Rattle.std.specs.Prelude.{◌≡◌, ◌≢◌, ◌≤◌, ◌+◌, decimal, length, MatchOption};
ghost use Rattle.run_journal.specs.declared.acts.Malformed.{Malformed as AnyMalformed};
ghost use Rattle.run_journal.specs.declared.acts.Reason.TheVariants as reasons;
ghost use Rattle.run_journal.specs.Report.{air_fault_text, key_data_code, malformed_text, numbered};
ghost use Rattle.run_journal.specs.Report.{outcome_text, reason_text};
ghost use Rattle.journal_report.specs.Writing.{Writes};

use crate::pieces::{put_decimal, put_numbered};
use domain_base::put;
use run_journal::{KeyDataFault, Malformed, MalformedFrame, Outcome, Reason};

/// Room that is enough for an outcome.
pub const OUTCOME_ROOM: usize = 64;

// Room that is enough for a reason.
const REASON_ROOM: usize = 56;

// Room that is enough for what a reader refuses.
const MALFORMED_ROOM: usize = 43;

// Room that is enough for a place and the number of a fault.
const FAULT_ROOM: usize = 41;

/// The outcome. `Done`, `GaveUp` and `Idle` come of no frame, and have no word.
pub fn put_outcome(out: &mut [u8], at: usize, outcome: Outcome) -> usize
    requires { at + OUTCOME_ROOM ≤ length out.old }
    ensures written { Writes (outcome_text outcome) at out.old result out.new }
    ensures short { result ≤ at + OUTCOME_ROOM }
{
    match outcome {
        Outcome::Accepted => put(out, at, b"accepted"),
        Outcome::Answered => put(out, at, b"answered"),
        Outcome::Ignored => put(out, at, b"ignored"),
        Outcome::Refused(reason) => {
            let at = put(out, at, b"refused ");
            put_reason(out, at, reason)
        }
        Outcome::Done | Outcome::GaveUp(_) | Outcome::Idle(_) => put(out, at, b""),
    }
}

// What the reason is called, and the number that it tells, where it tells one.
fn reason_words(reason: Reason) -> (&'static [u8], Option<u64>)
    requires { (malformed : AnyMalformed) → reason ≢ reasons.Malformed malformed }
    ensures text { MatchOption result.1 (reason_text reason ≡ result.0.now)
        (λ n. reason_text reason ≡ numbered result.0.now n) }
    ensures short { length result.0.now ≤ 14 }
{
    match reason {
        Reason::Malformed(_) => unreachable!(),
        Reason::OutOfProfile(code) => (b"out-of-profile", Some(u64::from(code))),
        Reason::NotForMe => (b"not-for-me", None),
        Reason::UnknownPeer => (b"unknown-peer", None),
        Reason::Unawaited => (b"unawaited", None),
        Reason::Counter(kept) => (b"counter", Some(kept)),
        Reason::Nonce => (b"nonce", None),
        Reason::Mic => (b"mic", None),
        Reason::Wrap => (b"wrap", None),
        Reason::KeyData(fault) => (b"key-data", Some(key_data_number(fault))),
        Reason::Status(code) => (b"status", Some(u64::from(code))),
        Reason::NoHolder => (b"no-holder", None),
        Reason::Name => (b"name", None),
        Reason::NoKey => (b"no-key", None),
        Reason::Replayed(kept) => (b"replayed", Some(kept)),
        Reason::Seal => (b"seal", None),
        Reason::Spent => (b"spent", None),
    }
}

// The reason, and what it tells.
fn put_reason(out: &mut [u8], at: usize, reason: Reason) -> usize
    requires { at + REASON_ROOM ≤ length out.old }
    ensures written { Writes (reason_text reason) at out.old result out.new }
    ensures short { result ≤ at + REASON_ROOM }
{
    if let Reason::Malformed(malformed) = reason {
        let at = put(out, at, b"malformed ");
        return put_malformed(out, at, malformed);
    }
    match reason_words(reason) {
        (word, Some(number)) => put_numbered(out, at, word, number),
        (word, None) => put(out, at, word),
    }
}

// The layer, the place and the number of the fault.
fn put_malformed(out: &mut [u8], at: usize, malformed: Malformed) -> usize
    requires { at + MALFORMED_ROOM ≤ length out.old }
    ensures written { Writes (malformed_text malformed) at out.old result out.new }
    ensures short { result ≤ at + MALFORMED_ROOM }
{
    match malformed {
        Malformed::Air(fault) => {
            let at = put(out, at, b"1 ");
            put_air_fault(out, at, fault)
        }
        Malformed::Key(fault) => {
            let at = put(out, at, b"2 ");
            put_fault(out, at, fault.place, u64::from(fault.kind.code()))
        }
        Malformed::Elements(fault) => {
            let at = put(out, at, b"3 ");
            put_fault(out, at, fault.place, u64::from(fault.kind.code()))
        }
    }
}

// The place and the number of a fault of the air reader.
fn put_air_fault(out: &mut [u8], at: usize, fault: MalformedFrame) -> usize
    requires { at + FAULT_ROOM ≤ length out.old }
    ensures written { Writes (air_fault_text fault) at out.old result out.new }
    ensures short { result ≤ at + FAULT_ROOM }
{
    match fault {
        MalformedFrame::Short(place) => {
            let at = put_decimal(out, at, place as u64);
            put(out, at, b" 1")
        }
        MalformedFrame::Version => put(out, at, b"0 2"),
        MalformedFrame::Body(place) => {
            let at = put_decimal(out, at, place as u64);
            put(out, at, b" 4")
        }
    }
}

// A place, a space and the number of the fault there.
fn put_fault(out: &mut [u8], at: usize, place: usize, number: u64) -> usize
    requires { at + FAULT_ROOM ≤ length out.old }
    ensures written { Writes (numbered (decimal place) number) at out.old result out.new }
    ensures short { result ≤ at + FAULT_ROOM }
{
    let at = put_decimal(out, at, place as u64);
    let at = put(out, at, b" ");
    put_decimal(out, at, number)
}

// The number that a report prints for a fault of key data.
fn key_data_number(fault: KeyDataFault) -> u64
    ensures { result ≡ key_data_code fault }
{
    match fault {
        KeyDataFault::Unreadable => 1,
        KeyDataFault::Rsne => 2,
        KeyDataFault::Mde => 3,
        KeyDataFault::Fte => 4,
        KeyDataFault::Gtk => 5,
        KeyDataFault::Igtk => 6,
    }
}
