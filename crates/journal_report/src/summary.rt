//! The three lines that end a report.

ghost use Rattle.std.specs.Prelude.{◌≡◌, ◌≤◌, ℕ, drop, length, reverse, take};
ghost use Rattle.run_journal.specs.Report.{summary};
ghost use Rattle.journal_report.specs.Counts.{HasRoom, counts_of, counts_with, summary_text};
ghost use Rattle.journal_report.specs.Writing.{Writes};

use crate::layout::put_line;
use crate::words::{Word, answer_word};
use run_journal::{Act, Entry, Outcome, Premises};

/// Room that is enough for a summary.
pub const SUMMARY_ROOM: usize = 384;

// How often a run did what the summary counts.
#[derive(Clone, Copy, Default)]
struct Counts {
    frames: u64,
    accepted: u64,
    answered: u64,
    refused: u64,
    ignored: u64,
    installed: u64,
    resumed: u64,
    used: u64,
    handed_up: u64,
}

impl Counts {
    // Counts the act too.
    fn add(&mut self, act: &Act)
        requires { HasRoom self.old }
        ensures { self.new ≡ counts_with act.now self.old }
    {
        match act {
            Act::Sent { .. } => self.frames += 1,
            Act::Took { outcome, .. } => match outcome {
                Outcome::Accepted => self.accepted += 1,
                Outcome::Answered => self.answered += 1,
                Outcome::Refused(_) => self.refused += 1,
                Outcome::Ignored => self.ignored += 1,
                Outcome::Done | Outcome::GaveUp(_) | Outcome::Idle(_) => {}
            },
            Act::Installed { .. } => self.installed += 1,
            Act::Resumed { .. } => self.resumed += 1,
            Act::Used { .. } => self.used += 1,
            Act::HandedUp { .. } => self.handed_up += 1,
            Act::Opened { .. } | Act::Closed { .. } | Act::Finished { .. } => {}
            Act::GaveUp { .. } | Act::Idle { .. } => {}
            Act::Drew { .. } | Act::Derived { .. } => {}
            Act::Put { .. } | Act::Looked { .. } | Act::Revoked { .. } | Act::Secret { .. } => {}
            Act::Link { .. } => {}
        }
    }
}

// Counts the acts of all entries.
fn count_acts(entries: &[Entry]) -> Counts
    ensures { result ≡ counts_of (reverse entries.now) }
{
    let mut counts = Counts::default();
    for entry in entries {
        counts.add(&entry.act);
    }
    counts
}

/// Writes the summary of a journal with these entries, oldest first, to the front of `out`: how
/// many frames were sent and what came of those taken, how many keys were installed, resumed and
/// used, and which premises of safety hold. Answers its length. What stands behind it stays.
pub fn summary_of(entries: &[Entry], premises: Premises, out: &mut [u8]) -> usize
    requires { SUMMARY_ROOM ≤ length out.old }
    ensures count { result ≡ length (summary (reverse entries.now) premises) }
    ensures text { take result out.new ≡ summary (reverse entries.now) premises }
    ensures rest { (n : ℕ) → result ≤ n → drop n out.new ≡ drop n out.old }
    ensures len { length out.new ≡ length out.old }
    ensures short { result ≤ SUMMARY_ROOM }
{
    let counts = count_acts(entries);
    put_summary(out, &counts, premises)
}

// Writes the summary to the front, and answers its length.
fn put_summary(out: &mut [u8], counts: &Counts, premises: Premises) -> usize
    requires { SUMMARY_ROOM ≤ length out.old }
    ensures written { Writes (summary_text counts.now premises) 0 out.old result out.new }
    ensures short { result ≤ SUMMARY_ROOM }
{
    let frames = [
        Word::Numbered(b"frames", counts.frames),
        Word::Numbered(b"accepted", counts.accepted),
        Word::Numbered(b"answered", counts.answered),
        Word::Numbered(b"refused", counts.refused),
        Word::Numbered(b"ignored", counts.ignored),
    ];
    let keys = [
        Word::Numbered(b"installed", counts.installed),
        Word::Numbered(b"resumed", counts.resumed),
        Word::Numbered(b"used", counts.used),
        Word::Numbered(b"handed-up", counts.handed_up),
    ];
    let answers = [
        Word::Text(b"fresh"),
        answer_word(premises.fresh),
        Word::Text(b"no-collision"),
        answer_word(premises.no_collision),
        Word::Text(b"unforged"),
        answer_word(premises.unforged),
    ];
    let at = put_line(out, 0, b"end", &frames);
    let at = put_line(out, at, b"keys", &keys);
    put_line(out, at, b"premises", &answers)
}
