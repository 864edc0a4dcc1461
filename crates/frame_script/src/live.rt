//! The lines of a live run.

ghost use Rattle.std.specs.Prelude.{◌≡◌, bytes_eq, codes, if◌then◌else◌, None, Some, Ok};
ghost use Rattle.std.specs.Prelude.{option_map};
ghost use Rattle.script_lines.specs.Due.{draft_of};
ghost use Rattle.frame_script.specs.Live.{Draws, brings, own_line, own_says, own_word, turn_line};
ghost use Rattle.frame_script.specs.Sentences.{TakesBy, TakesHeard, heard_of};
ghost use Rattle.script_lines.specs.Sentences.{IsKept};

use crate::lines::take_line;
use crate::reader::Mode;
use run_journal::MOST_FRAMES;
use script_lines::{Due, HeaderLine, Refusal, Step, Untaken};
use script_words::{first_word, in_live, line_of, row_of};
use std::alloc::Global;

/// What a line says that has not the meaning that it has in a replay.
#[derive(Clone, Copy)]
pub(crate) enum Own {
    /// That the seed is drawn.
    Draw,
    /// That nodes take the frames of their links.
    Turn,
    /// That it is refused.
    Refused(Refusal),
}

// Whether the first word is that of a line that brings a frame which was sent: of one that a live
// run has not.
#[tactic(auto, unfolding(crate::specs::Live::brings))]
fn brings(word: &[u8]) -> bool
    ensures { result ≡ brings word.now }
{
    !in_live(row_of(line_of(word)).runs)
}

// No line brings a frame which was sent.
fn own_word(word: &[u8]) -> Option<Own>
    ensures { option_map heard_of result ≡ own_word word.now }
{
    if brings(word) {
        Some(Own::Refused(Refusal::Mode))
    } else {
        None
    }
}

// A line that is `turn`.
fn turn_line(sizes: &[usize]) -> Own
    ensures { heard_of result ≡ turn_line sizes.now }
{
    if sizes.len() <= MOST_FRAMES {
        Own::Turn
    } else {
        Own::Refused(Refusal::ManyFrames)
    }
}

// A line outside rounds.
fn own_line(sizes: &[usize], line: &[u8], word: &[u8]) -> Option<Own>
    ensures { option_map heard_of result ≡ own_line sizes.now line.now word.now }
{
    if line == b"turn".as_slice() {
        Some(turn_line(sizes))
    } else if word == b"turn".as_slice() {
        Some(Own::Refused(Refusal::Arguments))
    } else {
        own_word(word)
    }
}

// A line that draws the seed.
fn own_seed(line: &[u8]) -> Option<Own>
    ensures { option_map heard_of result
        ≡ (if bytes_eq line.now (codes "seed draw") then Some (Ok Draws) else None) }
{
    if line == b"seed draw".as_slice() {
        Some(Own::Draw)
    } else {
        None
    }
}

// A line that has not the meaning that it has in a replay.
#[tactic(auto, unfolding(crate::specs::Live::own_says))]
fn own_says(due: &Due, sizes: &[usize], line: &[u8]) -> Option<Own>
    ensures { option_map heard_of result ≡ own_says (draft_of due.now) sizes.now line.now }
{
    let (word, _) = first_word(line);
    match due {
        Due::Header {
            line: HeaderLine::Seed,
            ..
        } => own_seed(line),
        Due::Nodes { .. } => own_line(sizes, line, word),
        Due::Round { .. } => own_word(word),
        _ => None,
    }
}

// Takes the next line of a script of a live run.
#[tactic(auto, using(crate::proofs::Living::own))]
fn take_live(
    due: &mut Due,
    alloc: Global,
    rounds: u64,
    sizes: &[usize],
    line: &[u8],
) -> Result<Step, Untaken>
    requires { IsKept due.old }
    ensures kept { IsKept due.new }
    ensures takes { TakesHeard (draft_of due.old) (draft_of due.new) rounds sizes.now line.now
        result }
{
    match own_says(due, sizes, line) {
        Some(Own::Draw) => Ok(Step::Draw),
        Some(Own::Turn) => Ok(Step::Turn),
        Some(Own::Refused(refusal)) => Err(Untaken::Refused(refusal)),
        None => take_line(due, alloc, rounds, sizes, line),
    }
}

/// Takes the next line in a run of that kind, as `take_line` does.
pub(crate) fn take_by(
    mode: Mode,
    due: &mut Due,
    alloc: Global,
    rounds: u64,
    sizes: &[usize],
    line: &[u8],
) -> Result<Step, Untaken>
    requires { IsKept due.old }
    ensures kept { IsKept due.new }
    ensures takes { TakesBy mode (draft_of due.old) (draft_of due.new) rounds sizes.now line.now
        result }
{
    match mode {
        Mode::Replay => take_line(due, alloc, rounds, sizes, line),
        Mode::Live => take_live(due, alloc, rounds, sizes, line),
    }
}
