//! A line by what is due.

ghost use Rattle.std.specs.Prelude.{◌≡◌, ◌≢◌, ◌<◌, ◌^◌, ℕ, List};
ghost use Rattle.script_lines.specs.Due.{draft_of};
ghost use Rattle.frame_script.specs.Script.{border_line, is_border, is_mfp, is_passed_over};
ghost use Rattle.frame_script.specs.Script.{is_within, line_says, mfp_line, version_of};
ghost use Rattle.script_lines.specs.Script.{AtVersion};
ghost use Rattle.frame_script.specs.Sentences.{IsHead, Takes, rounds_with, words_say};
ghost use Rattle.script_lines.specs.Sentences.{IsKept};

use crate::body::{take_body, take_inner, take_protection};
use run_journal::{MOST_FRAMES, Version};
use script_lines::{Due, HeaderLine, Refusal, Step, Taken, Untaken, blank, take_header};
use script_words::first_word;
use std::alloc::Global;
use std::mem::replace;

// The version that a script's first line tells.
fn version_of(line: &[u8]) -> Option<Version>
    ensures { result ≡ version_of line.now }
{
    if line == b"domain 1".as_slice() {
        Some(Version::One)
    } else if line == b"domain 2".as_slice() {
        Some(Version::Two)
    } else {
        None
    }
}

// Takes the version of the form.
#[tactic(auto, unfolding(crate::specs::Script::line_says))]
fn take_version(alloc: Global, line: &[u8]) -> Taken
    ensures kept { IsKept result.0 }
    ensures takes { (rounds : ℕ) (sizes : List ℕ) → Takes AtVersion (draft_of result.0) rounds sizes
        (line_says AtVersion rounds sizes line.now) result.1 }
{
    match version_of(line) {
        Some(version) => {
            let line = HeaderLine::Seed;
            let header = blank(alloc, version);
            (Due::Header { line, header }, Ok(Step::Nothing))
        }
        None => (Due::Version, Err(Untaken::Refused(Refusal::Version))),
    }
}

// Whether the line has no octets, or begins with `#`.
fn is_passed_over(line: &[u8]) -> bool
    ensures { result ≡ is_passed_over line.now }
{
    match line.first() {
        None => true,
        Some(c) => *c == b'#',
    }
}

// Takes the line of the header that is due, by its first word and what stands after it.
fn take_head(due: &mut Due, alloc: Global, word: &[u8], text: &[u8]) -> Result<Step, Untaken>
    requires kept { IsKept due.old }
    requires head { IsHead due.old }
    ensures kept { IsKept due.new }
    ensures takes { (rounds : ℕ) (sizes : List ℕ) → Takes (draft_of due.old) (draft_of due.new)
        rounds sizes (words_say (draft_of due.old) rounds sizes word.now text.now) result }
{
    let Due::Header { line, header } = replace(due, Due::Version) else {
        unreachable!()
    };
    let (next, answer) = take_header(line, header, alloc, word, text);
    *due = next;
    answer
}

// Takes a line by its first word and what stands behind it.
fn take_words(
    due: &mut Due,
    alloc: Global,
    rounds: u64,
    sizes: &[usize],
    word: &[u8],
    text: &[u8],
) -> Result<Step, Untaken>
    requires { IsKept due.old }
    ensures kept { IsKept due.new }
    ensures takes { Takes (draft_of due.old) (draft_of due.new) rounds sizes.now
        (words_say (draft_of due.old) rounds sizes.now word.now text.now) result }
{
    match due {
        Due::Version => Err(Untaken::Refused(Refusal::Word)),
        Due::Header { .. } => take_head(due, alloc, word, text),
        Due::Nodes { header } => take_body(header, alloc, rounds, sizes, word, text),
        Due::Round { header, count } => take_inner(header, count, alloc, sizes, word, text),
    }
}

// Whether the line begins a round, or ends the one that is open.
fn is_border(due: &Due, line: &[u8]) -> bool
    ensures { result ≡ is_border (draft_of due.now) line.now }
{
    match due {
        Due::Nodes { .. } => line == b"round".as_slice(),
        Due::Round { .. } => line == b"end".as_slice(),
        _ => false,
    }
}

// Begins a round, or ends the one that is open.
fn cross_border(due: Due, sizes: &[usize]) -> Taken
    requires { IsKept due }
    ensures kept { IsKept result.0 }
    ensures takes { (rounds : ℕ) → Takes (draft_of due) (draft_of result.0) rounds sizes.now
        (border_line (draft_of due) sizes.now) result.1 }
{
    match due {
        Due::Nodes { header } => {
            if sizes.len() <= MOST_FRAMES {
                (Due::Round { header, count: 0 }, Ok(Step::Round))
            } else {
                (
                    Due::Nodes { header },
                    Err(Untaken::Refused(Refusal::ManyFrames)),
                )
            }
        }
        Due::Round { header, .. } => (Due::Nodes { header }, Ok(Step::End)),
        due => (due, Err(Untaken::Refused(Refusal::Word))),
    }
}

// Takes the line that begins a round, or ends the one that is open.
fn take_border(due: &mut Due, sizes: &[usize]) -> Result<Step, Untaken>
    requires { IsKept due.old }
    ensures kept { IsKept due.new }
    ensures takes { (rounds : ℕ) → Takes (draft_of due.old) (draft_of due.new) rounds sizes.now
        (border_line (draft_of due.old) sizes.now) result }
{
    let (next, answer) = cross_border(replace(due, Due::Version), sizes);
    *due = next;
    answer
}

// Whether the line is `mfp`, outside rounds.
fn is_mfp(due: &Due, line: &[u8]) -> bool
    ensures { result ≡ is_mfp (draft_of due.now) line.now }
{
    match due {
        Due::Nodes { .. } => line == b"mfp".as_slice(),
        _ => false,
    }
}

// Takes the line `mfp`.
fn take_mfp(due: &mut Due, rounds: u64) -> Result<Step, Untaken>
    requires { IsKept due.old }
    ensures kept { IsKept due.new }
    ensures takes { (sizes : List ℕ) → Takes (draft_of due.old) (draft_of due.new) rounds sizes
        (mfp_line (draft_of due.old) rounds) result }
{
    match due {
        Due::Nodes { header } => take_protection(header, rounds),
        _ => Err(Untaken::Refused(Refusal::Word)),
    }
}

// Takes a line behind the first one.
#[tactic(auto, using(crate::proofs::Taking::later))]
fn take_later(
    due: &mut Due,
    alloc: Global,
    rounds: u64,
    sizes: &[usize],
    line: &[u8],
) -> Result<Step, Untaken>
    requires kept { IsKept due.old }
    requires later { draft_of due.old ≢ AtVersion }
    ensures kept { IsKept due.new }
    ensures takes { Takes (draft_of due.old) (draft_of due.new) rounds sizes.now
        (line_says (draft_of due.old) rounds sizes.now line.now) result }
{
    if is_passed_over(line) {
        return Ok(Step::Nothing);
    }
    if is_border(due, line) {
        return take_border(due, sizes);
    }
    if is_mfp(due, line) {
        return take_mfp(due, rounds);
    }
    let (word, text) = first_word(line);
    take_words(due, alloc, rounds, sizes, word, text)
}

/// Takes the next line in a replay, where so many rounds were asked for and frames of these sizes
/// sent. Where it is refused the same one is due.
pub(crate) fn take_line(
    due: &mut Due,
    alloc: Global,
    rounds: u64,
    sizes: &[usize],
    line: &[u8],
) -> Result<Step, Untaken>
    requires { IsKept due.old }
    ensures kept { IsKept due.new }
    ensures takes { Takes (draft_of due.old) (draft_of due.new) rounds sizes.now
        (line_says (draft_of due.old) rounds sizes.now line.now) result }
{
    match due {
        Due::Version => {
            let (next, answer) = take_version(alloc, line);
            *due = next;
            answer
        }
        _ => take_later(due, alloc, rounds, sizes, line),
    }
}

/// Whether a round is open.
pub(crate) fn is_within(due: &Due) -> bool
    ensures { result ≡ is_within (draft_of due.now) }
{
    matches!(due, Due::Round { .. })
}

/// How many rounds were asked for with this answer, within a round or not.
pub(crate) fn rounds_with(within: bool, rounds: u64, answer: &Result<Step, Untaken>) -> u64
    requires { rounds < 2 ^ 63 }
    ensures { result ≡ rounds_with within rounds answer.now }
{
    match answer {
        Ok(Step::Event(_)) => { if within { rounds } else { rounds + 1 } }
        Ok(Step::End) => rounds + 1,
        Ok(Step::Turn) => rounds + 1,
        _ => rounds,
    }
}
