//! A source read line by line.

ghost use Rattle.std.specs.Prelude.{◌≡◌, ◌≢◌, ◌≤◌, ◌<◌, ◌+◌, ◌^◌, ◌⊎◌, ◌∷◌, ℕ, List, []};
ghost use Rattle.std.specs.Prelude.{IfOk, OnOk, OnErr, MatchResult, ◌-◌, ◌++◌, drop, get_or, length, take};
ghost use Rattle.domain_base.specs.Causes.{Rose};
ghost use Rattle.text_lines.specs.declared.limits.Limits.{Limits as Bounds};
ghost use Rattle.text_lines.specs.Cuts.{HasCut};
ghost use Rattle.text_lines.specs.Longs.{IsLong};
ghost use Rattle.text_lines.specs.Texts.{NoFeed};

use crate::cutter::{LineCutter, line_end, without_return};
use crate::limits::{Limits, TooLong};
use domain_base::{NoMemory, Source};
use std::alloc::Global;

// A read asks for so many octets.
const PIECE: usize = 512;

/// What comes next in a text.
#[derive(Clone, Copy)]
pub enum Next {
    /// A line that has its line feed.
    Line,
    /// The last line, which lacks it; an empty text has one, which is empty.
    Last,
    /// Nothing: the last line had its line feed.
    End,
    /// A line that is too long, at its end or not.
    Long,
    /// The source failed.
    Failed,
}

// What a read gave.
#[derive(Clone, Copy)]
enum Filled {
    // Octets.
    More,
    // None: the source is at its end.
    None,
    // It failed.
    Failed,
}

/// A text that is read from a source: the lines so far, and what was read of the rest.
#[derive(Drop)]
pub struct LineReader {
    /// The lines so far, and the front of the open one.
    pub cutter: LineCutter,
    /// The octets of the last read.
    pub piece: [u8; 512],
    /// How many of them were taken.
    pub at: usize,
    /// How many there are.
    pub end: usize,
    ghost order: { at ≤ end },
    ghost within: { end ≤ 512 },
}

// Takes octets into the open line, from a place up to the next line feed or to their end, and answers
// where that is.
fn take_on(cutter: &mut LineCutter, octets: &[u8], at: usize) -> Result<usize, TooLong>
    requires some { at < length octets.now }
    requires other { get_or octets.now at 0 ≢ 10 }
    ensures limits { cutter.new.limits ≡ cutter.old.limits }
    ensures lines { cutter.new.lines ≡ cutter.old.lines }
    ensures order { IfOk result (λ end. (at < end) × (end ≤ length octets.now)) }
    ensures piece { IfOk result (λ end. NoFeed (take (end - at) (drop at octets.now))) }
    ensures grown { IfOk result (λ end. cutter.new.line.items
        ≡ cutter.old.line.items ++ take (end - at) (drop at octets.now)) }
    ensures cut { (l : Bounds) (before : List ℕ) (good : List (List ℕ))
        → HasCut l cutter.old before good → MatchResult result
        (λ end. HasCut l cutter.new (before ++ take (end - at) (drop at octets.now)) good)
        (λ _. IsLong l (before ++ drop at octets.now) good) }
    ensures kept { OnErr result (cutter.new.line.items ≡ cutter.old.line.items) }
{
    let end = line_end(octets, at);
    match cutter.add(&octets[at..end]) {
        Ok(()) => Ok(end),
        Err(TooLong) => Err(TooLong),
    }
}

// The place after one, within octets of that end.
fn after(at: usize, end: usize) -> usize
    requires { at ≤ end }
    ensures next { at < end → result ≡ at + 1 }
    ensures order { result ≤ end }
{
    if at < end { at + 1 } else { at }
}

impl LineReader {
    ghost use Rattle.text_lines.specs.Texts.{without_return};
    ghost use Rattle.text_lines.specs.Reads.{Comes, Fills, HasRead, unread};

    /// Before the first octet of a text with these limits.
    pub fn new(alloc: Global, limits: Limits) -> Result<Self, NoMemory>
        ensures limits { IfOk result (λ r. r.cutter.limits ≡ limits) }
        ensures empty { IfOk result (λ r. r.cutter.lines ≡ 0) }
        ensures read { IfOk result (λ r. HasRead limits r [] []) }
    {
        let cutter = LineCutter::new(alloc, limits)?;
        Ok(LineReader {
            cutter,
            piece: [0; PIECE],
            at: 0,
            end: 0,
        })
    }

    // Takes what was read up to the next line feed into the open line.
    fn advance(&mut self) -> Result<(), TooLong>
        requires some { self.old.at < self.old.end }
        requires other { get_or self.old.piece self.old.at 0 ≢ 10 }
        ensures limits { self.new.cutter.limits ≡ self.old.cutter.limits }
        ensures lines { self.new.cutter.lines ≡ self.old.cutter.lines }
        ensures onward { OnOk result
            (length self.old.cutter.line.items < length self.new.cutter.line.items) }
        ensures end { self.new.end ≡ self.old.end }
        ensures read { (l : Bounds) (octets : List ℕ) (good : List (List ℕ))
            → HasRead l self.old octets good → MatchResult result
            (λ _. HasRead l self.new octets good) (λ _. IsLong l octets good) }
        ensures kept { (l : Bounds) (octets : List ℕ) (good : List (List ℕ))
            → HasRead l self.old octets good → HasRead l self.new octets good }
    {
        match take_on(&mut self.cutter, &self.piece[..self.end], self.at) {
            Ok(end) => {
                self.at = end;
                Ok(())
            }
            Err(TooLong) => Err(TooLong),
        }
    }

    // Reads on, where all that was read was taken.
    fn fill<S: Source>(&mut self, source: &mut S) -> Filled
        requires all { self.old.end ≤ self.old.at }
        ensures cutter { self.new.cutter ≡ self.old.cutter }
        ensures more { result ≡ Filled.More → self.new.at < self.new.end }
        ensures none { result ≢ Filled.More → self.new.end ≤ self.new.at }
        ensures read { (l : Bounds) (octets : List ℕ) (good : List (List ℕ))
            → HasRead l self.old octets good
            → Fills result l self.new (S.left source.old) (S.left source.new) octets good }
        ensures failed { result ≡ Filled.Failed → Rose (S.faults source.old) (S.faults source.new) }
        ensures unfailed { result ≢ Filled.Failed → S.faults source.new ≡ S.faults source.old }
    {
        match source.read(&mut self.piece) {
            Ok(count) => {
                self.at = 0;
                self.end = count;
                if count > 0 {
                    Filled::More
                } else {
                    Filled::None
                }
            }
            Err(_) => {
                self.at = 0;
                self.end = 0;
                Filled::Failed
            }
        }
    }

    // What is left at the end of the source: an open line, or none, but for the first.
    fn rest(&self) -> Next
        ensures last { result ≡ Next.Last
            → (self.now.cutter.line.items ≢ []) ⊎ (self.now.cutter.lines ≡ 0) }
        ensures end { result ≡ Next.End
            → (self.now.cutter.line.items ≡ []) × (self.now.cutter.lines ≢ 0) }
        ensures either { (result ≡ Next.Last) ⊎ (result ≡ Next.End) }
    {
        if self.cutter.line.is_empty() && self.cutter.lines > 0 {
            Next::End
        } else {
            Next::Last
        }
    }

    /// Reads on to the end of the next line. Of a line that is too long no more is read than that
    /// tells. A call of the source that failed is not made again.
    pub fn next<S: Source>(&mut self, source: &mut S) -> Next
        ensures limits { self.new.cutter.limits ≡ self.old.cutter.limits }
        ensures lines { self.new.cutter.lines ≡ self.old.cutter.lines }
        ensures comes { (l : Bounds) (octets : List ℕ) (good : List (List ℕ))
            → HasRead l self.old octets good
            → Comes result l self.new (S.left source.old) (S.left source.new) octets good }
        ensures failed { result ≡ Next.Failed → Rose (S.faults source.old) (S.faults source.new) }
        ensures unfailed { result ≢ Next.Failed → S.faults source.new ≡ S.faults source.old }
    {
        'reads: loop {
            if self.at < self.end {
                if self.piece[self.at] == b'\n' {
                    return Next::Line;
                }
                match self.advance() {
                    Ok(()) => {}
                    Err(_) => return Next::Long,
                }
            } else {
                match self.fill(source) {
                    Filled::More => {}
                    Filled::None => return self.rest(),
                    Filled::Failed => return Next::Failed,
                }
            }
        }
    }

    /// What the line says that has come, which has its line feed.
    pub fn text(&self) -> &[u8]
        ensures { result.now ≡ without_return self.now.cutter.line.items }
    {
        without_return(&self.cutter.line)
    }

    /// Ends the line that has come, which has its line feed.
    pub fn end_line(&mut self)
        requires room { self.old.cutter.lines < self.old.cutter.limits.lines }
        requires few { self.old.cutter.lines + 1 < 2 ^ 64 }
        ensures limits { self.new.cutter.limits ≡ self.old.cutter.limits }
        ensures lines { self.new.cutter.lines ≡ self.old.cutter.lines + 1 }
        ensures read { (l : Bounds) (octets : List ℕ) (good : List (List ℕ)) (more : List ℕ)
            → HasRead l self.old octets good → unread self.old ≡ 10 ∷ more
            → HasRead l self.new octets (self.old.cutter.line.items ∷ good) }
    {
        self.at = after(self.at, self.end);
        self.cutter.end();
    }
}
