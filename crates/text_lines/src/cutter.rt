//! Octets of a text cut into lines, whatever these tell.

ghost use Rattle.std.specs.Prelude.{◌≡◌, ◌≢◌, ◌≤◌, ◌<◌, ◌+◌, ◌-◌, ◌^◌, ◌++◌, ◌∷◌, [], take};
ghost use Rattle.std.specs.Prelude.{drop, get_or, ℕ, List, IfOk, MatchResult, length, vec_len};
ghost use Rattle.std.specs.Prelude.{vec_capacity, OnOk, OnErr};
ghost use Rattle.text_lines.specs.declared.limits.Limits.{Limits as Bounds};
ghost use Rattle.text_lines.specs.Texts.{NoFeed, without_return};

use crate::limits::{Limits, TooLong};
use domain_base::NoMemory;
use memchr::memchr;
use std::alloc::Global;

/// A text so far: the front of its open line, and how many whole lines came.
#[derive(Drop)]
pub struct LineCutter {
    /// The limits of the text.
    pub limits: Limits,
    /// The octets of the open line so far, of which none is a line feed.
    pub line: Vec<u8>,
    /// How many whole lines came before it.
    pub lines: u64,
    ghost roomy: { limits.octets ≤ vec_capacity line },
    ghost short: { vec_len line ≤ limits.octets },
    ghost few: { lines ≤ limits.lines },
}

/// What stood before a line feed, without a carriage return at its end.
#[tactic(auto, unfolding(crate::specs::Texts::without_return))]
pub fn without_return(line: &[u8]) -> &[u8]
    ensures { result.now ≡ without_return line.now }
{
    let size = line.len();
    if size > 0 && line[size - 1] == b'\r' {
        &line[..size - 1]
    } else {
        line
    }
}

/// Where the octets of a line end that go on at a place: before the next line feed, or at the end.
pub fn line_end(octets: &[u8], at: usize) -> usize
    requires { at ≤ length octets.now }
    ensures order { (at ≤ result) × (result ≤ length octets.now) }
    ensures open_line { NoFeed (take (result - at) (drop at octets.now)) }
    ensures onward { at < length octets.now → get_or octets.now at 0 ≢ 10 → at < result }
{
    let (_, rest) = octets.split_at(at);
    match memchr(b'\n', rest) {
        Some(count) => at + count,
        None => octets.len(),
    }
}

impl LineCutter {
    ghost use Rattle.text_lines.specs.Cuts.{HasCut};

    /// Before the first octet of a text with these limits.
    pub fn new(alloc: Global, limits: Limits) -> Result<Self, NoMemory>
        ensures limits { IfOk result (λ c. c.limits ≡ limits) }
        ensures empty { IfOk result (λ c. c.lines ≡ 0) }
        ensures cut { IfOk result (λ c. HasCut limits c [] []) }
    {
        let line = Vec::with_capacity(alloc, limits.octets)?;
        Ok(LineCutter {
            limits,
            line,
            lines: 0,
        })
    }

    /// Takes octets of the open line, of which none is a line feed. Where the line is too long with
    /// them all is as before.
    pub fn add(&mut self, octets: &[u8]) -> Result<(), TooLong>
        requires { NoFeed octets.now }
        ensures limits { self.new.limits ≡ self.old.limits }
        ensures lines { self.new.lines ≡ self.old.lines }
        ensures cut { (l : Bounds) (before : List ℕ) (good : List (List ℕ))
            → HasCut l self.old before good → MatchResult result
            (λ _. HasCut l self.new (before ++ octets.now) good)
            (λ _. l.octets < length self.old.line.items + length octets.now) }
        ensures grown { OnOk result
            (self.new.line.items ≡ self.old.line.items ++ octets.now) }
        ensures same { OnErr result (self.new.line.items ≡ self.old.line.items) }
    {
        if octets.len() > self.limits.octets - self.line.len() {
            return Err(TooLong);
        }
        match self.line.extend_from_slice(octets) {
            Ok(()) => Ok(()),
            Err(_) => unreachable!(),
        }
    }

    /// Ends the open line.
    pub fn end(&mut self)
        requires room { self.old.lines < self.old.limits.lines }
        requires few { self.old.lines + 1 < 2 ^ 64 }
        ensures limits { self.new.limits ≡ self.old.limits }
        ensures lines { self.new.lines ≡ self.old.lines + 1 }
        ensures cut { (l : Bounds) (before : List ℕ) (good : List (List ℕ))
            → HasCut l self.old before good
            → HasCut l self.new (before ++ 10 ∷ []) (self.old.line.items ∷ good) }
    {
        self.lines += 1;
        self.line.clear();
    }
}
