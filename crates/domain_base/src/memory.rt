//! Sources and sinks in memory: with a list of the calls that are to fail, and without.

ghost use Rattle.std.specs.Prelude.{◌≡◌, ◌↔◌, ◌≤◌, ◌<◌, ◌+◌, ◌-◌, ◌++◌, ◌⊎◌, min, length, take, []};
ghost use Rattle.std.specs.Prelude.{Ok, Some, IsTrue, OnOk, IfOk, IsErr, vec_len, vec_capacity};
ghost use Rattle.std.specs.Io.{ReadsAtMost, WritesAtMost};
ghost use Rattle.std.specs.Io.KnownBytes.{ReadConsumes, WriteAppends};
ghost use Rattle.domain_base.specs.Causes.{HasCause};
ghost use Rattle.domain_base.specs.Memory.{FailsNext, NoRoom, CountsCall, one_more, no_calls};
ghost use Rattle.domain_base.specs.Memory.{after_call};

use crate::outside::{Failed, NoMemory, Sink, Source};
use std::alloc::Global;
use std::marker::Model;

// Copies as many octets to the front of `buf` as there are and it has room for.
pub(crate) fn copy_front(octets: &[u8], buf: &mut [u8]) -> usize
    ensures count { result ≡ min (length octets.now) (length buf.old) }
    ensures front { take result buf.new ≡ take result octets.now }
    ensures len { length buf.new ≡ length buf.old }
{
    let count = octets.len().min(buf.len());
    buf[..count].copy_from_slice(&octets[..count]);
    count
}

// The calls of an object that are to fail, and what became of those made.
#[derive(Drop)]
pub(crate) struct FailingCalls {
    numbers: Vec<u64>,
    made: u64,
    faults: u64,
}

impl Model for FailingCalls {
    ghost use Rattle.domain_base.specs.Memory.{Calls};

    ghost Value = { Calls };

    ghost view = { λ c. record { failing = c.numbers.items; made = c.made; faults = c.faults } };
}

impl FailingCalls {
    // The calls of those numbers, from 0, are to fail.
    pub(crate) fn new(numbers: Vec<u64>) -> Self
        ensures { result ≡ no_calls numbers.items }
    {
        FailingCalls {
            numbers,
            made: 0,
            faults: 0,
        }
    }

    // Counts a call, and answers whether it is to fail.
    pub(crate) fn next_fails(&mut self) -> bool
        ensures fails { IsTrue result ↔ FailsNext self.old }
        ensures counted { self.new ≡ after_call self.old }
    {
        let fails = self.numbers.contains(&self.made);
        self.made = self.made.saturating_add(1);
        fails
    }

    // Whether a call has failed.
    pub(crate) fn has_failed(&self) -> bool
        ensures { IsTrue result ↔ (0 < self.now.faults) }
    {
        self.faults > 0
    }

    // Counts a fault.
    pub(crate) fn fault(&mut self)
        ensures counted { self.new ≡ record self.old { faults = one_more self.old.faults } }
        ensures later { self.old.faults ≤ self.new.faults }
    {
        self.faults = self.faults.saturating_add(1);
    }
}

/// A source in memory that gives its octets in order, and never fails.
#[derive(Drop)]
pub struct SteadySource {
    bytes: Vec<u8>,
    place: usize,
}

impl Model for SteadySource {
    ghost use Rattle.std.specs.Prelude.{◌≤◌, ℕ, List, drop, vec_len};

    ghost Value = { List ℕ };

    ghost view = { λ s. drop s.place s.bytes.items };

    ghost invariant = { λ s. s.place ≤ vec_len s.bytes };
}

impl SteadySource {
    /// A source of those octets. Takes no memory.
    pub fn new(bytes: Vec<u8>) -> Self
        ensures left { ⟦<SteadySource as Source>⟧.left result ≡ Some bytes.items }
    {
        SteadySource { bytes, place: 0 }
    }
}

impl Source for SteadySource {
    ghost left = { λ octets. Some octets };

    ghost faults = { λ _. 0 };

    fn read(&mut self, buf: &mut [u8]) -> Result<usize, Failed>
        ensures bound { ReadsAtMost result buf.new }
        ensures bytes { ReadConsumes (Some self.old) (Some self.new) result buf.new }
        ensures full { result ≡ Ok (min (length self.old) (length buf.old)) }
    {
        let count = copy_front(&self.bytes[self.place..], buf);
        self.place += count;
        Ok(count)
    }
}

/// A source in memory that gives its octets in order. Some of its calls fail, those of the numbers
/// that it was made with, from 0.
#[derive(Drop)]
pub struct MemSource {
    source: SteadySource,
    calls: FailingCalls,
}

impl Model for MemSource {
    ghost use Rattle.domain_base.specs.Memory.{KeptSource};

    ghost Value = { KeptSource };

    ghost view = { λ s. record { left = s.source; calls = s.calls } };
}

impl MemSource {
    /// A source of those octets, whose calls of the numbers in `failing` are to fail. Takes no
    /// memory.
    pub fn new(bytes: Vec<u8>, failing: Vec<u64>) -> Self
        ensures left { ⟦<MemSource as Source>⟧.left result ≡ Some bytes.items }
        ensures faults { ⟦<MemSource as Source>⟧.faults result ≡ 0 }
        ensures calls { result.calls ≡ no_calls failing.items }
    {
        MemSource {
            source: SteadySource::new(bytes),
            calls: FailingCalls::new(failing),
        }
    }
}

impl Source for MemSource {
    ghost left = { λ s. Some s.left };

    ghost faults = { λ s. s.calls.faults };

    fn read(&mut self, buf: &mut [u8]) -> Result<usize, Failed>
        ensures bound { ReadsAtMost result buf.new }
        ensures bytes { ReadConsumes (Some self.old.left) (Some self.new.left) result buf.new }
        ensures cause { HasCause self.old.calls.faults self.new.calls.faults result }
        ensures unfailed { OnOk result (self.new.calls.faults ≡ self.old.calls.faults) }

        ensures fails { IsErr result ↔ FailsNext self.old.calls }
        ensures calls { CountsCall self.old.calls self.new.calls result }
        ensures full { IfOk result (λ size. size ≡ min (length self.old.left) (length buf.old)) }
    {
        if self.calls.next_fails() {
            self.calls.fault();
            return Err(Failed);
        }
        self.source.read(buf)
    }
}

// Puts a piece behind the octets, which have room for it. Takes no memory.
fn keep(bytes: &mut Vec<u8>, piece: &[u8])
    requires { vec_len bytes.old + length piece.now ≤ vec_capacity bytes.old }
    ensures items { bytes.new.items ≡ bytes.old.items ++ piece.now }
    ensures capacity { vec_capacity bytes.old ≤ vec_capacity bytes.new }
{
    match bytes.extend_from_slice(piece) {
        Ok(()) => {}
        Err(_) => unreachable!(),
    }
}

/// A sink in memory that keeps what is written, up to its room. A write past it fails, and so do
/// the calls of the numbers that it was made with, from 0.
#[derive(Drop)]
pub struct MemSink {
    bytes: Vec<u8>,
    room: usize,
    calls: FailingCalls,
}

impl Model for MemSink {
    ghost use Rattle.std.specs.Prelude.{◌≤◌, vec_capacity};
    ghost use Rattle.domain_base.specs.Memory.{KeptSink};

    ghost Value = { KeptSink };

    ghost view = { λ s. record { out = s.bytes.items; room = s.room; calls = s.calls } };

    ghost invariant = { λ s. s.room ≤ vec_capacity s.bytes };
}

impl MemSink {
    /// An empty sink with room for so many octets, whose calls of the numbers in `failing` are to
    /// fail.
    pub fn with_room(alloc: Global, room: usize, failing: Vec<u64>) -> Result<Self, NoMemory>
        ensures out { IfOk result (λ s. ⟦<MemSink as Sink>⟧.out s ≡ Some []) }
        ensures faults { IfOk result (λ s. ⟦<MemSink as Sink>⟧.faults s ≡ 0) }
        ensures room { IfOk result (λ s. s.room ≡ room) }
        ensures calls { IfOk result (λ s. s.calls ≡ no_calls failing.items) }
    {
        let Ok(bytes) = Vec::with_capacity(alloc, room) else {
            return Err(NoMemory);
        };
        Ok(MemSink {
            bytes,
            room,
            calls: FailingCalls::new(failing),
        })
    }

    /// What has gone out, in order.
    pub fn written(&self) -> &[u8]
        ensures { ⟦<MemSink as Sink>⟧.out self.now ≡ Some result.now }
    {
        self.bytes.as_slice()
    }
}

impl Sink for MemSink {
    ghost out = { λ s. Some s.out };

    ghost faults = { λ s. s.calls.faults };

    fn write(&mut self, piece: &[u8]) -> Result<usize, Failed>
        ensures bound { WritesAtMost result piece.now }
        ensures bytes { WriteAppends (Some self.old.out) (Some self.new.out) result piece.now }
        ensures cause { HasCause self.old.calls.faults self.new.calls.faults result }
        ensures unfailed { OnOk result (self.new.calls.faults ≡ self.old.calls.faults) }

        ensures fails { IsErr result ↔ (FailsNext self.old.calls ⊎ NoRoom self.old piece.now) }
        ensures calls { CountsCall self.old.calls self.new.calls result }
        ensures full { IfOk result
            (λ size. size ≡ min (length piece.now) (self.old.room - length self.old.out)) }
        ensures room { self.new.room ≡ self.old.room }
    {
        let fails = self.calls.next_fails();
        let free = self.room.saturating_sub(self.bytes.len());
        let count = piece.len().min(free);
        if fails || (count == 0 && !piece.is_empty()) {
            self.calls.fault();
            return Err(Failed);
        }
        let taken = &piece[..count];
        keep(&mut self.bytes, taken);
        Ok(count)
    }
}

/// A sink in memory that never fails. It takes whatever is written and keeps only the first octets,
/// up to its room; since it may drop octets, it tells nothing of what has gone out.
#[derive(Drop)]
pub struct SteadySink {
    bytes: Vec<u8>,
    room: usize,
}

impl Model for SteadySink {
    ghost use Rattle.std.specs.Prelude.{◌≤◌, vec_capacity, vec_len};
    ghost use Rattle.domain_base.specs.Memory.{FirstOctets};

    ghost Value = { FirstOctets };

    ghost view = { λ s. record { kept = s.bytes.items; room = s.room } };

    ghost invariant = { λ s. (vec_len s.bytes ≤ s.room) × (s.room ≤ vec_capacity s.bytes) };
}

impl SteadySink {
    /// An empty sink that will keep so many octets.
    pub fn with_room(alloc: Global, room: usize) -> Result<Self, NoMemory>
        ensures { IfOk result (λ s. s ≡ record { kept = []; room = room }) }
    {
        let Ok(bytes) = Vec::with_capacity(alloc, room) else {
            return Err(NoMemory);
        };
        Ok(SteadySink { bytes, room })
    }

    /// The first octets that have gone out, in order, up to its room.
    pub fn kept(&self) -> &[u8]
        ensures { result.now ≡ self.now.kept }
    {
        self.bytes.as_slice()
    }
}

// Puts the front of the piece behind the octets, as far as there is room. Takes no memory.
fn fill(bytes: &mut Vec<u8>, room: usize, piece: &[u8])
    requires within { vec_len bytes.old ≤ room }
    requires roomy { room ≤ vec_capacity bytes.old }
    ensures items { bytes.new.items ≡ take room (bytes.old.items ++ piece.now) }
    ensures within { vec_len bytes.new ≤ room }
    ensures roomy { room ≤ vec_capacity bytes.new }
{
    let count = piece.len().min(room - bytes.len());
    keep(bytes, &piece[..count]);
}

impl Sink for SteadySink {
    ghost use Rattle.std.specs.Prelude.{None};

    ghost out = { λ _. None };

    ghost faults = { λ _. 0 };

    fn write(&mut self, piece: &[u8]) -> Result<usize, Failed>
        ensures all { result ≡ Ok (length piece.now) }
        ensures kept { self.new
            ≡ record self.old { kept = take self.old.room (self.old.kept ++ piece.now) } }
    {
        fill(&mut self.bytes, self.room, piece);
        Ok(piece.len())
    }
}
