//! The numbers that a storm draws: a linear congruential generator of 64 bits.

ghost use Rattle.std.specs.Prelude.{◌≡◌, ◌<◌, ℕ};
ghost use Rattle.storm.specs.Drawing.{after, drawn, octets};

use std::marker::Model;

// What the state is multiplied by, and what is added to it.
const MULTIPLIER: u64 = 6_364_136_223_846_793_005;

const INCREMENT: u64 = 1_442_695_040_888_963_407;

// The state after one more number is drawn.
#[tactic(auto, using(crate::proofs::Octets::wrapped), unfolding(crate::specs::Drawing::after))]
fn after(state: u64) -> u64
    ensures { result ≡ after state }
{
    state.wrapping_mul(MULTIPLIER).wrapping_add(INCREMENT)
}

/// The state of the generator. Contracts see its number.
#[derive(Clone, Copy)]
pub(crate) struct Generator {
    state: u64,
}

impl Model for Generator {
    ghost use Rattle.std.specs.Prelude.{ℕ};

    ghost Value = { ℕ };

    ghost view = { λ g. g.state };

    ghost inverse = { λ n. record { state = n } };
}

impl Generator {
    /// The generator of a storm before it draws.
    pub(crate) fn new(number: u32) -> Self
        ensures { result ≡ number }
    {
        Generator {
            state: u64::from(number),
        }
    }

    /// The next number, out of those below `count`.
    #[tactic(auto, unfolding(crate::specs::Drawing::drawn))]
    pub(crate) fn next(&mut self, count: u64) -> u64
        requires { 0 < count }
        ensures value { result ≡ drawn count self.old }
        ensures within { result < count }
        ensures state { self.new ≡ after self.old }
    {
        self.state = after(self.state);
        (self.state >> 33) % count
    }

    /// The place of a node, where so many are listed.
    pub(crate) fn place(&mut self, count: u16) -> u16
        requires { 0 < count }
        ensures value { result ≡ drawn count self.old }
        ensures within { result < count }
        ensures state { self.new ≡ after self.old }
    {
        self.next(u64::from(count)) as u16
    }

    // The next octet.
    fn octet(&mut self) -> u8
        ensures value { result ≡ drawn 256 self.old }
        ensures state { self.new ≡ after self.old }
    {
        self.next(256) as u8
    }

    /// The next octets, one after the other.
    #[tactic(auto, using(crate::proofs::Octets::filling))]
    pub(crate) fn octets(&mut self) -> [u8; 32]
        ensures value { result ≡ (octets 32 self.old).0 }
        ensures state { self.new ≡ (octets 32 self.old).1 }
    {
        let mut out = [0; 32];
        for place in 0..32 {
            out[place] = self.octet();
        }
        out
    }
}
