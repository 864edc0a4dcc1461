//! The packet numbers that a sender uses (IEEE Std 802.11-2020, 12.5.3.3.2).

ghost use Rattle.std.specs.Prelude.{◌≡◌, ◌≤◌, ◌<◌, suc, MatchResult};
ghost use Rattle.replay_window.specs.Numbers.{last_number};

use std::marker::Model;

// The last packet number: they have 48 bits.
pub const LAST_NUMBER: u64 = (1 << 48) - 1;

/// Every packet number of the key was used.
#[derive(Clone, Copy, PartialEq, Eq)]
pub struct Spent;

/// The packet numbers of a key that were used, from 1 up to the last one used. Contracts see that
/// number, 0 before the first.
#[derive(Drop)]
pub struct SendCounter(u64);

impl Model for SendCounter {
    ghost use Rattle.std.specs.Prelude.{ℕ, ◌≤◌};
    ghost use Rattle.replay_window.specs.Numbers.{last_number};

    ghost Value = { ℕ };

    ghost view = { λ s. s.0 };

    ghost invariant = { λ s. s.0 ≤ last_number };
}

impl SendCounter {
    /// The counter after that number was used, which is at most 2^48 - 1; 0 where none was.
    pub fn after(used: u64) -> Self
        requires { used ≤ last_number }
        ensures { result ≡ used }
    {
        SendCounter(used)
    }

    /// The number used last, 0 where none was.
    pub fn used(&self) -> u64
        ensures value { result ≡ self.now }
        ensures range { result ≤ last_number }
    {
        self.0
    }

    /// Uses the next number. `Spent` comes exactly where 2^48 - 1 was used, and then nothing is
    /// changed.
    pub fn next(&mut self) -> Result<u64, Spent>
        ensures number { MatchResult result (λ n. n ≡ suc self.old) (λ _. self.old ≡ last_number) }
        ensures used { MatchResult result (λ n. self.new ≡ n) (λ _. self.new ≡ self.old) }
        ensures range { MatchResult result (λ n. n ≤ last_number) (λ _. last_number ≤ self.old) }
    {
        if self.0 == LAST_NUMBER {
            return Err(Spent);
        }
        self.0 += 1;
        Ok(self.0)
    }
}
