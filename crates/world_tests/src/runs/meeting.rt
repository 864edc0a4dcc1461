//! A gate that counts, and at which the access points of a round can wait for each other.

use domain_cli::Gate;
use std::sync::atomic::{AtomicU64, Ordering};

/// A gate at which each of two access points turns until the other has reached it.
#[derive(Drop)]
pub(crate) struct Meeting {
    // how often the first access point passed
    first: AtomicU64,
    // .. and the second one
    second: AtomicU64,
    // 1 where one of them turned in vain
    missed: AtomicU64,
    // the most turns of each
    turns: u64,
}

impl Meeting {
    /// A gate that none has reached, at which each turns so often at most.
    pub(crate) fn new(turns: u64) -> Self {
        Meeting {
            first: AtomicU64::new(0),
            second: AtomicU64::new(0),
            missed: AtomicU64::new(0),
            turns,
        }
    }

    /// How often each passed, and 1 where one of them turned in vain.
    pub(crate) fn passes(&self) -> [u64; 3] {
        [
            self.first.load(Ordering::SeqCst),
            self.second.load(Ordering::SeqCst),
            self.missed.load(Ordering::SeqCst),
        ]
    }
}

impl Gate for Meeting {
    fn pass(&self, ap: u16) {
        let (own, other) = if ap == 0 {
            (&self.first, &self.second)
        } else {
            (&self.second, &self.first)
        };
        own.fetch_add(1, Ordering::SeqCst);
        for _ in 0..self.turns {
            if other.load(Ordering::SeqCst) != 0 {
                return;
            }
        }
        self.missed.store(1, Ordering::SeqCst);
    }
}
