//! How a call ended.

ghost use Rattle.std.specs.Prelude.{◌≡◌, MatchResult};
ghost use Rattle.kehtrop_c.specs.Crossing.{status_of, status_untaken};

use embedded_node::Untaken;
use run_journal::Outcome;

/// Done; of a frame: accepted, answered again, or passed over.
pub const OK: u8 = 0;

/// The handle has no node.
pub const NO_NODE: u8 = 1;

/// An argument is not one that the call takes; nothing was done.
pub const UNFIT: u8 = 2;

/// Out of memory; nothing was done.
pub const NO_MEMORY: u8 = 3;

/// The most access points or stations are listed; nothing was done.
pub const FULL: u8 = 4;

/// The frame was refused, and the node is as before; the reason is told.
pub const REFUSED: u8 = 5;

/// The event did nothing; why is told.
pub const IDLE: u8 = 6;

/// Nothing more is to be told.
pub const NOTHING: u8 = 7;

/// The status of a call that did nothing.
pub fn status_untaken(why: Untaken) -> u8
    ensures { result ≡ status_untaken why }
{
    match why {
        Untaken::Unfit => UNFIT,
        Untaken::Full => FULL,
        Untaken::NoMemory => NO_MEMORY,
    }
}

/// The status of a listing.
pub fn status_listed(came: Result<(), Untaken>) -> u8
    ensures { MatchResult came (λ _. result ≡ OK) (λ why. result ≡ status_untaken why) }
{
    match came {
        Ok(()) => OK,
        Err(why) => status_untaken(why),
    }
}

// The status of an event that was done, by what came of it.
fn status_done(outcome: Outcome) -> u8
    ensures { result ≡ status_of outcome }
{
    match outcome {
        Outcome::Refused(_) => REFUSED,
        Outcome::Idle(_) => IDLE,
        Outcome::Accepted | Outcome::Answered | Outcome::Ignored => OK,
        Outcome::Done | Outcome::GaveUp(_) => OK,
    }
}

/// The status of an event.
pub fn status_of(came: Result<Outcome, Untaken>) -> u8
    ensures { MatchResult came (λ outcome. result ≡ status_of outcome)
        (λ why. result ≡ status_untaken why) }
{
    match came {
        Ok(outcome) => status_done(outcome),
        Err(why) => status_untaken(why),
    }
}
