//! A sink for a report that is not asked for.

use domain_base::{Failed, Sink};

/// A sink that takes all octets, and keeps none.
#[derive(Drop)]
pub struct Unheard;

impl Sink for Unheard {
    ghost use Rattle.std.specs.Prelude.{◌≡◌, None, Ok, length};

    ghost out = { λ _. None };

    ghost faults = { λ _. 0 };

    fn write(&mut self, piece: &[u8]) -> Result<usize, Failed>
        ensures all { result ≡ Ok (length piece.now) }
    {
        Ok(piece.len())
    }
}
