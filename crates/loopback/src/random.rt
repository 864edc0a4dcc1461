//! Seeds from the machine's random source.

ghost use Rattle.std.specs.Prelude.{◌≡◌, None};

use domain_base::{Draws, Failed};
use rand_core::{TryCryptoRng, TryRng};
use std::io;
use std::random::RandomSource;

/// The machine's random source as a generator that may fail.
#[derive(Drop)]
pub struct MachineRandom<R: RandomSource + Drop> {
    source: R,
}

impl<R: RandomSource + Drop> MachineRandom<R> {
    /// Over that source, as `&rt`.
    pub fn new(source: R) -> Self {
        MachineRandom { source }
    }
}

impl<R: RandomSource + Drop> TryRng for MachineRandom<R> {
    type Error = io::Error;

    fn try_next_u32(&mut self) -> io::Result<u32> {
        let mut octets = [0; 4];
        self.source.fill_bytes(&mut octets)?;
        Ok(u32::from_le_bytes(octets))
    }

    fn try_next_u64(&mut self) -> io::Result<u64> {
        let mut octets = [0; 8];
        self.source.fill_bytes(&mut octets)?;
        Ok(u64::from_le_bytes(octets))
    }

    fn try_fill_bytes(&mut self, dst: &mut [u8]) -> io::Result<()> {
        self.source.fill_bytes(dst)
    }
}

impl<R: RandomSource + Drop> TryCryptoRng for MachineRandom<R> {}

/// Draws from a generator. They keep the seed given last.
#[derive(Drop)]
pub struct OsDraws<G: TryCryptoRng + Drop> {
    generator: G,
    last: Option<[u8; 32]>,
    faults: u64,
}

impl<G: TryCryptoRng + Drop> OsDraws<G> {
    /// Draws from that generator, which have given none.
    pub fn new(generator: G) -> Self
        ensures last { ⟦<OsDraws<G> as Draws>⟧.last result ≡ None }
        ensures faults { ⟦<OsDraws<G> as Draws>⟧.faults result ≡ 0 }
    {
        OsDraws {
            generator,
            last: None,
            faults: 0,
        }
    }
}

impl<G: TryCryptoRng + Drop> Draws for OsDraws<G> {
    ghost last = { λ d. d.last };

    ghost faults = { λ d. d.faults };

    fn seed(&mut self) -> Result<[u8; 32], Failed> {
        let mut seed = [0; 32];
        match self.generator.try_fill_bytes(&mut seed) {
            Ok(()) => {
                self.last = Some(seed);
                Ok(seed)
            }
            Err(_) => {
                self.faults = self.faults.saturating_add(1);
                Err(Failed)
            }
        }
    }
}
