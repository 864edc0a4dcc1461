//! A seal in memory of its own, so that acts are small.

ghost use Rattle.std.specs.Prelude.{◌≡◌, IfOk};

use crate::acts::Seal;
use domain_base::{NoMemory, Octets};
use std::alloc::Global;
use std::marker::Model;

/// A seal in memory of its own. Contracts see the seal.
#[derive(Drop)]
pub struct BoxedSeal(Box<Seal>);

impl Model for BoxedSeal {
    ghost use Rattle.run_journal.specs.declared.acts.Seal.{Seal};

    ghost Value = { Seal };

    ghost view = { λ b. b.0.value };
}

impl BoxedSeal {
    /// That seal.
    pub fn new(alloc: Global, seal: Seal) -> Result<Self, NoMemory>
        ensures { IfOk result (λ b. b ≡ seal) }
    {
        let seal = Box::new(alloc, seal)?;
        Ok(BoxedSeal(seal))
    }

    /// The memory for a seal, with one of no octets in it.
    pub fn room(alloc: Global) -> Result<Self, NoMemory> {
        let octets = Octets(Vec::new(alloc));
        BoxedSeal::new(
            alloc,
            Seal {
                octets,
                key: [0; 16],
            },
        )
    }

    /// That seal, in the memory of this one. Takes no memory.
    pub fn filled(self, seal: Seal) -> Self
        ensures { result ≡ seal }
    {
        let BoxedSeal(mut room) = self;
        *room = seal;
        BoxedSeal(room)
    }

    /// The seal.
    pub fn seal(&self) -> &Seal
        ensures { result.now ≡ self.now }
    {
        self.0.as_ref()
    }
}
