//! What a pairwise transient key is made of, in memory of its own, which several may share.

ghost use Rattle.std.specs.Prelude.{◌≡◌, IfOk, IfSome, IsTrue};

use crate::inputs::Inputs;
use domain_base::NoMemory;
use std::alloc::Global;
use std::marker::Model;
use std::sync::Arc;

/// Inputs in memory of their own. Contracts see the inputs.
#[derive(Drop)]
pub struct BoxedInputs(Box<Inputs>);

impl Model for BoxedInputs {
    ghost use Rattle.key_hierarchy.specs.declared.inputs.Inputs.{Inputs};

    ghost Value = { Inputs };

    ghost view = { λ b. b.0.value };
}

impl BoxedInputs {
    /// These inputs.
    pub fn new(alloc: Global, inputs: Inputs) -> Result<Self, NoMemory>
        ensures { IfOk result (λ b. b ≡ inputs) }
    {
        let inputs = Box::new(alloc, inputs)?;
        Ok(BoxedInputs(inputs))
    }

    /// The same but for these nonces. Takes no memory.
    pub fn with_nonces(self, anonce: &[u8; 32], snonce: &[u8; 32]) -> Self
        ensures { result ≡ record self { anonce = anonce.now; snonce = snonce.now } }
    {
        let BoxedInputs(mut inputs) = self;
        inputs.anonce = *anonce;
        inputs.snonce = *snonce;
        BoxedInputs(inputs)
    }

    /// The inputs.
    pub fn inputs(&self) -> &Inputs
        ensures { result.now ≡ self.now }
    {
        self.0.as_ref()
    }
}

// Where inputs stand.
#[derive(Drop)]
enum Place {
    // In memory that nothing else leads to.
    Own(BoxedInputs),
    // In memory that others may lead to.
    Common(Arc<BoxedInputs>),
}

/// Inputs in memory that others with the same inputs may share. Contracts see the inputs.
#[derive(Drop)]
pub struct SharedInputs {
    place: Place,
}

impl Model for SharedInputs {
    ghost use Rattle.key_hierarchy.specs.declared.inputs.Inputs.{Inputs};
    ghost use Rattle.key_hierarchy.specs.Shared.{inputs_at};

    ghost Value = { Inputs };

    ghost view = { λ s. inputs_at s.place };
}

impl SharedInputs {
    /// These inputs, which are not shared yet. Takes no memory.
    pub fn of(inputs: BoxedInputs) -> Self
        ensures { result ≡ inputs }
    {
        SharedInputs {
            place: Place::Own(inputs),
        }
    }

    /// The inputs.
    pub fn inputs(&self) -> &Inputs
        ensures { result.now ≡ self.now }
    {
        match &self.place {
            Place::Own(inputs) => inputs.inputs(),
            Place::Common(inputs) => inputs.inputs(),
        }
    }
}

// All fields are equal.
fn are_same(i: &Inputs, m: &Inputs) -> bool
    ensures { IsTrue result → i.now ≡ m.now }
{
    i.anonce == m.anonce
        && i.snonce == m.snonce
        && i.aa == m.aa
        && i.spa == m.spa
        && i.psk == m.psk
        && i.akm == m.akm
        && i.mdid == m.mdid
        && i.ssid.as_slice() == m.ssid.as_slice()
        && i.r0kh_id.as_slice() == m.r0kh_id.as_slice()
}

/// The inputs that were shared last.
#[derive(Drop)]
pub struct LastInputs {
    last: Option<Arc<BoxedInputs>>,
}

impl LastInputs {
    /// None yet. Takes no memory.
    pub fn none() -> Self {
        LastInputs { last: None }
    }

    // The last inputs, where they are these.
    fn found(&self, inputs: &Inputs) -> Option<SharedInputs>
        ensures { IfSome result (λ s. s ≡ inputs.now) }
    {
        let last = self.last.as_ref()?;
        if !are_same(last.inputs(), inputs) {
            return None;
        }
        match Arc::try_clone(last) {
            Ok(same) => Some(SharedInputs {
                place: Place::Common(same),
            }),
            Err(_) => None,
        }
    }

    // These inputs, for others to share from now on where there is memory for that.
    fn offered(&mut self, alloc: Global, inputs: BoxedInputs) -> SharedInputs
        ensures { result ≡ inputs }
    {
        match Arc::new(alloc, inputs) {
            Ok(common) => {
                self.last = Arc::try_clone(&common).ok();
                SharedInputs {
                    place: Place::Common(common),
                }
            }
            Err(refused) => SharedInputs::of(refused.value),
        }
    }

    /// The same inputs, shared with the last ones where those are the same. No memory is wanted:
    /// where there is none, they are not shared.
    pub fn share(&mut self, alloc: Global, inputs: SharedInputs) -> SharedInputs
        ensures { result ≡ inputs }
    {
        if let Some(found) = self.found(inputs.inputs()) {
            return found;
        }
        match inputs.place {
            Place::Own(inputs) => self.offered(alloc, inputs),
            Place::Common(inputs) => SharedInputs {
                place: Place::Common(inputs),
            },
        }
    }
}
