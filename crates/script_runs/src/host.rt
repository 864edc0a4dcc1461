//! What a script is run with.

use std::alloc::Global;

/// What the events of a script are run with.
#[derive(Drop)]
pub struct Host<'a, R, G> {
    /// Starts the threads of a round.
    pub rt: &'a R,
    /// Gives memory.
    pub alloc: Global,
    /// The gate that each access point passes which has events in a round.
    pub gate: &'a G,
}
