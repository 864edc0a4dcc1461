//! Keys by their inputs: the pre-shared key of a passphrase, the pairwise transient key of an
//! association, the FT key hierarchy, and what the holders of its keys answer.
#![tactic(auto)]

mod answers;
mod derivation;
mod fast_transition;
mod inputs;
mod last_derived;
mod pairwise;
mod shared_inputs;

pub use answers::{PullAnswer, PutAnswer, RevokeAnswer};
pub use derivation::{psk_of, ptk_of};
pub use fast_transition::{PmkR0, PmkR1, ptk_from_r1, ptk_name, r1_name};
pub use inputs::{Inputs, Ptk};
pub use last_derived::{LastDerived, NamedR0};
pub use pairwise::pairwise_ptk;
pub use shared_inputs::{BoxedInputs, LastInputs, SharedInputs};
