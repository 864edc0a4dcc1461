//! Runs the lines of scripts and the events of storms in their worlds.
#![tactic(auto)]

mod feeder;
mod host;
mod laws;
mod linking;
mod reading;
mod session;
mod state;
mod stops;
mod storming;
mod transcript;
mod turning;

pub use domain_world::{Gate, Unbarred};
pub use host::Host;
pub use laws::one_fault;
pub use reading::{Ending, live, replay};
pub use session::{Session, SessionFault};
pub use stops::{Found, Stop};
pub use storming::run_storm;
pub use transcript::Transcript;
