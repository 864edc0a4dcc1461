//! What happens at the two ends of a transfer of keys between two processes.
#![tactic(auto)]

mod boxed;
mod ends;
mod faults;
mod questions;
mod steps;

pub use boxed::BoxedStep;
pub use ends::LinkEnd;
pub use faults::LinkFault;
pub use questions::{Forgetting, Question};
pub use steps::{LinkAnswer, LinkEvent, Step};
