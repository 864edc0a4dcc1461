//! What all crates of the domain share: addresses, nodes, suites, octet fields, and the outside as
//! traits, each with a count of faults.
#![tactic(auto)]

mod memory;
mod memory_air;
mod memory_faults;
mod names;
mod octets;
mod outside;
mod radio;
mod short_octets;

pub use memory::{MemSink, MemSource, SteadySink, SteadySource};
pub use memory_air::{Incoming, SteadyAir, SteadyDraws, SteadyLink};
pub use memory_faults::{LinkPlan, MemAir, MemDraws, MemLink};
pub use names::{Akm, Mac, Node, Octets, Peer, Tid};
pub use octets::{array_at, big_u16_at, little_u16_at, put};
pub use outside::{Failed, LinkError, NoMemory, Sink, Source, write_all};
pub use radio::{Air, Draws, Link, SentFrame};
pub use short_octets::ShortOctets;
