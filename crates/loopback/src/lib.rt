//! The outside of a running domain: the air over UDP sockets of this machine, and seeds from its
//! random source.
#![tactic(auto)]

mod random;
mod udp;

pub use random::{MachineRandom, OsDraws};
pub use udp::{SocketFault, UdpAir, UdpLink};
