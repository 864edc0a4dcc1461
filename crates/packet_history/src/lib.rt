//! What one node installed, used and handed up, and the parts of safety by it.
#![tactic(auto)]

mod laws;
mod packets;
mod reading;
mod records;
mod sources;

pub use laws::{one_node_tells, other_nodes_tell};
pub use packets::{Packet, Packets};
pub use records::NodePackets;
pub use sources::{is_joined, is_sourced};
