//! The links of a running domain's nodes: each node's is attached, what the nodes send goes out by
//! them, what comes by them is asked for, and all are given back.
#![tactic(auto)]

mod attaching;
mod breaks;
mod node_order;
mod polling;
mod sending;

pub use attaching::{attach_next, give_back};
pub use breaks::Break;
pub use node_order::node_at;
pub use polling::poll;
pub use sending::{send, send_entries};
