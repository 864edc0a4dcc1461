//! What both kinds of nodes stand on: where a node stands, the nodes of a network by number and by
//! address, the two ends of a pairwise key, what nodes draw and what their keys are made of, what
//! an event is to a node, whether an RSNE is another one, the mobility domain of an MDE, and
//! whether pairwise keys are renewed.
#![tactic(auto)]

mod changing;
mod drawing;
mod elements;
mod ends;
mod event;
mod here;
mod network;
mod pairwise;
mod renewing;
mod suites;

pub use changing::most_changed;
pub use drawing::{DRAW_END, gtk, nonce, pairwise_inputs};
pub use elements::{mde_status, whole_element};
pub use ends::{Ends, direction};
pub use event::NodeEvent;
pub use here::Here;
pub use network::{address, peer_of, psk, r0kh_id};
pub use pairwise::{Pmk, pairwise_key};
pub use renewing::{renews, renews_at};
pub use suites::is_same_rsne;
