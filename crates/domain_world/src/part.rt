//! What an event of a round adds to the journal.

use act_memory::Outbox;
use domain_base::Node;

/// The acts of a node that wait for the end of a round.
#[derive(Drop)]
pub struct Part {
    /// The node.
    pub node: Node,
    /// Its acts.
    pub out: Outbox,
}
