//! Where a node stands.

use domain_base::Node;
use run_journal::Domain;
use std::alloc::Global;

/// Where a node stands: the memory that it may take, the network, and which node it is.
#[derive(Clone, Copy)]
pub struct Here<'a> {
    /// Gives memory.
    pub alloc: Global,
    /// The network.
    pub domain: &'a Domain,
    /// The node.
    pub node: Node,
}
