//! The two ends of a link.

ghost use Rattle.std.specs.Prelude.{◌≡◌};
ghost use Rattle.link_steps.specs.Ends.{node_of, other_end};

use domain_base::Node;

/// An end of a link between two processes.
#[derive(Clone, Copy)]
pub enum LinkEnd {
    /// The one that has a key holder.
    Holder,
    /// The one that asks it.
    Asker,
}

impl LinkEnd {
    /// The other one.
    pub fn other(self) -> LinkEnd
        ensures { result ≡ other_end self }
    {
        match self {
            LinkEnd::Holder => LinkEnd::Asker,
            LinkEnd::Asker => LinkEnd::Holder,
        }
    }

    /// The node whose link is its own: the holder is the first access point, the asker the second.
    pub fn node(self) -> Node
        ensures { result ≡ node_of self }
    {
        match self {
            LinkEnd::Holder => Node::Ap(0),
            LinkEnd::Asker => Node::Ap(1),
        }
    }
}
