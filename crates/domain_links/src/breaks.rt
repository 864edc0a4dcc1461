//! Why frames did not all go out.

use domain_base::LinkError;

/// Why a node's frames did not all go out by its link, or nodes did not take all that their links
/// had for them.
#[derive(Clone, Copy)]
pub enum Break {
    /// A call of a link failed, or memory ran out.
    ByLink(LinkError),
    /// The lines of a round could not be written, before which none of its frames is sent.
    ByWrite,
}
