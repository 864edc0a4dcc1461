//! What came of a request of a station.

use run_journal::{Keyed, Outcome};

/// What came of a request of a station.
#[derive(Clone, Copy)]
pub struct Taken {
    /// Whether it was accepted, answered once more or refused.
    pub outcome: Outcome,
    /// The key that was derived by an authentication request, and installed by a reassociation
    /// request, where one was.
    pub key: Option<Keyed>,
}
