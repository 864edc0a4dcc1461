//! Why a call did nothing.

use domain_base::NoMemory;

/// Why a call did nothing: all is as it was.
#[derive(Clone, Copy, Debug, PartialEq, Eq)]
pub enum Untaken {
    /// An argument is not one that the call takes.
    Unfit,
    /// There is no room for one more node.
    Full,
    /// Out of memory.
    NoMemory,
}

impl From<NoMemory> for Untaken {
    fn from(_: NoMemory) -> Self {
        Untaken::NoMemory
    }
}
