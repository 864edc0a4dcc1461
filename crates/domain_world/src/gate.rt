//! What the worker of an access point passes before its first event of a round.

/// A gate of a round, which each worker that has events passes once. No contract rests on it.
pub trait Gate {
    /// Lets the worker of the access point of that number on.
    fn pass(&self, ap: u16);
}

/// A gate that lets every worker on at once.
pub struct Unbarred;

impl Gate for Unbarred {
    fn pass(&self, ap: u16) {
        let _ = ap;
    }
}
