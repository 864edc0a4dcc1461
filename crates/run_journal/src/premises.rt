//! Which of the premises of safety hold of a journal.

/// The three answers.
#[derive(Clone, Copy)]
pub struct Premises {
    /// The values drawn are pairwise different.
    pub fresh: bool,
    /// Equal keys were derived from inputs of one name, and no group key is a pairwise one.
    pub no_collision: bool,
    /// What verified under a key was sealed under it and sent before.
    pub unforged: bool,
}
