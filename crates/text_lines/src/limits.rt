//! The limits of a text by lines.

/// The limits of a text by lines.
#[derive(Clone, Copy)]
pub struct Limits {
    /// It has at most so many lines.
    pub lines: u64,
    /// Each has at most so many octets, without its line feed.
    pub octets: usize,
}

/// A line is too long.
#[derive(Clone, Copy)]
pub struct TooLong;
