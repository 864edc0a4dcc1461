//! Why a line of the script of an end is refused.

/// Why a script goes no further at a line, whatever memory there is.
#[derive(Clone, Copy)]
pub enum LinkRefusal {
    /// The first line is not `link 1`.
    Version,
    /// No such word in this place.
    Word,
    /// The number or form of the arguments.
    Arguments,
    /// A question that was not asked.
    Question,
    /// More rows than a key holder keeps.
    ManyRows,
    /// More lines than a script may have. The reader of a line does not count them.
    ManyLines,
    /// More octets than a line may have. The reader of a line does not count them.
    LongLine,
}
