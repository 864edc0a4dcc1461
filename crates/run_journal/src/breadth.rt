//! How many chains lead through a journal.

ghost use Rattle.std.specs.Prelude.{◌≡◌, ◌<◌, ◌%◌};
ghost use Rattle.run_journal.specs.Chained.{count_of};

/// How many chains there are. There are more as a journal grows, so that each stays short. Each
/// number is a prime, so that every bit of a mix tells.
#[derive(Clone, Copy)]
pub(crate) enum Breadth {
    /// 4,093: at first.
    Least,
    /// 32,749: from 32,744 entries on.
    Lesser,
    /// 262,139: from 261,992 entries on.
    Middle,
    /// 2,097,143: from 2,097,112 entries on.
    Greater,
    /// 16,777,213: from 16,777,144 entries on.
    Greatest,
}

impl Breadth {
    /// Their number.
    pub(crate) fn count(self) -> usize
        ensures { result ≡ count_of self }
    {
        match self {
            Breadth::Least => 4_093,
            Breadth::Lesser => 32_749,
            Breadth::Middle => 262_139,
            Breadth::Greater => 2_097_143,
            Breadth::Greatest => 16_777_213,
        }
    }

    /// The chain that a mix names.
    pub(crate) fn chain(self, mix: u32) -> usize
        ensures chain { result ≡ mix % count_of self }
        ensures within { result < count_of self }
    {
        let mix = mix as usize;
        match self {
            Breadth::Least => mix % 4_093,
            Breadth::Lesser => mix % 32_749,
            Breadth::Middle => mix % 262_139,
            Breadth::Greater => mix % 2_097_143,
            Breadth::Greatest => mix % 16_777_213,
        }
    }

    /// The next one, where there are eight entries and more for each chain.
    pub(crate) fn wider(self, entries: usize) -> Option<Breadth> {
        if entries / 8 < self.count() {
            return None;
        }
        match self {
            Breadth::Least => Some(Breadth::Lesser),
            Breadth::Lesser => Some(Breadth::Middle),
            Breadth::Middle => Some(Breadth::Greater),
            Breadth::Greater => Some(Breadth::Greatest),
            Breadth::Greatest => None,
        }
    }
}
