//! Why a journal is not as it has to be.

ghost use Rattle.std.specs.Prelude.{◌≡◌};
ghost use Rattle.audit_rules.specs.Causes.{cause_number};

/// The causes, the least first.
#[derive(Clone, Copy, PartialEq, Eq)]
pub enum Cause {
    /// Another entry stands there than the one that is due.
    Other,
    /// The entries told of the round end before those that are due.
    Missing,
    /// More entries are told of the round than are due.
    Surplus,
    /// A look is not answered rightly.
    Held,
    /// A key is installed that the node installed before.
    Installed,
    /// A packet number is used that the node used under that key before.
    Used,
    /// A final message is accepted, and the peer did not derive from its inputs before.
    Joined,
    /// A packet number is handed up once more, or what the peer did not use so before.
    HandedUp,
}

impl Cause {
    /// Its number, from 1.
    pub fn number(self) -> u8
        ensures { result ≡ cause_number self }
    {
        match self {
            Cause::Other => 1,
            Cause::Missing => 2,
            Cause::Surplus => 3,
            Cause::Held => 4,
            Cause::Installed => 5,
            Cause::Used => 6,
            Cause::Joined => 7,
            Cause::HandedUp => 8,
        }
    }
}
