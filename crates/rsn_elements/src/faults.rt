//! Why octets are no elements.

ghost use Rattle.std.specs.Prelude.{◌≡◌};
ghost use Rattle.rsn_elements.specs.Codes.{code_of};

/// What is wrong with an element.
#[derive(Clone, Copy, PartialEq, Eq)]
pub enum FaultKind {
    /// An id without a length, or a body past the end.
    Truncated,
    /// A body that no whole number of fields spells.
    Length,
    /// An RSNE of another version than 1.
    Version,
    /// A second element or subelement of a kind that stands at most once.
    Repeated,
    /// A subelement past the end of its FTE, or of a wrong length.
    SubelementLength,
}

impl FaultKind {
    /// Its number in reports, from 1 to 5.
    pub fn code(self) -> u8
        ensures { result ≡ code_of self }
    {
        match self {
            FaultKind::Truncated => 1,
            FaultKind::Length => 2,
            FaultKind::Version => 3,
            FaultKind::Repeated => 4,
            FaultKind::SubelementLength => 5,
        }
    }
}

/// The first fault in reading order.
#[derive(Clone, Copy, PartialEq, Eq)]
pub struct ElementFault {
    /// Where the id of the element or subelement at fault stands, counted in octets from 0.
    pub place: usize,
    /// What is wrong with it.
    pub kind: FaultKind,
}
