//! The one form of all elements: an id, a length and a body.

ghost use Rattle.std.specs.Prelude.{◌≡◌, ◌≢◌, ◌≤◌, ◌+◌, ◌++◌, [], length, MatchOption};
ghost use Rattle.rsn_elements.specs.Framing.{element_octets, IsTruncated};
ghost use Rattle.rsn_elements.specs.Fields.{element_of};
ghost use Rattle.rsn_elements.specs.Steps.{IsNext};

/// Where elements stand.
#[derive(Clone, Copy, PartialEq, Eq)]
pub enum Within {
    /// In the body of a management frame, behind its fixed part.
    Body,
    /// In the key data of an EAPOL-Key frame, where `dd` begins a KDE, or padding.
    KeyData,
}

/// The id of vendor-specific elements, of KDEs, and of padding.
pub(crate) const VENDOR: u8 = 0xdd;

/// An element as it stands in the octets read.
#[derive(Clone, Copy)]
pub(crate) struct Found<'a> {
    /// Its id.
    pub id: u8,
    /// Its body.
    pub body: &'a [u8],
    /// Its octets from the id on.
    pub whole: &'a [u8],
}

/// What stands at the front.
#[derive(Clone, Copy)]
pub(crate) enum Next<'a> {
    /// Nothing more is read.
    End,
    /// No whole element.
    Truncated,
    /// An element, and the octets behind it.
    Whole(Found<'a>, &'a [u8]),
}

// The element at the front, and the octets behind it; none where it is not whole.
fn whole_element(octets: &[u8]) -> Option<(Found<'_>, &[u8])>
    ensures { MatchOption result (octets.now ≢ [] → IsTruncated octets.now)
        (λ r. (octets.now ≡ element_octets (element_of r.0) ++ r.1.now)
        × (r.0.whole.now ≡ element_octets (element_of r.0))) }
{
    let [id, size, tail @ ..] = octets else {
        return None;
    };
    let size = usize::from(*size);
    if tail.len() < size {
        return None;
    }
    let (body, rest) = tail.split_at(size);
    let (whole, _) = octets.split_at(2 + size);
    let id = *id;
    Some((Found { id, body, whole }, rest))
}

/// What stands at the front of the octets.
pub(crate) fn next_element(octets: &[u8], within: Within) -> Next<'_>
    ensures { IsNext within octets.now result }
{
    match octets {
        [] => Next::End,
        [VENDOR] | [VENDOR, 0, ..] if within == Within::KeyData => Next::End,
        _ => match whole_element(octets) {
            Some((element, rest)) => Next::Whole(element, rest),
            None => Next::Truncated,
        },
    }
}
