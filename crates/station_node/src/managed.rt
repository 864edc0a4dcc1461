//! A management frame that came to a station.

use frame_intake::Management;
use rsn_elements::Elements;

/// A management frame that came, the octets that it came in, and what its elements say.
#[derive(Clone, Copy)]
pub struct Managed<'a> {
    /// The octets that came.
    pub octets: &'a [u8],
    /// The frame in them.
    pub frame: Management<'a>,
    /// What its elements say.
    pub elements: Elements<'a>,
}
