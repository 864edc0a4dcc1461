//! Why a datagram is not taken.

/// Why octets that came are not taken: the first that applies, in this order.
#[derive(Clone, Copy)]
pub enum LinkFault {
    /// They are no datagram that this end takes. The longest front of them that begins one has so
    /// many octets.
    Form(usize),
    /// No question of that nonce is open.
    Unasked,
    /// The CMAC is another.
    Mac,
    /// What is wrapped has no plain text.
    Wrap,
}
