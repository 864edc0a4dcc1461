//! What the script of an end has said so far.

ghost use Rattle.std.specs.Prelude.{◌≡◌};
ghost use Rattle.link_lines.specs.Drafts.{no_header};

use domain_base::ShortOctets;

/// Which line is due.
#[derive(Clone, Copy)]
pub enum LinkDue {
    /// The version of the form.
    Version,
    /// The link key.
    Key,
    /// The seed.
    Seed,
    /// The SSID.
    Ssid,
    /// The pre-shared key.
    Psk,
    /// The mobility domain.
    Mdid,
    /// The R0 key holder.
    Holder,
    /// Any that asks for an event: the header is whole.
    Events,
}

/// What a header says. What it has not said yet is zero, or empty.
#[derive(Drop)]
pub struct LinkHeader {
    /// The link key's first half, under which datagrams have their CMACs.
    pub kck: [u8; 16],
    /// Its second half, under which keys are wrapped.
    pub kek: [u8; 16],
    /// The seed of nonces.
    pub seed: [u8; 32],
    /// The SSID, of 1 to 32 octets.
    pub ssid: ShortOctets<32>,
    /// The pre-shared key.
    pub psk: [u8; 32],
    /// The mobility domain.
    pub mdid: [u8; 2],
    /// The R0KH-ID of the end that has a key holder, of 1 to 48 octets.
    pub r0kh_id: ShortOctets<48>,
}

impl LinkHeader {
    /// Nothing was said.
    pub fn new() -> LinkHeader
        ensures { result ≡ no_header }
    {
        LinkHeader {
            kck: [0; 16],
            kek: [0; 16],
            seed: [0; 32],
            ssid: ShortOctets::of(b"".as_slice()),
            psk: [0; 32],
            mdid: [0; 2],
            r0kh_id: ShortOctets::of(b"".as_slice()),
        }
    }
}
