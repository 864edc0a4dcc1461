//! What a line says, once it is taken.

use domain_base::{Mac, Octets};
use run_journal::{Event, Extra};

/// What a line says.
#[derive(Drop)]
pub enum Step {
    /// Nothing to be done: a line of the header, or one that is passed over.
    Nothing,
    /// The seed is to be drawn, in a live run alone. It is due until the reader is told of it.
    Draw,
    /// The header is whole with this line.
    Network,
    /// Lists an access point.
    Ap {
        /// Its BSSID.
        address: Mac,
        /// Its R0KH-ID: 1 to 48 octets.
        r0kh_id: Octets,
    },
    /// Lists a station.
    Sta {
        /// Its address.
        address: Mac,
        /// Its pre-shared key.
        psk: [u8; 32],
    },
    /// The header has this line too, which may be left out. No node is listed yet.
    Extra(Extra),
    /// Asks for an event. Outside a round it is one by itself.
    Event(Event),
    /// A round begins. The events behind it are run with its end.
    Round,
    /// The round ends that is open.
    End,
    /// Nodes take the frames of their links, in a live run alone. The reader counts it as one
    /// round.
    Turn,
}
