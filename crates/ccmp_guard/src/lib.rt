//! CCMP (IEEE Std 802.11-2020, 12.5.3): the bodies of protected data frames, sealed and opened with
//! CCM (RFC 3610), and the guard of a temporal key, which uses each packet number once and takes
//! none twice.
#![tactic(auto)]

pub mod ccm;
mod ccmp;
mod guard;
mod laws;

pub use ccmp::{
    Seal, key_id_in, open_body, packet_number, seal_body, sealed_front, traffic_identifier,
};
pub use guard::{Guard, GuardFault, Role};
pub use laws::{a_body_has_one_plain_text, a_plain_text_has_one_body};
