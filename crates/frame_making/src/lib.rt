//! The frames that nodes send: those of associations, each as the act of sending it, and the
//! EAPOL-Key frames of the four-way handshake and of the group key handshake, written into replies.
#![tactic(auto)]

mod key_data;
mod keying;
mod sending;
mod writing;

pub use key_data::{
    MOST_M2_DATA, MOST_M3_DATA, Mobility, m2_key_data, m3_key_data, named_rsne, rsne,
};
pub use sending::{assoc_req, assoc_resp, association_fte, refusal};
pub use writing::{write_g1, write_g2, write_m1, write_m2, write_m3, write_m4};
