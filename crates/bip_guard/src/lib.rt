//! BIP-CMAC-128 (IEEE Std 802.11-2020, 12.5.4): the bodies of group-addressed robust management
//! frames with their Management MIC element, sealed and opened, and the guard of an integrity group
//! temporal key (IGTK), which uses each packet number once and takes none twice.
#![tactic(auto)]

mod frame;
mod guard;
mod laws;

pub use frame::{Seal, aad_of, ipn_in, key_id_in, mme_front, open_frame, seal_frame};
pub use guard::{BipFault, BipGuard};
pub use laws::a_body_has_one_content;
