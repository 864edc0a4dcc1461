//! EAPOL-Key frames (IEEE Std 802.11-2020, 12.7.2): reading them, telling the six messages apart,
//! writing them, their MIC, and the wrap of their key data.
#![tactic(auto)]

mod frame;
mod laws;
mod layout;
mod messages;
mod reading;
mod sealing;
mod wrapping;
mod writing;

pub use frame::{FaultKind, FrameFault, KeyFrame};
pub use key_wrap::BadWrap;
pub use laws::{
    frame_or_fault, front_decides, mic_alone_changes, one_frame, one_message, read_as_written,
    sealed_octets, sealed_verifies, sent_is_message, spelled_as_written,
};
pub use layout::{KEY_DATA_AT, KEY_DATA_LEN_AT, MIC_AT, MIC_LEN};
pub use messages::{Message, classify};
pub use reading::read;
pub use sealing::{seal, verify};
pub use wrapping::{close_key_data, open_key_data};
pub use writing::write;
