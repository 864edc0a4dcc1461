//! Air frames of the profile: reading, writing, and how they are sent.
#![tactic(auto)]

mod control;
mod faults;
mod frame;
mod laws;
mod reading;
mod sending;
mod writing;

pub use control::is_action;
pub use faults::EAPOL_LLC;
pub use frame::{
    Action, AirFault, AirFrame, AssocReq, AssocResp, Data, Direction, FtAuthentication, Header,
    ReassocReq,
};
pub use laws::{
    a_frame_has_one_spelling, one_frame_or_one_fault, sent_data_is_spelled,
    sent_management_is_spelled,
};
pub use reading::{FT_ALGORITHM, read};
pub use sending::{
    CAPABILITY, LISTEN_INTERVAL, Subtype, data_header, management_header, write_assoc_req,
    write_assoc_resp, write_eapol_data, write_ft_req, write_ft_resp, write_re_req, write_re_resp,
};
pub use writing::write;
