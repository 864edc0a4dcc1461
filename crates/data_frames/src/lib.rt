//! Protected data at a node (IEEE Std 802.11-2020, 12.5.3): the temporal keys in use, what is sent
//! and what is taken under them, with the memory for the acts; and protected action frames to a group
//! (12.5.4), under the current IGTK of an access point and under those that a station keeps.
#![tactic(auto)]

mod action_rooms;
mod actions;
mod announcing;
mod group;
mod handing_up;
mod key;
mod laws;
mod rooms;

pub use actions::take_action;
pub use announcing::IntegrityKey;
pub use group::KeptKey;
pub use key::DataKey;
pub use laws::{
    actions_add_their_row, data_adds_its_row, group_keys_in_use_stand, integrity_keys_in_use_stand,
    pairwise_keys_stand,
};
