//! What the nodes of a domain do, as definitions over their histories.
#![tactic(auto)]

mod laws;

pub use laws::{
    exchange_is_explained, handshake_is_explained, keys_are_present, looks_are_right, old_keys_end,
    one_group, one_journal, one_reading, refusals_move_no_counter, renewal_is_explained,
    seals_are_verified,
};
