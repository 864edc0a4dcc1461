//! What the rows of an access point's key holder have to do with its history.
#![tactic(auto)]

mod laws;

pub use laws::{
    acts_that_leave_rows, answers_are_right, no_rows_at_first, put_is_told, revocation_is_told,
    rows_as_keys_change,
};
