//! Where a given journal first is not as it has to be: definitions, and laws of them.
#![tactic(auto)]

mod cause;
mod laws;

pub use cause::Cause;
pub use laws::{
    events_in_form_happen, failed_files_are_not_sound, first_place_is_one, met_files_are_sound,
    rounds_end_at_the_first, rounds_go_on, starts_end_at_the_first,
};
