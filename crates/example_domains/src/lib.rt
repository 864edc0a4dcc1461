//! Examples of whole networks that inhabit the definitions of what nodes do.
#![tactic(auto)]

mod laws;

pub use laws::{
    association_anew_is_explained, association_is_explained, changed_key_is_explained,
    either_answer_is_right, renewed_key_is_used, return_is_explained, revocation_is_explained,
    roaming_is_explained, second_change_is_explained, service_is_explained,
};
