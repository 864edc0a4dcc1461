//! A station's and an access point's part of a fast transition over the air (IEEE Std 802.11-2020,
//! 13.5.2, 13.7.1 and 13.8).
#![tactic(auto)]

mod elements;
mod expected;
mod fields;
mod frames;
mod group;
mod looking;
mod mic;
mod originator;
mod place;
mod request;
mod target;

pub use originator::Originator;
pub use target::Target;
