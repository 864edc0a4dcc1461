//! Delivered frames as values, read, and judged as far as no history is needed.
#![tactic(auto)]

mod delivered;
mod judging;
mod reading;

pub use delivered::{Delivered, Heard, KeyMessage, Management, SealedData};
pub use judging::{Judged, judge};
pub use reading::read;
