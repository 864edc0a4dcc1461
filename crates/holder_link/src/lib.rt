//! The transfer of keys between two processes: one has key holders, the other asks them.
#![tactic(auto)]

mod asker;
mod datagrams;
mod ends;
mod fields;
mod laws;
mod link_world;
mod open_questions;
mod reading;
mod server;
mod step_room;
mod wrapping;
mod writing;

pub use asker::{Asker, Full, Taken};
pub use datagrams::Datagram;
pub use ends::{Acted, Ends, LONGEST};
pub use fields::{Answer, Ask, Said};
pub use laws::{
    answers_are_right, answers_are_taken_in_one_way, answers_can_be_learnt,
    asks_are_answered_in_one_way,
};
pub use link_world::LinkWorld;
pub use open_questions::{OPEN, OpenQuestion};
pub use reading::{read_answer, read_ask};
pub use server::{Server, Told};
pub use writing::{write_answer, write_ask};
