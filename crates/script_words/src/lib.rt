//! The words of a script's lines: how each is spelled, which lines there are, by one table, and
//! what is wrong with a word that is none of what should stand there.
#![tactic(auto)]

mod causes;
mod forms;
mod grammar;
mod kinds;
mod tokens;
mod words;

pub use causes::Cause;
pub use forms::Form;
pub use grammar::{
    Akms, Position, Row, Runs, Stage, Versions, Words, goes_with, in_live, in_replay, in_version,
    line_of, row_of, stands, stands_in, stands_within,
};
pub use kinds::{Kind, before_node, is_needed, kind_at, line_in};
pub use tokens::{
    NodeName, PeerName, behind, first_word, hex_octets, is_between, is_hex, is_octets, is_single,
    is_text, node_name, number_of_digits, packet_number, peer_name, split_word, tid_of,
};
pub use words::{cause_behind, kind_in, slip, words_from};
