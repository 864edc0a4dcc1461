//! What is ready before an EAPOL-Key message is taken.

use act_memory::{Between, Room};

/// What taking an EAPOL-Key message needs, made before anything else is changed.
#[derive(Drop)]
pub struct Ready {
    /// Whether the message is the last of the attempt with its station, by whose MIC that is told.
    pub is_final: bool,
    /// The memory for its acts.
    pub room: Room,
    /// The acts that its reply does not tell of.
    pub between: Between,
}
