//! The script of one end of a link, line by line: what each line says, after those before it, what
//! is wrong in one that is refused, and the event that it asks for.
#![tactic(auto)]

mod draft;
mod events;
mod lines;
mod mistakes;
mod reader;
mod refusal;
mod said;

pub use draft::{LinkDue, LinkHeader};
pub use events::{event_of, nonce_of, question_of, revoked_of, row_of};
pub use mistakes::Slip;
pub use reader::LinkReader;
pub use refusal::LinkRefusal;
pub use said::LinkSaid;
