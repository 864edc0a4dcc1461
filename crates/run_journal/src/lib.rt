//! The acts of nodes and the journal of a run, which decides its premises; with them the
//! definitions of the premises, of safety, and of the report's text.
#![tactic(auto)]

mod acts;
mod addresses;
mod breadth;
mod chains;
mod domain;
mod index;
mod journal;
mod judging;
mod laws;
mod mixing;
mod naming;
mod places;
mod premises;
mod reading;
mod reply;
mod seal;
mod sharing;

pub use acts::{
    Act, Drawn, Entry, GroupKind, Key, KeyDataFault, Kind, Malformed, MalformedFrame, Outcome,
    Part, Reason, Seal, Start, Why,
};
pub use addresses::is_group;
pub use domain::{
    Aps, Domain, Event, Extra, Extras, ListedAp, ListedSta, MOST_APS, MOST_EVENTS, MOST_FRAMES,
    MOST_OCTETS, MOST_PAYLOAD, MOST_POLLS, MOST_STAS, Stas, Version, is_named,
};
pub use journal::Journal;
pub use laws::lines_read_no_key;
pub use premises::Premises;
pub use reply::{GtkNews, Keyed, REPLY_LEN, Reply};
pub use seal::BoxedSeal;
