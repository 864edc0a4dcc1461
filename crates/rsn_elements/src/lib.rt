//! Elements of management frame bodies and of key data (IEEE Std 802.11-2020, 9.4.2 and 12.7.2).
#![tactic(auto)]

mod faults;
mod fits;
mod framing;
mod keys;
mod laws;
mod reading;
mod security;
mod transition;
mod writing;

pub use faults::{ElementFault, FaultKind};
pub use fits::rsne_status;
pub use framing::Within;
pub use keys::{GtkKde, IgtkKde};
pub use laws::{one_reading, padding_ends, sent_is_spelled};
pub use reading::{Elements, read_elements};
pub use security::{Pmkids, Rsne, Suites};
pub use transition::{Fte, Mde, WrappedGtk, WrappedIgtk};
pub use writing::{ElementWriter, akm_type};
