//! Runs a script of a domain of access points and stations, and reports what happened.
#![tactic(auto)]

mod adapters;
mod ending;
mod filing;
mod laws;
mod linking;
mod program;
mod status;
mod top;
mod unheard;

pub use adapters::{StdinSource, StdoutSink};
pub use domain_world::{Gate, Unbarred};
pub use journal_report::ReportWriter;
pub use laws::runs_are_safe;
pub use program::{command, exit_number, known_of_words};
pub use script_runs::{Session, SessionFault};
pub use status::{Known, Port, Said, Status, known_of_socket, known_said};
pub use top::{run, run_with};
