//! Runs a script of a domain of access points and stations from standard input, with frames in
//! memory or on sockets of this machine, and prints what happened.
#![tactic(auto)]

use domain_cli::{
    Known, Status, StdinSource, StdoutSink, command, exit_number, known_of_socket, known_of_words,
    known_said,
};
use std::cell::Cell;
use std::process::ExitCode;

fn main(rt: HostRuntime) -> ExitCode {
    let mut source = StdinSource::new(rt.stdin());
    let mut sink = StdoutSink::new(rt.stdout());
    let socket = Cell::new(None);
    let status = command(&rt, &mut source, &mut sink, &socket);
    let known = match status {
        Status::Usage => known_of_words(&rt),
        Status::ReadFault => known_said(source.said()),
        Status::WriteFault => known_said(sink.said()),
        Status::LinkFault => known_of_socket(socket.get()),
        _ => Known::Nothing,
    };
    match status {
        Status::Done => {}
        Status::Usage => {
            let _ = eprintln!(rt; "{known}{status}");
        }
        _ => {
            let _ = eprintln!(rt; "{status}{known}");
        }
    }
    ExitCode::from(exit_number(status))
}
