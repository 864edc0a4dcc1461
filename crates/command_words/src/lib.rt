//! What the words of the command line ask for.
//!
//! The command line is a simple one of `clap`, of five subcommands: `replay`, `live <port>`,
//! `storm <number>`, `journal` and `link <port> <end>`. Words that `clap` does not take for one of
//! them, its help and version words among them, are no command, and neither are those with a number
//! out of range.
#![tactic(auto)]

mod ends;
mod faults;
mod laws;
mod line;
mod numbers;

ghost use Rattle.std.specs.Prelude.{◌≡◌, ◌≢◌, None, IfOk, option_and_then, option_map, codes, map};
ghost use Rattle.clap.specs.Words.{first_value, found_of, rows_of, subcommand_rows_of};
ghost use Rattle.command_words.specs.Words.{asked, command_of, end_of, linked, port_number};
ghost use Rattle.command_words.specs.Words.{storm_number};

use crate::ends::end_of;
use crate::line::command_line;
use crate::numbers::{port_number, storm_number};
use clap::ArgMatches;
use clap::error::ErrorKind;
use domain_base::NoMemory;
pub use faults::{WordFault, WrongWord, wrong_word};
pub use laws::words_are_told;
use link_steps::LinkEnd;
use std::alloc::{AllocError, Global};

/// A command of the command line.
#[derive(Clone, Copy)]
pub enum Command {
    /// `replay`: run the script on the standard input.
    Replay,
    /// `live <port>`: run the script with frames on sockets of this machine.
    Live {
        /// The first of the ports, from 1024 to 64000.
        port: u16,
    },
    /// `storm <number>`: run a storm.
    Storm {
        /// The number that the storm is made from.
        number: u32,
    },
    /// `journal`: run the script on the standard input, and write the file of its journal.
    Journal,
    /// `link <port> <end>`: run the script of one end of a link between two processes.
    Link {
        /// The port of the holder, from 1024 to 64000; the asker's is the next one.
        port: u16,
        /// Which end it is.
        end: LinkEnd,
    },
}

// What `live` asks for.
fn live_command(values: &ArgMatches) -> Option<Command>
    ensures { result ≡ option_map Command.Live
        (option_and_then port_number (first_value (found_of values.now) (codes "port"))) }
{
    let Some(word) = values.get_str("port") else {
        return None;
    };
    let Some(port) = port_number(word.as_bytes()) else {
        return None;
    };
    Some(Command::Live { port })
}

// What `storm` asks for.
fn storm_command(values: &ArgMatches) -> Option<Command>
    ensures { result ≡ option_map Command.Storm
        (option_and_then storm_number (first_value (found_of values.now) (codes "number"))) }
{
    let Some(word) = values.get_str("number") else {
        return None;
    };
    let Some(number) = storm_number(word.as_bytes()) else {
        return None;
    };
    Some(Command::Storm { number })
}

// The port that `link` asks for.
fn port_of(values: &ArgMatches) -> Option<u16>
    ensures { result ≡ option_and_then port_number
        (first_value (found_of values.now) (codes "port")) }
{
    let Some(word) = values.get_str("port") else {
        return None;
    };
    port_number(word.as_bytes())
}

// The end that `link` asks for.
fn link_end_of(values: &ArgMatches) -> Option<LinkEnd>
    ensures { result ≡ option_and_then end_of (first_value (found_of values.now) (codes "end")) }
{
    let Some(word) = values.get_str("end") else {
        return None;
    };
    end_of(word.as_bytes())
}

// What `link` asks for.
fn link_command(values: &ArgMatches) -> Option<Command>
    ensures { result ≡ linked
        (option_and_then port_number (first_value (found_of values.now) (codes "port")))
        (option_and_then end_of (first_value (found_of values.now) (codes "end"))) }
{
    match (port_of(values), link_end_of(values)) {
        (Some(port), Some(end)) => Some(Command::Link { port, end }),
        (Some(_), None) => None,
        (None, _) => None,
    }
}

// What the subcommand of that name asks for.
fn asked(name: &str, values: &ArgMatches) -> Option<Command>
    ensures { result ≡ asked (name.now, rows_of (found_of values.now)) }
{
    match name {
        "replay" => Some(Command::Replay),
        "live" => live_command(values),
        "storm" => storm_command(values),
        "journal" => Some(Command::Journal),
        "link" => link_command(values),
        _ => None,
    }
}

// What the subcommand that was met asks for.
fn met(matches: &ArgMatches) -> Option<Command>
    ensures { result ≡ option_and_then asked (subcommand_rows_of matches.now) }
{
    let Some((name, values)) = matches.subcommand() else {
        return None;
    };
    asked(name, values)
}

// What words that were refused ask for: no command, unless memory was wanting.
fn refusal(kind: ErrorKind) -> Result<Option<Command>, NoMemory>
    ensures { IfOk result (λ c. (c ≡ None) × (kind ≢ ErrorKind.OutOfMemory)) }
{
    match kind {
        ErrorKind::OutOfMemory => Err(NoMemory),
        _ => Ok(None),
    }
}

/// The command that the words behind the program's name ask for, or `None` where they are no
/// command. The port and the number are one to ten decimal digits; leading zeros are allowed.
pub fn read_words(alloc: Global, words: &[&str]) -> Result<Option<Command>, NoMemory>
    ensures { IfOk result (λ c. c ≡ command_of (map (λ w. w.now) words.now)) }
{
    let line = match command_line(alloc) {
        Ok(line) => line,
        Err(AllocError) => return Err(NoMemory),
    };
    match line.try_get_matches_from(words) {
        Ok(matches) => Ok(met(&matches)),
        Err(error) => refusal(error.kind()),
    }
}
