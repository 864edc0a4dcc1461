//! The command line, as `clap` reads it.

ghost use Rattle.std.specs.Prelude.{◌≡◌, IfOk, false};
ghost use Rattle.clap.specs.declared.builder.command.Command.TheViews.{out-Command as fields_of};
ghost use Rattle.clap.specs.Words.{app_of, new_app, new_rule, with_rule, with_subcommand};
ghost use Rattle.command_words.specs.Words.{bare_line, command_line, journal_line, needed};
ghost use Rattle.command_words.specs.Words.{link_line, replay_line};

use clap::{Arg, Command};
use std::alloc::{AllocError, Global};

// The command line without its subcommands, of which one is needed. The words do not begin with
// the program's name.
fn bare_line<'a>(alloc: Global) -> Command<'a>
    ensures { app_of result ≡ bare_line }
{
    Command::new(alloc, "kehtrop")
        .no_binary_name(true)
        .subcommand_required(true)
}

// The command line with `replay` as its only subcommand.
fn replay_line<'a>(alloc: Global) -> Result<Command<'a>, AllocError>
    ensures { IfOk result (λ c. app_of c ≡ with_subcommand bare_line replay_line.top) }
{
    bare_line(alloc).subcommand(Command::new(alloc, "replay"))
}

// The line with one more subcommand at the end, of that name, which needs one word.
fn added<'a>(
    alloc: Global,
    line: Command<'a>,
    name: &'a str,
    word: &'a str,
) -> Result<Command<'a>, AllocError>
    ensures { IfOk result (λ c. app_of c ≡ with_subcommand (app_of line.entry)
        (with_rule (new_app name.now) (needed (new_rule word.now))).top) }
{
    let value = Arg::new(alloc, word).required(true);
    let subcommand = match Command::new(alloc, name).arg(value) {
        Ok(subcommand) => subcommand,
        Err(AllocError) => return Err(AllocError),
    };
    line.subcommand(subcommand)
}

// The line with `journal` as one more subcommand at the end, which takes no word.
fn with_journal<'a>(alloc: Global, line: Command<'a>) -> Result<Command<'a>, AllocError>
    ensures { IfOk result (λ c. app_of c ≡ with_subcommand (app_of line.entry) journal_line.top) }
{
    line.subcommand(Command::new(alloc, "journal"))
}

// The subcommand with one more word that it needs.
fn needing<'a>(alloc: Global, part: Command<'a>, word: &'a str) -> Result<Command<'a>, AllocError>
    ensures shape { IfOk result (λ c. app_of c
        ≡ with_rule (app_of part.entry) (needed (new_rule word.now))) }
    ensures local { (fields_of part.entry).has_globals ≡ false
        → IfOk result (λ c. (fields_of c).has_globals ≡ false) }
{
    part.arg(Arg::new(alloc, word).required(true))
}

// The line with `link` as one more subcommand at the end, which needs a port and an end.
fn with_link<'a>(alloc: Global, line: Command<'a>) -> Result<Command<'a>, AllocError>
    ensures { IfOk result (λ c. app_of c ≡ with_subcommand (app_of line.entry) link_line.top) }
{
    let part = Command::new(alloc, "link");
    let first = match needing(alloc, part, "port") {
        Ok(first) => first,
        Err(AllocError) => return Err(AllocError),
    };
    let second = match needing(alloc, first, "end") {
        Ok(second) => second,
        Err(AllocError) => return Err(AllocError),
    };
    line.subcommand(second)
}

/// The command line of five subcommands, without the program's name.
pub fn command_line<'a>(alloc: Global) -> Result<Command<'a>, AllocError>
    ensures { IfOk result (λ c. app_of c ≡ command_line) }
{
    let first = match replay_line(alloc) {
        Ok(first) => first,
        Err(AllocError) => return Err(AllocError),
    };
    let second = match added(alloc, first, "live", "port") {
        Ok(second) => second,
        Err(AllocError) => return Err(AllocError),
    };
    let third = match added(alloc, second, "storm", "number") {
        Ok(third) => third,
        Err(AllocError) => return Err(AllocError),
    };
    let fourth = match with_journal(alloc, third) {
        Ok(fourth) => fourth,
        Err(AllocError) => return Err(AllocError),
    };
    with_link(alloc, fourth)
}
