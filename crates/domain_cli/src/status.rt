//! How a run ends.

ghost use Rattle.std.specs.Prelude.{◌≡◌};
ghost use Rattle.domain_cli.specs.Ends.{limit_text, question_text, reason_text, told_reason};

use command_words::WordFault;
use domain_base::Node;
use frame_script::{Cause, Form, Mistake, Refusal};
use loopback::SocketFault;
use std::io::ErrorKind;
use thiserror::Error;

// What is written to standard error for words that are no command.
const USAGE: &str = "kehtrop 0.1

usage: kehtrop replay < SCRIPT
       kehtrop live PORT < SCRIPT
       kehtrop storm NUMBER
       kehtrop journal < SCRIPT
       kehtrop link PORT END < SCRIPT

  replay    runs the script on standard input, and writes its report to standard output
  live      runs it with frames on UDP sockets of this machine, from that port on, from 1024 to
            64000 in one to ten digits
  storm     runs 2000 events that the number makes, from 0 to 4294967295 in one to ten digits,
            and writes the summary of their report to standard output
  journal   runs the script on standard input, and writes the file of its journal, which holds keys,
            to standard output
  link      runs the script of one end of a link between two processes, holder or asker, on
            standard input, with datagrams on UDP sockets of this machine: the holder's on that
            port, the asker's on the next one

The program ends with
  0  done
  1  these words are no command
  2  a line of the script is refused
  3  the script could not be read
  4  the output could not be written
  5  out of memory
  6  a socket failed
  7  the seed could not be drawn
  8  a line of the script goes past a limit

Example:
  printf 'domain 1\\n' | kehtrop replay";

/// How a run ended. It is shown in words.
#[derive(Clone, Copy, Debug, PartialEq, Error)]
pub enum Status {
    /// The source was read to its end, and the whole report, or file, was written.
    #[error("done")]
    Done,
    /// The words are no command.
    #[error("{USAGE}")]
    Usage,
    /// The line of this number, from 1, is the first that is outside the grammar, for this reason:
    /// 1 it is the first and neither `domain 1` nor `domain 2`, or in a script of an end of a link
    /// not `link 1`; 2 no such word in this place; 3 the number or form of its arguments; 4 a node
    /// that is not listed or of the other kind; 5 a frame that was not sent, or a question that was
    /// not asked; 6 a place or length outside the frame; 7 it is the one behind the last one, and a
    /// round is open; 8 an address or R0KH-ID used before; 9 a line of the other kind of run. That
    /// is wrong in it: the word, and the form that it should have had. All events before it were
    /// run, but those of a round that is open, and their lines were written.
    #[error("line {0}: {reason} (word {word}{cause}{count}); the form is {form}", reason = told_reason(*.1, .2.form), word = .2.word, cause = .2.cause.text(), count = count_of(.2.cause), form = .2.form.text())]
    Script(u64, u8, Mistake),
    /// The first line that cannot be taken goes past this limit: 1 lines of a script; 2 octets of a
    /// line; 3 octets of an injected frame; 4 frames sent; 5 access points; 6 stations; 7 octets of
    /// a payload; 8 events in a round; 9 rows of a key holder. All events before it were run, but
    /// those of a round that is open, and their lines were written.
    #[error("{limit}", limit = limit_text(*.0))]
    Limit(u8),
    /// The source failed.
    #[error("the script could not be read")]
    ReadFault,
    /// The sink failed. No more was read than the line whose round was run last, where one was.
    #[error("the output could not be written")]
    WriteFault,
    /// Memory ran out.
    #[error("out of memory")]
    NoMemory,
    /// The air or a link failed, in a live run or a run of an end of a link. What was asked for
    /// before that call was run, and its lines were written.
    #[error("a socket could not be opened, or a frame not be sent or taken")]
    LinkFault,
    /// The seed could not be drawn, in a live run or a run of an end of a link. Nothing was run.
    #[error("the seed could not be drawn")]
    DrawFault,
}

/// What is known of the end of a run beside its status. It is shown in words: of the program's
/// words before the status, of the rest after it.
#[derive(Clone, Copy, Debug, Error)]
pub enum Known {
    /// Nothing.
    #[error("")]
    Nothing,
    /// One of the program's words is not UTF-8.
    #[error("a word is not UTF-8\n")]
    NotText,
    /// The word of that number, from 1, is wrong, or it is missing.
    #[error("word {0} {text}\n", text = .1.text())]
    Word(u64, WordFault),
    /// The system said so.
    #[error("{0}")]
    Said(Said),
    /// The socket of that node failed: its letter, its number from 1 and its port.
    #[error(": {0}{1}, {2}{3}")]
    Socket(&'static str, u32, Port, Said),
}

/// What the system said, or nothing.
#[derive(Clone, Copy, Debug, Error)]
pub enum Said {
    /// Nothing.
    #[error("")]
    Nothing,
    /// That.
    #[error(": {0}")]
    So(ErrorKind),
}

/// A port, or that there is none left.
#[derive(Clone, Copy, Debug, Error)]
pub enum Port {
    /// None.
    #[error("for which no port is left")]
    Nothing,
    /// That one.
    #[error("port {0}")]
    So(u16),
}

/// What the system said, to be shown.
pub fn known_said(kind: Option<ErrorKind>) -> Known {
    Known::Said(said_of(kind))
}

/// What is known of a socket that failed, to be shown.
pub fn known_of_socket(fault: Option<SocketFault>) -> Known {
    let Some(fault) = fault else {
        return Known::Nothing;
    };
    let port = match fault.port {
        Some(port) => Port::So(port),
        None => Port::Nothing,
    };
    let said = said_of(fault.kind);
    match fault.node {
        Node::Ap(place) => Known::Socket("a", u32::from(place) + 1, port, said),
        Node::Sta(place) => Known::Socket("s", u32::from(place) + 1, port, said),
    }
}

// What the system said, or nothing.
fn said_of(kind: Option<ErrorKind>) -> Said {
    match kind {
        Some(kind) => Said::So(kind),
        None => Said::Nothing,
    }
}

// A number that is shown, or nothing.
#[derive(Clone, Copy, Debug, Error)]
enum Count {
    // Nothing.
    #[error("")]
    Nothing,
    // That one.
    #[error("{0}")]
    So(u64),
}

// The number that stands behind the words of a cause.
fn count_of(cause: Cause) -> Count {
    match cause.count() {
        Some(count) => Count::So(count),
        None => Count::Nothing,
    }
}

// A reason in words, by its number.
fn reason_text(reason: u8) -> &'static str
    ensures { result.now ≡ reason_text reason }
{
    match Refusal::of_reason(reason) {
        Some(refusal) => refusal.text(),
        None => "outside the grammar",
    }
}

// A reason in words, by its number and the form that the line should have had.
fn told_reason(reason: u8, form: Form) -> &'static str
    ensures { result.now ≡ told_reason reason form }
{
    match form {
        Form::Forget => question_text(reason),
        _ => reason_text(reason),
    }
}

// That of a line that forgets a question.
fn question_text(reason: u8) -> &'static str
    ensures { result.now ≡ question_text reason }
{
    if reason == 5 {
        "no such question was asked"
    } else {
        reason_text(reason)
    }
}

// A limit in words, by its number.
fn limit_text(limit: u8) -> &'static str
    ensures { result.now ≡ limit_text limit }
{
    if limit == 9 {
        return "more than 64 rows";
    }
    match Refusal::of_limit(limit) {
        Some(refusal) => refusal.text(),
        None => "past a limit",
    }
}
