//! The lines of a run, given to a sink.

ghost use Rattle.std.specs.Prelude.{◌≡◌, ◌≤◌, length, reverse, OnErr, OnOk};
ghost use Rattle.std.specs.Io.KnownBytes.{Appends};
ghost use Rattle.domain_base.specs.Causes.{AppendsPart, HasCause};
ghost use Rattle.run_journal.specs.Report.{hex, line, lines};

use crate::line::{LINE_ROOM, line_fits, line_of, put_up_head};
use crate::pieces::put_hex;
use domain_base::{Failed, Sink, write_all};
use run_journal::{Act, Entry};

// The octets of a payload that are written at once where the whole line does not fit.
const PIECE: usize = 448;

// Room for a line with so long a payload.
const BUFFER: usize = LINE_ROOM + 2 * PIECE;

/// Writes the lines of the entries in order, each as [`line_of`] has it. Takes no memory: a line
/// goes out at once, or in pieces where its payload is long.
///
/// Where the sink fails, a part of the lines has gone out.
pub fn write_lines<K: Sink>(entries: &[Entry], sink: &mut K) -> Result<(), Failed>
    ensures ok { OnOk result
        (Appends (K.out sink.old) (K.out sink.new) (lines (reverse entries.now))) }
    ensures err { OnErr result
        (AppendsPart (K.out sink.old) (K.out sink.new) (lines (reverse entries.now))) }
    ensures cause { HasCause (K.faults sink.old) (K.faults sink.new) result }
    ensures unfailed { OnOk result (K.faults sink.new ≡ K.faults sink.old) }
{
    let mut buffer = [0; BUFFER];
    for entry in entries {
        write_line(entry, &mut buffer, sink)?;
    }
    Ok(())
}

/// Writes the line of one entry by way of the buffer.
pub(crate) fn write_line<K: Sink>(
    entry: &Entry,
    buffer: &mut [u8],
    sink: &mut K,
) -> Result<(), Failed>
    requires { BUFFER ≤ length buffer.old }
    ensures ok { OnOk result (Appends (K.out sink.old) (K.out sink.new) (line entry.now)) }
    ensures err { OnErr result (AppendsPart (K.out sink.old) (K.out sink.new) (line entry.now)) }
    ensures cause { HasCause (K.faults sink.old) (K.faults sink.new) result }
    ensures unfailed { OnOk result (K.faults sink.new ≡ K.faults sink.old) }
{
    if line_fits(entry, buffer.len()) {
        let count = line_of(entry, buffer);
        return write_all(sink, &buffer[..count]);
    }
    let Act::HandedUp {
        peer,
        id,
        tid,
        number,
        octets,
        ..
    } = &entry.act
    else {
        unreachable!()
    };
    let count = put_up_head(buffer, entry.node, *peer, *id, *tid, *number);
    write_all(sink, &buffer[..count])?;
    write_hex(octets.as_slice(), buffer, sink)?;
    write_all(sink, b"\n")
}

// Writes the octets in hexadecimal digits, a piece at a time.
fn write_hex<K: Sink>(octets: &[u8], buffer: &mut [u8], sink: &mut K) -> Result<(), Failed>
    requires { BUFFER ≤ length buffer.old }
    ensures ok { OnOk result (Appends (K.out sink.old) (K.out sink.new) (hex octets.now)) }
    ensures err { OnErr result (AppendsPart (K.out sink.old) (K.out sink.new) (hex octets.now)) }
    ensures cause { HasCause (K.faults sink.old) (K.faults sink.new) result }
    ensures unfailed { OnOk result (K.faults sink.new ≡ K.faults sink.old) }
{
    let mut rest = octets;
    while !rest.is_empty() {
        let (piece, behind) = rest.split_at(rest.len().min(PIECE));
        let count = put_hex(buffer, 0, piece);
        write_all(sink, &buffer[..count])?;
        rest = behind;
    }
    Ok(())
}
