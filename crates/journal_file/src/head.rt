//! The lines before those of the entries, given to a sink.

ghost use Rattle.std.specs.Prelude.{◌≡◌, ◌≤◌, ◌++◌, length, OnErr, OnOk};
ghost use Rattle.std.specs.Io.KnownBytes.{Appends};
ghost use Rattle.domain_base.specs.Causes.{AppendsPart, HasCause};
ghost use Rattle.journal_file.specs.Counting.{feed_of, head};
ghost use Rattle.journal_report.specs.Writing.{Writes};

use domain_base::{Failed, Sink, put, write_all};
use journal_report::put_decimal;

// Room that is enough for the first two lines.
const HEAD_ROOM: usize = 36;

// The first two lines.
fn put_head(out: &mut [u8], lines: u64) -> usize
    requires { HEAD_ROOM ≤ length out.old }
    ensures written { Writes (head lines) 0 out.old result out.new }
    ensures short { result ≤ HEAD_ROOM }
{
    let at = put(out, 0, b"audit 1\n");
    let at = put(out, at, b"script ");
    let at = put_decimal(out, at, lines);
    put(out, at, b"\n")
}

/// Writes the first two lines of the file of a script with so many lines. Takes no memory.
pub fn write_head<K: Sink>(lines: u64, sink: &mut K) -> Result<(), Failed>
    ensures ok { OnOk result (Appends (K.out sink.old) (K.out sink.new) (head lines)) }
    ensures err { OnErr result (AppendsPart (K.out sink.old) (K.out sink.new) (head lines)) }
    ensures cause { HasCause (K.faults sink.old) (K.faults sink.new) result }
    ensures unfailed { OnOk result (K.faults sink.new ≡ K.faults sink.old) }
{
    let mut text = [0; HEAD_ROOM];
    let count = put_head(&mut text, lines);
    write_all(sink, &text[..count])
}

// The line feed that the last line lacks, if it does.
fn feed_of(unended: bool) -> &'static [u8]
    ensures { result.now ≡ feed_of unended }
{
    if unended {
        b"\n".as_slice()
    } else {
        b"".as_slice()
    }
}

/// Writes the lines of the script: its octets, and the line feed that the last one may lack. Takes
/// no memory.
pub fn write_script<K: Sink>(script: &[u8], unended: bool, sink: &mut K) -> Result<(), Failed>
    ensures ok { OnOk result
        (Appends (K.out sink.old) (K.out sink.new) (script.now ++ feed_of unended)) }
    ensures err { OnErr result
        (AppendsPart (K.out sink.old) (K.out sink.new) (script.now ++ feed_of unended)) }
    ensures cause { HasCause (K.faults sink.old) (K.faults sink.new) result }
    ensures unfailed { OnOk result (K.faults sink.new ≡ K.faults sink.old) }
{
    write_all(sink, script)?;
    write_all(sink, feed_of(unended))
}
