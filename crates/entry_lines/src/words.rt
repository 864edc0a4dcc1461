//! How fields stand in a line: each after a space.

ghost use Rattle.std.specs.Prelude.{◌≡◌, ◌≤◌, ◌+◌, ◌∷◌, length, map};
ghost use Rattle.journal_report.specs.Writing.{Writes};
ghost use Rattle.run_journal.specs.Report.{outcome_text};
ghost use Rattle.entry_lines.specs.Lines.{pointed};
ghost use Rattle.entry_lines.specs.Words.{field_room, field_text, fields_room, fields_text, point};

use domain_base::put;
use journal_report::{Word, put_hex, put_outcome, put_payload, put_words};
use run_journal::Outcome;

/// A field of a line.
#[derive(Clone, Copy)]
pub(crate) enum Field<'a> {
    /// A word as a report has it.
    Plain(Word),
    /// Octets in hexadecimal digits.
    Digits(&'a [u8]),
    /// Octets in hexadecimal digits, or `-` for none.
    Octets(&'a [u8]),
}

// Writes a field at a place, after a space, and answers the place after it.
fn put_field(out: &mut [u8], at: usize, field: &Field<'_>) -> usize
    requires { at + 1 + field_room field.now ≤ length out.old }
    ensures written { Writes (32 ∷ field_text field.now) at out.old result out.new }
    ensures short { result ≤ at + 1 + field_room field.now }
{
    match *field {
        Field::Plain(word) => put_words(out, at, b"", &[word]),
        Field::Digits(octets) => {
            let at = put(out, at, b" ");
            put_hex(out, at, octets)
        }
        Field::Octets(octets) => {
            let at = put(out, at, b" ");
            put_payload(out, at, octets)
        }
    }
}

/// Writes fields at a place, each after a space, and answers the place after them.
pub(crate) fn put_fields(out: &mut [u8], at: usize, fields: &[Field<'_>]) -> usize
    requires { at + fields_room fields.now ≤ length out.old }
    ensures written { Writes (fields_text fields.now) at out.old result out.new }
    ensures short { result ≤ at + fields_room fields.now }
{
    let mut end = at;
    for field in fields {
        end = put_field(out, end, field);
    }
    end
}

// A point for a space.
fn point(octet: u8) -> u8
    ensures { result ≡ point octet }
{
    if octet == b' ' { b'.' } else { octet }
}

// Writes the text at a place, with points for its spaces, and answers the place after it.
fn put_pointed(out: &mut [u8], at: usize, text: &[u8]) -> usize
    requires { at + length text.now ≤ length out.old }
    ensures written { Writes (pointed text.now) at out.old result out.new }
    ensures short { result ≤ at + length text.now }
{
    let mut end = at;
    for octet in text {
        end = put(out, end, &[point(*octet)]);
    }
    end
}

/// Writes what came of a frame at a place, after a space, and answers the place after it.
pub(crate) fn put_outcome_word(out: &mut [u8], at: usize, outcome: Outcome) -> usize
    requires { at + 65 ≤ length out.old }
    ensures written { Writes (32 ∷ pointed (outcome_text outcome)) at out.old result out.new }
    ensures short { result ≤ at + 65 }
{
    let mut text = [0; 64];
    let count = put_outcome(&mut text, 0, outcome);
    let (text, _) = text.split_at(count);
    let at = put(out, at, b" ");
    put_pointed(out, at, text)
}
