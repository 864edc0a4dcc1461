//! What of a line was wrong that was refused.

ghost use Rattle.std.specs.Prelude.{◌≡◌};
ghost use Rattle.link_lines.specs.Slips.{any_form, arguments_slip, cause_after, due_form};
ghost use Rattle.link_lines.specs.Slips.{event_form, first_cause, is_other, is_plain, kind_after};
ghost use Rattle.link_lines.specs.Slips.{order_after, order_cause, order_due, order_of, own_form};
ghost use Rattle.link_lines.specs.Slips.{second_kind, slip_in, slip_or, slipped, third_kind};
ghost use Rattle.link_lines.specs.Slips.{version_slip};

use crate::draft::LinkDue;
use crate::reader::LinkReader;
use crate::refusal::LinkRefusal;
use link_steps::LinkEnd;
use script_words::{Cause, Form, Kind, cause_behind, first_word, slip};

/// What of a line was wrong.
#[derive(Clone, Copy)]
pub struct Slip {
    /// The form that the line should have had.
    pub form: Form,
    /// The word that is wrong, from 1. Words stand between spaces.
    pub word: u64,
    /// What is wrong with it.
    pub cause: Cause,
}

fn slipped(form: Form, word: u64, cause: Cause) -> Slip
    ensures { result ≡ slipped form word cause }
{
    Slip { form, word, cause }
}

// The form of a line after the header, by its first word.
fn event_form(word: &[u8]) -> Form
    ensures { result ≡ event_form word.now }
{
    if word == b"row".as_slice() {
        Form::Row
    } else if word == b"revoke".as_slice() {
        Form::RevokeRow
    } else if word == b"ask".as_slice() {
        Form::Ask
    } else if word == b"forget".as_slice() {
        Form::Forget
    } else if word == b"turn".as_slice() {
        Form::Turn
    } else {
        Form::Any
    }
}

// Any line of an end after the header.
fn any_form(end: LinkEnd) -> Form
    ensures { result ≡ any_form end }
{
    match end {
        LinkEnd::Holder => Form::HolderEvent,
        LinkEnd::Asker => Form::AskerEvent,
    }
}

// The form that the next line has to have.
fn due_form(end: LinkEnd, due: LinkDue) -> Form
    ensures { result ≡ due_form end due }
{
    match due {
        LinkDue::Version => Form::Link,
        LinkDue::Key => Form::LinkKey,
        LinkDue::Seed => Form::LiveSeed,
        LinkDue::Ssid => Form::Ssid,
        LinkDue::Psk => Form::Psk,
        LinkDue::Mdid => Form::Mdid,
        LinkDue::Holder => Form::Holder,
        LinkDue::Events => any_form(end),
    }
}

// That of a line with the right first word.
fn own_form(end: LinkEnd, due: LinkDue, word: &[u8]) -> Form
    ensures { result ≡ own_form end due word.now }
{
    match due {
        LinkDue::Events => event_form(word),
        due => due_form(end, due),
    }
}

// In which order lines of a form stand after the header.
fn order_after(form: Form) -> u64
    ensures { result ≡ order_after form }
{
    match form {
        Form::Any => 0,
        _ => 7,
    }
}

// In which order the lines stand that begin with the word.
#[tactic(auto, unfolding(crate::specs::Slips::order_of))]
fn order_of(word: &[u8]) -> u64
    ensures { result ≡ order_of word.now }
{
    if word == b"key".as_slice() {
        1
    } else if word == b"seed".as_slice() {
        2
    } else if word == b"ssid".as_slice() {
        3
    } else if word == b"psk".as_slice() {
        4
    } else if word == b"mdid".as_slice() {
        5
    } else if word == b"holder".as_slice() {
        6
    } else {
        order_after(event_form(word))
    }
}

fn order_due(due: LinkDue) -> u64
    ensures { result ≡ order_due due }
{
    match due {
        LinkDue::Version => 0,
        LinkDue::Key => 1,
        LinkDue::Seed => 2,
        LinkDue::Ssid => 3,
        LinkDue::Psk => 4,
        LinkDue::Mdid => 5,
        LinkDue::Holder => 6,
        LinkDue::Events => 7,
    }
}

// Whether lines of a form stand at the other end alone.
fn is_other(end: LinkEnd, form: Form) -> bool
    ensures { result ≡ is_other end form }
{
    match end {
        LinkEnd::Holder => match form {
            Form::Ask | Form::Forget => true,
            _ => false,
        },
        LinkEnd::Asker => match form {
            Form::Row | Form::RevokeRow => true,
            _ => false,
        },
    }
}

// What is wrong with a word of this end that may not stand there.
fn order_cause(order: u64, due: u64, word: &[u8]) -> Cause
    ensures { result ≡ order_cause order due word.now }
{
    if order == 0 {
        slip(Cause::Unknown, word)
    } else if due < order {
        Cause::Later
    } else {
        Cause::Earlier
    }
}

// What is wrong with a first word.
fn first_cause(end: LinkEnd, due: LinkDue, word: &[u8]) -> Cause
    ensures { result ≡ first_cause end due word.now }
{
    if is_other(end, event_form(word)) {
        return Cause::OtherEnd;
    }
    order_cause(order_of(word), order_due(due), word)
}

// What the second word of a line of the form is.
fn second_kind(form: Form) -> Kind
    ensures { result ≡ second_kind form }
{
    match form {
        Form::LinkKey => Kind::Psk,
        Form::LiveSeed => Kind::LiveSeed,
        Form::Ssid => Kind::Ssid,
        Form::Psk => Kind::Psk,
        Form::Mdid => Kind::Mdid,
        Form::Holder => Kind::R0khId,
        Form::Row => Kind::Address,
        Form::RevokeRow => Kind::Address,
        Form::Ask => Kind::Address,
        Form::Forget => Kind::Number,
        _ => Kind::End,
    }
}

// And the third.
fn third_kind(form: Form) -> Kind
    ensures { result ≡ third_kind form }
{
    match form {
        Form::Ask => Kind::Address,
        _ => Kind::End,
    }
}

// What stands in a line of the form after so many words.
fn kind_after(form: Form, before: u64) -> Kind
    ensures { result ≡ kind_after form before }
{
    if before == 1 {
        second_kind(form)
    } else if before == 2 {
        third_kind(form)
    } else {
        Kind::End
    }
}

// The word, where something is wrong with it, or the other one.
fn slip_or(form: Form, word: u64, cause: Cause, other: Slip) -> Slip
    ensures { result ≡ slip_or form word cause other }
{
    match cause {
        Cause::Plain => other,
        cause => slipped(form, word, cause),
    }
}

// What is wrong with the word of the line after so many words.
#[tactic(auto, unfolding(crate::specs::Slips::cause_after))]
fn cause_after(form: Form, line: &[u8], before: u64) -> Cause
    ensures { result ≡ cause_after form line.now before }
{
    cause_behind(kind_after(form, before), before, line)
}

// The first word after the first one that has not its form.
#[tactic(auto, unfolding(crate::specs::Slips::arguments_slip))]
fn arguments_slip(form: Form, line: &[u8]) -> Slip
    ensures { result ≡ arguments_slip form line.now }
{
    let last = slipped(form, 1, Cause::Plain);
    let fourth = slip_or(form, 4, cause_after(form, line, 3), last);
    let third = slip_or(form, 3, cause_after(form, line, 2), fourth);
    slip_or(form, 2, cause_after(form, line, 1), third)
}

// A first line that is not that of a link.
#[tactic(auto, unfolding(crate::specs::Slips::version_slip))]
fn version_slip(line: &[u8]) -> Slip
    ensures { result ≡ version_slip line.now }
{
    if line.is_empty() {
        return slipped(Form::Link, 1, Cause::Missing);
    }
    let (word, _) = first_word(line);
    if word == b"link".as_slice() {
        slipped(Form::Link, 2, Cause::Plain)
    } else {
        slipped(Form::Link, 1, slip(Cause::Unknown, word))
    }
}

impl LinkReader {
    /// What is wrong in a line that was refused, after so many questions were asked.
    pub fn slip(&self, asked: u64, refusal: LinkRefusal, line: &[u8]) -> Slip
        ensures { result ≡ slip_in self.now asked refusal line.now }
    {
        let (word, _) = first_word(line);
        let due = due_form(self.end(), self.due());
        match refusal {
            LinkRefusal::Version => version_slip(line),
            LinkRefusal::Word => slipped(due, 1, first_cause(self.end(), self.due(), word)),
            LinkRefusal::Arguments => {
                arguments_slip(own_form(self.end(), self.due(), word), line)
            }
            LinkRefusal::Question => slipped(Form::Forget, 2, Cause::Asks(asked)),
            LinkRefusal::ManyRows => slipped(Form::Row, 1, Cause::Plain),
            LinkRefusal::ManyLines | LinkRefusal::LongLine => slipped(due, 1, Cause::Plain),
        }
    }
}
