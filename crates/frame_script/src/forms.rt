//! The form that a line should have had.

ghost use Rattle.std.specs.Prelude.{◌≡◌};
ghost use Rattle.script_lines.specs.Due.{draft_of};
ghost use Rattle.frame_script.specs.Script.{stage_of};
ghost use Rattle.frame_script.specs.Forms.{body_form, form_at, form_in, header_form, in_run};
ghost use Rattle.frame_script.specs.Forms.{inner_form, is_run, key_form, late_form, live_form};

use crate::reader::Mode;
use crate::stages::stage_of;
use run_journal::Domain;
use script_lines::{Due, HeaderLine, is_of_network, is_second};
use script_words::{
    Form, Row, Runs, Stage, first_word, goes_with, in_live, in_replay, line_in, line_of, row_of,
    stands, stands_within,
};

// The form in a live run, for one in a replay.
fn live_form(form: Form) -> Form
    ensures { result ≡ live_form form }
{
    match form {
        Form::Seed => Form::LiveSeed,
        Form::First => Form::LiveFirst,
        Form::AfterRenewAt => Form::LiveAfterRenewAt,
        Form::Any => Form::LiveAny,
        Form::StaOrEvent => Form::LiveStaOrEvent,
        Form::Event => Form::LiveEvent,
        Form::EventInRound => Form::LiveEventInRound,
        form => form,
    }
}

// The form in a run of that kind, for one in a replay.
fn in_run(mode: Mode, form: Form) -> Form
    ensures { result ≡ in_run mode form }
{
    match mode {
        Mode::Replay => form,
        Mode::Live => live_form(form),
    }
}

// The form of the line that tells the pre-shared key.
fn key_form(line: Form) -> Form
    ensures { result ≡ key_form line }
{
    match line {
        Form::Passphrase => Form::Passphrase,
        Form::Psk => Form::Psk,
        _ => Form::Key,
    }
}

// The form of the line of the header that is due, by the line that its first word begins.
fn header_form(due: HeaderLine, line: Form) -> Form
    ensures { result ≡ header_form due line }
{
    match due {
        HeaderLine::Seed => Form::Seed,
        HeaderLine::Ssid => Form::Ssid,
        HeaderLine::Psk => key_form(line),
        HeaderLine::Akm => Form::Akm,
        HeaderLine::Mdid => Form::Mdid,
    }
}

// The form of any line that may stand where a script is so far.
fn late_form(stage: Stage) -> Form
    ensures { result ≡ late_form stage }
{
    match stage {
        Stage::Bare => Form::First,
        Stage::Renewing => Form::AfterRenewAt,
        Stage::Unlisted => Form::Any,
        Stage::Listed => Form::StaOrEvent,
        Stage::Begun => Form::Event,
    }
}

// Whether a line with these kinds of run has a meaning in that one.
fn is_run(mode: Mode, runs: Runs) -> bool
    ensures { result ≡ is_run mode runs }
{
    match mode {
        Mode::Replay => in_replay(runs),
        Mode::Live => in_live(runs),
    }
}

// The form of a line behind the header: that of a station is by the version.
fn body_form(mode: Mode, domain: &Domain, rounds: u64, row: Row, line: Form) -> Form
    ensures { result ≡ body_form mode domain.now rounds row line }
{
    let stage = stage_of(domain, rounds);
    if stands(row.position, stage)
        && goes_with(row.suites, domain.akm)
        && is_of_network(row, domain)
        && is_run(mode, row.runs)
    {
        line_in(is_second(domain), line)
    } else {
        in_run(mode, late_form(stage))
    }
}

// The form of a line in a round.
fn inner_form(mode: Mode, row: Row, line: Form) -> Form
    ensures { result ≡ inner_form mode row line }
{
    if stands_within(row.position) && is_run(mode, row.runs) {
        line
    } else {
        in_run(mode, Form::EventInRound)
    }
}

// The form that a line should have had, by the line that its first word begins.
fn form_at(mode: Mode, due: &Due, rounds: u64, line: Form) -> Form
    ensures { result ≡ form_at mode (draft_of due.now) rounds line }
{
    match due {
        Due::Version => Form::Version,
        Due::Header { line: awaited, .. } => in_run(mode, header_form(*awaited, line)),
        Due::Nodes { header } => body_form(mode, &header.network, rounds, row_of(line), line),
        Due::Round { .. } => inner_form(mode, row_of(line), line),
    }
}

/// The form that the line should have had in a run of that kind, where so many rounds were asked
/// for.
pub(crate) fn form_in(mode: Mode, due: &Due, rounds: u64, line: &[u8]) -> Form
    ensures { result ≡ form_in mode (draft_of due.now) rounds line.now }
{
    let (word, _) = first_word(line);
    form_at(mode, due, rounds, line_of(word))
}
