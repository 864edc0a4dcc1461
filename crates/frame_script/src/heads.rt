//! The first word of a line, where it may not stand there.

ghost use Rattle.std.specs.Prelude.{◌≡◌};
ghost use Rattle.script_lines.specs.Due.{draft_of};
ghost use Rattle.frame_script.specs.Mistakes.{first_cause, header_cause, inner_cause, known_cause};
ghost use Rattle.frame_script.specs.Mistakes.{late_cause, late_place, order_due, order_of};
ghost use Rattle.frame_script.specs.Mistakes.{runs_cause, suites_cause, version_cause};
ghost use Rattle.frame_script.specs.Mistakes.{versions_cause};

use run_journal::Domain;
use script_lines::{Due, HeaderLine, is_of_network};
use script_words::{Akms, Cause, Form, Position, Row, Runs, Versions, goes_with, row_of, slip};

// The place of a line among those of the header; all others follow them.
fn order_of(position: Position) -> u64
    ensures { result ≡ order_of position }
{
    match position {
        Position::Head(order) => order,
        _ => 6,
    }
}

// The place of the line that is due among those of the header.
fn order_due(line: HeaderLine) -> u64
    ensures { result ≡ order_due line }
{
    match line {
        HeaderLine::Seed => 1,
        HeaderLine::Ssid => 2,
        HeaderLine::Psk => 3,
        HeaderLine::Akm => 4,
        HeaderLine::Mdid => 5,
    }
}

// Why a line of that position may not stand in the header where that one is due.
fn header_cause(line: HeaderLine, position: Position) -> Cause
    ensures { result ≡ header_cause line position }
{
    if order_of(position) < order_due(line) {
        Cause::Earlier
    } else {
        Cause::Later
    }
}

// That a line has its meaning in one kind of run alone, or the other cause.
fn runs_cause(runs: Runs, other: Cause) -> Cause
    ensures { result ≡ runs_cause runs other }
{
    match runs {
        Runs::Both => other,
        Runs::Replays => Cause::ReplayRun,
        Runs::Lives => Cause::LiveRun,
    }
}

// Why a line of that position may not stand behind the header, whatever the suite and the run.
fn late_place(position: Position) -> Cause
    ensures { result ≡ late_place position }
{
    match position {
        Position::Closing => Cause::NoRound,
        _ => Cause::Earlier,
    }
}

// That a line does not go with the suite.
fn suites_cause(suites: Akms) -> Cause
    ensures { result ≡ suites_cause suites }
{
    match suites {
        Akms::Others => Cause::OtherSuite,
        Akms::Sha256 => Cause::FirstSuite,
        Akms::Transition | Akms::Every => Cause::Suite,
    }
}

// Why a line may not stand behind the header.
fn late_cause(domain: &Domain, row: Row) -> Cause
    ensures { result ≡ late_cause domain.now row }
{
    if goes_with(row.suites, domain.akm) {
        runs_cause(row.runs, late_place(row.position))
    } else {
        suites_cause(row.suites)
    }
}

// Why a line may not stand in a round.
fn inner_cause(position: Position, runs: Runs) -> Cause
    ensures { result ≡ inner_cause position runs }
{
    match position {
        Position::Outside | Position::Opening => Cause::InRound,
        Position::Anywhere => runs_cause(runs, Cause::Earlier),
        _ => Cause::Earlier,
    }
}

// That a line stands in scripts of version 2 alone, or in networks alone that protect management
// frames.
fn versions_cause(versions: Versions) -> Cause
    ensures { result ≡ versions_cause versions }
{
    match versions {
        Versions::Protecting => Cause::Unprotected,
        Versions::FromSecond | Versions::FromFirst => Cause::Second,
    }
}

// That a line does not stand in scripts of that version or network, or the other cause.
fn version_cause(domain: &Domain, row: Row, other: Cause) -> Cause
    ensures { result ≡ version_cause domain.now row other }
{
    if is_of_network(row, domain) {
        other
    } else {
        versions_cause(row.versions)
    }
}

// Why a line may not stand there.
fn known_cause(due: &Due, row: Row) -> Cause
    ensures { result ≡ known_cause (draft_of due.now) row }
{
    match due {
        Due::Version => Cause::Later,
        Due::Header { line, header } => {
            version_cause(&header.network, row, header_cause(*line, row.position))
        }
        Due::Nodes { header } => {
            version_cause(&header.network, row, late_cause(&header.network, row))
        }
        Due::Round { header, .. } => {
            version_cause(&header.network, row, inner_cause(row.position, row.runs))
        }
    }
}

/// Why the line with that first word may not stand there, by the line that the word begins.
pub(crate) fn first_cause(due: &Due, word: &[u8], line: Form) -> Cause
    ensures { result ≡ first_cause (draft_of due.now) word.now line }
{
    match line {
        Form::Any => slip(Cause::Unknown, word),
        line => known_cause(due, row_of(line)),
    }
}
