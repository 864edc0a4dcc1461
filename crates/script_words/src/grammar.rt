//! The lines of a script, in one table.

ghost use Rattle.std.specs.Prelude.{◌≡◌};
ghost use Rattle.script_words.specs.Grammar.{after, find_line, four, goes_with, in_live, in_replay};
ghost use Rattle.script_words.specs.Grammar.{in_version, is_bare, is_early, is_first};
ghost use Rattle.script_words.specs.Grammar.{is_unlisted, line_of, none, one, protecting_row};
ghost use Rattle.script_words.specs.Grammar.{row, row_of};
ghost use Rattle.script_words.specs.Grammar.{second_row, stands, stands_in, stands_within, three};
ghost use Rattle.script_words.specs.Grammar.{two};

use crate::forms::Form;
use crate::kinds::Kind;
use domain_base::Akm;

/// Where a line may stand.
#[derive(Clone, Copy)]
pub enum Position {
    /// In the header, at that place from 0.
    Head(u64),
    /// In the header, after all lines that it has to have, as the first that may be left out.
    Optional,
    /// In the header, after all lines that it has to have, as the last that may be left out.
    LastOptional,
    /// After the header, before stations and rounds.
    Aps,
    /// After the header, before rounds.
    Stas,
    /// After the header, outside rounds. It asks for an event, or for a turn.
    Outside,
    /// After the header, outside rounds and in them. It asks for an event.
    Anywhere,
    /// After the header, outside rounds: one begins with it.
    Opening,
    /// In a round, which ends with it.
    Closing,
    /// Nowhere: it is no line.
    Nowhere,
}

/// How far a script is, where all is there that a header has to have, outside rounds.
#[derive(Clone, Copy)]
pub enum Stage {
    /// The header has nothing yet that may be left out, no node is listed, and no round was asked
    /// for.
    Bare,
    /// The header tells where pairwise keys are renewed and has nothing after that yet, no node is
    /// listed, and no round was asked for.
    Renewing,
    /// No station is listed, and no round was asked for.
    Unlisted,
    /// A station is listed, and no round was asked for.
    Listed,
    /// A round was asked for.
    Begun,
}

/// The suites with which a line may stand.
#[derive(Clone, Copy)]
pub enum Akms {
    /// Each of them.
    Every,
    /// That of fast transition.
    Transition,
    /// Each but that of fast transition.
    Others,
    /// Those whose keys are derived by SHA-256: each but the first.
    Sha256,
}

/// The kinds of run in which a line has a meaning.
#[derive(Clone, Copy)]
pub enum Runs {
    /// Both.
    Both,
    /// A replay.
    Replays,
    /// A live run.
    Lives,
}

/// The versions of scripts in which a line may stand.
#[derive(Clone, Copy)]
pub enum Versions {
    /// Each from the first on.
    FromFirst,
    /// Each from the second on.
    FromSecond,
    /// Each from the second on, where the header says that group-addressed management frames are
    /// protected.
    Protecting,
}

/// What stands after the first word of a line.
#[derive(Clone, Copy)]
pub struct Words {
    /// The second word.
    pub second: Kind,
    /// The third word.
    pub third: Kind,
    /// The fourth word.
    pub fourth: Kind,
    /// The fifth word.
    pub fifth: Kind,
    /// The sixth word.
    pub sixth: Kind,
}

/// A row of the table of lines.
#[derive(Clone, Copy)]
pub struct Row {
    /// Where the line may stand.
    pub position: Position,
    /// With which suites.
    pub suites: Akms,
    /// In which kinds of run it has a meaning.
    pub runs: Runs,
    /// In which versions of scripts.
    pub versions: Versions,
    /// What stands after its first word.
    pub words: Words,
}

// The lines, in the order in which they are listed where one of them may stand.
const LINES: [Form; 29] = [
    Form::Version,
    Form::Seed,
    Form::Ssid,
    Form::Passphrase,
    Form::Psk,
    Form::Akm,
    Form::Mdid,
    Form::RenewAt,
    Form::Mfp,
    Form::Ap,
    Form::Sta,
    Form::Connect,
    Form::Roam,
    Form::Deliver,
    Form::Alter,
    Form::Cut,
    Form::Inject,
    Form::Retry,
    Form::Rekey,
    Form::Send,
    Form::Expire,
    Form::Revoke,
    Form::Leave,
    Form::Secret,
    Form::Renew,
    Form::Announce,
    Form::Round,
    Form::Turn,
    Form::End,
];

fn make_row(position: Position, suites: Akms, runs: Runs, words: Words) -> Row
    ensures { result ≡ row position suites runs words }
{
    Row {
        position,
        suites,
        runs,
        versions: Versions::FromFirst,
        words,
    }
}

// The row of a line that stands in scripts of version 2 alone.
fn second_row(position: Position, suites: Akms, runs: Runs, words: Words) -> Row
    ensures { result ≡ second_row position suites runs words }
{
    Row {
        position,
        suites,
        runs,
        versions: Versions::FromSecond,
        words,
    }
}

// The row of a line that stands in networks alone that protect group-addressed management frames.
fn protecting_row(position: Position, suites: Akms, runs: Runs, words: Words) -> Row
    ensures { result ≡ protecting_row position suites runs words }
{
    Row {
        position,
        suites,
        runs,
        versions: Versions::Protecting,
        words,
    }
}

fn after(second: Kind, third: Kind, fourth: Kind, fifth: Kind, sixth: Kind) -> Words
    ensures { result ≡ after second third fourth fifth sixth }
{
    Words {
        second,
        third,
        fourth,
        fifth,
        sixth,
    }
}

fn none() -> Words
    ensures { result ≡ none }
{
    after(Kind::End, Kind::End, Kind::End, Kind::End, Kind::End)
}

fn one(second: Kind) -> Words
    ensures { result ≡ one second }
{
    after(second, Kind::End, Kind::End, Kind::End, Kind::End)
}

fn two(second: Kind, third: Kind) -> Words
    ensures { result ≡ two second third }
{
    after(second, third, Kind::End, Kind::End, Kind::End)
}

fn three(second: Kind, third: Kind, fourth: Kind) -> Words
    ensures { result ≡ three second third fourth }
{
    after(second, third, fourth, Kind::End, Kind::End)
}

fn four(second: Kind, third: Kind, fourth: Kind, fifth: Kind) -> Words
    ensures { result ≡ four second third fourth fifth }
{
    after(second, third, fourth, fifth, Kind::End)
}

/// The table of the lines: where each may stand, with which suites, in which kinds of run and
/// versions of scripts, and what stands after its first word. The line of a station has two rows,
/// by the version.
pub fn row_of(form: Form) -> Row
    ensures { result ≡ row_of form }
{
    use Kind::{
        Address, Ap, Key, KeyWord, Length, Mask, NoKey, Node, Number, Octets, OwnKey, PacketNumber,
        Peer, Place, R0khId, Sta, StaOrAll, Tid, To,
    };
    use Position::{
        Anywhere, Aps, Closing, Head, LastOptional, Nowhere, Opening, Optional, Outside, Stas,
    };
    use Runs::{Both, Lives, Replays};
    use Akms::{Every, Others, Sha256, Transition};

    match form {
        Form::Version => make_row(Head(0), Every, Both, one(Kind::Version)),
        Form::Seed => make_row(Head(1), Every, Both, one(Kind::Seed)),
        Form::LiveSeed => make_row(Head(1), Every, Lives, one(Kind::LiveSeed)),
        Form::Ssid => make_row(Head(2), Every, Both, one(Kind::Ssid)),
        Form::Passphrase => make_row(Head(3), Every, Both, one(Kind::Passphrase)),
        Form::Psk => make_row(Head(3), Every, Both, one(Kind::Psk)),
        Form::Akm => make_row(Head(4), Every, Both, one(Kind::Akm)),
        Form::Mdid => make_row(Head(5), Transition, Both, one(Kind::Mdid)),
        Form::RenewAt => second_row(Optional, Others, Both, one(PacketNumber)),
        Form::Mfp => second_row(LastOptional, Sha256, Both, none()),
        Form::Ap => make_row(Aps, Every, Both, two(Address, R0khId)),
        Form::Sta => make_row(Stas, Every, Both, two(Address, NoKey)),
        Form::KeyedSta => make_row(Stas, Every, Both, three(Address, OwnKey, Key)),
        Form::Connect => make_row(Outside, Every, Both, two(Sta, Ap)),
        Form::Roam => make_row(Outside, Transition, Both, two(Sta, Ap)),
        Form::Deliver => make_row(Anywhere, Every, Replays, three(Number, To, Node)),
        Form::Alter => make_row(
            Anywhere,
            Every,
            Replays,
            after(Number, Place, Mask, To, Node),
        ),
        Form::Cut => make_row(Anywhere, Every, Replays, four(Number, Length, To, Node)),
        Form::Inject => make_row(Anywhere, Every, Both, two(Node, Octets)),
        Form::Retry => make_row(Anywhere, Every, Both, two(Ap, Sta)),
        Form::Rekey => make_row(Anywhere, Every, Both, one(Ap)),
        Form::Send => make_row(Anywhere, Every, Both, four(Node, Peer, Tid, Octets)),
        Form::Expire => make_row(Anywhere, Every, Both, two(Ap, Sta)),
        Form::Revoke => make_row(Anywhere, Every, Both, two(Ap, Sta)),
        Form::Leave => make_row(Outside, Every, Both, one(Sta)),
        Form::Secret => second_row(Outside, Every, Both, three(StaOrAll, KeyWord, Key)),
        Form::Renew => second_row(Outside, Others, Both, two(Ap, Sta)),
        Form::Announce => protecting_row(Outside, Every, Both, two(Ap, Octets)),
        Form::Round => make_row(Opening, Every, Both, none()),
        Form::Turn => make_row(Outside, Every, Lives, none()),
        Form::End => make_row(Closing, Every, Both, none()),
        _ => make_row(Nowhere, Every, Both, none()),
    }
}

// The first of the lines that begins with the word, or `Form::Any`.
#[tactic(auto, unfolding(crate::specs::Grammar::find_line))]
fn find_line(lines: &[Form], word: &[u8]) -> Form
    ensures { result ≡ find_line lines.now word.now }
{
    match lines.split_first() {
        None => Form::Any,
        Some((line, rest)) => {
            if word == line.word().as_bytes() {
                *line
            } else {
                find_line(rest, word)
            }
        }
    }
}

/// The line that the word begins, wherever it may stand; `Form::Any` where there is none.
#[tactic(auto, unfolding(crate::specs::Grammar::line_of))]
pub fn line_of(word: &[u8]) -> Form
    ensures { result ≡ line_of word.now }
{
    // most lines of a script are of this form
    if word == b"deliver".as_slice() {
        return Form::Deliver;
    }
    find_line(LINES.as_slice(), word)
}

/// Whether a line of that position asks for an event there, within a round or not.
pub fn stands_in(position: Position, within: bool) -> bool
    ensures { result ≡ stands_in position within }
{
    match position {
        Position::Anywhere => true,
        Position::Outside => !within,
        _ => false,
    }
}

// Whether the header has nothing yet that may be left out, no node is listed, and no round was asked
// for.
fn is_bare(stage: Stage) -> bool
    ensures { result ≡ is_bare stage }
{
    matches!(stage, Stage::Bare)
}

// Whether of what may be left out the header has not the last line, no node is listed, and no round
// was asked for.
fn is_early(stage: Stage) -> bool
    ensures { result ≡ is_early stage }
{
    matches!(stage, Stage::Bare | Stage::Renewing)
}

// Whether no station is listed, and no round was asked for.
fn is_unlisted(stage: Stage) -> bool
    ensures { result ≡ is_unlisted stage }
{
    matches!(stage, Stage::Bare | Stage::Renewing | Stage::Unlisted)
}

// Whether no round was asked for.
fn is_first(stage: Stage) -> bool
    ensures { result ≡ is_first stage }
{
    !matches!(stage, Stage::Begun)
}

/// Whether a line of that position may stand outside rounds where all is there that a header has to
/// have.
pub fn stands(position: Position, stage: Stage) -> bool
    ensures { result ≡ stands position stage }
{
    match position {
        Position::Optional => is_bare(stage),
        Position::LastOptional => is_early(stage),
        Position::Aps => is_unlisted(stage),
        Position::Stas => is_first(stage),
        Position::Outside | Position::Anywhere | Position::Opening => true,
        Position::Head(_) | Position::Closing | Position::Nowhere => false,
    }
}

/// Whether a line of that position may stand in a round.
pub fn stands_within(position: Position) -> bool
    ensures { result ≡ stands_within position }
{
    match position {
        Position::Anywhere | Position::Closing => true,
        _ => false,
    }
}

/// Whether a line with these suites goes with that one.
pub fn goes_with(suites: Akms, akm: Akm) -> bool
    ensures { result ≡ goes_with suites akm }
{
    match (suites, akm) {
        (Akms::Every, _) => true,
        (Akms::Transition, Akm::FtPsk) => true,
        (Akms::Transition, Akm::Psk | Akm::PskSha256) => false,
        (Akms::Others, Akm::FtPsk) => false,
        (Akms::Others, Akm::Psk | Akm::PskSha256) => true,
        (Akms::Sha256, Akm::Psk) => false,
        (Akms::Sha256, Akm::PskSha256 | Akm::FtPsk) => true,
    }
}

/// Whether a line with these versions stands in scripts of version 2, or of version 1, where the
/// header says that group-addressed management frames are protected, or does not.
pub fn in_version(versions: Versions, is_second: bool, mfp: bool) -> bool
    ensures { result ≡ in_version versions is_second mfp }
{
    match versions {
        Versions::FromFirst => true,
        Versions::FromSecond => is_second,
        Versions::Protecting => mfp,
    }
}

/// Whether a line with these kinds of run has a meaning in a replay.
pub fn in_replay(runs: Runs) -> bool
    ensures { result ≡ in_replay runs }
{
    match runs {
        Runs::Both | Runs::Replays => true,
        Runs::Lives => false,
    }
}

/// Whether a line with these kinds of run has a meaning in a live run.
pub fn in_live(runs: Runs) -> bool
    ensures { result ≡ in_live runs }
{
    match runs {
        Runs::Both | Runs::Lives => true,
        Runs::Replays => false,
    }
}
