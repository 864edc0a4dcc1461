//! The words of the report.

ghost use Rattle.std.specs.Prelude.{◌≡◌, ◌≤◌, length};
ghost use Rattle.run_journal.specs.Report.{group_text, key_text, kind_text, message_text};
ghost use Rattle.run_journal.specs.Report.{part_text, pull_text, put_text, revoke_text, start_text, why_text, yes_no};
ghost use Rattle.journal_report.specs.Words.{word_room, word_text};

use domain_base::{Mac, Node, Peer};
use eapol_key::Message;
use key_hierarchy::{PullAnswer, PutAnswer, RevokeAnswer};
use run_journal::{GroupKind, Key, Kind, Outcome, Part, Start, Why};

/// A word of a line.
#[derive(Clone, Copy)]
pub enum Word {
    /// As it stands.
    Text(&'static [u8]),
    /// In decimal digits.
    Number(u64),
    /// A text, a space and a number.
    Numbered(&'static [u8], u64),
    /// By its name.
    Node(Node),
    /// By its name, or `all`.
    Peer(Peer),
    /// With the reason of a refusal.
    Outcome(Outcome),
    /// In twelve hexadecimal digits.
    Address(Mac),
}

/// How an attempt began.
pub fn start_word(start: Start) -> Word
    ensures text { word_text result ≡ start_text start }
    ensures short { word_room result ≤ 24 }
{
    match start {
        Start::Connect => Word::Text(b"connect"),
        Start::Roam => Word::Text(b"roam"),
        Start::Renew => Word::Text(b"renew"),
    }
}

/// What was closed.
pub fn part_word(part: Part) -> Word
    ensures text { word_text result ≡ part_text part }
    ensures short { word_room result ≤ 24 }
{
    match part {
        Part::Attempt => Word::Text(b"attempt"),
        Part::Session => Word::Text(b"session"),
    }
}

/// An EAPOL-Key message.
pub fn message_word(message: Message) -> Word
    ensures text { word_text result ≡ message_text message }
    ensures short { word_room result ≤ 24 }
{
    match message {
        Message::M1 => Word::Text(b"m1"),
        Message::M2 => Word::Text(b"m2"),
        Message::M3 => Word::Text(b"m3"),
        Message::M4 => Word::Text(b"m4"),
        Message::G1 => Word::Text(b"g1"),
        Message::G2 => Word::Text(b"g2"),
    }
}

/// The kind of a frame.
pub fn kind_word(kind: Kind) -> Word
    ensures text { word_text result ≡ kind_text kind }
    ensures short { word_room result ≤ 24 }
{
    match kind {
        Kind::AssocReq => Word::Text(b"assoc-req"),
        Kind::AssocResp => Word::Text(b"assoc-resp"),
        Kind::FtReq => Word::Text(b"ft-req"),
        Kind::FtResp => Word::Text(b"ft-resp"),
        Kind::ReReq => Word::Text(b"re-req"),
        Kind::ReResp => Word::Text(b"re-resp"),
        Kind::Key(message) => message_word(message),
        Kind::Data => Word::Text(b"data"),
        Kind::Action => Word::Text(b"action"),
        Kind::Ignored => Word::Text(b"ignored"),
        Kind::Unread => Word::Text(b"unread"),
        Kind::Eapol => Word::Text(b"eapol"),
    }
}

// The kind of a group key.
fn group_text(kind: GroupKind) -> &'static [u8]
    ensures text { result.now ≡ group_text kind }
    ensures short { length result.now ≤ 4 }
{
    match kind {
        GroupKind::Gtk => b"gtk",
        GroupKind::Igtk => b"igtk",
    }
}

/// The kind of a group key.
pub fn group_word(kind: GroupKind) -> Word
    ensures text { word_text result ≡ group_text kind }
    ensures short { word_room result ≤ 4 }
{
    Word::Text(group_text(kind))
}

/// A key by its kind, and a group key by its key id too.
pub(crate) fn key_word(key: &Key) -> Word
    ensures text { word_text result ≡ key_text key.now }
    ensures short { word_room result ≤ 25 }
{
    match key {
        Key::Pairwise { .. } => Word::Text(b"ptk"),
        Key::Group { kind, id, .. } => Word::Numbered(group_text(*kind), u64::from(*id)),
    }
}

/// Why an event did nothing.
pub fn why_word(why: Why) -> Word
    ensures text { word_text result ≡ why_text why }
    ensures short { word_room result ≤ 24 }
{
    match why {
        Why::NoSession => Word::Text(b"no-session"),
        Why::SamePeer => Word::Text(b"same-peer"),
        Why::Nothing => Word::Text(b"nothing"),
        Why::RekeyPending => Word::Text(b"rekey-pending"),
        Why::NoKey => Word::Text(b"no-key"),
        Why::Spent => Word::Text(b"spent"),
    }
}

/// How a key holder answered a key put into it.
pub fn put_word(answer: PutAnswer) -> Word
    ensures text { word_text result ≡ put_text answer }
    ensures short { word_room result ≤ 24 }
{
    match answer {
        PutAnswer::Held => Word::Text(b"held"),
        PutAnswer::HeldAlready => Word::Text(b"held-already"),
        PutAnswer::Full => Word::Text(b"full"),
        PutAnswer::NoMemory => Word::Text(b"no-memory"),
    }
}

/// How the key holders answered where a key was asked for.
pub fn pull_word(answer: &PullAnswer) -> Word
    ensures text { word_text result ≡ pull_text answer.now }
    ensures short { word_room result ≤ 24 }
{
    match answer {
        PullAnswer::Found(_) => Word::Text(b"found"),
        PullAnswer::NoHolder => Word::Text(b"no-holder"),
        PullAnswer::Absent => Word::Text(b"absent"),
    }
}

/// How a key holder answered where a key is to be held no longer.
pub fn revoke_word(answer: RevokeAnswer) -> Word
    ensures text { word_text result ≡ revoke_text answer }
    ensures short { word_room result ≤ 24 }
{
    match answer {
        RevokeAnswer::Revoked => Word::Text(b"revoked"),
        RevokeAnswer::Absent => Word::Text(b"absent"),
    }
}

/// Whether a premise holds.
pub(crate) fn answer_word(holds: bool) -> Word
    ensures text { word_text result ≡ yes_no holds }
    ensures short { word_room result ≤ 24 }
{
    if holds {
        Word::Text(b"yes")
    } else {
        Word::Text(b"no")
    }
}
