//! What is wrong in a line that is refused.

ghost use Rattle.std.specs.Prelude.{◌≡◌};
ghost use Rattle.script_words.specs.Causes.{cause_count, cause_text};

/// What is wrong with a word of a line, beside the reason for which the line is refused.
#[derive(Clone, Copy, Debug, PartialEq)]
pub enum Cause {
    /// No more than the reason tells.
    Plain,
    /// Two spaces side by side, or one at an end of the line.
    Space,
    /// A tab.
    Tab,
    /// An octet that is no character of ASCII, or one that is not printed.
    Strange,
    /// A comment, which has no line of its own.
    Comment,
    /// A capital letter.
    Capital,
    /// The line ends before it.
    Missing,
    /// The line should end before it.
    Many,
    /// No line begins with it.
    Unknown,
    /// Lines with this word stand later in a script.
    Later,
    /// Lines with this word stand earlier in a script.
    Earlier,
    /// The line goes with another suite.
    Suite,
    /// The line goes with every suite but that of fast transition.
    OtherSuite,
    /// The line goes with every suite but the first.
    FirstSuite,
    /// The line, or the word, is one of scripts of version 2.
    Second,
    /// The line is one of networks that protect group-addressed management frames.
    Unprotected,
    /// The line, or the word, is one of a live run.
    LiveRun,
    /// The line is one of a replay.
    ReplayRun,
    /// The line stands outside rounds.
    InRound,
    /// No round is open.
    NoRound,
    /// Another version of the form.
    Version,
    /// Colons in an address.
    Colons,
    /// An octet that is no hexadecimal digit.
    NoDigit,
    /// An odd count of hexadecimal digits.
    Odd,
    /// Too few or too many hexadecimal digits.
    Size,
    /// The address that is zero.
    Zero,
    /// The address of a group.
    Group,
    /// No number, or one of more than ten digits.
    NoNumber,
    /// No packet number from 1 to 4294967295.
    NoPacketNumber,
    /// No name of a node.
    NoNode,
    /// Neither the name of a node nor `all`.
    NoPeer,
    /// No traffic identifier.
    NoTid,
    /// Not the word `to`.
    NoTo,
    /// No suite.
    NoSuite,
    /// Neither the word `psk` nor the word `passphrase`.
    NoKeyWord,
    /// Neither the name of a station nor `all`.
    NoStaOrAll,
    /// Too few octets.
    Short,
    /// Too many octets.
    Long,
    /// A node of the other kind.
    OtherKind,
    /// A station, which takes no part in a round.
    Stations,
    /// An access point that is not listed, where so many are.
    Aps(u64),
    /// A station that is not listed, where so many are.
    Stas(u64),
    /// A frame that was not sent, where so many were.
    Frames(u64),
    /// A place or length outside the frame, which has so many octets.
    Octets(u64),
    /// An address that was used before.
    UsedAddress,
    /// An R0KH-ID that was used before.
    UsedId,
    /// The line is one of the other end of a link.
    OtherEnd,
    /// A question that was not asked, where so many were.
    Asks(u64),
}

impl Cause {
    /// It in words, behind the place of the word; before the number, where it has one.
    pub fn text(self) -> &'static str
        ensures { result.now ≡ cause_text self }
    {
        match self {
            Cause::Plain => "",
            Cause::Space => ": a space too many",
            Cause::Tab => ": a tab; words are separated by one space",
            Cause::Strange => ": an octet that is no printable character of ASCII",
            Cause::Comment => ": a comment; it has a line of its own, from line 2 on",
            Cause::Capital => ": a capital letter",
            Cause::Missing => ": it is missing",
            Cause::Many => ": a word too many",
            Cause::Unknown => ": no line begins so",
            Cause::Later => ": its lines stand later in a script",
            Cause::Earlier => ": its lines stand earlier in a script",
            Cause::Suite => ": only with akm ft-psk",
            Cause::OtherSuite => ": not with akm ft-psk",
            Cause::FirstSuite => ": not with akm psk",
            Cause::Second => ": only with domain 2",
            Cause::Unprotected => ": only with mfp",
            Cause::LiveRun => ": only in a live run",
            Cause::ReplayRun => ": only in a replay",
            Cause::InRound => ": not in a round",
            Cause::NoRound => ": no round is open",
            Cause::Version => ": the version has to be 1 or 2",
            Cause::Colons => ": an address has no colons",
            Cause::NoDigit => ": not hexadecimal",
            Cause::Odd => ": an odd count of digits",
            Cause::Size => ": too few or too many digits",
            Cause::Zero => ": the address is zero",
            Cause::Group => ": a group address",
            Cause::NoNumber => ": no number of one to ten decimal digits",
            Cause::NoPacketNumber => ": no number from 1 to 4294967295",
            Cause::NoNode => ": no node, as a1 or s1",
            Cause::NoPeer => ": neither a node, as a1 or s1, nor all",
            Cause::NoTid => ": neither a number up to 15 nor -",
            Cause::NoTo => ": not the word to",
            Cause::NoSuite => ": none of these suites",
            Cause::NoKeyWord => ": neither psk nor passphrase",
            Cause::NoStaOrAll => ": neither a station, as s1, nor all",
            Cause::Short => ": too few octets",
            Cause::Long => ": too many octets",
            Cause::OtherKind => ": a node of the other kind",
            Cause::Stations => ": stations take no part in a round",
            Cause::Aps(_) => ": access points listed: ",
            Cause::Stas(_) => ": stations listed: ",
            Cause::Frames(_) => ": frames sent before: ",
            Cause::Octets(_) => ": octets of the frame: ",
            Cause::UsedAddress => ": the address",
            Cause::UsedId => ": the R0KH-ID",
            Cause::OtherEnd => ": only at the other end of a link",
            Cause::Asks(_) => ": questions asked before: ",
        }
    }

    /// The number that stands behind its words.
    pub fn count(self) -> Option<u64>
        ensures { result ≡ cause_count self }
    {
        match self {
            Cause::Aps(count) => Some(count),
            Cause::Stas(count) => Some(count),
            Cause::Frames(count) => Some(count),
            Cause::Octets(count) => Some(count),
            Cause::Asks(count) => Some(count),
            _ => None,
        }
    }
}
