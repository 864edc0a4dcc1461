//! Why a line is refused, by name, with its number and its text.

ghost use Rattle.std.specs.Prelude.{◌≡◌};
ghost use Rattle.script_lines.specs.Refusals.{limit_of, reason_of, refusal_text};

/// Why a script goes no further at a line, whatever memory there is: the line is outside the
/// grammar, or goes past a limit.
#[derive(Clone, Copy)]
pub enum Refusal {
    /// The first line is neither `domain 1` nor `domain 2`.
    Version,
    /// No such word in this place.
    Word,
    /// The number or form of the arguments.
    Arguments,
    /// A node that is not listed or of the other kind, or in a round a station that takes a frame
    /// or sends a payload.
    Node,
    /// A frame that was not sent; in a round, one that was not sent before it.
    Frame,
    /// A place or length outside the frame.
    Place,
    /// A round that is open at the script's end.
    Unclosed,
    /// An address or R0KH-ID used before.
    Duplicate,
    /// A line of the other kind of run: only a live run has `seed draw` and `turn`, only a replay
    /// has `deliver`, `alter` and `cut`.
    Mode,
    /// More lines than a script may have. The reader of a line does not count them.
    ManyLines,
    /// More octets than a line may have. The reader of a line does not count them.
    LongLine,
    /// Too many octets for a frame.
    LongFrame,
    /// Too many frames sent before an event, a round or a turn.
    ManyFrames,
    /// Too many access points.
    ManyAps,
    /// Too many stations.
    ManyStas,
    /// Too many octets for a payload.
    LongPayload,
    /// Too many events in a round.
    ManyEvents,
}

impl Refusal {
    /// It in words.
    pub fn text(self) -> &'static str
        ensures { result.now ≡ refusal_text self }
    {
        match self {
            Refusal::Version => "not the first line of a script",
            Refusal::Word => "no such word here",
            Refusal::Arguments => "wrong arguments",
            Refusal::Node => "no such node, or a node of the other kind",
            Refusal::Frame => "no such frame was sent",
            Refusal::Place => "place or length outside the frame",
            Refusal::Unclosed => "the script ends in a round",
            Refusal::Duplicate => "address or R0KH-ID used before",
            Refusal::Mode => "no such line in this kind of run",
            Refusal::ManyLines => "more than 65536 lines",
            Refusal::LongLine => "a line of more than 8192 octets",
            Refusal::LongFrame => "an injected frame of more than 2400 octets",
            Refusal::ManyFrames => "more than 65535 frames sent",
            Refusal::ManyAps => "more than 64 access points",
            Refusal::ManyStas => "more than 1024 stations",
            Refusal::LongPayload => "a payload of more than 2304 octets",
            Refusal::ManyEvents => "more than 1024 events in a round",
        }
    }

    /// The one whose reason has that number.
    pub fn of_reason(reason: u8) -> Option<Refusal>
        ensures { result ≡ reason_of reason }
    {
        match reason {
            1 => Some(Refusal::Version),
            2 => Some(Refusal::Word),
            3 => Some(Refusal::Arguments),
            4 => Some(Refusal::Node),
            5 => Some(Refusal::Frame),
            6 => Some(Refusal::Place),
            7 => Some(Refusal::Unclosed),
            8 => Some(Refusal::Duplicate),
            9 => Some(Refusal::Mode),
            _ => None,
        }
    }

    /// The one whose limit has that number.
    pub fn of_limit(limit: u8) -> Option<Refusal>
        ensures { result ≡ limit_of limit }
    {
        match limit {
            1 => Some(Refusal::ManyLines),
            2 => Some(Refusal::LongLine),
            3 => Some(Refusal::LongFrame),
            4 => Some(Refusal::ManyFrames),
            5 => Some(Refusal::ManyAps),
            6 => Some(Refusal::ManyStas),
            7 => Some(Refusal::LongPayload),
            8 => Some(Refusal::ManyEvents),
            _ => None,
        }
    }
}

/// Why a line is not taken.
#[derive(Clone, Copy)]
pub enum Untaken {
    /// It is refused.
    Refused(Refusal),
    /// Memory ran out.
    NoMemory,
}

/// Why a line is not taken, by number. The reader has said nothing by it.
#[derive(Clone, Copy)]
pub enum LineFault {
    /// The line is outside the grammar, for that reason: 1 it is the first and neither `domain 1` nor
    /// `domain 2`; 2 no such word in this place; 3 the number or form of its arguments; 4 a node that
    /// is not listed or of the other kind; 5 a frame that was not sent; 6 a place or length outside
    /// the frame; 7 a round that is open at the script's end; 8 an address or R0KH-ID used before; 9
    /// a line of the other kind of run.
    Script(u8),
    /// It goes past that limit: 3 octets of an injected frame; 4 frames sent; 5 access points; 6
    /// stations; 7 octets of a payload; 8 events in a round.
    Limit(u8),
    /// Memory ran out.
    NoMemory,
}

impl From<Refusal> for LineFault {
    ghost use Rattle.std.specs.Prelude.{◌≡◌};
    ghost use Rattle.script_lines.specs.Refusals.{answer_of, fault_of};

    ghost from_gives = { λ r e. e ≡ answer_of (fault_of r) };

    fn from(refusal: Refusal) -> Self {
        match refusal {
            Refusal::Version => LineFault::Script(1),
            Refusal::Word => LineFault::Script(2),
            Refusal::Arguments => LineFault::Script(3),
            Refusal::Node => LineFault::Script(4),
            Refusal::Frame => LineFault::Script(5),
            Refusal::Place => LineFault::Script(6),
            Refusal::Unclosed => LineFault::Script(7),
            Refusal::Duplicate => LineFault::Script(8),
            Refusal::Mode => LineFault::Script(9),
            Refusal::ManyLines => LineFault::Limit(1),
            Refusal::LongLine => LineFault::Limit(2),
            Refusal::LongFrame => LineFault::Limit(3),
            Refusal::ManyFrames => LineFault::Limit(4),
            Refusal::ManyAps => LineFault::Limit(5),
            Refusal::ManyStas => LineFault::Limit(6),
            Refusal::LongPayload => LineFault::Limit(7),
            Refusal::ManyEvents => LineFault::Limit(8),
        }
    }
}

impl From<Untaken> for LineFault {
    ghost use Rattle.std.specs.Prelude.{◌≡◌};
    ghost use Rattle.script_lines.specs.Refusals.{numbered};

    ghost from_gives = { λ s e. e ≡ numbered s };

    fn from(untaken: Untaken) -> Self {
        match untaken {
            Untaken::Refused(refusal) => refusal.into(),
            Untaken::NoMemory => LineFault::NoMemory,
        }
    }
}
