//! Delivered frames as values.

ghost use Rattle.std.specs.Prelude.{◌≡◌};
ghost use Rattle.domain_rules.specs.Reading.{kind_of};
ghost use Rattle.frame_intake.specs.Views.{reading_of};

use air_frame::{Action, AirFault, Direction, Header};
use eapol_key::{FrameFault, KeyFrame, Message};
use rsn_elements::{ElementFault, Elements};
use run_journal::Kind;

/// A management frame: its kind, its header, its status (0 in a request) and the octets of its
/// elements.
#[derive(Clone, Copy)]
pub struct Management<'a> {
    /// Which of the management frames it is.
    pub kind: Kind,
    /// Its header.
    pub header: Header<'a>,
    /// The status that a response carries, 0 in a request.
    pub status: u16,
    /// The octets behind the fixed fields.
    pub elements: &'a [u8],
}

/// An EAPOL-Key message in a data frame.
#[derive(Clone, Copy)]
pub struct KeyMessage<'a> {
    /// The header of the data frame.
    pub header: Header<'a>,
    /// Which way the data frame goes.
    pub direction: Direction,
    /// Which message it is.
    pub message: Message,
    /// Its fields, and its octets to the end of its body.
    pub frame: KeyFrame<'a>,
}

/// An EAPOL-Key message that came, and the octets of the air frame that it came in.
#[derive(Clone, Copy)]
pub struct Heard<'a> {
    /// The octets that came.
    pub octets: &'a [u8],
    /// The message in them.
    pub message: KeyMessage<'a>,
}

/// Protected data.
#[derive(Clone, Copy)]
pub struct SealedData<'a> {
    /// Its header, of 24 octets or in QoS data 26.
    pub header: Header<'a>,
    /// Which way it goes.
    pub direction: Direction,
    /// The number of its TID, in QoS data.
    pub tid: Option<u8>,
    /// Its body: the CCMP header, what is encrypted, and the MIC.
    pub body: &'a [u8],
}

/// What the octets of a delivered frame are to a node.
#[derive(Clone, Copy)]
pub enum Delivered<'a> {
    /// The octets are no air frame of the profile.
    NoFrame(AirFault),
    /// A frame that the profile passes over.
    PassedOver,
    /// A management frame whose elements cannot be read.
    NoElements(Management<'a>, ElementFault),
    /// A management frame and what its elements say.
    Managed(Management<'a>, Elements<'a>),
    /// An EAPOL data frame whose body is no EAPOL-Key frame.
    NoKeyFrame(Header<'a>, FrameFault),
    /// An EAPOL-Key frame that is no message of the profile.
    NoMessage(Header<'a>),
    /// An EAPOL-Key message.
    Keyed(KeyMessage<'a>),
    /// A protected data frame.
    Sealed(SealedData<'a>),
    /// An action frame to a group, whose body ends in a Management MIC element.
    Acting(Action<'a>),
}

impl<'a> Delivered<'a> {
    /// The kind under which it stands in the journal.
    pub fn kind(&self) -> Kind
        ensures { result ≡ kind_of (reading_of self.now) }
    {
        match self {
            Delivered::NoFrame(_) => Kind::Unread,
            Delivered::PassedOver => Kind::Ignored,
            Delivered::NoElements(frame, _) => frame.kind,
            Delivered::Managed(frame, _) => frame.kind,
            Delivered::NoKeyFrame(_, _) => Kind::Eapol,
            Delivered::NoMessage(_) => Kind::Eapol,
            Delivered::Keyed(message) => Kind::Key(message.message),
            Delivered::Sealed(_) => Kind::Data,
            Delivered::Acting(_) => Kind::Action,
        }
    }
}
