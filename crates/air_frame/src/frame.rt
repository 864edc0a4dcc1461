//! Air frames as values, and why octets are none.

use domain_base::{Mac, Tid};

/// Which way a data frame goes (IEEE Std 802.11-2020, 9.2.4.1.4).
#[derive(Clone, Copy, PartialEq, Eq)]
pub enum Direction {
    /// From a station to its access point: only the bit To DS is set.
    ToDs,
    /// From an access point to a station or a group: only the bit From DS is set.
    FromDs,
}

/// A MAC header (IEEE Std 802.11-2020, 9.2.3).
#[derive(Clone, Copy)]
pub struct Header<'a> {
    /// The whole header: 24 octets, and 26 in QoS data.
    pub octets: &'a [u8],
    /// Address 1, the receiver.
    pub a1: Mac,
    /// Address 2, the transmitter.
    pub a2: Mac,
    /// Address 3: the BSSID, or in data to a distribution system its destination, or from one its
    /// source.
    pub a3: Mac,
}

/// An association request (IEEE Std 802.11-2020, 9.3.3.5).
#[derive(Clone, Copy)]
pub struct AssocReq<'a> {
    /// The MAC header.
    pub header: Header<'a>,
    /// Capability Information, low octet first.
    pub capability: u16,
    /// In beacon intervals, low octet first.
    pub listen_interval: u16,
    /// The octets behind the fixed fields.
    pub elements: &'a [u8],
}

/// A response to an association or reassociation request (IEEE Std 802.11-2020, 9.3.3.6 and
/// 9.3.3.8).
#[derive(Clone, Copy)]
pub struct AssocResp<'a> {
    /// The MAC header.
    pub header: Header<'a>,
    /// Capability Information, low octet first.
    pub capability: u16,
    /// 0 is success.
    pub status: u16,
    /// The association identifier as it is sent, with the two highest bits.
    pub aid: u16,
    /// The octets behind the fixed fields.
    pub elements: &'a [u8],
}

/// A reassociation request (IEEE Std 802.11-2020, 9.3.3.7).
#[derive(Clone, Copy)]
pub struct ReassocReq<'a> {
    /// The MAC header.
    pub header: Header<'a>,
    /// Capability Information, low octet first.
    pub capability: u16,
    /// In beacon intervals, low octet first.
    pub listen_interval: u16,
    /// The access point that the station leaves.
    pub current_ap: Mac,
    /// The octets behind the fixed fields.
    pub elements: &'a [u8],
}

/// An authentication frame of the fast transition algorithm (IEEE Std 802.11-2020, 9.3.3.11).
#[derive(Clone, Copy)]
pub struct FtAuthentication<'a> {
    /// The MAC header.
    pub header: Header<'a>,
    /// 0 is success. A request says nothing by it.
    pub status: u16,
    /// The octets behind the fixed fields.
    pub elements: &'a [u8],
}

/// An action frame to a group, under BIP (IEEE Std 802.11-2020, 9.3.3.13).
#[derive(Clone, Copy)]
pub struct Action<'a> {
    /// The MAC header.
    pub header: Header<'a>,
    /// All behind the MAC header: at least an octet, and then the Management MIC element of 18
    /// octets.
    pub body: &'a [u8],
}

/// Data or QoS data (IEEE Std 802.11-2020, 9.3.2.1).
#[derive(Clone, Copy)]
pub struct Data<'a> {
    /// The MAC header.
    pub header: Header<'a>,
    /// To a distribution system or from one.
    pub direction: Direction,
    /// The traffic identifier, in QoS data alone.
    pub tid: Option<Tid>,
    /// Of EAPOL data the octets behind the LLC and SNAP header, of protected data all behind the
    /// MAC header: the CCMP header of 8 octets, the cipher text, and the MIC of 8 octets.
    pub body: &'a [u8],
}

/// A frame of the profile, over the octets that it was read from.
#[derive(Clone, Copy)]
pub enum AirFrame<'a> {
    /// An association request.
    AssocReq(AssocReq<'a>),
    /// A response to one.
    AssocResp(AssocResp<'a>),
    /// The first message of a fast transition: transaction sequence number 1.
    FtReq(FtAuthentication<'a>),
    /// The second: transaction sequence number 2.
    FtResp(FtAuthentication<'a>),
    /// A reassociation request.
    ReReq(ReassocReq<'a>),
    /// A response to a reassociation request.
    ReResp(AssocResp<'a>),
    /// An action frame to a group, with its Management MIC element as it came.
    Action(Action<'a>),
    /// An EAPOL frame in data that is not protected.
    Eapol(Data<'a>),
    /// Data under CCMP, sealed as it came.
    Protected(Data<'a>),
    /// Anything else of version 0: other types and subtypes, action to one receiver, and
    /// authentication that is no message of a fast transition.
    Ignored,
}

impl<'a> AirFrame<'a> {
    ghost use Rattle.std.specs.Prelude.{◌≡◌};
    ghost use Rattle.std.specs.Option.{option_map};
    ghost use Rattle.air_frame.specs.Fields.{header_in};
    ghost use Rattle.air_frame.specs.Views.{header_of, fields_of};

    /// The header of a frame that is not passed over.
    pub fn header(&self) -> Option<Header<'a>>
        ensures { option_map header_of result ≡ header_in (fields_of self.now) }
    {
        match self {
            AirFrame::AssocReq(f) => Some(f.header),
            AirFrame::AssocResp(f) | AirFrame::ReResp(f) => Some(f.header),
            AirFrame::FtReq(f) | AirFrame::FtResp(f) => Some(f.header),
            AirFrame::ReReq(f) => Some(f.header),
            AirFrame::Action(f) => Some(f.header),
            AirFrame::Eapol(f) | AirFrame::Protected(f) => Some(f.header),
            AirFrame::Ignored => None,
        }
    }
}

/// Why octets are no frame of the profile.
#[derive(Clone, Copy, PartialEq, Eq)]
pub enum AirFault {
    /// Fewer octets than the Frame Control field or the header has. The place is the number of
    /// octets.
    Short(usize),
    /// A protocol version other than 0.
    Version,
    /// Outside the profile: 8 the bits To DS and From DS, 10 more fragments, 14 protected
    /// management, 15 an HT Control field, 16 a fragment number, 17 an A-MSDU, 18 data that is
    /// neither protected nor EAPOL, 20 a protected body without ExtIV.
    OutOfProfile(u8),
    /// A body shorter than its fixed fields, or than the CCMP header and MIC, or an action frame to
    /// a group that has no octet before a Management MIC element at its end. The place is the
    /// length of the header.
    Body(usize),
}

impl AirFault {
    ghost use Rattle.std.specs.Prelude.{◌≡◌};
    ghost use Rattle.air_frame.specs.FaultNumbers.{fault_number};

    /// The number of its kind: 1 `Short`, 2 `Version`, 3 `OutOfProfile`, 4 `Body`.
    pub fn number(self) -> u8
        ensures { result ≡ fault_number self }
    {
        match self {
            AirFault::Short(_) => 1,
            AirFault::Version => 2,
            AirFault::OutOfProfile(_) => 3,
            AirFault::Body(_) => 4,
        }
    }
}
