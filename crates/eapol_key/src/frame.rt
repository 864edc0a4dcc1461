//! A frame as it is read, and why octets are none.

ghost use Rattle.std.specs.Prelude.{◌≡◌};
ghost use Rattle.eapol_key.specs.KeyFrame.{fault_code};

/// The fields of an EAPOL-Key frame, over the octets that it was read from
/// (IEEE Std 802.11-2020, 12.7.2).
#[derive(Clone, Copy)]
pub struct KeyFrame<'a> {
    /// The EAPOL version, 1 to 3.
    pub version: u8,
    /// The key information, whose bits tell the messages apart.
    pub information: u16,
    /// The length of the temporal key, not looked at.
    pub key_length: u16,
    /// The key replay counter.
    pub counter: u64,
    /// The ANonce or SNonce, where the message carries one.
    pub nonce: [u8; 32],
    /// The EAPOL-Key IV, not looked at.
    pub iv: [u8; 16],
    /// The receive sequence counter, lowest octet first.
    pub rsc: [u8; 8],
    /// The reserved field, not looked at.
    pub reserved: [u8; 8],
    /// The MIC.
    pub mic: [u8; 16],
    /// The key data, wrapped or plain.
    pub key_data: &'a [u8],
    /// All octets of the frame, from the EAPOL version to the end of the key data.
    pub octets: &'a [u8],
}

/// Why octets begin with no EAPOL-Key frame.
#[derive(Clone, Copy, PartialEq, Eq)]
pub enum FaultKind {
    /// There are fewer than the four octets of an EAPOL header.
    Short,
    /// The EAPOL version is not 1 to 3, or the packet type is not EAPOL-Key.
    PacketType,
    /// The descriptor type is not that of 802.11.
    Descriptor,
    /// The body is shorter than the fixed fields, or longer than the octets given.
    BodyLength,
    /// The key data does not end with the body.
    KeyDataLength,
}

impl FaultKind {
    /// The number of the kind, from 1.
    pub fn code(self) -> u8
        ensures { result ≡ fault_code self }
    {
        match self {
            FaultKind::Short => 1,
            FaultKind::PacketType => 2,
            FaultKind::Descriptor => 3,
            FaultKind::BodyLength => 4,
            FaultKind::KeyDataLength => 5,
        }
    }
}

/// The first fault of octets that begin with no EAPOL-Key frame.
#[derive(Clone, Copy, PartialEq, Eq)]
pub struct FrameFault {
    /// Where the field at fault begins; of a short frame, the number of its octets.
    pub place: usize,
    /// Why it is one.
    pub kind: FaultKind,
}
