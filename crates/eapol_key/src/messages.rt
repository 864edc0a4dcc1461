//! The six messages, told apart by key information and key data.

ghost use Rattle.std.specs.Prelude.{◌≡◌, ◌<◌, ◌↔◌, IsTrue, Some, None};
ghost use Rattle.eapol_key.specs.Fields.{fields_of};
ghost use Rattle.eapol_key.specs.Messages.{BitsFit, IsMessage, Meets, descriptor_version, has_bit};
ghost use Rattle.eapol_key.specs.Messages.{row, row_of};
ghost use Rattle.eapol_key.specs.declared.messages.Message.{Message};

use crate::frame::KeyFrame;
use domain_base::Akm;

/// The messages of the four-way handshake and of the group key handshake
/// (IEEE Std 802.11-2020, 12.7.6 and 12.7.7).
#[derive(Clone, Copy, PartialEq, Eq)]
pub enum Message {
    /// First message of the four-way handshake, with the ANonce.
    M1,
    /// Second message of the four-way handshake, with the SNonce.
    M2,
    /// Third message of the four-way handshake, with the group key.
    M3,
    /// Fourth message of the four-way handshake.
    M4,
    /// First message of the group key handshake, with the group key.
    G1,
    /// Second message of the group key handshake.
    G2,
}

// The bits of the key information.
const PAIRWISE: u16 = 3;

const INSTALL: u16 = 6;

const ACK: u16 = 7;

const MIC: u16 = 8;

const SECURE: u16 = 9;

const ERROR: u16 = 10;

const REQUEST: u16 = 11;

const ENCRYPTED: u16 = 12;

const MESSAGES: [Message; 6] = [
    Message::M1,
    Message::M2,
    Message::M3,
    Message::M4,
    Message::G1,
    Message::G2,
];

/// What a message asks of a bit, or of its key data.
#[derive(Clone, Copy)]
pub enum Asked {
    /// The bit is 1, or there is key data.
    Set,
    /// The bit is 0, or there is no key data.
    Off,
    /// It is not looked at.
    Any,
}

/// What a message asks of its key information and key data.
#[derive(Clone, Copy)]
pub struct Row {
    /// Key Type: set for a pairwise key.
    pub pairwise: Asked,
    /// Install.
    pub install: Asked,
    /// Key Ack.
    pub ack: Asked,
    /// Key MIC.
    pub mic: Asked,
    /// Secure.
    pub secure: Asked,
    /// Encrypted Key Data.
    pub encrypted: Asked,
    /// Whether there is key data.
    pub key_data: Asked,
}

impl Asked {
    fn meets(self, bit: bool) -> bool
        ensures { IsTrue result ↔ Meets self bit }
    {
        match self {
            Asked::Set => bit,
            Asked::Off => !bit,
            Asked::Any => true,
        }
    }
}

fn make_row(
    pairwise: Asked,
    install: Asked,
    ack: Asked,
    mic: Asked,
    secure: Asked,
    encrypted: Asked,
    key_data: Asked,
) -> Row
    ensures { result ≡ row pairwise install ack mic secure encrypted key_data }
{
    Row {
        pairwise,
        install,
        ack,
        mic,
        secure,
        encrypted,
        key_data,
    }
}

// The table of the messages: Pairwise, Install, Ack, MIC, Secure, Encrypted, and whether there is
// key data.
fn row_of(message: Message) -> Row
    ensures { result ≡ row_of message }
{
    use Asked::{Any, Off, Set};

    match message {
        Message::M1 => make_row(Set, Off, Set, Off, Any, Off, Any),
        Message::M2 => make_row(Set, Off, Off, Set, Any, Off, Set),
        Message::M3 => make_row(Set, Set, Set, Set, Set, Set, Any),
        Message::M4 => make_row(Set, Off, Off, Set, Set, Off, Off),
        Message::G1 => make_row(Off, Off, Set, Set, Set, Set, Any),
        Message::G2 => make_row(Off, Off, Off, Set, Set, Off, Any),
    }
}

/// The key descriptor version of an AKM, 2 or 3.
pub fn descriptor_version(akm: Akm) -> u16
    ensures value { result ≡ descriptor_version akm }
    ensures range { result < 4 }
{
    match akm {
        Akm::Psk => 2,
        Akm::PskSha256 | Akm::FtPsk => 3,
    }
}

fn has_bit(information: u16, place: u16) -> bool
    requires { place < 16 }
    ensures { result ≡ has_bit information place }
{
    (information >> place) & 1 == 1
}

// The bits of the key information are as the row asks.
fn bits_fit(row: &Row, information: u16) -> bool
    ensures { IsTrue result ↔ BitsFit row.now information }
{
    row.pairwise.meets(has_bit(information, PAIRWISE))
        && row.install.meets(has_bit(information, INSTALL))
        && row.ack.meets(has_bit(information, ACK))
        && row.mic.meets(has_bit(information, MIC))
        && row.secure.meets(has_bit(information, SECURE))
        && row.encrypted.meets(has_bit(information, ENCRYPTED))
}

fn is_message(message: Message, akm: Akm, frame: &KeyFrame<'_>) -> bool
    ensures { IsTrue result ↔ IsMessage akm message (fields_of frame.now) }
{
    let row = row_of(message);
    let information = frame.information;
    let has_key_data = !frame.key_data.is_empty();
    information % 8 == descriptor_version(akm)
        && !has_bit(information, ERROR)
        && !has_bit(information, REQUEST)
        && bits_fit(&row, information)
        && row.key_data.meets(has_key_data)
}

/// The message that a frame is under an AKM, by its key information and whether it has key data
/// (IEEE Std 802.11-2020, 12.7.2, 12.7.6 and 12.7.7), or none. Takes no memory.
pub fn classify(frame: &KeyFrame<'_>, akm: Akm) -> Option<Message>
    ensures found { (message : Message)
        → (result ≡ Some message) ↔ IsMessage akm message (fields_of frame.now) }
    ensures none { (result ≡ None)
        ↔ ((message : Message) → ¬ (IsMessage akm message (fields_of frame.now))) }
{
    for message in MESSAGES {
        if is_message(message, akm, frame) {
            return Some(message);
        }
    }
    None
}
