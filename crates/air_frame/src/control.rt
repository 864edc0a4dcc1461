//! What the first octets of a header say.

ghost use Rattle.std.specs.Prelude.{◌≡◌, ◌<◌, ◌≤◌, ◌+◌, ◌==◌, ◌||◌, nat_le, length};
ghost use Rattle.std.specs.Int.{bit_at};
ghost use Rattle.air_frame.specs.Control.{frame_control, protocol_version, frame_type};
ghost use Rattle.air_frame.specs.Control.{frame_subtype, fragment_number, is_management, is_data};
ghost use Rattle.air_frame.specs.Control.{is_qos, has_a_msdu, data_header_length};
ghost use Rattle.air_frame.specs.Control.{is_to_group, is_group_action, is_action, ends_in_mme};

use domain_base::little_u16_at;

// Bits of the Frame Control field.
pub(crate) const TO_DS: u32 = 8;

pub(crate) const FROM_DS: u32 = 9;

pub(crate) const MORE_FRAGMENTS: u32 = 10;

pub(crate) const PROTECTED: u32 = 14;

pub(crate) const HT_CONTROL: u32 = 15;

/// The subtype of action frames.
pub(crate) const ACTION: u16 = 13;

/// Whether that bit of the number is set.
pub(crate) fn is_set(number: u16, bit: u32) -> bool
    requires { bit < 16 }
    ensures { result ≡ (bit_at number bit == 1) }
{
    number >> bit & 1 == 1
}

/// The Frame Control field.
#[tactic(auto, unfolding(crate::specs::Control::frame_control))]
pub(crate) fn frame_control(octets: &[u8]) -> u16
    requires { 2 ≤ length octets.now }
    ensures { result ≡ frame_control octets.now }
{
    little_u16_at(octets, 0)
}

pub(crate) fn version(octets: &[u8]) -> u16
    requires { 2 ≤ length octets.now }
    ensures { result ≡ protocol_version octets.now }
{
    frame_control(octets) & 3
}

pub(crate) fn subtype(octets: &[u8]) -> u16
    requires { 2 ≤ length octets.now }
    ensures { result ≡ frame_subtype octets.now }
{
    frame_control(octets) >> 4 & 15
}

fn kind(octets: &[u8]) -> u16
    requires { 2 ≤ length octets.now }
    ensures { result ≡ frame_type octets.now }
{
    frame_control(octets) >> 2 & 3
}

// Whether management frames of that subtype are read, to whomever they go.
fn is_read(subtype: u16) -> bool
    ensures { result ≡ (nat_le subtype 3 || subtype == 11) }
{
    subtype <= 3 || subtype == 11
}

// Whether the receiver is there and is a group.
fn is_to_group(octets: &[u8]) -> bool
    ensures { result ≡ is_to_group octets.now }
{
    octets.len() >= 10 && octets[4] % 2 == 1
}

// Action to a group.
fn is_group_action(octets: &[u8]) -> bool
    requires { 2 ≤ length octets.now }
    ensures { result ≡ is_group_action octets.now }
{
    subtype(octets) == ACTION && is_to_group(octets)
}

/// Whether the octets are of an action frame of version 0, by the first octet alone (IEEE Std
/// 802.11-2020, 9.2.4.1.3). Who protects no management frames passes these over, whatever the
/// reading answers.
pub fn is_action(octets: &[u8]) -> bool
    ensures { result ≡ is_action octets.now }
{
    match octets {
        [first, ..] => *first == 0xd0,
        [] => false,
    }
}

/// Whether a body ends in a Management MIC element (9.4.2.54).
pub(crate) fn ends_in_mme(body: &[u8]) -> bool
    requires { 18 ≤ length body.now }
    ensures { result ≡ ends_in_mme body.now }
{
    let at = body.len() - 18;
    body[at] == 0x4c && body[at + 1] == 0x10
}

/// Association, reassociation or authentication, or action to a group.
pub(crate) fn is_management(octets: &[u8]) -> bool
    requires { 2 ≤ length octets.now }
    ensures { result ≡ is_management octets.now }
{
    kind(octets) == 0 && (is_read(subtype(octets)) || is_group_action(octets))
}

/// Data or QoS data.
pub(crate) fn is_data(octets: &[u8]) -> bool
    requires { 2 ≤ length octets.now }
    ensures { result ≡ is_data octets.now }
{
    let subtype = subtype(octets);
    kind(octets) == 2 && (subtype == 0 || subtype == 8)
}

pub(crate) fn is_qos(octets: &[u8]) -> bool
    requires { 2 ≤ length octets.now }
    ensures { result ≡ is_qos octets.now }
{
    subtype(octets) == 8
}

/// How long the header of a data frame is.
pub(crate) fn data_header_length(octets: &[u8]) -> usize
    requires { 2 ≤ length octets.now }
    ensures { result ≡ data_header_length octets.now }
{
    if is_qos(octets) { 26 } else { 24 }
}

/// The fragment number in the Sequence Control field.
pub(crate) fn fragment(octets: &[u8]) -> u8
    requires { 24 ≤ length octets.now }
    ensures { result ≡ fragment_number octets.now }
{
    octets[22] & 15
}

/// Whether a QoS data frame has the bit A-MSDU Present.
pub(crate) fn has_a_msdu(octets: &[u8]) -> bool
    requires { data_header_length octets.now ≤ length octets.now }
    ensures { result ≡ has_a_msdu octets.now }
{
    is_qos(octets) && is_set(octets[24].into(), 7)
}
