//! What may stand at each place of a line.

ghost use Rattle.std.specs.Prelude.{◌≡◌, ◌≤◌};
ghost use Rattle.script_words.specs.Kinds.{before_node, is_needed, is_node, kind_at, line_in};

use crate::forms::Form;
use crate::grammar::row_of;

/// What may stand at a place of a line.
#[derive(Clone, Copy)]
pub enum Kind {
    /// Nothing.
    End,
    /// The version of the form.
    Version,
    /// The seed.
    Seed,
    /// The seed, or that it is drawn.
    LiveSeed,
    /// An SSID, to the end of the line.
    Ssid,
    /// A passphrase, to the end of the line.
    Passphrase,
    /// A pre-shared key.
    Psk,
    /// A suite.
    Akm,
    /// A mobility domain.
    Mdid,
    /// An address.
    Address,
    /// An R0KH-ID.
    R0khId,
    /// An access point.
    Ap,
    /// A station.
    Sta,
    /// A node.
    Node,
    /// A node, or all stations.
    Peer,
    /// A traffic identifier, or none.
    Tid,
    /// The number of a frame.
    Number,
    /// The place of an octet.
    Place,
    /// How many octets.
    Length,
    /// One octet.
    Mask,
    /// Octets.
    Octets,
    /// The word `to`.
    To,
    /// Nothing, where in a script of version 2 a key may stand.
    NoKey,
    /// The word of a key, `psk` or `passphrase`, or nothing.
    OwnKey,
    /// The word of a key, `psk` or `passphrase`.
    KeyWord,
    /// The key, as the word before it says; nothing without that.
    Key,
    /// A station, or all stations.
    StaOrAll,
    /// A packet number at which pairwise keys are renewed.
    PacketNumber,
}

/// The form of a line in scripts of version 2, or of version 1: that of a station has two.
pub fn line_in(is_second: bool, form: Form) -> Form
    ensures { result ≡ line_in is_second form }
{
    match form {
        Form::Sta => { if is_second { Form::KeyedSta } else { Form::Sta } }
        form => form,
    }
}

/// What stands in a line of the form where so many words stand before it.
pub fn kind_at(form: Form, before: u64) -> Kind
    ensures { result ≡ kind_at form before }
{
    let words = row_of(form).words;
    match before {
        1 => words.second,
        2 => words.third,
        3 => words.fourth,
        4 => words.fifth,
        5 => words.sixth,
        _ => Kind::End,
    }
}

/// Whether something has to stand there.
pub fn is_needed(kind: Kind) -> bool
    ensures { result ≡ is_needed kind }
{
    !matches!(kind, Kind::End | Kind::NoKey | Kind::OwnKey | Kind::Key)
}

// Whether a node that is listed has to stand there.
fn is_node(kind: Kind) -> bool
    ensures { result ≡ is_node kind }
{
    matches!(kind, Kind::Ap | Kind::Sta | Kind::Node | Kind::StaOrAll)
}

/// How many words stand before the first node in a line of the form, where it has one.
pub fn before_node(form: Form) -> u64
    ensures few { result ≤ 5 }
    ensures value { result ≡ before_node form }
{
    let words = row_of(form).words;
    if is_node(words.second) {
        1
    } else if is_node(words.third) {
        2
    } else if is_node(words.fourth) {
        3
    } else if is_node(words.fifth) {
        4
    } else {
        5
    }
}
