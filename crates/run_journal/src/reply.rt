//! What a part of a node gives back beside an outcome.

use crate::acts::Kind;
use key_hierarchy::{Ptk, PullAnswer};

/// The octets that a reply has room for.
pub const REPLY_LEN: usize = 512;

/// A pairwise key with the nonces that it was derived from.
#[derive(Clone, Copy, PartialEq, Eq)]
pub struct Keyed {
    /// The key.
    pub ptk: Ptk,
    /// The access point's nonce.
    pub anonce: [u8; 32],
    /// The station's nonce.
    pub snonce: [u8; 32],
}

/// A group key that came, of either kind.
#[derive(Clone, Copy)]
pub struct GtkNews {
    /// Whether the station had it, and it is taken into use again.
    pub resumed: bool,
    /// The key id under which it is used: of a group temporal key from 1 to 3, of an integrity group
    /// temporal key 4 or 5.
    pub id: u8,
    /// The key.
    pub key: [u8; 16],
}

/// What a message, or the sending of one, comes to beside its outcome. It takes no memory.
#[derive(Clone, Copy)]
pub struct Reply {
    /// The air frame to send, at the front. What stands behind its last octet is no part of it, and
    /// nothing is said of it.
    pub octets: [u8; REPLY_LEN],
    /// How many octets it has: 0 where nothing is sent.
    pub len: usize,
    /// Its kind; of an attempt that was given up, that of the message that was sent in vain.
    pub kind: Kind,
    /// The KCK under which it is sealed, where it is.
    pub sealed: Option<[u8; 16]>,
    /// The KCK under which the frame that was taken verified, where it did.
    pub verified: Option<[u8; 16]>,
    /// The pairwise key that was derived.
    pub derived: Option<Keyed>,
    /// The pairwise key that was installed.
    pub installed: Option<Keyed>,
    /// The group temporal key that was installed or resumed.
    pub gtk: Option<GtkNews>,
    /// The integrity group temporal key that was installed or resumed.
    pub igtk: Option<GtkNews>,
    /// What a key holder answered, where one was asked.
    pub looked: Option<PullAnswer>,
}

impl Reply {
    ghost use Rattle.run_journal.specs.Replies.{IsEmpty};

    /// Nothing: no frame and no key.
    pub fn empty() -> Self
        ensures { IsEmpty result }
    {
        Reply {
            octets: [0; REPLY_LEN],
            len: 0,
            kind: Kind::Ignored,
            sealed: None,
            verified: None,
            derived: None,
            installed: None,
            gtk: None,
            igtk: None,
            looked: None,
        }
    }
}
