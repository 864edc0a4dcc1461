//! What a node does, act by act.

use crate::seal::BoxedSeal;
use domain_base::{Mac, Node, Octets, Peer, ShortOctets, Tid};
use eapol_key::{FrameFault, Message};
use key_hierarchy::{Ptk, PullAnswer, PutAnswer, RevokeAnswer, SharedInputs};
use link_steps::BoxedStep;
use rsn_elements::ElementFault;

/// How an attempt began.
#[derive(Clone, Copy, PartialEq, Eq)]
pub enum Start {
    /// By association and a four-way handshake.
    Connect,
    /// By fast transition over the air.
    Roam,
    /// By a four-way handshake inside a session, whose pairwise key it renews.
    Renew,
}

/// What of a peer was closed.
#[derive(Clone, Copy, PartialEq, Eq)]
pub enum Part {
    /// The attempt: no pairwise key was installed in it yet.
    Attempt,
    /// The session under an installed pairwise key.
    Session,
}

/// The kind of a group key. An access point counts the keys that it draws of each kind apart (IEEE
/// Std 802.11-2020, 12.7.1.4).
#[derive(Clone, Copy, PartialEq, Eq)]
pub enum GroupKind {
    /// A group temporal key, for data.
    Gtk,
    /// An integrity group temporal key, for group-addressed management frames.
    Igtk,
}

/// A value drawn at random, as the standard wants it: never the same one twice.
#[derive(Clone, Copy, PartialEq, Eq)]
pub enum Drawn {
    /// An ANonce or an SNonce.
    Nonce([u8; 32]),
    /// A group key of that kind.
    Group(GroupKind, [u8; 16]),
}

/// The kind of a frame, sent or taken.
#[derive(Clone, Copy, PartialEq, Eq)]
pub enum Kind {
    /// Association request.
    AssocReq,
    /// Association response.
    AssocResp,
    /// First authentication frame of a fast transition.
    FtReq,
    /// Second authentication frame of a fast transition.
    FtResp,
    /// Reassociation request.
    ReReq,
    /// Reassociation response.
    ReResp,
    /// An EAPOL-Key message.
    Key(Message),
    /// Protected data.
    Data,
    /// An Action frame for a group, under an IGTK.
    Action,
    /// A frame that this profile passes over; taken alone.
    Ignored,
    /// Octets that are no air frame; taken alone.
    Unread,
    /// A data frame whose body is no EAPOL-Key message of this profile; taken alone.
    Eapol,
}

/// Why octets are no air frame. A feature that this profile leaves out is a reason of its own
/// (`Reason::OutOfProfile`).
#[derive(Clone, Copy, PartialEq, Eq)]
pub enum MalformedFrame {
    /// Fewer octets than the Frame Control field or the header has. The place is the number of
    /// octets.
    Short(usize),
    /// A protocol version other than 0.
    Version,
    /// A body shorter than its fixed fields, or than the CCMP header and MIC. The place is the
    /// length of the header.
    Body(usize),
}

/// Which reader refused a frame, and where: the place is an offset in what that reader was given.
#[derive(Clone, Copy, PartialEq, Eq)]
pub enum Malformed {
    /// The octets are no air frame.
    Air(MalformedFrame),
    /// The body is no EAPOL-Key frame.
    Key(FrameFault),
    /// The elements of a management body are none.
    Elements(ElementFault),
}

/// What is wrong with opened or plain key data, the least that applies.
#[derive(Clone, Copy, PartialEq, Eq)]
pub enum KeyDataFault {
    /// 1: its elements cannot be read.
    Unreadable,
    /// 2: its RSNE is missing or other.
    Rsne,
    /// 3: its MDE is missing or other.
    Mde,
    /// 4: its FTE is missing or other.
    Fte,
    /// 5: its GTK is missing, not of 16 octets, or has key id 0.
    Gtk,
    /// 6: its IGTK is missing, not of 16 octets, or has a key id other than 4 and 5.
    Igtk,
}

/// Why a frame is refused, in the one order in which the reasons are tried.
#[derive(Clone, Copy, PartialEq, Eq)]
pub enum Reason {
    /// A reader refuses.
    Malformed(Malformed),
    /// A feature that this profile leaves out stands in the frame, by its code.
    OutOfProfile(u8),
    /// The receiver address is another's, or the frame has the direction that the node itself
    /// sends.
    NotForMe,
    /// The transmitter is no listed node of the other kind.
    UnknownPeer,
    /// The message is not awaited now.
    Unawaited,
    /// The replay counter is not above the kept one, or not one that was offered.
    Counter(u64),
    /// A nonce is not that of the attempt or session.
    Nonce,
    /// The MIC does not verify.
    Mic,
    /// The wrapped key data has no plain text.
    Wrap,
    /// The key data is not as it must be.
    KeyData(KeyDataFault),
    /// An element is missing or other, or a response has this status, which is not 0: a status code
    /// of IEEE Std 802.11-2020, 9.4.1.9. That of a response goes before those of its elements.
    Status(u16),
    /// No access point has the R0KH-ID.
    NoHolder,
    /// The PMKID list is not exactly the awaited name, or no row has it.
    Name,
    /// No key is there for a protected frame.
    NoKey,
    /// The packet number is not above the kept one.
    Replayed(u64),
    /// CCM does not verify.
    Seal,
    /// The draw counter is at its end.
    Spent,
}

/// Why an event did nothing.
#[derive(Clone, Copy, PartialEq, Eq)]
pub enum Why {
    /// There is no session to roam from, or none whose key is to be renewed.
    NoSession,
    /// The session is already with that access point.
    SamePeer,
    /// There is nothing to send again or to close, or an attempt is under way beside which no key is
    /// renewed.
    Nothing,
    /// The newest group key is not current yet.
    RekeyPending,
    /// There is no key to send under.
    NoKey,
    /// The draw counter, or the packet number of the key, is at its end.
    Spent,
}

/// What came of a frame or of an event.
#[derive(Clone, Copy, PartialEq, Eq)]
pub enum Outcome {
    /// The frame was accepted.
    Accepted,
    /// The frame repeats one that was accepted, and the reply is given again.
    Answered,
    /// The frame is of a kind that this profile passes over.
    Ignored,
    /// The frame was refused. The node is as before.
    Refused(Reason),
    /// The event was done.
    Done,
    /// After four sends of that message the attempt or session was given up.
    GaveUp(Message),
    /// The event did nothing.
    Idle(Why),
}

/// What a MIC or CCM covers, with the key.
///
/// The octets begin with their form: 1, the EAPOL frame to the end of its body with its MIC zero,
/// under a KCK; 2, the input of the MIC of a fast transition element, under a KCK; 3, nonce,
/// additional data and plain octets of CCM, under a TK or GTK.
#[derive(Drop)]
pub struct Seal {
    /// The form and what is covered.
    pub octets: Octets,
    /// The key.
    pub key: [u8; 16],
}

/// A key that was installed or resumed.
#[derive(Drop)]
pub enum Key {
    /// A pairwise temporal key, with key id 0.
    Pairwise {
        /// The temporal key.
        tk: [u8; 16],
        /// What it was derived from.
        inputs: SharedInputs,
    },
    /// A group key.
    Group {
        /// Its kind.
        kind: GroupKind,
        /// The key.
        key: [u8; 16],
        /// Its key id: of a group temporal key from 1 to 3, of an integrity group temporal key 4 or
        /// 5.
        id: u8,
        /// The access point that drew it.
        bssid: Mac,
    },
}

/// One act of a node.
#[derive(Drop)]
pub enum Act {
    /// An attempt with the peer began.
    Opened {
        /// The other node.
        peer: Node,
        /// By what.
        start: Start,
    },
    /// An attempt or a session with the peer ended.
    Closed {
        /// The other node.
        peer: Node,
        /// Which of the two.
        part: Part,
    },
    /// A value was drawn. Not printed.
    Drew {
        /// The value.
        value: Drawn,
    },
    /// A pairwise key was derived. Not printed.
    Derived {
        /// The other node.
        peer: Node,
        /// What from.
        inputs: SharedInputs,
        /// The key.
        ptk: Ptk,
    },
    /// A frame left the node.
    Sent {
        /// To whom.
        peer: Peer,
        /// Its kind.
        kind: Kind,
        /// The whole air frame.
        octets: Octets,
        /// What is sealed in it.
        seal: Option<BoxedSeal>,
    },
    /// A frame came to the node.
    Took {
        /// The listed node that its transmitter address names, where the frame was read and there
        /// is one.
        from: Option<Node>,
        /// The octets that came.
        octets: Octets,
        /// Its kind.
        kind: Kind,
        /// What came of it: accepted, answered, ignored or refused.
        outcome: Outcome,
        /// What was sealed in it, where the MIC or CCM verified.
        seal: Option<BoxedSeal>,
    },
    /// A key was installed.
    Installed {
        /// With whom it serves: a node, or all for an access point's own group key.
        peer: Peer,
        /// The key.
        key: Key,
    },
    /// A group key that the station had was taken into use again, its counter not lowered.
    Resumed {
        /// The access point.
        peer: Node,
        /// The key.
        key: Key,
    },
    /// A packet number was used.
    Used {
        /// To whom.
        peer: Peer,
        /// The key.
        key: [u8; 16],
        /// Its key id.
        id: u8,
        /// The packet number.
        number: u64,
        /// The plain octets.
        octets: Octets,
    },
    /// A payload was handed up.
    HandedUp {
        /// From whom.
        peer: Node,
        /// The key.
        key: [u8; 16],
        /// Its key id.
        id: u8,
        /// Whose counter it was: 0 for a group key.
        tid: Tid,
        /// The packet number.
        number: u64,
        /// The plain octets.
        octets: Octets,
    },
    /// A final message was accepted.
    Finished {
        /// The other node.
        peer: Node,
        /// What the session's key was derived from.
        inputs: SharedInputs,
    },
    /// An access point gave its key holder the PMK-R0 of a station.
    Put {
        /// The R0KH-ID of the holder.
        r0kh_id: Octets,
        /// PMKR0Name.
        name: [u8; 16],
        /// The station.
        sta: Node,
        /// What the holder answered.
        answer: PutAnswer,
    },
    /// An access point asked for the PMK-R1 of a station.
    Looked {
        /// The R0KH-ID of the holder that was asked.
        r0kh_id: Octets,
        /// PMKR0Name.
        name: [u8; 16],
        /// The station.
        sta: Node,
        /// What the holder answered.
        answer: PullAnswer,
    },
    /// An access point told its key holder to hold the PMK-R0 of a station no longer.
    Revoked {
        /// The R0KH-ID of the holder, which takes no memory of its own: a changed key is told of
        /// where there is room for the act.
        r0kh_id: ShortOctets<48>,
        /// PMKR0Name; 16 zero octets with AKM suites 2 and 6.
        name: [u8; 16],
        /// The station.
        sta: Node,
        /// What the holder answered.
        answer: RevokeAnswer,
    },
    /// The pre-shared key of a station was changed: the station's own, or that which an access
    /// point has of it.
    Secret {
        /// The station.
        sta: Node,
        /// The new key.
        psk: [u8; 32],
    },
    /// Four sends of the message brought no answer.
    GaveUp {
        /// The other node.
        peer: Node,
        /// The message.
        message: Message,
    },
    /// An event did nothing.
    Idle {
        /// Why.
        why: Why,
    },
    /// A step of an end of a link between two processes. No node of a domain does it.
    Link {
        /// The station of a revocation, which the report names; none of any other step.
        sta: Option<Mac>,
        /// What happened, what was sent, and what became of it.
        step: BoxedStep,
    },
}

/// An act in a run: when, at which node and, for a frame sent, its number.
#[derive(Drop)]
pub struct Entry {
    /// The round, from 1; 0 for what access points do as they start.
    pub round: u64,
    /// The node.
    pub node: Node,
    /// The number of the frame sent, from 1; 0 for every other act.
    pub number: u64,
    /// What the node did.
    pub act: Act,
}
