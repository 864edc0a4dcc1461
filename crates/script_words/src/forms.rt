//! The forms of a script's lines.

ghost use Rattle.std.specs.Prelude.{◌≡◌};
ghost use Rattle.script_words.specs.Grammar.{word_of};
ghost use Rattle.script_words.specs.Texts.{form_text};

/// The form that a line should have had.
#[derive(Clone, Copy, Debug, PartialEq)]
pub enum Form {
    /// The version of the form.
    Version,
    /// The seed.
    Seed,
    /// The SSID.
    Ssid,
    /// The pre-shared key, in either of its forms.
    Key,
    /// The pre-shared key by a passphrase.
    Passphrase,
    /// The pre-shared key as it is.
    Psk,
    /// The suite.
    Akm,
    /// The mobility domain.
    Mdid,
    /// The packet number at which access points begin to renew pairwise keys.
    RenewAt,
    /// That group-addressed management frames are protected.
    Mfp,
    /// An access point.
    Ap,
    /// A station.
    Sta,
    /// A station, also with a key of its own, in a script of version 2.
    KeyedSta,
    /// A station that begins an attempt by association.
    Connect,
    /// A station that begins an attempt by fast transition.
    Roam,
    /// A frame that comes.
    Deliver,
    /// A frame that comes with an octet changed.
    Alter,
    /// A frame of which the first octets come.
    Cut,
    /// Octets that come.
    Inject,
    /// What waits for an answer is sent once more.
    Retry,
    /// A new group key.
    Rekey,
    /// A payload that is sent.
    Send,
    /// What an access point drops.
    Expire,
    /// A key that an access point revokes.
    Revoke,
    /// A station that drops what it has.
    Leave,
    /// A changed key of a station, or of all.
    Secret,
    /// A pairwise key that is renewed.
    Renew,
    /// A protected announcement to all stations.
    Announce,
    /// The begin of a round.
    Round,
    /// The end of a round.
    End,
    /// A line of the header that may be left out, an access point, a station, an event or a round.
    First,
    /// After `renew-at`: the line of the header that may follow it, an access point, a station, an
    /// event or a round.
    AfterRenewAt,
    /// An access point, a station, an event or a round.
    Any,
    /// A station, an event or a round.
    StaOrEvent,
    /// An event or a round.
    Event,
    /// An event in a round, or the end of the round.
    EventInRound,
    /// Nodes that take the frames of their links, in a live run.
    Turn,
    /// The seed, or its draw, in a live run.
    LiveSeed,
    /// A line of the header that may be left out, an access point, a station, an event, a turn or a
    /// round, in a live run.
    LiveFirst,
    /// After `renew-at`: the line of the header that may follow it, an access point, a station, an
    /// event, a turn or a round, in a live run.
    LiveAfterRenewAt,
    /// An access point, a station, an event, a turn or a round, in a live run.
    LiveAny,
    /// A station, an event, a turn or a round, in a live run.
    LiveStaOrEvent,
    /// An event, a turn or a round, in a live run.
    LiveEvent,
    /// An event in a round, or the end of the round, in a live run.
    LiveEventInRound,
    /// The version of the form, of the script of one end of a link.
    Link,
    /// The link key.
    LinkKey,
    /// The R0 key holder of a link.
    Holder,
    /// A row that is put.
    Row,
    /// The row of a station that is revoked.
    RevokeRow,
    /// A question that is asked.
    Ask,
    /// A question that is to be open no longer.
    Forget,
    /// An event at the end of a link that has a key holder, or a turn.
    HolderEvent,
    /// An event at the end of a link that asks, or a turn.
    AskerEvent,
}

impl Form {
    /// It as it is written.
    pub fn text(self) -> &'static str
        ensures { result.now ≡ form_text self }
    {
        match self {
            Form::Version => "domain 1 or domain 2",
            Form::Seed => "seed <64 digits>",
            Form::Ssid => "ssid <1 to 32 octets>",
            Form::Key => "passphrase <8 to 63 octets> or psk <64 digits>",
            Form::Passphrase => "passphrase <8 to 63 octets>",
            Form::Psk => "psk <64 digits>",
            Form::Akm => "akm <psk, psk-sha256 or ft-psk>",
            Form::Mdid => "mdid <4 digits>",
            Form::RenewAt => "renew-at <1 to 4294967295>",
            Form::Mfp => "mfp",
            Form::Ap => "ap <12 digits> <R0KH-ID of 1 to 48 octets>",
            Form::Sta => "sta <12 digits>",
            Form::KeyedSta => {
                "sta <12 digits>, also with psk <64 digits> or passphrase <8 to 63 octets>"
            }
            Form::Connect => "connect <sta> <ap>",
            Form::Roam => "roam <sta> <ap>",
            Form::Deliver => "deliver <n> to <node>",
            Form::Alter => "alter <n> <place> <2 digits> to <node>",
            Form::Cut => "cut <n> <length> to <node>",
            Form::Inject => "inject <node> <digits>",
            Form::Retry => "retry <ap> <sta>",
            Form::Rekey => "rekey <ap>",
            Form::Send => "send <node> <node or all> <tid 0 to 15 or -> <digits>",
            Form::Expire => "expire <ap> <sta>",
            Form::Revoke => "revoke <ap> <sta>",
            Form::Leave => "leave <sta>",
            Form::Secret => { "secret <sta or all> psk <64 digits> or passphrase <8 to 63 octets>" }
            Form::Renew => "renew <ap> <sta>",
            Form::Announce => "announce <ap> <digits>",
            Form::Round => "round",
            Form::End => "end",
            Form::First => {
                "that of renew-at with domain 2 without ft-psk, mfp with domain 2 without psk, ap, sta, connect, roam with ft-psk, deliver, alter, cut, inject, retry, rekey, send, expire, revoke, leave, secret with domain 2, renew with domain 2 without ft-psk, announce with mfp or round"
            }
            Form::AfterRenewAt => {
                "that of mfp with domain 2 without psk, ap, sta, connect, roam with ft-psk, deliver, alter, cut, inject, retry, rekey, send, expire, revoke, leave, secret with domain 2, renew with domain 2 without ft-psk, announce with mfp or round"
            }
            Form::Any => {
                "that of ap, sta, connect, roam with ft-psk, deliver, alter, cut, inject, retry, rekey, send, expire, revoke, leave, secret with domain 2, renew with domain 2 without ft-psk, announce with mfp or round"
            }
            Form::StaOrEvent => {
                "that of sta, connect, roam with ft-psk, deliver, alter, cut, inject, retry, rekey, send, expire, revoke, leave, secret with domain 2, renew with domain 2 without ft-psk, announce with mfp or round"
            }
            Form::Event => {
                "that of connect, roam with ft-psk, deliver, alter, cut, inject, retry, rekey, send, expire, revoke, leave, secret with domain 2, renew with domain 2 without ft-psk, announce with mfp or round"
            }
            Form::EventInRound => {
                "that of deliver, alter, cut, inject, retry, rekey, send, expire, revoke or end"
            }
            Form::Turn => "turn",
            Form::LiveSeed => "seed <64 digits or draw>",
            Form::LiveFirst => {
                "that of renew-at with domain 2 without ft-psk, mfp with domain 2 without psk, ap, sta, connect, roam with ft-psk, inject, retry, rekey, send, expire, revoke, leave, secret with domain 2, renew with domain 2 without ft-psk, announce with mfp, round or turn"
            }
            Form::LiveAfterRenewAt => {
                "that of mfp with domain 2 without psk, ap, sta, connect, roam with ft-psk, inject, retry, rekey, send, expire, revoke, leave, secret with domain 2, renew with domain 2 without ft-psk, announce with mfp, round or turn"
            }
            Form::LiveAny => {
                "that of ap, sta, connect, roam with ft-psk, inject, retry, rekey, send, expire, revoke, leave, secret with domain 2, renew with domain 2 without ft-psk, announce with mfp, round or turn"
            }
            Form::LiveStaOrEvent => {
                "that of sta, connect, roam with ft-psk, inject, retry, rekey, send, expire, revoke, leave, secret with domain 2, renew with domain 2 without ft-psk, announce with mfp, round or turn"
            }
            Form::LiveEvent => {
                "that of connect, roam with ft-psk, inject, retry, rekey, send, expire, revoke, leave, secret with domain 2, renew with domain 2 without ft-psk, announce with mfp, round or turn"
            }
            Form::LiveEventInRound => {
                "that of inject, retry, rekey, send, expire, revoke or end"
            }
            Form::Link => "link 1",
            Form::LinkKey => "key <64 digits>",
            Form::Holder => "holder <R0KH-ID of 1 to 48 octets>",
            Form::Row => "row <12 digits>",
            Form::RevokeRow => "revoke <12 digits>",
            Form::Ask => "ask <12 digits> <12 digits>",
            Form::Forget => "forget <n>",
            Form::HolderEvent => "that of row, revoke or turn",
            Form::AskerEvent => "that of ask, forget or turn",
        }
    }
    /// The word with which a line of it begins; empty where it is not that of one line.
    pub fn word(self) -> &'static str
        ensures { result.now ≡ word_of self }
    {
        match self {
            Form::Version => "domain",
            Form::Seed | Form::LiveSeed => "seed",
            Form::Ssid => "ssid",
            Form::Passphrase => "passphrase",
            Form::Psk => "psk",
            Form::Akm => "akm",
            Form::Mdid => "mdid",
            Form::RenewAt => "renew-at",
            Form::Mfp => "mfp",
            Form::Ap => "ap",
            Form::Sta | Form::KeyedSta => "sta",
            Form::Connect => "connect",
            Form::Roam => "roam",
            Form::Deliver => "deliver",
            Form::Alter => "alter",
            Form::Cut => "cut",
            Form::Inject => "inject",
            Form::Retry => "retry",
            Form::Rekey => "rekey",
            Form::Send => "send",
            Form::Expire => "expire",
            Form::Revoke => "revoke",
            Form::Leave => "leave",
            Form::Secret => "secret",
            Form::Renew => "renew",
            Form::Announce => "announce",
            Form::Round => "round",
            Form::Turn => "turn",
            Form::End => "end",
            _ => "",
        }
    }
}
