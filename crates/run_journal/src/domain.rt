//! The network: its keys, its access points and its stations, and how many of them there may be.

ghost use Rattle.std.specs.Prelude.{◌≡◌, ◌∷◌, ◌++◌, [], length, cond, OnOk, OnErr, position, bytes_eq};
ghost use Rattle.run_journal.specs.Changed.{is_named, rekeyed};
ghost use Rattle.run_journal.specs.Listing.{add_extra};
ghost use Rattle.run_journal.specs.declared.domain.ListedAp.{ListedAp as AnyAp};
ghost use Rattle.run_journal.specs.declared.domain.ListedSta.{ListedSta as AnySta};

use crate::places::Places;
use domain_base::{Akm, Mac, NoMemory, Node, Octets, Peer, Tid};
use mac_prf::KdfKey;
use std::alloc::Global;
use std::marker::Model;

/// A network has at most so many access points.
pub const MOST_APS: usize = 64;

/// A network has at most so many stations.
pub const MOST_STAS: usize = 1024;

/// A round has at most so many events.
pub const MOST_EVENTS: u64 = 1024;

/// Where more frames than this have been sent, no event is asked for.
pub const MOST_FRAMES: usize = 65535;

/// A frame that comes from outside, injected or by a link, has at most so many octets.
pub const MOST_OCTETS: usize = 2400;

/// A payload has at most so many octets (IEEE Std 802.11-2020, 9.2.4.8.1).
pub const MOST_PAYLOAD: usize = 2304;

/// In a turn each node takes at most so many frames of its link.
pub const MOST_POLLS: u8 = 16;

/// A listed access point.
#[derive(Drop)]
pub struct ListedAp {
    /// Its BSSID.
    pub address: Mac,
    /// Its R0KH-ID: 1 to 48 octets.
    pub r0kh_id: Octets,
}

/// The access points in the order in which they are listed. Contracts see the list.
#[derive(Drop)]
pub struct Aps(pub Vec<ListedAp>);

impl Model for Aps {
    ghost use Rattle.std.specs.Prelude.{List};
    ghost use Rattle.run_journal.specs.declared.domain.ListedAp.{ListedAp};

    ghost Value = { List ListedAp };

    ghost view = { λ a. a.0.items };
}

impl Aps {
    /// The place of the first access point that has this address, from 0.
    pub fn place_of(&self, address: Mac) -> Option<usize>
        ensures { result ≡ position (λ (a : AnyAp). bytes_eq a.address.0 address.0) self.now }
    {
        self.0.iter().position(|ap| ap.address.0 == address.0)
    }
}

/// A listed station.
#[derive(Clone, Copy)]
pub struct ListedSta {
    /// Its address.
    pub address: Mac,
    /// The pre-shared key that it shares with the network.
    pub psk: [u8; 32],
}

/// Whether the key of the station at that place is changed, where that one is named, or none and so
/// all.
pub fn is_named(sta: Option<u16>, place: usize) -> bool
    ensures { result ≡ is_named sta place }
{
    match sta {
        Some(number) => usize::from(number) == place,
        None => true,
    }
}

// The station with that key, where its own is changed.
fn keyed(listed: ListedSta, is_named: bool, psk: &[u8; 32]) -> ListedSta
    ensures { result ≡ record {
      address = listed.address;
      psk = cond is_named psk.now listed.psk;
    } }
{
    ListedSta {
        address: listed.address,
        psk: if is_named { *psk } else { listed.psk },
    }
}

/// The stations in the order in which they are listed. Contracts see the list.
///
/// A station is found by its address in a number of steps that grows as the logarithm of theirs.
#[derive(Drop)]
pub struct Stas {
    listed: Vec<ListedSta>,
    places: Places,
}

impl Model for Stas {
    ghost use Rattle.std.specs.Prelude.{List};
    ghost use Rattle.run_journal.specs.declared.domain.ListedSta.{ListedSta};
    ghost use Rattle.run_journal.specs.Places.{IsIndexOf};

    ghost Value = { List ListedSta };

    ghost view = { λ s. s.listed.items };

    ghost invariant = { λ s. IsIndexOf s.listed.items s.places };
}

impl Stas {
    /// No stations. Takes no memory.
    pub fn new(alloc: Global) -> Self
        ensures { result ≡ [] }
    {
        Stas {
            listed: Vec::new(alloc),
            places: Places::new(alloc),
        }
    }

    /// One more listed station.
    ///
    /// # Errors
    ///
    /// Out of memory: the list is as before.
    pub fn push(&mut self, sta: ListedSta) -> Result<(), NoMemory>
        ensures ok { OnOk result (self.new ≡ self.old ++ sta ∷ []) }
        ensures err { OnErr result (self.new ≡ self.old) }
    {
        self.listed.reserve(1)?;
        self.places.reserve()?;
        self.places.add(&sta, self.listed.len());
        self.listed.push_reserved(sta);
        Ok(())
    }

    /// From now on this is the key of the station of that number, or of all where none is named.
    /// Takes no memory.
    pub fn change_keys(&mut self, sta: Option<u16>, psk: &[u8; 32])
        ensures { self.new ≡ rekeyed sta psk.now 0 self.old }
    {
        for place in 0..self.listed.len() {
            self.listed[place] = keyed(self.listed[place], is_named(sta, place), psk);
        }
    }

    /// The stations in order.
    pub fn as_slice(&self) -> &[ListedSta]
        ensures { result.now ≡ self.now }
    {
        self.listed.as_slice()
    }

    /// How many there are.
    pub fn len(&self) -> usize
        ensures { result ≡ length self.now }
    {
        self.listed.len()
    }

    /// The place of the first station that has this address, from 0.
    pub fn place_of(&self, address: Mac) -> Option<usize>
        ensures { result ≡ position (λ (s : AnySta). bytes_eq s.address.0 address.0) self.now }
    {
        self.places.place_of(address)
    }
}

/// The version of the scripts in which a network is described.
#[derive(Clone, Copy, PartialEq, Eq)]
pub enum Version {
    /// `domain 1`.
    One,
    /// `domain 2`: stations have keys of their own, which may be changed, and pairwise keys are
    /// renewed inside their sessions.
    Two,
}

/// What the header of a script says beside the keys and the suite.
#[derive(Clone, Copy, PartialEq, Eq)]
pub struct Extras {
    /// The version.
    pub version: Version,
    /// At which packet number of a pairwise key, from 1, an access point that sends under it begins
    /// to renew it without being asked; none where it never does so by itself.
    pub renew_at: Option<u32>,
    /// Whether group-addressed management frames are protected (IEEE Std 802.11-2020, 12.5.4).
    pub mfp: bool,
}

/// A line that a header may have beside the lines that it has to have.
#[derive(Clone, Copy, PartialEq, Eq)]
pub enum Extra {
    /// At which packet number, from 1, access points begin to renew a pairwise key.
    RenewAt(u32),
    /// That group-addressed management frames are protected.
    Mfp,
}

impl Extras {
    /// The header has that line too.
    pub fn add(&mut self, extra: Extra)
        ensures { self.new ≡ add_extra self.old extra }
    {
        match extra {
            Extra::RenewAt(at) => self.renew_at = Some(at),
            Extra::Mfp => self.mfp = true,
        }
    }
}

/// The header of a script and the nodes listed so far.
#[derive(Drop)]
pub struct Domain {
    /// What all draws are made from.
    pub seed: KdfKey,
    /// The name of the network: 1 to 32 octets.
    pub ssid: Octets,
    /// The suite.
    pub akm: Akm,
    /// The mobility domain, with AKM suite 4; else `[0, 0]`.
    pub mdid: [u8; 2],
    /// What else the header says.
    pub extras: Extras,
    /// The access points.
    pub aps: Aps,
    /// The stations.
    pub stas: Stas,
}

/// What a script asks for.
#[derive(Drop)]
pub enum Event {
    /// The station begins an attempt with the access point, by association.
    Connect {
        /// The station, from 0.
        sta: u16,
        /// The access point, from 0.
        ap: u16,
    },
    /// The station begins an attempt with the access point, by fast transition over the air.
    Roam {
        /// The station, from 0.
        sta: u16,
        /// The access point, from 0.
        ap: u16,
    },
    /// The frame of that number comes to the node.
    Deliver {
        /// The frame's number, from 1.
        number: u64,
        /// The node.
        to: Node,
    },
    /// The frame of that number comes to the node with one octet changed.
    Alter {
        /// The frame's number, from 1.
        number: u64,
        /// The place of the octet, from 0.
        place: usize,
        /// What it is changed with, by exclusive or.
        mask: u8,
        /// The node.
        to: Node,
    },
    /// The first octets of the frame of that number come to the node.
    Cut {
        /// The frame's number, from 1.
        number: u64,
        /// How many octets come.
        size: usize,
        /// The node.
        to: Node,
    },
    /// These octets come to the node.
    Inject {
        /// The node.
        to: Node,
        /// What comes.
        octets: Octets,
    },
    /// The access point sends the station once more what it waits to have answered.
    Retry {
        /// The access point, from 0.
        ap: u16,
        /// The station, from 0.
        sta: u16,
    },
    /// The access point draws a new group key and gives it to each session.
    Rekey {
        /// The access point, from 0.
        ap: u16,
    },
    /// The node sends a payload: a station to an access point, or an access point to a station or
    /// to all.
    Send {
        /// The node.
        from: Node,
        /// To whom.
        to: Peer,
        /// The traffic identifier, where it is sent as QoS data.
        tid: Option<Tid>,
        /// The payload.
        octets: Octets,
    },
    /// The access point drops what it has with the station.
    Expire {
        /// The access point, from 0.
        ap: u16,
        /// The station, from 0.
        sta: u16,
    },
    /// The access point tells its key holder to hold the key of the station no longer.
    Revoke {
        /// The access point, from 0.
        ap: u16,
        /// The station, from 0.
        sta: u16,
    },
    /// The station drops what it has.
    Leave {
        /// The station, from 0.
        sta: u16,
    },
    /// The pre-shared key of a station is changed, or that of all: at each access point, then at
    /// each of these stations.
    Secret {
        /// The station, from 0; none where it is all.
        sta: Option<u16>,
        /// The new key.
        psk: [u8; 32],
    },
    /// The access point begins to renew the pairwise key of its session with the station.
    Renew {
        /// The access point, from 0.
        ap: u16,
        /// The station, from 0.
        sta: u16,
    },
    /// The access point sends a protected announcement to all its stations: an Action frame with
    /// this payload.
    Announce {
        /// The access point, from 0.
        ap: u16,
        /// The payload.
        octets: Octets,
    },
}
