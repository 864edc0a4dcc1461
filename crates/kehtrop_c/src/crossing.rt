//! What crosses to C and back. `tools/header.py` makes the structs of `kehtrop.h` from these.

/// What a node is told of its network as it starts.
#[repr(C)]
#[derive(Drop)]
pub struct Config {
    /// What all its draws are made from.
    pub seed: [u8; 32],
    /// The name of the network, in front.
    pub ssid: [u8; 32],
    /// How many octets the name has: 1 to 32.
    pub ssid_len: u8,
    /// The type of the AKM suite of 00-0F-AC: 2, 6 or 4 (fast transition).
    pub akm: u8,
    /// The mobility domain, with suite 4; else it is not looked at.
    pub mdid: [u8; 2],
    /// The node's own address; of an access point its BSSID.
    pub address: [u8; 6],
    /// Not 0 where pairwise keys are renewed inside their sessions, with suites 2 and 6: all nodes of
    /// a network say the same.
    pub renewals: u8,
    /// Not 0 where Action frames to all are protected, with suites 6 and 4: all nodes of a network
    /// say the same.
    pub mfp: u8,
    /// Access point, where pairwise keys are renewed: the packet number under one at which it
    /// begins to renew the key by itself; 0 where it never does.
    pub renew_at: u32,
}

/// An address.
#[repr(C)]
#[derive(Drop)]
pub struct Address {
    /// In the order of transmission.
    pub octets: [u8; 6],
}

/// A pre-shared key.
#[repr(C)]
#[derive(Drop)]
pub struct Psk {
    /// As a script writes it, the first octet first.
    pub octets: [u8; 32],
}

/// A PMK-R1 that an R0 key holder made for an access point and a station. Of each field the first
/// octet comes first.
#[repr(C)]
#[derive(Drop)]
pub struct R1Key {
    /// PMK-R1.
    pub key: [u8; 32],
    /// PMKR0Name of the PMK-R0 that it is made from.
    pub r0_name: [u8; 16],
    /// The station's address.
    pub station: [u8; 6],
}

/// One thing that a node tells.
#[repr(C)]
#[derive(Clone, Copy)]
pub struct Item {
    /// What it is.
    pub what: u8,
    /// The reason of a refusal, or why an event did nothing.
    pub reason: u8,
    /// The id of a key: 0 of a pairwise one.
    pub key_id: u8,
    /// The traffic identifier of a payload.
    pub tid: u8,
    /// With whom; all by ff:ff:ff:ff:ff:ff.
    pub peer: [u8; 6],
    /// 1 where there is a peer, else 0.
    pub has_peer: u8,
    /// Always 0.
    pub spare: u8,
    /// A key.
    pub key: [u8; 16],
    /// A packet number, the receive counter of a key, or what belongs to a reason: a replay
    /// counter, a status code, or the number of what was wrong.
    pub number: u64,
    /// How many octets there are to be had.
    pub len: u64,
}
