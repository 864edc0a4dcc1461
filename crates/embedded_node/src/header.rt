//! What a node is told of its network as it starts.

ghost use Rattle.std.specs.Prelude.{◌≡◌, IfOk, IfErr};
ghost use Rattle.domain_rules.specs.Network.{InForm};
ghost use Rattle.embedded_node.specs.Headers.{bare, mdid_by};
ghost use Rattle.embedded_node.specs.Starts.{is_ssid, IsStartCause};

use crate::untaken::Untaken;
use domain_base::{Akm, Octets};
use mac_prf::KdfKey;
use run_journal::{Aps, Domain, Extras, Stas};
use std::alloc::Global;

/// What a node is told of its network as it starts.
#[derive(Clone, Copy)]
pub struct Header<'a> {
    /// What all its draws are made from. The same seed and address never draw the same number
    /// twice.
    pub seed: &'a [u8; 32],
    /// The name of the network: 1 to 32 octets.
    pub ssid: &'a [u8],
    /// The suite.
    pub akm: Akm,
    /// The mobility domain, with AKM suite 4; else it is not looked at.
    pub mdid: [u8; 2],
    /// Whether pairwise keys are renewed inside their sessions, and whether group-addressed
    /// management frames are protected, which all nodes of the network say alike, and at which
    /// packet number an access point begins to renew a pairwise key by itself.
    pub extras: Extras,
}

// The mobility domain that a network of that suite has.
fn mdid_by(akm: Akm, mdid: [u8; 2]) -> [u8; 2]
    ensures { result ≡ mdid_by akm mdid }
{
    match akm {
        Akm::FtPsk => mdid,
        Akm::Psk | Akm::PskSha256 => [0, 0],
    }
}

/// Whether these octets are the name of a network.
pub(crate) fn is_ssid(octets: &[u8]) -> bool
    ensures { result ≡ is_ssid octets.now }
{
    1 <= octets.len() && octets.len() <= 32
}

/// The network with that header, and no nodes.
///
/// # Errors
///
/// `Unfit` where the name has no octet or more than 32.
#[tactic(auto, using(crate::proofs::Listed::in_form_bare))]
pub fn domain_of(alloc: Global, header: &Header<'_>) -> Result<Domain, Untaken>
    ensures form { IfOk result (λ d. InForm d) }
    ensures bare { IfOk result (λ d. d ≡ bare header.now) }
    ensures cause { IfErr result (IsStartCause (is_ssid header.now.ssid.now)) }
{
    if !is_ssid(header.ssid) {
        return Err(Untaken::Unfit);
    }
    let ssid = match Vec::from_slice(alloc, header.ssid) {
        Ok(ssid) => ssid,
        Err(_) => return Err(Untaken::NoMemory),
    };
    Ok(Domain {
        seed: KdfKey::new(header.seed),
        ssid: Octets(ssid),
        akm: header.akm,
        mdid: mdid_by(header.akm, header.mdid),
        extras: header.extras,
        aps: Aps(Vec::new(alloc)),
        stas: Stas::new(alloc),
    })
}
