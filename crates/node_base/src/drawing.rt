//! What nodes draw, and what their keys are made of.

ghost use Rattle.std.specs.Prelude.{◌≡◌, ◌≤◌, ◌++◌, IfOk, length};
ghost use Rattle.std.specs.Int.{w64, to_be_bytes};
ghost use Rattle.mac_prf.specs.Prf.{kdf};
ghost use Rattle.domain_rules.specs.Network.{address, nonce, gtk, root_at, station_of};
ghost use Rattle.domain_rules.specs.Network.{inputs_at};
ghost use Rattle.run_journal.specs.Events.{IsListed, IsPeerOf};

use crate::here::Here;
use crate::network::{address, psk};
use domain_base::{Akm, NoMemory, Node, Octets, put};
use key_hierarchy::Inputs;
use run_journal::Domain;

/// The number of the draw from which on a node draws no more: 2^60.
pub const DRAW_END: u64 = 1 << 60;

// The octets that a node draws by that number under a label.
fn draw(domain: &Domain, node: Node, number: u64, label: &[u8], out: &mut [u8])
    requires listed { IsListed domain.now node }
    requires few { length out.old ≤ 32 }
    ensures { out.new ≡ kdf domain.now.seed label.now
        (address domain.now node ++ to_be_bytes w64 number) (length out.old) }
{
    let address = address(domain, node);
    let mut context = [0; 14];
    let at = put(&mut context, 0, &address.0);
    put(&mut context, at, &number.to_be_bytes());
    domain.seed.kdf(label, &context, out);
}

/// The value of that number that a node draws, from 0, as a nonce.
#[tactic(auto, unfolding(domain_rules::specs::Network::nonce))]
pub fn nonce(domain: &Domain, node: Node, number: u64) -> [u8; 32]
    requires { IsListed domain.now node }
    ensures { result ≡ nonce domain.now node number }
{
    let mut value = [0; 32];
    draw(domain, node, number, b"Init Counter", &mut value);
    value
}

/// The value of that number that an access point draws, from 0, as a group key.
#[tactic(auto, unfolding(domain_rules::specs::Network::gtk))]
pub fn gtk(domain: &Domain, node: Node, number: u64) -> [u8; 16]
    requires { IsListed domain.now node }
    ensures { result ≡ gtk domain.now node number }
{
    let mut value = [0; 16];
    draw(domain, node, number, b"Group key expansion", &mut value);
    value
}

// What the pairwise key of a node with its peer goes back to: the pre-shared key of the station,
// and with suite 4 the mobility domain of the network and that R0KH-ID, else neither.
#[tactic(auto, using(domain_rules::proofs::SuiteWords::root_suite))]
fn root_of<'a>(
    domain: &Domain,
    node: Node,
    peer: Node,
    r0kh_id: &'a [u8],
) -> ([u8; 32], [u8; 2], &'a [u8])
    requires listed { IsListed domain.now node }
    requires peer { IsPeerOf domain.now node peer }
    ensures psk { result.0 ≡ (root_at domain.now (station_of node peer) r0kh_id.now).psk }
    ensures mdid { result.1 ≡ (root_at domain.now (station_of node peer) r0kh_id.now).mdid }
    ensures id { result.2.now ≡ (root_at domain.now (station_of node peer) r0kh_id.now).r0kh_id }
{
    let psk = psk(domain, node, peer);
    match domain.akm {
        Akm::FtPsk => (psk, domain.mdid, r0kh_id),
        Akm::Psk => (psk, [0, 0], &[]),
        Akm::PskSha256 => (psk, [0, 0], &[]),
    }
}

/// What the pairwise key of a node with its peer is made of, by its own nonce and the other's, and
/// with suite 4 by the R0KH-ID of the station's first association, which the other suites do not
/// look at.
pub fn pairwise_inputs(
    here: Here<'_>,
    peer: Node,
    r0kh_id: &[u8],
    own: &[u8; 32],
    other: &[u8; 32],
) -> Result<Inputs, NoMemory>
    requires listed { IsListed here.domain.now here.node }
    requires peer { IsPeerOf here.domain.now here.node peer }
    ensures { IfOk result (λ i. let d = here.entry.domain.now
        in i ≡ inputs_at d here.entry.node peer r0kh_id.now own.now other.now) }
{
    let Here {
        alloc,
        domain,
        node,
    } = here;
    let (psk, mdid, r0kh_id) = root_of(domain, node, peer, r0kh_id);
    let ssid = Vec::from_slice(alloc, domain.ssid.as_slice())?;
    let r0kh_id = Vec::from_slice(alloc, r0kh_id)?;
    let own_address = address(domain, node);
    let peer_address = address(domain, peer);
    let (aa, spa, anonce, snonce) = match node {
        Node::Ap(_) => (own_address, peer_address, *own, *other),
        Node::Sta(_) => (peer_address, own_address, *other, *own),
    };
    Ok(Inputs {
        akm: domain.akm,
        psk,
        ssid: Octets(ssid),
        mdid,
        r0kh_id: Octets(r0kh_id),
        aa,
        spa,
        anonce,
        snonce,
    })
}
