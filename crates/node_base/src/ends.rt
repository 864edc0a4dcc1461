//! The two ends between which EAPOL-Key frames go.

ghost use Rattle.std.specs.Prelude.{◌≡◌};
ghost use Rattle.air_frame.specs.Sent.{IsAddress};
ghost use Rattle.domain_rules.specs.Network.{direction};
ghost use Rattle.run_journal.specs.Events.{IsListed, IsPeerOf};

use crate::network::address;
use air_frame::Direction;
use domain_base::{Akm, Mac, Node};
use run_journal::{Domain, Version};

/// The two ends of a pairwise key as the frames between them name them, with the suite, the version
/// of the network's rules, and whether management frames are protected.
#[derive(Clone, Copy)]
pub struct Ends {
    /// The suite.
    pub akm: Akm,
    /// The version of the network's rules: by version 2 pairwise keys are renewed.
    pub version: Version,
    /// Whether group-addressed management frames are protected.
    pub mfp: bool,
    /// The way in which the own end sends data.
    pub direction: Direction,
    /// The own address.
    pub own: Mac,
    /// The address of the other end.
    pub peer: Mac,
}

/// The way in which a node sends data.
pub fn direction(node: Node) -> Direction
    ensures { result ≡ direction node }
{
    match node {
        Node::Ap(_) => Direction::FromDs,
        Node::Sta(_) => Direction::ToDs,
    }
}

impl Ends {
    ghost use Rattle.node_base.specs.Ends.{AreEnds};

    /// Of a node with its peer, which is listed and of the other kind.
    pub fn between(domain: &Domain, node: Node, peer: Node) -> Self
        requires listed { IsListed domain.now node }
        requires peer { IsPeerOf domain.now node peer }
        ensures ends { AreEnds domain.now node peer result }
        ensures whole { IsAddress result.own.0 × IsAddress result.peer.0 }
    {
        Ends {
            akm: domain.akm,
            version: domain.extras.version,
            mfp: domain.extras.mfp,
            direction: direction(node),
            own: address(domain, node),
            peer: address(domain, peer),
        }
    }
}
