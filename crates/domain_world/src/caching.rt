//! An access point's node with the keys that it pulled.

ghost use Rattle.std.specs.Prelude.{◌≡◌, ◌++◌, [], IfOk, OnErr};
ghost use Rattle.domain_base.specs.declared.names.Node.TheVariants.{Ap as ApOf};
ghost use Rattle.run_journal.specs.Events.{IsListed};
ghost use Rattle.run_journal.specs.Questions.{add};
ghost use Rattle.domain_rules.specs.AccessPointRows.{start_acts};
ghost use Rattle.ap_node.specs.Stands.{StandsWith};

use act_memory::Outbox;
use ap_node::ApNode;
use domain_base::NoMemory;
use key_holders::R1Cache;
use run_journal::Domain;
use std::alloc::Global;
use std::marker::Model;

// Of how many pulls an access point keeps the key.
const CACHED: usize = 64;

/// An access point's node, and a cache of the keys that it pulled last. Contracts see the node: what
/// it does is the same whatever the cache has.
#[derive(Drop)]
pub(crate) struct CachingAp {
    /// The node.
    pub(crate) node: ApNode,
    /// The cache. There is none while the node is at work with it.
    pub(crate) cache: Option<R1Cache>,
}

impl Model for CachingAp {
    ghost use Rattle.std.specs.Prelude.{◌≡◌, true, is_some};
    ghost use Rattle.ap_node.specs.State.{State};

    ghost Value = { State };

    ghost view = { λ a. a.node };

    ghost invariant = { λ a. is_some a.cache ≡ true };
}

impl CachingAp {
    /// The access point as it starts, with no key.
    pub(crate) fn start(
        alloc: Global,
        domain: &Domain,
        number: u16,
        out: &mut Outbox,
    ) -> Result<Self, NoMemory>
        requires listed { IsListed domain.now (ApOf number) }
        ensures number { IfOk result (λ ap. ap.number ≡ number) }
        ensures stands { IfOk result (λ ap. StandsWith domain.now 0 ap []
            (add (start_acts domain.now 0 (ApOf number)) [])) }
        ensures acts { IfOk result (λ _. out.new.acts
            ≡ out.old.acts ++ start_acts domain.now 0 (ApOf number)) }
        ensures kept { OnErr result (out.new.acts ≡ out.old.acts) }
    {
        let cache = R1Cache::new(alloc, CACHED)?;
        let node = ApNode::start(alloc, domain, number, 0, out)?;
        Ok(CachingAp {
            node,
            cache: Some(cache),
        })
    }
}
