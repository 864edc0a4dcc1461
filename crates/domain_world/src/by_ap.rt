//! The events of a round, access point by access point.

ghost use Rattle.std.specs.Prelude.{◌≡◌, ◌<◌, true, length, IfOk};
ghost use Rattle.domain_base.specs.declared.names.Node.TheVariants.{Ap as ApOf};
ghost use Rattle.domain_rules.specs.Network.{InForm};
ghost use Rattle.ft_exchange.specs.Asking.{ids_of};
ghost use Rattle.holder_table.specs.Relations.{KnowsNoLess};
ghost use Rattle.holder_table.specs.Rule.{is_in};
ghost use Rattle.node_base.specs.Changing.{IsStill};
ghost use Rattle.node_base.specs.Events.{IsEventAt};
ghost use Rattle.domain_world.specs.Working.{Turned, turn_event};

use crate::handing::turn;
use crate::ordering::{is_among, is_at, node_event};
use crate::part::Part;
use crate::working::{Acts, Turn};
use act_memory::Outbox;
use ap_node::ApNode;
use domain_base::{NoMemory, Node};
use holder_table::CachedBound;
use run_journal::Domain;
use std::alloc::Global;

/// The events of a round, in any order.
#[derive(Clone, Copy)]
pub(crate) struct Round<'a> {
    /// Gives memory.
    pub(crate) alloc: Global,
    /// The network.
    pub(crate) domain: &'a Domain,
    /// The events.
    pub(crate) turns: &'a [Turn<'a>],
}

// One event: what it adds waits.
fn act_once(
    round: Round<'_>,
    number: u16,
    node: &mut ApNode,
    turn_of: &Turn<'_>,
    holders: &mut CachedBound<'_>,
) -> Result<Part, NoMemory>
    requires form { InForm round.domain.now }
    requires number { node.old.number ≡ number }
    requires listed { number < length round.domain.now.aps }
    requires event { IsEventAt round.domain.now (ApOf number) (turn_event turn_of.now) }
    requires still { IsStill (turn_event turn_of.now) }
    requires ids { holders.old.table.now.ids ≡ ids_of round.domain.now }
    requires has { is_in number holders.old.pass.knows.has ≡ true }
    ensures number { node.new.number ≡ number }
    ensures at { IfOk result (λ part. part.node ≡ ApOf number) }
    ensures turned { IfOk result (λ part. Turned round.entry.domain.now number
        (turn_event turn_of.now) node.old node.new holders.old.pass.knows.seen
        holders.new.pass.knows.seen part.out.acts) }
    ensures no_less { KnowsNoLess holders.old.table.now holders.old.pass holders.new.table.now
        holders.new.pass }
{
    let mut out = Outbox::new(round.alloc);
    let event = node_event(turn_of.event, turn_of.comes);
    turn(node, round.alloc, round.domain, &event, holders, &mut out)?;
    Ok(Part {
        node: Node::Ap(number),
        out,
    })
}

impl Acts for Round<'_> {
    ghost domain = { λ r. r.domain.now };

    ghost turns = { λ r. r.turns.now };

    fn has_turn(&self, first: u16, count: usize) -> bool {
        for turn_of in self.turns {
            if is_among(turn_of.event, first, count) {
                return true;
            }
        }
        false
    }

    fn act(
        &self,
        number: u16,
        node: &mut ApNode,
        holders: &mut CachedBound<'_>,
    ) -> Result<Vec<Part>, NoMemory> {
        let mut parts = Vec::new(self.alloc);
        for turn_of in self.turns {
            if is_at(turn_of.event, number) {
                parts.push(act_once(*self, number, node, turn_of, holders)?)?;
            }
        }
        Ok(parts)
    }
}
