//! The act of taking a frame, alone or with others.

ghost use Rattle.std.specs.Prelude.{◌≡◌, ◌<◌, ◌≤◌, ◌+◌, ◌++◌, [], ◌∷◌, None, IfOk, OnOk, OnErr};
ghost use Rattle.run_journal.specs.declared.acts.Act.TheVariants.{Took};

use crate::outbox::Outbox;
use domain_base::{NoMemory, Node, Octets};
use run_journal::{Act, BoxedSeal, Kind, Outcome};
use std::alloc::Global;

/// A frame came to the node.
pub fn took(
    alloc: Global,
    from: Option<Node>,
    octets: &[u8],
    kind: Kind,
    outcome: Outcome,
    seal: Option<BoxedSeal>,
) -> Result<Act, NoMemory>
    ensures { IfOk result (λ act. act ≡ Took from octets.now kind outcome seal) }
{
    let octets = Octets(Vec::from_slice(alloc, octets)?);
    Ok(Act::Took {
        from,
        octets,
        kind,
        outcome,
        seal,
    })
}

/// A frame came to the node, whose octets are in memory, and there is room for the act.
pub(crate) fn add_took(
    from: Option<Node>,
    octets: Vec<u8>,
    kind: Kind,
    outcome: Outcome,
    seal: Option<BoxedSeal>,
    out: &mut Outbox,
)
    requires { 0 < out.old.spare }
    ensures acts { out.new.acts ≡ out.old.acts ++ Took from octets.items kind outcome seal ∷ [] }
    ensures spare { out.old.spare ≤ out.new.spare + 1 }
{
    out.add(Act::Took {
        from,
        octets: Octets(octets),
        kind,
        outcome,
        seal,
    });
}

/// A frame came to the node, and this came of it: nothing is sealed in it, and nothing else is
/// done.
pub fn settle(
    alloc: Global,
    from: Option<Node>,
    octets: &[u8],
    kind: Kind,
    outcome: Outcome,
    out: &mut Outbox,
) -> Result<Outcome, NoMemory>
    ensures outcome { IfOk result (λ came. came ≡ outcome) }
    ensures acts { OnOk result
        (out.new.acts ≡ out.old.acts ++ Took from octets.now kind outcome None ∷ []) }
    ensures kept { OnErr result (out.new.acts ≡ out.old.acts) }
{
    let octets = Vec::from_slice(alloc, octets)?;
    out.reserve(1)?;
    add_took(from, octets, kind, outcome, None, out);
    Ok(outcome)
}
