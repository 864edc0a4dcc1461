//! Links of the nodes, attached and given back in their order.

ghost use Rattle.std.specs.Prelude.{◌≡◌, ◌≤◌, ◌+◌, ◌++◌, ◌∷◌, [], ℕ, Some, Err, OnOk, OnErr};
ghost use Rattle.std.specs.Prelude.{length, map};
ghost use Rattle.domain_base.specs.Causes.{Rose, HasLinkCause};
ghost use Rattle.domain_base.specs.Told.{AirStory};
ghost use Rattle.domain_base.specs.declared.names.Node.{Node as AnyNode};
ghost use Rattle.domain_base.specs.declared.outside.LinkError.TheVariants as error;
ghost use Rattle.domain_links.specs.Telling.{HasFailed, NoneFailed};
ghost use Rattle.domain_links.specs.Attached.{Attached, IsBehind, TakenBack};

use domain_base::{Air, LinkError, Node};

/// Attaches the next node of a list, and puts its link behind those before it. What the links tell
/// is told for each list whose next node this is, and in which it has not come before.
///
/// At an error the links are as before, and after NoMemory the air too: there is room for the link
/// before it is given. Failed says that the air's count of faults rose.
pub fn attach_next<A: Air>(air: &mut A, node: Node, links: &mut Vec<A::L>) -> Result<(), LinkError>
    ensures len { OnOk result (length links.new.items ≡ length links.old.items + 1) }
    ensures same { OnErr result (links.new.items ≡ links.old.items) }
    ensures untouched { result ≡ Err error.NoMemory → air.new ≡ air.old }
    ensures attached { (nodes : ℕ → AnyNode) (start : AirStory)
        → nodes (length links.old.items) ≡ node
        → IsBehind nodes (length links.old.items) node
        → Attached A.L.told nodes start links.old.items (A.told air.old)
        → Attached A.L.told nodes start links.new.items (A.told air.new) }
    ensures cause { HasLinkCause (A.faults air.old) (A.faults air.new) result }
    ensures unfailed { OnOk result (A.faults air.new ≡ A.faults air.old) }
    ensures fresh { OnOk result
        (map A.L.faults links.new.items ≡ map A.L.faults links.old.items ++ 0 ∷ []) }
{
    match links.reserve(1) {
        Ok(()) => {}
        Err(_) => return Err(LinkError::NoMemory),
    }
    match air.attach(node) {
        Ok(link) => {
            links.push_reserved(link);
            Ok(())
        }
        Err(_) => Err(LinkError::Failed),
    }
}

/// Gives all links back, in order. The air's count of faults rises where one of them has failed,
/// and else is as it was.
pub fn give_back<A: Air>(air: &mut A, links: Vec<A::L>)
    ensures returned { (now : AirStory) → A.told air.new ≡ Some now
        → TakenBack A.L.told links.items (A.told air.old) now }
    ensures later { A.faults air.old ≤ A.faults air.new }
    ensures cause { HasFailed A.L.faults links.items → Rose (A.faults air.old) (A.faults air.new) }
    ensures unfailed { NoneFailed A.L.faults links.items → A.faults air.new ≡ A.faults air.old }
{
    for link in links {
        air.take_back(link);
    }
}
