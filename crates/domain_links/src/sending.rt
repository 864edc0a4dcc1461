//! Frames of the journal, sent by the links of the nodes that sent them.

ghost use Rattle.std.specs.Prelude.{◌≡◌, ◌<◌, ◌≤◌, ◌∷◌, [], ℕ, List, Some, Err, OnOk, length};
ghost use Rattle.std.specs.Option.{option_copied};
ghost use Rattle.domain_base.specs.Causes.{HasLinkCause};
ghost use Rattle.domain_base.specs.Told.{LinkStory};
ghost use Rattle.domain_base.specs.declared.names.Node.{Node as AnyNode};
ghost use Rattle.domain_base.specs.declared.outside.LinkError.TheVariants as error;
ghost use Rattle.domain_links.specs.NodeOrder.{node_at, nodes_of, receiver_of, stations};
ghost use Rattle.domain_links.specs.Sends.{Send, SendsFront, frame_sent, frames_to, sends};
ghost use Rattle.domain_links.specs.Sends.{sends_by, sends_of};
ghost use Rattle.domain_links.specs.Telling.{Tell, TellFront, HasFailed, SameFaults};

use crate::node_order::{Receiver, place_of, receiver_of};
use domain_base::{Link, LinkError, Node};
use run_journal::{Act, Domain, Entry};

// Sends a frame to the first stations, in order.
fn send_to_all<L: Link>(link: &mut L, count: usize, octets: &[u8]) -> Result<(), LinkError>
    requires few { count ≤ 65536 }
    ensures sent { (story : LinkStory) → L.told link.old ≡ Some story
        → SendsFront story (L.told link.new) (frames_to (stations count) octets.now) result }
    ensures cause { HasLinkCause (L.faults link.old) (L.faults link.new) result }
    ensures unfailed { OnOk result (L.faults link.new ≡ L.faults link.old) }
{
    for place in 0..count {
        match link.send(Node::Sta(place as u16), octets) {
            Ok(()) => {}
            Err(error) => return Err(error),
        }
    }
    Ok(())
}

// Sends a frame to whom it is for.
fn send_frame<L: Link>(link: &mut L, domain: &Domain, octets: &[u8]) -> Result<(), LinkError>
    requires aps { length domain.now.aps ≤ 65536 }
    requires stas { length domain.now.stas ≤ 65536 }
    ensures sent { (story : LinkStory) → L.told link.old ≡ Some story
        → SendsFront story (L.told link.new)
        (frames_to (nodes_of domain.now (receiver_of domain.now octets.now)) octets.now) result }
    ensures cause { HasLinkCause (L.faults link.old) (L.faults link.new) result }
    ensures unfailed { OnOk result (L.faults link.new ≡ L.faults link.old) }
{
    match receiver_of(domain, octets) {
        Receiver::Stations => send_to_all(link, domain.stas.len(), octets),
        Receiver::One(node) => link.send(node, octets),
        Receiver::Nobody => Ok(()),
    }
}

// The frame that an act sends.
fn frame_sent(act: &Act) -> Option<&[u8]>
    ensures { option_copied result ≡ frame_sent act.now }
{
    match act {
        Act::Sent { octets, .. } => Some(octets.as_slice()),
        _ => None,
    }
}

// Sends what goes out for an entry.
fn send_entry<L: Link + Drop>(
    links: &mut Vec<L>,
    domain: &Domain,
    entry: &Entry,
) -> Result<(), LinkError>
    requires aps { length domain.now.aps ≤ 65536 }
    requires stas { length domain.now.stas ≤ 65536 }
    ensures len { length links.new.items ≡ length links.old.items }
    ensures sent { (left : ℕ → List (List ℕ)) (before : List Send)
        → Tell L.told (node_at domain.now) links.old.items left before
        → TellFront L.told (node_at domain.now) links.new.items left before
        (sends_of domain.now entry.now) result }
    ensures cause { result ≡ Err error.Failed → HasFailed L.faults links.new.items }
    ensures kept { result ≡ Err error.NoMemory
        → SameFaults L.faults links.old.items links.new.items }
    ensures unfailed { OnOk result (SameFaults L.faults links.old.items links.new.items) }
{
    let Some(octets) = frame_sent(&entry.act) else {
        return Ok(());
    };
    match links.get_mut(place_of(domain, entry.node)) {
        Some(link) => send_frame(link, domain, octets),
        None => Ok(()),
    }
}

/// Sends octets to a node by the link at a place, whatever their address 1 names.
///
/// At an error they have not gone out. Failed says that this link's count of faults rose; after
/// NoMemory every count is as it was.
pub fn send<L: Link + Drop>(
    links: &mut Vec<L>,
    place: usize,
    to: Node,
    octets: &[u8],
) -> Result<(), LinkError>
    requires within { place < length links.old.items }
    ensures len { length links.new.items ≡ length links.old.items }
    ensures sent { (nodes : ℕ → AnyNode) (left : ℕ → List (List ℕ)) (before : List Send)
        → Tell L.told nodes links.old.items left before
        → TellFront L.told nodes links.new.items left before
        (sends_by place (frames_to (to ∷ []) octets.now)) result }
    ensures cause { result ≡ Err error.Failed → HasFailed L.faults links.new.items }
    ensures kept { result ≡ Err error.NoMemory
        → SameFaults L.faults links.old.items links.new.items }
    ensures unfailed { OnOk result (SameFaults L.faults links.old.items links.new.items) }
{
    let link = &mut links[place];
    link.send(to, octets)
}

/// Sends what goes out for entries, in order, each frame by the link of the node that sent it: to
/// the node whose address is the frame's address 1, or to every station in order where that is a
/// group's (IEEE Std 802.11-2020, 9.2.4.3.4).
///
/// The links stand in the order of nodes: access points, then stations. At an error a front of the
/// frames that is not the whole has gone out. Failed says that a link's count of faults rose;
/// after NoMemory every count is as it was.
pub fn send_entries<L: Link + Drop>(
    links: &mut Vec<L>,
    domain: &Domain,
    entries: &[Entry],
) -> Result<(), LinkError>
    requires aps { length domain.now.aps ≤ 65536 }
    requires stas { length domain.now.stas ≤ 65536 }
    ensures len { length links.new.items ≡ length links.old.items }
    ensures sent { (left : ℕ → List (List ℕ)) (before : List Send)
        → Tell L.told (node_at domain.now) links.old.items left before
        → TellFront L.told (node_at domain.now) links.new.items left before
        (sends domain.now entries.now) result }
    ensures cause { result ≡ Err error.Failed → HasFailed L.faults links.new.items }
    ensures kept { result ≡ Err error.NoMemory
        → SameFaults L.faults links.old.items links.new.items }
    ensures unfailed { OnOk result (SameFaults L.faults links.old.items links.new.items) }
{
    for entry in entries {
        match send_entry(links, domain, entry) {
            Ok(()) => {}
            Err(error) => return Err(error),
        }
    }
    Ok(())
}
