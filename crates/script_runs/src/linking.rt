//! What goes out for a line: links of nodes are attached, and frames are sent.

ghost use Rattle.std.specs.Prelude.{◌≡◌, ◌≤◌, ◌+◌, drop, length, reverse, None};
ghost use Rattle.domain_links.specs.NodeOrder.{count};
ghost use Rattle.script_runs.specs.Outer.{IsBlamed, outer};
ghost use Rattle.script_runs.specs.States.{world_of};
ghost use Rattle.script_runs.specs.Turning.{Carries, GoesOut, HasLinked, link_blame};

use crate::session::Session;
use domain_base::{Air, LinkError};
use domain_links::{attach_next, node_at, send_entries};
use frame_script::Mode;
use run_journal::{Domain, Entry, Journal};

/// The entries of a journal from a place on, in order.
pub(crate) fn news(journal: &Journal, from: usize) -> &[Entry]
    requires { from ≤ length journal.now.entries }
    ensures { result.now ≡ drop from (reverse journal.now.entries) }
{
    let (_, news) = journal.entries().split_at(from);
    news
}

// Attaches the node that has no link, if one has none; else sends what goes out for the entries of
// the journal from a place on.
fn carry<A: Air>(
    domain: &Domain,
    from: usize,
    air: &mut A,
    links: &mut Vec<A::L>,
    journal: &Journal,
) -> Result<(), LinkError>
    requires few { length links.old.items ≤ count domain.now }
    requires aps { length domain.now.aps ≤ 65536 }
    requires stas { length domain.now.stas ≤ 65536 }
    requires within { from ≤ length journal.now.entries }
    ensures carries { Carries A.L.told domain.now from journal.now.entries
        (outer links.old.items (A.told air.old) None) (outer links.new.items (A.told air.new) None)
        result }
    ensures blamed { IsBlamed A.L.faults (link_blame result) links.old.items links.new.items
        (A.faults air.old) (A.faults air.new) 0 0 }
{
    let nodes = domain.aps.0.len() + domain.stas.len();
    if links.len() < nodes {
        let node = node_at(domain, links.len());
        return attach_next(air, node, links);
    }
    send_entries(links, domain, news(journal, from))
}

/// What goes out, in a live run, for a line behind which the journal has new entries from a place
/// on: a node was listed, and its link is attached; or nodes have sent frames, and these are sent.
pub(crate) fn follow<A: Air>(
    mode: Mode,
    session: &Option<Session>,
    from: usize,
    air: &mut A,
    links: &mut Vec<A::L>,
    journal: &Journal,
) -> Result<(), LinkError>
    requires few { HasLinked mode (world_of session.now) (length links.old.items) }
    requires within { from ≤ length journal.now.entries }
    ensures goes { GoesOut A.L.told mode (world_of session.now) from journal.now.entries
        (outer links.old.items (A.told air.old) None) (outer links.new.items (A.told air.new) None)
        result }
    ensures blamed { IsBlamed A.L.faults (link_blame result) links.old.items links.new.items
        (A.faults air.old) (A.faults air.new) 0 0 }
{
    match mode {
        Mode::Replay => Ok(()),
        Mode::Live => match session {
            Some(session) => carry(session.world.domain(), from, air, links, journal),
            None => Ok(()),
        },
    }
}
