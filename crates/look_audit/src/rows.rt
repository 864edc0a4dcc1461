//! Rows that an access point put with its key holder and revoked there.

ghost use Rattle.std.specs.Prelude.{◌≡◌, ◌++◌, List, nat_lt, bytes_eq, reverse, unwrap_or};
ghost use Rattle.run_journal.specs.declared.acts.Entry.{Entry as AnyEntry};
ghost use Rattle.run_journal.specs.Acts.{same};
ghost use Rattle.run_journal.specs.Holders.{is_ended};
ghost use Rattle.domain_rules.specs.HeldRight.{puts_row, stands, stands_here};
ghost use Rattle.look_audit.specs.Asked.{bound_of};

use domain_base::Node;
use key_hierarchy::{PutAnswer, RevokeAnswer};
use run_journal::{Act, Entry};

/// Two numbers name one node.
pub(crate) fn same(a: Node, b: Node) -> bool
    ensures { result ≡ same a b }
{
    match (a, b) {
        (Node::Ap(k), Node::Ap(m)) => k == m,
        (Node::Sta(k), Node::Sta(m)) => k == m,
        _ => false,
    }
}

// The octets are the same.
fn is_name(octets: &[u8], other: &[u8]) -> bool
    ensures { result ≡ bytes_eq octets.now other.now }
{
    octets == other
}

// Whether the act puts a row of that name and station.
fn puts_row(act: &Act, asked: &[u8; 16], station: Node) -> bool
    ensures { result ≡ puts_row asked.now station act.now }
{
    match act {
        Act::Put {
            name,
            sta,
            answer: PutAnswer::Held,
            ..
        } => is_name(name, asked) && same(station, *sta),
        _ => false,
    }
}

// Whether the act revokes the row of that name.
fn is_ended(act: &Act, asked: &[u8; 16]) -> bool
    ensures { result ≡ is_ended asked.now act.now }
{
    match act {
        Act::Revoked {
            name,
            answer: RevokeAnswer::Revoked,
            ..
        } => is_name(name, asked),
        _ => false,
    }
}

/// Rounds up to one, or up to and with it.
#[derive(Clone, Copy)]
pub(crate) struct Bound {
    /// The round.
    pub round: u64,
    /// Whether it is meant too.
    pub itself: bool,
}

// Whether the round is one of them.
fn is_within(round: u64, bound: Bound) -> bool
    ensures { result ≡ nat_lt round (bound_of bound) }
{
    if bound.itself {
        round <= bound.round
    } else {
        round < bound.round
    }
}

// Whether a row of that name and station stands by the entries of an access point among these: one
// was put in one of the first rounds, and since then none of that name was revoked in one of the
// others. None where they tell neither.
fn told_by(
    entries: &[Entry],
    holder: Node,
    name: &[u8; 16],
    station: Node,
    put: Bound,
    revoked: Bound,
) -> Option<bool>
    ensures { (past : List AnyEntry)
        → stands holder name.now station (bound_of put) (bound_of revoked)
        (reverse entries.now ++ past) ≡ unwrap_or result
        (stands holder name.now station (bound_of put) (bound_of revoked) past) }
{
    let mut older = entries;
    while let Some((entry, rest)) = older.split_last() {
        let act = &entry.act;
        if same(holder, entry.node) {
            if is_within(entry.round, put) && puts_row(act, name, station) {
                return Some(true);
            }
            if is_within(entry.round, revoked) && is_ended(act, name) {
                return Some(false);
            }
        }
        older = rest;
    }
    None
}

/// Whether a row of that name and station stands at an access point: one was put in one of the
/// first rounds, and since then none of that name was revoked in one of the others; by its entries,
/// and by later ones, among which may be those of other nodes.
pub(crate) fn stands(
    theirs: &[Entry],
    later: &[Entry],
    holder: Node,
    name: &[u8; 16],
    station: Node,
    put: Bound,
    revoked: Bound,
) -> bool
    ensures { result ≡ stands holder name.now station (bound_of put) (bound_of revoked)
        (reverse later.now ++ reverse theirs.now) }
{
    if let Some(told) = told_by(later, holder, name, station, put, revoked) {
        return told;
    }
    match told_by(theirs, holder, name, station, put, revoked) {
        Some(told) => told,
        None => false,
    }
}

/// Whether a row of that name and station stands at an access point after all of its entries.
pub(crate) fn stands_here(entries: &[Entry], holder: Node, name: &[u8; 16], station: Node) -> bool
    ensures { result ≡ stands_here holder name.now station (reverse entries.now) }
{
    let mut older = entries;
    while let Some((entry, rest)) = older.split_last() {
        let act = &entry.act;
        if same(holder, entry.node) {
            if puts_row(act, name, station) {
                return true;
            }
            if is_ended(act, name) {
                return false;
            }
        }
        older = rest;
    }
    false
}
