//! Lines of a report that no script comes to.

use domain_base::{Node, Octets, Tid};
use journal_report::{line_fits, line_of};
use run_journal::{Act, Entry, Kind, Outcome, Reason, Why};
use std::alloc::Global;
use std::process::Abort;

// The line of what that node does fits in 128 octets, and is the text.
fn has_line(node: Node, act: Act, text: &[u8]) -> bool {
    let entry = Entry {
        round: 1,
        node,
        number: 0,
        act,
    };
    if !line_fits(&entry, 128) {
        return false;
    }
    let mut out = [0; 128];
    let count = line_of(&entry, &mut out);
    &out[..count] == text
}

// A payload without octets.
fn empty_payload(rt: &impl Abort, alloc: Global) -> Act {
    Act::HandedUp {
        peer: Node::Sta(0),
        key: [5; 16],
        id: 0,
        tid: Tid::new(5).expect(rt, "a TID"),
        number: 1,
        octets: Octets(Vec::new(alloc)),
    }
}

// The last packet number was used long before.
fn spent(alloc: Global) -> Act {
    Act::Took {
        from: None,
        octets: Octets(Vec::new(alloc)),
        kind: Kind::FtReq,
        outcome: Outcome::Refused(Reason::Spent),
        seal: None,
    }
}

#[test]
fn lines_that_no_script_comes_to(rt: HostRuntime) {
    let ap = Node::Ap(0);
    let up = empty_payload(&rt, rt.alloc());
    assert!(rt; has_line(ap, up, b"up a1 s1 0 5 1 -\n"));
    assert!(rt; has_line(ap, spent(rt.alloc()), b"took a1 ft-req refused spent\n"));
    let idle = Act::Idle { why: Why::Spent };
    assert!(rt; has_line(Node::Sta(65535), idle, b"idle s65536 spent\n"));
}
