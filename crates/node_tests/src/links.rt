//! The links of access points, with what no clause of them says: that calls succeed, and what stands
//! where one fails.

ghost use Rattle.std.specs.Prelude.{◌≡◌, length};

use crate::network::{network, octets, version_1};
use domain_base::{Akm, LinkError, LinkPlan, MemAir, MemLink, Node, Peer, SentFrame, SteadyLink};
use domain_links::{attach_next, give_back, poll, send, send_entries};
use run_journal::{Act, Domain, Entry, Kind};
use std::alloc::Global;
use std::process::Abort;

// To the first station, and to all.
const TO_STATION: &[u8] = &[0xd4, 0, 0, 0, 2, 0, 0, 0, 0, 0x11];

const TO_ALL: &[u8] = &[0xd0, 0, 0, 0, 255, 255, 255, 255, 255, 255, 1];

// What is handed in for the links of both access points. The second has a frame of 2,401 octets, and its
// first call and its fifth fail.
fn plans(rt: &impl Abort, alloc: Global) -> Vec<LinkPlan> {
    let frames = Vec::from_array(alloc, [octets(rt, alloc, &[5; 2401])]).expect(rt, "memory");
    let failing = [0, 4].to_vec(alloc).expect(rt, "memory");
    let first = LinkPlan::new(Node::Ap(0), Vec::new(alloc), Vec::new(alloc));
    let second = LinkPlan::new(Node::Ap(1), frames, failing);
    Vec::from_array(alloc, [first, second]).expect(rt, "memory")
}

// Both access points are attached, and the first station is not, for which nothing was handed in.
fn are_attached(air: &mut MemAir, links: &mut Vec<MemLink>) -> bool {
    let first = attach_next(air, Node::Ap(0), links);
    let second = attach_next(air, Node::Ap(1), links);
    let third = attach_next(air, Node::Sta(0), links);
    first.is_ok() && second.is_ok() && third.is_err() && links.len() == 2
}

// Behind a call that fails the link of the second access point gives its frame, cut to the buffer, and
// no other.
fn gives_one(links: &mut Vec<MemLink>, buf: &mut [u8]) -> bool
    requires { length buf.old ≡ 2400 }
{
    if links.len() != 2 || poll(links, 1, buf).is_ok() {
        return false;
    }
    let is_cut = poll(links, 1, buf) == Ok(Some(2400)) && buf[2399] == 5;
    is_cut && poll(links, 1, buf) == Ok(None)
}

// A frame that a node sent.
fn sent(rt: &impl Abort, alloc: Global, node: Node, frame: &[u8]) -> Entry {
    Entry {
        round: 1,
        node,
        number: 1,
        act: Act::Sent {
            peer: Peer::All,
            kind: Kind::Data,
            octets: octets(rt, alloc, frame),
            seal: None,
        },
    }
}

// It goes out by the links.
fn send_one(
    rt: &impl Abort,
    alloc: Global,
    domain: &Domain,
    links: &mut Vec<MemLink>,
    node: Node,
    frame: &[u8],
) -> Result<(), LinkError>
    requires aps { length domain.now.aps ≡ 2 }
    requires stas { length domain.now.stas ≡ 2 }
{
    let entries = [sent(rt, alloc, node, frame)];
    let ended = send_entries(links, domain, &entries);
    drop(entries);
    ended
}

// By the first link a frame goes to the second station, though its address 1 names a group.
fn goes_to_a_node(links: &mut Vec<MemLink>) -> bool {
    !links.is_empty() && send(links, 0, Node::Sta(1), TO_ALL).is_ok()
}

// The frame of the first access point goes out, and that of the second not to all.
fn go_out(rt: &impl Abort, alloc: Global, domain: &Domain, links: &mut Vec<MemLink>) -> bool
    requires aps { length domain.now.aps ≡ 2 }
    requires stas { length domain.now.stas ≡ 2 }
{
    let first = send_one(rt, alloc, domain, links, Node::Ap(0), TO_STATION);
    let second = send_one(rt, alloc, domain, links, Node::Ap(1), TO_ALL);
    first.is_ok() && matches!(second, Err(LinkError::Failed)) && goes_to_a_node(links)
}

// This frame went to that station.
fn went(sent: &SentFrame, sta: u16, frame: &[u8]) -> bool {
    sent.to == Node::Sta(sta) && sent.octets.as_slice() == frame
}

// By the link of the first access point both frames went.
fn has_sent_both(link: &SteadyLink) -> bool {
    match link.sent() {
        [first, second] => {
            link.node() == Node::Ap(0) && went(first, 0, TO_STATION) && went(second, 1, TO_ALL)
        }
        _ => false,
    }
}

// By the link of the second one frame went, before its fault.
fn has_sent_one(link: &SteadyLink) -> bool {
    match link.sent() {
        [sent] => link.node() == Node::Ap(1) && went(sent, 0, TO_ALL),
        _ => false,
    }
}

// Both links were taken back in order, with the frames that went out before the fault.
fn have_sent(air: &MemAir) -> bool {
    match air.returned() {
        [first, second] => has_sent_both(first) && has_sent_one(second),
        _ => false,
    }
}

// Attaches, polls, sends, and gives the links back.
fn are_used(rt: &impl Abort, alloc: Global, domain: &Domain, air: &mut MemAir) -> bool
    requires aps { length domain.now.aps ≡ 2 }
    requires stas { length domain.now.stas ≡ 2 }
{
    let mut buf = [0; 2400];
    let mut links = Vec::new(alloc);
    let is_right = are_attached(air, &mut links)
        && gives_one(&mut links, &mut buf)
        && go_out(rt, alloc, domain, &mut links);
    give_back(air, links);
    is_right && have_sent(air)
}

#[test]
fn links_some_of_whose_calls_fail(rt: HostRuntime) {
    let domain = network(&rt, rt.alloc(), Akm::Psk, version_1());
    let plans = plans(&rt, rt.alloc());
    let mut air = MemAir::new(rt.alloc(), plans, Vec::new(rt.alloc())).expect(&rt, "memory");
    let is_right = are_used(&rt, rt.alloc(), &domain, &mut air);
    drop(air);
    drop(domain);
    assert!(rt; is_right);
}
