//! The outside of this machine, with what no clause says: that frames go from one socket to
//! another, and that seeds differ.

use domain_base::{Air, Draws, Failed, Link, Node, array_at};
use loopback::{MachineRandom, OsDraws, UdpAir};
use std::cell::Cell;
use std::net::Net;

// The octets are those of the frame, and no more.
fn is(octets: &[u8], frame: Option<&[u8]>) -> bool {
    match frame {
        Some(frame) => octets == frame,
        None => false,
    }
}

/// The link gives that frame next, cut to four octets, or none.
pub fn gives<L: Link>(link: &mut L, expected: Option<&[u8]>) -> bool {
    let mut buf = [0; 4];
    match link.poll(&mut buf) {
        Ok(Some(size)) => is(&buf[..size], expected),
        Ok(None) => expected.is_none(),
        Err(Failed) => false,
    }
}

// No frame comes before one is sent; then one goes each way, and one is cut to the buffer.
fn carry_frames<L: Link>(ap: &mut L, station: &mut L) -> bool {
    gives(ap, None)
        && ap.send(Node::Sta(0), b"beacon").is_ok()
        && station.send(Node::Ap(0), b"ok").is_ok()
        && gives(station, Some(b"beac"))
        && gives(station, None)
        && gives(ap, Some(b"ok"))
        && gives(ap, None)
}

// Whether two links from that port on carry frames, where both ports are free.
fn carries_frames<R: Net + Drop>(net: R, port: u16) -> Option<bool> {
    let access_points = Cell::new(0);
    let told = Cell::new(None);
    let mut air = UdpAir::new(net, port, &access_points, &told);
    let Ok(mut ap) = air.attach(Node::Ap(0)) else {
        return None;
    };
    let Ok(mut station) = air.attach(Node::Sta(0)) else {
        return None;
    };
    let is_right = carry_frames(&mut ap, &mut station);
    air.take_back(ap);
    air.take_back(station);
    Some(is_right && access_points.get() == 1)
}

// Below 32768, from where on a system gives ports by itself.
const PORTS: [u16; 8] = [23310, 23330, 23350, 23370, 23390, 23410, 23430, 23450];

// By the first two free ports.
#[test]
fn a_frame_goes_between_two_sockets(rt: HostRuntime) {
    for port in PORTS {
        if let Some(is_right) = carries_frames(&rt, port) {
            assert!(rt; is_right);
            return;
        }
    }
    assert!(rt; false);
}

// In both halves.
fn differ<D: Draws>(draws: &mut D) -> bool {
    let Ok(first) = draws.seed() else {
        return false;
    };
    let Ok(second) = draws.seed() else {
        return false;
    };
    array_at::<16>(&first, 0) != array_at::<16>(&second, 0)
        && array_at::<16>(&first, 16) != array_at::<16>(&second, 16)
}

#[test]
fn two_seeds_differ(rt: HostRuntime) {
    let mut draws = OsDraws::new(MachineRandom::new(&rt));
    assert!(rt; differ(&mut draws));
}
