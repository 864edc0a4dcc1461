//! Links over UDP sockets on 127.0.0.1.

ghost use Rattle.std.specs.Prelude.{◌≡◌, ◌≤◌, ◌<◌, ◌^◌, None, MatchOption};
ghost use Rattle.loopback.specs.Ports.{port_at};
ghost use Rattle.loopback.specs.Sends.{is_whole};

use domain_base::{Air, Failed, Link, LinkError, Node};
use std::cell::Cell;
use std::io::{self, ErrorKind};
use std::net::{Ipv4Addr, Net, SocketAddrV4, UdpSocket};
use std::time::Duration;

// How long a poll waits for a frame, in milliseconds.
const WAIT: u64 = 50;

// The port of a node, where there is one.
fn port_of(first: u16, access_points: u16, node: Node) -> Option<u16>
    ensures { MatchOption result (2 ^ 16 ≤ port_at first access_points node)
        (λ port. port ≡ port_at first access_points node) }
{
    match node {
        Node::Ap(n) => first.checked_add(n),
        Node::Sta(n) => match access_points.checked_add(n) {
            Some(place) => first.checked_add(place),
            None => None,
        },
    }
}

// The address of that port of this machine.
fn local(port: Option<u16>) -> Option<SocketAddrV4> {
    port.map(|port| SocketAddrV4::new(Ipv4Addr::LOCALHOST, port))
}

/// What is known of a socket that failed.
#[derive(Clone, Copy)]
pub struct SocketFault {
    /// The node that it is for.
    pub node: Node,
    /// Its port, or none where there is none left.
    pub port: Option<u16>,
    /// What the system said, where it was asked.
    pub kind: Option<ErrorKind>,
}

// A socket there, whose reads wait for a short time, or what the system said.
fn open<R: Net>(net: &R, address: Option<SocketAddrV4>) -> Result<UdpSocket, Option<ErrorKind>> {
    let Some(address) = address else {
        return Err(None);
    };
    let socket = match UdpSocket::bind(net, address) {
        Ok(socket) => socket,
        Err(error) => return Err(Some(error.kind())),
    };
    match socket.set_read_timeout(Some(Duration::from_millis(WAIT))) {
        Ok(()) => Ok(socket),
        Err(error) => Err(Some(error.kind())),
    }
}

// Whether a send of so many octets answered that all of them went.
fn is_whole(sent: io::Result<usize>, size: usize) -> bool
    ensures { result ≡ is_whole sent size }
{
    match sent {
        Ok(count) => count == size,
        Err(_) => false,
    }
}

// What the system said of a send, where it failed.
fn kind_of(sent: &io::Result<usize>) -> Option<ErrorKind> {
    match sent {
        Ok(_) => None,
        Err(error) => Some(error.kind()),
    }
}

// Sends the whole piece there, or tells what the system said.
fn put(
    socket: &UdpSocket,
    address: Option<SocketAddrV4>,
    piece: &[u8],
) -> Result<(), Option<ErrorKind>> {
    let Some(address) = address else {
        return Err(None);
    };
    let sent = socket.send_to(piece, address);
    let kind = kind_of(&sent);
    if is_whole(sent, piece.len()) {
        Ok(())
    } else {
        Err(kind)
    }
}

// Whether an error of a read says only that nothing came in time.
fn is_silence(error: &io::Error) -> bool {
    matches!(
        error.kind(),
        ErrorKind::WouldBlock | ErrorKind::TimedOut | ErrorKind::Interrupted
    )
}

/// A link over a socket: each frame is a datagram, the octets of an air frame, or of an Ask or an
/// Answer, and nothing else. It tells nothing of its frames.
///
/// A poll waits for 50 milliseconds and then answers that no frame has come. A datagram that is
/// longer than the buffer is cut to its length. A frame for a node whose socket is not open is
/// lost, and that is no fault.
#[derive(Drop)]
pub struct UdpLink<'a> {
    socket: UdpSocket,
    node: Node,
    port: Option<u16>,
    first_port: u16,
    access_points: &'a Cell<u16>,
    told: &'a Cell<Option<SocketFault>>,
    faults: u64,
}

impl UdpLink<'_> {
    // Keeps what is known of a fault.
    fn tell(&self, kind: Option<ErrorKind>) {
        let node = self.node;
        let port = self.port;
        self.told.set(Some(SocketFault { node, port, kind }));
    }
}

impl Link for UdpLink<'_> {
    ghost told = { λ _. None };

    ghost faults = { λ l. l.faults };

    fn send(&mut self, to: Node, bytes: &[u8]) -> Result<(), LinkError> {
        let port = port_of(self.first_port, self.access_points.get(), to);
        match put(&self.socket, local(port), bytes) {
            Ok(()) => Ok(()),
            Err(kind) => {
                self.tell(kind);
                self.faults = self.faults.saturating_add(1);
                Err(LinkError::Failed)
            }
        }
    }

    fn poll(&mut self, buf: &mut [u8]) -> Result<Option<usize>, Failed> {
        match self.socket.recv(buf) {
            Ok(size) => Ok(Some(size)),
            Err(error) => {
                if is_silence(&error) {
                    return Ok(None);
                }
                self.tell(Some(error.kind()));
                self.faults = self.faults.saturating_add(1);
                Err(Failed)
            }
        }
    }
}

/// The air over sockets from one port on: that of the first access point, and then one for each
/// node, access points before stations. It tells nothing of its frames.
///
/// Its links share the count of the access points attached, by which they know where stations are.
/// So attach access points before stations, and all of them before the first frame is sent. A node
/// for which there is no port left, or whose port is taken, is not attached: that is a fault. What
/// is known of the last fault, of the air or of a link, is kept where it was lent room for that.
#[derive(Drop)]
pub struct UdpAir<'a, R: Net + Drop> {
    net: R,
    first_port: u16,
    access_points: &'a Cell<u16>,
    told: &'a Cell<Option<SocketFault>>,
    faults: u64,
}

impl<'a, R: Net + Drop> UdpAir<'a, R> {
    /// The air from that port on, by a handle of the network, as `&rt`. The count is to be 0, and
    /// is this air's alone, as is the room for a fault.
    pub fn new(
        net: R,
        first_port: u16,
        access_points: &'a Cell<u16>,
        told: &'a Cell<Option<SocketFault>>,
    ) -> Self
        ensures { ⟦<UdpAir<'a, R> as Air>⟧.faults result ≡ 0 }
    {
        UdpAir {
            net,
            first_port,
            access_points,
            told,
            faults: 0,
        }
    }

    // Counts an access point that was attached.
    fn count(&self, node: Node) {
        match node {
            Node::Ap(_) => self
                .access_points
                .set(self.access_points.get().saturating_add(1)),
            Node::Sta(_) => {}
        }
    }
}

impl<'a, R: Net + Drop> Air for UdpAir<'a, R> {
    type L = UdpLink<'a>;

    ghost told = { λ _. None };

    ghost faults = { λ a. a.faults };

    fn attach(&mut self, node: Node) -> Result<UdpLink<'a>, Failed> {
        let port = port_of(self.first_port, self.access_points.get(), node);
        match open(&self.net, local(port)) {
            Ok(socket) => {
                self.count(node);
                Ok(UdpLink {
                    socket,
                    node,
                    port,
                    first_port: self.first_port,
                    access_points: self.access_points,
                    told: self.told,
                    faults: 0,
                })
            }
            Err(kind) => {
                self.told.set(Some(SocketFault { node, port, kind }));
                self.faults = self.faults.saturating_add(1);
                Err(Failed)
            }
        }
    }

    fn take_back(&mut self, link: UdpLink<'a>) {
        if link.faults > 0 {
            self.faults = self.faults.saturating_add(1);
        }
    }
}
