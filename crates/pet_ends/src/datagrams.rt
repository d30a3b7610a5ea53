//! Sockets that receive or send datagrams, and a datagram received or sent, tried again where a signal interrupts.
ghost use Rattle.std.specs.Prelude.{◌≡◌, ◌≤◌, length, IfOk};
ghost use Rattle.pet_base.specs.declared.limits.TheConstants.{MAX_ENTRY};
ghost use Rattle.pet_base.specs.LinkSeen.{IsShortGot};

use pet_base::{Got, MAX_ENTRY};
use std::io;
use std::io::ErrorKind;
use std::net::{Ipv4Addr, Ipv6Addr, Net, SocketAddr, ToSocketAddrs, UdpSocket};
use std::time::Duration;

/// How long a datagram is waited for, in seconds.
const WAIT: u64 = 3;

/// Where datagrams are sent to, and the socket that sends them, at a port that the system chose.
///
/// The socket is not connected: at a connected one the system tells, at a later `send`, that an earlier datagram was
/// refused, and a datagram that is sent to nobody is no failure.
#[derive(Drop)]
pub struct Target {
    socket: UdpSocket,
    to: SocketAddr,
}

impl Target {
    /// Sends one datagram whole. That a part of it was sent is a failure.
    pub fn send(&self, datagram: &[u8]) -> io::Result<()> {
        for _ in 0..u64::MAX {
            match self.socket.send_to(datagram, self.to) {
                Ok(count) if count == datagram.len() => return Ok(()),
                Ok(_) => return Err(io::Error::new(ErrorKind::WriteZero, "only a part was sent")),
                Err(e) if e.kind() == ErrorKind::Interrupted => {}
                Err(e) => return Err(e),
            }
        }
        Err(ErrorKind::Interrupted.into())
    }
}

/// A socket that receives at the address, and its port, which the system chooses where the address has port 0.
pub fn open_at<R: Net>(net: &R, address: &str) -> io::Result<(UdpSocket, u16)> {
    let socket = match by_interface(address) {
        Some(by_name) => UdpSocket::bind(net, by_name)?,
        None => UdpSocket::bind(net, address)?,
    };
    socket.set_read_timeout(Some(Duration::from_secs(WAIT)))?;
    let port = socket.local_addr()?.port();
    Ok((socket, port))
}

/// A socket that sends to the address: to the first of its addresses of whose family a socket can be opened.
pub fn open_towards<R: Net>(net: &R, address: &str) -> io::Result<Target> {
    let mut failure = io::Error::from(ErrorKind::InvalidInput);
    let all = match by_interface(address) {
        Some(by_name) => by_name.to_socket_addrs(net)?,
        None => address.to_socket_addrs(net)?,
    };
    for to in all {
        match open_sender(net, to) {
            Ok(socket) => return Ok(Target { socket, to }),
            Err(e) => failure = e,
        }
    }
    Err(failure)
}

/// The host and the port of an address whose host names an interface, as `[fe80::1%eth0]:9`. The system looks up such a host, but
/// without brackets; of an address in brackets std reads an interface's number alone.
fn by_interface(address: &str) -> Option<(&str, u16)> {
    let (host, port) = address.rsplit_once(':')?;
    let host = host.strip_prefix('[')?.strip_suffix(']')?;
    if host.contains('%') {
        Some((host, port.parse().ok()?))
    } else {
        None
    }
}

/// A socket that sends to this address, which may be that of all machines of a network.
fn open_sender<R: Net>(net: &R, to: SocketAddr) -> io::Result<UdpSocket> {
    let socket = UdpSocket::bind(net, any_port(to))?;
    socket.set_broadcast(true)?;
    Ok(socket)
}

/// All addresses of this machine of the family of the address, at a port that the system chooses.
fn any_port(like: SocketAddr) -> SocketAddr {
    match like {
        SocketAddr::V4(_) => SocketAddr::from((Ipv4Addr::UNSPECIFIED, 0)),
        SocketAddr::V6(_) => SocketAddr::from((Ipv6Addr::UNSPECIFIED, 0)),
    }
}

/// Receives one datagram to the front of the buffer, or is quiet after it waited.
pub fn receive(socket: &UdpSocket, into: &mut [u8]) -> io::Result<Got>
    requires { MAX_ENTRY ≤ length into.old }
    ensures short { IfOk result IsShortGot }
    ensures buffer { length into.new ≡ length into.old }
{
    let buffer = &mut into[..usize::from(MAX_ENTRY)];
    for _ in 0..u64::MAX {
        match socket.recv_from(buffer) {
            Ok((count, _)) => return Ok(Got::Datagram(count)),
            Err(e) => match e.kind() {
                ErrorKind::Interrupted => {}
                ErrorKind::WouldBlock | ErrorKind::TimedOut => return Ok(Got::Quiet),
                _ => return Err(e),
            },
        }
    }
    Err(ErrorKind::Interrupted.into())
}
