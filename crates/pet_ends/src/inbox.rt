//! A socket that receives, and what came at it.
ghost use Rattle.std.specs.Prelude.{◌≡◌, ◌≤◌, length, IfOk};
ghost use Rattle.pet_base.specs.declared.limits.TheConstants.{MAX_ENTRY};
ghost use Rattle.pet_base.specs.LinkSeen.{IsShortGot};

use crate::datagrams::{open_at, receive};
use crate::waiting::{Room, Waiting};
use pet_base::Got;
use std::alloc::Global;
use std::io;
use std::net::{Net, UdpSocket};

/// A socket that receives, and the datagrams that were taken from it and not yet handed on.
///
/// The system keeps few datagrams for a socket, and loses what finds no room there. So all that waits is taken before
/// each datagram is handed on.
#[derive(Drop)]
pub struct Inbox {
    /// A call of it does not wait, but where `wait` lets it.
    socket: UdpSocket,
    waiting: Waiting,
    /// The error that the system told, behind what waits.
    failed: Option<io::Error>,
}

impl Inbox {
    /// A socket at the address, at which nothing came, and its port, which the system chooses where the address has port 0.
    pub fn open<R: Net>(alloc: Global, net: &R, address: &str) -> io::Result<(Inbox, u16)> {
        let (socket, port) = open_at(net, address)?;
        socket.set_nonblocking(true)?;
        let inbox = Inbox {
            socket,
            waiting: Waiting::new(alloc),
            failed: None,
        };
        Ok((inbox, port))
    }

    /// Takes all that waits, and moves the datagram that came first to the front of the buffer. Where there is none, it tells the
    /// error that the system told, or waits for a datagram, or is quiet.
    pub fn next(&mut self, into: &mut [u8]) -> io::Result<Got>
        requires { MAX_ENTRY ≤ length into.old }
        ensures { IfOk result IsShortGot }
    {
        self.drain(into);
        if let Some(count) = self.waiting.pop(into) {
            return Ok(Got::Datagram(count));
        }
        match self.failed.take() {
            Some(error) => Err(error),
            None => self.wait(into),
        }
    }

    /// Takes what waits into the queue, through this buffer, as long as there is room.
    fn drain(&mut self, through: &mut [u8])
        requires { MAX_ENTRY ≤ length through.old }
        ensures { length through.new ≡ length through.old }
    {
        for _ in 0..u64::MAX {
            if self.failed.is_some() || self.waiting.make_room() != Room::There {
                return;
            }
            match receive(&self.socket, through) {
                Ok(Got::Datagram(count)) => self.waiting.push(&through[..count]),
                Ok(Got::Quiet) => return,
                Err(e) => self.failed = Some(e),
            }
        }
    }

    /// Waits for a datagram.
    fn wait(&mut self, into: &mut [u8]) -> io::Result<Got>
        requires { MAX_ENTRY ≤ length into.old }
        ensures { IfOk result IsShortGot }
    {
        self.socket.set_nonblocking(false)?;
        let got = receive(&self.socket, into);
        self.failed = self.socket.set_nonblocking(true).err();
        got
    }
}
