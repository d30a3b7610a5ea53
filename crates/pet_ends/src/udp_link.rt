//! The machine's datagrams.
ghost use Rattle.std.specs.Prelude.{◌≡◌};
ghost use Rattle.pet_ends.specs.Untold.{Numbered, never_bound, untold_link};

use crate::datagrams::{Target, open_towards};
use crate::fault_count::FaultCount;
use crate::inbox::Inbox;
use crate::notices::{Attempt, ShownName, tell};
use pet_base::{Failed, Got, Link};
use std::alloc::Global;
use std::io::ErrorKind;
use std::marker::Model;
use std::net::Net;

/// The machine's datagrams, over UDP. As a `Link` it tells nothing but its faults and the port that the last `bind` answered.
///
/// Each side has a socket of its own. `bind` and `aim` look up their address, a name or an IP address with a port, and
/// take the first of its addresses that serves. Where they succeed they replace the socket of their side, and where
/// they fail it stays. `next` takes all that waits, up to 64 MB, and hands on what came first; where nothing waits, it waits
/// three seconds for a datagram. `next` before a `bind`, and `send` before an `aim`, are failures.
/// Of each failure it says by the notices, in a line, which address and why; where that line cannot be printed, nothing changes.
#[derive(Drop)]
pub struct UdpLink<'a, R: Net, E: Eprint> {
    alloc: Global,
    net: &'a R,
    notices: E,
    bound: Option<Inbox>,
    bound_name: ShownName,
    aimed: Option<Target>,
    aimed_name: ShownName,
    port: u16,
    faults: FaultCount,
}

impl<'a, R: Net, E: Eprint> Model for UdpLink<'a, R, E> {
    ghost Value = { Numbered };

    ghost view = { λ l. record { port = l.port; faults = l.faults.count; failing = l.faults.last } };
}

impl<'a, R: Net, E: Eprint> UdpLink<'a, R, E> {
    /// Neither side is ready, and nothing failed yet. What waits is kept in this memory. The notices are standard error, or what
    /// stands for it.
    pub fn new(alloc: Global, net: &'a R, notices: E) -> UdpLink<'a, R, E>
        ensures { result ≡ never_bound }
    {
        UdpLink {
            alloc,
            net,
            notices,
            bound: None,
            bound_name: ShownName::default(),
            aimed: None,
            aimed_name: ShownName::default(),
            port: 0,
            faults: FaultCount::new(),
        }
    }
}

impl<R: Net, E: Eprint> Link for UdpLink<'_, R, E> {
    ghost seen = { untold_link };

    ghost small = { λ _. tt };

    fn bind(&mut self, address: &str) -> Result<u16, Failed> {
        self.faults.begin();
        match Inbox::open(self.alloc, self.net, address) {
            Ok((inbox, port)) => {
                self.bound = Some(inbox);
                self.bound_name = ShownName::new(address);
                self.port = port;
                Ok(port)
            }
            Err(e) => {
                tell(
                    &self.notices,
                    Attempt::Receive,
                    ShownName::new(address),
                    e.into(),
                );
                Err(self.faults.rise())
            }
        }
    }

    fn aim(&mut self, address: &str) -> Result<(), Failed> {
        self.faults.begin();
        match open_towards(self.net, address) {
            Ok(target) => {
                self.aimed = Some(target);
                self.aimed_name = ShownName::new(address);
                Ok(())
            }
            Err(e) => {
                tell(
                    &self.notices,
                    Attempt::Send,
                    ShownName::new(address),
                    e.into(),
                );
                Err(self.faults.rise())
            }
        }
    }

    fn send(&mut self, datagram: &[u8]) -> Result<(), Failed> {
        self.faults.begin();
        let sent = match &self.aimed {
            Some(target) => target.send(datagram),
            None => Err(ErrorKind::NotConnected.into()),
        };
        match sent {
            Ok(()) => Ok(()),
            Err(e) => {
                tell(&self.notices, Attempt::Send, self.aimed_name, e.into());
                Err(self.faults.rise())
            }
        }
    }

    fn next(&mut self, into: &mut [u8]) -> Result<Got, Failed> {
        self.faults.begin();
        let got = match &mut self.bound {
            Some(inbox) => inbox.next(into),
            None => Err(ErrorKind::NotConnected.into()),
        };
        match got {
            Ok(got) => Ok(got),
            Err(e) => {
                tell(&self.notices, Attempt::Receive, self.bound_name, e.into());
                Err(self.faults.rise())
            }
        }
    }
}
