//! A link that is quiet once and then goes on, around another.
ghost use Rattle.std.specs.Prelude.{None, true, false, if◌then◌else◌};

use pet_base::{Failed, Got, Link};

/// A link that is quiet at one of the calls for a datagram, and goes on behind it as the other does. It counts these calls, and tells
/// nothing of what is to come.
#[derive(Drop)]
pub struct Quiet<K> {
    /// The other.
    pub inner: K,
    /// At which call for a datagram it is quiet, counted from 1; 0 for none.
    pub at: u32,
    /// How often it was asked for a datagram.
    pub asked: u32,
    /// Whether the last call was the quiet one.
    is_quiet: bool,
}

impl<K> Quiet<K> {
    /// Around this link, quiet at this call for a datagram.
    pub fn new(inner: K, at: u32) -> Quiet<K> {
        Quiet {
            inner,
            at,
            asked: 0,
            is_quiet: false,
        }
    }
}

impl<K: Link> Link for Quiet<K> {
    ghost seen = { λ q. record {
      feed = None;
      sent = (K.seen q.inner).sent;
      port = (K.seen q.inner).port;
      bound = (K.seen q.inner).bound;
      aimed = (K.seen q.inner).aimed;
      blamed = (K.seen q.inner).blamed;
      faults = (K.seen q.inner).faults;
      failing = if q.is_quiet then false else (K.seen q.inner).failing;
    } };

    ghost small = { λ _. tt };

    fn bind(&mut self, address: &str) -> Result<u16, Failed> {
        self.is_quiet = false;
        self.inner.bind(address)
    }

    fn aim(&mut self, address: &str) -> Result<(), Failed> {
        self.is_quiet = false;
        self.inner.aim(address)
    }

    fn send(&mut self, datagram: &[u8]) -> Result<(), Failed> {
        self.is_quiet = false;
        self.inner.send(datagram)
    }

    fn next(&mut self, into: &mut [u8]) -> Result<Got, Failed> {
        self.asked = self.asked.saturating_add(1);
        self.is_quiet = self.asked == self.at;
        if self.is_quiet {
            return Ok(Got::Quiet);
        }
        self.inner.next(into)
    }
}
