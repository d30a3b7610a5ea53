//! A place and a link that share a count of what is asked of the link, each around another.
ghost use Rattle.std.specs.Prelude.{None};

use arrayvec::ArrayVec;
use pet_base::{Failed, Got, Link, Place};
use std::cell::Cell;

/// A place that does what another does, and notes the count at each put.
#[derive(Drop)]
pub(crate) struct NotedPlace<'a, P> {
    /// The other.
    pub(crate) inner: P,
    /// The count.
    pub(crate) asked: &'a Cell<u32>,
    /// What it was at the first puts.
    pub(crate) moments: ArrayVec<u32, 32>,
}

impl<P: Place> Place for NotedPlace<'_, P> {
    ghost seen = { λ n. P.seen n.inner };

    fn enter(&mut self, name: &str) -> Result<(), Failed> {
        self.inner.enter(name)
    }

    fn take(&mut self, into: &mut [u8]) -> Result<usize, Failed> {
        self.inner.take(into)
    }

    fn create(&mut self, name: &str) -> Result<(), Failed> {
        self.inner.create(name)
    }

    fn put(&mut self, bytes: &[u8]) -> Result<(), Failed> {
        let _ = self.moments.try_push(self.asked.get());
        self.inner.put(bytes)
    }
}

/// A link that does what another does, but is quiet where the other has an empty datagram, and tells nothing of what is to come. It
/// counts how often it is asked for a datagram.
#[derive(Drop)]
pub(crate) struct AskedLink<'a, K> {
    /// The other.
    pub(crate) inner: K,
    /// The count.
    pub(crate) asked: &'a Cell<u32>,
}

impl<K: Link> Link for AskedLink<'_, K> {
    ghost seen = { λ l. record {
      feed = None;
      sent = (K.seen l.inner).sent;
      port = (K.seen l.inner).port;
      bound = (K.seen l.inner).bound;
      aimed = (K.seen l.inner).aimed;
      blamed = (K.seen l.inner).blamed;
      faults = (K.seen l.inner).faults;
      failing = (K.seen l.inner).failing;
    } };

    ghost small = { λ _. tt };

    fn bind(&mut self, address: &str) -> Result<u16, Failed> {
        self.inner.bind(address)
    }

    fn aim(&mut self, address: &str) -> Result<(), Failed> {
        self.inner.aim(address)
    }

    fn send(&mut self, datagram: &[u8]) -> Result<(), Failed> {
        self.inner.send(datagram)
    }

    fn next(&mut self, into: &mut [u8]) -> Result<Got, Failed> {
        self.asked.set(self.asked.get().wrapping_add(1));
        match self.inner.next(into)? {
            Got::Datagram(0) | Got::Quiet => Ok(Got::Quiet),
            Got::Datagram(len) => Ok(Got::Datagram(len)),
        }
    }
}
