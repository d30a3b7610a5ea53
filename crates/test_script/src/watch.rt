//! Objects of the outside that tell each other of a failure, and count what is asked of them behind it.
ghost use Rattle.std.specs.Prelude.{◌≡◌};

use pet_base::{Failed, Got, Link, Place, Sink};
use std::cell::Cell;

/// What the objects of a run share: whether a call of one of them has failed, and how many calls came behind that.
///
/// The line of a status is printed behind a failure of a file or of the link, and is no such call; behind a failure of the output it
/// is one.
#[derive(Drop)]
pub struct Watch {
    failed: Cell<bool>,
    output_failed: Cell<bool>,
    late: Cell<u32>,
}

impl Watch {
    /// No call has failed yet.
    pub fn new() -> Watch {
        Watch {
            failed: Cell::new(false),
            output_failed: Cell::new(false),
            late: Cell::new(0),
        }
    }

    /// How many calls came behind the first that failed.
    pub fn late(&self) -> u32 {
        self.late.get()
    }

    /// Sees what a file or the link answers.
    fn see<T>(&self, answer: Result<T, Failed>) -> Result<T, Failed>
        ensures { result ≡ answer }
    {
        if self.failed.get() {
            self.late.set(self.late.get().saturating_add(1));
        }
        if answer.is_err() {
            self.failed.set(true);
        }
        answer
    }

    /// Sees what the output answers.
    fn see_output(&self, answer: Result<(), Failed>) -> Result<(), Failed>
        ensures { result ≡ answer }
    {
        if self.output_failed.get() {
            self.late.set(self.late.get().saturating_add(1));
        }
        if answer.is_err() {
            self.failed.set(true);
            self.output_failed.set(true);
        }
        answer
    }
}

/// An object of the outside, and what watches it.
#[derive(Drop)]
pub struct Watched<'a, T> {
    pub inner: T,
    pub watch: &'a Watch,
}

impl<P: Place> Place for Watched<'_, P> {
    ghost seen = { λ w. P.seen w.inner };

    fn enter(&mut self, name: &str) -> Result<(), Failed> {
        self.watch.see(self.inner.enter(name))
    }

    fn take(&mut self, into: &mut [u8]) -> Result<usize, Failed> {
        self.watch.see(self.inner.take(into))
    }

    fn create(&mut self, name: &str) -> Result<(), Failed> {
        self.watch.see(self.inner.create(name))
    }

    fn put(&mut self, bytes: &[u8]) -> Result<(), Failed> {
        self.watch.see(self.inner.put(bytes))
    }
}

impl<K: Link> Link for Watched<'_, K> {
    ghost seen = { λ w. K.seen w.inner };

    ghost small = { λ w. K.small w.inner };

    fn bind(&mut self, address: &str) -> Result<u16, Failed> {
        self.watch.see(self.inner.bind(address))
    }

    fn aim(&mut self, address: &str) -> Result<(), Failed> {
        self.watch.see(self.inner.aim(address))
    }

    fn send(&mut self, datagram: &[u8]) -> Result<(), Failed> {
        self.watch.see(self.inner.send(datagram))
    }

    fn next(&mut self, into: &mut [u8]) -> Result<Got, Failed> {
        self.watch.see(self.inner.next(into))
    }
}

impl<S: Sink> Sink for Watched<'_, S> {
    ghost written = { λ w. S.written w.inner };

    ghost faults = { λ w. S.faults w.inner };

    fn put(&mut self, bytes: &[u8]) -> Result<(), Failed> {
        self.watch.see_output(self.inner.put(bytes))
    }
}
