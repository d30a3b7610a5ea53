//! A place of the tests that tells nothing, and may fail where an input ends.
ghost use Rattle.std.specs.Prelude.{None};
ghost use Rattle.pet_base.specs.PlaceMemory.{seen_of};

use pet_base::{Failed, MemoryPlace, Place};

/// Files in memory, of which a caller is told only how often a call failed, and whether the last one did.
#[derive(Drop)]
pub(crate) struct Files {
    pub(crate) inner: MemoryPlace,
    /// Whether the call at which an input would end fails, and each behind it.
    pub(crate) breaks: bool,
}

impl Place for Files {
    ghost seen = { λ f. record {
      files = None;
      rest = None;
      source = None;
      target = None;
      has_input = (seen_of f.inner).has_input;
      has_output = (seen_of f.inner).has_output;
      blamed = None;
      faults = (seen_of f.inner).faults;
      failing = (seen_of f.inner).failing;
    } };

    fn enter(&mut self, name: &str) -> Result<(), Failed> {
        self.inner.enter(name)
    }

    fn take(&mut self, into: &mut [u8]) -> Result<usize, Failed> {
        let count = self.inner.take(into)?;
        if count > 0 || !self.breaks {
            return Ok(count);
        }
        self.inner.failing_from(0);
        self.inner.take(into)
    }

    fn create(&mut self, name: &str) -> Result<(), Failed> {
        self.inner.create(name)
    }

    fn put(&mut self, bytes: &[u8]) -> Result<(), Failed> {
        self.inner.put(bytes)
    }
}
