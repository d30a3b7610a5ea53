//! A place of the tests that tells nothing.
ghost use Rattle.std.specs.Prelude.{◌≡◌, ◌≤◌, true};
ghost use Rattle.pet_base.specs.Causes.{Rose, one_more};

use pet_base::{Failed, Place};
use std::alloc::{AllocError, Global};
use std::cell::Cell;

/// A place that tells nothing: of all that it does a caller is told only how often a call failed, and whether the last one did. Each
/// input has what is left of some bytes, and then ends or fails; of the files that are made it keeps one.
#[derive(Drop)]
pub struct UntoldPlace<'a> {
    left: &'a [u8],
    fails: bool,
    kept: &'a str,
    counter: &'a Cell<u32>,
    written: Vec<u8>,
    moments: Vec<u32>,
    /// Whether there is an input.
    input: bool,
    /// Whether there is an output, and whether it is the one that is kept.
    output: Option<bool>,
    faults: u64,
    /// Whether the last call failed.
    failing: bool,
}

impl<'a> UntoldPlace<'a> {
    /// The inputs have no bytes, and end. At each put to the file of this name the counter is noted.
    pub fn new(alloc: Global, kept: &'a str, counter: &'a Cell<u32>) -> UntoldPlace<'a> {
        UntoldPlace {
            left: &[],
            fails: false,
            kept,
            counter,
            written: Vec::new(alloc),
            moments: Vec::new(alloc),
            input: false,
            output: None,
            faults: 0,
            failing: false,
        }
    }

    /// The inputs have these bytes, and fail behind them.
    pub fn failing_behind(&mut self, bytes: &'a [u8]) {
        self.left = bytes;
        self.fails = true;
    }

    /// What was put to the file that is kept.
    pub fn written(&self) -> &[u8] {
        &self.written
    }

    /// The counter at each put to it.
    pub fn moments(&self) -> &[u32] {
        &self.moments
    }

    /// Keeps what is put.
    fn keep(&mut self, bytes: &[u8]) -> Result<(), AllocError>
        ensures { self.new ≡ record self.old { written = self.new.written; moments = self.new.moments } }
    {
        self.written.extend_from_slice(bytes)?;
        self.moments.push(self.counter.get())?;
        Ok(())
    }

    /// Counts a failure of the last call. The count stops at the last value of a u64.
    fn fail(&mut self) -> Failed
        ensures same { self.new ≡ record self.old { faults = self.new.faults; failing = true } }
        ensures later { self.old.faults ≤ self.new.faults }
        ensures rose { Rose self.old.faults self.new.faults }
        ensures once { self.new.faults ≡ one_more self.old.faults }
    {
        self.faults = self.faults.saturating_add(1);
        self.failing = true;
        Failed
    }
}

impl Place for UntoldPlace<'_> {
    ghost use Rattle.std.specs.Prelude.{is_some, None};

    ghost seen = { λ p. record {
      files = None;
      rest = None;
      source = None;
      target = None;
      has_input = p.input;
      has_output = is_some p.output;
      blamed = None;
      faults = p.faults;
      failing = p.failing;
    } };

    fn enter(&mut self, _name: &str) -> Result<(), Failed> {
        self.failing = false;
        self.input = true;
        Ok(())
    }

    fn take(&mut self, into: &mut [u8]) -> Result<usize, Failed> {
        self.failing = false;
        let count = into.len().min(self.left.len());
        if count == 0 && self.fails {
            return Err(self.fail());
        }
        into[..count].copy_from_slice(&self.left[..count]);
        self.left = &self.left[count..];
        Ok(count)
    }

    fn create(&mut self, name: &str) -> Result<(), Failed> {
        self.failing = false;
        self.output = Some(name == self.kept);
        Ok(())
    }

    fn put(&mut self, bytes: &[u8]) -> Result<(), Failed> {
        self.failing = false;
        if self.output == Some(true) && self.keep(bytes).is_err() {
            return Err(self.fail());
        }
        Ok(())
    }
}
