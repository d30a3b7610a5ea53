//! A place of the tests that tells nothing, and whose stream may be another when it is opened again.
ghost use Rattle.std.specs.Prelude.{◌≡◌, ◌≤◌, true};
ghost use Rattle.pet_base.specs.Causes.{Rose, one_more};

use pet_base::{Failed, Place};
use std::alloc::Global;

/// A priority file `f`, a stream `s`, and a file `d` that can be made; at every other name a call fails. Of all this a
/// caller is told only how often a call failed, and whether the last one did.
#[derive(Drop)]
pub(crate) struct UntoldPlace<'a> {
    alloc: Global,
    priorities: &'a [u8],
    /// What the stream gives when it is opened next, and once more after that. None fails.
    next: Option<&'a [u8]>,
    later: Option<&'a [u8]>,
    input: Option<&'a [u8]>,
    output: Option<Vec<u8>>,
    faults: u64,
    failing: bool,
}

impl<'a> UntoldPlace<'a> {
    /// The stream gives the first bytes and then the second, or fails at its second opening where there are none.
    pub(crate) fn new(
        alloc: Global,
        priorities: &'a [u8],
        first: &'a [u8],
        second: Option<&'a [u8]>,
    ) -> UntoldPlace<'a> {
        UntoldPlace {
            alloc,
            priorities,
            next: Some(first),
            later: second,
            input: None,
            output: None,
            faults: 0,
            failing: false,
        }
    }

    /// What the output holds, if there is one.
    pub(crate) fn output(&self) -> Option<&[u8]> {
        match &self.output {
            Some(bytes) => Some(bytes.as_slice()),
            None => None,
        }
    }

    /// What a file gives that is opened now.
    fn open(&mut self, name: &str) -> Option<&'a [u8]>
        ensures same { self.new ≡ record self.old { next = self.new.next; later = self.new.later } }
    {
        match name {
            "f" => Some(self.priorities),
            "s" => {
                let opened = self.next;
                self.next = self.later;
                self.later = None;
                opened
            }
            _ => None,
        }
    }

    /// Counts a failure of the last call. The count stops at the last value of a u64.
    fn fail(&mut self) -> Failed
        ensures same { self.new ≡ record self.old { faults = self.new.faults; failing = true } }
        ensures later { self.old.faults ≤ self.new.faults }
        ensures rose { Rose self.old.faults self.new.faults }
        ensures once { self.new.faults ≡ one_more self.old.faults }
    {
        self.faults = self.faults.saturating_add(1);
        self.failing = true;
        Failed
    }
}

impl Place for UntoldPlace<'_> {
    ghost use Rattle.std.specs.Prelude.{is_some, None};

    ghost seen = { λ p. record {
      files = None;
      rest = None;
      source = None;
      target = None;
      has_input = is_some p.input;
      has_output = is_some p.output;
      blamed = None;
      faults = p.faults;
      failing = p.failing;
    } };

    fn enter(&mut self, name: &str) -> Result<(), Failed> {
        self.failing = false;
        self.input = self.open(name);
        match self.input {
            Some(_) => Ok(()),
            None => Err(self.fail()),
        }
    }

    fn take(&mut self, into: &mut [u8]) -> Result<usize, Failed> {
        self.failing = false;
        let Some(left) = self.input else {
            unreachable!()
        };
        let count = left.len().min(into.len());
        into[..count].copy_from_slice(&left[..count]);
        self.input = Some(&left[count..]);
        Ok(count)
    }

    fn create(&mut self, name: &str) -> Result<(), Failed> {
        self.failing = false;
        if name != "d" {
            self.output = None;
            return Err(self.fail());
        }
        self.output = Some(Vec::new(self.alloc));
        Ok(())
    }

    fn put(&mut self, bytes: &[u8]) -> Result<(), Failed> {
        self.failing = false;
        let Some(output) = &mut self.output else {
            unreachable!()
        };
        match output.extend_from_slice(bytes) {
            Ok(()) => Ok(()),
            Err(_) => Err(self.fail()),
        }
    }
}
