//! Standard output, or any other writer.
ghost use Rattle.std.specs.Prelude.{◌≡◌};
ghost use Rattle.pet_ends.specs.Untold.{Printed};

use crate::fault_count::FaultCount;
use crate::printer::Printer;
use crate::transfer::write_whole;
use pet_base::{Failed, Sink};
use std::marker::Model;

/// Standard output, where it is made with that of the runtime. As a `Sink` it tells what its writer tells: of standard output
/// nothing.
#[derive(Drop)]
pub struct StandardOut<W: Printer> {
    out: W,
    faults: FaultCount,
}

impl<W: Printer> Model for StandardOut<W> {
    ghost Value = { Printed };

    ghost view = { λ s. (W.contents s.out, s.faults.count) };
}

impl<W: Printer> StandardOut<W> {
    /// No failure yet.
    pub fn new(out: W) -> StandardOut<W>
        ensures { result ≡ (W.contents out, 0) }
    {
        StandardOut {
            out,
            faults: FaultCount::new(),
        }
    }

    /// The writer.
    pub fn into_writer(self) -> W
        ensures { W.contents result ≡ self.0 }
    {
        self.out
    }
}

impl<W: Printer> Sink for StandardOut<W> {
    ghost use Rattle.std.specs.Prelude.{◌≡◌, ℕ, take, OnOk, OnErr};
    ghost use Rattle.std.specs.Io.KnownBytes.{Appends, append_known};
    ghost use Rattle.pet_base.specs.Causes.{HasCause};

    ghost written = { λ s. s.0 };

    ghost faults = { λ s. s.1 };

    /// Where the writer tells what it holds, that has grown by the bytes (`whole`), or at a failure by a front of them
    /// (`front`).
    fn put(&mut self, bytes: &[u8]) -> Result<(), Failed>
        ensures written { OnOk result (self.new.0 ≡ append_known self.old.0 bytes.now) }
        ensures part { OnErr result ((k : ℕ) × (self.new.0 ≡ append_known self.old.0 (take k bytes.now))) }
        ensures cause { HasCause self.old.1 self.new.1 result }
        ensures whole { OnOk result (Appends self.old.0 self.new.0 bytes.now) }
        ensures front { OnErr result ((k : ℕ) × Appends self.old.0 self.new.0 (take k bytes.now)) }
    {
        match write_whole(&mut self.out, bytes) {
            Ok(()) => Ok(()),
            Err(_) => Err(self.faults.rise()),
        }
    }
}
