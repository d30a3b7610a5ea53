//! The files of the machine, but for one that no name of it makes.
ghost use Rattle.std.specs.Prelude.{◌≡◌, true, false};
ghost use Rattle.pet_ends.specs.Untold.{nothing_open, untold};

use pet_base::{Failed, Place};
use pet_ends::{FaultCount, FilePlace};
use std::fs;
use std::marker::Model;
use std::os::unix::fs::MetadataExt;
use std::rt::Files;

/// The files of the machine, by path, as `FilePlace` has them, but for one file: `create` refuses each name of it, and leaves it as
/// it is.
#[derive(Drop)]
pub struct SparingPlace<'a, R: Files, E: Eprint> {
    rt: &'a R,
    files: FilePlace<'a, R, E>,
    spared: &'a str,
    output: bool,
    faults: FaultCount,
}

impl<'a, R: Files, E: Eprint> Model for SparingPlace<'a, R, E> {
    ghost use Rattle.std.specs.Prelude.{◌≡◌, true};
    ghost use Rattle.disk_ends.specs.Sparing.{Sparing};

    ghost Value = { Sparing };

    ghost view = { λ p. record {
      files = record p.files { has_output = p.output; faults = p.faults.count; failing = p.faults.last };
      spared = p.spared.now;
    } };

    ghost invariant = { λ p. p.output ≡ true → p.files.has_output ≡ true };
}

impl<'a, R: Files, E: Eprint> SparingPlace<'a, R, E> {
    /// No input and no output, and no failure yet; `notices` is told why a file fails. The file of the name `spared` is not made.
    pub fn new(rt: &'a R, notices: E, spared: &'a str) -> SparingPlace<'a, R, E>
        ensures { result ≡ record { files = nothing_open; spared = spared.now } }
    {
        SparingPlace {
            rt,
            files: FilePlace::new(rt, notices),
            spared,
            output: false,
            faults: FaultCount::new(),
        }
    }
}

/// Whether both names are of one file that is there.
fn are_one<R: Files>(rt: &R, one: &str, other: &str) -> bool {
    match (fs::metadata(rt, one), fs::metadata(rt, other)) {
        (Ok(one), Ok(other)) => one.dev() == other.dev() && one.ino() == other.ino(),
        _ => false,
    }
}

impl<R: Files, E: Eprint> Place for SparingPlace<'_, R, E> {
    ghost seen = { λ p. untold p.files };

    fn enter(&mut self, name: &str) -> Result<(), Failed> {
        let answer = self.files.enter(name);
        self.faults.count(answer)
    }

    fn take(&mut self, into: &mut [u8]) -> Result<usize, Failed> {
        match self.files.take(into) {
            Ok(count) => {
                self.faults.begin();
                Ok(count)
            }
            Err(_) => Err(self.faults.rise()),
        }
    }

    fn create(&mut self, name: &str) -> Result<(), Failed> {
        let answer = if are_one(self.rt, self.spared, name) {
            Err(Failed)
        } else {
            self.files.create(name)
        };
        self.output = answer.is_ok();
        self.faults.count(answer)
    }

    fn put(&mut self, bytes: &[u8]) -> Result<(), Failed> {
        let answer = self.files.put(bytes);
        self.faults.count(answer)
    }
}
