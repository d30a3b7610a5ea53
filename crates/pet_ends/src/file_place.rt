//! The files of the machine.
ghost use Rattle.std.specs.Prelude.{◌≡◌, is_some, option_and_then};
ghost use Rattle.pet_ends.specs.Untold.{Opened, nothing_open, untold};

use crate::fault_count::FaultCount;
use crate::met_files::MetFiles;
use crate::notices::{Attempt, ShownName, tell};
use crate::transfer::{read_some, write_whole};
use pet_base::{Failed, Place};
use std::marker::Model;
use std::rt::Files;

/// The files of the machine, by path. As a `Place` it tells nothing of their names and of what they hold.
///
/// `enter` refuses a directory, and what is no regular file where it was entered before. `create` refuses a regular file that was
/// entered or made before, by this name or another, and leaves it as it is: so no file of a run is lost to a second name of it.
/// Of each failure it says by the notices, in a line, which file and why; where that line cannot be printed, nothing changes.
#[derive(Drop)]
pub struct FilePlace<'a, R: Files, E: Eprint> {
    rt: &'a R,
    notices: E,
    input: Option<R::File>,
    input_name: ShownName,
    output: Option<R::File>,
    output_name: ShownName,
    met: MetFiles,
    faults: FaultCount,
}

impl<'a, R: Files, E: Eprint> Model for FilePlace<'a, R, E> {
    ghost Value = { Opened };

    ghost view = { λ p. record {
      has_input = is_some p.input;
      has_output = is_some p.output;
      left = option_and_then R.File.remaining p.input;
      held = option_and_then R.File.contents p.output;
      faults = p.faults.count;
      failing = p.faults.last;
    } };
}

impl<'a, R: Files, E: Eprint> FilePlace<'a, R, E> {
    /// No input and no output, and no failure yet. The notices are standard error, or what stands for it.
    pub fn new(rt: &'a R, notices: E) -> FilePlace<'a, R, E>
        ensures { result ≡ nothing_open }
    {
        FilePlace {
            rt,
            notices,
            input: None,
            input_name: ShownName::default(),
            output: None,
            output_name: ShownName::default(),
            met: MetFiles::new(),
            faults: FaultCount::new(),
        }
    }
}

impl<R: Files, E: Eprint> Place for FilePlace<'_, R, E> {
    ghost use Rattle.std.specs.Prelude.{◌≡◌, ◌<◌, ℕ, true, length, take, OnOk, OnErr, IfOk, MatchResult};
    ghost use Rattle.std.specs.Io.{ReadsAtMost};
    ghost use Rattle.std.specs.Io.KnownBytes.{prepend_known, IsAtEnd, ReadConsumes, Appends};
    ghost use Rattle.pet_base.specs.declared.place.Side.TheVariants.{Read, Written};
    ghost use Rattle.pet_base.specs.Causes.{Blames};
    ghost use Rattle.pet_base.specs.Seen.{Grows, OnlyReads, KeepsInput, HasBlame, CountsCall};

    ghost seen = { untold };

    fn enter(&mut self, name: &str) -> Result<(), Failed> {
        self.faults.begin();
        self.input_name = ShownName::new(name);
        match self.met.open(self.rt, name) {
            Ok(file) => {
                self.input = Some(file);
                Ok(())
            }
            Err(why) => {
                self.input = None;
                tell(&self.notices, Attempt::Read, self.input_name, why);
                Err(self.faults.rise())
            }
        }
    }

    /// Where the file tells what it still has, the bytes have left it (`bytes`).
    fn take(&mut self, into: &mut [u8]) -> Result<usize, Failed>
        requires input { (untold self.old).has_input ≡ true }
        requires room { 0 < length into.old }
        ensures bound { ReadsAtMost result into.new }
        ensures taken { MatchResult result (λ n. (untold self.old).rest ≡ prepend_known (take n into.new) (untold self.new).rest)
            (λ _. (untold self.new).rest ≡ (untold self.old).rest) }
        ensures end { IfOk result (λ n. n ≡ 0 → IsAtEnd (untold self.old).rest) }
        ensures others { OnlyReads (untold self.old) (untold self.new) }
        ensures cause { HasBlame (untold self.old) (untold self.new) result
            (Blames Read (untold self.old).source) }
        ensures counts { CountsCall (untold self.old) (untold self.new) result }
        ensures bytes { ReadConsumes self.old.left self.new.left result into.new }
    {
        self.faults.begin();
        let Some(file) = &mut self.input else {
            unreachable!()
        };
        match read_some(file, into) {
            Ok(count) => Ok(count),
            Err(e) => {
                tell(&self.notices, Attempt::Read, self.input_name, e.into());
                Err(self.faults.rise())
            }
        }
    }

    fn create(&mut self, name: &str) -> Result<(), Failed> {
        self.faults.begin();
        self.output_name = ShownName::new(name);
        match self.met.make(self.rt, name) {
            Ok(file) => {
                self.output = Some(file);
                Ok(())
            }
            Err(why) => {
                self.output = None;
                tell(&self.notices, Attempt::Write, self.output_name, why);
                Err(self.faults.rise())
            }
        }
    }

    /// Where the file tells what it holds, that has grown by the bytes (`whole`), or at a failure by a front of them
    /// (`front`).
    fn put(&mut self, bytes: &[u8]) -> Result<(), Failed>
        requires { (untold self.old).has_output ≡ true }
        ensures files { OnOk result (Grows (untold self.old).target bytes.now
            (untold self.old).files (untold self.new).files) }
        ensures part { OnErr result ((k : ℕ) × Grows (untold self.old).target (take k bytes.now)
            (untold self.old).files (untold self.new).files) }
        ensures target { (untold self.new).target ≡ (untold self.old).target }
        ensures output { (untold self.new).has_output ≡ true }
        ensures others { KeepsInput (untold self.old) (untold self.new) }
        ensures cause { HasBlame (untold self.old) (untold self.new) result
            (Blames Written (untold self.old).target) }
        ensures counts { CountsCall (untold self.old) (untold self.new) result }
        ensures whole { OnOk result (Appends self.old.held self.new.held bytes.now) }
        ensures front { OnErr result ((k : ℕ)
            × Appends self.old.held self.new.held (take k bytes.now)) }
    {
        self.faults.begin();
        let Some(file) = &mut self.output else {
            unreachable!()
        };
        match write_whole(file, bytes) {
            Ok(()) => Ok(()),
            Err(e) => {
                tell(&self.notices, Attempt::Write, self.output_name, e.into());
                Err(self.faults.rise())
            }
        }
    }
}
