//! How the program starts: its words, and the command that they give, over the files, the network and the output of this
//! machine.
//!
//! `pet` is this alone, and `trial` runs it as two processes, of which one receives what the other sends. What the
//! words are for is told by `run`, and what the real ends tell by `pet_ends`.
ghost use Rattle.std.specs.Prelude.{◌≡◌, ◌<◌, ◌↔◌, None};
ghost use Rattle.pet_text.specs.Words.{texts_of, command_of};
ghost use Rattle.pet_tool.specs.Starts.{FindsNoMemory, Starts, StartsWords};

use crate::top::run;
use arrayvec::ArrayVec;
use pet_base::{Sink, Steps};
use pet_ends::{FilePlace, Printer, StandardOut, UdpLink};
use pet_text::{Status, fault_line};
use program_start::{NoWords, hold_streams, words};
use std::alloc::Global;
use std::env::Env;
use std::marker::Brand;
use std::net::Net;
use std::rt::Files;
use std::sync::ledger::{Blank, Ledger};

/// Runs the command that the program's words give, over this machine and this output, and gives the output back. Words that are
/// no text have the form of no command. What is closed of the standard streams is held meanwhile, so that no file takes its number.
/// Which file or address failed, and why, is said on standard error.
pub fn start_words<R: Env + Alloc<A = Global> + Files + Net + Eprint, W: Printer + Drop>(
    machine: &R,
    out: W,
) -> (Status, W)
    ensures starts { StartsWords (W.contents out) (W.contents result.1) result.0 }
{
    let held = hold_streams(machine);
    let ended = match words(machine) {
        Ok(words) => start(machine.alloc(), &words, machine, out),
        Err(NoWords::NotText) => start(machine.alloc(), &[], machine, out),
        Err(NoWords::NoMemory) => tell_no_memory(out),
    };
    drop(held);
    ended
}

/// Prints the line that tells of want of memory.
fn tell_no_memory<W: Printer + Drop>(out: W) -> (Status, W)
    ensures { FindsNoMemory (W.contents out) (W.contents result.1) result.0 }
{
    let mut line: ArrayVec<u8, 64> = ArrayVec::new();
    fault_line(&Status::NoMemory, &mut line);
    let mut out = StandardOut::new(out);
    // a status stays what it is where its line cannot be printed
    let _ = out.put(line.as_slice());
    (Status::NoMemory, out.into_writer())
}

/// Runs the command that the words give, over this machine and this output, and gives the output back. Which file or address
/// failed, and why, is said on standard error.
pub fn start<R: Files + Net + Eprint, W: Printer + Drop>(
    alloc: Global,
    words: &[String],
    machine: &R,
    out: W,
) -> (Status, W)
    ensures usage { (result.0 ≡ Status.Usage) ↔ (command_of (texts_of words.now) ≡ None) }
    ensures starts { Starts (texts_of words.now) (W.contents out) (W.contents result.1) result.0 }
{
    run_counted::<_, _, Brand>(alloc, words, machine, out, Blank::new(1))
}

/// Runs the command, and counts its steps by this blank.
fn run_counted<R: Files + Net + Eprint, W: Printer + Drop, L: Ledger>(
    alloc: Global,
    words: &[String],
    machine: &R,
    out: W,
    blank: Blank,
) -> (Status, W)
    requires name { blank.name ≡ L.name }
    requires parts { blank.parts ≡ L.parts }
    requires some { 0 < blank.parts }
    ensures usage { (result.0 ≡ Status.Usage) ↔ (command_of (texts_of words.now) ≡ None) }
    ensures starts { Starts (texts_of words.now) (W.contents out) (W.contents result.1) result.0 }
{
    let mut place = FilePlace::new(machine, machine);
    let mut link = UdpLink::new(alloc, machine, machine);
    let mut out = StandardOut::new(out);
    let mut steps = Steps::<L>::new(blank);
    let status = run(alloc, words, &mut place, &mut link, &mut out, &mut steps);
    (status, out.into_writer())
}
