//! How the program `pet-keep` starts: its words, over the files, the network and the output of this machine.
ghost use Rattle.std.specs.Prelude.{◌≡◌, ◌↔◌, None};
ghost use Rattle.pet_text.specs.KeepWords.{keep_words_of};
ghost use Rattle.pet_text.specs.Words.{texts_of};
ghost use Rattle.pet_keep.specs.Starts.{FindsNoMemory, StartsKeep, StartsWords, journal_word};

use crate::command::keep;
use crate::status::{KeepStatus, fault_line};
use arrayvec::ArrayVec;
use disk_ends::{FileDisk, SparingPlace};
use pet_base::Sink;
use pet_ends::{Printer, StandardOut, UdpLink};
use program_start::{NoWords, hold_streams, words};
use std::alloc::Global;
use std::env::Env;
use std::net::Net;
use std::rt::Files;

/// Runs `keep` with the program's words, over this machine and this output, and gives the output back. Words that are no text have
/// not its form. What is closed of the standard streams is held meanwhile, so that no file takes its number. Which file or
/// address failed, and why, is said on standard error, but for the journal.
pub fn start_words<R: Env + Alloc<A = Global> + Files + Net + Eprint, W: Printer + Drop>(
    machine: &R,
    out: W,
) -> (KeepStatus, W)
    ensures starts { StartsWords (W.contents out) (W.contents result.1) result.0 }
{
    let held = hold_streams(machine);
    let ended = match words(machine) {
        Ok(words) => start(machine.alloc(), &words, machine, out),
        Err(NoWords::NotText) => start(machine.alloc(), &[], machine, out),
        Err(NoWords::NoMemory) => tell_no_memory(out),
    };
    drop(held);
    ended
}

/// Prints the line that tells of want of memory.
fn tell_no_memory<W: Printer + Drop>(out: W) -> (KeepStatus, W)
    ensures { FindsNoMemory (W.contents out) (W.contents result.1) result.0 }
{
    let mut line: ArrayVec<u8, 64> = ArrayVec::new();
    fault_line(&KeepStatus::NoMemory, &mut line);
    let mut out = StandardOut::new(out);
    // a status stays what it is where its line cannot be printed
    let _ = out.put(line.as_slice());
    (KeepStatus::NoMemory, out.into_writer())
}

/// Runs `keep` with these words, over this machine and this output, and gives the output back. The journal's file is opened or
/// made by the first call of its disk, and no other file that is made is that one by another name.
pub fn start<R: Files + Net + Eprint, W: Printer + Drop>(
    alloc: Global,
    words: &[String],
    machine: &R,
    out: W,
) -> (KeepStatus, W)
    ensures usage { (result.0 ≡ KeepStatus.Usage) ↔ (keep_words_of (texts_of words.now) ≡ None) }
    ensures starts { StartsKeep (texts_of words.now) (W.contents out) (W.contents result.1) result.0 }
{
    let journal = third_word(words);
    let disk = FileDisk::new(machine, journal);
    let mut place = SparingPlace::new(machine, machine, journal);
    let mut link = UdpLink::new(alloc, machine, machine);
    let mut out = StandardOut::new(out);
    let (status, _disk) = keep(alloc, words, disk, &mut place, &mut link, &mut out);
    (status, out.into_writer())
}

/// The word of the journal, or the empty name where there is no third word.
fn third_word(words: &[String]) -> &str
    ensures { result.now ≡ journal_word (texts_of words.now) }
{
    match words {
        [_, _, journal, ..] => journal.as_str(),
        _ => "",
    }
}
