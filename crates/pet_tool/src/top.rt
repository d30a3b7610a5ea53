//! The top call.
ghost use Rattle.std.specs.Prelude.{◌≡◌, ◌⊎◌, ◌↔◌, None};
ghost use Rattle.pet_base.specs.OutsideSeen.{OutsideSeen, outside_seen};
ghost use Rattle.pet_base.specs.Lent.{seen, AreSame};
ghost use Rattle.pet_text.specs.Words.{texts_of, command_of};
ghost use Rattle.pet_tool.specs.Commands.{line_of, status_of, Does, Completes};
ghost use Rattle.pet_text.specs.Told.{OnlyTells, PrintedWhole};
ghost use Rattle.pet_tool.specs.Told.{PrintedShort, Tells};

use crate::commands::{End, end_line, end_status, run_command};
use arrayvec::ArrayVec;
use pet_base::{Link, Outside, Place, Sink, Steps};
use pet_text::{Status, WordsFault, fault_line, put_line, read_words};
use std::alloc::Global;
use std::sync::ledger::Ledger;

/// Runs the command that the words give, without the program's name. It reads and writes files of the place, receives and sends
/// datagrams by the link, prints to the output, and counts field steps on the counter that is handed in.
#[tactic(auto, using(crate::proofs::Owed::completes))]
pub fn run<P: Place, K: Link, S: Sink, L: Ledger>(
    alloc: Global,
    words: &[String],
    place: &mut P,
    link: &mut K,
    out: &mut S,
    steps: &mut Steps<L>,
) -> Status
    // Words of no form, and nothing else, are refused as usage.
    ensures usage { (result ≡ Status.Usage) ↔ (command_of (texts_of words.now) ≡ None) }

    // What each status tells, by the command.
    ensures does { let outside = outside_seen P.Place K.Link S.Sink in
        Does (command_of (texts_of words.now)) (outside place.old link.old out.old steps.old) (outside place.new link.new out.new steps.new) result }

    // Where nothing disturbs it, each command on told files that fit is done, and `receive` meets the headline.
    ensures completes { let outside = outside_seen P.Place K.Link S.Sink in
        Completes (command_of (texts_of words.now)) (outside place.old link.old out.old steps.old) (outside place.new link.new out.new steps.new) result }
{
    let mut outside = Outside {
        place,
        link,
        out,
        steps,
    };
    run_words(alloc, words, &mut outside)
}

/// Reads the words, runs the command that they give, and prints the line of its end and that of its status.
fn run_words<P: Place, K: Link, S: Sink, L: Ledger>(
    alloc: Global,
    words: &[String],
    outside: &mut Outside<P, K, S, L>,
) -> Status
    ensures usage { (result ≡ Status.Usage) ↔ (command_of (texts_of words.now) ≡ None) }
    ensures does { Does (command_of (texts_of words.now)) (seen outside.old)
        (seen outside.new) result }
    ensures same { AreSame outside.old outside.new }
{
    let end = end_of_words(alloc, words, outside);
    let status = tell_end(&end, outside);
    let mut line: ArrayVec<u8, 64> = ArrayVec::new();
    fault_line(&status, &mut line);
    // the line is the last thing that is printed, and a status stays what it is where its line cannot be
    let _ = put_line(line.as_slice(), outside);
    status
}

/// Reads the words, and runs the command that they give. Nothing is printed yet of its end.
fn end_of_words<P: Place, K: Link, S: Sink, L: Ledger>(
    alloc: Global,
    words: &[String],
    outside: &mut Outside<P, K, S, L>,
) -> End
    ensures usage { (result ≡ End.Usage) ↔ (command_of (texts_of words.now) ≡ None) }
    ensures does { (told : OutsideSeen) (status : Status) → Tells (line_of result) (status_of result) (seen outside.new) told status
        → Does (command_of (texts_of words.now)) (seen outside.old) told status }
    ensures same { AreSame outside.old outside.new }
{
    match read_words(alloc, words) {
        Ok(command) => run_command(alloc, &command, outside),
        Err(WordsFault::Usage) => End::Usage,
        Err(WordsFault::NoMemory) => End::NoMemory,
    }
}

/// Prints the line of the end, where it has one, and answers the status: that of the end, or a fault of the output.
fn tell_end<P: Place, K: Link, S: Sink, L: Ledger>(
    end: &End,
    outside: &mut Outside<P, K, S, L>,
) -> Status
    ensures only { OnlyTells (seen outside.old) (seen outside.new) }
    ensures line { PrintedWhole (line_of end.now) (status_of end.now) (seen outside.old) (seen outside.new) result
        ⊎ PrintedShort (line_of end.now) (seen outside.old) (seen outside.new) result }
    ensures known { result ≡ Status.Usage → end.now ≡ End.Usage }
    ensures same { AreSame outside.old outside.new }
{
    let mut room: ArrayVec<u8, 64> = ArrayVec::new();
    let line = end_line(end, &mut room);
    match put_line(line, outside) {
        Ok(()) => end_status(end),
        Err(_) => Status::OutFault,
    }
}
