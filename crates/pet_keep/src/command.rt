//! The top call.
ghost use Rattle.std.specs.Prelude.{◌≡◌, ◌≢◌, ◌⊎◌, ◌↔◌, ◌<◌, None};
ghost use Rattle.pet_base.specs.Lent.{seen, AreSame};
ghost use Rattle.pet_base.specs.OutsideSeen.{OutsideSeen, outside_seen};
ghost use Rattle.pet_text.specs.KeepWords.{keep_words_of};
ghost use Rattle.pet_text.specs.Words.{texts_of};
ghost use Rattle.pet_keep.specs.Journaled.{disk_now, uncounted};
ghost use Rattle.pet_text.specs.Told.{OnlyTells, PrintedWhole};
ghost use Rattle.pet_keep.specs.Runs.{CompletesKeep, DoesKeep, PrintedShort, Tells};
ghost use Rattle.pet_keep.specs.Statuses.{line_of, status_of};
ghost use Rattle.pet_keep.specs.declared.status.KeepStatus.{KeepStatus as Status};

use crate::end::{KeepEnd, end_line, end_status};
use crate::opened::keep_opened;
use crate::status::{KeepStatus, fault_line};
use arrayvec::ArrayVec;
use outside_disk::Disk;
use pet_base::{Link, Outside, Place, Sink, Steps};
use pet_text::{WordsFault, put_line, read_keep_words};
use std::alloc::Global;
use std::marker::Brand;
use std::sync::ledger::{Blank, Ledger};

/// Runs `keep` with these words, without the program's name. It opens the journal on the disk, reads FROM of the place or receives
/// it by the link, keeps each packet in the journal before the next one is taken, and writes the store of all that is kept. It
/// prints to the output. The disk is given back.
pub fn keep<D: Disk, P: Place, K: Link, S: Sink>(
    alloc: Global,
    words: &[String],
    disk: D,
    place: &mut P,
    link: &mut K,
    out: &mut S,
) -> (KeepStatus, D)
    // Words of another form, and nothing else, are refused as usage; then the disk is as it was.
    ensures usage { (result.0 ≡ KeepStatus.Usage) ↔ (keep_words_of (texts_of words.now) ≡ None) }
    ensures untouched { keep_words_of (texts_of words.now) ≡ None → result.1 ≡ disk }

    // What each status tells, and what a crash leaves of the journal whatever the status is.
    ensures does { let outside = outside_seen P.Place K.Link S.Sink in
        DoesKeep (keep_words_of (texts_of words.now)) (outside place.old link.old out.old 0)
        (outside place.new link.new out.new 0) (disk_now D.Disk disk) (disk_now D.Disk result.1) result.0 }

    // Where nothing disturbs it, it is done, and STORE has what the journal had and what came.
    ensures completes { let outside = outside_seen P.Place K.Link S.Sink in
        CompletesKeep (keep_words_of (texts_of words.now)) (outside place.old link.old out.old 0)
        (outside place.new link.new out.new 0) (disk_now D.Disk disk) (disk_now D.Disk result.1) result.0 }
{
    keep_counted::<_, _, _, _, Brand>(alloc, words, disk, place, link, out, Blank::new(1))
}

/// The same, which counts its steps by this blank.
fn keep_counted<D: Disk, P: Place, K: Link, S: Sink, L: Ledger>(
    alloc: Global,
    words: &[String],
    disk: D,
    place: &mut P,
    link: &mut K,
    out: &mut S,
    blank: Blank,
) -> (KeepStatus, D)
    requires name { blank.name ≡ L.name }
    requires parts { blank.parts ≡ L.parts }
    requires some { 0 < blank.parts }
    ensures usage { (result.0 ≡ KeepStatus.Usage) ↔ (keep_words_of (texts_of words.now) ≡ None) }
    ensures untouched { keep_words_of (texts_of words.now) ≡ None → result.1 ≡ disk }
    ensures does { let outside = outside_seen P.Place K.Link S.Sink in
        DoesKeep (keep_words_of (texts_of words.now)) (outside place.old link.old out.old 0)
        (outside place.new link.new out.new 0) (disk_now D.Disk disk) (disk_now D.Disk result.1) result.0 }
{
    let mut steps = Steps::<L>::new(blank);
    let mut outside = Outside {
        place,
        link,
        out,
        steps: &mut steps,
    };
    keep_words(alloc, words, disk, &mut outside)
}

/// Reads the words, runs `keep`, and prints the line of its end and that of its status.
fn keep_words<D: Disk, P: Place, K: Link, S: Sink, L: Ledger>(
    alloc: Global,
    words: &[String],
    disk: D,
    outside: &mut Outside<P, K, S, L>,
) -> (KeepStatus, D)
    ensures usage { (result.0 ≡ KeepStatus.Usage) ↔ (keep_words_of (texts_of words.now) ≡ None) }
    ensures untouched { keep_words_of (texts_of words.now) ≡ None → result.1 ≡ disk }
    ensures does { DoesKeep (keep_words_of (texts_of words.now)) (uncounted (seen outside.old)) (uncounted (seen outside.new))
        (disk_now D.Disk disk) (disk_now D.Disk result.1) result.0 }
    ensures same { AreSame outside.old outside.new }
{
    let (end, disk) = end_of_words(alloc, words, disk, outside);
    let status = tell_end(&end, outside);
    let mut line: ArrayVec<u8, 64> = ArrayVec::new();
    fault_line(&status, &mut line);
    // the line is the last thing that is printed, and a status stays what it is where its line cannot be
    let _ = put_line(line.as_slice(), outside);
    (status, disk)
}

/// Reads the words, and runs `keep`. Nothing is printed yet of its end.
fn end_of_words<D: Disk, P: Place, K: Link, S: Sink, L: Ledger>(
    alloc: Global,
    words: &[String],
    disk: D,
    outside: &mut Outside<P, K, S, L>,
) -> (KeepEnd, D)
    ensures usage { (result.0 ≡ KeepEnd.Usage) ↔ (keep_words_of (texts_of words.now) ≡ None) }
    ensures untouched { keep_words_of (texts_of words.now) ≡ None → result.1 ≡ disk }
    ensures does { (told : OutsideSeen) (status : Status) → Tells (line_of result.0) (status_of result.0)
        (uncounted (seen outside.new)) told status
        → DoesKeep (keep_words_of (texts_of words.now)) (uncounted (seen outside.old)) told (disk_now D.Disk disk)
        (disk_now D.Disk result.1) status }
    ensures same { AreSame outside.old outside.new }
{
    match read_keep_words(alloc, words) {
        Ok(words) => {
            let store = words.store.as_str();
            keep_opened(
                alloc,
                words.from.route(),
                words.session,
                store,
                disk,
                outside,
            )
        }
        Err(WordsFault::Usage) => (KeepEnd::Usage, disk),
        Err(WordsFault::NoMemory) => (KeepEnd::NoMemory, disk),
    }
}

/// Prints the line of the end, where it has one, and answers the status: that of the end, or a fault of the output.
fn tell_end<P: Place, K: Link, S: Sink, L: Ledger>(
    end: &KeepEnd,
    outside: &mut Outside<P, K, S, L>,
) -> KeepStatus
    ensures only { OnlyTells (seen outside.old) (seen outside.new) }
    ensures line { PrintedWhole (line_of end.now) (status_of end.now) (seen outside.old) (seen outside.new) result
        ⊎ PrintedShort (line_of end.now) (seen outside.old) (seen outside.new) result }
    ensures known { end.now ≢ KeepEnd.Usage → result ≢ KeepStatus.Usage }
    ensures same { AreSame outside.old outside.new }
{
    let mut line: ArrayVec<u8, 64> = ArrayVec::new();
    end_line(end, &mut line);
    match put_line(line.as_slice(), outside) {
        Ok(()) => end_status(end),
        Err(_) => KeepStatus::OutFault,
    }
}
