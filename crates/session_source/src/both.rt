//! The reading of a priority file and a stream, whatever it is that reads the stream.
ghost use Rattle.std.specs.Prelude.{◌≡◌, ◌<◌, ◌≤◌, ◌^◌, ℕ, List, [], length, true, OnOk, IfOk, IfErr};
ghost use Rattle.pet_base.specs.declared.limits.TheConstants.{MAX_STREAM};
ghost use Rattle.pet_base.specs.declared.place.Side.TheVariants.{Read};
ghost use Rattle.pet_base.specs.Causes.{Blames, stops};
ghost use Rattle.pet_base.specs.Seen.{Seen, KeepsOutput, OnlyReads, HadFault, PlaceStops};
ghost use Rattle.priority_file.specs.Priority.{Priorities};
ghost use Rattle.priority_file.specs.Refusals.{priorities_of};
ghost use Rattle.outside_files.specs.declared.portions.TheConstants.{MAX_PORTION};
ghost use Rattle.outside_files.specs.Failures.{has_failed as stop_failed};
ghost use Rattle.outside_files.specs.Inputs.{IsFrontOf, IsRead, Licensed, HasTakenAll};
ghost use Rattle.stream_session.specs.Tables.{IsSessionFormat};
ghost use Rattle.session_source.specs.Sources.{BothFiles, IsSourceFaultIn, has_failed};

use crate::source::SourceFault;
use outside_files::{Portions, portion_room, read_file};
use packet_frame::Format;
use pet_base::{MAX_PRIORITY_FILE, MAX_STREAM, Place, Stop};
use priority_file::{Priority, read_priority};
use std::alloc::Global;
use stream_session::StreamReader;

/// Reads both files, and answers the priority, and what the reader answers of the stream under it in a format. The priority file is
/// read and judged first; of the stream nothing is held but the last portion and what the reader holds.
pub(crate) fn read_both<P: Place, R: StreamReader>(
    alloc: Global,
    format: &Format,
    stream: &str,
    priority: &str,
    place: &mut P,
) -> Result<(Priority, R::Answer), SourceFault>
    requires { IsSessionFormat format.now }
    ensures read { IfOk result (λ both. BothFiles (P.seen place.old).files stream.now priority.now (λ file bytes.
        (both.0 ≡ priorities_of file) × R.answers format.now both.1 (priorities_of file) file bytes)) }
    ensures others { KeepsOutput (P.seen place.old) (P.seen place.new) }
    ensures later { (P.seen place.old).faults ≤ (P.seen place.new).faults }
    ensures cause { IfErr result (IsSourceFaultIn format.now R.limit (P.seen place.old) (P.seen place.new)
        stream.now priority.now) }
    ensures once { PlaceStops (stops has_failed result) (P.seen place.old) (P.seen place.new) }
{
    let file = read_file(alloc, priority, u64::from(MAX_PRIORITY_FILE), place)?;
    let rules = read_priority(alloc, &file)?;
    let reader: R = read_through(alloc, stream, &rules, &file, place)?;
    let answer = reader.end(format)?;
    Ok((rules, answer))
}

/// A reader under this priority, whose file has these bytes, that has read the stream of this name to its end, or one
/// byte past the most that a stream may have.
fn read_through<P: Place, R: StreamReader>(
    alloc: Global,
    name: &str,
    priority: &Priority,
    file: &[u8],
    place: &mut P,
) -> Result<R, Stop>
    requires { length file.now < 2 ^ 32 }
    ensures read { IfOk result (λ reader. (stream : List ℕ) × IsFrontOf MAX_STREAM stream (P.seen place.old).files name.now
        × R.has_read reader priority.now file.now stream) }
    ensures others { KeepsOutput (P.seen place.old) (P.seen place.new) }
    ensures later { (P.seen place.old).faults ≤ (P.seen place.new).faults }
    ensures cause { IfErr result (Licensed (HadFault (P.seen place.old) (P.seen place.new)
        (IsRead name.now))) }
    ensures once { PlaceStops (stops stop_failed result) (P.seen place.old) (P.seen place.new) }
{
    let mut reader = R::begin(alloc, priority, file)?;
    let mut buffer = portion_room(alloc)?;
    place.enter(name)?;
    pass_over(place, &mut buffer, &mut reader)?;
    Ok(reader)
}

/// Hands the input to the reader, to its end or one byte past the most that a stream may have.
fn pass_over<P: Place, R: StreamReader>(
    place: &mut P,
    buffer: &mut [u8],
    reader: &mut R,
) -> Result<(), Stop>
    requires input { (P.seen place.old).has_input ≡ true }
    requires room { length buffer.old ≡ MAX_PORTION }
    ensures passed { OnOk result ((stream : List ℕ) × HasTakenAll MAX_STREAM stream (P.seen place.old) (P.seen place.new)
        × ((priority : Priorities) (file : List ℕ) → R.has_read reader.old priority file [] → R.has_read reader.new priority file stream)) }
    ensures others { OnlyReads (P.seen place.old) (P.seen place.new) }
    ensures later { (P.seen place.old).faults ≤ (P.seen place.new).faults }
    ensures cause { IfErr result (Licensed (HadFault (P.seen place.old) (P.seen place.new)
        (Blames Read (P.seen place.old).source))) }
    ensures once { PlaceStops (stops stop_failed result) (P.seen place.old) (P.seen place.new) }
{
    let mut portions = Portions::up_to(MAX_STREAM);
    while let Some(count) = portions.next(place, buffer)? {
        reader.read(&buffer[..count])?;
    }
    Ok(())
}
