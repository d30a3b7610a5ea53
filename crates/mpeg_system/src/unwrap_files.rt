//! A video unwrapped from a file into a file.
ghost use Rattle.std.specs.Prelude.{◌≡◌, ◌≤◌, ◌++◌, ℕ, List, [], ◌∷◌, true, false, length};
ghost use Rattle.std.specs.Prelude.{IfOk, IfErr, OnErr};
ghost use Rattle.pet_base.specs.Causes.{stops};
ghost use Rattle.pet_base.specs.Seen.{HadFault, PlaceStops};
ghost use Rattle.outside_files.specs.Failures.{has_failed};
ghost use Rattle.outside_files.specs.Inputs.{Licensed};
ghost use Rattle.outside_files.specs.Uses.{Failed, reading, writing};
ghost use Rattle.outside_files.specs.declared.portions.TheConstants.{MAX_PORTION};
ghost use Rattle.mpeg_system.specs.Completes.{CompletesUnwrap};
ghost use Rattle.mpeg_system.specs.Ends.{unwrap_failed};
ghost use Rattle.mpeg_system.specs.inside.Feeding.{WasFed, EndsSo, HasUnwrapped, HasBegun, IsOfEither};
ghost use Rattle.mpeg_system.specs.Unwraps.{LeavesFront, Unwraps};

use crate::refusal::System;
use crate::state::Unwrap;
use outside_files::{Portions, portion_room};
use pet_base::{MAX_STREAM, Place, Stop};
use std::alloc::Global;

/// How unwrapping ended.
#[derive(Clone, Copy, Debug, PartialEq, Eq)]
pub enum UnwrapEnd {
    /// OUT has the video, of so many bytes.
    Done(u64),
    /// No memory was found.
    NoMemory,
    /// A file could not be read or written.
    PlaceFault,
    /// The system stream is refused; OUT has the video up to the refusal.
    BadSystem(System),
}

/// Makes OUT, reads the system stream FILE and writes its video of this id to OUT, portion by
/// portion. A refusal does not end the reading: FILE is read to its end, or to one byte past the
/// longest stream. The first failure of a file ends it.
pub fn unwrap_loop<P: Place>(
    alloc: Global,
    file: &str,
    id: u8,
    out: &str,
    place: &mut P,
) -> UnwrapEnd
    requires { (0xE0 ≤ id) × (id ≤ 0xEF) }
    ensures unwraps { Unwraps file.now id out.now (P.seen place.old) (P.seen place.new) result }
    ensures completes { CompletesUnwrap file.now id out.now (P.seen place.old) (P.seen place.new)
        result }
    ensures once { PlaceStops (unwrap_failed result) (P.seen place.old) (P.seen place.new) }
{
    match unwrap_file(alloc, file, id, out, place) {
        Ok(end) => end,
        Err(stop) => match stop {
            Stop::NoMemory => UnwrapEnd::NoMemory,
            Stop::Failed => UnwrapEnd::PlaceFault,
        },
    }
}

/// Opens both files and unwraps the one into the other.
fn unwrap_file<P: Place>(
    alloc: Global,
    file: &str,
    id: u8,
    out: &str,
    place: &mut P,
) -> Result<UnwrapEnd, Stop>
    requires { (0xE0 ≤ id) × (id ≤ 0xEF) }
    ensures unwraps { IfOk result (Unwraps file.now id out.now (P.seen place.old)
        (P.seen place.new)) }
    ensures whole { IfOk result (λ end. unwrap_failed end ≡ false) }
    ensures begun { OnErr result (LeavesFront file.now id out.now (P.seen place.old)
        (P.seen place.new)) }
    ensures cause { IfErr result (Licensed (Failed (reading file.now ∷ writing out.now ∷ [])
        (P.seen place.old) (P.seen place.new))) }
    ensures once { PlaceStops (stops has_failed result) (P.seen place.old) (P.seen place.new) }
{
    let mut buffer = portion_room(alloc)?;
    place.enter(file)?;
    place.create(out)?;
    unwrap_opened(alloc, id, place, &mut buffer)
}

/// Reads the input, and puts its video to the output.
fn unwrap_opened<P: Place>(
    alloc: Global,
    id: u8,
    place: &mut P,
    buffer: &mut [u8],
) -> Result<UnwrapEnd, Stop>
    requires id { (0xE0 ≤ id) × (id ≤ 0xEF) }
    requires input { (P.seen place.old).has_input ≡ true }
    requires output { (P.seen place.old).has_output ≡ true }
    requires room { length buffer.old ≡ MAX_PORTION }
    ensures unwrapped { IfOk result (HasUnwrapped id (P.seen place.old) (P.seen place.new)) }
    ensures whole { IfOk result (λ end. unwrap_failed end ≡ false) }
    ensures begun { OnErr result (HasBegun id (P.seen place.old) (P.seen place.new)) }
    ensures cause { IfErr result (Licensed (HadFault (P.seen place.old) (P.seen place.new)
        (IsOfEither (P.seen place.old).source (P.seen place.old).target))) }
    ensures once { PlaceStops (stops has_failed result) (P.seen place.old) (P.seen place.new) }
{
    let mut unwrap = Unwrap::new(id);
    let mut video = Vec::new(alloc);
    let mut portions = Portions::up_to(MAX_STREAM);
    let mut put = 0u64;
    while let Some(count) = portions.next(place, buffer)? {
        video.clear();
        pass_on(&mut unwrap, &buffer[..count], &mut video);
        place.put(video.as_slice())?;
        put += video.len() as u64;
    }
    Ok(end_of(&mut unwrap, put))
}

/// Reads a portion, of whose video the vector then has what became known. A refusal stays until the
/// end of the file.
fn pass_on(unwrap: &mut Unwrap, portion: &[u8], video: &mut Vec<u8>)
    requires { video.old.items ≡ [] }
    ensures { (id : ℕ) (stream given : List ℕ) → WasFed id unwrap.old stream given
        → WasFed id unwrap.new (stream ++ portion.now) (given ++ video.new.items) }
{
    let _ = unwrap.feed(portion, video);
}

/// Ends the stream, of which so many bytes of the video were put.
fn end_of(unwrap: &mut Unwrap, put: u64) -> UnwrapEnd
    ensures ends { (id : ℕ) (stream given : List ℕ) → put ≡ length given
        → WasFed id unwrap.old stream given → EndsSo id stream given result }
    ensures whole { unwrap_failed result ≡ false }
{
    match unwrap.finish() {
        Ok(()) => UnwrapEnd::Done(put),
        Err(system) => match system {
            System::NoMemory => UnwrapEnd::NoMemory,
            _ => UnwrapEnd::BadSystem(system),
        },
    }
}
