//! A video wrapped from a file into a file.
ghost use Rattle.pet_base.specs.Seen.{PlaceStops};
ghost use Rattle.mpeg_system.specs.Completes.{CompletesWrap};
ghost use Rattle.mpeg_system.specs.Ends.{wrap_failed};
ghost use Rattle.mpeg_system.specs.Wraps.{Wraps};

use crate::refusal::System;
use crate::wrapping::wrap;
use outside_files::{put_file, read_file};
use pet_base::{MAX_STREAM, Place, Stop};
use std::alloc::Global;

/// How wrapping ended.
#[derive(Clone, Copy, Debug, PartialEq, Eq)]
pub enum WrapEnd {
    /// OUT has the wrapped form, of so many bytes.
    Done(u64),
    /// No memory was found.
    NoMemory,
    /// A file could not be read or written.
    PlaceFault,
    /// The file is too long.
    BadSystem(System),
}

/// Reads FILE, and writes the system stream whose video it is to OUT, which is made then. The first
/// failure of a file ends it.
pub fn wrap_loop<P: Place>(alloc: Global, file: &str, out: &str, place: &mut P) -> WrapEnd
    ensures wraps { Wraps file.now out.now (P.seen place.old) (P.seen place.new) result }
    ensures completes { CompletesWrap file.now out.now (P.seen place.old) (P.seen place.new)
        result }
    ensures once { PlaceStops (wrap_failed result) (P.seen place.old) (P.seen place.new) }
{
    match read_file(alloc, file, MAX_STREAM, place) {
        Ok(bytes) => {
            if bytes.len() as u64 > MAX_STREAM {
                return WrapEnd::BadSystem(System::TooLong);
            }
            let mut text = Vec::new(alloc);
            if wrap(bytes.as_slice(), &mut text).is_err() {
                return WrapEnd::NoMemory;
            }
            match put_file(out, text.as_slice(), place) {
                Ok(()) => WrapEnd::Done(text.len() as u64),
                Err(_) => WrapEnd::PlaceFault,
            }
        }
        Err(stop) => match stop {
            Stop::NoMemory => WrapEnd::NoMemory,
            Stop::Failed => WrapEnd::PlaceFault,
        },
    }
}
