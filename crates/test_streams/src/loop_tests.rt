//! A video unwrapped from a file in memory into a file, and wrapped, with calls that fail.
use crate::system_fixtures::WRAPPED;
use mpeg_system::{System, UnwrapEnd, WrapEnd, unwrap_loop, wrap_loop};
use pet_base::{MemoryPlace, NoMemory};
use std::alloc::Global;
use test_script::{STREAM, first_wrong};

/// What is run of `a` into `c`, and how it ends.
#[derive(Clone, Copy)]
enum Run {
    Unwrap(UnwrapEnd),
    Wrap(WrapEnd),
}

/// The file `a`, the calls of the place that fail, what is run, and the file `c` then.
type Case = (
    Option<&'static [u8]>,
    &'static [u64],
    Run,
    Option<&'static [u8]>,
);

const UNREAD: Run = Run::Unwrap(UnwrapEnd::PlaceFault);

const UNWRAPPED: Run = Run::Unwrap(UnwrapEnd::Done(44));

const UNWRITTEN: Run = Run::Wrap(WrapEnd::PlaceFault);

/// A stream that is refused behind two bytes of the video.
const REFUSED: [u8; 13] = [0, 0, 1, 0xE0, 0, 3, 0x0F, 7, 8, 0, 0, 1, 0xB3];

static CASES: [Case; 18] = [
    (Some(&WRAPPED), &[], UNWRAPPED, Some(&STREAM)),
    // entering, making, taking, putting and taking at the end fail, and nothing behind that
    (Some(&WRAPPED), &[0], UNREAD, None),
    (Some(&WRAPPED), &[1], UNREAD, None),
    (Some(&WRAPPED), &[2], UNREAD, Some(&[])),
    (Some(&WRAPPED), &[3], UNREAD, Some(&[])),
    (Some(&WRAPPED), &[4], UNREAD, Some(&STREAM)),
    (Some(&WRAPPED), &[5], UNWRAPPED, Some(&STREAM)),
    (None, &[], UNREAD, None),
    // a refused stream is read on to its end, and a failure there is told
    (
        Some(&REFUSED),
        &[],
        Run::Unwrap(UnwrapEnd::BadSystem(System::NotUnit(9, 0xB3))),
        Some(&[7, 8]),
    ),
    (Some(&REFUSED), &[4], UNREAD, Some(&[7, 8])),
    (
        Some(&[]),
        &[],
        Run::Unwrap(UnwrapEnd::BadSystem(System::NoVideo)),
        Some(&[]),
    ),
    // wrapping: entering, taking, taking at the end, making and putting fail
    (
        Some(&STREAM),
        &[],
        Run::Wrap(WrapEnd::Done(67)),
        Some(&WRAPPED),
    ),
    (Some(&STREAM), &[0], UNWRITTEN, None),
    (Some(&STREAM), &[1], UNWRITTEN, None),
    (Some(&STREAM), &[2], UNWRITTEN, None),
    (Some(&STREAM), &[3], UNWRITTEN, None),
    (Some(&STREAM), &[4], UNWRITTEN, Some(&[])),
    (None, &[], UNWRITTEN, None),
];

/// Whether this case is so.
fn is_so(alloc: Global, case: &Case) -> Result<bool, NoMemory> {
    let mut place = MemoryPlace::new(alloc, Vec::from_slice(alloc, case.1)?);
    if let Some(bytes) = case.0 {
        place.add("a", bytes)?;
    }
    let ended = match case.2 {
        Run::Unwrap(end) => unwrap_loop(alloc, "a", 0xE0, "c", &mut place) == end,
        Run::Wrap(end) => wrap_loop(alloc, "a", "c", &mut place) == end,
    };
    Ok(ended && place.bytes_of("c") == case.3)
}

#[test]
fn unwraps_and_wraps_files_and_stops_at_each_failure(rt: HostRuntime) {
    assert_eq!(rt; first_wrong(&CASES, |case| is_so(rt.alloc(), case)), None);
}
