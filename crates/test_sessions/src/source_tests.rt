//! The example session over files in memory, and what two files are refused for.
use mpeg_scan::Scan;
use pet_base::{MemoryPlace, NoMemory};
use priority_file::PriorityFault;
use session_source::{Source, SourceFault, read_source};
use std::alloc::{AllocError, Global};
use test_script::{PRIORITIES, SESSION, STREAM};
use test_stripes::is_example;

/// The example stream with a picture of another type.
const NO_TYPE: [u8; 44] = [
    0x00, 0x00, 0x01, 0xB3, 0x11, 0x22, 0x00, 0x00, 0x01, 0xB8, 0x33, 0x00, 0x00, 0x01, 0x00, 0x00,
    0x28, 0x44, 0x00, 0x00, 0x01, 0x00, 0x00, 0x10, 0x55, 0x00, 0x00, 0x01, 0x00, 0x00, 0x18, 0x66,
    0x00, 0x00, 0x01, 0x00, 0x00, 0x18, 0x77, 0x77, 0x00, 0x00, 0x01, 0xB7,
];

/// The stream, where it is there; the text of the priority file, and how many bytes a comment behind it comes to; the call that
/// fails, of enter, take, take of the one file and then of the other; and why there is no session.
type Case = (
    Option<&'static [u8]>,
    &'static str,
    usize,
    &'static [u64],
    Option<SourceFault>,
);

const TEXT: Option<SourceFault> = Some(SourceFault::Priority(PriorityFault::Text));

const EMPTY: Option<SourceFault> = Some(SourceFault::Stream(Scan::Empty));

const FAILED: Option<SourceFault> = Some(SourceFault::Failed);

const OTHER_TYPE: Option<SourceFault> = Some(SourceFault::Stream(Scan::PictureType(11, 5)));

static FILES: [Case; 14] = [
    (Some(&STREAM), PRIORITIES, 0, &[], None),
    (Some(&NO_TYPE), PRIORITIES, 0, &[], OTHER_TYPE),
    // the priority file is refused first
    (Some(&STREAM), "packets", 0, &[], TEXT),
    (None, "packets", 0, &[], TEXT),
    (Some(&[]), "packets", 0, &[], TEXT),
    (Some(&[]), PRIORITIES, 0, &[], EMPTY),
    // a file of 65,536 bytes, and of one more
    (Some(&[]), PRIORITIES, 65_536, &[], EMPTY),
    (
        Some(&[]),
        PRIORITIES,
        65_537,
        &[],
        Some(SourceFault::Priority(PriorityFault::Long)),
    ),
    (Some(&STREAM), PRIORITIES, 0, &[0], FAILED),
    (Some(&STREAM), PRIORITIES, 0, &[1], FAILED),
    (Some(&STREAM), PRIORITIES, 0, &[2], FAILED),
    (Some(&STREAM), PRIORITIES, 0, &[3], FAILED),
    (Some(&STREAM), PRIORITIES, 0, &[4], FAILED),
    (Some(&STREAM), PRIORITIES, 0, &[5], FAILED),
];

/// A text, and a comment behind it up to so many bytes.
fn with_comment(alloc: Global, text: &str, length: usize) -> Result<Vec<u8>, AllocError> {
    let mut bytes = Vec::from_slice(alloc, text.as_bytes())?;
    if bytes.len() < length {
        bytes.push(b'#')?;
        bytes.resize(length, b' ')?;
    }
    Ok(bytes)
}

/// A place with the two files, whose calls of these numbers fail.
fn place_of(alloc: Global, case: &Case) -> Result<MemoryPlace, NoMemory> {
    let mut place = MemoryPlace::new(alloc, Vec::from_slice(alloc, case.3)?);
    if let Some(stream) = case.0 {
        place.add("s", stream)?;
    }
    place.add("p", &with_comment(alloc, case.1, case.2)?)?;
    Ok(place)
}

/// Whether the files are the example session, or none for this reason.
fn is_read(alloc: Global, case: &Case) -> bool {
    match place_of(alloc, case) {
        Ok(mut place) => is_so(&read_source(alloc, "s", "p", &mut place), case.4),
        Err(NoMemory) => false,
    }
}

/// Whether the example session was read, or nothing for this reason.
fn is_so(read: &Result<Source, SourceFault>, why: Option<SourceFault>) -> bool {
    match read {
        Ok(source) => {
            why.is_none()
                && source.number == SESSION
                && is_example(&source.tables)
                && source.priority.packets == 6
        }
        Err(fault) => why == Some(*fault),
    }
}

/// The number of the first row that is read otherwise.
fn first_wrong(alloc: Global, cases: &[Case]) -> Option<usize> {
    for row in 0..cases.len() {
        if !is_read(alloc, &cases[row]) {
            return Some(row);
        }
    }
    None
}

#[test]
fn reads_the_example_files_or_refuses_the_priority_file_first(rt: HostRuntime) {
    assert_eq!(rt; first_wrong(rt.alloc(), &FILES), None);
}
