//! The marks of a stream's groups.
use mpeg_scan::Scan;
use pet_base::{MemoryPlace, NoMemory};
use session_source::{MarkedSource, SourceFault, read_marked};
use std::alloc::{AllocError, Global};
use stream_session::{GroupMark, SessionFault};

/// Priorities of two layers.
const PRIORITIES: &str =
    "packets = 6\n[[layer]]\nname = \"base\"\nkinds = [\"head\", \"I\"]\nneed = 2\n[[layer]]\nname = \"rest\"\nkinds = [\"P\", \"B\", \"D\"]\nneed = 3\n";

/// The marks of both of two groups, of the head of the second alone, and of the first with 70,000 bytes more behind its head.
const FIRST: GroupMark = GroupMark {
    length: 11,
    digest: [0xBA, 0x9B, 0xE9, 0xCE, 0x6C, 0xD4, 0x21, 0x69],
};

const SECOND: GroupMark = GroupMark {
    length: 11,
    digest: [0x9E, 0x28, 0x34, 0xBC, 0x33, 0x23, 0x0F, 0xBD],
};

const HEAD: GroupMark = GroupMark {
    length: 4,
    digest: [0x5F, 0x69, 0x62, 0x2C, 0xEF, 0xD9, 0x47, 0xF9],
};

const LONG: GroupMark = GroupMark {
    length: 70_011,
    digest: [0x08, 0x25, 0x3B, 0xBB, 0x65, 0xF4, 0x5D, 0x69],
};

/// The mark of no bytes.
const NOTHING: GroupMark = GroupMark {
    length: 0,
    digest: [0xE3, 0xB0, 0xC4, 0x42, 0x98, 0xFC, 0x1C, 0x14],
};

/// The front of a stream, how many bytes 0x11 follow it, what stands behind these, and the marks of its groups or why it is
/// refused.
type Case = (
    &'static [u8],
    usize,
    &'static [u8],
    Result<&'static [GroupMark], SourceFault>,
);

/// The head of the first group, what stands behind it up to the end of the second, and this and a pack.
const FRONT: &[u8] = &[0, 0, 1, 0xB8, 1];

const BEHIND: &[u8] = &[0, 0, 1, 0, 0, 8, 0, 0, 1, 0xB8, 2, 0, 0, 1, 0, 0, 8];

const PACK_BEHIND: &[u8] = &[
    0, 0, 1, 0, 0, 8, 0, 0, 1, 0xB8, 2, 0, 0, 1, 0, 0, 8, 0, 0, 1, 0xBA,
];

static CASES: [Case; 8] = [
    (FRONT, 0, BEHIND, Ok(&[FIRST, SECOND])),
    (FRONT, 0, &[0, 0, 1, 0, 0, 8], Ok(&[FIRST])),
    (
        FRONT,
        0,
        &[0, 0, 1, 0, 0, 8, 0, 0, 1, 0xB8],
        Ok(&[FIRST, HEAD]),
    ),
    (FRONT, 70_000, BEHIND, Ok(&[LONG, SECOND])),
    (&[], 0, &[], Err(SourceFault::Stream(Scan::Empty))),
    (
        FRONT,
        0,
        &[0, 0, 1, 0, 0, 0x28],
        Err(SourceFault::Stream(Scan::PictureType(5, 5))),
    ),
    // a later refusal comes before a group's fault
    (
        FRONT,
        4_200_000,
        BEHIND,
        Err(SourceFault::Plan(SessionFault::GroupTooLong(0))),
    ),
    (
        FRONT,
        4_200_000,
        PACK_BEHIND,
        Err(SourceFault::Stream(Scan::System(4_200_022))),
    ),
];

/// The bytes of a stream.
fn stream_of(alloc: Global, case: &Case) -> Result<Vec<u8>, AllocError> {
    let mut stream = Vec::from_slice(alloc, case.0)?;
    let len = stream.len().saturating_add(case.1);
    stream.resize(len, 0x11)?;
    stream.extend_from_slice(case.2)?;
    Ok(stream)
}

/// A place with this stream and the priorities.
fn place_of(alloc: Global, case: &Case) -> Result<MemoryPlace, NoMemory> {
    let mut place = MemoryPlace::new(alloc, Vec::new(alloc));
    place.add("s", &stream_of(alloc, case)?)?;
    place.add("p", PRIORITIES.as_bytes())?;
    Ok(place)
}

/// Whether a stream is read so.
fn is_read(alloc: Global, case: &Case) -> bool {
    match place_of(alloc, case) {
        Ok(mut place) => is_so(&read_marked(alloc, "s", "p", &mut place), &case.3),
        Err(NoMemory) => false,
    }
}

/// Whether these marks were read, or the stream was refused so.
fn is_so(
    read: &Result<MarkedSource, SourceFault>,
    told: &Result<&[GroupMark], SourceFault>,
) -> bool {
    match (read, told) {
        (Ok(marked), Ok(marks)) => {
            marked.marks.as_slice() == *marks && marked.source.tables.len() == marks.len()
        }
        (Err(fault), Err(why)) => *fault == *why,
        _ => false,
    }
}

/// The number of the first row that is read otherwise.
fn first_wrong(alloc: Global, cases: &[Case]) -> Option<usize> {
    for row in 0..cases.len() {
        if !is_read(alloc, &cases[row]) {
            return Some(row);
        }
    }
    None
}

#[test]
fn marks_each_group_in_order_or_refuses_the_stream(rt: HostRuntime) {
    assert_eq!(rt; first_wrong(rt.alloc(), &CASES), None);
    assert!(rt; GroupMark::of(&[]) == NOTHING);
}
