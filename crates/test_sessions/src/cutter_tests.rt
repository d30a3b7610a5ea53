//! Streams cut into groups with their bytes.
use crate::split_tests::is_cut;
use mpeg_scan::Scan;
use pet_base::NoMemory;
use priority_file::{Priority, read_priority};
use std::alloc::Global;
use stream_groups::{CutFault, Group, GroupCutter};
use test_script::{PRIORITIES, STREAM};
use test_streams::TWO_GROUPS;

/// Heads, I and D pictures in layer 0, P pictures and the first B picture of a group in layer 1, the others in layer 2.
const PLACES: &str =
    "packets = 6\n[[layer]]\nname = \"base\"\nkinds = [\"head\", \"I\"]\nneed = 2\n[[layer]]\nname = \"P\"\nkinds = [\"P\", \"B1\"]\nneed = 3\n[[layer]]\nname = \"B\"\nkinds = [\"B\"]\nneed = 5\n";

/// Takes the groups that have ended.
fn take_ended(cutter: &mut GroupCutter, groups: &mut Vec<Group>) -> Result<(), NoMemory> {
    while let Some(group) = cutter.next()? {
        groups.push(group)?;
    }
    Ok(())
}

/// Adds the groups that are left when the stream has ended, or says why it was refused.
fn take_left(
    mut cutter: GroupCutter,
    groups: &mut Vec<Group>,
) -> Result<Option<CutFault>, NoMemory> {
    match cutter.finish() {
        Ok(left) => {
            for group in left {
                groups.push(group)?;
            }
            Ok(None)
        }
        Err(fault) => Ok(Some(fault)),
    }
}

/// Adds the groups of a stream that comes in portions of so many bytes behind a first one, and says why it was refused.
fn cut_in(
    alloc: Global,
    priority: &Priority,
    stream: &[u8],
    (first, size): (usize, usize),
    groups: &mut Vec<Group>,
) -> Result<Option<CutFault>, NoMemory> {
    let mut cutter = GroupCutter::new(alloc, priority)?;
    let (head, rest) = stream.split_at(first.min(stream.len()));
    cutter.feed(head)?;
    take_ended(&mut cutter, groups)?;
    for portion in rest.chunks(size.max(1)) {
        cutter.feed(portion)?;
        take_ended(&mut cutter, groups)?;
    }
    take_left(cutter, groups)
}

/// The bytes of a group, its runs, a layer, a start and a length each, and the lengths of its layers.
type Wanted = (&'static [u8], &'static [(u8, u64, u32)], [u32; 3]);

/// Priorities, a stream, its groups, and why these are not all.
type Case = (
    &'static str,
    &'static [u8],
    &'static [Wanted],
    Option<CutFault>,
);

const FIRST: Wanted = (
    &[0, 0, 1, 0xB8, 1, 0, 0, 1, 0, 0, 8],
    &[(0, 0, 11)],
    [20, 0, 0],
);

const SECOND: Wanted = (
    &[0, 0, 1, 0xB8, 2, 0, 0, 1, 0, 0, 8],
    &[(0, 0, 11)],
    [20, 0, 0],
);

static CUTS: [Case; 6] = [
    (PRIORITIES, &TWO_GROUPS, &[FIRST, SECOND], None),
    // the first group alone, and the head of the second
    (
        PRIORITIES,
        &[0, 0, 1, 0xB8, 1, 0, 0, 1, 0, 0, 8],
        &[FIRST],
        None,
    ),
    (
        PRIORITIES,
        &[0, 0, 1, 0xB8, 1, 0, 0, 1, 0, 0, 8, 0, 0, 1, 0xB8],
        &[FIRST, (&[0, 0, 1, 0xB8], &[(0, 0, 4)], [13, 0, 0])],
        None,
    ),
    // no head, and a pack behind two groups
    (
        PRIORITIES,
        &[0x12, 0, 0, 1, 0xB3],
        &[],
        Some(CutFault::Stream(Scan::NoHead(0))),
    ),
    (
        PRIORITIES,
        &[
            0, 0, 1, 0xB8, 1, 0, 0, 1, 0, 0, 8, 0, 0, 1, 0xB8, 2, 0, 0, 1, 0, 0, 8, 0, 0, 1, 0xBA,
        ],
        &[FIRST],
        Some(CutFault::Stream(Scan::System(22))),
    ),
    (
        PLACES,
        &STREAM,
        &[(
            &STREAM,
            &[(0, 0, 18), (1, 18, 14), (2, 32, 8), (0, 40, 4)],
            [46, 14, 8],
        )],
        None,
    ),
];

/// Whether these are the groups.
fn are_groups(groups: &[Group], wanted: &[Wanted]) -> bool {
    groups.len() == wanted.len()
        && groups.iter().zip(wanted).all(|(group, (bytes, runs, lengths))| {
            group.bytes.as_slice() == *bytes && is_cut(&group.cut, runs, lengths)
        })
}

/// Whether the stream is cut so in such portions.
fn is_cut_so(alloc: Global, case: &Case, portions: (usize, usize)) -> bool {
    let mut groups = Vec::new(alloc);
    let Ok(priority) = read_priority(alloc, case.0.as_bytes()) else {
        return false;
    };
    cut_in(alloc, &priority, case.1, portions, &mut groups) == Ok(case.3)
        && are_groups(&groups, case.2)
}

/// The number of the first row that is cut otherwise in some such portions.
fn first_wrong(alloc: Global, cases: &[Case]) -> Option<usize> {
    for row in 0..cases.len() {
        for first in 1..27usize {
            if !(is_cut_so(alloc, &cases[row], (first, 1))
                && is_cut_so(alloc, &cases[row], (first, 20))
                && is_cut_so(alloc, &cases[row], (first, 22)))
            {
                return Some(row);
            }
        }
    }
    None
}

#[test]
fn gives_the_groups_of_a_stream_cut_anywhere_up_to_a_refusal(rt: HostRuntime) {
    assert_eq!(rt; first_wrong(rt.alloc(), &CUTS), None);
}
