//! `send` over files in memory, and over a place that tells nothing. Session numbers, packets and marks were made outside.
use crate::cases::{
    ALL_GO, Case, Files, GROUPS, NO_TYPE, ONE_GROUP, Run, TWO_GROUPS, first_wrong, link_of,
    packet_file, place_of,
};
use crate::untold_place::UntoldPlace;
use crate::{CHANGED_MARK, EXAMPLE_MARK, FIRST_MARK, NO_MARK, SECOND_MARK, THIRD_MARK, changed_at};
use command_send::{SendEnd, Sent};
use mpeg_scan::Scan;
use pet_base::{MemorySink, NoMemory};
use priority_file::PriorityFault;
use std::alloc::Global;
use stream_session::GroupMark;
use test_outside::run_on;
use test_script::{PRIORITIES, SESSION, STREAM};

/// What is sent of the example session.
pub(crate) const SENT: Sent = Sent {
    session: SESSION,
    groups: 1,
    datagrams: 6,
};

pub(crate) const EXAMPLE: Files = (Some((&STREAM, &[], 0)), Some(PRIORITIES), None);

const NO_PACKETS: Option<&str> = Some("layer = []");

const UNNAMED: Run = Run::Send(SendEnd::BadPriority(PriorityFault::MissingKey));

const NO_PLACE: Run = Run::Send(SendEnd::PlaceFault);

/// The example session, and files that are missing or bad: the priority file is refused first, and then the stream.
static FILES: [Case; 7] = [
    (EXAMPLE, ALL_GO, Run::Send(SendEnd::Done(SENT)), Some(6), 0),
    (
        (Some((NO_TYPE, &[], 0)), NO_PACKETS, None),
        ALL_GO,
        UNNAMED,
        None,
        0,
    ),
    ((None, NO_PACKETS, None), ALL_GO, UNNAMED, None, 0),
    ((None, Some(PRIORITIES), None), ALL_GO, NO_PLACE, None, 0),
    (
        (Some((&STREAM, &[], 0)), None, None),
        ALL_GO,
        NO_PLACE,
        None,
        0,
    ),
    (
        (Some((NO_TYPE, &[], 0)), Some(PRIORITIES), None),
        ALL_GO,
        Run::Send(SendEnd::BadStream(Scan::PictureType(4, 5))),
        None,
        0,
    ),
    (
        (Some((&[], &[], 0)), Some(PRIORITIES), None),
        ALL_GO,
        Run::Send(SendEnd::BadStream(Scan::Empty)),
        None,
        0,
    ),
];

#[test]
fn sends_the_example_session_or_refuses_the_files(rt: HostRuntime) {
    assert_eq!(rt; first_wrong(rt.alloc(), &FILES), None);
}

/// How `send` ends, or the group that has changed, and its marks.
type Told = Result<SendEnd, (u32, GroupMark, GroupMark)>;

/// A stream, what it is when it is opened again, where it can be, how `send` ends, and the bytes of the output.
type Again = (&'static [u8], Option<&'static [u8]>, Told, usize);

/// The example stream with another byte at offset 10.
const CHANGED: &[u8] = &[
    0x00, 0x00, 0x01, 0xB3, 0x11, 0x22, 0x00, 0x00, 0x01, 0xB8, 0x34, 0x00, 0x00, 0x01, 0x00, 0x00,
    0x08, 0x44, 0x00, 0x00, 0x01, 0x00, 0x00, 0x10, 0x55, 0x00, 0x00, 0x01, 0x00, 0x00, 0x18, 0x66,
    0x00, 0x00, 0x01, 0x00, 0x00, 0x18, 0x77, 0x77, 0x00, 0x00, 0x01, 0xB7,
];

/// A code of a system stream, behind the first piece of the second group and within it.
const PACK_BEHIND: &[u8] = &[
    0, 0, 1, 0xB8, 1, 0, 0, 1, 0, 0, 8, 0, 0, 1, 0xB8, 2, 0, 0, 1, 0, 0, 8, 0, 0, 1, 0xBA,
];

const PACK_WITHIN: &[u8] = &[
    0, 0, 1, 0xB8, 1, 0, 0, 1, 0, 0, 8, 0, 0, 1, 0xB8, 2, 0, 0, 1, 0xBA,
];

const FEWER: Told = Err((1, SECOND_MARK, NO_MARK));

/// What is sent of one group, and of three.
const ONE_SENT: Sent = Sent {
    session: [0xE4, 0xFB, 0x3E, 0xB1, 0xB0, 0xC0, 0x08, 0xAE],
    groups: 1,
    datagrams: 6,
};

const THREE_SENT: Sent = Sent {
    session: [0x07, 0x9B, 0x6F, 0xDD, 0xF2, 0x34, 0x44, 0x68],
    groups: 3,
    datagrams: 18,
};

static READ_AGAIN: [Again; 10] = [
    (&STREAM, Some(&STREAM), Ok(SendEnd::Done(SENT)), 546),
    (
        &STREAM,
        Some(CHANGED),
        Err((0, EXAMPLE_MARK, CHANGED_MARK)),
        0,
    ),
    // the stream is refused before its group has ended
    (&STREAM, Some(NO_TYPE), Err((0, EXAMPLE_MARK, NO_MARK)), 0),
    (TWO_GROUPS, Some(ONE_GROUP), FEWER, 426),
    (GROUPS, Some(PACK_BEHIND), FEWER, 426),
    (GROUPS, Some(PACK_WITHIN), Err((0, FIRST_MARK, NO_MARK)), 0),
    // the stream is refused behind all groups of the first reading
    (
        ONE_GROUP,
        Some(PACK_BEHIND),
        Ok(SendEnd::Done(ONE_SENT)),
        426,
    ),
    (TWO_GROUPS, Some(GROUPS), Err((2, NO_MARK, THIRD_MARK)), 852),
    (GROUPS, Some(GROUPS), Ok(SendEnd::Done(THREE_SENT)), 1278),
    (&STREAM, None, Ok(SendEnd::PlaceFault), 0),
];

/// The end that is told so.
pub(crate) fn end_of(told: Told) -> SendEnd {
    match told {
        Ok(end) => end,
        Err((group, first, second)) => changed_at(group, first, second),
    }
}

/// How many bytes a run of a stream that is opened twice makes of `d`, where it is made, and how many datagrams it sends, over a place
/// that tells nothing. None where it ends otherwise, or prints something.
pub(crate) fn run_untold(
    alloc: Global,
    (first, second): (&[u8], Option<&[u8]>),
    run: Run,
) -> Result<Option<(Option<usize>, usize)>, NoMemory> {
    let mut place = UntoldPlace::new(alloc, PRIORITIES.as_bytes(), first, second);
    let mut link = link_of(alloc, &[])?;
    let mut out = MemorySink::new(alloc, Vec::new(alloc));
    if !run_on(alloc, &run, &mut place, &mut link, &mut out) || !out.bytes().is_empty() {
        return Ok(None);
    }
    let made = place.output().map(|bytes| bytes.len());
    Ok(Some((made, link.sent().len())))
}

/// Whether both readings of a row are compared so.
fn compares(alloc: Global, (first, second, told, sent): &Again) -> Result<bool, NoMemory> {
    let run = Run::Send(end_of(*told));
    Ok(run_untold(alloc, (*first, *second), run)? == Some((Some(*sent), 0)))
}

#[test]
fn compares_both_readings_where_nothing_is_told(rt: HostRuntime) {
    assert_eq!(rt;
        test_script::first_wrong(&READ_AGAIN, |row| compares(rt.alloc(), row)),
        None
    );
}

/// How many bytes `send` of the example session leaves where this call of the place fails, and whether it stopped there. None
/// where these are no front of the packets, or are not all of them though it did not stop.
fn front(alloc: Global, call: u64) -> Result<Option<(bool, usize)>, NoMemory> {
    let packets = packet_file(alloc, 6)?;
    let mut place = place_of(alloc, &EXAMPLE, &[call])?;
    let mut link = link_of(alloc, &[])?;
    let mut out = MemorySink::new(alloc, Vec::new(alloc));
    let stopped = run_on(alloc, &NO_PLACE, &mut place, &mut link, &mut out);
    let held = place.bytes_of("d").unwrap_or(&[]);
    let is_front = packets.as_slice().starts_with(held) && out.bytes().is_empty();
    let is_so = is_front && (stopped || held.len() == packets.len());
    Ok(if is_so {
        Some((stopped, held.len()))
    } else {
        None
    })
}

#[test]
fn leaves_a_front_where_a_call_fails(rt: HostRuntime) {
    let mut parts = 0u32;
    // more calls than there are: at the last numbers none fails
    for call in 0..64 {
        let left = front(rt.alloc(), call).unwrap_or(None);
        assert!(rt; left.is_some(), "call {call}");
        if let Some((true, held)) = left {
            parts = parts.saturating_add(u32::from(held > 0));
        }
    }
    assert!(rt; parts > 0);
}
