//! `breceive` of packets of the example session in the byte profile, from a file and by a link in memory.
ghost use Rattle.std.specs.Prelude.{◌≡◌, ◌<◌};

use crate::group_fixtures::MESSAGE;
use crate::session_tests::{frame_at, frames_by};
use gf8::Gf8Tables;
use pet_base::{MemoryLink, MemoryPlace, MemorySink, NoMemory, Steps};
use pet_byte::{ByteEnd, breceive_loop};
use std::alloc::Global;
use std::marker::Brand;
use std::sync::ledger::{Blank, Ledger};
use std::test::Fail;
use test_script::{SESSION, packets};

/// A record: its arrival, its layer, and where the layer's bytes stand in the message.
type Record = (u8, u8, (usize, usize));

/// The numbers of the packets in FROM, the calls of the place and of the output that fail, the end, and the records that are then in
/// LAYERS, where it was made.
type Case = (
    &'static [u8],
    [&'static [u64]; 2],
    ByteEnd,
    Option<&'static [Record]>,
);

const ALL: &[u8] = &[3, 3, 0, 4, 5, 1, 2];

const RECORDS: &[Record] = &[(3, 0, (0, 46)), (4, 1, (46, 53)), (6, 2, (53, 68))];

/// How it ends, and what is in LAYERS.
static CASES: [Case; 6] = [
    (
        ALL,
        [&[], &[]],
        ByteEnd::Done {
            read: 7,
            kept: 6,
            shown: 3,
        },
        Some(RECORDS),
    ),
    (
        &[5, 5, 5, 2],
        [&[], &[]],
        ByteEnd::Incomplete {
            read: 4,
            kept: 2,
            shown: 1,
        },
        Some(&[(4, 0, (0, 46))]),
    ),
    (
        &[],
        [&[], &[]],
        ByteEnd::Incomplete {
            read: 0,
            kept: 0,
            shown: 0,
        },
        Some(&[]),
    ),
    // FROM cannot be entered, LAYERS not be made, and a record not be put
    (ALL, [&[0], &[]], ByteEnd::PlaceFault, None),
    (ALL, [&[1], &[]], ByteEnd::PlaceFault, None),
    (&[0, 1], [&[6], &[]], ByteEnd::PlaceFault, Some(&[])),
];

/// The entries of the packets of these numbers.
fn entries_of(alloc: Global, frames: &[u8], numbers: &[u8]) -> Result<Vec<u8>, NoMemory> {
    let mut entries = Vec::new(alloc);
    for number in numbers {
        if let Some(frame) = frame_at(frames, *number) {
            entries.extend_from_slice(&[0, 88])?;
            entries.extend_from_slice(frame)?;
        }
    }
    Ok(entries)
}

/// The layers text of these records.
fn text_of(alloc: Global, records: &[Record]) -> Result<Vec<u8>, NoMemory> {
    let mut text = Vec::new(alloc);
    for (arrival, layer, (from, to)) in records.iter() {
        let bytes = MESSAGE.get(*from..*to).unwrap_or(&[]);
        let head = [
            0,
            0,
            0,
            *arrival,
            0,
            0,
            0,
            0,
            *layer,
            0,
            0,
            0,
            bytes.len() as u8,
        ];
        text.extend_from_slice(&head)?;
        text.extend_from_slice(bytes)?;
    }
    Ok(text)
}

/// Whether `breceive` ends so and leaves this in LAYERS.
fn is_so<L: Ledger>(
    alloc: Global,
    frames: &[u8],
    case: &Case,
    blank: Blank,
) -> Result<bool, NoMemory>
    requires name { blank.name ≡ L.name }
    requires parts { blank.parts ≡ L.parts }
    requires some { 0 < blank.parts }
{
    let mut place = MemoryPlace::new(alloc, Vec::from_slice(alloc, case.1[0])?);
    place.add("a", &entries_of(alloc, frames, case.0)?)?;
    let mut link = MemoryLink::new(alloc, Vec::new(alloc), Vec::new(alloc));
    let mut out = MemorySink::new(alloc, Vec::from_slice(alloc, case.1[1])?);
    let mut steps = Steps::<L>::new(blank);
    let end = breceive_loop(
        alloc, "a", false, SESSION, "c", &mut place, &mut link, &mut out, &mut steps,
    );
    let left = match case.3 {
        Some(records) => {
            let text = text_of(alloc, records)?;
            place.bytes_of("c") == Some(text.as_slice())
        }
        None => place.bytes_of("c").is_none(),
    };
    Ok(end == case.2 && left && out.bytes().is_empty())
}

/// Whether `breceive` ends so, with a counter of its own.
fn is_so_alone(alloc: Global, frames: &[u8], case: &Case) -> Result<bool, NoMemory> {
    is_so::<Brand>(alloc, frames, case, Blank::new(1))
}

/// The number of the first case that is not so.
fn first_otherwise(alloc: Global, frames: &[u8]) -> Option<usize> {
    for row in 0..CASES.len() {
        let so = is_so_alone(alloc, frames, &CASES[row]);
        if !so.unwrap_or(false) {
            return Some(row);
        }
    }
    None
}

#[test]
fn receives_the_example_session(rt: HostRuntime) -> Result<(), Fail> {
    let alloc = rt.alloc();
    let field = Gf8Tables::new();
    let frames = frames_by::<Gf8Tables, Brand>(alloc, &field, Blank::new(1))?;
    assert_eq!(rt; text_of(alloc, RECORDS)?.len(), 107);
    assert_eq!(rt; first_otherwise(alloc, &frames), None);
    Ok(())
}

/// What `breceive` makes of the packets of today's session of the same number.
fn of_today<L: Ledger>(alloc: Global, blank: Blank) -> Result<ByteEnd, NoMemory>
    requires name { blank.name ≡ L.name }
    requires parts { blank.parts ≡ L.parts }
    requires some { 0 < blank.parts }
{
    let mut place = MemoryPlace::new(alloc, Vec::new(alloc));
    let mut entries = Vec::new(alloc);
    for entry in packets() {
        entries.extend_from_slice(&entry)?;
    }
    place.add("a", &entries)?;
    let mut link = MemoryLink::new(alloc, Vec::new(alloc), Vec::new(alloc));
    let mut out = MemorySink::new(alloc, Vec::new(alloc));
    let mut steps = Steps::<L>::new(blank);
    Ok(breceive_loop(
        alloc, "a", false, SESSION, "c", &mut place, &mut link, &mut out, &mut steps,
    ))
}

#[test]
fn keeps_no_packet_of_today(rt: HostRuntime) -> Result<(), Fail> {
    let none = ByteEnd::Incomplete {
        read: 6,
        kept: 0,
        shown: 0,
    };
    assert!(rt; of_today::<Brand>(rt.alloc(), Blank::new(1))? == none);
    Ok(())
}
