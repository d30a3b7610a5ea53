//! System streams cut anywhere, and videos wrapped.
ghost use Rattle.std.specs.Prelude.{◌≤◌, length};

use crate::system_fixtures::{MIXED, MIXED_VIDEO, WRAPPED};
use mpeg_system::{System, Unwrap, wrap};
use pet_base::NoMemory;
use sha2::{Digest, Sha256};
use std::alloc::{AllocError, Global};
use test_script::{STREAM, first_wrong};

/// The first so many bytes of a stream, how it ends, and the video that was given until then.
type Row = (&'static [u8], usize, Result<(), System>, &'static [u8]);

/// Streams for E0: two that are accepted, and refused ones.
static ROWS: [Row; 24] = [
    (&WRAPPED, 67, Ok(()), &STREAM),
    (&MIXED, 200, Ok(()), &MIXED_VIDEO),
    // without its end code, in it, and before it
    (&WRAPPED, 63, Ok(()), &STREAM),
    (&WRAPPED, 66, Err(System::Cut(63)), &STREAM),
    (&WRAPPED, 64, Ok(()), &STREAM),
    // in the packet's data, before them, in its length, and in the pack header
    (&WRAPPED, 20, Err(System::Cut(12)), &[0x00]),
    (&WRAPPED, 19, Err(System::Cut(12)), &[]),
    (&WRAPPED, 17, Err(System::Cut(12)), &[]),
    (&WRAPPED, 11, Err(System::Cut(0)), &[]),
    // nothing, and zeros
    (&[], 0, Err(System::NoVideo), &[]),
    (&[0, 0, 0, 0], 4, Err(System::NoVideo), &[]),
    // no start code, one zero too few, and another byte behind zeros
    (&[0x12], 1, Err(System::NoStart(0)), &[]),
    (&[0, 1, 0xBA], 3, Err(System::NoStart(1)), &[]),
    (&[0, 0, 2, 0xBA], 4, Err(System::NoStart(2)), &[]),
    // a video that is not wrapped
    (&[0, 0, 1, 0xB3], 4, Err(System::NotUnit(0, 0xB3)), &[]),
    // a pack header of a program stream
    (&[0, 0, 1, 0xBA, 0x44], 5, Err(System::Pack(0)), &[]),
    // no content, stuffing alone, a buffer size that is cut off, and time stamps that are
    (&[0, 0, 1, 0xE0, 0, 0], 6, Err(System::Header(0)), &[]),
    (
        &[0, 0, 1, 0xE0, 0, 2, 0xFF, 0xFF],
        8,
        Err(System::Header(0)),
        &[],
    ),
    (
        &[0, 0, 1, 0xE0, 0, 2, 0x40, 0x0F],
        8,
        Err(System::Header(0)),
        &[],
    ),
    (
        &[0, 0, 1, 0xE0, 0, 4, 0x21, 0, 1, 0],
        10,
        Err(System::Header(0)),
        &[],
    ),
    // another byte where time stamps begin, and stuffing behind a buffer size
    (
        &[0, 0, 1, 0xE0, 0, 2, 0x80, 0x01],
        8,
        Err(System::Header(0)),
        &[],
    ),
    (
        &[0, 0, 1, 0xE0, 0, 4, 0x40, 0, 0xFF, 0x0F],
        10,
        Err(System::Header(0)),
        &[],
    ),
    // a content that has no form and is cut
    (
        &[0, 0, 1, 0xE0, 0, 9, 0x80, 0x01],
        8,
        Err(System::Cut(0)),
        &[],
    ),
    // a later packet that has none
    (
        &[
            0, 0, 1, 0xE0, 0, 3, 0x0F, 7, 8, 0, 0, 1, 0xE0, 0, 1, 0x80, 0, 0, 1, 0xB3,
        ],
        20,
        Err(System::Header(9)),
        &[7, 8],
    ),
];

/// What a reader of this id answers for a stream that is cut at this byte, and again, with the
/// video in `video`.
fn read_cut(id: u8, stream: &[u8], cut: usize, video: &mut Vec<u8>) -> [Result<(), System>; 2]
    requires id { (0xE0 ≤ id) × (id ≤ 0xEF) }
    requires cut { cut ≤ length stream.now }
{
    let mut unwrap = Unwrap::new(id);
    let fed = match unwrap.feed(&stream[..cut], video) {
        Ok(()) => unwrap.feed(&stream[cut..], video),
        Err(system) => Err(system),
    };
    let first = match fed {
        Ok(()) => unwrap.finish(),
        Err(system) => Err(system),
    };
    if first.is_ok() {
        return [first, first];
    }
    [first, unwrap.feed(&STREAM, video)]
}

/// Whether a stream ends so for this id, and again at the next call, with this video, wherever it
/// is cut into two.
fn is_read(alloc: Global, id: u8, stream: &[u8], end: Result<(), System>, video: &[u8]) -> bool
    requires { (0xE0 ≤ id) × (id ≤ 0xEF) }
{
    for cut in 0..stream.len() {
        let mut given = Vec::new(alloc);
        if read_cut(id, stream, cut, &mut given) != [end, end] || given.as_slice() != video {
            return false;
        }
    }
    let mut given = Vec::new(alloc);
    read_cut(id, stream, stream.len(), &mut given) == [end, end] && given.as_slice() == video
}

/// The number of the first row that is read otherwise.
fn first_read_otherwise(alloc: Global) -> Option<usize> {
    for (i, row) in ROWS.iter().enumerate() {
        let few = row.1.min(row.0.len());
        if !is_read(alloc, 0xE0, &row.0[..few], row.2, row.3) {
            return Some(i);
        }
    }
    None
}

#[test]
fn reads_system_streams_at_every_cut(rt: HostRuntime) {
    assert_eq!(rt; first_read_otherwise(rt.alloc()), None);
}

#[test]
fn reads_the_packets_of_the_asked_id_alone(rt: HostRuntime) {
    assert!(rt; is_read(rt.alloc(), 0xE1, &WRAPPED, Err(System::NoVideo), &[]));
    assert!(rt; is_read(rt.alloc(), 0xE1, &MIXED, Ok(()), &[0xEE]));
    assert!(rt; is_read(rt.alloc(), 0xEF, &MIXED, Err(System::NoVideo), &[]));
}

#[test]
fn wraps_the_example_stream(rt: HostRuntime) -> Result<(), AllocError> {
    let mut text = Vec::from_slice(rt.alloc(), &[0x99])?;
    assert!(rt; wrap(&STREAM, &mut text).is_ok());
    assert!(rt; text[0] == 0x99 && text[1..] == WRAPPED[..]);
    Ok(())
}

#[test]
fn wraps_nothing_as_a_pack_and_an_end(rt: HostRuntime) {
    let mut text = Vec::new(rt.alloc());
    assert!(rt; wrap(&[], &mut text).is_ok());
    assert!(rt; text.len() == 16 && is_read(rt.alloc(), 0xE0, &text, Err(System::NoVideo), &[]));
}

/// The bytes of a video and of its wrapped form, and the first 8 bytes of the form's SHA-256 digest. A program in Python has
/// them.
type LongRow = (usize, usize, [u8; 8]);

/// One full packet, two of them, and a packet of one byte more.
static LONG_ROWS: [LongRow; 3] = [
    (
        2_000,
        2_023,
        [0x38, 0x7B, 0x77, 0x80, 0xF6, 0x04, 0x6A, 0x45],
    ),
    (
        4_000,
        4_030,
        [0x0E, 0xFF, 0x51, 0x10, 0xD0, 0x7B, 0x4C, 0xF2],
    ),
    (
        4_001,
        4_038,
        [0xA6, 0x9C, 0x83, 0xBF, 0x0E, 0xF8, 0x3B, 0xA8],
    ),
];

/// Whether the video of a row, which has the bytes 0 to 250 again and again, is wrapped so.
fn is_wrapped(alloc: Global, row: &LongRow) -> Result<bool, NoMemory> {
    let (length, whole, digest) = *row;
    let mut video = Vec::new(alloc);
    for i in 0..length {
        video.push((i % 251) as u8)?;
    }
    let mut text = Vec::new(alloc);
    wrap(&video, &mut text)?;
    Ok(text.len() == whole && Sha256::digest(&text)[..8] == digest[..])
}

#[test]
fn wraps_a_packet_for_each_2000_bytes_and_for_the_rest(rt: HostRuntime) {
    assert_eq!(rt;
        first_wrong(&LONG_ROWS, |row| is_wrapped(rt.alloc(), row)),
        None
    );
}
