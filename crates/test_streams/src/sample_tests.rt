//! Streams that are made of a number, by their digests.
use pet_base::{MAX_SAMPLE_GROUPS, NoMemory};
use sha2::{Digest, Sha256};
use std::alloc::Global;
use stream_sample::sample_stream;
use test_script::first_wrong;

/// A seed and a number of groups, the bytes of the stream, and the first 8 bytes of its SHA-256 digest. A program in Python has
/// them.
type Row = (u64, u32, usize, [u8; 8]);

static ROWS: [Row; 3] = [
    (
        1,
        4,
        287_844,
        [0x54, 0x44, 0xCC, 0xF0, 0x8A, 0xE3, 0x66, 0x83],
    ),
    (
        0,
        1,
        71_961,
        [0x7C, 0x1E, 0x0A, 0x89, 0xDD, 0xBD, 0x58, 0xBE],
    ),
    (
        u64::MAX,
        2,
        143_922,
        [0xF0, 0x2B, 0x10, 0xAE, 0x4C, 0xCB, 0x03, 0x49],
    ),
];

/// Whether the stream of a row is so, behind a byte that is there.
fn is_made(alloc: Global, row: &Row) -> Result<bool, NoMemory> {
    let (seed, groups, length, digest) = *row;
    if groups == 0 || groups > MAX_SAMPLE_GROUPS {
        return Ok(false);
    }
    let mut stream = Vec::from_slice(alloc, b">")?;
    sample_stream(seed, groups, &mut stream)?;
    let Some(made) = stream.get(1..) else {
        return Ok(false);
    };
    Ok(made.len() == length && Sha256::digest(made)[..8] == digest[..])
}

#[test]
fn makes_streams_of_numbers(rt: HostRuntime) {
    assert_eq!(rt; first_wrong(&ROWS, |row| is_made(rt.alloc(), row)), None);
}
