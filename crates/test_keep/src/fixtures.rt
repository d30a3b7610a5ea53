//! The example session as datagrams, journals and stores. The tags of stores were made in Python.
ghost use Rattle.std.specs.Prelude.{IfOk};
ghost use Rattle.pet_base.specs.Feed.{AreShort};

use outside_disk::MemoryDisk;
use pet_base::MAX_ENTRY;
use std::alloc::{AllocError, Global};
use test_script::{SESSION, packets};

/// The packets of the session, in the order in which they come.
pub(crate) const ORDER: [u8; 6] = [3, 0, 4, 5, 1, 2];

/// The packets of a store, by number, and its tag.
pub(crate) type Store = (&'static [u8], [u8; 16]);

/// All packets.
pub(crate) const ALL: Store = (
    &[0, 1, 2, 3, 4, 5],
    [
        0x2B, 0x37, 0xBD, 0x5E, 0xDC, 0xAA, 0x9B, 0xE4, 0x63, 0x58, 0xD8, 0x67, 0x17, 0x7C, 0x77,
        0xD2,
    ],
);

/// The first two that come.
pub(crate) const TWO: Store = (
    &[0, 3],
    [
        0xD5, 0x48, 0xC2, 0xAE, 0xDD, 0xB1, 0x50, 0x10, 0x51, 0x6F, 0x8E, 0xEC, 0xA2, 0x8D, 0x7F,
        0x08,
    ],
);

/// Appends the entry of a packet: its length and its frame.
pub(crate) fn append_entry(number: u8, into: &mut Vec<u8>) -> Result<(), AllocError> {
    match packets().get(usize::from(number)) {
        Some(entry) => into.extend_from_slice(entry),
        None => Ok(()),
    }
}

/// A datagram file of these packets.
pub(crate) fn entries_of(alloc: Global, numbers: &[u8]) -> Result<Vec<u8>, AllocError> {
    let mut bytes = Vec::new(alloc);
    for number in numbers {
        append_entry(*number, &mut bytes)?;
    }
    Ok(bytes)
}

/// The packets, as they come by a link.
pub(crate) fn datagrams(alloc: Global) -> Result<Vec<Vec<u8>>, AllocError>
    ensures { IfOk result (λ feed. AreShort feed.items) }
{
    let mut feed = Vec::new(alloc);
    for number in ORDER {
        let entry = entries_of(alloc, &[number])?;
        let Some(frame) = entry.get(2..) else {
            return Ok(feed);
        };
        let datagram = Vec::from_slice(alloc, frame)?;
        if datagram.len() > usize::from(MAX_ENTRY) {
            return Ok(feed);
        }
        feed.push(datagram)?;
    }
    Ok(feed)
}

/// The journal of these packets.
pub(crate) fn journal_of(alloc: Global, numbers: &[u8]) -> Result<Vec<u8>, AllocError> {
    let mut bytes = Vec::from_slice(alloc, b"PETJ")?;
    bytes.extend_from_slice(&SESSION)?;
    for number in numbers {
        bytes.push(1)?;
        append_entry(*number, &mut bytes)?;
    }
    bytes.push(0)?;
    Ok(bytes)
}

/// Whether these bytes are the journal of the first so many packets that come.
pub(crate) fn is_journal(alloc: Global, bytes: &[u8], count: usize) -> Result<bool, AllocError> {
    match ORDER.get(..count) {
        Some(numbers) => Ok(bytes == journal_of(alloc, numbers)?.as_slice()),
        None => Ok(false),
    }
}

/// The bytes of a store: a mark, the session's number, the count of its packets, their entries, and the tag.
pub(crate) fn store_of(alloc: Global, store: &Store) -> Result<Vec<u8>, AllocError> {
    let mut bytes = Vec::from_slice(alloc, b"PTS2")?;
    bytes.extend_from_slice(&SESSION)?;
    bytes.extend_from_slice(&[0, 0, 0, (store.0.len() % 256) as u8])?;
    bytes.extend_from_slice(&entries_of(alloc, store.0)?)?;
    bytes.extend_from_slice(&store.1)?;
    Ok(bytes)
}

/// A disk that reads as these bytes, whose calls from this one on fail, where there is one.
pub(crate) fn disk_of(
    alloc: Global,
    bytes: &[u8],
    stop: Option<u64>,
) -> Result<MemoryDisk, AllocError> {
    let mut disk = MemoryDisk::new(alloc, Vec::from_slice(alloc, bytes)?, Vec::new(alloc));
    if let Some(call) = stop {
        disk.failing_from(call);
    }
    Ok(disk)
}
