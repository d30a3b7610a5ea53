//! Streams of groups of given lengths, and places that hold a stream and a priority file.
use pet_base::{MemoryPlace, NoMemory};
use std::alloc::{AllocError, Global};

/// 4,096 packets a group, of one layer that one of them shows.
pub(crate) const ONE_LAYER: &str =
    "packets = 4096\n[[layer]]\nname = \"all\"\nkinds = [\"head\", \"I\", \"P\", \"B\", \"D\"]\nneed = 1\n";

/// Appends a group of so many bytes, at least ten: a header, and an I picture.
fn append_group(into: &mut Vec<u8>, length: usize) -> Result<(), AllocError> {
    let mut filler = Vec::new(*into.allocator());
    filler.resize(length.saturating_sub(10), 0x55)?;
    into.extend_from_slice(&[0, 0, 1, 0xB8])?;
    into.extend_from_slice(&filler)?;
    into.extend_from_slice(&[0, 0, 1, 0, 0, 8])
}

/// A stream of groups of so many bytes each.
pub(crate) fn groups_of(alloc: Global, lengths: &[usize]) -> Result<Vec<u8>, AllocError> {
    let mut stream = Vec::new(alloc);
    for length in lengths {
        append_group(&mut stream, *length)?;
    }
    Ok(stream)
}

/// A place with the stream `s` and the priority file `p`.
pub(crate) fn place_of(
    alloc: Global,
    stream: &[u8],
    priority: &str,
) -> Result<MemoryPlace, NoMemory> {
    let mut place = MemoryPlace::new(alloc, Vec::new(alloc));
    place.add("s", stream)?;
    place.add("p", priority.as_bytes())?;
    Ok(place)
}
