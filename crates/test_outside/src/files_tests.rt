//! Files in memory that are read to their end, or one byte past a limit.
use outside_files::read_file;
use pet_base::{MemoryPlace, NoMemory, Stop};
use std::alloc::Global;

/// A file, a limit, and how many bytes are read.
type Row = (&'static str, u64, Result<usize, Stop>);

static READ: [Row; 7] = [
    ("long", 100_000, Ok(70_000)),
    ("long", 70_000, Ok(70_000)),
    ("long", 69_999, Ok(70_000)),
    ("long", 65_535, Ok(65_536)),
    ("long", 0, Ok(1)),
    ("empty", 0, Ok(0)),
    ("missing", 10, Err(Stop::Failed)),
];

/// A place with a file of 70,000 bytes and an empty one.
fn place_of(alloc: Global) -> Result<MemoryPlace, NoMemory> {
    let mut place = MemoryPlace::new(alloc, Vec::new(alloc));
    let mut long = Vec::new(alloc);
    long.resize(70_000, 7u8)?;
    place.add("long", &long)?;
    place.add("empty", &[])?;
    Ok(place)
}

/// The number of the first row that is read otherwise.
fn first_wrong(alloc: Global, place: &mut MemoryPlace, rows: &[Row]) -> Option<usize> {
    for row in 0..rows.len() {
        let (name, limit, read) = rows[row];
        if read_file(alloc, name, limit, place).map(|bytes| bytes.len()) != read {
            return Some(row);
        }
    }
    None
}

#[test]
fn reads_a_file_to_one_byte_past_the_limit(rt: HostRuntime) {
    let mut place = place_of(rt.alloc()).expect(&rt, "memory");
    assert_eq!(rt; first_wrong(rt.alloc(), &mut place, &READ), None);
}
