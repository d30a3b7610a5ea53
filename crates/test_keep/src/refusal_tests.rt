//! Which journals a keeper opens, and why it does not open the others.
ghost use Rattle.std.specs.Prelude.{◌≡◌, ◌<◌};

use crate::fixtures::{append_entry, disk_of, journal_of};
use pet_base::{NoMemory, Steps};
use pet_field::Gf16Tables;
use pet_keep::{Keeper, MemoryDisk, StartFault};
use std::alloc::{AllocError, Global};
use std::marker::Brand;
use std::sync::ledger::{Blank, Ledger};
use test_script::{ENTRY_LENGTH, SESSION, first_wrong};

/// A piece of a file.
#[derive(Clone, Copy)]
enum Piece {
    Bytes(&'static [u8]),
    /// The mark and the session.
    Head,
    /// The length and the frame of this packet.
    Entry(u8),
    /// The same behind an open gate.
    Kept(u8),
    /// The first so many bytes of these.
    Front(u8, usize),
}

/// The pieces of a file; what the open groups may cost; and the packets of its journal, or why it is not opened.
type Row = (&'static [Piece], u64, Result<&'static [u8], StartFault>);

/// The head of a journal of another session.
const OTHER: &[u8] = b"PETJ01234567";

/// What the group of the session costs, which is the least limit.
const COST: u64 = 534;

static ROWS: [Row; 25] = [
    // empty journals, whatever they hold
    (&[], COST, Ok(&[])),
    (&[Piece::Bytes(b"PETX012345678")], COST, Ok(&[])),
    (&[Piece::Bytes(OTHER)], COST, Ok(&[])),
    (&[Piece::Head, Piece::Bytes(&[1])], COST, Ok(&[])),
    // gates that end a journal: the last byte, and closed ones with bytes behind
    (&[Piece::Head, Piece::Bytes(&[0])], COST, Ok(&[])),
    (&[Piece::Head, Piece::Bytes(&[0, 1])], COST, Ok(&[])),
    (
        &[Piece::Head, Piece::Bytes(&[2]), Piece::Entry(0)],
        COST,
        Ok(&[]),
    ),
    (
        &[Piece::Head, Piece::Kept(3), Piece::Bytes(&[0])],
        COST,
        Ok(&[3]),
    ),
    (
        &[Piece::Head, Piece::Kept(3), Piece::Bytes(&[1])],
        COST,
        Ok(&[3]),
    ),
    (
        &[Piece::Head, Piece::Kept(3), Piece::Bytes(&[255, 7, 7])],
        COST,
        Ok(&[3]),
    ),
    (
        &[
            Piece::Head,
            Piece::Kept(5),
            Piece::Kept(0),
            Piece::Bytes(&[0]),
            Piece::Entry(1),
        ],
        COST,
        Ok(&[5, 0]),
    ),
    // another mark, whatever else is wrong
    (
        &[
            Piece::Bytes(b"PETX"),
            Piece::Bytes(&SESSION),
            Piece::Bytes(&[0, 0]),
        ],
        COST,
        Err(StartFault::BadJournal(0)),
    ),
    (
        &[Piece::Bytes(b"PTS201234567"), Piece::Bytes(&[1, 0])],
        COST,
        Err(StartFault::BadJournal(0)),
    ),
    // another session, whatever stands behind it
    (
        &[Piece::Bytes(OTHER), Piece::Bytes(&[0, 0])],
        COST,
        Err(StartFault::OtherSession(*b"01234567")),
    ),
    (
        &[Piece::Bytes(OTHER), Piece::Bytes(&[1, 0])],
        COST,
        Err(StartFault::OtherSession(*b"01234567")),
    ),
    // an entry that is not whole with the gate behind it: no length, half a frame, no gate; the first, and the second
    (
        &[Piece::Head, Piece::Bytes(&[1, 0])],
        COST,
        Err(StartFault::BadJournal(12)),
    ),
    (
        &[Piece::Head, Piece::Bytes(&[1]), Piece::Front(3, 50)],
        COST,
        Err(StartFault::BadJournal(12)),
    ),
    (
        &[Piece::Head, Piece::Kept(3)],
        COST,
        Err(StartFault::BadJournal(12)),
    ),
    (
        &[Piece::Head, Piece::Kept(3), Piece::Kept(0)],
        COST,
        Err(StartFault::BadJournal(104)),
    ),
    // frames that a receiver would not keep: of no bytes, of no frame, repeated, of another session, too dear, and one behind
    // others
    (
        &[Piece::Head, Piece::Bytes(&[1, 0, 0, 0])],
        COST,
        Err(StartFault::BadJournal(12)),
    ),
    (
        &[Piece::Head, Piece::Bytes(&[1, 0, 1, 7, 0])],
        COST,
        Err(StartFault::BadJournal(12)),
    ),
    (
        &[
            Piece::Head,
            Piece::Kept(3),
            Piece::Kept(3),
            Piece::Bytes(&[0]),
        ],
        COST,
        Err(StartFault::BadJournal(104)),
    ),
    (
        &[Piece::Head, Piece::Kept(3), Piece::Bytes(&[0])],
        533,
        Err(StartFault::BadJournal(12)),
    ),
    (
        &[
            Piece::Head,
            Piece::Kept(3),
            Piece::Kept(0),
            Piece::Bytes(&[1, 0, 0, 1, 0]),
        ],
        COST,
        Err(StartFault::BadJournal(196)),
    ),
    // the first gate that is refused, of two
    (
        &[Piece::Head, Piece::Bytes(&[1, 0, 0, 1, 0, 0, 0])],
        COST,
        Err(StartFault::BadJournal(12)),
    ),
];

/// The bytes of a file.
fn bytes_of(alloc: Global, pieces: &[Piece]) -> Result<Vec<u8>, AllocError> {
    let mut bytes = Vec::new(alloc);
    for piece in pieces {
        match piece {
            Piece::Bytes(more) => bytes.extend_from_slice(*more)?,
            Piece::Head => {
                bytes.extend_from_slice(b"PETJ")?;
                bytes.extend_from_slice(&SESSION)?;
            }
            Piece::Entry(number) => append_entry(*number, &mut bytes)?,
            Piece::Kept(number) => {
                bytes.push(1)?;
                append_entry(*number, &mut bytes)?;
            }
            Piece::Front(number, count) => {
                let mut entry = Vec::new(alloc);
                append_entry(*number, &mut entry)?;
                entry.truncate(*count);
                bytes.extend_from_slice(&entry)?;
            }
        }
    }
    Ok(bytes)
}

/// How a keeper starts on a disk of these bytes: how many packets it has kept, or why it does not start; and the disk.
fn started<L: Ledger>(
    alloc: Global,
    bytes: &[u8],
    limit: u64,
    blank: Blank,
) -> Result<(Result<u64, StartFault>, MemoryDisk), NoMemory>
    requires name { blank.name ≡ L.name }
    requires parts { blank.parts ≡ L.parts }
    requires some { 0 < blank.parts }
{
    let field = Gf16Tables::new(alloc)?;
    let mut steps = Steps::<L>::new(blank);
    let disk = disk_of(alloc, bytes, None)?;
    match Keeper::start(alloc, &field, SESSION, disk, limit, &mut steps) {
        Ok(keeper) => {
            let kept = u64::from(keeper.receiver().kept());
            Ok((Ok(kept), keeper.stop()))
        }
        Err((disk, fault)) => Ok((Err(fault), disk)),
    }
}

/// Whether a journal is opened with these packets, mended and synced, or is refused so and left.
fn is_so(alloc: Global, row: &Row) -> Result<bool, NoMemory> {
    let bytes = bytes_of(alloc, row.0)?;
    let (start, disk) = started::<Brand>(alloc, &bytes, row.1, Blank::new(1))?;
    let left = disk.bytes() == disk.synced();
    match (row.2, start) {
        (Ok(numbers), Ok(kept)) => {
            let journal = journal_of(alloc, numbers)?;
            Ok(left && kept == numbers.len() as u64 && disk.bytes() == journal.as_slice())
        }
        (Err(fault), Err(found)) => Ok(left && fault == found && disk.bytes() == bytes.as_slice()),
        _ => Ok(false),
    }
}

#[test]
fn opens_what_is_a_journal_and_refuses_the_rest(rt: HostRuntime) {
    assert_eq!(rt; first_wrong(&ROWS, |row| is_so(rt.alloc(), row)), None);
}
