//! Two packets of the example session, then the others on the same disk, and a file that is no journal; and the number of each
//! status.
use crate::fixtures::{ALL, Store, TWO, disk_of, is_journal, store_of};
use crate::keeping::{Ended, keep_packets};
use pet_base::NoMemory;
use pet_keep::KeepStatus;
use std::alloc::Global;

/// The packets that come; the status and what is printed; how many packets the journal then has, and how many bytes; the store
/// that is then written, and how many bytes it has.
type Row = (
    &'static [u8],
    (u8, &'static str),
    (usize, usize),
    (Store, usize),
);

static ROWS: [Row; 3] = [
    (
        &[3, 0],
        (12, "read 2 kept 2 shown 1\nfault incomplete\n"),
        (2, 197),
        (TWO, 214),
    ),
    (
        &[4, 5, 1, 2],
        (0, "read 4 kept 6 shown 3\n"),
        (6, 565),
        (ALL, 578),
    ),
    (
        &[3, 3, 0],
        (0, "read 3 kept 6 shown 3\n"),
        (6, 565),
        (ALL, 578),
    ),
];

/// Whether a run ended so.
fn is_so(alloc: Global, row: &Row, ended: &Ended) -> Result<bool, NoMemory> {
    let journal = ended.disk.bytes();
    let store = store_of(alloc, &row.3.0)?;
    Ok(
        (ended.status.code(), ended.out.bytes()) == (row.1.0, row.1.1.as_bytes())
            && journal.len() == row.2.1
            && is_journal(alloc, journal, row.2.0)?
            && ended.disk.synced() == journal
            && store.len() == row.3.1
            && ended.place.bytes_of("t") == Some(store.as_slice()),
    )
}

/// The number of the first row that is not so, where the runs go on from each other.
fn first_otherwise(alloc: Global) -> Result<Option<usize>, NoMemory> {
    let mut disk = disk_of(alloc, b"", None)?;
    for row in 0..ROWS.len() {
        let ended = keep_packets(alloc, disk, ROWS[row].0)?;
        if !is_so(alloc, &ROWS[row], &ended)? {
            return Ok(Some(row));
        }
        disk = ended.disk;
    }
    Ok(None)
}

/// Each status, and its number.
static STATUSES: [(KeepStatus, u8); 11] = [
    (KeepStatus::Done, 0),
    (KeepStatus::Usage, 1),
    (KeepStatus::NoMemory, 2),
    (KeepStatus::PlaceFault, 3),
    (KeepStatus::LinkFault, 4),
    (KeepStatus::OutFault, 5),
    (KeepStatus::OtherSession, 10),
    (KeepStatus::Incomplete, 12),
    (KeepStatus::TurnsSpent, 13),
    (KeepStatus::DiskFault, 22),
    (KeepStatus::BadJournal(9), 23),
];

#[test]
fn goes_on_from_run_to_run(rt: HostRuntime) -> Result<(), NoMemory> {
    assert_eq!(rt; first_otherwise(rt.alloc())?, None);
    Ok(())
}

#[test]
fn leaves_a_file_that_is_no_journal(rt: HostRuntime) -> Result<(), NoMemory> {
    let bytes = b"PETX0123456789";
    let ended = keep_packets(rt.alloc(), disk_of(rt.alloc(), bytes, None)?, &[3, 0])?;
    assert_eq!(rt; ended.status, KeepStatus::BadJournal(0));
    assert!(rt; STATUSES.iter().all(|(status, code)| status.code() == *code));
    assert_eq!(rt; ended.out.bytes(), b"fault journal 0\n".as_slice());
    assert_eq!(rt; ended.disk.bytes(), bytes.as_slice());
    assert_eq!(rt; ended.place.bytes_of("t"), None);
    Ok(())
}
