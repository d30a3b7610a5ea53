//! A run that stops at each call of its disk, and the runs that go on from what it leaves; what a keeper answers then; and a file
//! that cannot be made.
ghost use Rattle.std.specs.Prelude.{◌≡◌, ◌<◌};

use crate::fixtures::{ALL, ORDER, disk_of, is_journal, journal_of, store_of};
use crate::keeping::{Ended, keep_packets};
use pet_base::{Failed, NoMemory, Steps};
use pet_field::Gf16Tables;
use pet_keep::{Disk, FileDisk, KeepFault, KeepStatus, Keeper, MemoryDisk, StartFault};
use pet_receive::Verdict;
use std::alloc::Global;
use std::marker::Brand;
use std::sync::ledger::{Blank, Ledger};
use test_script::{SESSION, first_number_wrong, packets};

/// How many calls the first run makes of its disk: four to begin a journal, and four for each packet.
const CALLS: u64 = 12;

/// How many calls a run of all packets makes.
const ALL_CALLS: u64 = 28;

/// Whether a run ended because of its disk, and left no store.
fn is_stopped(ended: &Ended) -> bool {
    ended.status == KeepStatus::DiskFault
        && ended.out.bytes() == b"fault disk\n".as_slice()
        && ended.place.bytes_of("t").is_none()
}

/// Whether a run ended with all packets kept, in the order in which they come, and their store.
fn is_done(alloc: Global, ended: &Ended) -> Result<bool, NoMemory> {
    let store = store_of(alloc, &ALL)?;
    Ok(
        ended.status == KeepStatus::Done
            && is_journal(alloc, ended.disk.bytes(), ORDER.len())?
            && ended.disk.synced() == ended.disk.bytes()
            && ended.place.bytes_of("t") == Some(store.as_slice()),
    )
}

/// Whether the packets that stand on a disk of these bytes are the first so many, or one more.
fn has_front(alloc: Global, bytes: &[u8], least: usize) -> Result<bool, NoMemory> {
    let ended = keep_packets(alloc, disk_of(alloc, bytes, None)?, &[])?;
    let journal = ended.disk.bytes();
    Ok(
        ended.status == KeepStatus::Incomplete
            && (is_journal(alloc, journal, least)?
                || is_journal(alloc, journal, least.saturating_add(1))?),
    )
}

/// Whether a run goes on from a disk of these bytes: the first run's packets come again, and then the others.
fn goes_on(alloc: Global, bytes: &[u8]) -> Result<bool, NoMemory> {
    let ended = keep_packets(alloc, disk_of(alloc, bytes, None)?, &ORDER)?;
    is_done(alloc, &ended)
}

/// How many packets a run has surely kept that makes so many calls of its disk.
fn surely_kept(calls: u64) -> usize {
    (calls.saturating_sub(4) / 4 % 256) as usize
}

/// Whether the first run stops at this call where it is to, and what it leaves is as it is to be.
fn is_left(alloc: Global, call: u64) -> Result<bool, NoMemory> {
    let first = keep_packets(alloc, disk_of(alloc, b"", Some(call))?, &[3, 0])?;
    let so = is_stopped(&first) == (call < CALLS);
    for bytes in [first.disk.bytes(), first.disk.synced()] {
        if !so || !has_front(alloc, bytes, surely_kept(call))? || !goes_on(alloc, bytes)? {
            return Ok(false);
        }
    }
    Ok(true)
}

#[test]
fn goes_on_from_each_stop_of_the_first_run(rt: HostRuntime) {
    assert_eq!(rt;
        first_number_wrong(CALLS, |call| is_left(rt.alloc(), call)),
        None
    );
}

/// A disk of no bytes, of which this one call fails.
fn failing_once(alloc: Global, call: u64) -> Result<MemoryDisk, NoMemory> {
    let mut failing = Vec::new(alloc);
    failing.push(call)?;
    Ok(MemoryDisk::new(alloc, Vec::new(alloc), failing))
}

/// Whether a run of all packets on this disk stops where it is to, and another goes on from what it leaves.
fn is_so(alloc: Global, disk: MemoryDisk, call: u64) -> Result<bool, NoMemory> {
    let ended = keep_packets(alloc, disk, &ORDER)?;
    if call >= ALL_CALLS {
        return is_done(alloc, &ended);
    }
    Ok(
        is_stopped(&ended)
            && goes_on(alloc, ended.disk.bytes())?
            && goes_on(alloc, ended.disk.synced())?,
    )
}

/// Whether a run is so where this call fails alone, and where each from it on does.
fn stops_and_goes_on(alloc: Global, call: u64) -> Result<bool, NoMemory> {
    Ok(
        is_so(alloc, failing_once(alloc, call)?, call)?
            && is_so(alloc, disk_of(alloc, b"", Some(call))?, call)?,
    )
}

/// How many calls a keeper makes of its disk for a new journal and its first packet.
const FIRST_CALLS: u64 = 8;

/// Whether a keeper does not start on a disk that fails at once; and one whose disk fails behind its first packet answers so to the
/// second, answers to the third that it is stopped, and has the first.
fn tells_that_its_disk_failed<L: Ledger>(alloc: Global, blank: Blank) -> Result<bool, NoMemory>
    requires name { blank.name ≡ L.name }
    requires parts { blank.parts ≡ L.parts }
    requires some { 0 < blank.parts }
{
    let field = Gf16Tables::new(alloc)?;
    let mut steps = Steps::<L>::new(blank);
    let failing = disk_of(alloc, b"", Some(0))?;
    let unstarted = match Keeper::start(alloc, &field, SESSION, failing, 1_000, &mut steps) {
        Ok(_) => false,
        Err((_, fault)) => fault == StartFault::DiskFault,
    };
    let disk = disk_of(alloc, b"", Some(FIRST_CALLS))?;
    let Ok(mut keeper) = Keeper::start(alloc, &field, SESSION, disk, 1_000, &mut steps) else {
        return Ok(false);
    };
    let packets = packets();
    let first = keeper.accept(&packets[0][2..], &mut steps);
    let second = keeper.accept(&packets[1][2..], &mut steps);
    let third = keeper.accept(&packets[2][2..], &mut steps);
    Ok(
        unstarted
            && matches!(first, Ok(Verdict::Kept(_)))
            && (second, third) == (Err(KeepFault::DiskFault), Err(KeepFault::Stopped))
            && keeper.receiver().has(0, 0)
            && keeper.stop().bytes().len() >= 105,
    )
}

#[test]
fn stops_at_each_call_that_fails(rt: HostRuntime) -> Result<(), NoMemory> {
    assert_eq!(rt;
        first_number_wrong(ALL_CALLS, |call| stops_and_goes_on(rt.alloc(), call)),
        None
    );
    assert!(rt; tells_that_its_disk_failed::<Brand>(rt.alloc(), Blank::new(1))?);
    let mut file = FileDisk::new(&rt, "pet_keep_missing/j");
    assert_eq!(rt; file.length(), Err(Failed));
    Ok(())
}
