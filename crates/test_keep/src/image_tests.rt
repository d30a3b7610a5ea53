//! A keeper is stopped at some call of its disk, and started on what a crash may leave of that, which a seed draws; it is stopped
//! again while it starts, and started on what a crash may then leave. What was answered as kept is there each time.
ghost use Rattle.std.specs.Prelude.{◌≡◌, ◌≤◌, ◌<◌, length};

use crate::fixtures::{ORDER, disk_of, entries_of, is_journal};
use crate::{Draws, torn};
use pet_base::{NoMemory, Steps};
use pet_field::Gf16Tables;
use pet_keep::{Keeper, MemoryDisk};
use pet_receive::Verdict;
use std::alloc::{AllocError, Global};
use std::marker::Brand;
use std::sync::ledger::{Blank, Ledger};
use test_script::{SESSION, first_number_wrong};

/// How many seeds are tried, and so twice as many images.
const SEEDS: u64 = 500;

/// How many calls a keeper makes of its disk for all packets, and at most where it starts.
const CALLS: usize = 28;

const START_CALLS: usize = 8;

/// How many bytes both begin with.
fn front_of(one: &[u8], other: &[u8]) -> usize
    ensures one { result ≤ length one.now }
    ensures other { result ≤ length other.now }
{
    let most = one.len().min(other.len());
    for at in 0..most {
        if one[at] != other[at] {
            return at;
        }
    }
    most
}

/// What a crash may leave of a disk, of which one write or cut at most was not synced: what differs is any bytes.
fn image_of(alloc: Global, disk: &MemoryDisk, draws: &mut Draws) -> Result<Vec<u8>, AllocError> {
    let (synced, bytes) = (disk.synced(), disk.bytes());
    let same = front_of(synced, bytes);
    if bytes.len() < synced.len() {
        // a cut: what it took may be there, with any bytes
        let short = bytes.len();
        let longer = synced.len() - short;
        return torn(alloc, bytes, short, longer, draws);
    }
    // a gate is one byte; what is written behind the end is all that is new
    let most = if bytes.len() > synced.len() {
        usize::MAX
    } else {
        1
    };
    let count = most.min(bytes.len() - same);
    torn(alloc, synced, same, count, draws)
}

/// How many packets are answered as kept on a disk of no bytes that stops at this call, and what it leaves.
fn stopped_at<L: Ledger>(
    alloc: Global,
    field: &Gf16Tables,
    call: u64,
    steps: &mut Steps<L>,
) -> Result<(usize, MemoryDisk), NoMemory> {
    let disk = disk_of(alloc, b"", Some(call))?;
    let mut answered = 0;
    match Keeper::start(alloc, field, SESSION, disk, 1_000, steps) {
        Ok(mut keeper) => {
            for number in 0..ORDER.len() {
                let entry = entries_of(alloc, &[ORDER[number]])?;
                let frame = entry.get(2..).unwrap_or(&[]);
                if matches!(keeper.accept(frame, steps), Ok(Verdict::Kept(_))) {
                    answered = number + 1;
                }
            }
            Ok((answered, keeper.stop()))
        }
        Err((disk, _)) => Ok((0, disk)),
    }
}

/// What a disk of these bytes leaves on which a keeper starts, where it stops at this call.
fn left_by_start<L: Ledger>(
    alloc: Global,
    field: &Gf16Tables,
    bytes: &[u8],
    stop: Option<u64>,
    steps: &mut Steps<L>,
) -> Result<MemoryDisk, NoMemory> {
    let disk = disk_of(alloc, bytes, stop)?;
    match Keeper::start(alloc, field, SESSION, disk, 1_000, steps) {
        Ok(keeper) => Ok(keeper.stop()),
        Err((disk, _)) => Ok(disk),
    }
}

/// Whether a keeper that starts on these bytes makes them the journal of the first so many packets, or of one more.
fn opens_as<L: Ledger>(
    alloc: Global,
    field: &Gf16Tables,
    bytes: &[u8],
    answered: usize,
    steps: &mut Steps<L>,
) -> Result<bool, NoMemory> {
    let disk = left_by_start(alloc, field, bytes, None, steps)?;
    let journal = disk.bytes();
    Ok(
        journal == disk.synced()
            && (is_journal(alloc, journal, answered)?
                || is_journal(alloc, journal, answered.saturating_add(1))?),
    )
}

/// Whether what was answered is there after both stops that this seed draws.
fn keeps_what_was_answered<L: Ledger>(
    alloc: Global,
    field: &Gf16Tables,
    seed: u64,
    blank: Blank,
) -> Result<bool, NoMemory>
    requires name { blank.name ≡ L.name }
    requires parts { blank.parts ≡ L.parts }
    requires some { 0 < blank.parts }
{
    let mut steps = Steps::<L>::new(blank);
    let mut draws = Draws::new(seed);
    let call = draws.up_to(CALLS) as u64;
    let (answered, disk) = stopped_at(alloc, field, call, &mut steps)?;
    let first = image_of(alloc, &disk, &mut draws)?;
    let call = draws.up_to(START_CALLS) as u64;
    let disk = left_by_start(alloc, field, &first, Some(call), &mut steps)?;
    let second = image_of(alloc, &disk, &mut draws)?;
    Ok(
        opens_as(alloc, field, &first, answered, &mut steps)?
            && opens_as(alloc, field, &second, answered, &mut steps)?,
    )
}

/// The same on a counter of its own.
fn is_there(alloc: Global, field: &Gf16Tables, seed: u64) -> Result<bool, NoMemory> {
    keeps_what_was_answered::<Brand>(alloc, field, seed, Blank::new(1))
}

#[test]
fn a_thousand_images_have_what_was_answered(rt: HostRuntime) -> Result<(), NoMemory> {
    let field = Gf16Tables::new(rt.alloc())?;
    assert_eq!(rt;
        first_number_wrong(SEEDS - 1, |seed| is_there(rt.alloc(), &field, seed)),
        None
    );
    Ok(())
}
