//! One call of a file, of the link or of the output fails, or every call from one on: the status is that of the object, the journal
//! has the packets that came, and what was written and printed is a front of what a run writes and prints. Words of no
//! form are told first, whatever fails.
use crate::fixtures::{ALL, ORDER, datagrams, disk_of, entries_of, is_journal, store_of};
use crate::keeping::{BY_FILE, BY_LINK, Ended, Given, keep_given};
use pet_base::NoMemory;
use pet_keep::KeepStatus;
use std::alloc::Global;
use test_outside::{Object, is_front, objects_failing};

/// The words; what is printed; and how many calls a run makes of the link and of the output.
type Row = (&'static [&'static str], &'static str, [u64; 2]);

static ROWS: [Row; 2] = [
    (&BY_FILE, "read 6 kept 6 shown 3\n", [0, 1]),
    (&BY_LINK, "bound 40000\nread 6 kept 6 shown 3\n", [8, 2]),
];

/// More calls than a run makes of one object here.
const MOST_CALLS: u64 = 100;

/// What a run is given where this call of this object fails, or every one from it on.
fn given(alloc: Global, object: Object, call: u64, on: bool) -> Result<Given, NoMemory> {
    let fails = (object, call, on);
    let (mut place, link, out) = objects_failing(alloc, datagrams(alloc)?, fails)?;
    place.add("q", &entries_of(alloc, &ORDER)?)?;
    Ok(Given {
        disk: disk_of(alloc, b"", None)?,
        place,
        link,
        out,
    })
}

/// Whether the journal is whole and on the disk, of all packets or else of the first so many that came.
fn has_journal(alloc: Global, ended: &Ended) -> Result<bool, NoMemory> {
    let journal = ended.disk.bytes();
    let mut of_a_front = false;
    for count in 0..=ORDER.len() {
        if is_journal(alloc, journal, count)? {
            of_a_front = true;
        }
    }
    Ok(of_a_front && journal == ended.disk.synced())
}

/// Whether STORE has a front of the store of all, and the lines are a front of what is printed, before the line of a fault.
fn has_fronts(alloc: Global, row: &Row, ended: &Ended) -> Result<bool, NoMemory> {
    let whole = ended.status == KeepStatus::Done;
    let all = store_of(alloc, &ALL)?;
    let stored = match ended.place.bytes_of("t") {
        Some(bytes) => is_front(bytes, &all, whole || ended.status == KeepStatus::OutFault),
        None => !whole,
    };
    let fault: &[u8] = match ended.status {
        KeepStatus::PlaceFault => b"fault place\n",
        KeepStatus::LinkFault => b"fault link\n",
        _ => b"",
    };
    let printed = match ended.out.bytes().strip_suffix(fault) {
        Some(lines) => is_front(lines, row.1.as_bytes(), whole),
        None => false,
    };
    Ok(stored && printed)
}

/// The status of a run at which a call of this object failed.
fn status_of(object: Object) -> KeepStatus {
    match object {
        Object::Files => KeepStatus::PlaceFault,
        Object::Link => KeepStatus::LinkFault,
        Object::Output => KeepStatus::OutFault,
    }
}

/// At which call a run first meets no failure, where this object fails at one call, or from one on; none where what it leaves is
/// otherwise.
fn calls_of(alloc: Global, row: &Row, object: Object, on: bool) -> Result<Option<u64>, NoMemory> {
    for call in 0..MOST_CALLS {
        let ended = keep_given(alloc, row.0, given(alloc, object, call, on)?)?;
        if !has_journal(alloc, &ended)? || !has_fronts(alloc, row, &ended)? {
            return Ok(None);
        }
        if ended.status == KeepStatus::Done {
            return Ok(Some(call));
        }
        if ended.status != status_of(object) {
            return Ok(None);
        }
    }
    Ok(None)
}

#[test]
fn leaves_fronts_whatever_call_fails(rt: HostRuntime) -> Result<(), NoMemory> {
    for row in &ROWS {
        for on in [false, true] {
            let of_files = calls_of(rt.alloc(), row, Object::Files, on)?;
            let of_link = calls_of(rt.alloc(), row, Object::Link, on)?;
            let of_output = calls_of(rt.alloc(), row, Object::Output, on)?;
            assert!(rt; of_files.is_some_and(|count| count > 0));
            assert_eq!(rt; of_link, Some(row.2[0]));
            assert_eq!(rt; of_output, Some(row.2[1]));
        }
    }
    let unread = keep_given(rt.alloc(), &[], given(rt.alloc(), Object::Files, 0, true)?)?;
    assert_eq!(rt; unread.status, KeepStatus::Usage);
    Ok(())
}
