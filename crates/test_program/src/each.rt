//! Each call of an object fails in its turn: what a run then leaves, beside one without a failure.
use crate::run::{ALL_GO, Ended, NAMES, NEVER, Run, end_of};
use pet_base::NoMemory;
use pet_text::Status;
use std::alloc::Global;

/// More calls than a run makes of one object here.
const MOST_CALLS: u64 = 100;

/// The status of a run at which a call of the files, of the link or of the output failed, and its line where that is printed.
static FAULTS: [(Status, &[u8]); 3] = [
    (Status::PlaceFault, b"fault place\n"),
    (Status::LinkFault, b"fault link\n"),
    (Status::OutFault, b""),
];

/// How many calls of this object fail in their turn, alone or with each behind it, until a run ends as the whole one did; none where
/// a run ends otherwise, asks for something behind the failure, or leaves no fronts of what the whole one left.
pub(crate) fn calls_of(
    alloc: Global,
    given: &Run,
    whole: &Ended,
    object: usize,
    on: bool,
) -> Result<Option<u64>, NoMemory> {
    let Some((status, line)) = FAULTS.get(object) else {
        return Ok(None);
    };
    for call in 0..MOST_CALLS {
        let mut faults = ALL_GO;
        faults.calls[object] = call;
        faults.on = on;
        let failed = end_of(alloc, given, &faults)?;
        let is_whole = failed.status == whole.status;
        let line = if is_whole { b"".as_slice() } else { *line };
        if failed.late > 0
            || !(is_whole || failed.status == *status)
            || !has_printed(&failed, whole, line)
            || !has_sent(&failed, whole)
            || !has_fronts(given, &failed, whole)
        {
            return Ok(None);
        }
        if is_whole {
            return Ok(Some(call));
        }
    }
    Ok(None)
}

/// Whether a front of the lines was printed, all of them where a run is done, and behind it this line.
fn has_printed(failed: &Ended, whole: &Ended, line: &[u8]) -> bool {
    let all = whole.out.bytes();
    match failed.out.bytes().strip_suffix(line) {
        Some(lines) => lines == all || (failed.status != Status::Done && all.starts_with(lines)),
        None => false,
    }
}

/// Whether the first of the datagrams were sent, all of them where a run ends as the whole one did.
fn has_sent(failed: &Ended, whole: &Ended) -> bool {
    let (sent, all) = (failed.link.sent(), whole.link.sent());
    (sent.len() == all.len() || (sent.len() < all.len() && failed.status != whole.status))
        && sent.iter().zip(all.iter()).all(|(one, other)| one == other)
}

/// Whether each file is as it was where the whole run leaves it so, and else has a front of what that leaves, or all of it where a
/// run ends as the whole one did.
fn has_fronts(given: &Run, failed: &Ended, whole: &Ended) -> bool {
    for name in NAMES {
        let (now, all) = (failed.files.bytes_of(name), whole.files.bytes_of(name));
        let before = given.files.bytes_of(name);
        let is_front = now == before
            || now.is_some_and(|now| all.is_some_and(|all| all.starts_with(now)));
        if now != all && (failed.status == whole.status || all == before || !is_front) {
            return false;
        }
    }
    true
}
