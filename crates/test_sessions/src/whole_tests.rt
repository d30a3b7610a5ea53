//! The session of a stream that is held, and the smaller limit by which it is judged.
use crate::stream_fixtures::{ONE_LAYER, groups_of, place_of};
use pet_base::NoMemory;
use session_source::{SourceFault, WholeSource, read_source, read_whole};
use std::alloc::Global;
use stream_session::SessionFault;
use test_script::{PRIORITIES, SESSION, STREAM};

/// Whether two groups have a session of at most 67,108,864 bytes, and hold the stream. They have one in any case.
fn fits(alloc: Global, last: usize) -> Result<Option<bool>, NoMemory> {
    let stream = groups_of(alloc, &[16_261, last])?;
    let mut place = place_of(alloc, &stream, ONE_LAYER)?;
    if read_source(alloc, "s", "p", &mut place).is_err() {
        return Ok(None);
    }
    Ok(match read_whole(alloc, "s", "p", &mut place) {
        Ok(whole) => Some(whole.bytes.as_slice() == stream.as_slice()),
        Err(SourceFault::Plan(SessionFault::TooLarge(1))) => Some(false),
        Err(_) => None,
    })
}

/// 4,096 datagrams of 16,317 bytes and as many of 67 are 67,108,864 bytes; one byte more of the stream takes two more a datagram.
#[test]
fn refuses_the_group_that_passes_the_smaller_limit(rt: HostRuntime) -> Result<(), NoMemory> {
    assert_eq!(rt; fits(rt.alloc(), 11)?, Some(true));
    assert_eq!(rt; fits(rt.alloc(), 12)?, Some(false));
    Ok(())
}

/// The example session, read so.
fn example(alloc: Global) -> Option<WholeSource> {
    let mut place = place_of(alloc, &STREAM, PRIORITIES).ok()?;
    read_whole(alloc, "s", "p", &mut place).ok()
}

#[test]
fn holds_the_example_stream(rt: HostRuntime) {
    let whole = example(rt.alloc()).expect(&rt, "a session");
    assert!(rt; whole.bytes.as_slice() == STREAM.as_slice());
    assert_eq!(rt; whole.source.number, SESSION);
}
