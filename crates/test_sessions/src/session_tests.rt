//! The limits of a datagram, of a group and of a session.
use crate::stream_fixtures::{ONE_LAYER, groups_of, place_of};
use pet_base::NoMemory;
use session_source::{SourceFault, read_source};
use std::alloc::Global;
use stream_session::SessionFault;

/// One packet, which shows all layers.
const IN_ONE: &str =
    "packets = 1\n[[layer]]\nname = \"base\"\nkinds = [\"head\", \"I\"]\nneed = 1\n[[layer]]\nname = \"P\"\nkinds = [\"P\"]\nneed = 1\n[[layer]]\nname = \"B\"\nkinds = [\"B\"]\nneed = 1\n";

/// The priority file, the bytes of the groups, and why these have no session.
type Limit = (&'static str, &'static [usize], Option<SessionFault>);

static LIMITS: [Limit; 8] = [
    // 32,470 words fit, and one more does not.
    (IN_ONE, &[64_931], None),
    (IN_ONE, &[64_932], Some(SessionFault::TooWide(0))),
    (
        IN_ONE,
        &[10, 64_932, 10, 64_932],
        Some(SessionFault::TooWide(1)),
    ),
    // Two groups of 4,096 datagrams of 64,999 bytes fit, and three do not. With 951 and 11 the limit is met exactly.
    (ONE_LAYER, &[64_943, 64_943], None),
    (
        ONE_LAYER,
        &[64_943, 64_943, 64_943, 64_943],
        Some(SessionFault::TooLarge(2)),
    ),
    (
        ONE_LAYER,
        &[64_943, 64_943, 64_943, 64_944],
        Some(SessionFault::TooWide(3)),
    ),
    (ONE_LAYER, &[64_943, 64_943, 951, 11], None),
    (
        ONE_LAYER,
        &[64_943, 64_943, 951, 12],
        Some(SessionFault::TooLarge(3)),
    ),
];

/// Whether such groups have a session, or this fault.
fn is_judged(alloc: Global, limit: &Limit) -> Result<bool, NoMemory> {
    let stream = groups_of(alloc, limit.1)?;
    let mut place = place_of(alloc, &stream, limit.0)?;
    Ok(match read_source(alloc, "s", "p", &mut place) {
        Ok(_) => limit.2.is_none(),
        Err(SourceFault::Plan(fault)) => limit.2 == Some(fault),
        Err(_) => false,
    })
}

/// The number of the first row that is judged otherwise.
fn first_wrong(alloc: Global, cases: &[Limit]) -> Option<usize> {
    for row in 0..cases.len() {
        if !is_judged(alloc, &cases[row]).unwrap_or(false) {
            return Some(row);
        }
    }
    None
}

#[test]
fn refuses_a_datagram_and_a_session_of_one_byte_too_many(rt: HostRuntime) {
    assert_eq!(rt; first_wrong(rt.alloc(), &LIMITS), None);
}

/// A group that is too long comes before one that is too wide.
const TOO_LONG: Limit = (
    IN_ONE,
    &[64_932, 4_194_296, 10],
    Some(SessionFault::GroupTooLong(1)),
);

#[test]
fn refuses_a_group_that_is_too_long_before_one_that_is_too_wide(rt: HostRuntime) {
    assert_eq!(rt; is_judged(rt.alloc(), &TOO_LONG), Ok(true));
}
