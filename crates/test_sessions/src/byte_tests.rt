//! Streams that are read for a session of the byte profile, in which each byte of a layer is a word: why there is
//! none. The numbers are reckoned by hand.
use crate::stream_fixtures::{ONE_LAYER, groups_of, place_of};
use packet_frame::BYTE_FORMAT;
use pet_base::NoMemory;
use session_source::{MarkedSource, SourceFault, read_marked_in};
use std::alloc::Global;
use stream_session::SessionFault;

/// One packet, which shows all layers.
const IN_ONE: &str =
    "packets = 1\n[[layer]]\nname = \"base\"\nkinds = [\"head\", \"I\"]\nneed = 1\n[[layer]]\nname = \"P\"\nkinds = [\"P\"]\nneed = 1\n[[layer]]\nname = \"B\"\nkinds = [\"B\"]\nneed = 1\n";

/// The priority file, the bytes of the groups, and why these have no session of the byte profile.
type Limit = (&'static str, &'static [usize], Option<SessionFault>);

/// A group has a run table of 9 bytes more. 32,470 stripes of two bytes fit a datagram of 65,000 bytes, beside 41 bytes and three
/// layers of 6.
static LIMITS: [Limit; 5] = [
    (IN_ONE, &[32_461], None),
    (IN_ONE, &[32_462], Some(SessionFault::TooWide(0))),
    (IN_ONE, &[32_462, 2_097_143], Some(SessionFault::TooWide(0))),
    (
        IN_ONE,
        &[32_462, 2_097_144],
        Some(SessionFault::ByteLong(1)),
    ),
    (ONE_LAYER, &[10], Some(SessionFault::ManyPackets(4_096))),
];

/// What is read of these groups.
fn read_groups(
    alloc: Global,
    priorities: &str,
    groups: &[usize],
) -> Result<Result<MarkedSource, SourceFault>, NoMemory> {
    let stream = groups_of(alloc, groups)?;
    let mut place = place_of(alloc, &stream, priorities)?;
    Ok(read_marked_in(alloc, &BYTE_FORMAT, "s", "p", &mut place))
}

/// Whether such groups have a session, or this fault.
fn is_judged(alloc: Global, limit: &Limit) -> Result<bool, NoMemory> {
    Ok(match read_groups(alloc, limit.0, limit.1)? {
        Ok(_) => limit.2.is_none(),
        Err(SourceFault::Plan(fault)) => limit.2 == Some(fault),
        Err(_) => false,
    })
}

/// The number of the first row that is judged otherwise.
fn first_wrong(alloc: Global, cases: &[Limit]) -> Option<usize> {
    for row in 0..cases.len() {
        if !is_judged(alloc, &cases[row]).unwrap_or(false) {
            return Some(row);
        }
    }
    None
}

#[test]
fn refuses_what_the_byte_profile_does_not_allow(rt: HostRuntime) {
    assert_eq!(rt; first_wrong(rt.alloc(), &LIMITS), None);
}
