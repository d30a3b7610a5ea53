//! `send` by a link in memory. The packets, their session and the marks were made outside.
use crate::cases::{
    ALL_GO, Case, ONE_GROUP, Run, TWO_GROUPS, are_first, first_wrong, link_of, place_of,
};
use crate::send_tests::{EXAMPLE, SENT, run_untold};
use crate::{NO_MARK, SECOND_MARK, changed_at};
use command_send::SendEnd;
use pet_base::{MemorySink, NoMemory};
use std::alloc::Global;
use test_outside::run_on;
use test_script::STREAM;

const DONE: Run = Run::SendByLink(SendEnd::Done(SENT));

const FAULT: Run = Run::SendByLink(SendEnd::LinkFault);

/// The link is aimed and then sends six datagrams; no call has the number 7.
static SENT_BY_LINK: [Case; 9] = [
    (EXAMPLE, ALL_GO, DONE, None, 6),
    (EXAMPLE, [&[], &[0]], FAULT, None, 0),
    (EXAMPLE, [&[], &[1]], FAULT, None, 0),
    (EXAMPLE, [&[], &[2]], FAULT, None, 1),
    (EXAMPLE, [&[], &[3]], FAULT, None, 2),
    (EXAMPLE, [&[], &[4]], FAULT, None, 3),
    (EXAMPLE, [&[], &[5]], FAULT, None, 4),
    (EXAMPLE, [&[], &[6]], FAULT, None, 5),
    (EXAMPLE, [&[], &[7]], DONE, None, 6),
];

#[test]
fn sends_each_packet_once_up_to_a_call_that_fails(rt: HostRuntime) {
    assert_eq!(rt; first_wrong(rt.alloc(), &SENT_BY_LINK), None);
}

/// Whether `send` by a link stops before the first packet where this call of the place fails, or sends all.
fn sends_all_or_nothing(alloc: Global, call: u64) -> Result<bool, NoMemory> {
    let mut place = place_of(alloc, &EXAMPLE, &[call])?;
    let mut link = link_of(alloc, &[])?;
    let mut out = MemorySink::new(alloc, Vec::new(alloc));
    let run = Run::SendByLink(SendEnd::PlaceFault);
    let stopped = run_on(alloc, &run, &mut place, &mut link, &mut out);
    Ok(
        (stopped && out.bytes().is_empty() && are_first(link.sent(), link.sent().len()))
            || are_first(link.sent(), 6),
    )
}

#[test]
fn sends_all_or_nothing_where_a_file_fails(rt: HostRuntime) {
    // the calls up to the second opening of the stream are those before the first packet
    for call in 0..16 {
        assert!(rt;
            sends_all_or_nothing(rt.alloc(), call).unwrap_or(false),
            "call {call}"
        );
    }
}

/// Whether `send` by a link of a stream that is opened twice ends so over a place that tells nothing.
fn sends_untold(
    alloc: Global,
    (first, second): (&[u8], Option<&[u8]>),
    end: SendEnd,
    many: usize,
) -> Result<bool, NoMemory> {
    let ended = run_untold(alloc, (first, second), Run::SendByLink(end))?;
    Ok(ended.is_some_and(|(_, sent)| sent == many))
}

#[test]
fn sends_the_groups_before_a_change_where_nothing_is_told(rt: HostRuntime) {
    let alloc = rt.alloc();
    let example: &[u8] = &STREAM;
    let again = (example, Some(example));
    assert!(rt; sends_untold(alloc, again, SendEnd::Done(SENT), 6).unwrap_or(false));
    let fewer = changed_at(1, SECOND_MARK, NO_MARK);
    let groups = (TWO_GROUPS, Some(ONE_GROUP));
    assert!(rt; sends_untold(alloc, groups, fewer, 6).unwrap_or(false));
    let fault = SendEnd::PlaceFault;
    assert!(rt; sends_untold(alloc, (example, None), fault, 0).unwrap_or(false));
}
