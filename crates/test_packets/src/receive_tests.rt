//! What a receiver answers to datagrams.
ghost use Rattle.std.specs.Prelude.{◌≡◌, ◌<◌};

use crate::receive_fixtures::{
    EMPTY_LAYERS_0, EMPTY_LAYERS_1, EVERY_LAYER, EXAMPLE, EXAMPLE_2, EXAMPLE_5, EXAMPLE_LAYER,
    FLIPPED, IN_GROUP_258, Judged, LONG_LAYER, OF_ANOTHER_SESSION, OF_TWO_GROUPS, ONLY_LAYER,
    SEVEN_0, SEVEN_2, SHORT_LAYER, SHOWS_0, SHOWS_NONE, TWO_LAYERS, WORDS_1, WORDS_3, datagram_of,
    frame_of,
};
use field_elements::Gf16Plain;
use packet_frame::read_frame;
use packet_verdicts::{LayerSet, Verdict, group_of};
use pet_base::{NoMemory, Steps};
use pet_receive::Receiver;
use std::alloc::Global;
use std::marker::Brand;
use std::sync::ledger::{Blank, Ledger};
use std::test::Fail;

/// What the groups may cost; datagrams with their verdicts; and what is then so.
type Row = (u64, &'static [Judged], &'static [Then]);

/// How many of the datagrams come; a layer of group 0 and its bytes, where it is then shown; how many packets are kept and layers
/// shown, and whether that is all.
type Then = (usize, u8, Option<&'static [u8]>, (u32, u32, bool));

static ROWS: [Row; 8] = [
    (
        1_000,
        &[
            (Some(WORDS_3), SHOWS_NONE),
            (Some(WORDS_3), Verdict::Repeated),
            (Some(WORDS_1), SHOWS_0),
        ],
        &[(3, 0, Some(&[0, 5, 0, 7]), (2, 1, true))],
    ),
    (
        1_000,
        &[(Some(SEVEN_2), SHOWS_NONE), (Some(SEVEN_0), SHOWS_0)],
        &[(2, 0, Some(&[1, 2, 3, 4, 5, 6, 7]), (2, 1, true))],
    ),
    // the example's group takes 534 bytes
    (
        533,
        &[
            (Some(EXAMPLE), Verdict::Full),
            (Some(OF_TWO_GROUPS), Verdict::Full),
            (Some(WORDS_1), SHOWS_NONE),
            (None, Verdict::Damaged),
        ],
        &[(4, 0, None, (1, 0, false))],
    ),
    (
        534,
        &[
            (Some(EXAMPLE), SHOWS_NONE),
            (Some(OF_TWO_GROUPS), Verdict::Clash),
            (Some(WORDS_1), Verdict::Clash),
            (None, Verdict::Damaged),
        ],
        &[(4, 0, None, (1, 0, false))],
    ),
    // three datagrams that are not kept, and two of the example stream
    (
        2_000,
        &[
            (Some(OF_ANOTHER_SESSION), Verdict::Foreign),
            (Some(FLIPPED), Verdict::Damaged),
            (None, Verdict::Damaged),
            (Some(EXAMPLE_5), SHOWS_NONE),
            (Some(EXAMPLE_2), SHOWS_0),
        ],
        &[
            (4, 0, None, (1, 0, false)),
            (5, 0, Some(&EXAMPLE_LAYER), (2, 1, false)),
            (5, 1, None, (2, 1, false)),
        ],
    ),
    (
        2_000,
        &[
            (Some(EMPTY_LAYERS_0), Verdict::Kept(LayerSet { bits: 6 })),
            (Some(EMPTY_LAYERS_1), SHOWS_0),
        ],
        &[
            (1, 0, None, (1, 2, false)),
            (1, 1, Some(&[]), (1, 2, false)),
            (1, 2, Some(&[]), (1, 2, false)),
            (1, 3, None, (1, 2, false)),
            (2, 0, Some(&ONLY_LAYER), (2, 3, true)),
        ],
    ),
    (
        2_000,
        &[(
            Some(EVERY_LAYER),
            Verdict::Kept(LayerSet { bits: 0xFFFF_FFFF }),
        )],
        &[(1, 31, Some(&[0x12, 0x34]), (1, 32, true))],
    ),
    (
        2_000,
        TWO_LAYERS,
        &[
            (2, 1, None, (2, 0, false)),
            (3, 1, Some(&SHORT_LAYER), (3, 1, false)),
            (9, 0, None, (9, 1, false)),
            (10, 0, Some(&LONG_LAYER), (10, 2, true)),
        ],
    ),
];

/// The session of the frames.
const SESSION: [u8; 8] = [0, 1, 2, 3, 4, 5, 6, 7];

/// Whether the first so many of these datagrams are judged so.
fn judges<L: Ledger>(
    alloc: Global,
    receiver: &mut Receiver<'_, Gf16Plain>,
    judged: &[Judged],
    many: usize,
    steps: &mut Steps<L>,
) -> Result<bool, NoMemory> {
    for (packet, verdict) in judged.iter().take(many) {
        if receiver.accept(&datagram_of(alloc, packet)?, steps)? != *verdict {
            return Ok(false);
        }
    }
    Ok(many <= judged.len())
}

/// Whether these are the same bytes, or both none.
fn are_same(shown: Option<&[u8]>, wanted: Option<&[u8]>) -> bool {
    match (shown, wanted) {
        (Some(bytes), Some(others)) => bytes == others,
        (None, None) => true,
        _ => false,
    }
}

/// Whether this is so of a row.
fn is_so<L: Ledger>(alloc: Global, row: &Row, then: &Then, blank: Blank) -> Result<bool, NoMemory>
    requires name { blank.name ≡ L.name }
    requires parts { blank.parts ≡ L.parts }
    requires some { 0 < blank.parts }
{
    let mut steps = Steps::<L>::new(blank);
    let field = Gf16Plain;
    let mut receiver = Receiver::new(alloc, &field, SESSION, row.0);
    let is_judged = judges(alloc, &mut receiver, row.1, then.0, &mut steps)?;
    let totals = (receiver.kept(), receiver.shown(), receiver.complete());
    Ok(is_judged && are_same(receiver.layer(0, then.1), then.2) && totals == then.3)
}

/// Whether all of a row is so.
fn are_so(alloc: Global, row: &Row) -> bool {
    for then in row.2 {
        if !is_so::<Brand>(alloc, row, then, Blank::new(1)).unwrap_or(false) {
            return false;
        }
    }
    true
}

/// The number of the first row that is not so.
fn first_wrong(alloc: Global, rows: &[Row]) -> Option<usize> {
    for row in 0..rows.len() {
        if !are_so(alloc, &rows[row]) {
            return Some(row);
        }
    }
    None
}

#[test]
fn judges_datagrams_and_shows_layers(rt: HostRuntime) {
    assert_eq!(rt; first_wrong(rt.alloc(), &ROWS), None);
}

#[test]
fn names_the_group_of_a_frame(rt: HostRuntime) -> Result<(), Fail> {
    let bytes = frame_of(rt.alloc(), &IN_GROUP_258)?;
    let frame = read_frame(&bytes)?;
    assert!(rt; frame.header.group == 258 && group_of(&bytes) == 258);
    Ok(())
}
