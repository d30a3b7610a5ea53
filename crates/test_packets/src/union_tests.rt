//! What a receiver answers that takes in what another has kept.
ghost use Rattle.std.specs.Prelude.{◌≡◌, ◌<◌};

use crate::receive_fixtures::{EXAMPLE, EXAMPLE_2, EXAMPLE_5, Packet, WORDS_1, frame_of};
use field_elements::Gf16Plain;
use packet_verdicts::Absorb;
use pet_base::{NoMemory, Steps};
use pet_receive::Receiver;
use std::alloc::Global;
use std::marker::Brand;
use std::sync::ledger::{Blank, Ledger};

/// The session of the frames.
const SESSION: [u8; 8] = [0, 1, 2, 3, 4, 5, 6, 7];

/// Another session.
const OTHER: [u8; 8] = [0, 1, 2, 3, 4, 5, 6, 8];

/// Packets, whose frames come.
type Frames = &'static [Packet];

/// What the groups of a receiver may cost, and its session; what comes to it, and to another of the session of the frames; what
/// it answers when it takes in what the other has kept: the layers that are newly shown, or a fault; how many packets it has
/// then kept and layers shown; and of how many packets in group 0 it was told.
type Row = (
    u64,
    [u8; 8],
    (Frames, Frames),
    Result<&'static [(u32, u8)], Absorb>,
    (u32, u32),
    u16,
);

const FIRST_TWO: Frames = &[EXAMPLE, EXAMPLE_2];

const LAST: Frames = &[EXAMPLE_5];

/// Two packets show the example's layer 0 and three layer 1, and its group takes 534 bytes.
static ROWS: [Row; 8] = [
    (1_000, SESSION, (FIRST_TWO, LAST), Ok(&[(0, 1)]), (3, 2), 6),
    (
        1_000,
        SESSION,
        (LAST, FIRST_TWO),
        Ok(&[(0, 0), (0, 1)]),
        (3, 2),
        6,
    ),
    (534, SESSION, (&[], FIRST_TWO), Ok(&[(0, 0)]), (2, 1), 6),
    (534, SESSION, (FIRST_TWO, &[]), Ok(&[]), (2, 1), 6),
    (1_000, SESSION, (LAST, LAST), Ok(&[]), (1, 0), 6),
    (
        533,
        SESSION,
        (&[], FIRST_TWO),
        Err(Absorb::Full(0)),
        (0, 0),
        0,
    ),
    (
        1_000,
        SESSION,
        (&[WORDS_1], LAST),
        Err(Absorb::Clash(0, 5)),
        (1, 0),
        4,
    ),
    (
        1_000,
        OTHER,
        (&[], FIRST_TWO),
        Err(Absorb::OtherSession),
        (0, 0),
        0,
    ),
];

/// Hands the frames of these packets to a receiver.
fn accept_all<L: Ledger>(
    alloc: Global,
    receiver: &mut Receiver<'_, Gf16Plain>,
    packets: &[Packet],
    steps: &mut Steps<L>,
) -> Result<(), NoMemory> {
    for packet in packets {
        receiver.accept(&frame_of(alloc, packet)?, steps)?;
    }
    Ok(())
}

/// Whether a receiver answers so when it takes in what another has kept that these frames have come to.
fn takes_in<'f, L: Ledger>(
    alloc: Global,
    field: &'f Gf16Plain,
    mine: &mut Receiver<'f, Gf16Plain>,
    packets: &[Packet],
    answer: Result<&[(u32, u8)], Absorb>,
    steps: &mut Steps<L>,
) -> Result<bool, NoMemory> {
    let mut other = Receiver::new(alloc, field, SESSION, 1_000);
    accept_all(alloc, &mut other, packets, steps)?;
    Ok(match (mine.absorb(&other, steps), answer) {
        (Ok(shown), Ok(wanted)) => shown.as_slice() == wanted,
        (Err(fault), Err(wanted)) => fault == wanted,
        _ => false,
    })
}

/// Whether this row is so.
fn is_so<L: Ledger>(alloc: Global, row: &Row, blank: Blank) -> Result<bool, NoMemory>
    requires name { blank.name ≡ L.name }
    requires parts { blank.parts ≡ L.parts }
    requires some { 0 < blank.parts }
{
    let mut steps = Steps::<L>::new(blank);
    let field = Gf16Plain;
    let mut mine = Receiver::new(alloc, &field, row.1, row.0);
    accept_all(alloc, &mut mine, row.2.0, &mut steps)?;
    let is_taken_in = takes_in(alloc, &field, &mut mine, row.2.1, row.3, &mut steps)?;
    let packets = match mine.header(0) {
        Some(header) => header.table.packets(),
        None => 0,
    };
    Ok(is_taken_in && (mine.kept(), mine.shown()) == row.4 && packets == row.5)
}

/// The number of the first row that is not so.
fn first_wrong(alloc: Global, rows: &[Row]) -> Option<usize> {
    for row in 0..rows.len() {
        if !is_so::<Brand>(alloc, &rows[row], Blank::new(1)).unwrap_or(false) {
            return Some(row);
        }
    }
    None
}

#[test]
fn takes_in_what_another_has_kept(rt: HostRuntime) {
    assert_eq!(rt; first_wrong(rt.alloc(), &ROWS), None);
}

/// Whether a receiver has the tags of a packet that came to it and of one that it took in beside them, and of no other.
fn has_tags(receiver: &Receiver<'_, Gf16Plain>) -> bool {
    receiver.tag(0, 2) == Some(EXAMPLE_2.3.to_be_bytes())
        && receiver.tag(0, 5) == Some(EXAMPLE_5.3.to_be_bytes())
        && receiver.tag(0, 1).is_none()
}

/// Whether a receiver lends the payload of a packet that it took in, has its tag, counts it, and tells how many groups there are.
fn lends<L: Ledger>(alloc: Global, blank: Blank) -> Result<bool, NoMemory>
    requires name { blank.name ≡ L.name }
    requires parts { blank.parts ≡ L.parts }
    requires some { 0 < blank.parts }
{
    let mut steps = Steps::<L>::new(blank);
    let field = Gf16Plain;
    let mut mine = Receiver::new(alloc, &field, SESSION, 1_000);
    accept_all(alloc, &mut mine, FIRST_TWO, &mut steps)?;
    let is_taken_in = takes_in(alloc, &field, &mut mine, LAST, Ok(&[(0, 1)]), &mut steps)?;
    let counted = (mine.groups(), mine.count(0), mine.has(0, 5), mine.has(0, 1));
    let payload = mine.packet(0, 5);
    Ok(
        is_taken_in
            && counted == (Some(1), 3, true, false)
            && payload == Some(EXAMPLE_5.2)
            && has_tags(&mine),
    )
}

#[test]
fn lends_what_was_taken_in(rt: HostRuntime) {
    assert!(rt; lends::<Brand>(rt.alloc(), Blank::new(1)).unwrap_or(false));
}
