//! The example session in the byte profile: its plan, its packets, and what a receiver shows of them.
ghost use Rattle.std.specs.Prelude.{◌≡◌, ◌<◌};

use crate::group_fixtures::{MESSAGE, table_of};
use byte_frame::{ByteEncoder, FrameFault, read_byte_frame};
use field_rows::Rows;
use field_values::AllValues;
use gf8::{Gf8Plain, Gf8Tables};
use packet_frame::read_frame;
use pet_base::{NoMemory, Steps};
use pet_byte::{ByteReceiver, LayerSet, Verdict};
use sha2::{Digest, Sha256};
use std::alloc::Global;
use std::marker::Brand;
use std::sync::ledger::{Blank, Ledger};
use std::test::Fail;
use stripe_plan::stripes;
use test_script::SESSION;

/// The bytes of a frame.
const FRAME_LENGTH: usize = 88;

/// Packet 3. A model in Python made it, by Horner's rule, with products by long division and tags by `hashlib`.
const PACKET_3: [u8; 88] = [
    0x50, 0x45, 0x54, 0x38, 0xA5, 0xAC, 0x94, 0x61, 0xB0, 0x3B, 0xCF, 0x36, 0x00, 0x00, 0x00, 0x01,
    0x00, 0x00, 0x00, 0x00, 0x00, 0x06, 0x00, 0x03, 0x03, 0x00, 0x00, 0x00, 0x2E, 0x00, 0x02, 0x00,
    0x00, 0x00, 0x07, 0x00, 0x03, 0x00, 0x00, 0x00, 0x0F, 0x00, 0x05, 0x00, 0x0C, 0x00, 0x00, 0x11,
    0x00, 0x09, 0x02, 0x00, 0x0F, 0x00, 0x0C, 0x00, 0xC9, 0x77, 0x00, 0xD4, 0x33, 0x03, 0x00, 0xC4,
    0x00, 0xC5, 0x05, 0x50, 0x55, 0xC1, 0x05, 0x37, 0xFB, 0x12, 0x15, 0x2A, 0x48, 0x70, 0x18, 0x6F,
    0x49, 0xE8, 0x3D, 0x09, 0x5D, 0x7E, 0x61, 0x3E,
];

/// The SHA-256 digest of all six frames on end, of the same model.
const DIGEST: [u8; 32] = [
    0x6B, 0x07, 0x3C, 0x37, 0x7E, 0x39, 0xCE, 0xB1, 0x15, 0xD1, 0x26, 0x68, 0x72, 0xCF, 0xF5, 0x4F,
    0x84, 0xC2, 0xB2, 0x4A, 0xED, 0xB2, 0xF6, 0xFB, 0xEB, 0xD3, 0x18, 0x1A, 0xF8, 0x0A, 0x35, 0xCE,
];

/// The numbers of packets as they come, and their verdicts.
static ARRIVALS: [(u8, Verdict); 7] = [
    (3, Verdict::Kept(LayerSet { bits: 0 })),
    (3, Verdict::Repeated),
    (0, Verdict::Kept(LayerSet { bits: 1 })),
    (4, Verdict::Kept(LayerSet { bits: 2 })),
    (5, Verdict::Kept(LayerSet { bits: 0 })),
    (1, Verdict::Kept(LayerSet { bits: 4 })),
    (2, Verdict::Kept(LayerSet { bits: 0 })),
];

/// The frames of all packets on end, by number.
pub(crate) fn frames_by<F: Rows, L: Ledger>(
    alloc: Global,
    field: &F,
    blank: Blank,
) -> Result<Vec<u8>, Fail>
    requires width { F.coding.width ≡ 1 }
    requires points { F.COUNT ≡ 256 }
    requires name { blank.name ≡ L.name }
    requires parts { blank.parts ≡ L.parts }
    requires some { 0 < blank.parts }
{
    let mut frames = Vec::new(alloc);
    let table = table_of(6)?;
    if table.plan().words() != 68 {
        return Ok(frames);
    }
    let encoder = ByteEncoder::new(alloc, field, SESSION, 1, 0, table, &MESSAGE)?;
    let mut steps = Steps::<L>::new(blank);
    for number in 0..6 {
        encoder.packet(number, &mut frames, &mut steps)?;
    }
    Ok(frames)
}

/// Whether the packets made all at once, and in two ranges, are these frames.
fn makes_at_once<F: AllValues, L: Ledger>(
    alloc: Global,
    field: &F,
    frames: &[u8],
    blank: Blank,
) -> Result<bool, Fail>
    requires width { F.coding.width ≡ 1 }
    requires points { F.COUNT ≡ 256 }
    requires name { blank.name ≡ L.name }
    requires parts { blank.parts ≡ L.parts }
    requires some { 0 < blank.parts }
{
    let table = table_of(6)?;
    if table.plan().words() != 68 {
        return Ok(false);
    }
    let encoder = ByteEncoder::new(alloc, field, SESSION, 1, 0, table, &MESSAGE)?;
    let mut steps = Steps::<L>::new(blank);
    let mut all = Vec::new(alloc);
    encoder.all(&mut all, &mut steps)?;
    let mut ranges = Vec::new(alloc);
    encoder.range(0, 2, &mut ranges, &mut steps)?;
    encoder.range(2, 4, &mut ranges, &mut steps)?;
    Ok(all.as_slice() == frames && ranges.as_slice() == frames)
}

/// The frame of this number among frames on end, where it is there.
pub(crate) fn frame_at(frames: &[u8], number: u8) -> Option<&[u8]> {
    let at = usize::from(number) * FRAME_LENGTH;
    frames.get(at..at + FRAME_LENGTH)
}

/// Whether these bytes are shown.
fn is_shown(shown: Option<&[u8]>, wanted: &[u8]) -> bool {
    match shown {
        Some(bytes) => bytes == wanted,
        None => false,
    }
}

/// Whether the arrivals are judged as they are to be.
fn judges<F: Rows, L: Ledger>(
    receiver: &mut ByteReceiver<'_, F>,
    frames: &[u8],
    steps: &mut Steps<L>,
) -> Result<bool, NoMemory> {
    for (number, verdict) in ARRIVALS.iter() {
        let Some(frame) = frame_at(frames, *number) else {
            return Ok(false);
        };
        if receiver.accept(frame, steps)? != *verdict {
            return Ok(false);
        }
    }
    Ok(true)
}

/// Whether the arrivals are judged so, and the three layers shown then; how many packets are kept and layers shown, and
/// whether that is all. The limit is what the group costs.
fn received<F: Rows, L: Ledger>(
    alloc: Global,
    field: &F,
    frames: &[u8],
    blank: Blank,
) -> Result<(bool, bool, (u32, u32, bool)), NoMemory>
    requires width { F.coding.width ≡ 1 }
    requires points { F.COUNT ≡ 256 }
    requires name { blank.name ≡ L.name }
    requires parts { blank.parts ≡ L.parts }
    requires some { 0 < blank.parts }
{
    let mut steps = Steps::<L>::new(blank);
    let mut receiver = ByteReceiver::new(alloc, field, SESSION, 528);
    let is_judged = judges(&mut receiver, frames, &mut steps)?;
    let layers = is_shown(receiver.layer(0, 0), &MESSAGE[..46])
        && is_shown(receiver.layer(0, 1), &MESSAGE[46..53])
        && is_shown(receiver.layer(0, 2), &MESSAGE[53..]);
    let totals = (receiver.kept(), receiver.shown(), receiver.complete());
    Ok((is_judged, layers, totals))
}

#[test]
fn plans_by_bytes(rt: HostRuntime) -> Result<(), Fail> {
    let table = table_of(6)?;
    assert_eq!(rt; stripes(table.plan()), 29);
    Ok(())
}

#[test]
fn makes_the_packets_of_the_example_session(rt: HostRuntime) -> Result<(), Fail> {
    let alloc = rt.alloc();
    let field = Gf8Tables::new();
    let frames = frames_by::<Gf8Tables, Brand>(alloc, &field, Blank::new(1))?;
    // each stands in a datagram file behind two bytes of its length
    assert_eq!(rt; frames.len() + 6 * 2, 540);
    assert!(rt; frame_at(&frames, 3) == Some(&PACKET_3));
    assert!(rt; Sha256::digest(&frames) == DIGEST);
    assert!(rt; read_byte_frame(&PACKET_3).is_ok());
    assert!(rt; read_frame(&PACKET_3).err() == Some(FrameFault::Magic));
    Ok(())
}

#[test]
fn makes_the_packets_at_once(rt: HostRuntime) -> Result<(), Fail> {
    let alloc = rt.alloc();
    let field = Gf8Tables::new();
    let frames = frames_by::<Gf8Tables, Brand>(alloc, &field, Blank::new(1))?;
    assert!(rt; makes_at_once::<Gf8Tables, Brand>(alloc, &field, &frames, Blank::new(1))?);
    Ok(())
}

#[test]
fn makes_the_same_packets_without_tables(rt: HostRuntime) -> Result<(), Fail> {
    let alloc = rt.alloc();
    let frames = frames_by::<Gf8Plain, Brand>(alloc, &Gf8Plain, Blank::new(1))?;
    assert!(rt; Sha256::digest(&frames) == DIGEST);
    Ok(())
}

#[test]
fn shows_the_layers_of_the_example_session(rt: HostRuntime) -> Result<(), Fail> {
    let alloc = rt.alloc();
    let field = Gf8Tables::new();
    let frames = frames_by::<Gf8Tables, Brand>(alloc, &field, Blank::new(1))?;
    let seen = received::<Gf8Tables, Brand>(alloc, &field, &frames, Blank::new(1))?;
    assert!(rt; seen == (true, true, (6, 3, true)));
    let plain = received::<Gf8Plain, Brand>(alloc, &Gf8Plain, &frames, Blank::new(1))?;
    assert!(rt; plain == (true, true, (6, 3, true)));
    Ok(())
}
