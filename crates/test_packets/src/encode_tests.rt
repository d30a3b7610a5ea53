//! Packets of the example stream's group, over the field of 65,536 elements, one by one and all at once.
ghost use Rattle.std.specs.Prelude.{◌≡◌, ◌<◌};

use crate::group_fixtures::{MESSAGE, header_of};
use field_elements::Gf16Plain;
use field_values::AllValues;
use pet_base::{MAX_PACKETS, NoMemory, Steps};
use pet_encode::Encoder;
use pet_field::Gf16Tables;
use sha2::{Digest, Sha256};
use std::alloc::Global;
use std::marker::Brand;
use std::sync::ledger::{Blank, Ledger};
use std::test::Fail;
use test_script::packets;

/// The SHA-256 digest of the frames of the group's packets, where it has as many as a group has at most and no need but those of
/// the first two layers binds: 14 stripes, of 2, 3 and 8 words. A model in Python has them by Horner's rule, with products by
/// shifts.
const MOST_PACKETS_DIGEST: [u8; 32] = [
    0x96, 0x7B, 0xCD, 0x5D, 0xD4, 0x80, 0x8D, 0x13, 0xA9, 0x9B, 0xCE, 0xEF, 0x19, 0xAF, 0xD0, 0xD4,
    0xD4, 0x07, 0xD3, 0x13, 0xD3, 0x72, 0xD6, 0x09, 0x38, 0xA1, 0x86, 0x76, 0x78, 0x05, 0xFE, 0x56,
];

/// The frames of all packets at once, where they are those that are made one by one.
fn made<F: AllValues, L: Ledger>(
    alloc: Global,
    encoder: &Encoder<'_, F>,
    blank: Blank,
) -> Result<Option<Vec<u8>>, NoMemory>
    requires name { blank.name ≡ L.name }
    requires parts { blank.parts ≡ L.parts }
    requires some { 0 < blank.parts }
{
    let mut steps = Steps::<L>::new(blank);
    let mut one_by_one = Vec::new(alloc);
    for number in 0..encoder.header().table.packets() {
        encoder.packet(number, &mut one_by_one, &mut steps)?;
    }
    let mut at_once = Vec::new(alloc);
    encoder.all(&mut at_once, &mut steps)?;
    Ok(if one_by_one == at_once {
        Some(at_once)
    } else {
        None
    })
}

/// The frames of all packets of the group, where it has so many and this need of its last layer.
fn frames_of(alloc: Global, packets: u16, need: u16) -> Result<Option<Vec<u8>>, Fail> {
    let header = header_of(packets, need)?;
    if header.table.words() != 35 {
        return Ok(None);
    }
    let field = Gf16Plain;
    let encoder = Encoder::new(alloc, &field, header, &MESSAGE)?;
    if encoder.header().group != 0 {
        return Ok(None);
    }
    Ok(made::<Gf16Plain, Brand>(alloc, &encoder, Blank::new(1))?)
}

/// The frames of the example session, which were made outside.
fn example(alloc: Global) -> Result<Vec<u8>, NoMemory> {
    let mut frames = Vec::new(alloc);
    for entry in &packets() {
        frames.extend_from_slice(&entry[2..])?;
    }
    Ok(frames)
}

#[test]
fn makes_packets_one_by_one_and_at_once(rt: HostRuntime) -> Result<(), Fail> {
    let alloc = rt.alloc();
    assert!(rt; frames_of(alloc, 6, 5)? == Some(example(alloc)?));
    assert!(rt; frames_of(alloc, 130, 130)?.is_some());
    Ok(())
}

/// The frames of as many packets as a group has at most.
fn most_frames(alloc: Global) -> Result<Option<Vec<u8>>, Fail> {
    let header = header_of(MAX_PACKETS, 130)?;
    if header.table.words() != 35 {
        return Ok(None);
    }
    let field = Gf16Tables::new(alloc)?;
    let encoder = Encoder::new(alloc, &field, header, &MESSAGE)?;
    Ok(made::<Gf16Tables, Brand>(alloc, &encoder, Blank::new(1))?)
}

#[test]
fn makes_the_most_packets_that_a_group_has(rt: HostRuntime) -> Result<(), Fail> {
    let frames = most_frames(rt.alloc())?.unwrap_or(Vec::new(rt.alloc()));
    assert!(rt; Sha256::digest(&frames) == MOST_PACKETS_DIGEST);
    Ok(())
}
