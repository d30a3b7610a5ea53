//! A group over a field that has `impl Field` alone: its packets are made, received, stored and made again. A program in Python made the
//! frames, with products by shifts.
ghost use Rattle.std.specs.Prelude.{◌≡◌, ◌<◌};

use crate::OwnField;
use by_elements::ByElements;
use hex::decode;
use packet_frame::Header;
use packet_rebuild::encoder_of;
use pet_base::Steps;
use pet_encode::Encoder;
use pet_receive::Receiver;
use std::alloc::Global;
use std::marker::Brand;
use std::sync::ledger::{Blank, Ledger};
use std::test::Fail;
use store_merge::{read_store, write_store};
use stripe_plan::{LayerSize, Table};

const SESSION: [u8; 8] = [0x10, 0x11, 0x12, 0x13, 0x14, 0x15, 0x16, 0x17];

/// One packet shows the first layer, and three show the second.
const LAYERS: [LayerSize; 2] = [
    LayerSize { length: 4, need: 1 },
    LayerSize { length: 8, need: 3 },
];

const MESSAGE: [u8; 12] = [
    0xA0, 0xA1, 0xA2, 0xA3, 0xA4, 0xA5, 0xA6, 0xA7, 0xA8, 0xA9, 0xAA, 0xAB,
];

/// The frames of packets 0 to 3, in hexadecimal digits.
static FRAMES: [&str; 4] = [
    "50455432101112131415161700000001000000000004000002000000040001000000080003a0a1a2a3a4a5aaaba505b45d2f2a8ea64e392aaad7b59135",
    "50455432101112131415161700000001000000000004000102000000040001000000080003a0a1a2a3aaabaaaba568e94bfe3cbf2008d28b6d393acc23",
    "50455432101112131415161700000001000000000004000202000000040001000000080003a0a1a2a34b38aaab7ad944fb4fc0f7ede4270ee8a6e7259f",
    "50455432101112131415161700000001000000000004000302000000040001000000080003a0a1a2a34536aaab267b495dcfe9fcae2e6515b9fccde9f4",
];

/// Whether these are the bytes of the frame of this number.
fn is_frame(alloc: Global, number: u16, bytes: &[u8]) -> bool {
    let Some(digits) = FRAMES.get(usize::from(number)) else {
        return false;
    };
    match decode(alloc, *digits) {
        Ok(frame) => frame.as_slice() == bytes,
        Err(_) => false,
    }
}

/// Whether the packets 3, 1 and 2 are the frames, and a receiver that takes them in shows both layers; the store that it has then.
fn stored<L: Ledger>(
    alloc: Global,
    field: &ByElements<OwnField>,
    steps: &mut Steps<L>,
) -> Result<Option<Vec<u8>>, Fail> {
    let table = Table::new(4, &LAYERS)?;
    if table.words() != 6 {
        return Ok(None);
    }
    let header = Header {
        session: SESSION,
        groups: 1,
        group: 0,
        table,
    };
    let encoder = Encoder::new(alloc, field, header, &MESSAGE)?;
    let mut receiver = Receiver::new(alloc, field, SESSION, 1_000);
    for number in [3u16, 1, 2] {
        if number >= encoder.header().table.packets() {
            return Ok(None);
        }
        let mut frame = Vec::new(alloc);
        encoder.packet(number, &mut frame, steps)?;
        receiver.accept(&frame, steps)?;
        if !is_frame(alloc, number, &frame) {
            return Ok(None);
        }
    }
    let shown = receiver.layer(0, 0) == Some(&MESSAGE[..4])
        && receiver.layer(0, 1) == Some(&MESSAGE[4..]);
    let mut store = Vec::new(alloc);
    write_store(&receiver, &mut store)?;
    Ok(if shown { Some(store) } else { None })
}

/// Whether packet 0 is made again from the store of the three others.
fn is_made_again<L: Ledger>(alloc: Global, blank: Blank) -> Result<bool, Fail>
    requires name { blank.name ≡ L.name }
    requires parts { blank.parts ≡ L.parts }
    requires some { 0 < blank.parts }
{
    let field = ByElements { field: OwnField };
    let mut steps = Steps::<L>::new(blank);
    let Some(store) = stored(alloc, &field, &mut steps)? else {
        return Ok(false);
    };
    let Ok(receiver) = read_store(alloc, &field, &store, 1_000, &mut steps) else {
        return Ok(false);
    };
    let Ok(encoder) = encoder_of(alloc, &field, &receiver, 0) else {
        return Ok(false);
    };
    if encoder.header().table.packets() != 4 {
        return Ok(false);
    }
    let mut frame = Vec::new(alloc);
    encoder.packet(0, &mut frame, &mut steps)?;
    Ok(is_frame(alloc, 0, &frame))
}

#[test]
fn encodes_receives_stores_and_repairs(rt: HostRuntime) -> Result<(), Fail> {
    assert!(rt; is_made_again::<Brand>(rt.alloc(), Blank::new(1))?);
    Ok(())
}
