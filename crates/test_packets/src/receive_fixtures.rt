//! Packets whose frames were made outside, by a program of another language: their tags are its own.
use packet_verdicts::{LayerSet, Verdict};
use std::alloc::{AllocError, Global};

/// A group: the last byte of its session's number, whose others are 0 to 6, how many groups the session has, which of them it is,
/// how many packets it has, and its layers, so many of each length and need.
pub(crate) type Group = (u8, u32, u32, u16, &'static [(u8, u32, u16)]);

/// A packet: its group, its number, its payload, and the tag of its frame.
pub(crate) type Packet = (Group, u16, &'static [u8], u128);

/// A datagram and its verdict, where those before it in its row have come: the frame of a packet, or no byte.
pub(crate) type Judged = (Option<Packet>, Verdict);

/// The frame of a packet.
pub(crate) fn frame_of(alloc: Global, packet: &Packet) -> Result<Vec<u8>, AllocError> {
    let (session, groups, group, packets, layers) = packet.0;
    let mut table = Vec::new(alloc);
    for (many, length, need) in layers {
        for _ in 0..*many {
            table.extend_from_slice(&length.to_be_bytes())?;
            table.extend_from_slice(&need.to_be_bytes())?;
        }
    }
    let mut frame = Vec::from_slice(alloc, b"PET2")?;
    frame.extend_from_slice(&[0, 1, 2, 3, 4, 5, 6, session])?;
    frame.extend_from_slice(&groups.to_be_bytes())?;
    frame.extend_from_slice(&group.to_be_bytes())?;
    frame.extend_from_slice(&packets.to_be_bytes())?;
    frame.extend_from_slice(&packet.1.to_be_bytes())?;
    frame.push((table.len() / 6 % 256) as u8)?;
    frame.extend_from_slice(&table)?;
    frame.extend_from_slice(packet.2)?;
    frame.extend_from_slice(&packet.3.to_be_bytes())?;
    Ok(frame)
}

/// The bytes of a datagram.
pub(crate) fn datagram_of(alloc: Global, packet: &Option<Packet>) -> Result<Vec<u8>, AllocError> {
    match packet {
        Some(packet) => frame_of(alloc, packet),
        None => Ok(Vec::new(alloc)),
    }
}

/// A kept packet that newly shows no layer, layer 0, and layer 1.
pub(crate) const SHOWS_NONE: Verdict = Verdict::Kept(LayerSet { bits: 0 });

pub(crate) const SHOWS_0: Verdict = Verdict::Kept(LayerSet { bits: 1 });

const SHOWS_1: Verdict = Verdict::Kept(LayerSet { bits: 2 });

/// Packets of the words 5 and 7, in one stripe: one also of a session with another number, and one of group 258 of 515.
const WORDS: Group = (7, 1, 0, 4, &[(1, 4, 2)]);

pub(crate) const WORDS_1: Packet = (WORDS, 1, &[0x00, 0x02], 0x7517FE6796D6D15A9F9369BE076350B8);

pub(crate) const WORDS_3: Packet = (WORDS, 3, &[0x00, 0x0C], 0xB383844FE8E8E1B9143EC0B0B17BEA1C);

pub(crate) const OF_ANOTHER_SESSION: Packet = (
    (8, 1, 0, 4, &[(1, 4, 2)]),
    1,
    &[0x00, 0x02],
    0x73EFEF5175E5EE49DDC36AB3EB6CC6C0,
);

pub(crate) const IN_GROUP_258: Packet = (
    (7, 515, 258, 4, &[(1, 4, 2)]),
    1,
    &[0x00, 0x02],
    0xAD2188FCF08CD2A4455EE32895291DB2,
);

/// Packets of the bytes 1 to 7, in two stripes.
const SEVEN: Group = (7, 1, 0, 3, &[(1, 7, 2)]);

pub(crate) const SEVEN_0: Packet = (
    SEVEN,
    0,
    &[0x01, 0x02, 0x05, 0x06],
    0x64C6FCD5FE996A93279DC7A7C0C2B12D,
);

pub(crate) const SEVEN_2: Packet = (
    SEVEN,
    2,
    &[0x07, 0x0A, 0x0B, 0x06],
    0xEC9474596B6C203906F43D6EE795F91F,
);

/// The group of the example stream, under the session number of the others here, and that of a session of two groups.
const STREAM: Group = (7, 1, 0, 6, &[(1, 46, 2), (1, 7, 3), (1, 15, 5)]);

const OF_TWO: Group = (7, 2, 0, 6, &[(1, 46, 2), (1, 7, 3), (1, 15, 5)]);

/// Packet 0 of 6 of the example stream, and the same as of a session of two groups.
const PAYLOAD_0: [u8; 30] = [
    0x00, 0x00, 0x00, 0x00, 0x12, 0x01, 0x00, 0x07, 0x00, 0x00, 0x00, 0x00, 0x00, 0x00, 0x11, 0x22,
    0x01, 0xB8, 0x00, 0x01, 0x08, 0x44, 0x01, 0xB7, 0x01, 0x00, 0x00, 0x00, 0x00, 0x00,
];

pub(crate) const EXAMPLE: Packet = (STREAM, 0, &PAYLOAD_0, 0x98B0F7320FEE4FA3F390DF7153FEC9B1);

pub(crate) const OF_TWO_GROUPS: Packet = (
    OF_TWO,
    0,
    &PAYLOAD_0,
    0xB3AB8FDD4AEC4FBEF1FE036345D06FDC,
);

/// Packet 2.
const PAYLOAD_2: [u8; 30] = [
    0x00, 0x08, 0x00, 0x00, 0x12, 0x01, 0x04, 0x07, 0x1E, 0x00, 0x00, 0x08, 0x03, 0x66, 0x11, 0x22,
    0x67, 0xB8, 0x00, 0x01, 0x08, 0x44, 0x01, 0xB7, 0x45, 0x2B, 0x02, 0x6D, 0xFC, 0xE5,
];

pub(crate) const EXAMPLE_2: Packet = (STREAM, 2, &PAYLOAD_2, 0x8CB7A1C98CFF3CAD4D5670007E05F9CA);

/// Packet 5, and the same with a bit flipped.
const PAYLOAD_5: [u8; 30] = [
    0x00, 0x14, 0x00, 0x00, 0x12, 0x01, 0x0A, 0x07, 0x33, 0x00, 0x00, 0x14, 0x07, 0x7F, 0x11, 0x22,
    0xFE, 0xB8, 0x00, 0x01, 0x08, 0x44, 0x01, 0xB7, 0x54, 0x77, 0xEB, 0x40, 0x0E, 0x9A,
];

pub(crate) const EXAMPLE_5: Packet = (STREAM, 5, &PAYLOAD_5, 0xF6A3831D307B06D09C15BFDBCE13A80C);

const OTHER_PAYLOAD: [u8; 30] = [
    0x01, 0x14, 0x00, 0x00, 0x12, 0x01, 0x0A, 0x07, 0x33, 0x00, 0x00, 0x14, 0x07, 0x7F, 0x11, 0x22,
    0xFE, 0xB8, 0x00, 0x01, 0x08, 0x44, 0x01, 0xB7, 0x54, 0x77, 0xEB, 0x40, 0x0E, 0x9A,
];

pub(crate) const FLIPPED: Packet = (
    STREAM,
    5,
    &OTHER_PAYLOAD,
    0xF6A3831D307B06D09C15BFDBCE13A80C,
);

/// Layer 0 of the example stream: its run table and its runs.
pub(crate) const EXAMPLE_LAYER: [u8; 46] = [
    0x00, 0x00, 0x00, 0x04, 0x00, 0x00, 0x00, 0x00, 0x12, 0x01, 0x00, 0x00, 0x00, 0x07, 0x02, 0x00,
    0x00, 0x00, 0x0F, 0x00, 0x00, 0x00, 0x00, 0x04, 0x00, 0x00, 0x01, 0xB3, 0x11, 0x22, 0x00, 0x00,
    0x01, 0xB8, 0x33, 0x00, 0x00, 0x01, 0x00, 0x00, 0x08, 0x44, 0x00, 0x00, 0x01, 0xB7,
];

/// The group of a stream of a sequence header and an I picture: layer 0 has 20 bytes and need 2, and layers 1 and 2 have none.
const EMPTY: Group = (7, 1, 0, 6, &[(1, 20, 2), (1, 0, 3), (1, 0, 5)]);

pub(crate) const EMPTY_LAYERS_0: Packet = (
    EMPTY,
    0,
    &[0x00, 0x00, 0x00, 0x00, 0x0B, 0x00, 0xB3, 0x00, 0x00, 0x00],
    0x82BB4DF0F92BEF42A5647D8441BF654E,
);

pub(crate) const EMPTY_LAYERS_1: Packet = (
    EMPTY,
    1,
    &[0x00, 0x01, 0x00, 0x00, 0x0B, 0x01, 0xB3, 0x01, 0x08, 0x44],
    0x7964C3566D3321B118157CBAC300EA8B,
);

/// Layer 0 of the same stream: its run table, of one run of 11 bytes, and that run.
pub(crate) const ONLY_LAYER: [u8; 20] = [
    0x00, 0x00, 0x00, 0x01, 0x00, 0x00, 0x00, 0x00, 0x0B, 0x00, 0x00, 0x01, 0xB3, 0x00, 0x00, 0x01,
    0x00, 0x00, 0x08, 0x44,
];

/// The only packet of 32 layers: the last has two bytes, and the others none.
pub(crate) const EVERY_LAYER: Packet = (
    (7, 1, 0, 1, &[(31, 0, 1), (1, 2, 1)]),
    0,
    &[0x12, 0x34],
    0x8217FD6D963423EB9542371B6E64964B,
);

/// Layer 1 of two layers.
pub(crate) const SHORT_LAYER: [u8; 6] = [0x15, 0x14, 0x17, 0x16, 0x19, 0x18];

/// Layer 0 of two layers.
pub(crate) const LONG_LAYER: [u8; 20] = [
    0x01, 0x00, 0x03, 0x02, 0x05, 0x04, 0x07, 0x06, 0x09, 0x08, 0x0B, 0x0A, 0x0D, 0x0C, 0x0F, 0x0E,
    0x11, 0x10, 0x13, 0x12,
];

/// Two layers: 20 bytes of need 10, and 6 bytes of need 20.
const TWO: Group = (7, 1, 0, 20, &[(1, 20, 10), (1, 6, 20)]);

/// Packets 0 to 9 of 20 of two layers, with their verdicts.
pub(crate) const TWO_LAYERS: &[Judged] = &[
    (
        Some((
            TWO,
            0,
            &[0x01, 0x00, 0x15, 0x14],
            0xADDC000E0A5937CC0829258ED3F02453,
        )),
        SHOWS_NONE,
    ),
    (
        Some((
            TWO,
            1,
            &[0x02, 0x02, 0x1B, 0x1A],
            0x61972BD57D634D5C2BCB897AA5AFE5B7,
        )),
        SHOWS_NONE,
    ),
    (
        Some((
            TWO,
            2,
            &[0x3B, 0x3F, 0x5F, 0x58],
            0xCC6252BCB88834690478DA5623C91912,
        )),
        SHOWS_1,
    ),
    (
        Some((
            TWO,
            3,
            &[0xD4, 0x0D, 0x51, 0x56],
            0xD075C29AAF68941E765F3FB37418AFC6,
        )),
        SHOWS_NONE,
    ),
    (
        Some((
            TWO,
            4,
            &[0xCE, 0x38, 0xC8, 0xC7],
            0xDB9A298702B288A1577982DEEDA7E8A3,
        )),
        SHOWS_NONE,
    ),
    (
        Some((
            TWO,
            5,
            &[0xDE, 0x6F, 0xC6, 0xC9],
            0x12535F19EF886222A07FD3A173081BE9,
        )),
        SHOWS_NONE,
    ),
    (
        Some((
            TWO,
            6,
            &[0xA9, 0x70, 0x82, 0x8B],
            0x766351EDE57ED998639E26CF60F6ED38,
        )),
        SHOWS_NONE,
    ),
    (
        Some((
            TWO,
            7,
            &[0x7C, 0xA8, 0x8C, 0x85],
            0xABDD3E5F93C22866B41BD5B5CFEDC480,
        )),
        SHOWS_NONE,
    ),
    (
        Some((
            TWO,
            8,
            &[0x47, 0xD2, 0x8B, 0x9E],
            0xB392F1A1A2F4BB364DE5D01E574BF1FE,
        )),
        SHOWS_NONE,
    ),
    (
        Some((
            TWO,
            9,
            &[0x2A, 0x6A, 0x85, 0x90],
            0x31E8A3747DF43E465C56335F68614EEA,
        )),
        SHOWS_0,
    ),
];
