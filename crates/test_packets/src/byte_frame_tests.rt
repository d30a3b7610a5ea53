//! Frames of the byte profile as their bytes, and the refusals of their neighbours. Another program made the tags, Python's
//! `hashlib`: of `b"PET8" + struct.pack(">8sIIHHB", session, groups, group, packets, number, layers)`, then
//! `struct.pack(">IH", length, need)` for each layer and the payload, they are the first 16 bytes of the SHA-256 digest.
use crate::frame_tests::{
    FRAME, GROUP, GROUPS, LAYERS, LENGTH, LENGTHS, MAGIC, NEED, NUMBER, PACKETS, Refusal, tagged,
};
use crate::group_fixtures;
use packet_frame::{ByteFrame, FrameFault, read_byte_frame, read_frame};
use std::alloc::{AllocError, Global};
use std::test::Fail;
use stripe_plan::{count, datagram_length_by, stripes};

/// Packet 4 of 6 of the only group of a session: layers of 46, 7 and 15 bytes with needs 2, 3 and 5, as in
/// the example session.
const WORKED: [u8; 88] = [
    b'P', b'E', b'T', b'8', 0, 1, 2, 3, 4, 5, 6, 7, 0, 0, 0, 1, 0, 0, 0, 0, 0, 6, 0, 4, 3, 0, 0, 0,
    46, 0, 2, 0, 0, 0, 7, 0, 3, 0, 0, 0, 15, 0, 5, 100, 101, 102, 103, 104, 105, 106, 107, 108,
    109, 110, 111, 112, 113, 114, 115, 116, 117, 118, 119, 120, 121, 122, 123, 124, 125, 126, 127,
    128, 0xC7, 0x77, 0xD2, 0x44, 0xF5, 0x79, 0x17, 0x48, 0x14, 0x02, 0x2B, 0x4A, 0x08, 0xDE, 0x69,
    0x37,
];

/// Packet 1 of 2 of the only group of a session: one layer of 3 bytes and need 1.
const SMALL: [u8; 50] = [
    b'P', b'E', b'T', b'8', 0, 1, 2, 3, 4, 5, 6, 7, 0, 0, 0, 1, 0, 0, 0, 0, 0, 2, 0, 1, 1, 0, 0, 0,
    3, 0, 1, 171, 205, 239, 0x6C, 0xA6, 0xAA, 0x3F, 0x6C, 0x2C, 0x67, 0xCB, 0x25, 0x60, 0xD2, 0xD2,
    0x0E, 0x8C, 0x1D, 0x1E,
];

/// Why these bytes are no frame of the byte profile.
fn fault_of(bytes: &[u8]) -> Refusal {
    read_byte_frame(bytes).err()
}

/// Whether the frame tells its layers, and has one byte for each of the 29 stripes of its plan.
fn is_worked(frame: &ByteFrame<'_>) -> bool {
    let plan = frame.table.plan();
    frame.session == [0, 1, 2, 3, 4, 5, 6, 7]
        && (frame.groups, frame.group, plan.packets(), frame.number) == (1, 0, 6, 4)
        && frame.table.layers() == group_fixtures::LAYERS.as_slice()
        && (stripes(plan), datagram_length_by(plan, 1)) == (29, 88)
        && (count(plan, 0), count(plan, 1), count(plan, 2)) == (2, 3, 5)
        && frame.payload == &WORKED[43..72]
}

#[test]
fn reads_the_worked_frame(rt: HostRuntime) -> Result<(), Fail> {
    assert!(rt; is_worked(&read_byte_frame(&WORKED)?));
    Ok(())
}

#[test]
fn refuses_frames_of_the_other_profile_and_short_ones(rt: HostRuntime) {
    assert!(rt; read_frame(&WORKED).err() == MAGIC);
    assert!(rt; fault_of(&FRAME) == MAGIC);
    assert!(rt; fault_of(&SMALL[..46]) == Some(FrameFault::Short));
}

/// Two places and the bytes that are set there in the small frame, the tag of these bytes, and the refusal.
type Cause = (usize, u8, usize, u8, u128, Refusal);

static CAUSES: [Cause; 17] = [
    // another mark
    (1, 70, 1, 70, 0x5E7714C006E2F3F021250BF300E92FCB, MAGIC),
    (15, 0, 15, 0, 0x297B606E2152A4EB13D3A95AFAF2CE6A, GROUPS),
    // 65,536 groups
    (13, 1, 15, 0, 0x940EA4BECD49DA862BB704DB9E08D329, GROUPS),
    (19, 1, 19, 1, 0x315E07C8AA17E7701289608DB8833D1A, GROUP),
    (21, 0, 21, 0, 0x719B9ED938AB09ABD6F0CCB9A3857E10, PACKETS),
    // 256 packets
    (20, 1, 21, 0, 0xFBE6B68B3614F0308E001B3016FA1255, PACKETS),
    // 255 packets
    (21, 255, 21, 255, 0xCD3523176F680A4E4254A47749A681DE, None),
    (23, 2, 23, 2, 0x492219E043C2FDEFF8CDD59FA9E6DD01, NUMBER),
    (24, 0, 24, 0, 0x2355F71C1E88DE856F4A2C4C5711479C, LAYERS),
    (24, 33, 24, 33, 0xBB9F0AF1C9130A712EEE03536D8524D0, LAYERS),
    // no room for two layers
    (24, 2, 24, 2, 0x7478DB34200FCBB463168BF87ABB46AC, LENGTH),
    (30, 0, 30, 0, 0x646D1C14AA2E6F194828A758145436A4, NEED),
    (30, 3, 30, 3, 0x8589B5F6E5068737BFBAF2C0B7423C8A, NEED),
    // 2,097,153 bytes
    (26, 32, 28, 1, 0x6F2A622B945A1D6687D7D596A60EA921, LENGTHS),
    // 2,097,152 bytes
    (26, 32, 28, 0, 0xAD7D1E8D80A21AAB85EE5DBD1C0DC889, LENGTH),
    // a stripe more, and one less
    (28, 4, 28, 4, 0xD83D38B52985E8F936231ABC81E532A0, LENGTH),
    (28, 2, 28, 2, 0x7BF9E8893509DE32F74594A055DAA395, LENGTH),
];

/// Whether the small frame with the bytes of a cause is refused so, and with the tag that it had by its tag, if by any.
fn is_so(alloc: Global, cause: &Cause) -> Result<bool, AllocError> {
    let mut bytes = [0u8; 34];
    bytes.copy_from_slice(&SMALL[..34]);
    if cause.0 < 34 && cause.2 < 34 {
        bytes[cause.0] = cause.1;
        bytes[cause.2] = cause.3;
    }
    let frame = tagged(alloc, &bytes, &u128::to_be_bytes(cause.4))?;
    let other = tagged(alloc, &bytes, &SMALL[34..])?;
    Ok(fault_of(&frame) == cause.5 && fault_of(&other) == cause.5.or(Some(FrameFault::Tag)))
}

#[test]
fn answers_the_first_cause(rt: HostRuntime) {
    let alloc = rt.alloc();
    let other = CAUSES.iter().position(|row| is_so(alloc, row) != Ok(true));
    assert_eq!(rt; other, None);
}

/// The stripes of a frame of one layer of as many bytes, all 0, its tag, and the refusal.
type Long = (u32, u128, Refusal);

// at two bytes a stripe these would be frames of 64,999 and 65,001 bytes
static LONG: [Long; 2] = [
    (32476, 0x32C2450092E8ACDAAA64D8D32647990E, None),
    (32477, 0x2A2283E255E4067EE08D31DD71D4CC48, LENGTH),
];

/// Whether the small frame with so long a layer and payload is refused so.
fn is_refused_long(alloc: Global, row: &Long) -> Result<bool, AllocError> {
    let mut bytes = Vec::from_slice(alloc, &SMALL[..25])?;
    bytes.extend_from_slice(&row.0.to_be_bytes())?;
    bytes.extend_from_slice(&[0, 1])?;
    for _ in 0..row.0 {
        bytes.push(0)?;
    }
    bytes.extend_from_slice(&u128::to_be_bytes(row.1))?;
    Ok(fault_of(&bytes) == row.2)
}

#[test]
fn bounds_frames_by_two_bytes_a_stripe(rt: HostRuntime) {
    assert!(rt; is_refused_long(rt.alloc(), &LONG[0]).unwrap_or(false));
    assert!(rt; is_refused_long(rt.alloc(), &LONG[1]).unwrap_or(false));
}
