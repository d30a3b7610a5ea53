//! A small frame of each version as its bytes, the refusals of their neighbours, and each change of one bit. The tags were
//! made by another program.
use packet_frame::{Field1, FrameFault, Header, read_frame, read_old_frame, write_frame};
use std::alloc::{AllocError, Global};
use std::test::Fail;
use stripe_plan::{LayerSize, Table, datagram_length};

/// Packet 1 of 2 of the only group of a session: one layer of 3 bytes and need 1.
pub const FRAME: [u8; 51] = [
    b'P', b'E', b'T', b'2', 0, 1, 2, 3, 4, 5, 6, 7, 0, 0, 0, 1, 0, 0, 0, 0, 0, 2, 0, 1, 1, 0, 0, 0,
    3, 0, 1, 0xAB, 0xCD, 0xEF, 0, 0x3A, 0x1B, 0x65, 0x06, 0xD1, 0x75, 0x88, 0xD0, 0x26, 0x0F, 0x80,
    0xED, 0x45, 0xE0, 0x9D, 0xE1,
];

/// The same packet in a frame of the first version.
const OLD_FRAME: [u8; 43] = [
    b'P', b'E', b'T', b'1', 0, 1, 2, 3, 4, 5, 6, 7, 0, 0, 0, 1, 0, 0, 0, 0, 0, 2, 0, 1, 1, 0, 0, 0,
    3, 0, 1, 0xAB, 0xCD, 0xEF, 0, 0x43, 0xE1, 0x4A, 0x0C, 0x5E, 0x82, 0xAC, 0x8B,
];

/// The bytes and a tag.
pub fn tagged(alloc: Global, bytes: &[u8], tag: &[u8]) -> Result<Vec<u8>, AllocError> {
    let mut frame = Vec::from_slice(alloc, bytes)?;
    frame.extend_from_slice(tag)?;
    Ok(frame)
}

/// The session of the frames, their payload, and their only layer.
const SESSION: [u8; 8] = [0, 1, 2, 3, 4, 5, 6, 7];

const PAYLOAD: [u8; 4] = [0xAB, 0xCD, 0xEF, 0];

const ONE_LAYER: [LayerSize; 1] = [LayerSize { length: 3, need: 1 }];

/// Why these bytes are no frame.
fn fault_of(bytes: &[u8]) -> Refusal {
    read_frame(bytes).err()
}

/// Why they are no frame of the first version.
fn old_fault_of(bytes: &[u8]) -> Refusal {
    read_old_frame(bytes).err()
}

/// Whether the small frame is read as what it says.
fn reads_small() -> Result<bool, Fail> {
    let frame = read_frame(&FRAME)?;
    let header = &frame.header;
    Ok(
        header.session == SESSION
            && (header.groups, header.group) == (1, 0)
            && header.table == Table::new(2, &ONE_LAYER)?
            && header.clone()?.table == header.table
            && frame.number == 1
            && frame.payload == PAYLOAD.as_slice(),
    )
}

/// Whether the small frame of the first version is.
fn reads_old_small() -> Result<bool, Fail> {
    let frame = read_old_frame(&OLD_FRAME)?;
    Ok(
        frame.session == SESSION
            && (frame.groups, frame.group) == (1, 0)
            && frame.table.packets() == 2
            && frame.table.layers() == ONE_LAYER.as_slice()
            && frame.number == 1
            && frame.payload == PAYLOAD.as_slice(),
    )
}

#[test]
fn reads_the_small_frames(rt: HostRuntime) -> Result<(), Fail> {
    assert!(rt; reads_small()? && reads_old_small()?);
    Ok(())
}

/// Whether the small frame is written behind what is there.
fn writes_small(alloc: Global) -> Result<bool, Fail> {
    let header = Header {
        session: SESSION,
        groups: 1,
        group: 0,
        table: Table::new(2, &ONE_LAYER)?,
    };
    if header.table.packets() != 2 || datagram_length(&header.table) != 51 {
        return Ok(false);
    }
    let mut bytes = Vec::from_slice(alloc, b"front")?;
    write_frame(&header, 1, &PAYLOAD, &mut bytes)?;
    Ok(bytes.len() == 56 && bytes.ends_with(&FRAME))
}

#[test]
fn writes_the_small_frame(rt: HostRuntime) -> Result<(), Fail> {
    assert!(rt; writes_small(rt.alloc())?);
    Ok(())
}

#[test]
fn refuses_frames_of_the_other_version_and_short_ones(rt: HostRuntime) {
    assert!(rt; fault_of(&OLD_FRAME) == Some(FrameFault::Short));
    assert!(rt; old_fault_of(&FRAME) == MAGIC);
    assert!(rt; fault_of(&FRAME[..46]) == Some(FrameFault::Short));
    assert!(rt; old_fault_of(&OLD_FRAME[..38]) == Some(FrameFault::Short));
}

/// Why bytes are no frame, where they are none.
pub type Refusal = Option<FrameFault>;

pub const MAGIC: Refusal = Some(FrameFault::Magic);

pub const LENGTH: Refusal = Some(FrameFault::Length);

pub const GROUPS: Refusal = Some(FrameFault::Range(Field1::Groups));

pub const GROUP: Refusal = Some(FrameFault::Range(Field1::Group));

pub const PACKETS: Refusal = Some(FrameFault::Range(Field1::Packets));

pub const NUMBER: Refusal = Some(FrameFault::Range(Field1::Number));

pub const LAYERS: Refusal = Some(FrameFault::Range(Field1::Layers));

pub const NEED: Refusal = Some(FrameFault::Range(Field1::Need));

pub const LENGTHS: Refusal = Some(FrameFault::Range(Field1::Lengths));

/// Two places and the bytes that are set there in the frame of each version, and the refusal.
type Cause = (usize, u8, usize, u8, Refusal);

static CAUSES: [Cause; 15] = [
    (1, 70, 1, 70, MAGIC),
    (15, 0, 15, 0, GROUPS),
    (13, 1, 15, 0, GROUPS),
    (19, 1, 19, 1, GROUP),
    (21, 0, 21, 0, PACKETS),
    (20, 16, 21, 1, PACKETS),
    (23, 2, 23, 2, NUMBER),
    (24, 0, 24, 0, LAYERS),
    (24, 33, 24, 33, LAYERS),
    (24, 2, 24, 2, LENGTH),
    (30, 0, 30, 0, NEED),
    (30, 3, 30, 3, NEED),
    (26, 64, 28, 1, LENGTHS),
    (28, 4, 28, 4, None),
    (28, 5, 28, 5, LENGTH),
];

/// The tags of these bytes, by cause.
static TAGS: [(u128, u64); 15] = [
    (0x2F01C8A4F9286BF3D934BD86FBAC4400, 0x415EDBCD86CE627B),
    (0xACDFA5CFC747D7E98B7B7E64E37AB007, 0xB5BDAC055F7E1DE9),
    (0x4C665EC4BFCAE50296198E512293C55F, 0xDD0B05FF65F2FF09),
    (0x1A7470A91C1D6C337CE6A0BF5BBCC915, 0x19AA227899DD81A4),
    (0xD82BC341B61682EA688E54FA1C1F6924, 0x80C6C07D50818E9D),
    (0x854716D99F4D9685062E1BDCDB08FCDA, 0x5CC6030D9ABA579B),
    (0x0F3FEF54CC25F217DF31FF34EF21CFF0, 0x635116BCBC305BCF),
    (0xE671935CAB65C881E3EF62ACA8437B2F, 0x226E3AA676C0871E),
    (0xF88E902202F44FF277EB717E79352443, 0x2EBECEBDEFF58775),
    (0xE6612F879BB7850E785588B53F18E6D9, 0x7A6DB7999410C6F7),
    (0x0D0909A45C19686CA843F17F346FAF5B, 0x46FB63ABF1E39478),
    (0x40495369F3F84D158D037AEFC1307374, 0x18F2970313ECCFC4),
    (0xD975147837F2177C10283091BD3C5E1A, 0x3D2EB966464EDC16),
    (0x73CBEB51D47D2588B26B10CEAC4D57E9, 0x4751C2600725DFCF),
    (0x148C41C30194353E9AF770CCF34078D6, 0x80E93915B9B9D4B8),
];

/// The front of the small frame with the bytes of a cause.
fn changed(cause: &Cause) -> [u8; 35] {
    let mut bytes = [0u8; 35];
    bytes.copy_from_slice(&FRAME[..35]);
    if cause.0 < 35 && cause.2 < 35 {
        bytes[cause.0] = cause.1;
        bytes[cause.2] = cause.3;
    }
    bytes
}

/// Whether the frames of both versions with these bytes and tags are refused so.
fn is_so(alloc: Global, cause: &Cause, tags: &(u128, u64)) -> Result<bool, AllocError> {
    let mut bytes = changed(cause);
    let frame = tagged(alloc, &bytes, &u128::to_be_bytes(tags.0))?;
    bytes[3] = b'1';
    let old_frame = tagged(alloc, &bytes, &u64::to_be_bytes(tags.1))?;
    Ok(fault_of(&frame) == cause.4 && old_fault_of(&old_frame) == cause.4)
}

#[test]
fn answers_the_first_cause(rt: HostRuntime) {
    let alloc = rt.alloc();
    let mut rows = CAUSES.iter().zip(&TAGS);
    let other = rows.position(|(cause, tags)| is_so(alloc, cause, tags) != Ok(true));
    assert_eq!(rt; other, None);
}

/// What stands behind the packet's number, the tags of these bytes, and the refusal.
type Rest = (&'static [u8], u128, u64, Refusal);

static RESTS: [Rest; 3] = [
    // one byte more before the tag
    (
        &[1, 0, 0, 0, 3, 0, 1, 171, 205, 239, 0, 0],
        0xDA68C00DBF69666AB40E59ACD5ABC2B7,
        0x8CDF6E80C8DA29B6,
        Some(FrameFault::Length),
    ),
    // no payload
    (
        &[1, 0, 0, 0, 0, 0, 1],
        0x54D91691DD4C30BEBF2DFCC04427E987,
        0x4F32A1CA1B88E6D7,
        None,
    ),
    // needs that fall
    (
        &[2, 0, 0, 0, 2, 0, 2, 0, 0, 0, 2, 0, 1, 1, 1, 2, 2],
        0x96815AC702099FDC6048B51ADA16810A,
        0x6A58847C1ADDB72A,
        None,
    ),
];

/// Whether the frames of both versions that end so are refused so, and the latter as one of the former by its magic, where it is
/// long enough to be one.
fn are_so(alloc: Global, row: &Rest) -> Result<bool, AllocError> {
    let bytes = tagged(alloc, &FRAME[..24], row.0)?;
    let frame = tagged(alloc, &bytes, &u128::to_be_bytes(row.1))?;
    let old_bytes = tagged(alloc, &OLD_FRAME[..24], row.0)?;
    let old_frame = tagged(alloc, &old_bytes, &u64::to_be_bytes(row.2))?;
    Ok(
        fault_of(&frame) == row.3
            && old_fault_of(&old_frame) == row.3
            && (old_frame.len() < 47 || fault_of(&old_frame) == MAGIC),
    )
}

#[test]
fn reads_other_layers(rt: HostRuntime) {
    let alloc = rt.alloc();
    let other = RESTS.iter().position(|row| are_so(alloc, row) != Ok(true));
    assert_eq!(rt; other, None);
}

/// Changes a bit of the bytes.
fn change(bytes: &mut [u8], bit: usize) {
    if let Some(byte) = bytes.get_mut(bit / 8) {
        *byte ^= 1 << (bit % 8);
    }
}

/// Whether the small frame is refused with this bit changed.
fn refuses_change(bit: usize) -> bool {
    let mut bytes = FRAME;
    change(&mut bytes, bit);
    fault_of(&bytes).is_some()
}

/// Whether the small frame of the first version is.
fn refuses_old_change(bit: usize) -> bool {
    let mut bytes = OLD_FRAME;
    change(&mut bytes, bit);
    old_fault_of(&bytes).is_some()
}

#[test]
fn refuses_each_change_of_one_bit(rt: HostRuntime) {
    for bit in 0..408usize {
        assert!(rt; refuses_change(bit), "bit {bit}");
    }
    for bit in 0..344usize {
        assert!(rt; refuses_old_change(bit), "bit {bit}");
    }
}
