//! Worlds under scripts: what each event shows, and what the receivers have kept then.
ghost use Rattle.std.specs.Prelude.{◌≡◌, ◌<◌};

use crate::script_rows::{ROWS, Row};
use crate::world_fixtures::{world_of_one, world_of_two};
use field_elements::Gf16Plain;
use pet_base::Steps;
use pet_receive::Receiver;
use pet_world::{Event, World, WorldFault};
use sha2::{Digest, Sha256};
use std::alloc::Global;
use std::marker::Brand;
use std::sync::ledger::{Blank, Ledger};
use std::test::Fail;
use store_merge::write_store;
use text_script::read_script;

/// The example's script: two receivers with a packet each, of which the first takes in the second, and then again.
const EXAMPLE: &str = "give A 0 0\ngive B 0 1\njoin A B\nreopen A\njoin A B\n";

/// The layer that its third event shows, and nothing else.
const EXAMPLE_SHOWN: [(usize, u8, u32, u8); 1] = [(3, 0, 0, 0)];

/// The first 8 bytes of the SHA-256 digests of that layer's 46 bytes, and of the stores of both receivers. A program in
/// Python has them of the message and of the packets that another program made.
const LAYER_DIGEST: [u8; 8] = [0x19, 0x4A, 0xFB, 0x7A, 0x27, 0x9A, 0x5B, 0x89];

const STORE_DIGESTS: [[u8; 8]; 2] = [
    [0xE5, 0x8B, 0x8D, 0x2B, 0xD1, 0x5C, 0xCB, 0x4D],
    [0x25, 0x9D, 0xC6, 0x61, 0x23, 0xB8, 0xCA, 0x42],
];

/// Whether the events of a script, carried out one by one, show exactly these layers.
fn shows<L: Ledger>(
    world: &mut World<'_, Gf16Plain>,
    events: &[Event],
    wanted: &[(usize, u8, u32, u8)],
    steps: &mut Steps<L>,
) -> Result<bool, WorldFault> {
    let mut told = 0;
    for index in 0..events.len() {
        for layer in &world.step(events[index], steps)? {
            let layer = (index + 1, layer.receiver, layer.group, layer.layer);
            if told >= wanted.len() || wanted[told] != layer {
                return Ok(false);
            }
            told += 1;
        }
    }
    Ok(told == wanted.len())
}

/// Whether each of eight receivers has kept so many packets.
fn keeps(world: &World<'_, Gf16Plain>, kept: &[u32; 8]) -> bool {
    for number in 0..8u8 {
        match world.receiver(number) {
            Some(receiver) if receiver.kept() == kept[usize::from(number)] => {}
            _ => return false,
        }
    }
    true
}

/// Whether the script of a row shows and leaves what the row says.
fn plays<L: Ledger>(alloc: Global, row: &Row, blank: Blank) -> Result<bool, Fail>
    requires name { blank.name ≡ L.name }
    requires parts { blank.parts ≡ L.parts }
    requires some { 0 < blank.parts }
{
    let field = Gf16Plain;
    let mut steps = Steps::<L>::new(blank);
    let mut world = world_of_two(alloc, &field, 8)?;
    let events = read_script(alloc, row.script.as_bytes(), 2, 6)?;
    Ok(shows(&mut world, &events, row.shown, &mut steps)? && keeps(&world, &row.kept))
}

/// The first row whose script shows or leaves something else.
fn first_other(alloc: Global, rows: &[Row]) -> Result<Option<usize>, Fail> {
    for row in 0..rows.len() {
        if !plays::<Brand>(alloc, &rows[row], Blank::new(1))? {
            return Ok(Some(row));
        }
    }
    Ok(None)
}

#[test]
fn scripts_show_and_keep_what_sets_of_pairs_do(rt: HostRuntime) -> Result<(), Fail> {
    assert_eq!(rt; first_other(rt.alloc(), &ROWS)?, None);
    Ok(())
}

/// Whether the store of a receiver has this digest.
fn has_store(
    alloc: Global,
    receiver: Option<&Receiver<'_, Gf16Plain>>,
    digest: [u8; 8],
) -> Result<bool, Fail> {
    let Some(receiver) = receiver else {
        return Ok(false);
    };
    let mut store = Vec::new(alloc);
    write_store(receiver, &mut store)?;
    Ok(Sha256::digest(&store)[..8] == digest[..])
}

/// Whether the first layer of the receiver's group has its bytes.
fn has_layer(receiver: Option<&Receiver<'_, Gf16Plain>>) -> bool {
    let Some(receiver) = receiver else {
        return false;
    };
    match receiver.layer(0, 0) {
        Some(bytes) => bytes.len() == 46 && Sha256::digest(bytes)[..8] == LAYER_DIGEST[..],
        None => false,
    }
}

/// Whether the example's script shows and leaves what it should.
fn plays_example<L: Ledger>(alloc: Global, blank: Blank) -> Result<bool, Fail>
    requires name { blank.name ≡ L.name }
    requires parts { blank.parts ≡ L.parts }
    requires some { 0 < blank.parts }
{
    let field = Gf16Plain;
    let mut steps = Steps::<L>::new(blank);
    let mut world = world_of_one(alloc, &field, 8)?;
    let events = read_script(alloc, EXAMPLE.as_bytes(), 1, 6)?;
    if !shows(&mut world, &events, &EXAMPLE_SHOWN, &mut steps)? {
        return Ok(false);
    }
    Ok(
        has_layer(world.receiver(0))
            && has_store(alloc, world.receiver(0), STORE_DIGESTS[0])?
            && has_store(alloc, world.receiver(1), STORE_DIGESTS[1])?,
    )
}

#[test]
fn plays_the_example_script(rt: HostRuntime) -> Result<(), Fail> {
    assert!(rt; plays_example::<Brand>(rt.alloc(), Blank::new(1))?);
    Ok(())
}
