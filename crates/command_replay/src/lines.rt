//! The lines of the layers that an event shows, and of what the receivers have kept at the end.
ghost use Rattle.std.specs.Prelude.{◌≡◌, ◌<◌, ◌≤◌, ◌^◌, ◌++◌, ℕ, List, All, Some, length, slice_get, OnOk};
ghost use Rattle.std.specs.List.{flat_map};
ghost use Rattle.field_elements.specs.Gf16.{gf16_coding};
ghost use Rattle.packet_session.specs.Session.{Session, IsSession};
ghost use Rattle.packet_met.specs.Met.{Pair};
ghost use Rattle.packet_met.specs.laws.ExactlyKept.{KeepsExactly};
ghost use Rattle.pet_receive.specs.Arrivals.{kept_set};
ghost use Rattle.pet_world.specs.ReceivedSets.{Sets};
ghost use Rattle.pet_world.specs.World.{HaveMet};
ghost use Rattle.command_replay.specs.ReplayText.{digest_of, layer_in, layer_line, store_line_of, store_lines_from};
ghost use Rattle.command_replay.specs.inside.Playing.{IsShownIn, session_in};

use pet_base::{NoMemory, Shown};
use pet_field::Gf16Tables;
use pet_receive::Receiver;
use pet_world::{MAX_RECEIVERS, World};
use sha2::{Digest, Sha256};
use std::alloc::Global;
use store_merge::write_store;
use text_world::{shown_line, store_line};

/// Appends the lines of the layers that the event of this number shows.
pub(crate) fn append_layers(
    alloc: Global,
    world: &World<'_, Gf16Tables>,
    number: u64,
    shown: &[Shown],
    text: &mut Vec<u8>,
) -> Result<(), NoMemory>
    requires session { IsSession 2 (session_in world.now) }
    requires few { length world.now.receivers ≤ MAX_RECEIVERS }
    requires shown { All (IsShownIn world.now) shown.now }
    ensures lines { OnOk result (text.new.items ≡ text.old.items
        ++ flat_map (layer_line (session_in world.now) number) shown.now) }
{
    for layer in shown {
        append_layer(alloc, world, number, *layer, text)?;
    }
    Ok(())
}

/// Appends the line of a layer that the event of this number shows.
fn append_layer(
    alloc: Global,
    world: &World<'_, Gf16Tables>,
    number: u64,
    shown: Shown,
    text: &mut Vec<u8>,
) -> Result<(), NoMemory>
    requires session { IsSession 2 (session_in world.now) }
    requires few { length world.now.receivers ≤ MAX_RECEIVERS }
    requires shown { IsShownIn world.now shown }
    ensures line { OnOk result (text.new.items ≡ text.old.items
        ++ layer_line (session_in world.now) number shown) }
{
    let bytes = layer_bytes(world, shown);
    shown_line(
        alloc,
        number,
        shown.receiver,
        shown.group,
        shown.layer,
        bytes.len() as u32,
        &digest_begin(bytes),
        text,
    )
}

/// The bytes of a layer that is shown to its receiver.
fn layer_bytes<'a>(world: &'a World<'_, Gf16Tables>, shown: Shown) -> &'a [u8]
    requires session { IsSession 2 (session_in world.now) }
    requires shown { IsShownIn world.now shown }
    ensures bytes { result.now ≡ layer_in (session_in world.now) shown }
    ensures few { length result.now < 2 ^ 32 }
{
    match receiver_of(world, shown.receiver).layer(shown.group, shown.layer) {
        Some(bytes) => bytes,
        None => unreachable!(),
    }
}

/// Appends the lines of the receivers that have kept something.
pub(crate) fn append_stores(
    alloc: Global,
    world: &World<'_, Gf16Tables>,
    text: &mut Vec<u8>,
) -> Result<(), NoMemory>
    requires session { IsSession 2 (session_in world.now) }
    requires many { length world.now.receivers ≡ MAX_RECEIVERS }
    ensures lines { OnOk result ((sets : Sets) → HaveMet gf16_coding world.now sets
        → text.new.items ≡ text.old.items ++ store_lines_from (session_in world.now) 0 sets) }
{
    for number in 0..MAX_RECEIVERS {
        append_store(alloc, number, receiver_of(world, number), text)?;
    }
    Ok(())
}

/// Appends the line of the receiver of this number, where it has kept something.
fn append_store(
    alloc: Global,
    number: u8,
    receiver: &Receiver<'_, Gf16Tables>,
    text: &mut Vec<u8>,
) -> Result<(), NoMemory>
    requires few { number < MAX_RECEIVERS }
    ensures line { OnOk result ((s : Session) (limit : ℕ) (pairs : List Pair) → IsSession 2 s
        → KeepsExactly gf16_coding s limit pairs (kept_set receiver.now)
        → text.new.items ≡ text.old.items ++ store_line_of s number pairs) }
{
    let kept = receiver.kept();
    if kept == 0 {
        return Ok(());
    }
    let mut store = Vec::new(alloc);
    write_store(receiver, &mut store)?;
    store_line(number, kept, &digest_begin(&store), text)
}

/// The receiver of a number, which is there.
fn receiver_of<'a, 'f>(world: &'a World<'f, Gf16Tables>, number: u8) -> &'a Receiver<'f, Gf16Tables>
    requires there { number < length world.now.receivers }
    ensures receiver { slice_get world.now.receivers number ≡ Some result.now }
{
    match world.receiver(number) {
        Some(receiver) => receiver,
        None => unreachable!(),
    }
}

/// The first eight bytes of the digest of these bytes.
#[tactic(auto, unfolding(crate::specs::ReplayText::digest_of))]
fn digest_begin(bytes: &[u8]) -> [u8; 8]
    ensures { result ≡ digest_of bytes.now }
{
    let digest = Sha256::digest(bytes);
    let mut begin = [0u8; 8];
    begin.copy_from_slice(&digest[..8]);
    begin
}
