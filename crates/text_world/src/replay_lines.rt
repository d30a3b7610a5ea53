//! The lines of `replay`.
ghost use Rattle.std.specs.Prelude.{◌≡◌, ◌<◌, ◌++◌, [], OnOk, OnErr};
ghost use Rattle.text_world.specs.ReplayLines.{event_text, layer_text, shown_text, kept_text};

use arrayvec::ArrayVec;
use pet_base::NoMemory;
use std::alloc::Global;
use text_pieces::{append_byte, append_count, append_number, append_session, append_text};

/// Appends the line of a layer that an event shows: the event's number in the script, from 1; the receiver, 0 to 7, by its
/// letter; the group and the layer, from 0; the bytes of the layer, and the first eight of their digest. After a refusal
/// `into` is as before.
pub fn shown_line(
    alloc: Global,
    event: u64,
    receiver: u8,
    group: u32,
    layer: u8,
    bytes: u32,
    digest: &[u8; 8],
    into: &mut Vec<u8>,
) -> Result<(), NoMemory>
    requires { receiver < 8 }
    ensures ok { OnOk result (into.new.items ≡ into.old.items
        ++ shown_text event receiver group layer bytes digest.now) }
    ensures err { OnErr result (into.new.items ≡ into.old.items) }
{
    let mut begin = ArrayVec::<u8, 64>::new();
    append_event(event, receiver, group, layer, &mut begin);
    let mut end = ArrayVec::<u8, 64>::new();
    append_layer(bytes, digest, &mut end);
    let mut line = Vec::new(alloc);
    line.extend_from_slice(begin.as_slice())?;
    line.extend_from_slice(end.as_slice())?;
    into.extend_from_slice(line.as_slice())?;
    Ok(())
}

/// Leaves the begin of a line in `into`, which must be empty: the event, the receiver, the group and the layer, at most 64
/// bytes.
fn append_event(event: u64, receiver: u8, group: u32, layer: u8, into: &mut ArrayVec<u8, 64>)
    requires known { receiver < 8 }
    requires begun { into.old.items ≡ [] }
    ensures { into.new.items ≡ event_text event receiver group layer }
{
    append_text("event ", into);
    append_number(event, into);
    append_text(" receiver ", into);
    into.push(b'A' + receiver);
    append_text(" group ", into);
    append_count(group, into);
    append_text(" layer ", into);
    append_byte(layer, into);
}

/// Leaves the end of a line in `into`, which must be empty: the bytes of a layer, and their digest.
fn append_layer(bytes: u32, digest: &[u8; 8], into: &mut ArrayVec<u8, 64>)
    requires { into.old.items ≡ [] }
    ensures { into.new.items ≡ layer_text bytes digest.now }
{
    append_text(" bytes ", into);
    append_count(bytes, into);
    append_text(" digest ", into);
    append_session(digest, into);
    append_text("\n", into);
}

/// Appends the line of a receiver at the end of the script: the receiver, 0 to 7, by its letter; the datagrams of its store,
/// and the first eight bytes of the digest of its text. After a refusal `into` is as before.
pub fn store_line(
    receiver: u8,
    datagrams: u32,
    digest: &[u8; 8],
    into: &mut Vec<u8>,
) -> Result<(), NoMemory>
    requires { receiver < 8 }
    ensures ok { OnOk result (into.new.items ≡ into.old.items
        ++ kept_text receiver datagrams digest.now) }
    ensures err { OnErr result (into.new.items ≡ into.old.items) }
{
    let mut line = ArrayVec::<u8, 64>::new();
    append_text("store ", &mut line);
    line.push(b'A' + receiver);
    append_text(" datagrams ", &mut line);
    append_count(datagrams, &mut line);
    append_text(" digest ", &mut line);
    append_session(digest, &mut line);
    append_text("\n", &mut line);
    into.extend_from_slice(line.as_slice())?;
    Ok(())
}
