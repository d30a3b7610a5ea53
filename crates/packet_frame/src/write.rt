//! A frame to its bytes.
ghost use Rattle.std.specs.Prelude.{◌≡◌, ℕ, ◌+◌, ◌-◌, ◌*◌, ◌<◌, ◌≤◌, List, [], ◌++◌, length, take, drop, OnOk, OnErr, vec_len, vec_capacity};
ghost use Rattle.std.specs.List.{flat_map};
ghost use Rattle.stripe_plan.specs.Sizes.{datagram_length_of};
ghost use Rattle.packet_frame.specs.Format.{IsFormat};
ghost use Rattle.packet_frame.specs.Frame.{IsFrame, IsFrameIn, text, text_in, text_before_payload, tag_of, layer_text, head_text, payload_length_of};
ghost use Rattle.packet_frame.specs.Refusals.{ReadsAs};
ghost use Rattle.packet_frame.specs.Reading.{fields_by};
ghost use Rattle.packet_frame.specs.View.{fields_with};
ghost use Rattle.packet_frame.specs.declared.format.TheConstants.{FORMAT};

use crate::format::{FORMAT, Format};
use crate::frame::Header;
use crate::parts::{HEAD, Head, LAYER};
use crate::planned::begin_planned;
use pet_base::{
    HEAD_LENGTH, LAYER_LENGTH, MAX_DATAGRAM, MAX_GROUPS, MAX_LAYERS, NoMemory, TAG_LENGTH,
};
use sha2::{Digest, Sha256};
use stripe_plan::LayerSize;

/// Appends the text of a frame. The room is taken before the first byte.
pub fn write_frame(
    header: &Header,
    number: u16,
    payload: &[u8],
    into: &mut Vec<u8>,
) -> Result<(), NoMemory>
    requires groups { header.now.groups ≤ MAX_GROUPS }
    requires group { header.now.group < header.now.groups }
    requires number { number < header.now.table.packets }
    requires payload { length payload.now ≡ payload_length_of header.now.table.layers }
    ensures ok { OnOk result (into.new.items ≡ into.old.items
        ++ text (fields_with header.now number payload.now)) }
    ensures err { OnErr result (into.new.items ≡ into.old.items) }

    // What is written is a frame, and is read back as that frame.
    ensures ranges { IsFrame (fields_with header.now number payload.now) }
    ensures read_back { ReadsAs (text (fields_with header.now number payload.now))
        (fields_with header.now number payload.now) }
{
    let layers = header.table.layers();
    let session = header.session;
    let head = Head {
        session,
        groups: header.groups,
        group: header.group,
        packets: header.table.packets(),
        number,
    };
    write_text(&FORMAT, &head, layers, payload, into)
}

/// How many bytes the frame with this payload has, which has a word for each stripe of the plan.
pub fn frame_length(header: &Header, payload: &[u8]) -> usize
    requires { length payload.now ≡ payload_length_of header.now.table.layers }
    ensures length { result ≡ datagram_length_of header.now.table.layers }
    ensures narrow { result ≤ MAX_DATAGRAM }
{
    HEAD + LAYER * header.table.layers().len() + payload.len() + FORMAT.tag
}

/// Begins the text of a frame: appends all that is before its payload. The room for the whole text is taken before the
/// first byte.
pub fn begin_frame(header: &Header, number: u16, into: &mut Vec<u8>) -> Result<(), NoMemory>
    requires groups { header.now.groups ≤ MAX_GROUPS }
    requires group { header.now.group < header.now.groups }
    requires number { number < header.now.table.packets }
    ensures ok { OnOk result (into.new.items ≡ into.old.items
        ++ text_before_payload FORMAT (fields_with header.now number [])) }
    ensures err { OnErr result (into.new.items ≡ into.old.items) }
    ensures room { OnOk result (vec_len into.new + payload_length_of header.now.table.layers
        + TAG_LENGTH ≤ vec_capacity into.new) }
    ensures capacity { vec_capacity into.old ≤ vec_capacity into.new }

    // It fails only where there is not the room of the longest frame.
    ensures full { OnErr result (vec_capacity into.old < vec_len into.old + MAX_DATAGRAM) }

    // With any payload of this length it is a frame.
    ensures ranges { (payload : List ℕ)
        → length payload ≡ payload_length_of header.now.table.layers
        → IsFrame (fields_with header.now number payload) }
{
    let _bounds = header.table.layers();
    begin_planned(&FORMAT, header, number, into)
}

/// Ends the text of a frame that begins at `start`: appends its tag, for which there is room.
pub fn end_frame(start: usize, into: &mut Vec<u8>)
    requires start { start ≤ vec_len into.old }
    requires room { vec_len into.old + TAG_LENGTH ≤ vec_capacity into.old }
    ensures { into.new.items ≡ into.old.items ++ tag_of FORMAT (drop start into.old.items) }
{
    end_planned(&FORMAT, start, into);
}

/// Appends the text of a frame of a format. The room is taken before the first byte.
pub fn write_text(
    format: &Format,
    head: &Head,
    layers: &[LayerSize],
    payload: &[u8],
    into: &mut Vec<u8>,
) -> Result<(), NoMemory>
    requires format { IsFormat format.now }
    requires frame { IsFrameIn format.now (fields_by head.now layers.now payload.now) }
    ensures ok { OnOk result (into.new.items ≡ into.old.items
        ++ text_in format.now (fields_by head.now layers.now payload.now)) }
    ensures err { OnErr result (into.new.items ≡ into.old.items) }
{
    let start = into.len();
    begin_text(format, head, layers, payload.len(), into)?;
    append(payload, into);
    end_planned(format, start, into);
    Ok(())
}

/// Appends all that is before a payload of so many bytes. The room for the whole text is taken before the first byte.
pub(crate) fn begin_text(
    format: &Format,
    head: &Head,
    layers: &[LayerSize],
    payload: usize,
    into: &mut Vec<u8>,
) -> Result<(), NoMemory>
    requires format { IsFormat format.now }
    requires few { length layers.now ≤ MAX_LAYERS }
    requires narrow { payload ≤ MAX_DATAGRAM }
    ensures ok { OnOk result (into.new.items ≡ into.old.items
        ++ text_before_payload format.now (fields_by head.now layers.now [])) }
    ensures err { OnErr result (into.new.items ≡ into.old.items) }
    ensures room { OnOk result (vec_len into.new + payload + format.now.tag
        ≤ vec_capacity into.new) }
    ensures capacity { vec_capacity into.old ≤ vec_capacity into.new }
    ensures full { OnErr result (vec_capacity into.old < vec_len into.old
        + (HEAD_LENGTH + LAYER_LENGTH * length layers.now + payload + format.now.tag)) }
{
    into.reserve(HEAD + LAYER * layers.len() + payload + format.tag)?;
    append_head(format, head, layers, into);
    append_layers(layers, into);
    Ok(())
}

/// Appends all that is before the layers.
fn append_head(format: &Format, head: &Head, layers: &[LayerSize], into: &mut Vec<u8>)
    requires format { IsFormat format.now }
    requires few { length layers.now ≤ MAX_LAYERS }
    requires room { vec_len into.old + HEAD_LENGTH ≤ vec_capacity into.old }
    ensures items { into.new.items ≡ into.old.items
        ++ head_text format.now (fields_by head.now layers.now []) }
    ensures len { vec_len into.new ≡ vec_len into.old + HEAD_LENGTH }
    ensures room { vec_capacity into.old ≤ vec_capacity into.new }
{
    append(&format.mark, into);
    append(&head.session, into);
    append(&head.groups.to_be_bytes(), into);
    append(&head.group.to_be_bytes(), into);
    append(&head.packets.to_be_bytes(), into);
    append(&head.number.to_be_bytes(), into);
    append(&[layers.len() as u8], into);
}

/// Appends the layers, each its length and its need.
fn append_layers(layers: &[LayerSize], into: &mut Vec<u8>)
    requires room { vec_len into.old + LAYER_LENGTH * length layers.now ≤ vec_capacity into.old }
    ensures items { into.new.items ≡ into.old.items ++ flat_map layer_text layers.now }
    ensures len { vec_len into.new ≡ vec_len into.old + LAYER_LENGTH * length layers.now }
    ensures room { vec_capacity into.old ≤ vec_capacity into.new }
{
    for layer in layers {
        append(&layer.length.to_be_bytes(), into);
        append(&layer.need.to_be_bytes(), into);
    }
}

/// Ends the text of a frame of a format that begins at `start`: appends its tag, for which there is room.
pub fn end_planned(format: &Format, start: usize, into: &mut Vec<u8>)
    requires format { IsFormat format.now }
    requires start { start ≤ vec_len into.old }
    requires room { vec_len into.old + format.now.tag ≤ vec_capacity into.old }
    ensures { into.new.items ≡ into.old.items ++ tag_of format.now (drop start into.old.items) }
{
    let digest = Sha256::digest(&into[start..]);
    append(&digest[..format.tag], into);
}

/// Appends bytes for which there is room.
pub fn append(bytes: &[u8], into: &mut Vec<u8>)
    requires room { vec_len into.old + length bytes.now ≤ vec_capacity into.old }
    ensures items { into.new.items ≡ into.old.items ++ bytes.now }
    ensures len { vec_len into.new ≡ vec_len into.old + length bytes.now }
    ensures room { vec_capacity into.old ≤ vec_capacity into.new }
{
    match into.extend_from_slice(bytes) {
        Ok(()) => {}
        Err(_) => unreachable!(),
    }
}
