//! The one reader of every format.
ghost use Rattle.std.specs.Prelude.{◌≡◌, ◌≤◌, ◌<◌, ◌++◌, length, None, Some, MatchResult, OnOk, IfOk, IfErr};
ghost use Rattle.stripe_plan.specs.Layers.{plan_ends};
ghost use Rattle.stripe_plan.specs.Sizes.{IsTableIn, planned};
ghost use Rattle.packet_frame.specs.Format.{IsFormat, bare_length};
ghost use Rattle.packet_frame.specs.Reading.{fields_by};
ghost use Rattle.packet_frame.specs.inside.Reading.{HasHead, Tells, front_rows, range_rows, room_rows, refusal_for};
ghost use Rattle.packet_frame.specs.Refusals.{fields_in, count_of, first_fault_in, first_of, head_rows, layer_rows, end_rows};

use crate::fault::{Field1, FrameFault};
use crate::format::Format;
use crate::parts::{
    HEAD, Head, LAYER, LAYER_COUNT, Parts, has_tag, head_in, layers_in, payload_in,
};
use arrayvec::ArrayVec;
use pet_base::{MAX_GROUPS, MAX_LAYERS};
use stripe_plan::{LayerSize, TableFault, measured};

/// Reads a frame of a format, or answers the first refusal of its bytes. It takes no memory.
pub fn read_text<'a>(format: &Format, bytes: &'a [u8]) -> Result<Parts<'a>, FrameFault>
    requires format { IsFormat format.now }
    ensures refused { MatchResult result (λ _. first_fault_in format.now bytes.now ≡ None)
        (λ fault. first_fault_in format.now bytes.now ≡ Some fault) }
    ensures fields { IfOk result (λ parts.
        fields_by parts.head parts.layers.items parts.payload.now ≡ fields_in format.now bytes.now) }
    ensures table { IfOk result (λ parts.
        IsTableIn format.now.bounds parts.head.packets parts.layers.items) }
{
    let head = read_head(format, bytes)?;
    let count = bytes[LAYER_COUNT];
    let sized = read_layers(format, bytes, count, head.packets)?;
    check_end(format, bytes, count, sized.stripes)?;
    let payload = payload_in(format, bytes, count);
    Ok(Parts {
        head,
        layers: sized.layers,
        payload,
    })
}

/// Reads the fields before the layers, with room for the layers and the tag behind them.
fn read_head(format: &Format, bytes: &[u8]) -> Result<Head, FrameFault>
    requires format { IsFormat format.now }
    ensures tells { Tells result (head_rows format.now bytes.now (fields_in format.now bytes.now)) }
    ensures fields { IfOk result (λ head. HasHead head (fields_in format.now bytes.now)) }
    ensures layers { IfOk result (λ head. (0 < count_of bytes.now)
        × (count_of bytes.now ≤ format.now.bounds.layers)) }
    ensures packets { IfOk result (λ head. (0 < head.packets)
        × (head.packets ≤ format.now.bounds.packets)) }
    ensures room { IfOk result (λ head.
        bare_length format.now (count_of bytes.now) ≤ length bytes.now) }
{
    check_front(format, bytes)?;
    let head = head_in(bytes);
    check_ranges(format.bounds.packets, &head)?;
    check_room(format, bytes)?;
    Ok(head)
}

/// Checks that there is room for a frame of one layer, and the mark.
fn check_front(format: &Format, bytes: &[u8]) -> Result<(), FrameFault>
    requires format { IsFormat format.now }
    ensures tells { Tells result (front_rows format.now bytes.now) }
    ensures room { OnOk result (bare_length format.now 1 ≤ length bytes.now) }
{
    if bytes.len() < HEAD + format.tag + LAYER {
        return Err(FrameFault::Short);
    }
    if &bytes[..format.mark.len()] != format.mark.as_slice() {
        return Err(FrameFault::Magic);
    }
    Ok(())
}

/// Checks the ranges of the fields before the layers, where a frame has at most so many packets.
fn check_ranges(most: u16, head: &Head) -> Result<(), FrameFault>
    ensures tells { Tells result (range_rows most head.now) }
    ensures packets { OnOk result ((0 < head.now.packets) × (head.now.packets ≤ most)) }
{
    if head.groups == 0 || head.groups > MAX_GROUPS {
        return Err(FrameFault::Range(Field1::Groups));
    }
    if head.group >= head.groups {
        return Err(FrameFault::Range(Field1::Group));
    }
    if head.packets == 0 || head.packets > most {
        return Err(FrameFault::Range(Field1::Packets));
    }
    if head.number >= head.packets {
        return Err(FrameFault::Range(Field1::Number));
    }
    Ok(())
}

/// Checks how many layers the bytes name, and that there is room for them and the tag.
fn check_room(format: &Format, bytes: &[u8]) -> Result<(), FrameFault>
    requires format { IsFormat format.now }
    requires one { bare_length format.now 1 ≤ length bytes.now }
    ensures tells { Tells result (room_rows format.now bytes.now) }
    ensures layers { OnOk result ((0 < count_of bytes.now)
        × (count_of bytes.now ≤ format.now.bounds.layers)) }
    ensures room { OnOk result (bare_length format.now (count_of bytes.now) ≤ length bytes.now) }
{
    let count = bytes[LAYER_COUNT];
    if count == 0 || usize::from(count) > format.bounds.layers {
        return Err(FrameFault::Range(Field1::Layers));
    }
    if bytes.len() < HEAD + format.tag + LAYER * usize::from(count) {
        return Err(FrameFault::Length);
    }
    Ok(())
}

/// Layers, and the stripes of their plan.
#[derive(Drop)]
struct Sized {
    layers: ArrayVec<LayerSize, MAX_LAYERS>,
    stripes: u32,
}

/// The layers that make a table with the packets. Where its frames would be too long, these bytes are no such frame.
fn read_layers(format: &Format, bytes: &[u8], count: u8, packets: u16) -> Result<Sized, FrameFault>
    requires format { IsFormat format.now }
    requires count { count ≡ count_of bytes.now }
    requires layers { (0 < count) × (count ≤ format.now.bounds.layers) }
    requires packets { (0 < packets) × (packets ≤ format.now.bounds.packets) }
    requires room { bare_length format.now count ≤ length bytes.now }
    ensures ok { IfOk result (λ sized. first_of
        (layer_rows format.now packets (fields_in format.now bytes.now).layers) ≡ None) }
    ensures layers { IfOk result (λ sized.
        sized.layers.items ≡ (fields_in format.now bytes.now).layers) }
    ensures table { IfOk result (λ sized.
        IsTableIn format.now.bounds packets sized.layers.items) }
    ensures stripes { IfOk result (λ sized.
        sized.stripes ≡ length (plan_ends (planned format.now.bounds sized.layers.items))) }
    ensures err { IfErr result (λ fault. first_of
        (layer_rows format.now packets (fields_in format.now bytes.now).layers
        ++ end_rows format.now bytes.now (fields_in format.now bytes.now).layers) ≡ Some fault) }
{
    let layers = layers_in(bytes, count);
    match measured(&format.bounds, packets, &layers) {
        Ok(stripes) => Ok(Sized { layers, stripes }),
        Err(fault) => Err(refusal_of(fault)),
    }
}

/// The refusal of a frame whose packets and layers make no table.
fn refusal_of(fault: TableFault) -> FrameFault
    ensures { result ≡ refusal_for fault }
{
    match fault {
        TableFault::Packets => FrameFault::Range(Field1::Packets),
        TableFault::Layers => FrameFault::Range(Field1::Layers),
        TableFault::Need => FrameFault::Range(Field1::Need),
        TableFault::Sum => FrameFault::Range(Field1::Lengths),
        TableFault::Wide => FrameFault::Length,
    }
}

/// Checks the length, which no table asks to be above the most of a datagram, and the tag.
fn check_end(format: &Format, bytes: &[u8], count: u8, stripes: u32) -> Result<(), FrameFault>
    requires format { IsFormat format.now }
    requires count { count ≡ count_of bytes.now }
    requires layers { count ≤ format.now.bounds.layers }
    requires table { IsTableIn format.now.bounds (fields_in format.now bytes.now).packets
        (fields_in format.now bytes.now).layers }
    requires stripes { stripes ≡ length (plan_ends (planned format.now.bounds
        (fields_in format.now bytes.now).layers)) }
    requires room { bare_length format.now count ≤ length bytes.now }
    ensures { Tells result
        (end_rows format.now bytes.now (fields_in format.now bytes.now).layers) }
{
    if bytes.len()
        != HEAD + format.tag + LAYER * usize::from(count) + format.word * stripes as usize
    {
        return Err(FrameFault::Length);
    }
    if !has_tag(format, bytes) {
        return Err(FrameFault::Tag);
    }
    Ok(())
}
