//! What bounds the tables of a format.
ghost use Rattle.std.specs.Prelude.{◌≡◌, ◌+◌, ◌*◌, ◌≤◌, ◌↔◌, ◌||◌, ◌==◌, true, false, nat_lt, length, None, Some, IsOk, IfOk, IfErr, map};
ghost use Rattle.std.specs.List.{list_any};
ghost use Rattle.stripe_plan.specs.Faults.{fault_in};
ghost use Rattle.stripe_plan.specs.Layers.{AllNeeded, plan_ends};
ghost use Rattle.stripe_plan.specs.Sizes.{IsTableIn, AreBounds, ArePlanBounds, bytes_of, length_over, planned, twofold};

use crate::layer::total_length;
use crate::runs::{frame_length, plan_len};
use crate::{LayerSize, Table, TableFault};
use arrayvec::ArrayVec;
use pet_base::{
    HEAD_LENGTH, MAX_DATAGRAM, MAX_GROUP_BYTES, MAX_LAYERS, MAX_PACKETS, OLD_TAG_LENGTH, TAG_LENGTH,
};

/// What bounds the tables of one format.
#[derive(Clone, Copy)]
pub struct Bounds {
    /// The most packets.
    pub packets: u16,
    /// The most layers.
    pub layers: usize,
    /// The most bytes of all layers.
    pub bytes: u32,
    /// Whether the plan cuts the words of layers of twice the lengths, which have a word for each byte.
    pub doubled: bool,
    /// The bytes of a frame beside its layers and its payload: its head and its tag.
    pub bare: u32,
}

/// What bounds a `Table`.
pub const BOUNDS: Bounds = Bounds {
    packets: MAX_PACKETS,
    layers: MAX_LAYERS,
    bytes: MAX_GROUP_BYTES,
    doubled: false,
    bare: HEAD_LENGTH + TAG_LENGTH,
};

/// What bounds an `OldTable`.
pub const OLD_BOUNDS: Bounds = Bounds {
    packets: MAX_PACKETS,
    layers: MAX_LAYERS,
    bytes: MAX_GROUP_BYTES,
    doubled: false,
    bare: HEAD_LENGTH + OLD_TAG_LENGTH,
};

/// The most packets of a group of the byte profile.
pub const MAX_BYTE_PACKETS: u16 = 255;

/// What bounds a `ByteTable`.
pub const BYTE_BOUNDS: Bounds = Bounds {
    packets: MAX_BYTE_PACKETS,
    layers: MAX_LAYERS,
    bytes: MAX_GROUP_BYTES / 2,
    doubled: true,
    bare: HEAD_LENGTH + TAG_LENGTH,
};

/// The numbers of the bounds. Definitions name the constants alone, so without these clauses every proof would hold of other
/// numbers too. It does nothing.
pub fn bounds_are()
    ensures packets { (BOUNDS.packets ≡ MAX_PACKETS) × (OLD_BOUNDS.packets ≡ MAX_PACKETS) }
    ensures layers { (BOUNDS.layers ≡ MAX_LAYERS) × (OLD_BOUNDS.layers ≡ MAX_LAYERS) }
    ensures bare { BOUNDS.bare ≡ HEAD_LENGTH + TAG_LENGTH }
    ensures old_bare { OLD_BOUNDS.bare ≡ HEAD_LENGTH + OLD_TAG_LENGTH }
    ensures bytes { (BOUNDS.bytes ≡ MAX_GROUP_BYTES) × (OLD_BOUNDS.bytes ≡ MAX_GROUP_BYTES) }
    ensures doubled { (BOUNDS.doubled ≡ false) × (OLD_BOUNDS.doubled ≡ false) }
    ensures byte_packets { (BYTE_BOUNDS.packets ≡ MAX_BYTE_PACKETS) × (MAX_BYTE_PACKETS ≡ 255) }
    ensures byte_layers { BYTE_BOUNDS.layers ≡ MAX_LAYERS }
    ensures byte_bytes { BYTE_BOUNDS.bytes ≡ 2097152 }
    ensures byte_doubled { BYTE_BOUNDS.doubled ≡ true }
    ensures byte_bare { BYTE_BOUNDS.bare ≡ HEAD_LENGTH + TAG_LENGTH }
{}

/// The stripes of the plan of these layers, or the first of the bounds that is broken, in the order of `TableFault`.
pub fn measured(bounds: &Bounds, packets: u16, layers: &[LayerSize]) -> Result<u32, TableFault>
    requires bounds { AreBounds bounds.now }
    ensures ok { IfOk result (λ stripes. stripes
        ≡ length (plan_ends (planned bounds.now layers.now))) }
    ensures accepted { IfOk result (λ _. fault_in bounds.now packets layers.now ≡ None) }
    ensures refused { IfErr result (λ fault. fault_in bounds.now packets layers.now ≡ Some fault) }
    ensures table { IsOk result ↔ IsTableIn bounds.now packets layers.now }
{
    if packets == 0 || bounds.packets < packets {
        return Err(TableFault::Packets);
    }
    if layers.len() == 0 || bounds.layers < layers.len() {
        return Err(TableFault::Layers);
    }
    if has_wrong_need(packets, layers) {
        return Err(TableFault::Need);
    }
    if u64::from(bounds.bytes) < total_length(layers) {
        return Err(TableFault::Sum);
    }
    let stripes = planned_len(bounds, layers);
    if MAX_DATAGRAM < planned_length(bounds, layers, stripes) {
        return Err(TableFault::Wide);
    }
    Ok(stripes)
}

/// The stripes of the plan: of the layers themselves, or of those of twice the lengths.
fn planned_len(bounds: &Bounds, layers: &[LayerSize]) -> u32
    requires bounds { AreBounds bounds.now }
    requires needed { AllNeeded layers.now }
    requires few_layers { length layers.now ≤ MAX_LAYERS }
    requires few { bytes_of layers.now ≤ bounds.now.bytes }
    ensures plan { result ≡ length (plan_ends (planned bounds.now layers.now)) }
    ensures few { result ≤ MAX_GROUP_BYTES }
{
    if bounds.doubled {
        plan_len(&twice(layers))
    } else {
        plan_len(layers)
    }
}

/// The length of a frame of the plan's stripes, of two bytes each.
fn planned_length(bounds: &Bounds, layers: &[LayerSize], stripes: u32) -> u32
    requires bounds { AreBounds bounds.now }
    requires few_layers { length layers.now ≤ MAX_LAYERS }
    requires stripes { stripes ≡ length (plan_ends (planned bounds.now layers.now)) }
    requires few { stripes ≤ MAX_GROUP_BYTES }
    ensures { result ≡ length_over bounds.now.bare (planned bounds.now layers.now) }
{
    frame_length(bounds.bare, layers, 2, stripes)
}

/// The table whose words the plan cuts, of packets and layers that are known to be within the bounds: of the layers themselves,
/// or of those of twice the lengths.
pub fn plan_table(bounds: &Bounds, packets: u16, layers: &[LayerSize]) -> Table
    requires bounds { ArePlanBounds bounds.now }
    requires table { IsTableIn bounds.now packets layers.now }
    ensures packets { result.packets ≡ packets }
    ensures layers { result.layers ≡ planned bounds.now layers.now }
{
    if bounds.doubled {
        Table::known(packets, &twice(layers))
    } else {
        Table::known(packets, layers)
    }
}

/// The layers of twice the lengths.
fn twice(layers: &[LayerSize]) -> ArrayVec<LayerSize, MAX_LAYERS>
    requires few_layers { length layers.now ≤ MAX_LAYERS }
    requires few { bytes_of layers.now ≤ MAX_GROUP_BYTES }
    ensures { result.items ≡ map twofold layers.now }
{
    let mut twice = ArrayVec::new();
    for layer in layers {
        twice.push(twofold(layer));
    }
    twice
}

/// A layer of twice the length.
fn twofold(layer: &LayerSize) -> LayerSize
    requires { layer.now.length ≤ MAX_GROUP_BYTES }
    ensures { result ≡ twofold layer.now }
{
    LayerSize {
        length: 2 * layer.length,
        need: layer.need,
    }
}

/// Whether a layer has no need, or one above the number of packets.
fn has_wrong_need(packets: u16, layers: &[LayerSize]) -> bool
    ensures { result ≡ list_any (λ layer. layer.need == 0 || nat_lt packets layer.need) layers.now }
{
    layers
        .iter()
        .any(|layer| layer.need == 0 || packets < layer.need)
}
