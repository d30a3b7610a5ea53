//! The parts of a frame, each at its place in the bytes.
ghost use Rattle.std.specs.Prelude.{◌≡◌, ◌+◌, ◌*◌, ◌≤◌, length, drop};
ghost use Rattle.std.specs.Int.{w16, w32};
ghost use Rattle.packet_frame.specs.Format.{IsFormat, bare_length};
ghost use Rattle.packet_frame.specs.declared.format.Format.{Format};
ghost use Rattle.packet_frame.specs.inside.Reading.{HasHead};
ghost use Rattle.packet_frame.specs.Refusals.{number, layer_in, layers_at, count_of, fields_in, ends_in_tag};

use crate::format::Format;
use arrayvec::ArrayVec;
use pet_base::{HEAD_LENGTH, LAYER_LENGTH, MAX_LAYERS};
use sha2::{Digest, Sha256};
use stripe_plan::LayerSize;

/// The bytes before the layers.
pub(crate) const HEAD: usize = HEAD_LENGTH as usize;

/// Where the number of layers stands, in one byte: the last one before the layers.
pub(crate) const LAYER_COUNT: usize = HEAD - 1;

/// The bytes of a layer: its length and its need.
pub(crate) const LAYER: usize = LAYER_LENGTH as usize;

/// The fields before the layers.
#[derive(Clone, Copy)]
pub struct Head {
    /// The number of the session.
    pub session: [u8; 8],
    /// How many groups the session has, 1 to 65,535.
    pub groups: u32,
    /// The group, below `groups`.
    pub group: u32,
    /// The number of packets of the group.
    pub packets: u16,
    /// The packet's number, below `packets`.
    pub number: u16,
}

/// A frame of any format, as it is read.
#[derive(Drop)]
pub struct Parts<'a> {
    /// The fields before the layers.
    pub head: Head,
    /// The layers, in order.
    pub layers: ArrayVec<LayerSize, MAX_LAYERS>,
    /// The bytes between the layers and the tag.
    pub payload: &'a [u8],
}

/// The fields before the layers.
pub(crate) fn head_in(bytes: &[u8]) -> Head
    requires { HEAD_LENGTH ≤ length bytes.now }
    ensures { (format : Format) → HasHead result (fields_in format bytes.now) }
{
    let session = [
        bytes[4], bytes[5], bytes[6], bytes[7], bytes[8], bytes[9], bytes[10], bytes[11],
    ];
    Head {
        session,
        groups: u32_at(bytes, 12),
        group: u32_at(bytes, 16),
        packets: u16_at(bytes, 20),
        number: u16_at(bytes, 22),
    }
}

/// The number in the four bytes from `at` on.
fn u32_at(bytes: &[u8], at: usize) -> u32
    requires { at + 4 ≤ length bytes.now }
    ensures { result ≡ number w32 at bytes.now }
{
    u32::from_be_bytes([bytes[at], bytes[at + 1], bytes[at + 2], bytes[at + 3]])
}

/// The number in the two bytes from `at` on.
fn u16_at(bytes: &[u8], at: usize) -> u16
    requires { at + 2 ≤ length bytes.now }
    ensures { result ≡ number w16 at bytes.now }
{
    u16::from_be_bytes([bytes[at], bytes[at + 1]])
}

/// The layers, which begin behind the head.
pub(crate) fn layers_in(bytes: &[u8], count: u8) -> ArrayVec<LayerSize, MAX_LAYERS>
    requires count { count ≡ count_of bytes.now }
    requires few { count ≤ MAX_LAYERS }
    requires room { HEAD_LENGTH + LAYER_LENGTH * count ≤ length bytes.now }
    ensures { result.items ≡ layers_at (count_of bytes.now) (drop HEAD_LENGTH bytes.now) }
{
    let (_, rest) = bytes.split_at(HEAD);
    layers_of(rest, count)
}

/// The bytes between the layers and the tag.
pub(crate) fn payload_in<'a>(format: &Format, bytes: &'a [u8], count: u8) -> &'a [u8]
    requires format { IsFormat format.now }
    requires count { count ≡ count_of bytes.now }
    requires room { bare_length format.now count ≤ length bytes.now }
    ensures { result.now ≡ (fields_in format.now bytes.now).payload }
{
    let at = HEAD + LAYER * usize::from(count);
    let (_, rest) = bytes.split_at(at);
    let (payload, _) = rest.split_at(bytes.len() - (at + format.tag));
    payload
}

/// Whether the last bytes are the tag of those before them.
pub(crate) fn has_tag(format: &Format, bytes: &[u8]) -> bool
    requires format { IsFormat format.now }
    requires room { format.now.tag ≤ length bytes.now }
    ensures { result ≡ ends_in_tag format.now bytes.now }
{
    let (front, tag) = bytes.split_at(bytes.len() - format.tag);
    let digest = Sha256::digest(front);
    tag == &digest[..format.tag]
}

/// So many layers from the front of the bytes.
#[tactic(auto, unfolding(crate::specs::Refusals::layers_at))]
fn layers_of(bytes: &[u8], count: u8) -> ArrayVec<LayerSize, MAX_LAYERS>
    requires room { LAYER_LENGTH * count ≤ length bytes.now }
    requires few { count ≤ MAX_LAYERS }
    ensures { result.items ≡ layers_at count bytes.now }
{
    let mut layers = ArrayVec::new();
    let mut rest = bytes;
    for _ in 0..count {
        layers.push(layer_at(rest));
        let (_, after) = rest.split_at(LAYER);
        rest = after;
    }
    layers
}

/// The layer at the front of the bytes: its length and its need.
fn layer_at(bytes: &[u8]) -> LayerSize
    requires { LAYER_LENGTH ≤ length bytes.now }
    ensures { result ≡ layer_in bytes.now }
{
    LayerSize {
        length: u32_at(bytes, 0),
        need: u16_at(bytes, 4),
    }
}
