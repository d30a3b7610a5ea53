//! The tag of a packet's frame, made of its bytes.
ghost use Rattle.std.specs.Prelude.{◌≡◌, ℕ, List, [], ◌++◌, take};
ghost use Rattle.std.specs.List.{flat_map};
ghost use Rattle.sha2.specs.Hashers.{Holds256};
ghost use Rattle.packet_frame.specs.Frame.{head_text, layer_text};
ghost use Rattle.packet_frame.specs.View.{fields_with};
ghost use Rattle.packet_frame.specs.declared.format.TheConstants.{FORMAT};
ghost use Rattle.packet_group.specs.Tags.{frame_tag};

use packet_frame::{FORMAT, Header};
use sha2::{Digest, Sha256};
use stripe_plan::LayerSize;

/// The tag of the frame of a packet, as frames are written today. It takes no memory.
pub(crate) fn tag_of_packet(header: &Header, number: u16, payload: &[u8]) -> [u8; 16]
    ensures { result ≡ frame_tag (fields_with header.now number payload.now) }
{
    let mut hasher = hasher_of_head(header, number);
    hash_layers(header.table.layers(), &mut hasher);
    hasher.update(payload);
    first_sixteen(hasher.finalize())
}

/// A hasher that has read all that is before the layers of a packet's frame.
fn hasher_of_head(header: &Header, number: u16) -> Sha256
    ensures { Holds256 result (head_text FORMAT (fields_with header.now number [])) }
{
    let layers = header.table.layers();
    let mut hasher = Sha256::new();
    hasher.update(&FORMAT.mark);
    hasher.update(&header.session);
    hasher.update(&header.groups.to_be_bytes());
    hasher.update(&header.group.to_be_bytes());
    hasher.update(&header.table.packets().to_be_bytes());
    hasher.update(&number.to_be_bytes());
    hasher.update(&[layers.len() as u8]);
    hasher
}

/// Hashes layers, of each its length and its need.
fn hash_layers(layers: &[LayerSize], hasher: &mut Sha256)
    ensures { (m : List ℕ) → Holds256 hasher.old m → Holds256 hasher.new (m ++ flat_map layer_text layers.now) }
{
    for layer in layers {
        hasher.update(&layer.length.to_be_bytes());
        hasher.update(&layer.need.to_be_bytes());
    }
}

/// The first 16 bytes of a digest.
fn first_sixteen(digest: [u8; 32]) -> [u8; 16]
    ensures { result ≡ take 16 digest }
{
    let mut first = [0u8; 16];
    first.copy_from_slice(&digest[..16]);
    first
}
