//! The message of a group, by its layers' bytes.
ghost use Rattle.std.specs.Prelude.{◌≡◌, ◌<◌, ◌++◌, OnOk, List, ℕ, length, slice_index_or, [], IfOk, None, option_map};
ghost use Rattle.packet_set.specs.Packets.{Packets};
ghost use Rattle.packet_verdicts.specs.KeptSet.{open_group};
ghost use Rattle.packet_session.specs.Session.{IsMessage, bytes_of_layer};
ghost use Rattle.pet_receive.specs.Arrivals.{Order, HasKept, kept_set, numbers_of, layers_of};
ghost use Rattle.pet_receive.specs.ShownBytes.{IsShown, IsShownBytes, Agrees};
ghost use Rattle.packet_rebuild.specs.Making.{HasLayer, HasLayers};
ghost use Rattle.packet_rebuild.specs.Message.{padded};

use field_rows::Rows;
use pet_base::NoMemory;
use pet_receive::Receiver;
use std::alloc::Global;

/// The bytes of the first layers of a group on end, each in whole words. These layers are shown.
pub(crate) fn message_of<F: Rows>(
    alloc: Global,
    receiver: &Receiver<'_, F>,
    group: u32,
    layers: u8,
) -> Result<Vec<u8>, NoMemory>
    requires shown { (layer : ℕ) → layer < layers → IsShown (kept_set receiver.now) group layer }
    ensures { IfOk result (λ message. HasLayers F.is_element F.coding receiver.now group layers
        message.items) }
{
    let mut message = Vec::new(alloc);
    for layer in 0..layers {
        append_padded(shown_layer(receiver, group, layer), &mut message)?;
    }
    Ok(message)
}

/// The bytes of a layer that is shown.
fn shown_layer<'a, F: Rows>(receiver: &'a Receiver<'_, F>, group: u32, layer: u8) -> &'a [u8]
    requires { IsShown (kept_set receiver.now) group layer }
    ensures { HasLayer F.is_element F.coding receiver.now group layer result.now }
{
    match receiver.layer(group, layer) {
        Some(bytes) => bytes,
        None => &[],
    }
}

/// Appends bytes in whole words: an odd end is filled with one byte 0.
fn append_padded(bytes: &[u8], into: &mut Vec<u8>) -> Result<(), NoMemory>
    ensures { OnOk result (into.new.items ≡ into.old.items ++ padded bytes.now) }
{
    into.extend_from_slice(bytes)?;
    if bytes.len() % 2 == 1 {
        into.push(0)?;
    }
    Ok(())
}
