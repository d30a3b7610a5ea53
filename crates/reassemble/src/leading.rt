//! The leading layers of a group that are all shown.
ghost use Rattle.std.specs.Prelude.{◌≡◌, ℕ, ◌≤◌, List, length, map, Some};
ghost use Rattle.std.specs.List.{range_with_len};
ghost use Rattle.pet_base.specs.declared.limits.TheConstants.{MAX_LAYERS};
ghost use Rattle.packet_set.specs.Packets.{Packets};
ghost use Rattle.packet_session.specs.Session.{IsMessage, bytes_of_layer};
ghost use Rattle.pet_receive.specs.Arrivals.{Order, HasKept, kept_set, numbers_of, layers_of};
ghost use Rattle.packet_verdicts.specs.KeptSet.{open_group};
ghost use Rattle.pet_receive.specs.ShownBytes.{Agrees};
ghost use Rattle.reassemble.specs.Leading.{AreLeading, AreShownBytes};

use arrayvec::ArrayVec;
use field_rows::Rows;
use pet_base::MAX_LAYERS;
use pet_receive::Receiver;

/// The bytes of a layer that is shown.
#[derive(Clone, Copy, Default)]
pub(crate) struct ShownLayer<'a> {
    pub bytes: &'a [u8],
}

/// The leading layers of a group that are all shown, layer 0 first. The group has no more than 32 layers.
pub(crate) fn leading_layers<'a, F: Rows>(
    receiver: &'a Receiver<'_, F>,
    group: u32,
) -> ArrayVec<ShownLayer<'a>, MAX_LAYERS>
    requires few { (p : Packets) → open_group (kept_set receiver.now) group ≡ Some p
        → length (layers_of p) ≤ MAX_LAYERS }
    ensures leading { AreLeading (kept_set receiver.now) group (length result.items) }
    ensures few { length result.items ≤ MAX_LAYERS }
    ensures bytes { (order : Order) (p : Packets) → HasKept F.is_element F.coding receiver.now order
        → open_group (kept_set receiver.now) group ≡ Some p
        → AreShownBytes F.is_element F.coding p (numbers_of order group) (map (λ e. e.bytes.now) result.items) }
    ensures agreed { (p : Packets) (message : List ℕ) → open_group (kept_set receiver.now) group ≡ Some p
        → IsMessage F.coding.width (layers_of p) message → Agrees F.coding p message
        → map (λ e. e.bytes.now) result.items
        ≡ map (bytes_of_layer F.coding.width (layers_of p) message) (range_with_len 0 (length result.items)) }
{
    let mut layers = ArrayVec::new();
    for layer in 0..MAX_LAYERS as u8 {
        match receiver.layer(group, layer) {
            Some(bytes) => layers.push(ShownLayer { bytes }),
            None => return layers,
        }
    }
    layers
}
