//! The records of the layers that one arrival shows.
ghost use Rattle.std.specs.Prelude.{◌≡◌, ◌==◌, ◌<◌, ◌≤◌, ◌^◌, ℕ, List, [], ◌∷◌, ◌++◌, length, map, true, All, Some, IsSome, OnOk, OnErr, is_err};
ghost use Rattle.std.specs.Int.{w32, to_be_bytes, bit_at};
ghost use Rattle.pet_base.specs.declared.limits.TheConstants.{MAX_GROUP_BYTES};
ghost use Rattle.stripe_plan.specs.Sizes.{bytes_of};
ghost use Rattle.packet_set.specs.Packets.{Packets};
ghost use Rattle.pet_base.specs.declared.place.Side.TheVariants.{Written};
ghost use Rattle.pet_base.specs.Causes.{Blames};
ghost use Rattle.pet_base.specs.Seen.{Seen, OnlyWrites, HasBlame, PlaceStops};
ghost use Rattle.packet_receiver.specs.Arrivals.{Order, HasKept, kept_set, numbers_of, layers_of};
ghost use Rattle.packet_verdicts.specs.KeptSet.{open_group};
ghost use Rattle.packet_receiver.specs.ShownBytes.{IsShown};
ghost use Rattle.packet_met.specs.LayersText.{record_text, IsLayer};
ghost use Rattle.packet_met.specs.Records.{layers_in, records_text, AreLayersOf, AreShownText};
ghost use Rattle.outside_files.specs.Outputs.{Puts, PutsPart};

use arrayvec::ArrayVec;
use field_rows::Rows;
use packet_receiver::PacketReceiver;
use packet_verdicts::LayerSet;
use pet_base::{Failed, MAX_LAYERS, Place};

/// A layer that is shown, with its bytes.
#[derive(Clone, Copy, Default)]
struct ShownLayer<'a> {
    layer: u8,
    bytes: &'a [u8],
}

/// Puts to the output the records of the layers of a set, which the receiver shows of a group.
///
/// # Errors
///
/// The call of the place failed, and then its count of faults rose; a front of the records was put.
pub fn put_shown<P: Place, F: Rows>(
    place: &mut P,
    receiver: &PacketReceiver<'_, F>,
    arrival: u32,
    group: u32,
    shown: LayerSet,
) -> Result<(), Failed>
    requires output { (P.seen place.old).has_output ≡ true }
    requires shown { (layer : ℕ) → bit_at shown.bits layer ≡ 1
        → IsShown (kept_set receiver.now) group layer }
    requires held { (order : Order) × HasKept F.is_element F.coding receiver.now order }
    requires narrow { (p : Packets) × (open_group (kept_set receiver.now) group ≡ Some p)
        × (bytes_of (layers_of p) ≤ MAX_GROUP_BYTES) }
    ensures puts { OnOk result ((text : List ℕ)
        × AreShownText F.is_element F.coding receiver.now arrival group (layers_in shown) text
        × Puts text (P.seen place.old) (P.seen place.new)) }
    ensures part { OnErr result ((text : List ℕ)
        × AreShownText F.is_element F.coding receiver.now arrival group (layers_in shown) text
        × PutsPart text (P.seen place.old) (P.seen place.new)) }
    ensures others { OnlyWrites (P.seen place.old) (P.seen place.new) }
    ensures cause { HasBlame (P.seen place.old) (P.seen place.new) result
        (Blames Written (P.seen place.old).target) }
    ensures once { PlaceStops (is_err result) (P.seen place.old) (P.seen place.new) }
{
    let layers = shown_layers(receiver, group, shown);
    put_records(place, arrival, group, layers.as_slice())
}

/// The layers of the set, each lent out by the receiver.
fn shown_layers<'a, F: Rows>(
    receiver: &'a PacketReceiver<'_, F>,
    group: u32,
    shown: LayerSet,
) -> ArrayVec<ShownLayer<'a>, MAX_LAYERS>
    requires shown { (layer : ℕ) → bit_at shown.bits layer ≡ 1
        → IsShown (kept_set receiver.now) group layer }
    ensures layers { map (λ e. e.layer) result.items ≡ layers_in shown }
    ensures bytes { AreLayersOf F.is_element F.coding receiver.now group result.items }
{
    let mut layers = ArrayVec::new();
    for layer in 0..MAX_LAYERS as u8 {
        if !shown.has(layer) {
            continue;
        }
        let bytes = shown_layer(receiver, group, layer);
        layers.push(ShownLayer { layer, bytes });
    }
    layers
}

/// The bytes of a layer that is shown.
fn shown_layer<'a, F: Rows>(receiver: &'a PacketReceiver<'_, F>, group: u32, layer: u8) -> &'a [u8]
    requires { IsShown (kept_set receiver.now) group layer }
    ensures { (order : Order) (p : Packets) → HasKept F.is_element F.coding receiver.now order
        → open_group (kept_set receiver.now) group ≡ Some p
        → IsLayer F.is_element F.coding p (numbers_of order group) layer result.now }
{
    match receiver.layer(group, layer) {
        Some(bytes) => bytes,
        None => &[],
    }
}

/// Puts the records of the layers to the output, in their order.
fn put_records<P: Place>(
    place: &mut P,
    arrival: u32,
    group: u32,
    layers: &[ShownLayer<'_>],
) -> Result<(), Failed>
    requires output { (P.seen place.old).has_output ≡ true }
    requires short { All (λ e. length e.bytes.now < 2 ^ 32) layers.now }
    ensures files { OnOk result (Puts (records_text arrival group layers.now) (P.seen place.old)
        (P.seen place.new)) }
    ensures part { OnErr result (PutsPart (records_text arrival group layers.now) (P.seen place.old)
        (P.seen place.new)) }
    ensures others { OnlyWrites (P.seen place.old) (P.seen place.new) }
    ensures cause { HasBlame (P.seen place.old) (P.seen place.new) result
        (Blames Written (P.seen place.old).target) }
    ensures once { PlaceStops (is_err result) (P.seen place.old) (P.seen place.new) }
{
    for shown in layers {
        put_record(place, arrival, group, shown.layer, shown.bytes)?;
    }
    Ok(())
}

/// Puts the record of one layer to the output.
fn put_record<P: Place>(
    place: &mut P,
    arrival: u32,
    group: u32,
    layer: u8,
    bytes: &[u8],
) -> Result<(), Failed>
    requires output { (P.seen place.old).has_output ≡ true }
    requires short { length bytes.now < 2 ^ 32 }
    ensures files { OnOk result (Puts (record_text arrival group layer bytes.now) (P.seen place.old)
        (P.seen place.new)) }
    ensures part { OnErr result (PutsPart (record_text arrival group layer bytes.now)
        (P.seen place.old) (P.seen place.new)) }
    ensures others { OnlyWrites (P.seen place.old) (P.seen place.new) }
    ensures cause { HasBlame (P.seen place.old) (P.seen place.new) result
        (Blames Written (P.seen place.old).target) }
    ensures once { PlaceStops (is_err result) (P.seen place.old) (P.seen place.new) }
{
    place.put(record_head(arrival, group, layer, bytes.len() as u32).as_slice())?;
    place.put(bytes)
}

/// The 13 bytes before those of a layer.
fn record_head(arrival: u32, group: u32, layer: u8, length: u32) -> ArrayVec<u8, 13>
    ensures { result.items ≡ to_be_bytes w32 arrival ++ to_be_bytes w32 group ++ (layer ∷ [])
        ++ to_be_bytes w32 length }
{
    let mut head = ArrayVec::new();
    let _ = head.try_extend_from_slice(&arrival.to_be_bytes());
    let _ = head.try_extend_from_slice(&group.to_be_bytes());
    head.push(layer);
    let _ = head.try_extend_from_slice(&length.to_be_bytes());
    head
}
