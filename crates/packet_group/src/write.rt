//! The words of a message, written as its layers are shown.
ghost use Rattle.std.specs.Prelude.{◌≡◌, ℕ, ◌+◌, ◌*◌, ◌<◌, ◌≤◌, List, ◌++◌, length, take, drop, All, vec_capacity};
ghost use Rattle.std.specs.List.{flat_map};
ghost use Rattle.stripe_plan.specs.Counts.{Meets};
ghost use Rattle.stripe_plan.specs.Layers.{needs_of, count_of};
ghost use Rattle.stripe_plan.specs.Sizes.{IsTable};
ghost use Rattle.pet_interp.specs.Progressive.{StandsFor, stripe_of, lengths_of};
ghost use Rattle.packet_session.specs.Session.{IsMessage};
ghost use Rattle.packet_group.specs.OpenGroup.{layers_of, stripe_lengths};
ghost use Rattle.packet_group.specs.Written.{HasLayer, filled, whole_message};
ghost use Rattle.packet_group.specs.inside.Learning.{HasShown, IsWrittenOn};

use field_rows::Rows;
use packet_set::PacketSet;
use pet_interp::Progress;
use stripe_plan::{Table, first_word};

/// Writes the stripes of each layer whose count is the number of points that were met. With these points it is shown.
pub(crate) fn write_shown<F: Rows>(
    field: &F,
    packets: &PacketSet,
    progress: &Progress<'_, F>,
    message: &mut Vec<u8>,
)
    requires table { IsTable packets.now.header.table.packets (layers_of packets.now) }
    requires lengths { lengths_of progress.now ≡ stripe_lengths (layers_of packets.now) }
    requires stands { (points : List (F.Elem × List F.Elem))
        × StandsFor F.is_element F.coding.ops progress.now points }
    requires room { length (needs_of (layers_of packets.now)) * F.coding.width ≤ vec_capacity message.old }
    requires message { IsMessage F.coding.width (layers_of packets.now)
        (whole_message F.coding.width (layers_of packets.now) message.old.items) }
    ensures room { vec_capacity message.old ≤ vec_capacity message.new }
    ensures on { IsWrittenOn F.coding (layers_of packets.now) progress.now message.old.items message.new.items }
    ensures shown { HasShown F.coding (layers_of packets.now) progress.now message.new.items }
{
    for layer in 0..packets.counts().len() {
        write_if_shown(field, packets, progress, layer, message);
    }
}

/// Writes the stripes of a layer, if its count is the number of points that were met.
fn write_if_shown<F: Rows>(
    field: &F,
    packets: &PacketSet,
    progress: &Progress<'_, F>,
    layer: usize,
    message: &mut Vec<u8>,
)
    requires table { IsTable packets.now.header.table.packets (layers_of packets.now) }
    requires lengths { lengths_of progress.now ≡ stripe_lengths (layers_of packets.now) }
    requires stands { (points : List (F.Elem × List F.Elem))
        × StandsFor F.is_element F.coding.ops progress.now points }
    requires layer { layer < length (layers_of packets.now) }
    requires room { length (needs_of (layers_of packets.now)) * F.coding.width ≤ vec_capacity message.old }
    requires message { IsMessage F.coding.width (layers_of packets.now)
        (whole_message F.coding.width (layers_of packets.now) message.old.items) }
    ensures room { vec_capacity message.old ≤ vec_capacity message.new }
    ensures on { IsWrittenOn F.coding (layers_of packets.now) progress.now message.old.items message.new.items }
    ensures shown { count_of (layers_of packets.now) layer ≡ progress.now.met
        → HasLayer F.coding (layers_of packets.now) progress.now message.new.items layer }
{
    if u32::from(packets.counts()[layer]) == progress.met() {
        write_layer(field, &packets.header().table, progress, layer, message);
    }
}

/// Writes each stripe that has a word of a layer, whose count is at most the number of points that were met.
fn write_layer<F: Rows>(
    field: &F,
    table: &Table,
    progress: &Progress<'_, F>,
    layer: usize,
    message: &mut Vec<u8>,
)
    requires table { IsTable table.now.packets table.now.layers }
    requires lengths { lengths_of progress.now ≡ stripe_lengths table.now.layers }
    requires stands { (points : List (F.Elem × List F.Elem))
        × StandsFor F.is_element F.coding.ops progress.now points }
    requires layer { layer < length table.now.layers }
    requires enough { count_of table.now.layers layer ≤ progress.now.met }
    requires room { length (needs_of table.now.layers) * F.coding.width ≤ vec_capacity message.old }
    requires message { IsMessage F.coding.width table.now.layers
        (whole_message F.coding.width table.now.layers message.old.items) }
    ensures room { vec_capacity message.old ≤ vec_capacity message.new }
    ensures on { IsWrittenOn F.coding table.now.layers progress.now message.old.items message.new.items }
    ensures written { HasLayer F.coding table.now.layers progress.now message.new.items layer }
{
    let layers = table.layers();
    let words = (first_word(layers, layer), first_word(layers, layer + 1));
    for (stripe, (at, size)) in table.plan().enumerate() {
        write_if_met(field, progress, words, stripe, at, size, message);
    }
}

/// Writes the words of one stripe, which is so long, from the message's word `at` on, if it has one of the words from
/// the first of `words` up to the second. Then as many points were met as it is long.
fn write_if_met<F: Rows>(
    field: &F,
    progress: &Progress<'_, F>,
    words: (u32, u32),
    stripe: usize,
    at: u32,
    size: u16,
    message: &mut Vec<u8>,
)
    requires stripe { stripe < length progress.now.stripes }
    requires size { length (stripe_of progress.now stripe) ≡ size }
    requires enough { Meets words.0 words.1 (at, size) → size ≤ progress.now.met }
    requires stands { (points : List (F.Elem × List F.Elem))
        × StandsFor F.is_element F.coding.ops progress.now points }
    requires room { (at + size) * F.coding.width ≤ vec_capacity message.old }
    ensures room { vec_capacity message.old ≤ vec_capacity message.new }
    ensures written { Meets words.0 words.1 (at, size)
        → All F.is_element (stripe_of progress.now stripe) × (message.new.items
        ≡ take (at * F.coding.width) (filled ((at + size) * F.coding.width) message.old.items)
        ++ flat_map F.coding.spelling (stripe_of progress.now stripe)
        ++ drop ((at + size) * F.coding.width) (filled ((at + size) * F.coding.width) message.old.items)) }
    ensures same { (Meets words.0 words.1 (at, size) → ⊥) → message.new.items ≡ message.old.items }
{
    let end = at as usize + usize::from(size);
    if (at as usize).max(words.0 as usize) < end.min(words.1 as usize) {
        fill(end * F::WIDTH, message);
        write_stripe(field, progress.coefficients(stripe), at, message);
    }
}

/// Fills bytes up with zeros to so many, for which there is room, where they are fewer.
fn fill(size: usize, bytes: &mut Vec<u8>)
    requires { size ≤ vec_capacity bytes.old }
    ensures items { bytes.new.items ≡ filled size bytes.old.items }
    ensures room { vec_capacity bytes.old ≤ vec_capacity bytes.new }
{
    if bytes.len() < size {
        match bytes.resize(size, 0) {
            Ok(()) => {}
            Err(_) => unreachable!(),
        }
    }
}

/// Writes a stripe's words, from the message's word `at` on.
fn write_stripe<F: Rows>(field: &F, stripe: &[F::Elem], at: u32, message: &mut [u8])
    requires elements { All F.is_element stripe.now }
    requires room { (at + length stripe.now) * F.coding.width ≤ length message.old }
    ensures { message.new ≡ take (at * F.coding.width) message.old
        ++ flat_map F.coding.spelling stripe.now
        ++ drop ((at + length stripe.now) * F.coding.width) message.old }
{
    for i in 0..stripe.len() {
        let place = (at as usize + i) * F::WIDTH;
        field.write(stripe[i], &mut message[place..place + F::WIDTH]);
    }
}
