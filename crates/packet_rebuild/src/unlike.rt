//! Whether the packets that are kept of a group are those of its encoder.
ghost use Rattle.std.specs.Prelude.{◌≡◌, ◌+◌, ◌*◌, ◌<◌, ◌≤◌, IfOk, OnOk, Some, None, false, length, not, option_map};
ghost use Rattle.std.specs.Option.{option_map_or};
ghost use Rattle.std.specs.Str.{bytes_eq};
ghost use Rattle.packet_session.specs.Encoding.{frame_of};
ghost use Rattle.packet_verdicts.specs.KeptSet.{open_group, payload_of};
ghost use Rattle.pet_receive.specs.Arrivals.{kept_set};
ghost use Rattle.packet_rebuild.specs.MadeRange.{IsMadeRange};
ghost use Rattle.packet_rebuild.specs.Repairs.{unlike_in, first_unlike_of};
ghost use Rattle.stripe_plan.specs.Layers.{needs_of};

use crate::ranges::{MadeRange, make_range, next_count};
use field_values::AllValues;
use pet_base::{NoMemory, Steps};
use pet_encode::Encoder;
use pet_receive::Receiver;
use std::alloc::Global;
use std::sync::ledger::Ledger;

/// The least number of a packet that is kept of the encoder's group with another payload than the encoder's, where there is
/// one. Each packet counts at most one step for each word of the table.
pub fn first_unlike<F: AllValues, L: Ledger>(
    alloc: Global,
    receiver: &Receiver<'_, F>,
    encoder: &Encoder<'_, F>,
    steps: &mut Steps<L>,
) -> Result<Option<u16>, NoMemory>
    requires header { option_map (λ p. p.header)
        (open_group (kept_set receiver.now) encoder.now.header.group) ≡ Some encoder.now.header }
    ensures least { IfOk result (λ found. found
        ≡ first_unlike_of F.coding (kept_set receiver.now) encoder.now) }
    ensures cost { steps.new ≤ steps.old + encoder.now.header.table.packets
        * length (needs_of encoder.now.header.table.layers) }
{
    find_unlike(receiver, encoder, &mut MadeRange::new(alloc), steps)
}

/// The same, by payloads that are made a range at once, of which those of the last range are kept.
pub fn find_unlike<F: AllValues, L: Ledger>(
    receiver: &Receiver<'_, F>,
    encoder: &Encoder<'_, F>,
    made: &mut MadeRange,
    steps: &mut Steps<L>,
) -> Result<Option<u16>, NoMemory>
    requires header { option_map (λ p. p.header)
        (open_group (kept_set receiver.now) encoder.now.header.group) ≡ Some encoder.now.header }
    ensures least { IfOk result (λ found. found
        ≡ first_unlike_of F.coding (kept_set receiver.now) encoder.now) }
    ensures cost { steps.new ≤ steps.old + encoder.now.header.table.packets
        * length (needs_of encoder.now.header.table.layers) }
    ensures made { OnOk result (IsMadeRange F.coding encoder.now made.new) }
{
    let packets = encoder.header().table.packets();
    made.clear();
    let mut first = 0;
    while first < packets {
        let count = next_count(encoder, first);
        let found = unlike_among(receiver, encoder, first, count, made, steps)?;
        if found.is_some() {
            return Ok(found);
        }
        first += count;
    }
    Ok(None)
}

/// The least such number in a range, whose packets are those of the group.
fn unlike_among<F: AllValues, L: Ledger>(
    receiver: &Receiver<'_, F>,
    encoder: &Encoder<'_, F>,
    first: u16,
    count: u16,
    made: &mut MadeRange,
    steps: &mut Steps<L>,
) -> Result<Option<u16>, NoMemory>
    requires within { first + count ≤ encoder.now.header.table.packets }
    requires made { IsMadeRange F.coding encoder.now made.old }
    ensures least { IfOk result (λ found. found
        ≡ unlike_in F.coding (kept_set receiver.now) encoder.now first count) }
    ensures cost { steps.new ≤ steps.old
        + count * length (needs_of encoder.now.header.table.layers) }
    ensures made { OnOk result (IsMadeRange F.coding encoder.now made.new) }
{
    make_range(encoder, first, count, made, steps)?;
    let group = encoder.header().group;
    for p in 0..count {
        if is_other(receiver, encoder, made, group, first + p) {
            return Ok(Some(first + p));
        }
    }
    Ok(None)
}

/// Whether the packet of the encoder's group and of this number is kept with another payload than that of the range.
fn is_other<F: AllValues>(
    receiver: &Receiver<'_, F>,
    encoder: &Encoder<'_, F>,
    made: &MadeRange,
    group: u32,
    number: u16,
) -> bool
    requires group { group ≡ encoder.now.header.group }
    requires made { IsMadeRange F.coding encoder.now made.now }
    requires from { made.now.first ≤ number }
    requires before { number < made.now.first + made.now.count }
    ensures { result ≡ option_map_or
        (λ payload. not (bytes_eq payload (frame_of F.coding encoder.now number).payload))
        (payload_of (kept_set receiver.now) encoder.now.header.group number) false }
{
    match receiver.packet(group, number) {
        Some(payload) => payload != made.payload(encoder, number),
        None => false,
    }
}
