//! The packets of an encoder's group, a range of them at once.
ghost use Rattle.std.specs.Prelude.{◌≡◌, ◌+◌, ◌*◌, ◌<◌, ◌≤◌, [], OnOk, length};
ghost use Rattle.packet_frame.specs.Frame.{IsFrame, text};
ghost use Rattle.packet_rebuild.specs.MadeRange.{IsMadeRange};
ghost use Rattle.packet_session.specs.Encoding.{frame_of};
ghost use Rattle.stripe_plan.specs.Layers.{needs_of};

use field_elements::Field;
use field_values::AllValues;
use pet_base::{MAX_ENTRY, NoMemory, Steps};
use pet_encode::Encoder;
use std::alloc::Global;
use std::sync::ledger::Ledger;
use stripe_plan::{Table, datagram_length};

/// The bytes that the packets of a range may have: those of a group that fit are made at once.
const RANGE_ROOM: u32 = 16_777_216;

/// The payloads of a range of an encoder's packets, which are kept until those of another range are made.
#[derive(Drop)]
pub struct MadeRange {
    /// The number of the first of these packets.
    pub first: u16,
    /// How many they are.
    pub count: u16,
    /// Their payloads, on end.
    pub payloads: Vec<u8>,
}

impl MadeRange {
    /// No packets.
    pub fn new(alloc: Global) -> MadeRange {
        MadeRange {
            first: 0,
            count: 0,
            payloads: Vec::new(alloc),
        }
    }

    /// Forgets its packets.
    pub(crate) fn clear(&mut self)
        ensures first { self.new.first ≡ 0 }
        ensures count { self.new.count ≡ 0 }
        ensures payloads { self.new.payloads.items ≡ [] }
    {
        self.first = 0;
        self.count = 0;
        self.payloads.clear();
    }

    /// The payload of a packet of the range.
    pub(crate) fn payload<F: Field>(&self, encoder: &Encoder<'_, F>, number: u16) -> &[u8]
        requires made { IsMadeRange F.coding encoder.now self.now }
        requires from { self.now.first ≤ number }
        requires before { number < self.now.first + self.now.count }
        ensures { result.now ≡ (frame_of F.coding encoder.now number).payload }
    {
        let length = encoder.payload_length();
        let start = usize::from(number - self.first) * length;
        &self.payloads[start..start + length]
    }
}

/// How many packets are made at once.
pub fn at_once(table: &Table) -> u32
    ensures { 0 < result }
{
    (RANGE_ROOM / datagram_length(table)).max(1)
}

/// How many of the group's packets are made at once, from this one on.
pub fn next_count<F: Field>(encoder: &Encoder<'_, F>, first: u16) -> u16
    requires { first < encoder.now.header.table.packets }
    ensures some { 0 < result }
    ensures within { first + result ≤ encoder.now.header.table.packets }
{
    let table = &encoder.header().table;
    at_once(table).min(u32::from(table.packets() - first)) as u16
}

/// Makes the payloads of a range of the group's packets, unless they are those that are kept.
pub fn make_range<F: AllValues, L: Ledger>(
    encoder: &Encoder<'_, F>,
    first: u16,
    count: u16,
    made: &mut MadeRange,
    steps: &mut Steps<L>,
) -> Result<(), NoMemory>
    requires within { first + count ≤ encoder.now.header.table.packets }
    requires made { IsMadeRange F.coding encoder.now made.old }
    ensures made { OnOk result (IsMadeRange F.coding encoder.now made.new) }
    ensures first { OnOk result (made.new.first ≡ first) }
    ensures count { OnOk result (made.new.count ≡ count) }
    ensures cost { steps.new ≤ steps.old
        + count * length (needs_of encoder.now.header.table.layers) }
{
    if made.first == first && made.count == count {
        return Ok(());
    }
    encoder.payloads(first, count, &mut made.payloads, steps)?;
    made.first = first;
    made.count = count;
    Ok(())
}

/// Makes the buffer the frame of a packet of the range.
pub fn make_frame<F: Field>(
    encoder: &Encoder<'_, F>,
    made: &MadeRange,
    number: u16,
    frame: &mut Vec<u8>,
) -> Result<(), NoMemory>
    requires made { IsMadeRange F.coding encoder.now made.now }
    requires from { made.now.first ≤ number }
    requires before { number < made.now.first + made.now.count }
    ensures frame { OnOk result (frame.new.items ≡ text (frame_of F.coding encoder.now number)) }
    ensures ranges { OnOk result (IsFrame (frame_of F.coding encoder.now number)) }
    ensures short { OnOk result (length frame.new.items ≤ MAX_ENTRY) }
{
    frame.clear();
    encoder.frame_with(number, made.payload(encoder, number), frame)?;
    Ok(())
}
