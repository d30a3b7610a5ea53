//! The encoder of one group.
ghost use Rattle.std.specs.Prelude.{◌≡◌, ℕ, ◌+◌, ◌*◌, ◌<◌, ◌≤◌, ◌++◌, length, IfOk, OnOk, OnErr};
ghost use Rattle.packet_frame.specs.Frame.{IsFrame, text};
ghost use Rattle.packet_session.specs.Encoding.{IsGroupOf, frame_of, frames_text};
ghost use Rattle.packet_session.specs.Session.{Session, IsMessage, IsPacketOf};
ghost use Rattle.packet_encoder.specs.Payloads.{HasPayloads};
ghost use Rattle.stripe_plan.specs.Layers.{needs_of, plan_ends};
ghost use Rattle.stripe_plan.specs.Sizes.{IsTable};

use field_elements::Field;
use field_rows::Rows;
use field_values::AllValues;
use packet_encoder::PacketEncoder;
use packet_frame::{FORMAT, Header};
use pet_base::{MAX_DATAGRAM, MAX_GROUPS, MAX_PACKETS, NoMemory, Steps};
use std::alloc::Global;
use std::marker::Model;
use std::sync::ledger::Ledger;

/// What makes the packets of one group.
#[derive(Drop)]
pub struct Encoder<'f, F: Field> {
    core: PacketEncoder<'f, F>,
}

impl<'f, F: Field> Model for Encoder<'f, F> {
    ghost use Rattle.std.specs.Prelude.{◌≡◌};
    ghost use Rattle.packet_frame.specs.declared.format.TheConstants.{FORMAT};
    ghost use Rattle.packet_session.specs.Encoding.{Encoding};

    ghost Value = { Encoding };

    ghost view = { λ e. e.core.encoding };

    ghost invariant = { λ e. e.core.format ≡ FORMAT };
}

impl<'f, F: Field> Encoder<'f, F> {
    /// The encoder of the group of this header, whose message has two bytes for each word of the table. The elements of
    /// the field are written in two bytes, and it has a point for each of `MAX_PACKETS` numbers. It fails only for want
    /// of memory.
    pub fn new(
        alloc: Global,
        f: &'f F,
        header: Header,
        message: &[u8],
    ) -> Result<Encoder<'f, F>, NoMemory>
        requires width { F.coding.width ≡ 2 }
        requires points { MAX_PACKETS ≤ F.COUNT }
        requires groups { header.groups ≤ MAX_GROUPS }
        requires group { header.group < header.groups }
        requires message { length message.now
            ≡ length (needs_of header.table.layers) * F.coding.width }
        ensures header { IfOk result (λ e. e.header ≡ header) }
        ensures message { IfOk result (λ e. e.message ≡ message.now) }
    {
        let core = PacketEncoder::new(alloc, f, FORMAT, header, message)?;
        Ok(Encoder { core })
    }

    /// What the packets share.
    pub fn header(&self) -> &Header
        ensures value { result.now ≡ self.now.header }
        ensures groups { self.now.header.groups ≤ MAX_GROUPS }
        ensures group { self.now.header.group < self.now.header.groups }
        ensures table { IsTable self.now.header.table.packets self.now.header.table.layers }
        ensures message { IsMessage F.coding.width self.now.header.table.layers self.now.message }
    {
        self.core.header()
    }

    /// The length of a payload of the group.
    pub fn payload_length(&self) -> usize
        ensures value { result ≡ F.coding.width * length (plan_ends self.now.header.table.layers) }
        ensures narrow { result ≤ MAX_DATAGRAM }
    {
        self.core.payload_length()
    }

    /// Appends the frame of the packet `number`, of which this is the payload. Where it finds no memory, `into` is as before.
    pub fn frame_with(
        &self,
        number: u16,
        payload: &[u8],
        into: &mut Vec<u8>,
    ) -> Result<(), NoMemory>
        requires number { number < self.now.header.table.packets }
        requires payload { payload.now ≡ (frame_of F.coding self.now number).payload }
        ensures ok { OnOk result (into.new.items
            ≡ into.old.items ++ text (frame_of F.coding self.now number)) }
        ensures err { OnErr result (into.new.items ≡ into.old.items) }
        ensures ranges { OnOk result (IsFrame (frame_of F.coding self.now number)) }
    {
        self.core.frame_with(number, payload, into)
    }
}

impl<'f, F: Rows> Encoder<'f, F> {
    /// Appends the frame of the packet `number`, which is below the table's packets. It counts one step for each word of
    /// the table. Where it finds no memory, `into` is as before, and at most so many are counted.
    pub fn packet<L: Ledger>(
        &self,
        number: u16,
        into: &mut Vec<u8>,
        steps: &mut Steps<L>,
    ) -> Result<(), NoMemory>
        requires { number < self.now.header.table.packets }
        ensures ok { OnOk result (into.new.items
            ≡ into.old.items ++ text (frame_of F.coding self.now number)) }
        ensures err { OnErr result (into.new.items ≡ into.old.items) }
        ensures cost { steps.new ≤ steps.old + length (needs_of self.now.header.table.layers) }
        ensures counted { OnOk result (steps.new
            ≡ steps.old + length (needs_of self.now.header.table.layers)) }

        // The frame is in its ranges, and is a packet of each session that has this group.
        ensures ranges { OnOk result (IsFrame (frame_of F.coding self.now number)) }
        ensures session { (s : Session) → IsGroupOf s self.now
            → IsPacketOf F.coding s (frame_of F.coding self.now number) }
    {
        self.core.packet(number, into, steps)
    }
}

impl<'f, F: AllValues> Encoder<'f, F> {
    /// Appends the frames of all packets of the group, by number. It counts at most one step for each packet and word of the
    /// table. Where it finds no memory, `into` is as before.
    pub fn all<L: Ledger>(&self, into: &mut Vec<u8>, steps: &mut Steps<L>) -> Result<(), NoMemory>
        ensures ok { OnOk result (into.new.items ≡ into.old.items
            ++ frames_text F.coding self.now 0 self.now.header.table.packets) }
        ensures err { OnErr result (into.new.items ≡ into.old.items) }
        ensures cost { steps.new ≤ steps.old + self.now.header.table.packets
            * length (needs_of self.now.header.table.layers) }

        // Each frame is in its ranges, and is a packet of each session that has this group.
        ensures ranges { OnOk result ((number : ℕ) → number < self.now.header.table.packets
            → IsFrame (frame_of F.coding self.now number)) }
        ensures session { (s : Session) (number : ℕ) → IsGroupOf s self.now
            → number < self.now.header.table.packets
            → IsPacketOf F.coding s (frame_of F.coding self.now number) }
    {
        self.core.all(into, steps)
    }

    /// Appends the frames of the packets `first` to `first + count - 1`, which are packets of the group. It counts at most
    /// one step for each of them and word of the table. Where it finds no memory, `into` is as before.
    pub fn range<L: Ledger>(
        &self,
        first: u16,
        count: u16,
        into: &mut Vec<u8>,
        steps: &mut Steps<L>,
    ) -> Result<(), NoMemory>
        requires { first + count ≤ self.now.header.table.packets }
        ensures ok { OnOk result (into.new.items
            ≡ into.old.items ++ frames_text F.coding self.now first count) }
        ensures err { OnErr result (into.new.items ≡ into.old.items) }
        ensures cost { steps.new ≤ steps.old
            + count * length (needs_of self.now.header.table.layers) }

        // Each frame is in its ranges, and is a packet of each session that has this group.
        ensures ranges { OnOk result ((number : ℕ) → first ≤ number → number < first + count
            → IsFrame (frame_of F.coding self.now number)) }
        ensures session { (s : Session) (number : ℕ) → IsGroupOf s self.now
            → number < self.now.header.table.packets
            → IsPacketOf F.coding s (frame_of F.coding self.now number) }
    {
        self.core.range(first, count, into, steps)
    }

    /// Makes `into` the payloads of the packets `first` to `first + count - 1`, on end. It counts at most one step for each of
    /// them and word of the table.
    pub fn payloads<L: Ledger>(
        &self,
        first: u16,
        count: u16,
        into: &mut Vec<u8>,
        steps: &mut Steps<L>,
    ) -> Result<(), NoMemory>
        requires { first + count ≤ self.now.header.table.packets }
        ensures payloads { OnOk result (HasPayloads F.coding self.now first count into.new.items) }
        ensures cost { steps.new ≤ steps.old
            + count * length (needs_of self.now.header.table.layers) }
    {
        self.core.payloads(first, count, into, steps)
    }
}
