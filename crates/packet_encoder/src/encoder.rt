//! The encoder of one group.
ghost use Rattle.std.specs.Prelude.{◌≡◌, ℕ, ◌+◌, ◌*◌, ◌<◌, ◌≤◌, ◌++◌, length, IfOk, OnOk, OnErr, vec_len, vec_capacity};
ghost use Rattle.packet_session.specs.Encoding.{frames_text_in};
ghost use Rattle.packet_frame.specs.Format.{IsFormat};
ghost use Rattle.packet_frame.specs.Planned.{planned_text, IsPlannedFrame, IsPlanTableIn};
ghost use Rattle.packet_session.specs.Encoding.{IsGroupOf, frame_of, values_at};
ghost use Rattle.packet_session.specs.Session.{Session, IsMessage, IsPacketOf};
ghost use Rattle.field_values.specs.Matrix.{HasRows};
ghost use Rattle.packet_encoder.specs.Payloads.{HasPayloads};
ghost use Rattle.stripe_plan.specs.Layers.{needs_of, plan_ends, plan_stripes};
ghost use Rattle.stripe_plan.specs.Sizes.{IsTable, length_by};
ghost use Rattle.stripe_plan.specs.declared.bounds.TheConstants.{BOUNDS};

use crate::laid::{laid_words, plan_blocks};
use crate::values::{append_elements, stripe_values};
use field_elements::Field;
use field_rows::{Block, Rows};
use field_values::AllValues;
use packet_frame::{Format, Header, append, begin_planned, end_planned};
use pet_base::{MAX_DATAGRAM, MAX_GROUPS, NoMemory, Steps};
use std::alloc::Global;
use std::marker::Model;
use std::sync::ledger::Ledger;
use stripe_plan::{datagram_length_by, stripes};

/// What makes the packets of one group, as frames of a format.
#[derive(Drop)]
pub struct PacketEncoder<'f, F: Field> {
    field: &'f F,
    /// The format of the frames.
    format: Format,
    /// What the packets share, by the table whose words the plan cuts.
    header: Header,
    /// The stripes of the plan in blocks.
    blocks: Vec<Block>,
    /// The words of the message, one block after another.
    laid: Vec<F::Elem>,
}

impl<'f, F: Field> Model for PacketEncoder<'f, F> {
    ghost use Rattle.std.specs.List.{flat_map};
    ghost use Rattle.packet_encoder.specs.CodedGroup.{CodedGroup};
    ghost use Rattle.packet_encoder.specs.Stored.{IsCoded, IsStored, words_in};

    ghost Value = { CodedGroup };

    ghost view = { λ e. record {
      format = e.format;
      encoding = record {
        header = e.header;
        message = flat_map F.coding.spelling (words_in F.coding e.blocks.items e.laid.items);
      };
    } };

    ghost invariant = { λ e. IsStored F.is_element F.COUNT F.coding e.header e.blocks.items
        e.laid.items × IsCoded e.format F.coding.width e.header };
}

impl<'f, F: Field> PacketEncoder<'f, F> {
    /// The encoder of the group of this header, whose table is one of the format, by the layers whose words the plan cuts.
    /// The message has an element of the field for each word, which is a word of the format, and the field has a point for
    /// each packet that the format allows. It fails only for want of memory.
    pub fn new(
        alloc: Global,
        f: &'f F,
        format: Format,
        header: Header,
        message: &[u8],
    ) -> Result<PacketEncoder<'f, F>, NoMemory>
        requires format { IsFormat format }
        requires word { format.word ≡ F.coding.width }
        requires points { format.bounds.packets ≤ F.COUNT }
        requires table { IsPlanTableIn format.bounds header.table.packets header.table.layers }
        requires groups { header.groups ≤ MAX_GROUPS }
        requires group { header.group < header.groups }
        requires message { length message.now
            ≡ length (needs_of header.table.layers) * F.coding.width }
        ensures format { IfOk result (λ e. e.format ≡ format) }
        ensures header { IfOk result (λ e. e.encoding.header ≡ header) }
        ensures message { IfOk result (λ e. e.encoding.message ≡ message.now) }
    {
        let plan = plan_blocks(alloc, &header.table)?;
        let laid = laid_words(alloc, f, &plan, message, header.table.words())?;
        Ok(PacketEncoder {
            field: f,
            format,
            header,
            blocks: plan,
            laid,
        })
    }

    /// Appends the frame of the packet `number`, of which these are the values. Where it finds no memory, `into` is as
    /// before.
    fn frame(&self, number: u16, values: &[F::Elem], into: &mut Vec<u8>) -> Result<(), NoMemory>
        requires number { number < self.now.encoding.header.table.packets }
        requires values { values.now ≡ values_at F.coding self.now.encoding number }
        ensures ok { OnOk result (into.new.items ≡ into.old.items
            ++ planned_text self.now.format (frame_of F.coding self.now.encoding number)) }
        ensures err { OnErr result (into.new.items ≡ into.old.items) }
        ensures ranges { OnOk result (IsPlannedFrame self.now.format
            (frame_of F.coding self.now.encoding number)) }
    {
        let start = into.len();
        begin_planned(&self.format, &self.header, number, into)?;
        append_elements(self.field, values, into);
        end_planned(&self.format, start, into);
        Ok(())
    }

    /// Appends the frame of the packet `number`, of which this is the payload. Where it finds no memory, `into` is as before.
    pub fn frame_with(
        &self,
        number: u16,
        payload: &[u8],
        into: &mut Vec<u8>,
    ) -> Result<(), NoMemory>
        requires number { number < self.now.encoding.header.table.packets }
        requires payload { payload.now ≡ (frame_of F.coding self.now.encoding number).payload }
        ensures ok { OnOk result (into.new.items ≡ into.old.items
            ++ planned_text self.now.format (frame_of F.coding self.now.encoding number)) }
        ensures err { OnErr result (into.new.items ≡ into.old.items) }
        ensures ranges { OnOk result (IsPlannedFrame self.now.format
            (frame_of F.coding self.now.encoding number)) }
    {
        let start = into.len();
        begin_planned(&self.format, &self.header, number, into)?;
        append(payload, into);
        end_planned(&self.format, start, into);
        Ok(())
    }

    /// Appends the payload of the packet `number`, of which these are the values.
    fn payload(&self, number: u16, values: &[F::Elem], into: &mut Vec<u8>) -> Result<(), NoMemory>
        requires number { number < self.now.encoding.header.table.packets }
        requires values { values.now ≡ values_at F.coding self.now.encoding number }
        ensures payload { OnOk result (into.new.items ≡ into.old.items
            ++ (frame_of F.coding self.now.encoding number).payload) }
        ensures long { OnOk result (length (frame_of F.coding self.now.encoding number).payload
            ≡ F.coding.width * length (plan_ends self.now.encoding.header.table.layers)) }
    {
        into.reserve(self.payload_length())?;
        append_elements(self.field, values, into);
        Ok(())
    }

    /// The length of a payload of the group.
    pub fn payload_length(&self) -> usize
        ensures value { result ≡ F.coding.width * length (plan_ends self.now.encoding.header.table.layers) }
        ensures narrow { result ≤ MAX_DATAGRAM }
    {
        self.format.word * stripes(&self.header.table) as usize
    }

    /// The length of a frame of the group, by its plan's table.
    pub fn frame_length(&self) -> u32
        ensures value { result ≡ length_by self.now.format.word BOUNDS.bare
            self.now.encoding.header.table.layers }
        ensures narrow { result ≤ MAX_DATAGRAM }
    {
        datagram_length_by(&self.header.table, self.format.word as u32)
    }

    /// What the packets share.
    pub fn header(&self) -> &Header
        ensures value { result.now ≡ self.now.encoding.header }
        ensures groups { self.now.encoding.header.groups ≤ MAX_GROUPS }
        ensures group { self.now.encoding.header.group < self.now.encoding.header.groups }
        ensures table { IsTable self.now.encoding.header.table.packets
            self.now.encoding.header.table.layers }
        ensures message { IsMessage F.coding.width self.now.encoding.header.table.layers
            self.now.encoding.message }
    {
        &self.header
    }
}

impl<'f, F: Rows> PacketEncoder<'f, F> {
    /// Appends the frame of the packet `number`, which is below the table's packets. It counts one step for each word of
    /// the table. Where it finds no memory, `into` is as before, and at most so many are counted.
    pub fn packet<L: Ledger>(
        &self,
        number: u16,
        into: &mut Vec<u8>,
        steps: &mut Steps<L>,
    ) -> Result<(), NoMemory>
        requires { number < self.now.encoding.header.table.packets }
        ensures ok { OnOk result (into.new.items ≡ into.old.items
            ++ planned_text self.now.format (frame_of F.coding self.now.encoding number)) }
        ensures err { OnErr result (into.new.items ≡ into.old.items) }
        ensures cost { steps.new
            ≤ steps.old + length (needs_of self.now.encoding.header.table.layers) }
        ensures counted { OnOk result (steps.new
            ≡ steps.old + length (needs_of self.now.encoding.header.table.layers)) }

        // The frame is in its ranges, and is a packet of each session that has this group.
        ensures ranges { OnOk result (IsPlannedFrame self.now.format
            (frame_of F.coding self.now.encoding number)) }
        ensures session { (s : Session) → IsGroupOf s self.now.encoding
            → IsPacketOf F.coding s (frame_of F.coding self.now.encoding number) }
    {
        let alloc = *self.laid.allocator();
        let count = stripes(&self.header.table) as usize;
        let x = self.field.point(u32::from(number));
        let values = stripe_values(alloc, self.field, &self.blocks, &self.laid, count, x, steps)?;
        self.frame(number, &values, into)
    }
}

impl<'f, F: AllValues> PacketEncoder<'f, F> {
    /// Appends the frames of all packets of the group, by number. It counts at most one step for each packet and word of the
    /// table. Where it finds no memory, `into` is as before.
    pub fn all<L: Ledger>(&self, into: &mut Vec<u8>, steps: &mut Steps<L>) -> Result<(), NoMemory>
        ensures ok { OnOk result (into.new.items ≡ into.old.items
            ++ frames_text_in self.now.format F.coding self.now.encoding 0
            self.now.encoding.header.table.packets) }
        ensures err { OnErr result (into.new.items ≡ into.old.items) }
        ensures cost { steps.new ≤ steps.old + self.now.encoding.header.table.packets
            * length (needs_of self.now.encoding.header.table.layers) }

        // Each frame is in its ranges, and is a packet of each session that has this group.
        ensures ranges { OnOk result ((number : ℕ)
            → number < self.now.encoding.header.table.packets
            → IsPlannedFrame self.now.format (frame_of F.coding self.now.encoding number)) }
        ensures session { (s : Session) (number : ℕ) → IsGroupOf s self.now.encoding
            → number < self.now.encoding.header.table.packets
            → IsPacketOf F.coding s (frame_of F.coding self.now.encoding number) }
    {
        self.range(0, self.header().table.packets(), into, steps)
    }

    /// Appends the frames of the packets `first` to `first + count - 1`, which are packets of the group. It counts at most
    /// one step for each of them and word of the table. Where it finds no memory, `into` is as before.
    pub fn range<L: Ledger>(
        &self,
        first: u16,
        count: u16,
        into: &mut Vec<u8>,
        steps: &mut Steps<L>,
    ) -> Result<(), NoMemory>
        requires { first + count ≤ self.now.encoding.header.table.packets }
        ensures ok { OnOk result (into.new.items ≡ into.old.items
            ++ frames_text_in self.now.format F.coding self.now.encoding first count) }
        ensures err { OnErr result (into.new.items ≡ into.old.items) }
        ensures cost { steps.new ≤ steps.old
            + count * length (needs_of self.now.encoding.header.table.layers) }

        // Each frame is in its ranges, and is a packet of each session that has this group.
        ensures ranges { OnOk result ((number : ℕ) → first ≤ number → number < first + count
            → IsPlannedFrame self.now.format (frame_of F.coding self.now.encoding number)) }
        ensures session { (s : Session) (number : ℕ) → IsGroupOf s self.now.encoding
            → number < self.now.encoding.header.table.packets
            → IsPacketOf F.coding s (frame_of F.coding self.now.encoding number) }
    {
        let values = self.rows(first, count, steps)?;
        self.frames(first, count, &values, into)
    }

    /// Makes `into` the payloads of the packets `first` to `first + count - 1`, on end. It counts at most one step for each of
    /// them and word of the table.
    pub fn payloads<L: Ledger>(
        &self,
        first: u16,
        count: u16,
        into: &mut Vec<u8>,
        steps: &mut Steps<L>,
    ) -> Result<(), NoMemory>
        requires { first + count ≤ self.now.encoding.header.table.packets }
        ensures payloads { OnOk result (HasPayloads F.coding self.now.encoding first count
            into.new.items) }
        ensures cost { steps.new ≤ steps.old
            + count * length (needs_of self.now.encoding.header.table.layers) }
    {
        let rows = self.rows(first, count, steps)?;
        self.spell(first, count, &rows, into)
    }

    /// Makes `into` the payloads of the packets `first` to `first + count - 1`, whose values are these rows.
    fn spell(
        &self,
        first: u16,
        count: u16,
        values: &[F::Elem],
        into: &mut Vec<u8>,
    ) -> Result<(), NoMemory>
        requires within { first + count ≤ self.now.encoding.header.table.packets }
        requires rows { HasRows (length (plan_stripes self.now.encoding.header.table.layers)) count
            (λ p. values_at F.coding self.now.encoding (first + p)) values.now }
        ensures payloads { OnOk result (HasPayloads F.coding self.now.encoding first count
            into.new.items) }
    {
        let wide = stripes(&self.header().table) as usize;
        into.clear();
        into.reserve(usize::from(count) * self.payload_length())?;
        let mut at = 0;
        for p in 0..count {
            let end = at + wide;
            self.payload(first + p, &values[at..end], into)?;
            at = end;
        }
        Ok(())
    }

    /// The values that the packets `first` to `first + count - 1` carry: a row for each.
    fn rows<L: Ledger>(
        &self,
        first: u16,
        count: u16,
        steps: &mut Steps<L>,
    ) -> Result<Vec<F::Elem>, NoMemory>
        requires { first + count ≤ self.now.encoding.header.table.packets }
        ensures rows { IfOk result (λ values. HasRows
            (length (plan_stripes self.now.encoding.header.table.layers)) count
            (λ p. values_at F.coding self.now.encoding (first + p)) values.items) }
        ensures cost { steps.new ≤ steps.old
            + count * length (needs_of self.now.encoding.header.table.layers) }
    {
        let alloc = *self.laid.allocator();
        let wide = stripes(&self.header.table) as usize;
        self.field.value_rows(
            alloc,
            &self.blocks,
            &self.laid,
            wide,
            usize::from(first),
            usize::from(count),
            steps,
        )
    }

    /// Appends the frames of the packets `first` to `first + count - 1`, whose values are these rows.
    fn frames(
        &self,
        first: u16,
        count: u16,
        values: &[F::Elem],
        into: &mut Vec<u8>,
    ) -> Result<(), NoMemory>
        requires within { first + count ≤ self.now.encoding.header.table.packets }
        requires rows { HasRows (length (plan_stripes self.now.encoding.header.table.layers)) count
            (λ p. values_at F.coding self.now.encoding (first + p)) values.now }
        ensures ok { OnOk result (into.new.items ≡ into.old.items
            ++ frames_text_in self.now.format F.coding self.now.encoding first count) }
        ensures err { OnErr result (into.new.items ≡ into.old.items) }
        ensures ranges { OnOk result ((number : ℕ) → first ≤ number → number < first + count
            → IsPlannedFrame self.now.format (frame_of F.coding self.now.encoding number)) }
    {
        let wide = stripes(&self.header().table) as usize;
        into.reserve(usize::from(count) * self.frame_length() as usize)?;
        let start = into.len();
        let mut at = 0;
        for p in 0..count {
            let end = at + wide;
            if let Err(none) = self.frame(first + p, &values[at..end], into) {
                into.truncate(start);
                return Err(none);
            }
            at = end;
        }
        Ok(())
    }
}
