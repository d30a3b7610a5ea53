//! The encoder of one group of the byte profile.
ghost use Rattle.std.specs.Prelude.{◌≡◌, ℕ, ◌+◌, ◌*◌, ◌<◌, ◌≤◌, ◌++◌, length, map, IfOk, OnOk, OnErr};
ghost use Rattle.packet_frame.specs.declared.format.TheConstants.{BYTE_FORMAT};
ghost use Rattle.packet_frame.specs.Planned.{planned_text, IsPlannedFrame, IsPlanTableIn};
ghost use Rattle.packet_session.specs.Encoding.{IsGroupOf, frame_of, frames_text_in};
ghost use Rattle.packet_session.specs.Session.{Session, IsPacketOf};
ghost use Rattle.stripe_plan.specs.Layers.{needs_of};
ghost use Rattle.stripe_plan.specs.Sizes.{twofold};
ghost use Rattle.stripe_plan.specs.declared.bounds.TheConstants.{BYTE_BOUNDS};

use field_elements::Field;
use field_rows::Rows;
use field_values::AllValues;
use packet_encoder::PacketEncoder;
use packet_frame::{BYTE_FORMAT, Header};
use pet_base::{MAX_GROUPS, NoMemory, Steps};
use std::alloc::Global;
use std::marker::Model;
use std::sync::ledger::Ledger;
use stripe_plan::ByteTable;

/// What makes the packets of one group of the byte profile.
#[derive(Drop)]
pub struct ByteEncoder<'f, F: Field> {
    core: PacketEncoder<'f, F>,
}

impl<'f, F: Field> Model for ByteEncoder<'f, F> {
    ghost use Rattle.std.specs.Prelude.{◌≡◌};
    ghost use Rattle.packet_frame.specs.declared.format.TheConstants.{BYTE_FORMAT};
    ghost use Rattle.packet_session.specs.Encoding.{Encoding};

    ghost Value = { Encoding };

    ghost view = { λ e. e.core.encoding };

    ghost invariant = { λ e. e.core.format ≡ BYTE_FORMAT };
}

impl<'f, F: Field> ByteEncoder<'f, F> {
    /// The encoder of a group with this table, of a session of so many groups, 1 to 65,535. The message is the bytes of all
    /// layers on end. The field has 256 elements, each written in a byte. It fails only for want of memory.
    pub fn new(
        alloc: Global,
        f: &'f F,
        session: [u8; 8],
        groups: u32,
        group: u32,
        table: ByteTable,
        message: &[u8],
    ) -> Result<ByteEncoder<'f, F>, NoMemory>
        requires width { F.coding.width ≡ 1 }
        requires points { F.COUNT ≡ 256 }
        requires groups { groups ≤ MAX_GROUPS }
        requires group { group < groups }
        requires message { length message.now ≡ length (needs_of (map twofold table.layers)) }
        ensures layers { IfOk result (λ e. e.header.table.layers ≡ map twofold table.layers) }
        ensures packets { IfOk result (λ e. e.header.table.packets ≡ table.packets) }
        ensures group { IfOk result (λ e. (e.header.session ≡ session) × (e.header.groups ≡ groups)
            × (e.header.group ≡ group)) }
        ensures message { IfOk result (λ e. e.message ≡ message.now) }
    {
        let header = header_of(session, groups, group, &table)?;
        let core = PacketEncoder::new(alloc, f, BYTE_FORMAT, header, message)?;
        Ok(ByteEncoder { core })
    }
}

impl<'f, F: Rows> ByteEncoder<'f, F> {
    /// Appends the frame of the packet `number`, which is below the table's packets. It counts one step for each byte of the
    /// layers. Where it finds no memory, `into` is as before, and at most so many are counted.
    pub fn packet<L: Ledger>(
        &self,
        number: u16,
        into: &mut Vec<u8>,
        steps: &mut Steps<L>,
    ) -> Result<(), NoMemory>
        requires { number < self.now.header.table.packets }
        ensures ok { OnOk result (into.new.items ≡ into.old.items
            ++ planned_text BYTE_FORMAT (frame_of F.coding self.now number)) }
        ensures err { OnErr result (into.new.items ≡ into.old.items) }
        ensures cost { steps.new ≤ steps.old + length (needs_of self.now.header.table.layers) }
        ensures counted { OnOk result (steps.new
            ≡ steps.old + length (needs_of self.now.header.table.layers)) }

        // The frame is in its ranges, and is a packet of each session that has this group.
        ensures ranges { OnOk result (IsPlannedFrame BYTE_FORMAT (frame_of F.coding self.now number)) }
        ensures session { (s : Session) → IsGroupOf s self.now
            → IsPacketOf F.coding s (frame_of F.coding self.now number) }
    {
        self.core.packet(number, into, steps)
    }
}

impl<'f, F: AllValues> ByteEncoder<'f, F> {
    /// Appends the frames of all packets of the group, by number. It counts at most one step for each packet and byte of the
    /// layers. Where it finds no memory, `into` is as before.
    pub fn all<L: Ledger>(&self, into: &mut Vec<u8>, steps: &mut Steps<L>) -> Result<(), NoMemory>
        ensures ok { OnOk result (into.new.items ≡ into.old.items
            ++ frames_text_in BYTE_FORMAT F.coding self.now 0 self.now.header.table.packets) }
        ensures err { OnErr result (into.new.items ≡ into.old.items) }
        ensures cost { steps.new ≤ steps.old + self.now.header.table.packets
            * length (needs_of self.now.header.table.layers) }

        // Each frame is in its ranges, and is a packet of each session that has this group.
        ensures ranges { OnOk result ((number : ℕ) → number < self.now.header.table.packets
            → IsPlannedFrame BYTE_FORMAT (frame_of F.coding self.now number)) }
        ensures session { (s : Session) (number : ℕ) → IsGroupOf s self.now
            → number < self.now.header.table.packets
            → IsPacketOf F.coding s (frame_of F.coding self.now number) }
    {
        self.core.all(into, steps)
    }

    /// Appends the frames of the packets `first` to `first + count - 1`, which are packets of the group. It counts at most
    /// one step for each of them and byte of the layers. Where it finds no memory, `into` is as before.
    pub fn range<L: Ledger>(
        &self,
        first: u16,
        count: u16,
        into: &mut Vec<u8>,
        steps: &mut Steps<L>,
    ) -> Result<(), NoMemory>
        requires { first + count ≤ self.now.header.table.packets }
        ensures ok { OnOk result (into.new.items ≡ into.old.items
            ++ frames_text_in BYTE_FORMAT F.coding self.now first count) }
        ensures err { OnErr result (into.new.items ≡ into.old.items) }
        ensures cost { steps.new ≤ steps.old
            + count * length (needs_of self.now.header.table.layers) }

        // Each frame is in its ranges, and is a packet of each session that has this group.
        ensures ranges { OnOk result ((number : ℕ) → first ≤ number → number < first + count
            → IsPlannedFrame BYTE_FORMAT (frame_of F.coding self.now number)) }
        ensures session { (s : Session) (number : ℕ) → IsGroupOf s self.now
            → number < self.now.header.table.packets
            → IsPacketOf F.coding s (frame_of F.coding self.now number) }
    {
        self.core.range(first, count, into, steps)
    }
}

/// What the packets of the group share, by the table whose words the plan cuts. The copy takes no memory.
fn header_of(
    session: [u8; 8],
    groups: u32,
    group: u32,
    table: &ByteTable,
) -> Result<Header, NoMemory>
    ensures layers { IfOk result (λ h. h.table.layers ≡ map twofold table.now.layers) }
    ensures packets { IfOk result (λ h. h.table.packets ≡ table.now.packets) }
    ensures planned { IfOk result (λ h. IsPlanTableIn BYTE_BOUNDS h.table.packets h.table.layers) }
    ensures group { IfOk result (λ h. (h.session ≡ session) × (h.groups ≡ groups)
        × (h.group ≡ group)) }
{
    let plan = table.plan().clone()?;
    Ok(Header {
        session,
        groups,
        group,
        table: plan,
    })
}
