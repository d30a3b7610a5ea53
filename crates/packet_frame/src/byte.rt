//! The frames of the byte profile, which tell the layers' own lengths, and have one byte for each stripe.
ghost use Rattle.std.specs.Prelude.{◌≡◌, None, Some, MatchResult, IfOk, IsOkAnd};
ghost use Rattle.packet_frame.specs.Frame.{Fields, IsByteFrame, byte_text};
ghost use Rattle.packet_frame.specs.Refusals.{byte_fields_of, first_byte_fault};
ghost use Rattle.packet_frame.specs.View.{byte_view};

use crate::fault::FrameFault;
use crate::format::BYTE_FORMAT;
use crate::text::read_text;
use stripe_plan::ByteTable;

/// A packet of the byte profile, whose payload borrows the bytes that it was read from.
#[derive(Drop, Debug)]
pub struct ByteFrame<'a> {
    /// The number of the session.
    pub session: [u8; 8],
    /// How many groups the session has, 1 to 65,535.
    pub groups: u32,
    /// The group, below `groups`.
    pub group: u32,
    /// The group's packets and layers.
    pub table: ByteTable,
    /// The packet's number, below the table's packets.
    pub number: u16,
    /// One byte for each stripe of `table.plan()`.
    pub payload: &'a [u8],
}

/// Reads a frame of the byte profile, or answers the first refusal of its bytes. It takes no memory.
pub fn read_byte_frame(bytes: &[u8]) -> Result<ByteFrame<'_>, FrameFault>
    ensures refused { MatchResult result (λ _. first_byte_fault bytes.now ≡ None)
        (λ fault. first_byte_fault bytes.now ≡ Some fault) }
    ensures fields { IfOk result (λ frame. byte_view frame ≡ byte_fields_of bytes.now) }

    // What is read is a frame, and the bytes are its text.
    ensures ranges { IfOk result (λ frame. IsByteFrame (byte_view frame)) }
    ensures spelled { IfOk result (λ frame. bytes.now ≡ byte_text (byte_view frame)) }

    // The text of a frame is read as that frame.
    ensures read { (fields : Fields) → IsByteFrame fields → bytes.now ≡ byte_text fields
        → IsOkAnd result (λ frame. byte_view frame ≡ fields) }
{
    read_fields(bytes)
}

/// The same by its exact answer alone.
fn read_fields(bytes: &[u8]) -> Result<ByteFrame<'_>, FrameFault>
    ensures refused { MatchResult result (λ _. first_byte_fault bytes.now ≡ None)
        (λ fault. first_byte_fault bytes.now ≡ Some fault) }
    ensures fields { IfOk result (λ frame. byte_view frame ≡ byte_fields_of bytes.now) }
{
    let parts = read_text(&BYTE_FORMAT, bytes)?;
    let head = parts.head;
    let session = head.session;
    let table = ByteTable::known(head.packets, &parts.layers);
    Ok(ByteFrame {
        session,
        groups: head.groups,
        group: head.group,
        table,
        number: head.number,
        payload: parts.payload,
    })
}
