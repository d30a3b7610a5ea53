//! The frames of the first version.
ghost use Rattle.std.specs.Prelude.{◌≡◌, None, Some, MatchResult, IfOk, IsOkAnd};
ghost use Rattle.packet_frame.specs.Frame.{Fields, IsOldFrame, old_text};
ghost use Rattle.packet_frame.specs.Refusals.{old_fields_of, first_old_fault};
ghost use Rattle.packet_frame.specs.View.{old_view};

use crate::fault::FrameFault;
use crate::format::OLD_FORMAT;
use crate::text::read_text;
use stripe_plan::OldTable;

/// A packet of the first version, whose payload borrows the bytes that it was read from.
#[derive(Drop, Debug)]
pub struct OldFrame<'a> {
    /// The number of the session.
    pub session: [u8; 8],
    /// How many groups the session has, 1 to 65,535.
    pub groups: u32,
    /// The group, below `groups`.
    pub group: u32,
    /// The group's packets and layers.
    pub table: OldTable,
    /// The packet's number, below the table's packets.
    pub number: u16,
    /// Two bytes for each stripe of the table's plan.
    pub payload: &'a [u8],
}

/// Reads a frame of the first version, or answers the first refusal of its bytes. It takes no memory.
pub fn read_old_frame(bytes: &[u8]) -> Result<OldFrame<'_>, FrameFault>
    ensures refused { MatchResult result (λ _. first_old_fault bytes.now ≡ None)
        (λ fault. first_old_fault bytes.now ≡ Some fault) }
    ensures fields { IfOk result (λ frame. old_view frame ≡ old_fields_of bytes.now) }

    // What is read is a frame, and the bytes are its text.
    ensures ranges { IfOk result (λ frame. IsOldFrame (old_view frame)) }
    ensures spelled { IfOk result (λ frame. bytes.now ≡ old_text (old_view frame)) }

    // The text of a frame is read as that frame.
    ensures read { (fields : Fields) → IsOldFrame fields → bytes.now ≡ old_text fields
        → IsOkAnd result (λ frame. old_view frame ≡ fields) }
{
    read_fields(bytes)
}

/// The same by its exact answer alone.
fn read_fields(bytes: &[u8]) -> Result<OldFrame<'_>, FrameFault>
    ensures refused { MatchResult result (λ _. first_old_fault bytes.now ≡ None)
        (λ fault. first_old_fault bytes.now ≡ Some fault) }
    ensures fields { IfOk result (λ frame. old_view frame ≡ old_fields_of bytes.now) }
{
    let parts = read_text(&OLD_FORMAT, bytes)?;
    let head = parts.head;
    let session = head.session;
    let table = OldTable::known(head.packets, &parts.layers);
    Ok(OldFrame {
        session,
        groups: head.groups,
        group: head.group,
        table,
        number: head.number,
        payload: parts.payload,
    })
}
