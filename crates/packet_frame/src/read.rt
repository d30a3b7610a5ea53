//! A frame from its bytes.
ghost use Rattle.std.specs.Prelude.{◌≡◌, None, Some, MatchResult, IfOk, IsOkAnd};
ghost use Rattle.packet_frame.specs.Frame.{Fields, IsFrame, text};
ghost use Rattle.packet_frame.specs.Refusals.{fields_of, first_fault};
ghost use Rattle.packet_frame.specs.View.{view};

use crate::fault::FrameFault;
use crate::format::FORMAT;
use crate::frame::Frame;
use crate::planned::read_planned;

/// Reads a frame, or answers the first refusal of its bytes. It takes no memory.
pub fn read_frame(bytes: &[u8]) -> Result<Frame<'_>, FrameFault>
    ensures refused { MatchResult result (λ _. first_fault bytes.now ≡ None)
        (λ fault. first_fault bytes.now ≡ Some fault) }
    ensures fields { IfOk result (λ frame. view frame ≡ fields_of bytes.now) }

    // What is read is a frame, and the bytes are its text.
    ensures ranges { IfOk result (λ frame. IsFrame (view frame)) }
    ensures spelled { IfOk result (λ frame. bytes.now ≡ text (view frame)) }

    // The text of a frame is read as that frame.
    ensures read { (fields : Fields) → IsFrame fields → bytes.now ≡ text fields
        → IsOkAnd result (λ frame. view frame ≡ fields) }
{
    read_planned(&FORMAT, bytes)
}
