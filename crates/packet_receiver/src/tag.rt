//! The tag of a frame that was read.
ghost use Rattle.std.specs.Prelude.{◌≡◌, None, IfSome};
ghost use Rattle.packet_frame.specs.Format.{IsFormat};
ghost use Rattle.packet_frame.specs.Planned.{planned_fields};
ghost use Rattle.packet_frame.specs.Refusals.{first_fault_in};
ghost use Rattle.packet_group.specs.Tags.{frame_tag};

use packet_frame::{FORMAT, Format};

/// The last bytes of a frame that was read, where they are its tag as frames are written today too: of another format it tells
/// none.
pub(crate) fn read_tag(format: &Format, datagram: &[u8]) -> Option<[u8; 16]>
    requires format { IsFormat format.now }
    requires read { first_fault_in format.now datagram.now ≡ None }
    ensures { IfSome result (λ tag. tag ≡ frame_tag (planned_fields format.now datagram.now)) }
{
    if format.mark != FORMAT.mark || format.tag != FORMAT.tag || format.bounds.doubled {
        return None;
    }
    match datagram.split_last_chunk::<16>() {
        Some((_, tag)) => Some(*tag),
        None => None,
    }
}
