//! The verdict of a frame by what is kept of its group, or where its group is not open.
ghost use Rattle.std.specs.Prelude.{◌≡◌, ◌≤◌, option_copied};
ghost use Rattle.packet_frame.specs.View.{view};
ghost use Rattle.packet_receiver.specs.inside.Receiving.{verdict_by, verdict_new};

use packet_frame::Frame;
use packet_session::group_cost_by;
use packet_set::PacketSet;
use packet_verdicts::{Verdict, judge_in, shown_next};

/// The verdict by what is kept of the frame's group. The open groups cost `cost`, at most `limit`.
pub(crate) fn judge_group(
    mine: Option<&PacketSet>,
    frame: &Frame<'_>,
    word: u32,
    limit: u64,
    cost: u64,
) -> Verdict
    requires word { word ≤ 2 }
    requires room { cost ≤ limit }
    ensures { result ≡ verdict_by word (view frame.now) (option_copied mine.entry) limit cost }
{
    match mine {
        Some(packets) => judge_in(packets, frame),
        None => judge_new(frame, word, limit, cost),
    }
}

/// The verdict where the group is not open. The open groups cost `cost`, at most `limit`.
fn judge_new(frame: &Frame<'_>, word: u32, limit: u64, cost: u64) -> Verdict
    requires word { word ≤ 2 }
    requires room { cost ≤ limit }
    ensures { result ≡ verdict_new word (view frame.now) limit cost }
{
    if limit - cost < group_cost_by(&frame.header.table, word) {
        return Verdict::Full;
    }
    Verdict::Kept(shown_next(&frame.header.table, 0))
}
