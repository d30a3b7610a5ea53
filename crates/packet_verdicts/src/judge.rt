//! The verdict of a frame by what is kept of its group.
ghost use Rattle.std.specs.Prelude.{◌≡◌, ◌+◌, ◌^◌, ◌<◌, ◌≤◌, cond, length, not, ◌==◌, false};
ghost use Rattle.std.specs.Option.{option_map_or};
ghost use Rattle.packet_verdicts.specs.inside.ByCounts.{is_between, shown_by};
ghost use Rattle.packet_frame.specs.View.{view};
ghost use Rattle.packet_set.specs.Packets.{layers_of, count_in};
ghost use Rattle.packet_verdicts.specs.Verdicts.{layer_set, shown_between};
ghost use Rattle.packet_verdicts.specs.GroupVerdict.{verdict_in};

use crate::verdict::{LayerSet, Verdict};
use packet_frame::Frame;
use packet_set::PacketSet;
use pet_base::MAX_LAYERS;
use stripe_plan::{Table, counts};

/// The verdict of a frame of the session whose group is open, and which tells the number of groups that was told. It
/// takes no memory.
pub fn judge_in(packets: &PacketSet, frame: &Frame<'_>) -> Verdict
    ensures { result ≡ verdict_in (view frame.now) packets.now }
{
    if packets.header().table != frame.header.table {
        return Verdict::Clash;
    }
    match packets.payload(frame.number) {
        Some(payload) => {
            if payload == frame.payload {
                Verdict::Repeated
            } else {
                Verdict::Clash
            }
        }
        None => Verdict::Kept(shown_in_next(packets)),
    }
}

/// The layers that are shown by one packet more than `before`, and were not by those. It takes no memory.
pub fn shown_next(table: &Table, before: u16) -> LayerSet
    ensures { result ≡ layer_set (shown_between table.now.layers before (before + 1)) }
{
    shown_by_next(&counts(table), before)
}

/// The layers of a group that are shown by one packet more than are kept of it, and were not by those.
fn shown_in_next(packets: &PacketSet) -> LayerSet
    ensures { result ≡ layer_set (shown_between (layers_of packets.now) (count_in packets.now) (count_in packets.now + 1)) }
{
    shown_by_next(packets.counts(), packets.len())
}

/// The layers that are shown by one packet more than `before`, and were not by those, where so many packets show each layer.
fn shown_by_next(counts: &[u16], before: u16) -> LayerSet
    requires { length counts.now ≤ MAX_LAYERS }
    ensures { result ≡ layer_set (shown_by counts.now before (before + 1)) }
{
    let mut bits = 0;
    let held = u32::from(before);
    for layer in 0..counts.len() as u8 {
        let shown = is_shown_between(counts[usize::from(layer)], held, held + 1);
        bits = with_layer(bits, layer, shown);
    }
    LayerSet { bits }
}

/// Whether a layer that so many packets show is shown by `after` packets, and was not by `before`.
pub(crate) fn is_shown_between(needed: u16, before: u32, after: u32) -> bool
    ensures { result ≡ is_between before after needed }
{
    let needed = u32::from(needed);
    before < needed && needed <= after
}

/// The bits of some layers below `layer`, with that of `layer` where it is wanted.
fn with_layer(bits: u32, layer: u8, wanted: bool) -> u32
    requires below { bits < 2 ^ layer }
    requires layer { layer < 32 }
    ensures value { result ≡ bits + cond wanted (2 ^ layer) 0 }
    ensures below { result < 2 ^ (layer + 1) }
{
    if wanted { bits + (1u32 << layer) } else { bits }
}

/// Whether another number of groups was told. It takes no memory.
pub fn is_other_count(told: Option<u32>, groups: u32) -> bool
    ensures { result ≡ option_map_or (λ n. not (n == groups)) told false }
{
    match told {
        Some(count) => count != groups,
        None => false,
    }
}
