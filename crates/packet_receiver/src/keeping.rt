//! One frame more for the open groups of a receiver.
ghost use Rattle.std.specs.Prelude.{◌≡◌, ℕ, ◌+◌, ◌≤◌, cond, is_none, List, [], ◌∷◌, ◌++◌, None, Some, option_map, unwrap_or, IfOk, IfSome, OnOk, OnErr};
ghost use Rattle.std.specs.Ordering.{nat_cmp};
ghost use Rattle.std.specs.BTreeMap.{is_at, IsOrdered};
ghost use Rattle.std.specs.Map.{lookup, set_value};
ghost use Rattle.packet_frame.specs.Frame.{IsFrameBy};
ghost use Rattle.packet_frame.specs.View.{view};
ghost use Rattle.packet_set.specs.Packets.{with_packet, count_in};
ghost use Rattle.pet_interp.specs.Progressive.{step_bound};
ghost use Rattle.stripe_plan.specs.Sizes.{cost_by};
ghost use Rattle.packet_group.specs.Tags.{frame_tag, IsTagOf};
ghost use Rattle.packet_receiver.specs.Arrivals.{GroupState, HoldsAfter, stripe_lengths};
ghost use Rattle.packet_receiver.specs.inside.Receiving.{IsReadyFor, HasGrown};

use crate::opening::open_missing;
use field_rows::Rows;
use packet_frame::Frame;
use packet_group::OpenGroup;
use pet_base::{NoMemory, Steps};
use std::alloc::Global;
use std::collections::BTreeMap;
use std::sync::ledger::Ledger;

/// Keeps a frame and its tag, where that is told. The frame's group is opened where it is not open. It answers by how much the
/// cost of the open groups rises.
pub(crate) fn keep_frame<'f, F: Rows, L: Ledger>(
    alloc: Global,
    field: &'f F,
    groups: &mut BTreeMap<u32, OpenGroup<'f, F>>,
    frame: &Frame<'_>,
    tag: Option<[u8; 16]>,
    steps: &mut Steps<L>,
) -> Result<u64, NoMemory>
    requires width { F.coding.width ≤ 2 }
    requires points { frame.now.header.table.packets ≤ F.COUNT }
    requires frame { IsFrameBy F.coding.width (view frame.now) }
    requires tag { IfSome tag (λ bytes. bytes ≡ frame_tag (view frame.now)) }
    requires ready { IsReadyFor F.is_element F.coding groups.old.entries
        (view frame.now) }
    ensures grown { OnOk result (HasGrown F.is_element F.coding
        groups.old.entries (view frame.now) groups.new.entries) }
    ensures more { IfOk result (λ more. more ≡ cond
        (is_none (lookup (is_at (nat_cmp frame.now.header.group)) groups.old.entries))
        (cost_by F.coding.width frame.now.header.table.packets frame.now.header.table.layers) 0) }
    ensures cost { OnOk result (steps.new ≤ steps.old + step_bound
        (unwrap_or (option_map (λ g. count_in g.packets)
        (lookup (is_at (nat_cmp frame.now.header.group)) groups.old.entries)) 0)
        (stripe_lengths frame.now.header.table.layers)) }
    ensures err { OnErr result ((groups.new.entries ≡ groups.old.entries) × (steps.new ≡ steps.old)
        × (lookup (is_at (nat_cmp frame.now.header.group)) groups.old.entries ≡ None)) }
{
    let more = open_missing(alloc, field, groups, frame.header.group, &frame.header)?;
    keep_in(groups, frame, tag, steps);
    Ok(more)
}

/// Keeps a frame of an open group, and its tag, where that is told. It takes no memory.
fn keep_in<'f, F: Rows, L: Ledger>(
    groups: &mut BTreeMap<u32, OpenGroup<'f, F>>,
    frame: &Frame<'_>,
    tag: Option<[u8; 16]>,
    steps: &mut Steps<L>,
)
    requires width { F.coding.width ≤ 2 }
    requires points { frame.now.header.table.packets ≤ F.COUNT }
    requires frame { IsFrameBy F.coding.width (view frame.now) }
    requires tag { IfSome tag (λ bytes. bytes ≡ frame_tag (view frame.now)) }
    requires ready { IsReadyFor F.is_element F.coding groups.old.entries
        (view frame.now) }
    requires open { (g : GroupState F.Elem) × (lookup (is_at (nat_cmp frame.now.header.group))
        groups.old.entries ≡ Some g) }
    ensures ordered { IsOrdered nat_cmp groups.old }
    ensures kept { (g : GroupState F.Elem) → lookup (is_at (nat_cmp frame.now.header.group)) groups.old.entries ≡ Some g
        → (h : GroupState F.Elem) × (groups.new.entries ≡ set_value (is_at (nat_cmp frame.now.header.group)) groups.old.entries h) × (h.packets ≡ with_packet g.packets frame.now.number frame.now.payload.now)
        × ((numbers : List ℕ) → HoldsAfter F.is_element F.coding g numbers → HoldsAfter F.is_element F.coding h (numbers ++ (frame.now.number ∷ []))) }
    ensures cost { (g : GroupState F.Elem) → lookup (is_at (nat_cmp frame.now.header.group)) groups.old.entries ≡ Some g
        → steps.new ≤ steps.old + step_bound (count_in g.packets) (stripe_lengths frame.now.header.table.layers) }
{
    if let Some(open) = groups.get_mut(&frame.header.group) {
        open.keep(frame.number, frame.payload, steps);
        tag_open(open, frame.number, tag);
    }
}

/// Keeps the tag of a packet's frame, where it is told, beside the packet, which its group has kept. It takes no memory.
pub(crate) fn tag_open<'f, F: Rows>(
    group: &mut OpenGroup<'f, F>,
    number: u16,
    tag: Option<[u8; 16]>,
)
    requires { IfSome tag (IsTagOf group.old.packets number) }
    ensures { group.new ≡ group.old }
{
    if let Some(tag) = tag {
        group.keep_tag(number, tag);
    }
}
