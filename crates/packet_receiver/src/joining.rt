//! Room for the groups that another receiver has kept, and their packets.
ghost use Rattle.std.specs.Prelude.{◌≡◌, ℕ, ◌+◌, ◌<◌, ◌≤◌, cond, true, nat_lt, filter, All, List, [], ◌∷◌, ◌++◌, Some, IfOk, OnOk, OnErr};
ghost use Rattle.packet_set.specs.Packets.{count_in};
ghost use Rattle.packet_group.specs.Tags.{AreTagsOf};
ghost use Rattle.pet_interp.specs.Progressive.{step_bound};
ghost use Rattle.packet_receiver.specs.Arrivals.{GroupState, HoldsAfter, layers_of, stripe_lengths};
ghost use Rattle.packet_verdicts.specs.Union.{is_new};
ghost use Rattle.packet_receiver.specs.inside.Joining.{OpensAll, IsReadyAt, IsFillable, HasFilled, CanJoin, JoinsOne, JoinsAll, with_theirs, packets_of, shown_by};

use crate::has_packets::HasPackets;
use crate::keeping::tag_open;
use crate::opening::open_missing;
use crate::shown::newly_shown;
use field_rows::Rows;
use packet_group::{OpenGroup, tag_in};
use packet_set::PacketSet;
use pet_base::{NoMemory, Steps};
use std::alloc::Global;
use std::collections::BTreeMap;
use std::sync::ledger::Ledger;

/// Takes in the packets of the other's groups, and answers the layers that are shown then and were not before. It takes
/// all its memory before it keeps the first packet: where memory ends, nothing has changed.
pub(crate) fn take_in<'f, F: Rows, L: Ledger>(
    alloc: Global,
    field: &'f F,
    groups: &mut BTreeMap<u32, OpenGroup<'f, F>>,
    others: &BTreeMap<u32, OpenGroup<'f, F>>,
    steps: &mut Steps<L>,
) -> Result<Vec<(u32, u8)>, NoMemory>
    requires width { F.coding.width ≤ 2 }
    requires points { All (λ e. e.1.packets.header.table.packets ≤ F.COUNT) others.now.entries }
    requires some { All (λ e. nat_lt 0 (count_in e.1.packets) ≡ true) groups.old.entries }
    requires ready { (opened : List (ℕ × GroupState F.Elem)) → OpensAll F.is_element F.coding groups.old.entries others.now.entries opened
        → CanJoin F.is_element F.coding opened others.now.entries }
    ensures shown { IfOk result (λ shown. shown.items ≡ shown_by (packets_of groups.old.entries)
        (packets_of others.now.entries)) }
    ensures joined { OnOk result ((opened : List (ℕ × GroupState F.Elem)) × OpensAll F.is_element F.coding groups.old.entries others.now.entries opened
        × JoinsAll F.is_element F.coding opened steps.old others.now.entries groups.new.entries steps.new) }
    ensures err { OnErr result ((groups.new.entries ≡ groups.old.entries) × (steps.new ≡ steps.old)) }
{
    let shown = newly_shown(alloc, groups, others)?;
    open_all(alloc, field, groups, others)?;
    join_all(groups, others, steps);
    Ok(shown)
}

/// Opens each group of the other's that is not open here. Where memory ends, nothing has changed.
fn open_all<'f, F: Rows>(
    alloc: Global,
    field: &'f F,
    groups: &mut BTreeMap<u32, OpenGroup<'f, F>>,
    others: &BTreeMap<u32, OpenGroup<'f, F>>,
) -> Result<(), NoMemory>
    requires width { F.coding.width ≤ 2 }
    requires some { All (λ e. nat_lt 0 (count_in e.1.packets) ≡ true) groups.old.entries }
    ensures opened { OnOk result (OpensAll F.is_element F.coding groups.old.entries
        others.now.entries groups.new.entries) }
    ensures err { OnErr result (groups.new.entries ≡ groups.old.entries) }
{
    let opened = open_each(alloc, field, groups, others);
    if opened.is_err() {
        close_empty(groups);
    }
    opened
}

/// Opens each group of the other's that is not open here, as far as there is memory.
fn open_each<'f, F: Rows>(
    alloc: Global,
    field: &'f F,
    groups: &mut BTreeMap<u32, OpenGroup<'f, F>>,
    others: &BTreeMap<u32, OpenGroup<'f, F>>,
) -> Result<(), NoMemory>
    requires width { F.coding.width ≤ 2 }
    ensures opened { OnOk result (OpensAll F.is_element F.coding groups.old.entries
        others.now.entries groups.new.entries) }
    ensures same { filter (λ e. nat_lt 0 (count_in e.1.packets)) groups.new.entries
        ≡ filter (λ e. nat_lt 0 (count_in e.1.packets)) groups.old.entries }
{
    for (group, other) in others.iter() {
        open_missing(alloc, field, groups, *group, other.packets().header())?;
    }
    Ok(())
}

/// Takes out the groups that have no packet.
fn close_empty<G: HasPackets + Drop>(groups: &mut BTreeMap<u32, G>)
    ensures { groups.new.entries
        ≡ filter (λ e. nat_lt 0 (count_in (G.kept e.1))) groups.old.entries }
{
    groups.retain(|_, open| open.packets().len() > 0);
}

/// Takes in the packets of all groups. It takes no memory.
fn join_all<'f, F: Rows, L: Ledger>(
    groups: &mut BTreeMap<u32, OpenGroup<'f, F>>,
    others: &BTreeMap<u32, OpenGroup<'f, F>>,
    steps: &mut Steps<L>,
)
    requires points { All (λ e. e.1.packets.header.table.packets ≤ F.COUNT) others.now.entries }
    requires ready { CanJoin F.is_element F.coding groups.old.entries others.now.entries }
    ensures joined { JoinsAll F.is_element F.coding groups.old.entries steps.old
        others.now.entries groups.new.entries steps.new }
{
    for (group, other) in others.iter() {
        join_at(groups, *group, other.packets(), other.tags(), steps);
    }
}

/// Takes in the packets of one group, which is open, with their frames' tags, where these are told.
fn join_at<'f, F: Rows, L: Ledger>(
    groups: &mut BTreeMap<u32, OpenGroup<'f, F>>,
    group: u32,
    theirs: &PacketSet,
    tags: &[Option<[u8; 16]>],
    steps: &mut Steps<L>,
)
    requires points { theirs.now.header.table.packets ≤ F.COUNT }
    requires tags { AreTagsOf theirs.now tags.now }
    requires ready { IsReadyAt F.is_element F.coding groups.old.entries group theirs.now }
    ensures joined { JoinsOne F.is_element F.coding groups.old.entries group theirs.now
        steps.old groups.new.entries steps.new }
{
    if let Some(open) = groups.get_mut(&group) {
        join_open(open, theirs, tags, steps);
    }
}

/// Takes in the packets of an open group.
fn join_open<'f, F: Rows, L: Ledger>(
    mine: &mut OpenGroup<'f, F>,
    theirs: &PacketSet,
    tags: &[Option<[u8; 16]>],
    steps: &mut Steps<L>,
)
    requires points { theirs.now.header.table.packets ≤ F.COUNT }
    requires tags { AreTagsOf theirs.now tags.now }
    requires ready { IsFillable F.is_element F.coding mine.old theirs.now }
    ensures { HasFilled F.is_element F.coding mine.old theirs.now steps.old mine.new steps.new }
{
    for number in 0..theirs.header().table.packets() {
        join_number(mine, theirs, tags, number, steps);
    }
}

/// Takes in the packet of one number, where it is kept there and not here.
fn join_number<'f, F: Rows, L: Ledger>(
    mine: &mut OpenGroup<'f, F>,
    theirs: &PacketSet,
    tags: &[Option<[u8; 16]>],
    number: u16,
    steps: &mut Steps<L>,
)
    requires points { theirs.now.header.table.packets ≤ F.COUNT }
    requires tags { AreTagsOf theirs.now tags.now }
    requires ready { IsFillable F.is_element F.coding mine.old theirs.now }
    requires number { number < mine.old.packets.header.table.packets }
    ensures packets { mine.new.packets ≡ with_theirs mine.old.packets theirs.now number }
    ensures held { (numbers : List ℕ) → HoldsAfter F.is_element F.coding mine.old numbers
        → HoldsAfter F.is_element F.coding mine.new
        (numbers ++ cond (is_new (Some mine.old.packets) theirs.now number) (number ∷ []) []) }
    ensures cost { steps.new ≤ steps.old + cond (is_new (Some mine.old.packets) theirs.now number)
        (step_bound (count_in mine.old.packets) (stripe_lengths (layers_of mine.old.packets))) 0 }
{
    if mine.packets().has(number) {
        return;
    }
    if let Some(payload) = theirs.payload(number) {
        mine.keep(number, payload, steps);
        tag_open(mine, number, tag_in(tags, number));
    }
}
