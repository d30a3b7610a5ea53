//! Room for one group more.
ghost use Rattle.std.specs.Prelude.{◌≡◌, ◌≤◌, cond, is_none, [], None, IfOk, OnOk, OnErr};
ghost use Rattle.std.specs.Ordering.{nat_cmp};
ghost use Rattle.std.specs.BTreeMap.{is_at, insert_entry};
ghost use Rattle.std.specs.Map.{lookup};
ghost use Rattle.packet_set.specs.Packets.{no_packets_of};
ghost use Rattle.stripe_plan.specs.Sizes.{cost_by};
ghost use Rattle.packet_receiver.specs.Arrivals.{GroupState, HoldsAfter};
ghost use Rattle.packet_receiver.specs.inside.Joining.{OpensOne};

use field_rows::Rows;
use packet_frame::Header;
use packet_group::OpenGroup;
use packet_session::group_cost_by;
use pet_base::NoMemory;
use std::alloc::Global;
use std::collections::BTreeMap;

/// Opens a group where it is not open, and answers by how much the cost of the open groups rises. It takes memory only
/// where the group is not open.
pub(crate) fn open_missing<'f, F: Rows>(
    alloc: Global,
    field: &'f F,
    groups: &mut BTreeMap<u32, OpenGroup<'f, F>>,
    group: u32,
    header: &Header,
) -> Result<u64, NoMemory>
    requires width { F.coding.width ≤ 2 }
    ensures opened { OnOk result (OpensOne F.is_element F.coding groups.old.entries
        group header.now groups.new.entries) }
    ensures more { IfOk result (λ more. more ≡ cond
        (is_none (lookup (is_at (nat_cmp group)) groups.old.entries))
        (cost_by F.coding.width header.now.table.packets header.now.table.layers) 0) }
    ensures err { OnErr result ((groups.new.entries ≡ groups.old.entries)
        × (lookup (is_at (nat_cmp group)) groups.old.entries ≡ None)) }
{
    if groups.contains_key(&group) {
        return Ok(0);
    }
    open_group(alloc, field, groups, group, header)?;
    Ok(group_cost_by(&header.table, F::WIDTH as u32))
}

/// Opens a group that is not open.
fn open_group<'f, F: Rows>(
    alloc: Global,
    field: &'f F,
    groups: &mut BTreeMap<u32, OpenGroup<'f, F>>,
    group: u32,
    header: &Header,
) -> Result<(), NoMemory>
    requires width { F.coding.width ≤ 2 }
    ensures opened { OnOk result ((g : GroupState F.Elem)
        × (groups.new.entries ≡ insert_entry nat_cmp groups.old.entries group g)
        × (g.packets ≡ no_packets_of F.coding.width header.now)
        × HoldsAfter F.is_element F.coding g []) }
    ensures err { OnErr result (groups.new.entries ≡ groups.old.entries) }
{
    put(groups, group, OpenGroup::open(alloc, field, header)?)
}

/// Puts what is kept of a group among the others.
fn put<G: Drop>(groups: &mut BTreeMap<u32, G>, group: u32, kept: G) -> Result<(), NoMemory>
    ensures put { OnOk result (groups.new.entries
        ≡ insert_entry nat_cmp groups.old.entries group kept) }
    ensures err { OnErr result (groups.new.entries ≡ groups.old.entries) }
{
    groups.insert(group, kept)?;
    Ok(())
}
