//! The tables of groups that come one by one.
ghost use Rattle.std.specs.Prelude.{◌≡◌, ◌≢◌, ◌<◌, ◌≤◌, ◌++◌, ◌∷◌, ℕ, List, [], length, Some, None, IfOk, IfErr, OnOk, position};
ghost use Rattle.pet_base.specs.declared.limits.TheConstants.{MAX_GROUPS, MAX_SESSION};
ghost use Rattle.priority_file.specs.Priority.{Priorities};
ghost use Rattle.layer_split.specs.Layers.{Cut};
ghost use Rattle.stream_session.specs.declared.fault.SessionFault.{SessionFault};
ghost use Rattle.stream_session.specs.Tables.{tables_of_in, IsFit, IsSessionFormat};
ghost use Rattle.stream_session.specs.Refusals.{fault_of_cuts_in, is_long_in, is_wide_in};
ghost use Rattle.stream_session.specs.Planning.{HasTables};
ghost use Rattle.stream_session.specs.inside.Planning.{Takes, IsLongMade};

use crate::fault::SessionFault;
use crate::needs::LayerNeeds;
use crate::total::first_too_large;
use arrayvec::ArrayVec;
use layer_split::GroupCut;
use packet_frame::Format;
use pet_base::{MAX_LAYERS, NoMemory};
use priority_file::Priority;
use std::alloc::Global;
use std::marker::Model;
use stripe_plan::{LayerSize, Table, TableFault};

/// The layers of a group, of which no bound is known.
#[derive(Drop)]
pub(crate) struct GroupLayers {
    layers: ArrayVec<LayerSize, MAX_LAYERS>,
}

impl Model for GroupLayers {
    ghost use Rattle.std.specs.Prelude.{List};
    ghost use Rattle.stripe_plan.specs.declared.layer.LayerSize.{LayerSize};

    ghost Value = { List LayerSize };

    ghost view = { λ g. g.layers.items };
}

impl GroupLayers {
    /// The layers in order.
    fn as_slice(&self) -> &[LayerSize]
        ensures { result.now ≡ self.now }
    {
        self.layers.as_slice()
    }
}

/// Makes the tables of a stream's groups, whose cuts come one by one.
#[derive(Drop)]
pub(crate) struct GroupTables {
    needs: LayerNeeds,
    /// Those of the groups so far.
    layers: Vec<GroupLayers>,
}

impl GroupTables {
    /// The tables of no group under this priority.
    pub(crate) fn new(alloc: Global, priority: &Priority) -> GroupTables
        ensures { HasTables result priority.now [] }
    {
        GroupTables {
            needs: LayerNeeds::new(priority),
            layers: Vec::new(alloc),
        }
    }

    /// Keeps the layers of the next group.
    pub(crate) fn keep(&mut self, cut: &GroupCut) -> Result<(), NoMemory>
        ensures kept { OnOk result ((priority : Priorities) (cuts : List Cut) → length cuts < MAX_GROUPS → IsFit priority cut.now
            → HasTables self.old priority cuts → HasTables self.new priority (cuts ++ cut.now ∷ [])) }
        ensures needs { self.new.needs ≡ self.old.needs }
    {
        let layers = self.needs.layers_of(cut);
        self.layers.push(GroupLayers { layers })?;
        Ok(())
    }

    /// Whether the format allows as many packets, or that it does not.
    pub(crate) fn allowed(&self, format: &Format) -> Result<(), SessionFault>
        ensures few { OnOk result (self.now.needs.packets ≤ format.now.bounds.packets) }
        ensures many { IfErr result (λ fault. (format.now.bounds.packets < self.now.needs.packets)
            × (fault ≡ SessionFault.ManyPackets self.now.needs.packets)) }
        ensures told { IfErr result (λ fault. fault ≢ SessionFault.NoMemory) }
    {
        if format.bounds.packets < self.needs.packets() {
            return Err(SessionFault::ManyPackets(self.needs.packets()));
        }
        Ok(())
    }

    /// The tables of a format that allows as many packets, or the first cause that holds against the groups, where a session may
    /// have so many bytes.
    pub(crate) fn judged(self, format: &Format, limit: u64) -> Result<Vec<Table>, SessionFault>
        requires format { IsSessionFormat format.now }
        requires few { self.needs.packets ≤ format.now.bounds.packets }
        requires limit { limit ≤ MAX_SESSION }
        ensures tables { IfOk result (λ tables. (priority : Priorities) (cuts : List Cut) → HasTables self priority cuts
            → (fault_of_cuts_in format.now limit priority cuts ≡ None)
            × (tables.items ≡ tables_of_in format.now priority cuts)) }
        ensures refused { IfErr result (λ fault. fault ≢ SessionFault.NoMemory → (priority : Priorities) (cuts : List Cut)
            → HasTables self priority cuts → fault_of_cuts_in format.now limit priority cuts ≡ Some fault) }
    {
        let tables = self.tables_in(format)?;
        match first_too_large(format.word as u32, &tables, limit) {
            Some(group) => Err(SessionFault::TooLarge(group)),
            None => Ok(tables),
        }
    }

    /// The tables, or the first group that is too long, or else the first that is too wide.
    fn tables_in(&self, format: &Format) -> Result<Vec<Table>, SessionFault>
        requires format { IsSessionFormat format.now }
        requires few { self.now.needs.packets ≤ format.now.bounds.packets }
        ensures tables { IfOk result (λ tables. (priority : Priorities) (cuts : List Cut) → HasTables self.now priority cuts
            → (position (is_long_in format.now priority) cuts ≡ None)
            × (position (is_wide_in format.now priority) cuts ≡ None)
            × (tables.items ≡ tables_of_in format.now priority cuts)) }
        ensures refused { IfErr result (λ fault. fault ≢ SessionFault.NoMemory → (limit : ℕ) (priority : Priorities) (cuts : List Cut)
            → HasTables self.now priority cuts → fault_of_cuts_in format.now limit priority cuts ≡ Some fault) }
    {
        let mut tables = Vec::new(*self.layers.allocator());
        let mut wide = None;
        for group in 0..self.layers.len() {
            let number = group.min(u32::MAX as usize) as u32;
            let made = self.needs.table_of(format, self.layers[group].as_slice());
            take_made(made, number, &mut tables, &mut wide)?;
        }
        match wide {
            Some(group) => Err(SessionFault::TooWide(group)),
            None => Ok(tables),
        }
    }
}

/// Takes what was made of the layers of the group of this number: a table more, or the number where it is the first that is too
/// wide, or the fault that it is too long.
fn take_made(
    made: Result<Table, TableFault>,
    number: u32,
    tables: &mut Vec<Table>,
    wide: &mut Option<u32>,
) -> Result<(), SessionFault>
    ensures taken { OnOk result (Takes made number tables.old.items wide.old tables.new.items
        wide.new) }
    ensures fault { IfErr result (λ fault. fault ≢ SessionFault.NoMemory → IsLongMade made
        × (fault ≡ SessionFault.ByteLong number)) }
{
    match made {
        Ok(table) => {
            if tables.push(table).is_err() {
                return Err(SessionFault::NoMemory);
            }
        }
        Err(TableFault::Wide) => {
            if wide.is_none() {
                *wide = Some(number);
            }
        }
        Err(_) => return Err(SessionFault::ByteLong(number)),
    }
    Ok(())
}
