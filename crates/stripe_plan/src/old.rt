//! The table of a group in the frames of the first version.
ghost use Rattle.std.specs.Prelude.{◌≡◌, ◌↔◌, length, None, Some, IsOk, IfOk, IfErr, IfSome, MatchOption};
ghost use Rattle.stripe_plan.specs.Layers.{plan_ends};
ghost use Rattle.stripe_plan.specs.Sizes.{IsOldTable, IsTable};
ghost use Rattle.stripe_plan.specs.Faults.{fault_of, old_fault_of};

use crate::bounds::{OLD_BOUNDS, measured};
use crate::runs::plan_len;
use crate::table::kept;
use crate::{LayerSize, Table, TableFault};
use arrayvec::ArrayVec;
use pet_base::MAX_LAYERS;
use std::marker::Model;

/// The packets and the layers of one group, within the bounds of the first version.
#[derive(Drop, Debug)]
pub struct OldTable {
    packets: u16,
    layers: ArrayVec<LayerSize, MAX_LAYERS>,
}

impl Model for OldTable {
    ghost use Rattle.stripe_plan.specs.Sizes.{Sizes, IsOldTable as Bounds};

    ghost Value = { Sizes };

    ghost view = { λ t. record { packets = t.packets; layers = t.layers.items } };

    ghost invariant = { λ t. Bounds t.packets t.layers.items };

    ghost inverse = { λ s. record { packets = s.packets; layers = record { items = s.layers } } };
}

impl OldTable {
    /// The table, or the first of its bounds that is broken, in the order of `TableFault`.
    pub fn new(packets: u16, layers: &[LayerSize]) -> Result<OldTable, TableFault>
        ensures ok { IfOk result (λ table. (table.packets ≡ packets)
            × (table.layers ≡ layers.now)) }
        ensures accepted { IfOk result (λ table. old_fault_of packets layers.now ≡ None) }
        ensures refused { IfErr result (λ fault. old_fault_of packets layers.now ≡ Some fault) }
        ensures bounds { IsOk result ↔ IsOldTable packets layers.now }
    {
        measured(&OLD_BOUNDS, packets, layers)?;
        Ok(OldTable {
            packets,
            layers: kept(layers),
        })
    }

    /// The table of packets and layers that are known to be within its bounds.
    pub fn known(packets: u16, layers: &[LayerSize]) -> OldTable
        requires { IsOldTable packets layers.now }
        ensures { (result.packets ≡ packets) × (result.layers ≡ layers.now) }
    {
        OldTable {
            packets,
            layers: kept(layers),
        }
    }

    /// The number of packets, from 1 to 4,096.
    pub fn packets(&self) -> u16
        ensures value { result ≡ self.now.packets }
        ensures bounds { IsOldTable self.now.packets self.now.layers }
    {
        self.packets
    }

    /// The layers in order, from 1 to 32.
    pub fn layers(&self) -> &[LayerSize]
        ensures value { result.now ≡ self.now.layers }
        ensures bounds { IsOldTable self.now.packets self.now.layers }
    {
        self.layers.as_slice()
    }

    /// The number of stripes of the plan.
    pub fn stripes(&self) -> u32
        ensures { result ≡ length (plan_ends self.now.layers) }
    {
        plan_len(self.layers())
    }

    /// The table with the same packets and layers, and none exactly where its frames would be too wide.
    pub fn table(&self) -> Option<Table>
        ensures { MatchOption result
            (fault_of self.now.packets self.now.layers ≡ Some TableFault.Wide)
            (λ table. (table.packets ≡ self.now.packets) × (table.layers ≡ self.now.layers)) }
    {
        match Table::new(self.packets, self.layers.as_slice()) {
            Ok(table) => Some(table),
            Err(_) => None,
        }
    }
}
