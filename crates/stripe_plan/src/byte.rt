//! The table of a group of the byte profile, in which a word of the plan has one byte.
ghost use Rattle.std.specs.Prelude.{◌≡◌, ◌↔◌, map, None, Some, IsOk, IfOk, IfErr};
ghost use Rattle.stripe_plan.specs.Sizes.{IsByteTable, twofold};
ghost use Rattle.stripe_plan.specs.Faults.{byte_fault_of};

use crate::bounds::{BYTE_BOUNDS, measured, plan_table};
use crate::table::kept;
use crate::{LayerSize, Table, TableFault};
use arrayvec::ArrayVec;
use pet_base::MAX_LAYERS;
use std::marker::Model;

/// The packets and the layers of one group of the byte profile. Each byte of a layer is a word of the plan.
#[derive(Drop, Debug)]
pub struct ByteTable {
    layers: ArrayVec<LayerSize, MAX_LAYERS>,
    /// The same packets and needs, and twice each length.
    plan: Table,
}

impl Model for ByteTable {
    ghost use Rattle.std.specs.Prelude.{◌≡◌, map};
    ghost use Rattle.stripe_plan.specs.Sizes.{Sizes, IsByteTable as Bounds, twofold as double};

    ghost Value = { Sizes };

    ghost view = { λ t. record { packets = t.plan.packets; layers = t.layers.items } };

    ghost invariant = { λ t. Bounds t.plan.packets t.layers.items
        × (t.plan.layers ≡ map double t.layers.items) };
}

impl ByteTable {
    /// The table, or the first of its bounds that is broken, in the order of `TableFault`.
    pub fn new(packets: u16, layers: &[LayerSize]) -> Result<ByteTable, TableFault>
        ensures ok { IfOk result (λ table. (table.packets ≡ packets)
            × (table.layers ≡ layers.now)) }
        ensures accepted { IfOk result (λ table. byte_fault_of packets layers.now ≡ None) }
        ensures refused { IfErr result (λ fault. byte_fault_of packets layers.now ≡ Some fault) }
        ensures bounds { IsOk result ↔ IsByteTable packets layers.now }
    {
        measured(&BYTE_BOUNDS, packets, layers)?;
        Ok(ByteTable::known(packets, layers))
    }

    /// The table of packets and layers that are known to be within its bounds.
    pub fn known(packets: u16, layers: &[LayerSize]) -> ByteTable
        requires { IsByteTable packets layers.now }
        ensures { (result.packets ≡ packets) × (result.layers ≡ layers.now) }
    {
        ByteTable {
            layers: kept(layers),
            plan: plan_table(&BYTE_BOUNDS, packets, layers),
        }
    }

    /// The table with the same packets and needs, and twice each length: it has a word for each byte of the layers. It takes no
    /// memory, and cannot fail.
    pub fn plan(&self) -> &Table
        ensures packets { result.now.packets ≡ self.now.packets }
        ensures layers { result.now.layers ≡ map twofold self.now.layers }
        ensures bounds { IsByteTable self.now.packets self.now.layers }
    {
        &self.plan
    }

    /// The layers in order, from 1 to 32.
    pub fn layers(&self) -> &[LayerSize]
        ensures value { result.now ≡ self.now.layers }
        ensures bounds { IsByteTable self.now.packets self.now.layers }
    {
        self.layers.as_slice()
    }
}
