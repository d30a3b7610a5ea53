//! The table of a group, and its bounds.
ghost use Rattle.std.specs.Prelude.{◌≡◌, ◌+◌, ◌*◌, ◌≤◌, ◌↔◌, [], length, None, Some, Ok, IsOk, IfOk, IfErr, IsTrue, ⊤};
ghost use Rattle.stripe_plan.specs.Layers.{needs_of, plan_ends, stripes_from};
ghost use Rattle.stripe_plan.specs.Stripes.{IsPlan};
ghost use Rattle.stripe_plan.specs.Sizes.{IsTable, bytes_of};
ghost use Rattle.stripe_plan.specs.Same.{same_table};
ghost use Rattle.stripe_plan.specs.laws.SameLaws.{same_table_laws};
ghost use Rattle.std.specs.Cmp.{partial_equiv_from_equiv};
ghost use Rattle.stripe_plan.specs.Faults.{fault_of};

use crate::LayerSize;
use crate::bounds::{BOUNDS, measured};
use crate::layer::total_words;
use arrayvec::ArrayVec;
use pet_base::MAX_LAYERS;
use std::alloc::AllocError;
use std::marker::Model;

/// Why there is no such table.
#[derive(Clone, Copy, Debug, PartialEq, Eq)]
pub enum TableFault {
    /// No packets, or more than the bounds allow: 4,096 in a `Table` and in an `OldTable`, 255 in a `ByteTable`.
    Packets,
    /// No layers, or more than the bounds allow: 32 in each of the three tables.
    Layers,
    /// A need of 0, or above the number of packets.
    Need,
    /// More bytes in all layers than the bounds allow: 4,194,304 in a `Table` and in an `OldTable`, 2,097,152 in a `ByteTable`.
    Sum,
    /// A datagram of more than 65,000 bytes, where each stripe has two.
    Wide,
}

/// The packets and the layers of one group.
#[derive(Drop, Debug)]
pub struct Table {
    packets: u16,
    layers: ArrayVec<LayerSize, MAX_LAYERS>,
}

impl Model for Table {
    ghost use Rattle.stripe_plan.specs.Sizes.{Sizes, IsTable as Bounds};

    ghost Value = { Sizes };

    ghost view = { λ t. record { packets = t.packets; layers = t.layers.items } };

    ghost invariant = { λ t. Bounds t.packets t.layers.items };

    ghost inverse = { λ s. record { packets = s.packets; layers = record { items = s.layers } } };
}

impl Table {
    /// The table, or the first of its bounds that is broken, in the order of `TableFault`.
    pub fn new(packets: u16, layers: &[LayerSize]) -> Result<Table, TableFault>
        ensures ok { IfOk result (λ table. (table.packets ≡ packets)
            × (table.layers ≡ layers.now)) }
        ensures accepted { IfOk result (λ table. fault_of packets layers.now ≡ None) }
        ensures refused { IfErr result (λ fault. fault_of packets layers.now ≡ Some fault) }
        ensures bounds { IsOk result ↔ IsTable packets layers.now }
    {
        measured(&BOUNDS, packets, layers)?;
        Ok(Table {
            packets,
            layers: kept(layers),
        })
    }

    /// The table of packets and layers that are known to be within its bounds.
    pub fn known(packets: u16, layers: &[LayerSize]) -> Table
        requires { IsTable packets layers.now }
        ensures { (result.packets ≡ packets) × (result.layers ≡ layers.now) }
    {
        Table {
            packets,
            layers: kept(layers),
        }
    }

    /// The number of packets, from 1 to 4,096.
    pub fn packets(&self) -> u16
        ensures value { result ≡ self.now.packets }
        ensures bounds { IsTable self.now.packets self.now.layers }
    {
        self.packets
    }

    /// The layers in order, from 1 to 32.
    pub fn layers(&self) -> &[LayerSize]
        ensures value { result.now ≡ self.now.layers }
        ensures bounds { IsTable self.now.packets self.now.layers }
        ensures sound { fault_of self.now.packets self.now.layers ≡ None }
    {
        self.layers.as_slice()
    }

    /// The number of words of all layers. The plan's stripes end there.
    pub fn words(&self) -> u32
        ensures words { result ≡ length (needs_of self.now.layers) }
        ensures plan { IsPlan (needs_of self.now.layers) 0 (plan_ends self.now.layers) }
        ensures few { 2 * result ≤ bytes_of self.now.layers + length self.now.layers }
        ensures last { stripes_from self.now.layers result ≡ [] }
        ensures bounds { IsTable self.now.packets self.now.layers }
    {
        total_words(self.layers.as_slice())
    }
}

impl Clone for Table {
    ghost is_clone = { λ table other. other ≡ table };

    ghost is_infallible = { λ _. ⊤ };

    fn clone(&self) -> Result<Table, AllocError>
        ensures { result ≡ Ok self.now }
    {
        Ok(Table {
            packets: self.packets,
            layers: kept(self.layers.as_slice()),
        })
    }
}

impl PartialEq for Table {
    ghost eq = { same_table };

    ghost laws = { partial_equiv_from_equiv same_table_laws };

    fn eq(&self, other: &Table) -> bool
        ensures value { result ≡ same_table self.now other.now }
        ensures exact { IsTrue result ↔ (self.now ≡ other.now) }
    {
        self.packets == other.packets && self.layers.as_slice() == other.layers.as_slice()
    }
}

impl Eq for Table {
    ghost laws = { same_table_laws };
}

/// The layers, in a row of their own.
pub(crate) fn kept(layers: &[LayerSize]) -> ArrayVec<LayerSize, MAX_LAYERS>
    requires { length layers.now ≤ MAX_LAYERS }
    ensures { result.items ≡ layers.now }
{
    let mut kept = ArrayVec::new();
    for layer in layers {
        kept.push(*layer);
    }
    kept
}
