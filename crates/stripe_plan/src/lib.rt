//! The table of a group, and the plan that cuts the words of its layers into stripes.
//!
//! A table is a number of packets and, for each layer, its length in bytes and its need; the layers' words on end are cut
//! into stripes that respect the needs. A `Table` keeps its bounds, and `Table::new` refuses by exactly the first bound
//! that is broken. The plan is the partition in which every stripe is as long as any respecting stripe from its start. No
//! respecting partition has fewer stripes, and the plan has at most as many as the layers would have if each were cut for
//! itself. All of it holds for needs in any order.
//!
//! What bounds a table is a value, `Bounds`: `measured` tells the stripes of layers within it, or the first bound that is
//! broken. `Table`, `OldTable` and `ByteTable` are its three instances. The first two differ by the length of the tag of their
//! frames. The third is that of the byte profile, in which each byte of a layer is a word of the plan: its plan is that of the
//! `Table` of twice the lengths.
//!
//! No call takes memory, and none takes a step a word or a stripe: they go by the layers, and by runs of equal stripes.
#![tactic(auto)]

mod bounds;
mod byte;
mod layer;
mod longest;
mod old;
mod plan;
mod runs;
mod table;
mod walk;

pub use bounds::{
    BOUNDS, BYTE_BOUNDS, Bounds, MAX_BYTE_PACKETS, OLD_BOUNDS, bounds_are, measured, plan_table,
};
pub use byte::ByteTable;
pub use layer::{LayerSize, first_word, layer_words};
pub use old::OldTable;
pub use plan::{bound, count, counts, datagram_length, datagram_length_by, next_start, stripes};
pub use table::{Table, TableFault};
pub use walk::PlanStripes;
