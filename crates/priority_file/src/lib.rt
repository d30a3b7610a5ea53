//! The priority file: which kinds of pieces of a video stream make up which layer, which P and B pictures go to another
//! layer by their place in the group, and how many packets each layer needs. It meets the definitions of an accepted
//! priority file and of the refusal of one.
//!
//! `read_priority` accepts exactly the accepted files, with exactly their layers, and refuses every other file by the
//! first cause that holds of it. A `Priority` has each kind in exactly one layer, each place in one layer at most and Head
//! in layer 0, and its needs are from 1 to its number of packets, in any order.
#![tactic(auto)]

mod bounds;
mod draft;
mod fault;
mod keys;
mod kinds;
mod members;
mod priority;
mod read;
mod rules;

pub use bounds::{LONGEST_NAME, bounds_are};
pub use fault::PriorityFault;
pub use kinds::{KindSet, LAST_PLACE};
pub use priority::{LayerRule, Priority};
pub use read::read_priority;
