//! Splits the pieces of a stream into groups, and each group into layers by a priority.
//!
//! `specs/` defines on the list of pieces the groups, the places of P and B pictures in them, their runs, the run table,
//! the layers' bytes and the message. `split` gives exactly the cuts of the groups or refuses by exactly the first fault;
//! `Splitter` does the same for pieces that come one by one, and holds one group. `layer_bytes` and `message` append
//! exactly those bytes, and after want of memory leave the vector as it was. `read_run_table` gives the runs that a run
//! table names exactly where that table fits the layers.
#![tactic(auto)]

mod bytes;
mod cut;
mod fault;
mod kind_layers;
mod lengths;
mod places;
mod run_table;
mod runs;
mod splitter;
mod whole;

pub use bytes::{layer_bytes, message, message_by};
pub use cut::{GroupCut, Run};
pub use fault::SplitFault;
pub use run_table::{NamedRun, read_run_table};
pub use splitter::Splitter;
pub use whole::split;
