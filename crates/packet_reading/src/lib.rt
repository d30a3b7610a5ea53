//! The loop that reads the datagrams of a file or of a link and writes the layers of a session that they show, of any format and
//! over any field.
//!
//! `read_layers` makes FROM ready, prints the port of a link, makes LAYERS, and reads the datagrams one by one. What stands in
//! LAYERS then, or where it stops, is in `specs/Layers.antt`: the layers text of the datagrams that were read, or a front of it,
//! and the numbers of these. `begin` is its first part alone (`specs/Begun.antt`). That the layers text and the numbers of the
//! packets of a session are the session's own, which the packets met say, is `specs/laws/SessionLaws.antt`. The first failure of
//! a file, of the link or of the output ends a reading.
#![tactic(auto)]

mod opening;
mod reading;

pub use opening::begin;
pub use reading::{LayersRead, Totals, read_layers};
